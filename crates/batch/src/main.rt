// Solves many sheets from one stream and prints their listings one after another. In the stream a sheet stands behind its length,
// two bytes, low byte first. The tables are not cleared between sheets: the engine takes them as they are.
#![tactic(auto)]

// A sheet, the six tables that the engine fills, and what is printed.
#[derive(Drop)]
struct Room {
    sheet: [u8; 65535],
    states: [u64; 1024],
    starts: [u16; 1025],
    successors: [u16; 8192],
    rounds: [u16; 1024],
    choices: [u16; 1024],
    marks: [u64; 1024],
    out: [u8; listing::LISTING_ROOM],
}

impl Room {
    // Solves the next sheet of the stream: false where the stream ends.
    fn solve_next(&mut self) -> bool {
        let mut length = [0; 2];
        if io::read_full(0, &mut length) < 2 {
            return false;
        }
        let n = usize::from(u16::from_le_bytes(length));
        if io::read_full(0, &mut self.sheet[..n]) < n {
            return false;
        }
        let k = report::report(
            &self.sheet[..n],
            &mut self.states,
            &mut self.starts,
            &mut self.successors,
            &mut self.rounds,
            &mut self.choices,
            &mut self.marks,
            &mut self.out,
        );
        io::write_all(1, &self.out[..k])
    }
}

fn main() {
    let mut room = Room {
        sheet: [0; 65535],
        states: [0; 1024],
        starts: [0; 1025],
        successors: [0; 8192],
        rounds: [0; 1024],
        choices: [0; 1024],
        marks: [0; 1024],
        out: [0; listing::LISTING_ROOM],
    };
    for _ in 0..1000000000 {
        if !room.solve_next() {
            break;
        }
    }
}
