// Reads many sheets from one stream and prints a line for each: `ok`, rules and nodes, or `no`, number and place.
// In the stream a sheet stands behind its length, two bytes, low byte first.
#![tactic(auto)]

fn show(word: &[u8], a: u64, b: u64) {
    io::write_all(1, word);
    io::print_decimal(1, a);
    io::write_all(1, b" ");
    io::print_decimal(1, b);
    io::write_all(1, b"\n");
}

fn show_reading(s: &[u8]) {
    match sheet::read(s) {
        Ok(layout) => show(b"ok ", layout.rules as u64, u64::from(layout.nodes)),
        Err(refused) => show(
            b"no ",
            u64::from(u8::from(refused.fault)),
            refused.place as u64,
        ),
    }
}

// Each sheet up to the first that is cut. No `for`: how many sheets stand in the stream is not known before.
fn each(mut stream: &[u8]) {
    while let &[low, high, ref rest @ ..] = stream {
        let n = usize::from(u16::from_le_bytes([low, high]));
        if rest.len() < n {
            return;
        }
        let (s, later) = rest.split_at(n);
        show_reading(s);
        stream = later;
    }
}

fn main() {
    let mut stream = [0u8; 65536];
    let n = io::read_full(0, &mut stream);
    if let Some(sheets) = stream.get(..n) {
        each(sheets);
    }
}
