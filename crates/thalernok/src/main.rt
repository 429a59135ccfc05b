// The program: reads a sheet from standard input and prints its listing, or the line of its refusal.
#![tactic(auto)]

fn main() {
    let mut sheet = [0; 16384];
    let mut states = [0; 1024];
    let mut starts = [0; 1025];
    let mut successors = [0; 8192];
    let mut rounds = [0; 1024];
    let mut choices = [0; 1024];
    let mut marks = [0; 1024];
    let mut out = [0; listing::LISTING_ROOM];
    let n = io::read_full(0, &mut sheet);
    let k = report::report(
        &sheet[..n],
        &mut states,
        &mut starts,
        &mut successors,
        &mut rounds,
        &mut choices,
        &mut marks,
        &mut out,
    );
    io::write_all(1, &out[..k]);
}
