// The printed listing and the line of a refusal, written into a lent buffer byte for byte.
//
// No function here asks anything of its caller. A buffer that is too short cuts the text, and a table reads as zero behind its end;
// with LISTING_ROOM bytes and at most 1,024 states nothing is cut. `Display` would not say where the text is cut, so the bytes are put by hand.
#![tactic(auto)]

mod text;

ghost use Rattle.std.specs.Prelude.{◌≡◌, ◌≤◌, ◌++◌, length, get_or};
ghost use Rattle.facts.specs.Bits.{bit};
ghost use Rattle.tables.specs.Lengths.{state_limit};
ghost use Rattle.io.specs.Counts.{IsPrefixLen};
ghost use Rattle.listing.specs.Text.{line_feed};
ghost use Rattle.listing.specs.Listing.{tables_in, moves_of, state_line, verdict_word, first_line, listing, refusal};
ghost use Rattle.listing.specs.Buffer.{Prints, Stands, line_room, listing_room, refusal_room};
ghost use Rattle.listing.specs.Wrote.{Adds};

use text::Text;

// Bytes enough for every listing of at most 1,024 states.
pub const LISTING_ROOM: usize = 47122;

// Bytes enough for every refusal.
pub const REFUSAL_ROOM: usize = 45;

// What a listing is made of: the tables of an answer, the number of the last node, and whether that node is EVENTUALLY.
#[derive(Clone, Copy)]
pub struct Shown<'a> {
    pub states: &'a [u64],
    pub starts: &'a [u16],
    pub marks: &'a [u64],
    pub rounds: &'a [u16],
    pub choices: &'a [u16],
    pub last: usize,
    pub eventually: bool,
}

// How many joint moves state i has.
fn moves_of(starts: &[u16], i: usize) -> u16
    ensures { result ≡ moves_of starts.now i }
{
    match starts.get(i..) {
        Some([from, to, ..]) => to.saturating_sub(*from),
        _ => 0,
    }
}

// The mark of a node at state i, 0 or 1.
fn mark_of(marks: &[u64], i: usize, node: usize) -> u64
    ensures { result ≡ bit (get_or marks.now i 0) node }
{
    let word = tables::entry(marks, i);
    if node < 64 { (word >> node) % 2 } else { 0 }
}

// Writes the line of state i.
fn put_state(text: &mut Text, shown: Shown, i: usize)
    ensures adds { Adds text.old (state_line (tables_in shown.entry) i) text.new }
    ensures short { i ≤ 9999 → length (state_line (tables_in shown.entry) i) ≤ line_room }
{
    text.number(i as u64, b' ');
    text.number(tables::entry(shown.states, i), b' ');
    text.number(u64::from(moves_of(shown.starts, i)), b' ');
    text.number(mark_of(shown.marks, i, shown.last), b' ');
    text.shown(shown.eventually, tables::entry(shown.rounds, i), b' ');
    text.shown(shown.eventually, tables::entry(shown.choices, i), b'\n');
}

// Writes the first line.
fn put_first(text: &mut Text, n: usize, moves: u16, verdict: bool)
    ensures { Adds text.old (first_line n moves verdict) text.new }
{
    text.bytes(b"ok ");
    text.number(n as u64, b' ');
    text.number(u64::from(moves), b' ');
    text.bytes(if verdict { b"yes\n" } else { b"no\n" });
}

// Writes the listing of n states at the buffer's start, and answers how many bytes it wrote.
pub fn print(out: &mut [u8], shown: Shown, n: usize, verdict: bool) -> usize
    ensures prints { Prints
        (listing (tables_in shown.entry) n verdict)
        out.old out.new result }
    ensures stands { n ≤ state_limit → listing_room ≤ length out.old → Stands
        (listing (tables_in shown.entry) n verdict)
        out.old out.new result }
    ensures prefix_len { IsPrefixLen result out.new }
{
    let mut text = Text::new(out);
    put_first(&mut text, n, tables::entry(shown.starts, n), verdict);
    for i in 0..n {
        put_state(&mut text, shown, i);
    }
    text.at
}

// Writes the line of a refusal at the buffer's start, and answers how many bytes it wrote.
pub fn print_refusal(out: &mut [u8], number: u64, place: u64) -> usize
    ensures prints { Prints (refusal number place) out.old out.new result }
    ensures stands { refusal_room ≤ length out.old → Stands (refusal number place) out.old out.new result }
    ensures prefix_len { IsPrefixLen result out.new }
{
    let mut text = Text::new(out);
    text.bytes(b"no ");
    text.number(number, b' ');
    text.number(place, b'\n');
    text.at
}
