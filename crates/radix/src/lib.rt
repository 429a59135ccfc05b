// Joint moves as mixed radix numbers, role 0 slowest: the class of each joint move for a coalition.
// Two joint moves of a position have the same class exactly where they give the coalition's roles the same choices.
#![tactic(auto)]

ghost use Rattle.std.specs.Prelude.{◌≡◌, cond, ◌+◌, ◌<◌, ◌≤◌, get_or, length};
ghost use Rattle.facts.specs.Bits.{has};
ghost use Rattle.meaning.specs.Radix.{product};
ghost use Rattle.radix.specs.Classes.{row, class_of, filled, repeated, classed, Starts, Counted, Repeats};

use std::ops::Range;

// Joint moves in tables: `starts` has the place of the first one of each of `n` positions, then their number, and `successors` where each of them leads.
#[derive(Clone, Copy)]
pub struct Joints<'a> {
    pub n: usize,
    pub starts: &'a [u16],
    pub successors: &'a [u16],
}

impl<'a> Joints<'a> {
    // The places of the joint moves of position `i`.
    pub fn places(self, i: usize) -> Range<usize>
        requires { i + 1 < length self.starts.now }
        ensures { (result.start ≡ get_or self.entry.starts.now i 0) × (result.end ≡ get_or self.entry.starts.now (i + 1) 0) × (result.end < 65536) }
    {
        usize::from(self.starts[i])..usize::from(self.starts[i + 1])
    }
}

// What each further choice of role `r` adds to the class: its weight, and nothing outside the coalition.
fn rise(mask: u8, r: u8, w: usize) -> u16
    requires { (r < 8) × (w ≤ 65535) }
    ensures { result ≡ cond (has mask r) w 0 }
{
    if (mask >> r) % 2 == 1 { w as u16 } else { 0 }
}

// The first `w` classes are repeated to the end, each time higher by `add`.
fn grow(add: u16, w: usize, classes: &mut [u16])
    requires { Repeats classes.old w add }
    ensures { classes.new ≡ filled (repeated classes.old w add) classes.old (length classes.old) }
{
    for e in w..classes.len() {
        classes[e] = classes[e - w] + add;
    }
}

// The classes of the joint moves of a position, by its roles' counts of choices: grown role by role, the fastest first.
fn fill_position(counts: &[u16], mask: u8, classes: &mut [u16])
    requires { (length counts.now ≡ 4) × (length classes.old ≡ product (row counts.now 0)) × (0 < length classes.old) × (length classes.old ≤ 65535) }
    ensures { classes.new ≡ filled (class_of counts.now mask 0) classes.old (length classes.old) }
{
    let mut w = 1;
    classes[0] = 0;
    for r in (0..4).rev() {
        let add = rise(mask, r, w);
        let end = usize::from(counts[usize::from(r)]) * w;
        grow(add, w, &mut classes[..end]);
        w = end;
    }
}

// The classes of all joint moves, position by position.
pub fn fill_classes(n: usize, starts: &[u16], counts: &[u16], mask: u8, classes: &mut [u16])
    requires { Starts n starts.now (length classes.old) × Counted n starts.now counts.now }
    ensures { classes.new ≡ classed starts.now counts.now mask classes.old n }
{
    for i in 0..n {
        let first = usize::from(starts[i]);
        let last = usize::from(starts[i + 1]);
        fill_position(&counts[4 * i..4 * i + 4], mask, &mut classes[first..last]);
    }
}
