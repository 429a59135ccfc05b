// The marking of a game in tables: what a coalition can secure in one position, the counts before the first round, and the choices.
#![tactic(auto)]

ghost use Rattle.std.specs.List.{All};
ghost use Rattle.std.specs.Prelude.{◌≡◌, cond, eqb, position, ◌<◌, ◌≤◌, get_or, length, IfSome};
ghost use Rattle.atl.specs.Bounded.{tabulate};
ghost use Rattle.atl.specs.Marking.{secures, force, unset, plan as plan_of, choice as choice_of};
ghost use Rattle.radix.specs.Classes.{moves_at};
ghost use Rattle.marking.specs.Table.{side};
ghost use Rattle.marking.specs.Flags.{first_of};
ghost use Rattle.marking.specs.Board.{game_of, aimed, marked_by, passable, Tried, secured};

pub mod game;

use facts::FactSet;
pub use game::Board;
use std::ops::Range;

// The count and the choice of a position that has none: document 01 has 65,535 for it in the tables.
pub const UNSET: u16 = u16::MAX;

// The positions of count at most `r` in the table; or, where `want` is false, the others. `want` is a side of the game (`side`), which contracts name, and no step to run.
#[derive(Clone, Copy)]
pub struct Aim<'a> {
    pub table: &'a [u16],
    pub r: u16,
    pub want: bool,
}

impl<'a> Aim<'a> {
    // Is position `i` one of them?
    pub fn holds(self, i: usize) -> bool
        requires { i < length self.table.now }
        ensures { result ≡ aimed self.entry i }
    {
        (self.table[i] <= self.r) == self.want
    }
}

// The positions that node `k` marks.
#[derive(Clone, Copy)]
pub struct Marked<'a> {
    pub marks: &'a [u64],
    pub k: u8,
}

impl<'a> Marked<'a> {
    // Is position `i` one of them?
    pub fn holds(self, i: usize) -> bool
        requires { i < length self.marks.now }
        ensures { result ≡ marked_by self.entry i }
    {
        FactSet::from(self.marks[i]).has(self.k)
    }
}

// Whether position `i` may be passed through: all may, where no node says which.
pub fn permitted(through: Option<Marked>, i: usize) -> bool
    requires { IfSome through (λ m. i < length m.marks.now) }
    ensures { result ≡ passable through.entry i }
{
    match through {
        Some(node) => node.holds(i),
        None => true,
    }
}

// The flags are written and the rest is only read: a struct of both would be taken apart again by each function, so `Tried` names what they ask.
// A flag for each class of position `i`: 1 where some joint move of the class leads to no position of `aim`.
fn strike(board: Board, aim: Aim, i: usize, flags: &mut [u16])
    requires { Tried board aim.table.now i flags.old }
    ensures { flags.new ≡ secured board.entry (aimed aim.entry) i flags.old }
{
    let Range { start, end } = board.joints.places(i);
    flags[..end - start].fill(0);
    for p in start..end {
        if !aim.holds(usize::from(board.joints.successors[p])) {
            flags[usize::from(board.classes[p])] = 1;
        }
    }
}

// The lowest joint move whose class is not struck out.
fn lowest_clean(classes: &[u16], flags: &[u16]) -> Option<usize>
    requires { All (λ c. c < length flags.now) classes.now }
    ensures { result ≡ position (λ c. eqb (get_or flags.now c 0) 0) classes.now }
{
    classes.iter().position(|&c| flags[usize::from(c)] == 0)
}

// The lowest choice in position `i` that secures the positions of `aim`.
fn force_at(board: Board, aim: Aim, i: usize, flags: &mut [u16]) -> Option<usize>
    requires { Tried board aim.table.now i flags.old }
    ensures { result ≡ first_of (moves_at board.entry.joints.starts.now i) (secures (game_of board.entry) (aimed aim.entry) i) }
{
    let Range { start, end } = board.joints.places(i);
    strike(board, aim, i, flags);
    lowest_clean(&board.classes[start..end], flags)
}

// Whether some choice in position `i` secures the positions of `aim`; or, where these are the others, whether none secures them.
pub fn holds_at(board: Board, aim: Aim, i: usize, flags: &mut [u16]) -> bool
    requires { Tried board aim.table.now i flags.old }
    ensures { result ≡ side aim.entry.want (force (game_of board.entry) (aimed aim.entry)) i }
{
    force_at(board, aim, i, flags).is_some() == aim.want
}

// The table before the first round: count 0 for the positions that the node marks, or where not `want` for the others, and none for the rest.
pub fn begin(start: Marked, want: bool, rounds: &mut [u16])
    requires { length rounds.old ≤ length start.marks.now }
    ensures { rounds.new ≡ tabulate (length rounds.old) (λ i. cond (side want (marked_by start.entry) i) 0 unset) }
{
    for (i, round) in rounds.iter_mut().enumerate() {
        *round = if start.holds(i) == want { 0 } else { UNSET };
    }
}

// The choice of position `i`, which has none at count 0 and where there is no count: else the lowest that secures the positions of a lower count.
// Where none secures them it is the number of joint moves, as `choice` has it, a definition that keeps its meaning.
fn choose(board: Board, rounds: &[u16], i: usize, flags: &mut [u16]) -> u16
    requires { Tried board rounds.now i flags.old }
    ensures { result ≡ choice_of (game_of board.entry) rounds.now i }
{
    let count = rounds[i];
    if count == 0 || count == UNSET {
        return UNSET;
    }
    let aim = Aim {
        table: rounds,
        r: count - 1,
        want: true,
    };
    let Range { start, end } = board.joints.places(i);
    force_at(board, aim, i, flags).unwrap_or(end - start) as u16
}

// The table of choices.
pub fn plan(board: Board, rounds: &[u16], choices: &mut [u16], flags: &mut [u16])
    requires { (board.joints.n ≤ length rounds.now) × (length choices.old ≡ board.joints.n) × (length board.joints.successors.now ≤ length flags.old) }
    ensures { choices.new ≡ plan_of (game_of board.entry) rounds.now }
{
    for (i, choice) in choices.iter_mut().enumerate() {
        *choice = choose(board, rounds, i, flags);
    }
}
