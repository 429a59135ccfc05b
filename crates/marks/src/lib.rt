// The marks of the nodes, bit j for node j, and for the last node the rounds and choices: over the model's tables at full size.
#![tactic(auto)]

ghost use Rattle.std.specs.Prelude.{◌≡◌, true, false, not, Bool, ℕ, ◌&&◌, ◌||◌, ◌++◌, ◌<◌, ◌≤◌, get_or, length, set, take, drop};
ghost use Rattle.facts.specs.Pack.{add_if};
ghost use Rattle.atl.specs.Game.{States, everything};
ghost use Rattle.atl.specs.Marking.{counted, force, marked, rounds as roundsOf, plan as plan_of, eventually as eventuallyOf};
ghost use Rattle.radix.specs.Classes.{classed};
ghost use Rattle.incoming.specs.Leads.{Leads};
ghost use Rattle.marking.specs.Table.{side};
ghost use Rattle.marking.specs.Board.{game_of, aimed, passable};
ghost use Rattle.marking.specs.Rule.{bits};
ghost use Rattle.marks.specs.Noted.{noted, NotedBy};
ghost use Rattle.marks.specs.Model.{joints_limit};
ghost use Rattle.marks.specs.Node.{timed};
ghost use Rattle.backward.specs.Covered.{Covered};
ghost use Rattle.marks.specs.Coalition.{meets, reaches, spread_counts, SameTables};

pub mod arena;
pub mod room;

pub use arena::{Arena, Coalition};
use backward::{Ground, count_rounds};
use facts::FactSet;
use incoming::Incoming;
use marking::{Aim, Board, Marked, begin, holds_at, plan};
use radix::fill_classes;
pub use room::Room;
use sheet::question::Future;

// The entry of position `i` with bit `k`, where `on`.
pub fn mark(marks: &mut [u64], k: u8, i: usize, on: bool)
    requires { (i < length marks.old) × (k < 64) }
    ensures { marks.new ≡ set marks.old i (add_if on (get_or marks.old i 0) k) }
{
    if on {
        marks[i] = u64::from(FactSet::from(marks[i]).with(k));
    }
}

// Bit `k` at those of the first `n` positions where the test passes, which is given the position and its marks so far.
// n, k and the table stay three parameters: each caller has them apart, and reads other bits of the same table.
pub fn note<F: Fn(usize, FactSet) -> bool>(n: usize, k: u8, marks: &mut [u64], test: F)
    requires { (n ≤ length marks.old) × (k < 64) × ((i : ℕ) (set : _) → i < n → F.pre test i set) }
    ensures set { (w : States) → ((i : ℕ) (on : Bool) → i < n → F.post test i (record { bits = get_or marks.old i 0 }) on → on ≡ w i) → marks.new ≡ noted n k w marks.old }
    ensures answered { NotedBy (λ i on. F.post test i (record { bits = get_or marks.old i 0 }) on) n k marks.old marks.new }
{
    for i in 0..n {
        let on = test(i, FactSet::from(marks[i]));
        mark(marks, k, i, on);
    }
}

// NOT: bit `k` where bit `a` is not.
pub fn mark_not(n: usize, a: u8, k: u8, marks: &mut [u64])
    requires { (n ≤ length marks.old) × (k < 64) }
    ensures { marks.new ≡ noted n k (λ i. not (bits marks.old a i)) marks.old }
{
    note(n, k, marks, |_, set| !set.has(a));
}

// AND: bit `k` where bits `a` and `b` are.
pub fn mark_and(n: usize, a: u8, b: u8, k: u8, marks: &mut [u64])
    requires { (n ≤ length marks.old) × (k < 64) }
    ensures { marks.new ≡ noted n k (λ i. bits marks.old a i && bits marks.old b i) marks.old }
{
    note(n, k, marks, |_, set| set.has(a) && set.has(b));
}

// OR: bit `k` where bit `a` or bit `b` is.
pub fn mark_or(n: usize, a: u8, b: u8, k: u8, marks: &mut [u64])
    requires { (n ≤ length marks.old) × (k < 64) }
    ensures { marks.new ≡ noted n k (λ i. bits marks.old a i || bits marks.old b i) marks.old }
{
    note(n, k, marks, |_, set| set.has(a) || set.has(b));
}

// Bit `k` at the positions that are aimed at.
fn mark_aimed(n: usize, aim: Aim, k: u8, marks: &mut [u64])
    requires { (n ≤ length aim.table.now) × (n ≤ length marks.old) × (k < 64) }
    ensures { marks.new ≡ noted n k (aimed aim.entry) marks.old }
{
    note(n, k, marks, |i, _| aim.holds(i));
}

// Bit `k` at the positions where some choice secures those that are aimed at. The room changes with each of them, so no closure is called.
fn mark_forced(board: Board, aim: Aim, k: u8, flags: &mut [u16], marks: &mut [u64])
    requires { (board.joints.n ≤ length aim.table.now) × (length board.joints.successors.now ≤ length flags.old) × (board.joints.n ≤ length marks.old) × (k < 64) }
    ensures { marks.new ≡ noted board.entry.joints.n k (side aim.entry.want (force (game_of board.entry) (aimed aim.entry))) marks.old }
{
    for i in 0..board.joints.n {
        let on = holds_at(board, aim, i, flags);
        mark(marks, k, i, on);
    }
}

// How UNTIL, EVENTUALLY and ALWAYS spread: from the positions of node `from`, or, where not `want`, from the others; through those of node `through`,
// where there is one.
#[derive(Clone, Copy)]
struct Spread {
    want: bool,
    through: Option<u8>,
    from: u8,
}

// The positions that a node marks, where there is one.
fn marked_by<'a>(marks: &'a [u64], node: Option<u8>) -> Option<Marked<'a>>
    ensures set { passable result ≡ reaches marks.now node }
    ensures covered { (n : ℕ) → n ≤ length marks.now → Covered n result }
{
    node.map(|k| Marked { marks, k })
}

// The tables that the question is answered in.
#[derive(Drop)]
pub struct Answer<'a> {
    pub marks: &'a mut [u64],
    pub rounds: &'a mut [u16],
    pub choices: &'a mut [u16],
}

// The classes of the joint moves for the coalition.
fn classify(coalition: Coalition, classes: &mut [u16])
    requires { joints_limit ≤ length classes.old }
    ensures { classes.new ≡ classed coalition.entry.arena.joints.starts.now coalition.entry.arena.counts.now coalition.entry.mask classes.old coalition.entry.arena.joints.n }
{
    let Arena { joints, counts, .. } = coalition.arena;
    fill_classes(joints.n, joints.starts, counts, coalition.mask, classes);
}

// NEXT of node `a`: bit `k`. The table of counts is lent, so that it stands once; it, the marks and the room have nothing in common but this call.
fn mark_next(
    coalition: Coalition,
    a: u8,
    k: u8,
    marks: &mut [u64],
    table: &mut [u16],
    room: &mut Room,
)
    requires { (coalition.arena.joints.n ≤ length marks.old) × (coalition.arena.joints.n ≤ length table.old) × (k < 64) }
    ensures { marks.new ≡ noted coalition.entry.arena.joints.n k (force (meets coalition.entry) (bits marks.old a)) marks.old }
{
    let joints = coalition.arena.joints;
    classify(coalition, room.classes);
    let board = Board {
        joints,
        classes: room.classes,
    };
    let rounds = &mut table[..joints.n];
    begin(Marked { marks, k: a }, true, rounds);
    let aim = Aim {
        table: rounds,
        r: 0,
        want: true,
    };
    mark_forced(board, aim, k, room.flags, marks);
}

// The counts of UNTIL, EVENTUALLY and ALWAYS. All that the walk reads is lent for one time ('a), since it stands in one value, so it cannot come inside a `Coalition`.
fn count_spread<'a>(
    board: Board<'a>,
    incoming: Incoming<'a>,
    marks: &'a [u64],
    spread: Spread,
    rounds: &mut [u16],
    flags: &mut [u16],
)
    requires { Leads board.joints incoming × (board.joints.n ≤ 1024) × (board.joints.n ≤ length marks.now) × (length rounds.old ≡ board.joints.n)
        × (length board.joints.successors.now ≤ length flags.old) }
    ensures { rounds.new ≡ spread_counts (game_of board.entry) marks.now spread }
{
    let through = marked_by(marks, spread.through);
    let ground = Ground {
        board,
        incoming,
        want: spread.want,
        through,
    };
    let start = Marked {
        marks,
        k: spread.from,
    };
    count_rounds(ground, start, rounds, flags);
}

// UNTIL, EVENTUALLY and ALWAYS: the counts, and bit `k`. What it writes has nothing in common but this call.
fn mark_spread(
    coalition: Coalition,
    spread: Spread,
    k: u8,
    marks: &mut [u64],
    rounds: &mut [u16],
    room: &mut Room,
)
    requires { (coalition.arena.joints.n ≤ length marks.old) × (coalition.arena.joints.n ≤ length rounds.old) × (k < 64) }
    ensures counts { rounds.new ≡ spread_counts (meets coalition.entry) marks.old spread ++ drop coalition.entry.arena.joints.n rounds.old }
    ensures marks { marks.new ≡ noted coalition.entry.arena.joints.n k (side spread.want (counted (spread_counts (meets coalition.entry) marks.old spread) coalition.entry.arena.joints.n)) marks.old }
{
    let joints = coalition.arena.joints;
    classify(coalition, room.classes);
    let board = Board {
        joints,
        classes: room.classes,
    };
    let counts = &mut rounds[..joints.n];
    count_spread(
        board,
        coalition.arena.incoming,
        marks,
        spread,
        counts,
        room.flags,
    );
    let aim = Aim {
        table: counts,
        r: joints.n as u16,
        want: spread.want,
    };
    mark_aimed(joints.n, aim, k, marks);
}

// The choices, by the round counts.
fn fill_choices(coalition: Coalition, rounds: &[u16], choices: &mut [u16], room: &mut Room)
    requires { (coalition.arena.joints.n ≤ length rounds.now) × (coalition.arena.joints.n ≤ length choices.old) }
    ensures { choices.new ≡ plan_of (meets coalition.entry) (take coalition.entry.arena.joints.n rounds.now) ++ drop coalition.entry.arena.joints.n choices.old }
{
    let joints = coalition.arena.joints;
    classify(coalition, room.classes);
    let board = Board {
        joints,
        classes: room.classes,
    };
    plan(
        board,
        &rounds[..joints.n],
        &mut choices[..joints.n],
        room.flags,
    );
}

// A coalition's future: bit `k`.
pub fn mark_future(coalition: Coalition, future: Future, k: u8, marks: &mut [u64], room: &mut Room)
    requires { (coalition.arena.joints.n ≤ length marks.old) × (k < 64) }
    ensures { marks.new ≡ noted coalition.entry.arena.joints.n k (marked (timed (meets coalition.entry) (bits marks.old) future)) marks.old }
{
    let mut rounds = [0; 1024];
    match future {
        Future::Next(a) => mark_next(coalition, a, k, marks, &mut rounds, room),
        Future::Always(from) => {
            let spread = Spread {
                want: false,
                through: None,
                from,
            };
            mark_spread(coalition, spread, k, marks, &mut rounds, room);
        }
        Future::Eventually(from) => {
            let spread = Spread {
                want: true,
                through: None,
                from,
            };
            mark_spread(coalition, spread, k, marks, &mut rounds, room);
        }
        Future::Until(a, from) => {
            let spread = Spread {
                want: true,
                through: Some(a),
                from,
            };
            mark_spread(coalition, spread, k, marks, &mut rounds, room);
        }
    }
}

// EVENTUALLY as the last node: bit `k`, the round counts and the choices, 65,535 where there is none.
pub fn mark_last(coalition: Coalition, a: u8, k: u8, answer: &mut Answer, room: &mut Room)
    requires { (coalition.arena.joints.n ≤ length answer.old.marks.now) × (coalition.arena.joints.n ≤ length answer.old.rounds.now)
        × (coalition.arena.joints.n ≤ length answer.old.choices.now) × (k < 64) }
    ensures rounds { answer.new.rounds.now ≡ roundsOf (meets coalition.entry) everything (bits answer.old.marks.now a) ++ drop coalition.entry.arena.joints.n answer.old.rounds.now }
    ensures choices { answer.new.choices.now ≡ plan_of (meets coalition.entry) (roundsOf (meets coalition.entry) everything (bits answer.old.marks.now a)) ++ drop coalition.entry.arena.joints.n answer.old.choices.now }
    ensures marks { answer.new.marks.now ≡ noted coalition.entry.arena.joints.n k (marked (eventuallyOf (meets coalition.entry) (bits answer.old.marks.now a))) answer.old.marks.now }
    ensures same { SameTables answer.old answer.new }
{
    let rounds = &mut *answer.rounds;
    let choices = &mut *answer.choices;
    let spread = Spread {
        want: true,
        through: None,
        from: a,
    };
    mark_spread(coalition, spread, k, answer.marks, rounds, room);
    fill_choices(coalition, rounds, choices, room);
}
