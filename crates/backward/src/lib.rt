// The round counts by walking backwards: from the positions that have a count over the joint moves that lead to them, each of which is visited once.
#![tactic(auto)]

ghost use Rattle.std.specs.Prelude.{◌≡◌, ◌==◌, not, count_by, ℕ, ◌+◌, ◌-◌, ◌<◌, ◌≤◌, eqb, length};
ghost use Rattle.atl.specs.Game.{States};
ghost use Rattle.incoming.specs.Index.{at, many};
ghost use Rattle.marking.specs.Table.{side};
ghost use Rattle.marking.specs.Board.{marked_by};
ghost use Rattle.backward.specs.Walk.{walk, lowered, finishes, enter as enterOf, Lined};
ghost use Rattle.backward.specs.Ground.{positions, joints, own, class_of, may, waits, counts, held, pushed, Roomy, Same, Open, Fresh, visited, arrived, passed};

pub mod ground;

pub use ground::Ground;
use incoming::bump;
use marking::{Marked, UNSET, begin, permitted};

impl Ground<'_> {
    // The place of the counter of the class of the joint move at place `p`.
    fn counter(&self, p: usize) -> usize
        requires { p < joints self.now }
        ensures { result ≡ class_of self.now p }
    {
        let i = usize::from(self.incoming.owners[p]);
        usize::from(self.board.joints.starts[i]) + usize::from(self.board.classes[p])
    }

    // How many joint moves each class has.
    fn count_members(&self, left: &mut [u16])
        requires { joints self.now ≤ length left.old }
        ensures { (c : ℕ) → c < joints self.now → at left.new c ≡ many (joints self.now) (λ p. eqb (class_of self.now p) c) }
    {
        let total = usize::from(self.board.joints.starts[self.board.joints.n]);
        left[..total].fill(0);
        for p in 0..total {
            let c = self.counter(p);
            bump(left, c);
        }
    }

    // How many classes position `i` waits for: one where a choice is looked for, and else all that it has.
    fn need_at(&self, left: &[u16], i: usize) -> u16
        requires { (i < positions self.now) × (joints self.now ≤ length left.now) }
        ensures { result ≡ waits self.now left.now i }
    {
        if self.want {
            return 1;
        }
        let members = &left[self.board.joints.places(i)];
        count_some(members) as u16
    }

    // The same for each position.
    fn fill_need(&self, left: &[u16], need: &mut [u16])
        requires { (joints self.now ≤ length left.now) × (positions self.now ≤ length need.old) }
        ensures { (i : ℕ) → i < positions self.now → at need.new i ≡ waits self.now left.now i }
    {
        for i in 0..self.board.joints.n {
            need[i] = self.need_at(left, i);
        }
    }
}

// How many counters are not 0.
fn count_some(counters: &[u16]) -> usize
    ensures { result ≡ count_by (λ x. not (x == 0)) counters.now }
{
    counters.iter().filter(|x| **x != 0).count()
}

// One more for a counter: one less is left, or nothing where one is enough; and whether that finishes it. `all` is the walk's question (`lowered`,
// `finishes`) and no step to run.
fn lower(all: bool, counter: &mut u16) -> bool
    ensures { (counter.new ≡ lowered all counter.old) × (result ≡ finishes all counter.old) }
{
    let x = *counter;
    if x == 0 {
        return false;
    }
    let y = if all { x - 1 } else { 0 };
    *counter = y;
    y == 0
}

// What the walk has: of each class the joint moves that it waits for, of each position the classes that it waits for, the counts, and the positions
// that have a count in the order in which they took it, `more` of them. `Roomy` stays a clause: it speaks of the ground too, which the walk only reads.
#[derive(Drop)]
struct Walk<'a> {
    left: &'a mut [u16],
    need: [u16; 1024],
    rounds: &'a mut [u16],
    queue: [u16; 1024],
    more: usize,
}

impl Walk<'_> {
    // Position `i` stands next in the queue.
    fn push(&mut self, i: usize)
        requires { (i < 1024) × (self.old.more < length self.old.queue) × (self.old.more < 1024) }
        ensures does { held self.new ≡ pushed i (held self.old) }
        ensures same { Same self.old self.new }
    {
        self.queue[self.more] = i as u16;
        self.more += 1;
    }

    // Position `i` takes count `r + 1` and stands next in the queue, where it has none and may take one.
    fn enter(&mut self, ground: &Ground, r: u16, i: usize)
        requires { (i < positions ground.now) × (r ≤ positions ground.now) × Roomy ground.now self.old }
        ensures does { held self.new ≡ enterOf (may ground.now) r i (held self.old) }
        ensures same { Same self.old self.new }
    {
        if self.rounds[i] == UNSET && permitted(ground.through, i) {
            self.rounds[i] = r + 1;
            self.push(i);
        }
    }

    // The joint move at place `p` leads to a position of count `r`.
    fn visit(&mut self, ground: &Ground, r: u16, p: usize)
        requires { (r ≤ positions ground.now) × (p < joints ground.now) × Roomy ground.now self.old }
        ensures does { held self.new ≡ visited ground.now r p (held self.old) }
        ensures same { Same self.old self.new }
    {
        let i = usize::from(ground.incoming.owners[p]);
        let c = ground.counter(p);
        if lower(ground.want, &mut self.left[c]) && lower(true, &mut self.need[i]) {
            self.enter(ground, r, i);
        }
    }

    // Every joint move that leads to position `t`, which has count `r`.
    fn walk_into(&mut self, ground: &Ground, r: u16, t: usize)
        requires { (r ≤ positions ground.now) × (t < positions ground.now) × Roomy ground.now self.old }
        ensures does { held self.new ≡ arrived ground.now r t (held self.old) }
        ensures same { Same self.old self.new }
    {
        let first = usize::from(ground.incoming.froms[t]);
        let last = usize::from(ground.incoming.froms[t + 1]);
        for j in first..last {
            let p = usize::from(ground.incoming.index[j]);
            self.visit(ground, r, p);
        }
    }

    // Round `r + 1`: every joint move is visited that leads to one of the positions from place `lo` of the queue on.
    fn walk_round(&mut self, ground: &Ground, r: u16, lo: usize)
        requires { (r ≤ positions ground.now) × (lo ≤ self.old.more) × Roomy ground.now self.old }
        ensures does { held self.new ≡ passed ground.now r lo (self.old.more - lo) (held self.old) }
        ensures same { Same self.old self.new }
    {
        for q in lo..self.more {
            let t = usize::from(self.queue[q]);
            self.walk_into(ground, r, t);
        }
    }

    // The positions of count 0 stand in the queue, in number order.
    fn enqueue(&mut self)
        requires { (self.old.more ≡ 0) × (length self.old.rounds.now ≤ length self.old.queue) × (length self.old.rounds.now ≤ 1024) }
        ensures lined { Lined (length self.old.rounds.now) self.new.more self.new.rounds.now self.new.queue }
        ensures room { length self.new.queue ≡ length self.old.queue }
        ensures rest { held self.new ≡ walk self.old.left.now self.old.need self.old.rounds.now self.new.queue self.new.more }
        ensures same { Same self.old self.new }
    {
        for i in 0..self.rounds.len() {
            if self.rounds[i] == 0 {
                self.push(i);
            }
        }
    }

    // Round after round, from the positions of count 0, which stand in the queue: those that took the count of a round are walked from in the next.
    // The walk ends where no position took one. No `for`: a round ends where the queue then ends, and rounds go on as long as it grows.
    fn walk_rounds(&mut self, ground: &Ground)
        requires { (joints ground.now ≤ length self.old.left.now) × (positions ground.now ≤ length self.old.need)
            × (positions ground.now ≤ length self.old.queue) × Open ground.now self.old
            × Lined (positions ground.now) self.old.more self.old.rounds.now self.old.queue
            × ((b : States) × Fresh (positions ground.now) self.old.rounds.now b) }
        ensures does { (b : States) → Fresh (positions ground.now) self.old.rounds.now b → self.new.rounds.now ≡ counts ground.now b }
        ensures same { Same self.old self.new }
    {
        let mut r = 0;
        let mut lo = 0;
        while lo < self.more {
            let end = self.more;
            self.walk_round(ground, r, lo);
            lo = end;
            r += 1;
        }
    }
}

// The round counts: of UNTIL, from the positions of `start` through those that may be passed through; of EVENTUALLY, where all may; and of the loss of
// ALWAYS, where also no choice is looked for, from the positions that are not of `start`.
// What `left` holds before and after does not matter: it is room to work in.
pub fn count_rounds(ground: Ground, start: Marked, rounds: &mut [u16], left: &mut [u16])
    requires { (length rounds.old ≡ positions ground) × (positions ground ≤ length start.marks.now) × (length ground.board.joints.successors.now ≤ length left.old) }
    ensures { rounds.new ≡ counts ground.entry (side ground.entry.want (marked_by start.entry)) }
{
    let mut need = [0; 1024];
    ground.count_members(left);
    ground.fill_need(left, &mut need);
    begin(start, ground.want, rounds);
    let mut walk = Walk {
        left,
        need,
        rounds,
        queue: [0; 1024],
        more: 0,
    };
    walk.enqueue();
    walk.walk_rounds(&ground);
}
