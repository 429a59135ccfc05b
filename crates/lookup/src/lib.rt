// A number found among many: the numbers of a table are the ends of a tree of tests, and one way of at most 64 steps is walked.
#![tactic(auto)]

ghost use Rattle.std.specs.Prelude.{◌≡◌, ℕ, ◌+◌, ◌*◌, ◌≤◌, ◌<◌, MatchOption, replicate, take};
ghost use Rattle.facts.specs.Bits.{bit};
ghost use Rattle.tables.specs.Lengths.{state_limit};
ghost use Rattle.meaning.specs.Lists.{place};
ghost use Rattle.lookup.specs.Tree.{link_limit, Spotted, Lands, Forked, Treed, Enrolled, FirstDifference};

use facts::FactSet;
use tables::STATE_LIMIT;

// How many places for links there are: two for each state.
pub const LINK_LIMIT: usize = 2048;

// How many facts can be tested.
const FACT_LIMIT: u8 = 64;

// A tree of tests: the fact that each node tests, and where each link leads. No ghost field says that it is a tree (`Forked`): its number of entries and their ways are data, and a
// ghost field holds facts alone. A link below 1,024 leads to an entry, above to a node: an enum would take twice the memory, and zeros are the tree of one entry.
#[derive(Clone, Copy)]
pub struct Tree {
    pub tests: [u8; STATE_LIMIT],
    pub forks: [u16; LINK_LIMIT],
}

// The link at which node k, which tests fact f, goes on for the number x.
fn fork_at(k: usize, x: u64, f: u8) -> usize
    requires { k < state_limit }
    ensures { result ≡ 2 * k + bit x f }
{
    2 * k + usize::from(FactSet::from(x).has(f))
}

// The lowest fact in which two numbers differ.
fn first_difference(a: u64, b: u64) -> u8
    requires { a ≡ b → ⊥ }
    ensures { FirstDifference a b result }
{
    (a ^ b).trailing_zeros() as u8
}

impl Tree {
    // The tree of the first entry alone.
    pub fn new() -> Self
        ensures tests { result.tests ≡ replicate state_limit 0 }
        ensures forks { result.forks ≡ replicate link_limit 0 }
    {
        Self {
            tests: [0; STATE_LIMIT],
            forks: [0; LINK_LIMIT],
        }
    }

    // The first link on the way of x that does not lead to a node with a test below d. No `for`: the way has no number of steps that is known before.
    fn spot(&self, x: u64, d: u8) -> usize
        requires { (n : ℕ) × Forked n self.now.tests self.now.forks }
        ensures spotted { Spotted self.now.tests self.now.forks x d result }
        ensures inside { result < link_limit }
    {
        let mut p = 0;
        let mut c = usize::from(self.forks[p]);
        while STATE_LIMIT <= c {
            let k = c - STATE_LIMIT;
            let f = self.tests[k];
            if d <= f {
                return p;
            }
            p = fork_at(k, x, f);
            c = usize::from(self.forks[p]);
        }
        p
    }

    // The entry at which the way of x ends.
    fn land(&self, x: u64) -> usize
        requires { (n : ℕ) × Forked n self.now.tests self.now.forks }
        ensures { Lands self.now.tests self.now.forks x result }
    {
        usize::from(self.forks[self.spot(x, FACT_LIMIT)])
    }

    // The place of x among the first n entries of a table: only the entry where its way ends can be x.
    pub fn seek(&self, table: &[u64], n: usize, x: u64) -> Option<usize>
        requires { Treed table.now n self.now.tests self.now.forks }
        ensures { MatchOption result (place x (take n table.now) ≡ n)
            (λ i. (i < n) × (place x (take n table.now) ≡ i)) }
    {
        let i = self.land(x);
        if table[i] == x { Some(i) } else { None }
    }

    // The number x, which is none of the first n entries, comes in as entry n. Node n tests the lowest fact in which x differs from the entry where its way ends; it takes the
    // place of the first link on the way whose target tests nothing below that.
    pub fn enroll(&mut self, table: &[u64], n: usize, x: u64)
        requires { Treed table.now n self.old.tests self.old.forks × (n ≤ place x (take n table.now)) × (n < state_limit) }
        ensures { Enrolled table.now n x self.new.tests self.new.forks }
    {
        let y = table[self.land(x)];
        let d = first_difference(y, x);
        let q = self.spot(x, d);
        let was = self.forks[q];
        let new = fork_at(n, x, d);
        let old = fork_at(n, y, d);
        self.tests[n] = d;
        self.forks[new] = n as u16;
        self.forks[old] = was;
        self.forks[q] = (STATE_LIMIT + n) as u16;
    }
}
