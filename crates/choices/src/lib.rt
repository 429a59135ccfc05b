// The choices of the roles in a state, by value, and the joint moves that they make.
#![tactic(auto)]

ghost use Rattle.std.specs.Prelude.{◌≡◌, ◌≤◌, ◌<◌, length, take, slice_get};
ghost use Rattle.choices.specs.Moves.{members, full, total, decode, rank, encode, four};

// Each role's choices as a set of sixteen bits. In a terminal state each role has one, number 0, and the game stays.
// The flag stands beside the sets: document 01 names this form (docs/DECISIONS.md, "Named forms").
#[derive(Clone, Copy)]
pub struct Choices {
    pub sets: [u16; 4],
    pub terminal: bool,
}

// A move for each role.
pub type Moves = [u16; 4];

// How many choices a set has.
#[tactic(auto, using(crate::specs::Laws::count_ones))]
pub fn count(set: u16) -> u32
    ensures { result ≡ length (members set) }
{
    set.count_ones()
}

// Does the set have 0 and all up to k?
#[tactic(auto, using(crate::proofs::Full::full_is, crate::proofs::Full::divisor_pos))]
pub fn is_full(set: u16, k: u32) -> bool
    requires { k < 16 }
    ensures { result ≡ full set k }
{
    (u32::from(set) + 1) % (1u32 << (k + 1)) == 0
}

// The k-th member of a set, counted from 0, ascending. Where nothing below it is left out it is k.
#[tactic(auto, using(crate::proofs::Full::walk))]
pub fn nth(set: u16, k: u32) -> Option<u16>
    ensures { result ≡ slice_get (members set) k }
{
    if k < 16 && is_full(set, k) {
        return Some(k as u16);
    }
    let mut left = k;
    for i in 0..16 {
        if (set >> i) % 2 == 1 {
            if left == 0 {
                return Some(i);
            }
            left -= 1;
        }
    }
    None
}

// How many members of a set are below m.
#[tactic(auto, using(crate::specs::Encode::rank_low, crate::specs::Encode::rank_high, crate::specs::Encode::shift_pos))]
pub fn below(set: u16, m: u16) -> u32
    ensures { result ≡ rank set m }
{
    if m < 16 {
        (set % (1u16 << m)).count_ones()
    } else {
        set.count_ones()
    }
}

// ---- joint moves

// The sets of the roles that take part, four at most.
#[derive(Clone, Copy)]
pub struct Sets<'a> {
    pub sets: &'a [u16],
    pub ghost few: { length sets.now ≤ 4 },
}

impl<'a> Sets<'a> {
    // The product of the roles' counts.
    #[tactic(auto, using(crate::specs::Laws::total_take, crate::specs::Laws::total_four, crate::specs::Laws::count_le), unfolding(crate::specs::Moves::total))]
    pub fn product(self) -> u32
        ensures { result ≡ total self.entry.sets.now }
    {
        let mut n = 1;
        for set in self.sets {
            n *= count(*set);
        }
        n
    }

    // The move of each role in joint move j, the first role slowest; 0 for the roles that take no part.
    pub fn joint_move(self, j: u32) -> Moves
        requires { j < total self.sets.now }
        ensures { result ≡ four (decode self.entry.sets.now j) }
    {
        let mut out = [0; 4];
        let mut rest = j;
        let mut weight = self.product();
        for (p, set) in self.sets.iter().enumerate() {
            weight /= count(*set);
            out[p] = nth(*set, rest / weight).unwrap();
            rest %= weight;
        }
        out
    }

    // The number of a joint move.
    pub fn number_of(self, moves: &[u16]) -> u32
        ensures { result ≡ encode self.entry.sets.now moves.now 0 }
    {
        let mut n = 0;
        for (set, m) in self.sets.iter().zip(moves) {
            n = n * count(*set) + below(*set, *m);
        }
        n
    }
}

impl Choices {
    // How many joint moves the state has: the product over the roles that take part. `roles ≤ 4` stays a clause: a type for a number of roles would be no plainer.
    pub fn joint_moves(self, roles: usize) -> u32
        requires { roles ≤ 4 }
        ensures { result ≡ total (take roles self.sets) }
    {
        let sets = &self.sets[..roles];
        Sets { sets }.product()
    }

    // The joint move of number j: a move for each role.
    pub fn joint_move(self, roles: usize, j: u32) -> Moves
        requires { (roles ≤ 4) × (j < total (take roles self.sets)) }
        ensures { result ≡ four (decode (take roles self.sets) j) }
    {
        let sets = &self.sets[..roles];
        Sets { sets }.joint_move(j)
    }
}
