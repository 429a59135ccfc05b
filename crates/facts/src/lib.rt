// A set of facts by value: fact i is bit i of a 64-bit number.
#![tactic(auto)]

ghost use Rattle.std.specs.Prelude.{◌≡◌, ◌<◌};
ghost use Rattle.facts.specs.Bits.{has, insert};

#[derive(Clone, Copy, PartialEq, Eq, Default)]
pub struct FactSet {
    pub bits: u64,
}

// The set that a number stands for.
impl From<u64> for FactSet {
    ghost from_gives = { λ bits set. set.bits ≡ bits };

    fn from(bits: u64) -> Self {
        Self { bits }
    }
}

// The number that stands for a set.
impl From<FactSet> for u64 {
    ghost from_gives = { λ set bits. bits ≡ set.bits };

    fn from(set: FactSet) -> u64 {
        set.number()
    }
}

impl FactSet {
    // The number that stands for the set: document 01 names a method for it (docs/DECISIONS.md, "Named forms").
    pub fn number(self) -> u64
        ensures { result ≡ self.bits }
    {
        self.bits
    }

    // Does fact i hold? No fact from 64 on does.
    pub fn has(self, i: u8) -> bool
        ensures { result ≡ has self.bits i }
    {
        i < 64 && (self.bits >> i) % 2 == 1
    }

    // The set with fact i in it.
    pub fn with(self, i: u8) -> Self
        requires { i < 64 }
        ensures { result.bits ≡ insert self.bits i }
    {
        Self {
            bits: self.bits | (1 << i),
        }
    }
}
