// Which rules fire, by their codes: one slot of the table, a stretch of slots, the views of a state.
#![tactic(auto)]

ghost use Rattle.std.specs.Prelude.{◌≡◌, ◌+◌, ◌-◌, ◌*◌, ◌<◌, ◌≤◌, length, get_or, is_none, None, Some};
ghost use Rattle.std.specs.Option.{unwrap_or};
ghost use Rattle.facts.specs.Bits.{insert};
ghost use Rattle.codes.specs.Codes.{bits, covers, avoids, calm, stirs};
ghost use Rattle.codes.specs.Table.{width, word, sets_in, member_in, added_by, collected, Slots};
ghost use Rattle.firing.specs.Firing.{settled_by, views_by, from_of, to_of, Level, Levels};

use codes::Codes;
use facts::FactSet;

// The joint move that stands for no moves: move 0 for each role.
pub const NO_MOVES: u64 = 0x0001_0001_0001_0001;

// Where the rules are asked: the facts, the views (none: those gathered so far) and the joint move.
#[derive(Clone, Copy)]
pub struct Scene {
    pub facts: u64,
    pub views: Option<u64>,
    pub joint: u64,
}

// Is all of w in x?
fn has_all(x: u64, w: u64) -> bool
    ensures { result ≡ covers x w }
{
    x & w == w
}

// Is nothing of w in x?
fn has_none(x: u64, w: u64) -> bool
    ensures { result ≡ avoids x w }
{
    x & w == 0
}

// x, with the member m.
pub fn with_member(x: u64, m: u64) -> u64
    requires { m < bits }
    ensures { result ≡ insert x m }
{
    u64::from(FactSet::from(x).with(m as u8))
}

// ---- one slot

// Slot c of a table of codes.
#[derive(Clone, Copy)]
pub struct Slot<'a> {
    pub code: &'a [u64],
    pub c: usize,
    pub ghost inside: { width * (c + 1) ≤ length code.now },
}

#[tactic(auto, unfolding(codes::specs::Codes::calm, codes::specs::Codes::stirs, codes::specs::Table::added_by))]
impl<'a> Slot<'a> {
    // Number j of the slot.
    fn word(self, j: usize) -> u64
        requires { j < width }
        ensures { result ≡ word self.entry.code.now self.entry.c j }
    {
        self.code[6 * self.c + j]
    }

    // Are the facts and the views as the slot asks?
    pub fn is_calm(self, facts: u64, views: u64) -> bool
        ensures { result ≡ calm (sets_in self.entry.code.now self.entry.c) facts views }
    {
        has_all(facts, self.word(0))
            && has_none(facts, self.word(1))
            && has_all(views, self.word(2))
            && has_none(views, self.word(3))
    }

    // Are the moves?
    pub fn is_stirred(self, joint: u64) -> bool
        ensures { result ≡ stirs (sets_in self.entry.code.now self.entry.c) joint }
    {
        has_all(joint, self.word(4))
    }

    // The member that the slot's rule adds.
    pub fn member(self) -> u64
        ensures { result ≡ member_in self.entry.code.now self.entry.c }
    {
        self.word(5)
    }

    // x, with the member where the sets hold.
    fn add(self, scene: Scene, x: u64) -> u64
        requires { member_in self.code.now self.c < bits }
        ensures { result ≡ added_by (is_none scene.views) self.entry.code.now scene.facts (unwrap_or scene.views 0) scene.joint self.entry.c x }
    {
        let seen = scene.views.unwrap_or(x);
        if self.is_calm(scene.facts, seen) && self.is_stirred(scene.joint) {
            with_member(x, self.member())
        } else {
            x
        }
    }
}

// ---- a stretch of slots

// The slots of a table of codes from one to another, whose members can be added.
#[derive(Clone, Copy)]
pub struct Stretch<'a> {
    pub code: &'a [u64],
    pub from: usize,
    pub to: usize,
    pub ghost slots: { Slots code.now from to },
}

impl<'a> Stretch<'a> {
    // Once over the slots, beginning with `start`.
    #[tactic(auto, using(crate::proofs::Laws::collect_on))]
    pub fn collect(self, scene: Scene, start: u64) -> u64
        ensures { result ≡ collected (is_none scene.views) self.entry.code.now scene.facts (unwrap_or scene.views 0) scene.joint self.entry.from (self.entry.to - self.entry.from) start }
    {
        let mut x = start;
        for c in self.from..self.to {
            x = Slot { code: self.code, c }.add(scene, x);
        }
        x
    }

    // The views of one level, given those below: until nothing changes, or all of the level's views are there.
    pub fn settle(self, facts: u64, only: u64, start: u64) -> u64
        requires { Level self.code.now only self.from self.to }
        ensures { result ≡ settled_by self.entry.code.now facts self.entry.from self.entry.to start }
    {
        let scene = Scene {
            facts,
            views: None,
            joint: NO_MOVES,
        };
        let mut x = start;
        for turn in 0..64usize {
            let y = self.collect(scene, x);
            if y == x || has_all(y, only) {
                return y;
            }
            x = y;
        }
        x
    }
}

// ---- the views of a state

// The views of level i, given those below. A level without rules adds nothing.
#[tactic(auto, using(crate::proofs::Laws::settled_empty))]
fn level_by(codes: &Codes, i: usize, facts: u64, only: u64, x: u64) -> u64
    requires { (3 + i < length codes.now.ends) × Level codes.now.code only (from_of codes.now.ends i) (to_of codes.now.ends i) }
    ensures { result ≡ settled_by codes.now.code facts (from_of codes.now.ends i) (to_of codes.now.ends i) x }
{
    let from = usize::from(codes.ends[2 + i]);
    let to = usize::from(codes.ends[3 + i]);
    if from < to {
        Stretch {
            code: &codes.code,
            from,
            to,
        }
        .settle(facts, only, x)
    } else {
        x
    }
}

// The views of a state, level by level; `masks` has the views of each level.
pub fn views_by(codes: &Codes, masks: &[u64; 64], facts: u64) -> u64
    requires { Levels codes.now.code codes.now.ends masks.now }
    ensures { result ≡ views_by codes.now.code codes.now.ends facts }
{
    let mut x: u64 = 0;
    for (i, only) in masks.iter().enumerate() {
        x = level_by(codes, i, facts, *only, x);
    }
    x
}
