// The model as it grows in the lent tables, one state expanded after the other.

ghost use Rattle.std.specs.Prelude.{◌≡◌, ◌++◌, ◌+◌, ◌*◌, ◌≤◌, ◌<◌, get_or, replicate, take};
ghost use Rattle.tables.specs.Lengths.{state_limit, move_limit};
ghost use Rattle.atl.specs.Bounded.{tabulate};
ghost use Rattle.sheet.specs.Reading.{sheet_in};
ghost use Rattle.lookup.specs.Tree.{link_limit};
ghost use Rattle.position.specs.Position.{rules_of};
ghost use Rattle.keys.specs.Keys.{keys_in, Filing, Remembers};
ghost use Rattle.offer.specs.Offer.{role_limit, Whole, Ready, Serves, joints_of, role_of, target_of};
ghost use Rattle.model.specs.Tables.{Holds, Clean};

use crate::{Built, ROLE_LIMIT, Refusal};
use keys::{GIFT_ROOM, Keys, Memo};
use lookup::Tree;
use offer::{Offer, Study, Targets};
use tables::{MOVE_LIMIT, STATE_LIMIT};

// The five lent tables of a model, the tree in which its states are found, and how many states are found and joint moves listed.
// Their lengths are no ghost fields: tried, and a field of such a struct cannot be lent as `&` in `enter`, whose proof then did not close.
#[derive(Drop)]
pub struct Growing<'a> {
    pub states: &'a mut [u64],
    pub starts: &'a mut [u16],
    pub successors: &'a mut [u16],
    pub counts: &'a mut [u16],
    pub views: &'a mut [u64],
    pub tree: Tree,
    pub found: usize,
    pub listed: usize,
}

// The rules as they are filed: the table of their keys, each rule's home, and how the keys are found.
#[derive(Clone, Copy)]
pub struct Filed<'a> {
    pub table: &'a [u64],
    pub homes: &'a [u16],
    pub keys: &'a Keys,
}

// The room in which targets are looked up: what the rules give at one position, and what was asked for last.
#[derive(Clone, Copy)]
pub struct Room {
    pub gifts: [u64; GIFT_ROOM],
    pub memo: Memo,
}

// The counts of state k are stored, role by role.
#[tactic(auto, using(crate::proofs::Holding::holds_length))]
fn note_counts(offer: Offer, roles: u8, k: usize, counts: &mut [u16])
    requires { (k < state_limit) × Clean (role_limit * state_limit) counts.old (role_limit * k) }
    ensures { Holds (role_limit * state_limit) counts.new (role_limit * (k + 1)) (take (role_limit * k) counts.old ++ tabulate role_limit (role_of offer roles)) }
{
    for r in 0..ROLE_LIMIT {
        counts[ROLE_LIMIT * k + r] = offer.role_count(roles, r);
    }
}

#[tactic(auto, using(crate::proofs::Holding::holds_length))]
impl Growing<'_> {
    ghost use Rattle.model.specs.Answers.{Builds};
    ghost use Rattle.model.specs.Growing.{Lent, Rows, Lengths, Numbered, Fresh, Entered, Listed, rules_in, seen_in, Stage, Expanded, Explored};

    // The tables hold the state x and nothing else.
    fn reset(&mut self, x: u64)
        requires { Lengths state_limit move_limit self.old }
        ensures lent { Lent self.old self.new }
        ensures fresh { Fresh state_limit move_limit x self.new }
        ensures tree { self.new.tree ≡ self.old.tree }
    {
        self.states.fill(0);
        self.starts.fill(0);
        self.successors.fill(0);
        self.counts.fill(0);
        self.views.fill(0);
        self.states[0] = x;
        self.found = 1;
        self.listed = 0;
    }

    // The number of state t, which is entered where it is new; none where there is no room for it.
    fn enter(&mut self, t: u64) -> Option<usize>
        requires { Numbered state_limit (take self.old.found self.old.states.now) self.old }
        ensures lent { Lent self.old self.new }
        ensures rows { Rows self.old self.new }
        ensures listed { (self.new.successors ≡ self.old.successors) × (self.new.listed ≡ self.old.listed) }
        ensures entered { Entered state_limit (take self.old.found self.old.states.now) t result self.new }
    {
        let n = self.found;
        let states = &mut *self.states;
        if let Some(at) = self.tree.seek(states, n, t) {
            return Some(at);
        }
        if n < STATE_LIMIT {
            self.tree.enroll(states, n, t);
            states[n] = t;
            self.found += 1;
            return Some(n);
        }
        None
    }

    // The targets of the m joint moves of a position are numbered, and their numbers listed; none where there is no room for a state.
    fn list_targets(&mut self, targets: Targets, m: usize, memo: &mut Memo) -> Option<()>
        requires whole { Whole targets.s.now targets.y }
        requires joints { m ≡ joints_of targets.offer targets.y.sizes.roles }
        requires numbered { Numbered state_limit (take self.old.found self.old.states.now) self.old }
        requires clean { Clean move_limit self.old.successors.now self.old.listed }
        requires room { self.old.listed + m ≤ move_limit }
        requires serves { Serves (sheet_in targets.s.now targets.y) targets.offer targets.table.now targets.keys.now targets.gifts.now }
        requires memo { Remembers (keys_in targets.table.now targets.keys.now) memo.old }
        ensures lent { Lent self.old self.new }
        ensures rows { Rows self.old self.new }
        ensures listed { Listed state_limit move_limit (take self.old.found self.old.states.now) (take self.old.listed self.old.successors.now)
            (tabulate m (target_of (sheet_in targets.entry.s.now targets.entry.y) targets.entry.offer)) (self.old.listed + m) result self.new }
        ensures memo { Remembers (keys_in targets.entry.table.now targets.entry.keys.now) memo.new }
    {
        for j in 0..m {
            let to = targets.reach(j, memo);
            let i = self.enter(to)?;
            self.successors[self.listed] = i as u16;
            self.listed += 1;
        }
        Some(())
    }

    // State k is expanded: its choices, its joint moves, their targets; its refusals in the order 8, 7, 6.
    #[tactic(auto, using(crate::proofs::Holding::holds_length, crate::proofs::Answering::lacks_choice))]
    fn expand(
        &mut self,
        study: Study,
        filed: Filed,
        room: &mut Room,
        k: usize,
    ) -> Result<(), Refusal>
        requires ready { Ready study }
        requires inside { k < self.old.found }
        requires stage { Stage (rules_in study) (seen_in study) state_limit move_limit k self.old }
        requires filing { Filing study.codes.now.code (get_or study.codes.now.ends 0 0) filed.table.now filed.homes.now filed.keys.now }
        requires memo { Remembers (keys_in filed.table.now filed.keys.now) room.old.memo }
        ensures lent { Lent self.old self.new }
        ensures expanded { Expanded (rules_in study.entry) (seen_in study.entry) state_limit move_limit k result self.new }
        ensures memo { Remembers (keys_in filed.entry.table.now filed.entry.keys.now) room.new.memo }
    {
        let roles = study.y.sizes.roles;
        let offer = study.offer_at(self.states[k]);
        let m = offer.joint_count(roles);
        if m == 0 {
            return Err(Refusal::NoChoice(k));
        }
        if MOVE_LIMIT - self.listed < m {
            return Err(Refusal::ManyMoves(k));
        }
        note_counts(offer, roles, k, self.counts);
        self.views[k] = offer.look.views.bits;
        self.starts[k + 1] = (self.listed + m) as u16;
        offer.gather_at(
            &study.codes.code,
            &study.codes.ends,
            filed.homes,
            filed.keys.count,
            &mut room.gifts,
        );
        let targets = Targets {
            s: study.s,
            y: study.y,
            offer,
            table: filed.table,
            keys: filed.keys,
            gifts: &room.gifts,
        };
        self.list_targets(targets, m, &mut room.memo)
            .ok_or(Refusal::ManyStates(k))
    }

    // Every state is expanded, in number order. No `for`: the states that are found on the way are expanded too.
    #[tactic(auto, using(crate::proofs::Expanding::done))]
    fn explore(&mut self, study: Study, filed: Filed, room: &mut Room) -> Result<(), Refusal>
        requires ready { Ready study }
        requires stage { Stage (rules_in study) (seen_in study) state_limit move_limit 0 self.old }
        requires filing { Filing study.codes.now.code (get_or study.codes.now.ends 0 0) filed.table.now filed.homes.now filed.keys.now }
        requires memo { Remembers (keys_in filed.table.now filed.keys.now) room.old.memo }
        ensures lent { Lent self.old self.new }
        ensures explored { Explored (rules_in study.entry) (seen_in study.entry) state_limit move_limit result self.new }
    {
        let mut k = 0;
        while k < self.found {
            self.expand(study, filed, room, k)?;
            k += 1;
        }
        Ok(())
    }

    // The model from state x on; on a refusal every entry is zero.
    pub fn fill(
        &mut self,
        x: u64,
        study: Study,
        filed: Filed,
        room: &mut Room,
    ) -> Result<Built, Refusal>
        requires long { Lengths state_limit move_limit self.old }
        requires tree { (self.old.tree.tests ≡ replicate state_limit 0) × (self.old.tree.forks ≡ replicate link_limit 0) }
        requires initial { x ≡ (rules_in study).initial }
        requires ready { Ready study }
        requires filing { Filing study.codes.now.code (get_or study.codes.now.ends 0 0) filed.table.now filed.homes.now filed.keys.now }
        requires memo { Remembers (keys_in filed.table.now filed.keys.now) room.old.memo }
        ensures lent { Lent self.old self.new }
        ensures built { Builds (rules_in study.entry) (seen_in study.entry) state_limit move_limit result
            self.new.states.now self.new.starts.now self.new.successors.now self.new.counts.now self.new.views.now }
    {
        self.reset(x);
        match self.explore(study, filed, room) {
            Ok(()) => Ok(Built {
                states: self.found,
                moves: self.listed,
            }),
            Err(f) => {
                self.reset(0);
                Err(f)
            }
        }
    }
}
