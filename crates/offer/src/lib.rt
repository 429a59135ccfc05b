// What a position offers, found once: its views and choices; and from these its joint moves by number and their targets.
#![tactic(auto)]

ghost use Rattle.std.specs.Prelude.{◌≡◌, ◌<◌, ◌≤◌, length, get_or};
ghost use Rattle.sheet.specs.Reading.{sheet_in};
ghost use Rattle.position.specs.Position.{rules_of};
ghost use Rattle.keys.specs.Keys.{alive, gift_room, keys_in, Homes, Gathered, Remembers};
ghost use Rattle.offer.specs.Offer.{role_limit, Whole, Ready, Serves, offer_of, joints_of, role_of, target_of};

use choices::{Choices, count};
use codes::Codes;
use facts::FactSet;
use firing::{NO_MOVES, Scene, Stretch, views_by};
use keys::{Keys, Memo, gather, joint_of};
use position::choices_from;
use rules::{Look, init_facts};
use sheet::Layout;
use sheet::record::Rules;

// What is found once a sheet: its bytes as they were read, the views of each level, the codes of its rules, each role's moves. Contracts say that it is the sheet's (`Ready`): as a
// ghost field that would need proofs that the parts of `Fits` and `Compiled`, which are data, hold in one way only.
#[derive(Clone, Copy)]
pub struct Study<'a> {
    pub s: &'a [u8],
    pub y: Layout,
    pub masks: &'a [u64; 64],
    pub codes: &'a Codes,
    pub moves: [u16; 4],
}

// A position's facts and views, and its roles' choices.
#[derive(Clone, Copy)]
pub struct Offer {
    pub look: Look,
    pub choices: Choices,
}

// Where a position's joint moves are looked up: what it offers, the keys of the sheet's rules and the table that they stand in, and the gifts that were gathered for it.
// `Whole` and `Serves` stay clauses, as `Ready` does for a `Study`: their parts are data.
#[derive(Clone, Copy)]
pub struct Targets<'a> {
    pub s: &'a [u8],
    pub y: Layout,
    pub offer: Offer,
    pub table: &'a [u64],
    pub keys: &'a Keys,
    pub gifts: &'a [u64],
}

// The initial position of the sheet's game.
pub fn initial(s: &[u8], y: Layout) -> u64
    requires { Whole s.now y }
    ensures { result ≡ (rules_of (sheet_in s.now y)).initial }
{
    init_facts(Rules::of(s, y.top, y.rules)).bits
}

impl Study<'_> {
    // What position x offers, by the codes of the rules.
    pub fn offer_at(self, x: u64) -> Offer
        requires { Ready self }
        ensures { result ≡ offer_of (sheet_in self.entry.s.now self.entry.y) x }
    {
        let codes = self.codes;
        let v = views_by(codes, self.masks, x);
        let scene = Scene {
            facts: x,
            views: Some(v),
            joint: NO_MOVES,
        };
        let next = usize::from(codes.ends[0]);
        let legal = usize::from(codes.ends[1]);
        let terminal = usize::from(codes.ends[2]);
        let legals = Stretch {
            code: &codes.code,
            from: next,
            to: legal,
        }
        .collect(scene, 0);
        let over = Stretch {
            code: &codes.code,
            from: legal,
            to: terminal,
        }
        .collect(scene, 0);
        Offer {
            look: Look {
                facts: FactSet { bits: x },
                views: FactSet { bits: v },
                moves: [0; 4],
            },
            choices: choices_from(over != 0, legals, self.moves),
        }
    }
}

impl Offer {
    // What the NEXT rules of the position give whose facts and views hold, gathered once for all its joint moves. Homes and their number stay two parameters, as in `keys::gather`.
    pub fn gather_at(self, code: &[u64], ends: &[u16], homes: &[u16], n: usize, gifts: &mut [u64])
        requires { (0 < length ends.now) × Homes code.now (get_or ends.now 0 0) homes.now n × (length gifts.old ≡ gift_room) }
        ensures { Gathered code.now homes.now n (alive code.now self.look.facts.bits self.look.views.bits (get_or ends.now 0 0)) gifts.new }
    {
        let to = usize::from(ends[0]);
        gather(code, to, self.look, homes, n, gifts);
    }

    // How many joint moves there are.
    #[tactic(auto, unfolding(crate::specs::Offer::joints_of))]
    pub fn joint_count(self, roles: u8) -> usize
        requires { roles ≤ role_limit }
        ensures { result ≡ joints_of self roles }
    {
        self.choices.joint_moves(usize::from(roles)) as usize
    }

    // How many moves a role has; one for a role that takes no part.
    #[tactic(auto, using(choices::specs::Laws::count_le, std::proofs::lemmas::Bool::Decides::nat_tests), unfolding(crate::specs::Offer::role_of))]
    pub fn role_count(self, roles: u8, role: usize) -> u16
        requires { role < role_limit }
        ensures { result ≡ role_of self roles role }
    {
        if role < usize::from(roles) {
            count(self.choices.sets[role]) as u16
        } else {
            1
        }
    }
}

impl Targets<'_> {
    // Where joint move j leads: at the end of a game, nowhere else. The memo keeps what was looked up last.
    pub fn reach(self, j: usize, memo: &mut Memo) -> u64
        requires { Whole self.s.now self.y × (j < joints_of self.offer self.y.sizes.roles)
            × Serves (sheet_in self.s.now self.y) self.offer self.table.now self.keys.now self.gifts.now
            × Remembers (keys_in self.table.now self.keys.now) memo.old }
        ensures { (result ≡ target_of (sheet_in self.entry.s.now self.entry.y) self.entry.offer j)
            × Remembers (keys_in self.entry.table.now self.entry.keys.now) memo.new }
    {
        let Offer { look, choices } = self.offer;
        if choices.terminal {
            return look.facts.bits;
        }
        let m = choices.joint_move(usize::from(self.y.sizes.roles), j as u32);
        self.keys.give(self.table, self.gifts, joint_of(m), memo)
    }
}
