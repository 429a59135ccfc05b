// The reachable model of a game, built into lent tables: states by number, starts, successors, each role's count of moves, and the views.
#![tactic(auto)]

ghost use Rattle.sheet.specs.Reading.{sheet_in};
ghost use Rattle.tables.specs.Lengths.{state_limit, move_limit};
ghost use Rattle.position.specs.Position.{rules_of};
ghost use Rattle.offer.specs.Offer.{Whole, Studied};
ghost use Rattle.model.specs.Views.{views_of};
ghost use Rattle.model.specs.Tables.{Sized};
ghost use Rattle.model.specs.Answers.{Builds};

mod growing;

use codes::{CODE_ROOM, Codes, ENDS_ROOM};
use growing::{Filed, Growing, Room};
use keys::{GIFT_ROOM, KEY_ROOM, Keys, Memo, RULE_ROOM};
use lookup::Tree;
use offer::{Study, initial};
use sheet::Layout;
use sheet::record::Rules;

// The most roles that a sheet may have: the counts of a position stand in as many entries.
pub const ROLE_LIMIT: usize = 4;

// Why there is no model, and which state was being expanded.
#[derive(Clone, Copy)]
pub enum Refusal {
    NoChoice(usize),
    ManyMoves(usize),
    ManyStates(usize),
}

// How many states and joint moves the model has.
#[derive(Clone, Copy)]
pub struct Built {
    pub states: usize,
    pub moves: usize,
}

// The reachable model of the sheet's game, whatever the tables hold; on a refusal every entry is zero.
// The tables come one by one, as `engine::solve` is lent them.
pub fn build(
    s: &[u8],
    y: Layout,
    masks: &[u64; 64],
    moves: [u16; 4],
    states: &mut [u64],
    starts: &mut [u16],
    successors: &mut [u16],
    counts: &mut [u16],
    views: &mut [u64],
) -> Result<Built, Refusal>
    requires { Whole s.now y × Studied (sheet_in s.now y) masks.now moves
        × Sized state_limit move_limit states.old starts.old successors.old counts.old views.old }
    ensures { Builds (rules_of (sheet_in s.now y)) (views_of (sheet_in s.now y)) state_limit move_limit result
        states.new starts.new successors.new counts.new views.new }
{
    let mut codes = Codes {
        code: [0; CODE_ROOM],
        ends: [0; ENDS_ROOM],
    };
    codes.fill(Rules::of(s, y.top, y.rules), masks);
    let study = Study {
        s,
        y,
        masks,
        codes: &codes,
        moves,
    };
    let mut table = [0; KEY_ROOM];
    let mut homes = [0; RULE_ROOM];
    let mut keys = Keys::new();
    let next = usize::from(codes.ends[0]);
    keys.file(&codes.code, next, &mut table, &mut homes);
    let filed = Filed {
        table: &table,
        homes: &homes,
        keys: &keys,
    };
    let mut room = Room {
        gifts: [0; GIFT_ROOM],
        memo: Memo::new(),
    };
    let mut growing = Growing {
        states,
        starts,
        successors,
        counts,
        views,
        tree: Tree::new(),
        found: 0,
        listed: 0,
    };
    growing.fill(initial(s, y), study, filed, &mut room)
}
