// The engine: a sheet and six lent tables in, an answer out.
#![tactic(auto)]

ghost use Rattle.std.specs.Prelude.{◌≡◌, true, Ok};
ghost use Rattle.sheet.specs.Reading.{read_sheet, sheet_in};
ghost use Rattle.views.specs.Sheet.{answer as studied, masks_of};
ghost use Rattle.model.specs.Answers.{number_of as stopNumber, place_of as stopPlace};
ghost use Rattle.engine.specs.declared.Refusal.TheVariants.{Sheet as BadSheet, Strata};
ghost use Rattle.engine.specs.Promise.{number_of, place_of, tables, Meets};
ghost use Rattle.engine.specs.Solved.{lengths_right, outcome, played, stop};

use model::ROLE_LIMIT;
use sheet::record::Rules;
use sheet::{Fault, Layout};
use tables::{STATE_LIMIT, right_lengths};

// Why a sheet is refused. Document 01's number and place of each: `number`, `place`. The builder's three cases stand here once more, since the promise (`Meets`) speaks of each.
#[derive(Clone, Copy, Debug, PartialEq, Eq)]
pub enum Refusal {
    // a table of another length
    Table,
    // the sheet does not read: what is wrong, and where
    Sheet(Fault, usize),
    // not stratified: the lowest view on a closed chain with a NOT
    Strata(u8),
    // a role has no choice in this state
    NoChoice(usize),
    // with this state there are too many joint moves
    ManyMoves(usize),
    // a successor of this state is one state too many
    ManyStates(usize),
}

// Of an accepted sheet: how many states, how many joint moves, and the verdict.
#[derive(Clone, Copy, Debug, PartialEq, Eq)]
pub struct Solved {
    pub states: usize,
    pub moves: usize,
    pub verdict: bool,
}

impl Refusal {
    // Document 01's number. The definition `number_of` gives it, and an enum that carries values has no `as`.
    pub fn number(self) -> u8
        ensures { result ≡ number_of self }
    {
        match self {
            Refusal::Table => 9,
            Refusal::Sheet(fault, _) => u8::from(fault),
            Refusal::Strata(_) => 5,
            Refusal::NoChoice(_) => 8,
            Refusal::ManyMoves(_) => 7,
            Refusal::ManyStates(_) => 6,
        }
    }

    // And its place.
    pub fn place(self) -> usize
        ensures { result ≡ place_of self }
    {
        match self {
            Refusal::Table => 0,
            Refusal::Strata(view) => usize::from(view),
            Refusal::Sheet(_, place)
            | Refusal::NoChoice(place)
            | Refusal::ManyMoves(place)
            | Refusal::ManyStates(place) => place,
        }
    }
}

impl From<sheet::Refused> for Refusal {
    ghost from_gives = { λ x r. r ≡ BadSheet x.fault x.place };

    fn from(refused: sheet::Refused) -> Refusal {
        Refusal::Sheet(refused.fault, refused.place)
    }
}

impl From<views::Unstratified> for Refusal {
    ghost from_gives = { λ x r. r ≡ Strata x.view };

    fn from(unstratified: views::Unstratified) -> Refusal {
        Refusal::Strata(unstratified.view)
    }
}

impl From<model::Refusal> for Refusal {
    ghost from_gives = { λ f r. r ≡ stop (stopNumber f) (stopPlace f) };

    fn from(refusal: model::Refusal) -> Refusal {
        match refusal {
            model::Refusal::NoChoice(state) => Refusal::NoChoice(state),
            model::Refusal::ManyMoves(state) => Refusal::ManyMoves(state),
            model::Refusal::ManyStates(state) => Refusal::ManyStates(state),
        }
    }
}

// The game of a stratified sheet is built, and its question answered. The six tables come one by one: a struct of the six was
// tried, and behind a `&mut` a slice that is lent on loses its value in the contract.
fn play(
    s: &[u8],
    layout: Layout,
    masks: &[u64; 64],
    states: &mut [u64],
    starts: &mut [u16],
    successors: &mut [u16],
    rounds: &mut [u16],
    choices: &mut [u16],
    marks: &mut [u64],
) -> Result<Solved, Refusal>
    requires reads { read_sheet s.now ≡ Ok layout }
    requires stratified { studied (sheet_in s.now layout).rules ≡ Ok tt }
    requires levels { masks.now ≡ masks_of (sheet_in s.now layout).rules }
    requires long { lengths_right (tables states.old starts.old successors.old rounds.old choices.old marks.old) ≡ true }
    ensures { outcome result (tables states.new starts.new successors.new rounds.new choices.new marks.new) ≡ played (sheet_in s.now layout) }
{
    rounds.fill(0);
    choices.fill(0);
    marks.fill(0);
    let moves = position::moves_of(Rules::of(s, layout.top, layout.rules));
    let mut counts = [0; ROLE_LIMIT * STATE_LIMIT];
    let mut seen = [0; STATE_LIMIT];
    let built = model::build(
        s,
        layout,
        masks,
        moves,
        states,
        starts,
        successors,
        &mut counts,
        &mut seen,
    )?;
    let n = built.states;
    let verdict = nodes::answer(
        s, layout, n, states, &seen, starts, successors, &counts, marks, rounds, choices,
    );
    Ok(Solved {
        states: built.states,
        moves: built.moves,
        verdict,
    })
}

// THE ENTRY POINT: any sheet, any tables. The six tables come one by one, as document 01 has them.
pub fn solve(
    s: &[u8],
    states: &mut [u64],
    starts: &mut [u16],
    successors: &mut [u16],
    rounds: &mut [u16],
    choices: &mut [u16],
    marks: &mut [u64],
) -> Result<Solved, Refusal>
    ensures { Meets s.now
        (tables states.old starts.old successors.old rounds.old choices.old marks.old)
        (tables states.new starts.new successors.new rounds.new choices.new marks.new) result }
{
    if !right_lengths(
        states.len(),
        starts.len(),
        successors.len(),
        rounds.len(),
        choices.len(),
        marks.len(),
    ) {
        return Err(Refusal::Table);
    }
    let layout = sheet::read(s)?;
    let rules = Rules::of(s, layout.top, layout.rules);
    let mut rows = [0; 64];
    let mut masks = [0; 64];
    views::study(rules, &mut rows, &mut masks)?;
    play(
        s, layout, &masks, states, starts, successors, rounds, choices, marks,
    )
}
