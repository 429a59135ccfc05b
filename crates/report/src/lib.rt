// One run of the engine, told as text: the listing, or the line of a refusal.
#![tactic(auto)]

ghost use Rattle.std.specs.Prelude.{◌≡◌};
ghost use Rattle.sheet.specs.Reading.{read_sheet};
ghost use Rattle.io.specs.Counts.{IsPrefixLen};
ghost use Rattle.engine.specs.Promise.{tables};
ghost use Rattle.report.specs.Report.{is_eventually, last_at, last_in, Reports};

use listing::Shown;
use sheet::Layout;
use sheet::question::{Future, Question, question_at};

// The last node: its number, and whether it is EVENTUALLY.
#[derive(Clone, Copy)]
pub struct Last {
    pub number: usize,
    pub eventually: bool,
}

// Is the node EVENTUALLY?
fn asks_eventually(q: Question) -> bool
    ensures { result ≡ is_eventually q }
{
    matches!(q, Question::Can(_, Future::Eventually(_)))
}

// The last node of a sheet that reads well.
fn last_at(s: &[u8], y: Layout) -> Last
    requires { read_sheet s.now ≡ Ok y }
    ensures { result ≡ last_at s.now y }
{
    let number = usize::from(y.nodes) - 1;
    let at = y.first + 6 * number;
    Last {
        number,
        eventually: asks_eventually(question_at(s, at)),
    }
}

// The last node of a sheet; one that does not read has none, and number 0 stands for it in `last_in`, a definition that keeps its meaning.
fn last_in(s: &[u8]) -> Last
    ensures { result ≡ last_in s.now (read_sheet s.now) }
{
    match sheet::read(s) {
        Ok(y) => last_at(s, y),
        Err(_) => Last {
            number: 0,
            eventually: false,
        },
    }
}

// Solves a sheet and writes what is printed of it at the buffer's start; answers how many bytes that is. The tables come one by one, as `engine::solve` takes them.
pub fn report(
    s: &[u8],
    states: &mut [u64],
    starts: &mut [u16],
    successors: &mut [u16],
    rounds: &mut [u16],
    choices: &mut [u16],
    marks: &mut [u64],
    out: &mut [u8],
) -> usize
    ensures reports { Reports s.now
        (tables states.old starts.old successors.old rounds.old choices.old marks.old)
        (tables states.new starts.new successors.new rounds.new choices.new marks.new)
        out.old out.new result }
    ensures prefix_len { IsPrefixLen result out.new }
{
    match engine::solve(s, states, starts, successors, rounds, choices, marks) {
        Ok(solved) => {
            let last = last_in(s);
            let shown = Shown {
                states,
                starts,
                marks,
                rounds,
                choices,
                last: last.number,
                eventually: last.eventually,
            };
            listing::print(out, shown, solved.states, solved.verdict)
        }
        Err(refusal) => {
            listing::print_refusal(out, u64::from(refusal.number()), refusal.place() as u64)
        }
    }
}
