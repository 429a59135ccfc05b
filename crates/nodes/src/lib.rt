// The question over the model: every node is marked in every position, the last one has its rounds and choices, and its mark at state 0 is the verdict.
#![tactic(auto)]

ghost use Rattle.std.specs.Prelude.{◌≡◌, [], ◌+◌, ◌-◌, ◌*◌, ◌<◌, ◌≤◌, length, take};
ghost use Rattle.tables.specs.Lengths.{state_limit};
ghost use Rattle.tables.specs.Pad.{pad};
ghost use Rattle.sheet.specs.Data.{node_at, rules_end};
ghost use Rattle.sheet.specs.Question.{question_of};
ghost use Rattle.sheet.specs.Reading.{sheet_in};
ghost use Rattle.meaning.specs.Reference.{answer};
ghost use Rattle.position.specs.Meaning.{nodes_of};
ghost use Rattle.position.specs.Position.{says, rules_of};
ghost use Rattle.incoming.specs.Leads.{Leads};
ghost use Rattle.marks.specs.Coalition.{SameTables};
ghost use Rattle.marks.specs.Noted.{noted};
ghost use Rattle.nodes.specs.Asked.{Asked, Ready, look_held, marks_to, Answered};
ghost use Rattle.nodes.specs.Goal.{goal_of};
ghost use Rattle.nodes.specs.Held.{sheet_of, looks, ReadyFor};

use facts::FactSet;
use incoming::{Incoming, build_incoming};
use marks::{
    Answer, Arena, Coalition, Room, mark_and, mark_future, mark_last, mark_not, mark_or, note,
};
use position::test_at;
use radix::Joints;
use rules::Look;
use sheet::Layout;
use sheet::question::{Future, Question, question_at};
use sheet::record::Rules;

// The goal of a last node that is EVENTUALLY: its coalition and its operand.
#[derive(Clone, Copy)]
pub struct Reach {
    pub coalition: u8,
    pub goal: u8,
}

// A sheet as it was read, and the facts and the views of each position of its model. `ReadyFor` is no ghost field: it speaks of the arena too, and the model in it is data.
#[derive(Clone, Copy)]
struct Held<'a> {
    bytes: &'a [u8],
    layout: Layout,
    states: &'a [u64],
    views: &'a [u64],
}

// ---- plain tests

impl Held<'_> {
    // What the literals of a plain test are read off in position i.
    fn look(&self, i: usize) -> Look
        requires { (i < length self.now.states.now) × (i < length self.now.views.now) }
        ensures { result ≡ looks self.now i }
    {
        let x = self.states[i];
        let v = self.views[i];
        Look {
            facts: FactSet::from(x),
            views: FactSet::from(v),
            moves: [0; 4],
        }
    }

    // A plain test: bit k where it holds.
    fn mark_test(&self, n: usize, q: Question, k: u8, marks: &mut [u64])
        requires { (rules_end self.now.bytes.now self.now.layout.top self.now.layout.rules ≤ length self.now.bytes.now)
            × (n ≤ length self.now.states.now) × (n ≤ length self.now.views.now) × (n ≤ length marks.old) × (k < 64) }
        ensures { marks.new ≡ noted n k (λ i. says (sheet_of self.now).rules (looks self.now i) q) marks.old }
    {
        let rules = Rules::of(self.bytes, self.layout.top, self.layout.rules);
        note(n, k, marks, |i, _| test_at(rules, self.look(i), q));
    }

    // What node k asks.
    fn asked_at(&self, k: u8) -> Question
        requires { self.now.layout.first + 6 * k + 6 ≤ length self.now.bytes.now }
        ensures { result ≡ question_of (node_at self.now.bytes.now (self.now.layout.first + 6 * k)) }
    {
        question_at(self.bytes, self.layout.first + 6 * usize::from(k))
    }
}

// ---- node by node

// Node k, from the marks of the nodes before it.
fn mark_node(held: Held, arena: Arena, k: u8, marks: &mut [u64], room: &mut Room)
    requires { ReadyFor held arena × (k < held.layout.nodes) × (marks.old ≡ marks_to (sheet_of held) (take arena.joints.n held.states.now) k) }
    ensures { marks.new ≡ marks_to (sheet_of held.entry) (take arena.entry.joints.n held.entry.states.now) (k + 1) }
{
    let n = arena.joints.n;
    let q = held.asked_at(k);
    match q {
        Question::Not(a) => mark_not(n, a, k, marks),
        Question::And(a, b) => mark_and(n, a, b, k, marks),
        Question::Or(a, b) => mark_or(n, a, b, k, marks),
        Question::Can(mask, future) => {
            let coalition = Coalition { arena, mask };
            mark_future(coalition, future, k, marks, room);
        }
        _ => held.mark_test(n, q, k, marks),
    }
}

// Every node but the last, in number order.
fn mark_first(held: Held, arena: Arena, marks: &mut [u64], room: &mut Room)
    requires { ReadyFor held arena × (marks.old ≡ pad state_limit []) }
    ensures { marks.new ≡ marks_to (sheet_of held.entry) (take arena.entry.joints.n held.entry.states.now) (held.entry.layout.nodes - 1) }
{
    let last = held.layout.nodes - 1;
    for k in 0..last {
        mark_node(held, arena, k, marks, room);
    }
}

// The goal of a node, if it is the last one: only EVENTUALLY has rounds and choices.
fn goal_of(q: Question) -> Option<Reach>
    ensures { result ≡ goal_of q }
{
    match q {
        Question::Can(coalition, Future::Eventually(goal)) => Some(Reach { coalition, goal }),
        _ => None,
    }
}

// The last node; where it is EVENTUALLY, its rounds and choices too.
fn mark_end(held: Held, arena: Arena, tables: &mut Answer, room: &mut Room)
    requires { ReadyFor held arena × (tables.old.marks.now ≡ marks_to (sheet_of held) (take arena.joints.n held.states.now) (held.layout.nodes - 1))
        × (tables.old.rounds.now ≡ pad state_limit []) × (tables.old.choices.now ≡ pad state_limit []) }
    ensures marks { tables.new.marks.now ≡ marks_to (sheet_of held.entry) (take arena.entry.joints.n held.entry.states.now) held.entry.layout.nodes }
    ensures rounds { tables.new.rounds.now ≡ pad state_limit (answer (rules_of (sheet_of held.entry)) (nodes_of (sheet_of held.entry)) (take arena.entry.joints.n held.entry.states.now)).rounds }
    ensures choices { tables.new.choices.now ≡ pad state_limit (answer (rules_of (sheet_of held.entry)) (nodes_of (sheet_of held.entry)) (take arena.entry.joints.n held.entry.states.now)).choices }
    ensures same { SameTables tables.old tables.new }
{
    let k = held.layout.nodes - 1;
    match goal_of(held.asked_at(k)) {
        Some(Reach { coalition, goal }) => {
            let coalition = Coalition {
                arena,
                mask: coalition,
            };
            mark_last(coalition, goal, k, tables, room);
        }
        None => mark_node(held, arena, k, tables.marks, room),
    }
}

// All nodes over the model, and the verdict. The room that the marking works in stands here once.
fn mark_all<'a>(
    held: Held,
    joints: Joints<'a>,
    counts: &'a [u16],
    incoming: Incoming<'a>,
    tables: &mut Answer,
) -> bool
    requires { Asked held.bytes.now held.layout joints.n held.states.now held.views.now joints.starts.now joints.successors.now counts.now × Leads joints incoming
        × (tables.old.marks.now ≡ pad state_limit []) × (tables.old.rounds.now ≡ pad state_limit []) × (tables.old.choices.now ≡ pad state_limit []) }
    ensures answered { Answered (answer (rules_of (sheet_of held.entry)) (nodes_of (sheet_of held.entry)) (take joints.entry.n held.entry.states.now)) result
        tables.new.marks.now tables.new.rounds.now tables.new.choices.now }
    ensures same { SameTables tables.old tables.new }
{
    let arena = Arena {
        joints,
        counts,
        incoming,
    };
    let mut classes = [0; 8192];
    let mut flags = [0; 8192];
    let mut room = Room {
        classes: &mut classes,
        flags: &mut flags,
    };
    mark_first(held, arena, tables.marks, &mut room);
    mark_end(held, arena, tables, &mut room);
    let last = held.layout.nodes - 1;
    FactSet::from(tables.marks[0]).has(last)
}

// The question answered over a model that is in the tables: marks, rounds, choices and the verdict. Its tables are lent one by one,
// as the entry point is lent them.
pub fn answer(
    s: &[u8],
    y: Layout,
    n: usize,
    states: &[u64],
    views: &[u64],
    starts: &[u16],
    successors: &[u16],
    counts: &[u16],
    marks: &mut [u64],
    rounds: &mut [u16],
    choices: &mut [u16],
) -> bool
    requires { Asked s.now y n states.now views.now starts.now successors.now counts.now
        × (marks.old ≡ pad state_limit []) × (rounds.old ≡ pad state_limit []) × (choices.old ≡ pad state_limit []) }
    ensures { Answered (answer (rules_of (sheet_in s.now y)) (nodes_of (sheet_in s.now y)) (take n states.now)) result marks.new rounds.new choices.new }
{
    let joints = Joints {
        n,
        starts,
        successors,
    };
    let mut froms = [0; 1025];
    let mut index = [0; 8192];
    let mut owners = [0; 8192];
    build_incoming(joints, &mut froms, &mut index, &mut owners);
    let incoming = Incoming {
        froms: &froms,
        index: &index,
        owners: &owners,
    };
    let held = Held {
        bytes: s,
        layout: y,
        states,
        views,
    };
    let mut tables = Answer {
        marks,
        rounds,
        choices,
    };
    mark_all(held, joints, counts, incoming, &mut tables)
}
