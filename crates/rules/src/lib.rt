// What the rules of the lent sheet give at a position: one literal, one body, one loop over the rules.
#![tactic(auto)]

ghost use Rattle.std.specs.Prelude.{◌≡◌, is_some, unwrap_or};
ghost use Rattle.sheet.specs.Records.{literals, rule_of, rules_of};
ghost use Rattle.rules.specs.declared.Ask.TheVariants.{Legals};
ghost use Rattle.rules.specs.Meaning.{doing, holds};
ghost use Rattle.rules.specs.Rules.{fires, over, asked, member_of, kind_of, seen_by, added, gathered, does_of, does_set, is_terminal, is_goal, init_facts};

use facts::FactSet;
use sheet::kinds::{DOES, GOAL, INIT, LEGAL, NEXT, NOT_TRUE, NOT_VIEW, TERMINAL, TRUE, VIEW};
use sheet::record::{Body, Part, Rule, Rules};
use sheet::{MOST_MOVES, MOST_ROLES};

// What literals are read off: the facts and the views that hold, and each role's move.
#[derive(Clone, Copy, Default)]
pub struct Look {
    pub facts: FactSet,
    pub views: FactSet,
    pub moves: [u16; 4],
}

// The set that is asked for: the facts of INIT or of NEXT, the views among some, a role's legal moves;
// or a yes (bit 0), for a role's goal of a value or for the end of the game; or the legal moves of all roles, sixteen bits a role.
#[derive(Clone, Copy)]
pub enum Ask {
    Init,
    Next,
    View(FactSet),
    Legal(u8),
    Goal(u8, u8),
    Terminal,
    Legals,
}

// Does the role make the move?
#[tactic(auto, using(std::proofs::lemmas::Bool::Decides::nat_tests), unfolding(crate::specs::Meaning::doing))]
pub fn does(moves: [u16; 4], role: u8, made: u8) -> bool
    ensures { result ≡ doing moves role made }
{
    role < MOST_ROLES && moves[usize::from(role)] == u16::from(made)
}

// ---- one literal, one body

// Is the literal true?
#[tactic(auto, unfolding(crate::specs::Meaning::holds))]
pub fn literal_holds(p: Part, k: Look) -> bool
    ensures { result ≡ holds k p }
{
    let Part { kind, a, b } = p;
    match kind {
        TRUE => k.facts.has(a),
        NOT_TRUE => !k.facts.has(a),
        VIEW => k.views.has(a),
        NOT_VIEW => !k.views.has(a),
        DOES => does(k.moves, a, b),
        _ => false,
    }
}

// Are all literals of the body true?
#[tactic(auto, unfolding(crate::specs::Rules::fires))]
pub fn body_holds(body: Body, k: Look) -> bool
    ensures { result ≡ fires k (literals body.entry) }
{
    for literal in body {
        if !literal_holds(literal, k) {
            return false;
        }
    }
    true
}

// ---- one rule

// The place of a role's move among those of all roles, where the head is LEGAL of a role and a move. 64 stands for none in `member_of`, a definition, which keeps its meaning.
pub fn place(head: Part) -> Option<u8>
    ensures member { unwrap_or result 64 ≡ member_of Legals head }
    ensures some { is_some result ≡ asked Legals head }
{
    let Part { kind, a, b } = head;
    if kind == LEGAL && a < MOST_ROLES && b < MOST_MOVES {
        Some(MOST_MOVES * a + b)
    } else {
        None
    }
}

// The member for which a head stands in the set that is asked for; a field of 64 or more is a member of no set.
pub fn member(q: Ask, head: Part) -> Option<u8>
    ensures member { unwrap_or result 64 ≡ member_of q head }
    ensures some { is_some result ≡ asked q head }
{
    let Part { kind, a, b } = head;
    match q {
        Ask::Init => (kind == INIT).then_some(a),
        Ask::Next => (kind == NEXT).then_some(a),
        Ask::View(only) => (kind == VIEW && only.has(a)).then_some(a),
        Ask::Legal(role) => (kind == LEGAL && a == role && b < MOST_MOVES).then_some(b),
        Ask::Goal(role, value) => (kind == GOAL && a == role && b == value).then_some(0),
        Ask::Terminal => (kind == TERMINAL).then_some(0),
        Ask::Legals => place(head),
    }
}

// The kind of the heads that are asked for.
fn kind_of(q: Ask) -> u8
    ensures { result ≡ kind_of q }
{
    match q {
        Ask::Init => INIT,
        Ask::Next => NEXT,
        Ask::View(_) => VIEW,
        Ask::Legal(_) | Ask::Legals => LEGAL,
        Ask::Goal(_, _) => GOAL,
        Ask::Terminal => TERMINAL,
    }
}

// The views that literals are read off: while views are gathered, those gathered so far.
pub fn seen(q: Ask, views: FactSet, x: FactSet) -> FactSet
    ensures { result.bits ≡ seen_by q views.bits x.bits }
{
    match q {
        Ask::View(_) => x,
        _ => views,
    }
}

// x, with what the rule adds.
#[tactic(auto, using(std::proofs::lemmas::Bool::Decides::nat_tests), unfolding(crate::specs::Rules::added))]
pub fn adds(rule: Rule, q: Ask, k: Look, x: FactSet) -> FactSet
    ensures { result.bits ≡ added q k (rule_of rule.entry) x.bits }
{
    let views = seen(q, k.views, x);
    let look = Look { views, ..k };
    match member(q, rule.head) {
        Some(m) if m < 64 && body_holds(rule.body, look) => x.with(m),
        _ => x,
    }
}

// ---- once over the rules

// `start`, with what all rules add. One test passes over a rule whose head is of another kind.
#[tactic(auto, unfolding(crate::specs::Rules::gathered))]
pub fn gather(rules: Rules, q: Ask, k: Look, start: FactSet) -> FactSet
    ensures { result.bits ≡ gathered q k (rules_of rules.entry) start.bits }
{
    let kind = kind_of(q);
    let mut x = start;
    for rule in rules {
        if rule.head.kind == kind {
            x = adds(rule, q, k, x);
        }
    }
    x
}

// ---- what a position gives

// Is the position the end of a game?
#[tactic(auto, unfolding(crate::specs::Rules::is_terminal))]
pub fn is_terminal(rules: Rules, k: Look) -> bool
    ensures { result ≡ is_terminal (rules_of rules.entry) k }
{
    gather(rules, Ask::Terminal, k, FactSet::default()) != FactSet::default()
}

// Has the role the goal value?
#[tactic(auto, unfolding(crate::specs::Rules::is_goal))]
pub fn is_goal(rules: Rules, k: Look, role: u8, value: u8) -> bool
    ensures { result ≡ is_goal (rules_of rules.entry) k role value }
{
    gather(rules, Ask::Goal(role, value), k, FactSet::default()) != FactSet::default()
}

// State 0.
#[tactic(auto, unfolding(crate::specs::Rules::init_facts))]
pub fn init_facts(rules: Rules) -> FactSet
    ensures { result.bits ≡ init_facts (rules_of rules.entry) }
{
    gather(rules, Ask::Init, Look::default(), FactSet::default())
}

// ---- moves

// x, with the literal's move where it is DOES of this role.
#[tactic(auto, using(std::proofs::lemmas::Bool::Decides::nat_tests), unfolding(crate::specs::Rules::does_of))]
pub fn does_at(p: Part, role: u8, x: FactSet) -> FactSet
    ensures { result.bits ≡ does_of role p x.bits }
{
    if p.kind == DOES && p.a == role && p.b < MOST_MOVES {
        x.with(p.b)
    } else {
        x
    }
}

// `start`, with the moves that occur with a role in some DOES of the body.
pub fn does_in(body: Body, role: u8, start: FactSet) -> FactSet
    ensures { result.bits ≡ over (does_of role) (literals body.entry) start.bits }
{
    let mut x = start;
    for literal in body {
        x = does_at(literal, role, x);
    }
    x
}

// The moves that occur with a role in some DOES of the sheet.
#[tactic(auto, unfolding(crate::specs::Rules::does_set))]
pub fn does_set(rules: Rules, role: u8) -> FactSet
    ensures { result.bits ≡ does_set role (rules_of rules.entry) 0 }
{
    let mut x = FactSet::default();
    for rule in rules {
        x = does_in(rule.body, role, x);
    }
    x
}

// The same as a sixteen-bit set.
#[tactic(auto, using(crate::proofs::Laws::does_lt))]
pub fn role_moves(rules: Rules, role: u8) -> u16
    ensures { result ≡ does_set role (rules_of rules.entry) 0 }
{
    u64::from(does_set(rules, role)) as u16
}
