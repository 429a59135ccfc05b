// One position of the game: what it offers, and what the plain tests say of it.
#![tactic(auto)]

ghost use Rattle.std.specs.Prelude.{◌≡◌, ◌*◌, ◌/◌, ◌%◌, ◌^◌, ◌<◌};
ghost use Rattle.facts.specs.Bits.{has};
ghost use Rattle.sheet.specs.Records.{rules_of};
ghost use Rattle.rules.specs.Rules.{legal_set};
ghost use Rattle.position.specs.Choices.{choices};
ghost use Rattle.position.specs.Position.{moves_of, offering, says};

use choices::{Choices, Moves};
use facts::FactSet;
use rules::{Ask, Look, gather, is_goal, is_terminal, role_moves};
use sheet::question::Question;
use sheet::record::Rules;
use std::array;

// The moves of each role, found once a sheet.
pub fn moves_of(rules: Rules) -> Moves
    ensures { result ≡ moves_of (rules_of rules.entry) }
{
    [0, 1, 2, 3].map(|role| role_moves(rules, role))
}

// A role's choices, from the moves that are LEGAL and the moves of the role.
#[tactic(auto, unfolding(crate::specs::Choices::choices))]
pub fn choices_of(legal: u16, moves: u16) -> u16
    ensures { result ≡ choices legal moves }
{
    legal & moves
}

// The sixteen bits of a role.
pub fn part_of(x: u64, role: usize) -> u16
    requires { role < 4 }
    ensures { result ≡ x / 2 ^ (16 * role) % 2 ^ 16 }
{
    ((x >> (16 * role)) % 65536) as u16
}

// What a position offers, from whether it is the end of a game and from the legal moves of all roles; `moves` has each role's moves.
// At the end of a game each role has one move, and the game stays.
#[tactic(auto, unfolding(crate::specs::Position::offering))]
pub fn choices_from(terminal: bool, legals: u64, moves: Moves) -> Choices
    ensures { result ≡ offering terminal legals moves }
{
    let sets = if terminal {
        [1; 4]
    } else {
        array::from_fn(
            |role|
                requires { role < 4 }
            { choices_of(part_of(legals, role), moves[role]) },
        )
    };
    Choices { sets, terminal }
}

// Is the move LEGAL for the role, by the rules alone?
#[tactic(auto, unfolding(rules::specs::Rules::legal_set))]
pub fn is_legal(rules: Rules, k: Look, role: u8, m: u8) -> bool
    ensures { result ≡ has (legal_set (rules_of rules.entry) k role) m }
{
    gather(rules, Ask::Legal(role), k, FactSet::default()).has(m)
}

// What a plain test says of a position; the other nodes are no tests.
pub fn test_at(rules: Rules, k: Look, q: Question) -> bool
    ensures { result ≡ says (rules_of rules.entry) k q }
{
    match q {
        Question::True => true,
        Question::Fact(f) => k.facts.has(f),
        Question::View(v) => k.views.has(v),
        Question::Legal(role, m) => is_legal(rules, k, role, m),
        Question::Goal(role, value) => is_goal(rules, k, role, value),
        Question::Terminal => is_terminal(rules, k),
        _ => false,
    }
}
