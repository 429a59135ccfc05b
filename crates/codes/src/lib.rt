// The rules of a sheet as codes: a body as five sets of numbers, and the member that its head adds.
#![tactic(auto)]

ghost use Rattle.std.specs.Prelude.{◌≡◌, [], ◌∷◌, ◌++◌, ◌+◌, ◌*◌, ◌<◌, ◌≤◌, length};
ghost use Rattle.std.proofs.lemmas.List.Edits.{sets};
ghost use Rattle.sheet.specs.Limits.{most_rules};
ghost use Rattle.sheet.specs.Records.{literals, rule_of, rules_of};
ghost use Rattle.views.specs.Sheet.{masks_of};
ghost use Rattle.codes.specs.Codes.{bits, place_of, noted, sets_of, Sound, AllSound};
ghost use Rattle.codes.specs.Table.{width, Compiled, Sized};
ghost use Rattle.codes.specs.Laid.{written, encoded, after, views_in, leveled, level_ends, last_end, compiled, ends_of};

use facts::FactSet;
use rules::{Ask, member};
use sheet::MOST_MOVES;
use sheet::kinds::DOES;
use sheet::record::{Body, Part, Rule, Rules};

// The length of a table of codes, and of the ends of its stretches.
pub const CODE_ROOM: usize = 3072;

pub const ENDS_ROOM: usize = 67;

// The codes of a sheet's rules, six numbers a slot, and the slot after each stretch of them.
#[derive(Clone, Copy)]
pub struct Codes {
    pub code: [u64; CODE_ROOM],
    pub ends: [u16; ENDS_ROOM],
}

// The five sets of a body.
pub type Sets = [u64; 5];

// ---- one body

// Where a literal stands in its set: its fact, its view, or its role's move.
pub fn place_of(p: Part) -> u8
    requires { place_of p < bits }
    ensures { result ≡ place_of p }
{
    if p.kind == DOES {
        MOST_MOVES * p.a + p.b
    } else {
        p.a
    }
}

// The literal into the set of its kind: the set's place is the kind's number less one, as `noted` has it.
#[tactic(auto, unfolding(crate::specs::Codes::noted))]
pub fn note(w: &mut Sets, p: Part)
    requires { (1 ≤ p.kind) × (p.kind ≤ 5) × (place_of p < bits) }
    ensures { w.new ≡ noted p w.old }
{
    let i = usize::from(p.kind) - 1;
    w[i] = u64::from(FactSet::from(w[i]).with(place_of(p)));
}

// The five sets of a body.
#[tactic(auto, using(crate::proofs::Body::noting_start, crate::proofs::Body::noting_literal))]
pub fn sets_of(body: Body) -> Sets
    requires { Sound (literals body) }
    ensures { result ≡ sets_of (literals body.entry) }
{
    let mut w = [0; 5];
    for literal in body {
        note(&mut w, literal);
    }
    w
}

// ---- one rule

// Six numbers into slot c: five sets and a member.
#[tactic(auto, using(crate::proofs::Laying::write_is))]
pub fn write(w: Sets, m: u8, code: &mut [u64], c: usize)
    requires { width * c + width ≤ length code.old }
    ensures { code.new ≡ written code.old c (w ++ (m ∷ [])) }
{
    let slot = &mut code[6 * c..6 * c + 6];
    slot[..5].copy_from_slice(&w);
    slot[5] = u64::from(m);
}

// The code of a rule into slot c, where the rule adds to the set that is asked for. The next free slot.
#[tactic(auto, using(crate::proofs::Laying::one_slot))]
pub fn encode_rule(rule: Rule, q: Ask, code: &mut [u64], c: usize) -> usize
    requires { Sound (literals rule.body) × (width * after q (rule_of rule ∷ []) c ≤ length code.old) }
    ensures slot { result ≡ after q (rule_of rule.entry ∷ []) c }
    ensures table { code.new ≡ encoded q (rule_of rule.entry ∷ []) code.old c }
{
    match member(q, rule.head) {
        Some(m) if m < 64 => {
            write(sets_of(rule.body), m, code, c);
            c + 1
        }
        _ => c,
    }
}

// ---- one question
// Soundness and room stay clauses: the first `for` would take the rules out of such a type, and each rule's soundness would be proved there as now.

// The codes of the rules that add to the set that is asked for, from slot `from` on. The next free slot.
pub fn encode(rules: Rules, q: Ask, code: &mut [u64], from: usize) -> usize
    requires { AllSound (rules_of rules) × (width * after q (rules_of rules) from ≤ length code.old) }
    ensures slot { result ≡ after q (rules_of rules.entry) from }
    ensures table { code.new ≡ encoded q (rules_of rules.entry) code.old from }
{
    let mut c = from;
    for rule in rules {
        c = encode_rule(rule, q, code, c);
    }
    c
}

// ---- the views, level by level

// The codes of the VIEW rules for the views in `only`. No rule is read where there are none.
#[tactic(auto, using(crate::proofs::Levels::after_none, crate::proofs::Levels::encoded_none))]
pub fn encode_level(rules: Rules, only: u64, code: &mut [u64], from: usize) -> usize
    requires { AllSound (rules_of rules) × (width * after (views_in only) (rules_of rules) from ≤ length code.old) }
    ensures slot { result ≡ after (views_in only) (rules_of rules.entry) from }
    ensures table { code.new ≡ encoded (views_in only) (rules_of rules.entry) code.old from }
{
    if only == 0 {
        from
    } else {
        encode(rules, Ask::View(FactSet::from(only)), code, from)
    }
}

// The codes of all levels, and the slot after each.
pub fn encode_levels(rules: Rules, masks: &[u64; 64], codes: &mut Codes, from: usize)
    requires { AllSound (rules_of rules) × (last_end (rules_of rules) masks.now from ≤ most_rules) }
    ensures table { codes.new.code ≡ leveled (rules_of rules.entry) masks.now codes.old.code from }
    ensures places { codes.new.ends ≡ sets codes.old.ends 3 (level_ends (rules_of rules.entry) masks.now from) }
{
    let mut c = from;
    for (i, only) in masks.iter().enumerate() {
        c = encode_level(rules, *only, &mut codes.code, c);
        codes.ends[3 + i] = c as u16;
    }
}

// ---- the whole sheet

impl Codes {
    // The codes of NEXT, of LEGAL, of TERMINAL and of the views level by level, and the slot after each stretch, written over what the tables hold.
    pub fn fill(&mut self, rules: Rules, masks: &[u64; 64])
        requires { AllSound (rules_of rules) × (length (rules_of rules) ≤ most_rules) × (masks.now ≡ masks_of (rules_of rules)) }
        ensures compiled { Compiled (rules_of rules.entry) masks.now self.new.code self.new.ends }
        ensures sized { Sized self.new.code self.new.ends }
        ensures table { self.new.code ≡ compiled (rules_of rules.entry) masks.now self.old.code }
        ensures places { self.new.ends ≡ ends_of (rules_of rules.entry) masks.now }
    {
        let a = encode(rules, Ask::Next, &mut self.code, 0);
        let b = encode(rules, Ask::Legals, &mut self.code, a);
        let c = encode(rules, Ask::Terminal, &mut self.code, b);
        self.ends[0] = a as u16;
        self.ends[1] = b as u16;
        self.ends[2] = c as u16;
        encode_levels(rules, masks, self, c);
    }
}
