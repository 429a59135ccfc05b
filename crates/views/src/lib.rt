// The views of the lent sheet: which views each leads to, the views of each level, and refusal 5.
#![tactic(auto)]

ghost use Rattle.std.specs.Prelude.{◌≡◌, ℕ, [], ◌&&◌, ◌<◌, map, get_or, eqb};
ghost use Rattle.facts.specs.Bits.{has};
ghost use Rattle.sheet.specs.Records.{literals, rule_of, rules_of};
ghost use Rattle.rules.specs.Kinds as kind;
ghost use Rattle.rules.specs.Rules.{over};
ghost use Rattle.views.specs.Meaning.{literal_of, body_of, view_rule, view_rules};
ghost use Rattle.views.specs.Reference.{listed, name_of, row_of, row, rows, join, close, back_to, any, on_chain, closed, lowest};
ghost use Rattle.views.specs.Sheet.{viewed, reach_of, mask_at, masks_of, answer_of, answer};

use facts::FactSet;
use sheet::MOST_VIEWS;
use sheet::kinds::{NOT_VIEW, VIEW};
use sheet::record::{Body, Part, Rule, Rules};

// The VIEW rules are not stratified: the lowest view on a closed chain with a NOT in it.
#[derive(Clone, Copy, PartialEq, Eq)]
pub struct Unstratified {
    pub view: u8,
}

// ---- the rows: which views each view leads to

// x, with the view that the literal names.
#[tactic(auto, using(std::proofs::lemmas::Bool::Decides::nat_tests), unfolding(crate::specs::Reference::name_of, crate::specs::Reference::put))]
pub fn name_at(p: Part, x: FactSet) -> FactSet
    ensures { result.bits ≡ name_of 64 (literal_of p) x.bits }
{
    match p.kind {
        VIEW | NOT_VIEW if p.a < MOST_VIEWS => x.with(p.a),
        _ => x,
    }
}

// `start`, with the views that the body names.
pub fn names_in(body: Body, start: FactSet) -> FactSet
    ensures { result.bits ≡ over (name_of 64) (body_of (literals body.entry)) start.bits }
{
    let mut x = start;
    for literal in body {
        x = name_at(literal, x);
    }
    x
}

// x, with the views that the rule names where it is one for v.
#[tactic(auto, using(std::proofs::lemmas::Bool::Decides::nat_tests), unfolding(crate::specs::Reference::row_of))]
pub fn rule_row(rule: Rule, v: u8, x: FactSet) -> FactSet
    ensures { result.bits ≡ viewed (row_of 64 v) (rule_of rule.entry) x.bits }
{
    if rule.head.kind == VIEW && rule.head.a == v {
        names_in(rule.body, x)
    } else {
        x
    }
}

// The rows where no rule names a view: each view leads to itself.
#[tactic(auto, unfolding(crate::specs::Reference::row))]
fn own_rows(q: &mut [u64; 64])
    ensures { (v : ℕ) → v < 64 → get_or q.new v 0 ≡ row 64 [] v }
{
    for v in 0..MOST_VIEWS {
        q[usize::from(v)] = u64::from(FactSet::default().with(v));
    }
}

// The rows, with the views that the rule names in the row of its head.
fn name_rule(rule: Rule, q: &mut [u64; 64])
    ensures { (v : ℕ) → v < 64 → get_or q.new v 0 ≡ viewed (row_of 64 v) (rule_of rule.entry) (get_or q.old v 0) }
{
    let v = rule.head.a;
    if rule.head.kind == VIEW && v < MOST_VIEWS {
        let row = FactSet::from(q[usize::from(v)]);
        q[usize::from(v)] = u64::from(rule_row(rule, v, row));
    }
}

// A row for each view: the view, and the views that its rules name. Each rule is visited once.
pub fn rows_of(rules: Rules, q: &mut [u64; 64])
    ensures { q.new ≡ rows 64 (view_rules (rules_of rules.entry)) }
{
    own_rows(q);
    for rule in rules {
        name_rule(rule, q);
    }
}

// The row r, with all of row k where k is in it.
#[tactic(auto, using(std::proofs::lemmas::Bool::Decides::nat_tests), unfolding(crate::specs::Reference::join))]
pub fn joined(k: usize, rk: u64, r: u64) -> u64
    requires { k < 64 }
    ensures { result ≡ join k rk r }
{
    if (r >> k) % 2 == 1 { r | rk } else { r }
}

// Each row, with all of row k where k is in it.
pub fn round(q: &mut [u64; 64], k: usize)
    requires { k < 64 }
    ensures { q.new ≡ map (join k (get_or q.old k 0)) q.old }
{
    let rk = q[k];
    for r in q.iter_mut() {
        *r = joined(k, rk, *r);
    }
}

// The rows, closed: all views to which a chain leads.
#[tactic(auto, using(crate::proofs::Laws::close_next), unfolding(crate::specs::Reference::close))]
pub fn closure(q: &mut [u64; 64])
    ensures { q.new ≡ close 64 q.old }
{
    for k in 0..64 {
        round(q, k);
    }
}

// ---- the levels

// The views whose row has c ones.
#[tactic(auto, using(std::proofs::lemmas::Bool::Decides::nat_tests, crate::proofs::Laws::pack_more), unfolding(facts::specs::Pack::pack))]
pub fn mask_of(q: &[u64; 64], c: u32) -> FactSet
    ensures { result.bits ≡ mask_at q.now c }
{
    let mut x = FactSet::default();
    for v in 0..MOST_VIEWS {
        if q[usize::from(v)].count_ones() == c {
            x = x.with(v);
        }
    }
    x
}

// The views of each level, from the closed rows.
pub fn masks_of(q: &[u64; 64], t: &mut [u64; 64])
    ensures { t.new ≡ listed (mask_at q.now) 64 1 }
{
    for i in 0..MOST_VIEWS {
        t[usize::from(i)] = u64::from(mask_of(q, u32::from(i) + 1));
    }
}

// ---- refusal 5

// Does v lead to w, by the closed rows? No view from 64 on leads anywhere.
#[tactic(auto, using(std::proofs::lemmas::Bool::Decides::nat_tests, crate::proofs::Laws::beyond))]
fn leads(q: &[u64; 64], v: u8, w: u8) -> bool
    ensures { result ≡ has (get_or q.now v 0) w }
{
    v < MOST_VIEWS && FactSet::from(q[usize::from(v)]).has(w)
}

// Is the literal a NOT of a view that leads to v?
#[tactic(auto, using(std::proofs::lemmas::Bool::Decides::nat_tests), unfolding(crate::specs::Reference::back_to))]
pub fn back_at(p: Part, q: &[u64; 64], v: u8) -> bool
    ensures { result ≡ back_to q.now v (literal_of p) }
{
    p.kind == NOT_VIEW && leads(q, p.a, v)
}

// Does a NOT of the body lead back to v?
pub fn backs_in(body: Body, q: &[u64; 64], v: u8) -> bool
    ensures { result ≡ any (back_to q.now v) (body_of (literals body.entry)) }
{
    for literal in body {
        if back_at(literal, q, v) {
            return true;
        }
    }
    false
}

// Is it a VIEW rule to whose head v leads, with a NOT in its body that leads back to v?
#[tactic(auto, using(std::proofs::lemmas::Bool::Decides::nat_tests), unfolding(crate::specs::Reference::on_chain))]
pub fn rule_closed(rule: Rule, q: &[u64; 64], v: u8) -> bool
    ensures { result ≡ (eqb rule.entry.head.kind kind.VIEW && on_chain q.now v (view_rule (rule_of rule.entry))) }
{
    rule.head.kind == VIEW && leads(q, v, rule.head.a) && backs_in(rule.body, q, v)
}

// Is v on a closed chain with a NOT in it?
#[tactic(auto, using(crate::proofs::Laws::any_views), unfolding(crate::specs::Reference::closed))]
pub fn closed_at(rules: Rules, q: &[u64; 64], v: u8) -> bool
    ensures { result ≡ closed q.now (view_rules (rules_of rules.entry)) v }
{
    for rule in rules {
        if rule_closed(rule, q, v) {
            return true;
        }
    }
    false
}

// The lowest view on a closed chain with a NOT in it, by the closed rows.
#[tactic(auto, using(crate::proofs::Laws::lowest_here, crate::proofs::Laws::lowest_on, crate::proofs::Laws::lowest_out))]
pub fn refused_at(rules: Rules, q: &[u64; 64]) -> Result<(), Unstratified>
    ensures { result ≡ answer_of (lowest (closed q.now (view_rules (rules_of rules.entry))) 64 0) }
{
    for view in 0..MOST_VIEWS {
        if closed_at(rules, q, view) {
            return Err(Unstratified { view });
        }
    }
    Ok(())
}

// The closed rows, the views of each level, and the answer to refusal 5.
pub fn study(rules: Rules, q: &mut [u64; 64], t: &mut [u64; 64]) -> Result<(), Unstratified>
    ensures rows { q.new ≡ reach_of (rules_of rules.entry) }
    ensures levels { t.new ≡ masks_of (rules_of rules.entry) }
    ensures place { result ≡ answer (rules_of rules.entry) }
{
    rows_of(rules, q);
    closure(q);
    masks_of(q, t);
    refused_at(rules, q)
}
