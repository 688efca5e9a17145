// Nodes that prove `t is e`, or an order of two expressions.
ghost use Rattle.std.specs.Prelude.{◌≡◌, ◌<◌, ◌≤◌, ◌⊎◌, ℕ, [], ◌∷◌, None, IfOk, IfSome, OnOk, length};
ghost use Rattle.lp_calculus.specs.Term.{Term};
ghost use Rattle.lp_calculus.specs.Types.{Ty};
ghost use Rattle.lp_standard.specs.Connectives.{two};
ghost use Rattle.lp_standard.specs.Numbers.{AtLeast, Is, Less};
ghost use Rattle.lp_term.specs.Nodes.{Extends, Nodes, tree};
ghost use Rattle.lp_model.specs.Proofs.{IsArith};
ghost use Rattle.lp_cert.specs.Facts.{IsKnown};
ghost use Rattle.lp_cert.specs.Shape.{AreOrdered, IsValued};
ghost use Rattle.lp_cert.specs.inner.Turned.{Decides, IsComputed, IsReady};

use crate::form::{Formed, form_of, is_inside, without_form};
use crate::goal::{turn_where, typed_sides};
use crate::known::Known;
use crate::shape::two_of;
use crate::value::{Texts, are_ordered, integer_of, is_value, value_of};
use crate::work::{Turn, Work};
use lp_base::Memory;
use lp_standard::Constant;
use lp_term::{Bank, TermId};
use std::alloc::Global;

// The term and the expression of `t is e`.
fn evaluation(bank: &Bank, formula: TermId) -> Option<(TermId, TermId)>
    ensures later { IfSome result (λ p. (b : Nodes) → Extends bank.now b → (of : Ty) × (tree b formula.0 ≡ two Is (of ∷ []) (tree b p.0.0) (tree b p.1.0))) }
    ensures inside { IfSome result (λ p. (p.0.0 < length bank.now.terms) × (p.1.0 < length bank.now.terms)) }
    ensures none { result ≡ None → (T : Ty) (A B : Term) → tree bank.now formula.0 ≡ two Is (T ∷ []) A B → ⊥ }
{
    typed_sides(bank, formula, Constant::Is)
}

// An order of two expressions: its number, and the two.
fn comparison(bank: &Bank, formula: TermId) -> Option<(u32, TermId, TermId)>
    ensures order { IfSome result (λ p. (Less ≤ p.0) × (p.0 ≤ AtLeast)) }
    ensures later { IfSome result (λ p. (b : Nodes) → Extends bank.now b → tree b formula.0 ≡ two p.0 [] (tree b p.1.0) (tree b p.2.0)) }
    ensures inside { IfSome result (λ p. (p.1.0 < length bank.now.terms) × (p.2.0 < length bank.now.terms)) }
    ensures none { result ≡ None → (n : ℕ) (A B : Term) → Less ≤ n → n ≤ AtLeast → tree bank.now formula.0 ≡ two n [] A B → ⊥ }
{
    let Some(found) = two_of(bank, formula) else {
        return None;
    };
    let first = Constant::Less.number();
    let last = Constant::AtLeast.number();
    if found.constant < first {
        return None;
    }
    if last < found.constant {
        return None;
    }
    if found.types.len() != 0 {
        return None;
    }
    Some((found.constant, found.left, found.right))
}

// What comes of two terms of which one has no normal form.
fn turn_without(left: Formed, right: Formed) -> Turn
    ensures on { result ≡ Turn.On → ⊥ }
    ensures no { result ≡ Turn.No → (left ≡ Formed.Deep → ⊥) × (right ≡ Formed.Deep → ⊥) }
    ensures deep { result ≡ Turn.Deep → (left ≡ Formed.Deep) ⊎ (right ≡ Formed.Deep) }
{
    let compared = without_form(left, right);
    Work::turn_of(compared)
}

// Whether a term converts to the value of an expression.
fn valued(
    alloc: Global,
    known: &mut Known,
    bank: &mut Bank,
    term: TermId,
    expression: TermId,
) -> Result<Turn, Memory>
    requires known { IsKnown bank.old known.old }
    ensures known { OnOk result (IsKnown bank.new known.new) }
    ensures kept { Extends bank.old bank.new }
    ensures valued { IfOk result (λ turn. turn ≡ Turn.On → (b : Nodes) → Extends bank.new b → IsValued (tree b expression.0) (tree b term.0)) }
    ensures decides { IfOk result (λ turn. IsReady bank.old term → IsReady bank.old expression → Decides (IsValued (tree bank.old expression.0) (tree bank.old term.0)) (tree bank.old term.0) (tree bank.old expression.0) turn) }
{
    if !is_inside(bank, term) {
        return Ok(Turn::No);
    }
    if !is_inside(bank, expression) {
        return Ok(Turn::No);
    }
    let left = form_of(alloc, known, bank, term)?;
    let right = form_of(alloc, known, bank, expression)?;
    let Formed::Is(one) = left else {
        return Ok(turn_without(left, right));
    };
    let Formed::Is(other) = right else {
        return Ok(turn_without(left, right));
    };
    let mut texts = Texts::new(alloc);
    let found = value_of(alloc, bank, &mut texts, other)?;
    let Some(value) = found else {
        return Ok(Turn::No);
    };
    let holds = is_value(bank, &texts, one, value)?;
    Ok(turn_where(holds))
}

// Whether two expressions have integer values in the order of a constant.
fn in_order(
    alloc: Global,
    known: &mut Known,
    bank: &mut Bank,
    order: u32,
    left: TermId,
    right: TermId,
) -> Result<Turn, Memory>
    requires known { IsKnown bank.old known.old }
    ensures known { OnOk result (IsKnown bank.new known.new) }
    ensures kept { Extends bank.old bank.new }
    ensures ordered { IfOk result (λ turn. turn ≡ Turn.On → (b : Nodes) → Extends bank.new b → AreOrdered order (tree b left.0) (tree b right.0)) }
    ensures decides { IfOk result (λ turn. IsReady bank.old left → IsReady bank.old right → Decides (AreOrdered order (tree bank.old left.0) (tree bank.old right.0)) (tree bank.old left.0) (tree bank.old right.0) turn) }
{
    if !is_inside(bank, left) {
        return Ok(Turn::No);
    }
    if !is_inside(bank, right) {
        return Ok(Turn::No);
    }
    let first = form_of(alloc, known, bank, left)?;
    let second = form_of(alloc, known, bank, right)?;
    let Formed::Is(one) = first else {
        return Ok(turn_without(first, second));
    };
    let Formed::Is(other) = second else {
        return Ok(turn_without(first, second));
    };
    let earlier = integer_of(alloc, bank, one)?;
    let Some(less) = earlier else {
        return Ok(Turn::No);
    };
    let later = integer_of(alloc, bank, other)?;
    let Some(more) = later else {
        return Ok(Turn::No);
    };
    let holds = are_ordered(order, less, more);
    Ok(turn_where(holds))
}

// Whether the goal is `t is e`, or an order of two expressions, and holds.
pub(crate) fn computed(
    alloc: Global,
    known: &mut Known,
    bank: &mut Bank,
    goal: TermId,
) -> Result<Turn, Memory>
    requires known { IsKnown bank.old known.old }
    ensures known { OnOk result (IsKnown bank.new known.new) }
    ensures kept { Extends bank.old bank.new }
    ensures arith { IfOk result (λ turn. turn ≡ Turn.On → (b : Nodes) → Extends bank.new b → IsArith (tree b goal.0)) }
    ensures decides { IfOk result (λ turn. IsReady bank.old goal → IsComputed (tree bank.old goal.0) turn) }
{
    if let Some((term, expression)) = evaluation(bank, goal) {
        return valued(alloc, known, bank, term, expression);
    }
    let Some((order, left, right)) = comparison(bank, goal) else {
        return Ok(Turn::No);
    };
    in_order(alloc, known, bank, order, left, right)
}
