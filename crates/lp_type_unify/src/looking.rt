//! Looks at the tops of types that are past their bindings.
ghost use Rattle.std.specs.Prelude.{◌≡◌, ℕ, ◌+◌, ◌<◌, length, List, [], ◌∷◌, ◌++◌, IfOk, OnOk, All, reverse, MatchOption};
ghost use Rattle.lp_calculus.specs.Types.{Ty, var, instance};
ghost use Rattle.lp_term.specs.Nodes.{type_tree};
ghost use Rattle.lp_type_laws.specs.Equations.{equation};
ghost use Rattle.lp_type_laws.specs.Solving.{turn};
ghost use Rattle.lp_type_unify.specs.Reading.{IsPair, read_pairs};
ghost use Rattle.lp_type_unify.specs.Looking.{IsLoose, IsMade, Looked, read_stack, zipped, Chosen, Turned};

use crate::bindings::Pair;
use lp_base::Memory;
use lp_term::{Bank, TypeId, TypeNode};

// Puts types on a stack, so that the first of them comes first.
pub(crate) fn push_reversed(ids: &[TypeId], stack: &mut Vec<TypeId>) -> Result<(), Memory>
    ensures { OnOk result (stack.new.items ≡ stack.old.items ++ reverse ids.now) }
{
    for id in ids.iter().rev().copied() {
        stack.push(id)?;
    }
    Ok(())
}

// Says whether the type is the variable; else its parts go on the stack.
pub(crate) fn look(
    bank: &Bank,
    variable: u64,
    top: TypeId,
    stack: &mut Vec<TypeId>,
) -> Result<bool, Memory>
    requires known { top.0 < length bank.now.types }
    requires stacked { All (λ t. t.0 < length bank.now.types) stack.old.items }
    ensures stacked { OnOk result (All (λ t. t.0 < length bank.now.types) stack.new.items) }
    ensures looked { IfOk result (λ found. (θ : ℕ → Ty) → IsLoose θ (type_tree bank.now top.0) → Looked found variable (instance θ (type_tree bank.now top.0))
        (read_stack (type_tree bank.now) θ stack.old.items) (read_stack (type_tree bank.now) θ stack.new.items)) }
{
    match bank.type_node(top) {
        TypeNode::Var(y) => return Ok(y == variable),
        TypeNode::Param(_) => {}
        TypeNode::Con(_, ids) => push_reversed(ids, stack)?,
        TypeNode::Arrow(left, right) => {
            stack.push(right)?;
            stack.push(left)?;
        }
    }
    Ok(false)
}

// What is to be done with two types that are to be one.
#[derive(Clone, Copy)]
pub(crate) enum Choice {
    Drop,
    Bind(u64, TypeId),
    Split,
}

// The number of a variable.
fn variable_of(bank: &Bank, id: TypeId) -> Option<u64>
    requires { id.0 < length bank.now.types }
    ensures { MatchOption result (IsMade (type_tree bank.now id.0)) (λ x. type_tree bank.now id.0 ≡ var x) }
{
    match bank.type_node(id) {
        TypeNode::Var(x) => Some(x),
        TypeNode::Param(_) => None,
        TypeNode::Con(_, _) => None,
        TypeNode::Arrow(_, _) => None,
    }
}

// Chooses by the tops: of two variables the younger is bound.
pub(crate) fn choose(bank: &Bank, left: TypeId, right: TypeId) -> Choice
    requires left { left.0 < length bank.now.types }
    requires right { right.0 < length bank.now.types }
    ensures { (θ : ℕ → Ty) → IsLoose θ (type_tree bank.now left.0) → IsLoose θ (type_tree bank.now right.0) →
        Chosen (type_tree bank.now) (length bank.now.types) θ left right result }
{
    match variable_of(bank, left) {
        Some(x) => match variable_of(bank, right) {
            Some(y) => {
                if x == y {
                    return Choice::Drop;
                }
                if x < y {
                    return Choice::Bind(y, left);
                }
                Choice::Bind(x, right)
            }
            None => Choice::Bind(x, right),
        },
        None => match variable_of(bank, right) {
            Some(y) => Choice::Bind(y, left),
            None => Choice::Split,
        },
    }
}

// Puts pairs on a stack, so that the first of them comes first.
fn push_pairs(lefts: &[TypeId], rights: &[TypeId], todo: &mut Vec<Pair>) -> Result<(), Memory>
    requires { length lefts.now ≡ length rights.now }
    ensures { OnOk result (todo.new.items ≡ todo.old.items ++ reverse (zipped lefts.now rights.now)) }
{
    for done in 0..lefts.len() {
        let at = lefts.len() - 1 - done;
        todo.push(Pair {
            left: lefts[at],
            right: rights[at],
        })?;
    }
    Ok(())
}

// Takes apart two types that are no variables. Says whether they have the same top.
pub(crate) fn split(
    bank: &Bank,
    left: TypeId,
    right: TypeId,
    todo: &mut Vec<Pair>,
) -> Result<bool, Memory>
    requires left { left.0 < length bank.now.types }
    requires right { right.0 < length bank.now.types }
    requires made_left { IsMade (type_tree bank.now left.0) }
    requires made_right { IsMade (type_tree bank.now right.0) }
    requires todos { All (IsPair (length bank.now.types)) todo.old.items }
    ensures turned { IfOk result (λ ok. (θ : ℕ → Ty) →
        Turned ok (turn (equation (instance θ (type_tree bank.now left.0)) (instance θ (type_tree bank.now right.0))) (read_pairs (type_tree bank.now) θ todo.old.items) θ)
        (read_pairs (type_tree bank.now) θ todo.new.items) θ) }
    ensures todos { OnOk result (All (IsPair (length bank.now.types)) todo.new.items) }
{
    match bank.type_node(left) {
        TypeNode::Var(_) => Ok(false),
        TypeNode::Param(k) => match bank.type_node(right) {
            TypeNode::Param(l) => Ok(k == l),
            _ => Ok(false),
        },
        TypeNode::Con(c, ids) => match bank.type_node(right) {
            TypeNode::Con(d, others) => {
                if c != d {
                    return Ok(false);
                }
                if ids.len() != others.len() {
                    return Ok(false);
                }
                push_pairs(ids, others, todo)?;
                Ok(true)
            }
            _ => Ok(false),
        },
        TypeNode::Arrow(a, b) => match bank.type_node(right) {
            TypeNode::Arrow(c, d) => {
                todo.push(Pair { left: b, right: d })?;
                todo.push(Pair { left: a, right: c })?;
                Ok(true)
            }
            _ => Ok(false),
        },
    }
}
