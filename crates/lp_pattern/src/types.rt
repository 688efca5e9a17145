// Type equations, and the comparison of types, under bindings.
ghost use Rattle.std.specs.Prelude.{◌≡◌, ◌<◌, ◌≤◌, ◌++◌, ℕ, [], Some, length, reverse, true, All, IfOk, OnOk, IfErr};
ghost use Rattle.std.specs.Prelude.{nat_eq};
ghost use Rattle.std.specs.List.{IsDistinct};
ghost use Rattle.std.specs.Map.{keys_of};
ghost use Rattle.lp_calculus.specs.Types.{Ty, var, instance};
ghost use Rattle.lp_term.specs.Nodes.{Extends, type_tree};
ghost use Rattle.lp_model.specs.Types.{same_top, TypeOutcome, solve_types};
ghost use Rattle.lp_model.specs.Rule.{compare_types};
ghost use Rattle.lp_model.specs.Pair.{Closing};
ghost use Rattle.lp_pattern.specs.Behind.{IsReadBehind};
ghost use Rattle.lp_pattern.specs.Stripping.{IsShut};
ghost use Rattle.lp_pattern.specs.Under.{AreTypes, IsReading};
ghost use Rattle.lp_pattern.specs.Reading.{paired, type_pairs_of};
ghost use Rattle.lp_pattern.specs.Comparing.{IsLoose, HasSameTop, IsComparedTo, IsPassed};
ghost use Rattle.lp_pattern.specs.Growing.{Grows};
ghost use Rattle.lp_pattern.specs.Inside.{IsTypePairOf};
ghost use Rattle.lp_type_unify.specs.Reading.{IsPair, read_pairs};
ghost use Rattle.lp_unify_laws.specs.TypeSolutions.{equations};
ghost use Rattle.lp_pattern.specs.Filling.{IsStill, AreSolved, IsSolvedIn, IsUnsolvedIn};

use crate::bindings::Bindings;
use crate::fault::PatternRefusal;
use crate::fill_types::{TypesFilled, filled_in, resolved};
use crate::units::spend;
use lp_base::Memory;
use lp_term::{Bank, TypeId, TypeNode};
use lp_type_unify::{Bindings as Solution, Pair, unify_within};
use std::alloc::Global;

// The pairs with all bindings put in, the last one first.
fn filled_pairs(
    alloc: Global,
    bank: &mut Bank,
    bindings: &Bindings,
    pairs: &[(TypeId, TypeId)],
) -> Result<Vec<Pair>, Memory>
    requires { All (IsTypePairOf (length bank.old.types)) pairs.now }
    ensures kept { Extends bank.old bank.new }
    ensures within { IfOk result (λ filled. All (IsPair (length bank.new.types)) filled.items) }
    ensures filled { IfOk result (λ filled. (θ : ℕ → Ty) → AreTypes bank.old bindings.now θ →
        read_pairs (type_tree bank.new) var filled.items ≡ equations (type_pairs_of bank.old θ pairs.now)) }
{
    let mut done = TypesFilled::new(alloc);
    let mut filled = Vec::new(alloc);
    for pair in pairs.iter().rev().copied() {
        let left = filled_in(alloc, bank, bindings, &mut done, pair.0)?;
        let right = filled_in(alloc, bank, bindings, &mut done, pair.1)?;
        filled.push(Pair { left, right })?;
    }
    Ok(filled)
}

// Adds the bindings of a solution, in their order.
fn adopt(bindings: &mut Bindings, solution: &Solution) -> Result<(), Memory>
    ensures grown { Grows bindings.old bindings.new }
    ensures terms { bindings.new.terms ≡ bindings.old.terms }
    ensures taken { OnOk result (bindings.new.types.entries ≡ bindings.old.types.entries ++ solution.now.made.entries) }
    ensures distinct { OnOk result (IsDistinct nat_eq (keys_of solution.now.made.entries)) }
{
    for place in 0..solution.len() {
        let Some((variable, to)) = solution.entry(place) else {
            unreachable!()
        };
        bindings.bind_type(variable, to)?;
    }
    Ok(())
}

// Solves the type equations, in order, and adds what they bind.
pub(crate) fn solve_types(
    alloc: Global,
    bank: &mut Bank,
    bindings: &mut Bindings,
    pairs: &[(TypeId, TypeId)],
    units: &mut u64,
) -> Result<(), PatternRefusal>
    requires { All (IsTypePairOf (length bank.old.types)) pairs.now }
    ensures kept { Extends bank.old bank.new }
    ensures grown { Grows bindings.old bindings.new }
    ensures terms { bindings.new.terms ≡ bindings.old.terms }
    ensures fewer { OnOk result (units.new ≤ units.old) }
    ensures solved { OnOk result ((θ : ℕ → Ty) → AreTypes bank.old bindings.old θ → (n : ℕ) (o : TypeOutcome) → solve_types n (type_pairs_of bank.old θ pairs.now) [] 0 ≡ Some o → IsSolvedIn units.old units.new o) }
    ensures types { OnOk result ((θ : ℕ → Ty) → AreTypes bank.old bindings.old θ → IsStill θ → (n : ℕ) (o : TypeOutcome) → solve_types n (type_pairs_of bank.old θ pairs.now) [] 0 ≡ Some o → AreSolved bindings.old bank.new bindings.new θ units.old units.new o) }
    ensures behind { OnOk result ((c : Closing) → IsReading bank.old bindings.old c → IsShut c → IsStill c.types → (n : ℕ) (o : TypeOutcome) → solve_types n (type_pairs_of bank.old c.types pairs.now) [] 0 ≡ Some o → IsReadBehind bindings.old bank.new bindings.new c o) }
    ensures refused { IfErr result (λ e. (θ : ℕ → Ty) → AreTypes bank.old bindings.old θ → (n : ℕ) (o : TypeOutcome) → solve_types n (type_pairs_of bank.old θ pairs.now) [] 0 ≡ Some o → IsUnsolvedIn e units.old o) }
{
    if pairs.is_empty() {
        return Ok(());
    }
    let filled = filled_pairs(alloc, bank, bindings, pairs)?;
    let mut solution = Solution::new(alloc);
    *units = unify_within(alloc, bank, &mut solution, filled.as_slice(), *units)?;
    adopt(bindings, &solution)?;
    Ok(())
}

// Puts pairs on a stack, so that the first of them comes first.
pub(crate) fn push_pairs(
    lefts: &[TypeId],
    rights: &[TypeId],
    left: &mut Vec<(TypeId, TypeId)>,
) -> Result<(), Memory>
    requires { length lefts.now ≡ length rights.now }
    ensures { OnOk result (left.new.items ≡ left.old.items ++ reverse (paired lefts.now rights.now)) }
{
    for done in 0..lefts.len() {
        let at = lefts.len() - 1 - done;
        left.push((lefts[at], rights[at]))?;
    }
    Ok(())
}

// Whether two types begin in the same way; their parts go on the stack.
fn same_top(
    bank: &Bank,
    one: TypeId,
    other: TypeId,
    left: &mut Vec<(TypeId, TypeId)>,
) -> Result<bool, Memory>
    ensures { IfOk result (λ same. (θ : ℕ → Ty) → IsLoose θ (type_tree bank.now one.0) → IsLoose θ (type_tree bank.now other.0) →
        HasSameTop same (same_top (instance θ (type_tree bank.now one.0)) (instance θ (type_tree bank.now other.0)))
        (type_pairs_of bank.now θ (reverse left.old.items)) (type_pairs_of bank.now θ (reverse left.new.items))) }
{
    match bank.type_node(one) {
        TypeNode::Var(i) => match bank.type_node(other) {
            TypeNode::Var(j) => Ok(i == j),
            TypeNode::Param(_) => Ok(false),
            TypeNode::Con(_, _) => Ok(false),
            TypeNode::Arrow(_, _) => Ok(false),
        },
        TypeNode::Param(k) => match bank.type_node(other) {
            TypeNode::Param(l) => Ok(k == l),
            TypeNode::Var(_) => Ok(false),
            TypeNode::Con(_, _) => Ok(false),
            TypeNode::Arrow(_, _) => Ok(false),
        },
        TypeNode::Con(c, ids) => match bank.type_node(other) {
            TypeNode::Con(d, others) => {
                if c != d {
                    return Ok(false);
                }
                if ids.len() != others.len() {
                    return Ok(false);
                }
                push_pairs(ids, others, left)?;
                Ok(true)
            }
            TypeNode::Var(_) => Ok(false),
            TypeNode::Param(_) => Ok(false),
            TypeNode::Arrow(_, _) => Ok(false),
        },
        TypeNode::Arrow(a, b) => match bank.type_node(other) {
            TypeNode::Arrow(c, d) => {
                left.push((b, d))?;
                left.push((a, c))?;
                Ok(true)
            }
            TypeNode::Var(_) => Ok(false),
            TypeNode::Param(_) => Ok(false),
            TypeNode::Con(_, _) => Ok(false),
        },
    }
}

// Puts the pairs on a stack, so that the first of them comes first.
fn stacked(alloc: Global, pairs: &[(TypeId, TypeId)]) -> Result<Vec<(TypeId, TypeId)>, Memory>
    ensures { IfOk result (λ left. left.items ≡ reverse pairs.now) }
{
    let mut left = Vec::new(alloc);
    for pair in pairs.iter().rev().copied() {
        left.push(pair)?;
    }
    Ok(left)
}

// Whether the types of each pair are the same. A pair of types is a unit.
pub(crate) fn are_same_types(
    alloc: Global,
    bank: &Bank,
    bindings: &Bindings,
    pairs: &[(TypeId, TypeId)],
    units: &mut u64,
) -> Result<bool, PatternRefusal>
    ensures fewer { OnOk result (units.new ≤ units.old) }
    ensures compared { IfOk result (λ same. (θ : ℕ → Ty) → AreTypes bank.now bindings.now θ → (n : ℕ) → IsComparedTo same units.old units.new (compare_types n (type_pairs_of bank.now θ pairs.now))) }
    ensures spent { IfErr result (λ r. (θ : ℕ → Ty) → AreTypes bank.now bindings.now θ → (n : ℕ) → IsPassed r units.old (compare_types n (type_pairs_of bank.now θ pairs.now))) }
{
    let mut left = stacked(alloc, pairs)?;
    'pairs: while let Some((one, other)) = left.pop() {
        spend(units)?;
        let one = resolved(bank, bindings, one)?;
        let other = resolved(bank, bindings, other)?;
        if !same_top(bank, one, other, &mut left)? {
            return Ok(false);
        }
    }
    Ok(true)
}
