// What a unification is given, with each number that is outside the bank replaced by one with its tree.
ghost use Rattle.std.specs.Prelude.{◌≡◌, ◌<◌, length, true, All, IfOk};
ghost use Rattle.lp_calculus.specs.Term.{index};
ghost use Rattle.lp_calculus.specs.Types.{var};
ghost use Rattle.lp_term.specs.Nodes.{Extends, Nodes, tree, type_tree};
ghost use Rattle.lp_pattern.specs.Growing.{IsPairOf};
ghost use Rattle.lp_pattern.specs.Inside.{IsTypePairOf, ArePairsInPlaceOf, AreTypePairsInPlaceOf};

use lp_base::Memory;
use lp_model::Pair;
use lp_term::{Bank, TermId, TypeId, put_index, put_type_variable};
use std::alloc::Global;

// Whether the sides of all pairs are in the bank.
pub(crate) fn are_pairs(bank: &Bank, pairs: &[Pair]) -> bool
    ensures { result ≡ true → All (IsPairOf (length bank.now.terms)) pairs.now }
{
    for pair in pairs.iter().copied() {
        if pair.left.0 >= bank.term_count() || pair.right.0 >= bank.term_count() {
            return false;
        }
    }
    true
}

// Whether the types of all pairs are in the bank.
pub(crate) fn are_type_pairs(bank: &Bank, pairs: &[(TypeId, TypeId)]) -> bool
    ensures { result ≡ true → All (IsTypePairOf (length bank.now.types)) pairs.now }
{
    for pair in pairs.iter().copied() {
        if pair.0.0 >= bank.type_count() || pair.1.0 >= bank.type_count() {
            return false;
        }
    }
    true
}

// The term, or another one where it is not below the count.
fn term_below(id: TermId, count: usize, other: TermId) -> TermId
    ensures { (b d : Nodes) → Extends b d → count ≡ length b.terms → other.0 < length d.terms → tree d other.0 ≡ index 0 → (result.0 < length d.terms) × (tree d result.0 ≡ tree b id.0) }
{
    if id.0 < count {
        return id;
    }
    other
}

// The type, or another one where it is not below the count.
fn type_below(id: TypeId, count: usize, other: TypeId) -> TypeId
    ensures { (b d : Nodes) → Extends b d → count ≡ length b.types → other.0 < length d.types → type_tree d other.0 ≡ var 0 → (result.0 < length d.types) × (type_tree d result.0 ≡ type_tree b id.0) }
{
    if id.0 < count {
        return id;
    }
    other
}

// The pairs, with another term for each that is not below the count.
fn pairs_below(
    alloc: Global,
    pairs: &[Pair],
    count: usize,
    other: TermId,
) -> Result<Vec<Pair>, Memory>
    ensures { IfOk result (λ made. (b d : Nodes) → Extends b d → count ≡ length b.terms → other.0 < length d.terms → tree d other.0 ≡ index 0 → ArePairsInPlaceOf b d pairs.now made.items) }
{
    let mut made = Vec::new(alloc);
    for pair in pairs.iter().copied() {
        let left = term_below(pair.left, count, other);
        let right = term_below(pair.right, count, other);
        let level = pair.level;
        made.push(Pair { left, right, level })?;
    }
    Ok(made)
}

// The pairs, with another type for each that is not below the count.
fn type_pairs_below(
    alloc: Global,
    pairs: &[(TypeId, TypeId)],
    count: usize,
    other: TypeId,
) -> Result<Vec<(TypeId, TypeId)>, Memory>
    ensures { IfOk result (λ made. (b d : Nodes) → Extends b d → count ≡ length b.types → other.0 < length d.types → type_tree d other.0 ≡ var 0 → AreTypePairsInPlaceOf b d pairs.now made.items) }
{
    let mut made = Vec::new(alloc);
    for pair in pairs.iter().copied() {
        let left = type_below(pair.0, count, other);
        let right = type_below(pair.1, count, other);
        made.push((left, right))?;
    }
    Ok(made)
}

// Equations of types, pairs, and pairs that wait.
#[derive(Drop)]
pub(crate) struct Input {
    pub types: Vec<(TypeId, TypeId)>,
    pub pairs: Vec<Pair>,
    pub delayed: Vec<Pair>,
}

// The input with the trees that it has, at numbers of the bank.
pub(crate) fn inside(
    alloc: Global,
    bank: &mut Bank,
    types: &[(TypeId, TypeId)],
    pairs: &[Pair],
    delayed: &[Pair],
) -> Result<Input, Memory>
    ensures kept { Extends bank.old bank.new }
    ensures types { IfOk result (λ r. AreTypePairsInPlaceOf bank.old bank.new types.now r.types.items) }
    ensures pairs { IfOk result (λ r. ArePairsInPlaceOf bank.old bank.new pairs.now r.pairs.items) }
    ensures delayed { IfOk result (λ r. ArePairsInPlaceOf bank.old bank.new delayed.now r.delayed.items) }
{
    let type_count = bank.type_count();
    let count = bank.term_count();
    let other_type = put_type_variable(bank, 0)?;
    let other = put_index(bank, 0)?;
    let all_types = type_pairs_below(alloc, types, type_count, other_type)?;
    let all_pairs = pairs_below(alloc, pairs, count, other)?;
    let waiting = pairs_below(alloc, delayed, count, other)?;
    Ok(Input {
        types: all_types,
        pairs: all_pairs,
        delayed: waiting,
    })
}
