// The comparison of arguments up to conversion. A pair of heads is a unit, and so is a pair of types.
ghost use Rattle.std.specs.Prelude.{◌≡◌, ◌⊎◌, ℕ, suc, ◌≤◌, ◌<◌, ◌&&◌, ◌++◌, ◌∷◌, true, false, nat_eq, length, map, reverse, All, IfOk, OnOk, IfErr};
ghost use Rattle.lp_term.specs.Nodes.{Extends, tree};
ghost use Rattle.lp_model.specs.Pair.{Closing};
ghost use Rattle.lp_model.specs.Rule.{compare_all};
ghost use Rattle.lp_pattern.specs.declared.look.Head.TheVariants.{Rigid, Variable};
ghost use Rattle.lp_pattern.specs.Growing.{IsPairOf};
ghost use Rattle.lp_pattern.specs.inner.Falling.{walk_left, level_on_top};
ghost use Rattle.lp_pattern.specs.Under.{IsReading, under};
ghost use Rattle.lp_pattern.specs.Seen.{IsLooked};
ghost use Rattle.lp_pattern.specs.Comparing.{IsComparedTo, IsPassed, IsHeadCompared, IsHeadPassed, IsStep, IsAbstraction, are_apart, compare_pairs, opened_pair, pair_at, pair_under, pairs_under, pairs_of};

use crate::bindings::Bindings;
use crate::fault::PatternRefusal;
use crate::heads::{have_same_name, type_pairs};
use crate::look::{CONTRACTIONS, Head, Looked, look};
use crate::opened::LEVELS;
use crate::types::are_same_types;
use crate::units::spend;
use lp_base::Memory;
use lp_model::Pair;
use lp_term::{Bank, TermId, put_applied, put_eigen};
use std::alloc::Global;

// Both sides on the eigenconstant of the level plus one.
pub(crate) fn opened(
    bank: &mut Bank,
    left: TermId,
    right: TermId,
    level: u64,
) -> Result<Pair, Memory>
    requires left { left.0 < length bank.old.terms }
    requires right { right.0 < length bank.old.terms }
    ensures kept { Extends bank.old bank.new }
    ensures within { IfOk result (IsPairOf (length bank.new.terms)) }
    ensures deeper { IfOk result (λ pair. (pair.level ≡ suc level) × (level < 4611686018427387904)) }
    ensures opened { IfOk result (λ pair. (c : Closing) → pair_under bank.new c pair ≡ opened_pair level (under bank.old c left) (under bank.old c right)) }
{
    if level >= LEVELS {
        return Err(Memory);
    }
    let level = level + 1;
    let eigen = put_eigen(bank, level)?;
    let left = put_applied(bank, left, eigen)?;
    let right = put_applied(bank, right, eigen)?;
    Ok(Pair { left, right, level })
}

// Puts the pairs of arguments on a stack, so that the first of them comes first.
pub(crate) fn push_pairs(
    lefts: &[TermId],
    rights: &[TermId],
    level: u64,
    left: &mut Vec<Pair>,
) -> Result<(), Memory>
    requires { length lefts.now ≡ length rights.now }
    ensures { OnOk result (left.new.items ≡ left.old.items ++ reverse (pairs_of level lefts.now rights.now)) }
{
    for done in 0..lefts.len() {
        let at = lefts.len() - 1 - done;
        left.push(Pair {
            left: lefts[at],
            right: rights[at],
            level,
        })?;
    }
    Ok(())
}

// Whether two rigid heads are the same, with their types, and have as many arguments.
fn have_same_head(
    alloc: Global,
    bank: &Bank,
    bindings: &Bindings,
    one: &Looked,
    other: &Looked,
    units: &mut u64,
) -> Result<bool, PatternRefusal>
    requires one { one.now.head ≡ Rigid }
    requires other { other.now.head ≡ Rigid }
    requires looked_one { IsLooked bank.now bindings.now one.now }
    requires looked_other { IsLooked bank.now bindings.now other.now }
    ensures arguments { IfOk result (λ same. same ≡ true → length one.now.arguments.items ≡ length other.now.arguments.items) }
    ensures fewer { OnOk result (units.new ≤ units.old) }
    ensures compared { IfOk result (λ same. (c : Closing) → IsReading bank.now bindings.now c →
        IsHeadCompared same units.old units.new (under bank.now c one.now.top) (under bank.now c other.now.top) (length one.now.arguments.items) (length other.now.arguments.items)) }
    ensures refused { IfErr result (λ r. (c : Closing) → IsReading bank.now bindings.now c →
        IsHeadPassed r units.old (under bank.now c one.now.top) (under bank.now c other.now.top) (length one.now.arguments.items) (length other.now.arguments.items)) }
{
    if one.arguments.len() != other.arguments.len() {
        return Ok(false);
    }
    if !have_same_name(bank, one.top, other.top) {
        return Ok(false);
    }
    let pairs = type_pairs(alloc, bank, one.top, other.top)?;
    are_same_types(alloc, bank, bindings, pairs.as_slice(), units)
}

// Two sides of which one is an abstraction.
fn open_sides(
    bank: &mut Bank,
    bindings: &Bindings,
    one: &Looked,
    other: &Looked,
    level: u64,
    left: &mut Vec<Pair>,
    units: &u64,
) -> Result<bool, PatternRefusal>
    requires one { one.now.whole.0 < length bank.old.terms }
    requires other { other.now.whole.0 < length bank.old.terms }
    requires abstraction { IsAbstraction (tree bank.old one.now.whole.0) ⊎ IsAbstraction (tree bank.old other.now.whole.0) }
    requires left { All (IsPairOf (length bank.old.terms)) left.old.items }
    ensures kept { Extends bank.old bank.new }
    ensures left { OnOk result (All (IsPairOf (length bank.new.terms)) left.new.items) }
    ensures falls { OnOk result (walk_left units.now (level_on_top left.new.items) < walk_left units.now level) }
    ensures compared { IfOk result (λ same. (c : Closing) → IsReading bank.old bindings.now c → (n : ℕ) → IsStep same units.now units.now
        (compare_pairs n (pair_at level (under bank.old c one.now.whole) (under bank.old c other.now.whole) ∷ pairs_under bank.old c left.old.items))
        (compare_pairs n (pairs_under bank.new c left.new.items))) }
    ensures refused { IfErr result (λ r. (c : Closing) → IsReading bank.old bindings.now c → (n : ℕ) → IsPassed r units.now
        (compare_pairs n (pair_at level (under bank.old c one.now.whole) (under bank.old c other.now.whole) ∷ pairs_under bank.old c left.old.items))) }
{
    let pair = opened(bank, one.whole, other.whole, level)?;
    left.push(pair)?;
    Ok(true)
}

// The arguments are to be compared, where the heads were the same.
fn with_arguments(
    is_same: bool,
    one: &Looked,
    other: &Looked,
    level: u64,
    left: &mut Vec<Pair>,
) -> Result<bool, Memory>
    requires { is_same ≡ true → length one.now.arguments.items ≡ length other.now.arguments.items }
    ensures same { IfOk result (λ same. same ≡ is_same) }
    ensures pushed { OnOk result (is_same ≡ true → left.new.items ≡ left.old.items ++ reverse (pairs_of level one.now.arguments.items other.now.arguments.items)) }
    ensures others { OnOk result (is_same ≡ false → left.new.items ≡ left.old.items) }
{
    if !is_same {
        return Ok(false);
    }
    let ones = one.arguments.as_slice();
    push_pairs(ones, other.arguments.as_slice(), level, left)?;
    Ok(true)
}

// Two rigid heads.
fn both_rigid(
    alloc: Global,
    bank: &Bank,
    bindings: &Bindings,
    one: &Looked,
    other: &Looked,
    level: u64,
    left: &mut Vec<Pair>,
    units: &mut u64,
) -> Result<bool, PatternRefusal>
    requires one { one.now.head ≡ Rigid }
    requires other { other.now.head ≡ Rigid }
    requires looked_one { IsLooked bank.now bindings.now one.now }
    requires looked_other { IsLooked bank.now bindings.now other.now }
    requires left { All (IsPairOf (length bank.now.terms)) left.old.items }
    ensures left { OnOk result (All (IsPairOf (length bank.now.terms)) left.new.items) }
    ensures fewer { OnOk result (units.new ≤ units.old) }
    ensures falls { OnOk result (walk_left units.new (level_on_top left.new.items) < walk_left units.old level) }
    ensures compared { IfOk result (λ same. (c : Closing) → IsReading bank.now bindings.now c → (n : ℕ) → IsStep same units.old units.new
        (compare_pairs n (pair_at level (under bank.now c one.now.whole) (under bank.now c other.now.whole) ∷ pairs_under bank.now c left.old.items))
        (compare_pairs n (pairs_under bank.now c left.new.items))) }
    ensures refused { IfErr result (λ r. (c : Closing) → IsReading bank.now bindings.now c → (n : ℕ) → IsPassed r units.old
        (compare_pairs n (pair_at level (under bank.now c one.now.whole) (under bank.now c other.now.whole) ∷ pairs_under bank.now c left.old.items))) }
{
    spend(units)?;
    let is_same = have_same_head(alloc, bank, bindings, one, other, units)?;
    let same = with_arguments(is_same, one, other, level, left)?;
    Ok(same)
}

// Whether two variables are one and have as many arguments.
pub(crate) fn are_one_variable(
    ids: (u64, u64),
    levels: (u64, u64),
    one: &Looked,
    other: &Looked,
) -> bool
    ensures { result ≡ (nat_eq ids.0 ids.1 && nat_eq levels.0 levels.1 && nat_eq (length one.now.arguments.items) (length other.now.arguments.items)) }
{
    ids.0 == ids.1 && levels.0 == levels.1 && one.arguments.len() == other.arguments.len()
}

// Two variables.
fn both_variables(
    bank: &Bank,
    bindings: &Bindings,
    one: &Looked,
    other: &Looked,
    ids: (u64, u64),
    levels: (u64, u64),
    level: u64,
    left: &mut Vec<Pair>,
    units: &mut u64,
) -> Result<bool, PatternRefusal>
    requires one { one.now.head ≡ Variable ids.0 levels.0 }
    requires other { other.now.head ≡ Variable ids.1 levels.1 }
    requires looked_one { IsLooked bank.now bindings.now one.now }
    requires looked_other { IsLooked bank.now bindings.now other.now }
    requires left { All (IsPairOf (length bank.now.terms)) left.old.items }
    ensures left { OnOk result (All (IsPairOf (length bank.now.terms)) left.new.items) }
    ensures fewer { OnOk result (units.new ≤ units.old) }
    ensures falls { OnOk result (walk_left units.new (level_on_top left.new.items) < walk_left units.old level) }
    ensures compared { IfOk result (λ same. (c : Closing) → IsReading bank.now bindings.now c → (n : ℕ) → IsStep same units.old units.new
        (compare_pairs n (pair_at level (under bank.now c one.now.whole) (under bank.now c other.now.whole) ∷ pairs_under bank.now c left.old.items))
        (compare_pairs n (pairs_under bank.now c left.new.items))) }
    ensures refused { IfErr result (λ r. (c : Closing) → IsReading bank.now bindings.now c → (n : ℕ) → IsPassed r units.old
        (compare_pairs n (pair_at level (under bank.now c one.now.whole) (under bank.now c other.now.whole) ∷ pairs_under bank.now c left.old.items))) }
{
    spend(units)?;
    let is_same = are_one_variable(ids, levels, one, other);
    let same = with_arguments(is_same, one, other, level, left)?;
    Ok(same)
}

// A variable beside a rigid head.
fn apart(
    bank: &Bank,
    bindings: &Bindings,
    one: &Looked,
    other: &Looked,
    level: u64,
    left: &Vec<Pair>,
    units: &mut u64,
) -> Result<bool, PatternRefusal>
    requires apart { are_apart one.now.head other.now.head ≡ true }
    requires looked_one { IsLooked bank.now bindings.now one.now }
    requires looked_other { IsLooked bank.now bindings.now other.now }
    ensures fewer { OnOk result (units.new ≤ units.old) }
    ensures falls { OnOk result (walk_left units.new (level_on_top left.now.items) < walk_left units.old level) }
    ensures compared { IfOk result (λ same. (c : Closing) → IsReading bank.now bindings.now c → (n : ℕ) → IsStep same units.old units.new
        (compare_pairs n (pair_at level (under bank.now c one.now.whole) (under bank.now c other.now.whole) ∷ pairs_under bank.now c left.now.items))
        (compare_pairs n (pairs_under bank.now c left.now.items))) }
    ensures refused { IfErr result (λ r. (c : Closing) → IsReading bank.now bindings.now c → (n : ℕ) → IsPassed r units.old
        (compare_pairs n (pair_at level (under bank.now c one.now.whole) (under bank.now c other.now.whole) ∷ pairs_under bank.now c left.now.items))) }
{
    spend(units)?;
    Ok(false)
}

// Compares two terms by what was seen of them; their parts go on the stack.
fn by_heads(
    alloc: Global,
    bank: &mut Bank,
    bindings: &Bindings,
    one: &Looked,
    other: &Looked,
    level: u64,
    left: &mut Vec<Pair>,
    units: &mut u64,
) -> Result<bool, PatternRefusal>
    requires looked_one { IsLooked bank.old bindings.now one.now }
    requires looked_other { IsLooked bank.old bindings.now other.now }
    requires left { All (IsPairOf (length bank.old.terms)) left.old.items }
    ensures kept { Extends bank.old bank.new }
    ensures left { OnOk result (All (IsPairOf (length bank.new.terms)) left.new.items) }
    ensures fewer { OnOk result (units.new ≤ units.old) }
    ensures falls { OnOk result (walk_left units.new (level_on_top left.new.items) < walk_left units.old level) }
    ensures compared { IfOk result (λ same. (c : Closing) → IsReading bank.old bindings.now c → (n : ℕ) → IsStep same units.old units.new
        (compare_pairs n (pair_at level (under bank.old c one.now.whole) (under bank.old c other.now.whole) ∷ pairs_under bank.old c left.old.items))
        (compare_pairs n (pairs_under bank.new c left.new.items))) }
    ensures refused { IfErr result (λ r. (c : Closing) → IsReading bank.old bindings.now c → (n : ℕ) → IsPassed r units.old
        (compare_pairs n (pair_at level (under bank.old c one.now.whole) (under bank.old c other.now.whole) ∷ pairs_under bank.old c left.old.items))) }
{
    match one.head {
        Head::Abstraction(_) => open_sides(bank, bindings, one, other, level, left, units),
        Head::Rigid => match other.head {
            Head::Abstraction(_) => open_sides(bank, bindings, one, other, level, left, units),
            Head::Rigid => both_rigid(alloc, bank, bindings, one, other, level, left, units),
            Head::Variable { id: _, level: _ } => {
                apart(bank, bindings, one, other, level, left, units)
            }
        },
        Head::Variable { id: x, level: l } => match other.head {
            Head::Abstraction(_) => open_sides(bank, bindings, one, other, level, left, units),
            Head::Rigid => apart(bank, bindings, one, other, level, left, units),
            Head::Variable { id: y, level: m } => {
                both_variables(
                    bank,
                    bindings,
                    one,
                    other,
                    (x, y),
                    (l, m),
                    level,
                    left,
                    units,
                )
            }
        },
    }
}

// Compares two terms; their parts go on the stack.
fn compare(
    alloc: Global,
    bank: &mut Bank,
    bindings: &Bindings,
    pair: Pair,
    left: &mut Vec<Pair>,
    units: &mut u64,
) -> Result<bool, PatternRefusal>
    requires pair { IsPairOf (length bank.old.terms) pair }
    requires left { All (IsPairOf (length bank.old.terms)) left.old.items }
    ensures kept { Extends bank.old bank.new }
    ensures left { OnOk result (All (IsPairOf (length bank.new.terms)) left.new.items) }
    ensures fewer { OnOk result (units.new ≤ units.old) }
    ensures falls { OnOk result (walk_left units.new (level_on_top left.new.items) < walk_left units.old pair.level) }
    ensures compared { IfOk result (λ same. (c : Closing) → IsReading bank.old bindings.now c → (n : ℕ) → IsStep same units.old units.new
        (compare_pairs n (pair_under bank.old c pair ∷ pairs_under bank.old c left.old.items)) (compare_pairs n (pairs_under bank.new c left.new.items))) }
    ensures refused { IfErr result (λ r. (c : Closing) → IsReading bank.old bindings.now c → (n : ℕ) → n ≤ 1000000 → IsPassed r units.old
        (compare_pairs n (pair_under bank.old c pair ∷ pairs_under bank.old c left.old.items))) }
{
    let one = look(alloc, bank, bindings, pair.left, CONTRACTIONS)?;
    let other = look(alloc, bank, bindings, pair.right, CONTRACTIONS)?;
    by_heads(alloc, bank, bindings, &one, &other, pair.level, left, units)
}

// Whether all arguments are the same, left to right, until one differs. `Deep` comes where the units do not suffice, or where more than
// a million contractions lead to a head.
pub(crate) fn are_same(
    alloc: Global,
    bank: &mut Bank,
    bindings: &Bindings,
    lefts: &[TermId],
    rights: &[TermId],
    level: u64,
    units: &mut u64,
) -> Result<bool, PatternRefusal>
    requires arguments { length lefts.now ≡ length rights.now }
    requires lefts { All (λ t. t.0 < length bank.old.terms) lefts.now }
    requires rights { All (λ t. t.0 < length bank.old.terms) rights.now }
    ensures kept { Extends bank.old bank.new }
    ensures fewer { OnOk result (units.new ≤ units.old) }
    ensures compared { IfOk result (λ same. (c : Closing) → IsReading bank.old bindings.now c → (n : ℕ) → IsComparedTo same units.old units.new
        (compare_all n level (map (under bank.old c) lefts.now) (map (under bank.old c) rights.now))) }
    ensures refused { IfErr result (λ r. (c : Closing) → IsReading bank.old bindings.now c → (n : ℕ) → n ≤ 1000000 → IsPassed r units.old
        (compare_all n level (map (under bank.old c) lefts.now) (map (under bank.old c) rights.now))) }
{
    let mut left = Vec::new(alloc);
    push_pairs(lefts, rights, level, &mut left)?;
    'pairs: loop {
        let Some(pair) = left.pop() else {
            return Ok(true);
        };
        let is_same = compare(alloc, bank, bindings, pair, &mut left, units)?;
        if !is_same {
            return Ok(false);
        }
    }
}
