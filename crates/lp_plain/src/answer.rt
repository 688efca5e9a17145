// The answer that a branch without goals is, in a bank of its own.
ghost use Rattle.std.specs.Prelude.{◌≡◌, true, false, ℕ, All, length, map, IfOk, IfSome, IsSome, OnOk};
ghost use Rattle.lp_term.specs.Memo.{AreMade};
ghost use Rattle.lp_term.specs.Nodes.{Extends, tree};
ghost use Rattle.lp_term.specs.Same.{same_map};
ghost use Rattle.lp_term.specs.Within.{AreTermsOf};
ghost use Rattle.lp_model.specs.Branch.{Answer as Found};
ghost use Rattle.lp_model.specs.Pair.{Closing, closed};
ghost use Rattle.lp_model.specs.Readings.{pair_of};
ghost use Rattle.lp_model.specs.Whole.{CanBeShown, CanPairBeShown, IsWhole};
ghost use Rattle.lp_pattern.specs.Growing.{IsPairOf};
ghost use Rattle.lp_pattern.specs.Stripping.{IsShut};
ghost use Rattle.lp_pattern.specs.Under.{IsReading};
ghost use Rattle.lp_plain.specs.HeadLooks.{OnlyBank};
ghost use Rattle.lp_plain.specs.Moving.{IsAnswer, Query};
ghost use Rattle.lp_plain.specs.Telling.{IsAnswerOf};
ghost use Rattle.lp_plain.specs.inner.Answering.{pair_under};

use crate::machine::Machine;
use crate::openness::has_small_indices;
use crate::start::query_variables;
use lp_base::Memory;
use lp_model::{Answer, Pair};
use lp_pattern::{Bindings, filled};
use lp_term::{Bank, Changed, Same, TermId};
use std::alloc::Global;

// The terms with all bindings put in.
fn filled_terms(
    alloc: Global,
    bank: &mut Bank,
    bindings: &Bindings,
    terms: &Vec<TermId>,
) -> Result<Vec<TermId>, Memory>
    ensures kept { Extends bank.old bank.new }
    ensures count { IfOk result (λ made. length made.items ≡ length terms.now.items) }
    ensures within { IfOk result (λ made. AreTermsOf bank.new made.items) }
    ensures filled { IfOk result (λ made. (c : Closing) → IsReading bank.old bindings.now c → IsShut c → AreTermsOf bank.old terms.now.items → map (λ t. tree bank.new t.0) made.items ≡ map (λ t. closed c (tree bank.old t.0)) terms.now.items) }
{
    let mut made = Vec::new(alloc);
    'each: for at in 0..terms.len() {
        let full = filled(alloc, bank, bindings, terms[at])?;
        made.push(full)?;
    }
    Ok(made)
}

fn filled_pairs(
    alloc: Global,
    bank: &mut Bank,
    bindings: &Bindings,
    pairs: &Vec<Pair>,
) -> Result<Vec<Pair>, Memory>
    ensures kept { Extends bank.old bank.new }
    ensures filled { IfOk result (λ made. (c : Closing) → IsReading bank.old bindings.now c → IsShut c → All (IsPairOf (length bank.old.terms)) pairs.now.items → map (pair_of bank.new) made.items ≡ map (pair_under bank.old c) pairs.now.items) }
{
    let mut made = Vec::new(alloc);
    'each: for at in 0..pairs.len() {
        let pair = pairs[at];
        let left = filled(alloc, bank, bindings, pair.left)?;
        let right = filled(alloc, bank, bindings, pair.right)?;
        made.push(Pair {
            left,
            right,
            level: pair.level,
        })?;
    }
    Ok(made)
}

// The terms in another bank.
fn copied_terms(
    alloc: Global,
    copies: &mut Changed,
    from: &Bank,
    terms: &Vec<TermId>,
    to: &mut Bank,
) -> Result<Vec<TermId>, Memory>
    ensures kept { Extends to.old to.new }
    ensures count { IfOk result (λ made. length made.items ≡ length terms.now.items) }
    ensures within { IfOk result (λ made. AreTermsOf to.new made.items) }
    ensures copied { IfOk result (λ made. AreMade same_map from.now to.old copies.old → map (λ t. tree to.new t.0) made.items ≡ map (λ t. tree from.now t.0) terms.now.items) }
    ensures memo { OnOk result (AreMade same_map from.now to.old copies.old → AreMade same_map from.now to.new copies.new) }
{
    let mut made = Vec::new(alloc);
    'each: for at in 0..terms.len() {
        let copy = copies.copy(alloc, &Same, from, terms[at], to)?;
        made.push(copy)?;
    }
    Ok(made)
}

fn copied_pairs(
    alloc: Global,
    copies: &mut Changed,
    from: &Bank,
    pairs: &Vec<Pair>,
    to: &mut Bank,
) -> Result<Vec<Pair>, Memory>
    ensures kept { Extends to.old to.new }
    ensures within { IfOk result (λ made. All (IsPairOf (length to.new.terms)) made.items) }
    ensures copied { IfOk result (λ made. AreMade same_map from.now to.old copies.old → map (pair_of to.new) made.items ≡ map (pair_of from.now) pairs.now.items) }
{
    let mut made = Vec::new(alloc);
    'each: for at in 0..pairs.len() {
        let pair = pairs[at];
        let left = copies.copy(alloc, &Same, from, pair.left, to)?;
        let right = copies.copy(alloc, &Same, from, pair.right, to)?;
        made.push(Pair {
            left,
            right,
            level: pair.level,
        })?;
    }
    Ok(made)
}

// Whether the term stands in the bank and its loose indices fit 32 bits.
fn can_be_shown(alloc: Global, bank: &Bank, id: TermId) -> Result<bool, Memory>
    ensures shown { IfOk result (λ shown. shown ≡ true → CanBeShown bank.now id) }
    ensures hidden { IfOk result (λ shown. shown ≡ false → CanBeShown bank.now id → ⊥) }
{
    if id.0 >= bank.term_count() {
        return Ok(false);
    }
    let small = has_small_indices(alloc, bank, id)?;
    Ok(small)
}

fn can_all_be_shown(alloc: Global, bank: &Bank, ids: &Vec<TermId>) -> Result<bool, Memory>
    ensures shown { IfOk result (λ shown. shown ≡ true → All (CanBeShown bank.now) ids.now.items) }
    ensures hidden { IfOk result (λ shown. shown ≡ false → All (CanBeShown bank.now) ids.now.items → ⊥) }
{
    'each: for at in 0..ids.len() {
        let shown = can_be_shown(alloc, bank, ids[at])?;
        if !shown {
            return Ok(false);
        }
    }
    Ok(true)
}

fn can_pair_be_shown(alloc: Global, bank: &Bank, pair: Pair) -> Result<bool, Memory>
    ensures shown { IfOk result (λ shown. shown ≡ true → CanPairBeShown bank.now pair) }
    ensures hidden { IfOk result (λ shown. shown ≡ false → CanPairBeShown bank.now pair → ⊥) }
{
    let left = can_be_shown(alloc, bank, pair.left)?;
    if !left {
        return Ok(false);
    }
    let right = can_be_shown(alloc, bank, pair.right)?;
    Ok(right)
}

fn can_pairs_be_shown(alloc: Global, bank: &Bank, pairs: &Vec<Pair>) -> Result<bool, Memory>
    ensures shown { IfOk result (λ shown. shown ≡ true → All (CanPairBeShown bank.now) pairs.now.items) }
    ensures hidden { IfOk result (λ shown. shown ≡ false → All (CanPairBeShown bank.now) pairs.now.items → ⊥) }
{
    'each: for at in 0..pairs.len() {
        let shown = can_pair_be_shown(alloc, bank, pairs[at])?;
        if !shown {
            return Ok(false);
        }
    }
    Ok(true)
}

/// The values of the query's variables, so many, and the residual pairs; none where one of them cannot be shown.
pub(crate) fn answer_of(machine: &mut Machine, count: usize) -> Result<Option<Answer>, Memory>
    ensures whole { IfOk result (λ found. IfSome found (IsWhole count)) }
    ensures only { OnOk result (OnlyBank machine.old machine.new) }
    ensures answer { IfOk result (λ found. (qv : Query) (x : Found) → count ≡ qv.vars → IsAnswer qv machine.old x → IsSome found × IfSome found (IsAnswerOf x)) }
{
    let alloc = machine.alloc;
    let variables = query_variables(alloc, &mut machine.bank, count)?;
    let full = filled_terms(alloc, &mut machine.bank, &machine.bindings, &variables)?;
    let sides = filled_pairs(
        alloc,
        &mut machine.bank,
        &machine.bindings,
        &machine.branch.pairs,
    )?;
    let mut bank = Bank::new(alloc);
    let mut copies = Changed::new(alloc);
    let values = copied_terms(alloc, &mut copies, &machine.bank, &full, &mut bank)?;
    let pairs = copied_pairs(alloc, &mut copies, &machine.bank, &sides, &mut bank)?;
    let values_shown = can_all_be_shown(alloc, &bank, &values)?;
    if !values_shown {
        return Ok(None);
    }
    let pairs_shown = can_pairs_be_shown(alloc, &bank, &pairs)?;
    if !pairs_shown {
        return Ok(None);
    }
    Ok(Some(Answer {
        bank,
        values,
        pairs,
    }))
}
