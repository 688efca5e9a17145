//! Shift and substitution, by one way through a term. What a place has become is kept: a term that is shared is gone through once, and
//! the results are shared as well.
ghost use Rattle.std.specs.Prelude.{◌≡◌, ℕ, ◌+◌, ◌-◌, ◌<◌, ◌≤◌, ◌^◌, ◌⊎◌, length, List, get_or, All, IfOk, IfSome, None};
ghost use Rattle.std.specs.HashMap.{values};
ghost use Rattle.lp_calculus.specs.Term.{index, raised, shift, substitute};
ghost use Rattle.lp_term.specs.Nodes.{tree, Extends};
ghost use Rattle.lp_term.specs.Walk.{Everywhere};
ghost use Rattle.lp_term.specs.Raise.{FitsRaised, FitsPut, FitsEach};
ghost use Rattle.lp_term.specs.Several.{put_each, substitute_each};
ghost use Rattle.lp_term.specs.Frame.{in_order};
ghost use Rattle.lp_term.specs.Change.{value, IsPlace, IsKnown};

use crate::bank::Bank;
use crate::change::{Change, Memo, Place, recall};
use crate::node::{TermId, TermNode};
use crate::started::carry;
use lp_base::Memory;
use std::alloc::Global;

// The index of the node, raised where it stands at or above the depth.
pub(crate) fn raise(
    bank: &mut Bank,
    id: TermId,
    depth: u64,
    at: u64,
    by: u64,
) -> Result<TermId, Memory>
    requires id { id.0 < length bank.old.terms }
    requires index { tree bank.old id.0 ≡ index at }
    requires fits { FitsRaised by depth at }
    ensures kept { Extends bank.old bank.new }
    ensures within { IfOk result (λ made. made.0 < length bank.new.terms) }
    ensures tree { IfOk result (λ made. tree bank.new made.0 ≡ raised by depth at) }
{
    if depth > at {
        return Ok(id);
    }
    let made = bank.put_term(TermNode::Index(at + by))?;
    Ok(made)
}

// The value, raised by the depth, if that can be told at once.
fn raised_value(
    bank: &mut Bank,
    memo: &Memo,
    value: TermId,
    depth: u64,
) -> Result<Option<TermId>, Memory>
    requires value { value.0 < length bank.old.terms }
    requires fits { Everywhere (FitsRaised depth) 0 (tree bank.old value.0) }
    requires known { (vs : List TermId) × All (IsKnown vs bank.old) (values memo.now) }
    ensures kept { Extends bank.old bank.new }
    ensures made { IfOk result (λ found. IfSome found (λ made. (made.0 < length bank.new.terms) × (tree bank.new made.0 ≡ shift 0 depth (tree bank.old value.0)))) }
{
    if depth == 0 {
        return Ok(Some(value));
    }
    if bank.is_known_below(value, 0) {
        return Ok(Some(value));
    }
    let place = Place {
        id: value,
        depth: 0,
        change: Change::Raise(depth),
    };
    let TermNode::Index(at) = bank.term_node(value) else {
        return Ok(recall(memo, place));
    };
    let made = raise(bank, value, 0, at, depth)?;
    Ok(Some(made))
}

// The value that stands for the index, where one does.
pub(crate) fn value_at(given: &[TermId], depth: u64, at: u64) -> Option<TermId>
    ensures here { IfSome result (λ v. (depth ≤ at) × (at - depth < length given.now) × (v ≡ get_or given.now (at - depth) v)) }
    ensures other { result ≡ None → at < depth ⊎ depth + length given.now ≤ at }
{
    if at < depth {
        return None;
    }
    let place = (at - depth) as usize;
    if place >= given.len() {
        return None;
    }
    Some(given[place])
}

// The index of the node, or the index as many lower as values are given.
pub(crate) fn lower(
    bank: &mut Bank,
    given: &[TermId],
    id: TermId,
    depth: u64,
    at: u64,
) -> Result<TermId, Memory>
    requires id { id.0 < length bank.old.terms }
    requires index { tree bank.old id.0 ≡ index at }
    requires other { at < depth ⊎ depth + length given.now ≤ at }
    ensures kept { Extends bank.old bank.new }
    ensures within { IfOk result (λ made. made.0 < length bank.new.terms) }
    ensures tree { IfOk result (λ made. tree bank.new made.0 ≡ put_each (in_order bank.old given.now) depth at) }
{
    if at < depth {
        return Ok(id);
    }
    let count = given.len() as u64;
    let made = bank.put_term(TermNode::Index(at - count))?;
    Ok(made)
}

// What becomes of the place, if that can be told at once.
pub(crate) fn find(
    bank: &mut Bank,
    memo: &Memo,
    given: &[TermId],
    place: Place,
) -> Result<Option<TermId>, Memory>
    requires place { IsPlace given.now bank.old place }
    requires known { All (IsKnown given.now bank.old) (values memo.now) }
    ensures kept { Extends bank.old bank.new }
    ensures found { IfOk result (λ found. IfSome found (λ made. (made.0 < length bank.new.terms) × (tree bank.new made.0 ≡ value given.now bank.old place))) }
{
    if bank.is_known_below(place.id, place.depth) {
        return Ok(Some(place.id));
    }
    let TermNode::Index(at) = bank.term_node(place.id) else {
        return Ok(recall(memo, place));
    };
    match place.change {
        Change::Raise(by) => {
            let made = raise(bank, place.id, place.depth, at, by)?;
            Ok(Some(made))
        }
        Change::Put => {
            let Some(value) = value_at(given, place.depth, at) else {
                let made = lower(bank, given, place.id, place.depth, at)?;
                return Ok(Some(made));
            };
            let found = raised_value(bank, memo, value, place.depth)?;
            Ok(found)
        }
    }
}

/// The term with its free indices at or above `from` raised by `by`.
pub fn shift(
    alloc: Global,
    bank: &mut Bank,
    term: TermId,
    from: u64,
    by: u64,
) -> Result<TermId, Memory>
    requires term { term.0 < length bank.old.terms }
    requires from { from + term.0 < 2 ^ 64 }
    requires raised { Everywhere (FitsRaised by) from (tree bank.old term.0) }
    ensures kept { Extends bank.old bank.new }
    ensures within { IfOk result (λ id. id.0 < length bank.new.terms) }
    ensures tree { IfOk result (λ id. tree bank.new id.0 ≡ shift from by (tree bank.old term.0)) }
{
    let place = Place {
        id: term,
        depth: from,
        change: Change::Raise(by),
    };
    carry(alloc, bank, &[], place)
}

/// The body with the value for its index 0, and each other free index one lower.
pub fn substitute(
    alloc: Global,
    bank: &mut Bank,
    body: TermId,
    value: TermId,
) -> Result<TermId, Memory>
    requires body { body.0 < length bank.old.terms }
    requires value { value.0 < length bank.old.terms }
    requires fits { Everywhere (FitsPut (tree bank.old value.0)) 0 (tree bank.old body.0) }
    ensures kept { Extends bank.old bank.new }
    ensures within { IfOk result (λ id. id.0 < length bank.new.terms) }
    ensures tree { IfOk result (λ id. tree bank.new id.0 ≡ substitute (tree bank.old value.0) (tree bank.old body.0)) }
{
    substitute_all(alloc, bank, body, &[value])
}

/// The body with the values for its indices from 0 on, and each other free index as many lower: what it becomes where the last value is put
/// for the outermost of as many abstractions, and so on inwards. One way through the body puts them all.
pub fn substitute_all(
    alloc: Global,
    bank: &mut Bank,
    body: TermId,
    given: &[TermId],
) -> Result<TermId, Memory>
    requires body { body.0 < length bank.old.terms }
    requires given { All (λ v. v.0 < length bank.old.terms) given.now }
    requires fits { Everywhere (FitsEach (in_order bank.old given.now)) 0 (tree bank.old body.0) }
    ensures kept { Extends bank.old bank.new }
    ensures within { IfOk result (λ id. id.0 < length bank.new.terms) }
    ensures tree { IfOk result (λ id. tree bank.new id.0 ≡ substitute_each (in_order bank.old given.now) (tree bank.old body.0)) }
{
    let _count = bank.term_count();
    let place = Place {
        id: body,
        depth: 0,
        change: Change::Put,
    };
    let made = carry(alloc, bank, given, place)?;
    Ok(made)
}
