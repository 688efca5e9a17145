//! The way through a term by its places. A place is begun with its parts left, and waits for what becomes of each.
ghost use Rattle.std.specs.Prelude.{◌≡◌, ℕ, ◌+◌, ◌*◌, ◌<◌, ◌^◌, length, List, [], All, IfOk, OnOk};
ghost use Rattle.std.specs.HashMap.{values};
ghost use Rattle.lp_calculus.specs.Term.{Term, index};
ghost use Rattle.lp_term.specs.Nodes.{Nodes, tree, Extends};
ghost use Rattle.lp_term.specs.Walk.{size};
ghost use Rattle.lp_term.specs.Frame.{in_order};
ghost use Rattle.lp_term.specs.Opened.{joined};
ghost use Rattle.lp_term.specs.Change.{value, IsPlace, IsKnown};
ghost use Rattle.lp_term.specs.Started.{IsStarted, IsHalted, AwaitsValue, IsAhead, part, factor, toil, all_toil};

use crate::bank::Bank;
use crate::carry::{find, lower, raise, value_at};
use crate::change::{Change, Memo, Place, remember};
use crate::node::{TermId, TermNode};
use crate::normal::apply_done;
use crate::unwind::push_reversed;
use lp_base::Memory;
use std::alloc::Global;
use std::collections::HashMap;

/// A place, what was made of its first parts, in order, and the parts that are left, of which the next one stands last. The parts stand
/// at a depth of their own, with a change of their own.
#[derive(Drop)]
pub(crate) struct Started {
    place: Place,
    abstraction: bool,
    depth: u64,
    change: Change,
    done: Vec<TermId>,
    left: Vec<TermId>,
}

/// The place to go on with, or what the outermost place becomes.
#[derive(Drop)]
pub(crate) enum Move {
    On(Started),
    Done(TermId),
}

// A place of which it is told what it becomes.
fn told(alloc: Global, place: Place, made: TermId) -> Result<Started, Memory>
    ensures place { IfOk result (λ w. w.place ≡ place) }
    ensures started { IfOk result (λ w. (vs : List TermId) (b : Nodes) → IsPlace vs b place → made.0 < length b.terms → tree b made.0 ≡ value vs b place →
        IsStarted vs b w × (toil vs b w < factor place.change * size (value vs b place))) }
{
    let mut done = Vec::new(alloc);
    done.push(made)?;
    Ok(Started {
        place,
        abstraction: false,
        depth: place.depth,
        change: place.change,
        done,
        left: Vec::new(alloc),
    })
}

// The place of an index.
fn start_index(
    alloc: Global,
    bank: &mut Bank,
    given: &[TermId],
    place: Place,
    at: u64,
) -> Result<Started, Memory>
    requires place { IsPlace given.now bank.old place }
    requires index { tree bank.old place.id.0 ≡ index at }
    ensures kept { Extends bank.old bank.new }
    ensures place { IfOk result (λ w. w.place ≡ place) }
    ensures started { IfOk result (λ w. IsStarted given.now bank.new w × (toil given.now bank.new w < factor place.change * size (value given.now bank.old place))) }
{
    let _count = bank.term_count();
    match place.change {
        Change::Raise(by) => {
            let made = raise(bank, place.id, place.depth, at, by)?;
            let started = told(alloc, place, made)?;
            Ok(started)
        }
        Change::Put => {
            let Some(value) = value_at(given, place.depth, at) else {
                let made = lower(bank, given, place.id, place.depth, at)?;
                let started = told(alloc, place, made)?;
                return Ok(started);
            };
            let mut left = Vec::new(alloc);
            left.push(value)?;
            Ok(Started {
                place,
                abstraction: false,
                depth: 0,
                change: Change::Raise(place.depth),
                done: Vec::new(alloc),
                left,
            })
        }
    }
}

// The place with its parts left.
fn start(alloc: Global, bank: &mut Bank, given: &[TermId], place: Place) -> Result<Started, Memory>
    requires { IsPlace given.now bank.old place }
    ensures kept { Extends bank.old bank.new }
    ensures place { IfOk result (λ w. w.place ≡ place) }
    ensures started { IfOk result (λ w. IsStarted given.now bank.new w × (toil given.now bank.new w < factor place.change * size (value given.now bank.old place))) }
{
    let _count = bank.term_count();
    match bank.term_node(place.id) {
        TermNode::Abs(body) => {
            let mut left = Vec::new(alloc);
            left.push(body)?;
            Ok(Started {
                place,
                abstraction: true,
                depth: place.depth + 1,
                change: place.change,
                done: Vec::new(alloc),
                left,
            })
        }
        TermNode::App(head, args) => {
            let mut left = Vec::new(alloc);
            push_reversed(args, &mut left)?;
            left.push(head)?;
            Ok(Started {
                place,
                abstraction: false,
                depth: place.depth,
                change: place.change,
                done: Vec::new(alloc),
                left,
            })
        }
        TermNode::Index(at) => {
            let started = start_index(alloc, bank, given, place, at)?;
            Ok(started)
        }
        _ => {
            let started = told(alloc, place, place.id)?;
            Ok(started)
        }
    }
}

// What was made of the part that the place waits for.
fn take(mut started: Started, made: TermId) -> Result<Started, Memory>
    ensures place { IfOk result (λ w. w.place ≡ started.place) }
    ensures started { IfOk result (λ w. (vs : List TermId) (b : Nodes) (t : TermId) → IsHalted vs b started t → made.0 < length b.terms → tree b made.0 ≡ part vs b started t →
        IsStarted vs b w × (toil vs b w ≡ toil vs b started)) }
{
    started.done.push(made)?;
    Ok(started)
}

// What the place becomes, once its parts are made.
fn close(bank: &mut Bank, started: &Started) -> Result<TermId, Memory>
    requires done { All (λ t. t.0 < length bank.old.terms) started.now.done.items }
    requires some { 0 < length started.now.done.items }
    ensures kept { Extends bank.old bank.new }
    ensures within { IfOk result (λ made. made.0 < length bank.new.terms) }
    ensures tree { IfOk result (λ made. tree bank.new made.0 ≡ joined started.now.abstraction (in_order bank.old started.now.done.items)) }
{
    let Some((first, others)) = started.done.split_first() else {
        unreachable!()
    };
    if started.abstraction {
        let made = bank.put_term(TermNode::Abs(*first))?;
        return Ok(made);
    }
    apply_done(bank, *first, others)
}

// Closes the place, whose parts are all made, and goes on with the one that waits for it.
fn go_out(
    bank: &mut Bank,
    memo: &mut Memo,
    waiting: &mut Vec<Started>,
    top: &Started,
) -> Result<Move, Memory>
    requires done { All (λ t. t.0 < length bank.old.terms) top.now.done.items }
    requires some { 0 < length top.now.done.items }
    requires left { top.now.left.items ≡ [] }
    ensures kept { Extends bank.old bank.new }
    ensures known { OnOk result ((vs : List TermId) → IsStarted vs bank.old top.now → All (IsKnown vs bank.old) (values memo.old) → All (IsKnown vs bank.new) (values memo.new)) }
    ensures next { IfOk result (λ m. (vs : List TermId) (v : Term) → IsStarted vs bank.old top.now → AwaitsValue vs bank.old v waiting.old.items (value vs bank.old top.now.place) →
        IsAhead vs bank.new v (all_toil vs bank.old waiting.old.items + toil vs bank.old top.now) waiting.new.items m) }
{
    let made = close(bank, top)?;
    remember(memo, top.place, made)?;
    let Some(outer) = waiting.pop() else {
        return Ok(Move::Done(made));
    };
    let next = take(outer, made)?;
    Ok(Move::On(next))
}

// Goes on with the next part of the place, or goes out of it.
fn step(
    alloc: Global,
    bank: &mut Bank,
    memo: &mut Memo,
    given: &[TermId],
    waiting: &mut Vec<Started>,
    mut top: Started,
) -> Result<Move, Memory>
    requires top { IsStarted given.now bank.old top }
    requires known { All (IsKnown given.now bank.old) (values memo.old) }
    ensures kept { Extends bank.old bank.new }
    ensures known { OnOk result (All (IsKnown given.now bank.new) (values memo.new)) }
    ensures next { IfOk result (λ m. (v : Term) → AwaitsValue given.now bank.old v waiting.old.items (value given.now bank.old top.place) →
        IsAhead given.now bank.new v (all_toil given.now bank.old waiting.old.items + toil given.now bank.old top) waiting.new.items m) }
{
    let Some(id) = top.left.pop() else {
        let next = go_out(bank, memo, waiting, &top)?;
        return Ok(next);
    };
    let place = Place {
        id,
        depth: top.depth,
        change: top.change,
    };
    if let Some(made) = find(bank, memo, given, place)? {
        let next = take(top, made)?;
        return Ok(Move::On(next));
    }
    waiting.push(top)?;
    let inner = start(alloc, bank, given, place)?;
    Ok(Move::On(inner))
}

/// What becomes of the place, where these values are given.
pub(crate) fn carry(
    alloc: Global,
    bank: &mut Bank,
    given: &[TermId],
    place: Place,
) -> Result<TermId, Memory>
    requires { IsPlace given.now bank.old place }
    ensures kept { Extends bank.old bank.new }
    ensures within { IfOk result (λ made. made.0 < length bank.new.terms) }
    ensures tree { IfOk result (λ made. tree bank.new made.0 ≡ value given.now bank.old place) }
{
    let mut memo: Memo = HashMap::new(alloc);
    if let Some(made) = find(bank, &memo, given, place)? {
        return Ok(made);
    }
    let mut waiting = Vec::new(alloc);
    let mut top = start(alloc, bank, given, place)?;
    'moves: loop {
        match step(alloc, bank, &mut memo, given, &mut waiting, top)? {
            Move::On(next) => top = next,
            Move::Done(made) => return Ok(made),
        }
    }
}
