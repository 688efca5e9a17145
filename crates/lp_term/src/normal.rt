//! Leftmost reduction to the beta-normal form. Terms on the way down are open, with the arguments that are normal already and those that are left.
ghost use Rattle.std.specs.Prelude.{◌≡◌, ℕ, suc, ◌+◌, ◌-◌, ◌*◌, ◌<◌, ◌≤◌, ◌^◌, length, List, [], ◌∷◌, ◌++◌, IfOk, OnOk, IfErr, All, None, Some, MatchOption};
ghost use Rattle.lp_calculus.specs.Term.{Term, apply};
ghost use Rattle.lp_calculus.specs.Convert.{leftmost_step, steps};
ghost use Rattle.lp_calculus.specs.Normal.{nodes as nodes_of_term};
ghost use Rattle.lp_term.specs.Nodes.{Nodes, tree, Extends};
ghost use Rattle.lp_term.specs.Spine.{LooseBelow};
ghost use Rattle.lp_term.specs.Walk.{size, sizes};
ghost use Rattle.lp_term.specs.Frame.{closed, in_order, standing, load, IsFrame, IsSpent, IsBetaForm, IsDeepBeta};

use crate::bank::Bank;
use crate::node::{TermId, TermNode};
use crate::put::put_abstractions;
use crate::reduce::{TermRefusal, reduce_spine};
use lp_base::Memory;
use std::alloc::Global;

/// An open term below `base` abstractions: its own abstractions, its head, the arguments that are normal already, and those that are
/// left, of which the next one stands last.
#[derive(Drop)]
pub(crate) struct Frame {
    base: u64,
    depth: u64,
    head: TermId,
    done: Vec<TermId>,
    left: Vec<TermId>,
}

// The term, opened once its head is normal.
fn open(
    alloc: Global,
    bank: &mut Bank,
    base: u64,
    term: TermId,
    limit: u64,
    left: &mut u64,
) -> Result<Frame, TermRefusal>
    requires term { term.0 < length bank.old.terms }
    requires base { base ≤ 2 ^ 62 }
    requires loose { LooseBelow (2 ^ 32 + base) 0 (tree bank.old term.0) }
    ensures kept { Extends bank.old bank.new }
    ensures left { OnOk result (left.new ≤ left.old) }
    ensures frame { IfOk result (IsFrame bank.new) }
    ensures taken { IfOk result (λ f. steps leftmost_step (left.old - left.new) (tree bank.old term.0) ≡ Some (closed bank.new f)) }
    ensures load { IfOk result (λ f. left.new ≡ left.old → 1 + 2 * sizes bank.new f.left.items < 2 * size (tree bank.old term.0)) }
    ensures refused { IfErr result (IsSpent limit left.old (tree bank.old term.0)) }
{
    let spine = reduce_spine(alloc, bank, base, term, limit, *left)?;
    *left = spine.left;
    Ok(Frame {
        base,
        depth: spine.depth,
        head: spine.head,
        done: Vec::new(alloc),
        left: spine.args,
    })
}

// The head on the arguments, in order.
pub(crate) fn apply_done(bank: &mut Bank, head: TermId, done: &[TermId]) -> Result<TermId, Memory>
    requires head { head.0 < length bank.old.terms }
    requires done { All (λ t. t.0 < length bank.old.terms) done.now }
    ensures kept { Extends bank.old bank.new }
    ensures within { IfOk result (λ id. id.0 < length bank.new.terms) }
    ensures tree { IfOk result (λ id. tree bank.new id.0 ≡ apply (tree bank.old head.0) (in_order bank.old done.now)) }
{
    if done.is_empty() {
        return Ok(head);
    }
    let id = bank.put_term(TermNode::App(head, done))?;
    Ok(id)
}

// The term of a frame whose arguments are all done.
fn close(bank: &mut Bank, frame: Frame) -> Result<TermId, Memory>
    requires frame { IsFrame bank.old frame }
    requires left { frame.left.items ≡ [] }
    ensures kept { Extends bank.old bank.new }
    ensures within { IfOk result (λ id. id.0 < length bank.new.terms) }
    ensures tree { IfOk result (λ id. tree bank.new id.0 ≡ closed bank.old frame) }
    ensures normal { IfOk result (λ id. leftmost_step (tree bank.new id.0) ≡ None) }
{
    let top = apply_done(bank, frame.head, frame.done.as_slice())?;
    let id = put_abstractions(bank, frame.depth, top)?;
    Ok(id)
}

// One move: the next argument of the innermost open term is done or opened, or the term is closed. The normal form, once it is there.
fn step(
    alloc: Global,
    bank: &mut Bank,
    frames: &mut Vec<Frame>,
    limit: u64,
    left: &mut u64,
) -> Result<Option<TermId>, TermRefusal>
    requires some { 0 < length frames.old.items }
    requires frames { All (IsFrame bank.old) frames.old.items }
    ensures kept { Extends bank.old bank.new }
    ensures left { OnOk result (left.new ≤ left.old) }
    ensures frames { IfOk result (λ made. MatchOption made ((0 < length frames.new.items) × All (IsFrame bank.new) frames.new.items) (λ id. id.0 < length bank.new.terms)) }
    ensures taken { IfOk result (λ made. MatchOption made
        (steps leftmost_step (left.old - left.new) (standing bank.old frames.old.items) ≡ Some (standing bank.new frames.new.items))
        (λ id. (steps leftmost_step (left.old - left.new) (standing bank.old frames.old.items) ≡ Some (tree bank.new id.0)) × (leftmost_step (tree bank.new id.0) ≡ None))) }
    ensures load { IfOk result (λ made. made ≡ None → left.new ≡ left.old → load bank.new frames.new.items < load bank.old frames.old.items) }
    ensures refused { IfErr result (IsSpent limit left.old (standing bank.old frames.old.items)) }
{
    let Some(mut frame) = frames.pop() else {
        unreachable!()
    };
    let Some(arg) = frame.left.pop() else {
        let id = close(bank, frame)?;
        let Some(mut outer) = frames.pop() else {
            return Ok(Some(id));
        };
        outer.done.push(id)?;
        frames.push(outer)?;
        return Ok(None);
    };
    if bank.is_known_normal(arg) {
        frame.done.push(arg)?;
        frames.push(frame)?;
        return Ok(None);
    }
    let base = frame.base + frame.depth;
    frames.push(frame)?;
    let inner = open(alloc, bank, base, arg, limit, left)?;
    frames.push(inner)?;
    Ok(None)
}

// Moves up to a contraction, or to the normal form.
fn go_on(
    alloc: Global,
    bank: &mut Bank,
    frames: &mut Vec<Frame>,
    limit: u64,
    left: &mut u64,
) -> Result<Option<TermId>, TermRefusal>
    requires some { 0 < length frames.old.items }
    requires frames { All (IsFrame bank.old) frames.old.items }
    ensures kept { Extends bank.old bank.new }
    ensures left { OnOk result (left.new ≤ left.old) }
    ensures fewer { IfOk result (λ made. made ≡ None → left.new < left.old) }
    ensures frames { IfOk result (λ made. MatchOption made ((0 < length frames.new.items) × All (IsFrame bank.new) frames.new.items) (λ id. id.0 < length bank.new.terms)) }
    ensures taken { IfOk result (λ made. MatchOption made
        (steps leftmost_step (left.old - left.new) (standing bank.old frames.old.items) ≡ Some (standing bank.new frames.new.items))
        (λ id. (steps leftmost_step (left.old - left.new) (standing bank.old frames.old.items) ≡ Some (tree bank.new id.0)) × (leftmost_step (tree bank.new id.0) ≡ None))) }
    ensures refused { IfErr result (IsSpent limit left.old (standing bank.old frames.old.items)) }
{
    let before = *left;
    'moves: loop {
        let made = step(alloc, bank, frames, limit, left)?;
        if made.is_some() {
            return Ok(made);
        }
        if *left < before {
            return Ok(None);
        }
    }
}

// The beta-normal form, in at most `limit` contractions.
pub(crate) fn contracted(
    alloc: Global,
    bank: &mut Bank,
    term: TermId,
    limit: u64,
) -> Result<TermId, TermRefusal>
    requires term { term.0 < length bank.old.terms }
    requires loose { LooseBelow (2 ^ 32) 0 (tree bank.old term.0) }
    ensures kept { Extends bank.old bank.new }
    ensures within { IfOk result (λ id. id.0 < length bank.new.terms) }
    ensures form { IfOk result (λ id. IsBetaForm limit (tree bank.old term.0) (tree bank.new id.0)) }
    ensures refused { IfErr result (IsSpent limit limit (tree bank.old term.0)) }
{
    if bank.is_known_normal(term) {
        return Ok(term);
    }
    let mut left = limit;
    let mut frames = Vec::new(alloc);
    let outermost = open(alloc, bank, 0, term, limit, &mut left)?;
    frames.push(outermost)?;
    'contractions: loop {
        if let Some(id) = go_on(alloc, bank, &mut frames, limit, &mut left)? {
            return Ok(id);
        }
    }
}

/// The beta-normal form. `Deep(contractions)` where leftmost reduction takes more contractions, and `Deep(nodes)` where it does not
/// and the form has more nodes; a node is a head or an abstraction.
pub fn beta_normal(
    alloc: Global,
    bank: &mut Bank,
    term: TermId,
    contractions: u64,
    nodes: u64,
) -> Result<TermId, TermRefusal>
    requires term { term.0 < length bank.old.terms }
    requires loose { LooseBelow (2 ^ 32) 0 (tree bank.old term.0) }
    ensures kept { Extends bank.old bank.new }
    ensures within { IfOk result (λ id. id.0 < length bank.new.terms) }
    ensures form { IfOk result (λ id. IsBetaForm contractions (tree bank.old term.0) (tree bank.new id.0)) }
    ensures nodes { IfOk result (λ id. nodes_of_term (tree bank.new id.0) ≤ nodes) }
    ensures refused { IfErr result (IsDeepBeta contractions nodes (tree bank.old term.0)) }
{
    let id = contracted(alloc, bank, term, contractions)?;
    if bank.has_more_nodes(id, nodes) {
        return Err(TermRefusal::Deep(nodes));
    }
    Ok(id)
}
