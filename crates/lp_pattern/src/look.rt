// A term when it is looked at: head-normal, with its head and its arguments.
ghost use Rattle.std.specs.Prelude.{◌≡◌, ◌<◌, ◌≤◌, ◌^◌, true, length, [], ◌++◌, map, reverse, All, IfOk, OnOk, IfErr, IfSome};
ghost use Rattle.lp_calculus.specs.Term.{abs, atom, logic, apply};
ghost use Rattle.lp_term.specs.Nodes.{Extends, tree};
ghost use Rattle.lp_term.specs.Spine.{LooseBelow};
ghost use Rattle.lp_term.specs.Frame.{in_order};
ghost use Rattle.lp_term.specs.Several.{substitute_each};
ghost use Rattle.lp_model.specs.Pair.{Closing, closed};
ghost use Rattle.lp_pattern.specs.inner.Falling.{Unless, look_left};
ghost use Rattle.lp_pattern.specs.Under.{IsReading, under};
ghost use Rattle.lp_pattern.specs.Seen.{IsHead, IsLooked, IsReachedWithin, IsDeepWhere, Sees, at_hand, Stands, Follows};

use crate::bindings::Bindings;
use lp_base::{Memory, RUN_LIMIT};
use lp_term::{Bank, TermId, TermNode, TermRefusal, body_under, put_application, substitute_all};
use std::alloc::Global;

// As many contractions may lead to the head of one term.
pub(crate) const CONTRACTIONS: u64 = RUN_LIMIT;

// Loose indices are below this bound in each term that is put for one.
const INDICES: u64 = 4_294_967_296;

#[derive(Clone, Copy)]
pub(crate) enum Head {
    // The body of an abstraction, which has no arguments once it is looked at.
    Abstraction(TermId),
    // A variable that is not bound.
    Variable { id: u64, level: u64 },
    Rigid,
}

// A term, the term of its head, what the head is, and its arguments in their order.
#[derive(Drop)]
pub(crate) struct Looked {
    pub whole: TermId,
    pub top: TermId,
    pub head: Head,
    pub arguments: Vec<TermId>,
}

// A term on the way to its head: the head so far, its arguments, of which the last comes first, the number of the whole term where it has
// one, how many contractions are left, and how many values may be put before the next one.
#[derive(Drop)]
pub(crate) struct Spine {
    top: TermId,
    arguments: Vec<TermId>,
    whole: Option<TermId>,
    left: u64,
    values: usize,
}

// Puts the terms behind the others, the last one first.
pub(crate) fn push_reversed(ids: &[TermId], stack: &mut Vec<TermId>) -> Result<(), Memory>
    ensures { OnOk result (stack.new.items ≡ stack.old.items ++ reverse ids.now) }
{
    let mut left = ids.len();
    while left > 0 {
        left -= 1;
        stack.push(ids[left])?;
    }
    Ok(())
}

// Whether the loose indices of all these terms are below the bound.
fn are_below(bank: &Bank, terms: &[TermId]) -> bool
    ensures { result ≡ true → All (λ t. LooseBelow (2 ^ 32) 0 (tree bank.now t.0)) terms.now }
{
    for term in terms.iter().copied() {
        if !bank.is_known_below(term, INDICES) {
            return false;
        }
    }
    true
}

// The body with the arguments for its first indices, all at once.
fn contracted(
    alloc: Global,
    bank: &mut Bank,
    body: TermId,
    arguments: &[TermId],
) -> Result<TermId, Memory>
    requires body { body.0 < length bank.old.terms }
    requires arguments { All (λ t. t.0 < length bank.old.terms) arguments.now }
    ensures kept { Extends bank.old bank.new }
    ensures within { IfOk result (λ id. id.0 < length bank.new.terms) }
    ensures tree { IfOk result (λ id. tree bank.new id.0 ≡ substitute_each (in_order bank.old arguments.now) (tree bank.old body.0)) }
{
    let _count = bank.term_count();
    if !are_below(bank, arguments) {
        return Err(Memory);
    }
    substitute_all(alloc, bank, body, arguments)
}

// The number of the head on the arguments, where there are none.
fn alone(top: TermId, arguments: &Vec<TermId>) -> Option<TermId>
    ensures { IfSome result (λ id. (id ≡ top) × (arguments.now.items ≡ [])) }
{
    if arguments.is_empty() {
        return Some(top);
    }
    None
}

// An abstraction is contracted on as many of its arguments as there are abstractions for them. One without arguments is left as it is.
fn contract(
    alloc: Global,
    bank: &mut Bank,
    bindings: &Bindings,
    spine: &mut Spine,
    body: TermId,
) -> Result<Option<Head>, TermRefusal>
    requires stands { Stands bank.old spine.old }
    requires body { body.0 < length bank.old.terms }
    requires top { tree bank.old spine.old.top.0 ≡ abs (tree bank.old body.0) }
    ensures kept { Extends bank.old bank.new }
    ensures stands { OnOk result (Stands bank.new spine.new) }
    ensures left { OnOk result (spine.new.left ≤ spine.old.left) }
    ensures followed { OnOk result ((c : Closing) → Follows c bank.old spine.old bank.new spine.new) }
    ensures head { IfOk result (λ found. IfSome found (λ head. IsHead bank.new bindings.now head (tree bank.new spine.new.top.0) spine.new.arguments.items)) }
    ensures falls { IfOk result (λ found. Unless found (look_left (length bindings.now.terms.entries) spine.new < look_left (length bindings.now.terms.entries) spine.old)) }
    ensures refused { IfErr result (λ e. (c : Closing) → IsDeepWhere spine.old.left (closed c (at_hand bank.old spine.old)) e) }
{
    if spine.arguments.is_empty() {
        return Ok(Some(Head::Abstraction(body)));
    }
    if spine.left == 0 {
        return Err(TermRefusal::Deep(0));
    }
    let count = spine.arguments.len();
    let most = spine.left.min(count as u64) - 1;
    let (inner, more) = body_under(bank, body, most);
    let kept = count - 1 - more as usize;
    let top = contracted(alloc, bank, inner, &spine.arguments[kept..])?;
    spine.arguments.truncate(kept);
    spine.top = top;
    spine.whole = alone(top, &spine.arguments);
    spine.left -= more + 1;
    spine.values = bindings.terms.len();
    let _count = bank.term_count();
    Ok(None)
}

// A bound variable gives way to its value. More values in a row than there are bindings lead in a circle, which has no end: in bindings
// that were made over another bank.
fn put_value(
    bank: &mut Bank,
    bindings: &Bindings,
    spine: &mut Spine,
    id: u64,
    level: u64,
) -> Result<Option<Head>, Memory>
    requires stands { Stands bank.old spine.old }
    requires top { tree bank.old spine.old.top.0 ≡ atom (logic id level) }
    ensures kept { Extends bank.old bank.new }
    ensures stands { OnOk result (Stands bank.new spine.new) }
    ensures left { OnOk result (spine.new.left ≤ spine.old.left) }
    ensures followed { OnOk result ((c : Closing) → IsReading bank.old bindings.now c → Follows c bank.old spine.old bank.new spine.new) }
    ensures head { IfOk result (λ found. IfSome found (λ head. IsHead bank.new bindings.now head (tree bank.new spine.new.top.0) spine.new.arguments.items)) }
    ensures falls { IfOk result (λ found. Unless found (look_left (length bindings.now.terms.entries) spine.new < look_left (length bindings.now.terms.entries) spine.old)) }
{
    let Some(value) = bindings.value(id) else {
        return Ok(Some(Head::Variable { id, level }));
    };
    if spine.values == 0 {
        return Err(Memory);
    }
    let top = bank.inside(value)?;
    spine.top = top;
    spine.whole = alone(top, &spine.arguments);
    spine.values -= 1;
    let _count = bank.term_count();
    Ok(None)
}

// Takes the arguments off the head, contracts it or puts its value, unless it is one to end with.
fn step(
    alloc: Global,
    bank: &mut Bank,
    bindings: &Bindings,
    spine: &mut Spine,
) -> Result<Option<Head>, TermRefusal>
    requires stands { Stands bank.old spine.old }
    ensures kept { Extends bank.old bank.new }
    ensures stands { OnOk result (Stands bank.new spine.new) }
    ensures left { OnOk result (spine.new.left ≤ spine.old.left) }
    ensures followed { OnOk result ((c : Closing) → IsReading bank.old bindings.now c → Follows c bank.old spine.old bank.new spine.new) }
    ensures head { IfOk result (λ found. IfSome found (λ head. IsHead bank.new bindings.now head (tree bank.new spine.new.top.0) spine.new.arguments.items)) }
    ensures falls { IfOk result (λ found. Unless found (look_left (length bindings.now.terms.entries) spine.new < look_left (length bindings.now.terms.entries) spine.old)) }
    ensures refused { IfErr result (λ e. (c : Closing) → IsDeepWhere spine.old.left (closed c (at_hand bank.old spine.old)) e) }
{
    match bank.term_node(spine.top) {
        TermNode::App(next, more) => {
            push_reversed(more, &mut spine.arguments)?;
            spine.top = next;
            Ok(None)
        }
        TermNode::Abs(body) => contract(alloc, bank, bindings, spine, body),
        TermNode::Logic { id, level } => {
            let found = put_value(bank, bindings, spine, id, level)?;
            Ok(found)
        }
        TermNode::Index(_) => Ok(Some(Head::Rigid)),
        TermNode::Const(_, _) => Ok(Some(Head::Rigid)),
        TermNode::Int(_) => Ok(Some(Head::Rigid)),
        TermNode::Text(_) => Ok(Some(Head::Rigid)),
        TermNode::Eigen(_) => Ok(Some(Head::Rigid)),
        TermNode::Param(_, _) => Ok(Some(Head::Rigid)),
    }
}

// The number of the whole term.
fn whole_of(
    bank: &mut Bank,
    top: TermId,
    arguments: &[TermId],
    whole: Option<TermId>,
) -> Result<TermId, Memory>
    requires top { top.0 < length bank.old.terms }
    requires arguments { All (λ t. t.0 < length bank.old.terms) arguments.now }
    requires whole { IfSome whole (λ id. (id.0 < length bank.old.terms) × (tree bank.old id.0 ≡ apply (tree bank.old top.0) (map (λ t. tree bank.old t.0) arguments.now))) }
    ensures kept { Extends bank.old bank.new }
    ensures within { IfOk result (λ id. id.0 < length bank.new.terms) }
    ensures tree { IfOk result (λ id. tree bank.new id.0 ≡ apply (tree bank.old top.0) (map (λ t. tree bank.old t.0) arguments.now)) }
{
    match whole {
        Some(id) => Ok(id),
        None => put_application(bank, top, arguments),
    }
}

// What is seen in the end.
fn seen(bank: &mut Bank, bindings: &Bindings, spine: Spine, head: Head) -> Result<Looked, Memory>
    requires stands { Stands bank.old spine }
    requires head { IsHead bank.old bindings.now head (tree bank.old spine.top.0) spine.arguments.items }
    ensures kept { Extends bank.old bank.new }
    ensures looked { IfOk result (IsLooked bank.new bindings.now) }
    ensures same { IfOk result (λ r. tree bank.new r.whole.0 ≡ at_hand bank.old spine) }
{
    let mut arguments = spine.arguments;
    arguments.reverse();
    let whole = whole_of(bank, spine.top, arguments.as_slice(), spine.whole)?;
    Ok(Looked {
        whole,
        top: spine.top,
        head,
        arguments,
    })
}

// Looks at a term under bindings, with at most so many contractions. An abstraction is left as it is.
pub(crate) fn look(
    alloc: Global,
    bank: &mut Bank,
    bindings: &Bindings,
    term: TermId,
    limit: u64,
) -> Result<Looked, TermRefusal>
    ensures kept { Extends bank.old bank.new }
    ensures looked { IfOk result (IsLooked bank.new bindings.now) }
    ensures reached { IfOk result (λ r. (c : Closing) → IsReading bank.old bindings.now c → IsReachedWithin limit (under bank.old c term) (under bank.new c r.whole)) }
    ensures seen { IfOk result (λ r. (c : Closing) → IsReading bank.old bindings.now c → Sees limit bank.new c r (under bank.old c term)) }
    ensures refused { IfErr result (λ e. (c : Closing) → IsReading bank.old bindings.now c → IsDeepWhere limit (under bank.old c term) e) }
{
    let top = bank.inside(term)?;
    let mut spine = Spine {
        top,
        arguments: Vec::new(alloc),
        whole: Some(top),
        left: limit,
        values: bindings.terms.len(),
    };
    'steps: loop {
        let found = step(alloc, bank, bindings, &mut spine)?;
        if let Some(head) = found {
            let looked = seen(bank, bindings, spine, head)?;
            return Ok(looked);
        }
    }
}
