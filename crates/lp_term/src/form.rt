//! Eta-normal forms of beta-normal terms. A term waits for the forms of its parts; a term that is shared gets its form once, and where
//! nothing is contracted a term is its own form.
ghost use Rattle.std.specs.Prelude.{◌≡◌, ℕ, suc, ◌+◌, ◌*◌, ◌<◌, ◌≤◌, ◌^◌, length, List, [], ◌∷◌, ◌++◌, All, IfOk, IfErr, IfSome, OnOk, None, true, false};
ghost use Rattle.std.specs.List.{IsAmong};
ghost use Rattle.std.specs.HashMap.{values};
ghost use Rattle.lp_calculus.specs.Term.{Term, index, abs, apply};
ghost use Rattle.lp_calculus.specs.Normal.{contracted as eta_contracted, eta_normal, nodes as nodes_of_term, IsFormOf};
ghost use Rattle.lp_term.specs.Nodes.{Nodes, tree, Extends};
ghost use Rattle.lp_term.specs.Walk.{size};
ghost use Rattle.lp_term.specs.Spine.{LooseBelow};
ghost use Rattle.lp_term.specs.Frame.{in_order};
ghost use Rattle.lp_term.specs.Opened.{IsOpened, IsWaiting, Awaits, IsForm, IsNext, IsFormWithin, IsDeepForm, work as work_of, all_work};

use crate::absent::is_absent;
use crate::bank::Bank;
use crate::carry::substitute;
use crate::node::{TermId, TermNode};
use crate::normal::{apply_done, contracted};
use crate::reduce::TermRefusal;
use crate::unwind::push_reversed;
use lp_base::Memory;
use std::alloc::Global;
use std::collections::HashMap;

/// An abstraction or an application, the forms of the parts that have theirs, in order, and the parts that are left, of which the next
/// one stands last. It has changed where the form of a part is not the part.
#[derive(Drop)]
pub(crate) struct Opened {
    id: TermId,
    abstraction: bool,
    changed: bool,
    done: Vec<TermId>,
    left: Vec<TermId>,
}

/// A term and its eta-normal form.
#[derive(Clone, Copy)]
pub(crate) struct Form {
    id: TermId,
    made: TermId,
}

type Forms = HashMap<TermId, Form>;

/// The open term to go on with, or the form of the outermost term.
#[derive(Drop)]
pub(crate) enum Move {
    On(Opened),
    Done(TermId),
}

fn recall_form(forms: &Forms, id: TermId) -> Option<TermId>
    ensures { IfSome result (λ made. IsAmong (values forms.now) (record { id = id; made = made })) }
{
    match forms.get(&id) {
        Some(form) if form.id.0 == id.0 => Some(form.made),
        _ => None,
    }
}

fn keep_form(forms: &mut Forms, id: TermId, made: TermId) -> Result<(), Memory>
    ensures { OnOk result ((b : Nodes) → All (IsForm b) (values forms.old) → IsForm b (record { id = id; made = made }) → All (IsForm b) (values forms.new)) }
{
    forms.insert(id, Form { id, made })?;
    Ok(())
}

fn is_first_index(bank: &Bank, id: TermId) -> bool
    requires { id.0 < length bank.now.terms }
    ensures yes { result ≡ true → tree bank.now id.0 ≡ index 0 }
    ensures no { result ≡ false → tree bank.now id.0 ≡ index 0 → ⊥ }
{
    match bank.term_node(id) {
        TermNode::Index(at) => at == 0,
        _ => false,
    }
}

// What an abstraction over the head on the arguments contracts to, if eta contracts it.
fn contract_application(
    alloc: Global,
    bank: &mut Bank,
    head: TermId,
    mut args: Vec<TermId>,
) -> Result<Option<TermId>, Memory>
    requires head { head.0 < length bank.old.terms }
    requires args { All (λ t. t.0 < length bank.old.terms) args.items }
    requires some { 0 < length args.items }
    ensures kept { Extends bank.old bank.new }
    ensures none { IfOk result (λ found. found ≡ None → eta_contracted (apply (tree bank.old head.0) (in_order bank.old args.items)) ≡ abs (apply (tree bank.old head.0) (in_order bank.old args.items))) }
    ensures made { IfOk result (λ found. IfSome found (λ made. (made.0 < length bank.new.terms) × (tree bank.new made.0 ≡ eta_contracted (apply (tree bank.old head.0) (in_order bank.old args.items))))) }
{
    let Some(last) = args.pop() else {
        unreachable!()
    };
    if !is_first_index(bank, last) {
        return Ok(None);
    }
    if !is_absent(alloc, bank, head, args.as_slice())? {
        return Ok(None);
    }
    let top = apply_done(bank, head, args.as_slice())?;
    let made = substitute(alloc, bank, top, last)?;
    Ok(Some(made))
}

// What an abstraction over the body contracts to, if eta contracts it.
fn contract(alloc: Global, bank: &mut Bank, body: TermId) -> Result<Option<TermId>, Memory>
    requires body { body.0 < length bank.old.terms }
    ensures kept { Extends bank.old bank.new }
    ensures none { IfOk result (λ found. found ≡ None → eta_contracted (tree bank.old body.0) ≡ abs (tree bank.old body.0)) }
    ensures made { IfOk result (λ found. IfSome found (λ made. (made.0 < length bank.new.terms) × (tree bank.new made.0 ≡ eta_contracted (tree bank.old body.0)))) }
{
    match bank.term_node(body) {
        TermNode::App(head, args) => {
            let args = Vec::from_slice(alloc, args)?;
            let found = contract_application(alloc, bank, head, args)?;
            Ok(found)
        }
        _ => Ok(None),
    }
}

// The form of an abstraction whose body has this form.
fn close_abstraction(
    alloc: Global,
    bank: &mut Bank,
    id: TermId,
    body: TermId,
    changed: bool,
) -> Result<TermId, Memory>
    requires id { id.0 < length bank.old.terms }
    requires body { body.0 < length bank.old.terms }
    requires form { eta_normal (tree bank.old id.0) ≡ eta_contracted (tree bank.old body.0) }
    requires same { changed ≡ false → tree bank.old id.0 ≡ abs (tree bank.old body.0) }
    ensures kept { Extends bank.old bank.new }
    ensures within { IfOk result (λ made. made.0 < length bank.new.terms) }
    ensures form { IfOk result (λ made. tree bank.new made.0 ≡ eta_normal (tree bank.old id.0)) }
{
    if let Some(made) = contract(alloc, bank, body)? {
        return Ok(made);
    }
    if !changed {
        return Ok(id);
    }
    let made = bank.put_term(TermNode::Abs(body))?;
    Ok(made)
}

// The form of a term whose parts have theirs.
fn close(alloc: Global, bank: &mut Bank, opened: &Opened) -> Result<TermId, Memory>
    requires opened { IsOpened bank.old opened.now }
    requires left { opened.now.left.items ≡ [] }
    ensures kept { Extends bank.old bank.new }
    ensures within { IfOk result (λ made. made.0 < length bank.new.terms) }
    ensures form { IfOk result (λ made. tree bank.new made.0 ≡ eta_normal (tree bank.old opened.now.id.0)) }
{
    let Some((first, others)) = opened.done.split_first() else {
        unreachable!()
    };
    if opened.abstraction {
        return close_abstraction(alloc, bank, opened.id, *first, opened.changed);
    }
    if !opened.changed {
        return Ok(opened.id);
    }
    apply_done(bank, *first, others)
}

// The term with its parts left.
fn open(alloc: Global, bank: &Bank, id: TermId) -> Result<Opened, Memory>
    requires id { id.0 < length bank.now.terms }
    ensures opened { IfOk result (IsOpened bank.now) }
    ensures id { IfOk result (λ f. f.id ≡ id) }
    ensures work { IfOk result (λ f. work_of bank.now f < 2 * size (tree bank.now id.0)) }
{
    let mut done = Vec::new(alloc);
    let mut left = Vec::new(alloc);
    match bank.term_node(id) {
        TermNode::Abs(body) => {
            left.push(body)?;
            Ok(Opened {
                id,
                abstraction: true,
                changed: false,
                done,
                left,
            })
        }
        TermNode::App(head, args) => {
            push_reversed(args, &mut left)?;
            left.push(head)?;
            Ok(Opened {
                id,
                abstraction: false,
                changed: false,
                done,
                left,
            })
        }
        _ => {
            done.push(id)?;
            Ok(Opened {
                id,
                abstraction: false,
                changed: false,
                done,
                left,
            })
        }
    }
}

// The part that is waited for has this form.
fn take(mut opened: Opened, part: TermId, made: TermId) -> Result<Opened, Memory>
    ensures id { IfOk result (λ f. f.id ≡ opened.id) }
    ensures left { IfOk result (λ f. f.left ≡ opened.left) }
    ensures opened { IfOk result (λ f. (b : Nodes) → IsWaiting b opened part → made.0 < length b.terms → tree b made.0 ≡ eta_normal (tree b part.0) → IsOpened b f) }
{
    opened.done.push(made)?;
    if made.0 == part.0 {
        return Ok(opened);
    }
    opened.changed = true;
    Ok(opened)
}

// Closes the open term, whose parts all have their forms, and goes on with the one that waits for it.
fn go_out(
    alloc: Global,
    bank: &mut Bank,
    forms: &mut Forms,
    waiting: &mut Vec<Opened>,
    top: &Opened,
) -> Result<Move, Memory>
    requires top { IsOpened bank.old top.now }
    requires left { top.now.left.items ≡ [] }
    requires forms { All (IsForm bank.old) (values forms.old) }
    ensures kept { Extends bank.old bank.new }
    ensures forms { OnOk result (All (IsForm bank.new) (values forms.new)) }
    ensures next { IfOk result (λ m. (root : TermId) → Awaits bank.old root waiting.old.items top.now.id → IsNext bank.new root (all_work bank.old waiting.old.items + work_of bank.old top.now) waiting.new.items m) }
{
    let made = close(alloc, bank, top)?;
    keep_form(forms, top.id, made)?;
    let Some(outer) = waiting.pop() else {
        return Ok(Move::Done(made));
    };
    let next = take(outer, top.id, made)?;
    Ok(Move::On(next))
}

// Goes on with the next part of the open term, or goes out of it.
fn step(
    alloc: Global,
    bank: &mut Bank,
    forms: &mut Forms,
    waiting: &mut Vec<Opened>,
    mut top: Opened,
) -> Result<Move, Memory>
    requires top { IsOpened bank.old top }
    requires forms { All (IsForm bank.old) (values forms.old) }
    ensures kept { Extends bank.old bank.new }
    ensures forms { OnOk result (All (IsForm bank.new) (values forms.new)) }
    ensures next { IfOk result (λ m. (root : TermId) → Awaits bank.old root waiting.old.items top.id → IsNext bank.new root (all_work bank.old waiting.old.items + work_of bank.old top) waiting.new.items m) }
{
    let Some(part) = top.left.pop() else {
        return go_out(alloc, bank, forms, waiting, &top);
    };
    if !bank.has_more_nodes(part, 1) {
        let next = take(top, part, part)?;
        return Ok(Move::On(next));
    }
    if let Some(made) = recall_form(forms, part) {
        let next = take(top, part, made)?;
        return Ok(Move::On(next));
    }
    waiting.push(top)?;
    let inner = open(alloc, bank, part)?;
    Ok(Move::On(inner))
}

// The eta-normal form.
fn eta_form(alloc: Global, bank: &mut Bank, term: TermId) -> Result<TermId, Memory>
    requires term { term.0 < length bank.old.terms }
    ensures kept { Extends bank.old bank.new }
    ensures within { IfOk result (λ made. made.0 < length bank.new.terms) }
    ensures form { IfOk result (λ made. tree bank.new made.0 ≡ eta_normal (tree bank.old term.0)) }
{
    let mut forms: Forms = HashMap::new(alloc);
    let mut waiting = Vec::new(alloc);
    let mut top = open(alloc, bank, term)?;
    'moves: loop {
        match step(alloc, bank, &mut forms, &mut waiting, top)? {
            Move::On(next) => top = next,
            Move::Done(made) => return Ok(made),
        }
    }
}

/// The beta-eta normal form. `Deep(contractions)` where leftmost reduction takes more contractions, and `Deep(nodes)` where it does not
/// and the form has more nodes; a node is a head or an abstraction. Steps of eta are not counted.
pub fn normal_form(
    alloc: Global,
    bank: &mut Bank,
    term: TermId,
    contractions: u64,
    nodes: u64,
) -> Result<TermId, TermRefusal>
    requires term { term.0 < length bank.old.terms }
    requires loose { LooseBelow (2 ^ 32) 0 (tree bank.old term.0) }
    ensures kept { Extends bank.old bank.new }
    ensures within { IfOk result (λ id. id.0 < length bank.new.terms) }
    ensures form { IfOk result (λ id. IsFormOf (tree bank.old term.0) (tree bank.new id.0)) }
    ensures counted { IfOk result (λ id. IsFormWithin contractions (tree bank.old term.0) (tree bank.new id.0)) }
    ensures nodes { IfOk result (λ id. nodes_of_term (tree bank.new id.0) ≤ nodes) }
    ensures refused { IfErr result (IsDeepForm contractions nodes (tree bank.old term.0)) }
{
    let beta = contracted(alloc, bank, term, contractions)?;
    let id = eta_form(alloc, bank, beta)?;
    if bank.has_more_nodes(id, nodes) {
        return Err(TermRefusal::Deep(nodes));
    }
    Ok(id)
}
