// One symbol of a term, by what is due.
ghost use Rattle.std.specs.Prelude.{◌≡◌, ◌<◌, ◌∷◌, length, IfOk, None, Some};
ghost use Rattle.lp_syntax.specs.Machine.{wants, fresh, fresh_list, begins, close, closes_name, named_else, is_named, binds, operator, has, formed, step_in};
ghost use Rattle.lp_syntax.specs.Symbols.{Whole, apply};
ghost use Rattle.lp_syntax.specs.Nodes.{trees, at, maybe, IsMaybeBelow};
ghost use Rattle.lp_syntax.specs.Views.{frames_of, mode_of, EachBelow, IsDoingBelow, Steps};

use crate::attach::attach;
use crate::begin::{begins, formed, prefixed};
use crate::close::close;
use crate::held::{Doing, Held, Step};
use crate::node::{Node, add, apply};
use crate::symbol::{Fault, Oper, Sym};
use std::alloc::{AllocError, Global};

// Where an operand is due.
fn wants(
    alloc: Global,
    nodes: &mut Vec<Node>,
    frames: &mut Vec<Held>,
    c: Sym,
) -> Result<Step, AllocError>
    requires frames { EachBelow (length nodes.old.items) frames.old.items }
    ensures { IfOk result (λ r. Steps nodes.old.items nodes.new.items frames.new.items r (wants (frames_of (trees nodes.old.items) frames.old.items) c)) }
{
    match c {
        Sym::Op(o) => prefixed(nodes, frames, o),
        _ => begins(alloc, nodes, frames, None, c),
    }
}

// Directly behind an opening bracket.
fn fresh(
    alloc: Global,
    nodes: &mut Vec<Node>,
    frames: &mut Vec<Held>,
    c: Sym,
) -> Result<Step, AllocError>
    requires frames { EachBelow (length nodes.old.items) frames.old.items }
    ensures { IfOk result (λ r. Steps nodes.old.items nodes.new.items frames.new.items r (fresh (frames_of (trees nodes.old.items) frames.old.items) c)) }
{
    match c {
        Sym::Op(o) => Ok(Step::Goes(Doing::Named(o))),
        _ => begins(alloc, nodes, frames, None, c),
    }
}

// The closing bracket of an empty list.
fn empty_list(nodes: &mut Vec<Node>, frames: &mut Vec<Held>, end: usize) -> Result<Step, AllocError>
    requires frames { EachBelow (length nodes.old.items) frames.old.items }
    ensures { IfOk result (λ r. Steps nodes.old.items nodes.new.items frames.new.items r (fresh_list (frames_of (trees nodes.old.items) frames.old.items) (Sym.ClosesList end))) }
{
    match frames.pop() {
        Some(Held::Item(_, fun, _)) => {
            let nil = add(nodes, Node::Nil(end))?;
            Ok(Step::Goes(Doing::Has(fun, nil, None)))
        }
        None => Ok(Step::Stops(Fault::Unexpected)),
        Some(Held::Waits(_, _)) => Ok(Step::Stops(Fault::Unexpected)),
        Some(Held::Under(_, _, _)) => Ok(Step::Stops(Fault::Unexpected)),
        Some(Held::Inside(_)) => Ok(Step::Stops(Fault::Unexpected)),
        Some(Held::Tail(_, _)) => Ok(Step::Stops(Fault::Unexpected)),
    }
}

// Directly behind an opening bracket of a list.
fn fresh_list(
    alloc: Global,
    nodes: &mut Vec<Node>,
    frames: &mut Vec<Held>,
    c: Sym,
) -> Result<Step, AllocError>
    requires frames { EachBelow (length nodes.old.items) frames.old.items }
    ensures { IfOk result (λ r. Steps nodes.old.items nodes.new.items frames.new.items r (fresh_list (frames_of (trees nodes.old.items) frames.old.items) c)) }
{
    match c {
        Sym::ClosesList(end) => empty_list(nodes, frames, end),
        _ => wants(alloc, nodes, frames, c),
    }
}

// The closing bracket behind an operator in brackets.
fn closes_name(nodes: &mut Vec<Node>, frames: &mut Vec<Held>, o: Oper) -> Result<Step, AllocError>
    requires frames { EachBelow (length nodes.old.items) frames.old.items }
    ensures { IfOk result (λ r. Steps nodes.old.items nodes.new.items frames.new.items r (closes_name (frames_of (trees nodes.old.items) frames.old.items) o)) }
{
    match frames.pop() {
        Some(Held::Inside(fun)) => {
            let leaf = add(nodes, Node::Leaf(o.spot))?;
            Ok(Step::Goes(Doing::Has(fun, leaf, None)))
        }
        None => Ok(Step::Stops(Fault::Unexpected)),
        Some(Held::Waits(_, _)) => Ok(Step::Stops(Fault::Unexpected)),
        Some(Held::Under(_, _, _)) => Ok(Step::Stops(Fault::Unexpected)),
        Some(Held::Item(_, _, _)) => Ok(Step::Stops(Fault::Unexpected)),
        Some(Held::Tail(_, _)) => Ok(Step::Stops(Fault::Unexpected)),
    }
}

// Behind an opening bracket and an operator that is no name.
fn named_else(
    alloc: Global,
    nodes: &mut Vec<Node>,
    frames: &mut Vec<Held>,
    o: Oper,
    c: Sym,
) -> Result<Step, AllocError>
    requires frames { EachBelow (length nodes.old.items) frames.old.items }
    ensures { IfOk result (λ r. Steps nodes.old.items nodes.new.items frames.new.items r (named_else (frames_of (trees nodes.old.items) frames.old.items) o c)) }
{
    if !o.fixity.is_prefix() {
        return Ok(Step::Stops(Fault::Unexpected));
    }
    frames.push(Held::Waits(o, None))?;
    wants(alloc, nodes, frames, c)
}

// Behind an opening bracket and an operator.
fn named(
    alloc: Global,
    nodes: &mut Vec<Node>,
    frames: &mut Vec<Held>,
    o: Oper,
    c: Sym,
) -> Result<Step, AllocError>
    requires frames { EachBelow (length nodes.old.items) frames.old.items }
    ensures { IfOk result (λ r. Steps nodes.old.items nodes.new.items frames.new.items r (is_named (frames_of (trees nodes.old.items) frames.old.items) o c)) }
{
    match c {
        Sym::Closes => closes_name(nodes, frames, o),
        _ => named_else(alloc, nodes, frames, o, c),
    }
}

// A backslash behind this word.
fn binds(
    nodes: &Vec<Node>,
    frames: &mut Vec<Held>,
    fun: Option<usize>,
    word: Option<usize>,
    note: Option<usize>,
) -> Result<Step, AllocError>
    requires frames { EachBelow (length nodes.now.items) frames.old.items }
    requires fun { IsMaybeBelow (length nodes.now.items) fun }
    ensures { IfOk result (λ r. Steps nodes.now.items nodes.now.items frames.new.items r (binds (frames_of (trees nodes.now.items) frames.old.items) (maybe (trees nodes.now.items) fun) word note)) }
{
    match word {
        None => Ok(Step::Stops(Fault::Unexpected)),
        Some(v) => {
            frames.push(Held::Under(v, note, fun))?;
            Ok(Step::Goes(Doing::Wants))
        }
    }
}

// An operator behind an application.
fn operates(
    nodes: &mut Vec<Node>,
    frames: &mut Vec<Held>,
    fun: Option<usize>,
    x: usize,
    o: Oper,
) -> Result<Step, AllocError>
    requires frames { EachBelow (length nodes.old.items) frames.old.items }
    requires fun { IsMaybeBelow (length nodes.old.items) fun }
    requires x { x < length nodes.old.items }
    ensures { IfOk result (λ r. Steps nodes.old.items nodes.new.items frames.new.items r (operator (frames_of (trees nodes.old.items) frames.old.items) Whole (apply (maybe (trees nodes.old.items) fun) (at (trees nodes.old.items) x)) o)) }
{
    if o.fixity.is_prefix() {
        return Ok(Step::Stops(Fault::Unexpected));
    }
    let whole = apply(nodes, fun, x)?;
    attach(nodes, frames, whole, o)
}

// A closing mark behind an application.
fn closes(
    nodes: &mut Vec<Node>,
    frames: &mut Vec<Held>,
    fun: Option<usize>,
    x: usize,
    c: Sym,
) -> Result<Step, AllocError>
    requires frames { EachBelow (length nodes.old.items) frames.old.items }
    requires fun { IsMaybeBelow (length nodes.old.items) fun }
    requires x { x < length nodes.old.items }
    ensures { IfOk result (λ r. Steps nodes.old.items nodes.new.items frames.new.items r (close (frames_of (trees nodes.old.items) frames.old.items) (apply (maybe (trees nodes.old.items) fun) (at (trees nodes.old.items) x)) c)) }
{
    let whole = apply(nodes, fun, x)?;
    close(nodes, frames, whole, c)
}

// An argument behind an application.
fn goes_on(
    alloc: Global,
    nodes: &mut Vec<Node>,
    frames: &mut Vec<Held>,
    fun: Option<usize>,
    x: usize,
    c: Sym,
) -> Result<Step, AllocError>
    requires frames { EachBelow (length nodes.old.items) frames.old.items }
    requires fun { IsMaybeBelow (length nodes.old.items) fun }
    requires x { x < length nodes.old.items }
    ensures { IfOk result (λ r. Steps nodes.old.items nodes.new.items frames.new.items r (begins (frames_of (trees nodes.old.items) frames.old.items) (Some (apply (maybe (trees nodes.old.items) fun) (at (trees nodes.old.items) x))) c)) }
{
    let whole = apply(nodes, fun, x)?;
    begins(alloc, nodes, frames, Some(whole), c)
}

// Behind an application, whose last atom may be a word that is to be bound.
fn has(
    alloc: Global,
    nodes: &mut Vec<Node>,
    frames: &mut Vec<Held>,
    fun: Option<usize>,
    x: usize,
    word: Option<usize>,
    c: Sym,
) -> Result<Step, AllocError>
    requires frames { EachBelow (length nodes.old.items) frames.old.items }
    requires fun { IsMaybeBelow (length nodes.old.items) fun }
    requires x { x < length nodes.old.items }
    ensures { IfOk result (λ r. Steps nodes.old.items nodes.new.items frames.new.items r (has (frames_of (trees nodes.old.items) frames.old.items) (maybe (trees nodes.old.items) fun) (at (trees nodes.old.items) x) word c)) }
{
    match c {
        Sym::Op(o) => operates(nodes, frames, fun, x, o),
        Sym::Binds(note) => binds(nodes, frames, fun, word, note),
        Sym::Closes => closes(nodes, frames, fun, x, c),
        Sym::ClosesList(_) => closes(nodes, frames, fun, x, c),
        Sym::Bar => closes(nodes, frames, fun, x, c),
        _ => goes_on(alloc, nodes, frames, fun, x, c),
    }
}

/// What a symbol comes to.
pub fn step(
    alloc: Global,
    nodes: &mut Vec<Node>,
    frames: &mut Vec<Held>,
    doing: Doing,
    c: Sym,
) -> Result<Step, AllocError>
    requires frames { EachBelow (length nodes.old.items) frames.old.items }
    requires doing { IsDoingBelow (length nodes.old.items) doing }
    ensures { IfOk result (λ r. Steps nodes.old.items nodes.new.items frames.new.items r (step_in (frames_of (trees nodes.old.items) frames.old.items) (mode_of (trees nodes.old.items) doing) c)) }
{
    match doing {
        Doing::Wants => wants(alloc, nodes, frames, c),
        Doing::Fresh => fresh(alloc, nodes, frames, c),
        Doing::FreshList => fresh_list(alloc, nodes, frames, c),
        Doing::Named(o) => named(alloc, nodes, frames, o, c),
        Doing::Has(fun, x, word) => has(alloc, nodes, frames, fun, x, word, c),
        Doing::Formed(fixity, number, x) => formed(nodes, frames, fixity, number, x, c),
    }
}
