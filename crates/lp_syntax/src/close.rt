ghost use Rattle.std.specs.Prelude.{◌≡◌, ◌<◌, ◌∷◌, length, IfOk, OnOk};
ghost use Rattle.lp_syntax.specs.Symbols.{apply, cons, Lam};
ghost use Rattle.lp_syntax.specs.Machine.{close, wrap, Inside, Item, Tail};
ghost use Rattle.lp_syntax.specs.Nodes.{trees, at, maybe, IsMaybeBelow, Grows};
ghost use Rattle.lp_syntax.specs.Views.{frames_of, done_of, EachBelow, AreItemsBelow, Steps};

use crate::held::{Doing, Held, Step};
use crate::node::{Node, add, apply, operated};
use crate::symbol::{Fault, Sym};
use std::alloc::AllocError;

// An item in front of the rest of a list.
fn one_item(nodes: &mut Vec<Node>, spot: usize, x: usize, t: usize) -> Result<usize, AllocError>
    requires x { x < length nodes.old.items }
    requires t { t < length nodes.old.items }
    ensures within { IfOk result (λ i. i < length nodes.new.items) }
    ensures grows { OnOk result (Grows nodes.old.items nodes.new.items) }
    ensures tree { IfOk result (λ i. at (trees nodes.new.items) i ≡ cons spot (at (trees nodes.old.items) x) (at (trees nodes.old.items) t)) }
{
    let head = add(nodes, Node::Cons(spot))?;
    let first = add(nodes, Node::App(head, x))?;
    add(nodes, Node::App(first, t))
}

// An abstraction, with the function before it.
pub fn bound(
    nodes: &mut Vec<Node>,
    spot: usize,
    note: Option<usize>,
    fun: Option<usize>,
    x: usize,
) -> Result<usize, AllocError>
    requires fun { IsMaybeBelow (length nodes.old.items) fun }
    requires x { x < length nodes.old.items }
    ensures within { IfOk result (λ i. i < length nodes.new.items) }
    ensures grows { OnOk result (Grows nodes.old.items nodes.new.items) }
    ensures tree { IfOk result (λ i. at (trees nodes.new.items) i ≡ apply (maybe (trees nodes.old.items) fun) (Lam spot note (at (trees nodes.old.items) x))) }
{
    let lam = add(nodes, Node::Lam(spot, note, x))?;
    match fun {
        None => Ok(lam),
        Some(f) => add(nodes, Node::App(f, lam)),
    }
}

// The items of a list in front of its tail.
fn wrap(nodes: &mut Vec<Node>, done: &[(usize, usize)], last: usize) -> Result<usize, AllocError>
    requires done { AreItemsBelow (length nodes.old.items) done.now }
    requires last { last < length nodes.old.items }
    ensures within { IfOk result (λ i. i < length nodes.new.items) }
    ensures grows { OnOk result (Grows nodes.old.items nodes.new.items) }
    ensures tree { IfOk result (λ i. at (trees nodes.new.items) i ≡ wrap (done_of (trees nodes.old.items) done.now) (at (trees nodes.old.items) last)) }
{
    let mut t = last;
    let mut n = done.len();
    'over: while n > 0 {
        n -= 1;
        let item = done[n];
        t = one_item(nodes, item.0, item.1, t)?;
    }
    Ok(t)
}

// A closing mark behind an item.
fn at_list(
    nodes: &mut Vec<Node>,
    frames: &mut Vec<Held>,
    x: usize,
    c: Sym,
    spot: usize,
    fun: Option<usize>,
    mut done: Vec<(usize, usize)>,
) -> Result<Step, AllocError>
    requires x { x < length nodes.old.items }
    requires frames { EachBelow (length nodes.old.items) frames.old.items }
    requires fun { IsMaybeBelow (length nodes.old.items) fun }
    requires done { AreItemsBelow (length nodes.old.items) done.items }
    ensures { IfOk result (λ r. Steps nodes.old.items nodes.new.items frames.new.items r
        (close (Item spot (maybe (trees nodes.old.items) fun) (done_of (trees nodes.old.items) done.items) ∷ frames_of (trees nodes.old.items) frames.old.items) (at (trees nodes.old.items) x) c)) }
{
    match c {
        Sym::ClosesList(end) => {
            done.push((spot, x))?;
            let nil = add(nodes, Node::Nil(end))?;
            let list = wrap(nodes, &done, nil)?;
            Ok(Step::Goes(Doing::Has(fun, list, None)))
        }
        Sym::Bar => {
            done.push((spot, x))?;
            frames.push(Held::Tail(fun, done))?;
            Ok(Step::Goes(Doing::Wants))
        }
        _ => Ok(Step::Stops(Fault::Unexpected)),
    }
}

// A closing mark behind the tail of a list.
fn at_tail(
    nodes: &mut Vec<Node>,
    frames: &mut Vec<Held>,
    x: usize,
    c: Sym,
    fun: Option<usize>,
    done: Vec<(usize, usize)>,
) -> Result<Step, AllocError>
    requires x { x < length nodes.old.items }
    requires frames { EachBelow (length nodes.old.items) frames.old.items }
    requires fun { IsMaybeBelow (length nodes.old.items) fun }
    requires done { AreItemsBelow (length nodes.old.items) done.items }
    ensures { IfOk result (λ r. Steps nodes.old.items nodes.new.items frames.new.items r
        (close (Tail (maybe (trees nodes.old.items) fun) (done_of (trees nodes.old.items) done.items) ∷ frames_of (trees nodes.old.items) frames.old.items) (at (trees nodes.old.items) x) c)) }
{
    match c {
        Sym::ClosesList(_) => {
            let list = wrap(nodes, &done, x)?;
            Ok(Step::Goes(Doing::Has(fun, list, None)))
        }
        _ => Ok(Step::Stops(Fault::Unexpected)),
    }
}

// A closing mark behind what a bracket holds.
fn at_bracket(nodes: &Vec<Node>, frames: &Vec<Held>, x: usize, c: Sym, fun: Option<usize>) -> Step
    requires x { x < length nodes.now.items }
    requires frames { EachBelow (length nodes.now.items) frames.now.items }
    requires fun { IsMaybeBelow (length nodes.now.items) fun }
    ensures { Steps nodes.now.items nodes.now.items frames.now.items result (close (Inside (maybe (trees nodes.now.items) fun) ∷ frames_of (trees nodes.now.items) frames.now.items) (at (trees nodes.now.items) x) c) }
{
    match c {
        Sym::Closes => Step::Goes(Doing::Has(fun, x, None)),
        _ => Step::Stops(Fault::Unexpected),
    }
}

// A closing mark behind a whole term of the innermost bracket.
pub fn close(
    nodes: &mut Vec<Node>,
    frames: &mut Vec<Held>,
    first: usize,
    c: Sym,
) -> Result<Step, AllocError>
    requires x { first < length nodes.old.items }
    requires frames { EachBelow (length nodes.old.items) frames.old.items }
    ensures { IfOk result (λ r. Steps nodes.old.items nodes.new.items frames.new.items r (close (frames_of (trees nodes.old.items) frames.old.items) (at (trees nodes.old.items) first) c)) }
{
    let mut x = first;
    'over: loop {
        match frames.pop() {
            None => return Ok(Step::Stops(Fault::Unexpected)),
            Some(Held::Waits(p, left)) => {
                x = operated(nodes, p, left, x)?;
            }
            Some(Held::Under(spot, note, fun)) => {
                x = bound(nodes, spot, note, fun, x)?;
            }
            Some(Held::Inside(fun)) => return Ok(at_bracket(nodes, frames, x, c, fun)),
            Some(Held::Item(spot, fun, done)) => return at_list(
                nodes, frames, x, c, spot, fun, done,
            ),
            Some(Held::Tail(fun, done)) => return at_tail(nodes, frames, x, c, fun, done),
        }
    }
}
