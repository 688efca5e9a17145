ghost use Rattle.std.specs.Prelude.{◌<◌, length, IfOk};
ghost use Rattle.lp_syntax.specs.Symbols.{By};
ghost use Rattle.lp_syntax.specs.Machine.{begins, operator, formed, prefixed};
ghost use Rattle.lp_syntax.specs.Nodes.{trees, at, maybe, IsMaybeBelow};
ghost use Rattle.lp_syntax.specs.Views.{frames_of, EachBelow, Steps, AdmitsAs};

use crate::attach::attach;
use crate::close::close;
use crate::fits::is_item;
use crate::held::{Doing, Held, Step};
use crate::node::{Node, add};
use crate::symbol::{Fault, Oper, Sym};
use lp_fixity::Fixity;
use std::alloc::{AllocError, Global};

// Where an operand is due, behind this function.
pub fn begins(
    alloc: Global,
    nodes: &mut Vec<Node>,
    frames: &mut Vec<Held>,
    fun: Option<usize>,
    c: Sym,
) -> Result<Step, AllocError>
    requires frames { EachBelow (length nodes.old.items) frames.old.items }
    requires fun { IsMaybeBelow (length nodes.old.items) fun }
    ensures { IfOk result (λ r. Steps nodes.old.items nodes.new.items frames.new.items r (begins (frames_of (trees nodes.old.items) frames.old.items) (maybe (trees nodes.old.items) fun) c)) }
{
    match c {
        Sym::Word(v) => {
            let leaf = add(nodes, Node::Leaf(v))?;
            Ok(Step::Goes(Doing::Has(fun, leaf, Some(v))))
        }
        Sym::Atom(v) => {
            let leaf = add(nodes, Node::Leaf(v))?;
            Ok(Step::Goes(Doing::Has(fun, leaf, None)))
        }
        Sym::Opens => {
            frames.push(Held::Inside(fun))?;
            Ok(Step::Goes(Doing::Fresh))
        }
        Sym::OpensList(v) => {
            frames.push(Held::Item(v, fun, Vec::new(alloc)))?;
            Ok(Step::Goes(Doing::FreshList))
        }
        _ => Ok(Step::Stops(Fault::Unexpected)),
    }
}

// An operand by this operator may begin here.
fn admits(frames: &[Held], g: Fixity, k: u8) -> bool
    ensures { AdmitsAs frames.now g k result }
{
    let n = frames.len();
    if n == 0 {
        return true;
    }
    match &frames[n - 1] {
        Held::Waits(p, _) => g.fits_right(k, p.fixity, p.number),
        Held::Item(_, _, _) => is_item(g, k),
        Held::Under(_, _, _) => true,
        Held::Inside(_) => true,
        Held::Tail(_, _) => true,
    }
}

// A prefix operator where an operand is due.
pub fn prefixed(nodes: &mut Vec<Node>, frames: &mut Vec<Held>, o: Oper) -> Result<Step, AllocError>
    requires frames { EachBelow (length nodes.old.items) frames.old.items }
    ensures { IfOk result (λ r. Steps nodes.old.items nodes.new.items frames.new.items r (prefixed (frames_of (trees nodes.old.items) frames.old.items) o)) }
{
    if !o.fixity.is_prefix() {
        return Ok(Step::Stops(Fault::Unexpected));
    }
    if !admits(frames, o.fixity, o.number) {
        return Ok(Step::Stops(Fault::Unexpected));
    }
    frames.push(Held::Waits(o, None))?;
    Ok(Step::Goes(Doing::Wants))
}

// An operator behind a form by a postfix operator.
pub fn operator_behind(
    nodes: &mut Vec<Node>,
    frames: &mut Vec<Held>,
    f: Fixity,
    n: u8,
    x: usize,
    o: Oper,
) -> Result<Step, AllocError>
    requires x { x < length nodes.old.items }
    requires frames { EachBelow (length nodes.old.items) frames.old.items }
    ensures { IfOk result (λ r. Steps nodes.old.items nodes.new.items frames.new.items r (operator (frames_of (trees nodes.old.items) frames.old.items) (By f n) (at (trees nodes.old.items) x) o)) }
{
    if o.fixity.is_prefix() {
        return Ok(Step::Stops(Fault::Unexpected));
    }
    if !f.fits_left(n, o.fixity, o.number) {
        return Ok(Step::Stops(Fault::Unexpected));
    }
    attach(nodes, frames, x, o)
}

// What stands behind a form by a postfix operator.
pub fn formed(
    nodes: &mut Vec<Node>,
    frames: &mut Vec<Held>,
    f: Fixity,
    n: u8,
    x: usize,
    c: Sym,
) -> Result<Step, AllocError>
    requires x { x < length nodes.old.items }
    requires frames { EachBelow (length nodes.old.items) frames.old.items }
    ensures { IfOk result (λ r. Steps nodes.old.items nodes.new.items frames.new.items r (formed (frames_of (trees nodes.old.items) frames.old.items) f n (at (trees nodes.old.items) x) c)) }
{
    match c {
        Sym::Op(o) => operator_behind(nodes, frames, f, n, x, o),
        Sym::Closes => close(nodes, frames, x, c),
        Sym::ClosesList(_) => close(nodes, frames, x, c),
        Sym::Bar => close(nodes, frames, x, c),
        _ => Ok(Step::Stops(Fault::Unexpected)),
    }
}
