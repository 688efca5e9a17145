ghost use Rattle.std.specs.Prelude.{◌<◌, ◌∷◌, length, IfOk};
ghost use Rattle.lp_syntax.specs.Machine.{takes, attach, Item};
ghost use Rattle.lp_syntax.specs.Nodes.{trees, at, maybe, IsMaybeBelow};
ghost use Rattle.lp_syntax.specs.Views.{frames_of, done_of, EachBelow, AreItemsBelow, Steps};

use crate::fits::{is_item, separates};
use crate::held::{Doing, Held, Step};
use crate::node::{Node, add, operated};
use crate::symbol::{Fault, Oper};
use std::alloc::AllocError;

// An operator that has its left operand.
fn takes(
    nodes: &mut Vec<Node>,
    frames: &mut Vec<Held>,
    x: usize,
    o: Oper,
) -> Result<Step, AllocError>
    requires x { x < length nodes.old.items }
    requires frames { EachBelow (length nodes.old.items) frames.old.items }
    ensures { IfOk result (λ r. Steps nodes.old.items nodes.new.items frames.new.items r (takes (frames_of (trees nodes.old.items) frames.old.items) (at (trees nodes.old.items) x) o)) }
{
    if o.fixity.is_postfix() {
        let leaf = add(nodes, Node::Leaf(o.spot))?;
        let form = add(nodes, Node::App(leaf, x))?;
        return Ok(Step::Goes(Doing::Formed(o.fixity, o.number, form)));
    }
    frames.push(Held::Waits(o, Some(x)))?;
    Ok(Step::Goes(Doing::Wants))
}

// An operator behind an operand that fits it.
pub fn attach(
    nodes: &mut Vec<Node>,
    frames: &mut Vec<Held>,
    first: usize,
    o: Oper,
) -> Result<Step, AllocError>
    requires x { first < length nodes.old.items }
    requires frames { EachBelow (length nodes.old.items) frames.old.items }
    ensures { IfOk result (λ r. Steps nodes.old.items nodes.new.items frames.new.items r (attach (frames_of (trees nodes.old.items) frames.old.items) (at (trees nodes.old.items) first) o)) }
{
    let mut x = first;
    'over: loop {
        match frames.pop() {
            None => return takes(nodes, frames, x, o),
            Some(Held::Waits(p, left)) => {
                if o.fixity.fits_right(o.number, p.fixity, p.number) {
                    frames.push(Held::Waits(p, left))?;
                    return takes(nodes, frames, x, o);
                }
                if !p.fixity.fits_left(p.number, o.fixity, o.number) {
                    return Ok(Step::Stops(Fault::Ambiguous));
                }
                x = operated(nodes, p, left, x)?;
            }
            Some(Held::Item(spot, fun, done)) => return at_item(
                nodes, frames, x, o, spot, fun, done,
            ),
            Some(Held::Under(spot, note, fun)) => {
                frames.push(Held::Under(spot, note, fun))?;
                return takes(nodes, frames, x, o);
            }
            Some(Held::Inside(fun)) => {
                frames.push(Held::Inside(fun))?;
                return takes(nodes, frames, x, o);
            }
            Some(Held::Tail(fun, done)) => {
                frames.push(Held::Tail(fun, done))?;
                return takes(nodes, frames, x, o);
            }
        }
    }
}

// An operator, or a comma, behind an item.
fn at_item(
    nodes: &mut Vec<Node>,
    frames: &mut Vec<Held>,
    x: usize,
    o: Oper,
    spot: usize,
    fun: Option<usize>,
    mut done: Vec<(usize, usize)>,
) -> Result<Step, AllocError>
    requires x { x < length nodes.old.items }
    requires frames { EachBelow (length nodes.old.items) frames.old.items }
    requires fun { IsMaybeBelow (length nodes.old.items) fun }
    requires done { AreItemsBelow (length nodes.old.items) done.items }
    ensures { IfOk result (λ r. Steps nodes.old.items nodes.new.items frames.new.items r
        (attach (Item spot (maybe (trees nodes.old.items) fun) (done_of (trees nodes.old.items) done.items) ∷ frames_of (trees nodes.old.items) frames.old.items) (at (trees nodes.old.items) x) o)) }
{
    if is_item(o.fixity, o.number) {
        frames.push(Held::Item(spot, fun, done))?;
        return takes(nodes, frames, x, o);
    }
    if separates(o) {
        done.push((spot, x))?;
        frames.push(Held::Item(o.spot, fun, done))?;
        return Ok(Step::Goes(Doing::Wants));
    }
    Ok(Step::Stops(Fault::Unexpected))
}
