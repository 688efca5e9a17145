// The end of a term, and its nodes as they are handed out.
ghost use Rattle.std.specs.Prelude.{◌≡◌, ◌<◌, length, IfOk};
ghost use Rattle.lp_syntax.specs.Nodes.{trees, at};
ghost use Rattle.lp_syntax.specs.Tokens.{lexemes, spot_at};
ghost use Rattle.lp_syntax.specs.Raw.{leaf, IsReadNote, IsRaw, AreRaw};
ghost use Rattle.lp_syntax.specs.Machine.{finish, ended_in};
ghost use Rattle.lp_syntax.specs.Views.{frames_of, mode_of, EachBelow, IsDoingBelow, Finishes};

use crate::class::{Class, is};
use crate::close::bound;
use crate::held::{Doing, Held};
use crate::input::Input;
use crate::node::{Node, apply, operated};
use crate::text::{RawNode, RawType};
use crate::types::{TypeEnd, read_type};
use std::alloc::{AllocError, Global};

// The whole term, if no bracket is open.
fn fold(
    nodes: &mut Vec<Node>,
    frames: &mut Vec<Held>,
    last: usize,
) -> Result<Option<usize>, AllocError>
    requires x { last < length nodes.old.items }
    requires frames { EachBelow (length nodes.old.items) frames.old.items }
    ensures { IfOk result (λ r. Finishes nodes.old.items nodes.new.items r (finish (frames_of (trees nodes.old.items) frames.old.items) (at (trees nodes.old.items) last))) }
{
    let mut x = last;
    'over: loop {
        match frames.pop() {
            None => return Ok(Some(x)),
            Some(Held::Waits(p, left)) => {
                x = operated(nodes, p, left, x)?;
                continue;
            }
            Some(Held::Under(spot, note, fun)) => {
                x = bound(nodes, spot, note, fun, x)?;
                continue;
            }
            Some(Held::Inside(_)) => return Ok(None),
            Some(Held::Item(_, _, _)) => return Ok(None),
            Some(Held::Tail(_, _)) => return Ok(None),
        }
    }
}

/// The root of a term that ends here, if it may.
pub fn finish(
    nodes: &mut Vec<Node>,
    frames: &mut Vec<Held>,
    doing: Doing,
) -> Result<Option<usize>, AllocError>
    requires frames { EachBelow (length nodes.old.items) frames.old.items }
    requires doing { IsDoingBelow (length nodes.old.items) doing }
    ensures { IfOk result (λ r. Finishes nodes.old.items nodes.new.items r (ended_in (frames_of (trees nodes.old.items) frames.old.items) (mode_of (trees nodes.old.items) doing))) }
{
    match doing {
        Doing::Has(fun, x, _) => {
            let whole = apply(nodes, fun, x)?;
            fold(nodes, frames, whole)
        }
        Doing::Formed(_, _, x) => fold(nodes, frames, x),
        Doing::Wants => Ok(None),
        Doing::Fresh => Ok(None),
        Doing::FreshList => Ok(None),
        Doing::Named(_) => Ok(None),
    }
}

// A name, a number or a string; `&` is read as `,`.
#[tactic(auto, unfolding(crate::specs::Raw::leaf))]
fn leaf(input: &Input<'_>, token: usize) -> RawNode
    ensures { result ≡ leaf (spot_at input.now.file input.now.source.now input.now.tokens.now) (lexemes input.now.source.now input.now.tokens.now) token }
{
    match input.class(token) {
        Class::Number(n) => RawNode::Number(n, input.spot(token)),
        Class::Text => RawNode::Text(input.spot(token)),
        _ => {
            if is(input.text(token), b"&") {
                return RawNode::Known(0, input.spot(token));
            }
            RawNode::Name(input.spot(token))
        }
    }
}

// The type behind a colon.
fn annotation(
    alloc: Global,
    input: &Input<'_>,
    colon: Option<usize>,
) -> Result<Option<RawType>, AllocError>
    ensures { IfOk result (λ r. IsReadNote (spot_at input.now.file input.now.source.now input.now.tokens.now) (lexemes input.now.source.now input.now.tokens.now) colon r) }
{
    let Some(at) = colon else {
        return Ok(None);
    };
    if at >= input.tokens.len() {
        return Ok(None);
    }
    match read_type(alloc, input, at + 1)? {
        TypeEnd::Stopped(_, _) => Ok(None),
        TypeEnd::Read(note, _) => Ok(Some(note)),
    }
}

// A node as it is handed out.
fn raw_node(alloc: Global, input: &Input<'_>, node: Node) -> Result<RawNode, AllocError>
    ensures { IfOk result (λ r. IsRaw (spot_at input.now.file input.now.source.now input.now.tokens.now) (lexemes input.now.source.now input.now.tokens.now) node r) }
{
    match node {
        Node::Leaf(token) => Ok(leaf(input, token)),
        Node::Cons(token) => Ok(RawNode::Known(14, input.spot(token))),
        Node::Nil(token) => Ok(RawNode::Known(15, input.spot(token))),
        Node::App(f, x) => Ok(RawNode::App(f, x)),
        Node::Lam(token, colon, x) => {
            let note = annotation(alloc, input, colon)?;
            Ok(RawNode::Abs(input.spot(token), note, x))
        }
    }
}

/// The nodes with their spots and annotations.
pub fn raw_nodes(
    alloc: Global,
    input: &Input<'_>,
    nodes: &[Node],
) -> Result<Vec<RawNode>, AllocError>
    ensures { IfOk result (λ r. AreRaw (spot_at input.now.file input.now.source.now input.now.tokens.now) (lexemes input.now.source.now input.now.tokens.now) nodes.now r.items) }
{
    let mut raw = Vec::new(alloc);
    for node in nodes {
        let text = raw_node(alloc, input, *node)?;
        raw.push(text)?;
    }
    Ok(raw)
}
