// How deep terms and types are, from the nodes that are handed out. Each node names older ones.
ghost use Rattle.std.specs.Prelude.{◌≡◌, ◌<◌, ◌+◌, ℕ, max, true, false, List, length, get_or, slice_get, Some, IfOk};
ghost use Rattle.lp_base.specs.declared.place.Spot.{Spot as Place};
ghost use Rattle.lp_syntax.specs.Symbols.{Tree, App as Application};
ghost use Rattle.lp_syntax.specs.Tokens.{Lexeme};
ghost use Rattle.lp_syntax.specs.Types.{TypeTree, Arrows};
ghost use Rattle.lp_syntax.specs.Raw.{Shows};
ghost use Rattle.lp_syntax.specs.RawTypes.{Node, OnNodes, AreBelow, ShowsType};
ghost use Rattle.lp_syntax.specs.Depth.{as_target, type_depth, as_head, binds, counted, IsDepth, AreTypeDepths, AreDepths, IsNoteDepth};

use crate::text::{RawNode, RawType, RawTypeNode};
use std::alloc::{AllocError, Global};

fn depth_at(depths: &[usize], node: usize) -> usize
    ensures { result ≡ get_or depths.now node 0 }
{
    match depths.get(node) {
        None => 0,
        Some(depth) => *depth,
    }
}

// A word is one level above its arguments.
fn word_depth(depths: &[usize], arguments: &[usize]) -> usize
    ensures { (spot : ℕ → Place) (nodes : List RawTypeNode) (w : ℕ) (t : TypeTree) → AreTypeDepths nodes depths.now → AreBelow (length depths.now) arguments.now → ShowsType spot nodes (OnNodes w arguments.now) t → result ≡ counted (type_depth t) }
{
    let mut depth: usize = 1;
    for argument in arguments.iter().copied() {
        depth = depth.max(depth_at(depths, argument).saturating_add(1));
    }
    depth
}

fn is_arrow(nodes: &[RawTypeNode], node: usize) -> bool
    ensures yes { (spot : ℕ → Place) (t : TypeTree) → result ≡ true → ShowsType spot nodes.now (Node node) t → (n : ℕ) → as_target t n ≡ n }
    ensures no { (spot : ℕ → Place) (t : TypeTree) → result ≡ false → ShowsType spot nodes.now (Node node) t → (n : ℕ) → as_target t n ≡ n + 1 }
{
    matches!(nodes.get(node), Some(RawTypeNode::Arrow(_, _)))
}

// A chain of arrows is one level above its arguments and its target.
fn arrow_depth(nodes: &[RawTypeNode], depths: &[usize], left: usize, right: usize) -> usize
    ensures { (spot : ℕ → Place) (t u : TypeTree) → AreTypeDepths nodes.now depths.now → left < length depths.now → right < length depths.now → ShowsType spot nodes.now (Node left) t → ShowsType spot nodes.now (Node right) u → result ≡ counted (type_depth (Arrows t u)) }
{
    let argument = depth_at(depths, left).saturating_add(1);
    if is_arrow(nodes, right) {
        return argument.max(depth_at(depths, right));
    }
    argument.max(depth_at(depths, right).saturating_add(1))
}

fn type_node_depth(nodes: &[RawTypeNode], depths: &[usize], node: &RawTypeNode) -> usize
    ensures { (spot : ℕ → Place) (i : ℕ) (t : TypeTree) → AreTypeDepths nodes.now depths.now → i ≡ length depths.now → slice_get nodes.now i ≡ Some node.now → ShowsType spot nodes.now (Node i) t → result ≡ counted (type_depth t) }
{
    match node {
        RawTypeNode::Word(_, arguments) => word_depth(depths, arguments),
        RawTypeNode::Arrow(left, right) => arrow_depth(nodes, depths, *left, *right),
    }
}

/// How deep the type at `root` is.
pub fn type_depth(alloc: Global, nodes: &[RawTypeNode], root: usize) -> Result<usize, AllocError>
    ensures { IfOk result (λ d. (spot : ℕ → Place) (t : TypeTree) → ShowsType spot nodes.now (Node root) t → d ≡ counted (type_depth t)) }
{
    let mut depths: Vec<usize> = Vec::new(alloc);
    for node in nodes {
        let depth = type_node_depth(nodes, &depths, node);
        depths.push(depth)?;
    }
    Ok(depth_at(&depths, root))
}

fn binds(node: &RawNode) -> bool
    ensures { result ≡ binds node.now }
{
    match node {
        RawNode::Abs(_, _, _) => true,
        RawNode::App(_, _) => false,
        RawNode::Name(_) => false,
        RawNode::Known(_, _) => false,
        RawNode::Number(_, _) => false,
        RawNode::Text(_) => false,
    }
}

fn is_abstraction(nodes: &[RawNode], node: usize) -> bool
    ensures yes { (spot : ℕ → Place) (ls : List Lexeme) (t : Tree) → result ≡ true → Shows spot ls nodes.now node t → (n : ℕ) → as_head t n ≡ n + 1 }
    ensures no { (spot : ℕ → Place) (ls : List Lexeme) (t : Tree) → result ≡ false → Shows spot ls nodes.now node t → (n : ℕ) → as_head t n ≡ n }
{
    match nodes.get(node) {
        None => false,
        Some(found) => binds(found),
    }
}

// A head and its arguments are on one level, so only an abstraction as head is below it.
fn application_depth(nodes: &[RawNode], depths: &[usize], head: usize, argument: usize) -> usize
    ensures { (spot : ℕ → Place) (ls : List Lexeme) (t u : Tree) → AreDepths nodes.now depths.now → head < length depths.now → argument < length depths.now → Shows spot ls nodes.now head t → Shows spot ls nodes.now argument u → IsDepth ls (Application t u) result }
{
    let below = depth_at(depths, argument).saturating_add(1);
    if is_abstraction(nodes, head) {
        return depth_at(depths, head).saturating_add(1).max(below);
    }
    depth_at(depths, head).max(below)
}

fn note_depth(alloc: Global, note: &Option<RawType>) -> Result<usize, AllocError>
    ensures { IfOk result (λ d. IsNoteDepth note.now d) }
{
    match note {
        None => Ok(0),
        Some(text) => type_depth(alloc, &text.nodes, text.root),
    }
}

// An annotation stands below its binder.
fn abstraction_depth(
    alloc: Global,
    depths: &[usize],
    note: &Option<RawType>,
    body: usize,
) -> Result<usize, AllocError>
    ensures { IfOk result (λ d. (n : ℕ) × IsNoteDepth note.now n × (d ≡ counted (max (get_or depths.now body 0) n + 1))) }
{
    let below = note_depth(alloc, note)?;
    Ok(depth_at(depths, body).max(below).saturating_add(1))
}

fn node_depth(
    alloc: Global,
    nodes: &[RawNode],
    depths: &[usize],
    node: &RawNode,
) -> Result<usize, AllocError>
    ensures { IfOk result (λ d. (spot : ℕ → Place) (ls : List Lexeme) (i : ℕ) (t : Tree) → AreDepths nodes.now depths.now → i ≡ length depths.now → slice_get nodes.now i ≡ Some node.now → Shows spot ls nodes.now i t → IsDepth ls t d) }
{
    match node {
        RawNode::App(head, argument) => Ok(application_depth(nodes, depths, *head, *argument)),
        RawNode::Abs(_, note, body) => abstraction_depth(alloc, depths, note, *body),
        RawNode::Name(_) => Ok(1),
        RawNode::Known(_, _) => Ok(1),
        RawNode::Number(_, _) => Ok(1),
        RawNode::Text(_) => Ok(1),
    }
}

/// How deep the term at `root` is.
pub fn term_depth(alloc: Global, nodes: &[RawNode], root: usize) -> Result<usize, AllocError>
    ensures { IfOk result (λ d. (spot : ℕ → Place) (ls : List Lexeme) (t : Tree) → Shows spot ls nodes.now root t → IsDepth ls t d) }
{
    let mut depths: Vec<usize> = Vec::new(alloc);
    for node in nodes {
        let depth = node_depth(alloc, nodes, &depths, node)?;
        depths.push(depth)?;
    }
    Ok(depth_at(&depths, root))
}
