ghost use Rattle.std.specs.Prelude.{◌≡◌, ◌<◌, ◌≤◌, ◌+◌, ◌++◌, [], ◌∷◌, length, OnOk, IfOk};
ghost use Rattle.lp_syntax.specs.Symbols.{apply};
ghost use Rattle.lp_syntax.specs.Machine.{operated};
ghost use Rattle.lp_syntax.specs.Nodes.{trees, at, maybe, IsBelow, IsMaybeBelow, IsNodeBelow, Grows, node_tree};

use crate::symbol::Oper;
use std::alloc::AllocError;

/// A node of a tree. Each node names older ones; a leaf and a binder have the numbers of their tokens, and an annotation that
/// of its colon.
#[derive(Clone, Copy)]
pub enum Node {
    Leaf(usize),
    Cons(usize),
    Nil(usize),
    App(usize, usize),
    Lam(usize, Option<usize>, usize),
}

// A new node.
pub fn add(nodes: &mut Vec<Node>, node: Node) -> Result<usize, AllocError>
    requires { IsNodeBelow (length nodes.old.items) node }
    ensures within { IfOk result (λ i. i < length nodes.new.items) }
    ensures grows { OnOk result (Grows nodes.old.items nodes.new.items) }
    ensures tree { IfOk result (λ i. at (trees nodes.new.items) i ≡ node_tree (trees nodes.old.items) node) }
{
    let i = nodes.as_slice().len();
    nodes.push(node)?;
    Ok(i)
}

#[tactic(auto, using(crate::proofs::Arena::grows_none))]
// The function applied, if there is one.
pub fn apply(nodes: &mut Vec<Node>, fun: Option<usize>, x: usize) -> Result<usize, AllocError>
    requires fun { IsMaybeBelow (length nodes.old.items) fun }
    requires x { x < length nodes.old.items }
    ensures within { IfOk result (λ i. i < length nodes.new.items) }
    ensures grows { OnOk result (Grows nodes.old.items nodes.new.items) }
    ensures tree { IfOk result (λ i. at (trees nodes.new.items) i ≡ apply (maybe (trees nodes.old.items) fun) (at (trees nodes.old.items) x)) }
{
    match fun {
        None => Ok(x),
        Some(f) => add(nodes, Node::App(f, x)),
    }
}

// An operator on its operands.
pub fn operated(
    nodes: &mut Vec<Node>,
    o: Oper,
    left: Option<usize>,
    right: usize,
) -> Result<usize, AllocError>
    requires left { IsMaybeBelow (length nodes.old.items) left }
    requires right { right < length nodes.old.items }
    ensures within { IfOk result (λ i. i < length nodes.new.items) }
    ensures grows { OnOk result (Grows nodes.old.items nodes.new.items) }
    ensures tree { IfOk result (λ i. at (trees nodes.new.items) i ≡ operated o (maybe (trees nodes.old.items) left) (at (trees nodes.old.items) right)) }
{
    let leaf = add(nodes, Node::Leaf(o.spot))?;
    match left {
        None => add(nodes, Node::App(leaf, right)),
        Some(l) => {
            let first = add(nodes, Node::App(leaf, l))?;
            add(nodes, Node::App(first, right))
        }
    }
}
