// The newest assumption of each head: a digital search tree (Coffman and Eve 1970) whose nodes are shared by branches. A change copies the way to it.
ghost use Rattle.std.specs.Prelude.{◌≡◌, ◌<◌, ◌≤◌, ◌++◌, ◌∷◌, [], true, false, length, reverse, ℕ, Option, IfOk};
ghost use Rattle.lp_pattern.specs.Growing.{GoesOn};
ghost use Rattle.lp_plain.specs.Newest.{code_of, is_odd, child_of, set_child, node_of, IsNewest, IsWith, IsWay};

use crate::head::Head;
use crate::scope::older;
use lp_base::Memory;
use std::alloc::Global;

/// A head with its newest assumption, and the trees of the other heads by the next bit of their codes.
#[derive(Clone, Copy)]
pub(crate) struct Newest {
    head: Head,
    number: usize,
    even: Option<usize>,
    odd: Option<usize>,
}

// A node that is passed on the way to another, and which child the way goes to.
#[derive(Clone, Copy)]
struct Step {
    node: Newest,
    is_odd: bool,
}

// The way to a head's node, or to where it would stand.
#[derive(Drop)]
struct Way {
    steps: Vec<Step>,
    end: Option<Newest>,
}

// A number for a head. Two heads may have one.
#[tactic(auto, unfolding(crate::specs::Newest::code_of))]
fn code(head: Head) -> u64
    ensures { result ≡ code_of head }
{
    match head {
        Head::Constant(number) => 2 * (number as u64),
        Head::Eigen(level) => 2 * (level % 9_223_372_036_854_775_808) + 1,
    }
}

#[tactic(auto, unfolding(crate::specs::Newest::is_odd))]
fn leads_to_odd(bits: u64) -> bool
    ensures { result ≡ is_odd bits }
{
    bits % 2 == 1
}

fn same_head(one: Head, other: Head) -> bool
    ensures same { result ≡ true → one ≡ other }
    ensures other { result ≡ false → one ≡ other → ⊥ }
{
    match one {
        Head::Constant(number) => match other {
            Head::Constant(second) => number == second,
            Head::Eigen(_) => false,
        },
        Head::Eigen(level) => match other {
            Head::Constant(_) => false,
            Head::Eigen(second) => level == second,
        },
    }
}

fn child(node: Newest, is_odd: bool) -> Option<usize>
    ensures { result ≡ child_of node is_odd }
{
    if is_odd { node.odd } else { node.even }
}

fn with_child(node: Newest, is_odd: bool, below: usize) -> Newest
    ensures { result ≡ set_child node is_odd below }
{
    if is_odd {
        Newest {
            odd: Some(below),
            ..node
        }
    } else {
        Newest {
            even: Some(below),
            ..node
        }
    }
}

/// The newest assumption of a head in the tree of this number. Below each node stand older ones.
pub(crate) fn newest_of(nodes: &Vec<Newest>, tree: Option<usize>, head: Head) -> Option<usize>
    ensures { (found : Option ℕ) → IsNewest nodes.now.items tree head found → result ≡ found }
{
    let mut at = tree;
    let mut bits = code(head);
    'nodes: while let Some(number) = at {
        let Some(node) = nodes.get(number) else {
            return None;
        };
        if same_head(node.head, head) {
            return Some(node.number);
        }
        at = older(child(*node, leads_to_odd(bits)), number);
        bits /= 2;
    }
    None
}

// The way from the root to the node of a head.
fn way_to(
    alloc: Global,
    nodes: &Vec<Newest>,
    tree: Option<usize>,
    head: Head,
) -> Result<Way, Memory>
    ensures { IfOk result (λ way. IsWay nodes.now.items head tree (reverse way.steps.items) way.end) }
{
    let mut steps = Vec::new(alloc);
    let mut at = tree;
    let mut bits = code(head);
    'nodes: while let Some(number) = at {
        let Some(node) = nodes.get(number) else {
            return Ok(Way { steps, end: None });
        };
        if same_head(node.head, head) {
            return Ok(Way {
                steps,
                end: Some(*node),
            });
        }
        let is_odd = leads_to_odd(bits);
        steps.push(Step {
            node: *node,
            is_odd,
        })?;
        at = older(child(*node, is_odd), number);
        bits /= 2;
    }
    Ok(Way { steps, end: None })
}

// The node of the head with its new assumption. Without an older node nothing stands below it.
fn node_for(end: Option<Newest>, head: Head, number: usize) -> Newest
    ensures { result ≡ node_of end head number }
{
    match end {
        Some(node) => Newest { number, ..node },
        None => Newest {
            head,
            number,
            even: None,
            odd: None,
        },
    }
}

fn put(nodes: &mut Vec<Newest>, node: Newest) -> Result<usize, Memory>
    ensures kept { GoesOn nodes.old.items nodes.new.items }
    ensures put { IfOk result (λ place. (place ≡ length nodes.old.items) × (nodes.new.items ≡ nodes.old.items ++ node ∷ [])) }
{
    let place = nodes.len();
    nodes.push(node)?;
    Ok(place)
}

/// The tree with this assumption as the newest one of its head.
pub(crate) fn with_newest(
    alloc: Global,
    nodes: &mut Vec<Newest>,
    tree: Option<usize>,
    head: Head,
    number: usize,
) -> Result<usize, Memory>
    ensures kept { GoesOn nodes.old.items nodes.new.items }
    ensures newest { IfOk result (λ root. IsWith nodes.old.items nodes.new.items head number tree (code_of head) root) }
    ensures fresh { IfOk result (λ root. length nodes.old.items ≤ root) }
    ensures within { IfOk result (λ root. root < length nodes.new.items) }
{
    let Way { mut steps, end } = way_to(alloc, nodes, tree, head)?;
    let mut below = put(nodes, node_for(end, head, number))?;
    'steps: while let Some(step) = steps.pop() {
        below = put(nodes, with_child(step.node, step.is_odd, below))?;
    }
    Ok(below)
}
