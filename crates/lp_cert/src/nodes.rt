// Proofs as bytes: each node before those below it.
ghost use Rattle.std.specs.Prelude.{◌≡◌, ◌++◌, ◌∷◌, map, reverse, All, IfOk, OnOk};
ghost use Rattle.std.specs.List.{flat_map};
ghost use Rattle.lp_term.specs.Nodes.{Nodes, Extends, tree};
ghost use Rattle.lp_bytes.specs.Reading.{Gives, left_of};
ghost use Rattle.lp_bytes.specs.Writing.{text_of, more};
ghost use Rattle.lp_cert.specs.Arities.{counts_of};
ghost use Rattle.lp_cert.specs.Reading.{nodes_below, back_at, goal_node_at, side_at, focus_node_at, node_at, proof_at};
ghost use Rattle.lp_cert.specs.Same.{types_in};
ghost use Rattle.lp_cert.specs.Standing.{IsNodeInside};
ghost use Rattle.lp_cert.specs.Spelling.{spelled_term, spelled_node};
ghost use Rattle.lp_cert.specs.Written.{back_to, node_of};

use crate::arities::Arities;
use crate::terms::{read_term, write_term};
use crate::types::{read_types, write_types};
use lp_base::Memory;
use lp_bytes::{ReadError, Reader, Writer};
use lp_model::ProofNode;
use lp_term::{Bank, TermId, TypeId};
use std::alloc::Global;

// What a node stands for: a proof of a goal, or a focus on a clause.
#[derive(Clone, Copy, Debug, PartialEq, Eq)]
pub(crate) enum Sort {
    Proof,
    Focus,
}

// The sorts of the nodes below a node are left on the stack, the first one last.
fn push_below(node: &ProofNode, sorts: &mut Vec<Sort>) -> Result<(), Memory>
    ensures { OnOk result ((b : Nodes) → reverse sorts.new.items ≡ nodes_below (node_of b node.now) ++ reverse sorts.old.items) }
{
    match node {
        ProofNode::True | ProofNode::Equal | ProofNode::Arith | ProofNode::Hit => Ok(()),
        ProofNode::And => {
            sorts.push(Sort::Proof)?;
            sorts.push(Sort::Proof)?;
            Ok(())
        }
        ProofNode::Back(_, _)
        | ProofNode::FocusConv(_)
        | ProofNode::FocusAll(_)
        | ProofNode::Take(_) => {
            sorts.push(Sort::Focus)?;
            Ok(())
        }
        ProofNode::Need => {
            sorts.push(Sort::Focus)?;
            sorts.push(Sort::Proof)?;
            Ok(())
        }
        ProofNode::Conv(_)
        | ProofNode::Left
        | ProofNode::Right
        | ProofNode::Some(_)
        | ProofNode::All
        | ProofNode::Assume => {
            sorts.push(Sort::Proof)?;
            Ok(())
        }
    }
}

#[tactic(auto, unfolding(crate::specs::Reading::back_at))]
fn read_back(
    alloc: Global,
    reader: &mut Reader<'_>,
    arities: &Arities<'_>,
    bank: &mut Bank,
) -> Result<ProofNode, ReadError>
    ensures kept { Extends bank.old bank.new }
    ensures inside { IfOk result (IsNodeInside bank.new) }
    ensures read { (b : Nodes) → Extends bank.new b → Gives (node_of b) result (left_of reader.new) (back_at (counts_of arities.now) (left_of reader.old)) }
{
    let clause = reader.four()?;
    let count = reader.two()?;
    let types = read_types(alloc, reader, arities, bank, u32::from(count))?;
    Ok(ProofNode::Back(clause, types))
}

// A node of a proof whose first byte, which stood at the offset, is this one.
#[tactic(auto, unfolding(crate::specs::Reading::goal_node_at))]
fn read_goal_node(
    alloc: Global,
    reader: &mut Reader<'_>,
    arities: &Arities<'_>,
    bank: &mut Bank,
    at: u64,
    tag: u8,
) -> Result<ProofNode, ReadError>
    ensures kept { Extends bank.old bank.new }
    ensures inside { IfOk result (IsNodeInside bank.new) }
    ensures read { (b : Nodes) → Extends bank.new b → Gives (node_of b) result (left_of reader.new) (goal_node_at (counts_of arities.now) at tag (left_of reader.old)) }
{
    match tag {
        0 => {
            let term = read_term(alloc, reader, arities, bank)?;
            Ok(ProofNode::Conv(term))
        }
        1 => Ok(ProofNode::True),
        2 => Ok(ProofNode::And),
        3 => Ok(ProofNode::Left),
        4 => Ok(ProofNode::Right),
        5 => {
            let term = read_term(alloc, reader, arities, bank)?;
            Ok(ProofNode::Some(term))
        }
        6 => Ok(ProofNode::All),
        7 => Ok(ProofNode::Assume),
        8 => Ok(ProofNode::Equal),
        9 => Ok(ProofNode::Arith),
        10 => read_back(alloc, reader, arities, bank),
        _ => Err(Reader::bad(at)),
    }
}

#[tactic(auto, unfolding(crate::specs::Reading::side_at))]
fn read_side(reader: &mut Reader<'_>) -> Result<u8, ReadError>
    ensures { Gives (λ x. x) result (left_of reader.new) (side_at (left_of reader.old)) }
{
    let at = reader.at();
    let side = reader.byte()?;
    if side > 1 {
        return Err(Reader::bad(at));
    }
    Ok(side)
}

// A node of a focus whose first byte, which stood at the offset, is this one.
#[tactic(auto, unfolding(crate::specs::Reading::focus_node_at))]
fn read_focus_node(
    alloc: Global,
    reader: &mut Reader<'_>,
    arities: &Arities<'_>,
    bank: &mut Bank,
    at: u64,
    tag: u8,
) -> Result<ProofNode, ReadError>
    ensures kept { Extends bank.old bank.new }
    ensures inside { IfOk result (IsNodeInside bank.new) }
    ensures read { (b : Nodes) → Extends bank.new b → Gives (node_of b) result (left_of reader.new) (focus_node_at (counts_of arities.now) at tag (left_of reader.old)) }
{
    match tag {
        16 => {
            let term = read_term(alloc, reader, arities, bank)?;
            Ok(ProofNode::FocusConv(term))
        }
        17 => {
            let term = read_term(alloc, reader, arities, bank)?;
            Ok(ProofNode::FocusAll(term))
        }
        18 => {
            let side = read_side(reader)?;
            Ok(ProofNode::Take(side))
        }
        19 => Ok(ProofNode::Need),
        20 => Ok(ProofNode::Hit),
        _ => Err(Reader::bad(at)),
    }
}

#[tactic(auto, unfolding(crate::specs::Reading::node_at))]
fn read_node(
    alloc: Global,
    reader: &mut Reader<'_>,
    arities: &Arities<'_>,
    bank: &mut Bank,
    sort: Sort,
) -> Result<ProofNode, ReadError>
    ensures kept { Extends bank.old bank.new }
    ensures inside { IfOk result (IsNodeInside bank.new) }
    ensures read { (b : Nodes) → Extends bank.new b → Gives (node_of b) result (left_of reader.new) (node_at (counts_of arities.now) sort (left_of reader.old)) }
{
    let at = reader.at();
    let tag = reader.byte()?;
    match sort {
        Sort::Proof => read_goal_node(alloc, reader, arities, bank, at, tag),
        Sort::Focus => read_focus_node(alloc, reader, arities, bank, at, tag),
    }
}

// The nodes of a proof.
#[tactic(auto, unfolding(crate::specs::Reading::proof_at))]
pub(crate) fn read_proof(
    alloc: Global,
    reader: &mut Reader<'_>,
    arities: &Arities<'_>,
    bank: &mut Bank,
) -> Result<Vec<ProofNode>, ReadError>
    ensures kept { Extends bank.old bank.new }
    ensures inside { IfOk result (λ nodes. All (IsNodeInside bank.new) nodes.items) }
    ensures read { (b : Nodes) → Extends bank.new b → Gives (λ nodes. map (node_of b) nodes.items) result (left_of reader.new) (proof_at (counts_of arities.now) (left_of reader.old)) }
{
    let mut nodes = Vec::new(alloc);
    let mut sorts = Vec::new(alloc);
    sorts.push(Sort::Proof)?;
    let most = reader.len() as u64 + 1;
    for _ in 0..most {
        let Some(sort) = sorts.pop() else {
            return Ok(nodes);
        };
        let node = read_node(alloc, reader, arities, bank, sort)?;
        push_below(&node, &mut sorts)?;
        nodes.push(node)?;
    }
    Ok(nodes)
}

fn write_back(
    alloc: Global,
    writer: &mut Writer,
    bank: &Bank,
    clause: u32,
    types: &[TypeId],
) -> Result<(), Memory>
    ensures { OnOk result (text_of writer.new ≡ more (text_of writer.old) (spelled_node (back_to clause (types_in bank.now types.now)))) }
{
    writer.byte(10)?;
    writer.four(clause)?;
    writer.low_two(types.len() as u64)?;
    write_types(alloc, writer, bank, types)
}

// A byte and a term.
fn write_tagged(
    alloc: Global,
    writer: &mut Writer,
    bank: &Bank,
    tag: u8,
    term: TermId,
) -> Result<(), Memory>
    ensures { OnOk result (text_of writer.new ≡ more (text_of writer.old) (tag ∷ spelled_term (tree bank.now term.0))) }
{
    writer.byte(tag)?;
    write_term(alloc, writer, bank, term)
}

fn write_node(
    alloc: Global,
    writer: &mut Writer,
    bank: &Bank,
    node: &ProofNode,
) -> Result<(), Memory>
    ensures { OnOk result (text_of writer.new ≡ more (text_of writer.old) (spelled_node (node_of bank.now node.now))) }
{
    match node {
        ProofNode::Conv(term) => write_tagged(alloc, writer, bank, 0, *term),
        ProofNode::True => writer.byte(1),
        ProofNode::And => writer.byte(2),
        ProofNode::Left => writer.byte(3),
        ProofNode::Right => writer.byte(4),
        ProofNode::Some(term) => write_tagged(alloc, writer, bank, 5, *term),
        ProofNode::All => writer.byte(6),
        ProofNode::Assume => writer.byte(7),
        ProofNode::Equal => writer.byte(8),
        ProofNode::Arith => writer.byte(9),
        ProofNode::Back(clause, types) => {
            write_back(alloc, writer, bank, *clause, types.as_slice())
        }
        ProofNode::FocusConv(term) => write_tagged(alloc, writer, bank, 16, *term),
        ProofNode::FocusAll(term) => write_tagged(alloc, writer, bank, 17, *term),
        ProofNode::Take(side) => writer.put(&[18, *side]),
        ProofNode::Need => writer.byte(19),
        ProofNode::Hit => writer.byte(20),
    }
}

pub(crate) fn write_proof(
    alloc: Global,
    writer: &mut Writer,
    bank: &Bank,
    nodes: &[ProofNode],
) -> Result<(), Memory>
    ensures { OnOk result (text_of writer.new ≡ more (text_of writer.old) (flat_map spelled_node (map (node_of bank.now) nodes.now))) }
{
    for node in nodes {
        write_node(alloc, writer, bank, node)?;
    }
    Ok(())
}
