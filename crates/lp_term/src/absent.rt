//! Whether an index stands in a term. A term that is shared is looked through once for each number of abstractions that it stands under.
ghost use Rattle.std.specs.Prelude.{◌≡◌, ℕ, ◌+◌, ◌<◌, ◌^◌, length, List, ◌++◌, All, IfOk, OnOk, true, false};
ghost use Rattle.std.specs.List.{IsAmong};
ghost use Rattle.std.specs.HashMap.{values};
ghost use Rattle.lp_calculus.specs.Term.{apply};
ghost use Rattle.lp_calculus.specs.Normal.{is_absent as absent_in};
ghost use Rattle.lp_term.specs.Nodes.{Nodes, tree};
ghost use Rattle.lp_term.specs.Frame.{in_order};
ghost use Rattle.lp_term.specs.Absent.{IsBelow, IsSettled, AreParts, absent_at, places as places_of};

use crate::bank::Bank;
use crate::node::{TermId, TermNode};
use lp_base::Memory;
use std::alloc::Global;
use std::collections::HashMap;

/// A term below so many abstractions of the way.
#[derive(Clone, Copy, PartialEq, Eq, Hash)]
pub(crate) struct Below {
    id: TermId,
    depth: u64,
}

// The places that were looked into.
type Marks = HashMap<Below, Below>;

fn same_below(a: Below, b: Below) -> bool
    ensures { result ≡ true → a ≡ b }
{
    a.id.0 == b.id.0 && a.depth == b.depth
}

fn is_marked(marks: &Marks, place: Below) -> bool
    ensures { result ≡ true → IsAmong (values marks.now) place }
{
    match marks.get(&place) {
        Some(marked) => same_below(*marked, place),
        None => false,
    }
}

fn mark(marks: &mut Marks, place: Below) -> Result<(), Memory>
    ensures { OnOk result ((b : Nodes) (left : List Below) → All (IsSettled b left) (values marks.old) → IsSettled b left place → All (IsSettled b left) (values marks.new)) }
{
    marks.insert(place, place)?;
    Ok(())
}

fn push_all(left: &mut Vec<Below>, ids: &[TermId], depth: u64) -> Result<(), Memory>
    ensures { OnOk result (left.new.items ≡ left.old.items ++ places_of depth ids.now) }
{
    for id in ids {
        left.push(Below { id: *id, depth })?;
    }
    Ok(())
}

// Puts the parts of the place among those that are left, or tells that the place is the index itself.
fn look_into(bank: &Bank, left: &mut Vec<Below>, place: Below) -> Result<bool, Memory>
    requires { IsBelow bank.now place }
    ensures found { IfOk result (λ on. on ≡ false → absent_at bank.now place ≡ false) }
    ensures parts { IfOk result (λ on. on ≡ true → (parts : List Below) × (left.new.items ≡ left.old.items ++ parts) × AreParts bank.now place parts) }
{
    match bank.term_node(place.id) {
        TermNode::Index(at) => Ok(at != place.depth),
        TermNode::Abs(body) => {
            left.push(Below {
                id: body,
                depth: place.depth + 1,
            })?;
            Ok(true)
        }
        TermNode::App(head, args) => {
            left.push(Below {
                id: head,
                depth: place.depth,
            })?;
            push_all(left, args, place.depth)?;
            Ok(true)
        }
        _ => Ok(true),
    }
}

/// Whether index 0 is not in the head on the arguments.
pub(crate) fn is_absent(
    alloc: Global,
    bank: &Bank,
    head: TermId,
    args: &[TermId],
) -> Result<bool, Memory>
    requires head { head.0 < length bank.now.terms }
    requires args { All (λ t. t.0 < length bank.now.terms) args.now }
    ensures { IfOk result (λ yes. yes ≡ absent_in 0 (apply (tree bank.now head.0) (in_order bank.now args.now))) }
{
    let _count = bank.term_count();
    let mut marks: Marks = HashMap::new(alloc);
    let mut left = Vec::new(alloc);
    left.push(Below { id: head, depth: 0 })?;
    push_all(&mut left, args, 0)?;
    'places: while let Some(place) = left.pop() {
        if bank.is_known_below(place.id, place.depth) {
            continue;
        }
        if is_marked(&marks, place) {
            continue;
        }
        if !look_into(bank, &mut left, place)? {
            return Ok(false);
        }
        mark(&mut marks, place)?;
    }
    Ok(true)
}
