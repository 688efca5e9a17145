//! What becomes of the indices of a term on the way through it, and what has been made so far.
ghost use Rattle.std.specs.Prelude.{◌≡◌, ℕ, ◌<◌, length, List, All, IfOk, IfSome, OnOk, true};
ghost use Rattle.std.specs.List.{IsAmong};
ghost use Rattle.std.specs.HashMap.{values};
ghost use Rattle.lp_term.specs.Nodes.{Nodes};
ghost use Rattle.lp_term.specs.Change.{IsKnown};

use crate::node::TermId;
use lp_base::Memory;
use std::collections::HashMap;

#[derive(Clone, Copy, PartialEq, Eq, Hash)]
pub(crate) enum Change {
    /// The free indices are raised by so much.
    Raise(u64),
    /// The values that are given stand for the first free indices, and the other ones are lower by as many.
    Put,
}

/// A term below so many abstractions of the way, and what becomes of its free indices.
#[derive(Clone, Copy, PartialEq, Eq, Hash)]
pub(crate) struct Place {
    pub(crate) id: TermId,
    pub(crate) depth: u64,
    pub(crate) change: Change,
}

/// What a place has become.
#[derive(Clone, Copy)]
pub(crate) struct Known {
    place: Place,
    made: TermId,
}

/// What has been made on the way, so that a term that is shared is gone through once.
pub(crate) type Memo = HashMap<Place, Known>;

fn same_change(a: Change, b: Change) -> bool
    ensures { result ≡ true → a ≡ b }
{
    match (a, b) {
        (Change::Raise(x), Change::Raise(y)) => x == y,
        (Change::Put, Change::Put) => true,
        _ => false,
    }
}

fn same_place(a: Place, b: Place) -> bool
    ensures { result ≡ true → a ≡ b }
{
    a.id.0 == b.id.0 && a.depth == b.depth && same_change(a.change, b.change)
}

/// What the place has become, if that was kept.
pub(crate) fn recall(memo: &Memo, place: Place) -> Option<TermId>
    ensures { IfSome result (λ made. IsAmong (values memo.now) (record { place = place; made = made })) }
{
    match memo.get(&place) {
        Some(known) if same_place(known.place, place) => Some(known.made),
        _ => None,
    }
}

/// Keeps what the place has become.
pub(crate) fn remember(memo: &mut Memo, place: Place, made: TermId) -> Result<(), Memory>
    ensures { OnOk result ((vs : List TermId) (b : Nodes) → All (IsKnown vs b) (values memo.old) → IsKnown vs b (record { place = place; made = made }) → All (IsKnown vs b) (values memo.new)) }
{
    memo.insert(place, Known { place, made })?;
    Ok(())
}
