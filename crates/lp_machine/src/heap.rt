// The heap: a store with registers, and all that is gone back from at a choice point. What is no cell of the store, as nothing in code that is verified is, reads as
// a cell of its own.

// Types and terms that are built.
mod build;
// Choice points, and what they keep.
mod choice;
// Arguments that heads are matched against.
mod matched;
// Terms as goals, keys, values and answers.
mod look;
// Registers, and the goal at hand.
mod registers;
// How many nodes terms have.
mod sizes;
// Heads that are seen at a glance.
mod rigid;
// Cells that stand in the store.
mod tested;
// Unification.
mod unify;

pub(crate) use look::Goal;
use lp_base::RUN_LIMIT;
use lp_choice::Choices;
use lp_impl::Assumptions;
use lp_store::{CellId, Store};
use lp_unify::{Delayed, Round};
use matched::Matched;
pub(crate) use matched::{Looked, Wanted};
pub(crate) use rigid::Rigid;
pub(crate) use sizes::Nodes;
use sizes::Sizes;
use std::alloc::Global;
use std::marker::Model;

/// What stands in a register that is not set.
pub(crate) const UNSET: CellId = CellId(usize::MAX);

/// The store and its choice points, the pairs that wait, the assumptions, the unification at work, the registers of all frames, the types and the arguments of
/// the goal at hand, and cells that are put together for a list.
#[derive(Drop)]
pub(crate) struct Heap {
    alloc: Global,
    store: Store,
    choices: Choices,
    delayed: Delayed,
    assumptions: Assumptions,
    round: Round,
    registers: Vec<CellId>,
    types: Vec<CellId>,
    arguments: Vec<CellId>,
    gathered: Vec<CellId>,
    sizes: Sizes,
    // The types and the arguments of the goal's argument that a head is matched against.
    matched: Matched,
}

impl Model for Heap {
    ghost use Rattle.lp_machine.specs.Kept.{Held};

    ghost Value = { Held };

    ghost view = { λ h. record { store = h.store; choices = h.choices; delayed = h.delayed; assumptions = h.assumptions } };

    ghost use Rattle.lp_machine.specs.Kept.{AreMarks};

    ghost invariant = { λ h. AreMarks h.store h.choices };
}

impl Heap {
    pub(crate) fn new(alloc: Global) -> Heap {
        Heap {
            alloc,
            store: Store::new(alloc),
            choices: Choices::new(alloc),
            delayed: Delayed::new(alloc),
            assumptions: Assumptions::new(alloc),
            round: Round::start(RUN_LIMIT),
            registers: Vec::new(alloc),
            types: Vec::new(alloc),
            arguments: Vec::new(alloc),
            gathered: Vec::new(alloc),
            sizes: Sizes::new(alloc),
            matched: Matched::new(alloc),
        }
    }

    pub(crate) fn store(&self) -> &Store {
        &self.store
    }

    pub(crate) fn choices(&self) -> &Choices {
        &self.choices
    }
}
