// Heads that are seen without a reduction.

use super::Heap;
use super::sizes::followed;
use lp_store::{Cell, CellId};

/// The head of a rigid term. Where two differ, the terms have no unifier.
#[derive(Clone, Copy, PartialEq, Eq)]
pub(crate) enum Rigid {
    Const(u32),
    Int(i64),
    Eigen(u64),
}

fn rigid_of(cell: Cell) -> Option<Rigid> {
    match cell {
        Cell::Const(constant, _) => Some(Rigid::Const(constant)),
        Cell::Int(integer) => Some(Rigid::Int(integer)),
        Cell::Eigen(level) => Some(Rigid::Eigen(level)),
        _ => None,
    }
}

impl Heap {
    /// The head of a term, where it is rigid and needs no reduction to be seen.
    pub(crate) fn rigid_head(&self, term: CellId) -> Option<Rigid> {
        let (_, found) = followed(&self.store, term)?;
        match found {
            Cell::App(head, _) => {
                let (_, top) = followed(&self.store, head)?;
                rigid_of(top)
            }
            other => rigid_of(other),
        }
    }
}
