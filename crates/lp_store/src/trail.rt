// The trail: what bound and overwritten cells were.
ghost use Rattle.std.specs.Prelude.{◌≡◌, ◌++◌, ◌∷◌, [], length, OnOk, OnErr, MatchOption};
ghost use Rattle.lp_store.specs.Slots.{change_of};

use crate::slot::Slot;
use lp_base::Memory;
use std::alloc::Global;
use std::marker::Model;

/// The old content of a cell.
#[derive(Clone, Copy)]
pub(crate) struct Kept {
    pub(crate) at: usize,
    pub(crate) was: Slot,
}

/// Old contents, the newest last.
#[derive(Drop)]
pub(crate) struct Trail {
    kept: Vec<Kept>,
}

impl Model for Trail {
    ghost use Rattle.std.specs.Prelude.{List};
    ghost use Rattle.lp_store.specs.declared.cell.Change.{Change};
    ghost use Rattle.lp_store.specs.Slots.{changes_of};

    ghost Value = { List Change };

    ghost view = { λ t. changes_of t.kept.items };
}

impl Trail {
    pub(crate) fn new(alloc: Global) -> Trail
        ensures { result ≡ [] }
    {
        Trail {
            kept: Vec::new(alloc),
        }
    }

    pub(crate) fn len(&self) -> usize
        ensures { result ≡ length self.now }
    {
        self.kept.len()
    }

    pub(crate) fn push(&mut self, kept: Kept) -> Result<(), Memory>
        ensures pushed { OnOk result (self.new ≡ self.old ++ change_of kept ∷ []) }
        ensures unchanged { OnErr result (self.new ≡ self.old) }
    {
        self.kept.push(kept)?;
        Ok(())
    }

    pub(crate) fn pop(&mut self) -> Option<Kept>
        ensures { MatchOption result ((self.old ≡ []) × (self.new ≡ [])) (λ kept. self.old ≡ self.new ++ change_of kept ∷ []) }
    {
        self.kept.pop()
    }
}
