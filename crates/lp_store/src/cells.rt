// The cells of a store.
ghost use Rattle.std.specs.Prelude.{◌≡◌, ◌<◌, ◌≤◌, ◌++◌, ◌∷◌, [], length, take, set, get_or, OnOk, OnErr};
ghost use Rattle.lp_store.specs.Slots.{cell_of};

use crate::cell::Cell;
use crate::slot::{Slot, cell_of, slot_of};
use lp_base::Memory;
use std::alloc::Global;
use std::marker::Model;

/// Cells, each in 24 bytes.
#[derive(Drop)]
pub(crate) struct Cells {
    slots: Vec<Slot>,
}

impl Model for Cells {
    ghost use Rattle.std.specs.Prelude.{List};
    ghost use Rattle.lp_store.specs.declared.cell.Cell.{Cell};
    ghost use Rattle.lp_store.specs.Slots.{cells_of};

    ghost Value = { List Cell };

    ghost view = { λ s. cells_of s.slots.items };
}

impl Cells {
    pub(crate) fn new(alloc: Global) -> Cells
        ensures { result ≡ [] }
    {
        Cells {
            slots: Vec::new(alloc),
        }
    }

    pub(crate) fn len(&self) -> usize
        ensures { result ≡ length self.now }
    {
        self.slots.len()
    }

    pub(crate) fn push(&mut self, cell: Cell) -> Result<(), Memory>
        ensures pushed { OnOk result (self.new ≡ self.old ++ cell ∷ []) }
        ensures unchanged { OnErr result (self.new ≡ self.old) }
    {
        let slot = slot_of(cell)?;
        self.slots.push(slot)?;
        Ok(())
    }

    pub(crate) fn get(&self, at: usize) -> Cell
        requires { at < length self.now }
        ensures { result ≡ get_or self.now at result }
    {
        cell_of(self.slots[at])
    }

    pub(crate) fn slot(&self, at: usize) -> Slot
        requires { at < length self.now }
        ensures { cell_of result ≡ get_or self.now at (cell_of result) }
    {
        self.slots[at]
    }

    pub(crate) fn put(&mut self, at: usize, slot: Slot)
        requires { at < length self.old }
        ensures { self.new ≡ set self.old at (cell_of slot) }
    {
        self.slots[at] = slot;
    }

    pub(crate) fn truncate(&mut self, len: usize)
        ensures { self.new ≡ take len self.old }
    {
        self.slots.truncate(len);
    }
}
