// Types and terms that are built.
#![tactic(auto, using(crate::proofs::Marks::marks_kept, crate::proofs::Marks::goes_kept))]

use super::Heap;
use super::registers::load;
use super::tested::{applied, known, known_type, listed};
use lp_base::Memory;
use lp_impl::Head;
use lp_store::{Cell, CellId};

// The cells in the place of others.
fn copy(cells: &Vec<CellId>, out: &mut Vec<CellId>) -> Result<(), Memory> {
    out.clear();
    out.extend_from_slice(cells)?;
    Ok(())
}

impl Heap {
    pub(crate) fn put_type_variable(&mut self) -> Result<CellId, Memory> {
        let id = self.store.push(Cell::TypeVar)?;
        Ok(id)
    }

    /// A kind on the types in registers.
    pub(crate) fn put_constructor(
        &mut self,
        kind: u32,
        from: usize,
        types: &[u16],
    ) -> Result<CellId, Memory> {
        load(&self.registers, from, types, &mut self.gathered)?;
        let list = listed(&mut self.store, &mut self.gathered)?;
        let id = self.store.push(Cell::TypeCon(kind, list))?;
        Ok(id)
    }

    pub(crate) fn put_arrow(&mut self, from: CellId, to: CellId) -> Result<CellId, Memory> {
        let left = known_type(&mut self.store, from)?;
        let right = known_type(&mut self.store, to)?;
        let id = self.store.push(Cell::TypeArrow(left, right))?;
        Ok(id)
    }

    /// A logic variable of a level.
    pub(crate) fn put_variable(&mut self, level: u64) -> Result<CellId, Memory> {
        let id = self.store.push(Cell::Logic(level))?;
        Ok(id)
    }

    pub(crate) fn put_eigen(&mut self, level: u64) -> Result<CellId, Memory> {
        let id = self.store.push(Cell::Eigen(level))?;
        Ok(id)
    }

    /// A constant with the types in registers.
    pub(crate) fn put_constant(
        &mut self,
        constant: u32,
        from: usize,
        types: &[u16],
    ) -> Result<CellId, Memory> {
        load(&self.registers, from, types, &mut self.gathered)?;
        let list = listed(&mut self.store, &mut self.gathered)?;
        let id = self.store.push(Cell::Const(constant, list))?;
        Ok(id)
    }

    pub(crate) fn put_integer(&mut self, integer: i64) -> Result<CellId, Memory> {
        let id = self.store.push(Cell::Int(integer))?;
        Ok(id)
    }

    pub(crate) fn put_text(&mut self, text: &[u8]) -> Result<CellId, Memory> {
        let bytes = self.store.text(text)?;
        let id = self.store.push(Cell::Text(bytes))?;
        Ok(id)
    }

    pub(crate) fn put_index(&mut self, index: u16) -> Result<CellId, Memory> {
        let id = self.store.push(Cell::Index(u64::from(index)))?;
        Ok(id)
    }

    pub(crate) fn put_abstraction(&mut self, body: CellId) -> Result<CellId, Memory> {
        let inside = known(&mut self.store, body)?;
        let id = self.store.push(Cell::Abs(inside))?;
        Ok(id)
    }

    /// A term on the terms in registers.
    pub(crate) fn put_application(
        &mut self,
        head: CellId,
        from: usize,
        arguments: &[u16],
    ) -> Result<CellId, Memory> {
        let top = known(&mut self.store, head)?;
        load(&self.registers, from, arguments, &mut self.gathered)?;
        let list = listed(&mut self.store, &mut self.gathered)?;
        let id = applied(&mut self.store, top, list)?;
        Ok(id)
    }

    /// A term on a cell.
    pub(crate) fn put_applied(&mut self, term: CellId, argument: CellId) -> Result<CellId, Memory> {
        let top = known(&mut self.store, term)?;
        self.gathered.clear();
        self.gathered.push(argument)?;
        let list = listed(&mut self.store, &mut self.gathered)?;
        let id = applied(&mut self.store, top, list)?;
        Ok(id)
    }

    // The predicate of the goal at hand.
    fn put_head(&mut self, head: Head) -> Result<CellId, Memory> {
        match head {
            Head::Eigen(level) => self.put_eigen(level),
            Head::Const(constant) => {
                copy(&self.types, &mut self.gathered)?;
                let list = listed(&mut self.store, &mut self.gathered)?;
                let id = self.store.push(Cell::Const(constant, list))?;
                Ok(id)
            }
        }
    }

    /// The goal at hand, whose predicate this is, as a term.
    pub(crate) fn put_goal(&mut self, head: Head) -> Result<CellId, Memory> {
        let top = self.put_head(head)?;
        let there = known(&mut self.store, top)?;
        copy(&self.arguments, &mut self.gathered)?;
        let list = listed(&mut self.store, &mut self.gathered)?;
        let id = applied(&mut self.store, there, list)?;
        Ok(id)
    }
}
