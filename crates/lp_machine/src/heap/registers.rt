// Registers, and the goal at hand.

use super::{Heap, UNSET};
use lp_base::Memory;
use lp_store::CellId;

// The cell at a place, or none.
pub(crate) fn at(cells: &Vec<CellId>, place: usize) -> CellId {
    match cells.get(place) {
        Some(cell) => *cell,
        None => UNSET,
    }
}

// What stands in a register of those from a place on.
pub(crate) fn register(registers: &Vec<CellId>, from: usize, number: u16) -> CellId {
    at(registers, from.saturating_add(usize::from(number)))
}

// Puts the cells of these registers in the place of others.
pub(crate) fn load(
    registers: &Vec<CellId>,
    from: usize,
    numbers: &[u16],
    out: &mut Vec<CellId>,
) -> Result<(), Memory> {
    out.clear();
    for number in numbers.iter().copied() {
        out.push(register(registers, from, number))?;
    }
    Ok(())
}

fn put_unset(registers: &mut Vec<CellId>, count: usize) -> Result<(), Memory> {
    for _ in 0..count {
        registers.push(UNSET)?;
    }
    Ok(())
}

fn put_again(registers: &mut Vec<CellId>, from: usize, count: u16) -> Result<(), Memory> {
    for number in 0..count {
        let cell = register(registers, from, number);
        registers.push(cell)?;
    }
    Ok(())
}

fn put_captured(registers: &mut Vec<CellId>, from: usize, numbers: &[u16]) -> Result<(), Memory> {
    for number in numbers.iter().copied() {
        let cell = register(registers, from, number);
        registers.push(cell)?;
    }
    Ok(())
}

impl Heap {
    /// How many registers there are.
    pub(crate) fn top(&self) -> usize {
        self.registers.len()
    }

    /// Gives back the registers from a place on.
    pub(crate) fn shrink(&mut self, top: usize) {
        self.registers.truncate(top);
    }

    /// What stands in a register of those from a place on.
    pub(crate) fn register(&self, from: usize, number: u16) -> CellId {
        register(&self.registers, from, number)
    }

    pub(crate) fn set(&mut self, from: usize, number: u16, cell: CellId) {
        if let Some(slot) = self
            .registers
            .get_mut(from.saturating_add(usize::from(number)))
        {
            *slot = cell;
        }
    }

    /// As many registers that are not set, behind the others.
    pub(crate) fn open(&mut self, count: usize) -> Result<(), Memory> {
        put_unset(&mut self.registers, count)
    }

    /// The registers from a place on once more, behind the others.
    pub(crate) fn open_as(&mut self, from: usize, count: u16) -> Result<(), Memory> {
        put_again(&mut self.registers, from, count)
    }

    /// The cells of these registers, behind the others.
    pub(crate) fn capture(&mut self, from: usize, numbers: &[u16]) -> Result<(), Memory> {
        put_captured(&mut self.registers, from, numbers)
    }

    /// The goal at hand has its types and arguments in these registers.
    pub(crate) fn load_goal(
        &mut self,
        from: usize,
        types: &[u16],
        registers: usize,
        arguments: &[u16],
    ) -> Result<(), Memory> {
        load(&self.registers, from, types, &mut self.types)?;
        load(&self.registers, registers, arguments, &mut self.arguments)
    }

    /// The type of a number of the goal at hand.
    pub(crate) fn type_argument(&self, number: u8) -> CellId {
        at(&self.types, usize::from(number))
    }

    /// The argument of a number of the goal at hand.
    pub(crate) fn argument(&self, number: u8) -> CellId {
        at(&self.arguments, usize::from(number))
    }

    /// Whether the goal at hand has no arguments.
    pub(crate) fn has_no_arguments(&self) -> bool {
        self.arguments.is_empty()
    }
}
