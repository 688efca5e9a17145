// One try of a clause for a goal.

use crate::candidates::Clause;
use crate::frame::Work;
use crate::search::Search;
use lp_base::Memory;
use lp_code::Record;

impl<'i> Search<'i> {
    // The registers of a record, behind the others; those with which an assumed one starts stand from a place on.
    fn open_registers(&mut self, record: &Record, captured: Option<usize>) -> Result<(), Memory> {
        let Some(block) = captured else {
            self.heap.open(usize::from(record.types))?;
            return self.heap.open(usize::from(record.registers));
        };
        let types = record.types.saturating_sub(record.captured_types);
        let registers = record.registers.saturating_sub(record.captured);
        let second = block.saturating_add(usize::from(record.captured_types));
        self.heap.open_as(block, record.captured_types)?;
        self.heap.open(usize::from(types))?;
        self.heap.open_as(second, record.captured)?;
        self.heap.open(usize::from(registers))
    }

    /// Begins with a clause for the goal; a cut in it keeps the oldest `mark` choice points. Its instructions match the goal's types and arguments first.
    pub(crate) fn attempt(
        &mut self,
        clause: Clause,
        behind: Option<usize>,
        mark: usize,
    ) -> Result<(), Memory> {
        let Some(record) = self.program.record(clause.record) else {
            return Ok(());
        };
        let from = self.heap.top();
        self.open_registers(record, clause.captured)?;
        self.work = Work {
            code: record.code.as_slice(),
            record: clause.record,
            place: 0,
            from,
            registers: from.saturating_add(usize::from(record.types)),
            behind,
            mark,
            level: self.work.level,
        };
        self.heap.begin_round();
        Ok(())
    }

    /// Begins with the query, which is the first record behind those of the image.
    pub(crate) fn begin_query(&mut self) -> Result<(), Memory> {
        let clause = Clause {
            record: self.program.clause_count(),
            captured: None,
        };
        self.attempt(clause, None, 0)
    }
}
