// Blocks of goals: `sigma`, `pi`, `=>` and `;`.

use crate::outcome::Turn;
use crate::search::Search;
use lp_base::Memory;
use lp_choice::Untried;
use lp_code::RecordHead;
use lp_impl::{Assumed, Head};
use lp_model::Ending;

impl<'i> Search<'i> {
    /// A new variable, for the rest of its block.
    pub(crate) fn open_variable(&mut self, made: u16) -> Result<Turn, Memory> {
        if !self.counts.take_apart() {
            return Ok(Turn::Ended(Ending::Deep));
        }
        let variable = self.heap.put_variable(self.work.level)?;
        self.set_term(made, variable);
        Ok(Turn::On)
    }

    /// A block one level up, under the eigenconstant of that level.
    pub(crate) fn open_level(&mut self, made: u16) -> Result<Turn, Memory> {
        if !self.counts.take_apart() {
            return Ok(Turn::Ended(Ending::Deep));
        }
        self.work.level = self.work.level.saturating_add(1);
        let eigen = self.heap.put_eigen(self.work.level)?;
        self.set_term(made, eigen);
        Ok(Turn::On)
    }

    /// The end of such a block.
    pub(crate) fn close_level(&mut self) {
        self.work.level = self.work.level.saturating_sub(1);
    }

    // The predicate of an assumed record whose captured registers begin at a place.
    fn assumed_head(&mut self, number: u32, block: usize) -> Result<Option<Head>, Memory> {
        let Some(record) = self.program.record(number) else {
            return Ok(None);
        };
        match record.head {
            None => Ok(None),
            Some(RecordHead::Const(constant)) => Ok(Some(Head::Const(constant))),
            Some(RecordHead::Register(at)) => {
                let first = block.saturating_add(usize::from(record.captured_types));
                let cell = self.heap.register(first, at);
                let level = self.heap.look_at_eigen(cell)?;
                Ok(level.map(Head::Eigen))
            }
        }
    }

    // The clauses of these records, with their predicates.
    fn put_assumed(
        &mut self,
        records: &[u32],
        block: usize,
        clauses: &mut Vec<Assumed>,
    ) -> Result<(), Memory> {
        for named in records.iter().copied() {
            let clause = self.program.number_in(named, self.work.record);
            if let Some(head) = self.assumed_head(clause, block)? {
                clauses.push(Assumed { head, clause })?;
            }
        }
        Ok(())
    }

    /// A block under the clauses of these records, which start with these types and terms.
    pub(crate) fn open_assumption(
        &mut self,
        records: &[u32],
        types: &[u16],
        terms: &[u16],
    ) -> Result<Turn, Memory> {
        if !self.counts.take_apart() {
            return Ok(Turn::Ended(Ending::Deep));
        }
        let block = self.heap.top();
        let work = self.work;
        self.heap.capture(work.from, types)?;
        self.heap.capture(work.registers, terms)?;
        let mut clauses = Vec::new(self.alloc);
        self.put_assumed(records, block, &mut clauses)?;
        self.heap.assume(clauses.as_slice(), block)?;
        Ok(Turn::On)
    }

    /// The end of such a block.
    pub(crate) fn close_assumption(&mut self) {
        self.heap.leave();
    }

    /// Two blocks of which one holds: the left one first, the right one a choice point.
    pub(crate) fn open_either(&mut self, place: usize) -> Result<Turn, Memory> {
        if !self.counts.take_apart() {
            return Ok(Turn::Ended(Ending::Deep));
        }
        let right = self.layout.target(self.work.record, place);
        let todo = self.rest_from(right);
        let frame = self.put_frame(todo, self.work.behind, self.work.level)?;
        let at = u32::try_from(right).unwrap_or(u32::MAX);
        self.put_choice(Untried::Code(self.work.record, at), frame)?;
        Ok(Turn::On)
    }
}
