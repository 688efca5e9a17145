// Negated goals: a search of its own that stands above a choice point of its kind.

use crate::heap::Heap;
use crate::name::tell_standard;
use crate::outcome::Turn;
use crate::search::{Negation, Search};
use lp_base::Memory;
use lp_choice::Untried;
use lp_code::Standing;
use lp_impl::Cursor;
use lp_model::Ending;
use lp_standard::Constant;
use lp_term::{Bank, TermId, TermNode, TypeId, TypeNode};
use lp_watch::{Crowd, Watch};
use std::alloc::Global;

// Whether a logic variable stands among the terms of the bank, or a type variable among its types.
fn has_variable(bank: &Bank) -> bool {
    for number in 0..bank.type_count() {
        if let TypeNode::Var(_) = bank.type_node(TypeId(number)) {
            return true;
        }
    }
    for number in 0..bank.term_count() {
        if let TermNode::Logic { .. } = bank.term_node(TermId(number)) {
            return true;
        }
    }
    false
}

// Looks at the types in these registers.
fn look_at_types(heap: &Heap, from: usize, numbers: &[u16]) -> Result<Option<Ending>, Memory> {
    for number in numbers.iter().copied() {
        let of = heap.register(from, number);
        match heap.is_open_type(of)? {
            Some(false) => continue,
            Some(true) => return Ok(Some(Ending::OpenNot)),
            None => return Ok(Some(Ending::Deep)),
        }
    }
    Ok(None)
}

// Looks at the terms in these registers.
fn look_at_terms(
    alloc: Global,
    heap: &mut Heap,
    from: usize,
    numbers: &[u16],
) -> Result<Option<Ending>, Memory> {
    for number in numbers.iter().copied() {
        let term = heap.register(from, number);
        let mut bank = Bank::new(alloc);
        if let Err(ending) = heap.read_back(term, &mut bank)? {
            return Ok(Some(ending));
        }
        if has_variable(&bank) {
            return Ok(Some(Ending::OpenNot));
        }
    }
    Ok(None)
}

// Looks at what stands somewhere, whose type registers begin at a place, and its registers at another.
fn look_at(
    alloc: Global,
    heap: &mut Heap,
    standing: &Standing,
    types: usize,
    registers: usize,
) -> Result<Option<Ending>, Memory> {
    if let Some(ending) = look_at_types(heap, types, standing.types.as_slice())? {
        return Ok(Some(ending));
    }
    look_at_terms(alloc, heap, registers, standing.registers.as_slice())
}

impl<'i> Search<'i> {
    // How the search ends where an assumption of the goal does not let its negation begin.
    fn look_at_assumptions(&mut self) -> Result<Option<Ending>, Memory> {
        let mut cursor = Cursor::first();
        for _ in 0..u64::MAX {
            let Some(found) = self.heap.next_assumed(cursor) else {
                return Ok(None);
            };
            cursor = found.next;
            let Some(record) = self.program.record(found.clause) else {
                continue;
            };
            let Some(standing) = self.layout.assumed(found.clause) else {
                continue;
            };
            let registers = found
                .frame
                .saturating_add(usize::from(record.captured_types));
            let looked = look_at(self.alloc, &mut self.heap, standing, found.frame, registers)?;
            if let Some(ending) = looked {
                return Ok(Some(ending));
            }
        }
        Ok(None)
    }

    // How the search ends where a value does not let the negated block begin whose first instruction stands at a place.
    fn look_at_block(&mut self, place: usize) -> Result<Option<Ending>, Memory> {
        let work = self.work;
        if let Some(standing) = self.layout.block(work.record, place) {
            let looked = look_at(
                self.alloc,
                &mut self.heap,
                standing,
                work.from,
                work.registers,
            )?;
            if let Some(ending) = looked {
                return Ok(Some(ending));
            }
        }
        self.look_at_assumptions()
    }

    // Begins the search of the negated block whose first instruction stands at a place.
    fn begin_negation(&mut self, place: usize) -> Result<(), Memory> {
        let behind = self
            .layout
            .target(self.work.record, place.saturating_sub(1));
        let todo = self.rest_from(behind);
        let frame = self.put_frame(todo, self.work.behind, self.work.level)?;
        let at = u32::try_from(behind).unwrap_or(u32::MAX);
        self.put_choice(Untried::Not(self.work.record, at), frame)?;
        self.heap.hide_waiting()?;
        let height = self.heap.height();
        self.negations.push(Negation {
            height,
            lost: self.counts.lost,
        })?;
        self.counts.lost = false;
        self.work.mark = height;
        Ok(())
    }

    /// Takes a negated block whose first instruction is the next one: one step.
    pub(crate) fn take_negation<W: Watch>(
        &mut self,
        crowd: &mut Crowd<'_, W>,
    ) -> Result<Turn, Memory> {
        if !self.counts.take_step() {
            return Ok(Turn::Ended(Ending::Steps));
        }
        tell_standard(crowd, Constant::Not)?;
        let place = self.work.place;
        if let Some(ending) = self.look_at_block(place)? {
            return Ok(Turn::Ended(ending));
        }
        self.begin_negation(place)?;
        Ok(Turn::On)
    }

    // What was lost is what the search around a negation lost, again. Whether one was lost in it.
    pub(crate) fn end_negation(&mut self) -> bool {
        let lost = self.counts.lost;
        if let Some(negation) = self.negations.pop() {
            self.counts.lost = negation.lost;
        }
        lost
    }

    /// The search of a negated goal has an answer: the goal holds, so that the branch around it fails.
    pub(crate) fn hold(&mut self) -> Turn {
        if !self.heap.waiting().is_empty() {
            return Turn::Ended(Ending::OpenNot);
        }
        let height = match self.negations.as_slice().last() {
            Some(negation) => negation.height.saturating_sub(1),
            None => self.heap.height(),
        };
        let _removed = self.cut(height);
        let _lost = self.end_negation();
        Turn::Back
    }
}
