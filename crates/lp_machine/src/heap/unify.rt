// Unification.
#![tactic(auto, using(crate::proofs::Marks::marks_kept, crate::proofs::Marks::goes_kept))]

use super::Heap;
use super::tested::{known, known_type};
use crate::outcome::{Turn, unified};
use lp_base::{Memory, RUN_LIMIT};
use lp_store::CellId;
use lp_unify::{Round, unify, unify_types, wake_delayed};

impl Heap {
    /// Begins a unification.
    pub(crate) fn begin_round(&mut self) {
        self.round = Round::start(RUN_LIMIT);
    }

    /// Makes two terms one, as a part of the unification at work.
    pub(crate) fn pair(&mut self, left: CellId, right: CellId, level: u64) -> Result<Turn, Memory> {
        let one = known(&mut self.store, left)?;
        let other = known(&mut self.store, right)?;
        let outcome = unify(
            self.alloc,
            &mut self.store,
            &mut self.delayed,
            &mut self.round,
            one,
            other,
            level,
        );
        unified(outcome)
    }

    /// Makes two types one, as a part of the unification at work.
    pub(crate) fn pair_types(&mut self, left: CellId, right: CellId) -> Result<Turn, Memory> {
        let one = known_type(&mut self.store, left)?;
        let other = known_type(&mut self.store, right)?;
        let outcome = unify_types(self.alloc, &mut self.store, &mut self.round, one, other);
        unified(outcome)
    }

    /// Ends the unification at work: the pairs that wait are taken up where a variable was bound.
    pub(crate) fn wake(&mut self) -> Result<Turn, Memory> {
        let outcome = wake_delayed(
            self.alloc,
            &mut self.store,
            &mut self.delayed,
            &mut self.round,
        );
        unified(outcome)
    }

    /// Makes two terms one: a unification of its own.
    pub(crate) fn equate(
        &mut self,
        left: CellId,
        right: CellId,
        level: u64,
    ) -> Result<Turn, Memory> {
        self.begin_round();
        match self.pair(left, right, level)? {
            Turn::On => self.wake(),
            turn => Ok(turn),
        }
    }
}
