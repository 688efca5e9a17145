// Choice points, and what they keep.
#![tactic(auto, using(crate::proofs::Marks::marks_kept, crate::proofs::Marks::goes_kept))]

ghost use Rattle.std.specs.Prelude.{◌≡◌, [], MatchOption, OnOk};
ghost use Rattle.lp_choice.specs.declared.point.ChoicePoint.{ChoicePoint};
ghost use Rattle.lp_machine.specs.Kept.{IsGoneBack, IsKeptAs};

use super::Heap;
use lp_base::Memory;
use lp_choice::{ChoicePoint, Untried};
use lp_impl::{Assumed, Candidate, Cursor, Head};
use lp_unify::Waiting;

impl Heap {
    /// How many choice points there are.
    pub(crate) fn height(&self) -> usize {
        self.choices.height()
    }

    /// The newest choice point, which stays.
    pub(crate) fn newest_choice(&self) -> Option<ChoicePoint> {
        self.choices.newest()
    }

    /// Keeps a choice point of the branch as it stands.
    pub(crate) fn put_choice(
        &mut self,
        level: u64,
        goals: usize,
        untried: Untried,
    ) -> Result<(), Memory>
        ensures kept { OnOk result ((p : ChoicePoint) × IsKeptAs self.old self.new level goals untried p) }
    {
        let point = ChoicePoint {
            store: self.store.mark(),
            delayed: self.delayed.mark(),
            assumed: self.assumptions.point(),
            level,
            goals,
            untried,
        };
        self.choices.push(point)
    }

    /// Takes off the newest choice point, and goes back to the store, the pairs that wait and the assumptions that it keeps.
    pub(crate) fn take_choice(&mut self) -> Option<ChoicePoint>
        ensures back { MatchOption result (self.old.choices ≡ []) (IsGoneBack self.old self.new) }
    {
        let Some(point) = self.choices.retry() else {
            return None;
        };
        self.store.undo(point.store);
        self.delayed.undo(point.delayed);
        self.assumptions.restore(point.assumed);
        Some(point)
    }

    /// Keeps the oldest choice points. Whether any was removed.
    pub(crate) fn cut(&mut self, height: usize) -> bool {
        self.choices.cut(height)
    }

    /// The pairs that wait, oldest first.
    pub(crate) fn waiting(&self) -> &[Waiting] {
        self.delayed.pairs()
    }

    /// No pair waits from here on, until a choice point before is gone back to.
    pub(crate) fn hide_waiting(&mut self) -> Result<(), Memory> {
        self.delayed.hide()
    }

    /// Assumes clauses whose captured registers begin at a place.
    pub(crate) fn assume(&mut self, clauses: &[Assumed], block: usize) -> Result<(), Memory> {
        self.assumptions.assume(clauses, block)
    }

    /// Leaves the newest assumption.
    pub(crate) fn leave(&mut self) {
        self.assumptions.leave();
    }

    /// The next assumed clause of a predicate behind a place.
    pub(crate) fn candidate(&self, head: Head, after: Cursor) -> Option<Candidate> {
        self.assumptions.candidates(head, after)
    }

    /// The next assumed clause behind a place.
    pub(crate) fn next_assumed(&self, after: Cursor) -> Option<Candidate> {
        self.assumptions.next_clause(after)
    }
}
