// Goals in the making.
ghost use Rattle.std.specs.Prelude.{◌≡◌, ℕ, suc, ◌-◌, length, [], ◌∷◌, ◌++◌, IfOk, reverse};
ghost use Rattle.lp_term.specs.Nodes.{Nodes};
ghost use Rattle.lp_model.specs.Flat.{Goals};
ghost use Rattle.lp_model.specs.Flattened.{goals_of};
ghost use Rattle.lp_normal.specs.Counted.{count_in_goals};
ghost use Rattle.lp_normal.specs.inner.Met.{list_met};
ghost use Rattle.lp_normal.specs.Within.{AreGoalsIn, IsGoalListIn};
ghost use Rattle.lp_normal.specs.Making.{Reads, Closes};

use lp_base::Memory;
use lp_model::Goal;
use lp_term::{TermId, TypeId};
use std::alloc::Global;

/// A formula that waits, and how many variables of its list were bound where it was met: each one that was bound since raises its indices.
#[derive(Clone, Copy)]
pub(crate) struct Waiting {
    pub(crate) formula: TermId,
    pub(crate) level: u64,
}

/// A `sigma` whose scope is the rest of its list, with the goals before it.
#[derive(Drop)]
pub(crate) struct Opened {
    pub(crate) bound: TypeId,
    pub(crate) before: Vec<Goal>,
}

/// A list of goals in the making: the sigmas that are open, the goals so far in the innermost one, the formulas that wait, the next one last, and how
/// many variables are bound.
#[derive(Drop)]
pub(crate) struct GoalList {
    pub(crate) opened: Vec<Opened>,
    pub(crate) done: Vec<Goal>,
    pub(crate) waiting: Vec<Waiting>,
    pub(crate) level: u64,
}

impl GoalList {
    /// The list of formulas that wait, the first one last.
    pub(crate) fn of_all(alloc: Global, waiting: Vec<Waiting>, level: u64) -> GoalList
        ensures opened { result.opened.items ≡ [] }
        ensures done { result.done.items ≡ [] }
        ensures waiting { result.waiting ≡ waiting }
        ensures level { result.level ≡ level }
    {
        GoalList {
            opened: Vec::new(alloc),
            done: Vec::new(alloc),
            waiting,
            level,
        }
    }

    /// The list of one formula, which waits from a level up to this one.
    pub(crate) fn of(alloc: Global, first: Waiting, level: u64) -> Result<GoalList, Memory>
        ensures opened { IfOk result (λ l. l.opened.items ≡ []) }
        ensures done { IfOk result (λ l. l.done.items ≡ []) }
        ensures waiting { IfOk result (λ l. l.waiting.items ≡ first ∷ []) }
        ensures level { IfOk result (λ l. l.level ≡ level) }
    {
        let mut waiting = Vec::new(alloc);
        waiting.push(first)?;
        Ok(GoalList::of_all(alloc, waiting, level))
    }

    /// How far the indices of a formula are to be raised that was met at the level.
    pub(crate) fn raise_from(&self, level: u64) -> u64
        ensures { result ≡ self.now.level - level }
    {
        self.level.saturating_sub(level)
    }

    /// Both formulas in place of the one that they were joined to.
    pub(crate) fn wait_for(
        mut self,
        left: TermId,
        right: TermId,
        level: u64,
    ) -> Result<GoalList, Memory>
        ensures opened { IfOk result (λ l. l.opened ≡ self.opened) }
        ensures done { IfOk result (λ l. l.done ≡ self.done) }
        ensures waiting { IfOk result (λ l. l.waiting.items ≡ (self.waiting.items ++ record { formula = right; level = level } ∷ []) ++ record { formula = left; level = level } ∷ []) }
        ensures level { IfOk result (λ l. l.level ≡ self.level) }
    {
        self.waiting.push(Waiting {
            formula: right,
            level,
        })?;
        self.waiting.push(Waiting {
            formula: left,
            level,
        })?;
        Ok(self)
    }

    /// One goal more.
    pub(crate) fn with(mut self, goal: Goal) -> Result<GoalList, Memory>
        ensures opened { IfOk result (λ l. l.opened ≡ self.opened) }
        ensures done { IfOk result (λ l. l.done.items ≡ self.done.items ++ goal ∷ []) }
        ensures waiting { IfOk result (λ l. l.waiting ≡ self.waiting) }
        ensures level { IfOk result (λ l. l.level ≡ self.level) }
    {
        self.done.push(goal)?;
        Ok(self)
    }

    /// A `sigma` with this body, which takes what waits into its scope.
    pub(crate) fn open(self, alloc: Global, bound: TypeId, body: TermId) -> Result<GoalList, Memory>
        ensures opened { IfOk result (λ l. l.opened.items ≡ self.opened.items ++ record { bound = bound; before = self.done } ∷ []) }
        ensures done { IfOk result (λ l. l.done.items ≡ []) }
        ensures waiting { IfOk result (λ l. l.waiting.items ≡ self.waiting.items ++ record { formula = body; level = suc self.level } ∷ []) }
        ensures level { IfOk result (λ l. l.level ≡ suc self.level) }
    {
        let GoalList {
            mut opened,
            done,
            mut waiting,
            level,
        } = self;
        let Some(inside) = level.checked_add(1) else {
            return Err(Memory);
        };
        opened.push(Opened {
            bound,
            before: done,
        })?;
        waiting.push(Waiting {
            formula: body,
            level: inside,
        })?;
        Ok(GoalList {
            opened,
            done: Vec::new(alloc),
            waiting,
            level: inside,
        })
    }

    /// The goals, each sigma closed.
    pub(crate) fn close(self) -> Result<Vec<Goal>, Memory>
        ensures within { IfOk result (λ made. (b : Nodes) → IsGoalListIn b self → AreGoalsIn b made.items) }
        ensures closes { IfOk result (λ made. (b : Nodes) (gs out : Goals) → IsGoalListIn b self → Reads b self.done.items gs → Closes b (reverse self.opened.items) gs out → Reads b made.items out) }
        ensures met { IfOk result (λ made. (b : Nodes) → count_in_goals (goals_of b made.items) ≡ list_met b self) }
    {
        let GoalList {
            mut opened,
            done,
            waiting: _,
            level: _,
        } = self;
        let mut goals = done;
        'sigmas: while let Some(outer) = opened.pop() {
            let Opened { bound, mut before } = outer;
            before.push(Goal::Some(bound, goals))?;
            goals = before;
        }
        Ok(goals)
    }
}
