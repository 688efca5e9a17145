// Goals that are known at run time only.

use crate::frame::{Todo, Work};
use crate::heap::Goal;
use crate::name::{tell_order, tell_standard, tell_variable};
use crate::outcome::Turn;
use crate::search::Search;
use lp_base::{Compare, Memory};
use lp_choice::Untried;
use lp_impl::Head;
use lp_model::Ending;
use lp_standard::Constant;
use lp_store::CellId;
use lp_watch::{Crowd, Watch};

impl<'i> Search<'i> {
    // Goes on with a goal in front of others.
    fn go_on_with(
        &mut self,
        goal: CellId,
        behind: Option<usize>,
        level: u64,
    ) -> Result<Turn, Memory> {
        let first = self.put_frame(Todo::Goal(goal), behind, level)?;
        self.work = Work::behind_all(Some(first), self.work.mark, level);
        Ok(Turn::On)
    }

    fn put_both(&mut self, left: CellId, right: CellId) -> Result<Turn, Memory> {
        let behind = self.behind()?;
        let second = self.put_frame(Todo::Goal(right), behind, self.work.level)?;
        self.go_on_with(left, Some(second), self.work.level)
    }

    fn put_either(&mut self, left: CellId, right: CellId) -> Result<Turn, Memory> {
        let behind = self.behind()?;
        let other = self.put_frame(Todo::Goal(right), behind, self.work.level)?;
        self.put_choice(Untried::Goal(right), other)?;
        self.go_on_with(left, behind, self.work.level)
    }

    // The term on a cell, as a goal of a level.
    fn put_goal_of(&mut self, term: CellId, value: CellId, level: u64) -> Result<Turn, Memory> {
        let behind = self.behind()?;
        let goal = self.heap.put_applied(term, value)?;
        self.go_on_with(goal, behind, level)
    }

    // Takes a connective apart.
    fn take_apart(&mut self, goal: Goal) -> Result<Turn, Memory> {
        if !self.counts.take_apart() {
            return Ok(Turn::Ended(Ending::Deep));
        }
        let level = self.work.level;
        match goal {
            Goal::And(left, right) => self.put_both(left, right),
            Goal::Or(left, right) => self.put_either(left, right),
            Goal::All(term) => {
                let above = level.saturating_add(1);
                let eigen = self.heap.put_eigen(above)?;
                self.put_goal_of(term, eigen, above)
            }
            Goal::Some(term) => {
                let variable = self.heap.put_variable(level)?;
                self.put_goal_of(term, variable, level)
            }
            _ => Ok(Turn::On),
        }
    }

    /// An equation: one step.
    pub(crate) fn take_equation<W: Watch>(
        &mut self,
        crowd: &mut Crowd<'_, W>,
        left: CellId,
        right: CellId,
    ) -> Result<Turn, Memory> {
        if !self.counts.take_step() {
            return Ok(Turn::Ended(Ending::Steps));
        }
        tell_standard(crowd, Constant::Equal)?;
        self.heap.equate(left, right, self.work.level)
    }

    /// An assignment: one step.
    pub(crate) fn take_assignment<W: Watch>(
        &mut self,
        crowd: &mut Crowd<'_, W>,
        left: CellId,
        right: CellId,
    ) -> Result<Turn, Memory> {
        if !self.counts.take_step() {
            return Ok(Turn::Ended(Ending::Steps));
        }
        tell_standard(crowd, Constant::Is)?;
        self.assign(left, right)
    }

    /// A comparison: one step.
    pub(crate) fn take_order<W: Watch>(
        &mut self,
        crowd: &mut Crowd<'_, W>,
        order: Compare,
        left: CellId,
        right: CellId,
    ) -> Result<Turn, Memory> {
        if !self.counts.take_step() {
            return Ok(Turn::Ended(Ending::Steps));
        }
        tell_order(crowd, order)?;
        self.compare(order, left, right)
    }

    /// An atom that clauses may meet, whose types and arguments are loaded: one step.
    pub(crate) fn take_call<W: Watch>(
        &mut self,
        crowd: &mut Crowd<'_, W>,
        head: Head,
    ) -> Result<Turn, Memory> {
        if !self.counts.take_step() {
            return Ok(Turn::Ended(Ending::Steps));
        }
        self.tell_head(crowd, head)?;
        self.call(crowd, head)
    }

    // An atom whose head is a logic variable: one step, and the end.
    fn take_flexible<W: Watch>(&mut self, crowd: &mut Crowd<'_, W>) -> Result<Turn, Memory> {
        if !self.counts.take_step() {
            return Ok(Turn::Ended(Ending::Steps));
        }
        tell_variable(crowd)?;
        Ok(Turn::Ended(Ending::Flexible))
    }

    /// Takes a goal by its head-normal form.
    pub(crate) fn take_goal<W: Watch>(
        &mut self,
        crowd: &mut Crowd<'_, W>,
        goal: CellId,
    ) -> Result<Turn, Memory> {
        match self.heap.look_at_goal(goal)? {
            Ok(Goal::Equal(left, right)) => self.take_equation(crowd, left, right),
            Ok(Goal::Is(left, right)) => self.take_assignment(crowd, left, right),
            Ok(Goal::Order(order, left, right)) => self.take_order(crowd, order, left, right),
            Ok(Goal::Call(head)) => self.take_call(crowd, head),
            Ok(Goal::Flexible) => self.take_flexible(crowd),
            Ok(kind) => self.take_apart(kind),
            Err(ending) => Ok(Turn::Ended(ending)),
        }
    }
}
