// Atoms that clauses may meet.

use crate::candidates::Left;
use crate::frame::Todo;
use crate::heap::Goal;
use crate::key::GoalKey;
use crate::outcome::Turn;
use crate::search::Search;
use lp_base::Memory;
use lp_choice::Untried;
use lp_impl::Head;
use lp_model::Ending;
use lp_store::CellId;
use lp_watch::{Crowd, Watch};

impl<'i> Search<'i> {
    // The key of the first argument of the goal at hand, or how the search ends.
    fn goal_key(&mut self, head: Head) -> Result<Result<GoalKey, Ending>, Memory> {
        let Head::Const(constant) = head else {
            return Ok(Ok(GoalKey::None));
        };
        if self.heap.has_no_arguments() || self.layout.predicate(constant).is_none() {
            return Ok(Ok(GoalKey::None));
        }
        let first = self.heap.argument(0);
        self.heap.look_at_key(first)
    }

    // What is left to try for a goal.
    fn untried(&self, goal: CellId, left: Left) -> Untried {
        let end = self.program.clause_count();
        Untried::Clauses(goal, left.assumed, left.program.unwrap_or(end))
    }

    // A choice point for the candidates that are left, in front of the goals behind the goal.
    fn put_left(&mut self, head: Head, behind: Option<usize>, left: Left) -> Result<(), Memory> {
        let goal = self.heap.put_goal(head)?;
        let frame = self.put_frame(Todo::Goal(goal), behind, self.work.level)?;
        let untried = self.untried(goal, left);
        self.put_choice(untried, frame)
    }

    /// Tries the first candidate for the goal at hand, whose step is taken; those behind it are a choice point.
    pub(crate) fn call<W: Watch>(
        &mut self,
        crowd: &mut Crowd<'_, W>,
        head: Head,
    ) -> Result<Turn, Memory> {
        let key = match self.goal_key(head)? {
            Ok(key) => key,
            Err(ending) => return Ok(Turn::Ended(ending)),
        };
        let all = self.all(head, key);
        let Some((clause, left)) = self.take_candidate(crowd, head, key, all)? else {
            return Ok(Turn::Back);
        };
        let behind = self.behind()?;
        let mark = self.heap.height();
        if self.is_some_left(head, left) {
            self.put_left(head, behind, left)?;
        }
        self.attempt(clause, behind, mark)?;
        Ok(Turn::On)
    }

    // The next candidate for the goal at hand; those behind it are a choice point with this frame again.
    fn try_next<W: Watch>(
        &mut self,
        crowd: &mut Crowd<'_, W>,
        goal: CellId,
        head: Head,
        left: Left,
        frame: usize,
        behind: Option<usize>,
    ) -> Result<Turn, Memory> {
        let key = match self.goal_key(head)? {
            Ok(key) => key,
            Err(ending) => return Ok(Turn::Ended(ending)),
        };
        let Some((clause, rest)) = self.take_candidate(crowd, head, key, left)? else {
            return Ok(Turn::Back);
        };
        let mark = self.heap.height();
        if self.is_some_left(head, rest) {
            let untried = self.untried(goal, rest);
            self.put_choice(untried, frame)?;
        }
        self.attempt(clause, behind, mark)?;
        Ok(Turn::On)
    }

    /// Tries the next candidate for a goal, which is the first of these; those behind it are a choice point with this frame again.
    pub(crate) fn retry<W: Watch>(
        &mut self,
        crowd: &mut Crowd<'_, W>,
        goal: CellId,
        left: Left,
        frame: usize,
        behind: Option<usize>,
    ) -> Result<Turn, Memory> {
        match self.heap.look_at_goal(goal)? {
            Ok(Goal::Call(head)) => self.try_next(crowd, goal, head, left, frame, behind),
            Ok(_) => Ok(Turn::Back),
            Err(ending) => Ok(Turn::Ended(ending)),
        }
    }
}
