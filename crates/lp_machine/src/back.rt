// The way back to a choice point.

use crate::candidates::{Behind, Left};
use crate::frame::{Frame, Todo, Work};
use crate::outcome::Turn;
use crate::search::Search;
use lp_base::Memory;
use lp_choice::{ChoicePoint, Untried};
use lp_impl::Cursor;
use lp_model::Ending;
use lp_store::CellId;
use lp_watch::{Crowd, Note, Watch};

// Where the registers of a frame begin.
fn registers_of(frame: Frame) -> usize {
    match frame.todo {
        Todo::Code { from, .. } => from,
        Todo::Goal(_) => frame.top,
    }
}

impl<'i> Search<'i> {
    /// Tells that the search goes back to an alternative, where there is one.
    pub(crate) fn tell_back<W: Watch>(&self, crowd: &mut Crowd<'_, W>) -> Result<(), Memory> {
        let Some(point) = self.heap.newest_choice() else {
            return Ok(());
        };
        match point.untried {
            Untried::Not(_, _) => Ok(()),
            _ => crowd.tell(Note::Back),
        }
    }

    // Goes on with a record from an instruction on, with the registers of a frame.
    fn enter_frame(&mut self, frame: Frame, record: u32, place: u32) -> Turn {
        self.enter(frame, record, place as usize, registers_of(frame));
        Turn::On
    }

    // The candidates that are left of a goal.
    fn retry_clauses<W: Watch>(
        &mut self,
        crowd: &mut Crowd<'_, W>,
        point: ChoicePoint,
        goal: CellId,
        assumed: Cursor,
        number: u32,
    ) -> Result<Turn, Memory> {
        let frame = self.goals_of(point);
        let program = if number < self.program.clause_count() {
            Some(number)
        } else {
            None
        };
        let left = Left {
            assumed,
            program,
            behind: Behind::Unknown,
        };
        self.retry(crowd, goal, left, point.goals, frame.behind)
    }

    // The search of a negated goal has failed: its record goes on behind it, where nothing was cut away.
    fn end_failed(&mut self, record: u32, place: u32) -> Turn {
        if self.end_negation() {
            return Turn::Ended(Ending::OpenNot);
        }
        let Some(point) = self.take_choice() else {
            return Turn::Back;
        };
        let frame = self.goals_of(point);
        self.enter_frame(frame, record, place)
    }

    // How the search ends where no choice point is left.
    fn no_more(&self) -> Turn {
        if self.counts.lost {
            Turn::Ended(Ending::NoMoreCut)
        } else {
            Turn::Ended(Ending::NoMore)
        }
    }

    // Goes on with what a choice point leaves to try.
    fn take_untried<W: Watch>(
        &mut self,
        crowd: &mut Crowd<'_, W>,
        untried: Untried,
    ) -> Result<Turn, Memory> {
        let Some(point) = self.take_choice() else {
            return Ok(self.no_more());
        };
        match untried {
            Untried::Code(record, place) => {
                let frame = self.goals_of(point);
                Ok(self.enter_frame(frame, record, place))
            }
            Untried::Goal(goal) => {
                let frame = self.goals_of(point);
                self.work = Work::behind_all(frame.behind, frame.mark, frame.level);
                self.take_goal(crowd, goal)
            }
            Untried::Clauses(goal, assumed, number) => {
                self.retry_clauses(crowd, point, goal, assumed, number)
            }
            Untried::Not(record, place) => {
                let frame = self.goals_of(point);
                Ok(self.enter_frame(frame, record, place))
            }
        }
    }

    /// Goes back to the newest choice point.
    pub(crate) fn go_back<W: Watch>(&mut self, crowd: &mut Crowd<'_, W>) -> Result<Turn, Memory> {
        let Some(newest) = self.heap.newest_choice() else {
            return Ok(self.no_more());
        };
        match newest.untried {
            Untried::Not(record, place) => Ok(self.end_failed(record, place)),
            untried => self.take_untried(crowd, untried),
        }
    }
}
