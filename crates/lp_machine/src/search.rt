// The machine's parts.

use crate::frame::{Frame, Todo, Work};
use crate::heap::Heap;
use crate::layout::Layout;
use crate::outcome::Counts;
use crate::program::Program;
use lp_base::Memory;
use lp_choice::{ChoicePoint, Untried};
use std::alloc::Global;

/// The search of a negated goal: how many choice points stand below it, its own counted, and whether a cut removed an alternative of the search around it.
#[derive(Clone, Copy)]
pub(crate) struct Negation {
    pub(crate) height: usize,
    pub(crate) lost: bool,
}

/// As many of the oldest frames and registers stay for choice points.
#[derive(Clone, Copy)]
pub(crate) struct Protected {
    pub(crate) frames: usize,
    pub(crate) registers: usize,
}

#[derive(Drop)]
pub(crate) struct Search<'i> {
    pub(crate) alloc: Global,
    pub(crate) program: Program<'i>,
    pub(crate) layout: Layout<'i>,
    pub(crate) heap: Heap,
    pub(crate) frames: Vec<Frame>,
    pub(crate) protected: Protected,
    pub(crate) negations: Vec<Negation>,
    pub(crate) work: Work<'i>,
    pub(crate) counts: Counts,
    pub(crate) name: Vec<u8>,
}

impl<'i> Search<'i> {
    /// A frame of the branch at work, in front of others.
    pub(crate) fn put_frame(
        &mut self,
        todo: Todo,
        behind: Option<usize>,
        level: u64,
    ) -> Result<usize, Memory> {
        let number = self.frames.len();
        self.frames.push(Frame {
            todo,
            behind,
            mark: self.work.mark,
            level,
            top: self.heap.top(),
        })?;
        Ok(number)
    }

    /// The rest of the record at work from an instruction on.
    pub(crate) fn rest_from(&self, place: usize) -> Todo {
        Todo::Code {
            record: self.work.record,
            place,
            from: self.work.from,
        }
    }

    /// The goals that are left behind the one at hand. What they do not need is given back.
    pub(crate) fn behind(&mut self) -> Result<Option<usize>, Memory> {
        if self.work.is_done() {
            self.shrink(self.work.behind, self.work.from);
            return Ok(self.work.behind);
        }
        let rest = self.rest_from(self.work.place);
        let number = self.put_frame(rest, self.work.behind, self.work.level)?;
        Ok(Some(number))
    }

    /// Gives back the frames behind the one of a number and the registers from a place on, but for those that choice points need.
    pub(crate) fn shrink(&mut self, newest: Option<usize>, registers: usize) {
        let frames = match newest {
            Some(number) => number.saturating_add(1),
            None => 0,
        };
        self.frames.truncate(frames.max(self.protected.frames));
        self.heap.shrink(registers.max(self.protected.registers));
    }

    // What the newest choice point needs.
    fn protect(&mut self) {
        let (frames, registers) = match self.heap.newest_choice() {
            None => (0, 0),
            Some(point) => match self.frames.get(point.goals) {
                Some(frame) => (point.goals.saturating_add(1), frame.top),
                None => (0, 0),
            },
        };
        self.protected = Protected { frames, registers };
    }

    /// Keeps a choice point of the branch as it stands; its goals are the newest frame.
    pub(crate) fn put_choice(&mut self, untried: Untried, goals: usize) -> Result<(), Memory> {
        self.heap.put_choice(self.work.level, goals, untried)?;
        self.heap.mark_sizes()?;
        self.protect();
        Ok(())
    }

    /// Keeps the oldest choice points. Whether any was removed.
    pub(crate) fn cut(&mut self, height: usize) -> bool {
        let removed = self.heap.cut(height);
        self.heap.cut_sizes(height);
        self.protect();
        removed
    }

    /// Takes off the newest choice point, and goes back to the store, the assumptions and the level that it keeps.
    pub(crate) fn take_choice(&mut self) -> Option<ChoicePoint> {
        let point = self.heap.take_choice()?;
        self.heap.forget_sizes();
        self.work.level = point.level;
        self.protect();
        Some(point)
    }

    /// The frame of a choice point, which is the newest one then.
    pub(crate) fn goals_of(&mut self, point: ChoicePoint) -> Frame {
        self.frames.truncate(point.goals.saturating_add(1));
        let frame = match self.frames.get(point.goals) {
            Some(frame) => *frame,
            None => Frame {
                todo: Todo::Code {
                    record: u32::MAX,
                    place: 0,
                    from: 0,
                },
                behind: None,
                mark: 0,
                level: point.level,
                top: 0,
            },
        };
        self.heap.shrink(frame.top);
        frame
    }

    /// Goes on with a record from an instruction on.
    pub(crate) fn enter(&mut self, frame: Frame, record: u32, place: usize, from: usize) {
        let mut work = Work::behind_all(frame.behind, frame.mark, frame.level);
        if let Some(found) = self.program.record(record) {
            work = Work {
                code: found.code.as_slice(),
                record,
                place,
                from,
                registers: from.saturating_add(usize::from(found.types)),
                ..work
            };
        }
        self.work = work;
    }
}
