// Frames: the goals that are left, as lists whose cells are named by numbers and shared by branches.

use lp_code::Instr;
use lp_store::CellId;

/// What is left to do: a record from an instruction on, with its registers from a place on, or a goal that is known at run time.
#[derive(Clone, Copy)]
pub(crate) enum Todo {
    Code {
        record: u32,
        place: usize,
        from: usize,
    },
    Goal(CellId),
}

/// Goals that are left, the frame behind them, how many of the oldest choice points a cut in them keeps, their level, and how many registers there were.
#[derive(Clone, Copy)]
pub(crate) struct Frame {
    pub(crate) todo: Todo,
    pub(crate) behind: Option<usize>,
    pub(crate) mark: usize,
    pub(crate) level: u64,
    pub(crate) top: usize,
}

/// The frame at work: its record with the instructions, the place of the next one, where its type registers and its registers begin, and what a frame has.
#[derive(Clone, Copy)]
pub(crate) struct Work<'i> {
    pub(crate) code: &'i [Instr],
    pub(crate) record: u32,
    pub(crate) place: usize,
    pub(crate) from: usize,
    pub(crate) registers: usize,
    pub(crate) behind: Option<usize>,
    pub(crate) mark: usize,
    pub(crate) level: u64,
}

impl<'i> Work<'i> {
    /// The goals of a frame alone.
    pub(crate) fn behind_all(behind: Option<usize>, mark: usize, level: u64) -> Work<'i> {
        Work {
            code: &[],
            record: 0,
            place: 0,
            from: 0,
            registers: 0,
            behind,
            mark,
            level,
        }
    }

    /// Whether nothing of the record is left.
    pub(crate) fn is_done(self) -> bool {
        match self.code.get(self.place) {
            None => true,
            Some(Instr::Proceed) => true,
            Some(_) => false,
        }
    }
}
