// How the search goes on, and what is counted on its way.

use lp_arith::ArithRefusal;
use lp_base::{Memory, RUN_LIMIT};
use lp_model::{Ending, Fault};
use lp_term::TermRefusal;
use lp_unify::PatternRefusal;

/// How the search goes on: with the branch at work, with the newest choice point, with the answer that the branch is, or not at all.
#[derive(Clone, Copy, PartialEq, Eq)]
pub(crate) enum Turn {
    On,
    Back,
    Answered,
    Ended(Ending),
}

/// The steps that may be taken and were taken, the goals taken apart in a row, and whether a cut removed an alternative of the search at work.
#[derive(Clone, Copy)]
pub(crate) struct Counts {
    pub(crate) limit: u64,
    pub(crate) steps: u64,
    pub(crate) row: u64,
    pub(crate) lost: bool,
}

impl Counts {
    /// Counts a goal that is taken apart. Whether it may be.
    pub(crate) fn take_apart(&mut self) -> bool {
        if self.row >= RUN_LIMIT {
            return false;
        }
        self.row += 1;
        true
    }

    /// Counts a step. Whether it may be taken.
    pub(crate) fn take_step(&mut self) -> bool {
        if self.steps >= self.limit {
            return false;
        }
        self.steps += 1;
        self.row = 0;
        true
    }
}

/// How the search goes on after a unification.
pub(crate) fn unified(outcome: Result<(), PatternRefusal>) -> Result<Turn, Memory> {
    match outcome {
        Ok(()) => Ok(Turn::On),
        Err(PatternRefusal::Fails) => Ok(Turn::Back),
        Err(PatternRefusal::Deep) => Ok(Turn::Ended(Ending::Deep)),
        Err(PatternRefusal::Memory) => Err(Memory),
    }
}

/// How the search ends where an expression has no value.
pub(crate) fn faulted(refusal: ArithRefusal) -> Result<Ending, Memory> {
    match refusal {
        ArithRefusal::Overflow => Ok(Ending::Arithmetic(Fault::Overflow)),
        ArithRefusal::ZeroDivisor => Ok(Ending::Arithmetic(Fault::ZeroDivisor)),
        ArithRefusal::NotClosed => Ok(Ending::Arithmetic(Fault::NotClosed)),
        ArithRefusal::Deep => Ok(Ending::Deep),
        ArithRefusal::Memory => Err(Memory),
    }
}

/// How the search ends where a term is not reduced.
pub(crate) fn refused(refusal: TermRefusal) -> Result<Ending, Memory> {
    match refusal {
        TermRefusal::Deep(_) => Ok(Ending::Deep),
        TermRefusal::Memory => Err(Memory),
    }
}
