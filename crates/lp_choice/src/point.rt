// What a choice point keeps.

use lp_impl::{Cursor, Point};
use lp_store::{CellId, Mark};

/// What is left to try.
#[derive(Clone, Copy)]
pub enum Untried {
    /// A record from an instruction on, by the number of the record and that of the instruction.
    Code(u32, u32),
    /// The right side of a `;` that is known at run time.
    Goal(CellId),
    /// An atomic goal, with the assumed candidates behind a place and the program clauses from the one of a number on.
    Clauses(CellId, Cursor, u32),
    /// No alternative: a negated goal, whose search stands above. Where that has failed, the record goes on from an instruction on.
    Not(u32, u32),
}

/// A place to go back to: the store, the delayed pairs and the assumptions as they were, the level of the goal, the frame of the goals that are left, and
/// what is left to try.
#[derive(Clone, Copy)]
pub struct ChoicePoint {
    pub store: Mark,
    pub delayed: usize,
    pub assumed: Point,
    pub level: u64,
    pub goals: usize,
    pub untried: Untried,
}
