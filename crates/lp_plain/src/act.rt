// What was done on the way of a branch.

use crate::candidates::Candidate;
use lp_term::TermId;

/// A clause that met a goal, with the scope of its variables.
#[derive(Clone, Copy)]
pub struct Try {
    pub(crate) candidate: Candidate,
    pub(crate) scope: Option<usize>,
    pub(crate) first_type: u64,
}

/// What was done on the way of a branch where there was a choice, or where something was made.
#[derive(Clone, Copy)]
pub enum Act {
    /// The left side of a `;` was taken.
    Left,
    /// The right side of a `;` was taken.
    Right,
    /// A `sigma` was opened at this variable.
    Opened(TermId),
    /// So many clauses were assumed, the first of them last. The second number is that of the first assumption.
    Assumed(usize, usize),
    /// A clause met a goal.
    Met(Try),
}
