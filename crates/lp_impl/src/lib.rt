//! The assumed clauses of a goal: a list that branches share, with points to go back to.
#![tactic(auto)]

// The list, and the candidates in it.
mod assumptions;
// The predicate of a goal or of a clause.
mod head;

pub use assumptions::{Assumed, Assumptions, Candidate, Cursor, Point};
pub use head::Head;
