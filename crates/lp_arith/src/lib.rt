//! The values of expressions of the heap: integers of 64 bits and strings.
#![tactic(auto)]

// The evaluation of an expression.
mod evaluation;
// An expression by its head.
mod expression;
/// What holds of faults.
pub mod laws;
// What the operations give.
mod operation;
// Values, and why there is none.
mod value;

pub use evaluation::evaluate;
pub use operation::compare;
pub use value::{ArithRefusal, Value};
