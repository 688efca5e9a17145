//! The names that the language fixes: its kinds and constants with their numbers, names, types and fixities, and the connective at the
//! top of a formula.
#![tactic(auto)]

// The fixed constants.
mod constant;
// The seven fixities.
mod fixity;
// The fixed kinds.
mod kind;
// What may stand beside an operator.
mod operands;
// The types of the fixed constants.
mod shape;

pub use constant::{Constant, FIRST_CONSTANT, RESERVED};
pub use fixity::Fixity;
pub use kind::{FIRST_KIND, Kind};
pub use shape::{Part, Shape};
