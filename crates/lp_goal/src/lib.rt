//! Terms of the heap by their heads, and goals that are known at run time only.
#![tactic(auto)]

// What a goal is.
mod kind;
// A term by its head and its arguments.
mod spine;

pub use kind::{GoalKind, kind_of_goal};
pub use spine::{Spine, spine_of};
