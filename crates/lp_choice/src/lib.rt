//! The alternatives of a search: a stack of choice points.
#![tactic(auto)]

// What a choice point keeps.
mod point;
// The stack.
mod stack;

pub use point::{ChoicePoint, Untried};
pub use stack::Choices;
