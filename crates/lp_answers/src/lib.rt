//! The answers of a search, written one by one as they are found. Whatever searches is a `Searching`.
#![tactic(auto)]

// A search as its answers are written.
mod searching;
// What answers are shown with.
mod shown;
// How the writing ended.
mod stopped;
// The writing of answers.
mod writing;

pub use searching::Searching;
pub use shown::Shown;
pub use stopped::{Stopped, Written};
pub use writing::write_answers;
