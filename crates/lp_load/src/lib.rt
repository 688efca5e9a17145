//! The program of source texts, and the typed query on it: each refusal as the line that tells of it.
#![tactic(auto)]

// A query, from its text to its typed formula.
mod query;
// The program of a module's files.
mod program;

pub use program::{build, cause_of, load, load_refused, text_refused};
pub use query::ask;
