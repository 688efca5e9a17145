//! The answers of a query on an image: from the text to the written lines.
#![tactic(auto)]

// The search of a query, with its answers written.
mod answering;
// Which variables of a query are shown.
mod asked;
// What answers queries on an image.
mod asker;
// The answers of one query.
mod asking;
// A query in code.
mod compiled;
// Why a query is refused.
mod fault;
// The search of a query.
mod running;
// What queries see of an image.
mod seen;

pub use asker::Asker;
pub use asking::{ask, ask_shown};
pub use fault::AskRefusal;
