//! Queries on the images of modules: one by itself, and all of a text.
#![tactic(auto)]

// The replies to the queries of a session.
mod answering;
// One query, answered or refused.
mod asking;
// What is said of a refused query.
mod causes;
// Many queries of one file.
mod serving;

pub use asking::query;
pub use serving::session;
