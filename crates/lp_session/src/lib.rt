//! Many queries of one text, a line each, and their replies.
#![tactic(auto)]

// What a line asks for.
mod form;
// The lines of a text.
mod lines;
// What replies to a query.
mod replies;
// The lines that a session writes by itself.
mod said;
// The session.
mod serving;

pub use replies::{Replies, Reply, ReplyRefusal};
pub use serving::{SessionRefusal, Summary, serve};
