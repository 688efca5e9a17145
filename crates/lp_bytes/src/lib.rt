//! Formats of bytes: fields one behind the other, each of which has one spelling; and reading from left to right, up to the fault that is met first.
#![tactic(auto)]

// Why bytes are refused.
mod fault;
// What is left to read.
mod left;
// Fields that are read.
mod reader;
// Fields that are written.
mod writer;
// What has been written.
mod written;

pub use fault::{Fault, ReadError};
pub use left::Reader;
pub use written::Writer;
