//! The ground of all crates: places in texts, statuses, limits, and what is asked of the outside.
#![tactic(auto)]

// The comparisons of arithmetic goals.
mod compare;
// The limits on files, texts and programs, with their names.
mod limit;
// Their numbers, and those of a run.
mod limits;
// A folder in memory that fails at chosen calls.
mod mem_folder;
// The refusals that say nothing more: a failed sink, and want of memory.
mod memory;
// The traits of a folder and of a sink.
mod outside;
// Places and pieces of a text.
mod place;
// Which calls of an object in memory are to fail.
mod schedule;
// Sinks in memory.
mod sinks;
// How a run ended, with its number.
mod status;
// A folder in memory that never fails.
mod sure_folder;

pub use compare::Compare;
pub use limit::Limit;
pub use limits::{
    DEFAULT_ANSWERS, DEFAULT_STEPS, END_OF_NUMBERS, MAX_ARGUMENTS, MAX_CLAUSES, MAX_CODE_BYTES,
    MAX_CONTRACTIONS, MAX_COPIES, MAX_FILE_BYTES, MAX_IMAGE_BYTES, MAX_MODULES, MAX_NAME_BYTES,
    MAX_NODES, MAX_REGISTERS, MAX_TERM_DEPTH, MAX_TEXT_BYTES, MAX_TYPE_DEPTH, RUN_LIMIT,
};
pub use mem_folder::MemFolder;
pub use memory::{Failed, Memory};
pub use outside::{Folder, ReadErr, Sink, WriteErr};
pub use place::{Place, Spot};
pub use sinks::{MemSink, SureSink};
pub use status::Status;
pub use sure_folder::SureFolder;
