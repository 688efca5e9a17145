//! What all commands share: why texts, objects and images are refused, with the lines that tell of it, the last line of a run, and the reading and
//! writing of one file.
#![tactic(auto)]

// Why texts are refused, as the program tells it.
mod cause;
// What is said of each fault of a text.
mod causes;
// The reading of a file, and why one is not read.
mod file;
// What is said of an object, image or certificate.
mod image;
// The lines that are written, and the status of each ending.
mod lines;
// Why a command is not carried out.
mod refusal;
// The refusals of texts: their lines.
mod refused;
// The last line of a run.
mod last;
// The writing of a file, and the line that tells of it.
mod store;

pub use cause::{Blame, Cause, at, named};
pub use causes::{of_declarations, of_module, of_syntax, of_typing};
pub use file::{file_name, not_read, not_there, past_limit, read_file};
pub use image::{numbered, said_of, said_with};
pub use last::{refuse, say, say_memory, tell};
pub use lines::{ending, limit, memory, migrated, missing, read_fault, status, write_fault, wrote};
pub use refusal::Refusal;
pub use refused::{blamed, limited, query_refused, without_tokens};
pub use store::{Target, put};
