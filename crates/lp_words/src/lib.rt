//! From the words behind the program's name to what they ask for.
#![tactic(auto)]

// What the words ask for.
mod asked;
// Numbers in words, and the names of modules.
mod numbers;
// The command set, and the words as it reads them.
mod words;

pub use asked::{Asked, FileCommand, Options, WordsFault, read_words};
pub use words::usage;
