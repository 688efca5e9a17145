//! Images of objects: the copies of the modules that a root accumulates, with their names numbered and their records one behind the other.
#![tactic(auto)]

// Names that the copy above has otherwise.
mod differ;
// Why objects are not linked.
mod fault;
// The image in the making.
mod image;
// The copies of a root.
mod linking;
// The names of a copy.
mod names;
// The order of copies.
mod order;
// Objects and their names by name.
mod places;
// Records with their numbers changed.
mod records;
// What linked records denote, and how high hidden numbers are.
mod laws;

pub use fault::{LinkRefusal, Part};
pub use laws::{copies_denote, hidden_numbers_fit};
pub use linking::{check_copies, link};
