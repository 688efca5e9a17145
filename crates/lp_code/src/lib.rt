//! Compiled clauses: the instructions of the machine, records, objects and images as values, and the clauses that they denote.
#![tactic(auto)]

// The records of one predicate, by their keys.
mod groups;
// Images, with the tables of their records.
mod image;
// Instructions, and their lengths in bytes.
mod instruction;
// What worked records denote.
mod laws;
// Marks on registers.
mod marks;
// The parts of objects and images that have names.
mod object;
// Records and their keys.
mod record;
// The rules of code.
mod rule;
// What stands in a negated block or an assumed clause.
mod stands;

pub use image::{Image, ImageConstant, ImageKind};
pub use instruction::{Instr, length};
pub use laws::worked_records;
pub use marks::Standing;
pub use object::{Object, ObjectConstant, ObjectKind};
pub use record::{Code, Key, KeyRef, Record, RecordHead};
pub use rule::Rule;
pub use stands::standing;
