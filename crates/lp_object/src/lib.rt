//! Objects and images as bytes: what is written is the one spelling of a value, and what is read is the value that the bytes spell.
#![tactic(auto)]

// The code of a record.
mod code;
// Why bytes are refused, and why a value is.
mod fault;
// Fields of one number or text that are read.
mod fields;
// Images.
mod image;
// Instructions.
mod instructions;
// Names with what they name, each of which stands once.
mod names;
// Objects.
mod object;
// Records.
mod records;
// Declared types.
mod schemes;
// The tables of records by predicate and key.
mod tables;
// How wide numbers of constants and kinds are.
mod width;
// Fields of one number or text that are written.
mod written;

pub use fault::{FormatFault, WriteRefusal};
pub use image::{read_image, write_image};
pub use object::{read_object, write_object};
