//! Objects and images as files: what is compiled, linked and migrated, and the reading of an object or image.
#![tactic(auto)]

// The object of a module.
mod compile;
/// What objects in order have.
pub mod laws;
// What is said of objects and images.
mod lines;
// The image of a module.
mod link;
// What a command makes.
mod make;
// An image as it is written today.
mod migrate;
// The reading of one.
mod open;
// The writing of one.
mod store;

pub use open::{open_image, open_object};
pub use store::write_file;
