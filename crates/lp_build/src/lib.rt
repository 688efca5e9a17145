//! From the files of a set of modules to their program.
#![tactic(auto)]

// The program of the files.
mod build;
// Why the files have no program.
mod fault;
// The image of modules.
mod images;
// Which files the texts name.
mod links;
// Laws of modules, images and programs.
mod laws;
// The loading of files.
mod load;
// What all modules mean.
mod meanings;
// The objects of modules.
mod objects;
// What the load order says of the files.
mod order;
// What queries see.
mod queries;
// The reading of one file.
mod read;
// What all signatures mean.
mod signatures;
// Files as they were loaded.
mod sources;
// The syntax of all files.
mod texts;
// The order in which files are loaded.
mod walk;

pub use build::{Built, build_image, build_object, build_program, modules};
pub use fault::BuildFault;
pub use laws::{
    an_image_denotes_the_program, an_image_has_the_copies_of_the_program,
    an_image_has_the_names_of_the_program, clauses_of_code_are_within_its_limits,
    flattened_clauses_are_typed, modules_have_the_types_that_are_written,
    modules_have_typed_clauses, modules_hold_what_they_see, modules_see_signatures_of_texts,
    modules_see_the_kinds_of_their_types,
};
pub use load::{gather, gather_with};
pub use order::{files_in_order_are_all_that_are_named, held_files_are_loaded_alike};
pub use sources::Sources;
