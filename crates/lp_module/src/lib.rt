//! Modules: their order, what one means, the program of a set of them, and the form of clauses and queries.
#![tactic(auto)]

// Words of accumulate that lead back.
mod circles;
// The program of a set of modules.
mod copies;
// Why a module is refused.
mod fault;
// The numbers of files.
mod files;
// The form of clauses and queries, and the limits on their normal forms.
mod form;
// Which constants can head a clause.
mod heads;
// The parts of a formula in goal and in clause position.
mod judge;
// Laws over the definitions.
mod laws;
// What a module means.
mod meaning;
// What the terms of a formula are like.
mod measure;
// Modules as they are handed out.
mod module;
// The numbers that the names of a copy have in the program.
mod numbers;
// The bodies of quantifiers.
mod quantified;
// The sentences of a module.
mod sentences;
// The order of copies, and their numbers.
mod tree;
// The walk from the root.
mod visits;
// The order of modules.
mod walk;
// The ways by which modules lead to one another.
mod ways;
// The words of accumulate.
mod words;

pub use copies::{Assembled, GlobalName, assemble};
pub use fault::ModuleFault;
pub use form::{query_form, query_form_under};
pub use laws::{
    clauses_are_closed, modules_are_orderly, program_is_closed, programs_declare,
    programs_have_types,
};
pub use meaning::elaborate;
pub use module::Module;
pub use sentences::has_many_arguments;
pub use walk::order;
