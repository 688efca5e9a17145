//! Principal typing of sentences and queries.
#![tactic(auto)]

// Types of annotations.
mod annotation;
// Why a text has no typing.
mod fault;
// Names in the order of their first places.
mod firsts;
// The equations of a text.
mod generate;
// The typing of a text.
mod infer;
// Instances of declared types.
mod instance;
mod laws;
// A text with its names looked up.
mod lookup;
// The first name of a text that is not declared.
mod names;
// What the type variables are bound to, read off with sharing.
mod reading;
// The names that abstractions bind.
mod scope;
// The types of the fixed constants.
mod standard;
// The formula of a text.
mod terms;

pub use fault::InferFault;
pub use infer::{type_formula, type_query};
pub use laws::{
    a_most_general_solution_is_principal, formulas_of_a_text_are_typed, no_solution_is_no_typing,
    renaming_keeps_a_principal_typing, typings_are_solutions,
};
