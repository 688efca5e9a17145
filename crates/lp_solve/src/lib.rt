//! The answers of a query on the texts of a module.
#![tactic(auto)]

// The search of a query, and the writing of its answers.
mod answers;
// What a search tells from one event to the next.
mod piece;
// A query on a module, ready to be searched for.
mod prepare;
// What answers are shown with.
mod shown;
// The answers of a query within its limits, watched or not.
mod solve;
// A generated query, and the summary of its search.
mod generated;
// Laws over the definitions.
mod laws;

pub use generated::trial;
pub use laws::{
    declared_types_exist, formulas_flatten, programs_are_typed, queries_are_typed,
    searches_of_texts_are_right, texts_flatten,
};
pub use prepare::Question;
pub use solve::solve_within;
