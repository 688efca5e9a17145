//! Whether a text is a pattern text: each existential variable stands on distinct universal variables that are bound inside its scope.
#![tactic(auto)]

// The first text of a set of modules and a query that is none.
mod first;
// Rows of pattern text.
mod laws;
// The arguments of existential variables.
mod names;
// Parts of a formula, taken apart.
mod parts;
// The bodies of quantifiers.
mod reading;
// No run of pattern text leaves an equation.
mod runs;
// Clauses and queries.
mod text;
// What is left of a walk over the parts of a formula.
mod walk;

pub use first::{Verdict, survey};
pub use laws::{arguments_are_judged, examples_are_judged, quantifiers_are_judged};
pub use runs::accepted_texts_leave_no_equation;
pub use text::{clause_is_pattern, query_is_pattern};
