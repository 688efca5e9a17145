//! Flattening: clauses and goals of a typed sentence, from its beta-normal form.
#![tactic(auto)]

// Clauses in the making.
mod clauses;
// Why a sentence has no flattened clauses.
mod fault;
// The flattening of sentences and queries.
mod flattening;
// What waits for the list in the making.
mod frame;
// Goals in the making.
mod goals;
// Formulas under more variables, and the bodies of quantifiers.
mod raising;
// The moves of the flattening.
mod step;

pub use fault::NormalRefusal;
pub use flattening::{normalise, query_body};
