//! Equations of types and what solves them; raw terms and their principal typing.
#![tactic(auto)]

mod laws;

pub use laws::{
    a_limit_changes_no_outcome, a_limit_is_passed_by_units, failing_have_no_solution,
    going_on_is_most_general, solving_ends, solving_is_most_general,
};
