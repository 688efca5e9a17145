//! Unification keeps and adds no solution, and on typed input it comes to an outcome: what holds of the definitions of lp_model, as functions that
//! do nothing; each contract is a law.
#![tactic(auto)]

/// One pair.
pub mod one_pair;
/// Whole runs.
pub mod whole_runs;
/// Typed terms have normal forms.
pub mod normalisation;
/// Typed input comes to an outcome.
pub mod outcomes;
/// Each rule at work, computed.
pub mod cases;
/// Where there is no typing.
pub mod untyped;
