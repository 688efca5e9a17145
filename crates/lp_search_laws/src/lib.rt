//! The plain search ends and its answers are right: what holds of the search over a stack, whatever a task is, and of the look of hereditary Harrop
//! goals in lp_model, as functions that do nothing; each contract is a law.
#![tactic(auto)]

/// The search over a stack, whatever a task is.
pub mod skeleton;
/// The plain search ends, and more steps change nothing.
pub mod search;
/// Goals that are taken apart.
pub mod taken_apart;
/// Equalities, through the unifier.
pub mod equality;
/// Arithmetic.
pub mod arithmetic;
/// What a search starts with.
pub mod start;
/// Clauses: a focus on one of them, and the candidates for an atom.
pub mod clauses;
/// Entries behind a unification.
pub mod behind;
/// Steps that are enough.
pub mod enough;
/// What typed tasks turn out to be.
pub mod views;
/// What unification leaves.
pub mod residual;
/// A clause against a goal.
pub mod tries;
/// Negated goals.
pub mod negation;
/// Proofs whose leaves are failing searches.
pub mod leaves;
/// The search as a whole.
pub mod whole;
/// Worked searches.
pub mod search_rows;
/// Worked searches with negated goals.
pub mod negation_rows;
