//! Pattern text leaves no equation unsolved: what holds of unification on pattern terms, as functions that do nothing; each contract is a law.
#![tactic(auto)]

/// Sentences and queries of pattern text.
pub mod formulas;
/// Goals that are pattern terms, in the search.
pub mod goals;
/// The search of pattern text.
pub mod search;
/// Pattern terms, and what reduction and values for variables make of them.
pub mod terms;
/// Pattern text, and terms for its variables.
pub mod texts;
/// Unification of pattern terms.
pub mod unification;
