//! Unification on the store under pattern restrictions (Miller 1991; levels of Nadathur 1993), by the rules of the plain form on trees.
#![tactic(auto)]

// What a variable is bound to.
mod binding;
// Cells at any number.
mod cells;
// The comparison of terms up to conversion.
mod compare;
// The pairs that wait.
mod delayed;
// Why there is no unifier.
mod fault;
// Rigid heads.
mod heads;
// A term when it is looked at.
mod look;
// Abstractions that are open.
mod opened;
// Variables on distinct eigenconstants.
mod patterns;
// Pruning and lowering.
mod prune;
// The units that are left, and whether a variable was bound.
mod round;
// The rules for one pair.
mod rules;
// The scan of the other side.
mod scan;
// What a variable becomes.
mod settle;
// What a pattern allows.
mod side;
// Equations and comparison of types.
mod types;
// The unification of pairs.
mod turns;

pub use delayed::{Delayed, Waiting};
pub use fault::PatternRefusal;
pub use round::Round;
pub use turns::{unify, unify_types, wake_delayed};
