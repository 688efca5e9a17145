//! Plain unification of terms under pattern restrictions (Miller 1991; levels of Nadathur 1993).
#![tactic(auto)]

// What variables are bound to.
mod bindings;
// The comparison of terms up to conversion.
mod compare;
// Why there is no unifier.
mod fault;
// Terms with all bindings put in.
mod fill;
// Types with all bindings put in.
mod fill_types;
// Heads and their types.
mod heads;
// What is given, at numbers of the bank.
mod inside;
// A term when it is looked at.
mod look;
// The abstractions that are open.
mod opened;
// Variables on distinct eigenconstants.
mod patterns;
// Pruning and lowering.
mod prune;
// The rules for one pair.
mod rules;
// The scan of the other side.
mod scan;
// What a variable becomes.
mod settle;
// What a pattern allows.
mod side;
// Equations and comparison of types.
mod types;
// Heads of terms under bindings.
mod under;
// The unification of pairs.
mod unify;
// The units that are left.
mod units;

pub use bindings::{Bindings, Mark};
pub use fault::PatternRefusal;
pub use fill::filled;
pub use fill_types::filled_type;
pub use under::head_under;
pub use unify::{Solved, solve, solve_under};
