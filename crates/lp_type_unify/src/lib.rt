//! First-order unification of types on a bank: within a limit of units, or with shared nodes taken once.
#![tactic(auto)]

mod bindings;
mod counted;
mod joined;
mod looking;
mod reaching;
mod shared;

pub use bindings::{Bindings, Pair};
pub use counted::{EquationRefusal, unify_within};
pub use shared::unify;
