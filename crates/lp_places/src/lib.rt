//! Names with the place at which each stands first in a list.
#![tactic(auto)]

// The table of names.
mod places;

pub use places::Places;
