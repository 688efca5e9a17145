//! The heap of the machine: cells of types and of terms, bound and overwritten in place, with a trail that undoes it.
#![tactic(auto)]

// Cells, and what they name.
mod cell;
// The cells of a store, each in 24 bytes.
mod cells;
/// What holds of readings.
pub mod laws;
// A cell as it is kept.
mod slot;
// The store, and what its calls promise of readings and marks.
mod store;
// What bound and overwritten cells were.
mod trail;

pub use cell::{Cell, CellId, Env, EnvEntry, Mark, Span, Span as List};
pub use store::Store;
