//! What holds of uniform proofs and of flattening, as functions that do nothing: each contract is a law.
#![tactic(auto)]

/// Flattening reads back.
pub mod flattening;
/// Uniform proofs.
pub mod uniform_proofs;
