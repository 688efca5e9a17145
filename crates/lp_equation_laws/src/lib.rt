//! Where `lambda` says yes, `solve` prints no equation: functions that do nothing; each contract is a law.
#![tactic(auto)]

/// Queries on the program of texts that are accepted.
pub mod queries;
