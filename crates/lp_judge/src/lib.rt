//! Judgements on a program and a query: whether they are pattern text, the certificates of answers, and whether certificates are proofs.
#![tactic(auto)]

// The program of source texts and a query on it, without negations.
mod asking;
// Whether certificates of a query's answers are proofs.
mod checking;
// The certificates of the answers of a search.
mod collecting;
// A program and a query in a bank of their own.
mod copying;
// Whether a program and a query are pattern text.
mod patterns;
// The certificates of a query's answers, written to a file.
mod proving;
// The texts that are judged.
mod texts;
// Negations, of which no certificate speaks.
mod unsupported;

pub use checking::check_certificates;
pub use patterns::lambda;
pub use proving::{Claim, prove};
