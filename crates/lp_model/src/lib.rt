//! What the search of a logic program is, on plain terms: the definitions that every layer above is proved against, and the types that
//! they speak of.
#![tactic(auto)]

/// Answers and the events of a search.
pub mod answer;
/// Certificates of answers.
pub mod certificate;
/// Flattened clauses and goals.
pub mod clause;
/// The connective at the top of a formula.
pub mod connective;
/// How a search ends.
pub mod ending;
/// Programs and typed formulas.
pub mod program;
/// Answers that can be shown.
mod whole;

pub use answer::{Answer, Event, Pair};
pub use certificate::{Certificate, ProofNode};
pub use clause::{Clause, Goal};
pub use connective::{Connective, connective_of};
pub use ending::{Ending, Fault};
pub use program::{ClauseFormula, Declared, Program, Typed};
pub use whole::whole_answer;
