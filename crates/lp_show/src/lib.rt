//! The shown text of terms, of answers and of endings.
#![tactic(auto)]

// The numbers in the names of binders.
mod binders;
// The last line of a run.
mod last;
// The forms in which the values and sides of an answer are shown.
mod forms;
// The glossary, as the caller tells it.
mod glossary;
// What holds of the names of binders.
mod laws;
// Constants, variables and literals by themselves.
mod leaves;
// The text of a term, and the lines of an answer.
mod lines;
// The glossary made ready to look up.
mod names;
// An operator with its operands.
mod operator;
// Where a term stands among others, and when it wants parentheses there.
mod place;
// A term taken apart into its head and arguments.
mod spine;
// What is still to be written.
mod task;
// The variables of a term, by first place.
mod variables;
// The text of a term.
mod write;

pub use glossary::{Entry, Glossary};
pub use last::ending;
pub use laws::{binders_differ, binders_name_no_constant};
pub use lines::{answer, term};
