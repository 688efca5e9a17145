//! The code of clauses and queries: for each flattened clause a record, and one for each clause that it assumes.
#![tactic(auto)]

// Atoms as goals.
mod atoms;
// The clauses and goals of a record.
mod body;
// Goals whose parts stand in registers.
mod calls;
// The code of a record in the making.
mod emitter;
// The variables that a record begins with.
mod entering;
// Variables by index.
mod environment;
// The variables around assumed clauses that stand in them.
mod captured;
// The code of clauses and queries.
mod codes;
// Why clauses have no code.
mod fault;
// Terms in registers, by their forms.
mod forms;
// The parts of a head as they are matched.
mod got;
// The head of a record.
mod head;
// Laws of what code takes.
mod laws;
// Limits that are passed whatever the code is.
mod limits;
// The steps of a term.
mod listing;
// A clause with those that it assumes, each as a list of steps.
mod plan;
// A record.
mod record;
// The types of the arguments of standard constants.
mod standard;
// Strings as instructions have them.
mod strings;
// What the records of a clause or query have in common.
mod tables;
// Terms in registers, by steps.
mod term_steps;
// Terms in registers.
mod terms;
// Types as they are read.
mod types;
// Variables that do not stand in the head.
mod variables;
// Types in registers.
mod written_types;

pub use codes::{generate, generate_query};
pub use fault::GenRefusal;
pub use laws::{goals_take_alike, worked_records_take};
