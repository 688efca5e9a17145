//! The abstract machine: depth-first search over compiled clauses, on one trailed heap.
#![tactic(auto)]

// The answer that a branch is.
mod answer;
// Arithmetic goals.
mod arithmetic;
// One try of a clause.
mod attempt;
// The way back to a choice point.
mod back;
// Blocks of goals.
mod blocks;
// Types and terms that are built in registers.
mod build;
// Atoms that clauses may meet.
mod call;
// The clauses that may meet a goal.
mod candidates;
// What heads ask of the first argument.
mod demand;
// The machine's parts.
mod search;
// The machine, from one event to the next.
mod events;
// Frames: the goals that are left.
mod frame;
// Goals that are known at run time only.
mod goal;
// The head of a clause against a goal.
mod head;
// The store with registers.
mod heap;
// Which instructions build what is not read.
mod idle;
// The filter by the first argument.
mod key;
// What is known of an image and a query before it runs.
mod layout;
// The machine as its callers see it.
mod machine;
// Which terms of heads are matched in place.
mod matches;
// Terms that are matched in place.
mod matching;
// The names of goals, as a note tells them.
mod name;
// Negated goals.
mod negation;
// How the search goes on, and what is counted on its way.
mod outcome;
// What is known of an image before queries run on it.
mod plan;
// The records of an image and of a query, by one number.
mod program;
// What is known of the records of code.
mod rows;
// What negated goals and assumed clauses speak of.
mod standings;
// The start of a search.
mod start;
// The next instruction.
mod turn;

pub use machine::Machine;
pub use plan::Plan;
