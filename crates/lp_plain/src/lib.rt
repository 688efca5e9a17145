//! Plain search: depth-first search of a program's clauses for the answers of a query.
#![tactic(auto)]

// What was done on the way of a branch.
mod act;
// An answer in a bank of its own.
mod answer;
// The values of expressions.
mod arithmetic;
// Clauses that are assumed.
mod assume;
// One try of a clause for a goal.
mod attempt;
// Atomic goals: a step each.
mod atomic;
// The clauses that may meet a goal.
mod candidates;
// Terms below binders.
mod below;
// What is left to try.
mod choice;
// A search, from one event to the next.
mod events;
/// What a search tells from event to event is what its run tells.
pub mod laws;
// An atomic goal by its head-normal form.
mod form;
// The variables that are written in goals and clauses.
mod free;
// Goals that are to be proved, and assumed clauses.
mod frame;
// What is told of a clause's head before it is tried.
mod head;
// Terms of a clause with values for its variables.
mod instance;
// What a search works on.
mod machine;
// The names of goals, as a note tells them.
mod name;
// Negated goals.
mod negation;
// The newest assumption of each head.
mod newest;
// Whether a negated goal is open.
mod openness;
// The values of bound variables.
mod scope;
// How the search goes on, and what is counted on its way.
mod outcome;
// What the operations give on integers.
mod operation;
// Goals that are taken apart.
mod parts;
// A search, between its events.
mod search;
// The start of a search.
mod start;
// Flattened goals and clauses by number.
mod table;
// What was done on the way to an answer, as others see it.
mod trace;
// The next goal of a branch.
mod turn;
// Types with new type variables.
mod types;
// Unification in the branch at work.
mod unified;
// Whether a variable stands in a term.
mod variables;

pub use act::{Act, Try};
pub use search::Search;
pub use trace::Origin;
