//! What queries on the texts of modules come to: rows of `solve` and of `trial`, as tests over the crates as they are built.
#![tactic(auto)]

// Queries on files in memory.
#[cfg(test)]
mod asking;
// The examples, each with its queries.
#[cfg(test)]
mod examples;
// Facts and rules on constants and variables.
#[cfg(test)]
mod facts;
// Limits of texts and of sets.
#[cfg(test)]
mod limits;
// Why the texts of one module are refused.
#[cfg(test)]
mod module_texts;
// Negated goals.
#[cfg(test)]
mod negation;
// Why texts are refused.
#[cfg(test)]
mod refusals;
// Queries and their answers.
#[cfg(test)]
mod rows;
// Sets of files.
#[cfg(test)]
mod sets;
// Generated queries.
#[cfg(test)]
mod trials;
