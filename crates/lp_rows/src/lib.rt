//! What public calls give on plain data: rows, as tests over the crates as they are built, so that no crate is proved twice for its own.
//! The rows of the language, from texts to lines, are those of lp_cli.
#![tactic(auto)]

// Folders, sinks, statuses and limits.
#[cfg(test)]
mod base;
// The table of operators.
#[cfg(test)]
mod fixity;
// Tokens and their faults.
#[cfg(test)]
mod lexer;
// Long chains of goals.
#[cfg(test)]
mod model;
// Unification.
#[cfg(test)]
mod pattern;
// Shown terms and endings.
#[cfg(test)]
mod show;
// Fixed kinds and constants.
#[cfg(test)]
mod standard;
// The store.
#[cfg(test)]
mod store;
// Bindings of the store, for bench/store.sh.
#[cfg(test)]
mod store_timed;
// Suspended terms.
#[cfg(test)]
mod susp;
// Reductions in the store, for bench/store.sh.
#[cfg(test)]
mod susp_timed;
// The bank and its reductions.
#[cfg(test)]
mod term;
// Reductions in the bank, for bench/church.sh.
#[cfg(test)]
mod term_timed;
// Equations of types.
#[cfg(test)]
mod type_unify;
// Watchers.
#[cfg(test)]
mod watch;
