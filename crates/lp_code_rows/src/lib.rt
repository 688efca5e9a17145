//! What the public calls of compiled code give on plain data: rows, as tests over the crates as they are built, beside those of lp_rows.
#![tactic(auto)]

// The order in which files are loaded.
#[cfg(test)]
mod build;
// Each byte of a small image, changed.
#[cfg(test)]
mod changed;
// Objects and images.
#[cfg(test)]
mod files;
// Code from flattened clauses.
#[cfg(test)]
mod generated;
// Images of sets of objects.
#[cfg(test)]
mod linked;
// The bytes of objects and images.
#[cfg(test)]
mod object;
// Code that is refused.
#[cfg(test)]
mod verify;
