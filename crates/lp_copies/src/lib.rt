//! The tree of copies: below each module stands a copy for each entry of its accumulate list, in order, a repeated entry giving a further copy.
#![tactic(auto)]

// The copies one behind the other.
mod copying;
// Why there is no order of copies.
mod fault;
// Where the numbers of names end.
mod names;

pub use copying::{Copying, Turn};
pub use fault::TreeRefusal;
pub use names::END_OF_IMAGE_NUMBERS;
