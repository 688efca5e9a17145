//! The tokens of a text, each with its place.
#![tactic(auto)]

// The classes of bytes.
mod class;
// What stands at the front of the rest of a text.
mod front;
// What holds of every text: one reading, of the longest tokens.
mod laws;
// The reading of a whole text.
mod read;
// Tokens and faults.
mod token;

pub use laws::{comments_nest, one_reading, some_reading, tokens_are_longest};
pub use read::{end_place, tokens};
pub use token::{LexFault, Token, TokenKind};
