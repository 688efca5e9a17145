//! The judging of code: an image whose code denotes clauses, or the first rule that its code breaks.
#![tactic(auto)]

// The registers that an ALL sets.
mod alls;
// The blocks of a record, and where its instructions stand.
mod blocks;
// What is looked at in a term.
mod built;
// What the instructions do.
mod effect;
// Types put in for type variables.
mod filling;
// The head of a record at work.
mod head;
// Where variables stand in the head.
mod arguments;
// The key of the head's first argument.
mod keys;
// Where code denotes clauses.
mod laws;
// Loose indices with their types.
mod loose;
// The registers that an instruction reads and sets.
mod operands;
// One record at work.
mod record;
// Why code is refused.
mod refusal;
// Registers: what stands in them, and what was set.
mod registers;
// The rules, for one instruction.
mod rules;
// The kinds and constants that code may name.
mod tables;
// Types, each by its first number.
mod types;
// What an instruction builds, where it is well typed.
mod typing;
// Images and objects.
mod judging;
// The rules of a record as a whole.
mod whole;

pub use judging::{Verified, verify, verify_object};
pub use laws::denotes_exactly;
pub use lp_code::Rule;
pub use refusal::VerifyRefusal;
