//! Signatures: the kinds, constants, abbreviations and fixities that a text or an image declares.
#![tactic(auto)]

// The kinds and abbreviations of a text, before its lines.
mod announce;
// The types so far, with the bodies of abbreviations.
mod bodies;
// The constants so far.
mod constants;
// What the declarations of a text say, line by line.
mod declare;
// Entries of a signature.
mod entries;
// Types of a text, with abbreviations replaced.
mod expand;
// Why a signature is refused.
mod fault;
// What a module's text says of names and words.
mod hearing;
// Copies of types, and their variables.
mod interned;
// Laws over the definitions.
mod laws;
// The declarations of a text by their lines.
mod lines;
// The declarations so far.
mod making;
// Why a module's declarations are refused.
mod module_fault;
// What the declarations of a module say, line by line.
mod module_lines;
// From a module's declarations to the signature of what it sees.
mod module_text;
// The names of kinds and abbreviations so far.
mod names;
// The fixities so far.
mod operators;
// The words of a text.
mod pieces;
// Names with the place at which each stands first.
mod places;
// What a text sees of other signatures.
mod see;
// The bodies of abbreviations.
mod settle;
// Signatures and what they tell.
mod signature;
// The names of every text.
mod standard;
// Types of which each stands once in a bank.
mod store;
// From texts to a signature.
mod texts;
// Which abbreviations the body of each names.
mod uses;
// The order of signatures, and circles of accum_sig.
mod walk;

pub use entries::{AbbreviationEntry, ConstantEntry, FixityEntry, KindEntry};
pub use fault::SigFault;
pub use laws::{
    a_type_has_one_scheme, bodies_are_whole, names_are_apart, own_names_come_first,
    signatures_are_ordered, texts_have_one_signature, types_are_whole, types_hold_no_parameters,
    worked_signature,
};
pub use module_fault::ModuleSigFault;
pub use module_text::module_signature;
pub use pieces::{is_variable, spelled_at};
pub use signature::Signature;
pub use standard::{FIRST_CONSTANT, FIRST_KIND, standard_constant, standard_kind};
pub use texts::elaborate;
