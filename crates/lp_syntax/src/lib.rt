//! Sentences and terms of a text: signatures, modules and queries from their tokens.
#![tactic(auto)]

// An operator behind an operand.
mod attach;
// What begins an operand.
mod begin;
// Open brackets.
mod brackets;
// The tokens as the grammar tells them apart.
mod class;
// Closing marks.
mod close;
// Declarations.
mod declaration;
// How deep terms are.
mod depth;
// Why a text is refused.
mod fault;
// The end of a term.
mod finish;
// What fits beside an operator.
mod fits;
// What the reader of terms holds.
mod held;
// A text with its tokens.
mod input;
// What holds of the grammar of terms.
mod laws;
// Nodes while they are built.
mod node;
// What a text says of other files.
mod outline;
// Lists of names, kinds and types.
mod parts;
// One symbol of a term.
mod step;
// Symbols of terms.
mod symbol;
// Terms.
mod term;
// Sentences and terms as they are handed out.
mod text;
// Types.
mod types;
// Whole texts.
mod whole;

pub use fault::SyntaxFault;
pub use laws::{
    faults_first, one_annotation, one_depth, one_module, one_query, one_signature, one_tree,
    reads_the_grammar,
};
pub use outline::references;
pub use text::{
    Declaration, FixityLine, ModuleText, RawNode, RawQuery, RawTerm, RawType, RawTypeNode,
    References, Sentence, SignatureText,
};
pub use whole::{module_text, query_text, signature_text};
