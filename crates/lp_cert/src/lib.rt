//! Certificates of answers: their bytes both ways, and whether they are proofs.
#![tactic(auto)]

// How many types the kinds and constants of a program take.
mod arities;
// Nodes that prove `t is e`, or an order of two expressions.
mod arithmetic;
// Why bytes are refused, and why certificates are.
mod fault;
// Files of certificates.
mod file;
// Nodes that focus on a clause for an atom.
mod focus;
// Normal forms, and whether two terms convert.
mod form;
// Nodes that prove a goal.
mod goal;
// Types put in for type variables, and values for the variables of a query.
mod instance;
// The judging of certificates.
mod judging;
// What is known of each type and each term of a bank.
mod known;
// What follows from a certificate.
mod laws;
// Proofs as bytes.
mod nodes;
// The declared types of constants.
mod schemes;
// How a formula begins.
mod shape;
// Stacks, of which the last one comes first.
mod stack;
// Terms as bytes.
mod terms;
// Types as bytes.
mod types;
// Whether a closed term has a type.
mod typing;
// The value of an expression in normal form.
mod value;
// What is still to be shown.
mod work;

pub use fault::CertFault;
pub use file::{read_cert, write_cert};
pub use judging::{CheckVerdict, check};
pub use laws::certified_instances_are_provable;
