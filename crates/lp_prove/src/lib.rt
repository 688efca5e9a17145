//! Certificates: the uniform proof that an answer of a search has, read off from what was done on the way to it.
#![tactic(auto)]

// Which of a program's clauses is tried, and at which types.
mod backing;
// Terms of the search with all bindings put in.
mod bound;
// The certificate of an answer.
mod certifying;
// Parameters in the place of free variables.
mod closing;
// The way through a clause to one of its parts.
mod focusing;
// Normal forms.
mod forms;
// The variables that are free in a certificate, in the order of its bytes.
mod free;
// Types in the place of a clause's type variables.
mod instance;
// Goals that are proved.
mod proving;
// The instance of the query.
mod query;
// The types of logic variables.
mod sorts;
// What the walk over the proof works on.
mod walk;

pub use certifying::certificate;
