//! The operator table: which names are operators, with their fixities and numbers.
#![tactic(auto)]

// Why an operator cannot be declared.
mod fault;
// The table.
mod table;

pub use fault::FixFault;
pub use lp_standard::Fixity;
pub use table::Table;
