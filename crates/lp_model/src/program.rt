// Programs and typed formulas, over the nodes of a bank.

use lp_base::Spot;
use lp_term::{Bank, TermId, TypeId};

/// A constant of a program: its name as shown, and its declared type, whose type variables are those below `type_vars`. The entries
/// of a list have the numbers from 32.
#[derive(Drop)]
pub struct Declared {
    pub shown: Vec<u8>,
    pub type_vars: u8,
    pub scheme: TypeId,
}

/// A closed clause formula, whose type variables are those below `type_vars`.
#[derive(Clone, Copy, Debug, PartialEq, Eq)]
pub struct ClauseFormula {
    pub type_vars: u32,
    pub formula: TermId,
}

/// The declared constants and the clauses of a set of modules. All numbers stand in the bank.
#[derive(Drop)]
pub struct Program {
    pub bank: Bank,
    pub constants: Vec<Declared>,
    pub clauses: Vec<ClauseFormula>,
}

/// A typed sentence or query: its variables with their places and types, the first of them the outermost index of the formula, and its type
/// variables, those below `type_vars`.
#[derive(Drop)]
pub struct Typed {
    pub type_vars: u64,
    pub vars: Vec<(Spot, TypeId)>,
    pub formula: TermId,
}
