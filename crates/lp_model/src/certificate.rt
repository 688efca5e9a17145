// Certificates: uniform proofs of instances of a query, node by node.

use lp_term::{TermId, TypeId};

/// A node of a proof, with what it names beside the nodes below it. The first eleven stand where a goal is proved, the others where a clause is
/// focused on; the nodes below a node follow it, first to last.
#[derive(Drop)]
pub enum ProofNode {
    /// The goal is taken as this one, which it converts to.
    Conv(TermId),
    /// `true`.
    True,
    /// Both sides of a conjunction.
    And,
    /// The left side of a disjunction.
    Left,
    /// The right side of a disjunction.
    Right,
    /// The body of `sigma` at this value.
    Some(TermId),
    /// The body of `pi` at a new eigenconstant.
    All,
    /// The right side of an implication, with its left side assumed.
    Assume,
    /// The sides of an equation convert.
    Equal,
    /// The numbers of an arithmetic goal are as it says.
    Arith,
    /// The clause of this number, at these types, is focused on.
    Back(u32, Vec<TypeId>),
    /// The clause is taken as this one, which it converts to.
    FocusConv(TermId),
    /// The body of `pi` at this value.
    FocusAll(TermId),
    /// One side of a conjunction: the left one is 0, the right one 1.
    Take(u8),
    /// The head of an implication, whose body is proved.
    Need,
    /// The clause is the goal.
    Hit,
}

/// The types and the values of a query's variables, in order of first occurrence, and a proof of that instance, its nodes in the order of a file. All
/// numbers stand in one bank.
#[derive(Drop)]
pub struct Certificate {
    pub types: Vec<TypeId>,
    pub values: Vec<TermId>,
    pub proof: Vec<ProofNode>,
}
