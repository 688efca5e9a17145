use crate::node::{TermId, TypeId};

/// What a type variable becomes: a type variable, a type of the bank that is built, or what a type of the bank that is read becomes.
#[derive(Clone, Copy)]
pub enum TypeChange {
    Var(u64),
    Is(TypeId),
    As(TypeId),
}

/// What a logic variable becomes: itself, a term of the bank that is built, or what a term of the bank that is read becomes.
#[derive(Clone, Copy)]
pub enum TermChange {
    Stays,
    Is(TermId),
    As(TermId),
}
