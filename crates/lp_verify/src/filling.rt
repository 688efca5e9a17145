// Types put in for the type variables of a declared type.

use lp_term::{Mapping, TermChange, TypeChange, TypeId};

// A type for each type variable, by number, and another one for those that are too many.
#[derive(Clone, Copy)]
pub(crate) struct Filling<'a> {
    pub(crate) types: &'a [TypeId],
    pub(crate) other: TypeId,
}

impl Mapping for Filling<'_> {
    ghost use Rattle.lp_verify.specs.Filling.{told_by};

    ghost told = { λ f. told_by f };

    fn kind(&self, kind: u32) -> u32 {
        kind
    }

    fn constant(&self, constant: u32) -> u32 {
        constant
    }

    fn type_variable(&self, variable: u64) -> TypeChange {
        match self.types.get(variable as usize) {
            Some(of) => TypeChange::Is(*of),
            None => TypeChange::Is(self.other),
        }
    }

    fn logic_variable(&self, _variable: u64) -> TermChange {
        TermChange::Stays
    }
}
