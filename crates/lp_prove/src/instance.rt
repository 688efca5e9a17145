// Types in the place of a clause's type variables.

use lp_term::{Mapping, TermChange, TypeChange, TypeId};

/// A type for each type variable of a clause, by number. Other type variables stay.
#[derive(Clone, Copy)]
pub(crate) struct Instance<'a> {
    pub(crate) types: &'a [TypeId],
}

impl Mapping for Instance<'_> {
    ghost use Rattle.lp_prove.specs.Told.{instance_told};

    ghost told = { λ i. instance_told i };

    fn kind(&self, kind: u32) -> u32 {
        kind
    }

    fn constant(&self, constant: u32) -> u32 {
        constant
    }

    fn type_variable(&self, variable: u64) -> TypeChange {
        match self.types.get(variable as usize) {
            Some(id) => TypeChange::Is(*id),
            None => TypeChange::Var(variable),
        }
    }

    fn logic_variable(&self, _variable: u64) -> TermChange {
        TermChange::Stays
    }
}
