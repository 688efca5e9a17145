// Terms of the search with all bindings put in.

use lp_plain::Search;
use lp_term::{Mapping, TermChange, TypeChange};

/// What the variables of the branch at work are bound to.
#[derive(Clone, Copy)]
pub(crate) struct Bound<'a> {
    pub(crate) search: &'a Search,
}

impl Mapping for Bound<'_> {
    ghost use Rattle.lp_prove.specs.Told.{bound_told};

    ghost told = { λ b. bound_told b };

    fn kind(&self, kind: u32) -> u32 {
        kind
    }

    fn constant(&self, constant: u32) -> u32 {
        constant
    }

    fn type_variable(&self, variable: u64) -> TypeChange {
        match self.search.type_value(variable) {
            Some(id) => TypeChange::As(id),
            None => TypeChange::Var(variable),
        }
    }

    fn logic_variable(&self, variable: u64) -> TermChange {
        match self.search.value(variable) {
            Some(id) => TermChange::As(id),
            None => TermChange::Stays,
        }
    }
}
