ghost use Rattle.std.specs.Prelude.{◌≡◌, ℕ};
ghost use Rattle.lp_term.specs.Mapped.{Told};
ghost use Rattle.lp_term.specs.Same.{same_told};

use crate::becomes::{TermChange, TypeChange};

/// What becomes of kinds, constants, type variables and logic variables.
pub trait Mapping {
    /// What is told of each.
    ghost told: { Self → Told };

    /// The new number of a kind.
    fn kind(&self, kind: u32) -> u32
        ensures { result ≡ (told self.now).kinds kind };

    /// The new number of a constant.
    fn constant(&self, constant: u32) -> u32
        ensures { result ≡ (told self.now).constants constant };

    /// What a type variable becomes. The type that another one becomes has no such variable at its top.
    fn type_variable(&self, variable: u64) -> TypeChange
        ensures { result ≡ (told self.now).types variable };

    /// What a logic variable becomes. The term that another one becomes has no such variable at its top.
    fn logic_variable(&self, variable: u64) -> TermChange
        ensures { result ≡ (told self.now).terms variable };
}

/// All stays what it is.
#[derive(Clone, Copy)]
pub struct Same;

impl Mapping for Same {
    ghost told = { λ _. same_told };

    fn kind(&self, kind: u32) -> u32 {
        kind
    }

    fn constant(&self, constant: u32) -> u32 {
        constant
    }

    fn type_variable(&self, variable: u64) -> TypeChange {
        TypeChange::Var(variable)
    }

    fn logic_variable(&self, _variable: u64) -> TermChange {
        TermChange::Stays
    }
}
