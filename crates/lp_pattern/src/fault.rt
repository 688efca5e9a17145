// Why there is no unifier.

use lp_base::Memory;
use lp_term::TermRefusal;
use lp_type_unify::EquationRefusal;
use std::alloc::{AllocError, AllocFailed};

/// Why a unification gives nothing.
#[derive(Clone, Copy, Debug, PartialEq, Eq)]
pub enum PatternRefusal {
    /// There is no solution.
    Fails,
    /// The units pass the limit, or a term took too many contractions.
    Deep,
    Memory,
}

impl From<Memory> for PatternRefusal {
    ghost use Rattle.std.specs.Prelude.{◌≡◌};
    ghost use Rattle.lp_pattern.specs.declared.fault.PatternRefusal.TheVariants.{Memory};

    ghost from_gives = { λ _ e. e ≡ Memory };

    fn from(_: Memory) -> PatternRefusal {
        PatternRefusal::Memory
    }
}

impl From<AllocError> for PatternRefusal {
    ghost use Rattle.std.specs.Prelude.{◌≡◌};
    ghost use Rattle.lp_pattern.specs.declared.fault.PatternRefusal.TheVariants.{Memory};

    ghost from_gives = { λ _ e. e ≡ Memory };

    fn from(_: AllocError) -> PatternRefusal {
        PatternRefusal::Memory
    }
}

impl<T: Drop> From<AllocFailed<T>> for PatternRefusal {
    ghost use Rattle.std.specs.Prelude.{◌≡◌};
    ghost use Rattle.lp_pattern.specs.declared.fault.PatternRefusal.TheVariants.{Memory};

    ghost from_gives = { λ _ e. e ≡ Memory };

    fn from(_: AllocFailed<T>) -> PatternRefusal {
        PatternRefusal::Memory
    }
}

// A term that takes too many contractions is too deep.
impl From<TermRefusal> for PatternRefusal {
    ghost use Rattle.lp_pattern.specs.Refusing.{IsOfTerm};

    ghost from_gives = { λ t e. IsOfTerm t e };

    fn from(refusal: TermRefusal) -> PatternRefusal {
        match refusal {
            TermRefusal::Deep(_) => PatternRefusal::Deep,
            TermRefusal::Memory => PatternRefusal::Memory,
        }
    }
}

impl From<EquationRefusal> for PatternRefusal {
    ghost use Rattle.lp_pattern.specs.Refusing.{IsOfEquations};

    ghost from_gives = { λ t e. IsOfEquations t e };

    fn from(refusal: EquationRefusal) -> PatternRefusal {
        match refusal {
            EquationRefusal::Fails => PatternRefusal::Fails,
            EquationRefusal::Deep => PatternRefusal::Deep,
            EquationRefusal::Memory => PatternRefusal::Memory,
        }
    }
}
