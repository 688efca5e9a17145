// Why there is no unifier.

use lp_base::Memory;
use lp_term::TermRefusal;
use std::alloc::{AllocError, AllocFailed};

/// Why a unification ends without a solution.
#[derive(Clone, Copy, Debug, PartialEq, Eq)]
pub enum PatternRefusal {
    /// There is no solution.
    Fails,
    /// The units pass the limit, a term took too many contractions, or an argument that is tested for a pattern is too large.
    Deep,
    Memory,
}

impl From<Memory> for PatternRefusal {
    ghost use Rattle.std.specs.Prelude.{◌≡◌};
    ghost use Rattle.lp_unify.specs.declared.fault.PatternRefusal.TheVariants.{Memory};

    ghost from_gives = { λ _ e. e ≡ Memory };

    fn from(_: Memory) -> PatternRefusal {
        PatternRefusal::Memory
    }
}

impl From<AllocError> for PatternRefusal {
    ghost use Rattle.std.specs.Prelude.{◌≡◌};
    ghost use Rattle.lp_unify.specs.declared.fault.PatternRefusal.TheVariants.{Memory};

    ghost from_gives = { λ _ e. e ≡ Memory };

    fn from(_: AllocError) -> PatternRefusal {
        PatternRefusal::Memory
    }
}

impl<T: Drop> From<AllocFailed<T>> for PatternRefusal {
    ghost use Rattle.std.specs.Prelude.{◌≡◌};
    ghost use Rattle.lp_unify.specs.declared.fault.PatternRefusal.TheVariants.{Memory};

    ghost from_gives = { λ _ e. e ≡ Memory };

    fn from(_: AllocFailed<T>) -> PatternRefusal {
        PatternRefusal::Memory
    }
}

// A term that takes too many contractions is too deep.
impl From<TermRefusal> for PatternRefusal {
    fn from(refusal: TermRefusal) -> PatternRefusal {
        match refusal {
            TermRefusal::Deep(_) => PatternRefusal::Deep,
            TermRefusal::Memory => PatternRefusal::Memory,
        }
    }
}
