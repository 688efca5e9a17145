// Why a signature is refused.

use lp_base::{Limit, Memory, Spot};
use std::alloc::{AllocError, AllocFailed};

/// Why a signature is refused, with the spot of the name at fault.
#[derive(Clone, Copy, Debug, PartialEq, Eq)]
pub enum SigFault {
    /// A kind or abbreviation that is not declared, or a variable of an abbreviation that is no parameter.
    UnknownKind(Spot),
    /// A kind or abbreviation on another number of arguments.
    Arity(Spot),
    /// A name that is declared otherwise, or a parameter that stands a second time.
    Differ(Spot),
    CyclicAbbreviation(Spot),
    CyclicSignature(Spot),
    Limit(Limit),
    Memory,
    /// A header with another name than its file.
    Header(Spot),
}

impl From<Memory> for SigFault {
    ghost use Rattle.std.specs.Prelude.{◌≡◌};
    ghost use Rattle.lp_sig.specs.declared.fault.SigFault.TheVariants.{Memory};

    ghost from_gives = { λ _ e. e ≡ Memory };

    fn from(_: Memory) -> SigFault {
        SigFault::Memory
    }
}

impl From<AllocError> for SigFault {
    ghost use Rattle.std.specs.Prelude.{◌≡◌};
    ghost use Rattle.lp_sig.specs.declared.fault.SigFault.TheVariants.{Memory};

    ghost from_gives = { λ _ e. e ≡ Memory };

    fn from(_: AllocError) -> SigFault {
        SigFault::Memory
    }
}

impl<T: Drop> From<AllocFailed<T>> for SigFault {
    ghost use Rattle.std.specs.Prelude.{◌≡◌};
    ghost use Rattle.lp_sig.specs.declared.fault.SigFault.TheVariants.{Memory};

    ghost from_gives = { λ _ e. e ≡ Memory };

    fn from(_: AllocFailed<T>) -> SigFault {
        SigFault::Memory
    }
}
