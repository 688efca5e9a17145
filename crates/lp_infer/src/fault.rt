// Why a text has no typing.

use lp_base::{Memory, Spot};
use std::alloc::{AllocError, AllocFailed};

/// Why a text has no typing.
#[derive(Clone, Copy, Debug, PartialEq, Eq)]
pub enum InferFault {
    /// The first name that is not declared, kinds and abbreviations of annotations among them.
    Undeclared(Spot),
    /// Every name is declared, and no well-typed formula leaves the text. The spot is that of its first token.
    NoTyping(Spot),
    Memory,
}

impl From<Memory> for InferFault {
    ghost use Rattle.std.specs.Prelude.{◌≡◌};
    ghost use Rattle.lp_infer.specs.declared.fault.InferFault.TheVariants.{Memory};

    ghost from_gives = { λ _ e. e ≡ Memory };

    fn from(_: Memory) -> InferFault {
        InferFault::Memory
    }
}

impl From<AllocError> for InferFault {
    ghost use Rattle.std.specs.Prelude.{◌≡◌};
    ghost use Rattle.lp_infer.specs.declared.fault.InferFault.TheVariants.{Memory};

    ghost from_gives = { λ _ e. e ≡ Memory };

    fn from(_: AllocError) -> InferFault {
        InferFault::Memory
    }
}

impl<T: Drop> From<AllocFailed<T>> for InferFault {
    ghost use Rattle.std.specs.Prelude.{◌≡◌};
    ghost use Rattle.lp_infer.specs.declared.fault.InferFault.TheVariants.{Memory};

    ghost from_gives = { λ _ e. e ≡ Memory };

    fn from(_: AllocFailed<T>) -> InferFault {
        InferFault::Memory
    }
}
