// Why a sentence has no flattened clauses.

use lp_base::{Limit, Memory};
use std::alloc::{AllocError, AllocFailed};

/// Why a sentence has no flattened clauses.
#[derive(Clone, Copy, Debug, PartialEq, Eq)]
pub enum NormalRefusal {
    /// More than 65,535 clauses come of one sentence, assumed ones counted.
    Limit(Limit),
    Memory,
}

impl From<Memory> for NormalRefusal {
    ghost use Rattle.std.specs.Prelude.{◌≡◌};
    ghost use Rattle.lp_normal.specs.declared.fault.NormalRefusal.TheVariants.{Memory};

    ghost from_gives = { λ _ e. e ≡ Memory };

    fn from(_: Memory) -> NormalRefusal {
        NormalRefusal::Memory
    }
}

impl From<AllocError> for NormalRefusal {
    ghost use Rattle.std.specs.Prelude.{◌≡◌};
    ghost use Rattle.lp_normal.specs.declared.fault.NormalRefusal.TheVariants.{Memory};

    ghost from_gives = { λ _ e. e ≡ Memory };

    fn from(_: AllocError) -> NormalRefusal {
        NormalRefusal::Memory
    }
}

impl<T: Drop> From<AllocFailed<T>> for NormalRefusal {
    ghost use Rattle.std.specs.Prelude.{◌≡◌};
    ghost use Rattle.lp_normal.specs.declared.fault.NormalRefusal.TheVariants.{Memory};

    ghost from_gives = { λ _ e. e ≡ Memory };

    fn from(_: AllocFailed<T>) -> NormalRefusal {
        NormalRefusal::Memory
    }
}
