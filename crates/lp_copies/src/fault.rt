// Why there is no order of copies.

use lp_base::Memory;
use std::alloc::{AllocError, AllocFailed};

/// Why there is no order of copies.
#[derive(Clone, Copy, Debug, PartialEq, Eq)]
pub enum TreeRefusal {
    /// There are more than `MAX_COPIES` copies. A module that leads back to itself has no end of them.
    TooMany,
    Memory,
}

impl From<Memory> for TreeRefusal {
    ghost use Rattle.std.specs.Prelude.{◌≡◌};
    ghost use Rattle.lp_copies.specs.declared.fault.TreeRefusal.TheVariants.{Memory};

    ghost from_gives = { λ _ e. e ≡ Memory };

    fn from(_: Memory) -> TreeRefusal {
        TreeRefusal::Memory
    }
}

impl From<AllocError> for TreeRefusal {
    ghost use Rattle.std.specs.Prelude.{◌≡◌};
    ghost use Rattle.lp_copies.specs.declared.fault.TreeRefusal.TheVariants.{Memory};

    ghost from_gives = { λ _ e. e ≡ Memory };

    fn from(_: AllocError) -> TreeRefusal {
        TreeRefusal::Memory
    }
}

impl<T: Drop> From<AllocFailed<T>> for TreeRefusal {
    ghost use Rattle.std.specs.Prelude.{◌≡◌};
    ghost use Rattle.lp_copies.specs.declared.fault.TreeRefusal.TheVariants.{Memory};

    ghost from_gives = { λ _ e. e ≡ Memory };

    fn from(_: AllocFailed<T>) -> TreeRefusal {
        TreeRefusal::Memory
    }
}
