// Why objects are not linked.

use lp_base::{Limit, Memory};
use lp_copies::TreeRefusal;
use std::alloc::{AllocError, AllocFailed};
use thiserror::Error;

/// A name of an object, by its number.
#[derive(Clone, Copy, Debug, PartialEq, Eq)]
pub enum Part {
    Kind(u32),
    Constant(u32),
}

/// Why objects are not linked.
#[derive(Clone, Copy, Debug, PartialEq, Eq, Error)]
pub enum LinkRefusal {
    /// An exported name of this object that a copy of it has, and the copy above has not or has otherwise.
    #[error("signatures differ")]
    Differ(u32, Part),
    #[error("limit")]
    Limit(Limit),
    #[error("memory")]
    Memory,
}

impl From<Memory> for LinkRefusal {
    ghost use Rattle.std.specs.Prelude.{◌≡◌};
    ghost use Rattle.lp_link.specs.declared.fault.LinkRefusal.TheVariants.{Memory};

    ghost from_gives = { λ _ e. e ≡ Memory };

    fn from(_: Memory) -> LinkRefusal {
        LinkRefusal::Memory
    }
}

impl From<TreeRefusal> for LinkRefusal {
    ghost use Rattle.std.specs.Prelude.{◌≡◌};
    ghost use Rattle.lp_link.specs.Refusals.{refusal_of};

    ghost from_gives = { λ r e. e ≡ refusal_of r };

    fn from(refusal: TreeRefusal) -> LinkRefusal {
        match refusal {
            TreeRefusal::TooMany => LinkRefusal::Limit(Limit::Copies),
            TreeRefusal::Memory => LinkRefusal::Memory,
        }
    }
}

impl From<AllocError> for LinkRefusal {
    ghost use Rattle.std.specs.Prelude.{◌≡◌};
    ghost use Rattle.lp_link.specs.declared.fault.LinkRefusal.TheVariants.{Memory};

    ghost from_gives = { λ _ e. e ≡ Memory };

    fn from(_: AllocError) -> LinkRefusal {
        LinkRefusal::Memory
    }
}

impl<T: Drop> From<AllocFailed<T>> for LinkRefusal {
    ghost use Rattle.std.specs.Prelude.{◌≡◌};
    ghost use Rattle.lp_link.specs.declared.fault.LinkRefusal.TheVariants.{Memory};

    ghost from_gives = { λ _ e. e ≡ Memory };

    fn from(_: AllocFailed<T>) -> LinkRefusal {
        LinkRefusal::Memory
    }
}
