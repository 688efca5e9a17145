// Why clauses have no code.

use lp_base::{Limit, Memory};
use std::alloc::{AllocError, AllocFailed};

/// Why clauses or a query have no code.
#[derive(Clone, Copy, Debug, PartialEq, Eq)]
pub enum GenRefusal {
    /// The first that is passed, of strings, arguments, nesting, records and registers.
    Limit(Limit),
    Memory,
}

/// Why a record has no code, where it is within the limits that are passed whatever the code is.
#[derive(Clone, Copy)]
pub(crate) enum RecordRefusal {
    Registers,
    Memory,
}

impl From<RecordRefusal> for GenRefusal {
    ghost use Rattle.std.specs.Prelude.{◌≡◌};
    ghost use Rattle.lp_gen.specs.inner.Variables.{of_record};

    ghost from_gives = { λ refusal e. e ≡ of_record refusal };

    fn from(refusal: RecordRefusal) -> GenRefusal {
        match refusal {
            RecordRefusal::Registers => GenRefusal::Limit(Limit::Registers),
            RecordRefusal::Memory => GenRefusal::Memory,
        }
    }
}

impl From<Memory> for GenRefusal {
    ghost use Rattle.std.specs.Prelude.{◌≡◌};
    ghost use Rattle.lp_gen.specs.declared.fault.GenRefusal.TheVariants.{Memory};

    ghost from_gives = { λ _ e. e ≡ Memory };

    fn from(_: Memory) -> GenRefusal {
        GenRefusal::Memory
    }
}

impl From<AllocError> for GenRefusal {
    ghost use Rattle.std.specs.Prelude.{◌≡◌};
    ghost use Rattle.lp_gen.specs.declared.fault.GenRefusal.TheVariants.{Memory};

    ghost from_gives = { λ _ e. e ≡ Memory };

    fn from(_: AllocError) -> GenRefusal {
        GenRefusal::Memory
    }
}

impl<T: Drop> From<AllocFailed<T>> for GenRefusal {
    ghost use Rattle.std.specs.Prelude.{◌≡◌};
    ghost use Rattle.lp_gen.specs.declared.fault.GenRefusal.TheVariants.{Memory};

    ghost from_gives = { λ _ e. e ≡ Memory };

    fn from(_: AllocFailed<T>) -> GenRefusal {
        GenRefusal::Memory
    }
}

impl From<Memory> for RecordRefusal {
    ghost use Rattle.std.specs.Prelude.{◌≡◌};
    ghost use Rattle.lp_gen.specs.declared.fault.RecordRefusal.TheVariants.{Memory};

    ghost from_gives = { λ _ e. e ≡ Memory };

    fn from(_: Memory) -> RecordRefusal {
        RecordRefusal::Memory
    }
}

impl From<AllocError> for RecordRefusal {
    ghost use Rattle.std.specs.Prelude.{◌≡◌};
    ghost use Rattle.lp_gen.specs.declared.fault.RecordRefusal.TheVariants.{Memory};

    ghost from_gives = { λ _ e. e ≡ Memory };

    fn from(_: AllocError) -> RecordRefusal {
        RecordRefusal::Memory
    }
}

impl<T: Drop> From<AllocFailed<T>> for RecordRefusal {
    ghost use Rattle.std.specs.Prelude.{◌≡◌};
    ghost use Rattle.lp_gen.specs.declared.fault.RecordRefusal.TheVariants.{Memory};

    ghost from_gives = { λ _ e. e ≡ Memory };

    fn from(_: AllocFailed<T>) -> RecordRefusal {
        RecordRefusal::Memory
    }
}
