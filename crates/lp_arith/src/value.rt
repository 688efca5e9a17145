// Values, and why there is none.

use lp_base::Memory;
use lp_store::CellId;
use lp_term::TermRefusal;
use std::alloc::{AllocError, AllocFailed};

/// The value of an expression. A string is a cell that holds it.
#[derive(Clone, Copy)]
pub enum Value {
    Int(i64),
    Text(CellId),
}

/// Why an expression has no value.
#[derive(Clone, Copy, Debug, PartialEq, Eq)]
pub enum ArithRefusal {
    /// An integer past 64 bits.
    Overflow,
    ZeroDivisor,
    /// A variable stands in the expression, or something that is no operation.
    NotClosed,
    /// It takes more nodes or contractions than a run may.
    Deep,
    Memory,
}

impl From<Memory> for ArithRefusal {
    ghost use Rattle.std.specs.Prelude.{◌≡◌};
    ghost use Rattle.lp_arith.specs.declared.value.ArithRefusal.TheVariants.{Memory};

    ghost from_gives = { λ _ e. e ≡ Memory };

    fn from(_: Memory) -> ArithRefusal {
        ArithRefusal::Memory
    }
}

impl From<AllocError> for ArithRefusal {
    ghost use Rattle.std.specs.Prelude.{◌≡◌};
    ghost use Rattle.lp_arith.specs.declared.value.ArithRefusal.TheVariants.{Memory};

    ghost from_gives = { λ _ e. e ≡ Memory };

    fn from(_: AllocError) -> ArithRefusal {
        ArithRefusal::Memory
    }
}

impl<T: Drop> From<AllocFailed<T>> for ArithRefusal {
    ghost use Rattle.std.specs.Prelude.{◌≡◌};
    ghost use Rattle.lp_arith.specs.declared.value.ArithRefusal.TheVariants.{Memory};

    ghost from_gives = { λ _ e. e ≡ Memory };

    fn from(_: AllocFailed<T>) -> ArithRefusal {
        ArithRefusal::Memory
    }
}

// A term that takes too many contractions is too deep.
impl From<TermRefusal> for ArithRefusal {
    ghost use Rattle.std.specs.Prelude.{◌≡◌};
    ghost use Rattle.lp_arith.specs.inner.Refusals.{refusal_of};

    ghost from_gives = { λ r e. e ≡ refusal_of r };

    fn from(refusal: TermRefusal) -> ArithRefusal {
        match refusal {
            TermRefusal::Deep(_) => ArithRefusal::Deep,
            TermRefusal::Memory => ArithRefusal::Memory,
        }
    }
}
