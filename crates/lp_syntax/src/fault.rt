// Why a text is no sentence.

use lp_base::{Limit, Memory, Spot};
use lp_fixity::FixFault;
use std::alloc::{AllocError, AllocFailed};

/// Why a text is refused: at the first token such that no text of the grammar begins with the tokens up to it.
#[derive(Clone, Copy, Debug, PartialEq, Eq)]
pub enum SyntaxFault {
    /// The token, or the place behind the last byte where the text ends too early.
    Unexpected(Spot),
    /// An operator behind an operand that an operator of the same number before it could take too.
    Ambiguous(Spot),
    /// The innermost bracket that is open where the text ends.
    Unclosed(Spot),
    /// A word or a real that is kept for what is not supported.
    Unsupported(Spot),
    Memory,
    Limit(Limit),
    /// An operator that cannot be declared, never for want of memory.
    Operator(FixFault, Spot),
}

impl From<AllocError> for SyntaxFault {
    ghost use Rattle.std.specs.Prelude.{◌≡◌};
    ghost use Rattle.lp_syntax.specs.declared.fault.SyntaxFault.TheVariants as fault;

    ghost from_gives = { λ _ e. e ≡ fault.Memory };

    fn from(_: AllocError) -> SyntaxFault {
        SyntaxFault::Memory
    }
}

impl<T: Drop> From<AllocFailed<T>> for SyntaxFault {
    ghost use Rattle.std.specs.Prelude.{◌≡◌};
    ghost use Rattle.lp_syntax.specs.declared.fault.SyntaxFault.TheVariants as fault;

    ghost from_gives = { λ _ e. e ≡ fault.Memory };

    fn from(_: AllocFailed<T>) -> SyntaxFault {
        SyntaxFault::Memory
    }
}

impl From<Memory> for SyntaxFault {
    ghost use Rattle.std.specs.Prelude.{◌≡◌};
    ghost use Rattle.lp_syntax.specs.declared.fault.SyntaxFault.TheVariants as fault;

    ghost from_gives = { λ _ e. e ≡ fault.Memory };

    fn from(_: Memory) -> SyntaxFault {
        SyntaxFault::Memory
    }
}
