// Why bytes are refused.
ghost use Rattle.std.specs.Prelude.{◌≡◌};
ghost use Rattle.lp_bytes.specs.declared.fault.ReadError.TheVariants as errors;

use lp_base::{Limit, Memory};
use std::alloc::{AllocError, AllocFailed};

/// What is wrong with bytes. Offsets count from the first byte.
#[derive(Clone, Copy, Debug, PartialEq, Eq)]
pub enum Fault {
    /// Other bytes than those of the format begin the file.
    BadMagic,
    /// Another version.
    BadVersion(u16),
    /// The field at this offset is not whole.
    Truncated(u64),
    /// The field at this offset has no value.
    BadField(u64),
    /// At this offset stands the first byte behind the last field.
    Trailing(u64),
    /// There are more bytes than a file has.
    Limit(Limit),
}

/// Why nothing is read.
#[derive(Clone, Copy, Debug, PartialEq, Eq)]
pub enum ReadError {
    Memory,
    Fault(Fault),
}

impl From<Memory> for ReadError {
    ghost from_gives = { λ _ e. e ≡ errors.Memory };

    fn from(_: Memory) -> ReadError {
        ReadError::Memory
    }
}

impl<T: Drop> From<AllocFailed<T>> for ReadError {
    ghost from_gives = { λ _ e. e ≡ errors.Memory };

    fn from(_: AllocFailed<T>) -> ReadError {
        ReadError::Memory
    }
}

impl From<AllocError> for ReadError {
    ghost from_gives = { λ _ e. e ≡ errors.Memory };

    fn from(_: AllocError) -> ReadError {
        ReadError::Memory
    }
}
