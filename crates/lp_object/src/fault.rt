// Why bytes are refused, and why a value is.
ghost use Rattle.std.specs.Prelude.{◌≡◌};

use lp_base::{Limit, Memory};
use lp_bytes::{Fault, ReadError};
use thiserror::Error;

/// Why bytes are no object or no image. Offsets count from the first byte. Where several apply, `Limit` is told, and else the first one in the order of the bytes.
#[derive(Clone, Copy, Debug, PartialEq, Eq, Drop, Error)]
pub enum FormatFault {
    #[error("bad magic")]
    BadMagic,
    /// Another version.
    #[error("unknown version {0}")]
    BadVersion(u16),
    /// The field at this offset is not whole.
    #[error("truncated at {0}")]
    Truncated(u64),
    /// The field at this offset, or the instruction whose first byte stands there, has no value.
    #[error("bad field at {0}")]
    BadField(u64),
    /// At this offset stands the first byte behind the last field.
    #[error("trailing bytes at {0}")]
    Trailing(u64),
    /// There are more bytes than an object or image has.
    #[error("limit passed")]
    Limit(Limit),
    #[error("no memory")]
    Memory,
}

/// Why no bytes are given.
#[derive(Clone, Copy, Debug, PartialEq, Eq)]
pub enum WriteRefusal {
    /// There would be more bytes than an object or image has.
    Limit(Limit),
    Memory,
}

impl From<ReadError> for FormatFault {
    ghost use Rattle.std.specs.Prelude.{◌≡◌};
    ghost use Rattle.lp_object.specs.Refusing.{refusal};

    ghost from_gives = { λ error e. e ≡ refusal error };

    fn from(error: ReadError) -> FormatFault {
        match error {
            ReadError::Memory => FormatFault::Memory,
            ReadError::Fault(Fault::BadMagic) => FormatFault::BadMagic,
            ReadError::Fault(Fault::BadVersion(version)) => FormatFault::BadVersion(version),
            ReadError::Fault(Fault::Truncated(at)) => FormatFault::Truncated(at),
            ReadError::Fault(Fault::BadField(at)) => FormatFault::BadField(at),
            ReadError::Fault(Fault::Trailing(at)) => FormatFault::Trailing(at),
            ReadError::Fault(Fault::Limit(limit)) => FormatFault::Limit(limit),
        }
    }
}

impl From<Memory> for WriteRefusal {
    ghost use Rattle.std.specs.Prelude.{◌≡◌};
    ghost use Rattle.lp_object.specs.declared.fault.WriteRefusal.TheVariants as refusal;

    ghost from_gives = { λ _ e. e ≡ refusal.Memory };

    fn from(_: Memory) -> WriteRefusal {
        WriteRefusal::Memory
    }
}
