// Why bytes are refused, and why certificates are.
ghost use Rattle.std.specs.Prelude.{◌≡◌};

use lp_base::{Limit, Memory};
use lp_bytes::{Fault, ReadError};
use std::alloc::{AllocError, AllocFailed};
use thiserror::Error;

/// Why bytes are no certificates, or certificates get no bytes. Offsets count from the first byte. `Limit` goes before the others, and else the
/// first one in the order of the bytes is told.
#[derive(Clone, Copy, Debug, PartialEq, Eq, Drop, Error)]
pub enum CertFault {
    #[error("bad magic")]
    BadMagic,
    /// Another version.
    #[error("unknown version {0}")]
    BadVersion(u16),
    /// The field at this offset is not whole.
    #[error("truncated at {0}")]
    Truncated(u64),
    /// The field at this offset has no value.
    #[error("bad field at {0}")]
    BadField(u64),
    /// At this offset stands the first byte behind the last field.
    #[error("trailing bytes at {0}")]
    Trailing(u64),
    /// There are more bytes than a file of certificates has.
    #[error("limit passed")]
    Limit(Limit),
    #[error("no memory")]
    Memory,
}

impl From<Memory> for CertFault {
    ghost use Rattle.std.specs.Prelude.{◌≡◌};
    ghost use Rattle.lp_cert.specs.declared.fault.CertFault.TheVariants as fault;

    ghost from_gives = { λ _ e. e ≡ fault.Memory };

    fn from(_: Memory) -> CertFault {
        CertFault::Memory
    }
}

impl<T: Drop> From<AllocFailed<T>> for CertFault {
    ghost use Rattle.std.specs.Prelude.{◌≡◌};
    ghost use Rattle.lp_cert.specs.declared.fault.CertFault.TheVariants as fault;

    ghost from_gives = { λ _ e. e ≡ fault.Memory };

    fn from(_: AllocFailed<T>) -> CertFault {
        CertFault::Memory
    }
}

impl From<AllocError> for CertFault {
    ghost use Rattle.std.specs.Prelude.{◌≡◌};
    ghost use Rattle.lp_cert.specs.declared.fault.CertFault.TheVariants as fault;

    ghost from_gives = { λ _ e. e ≡ fault.Memory };

    fn from(_: AllocError) -> CertFault {
        CertFault::Memory
    }
}

impl From<ReadError> for CertFault {
    ghost use Rattle.std.specs.Prelude.{◌≡◌};
    ghost use Rattle.lp_cert.specs.Refusing.{refusal};

    ghost from_gives = { λ error e. e ≡ refusal error };

    fn from(error: ReadError) -> CertFault {
        match error {
            ReadError::Memory => CertFault::Memory,
            ReadError::Fault(Fault::BadMagic) => CertFault::BadMagic,
            ReadError::Fault(Fault::BadVersion(version)) => CertFault::BadVersion(version),
            ReadError::Fault(Fault::Truncated(at)) => CertFault::Truncated(at),
            ReadError::Fault(Fault::BadField(at)) => CertFault::BadField(at),
            ReadError::Fault(Fault::Trailing(at)) => CertFault::Trailing(at),
            ReadError::Fault(Fault::Limit(limit)) => CertFault::Limit(limit),
        }
    }
}
