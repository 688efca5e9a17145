// A folder of named files and a sink of bytes, as the program sees them.
ghost use Rattle.std.specs.Prelude.{◌≡◌, ◌<◌, ◌≤◌, ◌⊎◌, ◌↔◌, ℕ, List, Option, length, None, Some, IfOk, OnOk, OnErr, IfSome, IsErrOf, IsErr};
ghost use Rattle.lp_base.specs.declared.outside.ReadErr.TheVariants.{Memory as ReadMemory};
ghost use Rattle.lp_base.specs.declared.outside.WriteErr.TheVariants.{Memory as WriteMemory};
ghost use Rattle.lp_base.specs.Counts.{Counts};
ghost use Rattle.lp_base.specs.Held.{Held, Puts, Spares};
ghost use Rattle.lp_base.specs.Read.{IfTooLong, IsTooLong, IsLonger};
ghost use Rattle.lp_base.specs.Written.{Appends, AppendsPrefix};

use crate::{Failed, Memory};
use std::alloc::{AllocError, AllocFailed, Global};

/// Why a file was not read.
#[derive(Clone, Copy, Debug, PartialEq, Eq)]
pub enum ReadErr {
    /// The outside failed.
    Failed,
    /// No file has that name.
    Missing,
    /// The file has at least so many bytes, and that is above the limit.
    TooLong(u64),
    /// Memory ran out.
    Memory,
}

/// Why a file was not written.
#[derive(Clone, Copy, Debug, PartialEq, Eq)]
pub enum WriteErr {
    /// The outside failed.
    Failed,
    /// Memory ran out.
    Memory,
}

impl From<AllocError> for ReadErr {
    ghost from_gives = { λ _ e. e ≡ ReadMemory };

    fn from(_: AllocError) -> Self {
        ReadErr::Memory
    }
}

impl<T: Drop> From<AllocFailed<T>> for ReadErr {
    ghost from_gives = { λ _ e. e ≡ ReadMemory };

    fn from(_: AllocFailed<T>) -> Self {
        ReadErr::Memory
    }
}

impl From<AllocError> for WriteErr {
    ghost from_gives = { λ _ e. e ≡ WriteMemory };

    fn from(_: AllocError) -> Self {
        WriteErr::Memory
    }
}

impl<T: Drop> From<AllocFailed<T>> for WriteErr {
    ghost from_gives = { λ _ e. e ≡ WriteMemory };

    fn from(_: AllocFailed<T>) -> Self {
        WriteErr::Memory
    }
}

impl From<Memory> for WriteErr {
    ghost from_gives = { λ _ e. e ≡ WriteMemory };

    fn from(_: Memory) -> Self {
        WriteErr::Memory
    }
}

/// A folder of named files. What contracts see of it: what it holds, where it tells that, and
/// how often each refusal came. A count that stands at the greatest `u64` is taken as risen.
pub trait Folder {
    /// What stands under each name, where the folder tells it.
    ghost held: { Self → Option Held };

    /// How many reads failed.
    ghost read_faults: { Self → ℕ };

    /// How many writes failed.
    ghost write_faults: { Self → ℕ };

    /// How many reads found no file of the name.
    ghost misses: { Self → ℕ };

    /// How many reads found a file that is too long.
    ghost overs: { Self → ℕ };

    /// The bytes of the file of this name, at most `limit` of them.
    fn read(&mut self, alloc: Global, name: &str, limit: u64) -> Result<Vec<u8>, ReadErr>
        ensures short { IfOk result (λ bytes. length bytes.items ≤ limit) }
        ensures told { IfOk result (λ bytes. IfSome (held self.old) (λ files. files name.now ≡ Some bytes.items)) }
        ensures missing_only { IsErrOf result ReadErr.Missing → IfSome (held self.old) (λ files. files name.now ≡ None) }
        ensures missing { IfSome (held self.old) (λ files. files name.now ≡ None
            → IsErrOf result ReadErr.Failed ⊎ IsErrOf result ReadErr.Missing ⊎ IsErrOf result ReadErr.Memory) }
        ensures too_long { IfTooLong result (λ n. limit < n) }
        ensures too_long_only { IsTooLong result → IfSome (held self.old) (λ files. IsLonger (files name.now) limit) }
        ensures read_faults { Counts (IsErrOf result ReadErr.Failed) (read_faults self.old) (read_faults self.new) }
        ensures misses { Counts (IsErrOf result ReadErr.Missing) (misses self.old) (misses self.new) }
        ensures overs { Counts (IsTooLong result) (overs self.old) (overs self.new) }
        ensures write_faults { write_faults self.new ≡ write_faults self.old }
        ensures same { held self.new ≡ held self.old };

    /// Puts these bytes under this name, in place of what may stand there.
    fn write(&mut self, alloc: Global, name: &str, bytes: &[u8]) -> Result<(), WriteErr>
        ensures told { OnOk result (IfSome (held self.old) (λ old. IfSome (held self.new) (λ new. Puts name.now bytes.now old new))) }
        ensures failed { IsErrOf result WriteErr.Failed → IfSome (held self.old) (λ old. IfSome (held self.new) (λ new. Spares name.now old new)) }
        ensures memory { IsErrOf result WriteErr.Memory → held self.new ≡ held self.old }
        ensures tells { (held self.new ≡ None) ↔ (held self.old ≡ None) }
        ensures write_faults { Counts (IsErrOf result WriteErr.Failed) (write_faults self.old) (write_faults self.new) }
        ensures read_faults { read_faults self.new ≡ read_faults self.old }
        ensures misses { misses self.new ≡ misses self.old }
        ensures overs { overs self.new ≡ overs self.old };
}

/// A sink of bytes. It takes no memory of the caller.
pub trait Sink {
    /// All that was written, where the sink tells it.
    ghost written: { Self → Option (List ℕ) };

    /// How many pieces failed. A count that stands at the greatest `u64` is taken as risen.
    ghost faults: { Self → ℕ };

    /// Appends a piece. After a fault a prefix of the piece was appended.
    fn put(&mut self, piece: &[u8]) -> Result<(), Failed>
        ensures appended { OnOk result (Appends (written self.old) (written self.new) piece.now) }
        ensures prefix { OnErr result (AppendsPrefix (written self.old) (written self.new) piece.now) }
        ensures faults { Counts (IsErr result) (faults self.old) (faults self.new) };
}
