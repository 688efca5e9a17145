// A folder in memory, some of whose calls fail.
ghost use Rattle.std.specs.Prelude.{◌≡◌, ◌+◌, ◌<◌, ◌≤◌, ◌⊎◌, ◌↔◌, ◌-◌, ◌^◌, ℕ, List, Option, length, min, None, Some, IfOk, OnOk, IfSome, IsErrOf, IsTrue, option_map, Contains};
ghost use Rattle.lp_base.specs.Counts.{Counts};
ghost use Rattle.lp_base.specs.Files.{found};
ghost use Rattle.lp_base.specs.Held.{Held, Puts, Spares};
ghost use Rattle.lp_base.specs.Schedule.{IsDue, CalledOnce, IsNew};
ghost use Rattle.lp_base.specs.Read.{IfTooLong, IsTooLong, IsLonger};

use crate::schedule::Schedule;
use crate::{Folder, ReadErr, SureFolder, WriteErr};
use std::alloc::Global;

/// A folder in memory that tells its content, and fails at calls of given numbers.
#[derive(Drop)]
pub struct MemFolder {
    folder: SureFolder,
    schedule: Schedule,
    read_faults: u64,
    write_faults: u64,
}

impl MemFolder {
    /// A folder of these files, of distinct names. Of its reads and writes those fail whose
    /// number is in `fail`, counted together from 0.
    pub fn new(files: Vec<(String, Vec<u8>)>, fail: Vec<u64>) -> MemFolder
        ensures held { ⟦<MemFolder as Folder>⟧.held result ≡ Some (found files.items) }
        ensures read_faults { ⟦<MemFolder as Folder>⟧.read_faults result ≡ 0 }
        ensures write_faults { ⟦<MemFolder as Folder>⟧.write_faults result ≡ 0 }
        ensures misses { ⟦<MemFolder as Folder>⟧.misses result ≡ 0 }
        ensures overs { ⟦<MemFolder as Folder>⟧.overs result ≡ 0 }
        ensures schedule { IsNew result.schedule fail.items }
    {
        MemFolder {
            folder: SureFolder::new(files),
            schedule: Schedule::new(fail),
            read_faults: 0,
            write_faults: 0,
        }
    }

    /// The bytes of the file of this name.
    pub fn get(&self, name: &str) -> Option<&[u8]>
        ensures { IfSome (⟦<MemFolder as Folder>⟧.held self.now) (λ files. option_map (λ bytes. bytes.now) result ≡ files name.now) }
    {
        self.folder.get(name)
    }
}

impl Folder for MemFolder {
    ghost held = { λ m. ⟦<SureFolder as Folder>⟧.held m.folder };

    ghost read_faults = { λ m. m.read_faults };

    ghost write_faults = { λ m. m.write_faults };

    ghost misses = { λ m. ⟦<SureFolder as Folder>⟧.misses m.folder };

    ghost overs = { λ m. ⟦<SureFolder as Folder>⟧.overs m.folder };

    fn read(&mut self, alloc: Global, name: &str, limit: u64) -> Result<Vec<u8>, ReadErr>
        ensures short { IfOk result (λ bytes. length bytes.items ≤ limit) }
        ensures told { IfOk result (λ bytes. IfSome (⟦<MemFolder as Folder>⟧.held self.old) (λ files. files name.now ≡ Some bytes.items)) }
        ensures missing_only { IsErrOf result ReadErr.Missing → IfSome (⟦<MemFolder as Folder>⟧.held self.old) (λ files. files name.now ≡ None) }
        ensures missing { IfSome (⟦<MemFolder as Folder>⟧.held self.old) (λ files. files name.now ≡ None
            → IsErrOf result ReadErr.Failed ⊎ IsErrOf result ReadErr.Missing ⊎ IsErrOf result ReadErr.Memory) }
        ensures too_long { IfTooLong result (λ n. limit < n) }
        ensures too_long_only { IsTooLong result → IfSome (⟦<MemFolder as Folder>⟧.held self.old) (λ files. IsLonger (files name.now) limit) }
        ensures read_faults { Counts (IsErrOf result ReadErr.Failed) (⟦<MemFolder as Folder>⟧.read_faults self.old) (⟦<MemFolder as Folder>⟧.read_faults self.new) }
        ensures misses { Counts (IsErrOf result ReadErr.Missing) (⟦<MemFolder as Folder>⟧.misses self.old) (⟦<MemFolder as Folder>⟧.misses self.new) }
        ensures overs { Counts (IsTooLong result) (⟦<MemFolder as Folder>⟧.overs self.old) (⟦<MemFolder as Folder>⟧.overs self.new) }
        ensures write_faults { ⟦<MemFolder as Folder>⟧.write_faults self.new ≡ ⟦<MemFolder as Folder>⟧.write_faults self.old }
        ensures same { ⟦<MemFolder as Folder>⟧.held self.new ≡ ⟦<MemFolder as Folder>⟧.held self.old }
        ensures due { IsErrOf result ReadErr.Failed ↔ IsDue self.old.schedule }
        ensures called { CalledOnce self.old.schedule self.new.schedule }
    {
        if self.schedule.is_due() {
            self.read_faults = self.read_faults.saturating_add(1);
            return Err(ReadErr::Failed);
        }
        self.folder.read(alloc, name, limit)
    }

    fn write(&mut self, alloc: Global, name: &str, bytes: &[u8]) -> Result<(), WriteErr>
        ensures told { OnOk result (IfSome (⟦<MemFolder as Folder>⟧.held self.old) (λ old. IfSome (⟦<MemFolder as Folder>⟧.held self.new) (λ new. Puts name.now bytes.now old new))) }
        ensures failed { IsErrOf result WriteErr.Failed → IfSome (⟦<MemFolder as Folder>⟧.held self.old) (λ old. IfSome (⟦<MemFolder as Folder>⟧.held self.new) (λ new. Spares name.now old new)) }
        ensures memory { IsErrOf result WriteErr.Memory → ⟦<MemFolder as Folder>⟧.held self.new ≡ ⟦<MemFolder as Folder>⟧.held self.old }
        ensures tells { (⟦<MemFolder as Folder>⟧.held self.new ≡ None) ↔ (⟦<MemFolder as Folder>⟧.held self.old ≡ None) }
        ensures write_faults { Counts (IsErrOf result WriteErr.Failed) (⟦<MemFolder as Folder>⟧.write_faults self.old) (⟦<MemFolder as Folder>⟧.write_faults self.new) }
        ensures read_faults { ⟦<MemFolder as Folder>⟧.read_faults self.new ≡ ⟦<MemFolder as Folder>⟧.read_faults self.old }
        ensures misses { ⟦<MemFolder as Folder>⟧.misses self.new ≡ ⟦<MemFolder as Folder>⟧.misses self.old }
        ensures overs { ⟦<MemFolder as Folder>⟧.overs self.new ≡ ⟦<MemFolder as Folder>⟧.overs self.old }
        ensures due { IsErrOf result WriteErr.Failed ↔ IsDue self.old.schedule }
        ensures called { CalledOnce self.old.schedule self.new.schedule }
    {
        if self.schedule.is_due() {
            self.write_faults = self.write_faults.saturating_add(1);
            return Err(WriteErr::Failed);
        }
        self.folder.write(alloc, name, bytes)
    }
}
