// A folder in memory that never fails.
ghost use Rattle.std.specs.Prelude.{◌≡◌, ◌≢◌, ◌+◌, ◌<◌, ◌≤◌, ◌⊎◌, ◌↔◌, ℕ, List, Option, length, None, Some, IfOk, OnOk, IfSome, IfNone, IsErrOf, option_map, slice_get};
ghost use Rattle.lp_base.specs.Counts.{Counts};
ghost use Rattle.lp_base.specs.Files.{found, IsFirst};
ghost use Rattle.lp_base.specs.Held.{Held, Puts, Spares};
ghost use Rattle.lp_base.specs.Read.{IfTooLong, IsTooLong, IsLonger};

use crate::{Folder, ReadErr, WriteErr};
use std::alloc::{AllocError, Global};

/// A folder in memory that tells its content and never fails.
#[derive(Drop)]
pub struct SureFolder {
    files: Vec<(String, Vec<u8>)>,
    misses: u64,
    overs: u64,
}

// The place of the first file of that name.
fn place_of(files: &[(String, Vec<u8>)], name: &str) -> Option<usize>
    ensures there { IfSome result (λ i. i < length files.now) }
    ensures found { IfSome result (λ i. option_map (λ f. f.1.items) (slice_get files.now i) ≡ found files.now name.now) }
    ensures absent { IfNone result (found files.now name.now ≡ None) }
    ensures first { IfSome result (IsFirst files.now name.now) }
{
    for (i, file) in files.iter().enumerate() {
        if file.0.as_str() == name {
            return Some(i);
        }
    }
    None
}

impl SureFolder {
    /// A folder of these files, of distinct names. Of two files of one name the first counts.
    pub fn new(files: Vec<(String, Vec<u8>)>) -> SureFolder
        ensures held { ⟦<SureFolder as Folder>⟧.held result ≡ Some (found files.items) }
        ensures misses { ⟦<SureFolder as Folder>⟧.misses result ≡ 0 }
        ensures overs { ⟦<SureFolder as Folder>⟧.overs result ≡ 0 }
    {
        SureFolder {
            files,
            misses: 0,
            overs: 0,
        }
    }

    /// The bytes of the file of this name.
    pub fn get(&self, name: &str) -> Option<&[u8]>
        ensures { IfSome (⟦<SureFolder as Folder>⟧.held self.now) (λ files. option_map (λ bytes. bytes.now) result ≡ files name.now) }
    {
        let i = place_of(&self.files, name)?;
        Some(self.files[i].1.as_slice())
    }
}

impl Folder for SureFolder {
    ghost held = { λ m. Some (found m.files.items) };

    ghost read_faults = { λ _. 0 };

    ghost write_faults = { λ _. 0 };

    ghost misses = { λ m. m.misses };

    ghost overs = { λ m. m.overs };

    fn read(&mut self, alloc: Global, name: &str, limit: u64) -> Result<Vec<u8>, ReadErr> {
        let Some(i) = place_of(&self.files, name) else {
            self.misses = self.misses.saturating_add(1);
            return Err(ReadErr::Missing);
        };
        let size = self.files[i].1.len() as u64;
        if limit < size {
            self.overs = self.overs.saturating_add(1);
            return Err(ReadErr::TooLong(size));
        }
        Ok(self.files[i].1.to_vec(alloc)?)
    }

    fn write(&mut self, alloc: Global, name: &str, bytes: &[u8]) -> Result<(), WriteErr> {
        let content = bytes.to_vec(alloc)?;
        match place_of(&self.files, name) {
            Some(i) => self.files[i].1 = content,
            None => {
                let key = String::from_str(alloc, name)?;
                self.files.push((key, content))?;
            }
        }
        Ok(())
    }
}
