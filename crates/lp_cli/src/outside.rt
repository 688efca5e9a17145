// The current directory and the standard output: a few lines each, trusted to do what their names say.
ghost use Rattle.std.specs.Prelude.{◌≡◌, ◌+◌, ◌^◌, ◌<◌, ◌≤◌, ◌⊎◌, ◌↔◌, ℕ, List, length, None, Some, IfOk, OnOk, OnErr, IfSome, IsErrOf, IsErr, vec_len};
ghost use Rattle.lp_base.specs.Counts.{HasRisen, Counts};
ghost use Rattle.lp_base.specs.Held.{Held, Puts, Spares};
ghost use Rattle.lp_base.specs.Read.{IfTooLong, IsTooLong, IsLonger};
ghost use Rattle.lp_base.specs.Written.{Appends, AppendsPrefix};

use lp_base::{Failed, Folder, ReadErr, Sink, WriteErr};
use std::alloc::Global;
use std::fs::File;
use std::io;
use std::io::{ErrorKind, Read, Write};
use std::rt::Files;

#[derive(Drop)]
pub struct DirFolder<'a, R> {
    rt: &'a R,
    read_faults: u64,
    write_faults: u64,
    misses: u64,
    overs: u64,
}

impl<'a, R: Files> DirFolder<'a, R> {
    pub fn new(rt: &'a R) -> DirFolder<'a, R> {
        DirFolder {
            rt,
            read_faults: 0,
            write_faults: 0,
            misses: 0,
            overs: 0,
        }
    }
}

// The bytes of a file, or that it has more than `limit`.
fn take_all<R: Read>(alloc: Global, file: &mut R, limit: u64) -> Result<Vec<u8>, ReadErr>
    ensures short { IfOk result (λ bytes. length bytes.items ≤ limit) }
    ensures too_long { IfTooLong result (λ n. limit < n) }
    ensures present { IsErrOf result ReadErr.Missing → ⊥ }
{
    let mut bytes = Vec::new(alloc);
    let mut buffer = [0u8; 4096];
    for _ in 0..u64::MAX {
        match file.read(&mut buffer) {
            Err(_) => return Err(ReadErr::Failed),
            Ok(0) => return Ok(bytes),
            Ok(n) => {
                let size = (bytes.len() as u64).saturating_add(n as u64);
                if limit < size {
                    return Err(ReadErr::TooLong(size));
                }
                bytes.extend_from_slice(&buffer[..n])?;
            }
        }
    }
    Err(ReadErr::Failed)
}

// Whether a file of a folder may have this name. An object that someone else made may use a module with a name that leads out of the folder.
fn is_name(name: &str) -> bool {
    name.bytes().all(|byte| byte != b'/' && byte != 0)
}

fn write_all<W: Write>(file: &mut W, bytes: &[u8]) -> Result<(), Failed> {
    let mut at = 0;
    while at < bytes.len() {
        match file.write(&bytes[at..]) {
            Err(_) | Ok(0) => return Err(Failed),
            Ok(n) => at += n,
        }
    }
    Ok(())
}

impl<R: Files> Folder for DirFolder<'_, R> {
    ghost held = { λ _. None };

    ghost read_faults = { λ d. d.read_faults };

    ghost write_faults = { λ d. d.write_faults };

    ghost misses = { λ d. d.misses };

    ghost overs = { λ d. d.overs };

    fn read(&mut self, alloc: Global, name: &str, limit: u64) -> Result<Vec<u8>, ReadErr> {
        let answer = if is_name(name) {
            match File::open(self.rt, name) {
                Err(error) => Err(if error.kind() == ErrorKind::NotFound {
                    ReadErr::Missing
                } else {
                    ReadErr::Failed
                }),
                Ok(mut file) => take_all(alloc, &mut file, limit),
            }
        } else {
            Err(ReadErr::Missing)
        };
        match &answer {
            Ok(_) | Err(ReadErr::Memory) => {}
            Err(ReadErr::Failed) => self.read_faults = self.read_faults.saturating_add(1),
            Err(ReadErr::Missing) => self.misses = self.misses.saturating_add(1),
            Err(ReadErr::TooLong(_)) => self.overs = self.overs.saturating_add(1),
        }
        answer
    }

    fn write(&mut self, _alloc: Global, name: &str, bytes: &[u8]) -> Result<(), WriteErr> {
        let done = match File::create(self.rt, name) {
            Err(_) => Err(Failed),
            Ok(mut file) => write_all(&mut file, bytes),
        };
        match done {
            Ok(()) => Ok(()),
            Err(_) => {
                self.write_faults = self.write_faults.saturating_add(1);
                Err(WriteErr::Failed)
            }
        }
    }
}

#[derive(Drop)]
pub struct StdSink<'a, R> {
    rt: &'a R,
    faults: u64,
}

impl<'a, R: Print> StdSink<'a, R> {
    pub fn new(rt: &'a R) -> StdSink<'a, R> {
        StdSink { rt, faults: 0 }
    }
}

impl<R: Print> Sink for StdSink<'_, R> {
    ghost written = { λ _. None };

    ghost faults = { λ s. s.faults };

    fn put(&mut self, piece: &[u8]) -> Result<(), Failed> {
        let done = write_all(&mut io::writer(self.rt), piece);
        if done.is_err() {
            self.faults = self.faults.saturating_add(1);
        }
        done
    }
}
