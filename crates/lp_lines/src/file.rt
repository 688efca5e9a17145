// The reading of a file, and why one is not read.
ghost use Rattle.std.specs.Prelude.{◌≡◌, ◌++◌, IfOk, string_bytes};
ghost use Rattle.lp_lines.specs.Looked.{Found, IsUnread, Looked, refusal_of};
ghost use Rattle.lp_lines.specs.Refusals.{TellsFault, TellsMissing, TellsLimit};

use crate::lines::{limit, missing, read_fault};
use crate::refusal::Refusal;
use lp_base::{Folder, Limit, Memory, ReadErr, Status};
use std::alloc::Global;

/// The name of a module's file: the module's name with an ending, which has its dot.
pub fn file_name(alloc: Global, name: &str, ending: &str) -> Result<String, Memory>
    ensures { IfOk result (λ file. string_bytes file ≡ name.now ++ ending.now) }
{
    let mut file = String::from_str(alloc, name)?;
    file.push_str(ending)?;
    Ok(file)
}

/// A file could not be read.
pub fn not_read(alloc: Global, file: &str) -> Refusal
    ensures { TellsFault file.now result }
{
    match read_fault(alloc, file) {
        Ok(line) => Refusal::Line(Status::ReadFault, line),
        Err(Memory) => Refusal::Memory,
    }
}

/// A file is not there.
pub fn not_there(alloc: Global, file: &str) -> Refusal
    ensures { TellsMissing file.now result }
{
    match missing(alloc, file) {
        Ok(line) => Refusal::Line(Status::Missing, line),
        Err(Memory) => Refusal::Memory,
    }
}

/// A limit was passed.
pub fn past_limit(alloc: Global, passed: Limit) -> Refusal
    ensures { TellsLimit passed result }
{
    match limit(alloc, passed) {
        Ok(line) => Refusal::Line(Status::Limit, line),
        Err(Memory) => Refusal::Memory,
    }
}

fn unread(alloc: Global, file: &str, passed: Limit, fault: ReadErr) -> Refusal
    ensures { IsUnread file.now passed fault result }
{
    match fault {
        ReadErr::Failed => not_read(alloc, file),
        ReadErr::Missing => not_there(alloc, file),
        ReadErr::TooLong(_) => past_limit(alloc, passed),
        ReadErr::Memory => Refusal::Memory,
    }
}

/// The bytes of a file, which may have at most `most` of them. One that has more is refused by the limit `passed`; the other refusals are that it
/// cannot be read and that it is not there.
pub fn read_file<F: Folder>(
    alloc: Global,
    folder: &mut F,
    file: &str,
    most: u64,
    passed: Limit,
) -> Result<Vec<u8>, Refusal>
    ensures looked { Looked F.read_faults F.misses F.overs F.write_faults F.held folder.old folder.new (refusal_of result) }
    ensures found { Found file.now most passed (F.held folder.old) result }
{
    match folder.read(alloc, file, most) {
        Ok(bytes) => Ok(bytes),
        Err(fault) => Err(unread(alloc, file, passed, fault)),
    }
}
