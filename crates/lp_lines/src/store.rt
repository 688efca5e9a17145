// The writing of a file, and the line that tells of it.
ghost use Rattle.std.specs.Prelude.{◌≡◌, ◌≢◌, ◌≤◌, ℕ, List, IfSome, string_bytes, true};
ghost use Rattle.lp_base.specs.Held.{Puts};
ghost use Rattle.lp_base.specs.Written.{Appends, AppendsPrefix};
ghost use Rattle.lp_lines.specs.Ends.{Grows};
ghost use Rattle.lp_lines.specs.Left.{IsTarget, LeavesWith};
ghost use Rattle.lp_lines.specs.Lines.{is_of_search};

use crate::last::{say, say_memory};
use lp_base::{Folder, Sink, Status, WriteErr};
use std::alloc::Global;

/// A file that a command writes, with the lines that tell of it: they are there before the file is touched.
#[derive(Drop)]
pub struct Target {
    /// Its name.
    pub file: String,
    /// What is written where it stands.
    pub done: Vec<u8>,
    /// What is written where the folder failed.
    pub fault: Vec<u8>,
}

// Writes the line of a write fault; the status is the same where that fails too.
fn tell_fault<K: Sink>(out: &mut K, line: &[u8]) -> Status
    ensures is_fault { result ≡ Status.WriteFault }
    ensures begun { AppendsPrefix (K.written out.old) (K.written out.new) line.now }
    ensures faults { K.faults out.old ≤ K.faults out.new }
{
    match out.put(line) {
        Ok(()) => Status::WriteFault,
        Err(_) => Status::WriteFault,
    }
}

/// Writes a file, and its line with the status of the command. Where the folder fails the line of a write fault is written, and where memory is
/// wanting for the write, that memory ran out. Where it ends otherwise the file has these bytes.
pub fn put<F: Folder, K: Sink>(
    alloc: Global,
    target: &Target,
    bytes: &[u8],
    status: Status,
    folder: &mut F,
    out: &mut K,
) -> Status
    requires { is_of_search status ≡ true }
    ensures grows { Grows (K.written out.old) (K.written out.new) }
    ensures of_search { result ≢ Status.WriteFault → is_of_search result ≡ true }
    ensures ends { result ≢ Status.WriteFault → result ≢ Status.Memory → result ≡ status }
    ensures leaves { (file line : List ℕ) → IsTarget file line target.now
        → LeavesWith F.write_faults F.held K.faults K.written folder.old folder.new out.old out.new file line status result }
    ensures bytes { result ≢ Status.WriteFault → result ≢ Status.Memory → IfSome (F.held folder.old) (λ old. IfSome (F.held folder.new) (Puts (string_bytes target.now.file) bytes.now old)) }
    ensures read_faults { F.read_faults folder.new ≡ F.read_faults folder.old }
    ensures misses { F.misses folder.new ≡ F.misses folder.old }
    ensures overs { F.overs folder.new ≡ F.overs folder.old }
{
    match folder.write(alloc, target.file.as_str(), bytes) {
        Ok(()) => say(out, target.done.as_slice(), status),
        Err(WriteErr::Failed) => tell_fault(out, target.fault.as_slice()),
        Err(WriteErr::Memory) => say_memory(out),
    }
}
