// The last line of a run.
ghost use Rattle.std.specs.Prelude.{◌≡◌, ◌≢◌, ℕ};
ghost use Rattle.lp_base.specs.Counts.{HasRisen, Counts};
ghost use Rattle.lp_base.specs.Written.{Appends, AppendsPrefix};
ghost use Rattle.lp_lines.specs.Ends.{Grows};
ghost use Rattle.lp_lines.specs.Refusals.{line_of, status_of};

use crate::lines::memory;
use crate::refusal::Refusal;
use lp_base::{Sink, Status};

/// Writes a line, and ends with a status, or with that of a write fault where the output failed.
pub fn say<K: Sink>(out: &mut K, line: &[u8], status: Status) -> Status
    requires { status ≢ Status.WriteFault }
    ensures said { result ≢ Status.WriteFault → (result ≡ status) × Appends (K.written out.old) (K.written out.new) line.now }
    ensures prefix { result ≡ Status.WriteFault → AppendsPrefix (K.written out.old) (K.written out.new) line.now }
    ensures faults { Counts (result ≡ Status.WriteFault) (K.faults out.old) (K.faults out.new) }
{
    match out.put(line) {
        Ok(()) => status,
        Err(_) => Status::WriteFault,
    }
}

/// The same of a line that is given away.
pub fn refuse<K: Sink>(out: &mut K, line: Vec<u8>, status: Status) -> Status
    requires { status ≢ Status.WriteFault }
    ensures said { result ≢ Status.WriteFault → (result ≡ status) × Appends (K.written out.old) (K.written out.new) line.items }
    ensures prefix { result ≡ Status.WriteFault → AppendsPrefix (K.written out.old) (K.written out.new) line.items }
    ensures faults { Counts (result ≡ Status.WriteFault) (K.faults out.old) (K.faults out.new) }
{
    say(out, &line, status)
}

/// Writes that memory ran out.
pub fn say_memory<K: Sink>(out: &mut K) -> Status
    ensures grows { Grows (K.written out.old) (K.written out.new) }
    ensures said { result ≢ Status.WriteFault → result ≡ Status.Memory }
    ensures write_faults { Counts (result ≡ Status.WriteFault) (K.faults out.old) (K.faults out.new) }
{
    say(out, memory().as_bytes(), Status::Memory)
}

/// Writes the line of a refusal, or that memory ran out, and ends with its status.
pub fn tell<K: Sink>(out: &mut K, refusal: Refusal) -> Status
    requires { status_of refusal ≢ Status.WriteFault }
    ensures said { result ≢ Status.WriteFault → (result ≡ status_of refusal) × Appends (K.written out.old) (K.written out.new) (line_of refusal) }
    ensures prefix { result ≡ Status.WriteFault → AppendsPrefix (K.written out.old) (K.written out.new) (line_of refusal) }
    ensures faults { Counts (result ≡ Status.WriteFault) (K.faults out.old) (K.faults out.new) }
{
    match refusal {
        Refusal::Line(status, line) => say(out, &line, status),
        Refusal::Memory => say(out, memory().as_bytes(), Status::Memory),
    }
}
