// The lines that are written, and the status of each ending.
ghost use Rattle.std.specs.Prelude.{◌≡◌, ◌++◌, IfOk, codes};
ghost use Rattle.lp_lines.specs.Lines.{memory_line, limit_line, missing_line, read_fault_line, write_fault_line, wrote_line, migrated_line, fault_line, ending_line, ending_status};

use lp_base::{Limit, Memory, Status};
use lp_model::ending::{Ending, Fault};
use std::alloc::Global;

/// Memory ran out.
#[tactic(auto, unfolding(crate::specs::Lines::memory_line))]
pub fn memory() -> &'static str
    ensures { result.now ≡ memory_line }
{
    "stopped: memory\n"
}

// A line of a word, a name and a line feed.
fn named(alloc: Global, word: &str, name: &str) -> Result<Vec<u8>, Memory>
    ensures { IfOk result (λ line. line.items ≡ word.now ++ name.now ++ codes "\n") }
{
    let mut line = word.as_bytes().to_vec(alloc)?;
    line.extend_from_slice(name.as_bytes())?;
    line.extend_from_slice(b"\n")?;
    Ok(line)
}

/// A limit was passed.
#[tactic(auto, unfolding(crate::specs::Lines::limit_line))]
pub fn limit(alloc: Global, limit: Limit) -> Result<Vec<u8>, Memory>
    ensures { IfOk result (λ line. line.items ≡ limit_line limit) }
{
    named(alloc, "limit: ", limit.name())
}

/// A file is not there.
#[tactic(auto, unfolding(crate::specs::Lines::missing_line))]
pub fn missing(alloc: Global, file: &str) -> Result<Vec<u8>, Memory>
    ensures { IfOk result (λ line. line.items ≡ missing_line file.now) }
{
    named(alloc, "missing: ", file)
}

/// A file could not be read.
#[tactic(auto, unfolding(crate::specs::Lines::read_fault_line))]
pub fn read_fault(alloc: Global, file: &str) -> Result<Vec<u8>, Memory>
    ensures { IfOk result (λ line. line.items ≡ read_fault_line file.now) }
{
    named(alloc, "read fault: ", file)
}

/// A file could not be written.
#[tactic(auto, unfolding(crate::specs::Lines::write_fault_line))]
pub fn write_fault(alloc: Global, file: &str) -> Result<Vec<u8>, Memory>
    ensures { IfOk result (λ line. line.items ≡ write_fault_line file.now) }
{
    named(alloc, "write fault: ", file)
}

/// A file was written.
#[tactic(auto, unfolding(crate::specs::Lines::wrote_line))]
pub fn wrote(alloc: Global, file: &str) -> Result<Vec<u8>, Memory>
    ensures { IfOk result (λ line. line.items ≡ wrote_line file.now) }
{
    named(alloc, "wrote ", file)
}

/// A file was written as it is written today.
#[tactic(auto, unfolding(crate::specs::Lines::migrated_line))]
pub fn migrated(alloc: Global, file: &str) -> Result<Vec<u8>, Memory>
    ensures { IfOk result (λ line. line.items ≡ migrated_line file.now) }
{
    named(alloc, "migrated ", file)
}

#[tactic(auto, unfolding(crate::specs::Lines::fault_line))]
fn fault(fault: Fault) -> &'static str
    ensures { result.now ≡ fault_line fault }
{
    match fault {
        Fault::Overflow => "stopped: arithmetic: overflow\n",
        Fault::ZeroDivisor => "stopped: arithmetic: zero divisor\n",
        Fault::NotClosed => "stopped: arithmetic: not closed\n",
    }
}

/// The last line of a search.
#[tactic(auto, unfolding(crate::specs::Lines::ending_line))]
pub fn ending(ending: Ending) -> &'static str
    ensures { result.now ≡ ending_line ending }
{
    match ending {
        Ending::NoMore => "no more answers\n",
        Ending::NoMoreCut => "no more answers; some were cut away\n",
        Ending::Enough => "stopped: answers\n",
        Ending::Steps => "stopped: steps\n",
        Ending::Flexible => "stopped: flexible goal\n",
        Ending::Arithmetic(kind) => fault(kind),
        Ending::OpenNot => "stopped: open negation\n",
        Ending::Deep => "stopped: term too deep\n",
    }
}

/// The status with which a search ends.
#[tactic(auto, unfolding(crate::specs::Lines::ending_status))]
pub fn status(ending: Ending) -> Status
    ensures { result ≡ ending_status ending }
{
    match ending {
        Ending::NoMore | Ending::NoMoreCut | Ending::Enough => Status::Done,
        Ending::Steps => Status::Steps,
        Ending::Flexible => Status::Flexible,
        Ending::Arithmetic(_) => Status::Arithmetic,
        Ending::OpenNot => Status::OpenNot,
        Ending::Deep => Status::Deep,
    }
}
