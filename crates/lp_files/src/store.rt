// The writing of an object or image, and the line that tells of it.
ghost use Rattle.std.specs.Prelude.{◌≡◌, ◌++◌, IfErr, IfOk};
ghost use Rattle.lp_files.specs.Made.{IsMade};
ghost use Rattle.lp_files.specs.Refused.{IsRefused, Makes};
ghost use Rattle.lp_files.specs.Target.{done_line, ending_of};
ghost use Rattle.lp_lines.specs.Ends.{Ran};
ghost use Rattle.lp_lines.specs.Left.{IsTarget, Leaves};
ghost use Rattle.lp_lines.specs.Looked.{Looked, refusal_of};

use crate::make::{made, target_of};
use lp_base::{Folder, Sink, Status};
use lp_lines::{Refusal, Target, put, tell};
use lp_words::FileCommand;
use std::alloc::Global;

// A file and its bytes, to be written.
#[derive(Drop)]
struct Ready {
    target: Target,
    bytes: Vec<u8>,
}

// The file of a command with its bytes.
fn make_ready<F: Folder>(
    alloc: Global,
    command: FileCommand,
    name: &str,
    folder: &mut F,
) -> Result<Ready, Refusal>
    ensures looked { Looked F.read_faults F.misses F.overs F.write_faults F.held folder.old folder.new (refusal_of result) }
    ensures made { IfOk result (λ ready. IsMade (F.held folder.old) command name.now ready.bytes.items) }
    ensures cause { IfErr result (IsRefused (F.held folder.old) command name.now) }
    ensures target { IfOk result (λ ready. IsTarget (name.now ++ ending_of command) (done_line command (name.now ++ ending_of command)) ready.target) }
{
    let target = target_of(alloc, command, name)?;
    let bytes = made(alloc, command, name, folder)?;
    Ok(Ready { target, bytes })
}

/// Makes the file of a module that a command asks for and writes it with its line, or the line of the refusal. After a refusal no file was touched.
pub fn write_file<F: Folder, K: Sink>(
    alloc: Global,
    command: FileCommand,
    name: &str,
    folder: &mut F,
    out: &mut K,
) -> Status
    ensures ran { Ran F.read_faults F.misses F.overs K.written folder.old folder.new out.old out.new result }
    ensures leaves { Leaves F.write_faults F.held K.faults K.written folder.old folder.new out.old out.new
        (name.now ++ ending_of command) (done_line command (name.now ++ ending_of command)) result }
    // The file has bytes of its kind, or the line of a refusal with its cause is written.
    ensures makes { Makes (F.held folder.old) (F.held folder.new) command name.now (K.written out.old) (K.written out.new) result }
{
    match make_ready(alloc, command, name, folder) {
        Ok(ready) => put(
            alloc,
            &ready.target,
            ready.bytes.as_slice(),
            Status::Done,
            folder,
            out,
        ),
        Err(refusal) => tell(out, refusal),
    }
}
