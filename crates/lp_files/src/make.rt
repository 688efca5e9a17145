// What a command makes.
ghost use Rattle.std.specs.Prelude.{◌≡◌, ◌++◌, IfErr, IfOk};
ghost use Rattle.lp_files.specs.Made.{IsMade};
ghost use Rattle.lp_files.specs.Refused.{IsRefused};
ghost use Rattle.lp_files.specs.Target.{done_line, ending_of};
ghost use Rattle.lp_lines.specs.Left.{IsTarget};
ghost use Rattle.lp_lines.specs.Looked.{Looked, refusal_of};

use crate::compile::compiled;
use crate::link::linked;
use crate::migrate::migrated;
use lp_base::{Folder, Memory};
use lp_lines::{Refusal, Target, file_name, write_fault, wrote};
use lp_words::FileCommand;
use std::alloc::Global;

// The ending of the file that a command writes.
#[tactic(auto, unfolding(crate::specs::Target::ending_of))]
fn ending_of(command: FileCommand) -> &'static str
    ensures { result.now ≡ ending_of command }
{
    match command {
        FileCommand::Compile => ".lpo",
        FileCommand::Link => ".lp",
        FileCommand::Migrate => ".lp",
    }
}

// The line that tells that the file was written.
#[tactic(auto, unfolding(crate::specs::Target::done_line))]
fn done(alloc: Global, command: FileCommand, file: &str) -> Result<Vec<u8>, Memory>
    ensures { IfOk result (λ line. line.items ≡ done_line command file.now) }
{
    match command {
        FileCommand::Compile => wrote(alloc, file),
        FileCommand::Link => wrote(alloc, file),
        FileCommand::Migrate => lp_lines::migrated(alloc, file),
    }
}

/// The file of a command on the module of this name.
pub fn target_of(alloc: Global, command: FileCommand, name: &str) -> Result<Target, Memory>
    ensures { IfOk result (IsTarget (name.now ++ ending_of command) (done_line command (name.now ++ ending_of command))) }
{
    let file = file_name(alloc, name, ending_of(command))?;
    let done = done(alloc, command, file.as_str())?;
    let fault = write_fault(alloc, file.as_str())?;
    Ok(Target { file, done, fault })
}

/// The bytes of the file.
pub fn made<F: Folder>(
    alloc: Global,
    command: FileCommand,
    name: &str,
    folder: &mut F,
) -> Result<Vec<u8>, Refusal>
    ensures made { IfOk result (λ bytes. IsMade (F.held folder.old) command name.now bytes.items) }
    ensures cause { IfErr result (IsRefused (F.held folder.old) command name.now) }
    ensures looked { Looked F.read_faults F.misses F.overs F.write_faults F.held folder.old folder.new (refusal_of result) }
{
    match command {
        FileCommand::Compile => compiled(alloc, name, folder),
        FileCommand::Link => linked(alloc, name, folder),
        FileCommand::Migrate => migrated(alloc, name, folder),
    }
}
