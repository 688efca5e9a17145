// The program of a module's files.
ghost use Rattle.std.specs.Prelude.{◌≡◌, List, ℕ, Option, IfErr, IfOk, OnOk};
ghost use Rattle.lp_base.specs.Held.{Held};
ghost use Rattle.lp_build.specs.Refused.{IsRefusedProgram};
ghost use Rattle.lp_build.specs.Reads.{AreRead};
ghost use Rattle.lp_build.specs.Told.{AreKnown, AreLoaded, IsFaultIn};
ghost use Rattle.lp_lines.specs.Looked.{Looked, refusal_of};
ghost use Rattle.lp_lines.specs.Placed.{IsCauseOf, IfSource};
ghost use Rattle.lp_lines.specs.Refusals.{IsSourceRefusal, IsTextRefusal};
ghost use Rattle.lp_load.specs.Loaded.{IsBuiltFrom, IsLoaded};
ghost use Rattle.lp_load.specs.Placed.{IsOfFile, SaysOfFile};
ghost use Rattle.lp_load.specs.Tells.{Tells};
ghost use Rattle.lp_load.specs.Unbuilt.{IsRefusedTexts, IsUnbuilt, TellsFile, TellsTexts};

use lp_base::Folder;
use lp_build::{BuildFault, Built, Sources, build_program, gather_with};
use lp_lines::{
    Cause, Refusal, blamed, limited, not_read, not_there, of_declarations, of_module, of_syntax,
    past_limit, without_tokens,
};
use std::alloc::Global;

/// The refusal of a text of these files, which have tokens. A cause whose spot lies in none of them is want of memory.
pub fn text_refused(alloc: Global, sources: &Sources, cause: Cause) -> Refusal
    requires { (text : List ℕ) → IsCauseOf text cause }
    ensures refusal { IsTextRefusal result }
    ensures placed { (told : Option Held) → AreLoaded told sources.now → IfSource (IsOfFile told) result }
    ensures says { SaysOfFile sources.now.files.items cause result }
{
    match cause {
        Cause::Text(blame) => match sources.file(blame.spot.file) {
            Some((file, text)) => blamed(alloc, file, text, &blame),
            None => Refusal::Memory,
        },
        Cause::Limit(passed) => limited(alloc, passed),
        Cause::Tokens(_) | Cause::Memory => Refusal::Memory,
    }
}

/// What is said of a fault of texts that have tokens. The building of a program reads no file: a fault of reading is want of memory there.
pub fn cause_of(fault: BuildFault) -> Cause
    ensures cause { (text : List ℕ) → IsCauseOf text result }
    ensures tells { TellsTexts fault result }
{
    match fault {
        BuildFault::Syntax(fault) => of_syntax(fault),
        BuildFault::Sig(fault) => of_declarations(fault),
        BuildFault::Module(fault) => of_module(fault),
        BuildFault::Limit(passed) => Cause::Limit(passed),
        BuildFault::Lex(_, _) | BuildFault::Read(_) | BuildFault::Missing(_) | BuildFault::Memory =>
            Cause::Memory,
    }
}

/// The refusal for files that were not loaded: one could not be read, is not there, is too long or has no tokens, or a limit of loading was passed.
pub fn load_refused(alloc: Global, sources: &Sources, fault: BuildFault) -> Refusal
    ensures tells { Tells fault result }
    ensures placed { (told : Option Held) → IsFaultIn told sources.now fault → IfSource (IsOfFile told) result }
    ensures file { (told : Option Held) → IsFaultIn told sources.now fault → TellsFile sources.now.refused fault result }
{
    match fault {
        BuildFault::Read(_) => not_read(alloc, sources.fault_name()),
        BuildFault::Missing(_) => not_there(alloc, sources.fault_name()),
        BuildFault::Lex(_, fault) => without_tokens(alloc, sources.fault_name(), fault),
        BuildFault::Limit(passed) => past_limit(alloc, passed),
        BuildFault::Syntax(_) | BuildFault::Sig(_) | BuildFault::Module(_) | BuildFault::Memory =>
            Refusal::Memory,
    }
}

/// The program of files that were loaded. The refusal is the first one of the texts, of the limits on their program, and of those on its code.
pub fn build(alloc: Global, sources: &Sources) -> Result<Built, Refusal>
    ensures refused { IfErr result IsTextRefusal }
    ensures placed { (told : Option Held) → AreLoaded told sources.now → IfErr result (IfSource (IsOfFile told)) }
    ensures program { AreRead sources.now → IfOk result (IsBuiltFrom sources.now) }
    ensures cause { AreRead sources.now → IfErr result (IsRefusedTexts sources.now) }
{
    match build_program(alloc, sources) {
        Ok(built) => Ok(built),
        Err(fault) => Err(text_refused(alloc, sources, cause_of(fault))),
    }
}

/// The program of a module, from its files and all that it needs, which are read in load order; those that are `known` are not read. The refusal is
/// the first one of reading, of the texts, of the limits on their program, and of those on its code, as the line that tells of it.
pub fn load<F: Folder>(
    alloc: Global,
    name: &str,
    known: Vec<(String, Vec<u8>)>,
    folder: &mut F,
) -> Result<Built, Refusal>
    ensures looked { Looked F.read_faults F.misses F.overs F.write_faults F.held folder.old folder.new (refusal_of result) }
    ensures refused { IfErr result IsSourceRefusal }
    ensures placed { AreKnown (F.held folder.old) known.items → IfErr result (IfSource (IsOfFile (F.held folder.old))) }
    ensures program { AreKnown (F.held folder.old) known.items → IfOk result (IsLoaded (F.held folder.old) name.now) }
    ensures cause { AreKnown (F.held folder.old) known.items → IfErr result (IsUnbuilt (F.held folder.old) name.now) }
{
    match gather_with(alloc, folder, name, true, known) {
        Ok(sources) => build(alloc, &sources),
        Err((sources, fault)) => Err(load_refused(alloc, &sources, fault)),
    }
}
