// The reading of one file.
ghost use Rattle.std.specs.Prelude.{◌≡◌, ◌++◌, ◌<◌, IfOk, IfErr, IfSome, Option, None, true, string_bytes};
ghost use Rattle.lp_base.specs.Held.{Held};
ghost use Rattle.lp_build.specs.Loads.{Outside, fault_of, IsOfText, IsOfRead, IsOfReading, ending};
ghost use Rattle.lp_build.specs.Reads.{AreRead, IsReadText};
ghost use Rattle.lp_build.specs.Told.{IsTold, AreKnown, IsFaultOf, IsFaultAt, HoldsTold};
ghost use Rattle.lp_build.specs.Ordered.{needed};
ghost use Rattle.lp_build.specs.inner.Walking.{IsLoadedAt, IsNotLoaded};

use crate::fault::BuildFault;
use crate::sources::{File, Part, Sources, Text};
use lp_base::{Folder, Limit, MAX_FILE_BYTES, MAX_MODULES, Memory, ReadErr};
use lp_lexer::{LexFault, tokens};
use lp_syntax::references;
use std::alloc::Global;

// Whether a known file has this name.
fn is_named(known: &(String, Vec<u8>), name: &str) -> bool
    ensures { result ≡ true → string_bytes known.now.0 ≡ name.now }
{
    known.0.as_str() == name
}

// The bytes of a file that is known, taken out.
fn take_known(known: &mut Vec<(String, Vec<u8>)>, name: &str) -> Option<Vec<u8>>
    ensures known { (told : Option Held) → AreKnown told known.old.items → AreKnown told known.new.items }
    ensures taken { (told : Option Held) → AreKnown told known.old.items → IfSome result (λ bytes. IsTold told name.now bytes.items) }
{
    for at in 0..known.len() {
        if is_named(&known[at], name) {
            return Some(known.swap_remove(at).1);
        }
    }
    None
}

// The bytes of the file of this number.
fn read_bytes<F: Folder>(
    alloc: Global,
    folder: &mut F,
    name: &str,
    number: u32,
) -> Result<Vec<u8>, BuildFault>
    ensures outside { Outside F.read_faults F.misses F.overs F.write_faults F.held folder.old folder.new (fault_of result) }
    ensures refused { IfErr result (IsOfRead number) }
    ensures told { IfOk result (λ bytes. IsTold (F.held folder.old) name.now bytes.items) }
    ensures fault { IfErr result (IsFaultAt (F.held folder.old) name.now) }
{
    match folder.read(alloc, name, MAX_FILE_BYTES) {
        Ok(bytes) => Ok(bytes),
        Err(ReadErr::Failed) => Err(BuildFault::Read(number)),
        Err(ReadErr::Missing) => Err(BuildFault::Missing(number)),
        Err(ReadErr::TooLong(_)) => Err(BuildFault::Limit(Limit::File)),
        Err(ReadErr::Memory) => Err(BuildFault::Memory),
    }
}

// The tokens of the file of this number, and what they say of other files.
fn text_of(alloc: Global, bytes: Vec<u8>, number: u32) -> Result<Text, BuildFault>
    ensures refused { IfErr result (IsOfText number) }
    ensures same { IfOk result (λ text. text.bytes.items ≡ bytes.items) }
    ensures read { IfOk result (IsReadText number) }
    ensures fault { IfErr result (IsFaultOf bytes.items) }
{
    let text = bytes.as_slice();
    let tokens = match tokens(alloc, text) {
        Ok(tokens) => tokens,
        Err(LexFault::Memory) => return Err(BuildFault::Memory),
        Err(fault) => return Err(BuildFault::Lex(number, fault)),
    };
    let found = tokens.as_slice();
    let references = references(alloc, text, found, number)?;
    Ok(Text {
        bytes,
        tokens,
        references,
    })
}

// What is read of the file of this number, where its bytes are not known.
fn read_text<F: Folder>(
    alloc: Global,
    folder: &mut F,
    known: &mut Vec<(String, Vec<u8>)>,
    name: &str,
    number: u32,
) -> Result<Text, BuildFault>
    ensures outside { Outside F.read_faults F.misses F.overs F.write_faults F.held folder.old folder.new (fault_of result) }
    ensures refused { IfErr result (IsOfReading number) }
    ensures known { (told : Option Held) → AreKnown told known.old.items → AreKnown told known.new.items }
    ensures read { IfOk result (IsReadText number) }
    ensures told { AreKnown (F.held folder.old) known.old.items → IfOk result (λ text. IsTold (F.held folder.old) name.now text.bytes.items) }
    ensures fault { AreKnown (F.held folder.old) known.old.items → IfErr result (IsFaultAt (F.held folder.old) name.now) }
{
    if let Some(bytes) = take_known(known, name) {
        return text_of(alloc, bytes, number);
    }
    let bytes = read_bytes(alloc, folder, name, number)?;
    text_of(alloc, bytes, number)
}

// The name of a file of a module.
pub(crate) fn file_name(alloc: Global, stem: &str, part: Part) -> Result<String, Memory>
    ensures { IfOk result (λ name. string_bytes name ≡ stem.now ++ ending part) }
{
    let mut name = String::from_str(alloc, stem)?;
    match part {
        Part::Signature => name.push_str(".sig")?,
        Part::Module => name.push_str(".mod")?,
    }
    Ok(name)
}

// Loads one text of the module of this name, behind the files so far.
pub(crate) fn load_file<F: Folder>(
    alloc: Global,
    folder: &mut F,
    known: &mut Vec<(String, Vec<u8>)>,
    sources: &mut Sources,
    stem: &str,
    part: Part,
) -> Result<usize, BuildFault>
    ensures outside { Outside F.read_faults F.misses F.overs F.write_faults F.held folder.old folder.new (fault_of result) }
    ensures read { AreRead sources.old → AreRead sources.new }
    ensures loaded { IfOk result (IsLoadedAt (needed part stem.now) sources.old sources.new) }
    ensures not_loaded { IfErr result (IsNotLoaded (needed part stem.now) sources.old sources.new) }
    ensures told { HoldsTold (F.held folder.old) known.old.items sources.old None → HoldsTold (F.held folder.old) known.new.items sources.new (fault_of result) }
{
    let at = sources.files.len();
    if at >= MAX_MODULES {
        return Err(BuildFault::Limit(Limit::Modules));
    }
    let name = file_name(alloc, stem, part)?;
    let module = String::from_str(alloc, stem)?;
    match read_text(alloc, folder, known, name.as_str(), at as u32) {
        Ok(text) => {
            sources.files.push(File {
                name,
                module,
                part,
                text,
            })?;
            Ok(at)
        }
        Err(fault) => {
            sources.refused = Some(name);
            Err(fault)
        }
    }
}
