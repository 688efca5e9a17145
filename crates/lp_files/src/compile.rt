// The object of a module.
ghost use Rattle.std.specs.Prelude.{IfErr, IfOk};
ghost use Rattle.lp_build.specs.Reads.{AreRead};
ghost use Rattle.lp_files.specs.Made.{IsCompiledOf, IsObjectMade, SpellsCompiled};
ghost use Rattle.lp_files.specs.Uncompiled.{IsUncompiled, IsUnspelled};
ghost use Rattle.lp_lines.specs.Looked.{Looked, refusal_of};
ghost use Rattle.lp_lines.specs.Refusals.{IsJudged};

use crate::lines::unwritten;
use lp_base::Folder;
use lp_build::{Sources, build_object, gather};
use lp_code::Object;
use lp_lines::{Refusal, file_name};
use lp_load::{cause_of, load_refused, text_refused};
use lp_object::write_object;
use std::alloc::Global;

// The object of the module of this name, one of these files.
fn built(alloc: Global, sources: &Sources, name: &str) -> Result<Object, Refusal>
    ensures judged { IfErr result IsJudged }
    ensures compiled { AreRead sources.now → IfOk result (IsCompiledOf sources.now name.now) }
    ensures cause { AreRead sources.now → IfErr result (IsUnspelled sources.now name.now) }
{
    let text = file_name(alloc, name, ".mod")?;
    let Some(number) = sources.number_of(text.as_str()) else {
        return Err(Refusal::Memory);
    };
    match build_object(alloc, sources, number) {
        Ok(object) => Ok(object),
        Err(fault) => Err(text_refused(alloc, sources, cause_of(fault))),
    }
}

fn written(alloc: Global, sources: &Sources, name: &str) -> Result<Vec<u8>, Refusal>
    ensures judged { IfErr result IsJudged }
    ensures spells { AreRead sources.now → IfOk result (λ bytes. SpellsCompiled sources.now name.now bytes.items) }
    ensures cause { AreRead sources.now → IfErr result (IsUnspelled sources.now name.now) }
{
    let object = built(alloc, sources, name)?;
    match write_object(alloc, &object) {
        Ok(bytes) => Ok(bytes),
        Err(refusal) => Err(unwritten(alloc, refusal)),
    }
}

/// The bytes of the object of a module. Of the modules that it accumulates the signatures are read.
pub fn compiled<F: Folder>(alloc: Global, name: &str, folder: &mut F) -> Result<Vec<u8>, Refusal>
    ensures object { IfOk result (λ bytes. IsObjectMade (F.held folder.old) name.now bytes.items) }
    ensures cause { IfErr result (IsUncompiled (F.held folder.old) name.now) }
    ensures looked { Looked F.read_faults F.misses F.overs F.write_faults F.held folder.old folder.new (refusal_of result) }
{
    match gather(alloc, folder, name, false) {
        Ok(sources) => written(alloc, &sources, name),
        Err((sources, fault)) => Err(load_refused(alloc, &sources, fault)),
    }
}
