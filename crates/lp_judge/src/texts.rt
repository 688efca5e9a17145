// The texts that are judged: the modules of a program, and a query on it.
ghost use Rattle.std.specs.Prelude.{◌≡◌, Option, IfOk, IfErr};
ghost use Rattle.lp_base.specs.Held.{Held};
ghost use Rattle.lp_build.specs.Meant.{AreModules};
ghost use Rattle.lp_build.specs.Reads.{AreRead};
ghost use Rattle.lp_build.specs.Told.{AreLoaded};
ghost use Rattle.lp_lines.specs.Looked.{Looked, refusal_of};
ghost use Rattle.lp_lines.specs.Placed.{IfSource};
ghost use Rattle.lp_lines.specs.Refusals.{IsTextRefusal};
ghost use Rattle.lp_load.specs.Placed.{IsOfFile, IsPlaced};
ghost use Rattle.lp_judge.specs.Asked.{AreTextsOf, AreToldTexts};

use lp_base::Folder;
use lp_build::{Sources, gather_with, modules};
use lp_lines::Refusal;
use lp_load::{ask, build, cause_of, load_refused, text_refused};
use lp_model::Typed;
use lp_module::Module;
use lp_term::Bank;
use std::alloc::Global;

/// The modules in their order, the accumulated ones first, and the typed query, whose terms stand in the bank.
#[derive(Drop)]
pub(crate) struct Texts {
    pub modules: Vec<Module>,
    pub bank: Bank,
    pub query: Typed,
}

// What the modules mean. The program is built of them, so no text is refused here that was not refused before.
fn modules_of(alloc: Global, sources: &Sources) -> Result<Vec<Module>, Refusal>
    ensures refused { IfErr result IsTextRefusal }
    ensures meanings { AreRead sources.now → IfOk result (λ modules. AreModules sources.now modules.items) }
    ensures placed { (told : Option Held) → AreLoaded told sources.now → IfErr result (IfSource (IsOfFile told)) }
{
    match modules(alloc, sources) {
        Ok(modules) => Ok(modules),
        Err(fault) => Err(text_refused(alloc, sources, cause_of(fault))),
    }
}

// The modules and the query, from the files.
fn texts_of(alloc: Global, sources: &Sources, query: &str) -> Result<Texts, Refusal>
    ensures refused { IfErr result IsTextRefusal }
    ensures placed { (told : Option Held) → AreLoaded told sources.now → IfErr result (IfSource (IsPlaced told query.now)) }
    ensures texts { AreRead sources.now → IfOk result (λ texts. AreTextsOf sources.now query.now texts.modules.items texts.bank texts.query) }
{
    let mut built = match build(alloc, sources) {
        Ok(built) => built,
        Err(refusal) => return Err(refusal),
    };
    let typed = match ask(alloc, query.as_bytes(), &mut built) {
        Ok(typed) => typed,
        Err(refusal) => return Err(refusal),
    };
    let modules = match modules_of(alloc, sources) {
        Ok(modules) => modules,
        Err(refusal) => return Err(refusal),
    };
    let assembled = built.assembled;
    let program = assembled.program;
    Ok(Texts {
        modules,
        bank: program.bank,
        query: typed,
    })
}

/// Loads a module and all that it needs, and types a query on it. The refusal is the first one of reading, of the texts and of the query.
pub(crate) fn prepare<F: Folder>(
    alloc: Global,
    name: &str,
    query: &str,
    folder: &mut F,
) -> Result<Texts, Refusal>
    ensures looked { Looked F.read_faults F.misses F.overs F.write_faults F.held folder.old folder.new (refusal_of result) }
    ensures placed { IfErr result (IfSource (IsPlaced (F.held folder.old) query.now)) }
    ensures texts { IfOk result (λ texts. AreToldTexts (F.held folder.old) name.now query.now texts.modules.items texts.bank texts.query) }
{
    let known = Vec::new(alloc);
    match gather_with(alloc, folder, name, true, known) {
        Ok(sources) => texts_of(alloc, &sources, query),
        Err((sources, fault)) => Err(load_refused(alloc, &sources, fault)),
    }
}
