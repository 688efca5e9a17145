// The program of source texts and a query on it, without negations.
ghost use Rattle.std.specs.Prelude.{◌≡◌, Option, IfOk, IfErr};
ghost use Rattle.lp_base.specs.Held.{Held};
ghost use Rattle.lp_build.specs.Reads.{AreRead};
ghost use Rattle.lp_build.specs.Told.{AreLoaded};
ghost use Rattle.lp_lines.specs.Looked.{Looked, refusal_of};
ghost use Rattle.lp_lines.specs.Placed.{IfSource};
ghost use Rattle.lp_lines.specs.Refusals.{IsTextRefusal};
ghost use Rattle.lp_load.specs.Placed.{IsPlaced};
ghost use Rattle.lp_judge.specs.Asked.{IsAskedFrom, IsAskedOf};

use crate::unsupported::first_not;
use lp_base::Folder;
use lp_build::{Sources, gather_with};
use lp_lines::Refusal;
use lp_load::{ask, build, load_refused};
use lp_model::Typed;
use lp_module::Assembled;
use std::alloc::Global;

/// A program, and a typed query, whose terms stand in the program's bank.
#[derive(Drop)]
pub(crate) struct Asked {
    pub names: Assembled,
    pub query: Typed,
}

// The program and the query, from the files.
fn asked_of(alloc: Global, sources: &Sources, query: &str) -> Result<Asked, Refusal>
    ensures refused { IfErr result IsTextRefusal }
    ensures placed { (told : Option Held) → AreLoaded told sources.now → IfErr result (IfSource (IsPlaced told query.now)) }
    ensures asked { AreRead sources.now → IfOk result (λ asked. IsAskedOf sources.now query.now asked.names asked.query) }
{
    let mut built = match build(alloc, sources) {
        Ok(built) => built,
        Err(refusal) => return Err(refusal),
    };
    let typed = match ask(alloc, query.as_bytes(), &mut built) {
        Ok(typed) => typed,
        Err(refusal) => return Err(refusal),
    };
    match first_not(alloc, sources, query) {
        Ok(()) => Ok(Asked {
            names: built.assembled,
            query: typed,
        }),
        Err(refusal) => Err(refusal),
    }
}

/// Loads a module and all that it needs, and types a query on it. The refusal is the first one of reading, of the texts, of the query, and of a
/// negation in them.
pub(crate) fn prepare_asked<F: Folder>(
    alloc: Global,
    name: &str,
    query: &str,
    folder: &mut F,
) -> Result<Asked, Refusal>
    ensures looked { Looked F.read_faults F.misses F.overs F.write_faults F.held folder.old folder.new (refusal_of result) }
    ensures placed { IfErr result (IfSource (IsPlaced (F.held folder.old) query.now)) }
    ensures asked { IfOk result (λ asked. IsAskedFrom (F.held folder.old) name.now query.now asked.names asked.query) }
{
    let known = Vec::new(alloc);
    match gather_with(alloc, folder, name, true, known) {
        Ok(sources) => asked_of(alloc, &sources, query),
        Err((sources, fault)) => Err(load_refused(alloc, &sources, fault)),
    }
}
