// A query on a module, ready to be searched for.
ghost use Rattle.std.specs.Prelude.{◌≡◌, Option, IfOk, IfErr, codes};
ghost use Rattle.lp_base.specs.Held.{Held};
ghost use Rattle.lp_build.specs.Told.{AreKnown};
ghost use Rattle.lp_lines.specs.Looked.{Looked, refusal_of};
ghost use Rattle.lp_lines.specs.Placed.{IsOfText, IfSource};
ghost use Rattle.lp_lines.specs.Refusals.{IsTextRefusal};
ghost use Rattle.lp_load.specs.Loaded.{IsLoaded};
ghost use Rattle.lp_load.specs.Placed.{IsPlaced};
ghost use Rattle.lp_load.specs.Refused.{IsRefusedQuery};
ghost use Rattle.lp_solve.specs.Prepared.{IsPrepared};
ghost use Rattle.lp_solve.specs.Solved.{IsRefusal};
ghost use Rattle.lp_solve.specs.inner.Searched.{IsReady};

use crate::shown::{Shown, shown_with};
use lp_base::Folder;
use lp_build::Built;
use lp_lines::Refusal;
use lp_load::{ask, load};
use lp_plain::Search;
use std::alloc::Global;

/// A query of a module, with the limits of its search.
#[derive(Clone, Copy)]
pub struct Question<'a> {
    /// The module's name.
    pub name: &'a str,
    /// The query as it is written.
    pub query: &'a str,
    /// The most steps of the search.
    pub steps: u64,
    /// The most answers of the search.
    pub answers: u64,
}

/// A search before its first event, and what its answers are shown with.
#[derive(Drop)]
pub struct Prepared {
    pub search: Search,
    pub shown: Shown,
}

fn start(alloc: Global, question: Question<'_>, mut built: Built) -> Result<Prepared, Refusal>
    ensures prepared { IfOk result IsPrepared }
    ensures ready { (told : Option Held) → IsLoaded told question.entry.name.now built → IfOk result (IsReady told question.entry.name.now question.entry.query.now question.entry.steps question.entry.answers) }
    ensures refused { IfErr result IsTextRefusal }
    ensures cause { IfErr result (IsRefusedQuery built question.entry.query.now) }
    ensures placed { IfErr result (IfSource (IsOfText (codes "query") question.entry.query.now)) }
{
    let text = question.query.as_bytes();
    let typed = match ask(alloc, text, &mut built) {
        Ok(typed) => typed,
        Err(refusal) => return Err(refusal),
    };
    let shown = shown_with(alloc, text, &typed, &built)?;
    let assembled = built.assembled;
    let search = Search::start(
        alloc,
        assembled.program,
        typed,
        question.steps,
        question.answers,
    )?;
    Ok(Prepared { search, shown })
}

/// Loads a module, and makes a query on it ready.
pub fn prepare<F: Folder>(
    alloc: Global,
    question: Question<'_>,
    known: Vec<(String, Vec<u8>)>,
    folder: &mut F,
) -> Result<Prepared, Refusal>
    ensures prepared { IfOk result IsPrepared }
    ensures ready { AreKnown (F.held folder.old) known.items → IfOk result (IsReady (F.held folder.old) question.entry.name.now question.entry.query.now question.entry.steps question.entry.answers) }
    ensures refusal { AreKnown (F.held folder.old) known.items → IfErr result (IsRefusal (F.held folder.old) question.entry.name.now question.entry.query.now) }
    ensures looked { Looked F.read_faults F.misses F.overs F.write_faults F.held folder.old folder.new (refusal_of result) }
    ensures placed { AreKnown (F.held folder.old) known.items → IfErr result (IfSource (IsPlaced (F.held folder.old) question.entry.query.now)) }
{
    match load(alloc, question.name, known, folder) {
        Ok(built) => start(alloc, question, built),
        Err(refusal) => Err(refusal),
    }
}
