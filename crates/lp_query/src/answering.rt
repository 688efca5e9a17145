// The search of a query, with its answers written.
ghost use Rattle.std.specs.Prelude.{◌≡◌, Err, IfOk, IfErr};
ghost use Rattle.lp_base.specs.Counts.{Counts};
ghost use Rattle.lp_code.specs.Length.{AllFit};
ghost use Rattle.lp_show.specs.Glossary.{entries_of};
ghost use Rattle.lp_answers.specs.Texts.{names_in};
ghost use Rattle.lp_query.specs.Faults.{IsOfWriting};
ghost use Rattle.lp_query.specs.Outcomes.{Answered, Broke};

use crate::asked::Asked;
use crate::fault::AskRefusal;
use crate::running::Running;
use lp_answers::{Shown, Written, write_answers};
use lp_base::{Memory, Sink};
use lp_machine::{Machine, Plan};
use lp_show::Glossary;
use lp_verify::Verified;
use lp_watch::{Crowd, Watch};
use std::alloc::Global;

/// The most steps and answers of a search.
#[derive(Clone, Copy)]
pub(crate) struct Limits {
    pub steps: u64,
    pub answers: u64,
}

/// Searches, and writes the answers, where it is watched with the reports of the watchers.
pub(crate) fn answer<K: Sink, W: Watch>(
    alloc: Global,
    image: &Verified,
    plan: &Plan,
    glossary: &Glossary,
    asked: Asked,
    limits: Limits,
    watched: bool,
    crowd: &mut Crowd<'_, W>,
    out: &mut K,
) -> Result<Written, AskRefusal>
    requires image { AllFit image.now.image.code.records.items }
    requires query { AllFit asked.code.records.items }
    ensures refused { IfErr result IsOfWriting }
    ensures written { IfOk result (Answered (entries_of glossary.now.entries.items) (names_in asked.names.items) watched limits.answers (K.written out.old) (K.written out.new)) }
    ensures broke { IfErr result (Broke (entries_of glossary.now.entries.items) (names_in asked.names.items) watched limits.answers (K.written out.old) (K.written out.new)) }
    ensures faults { Counts (result ≡ Err AskRefusal.Write) (K.faults out.old) (K.faults out.new) }
{
    let Asked {
        code,
        variables,
        places,
        names,
    } = asked;
    let shown = Shown { names, glossary };
    let machine = Machine::start(
        alloc,
        image,
        plan,
        &code,
        variables,
        limits.steps,
        limits.answers,
    )?;
    let mut running = Running {
        alloc,
        machine,
        places,
    };
    let written = write_answers(
        alloc,
        &mut running,
        limits.answers,
        &shown,
        watched,
        crowd,
        out,
    )?;
    Ok(written)
}
