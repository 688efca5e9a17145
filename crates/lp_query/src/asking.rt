// The answers of one query.
ghost use Rattle.std.specs.Prelude.{◌≡◌, ◌⊎◌, ℕ, List, map, Err, false, is_some, IfOk, IfErr};
ghost use Rattle.lp_base.specs.Counts.{Counts};
ghost use Rattle.lp_code.specs.Length.{AllFit};
ghost use Rattle.lp_model.specs.Shown.{Entry};
ghost use Rattle.lp_answers.specs.declared.stopped.Written.{Written};
ghost use Rattle.lp_query.specs.Faults.{IsAskRefusal, IsNotThere};
ghost use Rattle.lp_query.specs.Outcomes.{Answered, Broke};

use crate::asker::Asker;
use crate::fault::AskRefusal;
use lp_base::Sink;
use lp_model::Ending;
use lp_verify::Verified;
use lp_watch::Watch;
use std::alloc::Global;

/// Writes the answers of a query on an image, as an `Asker` of this image does.
///
/// # Errors
/// As for `Asker::ask`.
pub fn ask<K: Sink, W: Watch>(
    alloc: Global,
    image: &Verified,
    query: &[u8],
    steps: u64,
    answers: u64,
    watchers: Option<&mut Vec<W>>,
    out: &mut K,
) -> Result<Ending, AskRefusal>
    requires { AllFit image.now.image.code.records.items }
    ensures refused { IfErr result (IsAskRefusal query.now) }
    ensures written { IfOk result (λ _. (entries : List Entry) × ((names : List (List ℕ)) × ((w : Written) × Answered entries names (is_some watchers.entry) answers (K.written out.old) (K.written out.new) w))) }
    ensures broke { IfErr result (λ e. (entries : List Entry) × ((names : List (List ℕ)) × Broke entries names (is_some watchers.entry) answers (K.written out.old) (K.written out.new) e)) }
    ensures faults { Counts (result ≡ Err AskRefusal.Write) (K.faults out.old) (K.faults out.new) }
{
    let mut asker = Asker::new(alloc, image)?;
    let written = asker.ask(query, steps, answers, watchers, out)?;
    Ok(written.ending)
}

/// The same without watchers, where each answer shows these variables alone, in this order.
///
/// # Errors
/// As for `Asker::ask_shown`.
pub fn ask_shown<K: Sink>(
    alloc: Global,
    image: &Verified,
    query: &[u8],
    shown: &[Vec<u8>],
    steps: u64,
    answers: u64,
    out: &mut K,
) -> Result<Ending, AskRefusal>
    requires { AllFit image.now.image.code.records.items }
    ensures refused { IfErr result (λ e. IsAskRefusal query.now e ⊎ ((names : List (List ℕ)) × IsNotThere names (map (λ n. n.items) shown.now) e)) }
    ensures written { IfOk result (λ _. (entries : List Entry) × ((w : Written) × Answered entries (map (λ n. n.items) shown.now) false answers (K.written out.old) (K.written out.new) w)) }
    ensures broke { IfErr result (λ e. (entries : List Entry) × Broke entries (map (λ n. n.items) shown.now) false answers (K.written out.old) (K.written out.new) e) }
    ensures faults { Counts (result ≡ Err AskRefusal.Write) (K.faults out.old) (K.faults out.new) }
{
    let mut asker = Asker::new(alloc, image)?;
    let written = asker.ask_shown(query, shown, steps, answers, out)?;
    Ok(written.ending)
}
