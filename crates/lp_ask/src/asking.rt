// One query on an image.
ghost use Rattle.std.specs.Prelude.{◌≡◌, ◌≢◌, IfOk, IfErr, false, true};
ghost use Rattle.lp_base.specs.Counts.{Counts};
ghost use Rattle.lp_code.specs.Length.{AllFit};
ghost use Rattle.lp_lines.specs.Ends.{Grows, KeepsFiles, Ran};
ghost use Rattle.lp_lines.specs.Lines.{is_of_search};
ghost use Rattle.lp_lines.specs.Looked.{Looked, refusal_of};
ghost use Rattle.lp_lines.specs.Refusals.{IsTextRefusal};
ghost use Rattle.lp_query.specs.Faults.{IsAskRefusal};
ghost use Rattle.lp_ask.specs.Unwritten.{IsOfText, IsStop, Unwritten};

use crate::answering::{Broken, kind_of};
use crate::causes::cause_of;
use lp_base::{Folder, Sink, Status};
use lp_files::open_image;
use lp_lines::{Refusal, query_refused, say_memory, status, tell};
use lp_query::ask;
use lp_verify::Verified;
use lp_watch::Watch;
use std::alloc::Global;

// A query, with the limits of its search.
#[derive(Clone, Copy)]
struct Question<'a> {
    query: &'a str,
    steps: u64,
    answers: u64,
}

// Writes the answers of a query, or says why it is refused.
fn answer<K: Sink, W: Watch>(
    alloc: Global,
    image: &Verified,
    question: Question<'_>,
    watchers: &mut Vec<W>,
    out: &mut K,
) -> Result<Status, Refusal>
    requires { AllFit image.now.image.code.records.items }
    ensures grows { Grows (K.written out.old) (K.written out.new) }
    ensures ended { IfOk result (λ status. status ≢ Status.WriteFault → is_of_search status ≡ true) }
    ensures write_faults { IfOk result (λ status. Counts (status ≡ Status.WriteFault) (K.faults out.old) (K.faults out.new)) }
    ensures refused { IfErr result IsTextRefusal }
    ensures unwritten { IfErr result (λ _. Unwritten K.faults K.written out.old out.new) }
{
    let text = question.query.as_bytes();
    let (steps, answers) = (question.steps, question.answers);
    match ask(alloc, image, text, steps, answers, Some(watchers), out) {
        Ok(ending) => Ok(status(ending)),
        Err(refusal) => match kind_of(refusal) {
            Broken::Write => Ok(Status::WriteFault),
            Broken::Memory => Ok(say_memory(out)),
            Broken::Missing(_) => unreachable!(),
            Broken::Text => Err(query_refused(alloc, text, cause_of(refusal))),
        },
    }
}

// The same on the image of a module, which may be refused.
fn answer_on<F: Folder, K: Sink, W: Watch>(
    alloc: Global,
    name: &str,
    question: Question<'_>,
    watchers: &mut Vec<W>,
    folder: &mut F,
    out: &mut K,
) -> Result<Status, Refusal>
    ensures looked { Looked F.read_faults F.misses F.overs F.write_faults F.held folder.old folder.new (refusal_of result) }
    ensures grows { Grows (K.written out.old) (K.written out.new) }
    ensures ended { IfOk result (λ status. status ≢ Status.WriteFault → is_of_search status ≡ true) }
    ensures write_faults { IfOk result (λ status. Counts (status ≡ Status.WriteFault) (K.faults out.old) (K.faults out.new)) }
    ensures unwritten { IfErr result (λ _. Unwritten K.faults K.written out.old out.new) }
{
    match open_image(alloc, folder, name) {
        Ok(image) => answer(alloc, &image, question, watchers, out),
        Err(refusal) => Err(refusal),
    }
}

// Answers a query, or tells why it is refused.
fn answer_or_tell<F: Folder, K: Sink, W: Watch>(
    alloc: Global,
    name: &str,
    question: Question<'_>,
    watchers: &mut Vec<W>,
    folder: &mut F,
    out: &mut K,
) -> Status
    ensures ran { Ran F.read_faults F.misses F.overs K.written folder.old folder.new out.old out.new result }
    ensures keeps { KeepsFiles F.write_faults F.held K.faults folder.old folder.new out.old out.new result }
{
    match answer_on(alloc, name, question, watchers, folder, out) {
        Ok(status) => status,
        Err(refusal) => tell(out, refusal),
    }
}

/// Answers a query on the image of a module, its file `NAME.lp`, within so many steps and answers: each answer as it is found, and then the last line; with
/// `watch` the watchers have the notes of the search, and their reports stand behind. Of a file or a query that is refused the line of the refusal is
/// written. The status says how the run ended.
pub fn query<F: Folder, K: Sink, W: Watch>(
    alloc: Global,
    name: &str,
    query: &str,
    steps: u64,
    answers: u64,
    watch: bool,
    folder: &mut F,
    out: &mut K,
    watchers: &mut Vec<W>,
) -> Status
    ensures ran { Ran F.read_faults F.misses F.overs K.written folder.old folder.new out.old out.new result }
    ensures keeps { KeepsFiles F.write_faults F.held K.faults folder.old folder.new out.old out.new result }
    ensures silent { watch ≡ false → watchers.new ≡ watchers.old }
{
    let question = Question {
        query,
        steps,
        answers,
    };
    if watch {
        return answer_or_tell(alloc, name, question, watchers, folder, out);
    }
    let mut nobody: Vec<W> = Vec::new(alloc);
    answer_or_tell(alloc, name, question, &mut nobody, folder, out)
}
