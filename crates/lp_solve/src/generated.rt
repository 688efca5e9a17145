// A generated query, and the summary of its search.
ghost use Rattle.std.specs.Prelude.{◌≡◌, ◌≢◌, true, IfOk};
ghost use Rattle.lp_base.specs.Counts.{Counts};
ghost use Rattle.lp_lines.specs.Ends.{Grows, KeepsFiles, Ran};
ghost use Rattle.lp_lines.specs.Lines.{is_of_search};
ghost use Rattle.lp_lines.specs.Looked.{Looked, refusal_of};

use crate::prepare::{Prepared, Question, prepare};
use itoa::Buffer;
use lp_base::{Folder, Memory, Sink, Status};
use lp_lines::{Refusal, ending, refuse, say_memory, status, tell};
use lp_model::{Ending, Event};
use lp_plain::Search;
use lp_watch::{Counter, Crowd};
use std::alloc::Global;

const SIGNATURE: &str = "sig trial.
kind tm type.
type app tm -> tm -> tm.
type abs (tm -> tm) -> tm.
type copy tm -> tm -> o.
";

const MODULE: &str = "module trial.
copy (app M N) (app P Q) :- copy M P, copy N Q.
copy (abs M) (abs P) :- pi x\\ pi y\\ (copy x y => copy (M x) (P y)).
";

fn push_number(text: &mut String, number: u64) -> Result<(), Memory> {
    let mut buffer = Buffer::new();
    text.push_str(buffer.format(number))?;
    Ok(())
}

// Begins an abstraction of the object language, over the variable of this number.
fn push_abstraction(text: &mut String, number: u64) -> Result<(), Memory> {
    text.push_str("abs (x")?;
    push_number(text, number)?;
    text.push_str("\\ ")?;
    Ok(())
}

// Begins an application of the variable of this number.
fn push_application(text: &mut String, number: u64) -> Result<(), Memory> {
    text.push_str("app x")?;
    push_number(text, number)?;
    text.push_str(" (")?;
    Ok(())
}

// The query of this size: from the size down to 1, an odd number is an abstraction, and an even one k is the application of the variable of number
// (k mod d) + 1 among the d that are bound; behind them stands the variable that was bound last.
fn query_of(alloc: Global, size: u32) -> Result<String, Memory> {
    let mut text = String::from_str(alloc, "copy (")?;
    let mut bound: u64 = 1;
    push_abstraction(&mut text, bound)?;
    for passed in 0..size {
        let k = (size - passed) as u64;
        if k % 2 == 1 {
            bound = bound.saturating_add(1);
            push_abstraction(&mut text, bound)?;
        } else {
            push_application(&mut text, k % bound + 1)?;
        }
    }
    text.push_str("x")?;
    push_number(&mut text, bound)?;
    for _ in 0..size {
        text.push_str(")")?;
    }
    text.push_str(")) X")?;
    Ok(text)
}

// The files of the module on which the query is.
fn files(alloc: Global) -> Result<Vec<(String, Vec<u8>)>, Memory> {
    let mut files = Vec::new(alloc);
    for (name, text) in [("trial.sig", SIGNATURE), ("trial.mod", MODULE)] {
        files.push((
            String::from_str(alloc, name)?,
            text.as_bytes().to_vec(alloc)?,
        ))?;
    }
    Ok(files)
}

// How the search ends, and how many answers it gives.
fn count_answers(alloc: Global, search: &mut Search) -> Result<(Ending, u64), Memory> {
    let mut nobody: Vec<Counter> = Vec::new(alloc);
    let mut crowd = Crowd::silent(alloc, &mut nobody);
    for answers in 0..u64::MAX {
        if let Event::Ended(why) = search.next(&mut crowd)? {
            return Ok((why, answers));
        }
    }
    Err(Memory)
}

fn push_line(text: &mut Vec<u8>, word: &str, number: u64) -> Result<(), Memory> {
    let mut buffer = Buffer::new();
    text.extend_from_slice(word.as_bytes())?;
    text.extend_from_slice(buffer.format(number).as_bytes())?;
    text.extend_from_slice(b"\n")?;
    Ok(())
}

// The summary of a search, with its status.
fn summary(alloc: Global, size: u32, prepared: Prepared) -> Result<(Vec<u8>, Status), Memory>
    ensures { IfOk result (λ r. is_of_search r.1 ≡ true) }
{
    let mut search = prepared.search;
    let (why, answers) = count_answers(alloc, &mut search)?;
    let mut text = Vec::new(alloc);
    push_line(&mut text, "trial ", size as u64)?;
    push_line(&mut text, "steps ", search.steps())?;
    push_line(&mut text, "answers ", answers)?;
    text.extend_from_slice(ending(why).as_bytes())?;
    Ok((text, status(why)))
}

// The generated query, ready to be searched for.
fn prepared<F: Folder>(alloc: Global, size: u32, folder: &mut F) -> Result<Prepared, Refusal>
    ensures { Looked F.read_faults F.misses F.overs F.write_faults F.held folder.old folder.new (refusal_of result) }
{
    let query = query_of(alloc, size)?;
    let known = files(alloc)?;
    let question = Question {
        name: "trial",
        query: query.as_str(),
        steps: 1_000_000,
        answers: 1_000,
    };
    prepare(alloc, question, known, folder)
}

// Writes the summary of a search.
fn sum_up<K: Sink>(alloc: Global, size: u32, prepared: Prepared, out: &mut K) -> Status
    ensures grows { Grows (K.written out.old) (K.written out.new) }
    ensures of_search { result ≢ Status.WriteFault → is_of_search result ≡ true }
    ensures write_faults { Counts (result ≡ Status.WriteFault) (K.faults out.old) (K.faults out.new) }
{
    match summary(alloc, size, prepared) {
        Ok((text, status)) => refuse(out, text, status),
        Err(Memory) => say_memory(out),
    }
}

/// Answers the generated query of a size, from 1 to 400, and writes the summary of its search.
pub fn trial<F: Folder, K: Sink>(alloc: Global, size: u32, folder: &mut F, out: &mut K) -> Status
    ensures ran { Ran F.read_faults F.misses F.overs K.written folder.old folder.new out.old out.new result }
    ensures keeps { KeepsFiles F.write_faults F.held K.faults folder.old folder.new out.old out.new result }
{
    match prepared(alloc, size, folder) {
        Ok(prepared) => sum_up(alloc, size, prepared, out),
        Err(refusal) => tell(out, refusal),
    }
}
