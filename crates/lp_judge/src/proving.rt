// The certificates of a query's answers, written to a file.
ghost use Rattle.std.specs.Prelude.{◌≡◌, ◌≢◌, ◌++◌, ℕ, List, Option, IfOk, IfErr, OnOk, codes, true};
ghost use Rattle.std.specs.Fmt.{decimal};
ghost use Rattle.lp_base.specs.Held.{Held};
ghost use Rattle.lp_lines.specs.Ends.{Grows, Ran};
ghost use Rattle.lp_lines.specs.Left.{IsTarget};
ghost use Rattle.lp_lines.specs.Lines.{is_of_search};
ghost use Rattle.lp_lines.specs.Looked.{Looked, refusal_of};
ghost use Rattle.lp_lines.specs.Placed.{IfSource};
ghost use Rattle.lp_lines.specs.Refusals.{IsJudged};
ghost use Rattle.lp_load.specs.Placed.{IsPlaced, WritesPlaced};
ghost use Rattle.lp_judge.specs.Asked.{IsAskedFrom};
ghost use Rattle.lp_judge.specs.Checked.{IsJudgedOn};
ghost use Rattle.lp_judge.specs.Proofs.{AreProofs, IsCertified, IsCounted, IsCountedFile, WritesCounted, WritesProofs, has_file};
ghost use Rattle.lp_judge.specs.Proved.{IsOutcome, IsReady, Proves, cert_file, proved_line};

use crate::asking::{Asked, prepare_asked};
use crate::checking::read;
use crate::collecting::{Collected, Stopped, collect};
use crate::copying::copy_of;
use itoa::Buffer;
use lp_base::{Folder, Limit, Memory, Sink, Status};
use lp_cert::{CheckVerdict, check};
use lp_lines::{Refusal, Target, ending, file_name, limited, put, say, status, tell, write_fault};
use lp_model::Ending;
use lp_plain::Search;
use std::alloc::Global;

/// What is to be proved: a query of a module, with the limits of its search.
#[derive(Clone, Copy)]
pub struct Claim<'a> {
    /// The module's name.
    pub name: &'a str,
    /// The query as it is written.
    pub query: &'a str,
    /// The most steps of the search.
    pub steps: u64,
    /// The most answers of the search.
    pub answers: u64,
}

// A file and its bytes, to be written, and how the search ended.
#[derive(Drop)]
struct Ready {
    target: Target,
    bytes: Vec<u8>,
    ending: Ending,
}

// What is to be done: a file is to be written, or a normal form was too large.
#[derive(Drop)]
enum Outcome {
    File(Ready),
    Deep,
}

// The search of the query over a copy of the program.
fn start(alloc: Global, asked: &Asked, claim: Claim<'_>) -> Result<Search, Memory> {
    let copied = copy_of(alloc, &asked.names.program, &asked.query)?;
    Search::start(
        alloc,
        copied.program,
        copied.query,
        claim.steps,
        claim.answers,
    )
}

fn push_count(text: &mut Vec<u8>, count: u64) -> Result<(), Memory>
    ensures { OnOk result (text.new.items ≡ text.old.items ++ decimal count) }
{
    let mut buffer = Buffer::new();
    text.extend_from_slice(buffer.format(count).as_bytes())?;
    Ok(())
}

// `proved P of A` and the last line of the search.
fn lines_of(alloc: Global, proved: u64, collected: &Collected) -> Result<Vec<u8>, Memory>
    ensures { IfOk result (λ text. text.items ≡ proved_line proved collected.now.answers collected.now.ending) }
{
    let mut text = b"proved ".to_vec(alloc)?;
    push_count(&mut text, proved)?;
    text.extend_from_slice(b" of ")?;
    push_count(&mut text, collected.answers)?;
    text.extend_from_slice(b"\n")?;
    text.extend_from_slice(ending(collected.ending).as_bytes())?;
    Ok(text)
}

fn target_of(
    alloc: Global,
    name: &str,
    proved: u64,
    collected: &Collected,
) -> Result<Target, Memory>
    ensures { IfOk result (IsTarget (cert_file name.now) (proved_line proved collected.now.answers collected.now.ending)) }
{
    let file = file_name(alloc, name, ".cert")?;
    let fault = write_fault(alloc, file.as_str())?;
    let done = lines_of(alloc, proved, collected)?;
    Ok(Target { file, done, fault })
}

// The verdict on the certificates that the bytes spell, and how many these are.
fn verdict(alloc: Global, asked: Asked, bytes: &[u8]) -> Result<(CheckVerdict, u64), Memory>
    ensures { (held : Option Held) (name text : List ℕ) → IsAskedFrom held name text asked.names asked.query → IfOk result (λ v. v.0 ≡ CheckVerdict.Accepted → IsJudgedOn held name text bytes.now v.1 CheckVerdict.Accepted) }
{
    let Asked { mut names, query } = asked;
    let Ok(certificates) = read(alloc, bytes, &mut names) else {
        return Err(Memory);
    };
    let count = certificates.len() as u64;
    let verdict = check(alloc, &mut names, &query, certificates.as_slice())?;
    Ok((verdict, count))
}

// The file is made only where its certificates are accepted, as they are when the file is checked.
fn judged(alloc: Global, asked: Asked, bytes: &[u8]) -> Result<u64, Stopped>
    ensures { (held : Option Held) (name text : List ℕ) → IsAskedFrom held name text asked.names asked.query → IfOk result (λ count. IsJudgedOn held name text bytes.now count CheckVerdict.Accepted) }
{
    let (verdict, count) = verdict(alloc, asked, bytes)?;
    match verdict {
        CheckVerdict::Accepted => Ok(count),
        CheckVerdict::Deep(_) => Err(Stopped::Deep),
        CheckVerdict::Rejected(_) => Err(Stopped::Memory),
    }
}

fn made(alloc: Global, asked: Asked, claim: Claim<'_>) -> Result<Ready, Stopped>
    ensures ready { IfOk result (λ r. IsReady claim.entry.name.now r.ending r.target) }
    ensures proofs { (held : Option Held) (name text : List ℕ) → IsAskedFrom held name text asked.names asked.query → IfOk result (λ r. AreProofs held name text r.bytes.items) }
    ensures counted { (held : Option Held) (text : List ℕ) → IsAskedFrom held claim.entry.name.now text asked.names asked.query → IfOk result (λ r. IsCountedFile held claim.entry.name.now text r.bytes.items r.ending r.target) }
{
    let search = start(alloc, &asked, claim)?;
    let collected = collect(alloc, search)?;
    let proved = judged(alloc, asked, collected.bytes.as_slice())?;
    let target = target_of(alloc, claim.name, proved, &collected)?;
    Ok(Ready {
        target,
        bytes: collected.bytes,
        ending: collected.ending,
    })
}

// What is done where there is no file.
fn without_file(alloc: Global, stopped: Stopped) -> Result<Outcome, Refusal>
    ensures judged { IfErr result IsJudged }
    ensures nowhere { IfErr result (IfSource (λ line. ⊥)) }
    ensures outcome { (name : List ℕ) → IfOk result (IsOutcome name) }
    ensures certified { (held : Option Held) (name text : List ℕ) → IfOk result (IsCertified held name text) }
    ensures counted { (held : Option Held) (name text : List ℕ) → IfOk result (IsCounted held name text) }
{
    match stopped {
        Stopped::Deep => Ok(Outcome::Deep),
        Stopped::Long => Err(limited(alloc, Limit::Image)),
        Stopped::Memory => Err(Refusal::Memory),
    }
}

fn outcome_of(alloc: Global, asked: Asked, claim: Claim<'_>) -> Result<Outcome, Refusal>
    ensures judged { IfErr result IsJudged }
    ensures nowhere { IfErr result (IfSource (λ line. ⊥)) }
    ensures outcome { IfOk result (IsOutcome claim.entry.name.now) }
    ensures certified { (held : Option Held) (name text : List ℕ) → IsAskedFrom held name text asked.names asked.query → IfOk result (IsCertified held name text) }
    ensures counted { (held : Option Held) (text : List ℕ) → IsAskedFrom held claim.entry.name.now text asked.names asked.query → IfOk result (IsCounted held claim.entry.name.now text) }
{
    match made(alloc, asked, claim) {
        Ok(file) => Ok(Outcome::File(file)),
        Err(stopped) => without_file(alloc, stopped),
    }
}

// Loads a module, searches, and makes the file.
fn prepare<F: Folder>(alloc: Global, claim: Claim<'_>, folder: &mut F) -> Result<Outcome, Refusal>
    ensures looked { Looked F.read_faults F.misses F.overs F.write_faults F.held folder.old folder.new (refusal_of result) }
    ensures placed { IfErr result (IfSource (IsPlaced (F.held folder.old) claim.entry.query.now)) }
    ensures outcome { IfOk result (IsOutcome claim.entry.name.now) }
    ensures certified { IfOk result (IsCertified (F.held folder.old) claim.entry.name.now claim.entry.query.now) }
    ensures counted { IfOk result (IsCounted (F.held folder.old) claim.entry.name.now claim.entry.query.now) }
{
    match prepare_asked(alloc, claim.name, claim.query, folder) {
        Ok(asked) => outcome_of(alloc, asked, claim),
        Err(refusal) => Err(refusal),
    }
}

// Writes the file with its lines, or that a term is too deep.
fn finish<F: Folder, K: Sink>(
    alloc: Global,
    outcome: Outcome,
    folder: &mut F,
    out: &mut K,
) -> Status
    ensures grows { Grows (K.written out.old) (K.written out.new) }
    ensures of_search { result ≢ Status.WriteFault → is_of_search result ≡ true }
    ensures leaves { (name : List ℕ) → IsOutcome name outcome → Proves F.write_faults F.held K.faults K.written folder.old folder.new out.old out.new name result }
    ensures certified { (name text : List ℕ) → IsOutcome name outcome → IsCertified (F.held folder.old) name text outcome → has_file result ≡ true → WritesProofs (F.held folder.old) (F.held folder.new) name text }
    ensures counted { (name text : List ℕ) → IsCounted (F.held folder.old) name text outcome → result ≡ Status.Done → WritesCounted (F.held folder.old) (F.held folder.new) name text (K.written out.old) (K.written out.new) }
    ensures read_faults { F.read_faults folder.new ≡ F.read_faults folder.old }
    ensures misses { F.misses folder.new ≡ F.misses folder.old }
    ensures overs { F.overs folder.new ≡ F.overs folder.old }
{
    match outcome {
        Outcome::File(file) => put(
            alloc,
            &file.target,
            file.bytes.as_slice(),
            status(file.ending),
            folder,
            out,
        ),
        Outcome::Deep => say(out, ending(Ending::Deep).as_bytes(), status(Ending::Deep)),
    }
}

/// Searches for the answers of a query on a module, and writes the certificates of those without residual pairs to the module's file of certificates,
/// with `proved P of A` and the last line of the search, whose status it has. No file is written after a refusal, whose line is written: of the texts;
/// of the limit `image`, where the certificates take more than 16 MiB; or that a normal form in one of them is too deep. A file is written only where
/// `check_certificates` accepts it.
pub fn prove<F: Folder, K: Sink>(
    alloc: Global,
    claim: Claim<'_>,
    folder: &mut F,
    out: &mut K,
) -> Status
    ensures ran { Ran F.read_faults F.misses F.overs K.written folder.old folder.new out.old out.new result }
    ensures leaves { Proves F.write_faults F.held K.faults K.written folder.old folder.new out.old out.new claim.entry.name.now result }
    ensures certified { has_file result ≡ true → WritesProofs (F.held folder.old) (F.held folder.new) claim.entry.name.now claim.entry.query.now }
    ensures counted { result ≡ Status.Done → WritesCounted (F.held folder.old) (F.held folder.new) claim.entry.name.now claim.entry.query.now (K.written out.old) (K.written out.new) }
    ensures placed { result ≡ Status.Source → WritesPlaced (F.held folder.old) claim.entry.query.now (K.written out.old) (K.written out.new) }
{
    match prepare(alloc, claim, folder) {
        Ok(outcome) => finish(alloc, outcome, folder, out),
        Err(refusal) => tell(out, refusal),
    }
}
