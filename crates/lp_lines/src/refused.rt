// The refusals of texts: their lines.
ghost use Rattle.std.specs.Prelude.{◌≡◌, ◌≢◌, ◌⊎◌, ◌++◌, ◌≤◌, ℕ, List, length, take, codes, true, false, IfOk, OnOk};
ghost use Rattle.std.specs.Fmt.{decimal};
ghost use Rattle.lp_lexer.specs.Lexis.{HasFault};
ghost use Rattle.lp_lines.specs.Lines.{limit_line};
ghost use Rattle.lp_lines.specs.Ends.{IsOtherLimit};
ghost use Rattle.lp_lines.specs.Placed.{IsBlamed, IsCauseOf, IsOfText, IsSourceLine, IsTokenLine, IfSource, SaysOf, is_message, piece_of, said_as, source_line};
ghost use Rattle.lp_lines.specs.Refusals.{IsTextRefusal, TellsLimit};

use crate::cause::{Blame, Cause};
use crate::lines::limit;
use crate::refusal::Refusal;
use itoa::Buffer;
use lp_base::{Limit, Memory, Place, Spot, Status};
use lp_lexer::{LexFault, end_place};
use std::alloc::Global;

fn push_number(line: &mut Vec<u8>, number: u64) -> Result<(), Memory>
    ensures { OnOk result (line.new.items ≡ line.old.items ++ decimal number) }
{
    let mut buffer = Buffer::new();
    line.extend_from_slice(buffer.format(number).as_bytes())?;
    Ok(())
}

fn push_place(line: &mut Vec<u8>, place: Place) -> Result<(), Memory>
    ensures { OnOk result (line.new.items ≡ line.old.items ++ codes ":" ++ decimal place.line ++ codes ":" ++ decimal place.column ++ codes ": ") }
{
    line.extend_from_slice(b":")?;
    push_number(line, place.line)?;
    line.extend_from_slice(b":")?;
    push_number(line, place.column)?;
    line.extend_from_slice(b": ")?;
    Ok(())
}

// `source: FILE:LINE:COLUMN: TEXT`.
fn source_line(alloc: Global, file: &str, place: Place, said: &[u8]) -> Result<Vec<u8>, Memory>
    ensures { IfOk result (λ line. line.items ≡ source_line file.now place said.now) }
{
    let mut line = b"source: ".to_vec(alloc)?;
    line.extend_from_slice(file.as_bytes())?;
    push_place(&mut line, place)?;
    line.extend_from_slice(said)?;
    line.extend_from_slice(b"\n")?;
    Ok(line)
}

// The piece of a text. That each spot lies in its text is not told by the crates below: one that does not is want of memory.
fn piece(text: &[u8], spot: Spot) -> Result<&[u8], Memory>
    ensures { IfOk result (λ piece. piece.now ≡ piece_of text.now spot.from spot.to) }
{
    match text.get(spot.from..spot.to) {
        Some(piece) => Ok(piece),
        None => Err(Memory),
    }
}

// A message, and behind it the name at its place.
fn message_of_name(alloc: Global, text: &[u8], blame: &Blame) -> Result<Vec<u8>, Memory>
    ensures { IfOk result (λ said. said.items ≡ blame.now.text.now ++ codes " " ++ piece_of text.now blame.now.spot.from blame.now.spot.to) }
{
    let mut said = blame.text.as_bytes().to_vec(alloc)?;
    said.extend_from_slice(b" ")?;
    said.extend_from_slice(piece(text, blame.spot)?)?;
    Ok(said)
}

// What is said of a text.
fn message(alloc: Global, text: &[u8], blame: &Blame) -> Result<Vec<u8>, Memory>
    ensures { IfOk result (λ said. said.items ≡ said_as blame.now.is_named blame.now.text.now text.now blame.now.spot.from blame.now.spot.to) }
{
    if blame.is_named {
        return message_of_name(alloc, text, blame);
    }
    Ok(blame.text.as_bytes().to_vec(alloc)?)
}

// The line of what is said of a text. The place is read off the text itself.
fn blamed_line(alloc: Global, file: &str, text: &[u8], blame: &Blame) -> Result<Vec<u8>, Memory>
    ensures { IfOk result (λ line. IsBlamed file.now text.now blame.now line.items) }
{
    let Some(before) = text.get(..blame.spot.from) else {
        return Err(Memory);
    };
    let said = message(alloc, text, blame)?;
    source_line(alloc, file, end_place(before), &said)
}

/// The refusal of a text, for what is said of it.
pub fn blamed(alloc: Global, file: &str, text: &[u8], blame: &Blame) -> Refusal
    requires { is_message blame.now.is_named blame.now.text.now ≡ true }
    ensures refusal { IsTextRefusal result }
    ensures placed { IfSource (IsOfText file.now text.now) result }
    ensures says { IsSourceLine (IsBlamed file.now text.now blame.now) result }
{
    match blamed_line(alloc, file, text, blame) {
        Ok(line) => Refusal::Line(Status::Source, line),
        Err(Memory) => Refusal::Memory,
    }
}

// The line of a fault of tokens.
fn token_line(alloc: Global, file: &str, fault: LexFault) -> Result<Vec<u8>, Memory>
    ensures placed { (text : List ℕ) → HasFault text fault → IfOk result (λ line. IsOfText file.now text line.items) }
    ensures says { IfOk result (λ line. IsTokenLine file.now fault line.items) }
{
    match fault {
        LexFault::BadByte(place) => source_line(alloc, file, place, b"bad byte"),
        LexFault::OpenText(place) => source_line(alloc, file, place, b"unclosed string"),
        LexFault::OpenComment(place) => source_line(alloc, file, place, b"unclosed comment"),
        LexFault::BigNumber(place) => source_line(alloc, file, place, b"number past 64 bits"),
        LexFault::Memory => Err(Memory),
    }
}

/// The refusal of a text that has no tokens.
pub fn without_tokens(alloc: Global, file: &str, fault: LexFault) -> Refusal
    ensures refusal { IsTextRefusal result }
    ensures placed { (text : List ℕ) → HasFault text fault → IfSource (IsOfText file.now text) result }
    ensures says { IsSourceLine (IsTokenLine file.now fault) result }
{
    match token_line(alloc, file, fault) {
        Ok(line) => Refusal::Line(Status::Source, line),
        Err(Memory) => Refusal::Memory,
    }
}

/// The refusal for a limit that was passed. The limit on files is passed in reading alone: elsewhere it is want of memory.
pub fn limited(alloc: Global, passed: Limit) -> Refusal
    ensures refusal { IsTextRefusal result }
    ensures placed { IfSource (λ line. ⊥) result }
    ensures says { TellsLimit passed result }
{
    if passed == Limit::File {
        return Refusal::Memory;
    }
    match limit(alloc, passed) {
        Ok(line) => Refusal::Line(Status::Limit, line),
        Err(Memory) => Refusal::Memory,
    }
}

/// The refusal of the query's text, for its cause.
pub fn query_refused(alloc: Global, text: &[u8], cause: Cause) -> Refusal
    requires { IsCauseOf text.now cause }
    ensures refusal { IsTextRefusal result }
    ensures placed { IfSource (IsOfText (codes "query") text.now) result }
    ensures says { SaysOf (codes "query") text.now cause result }
{
    match cause {
        Cause::Tokens(fault) => without_tokens(alloc, "query", fault),
        Cause::Text(blame) => blamed(alloc, "query", text, &blame),
        Cause::Limit(passed) => limited(alloc, passed),
        Cause::Memory => Refusal::Memory,
    }
}
