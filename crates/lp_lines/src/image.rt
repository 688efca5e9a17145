// What is said of an object, image or certificate.
ghost use Rattle.std.specs.Prelude.{◌≡◌, ◌++◌, IfOk};
ghost use Rattle.std.specs.Fmt.{decimal};
ghost use Rattle.lp_lines.specs.Lines.{image_line};
ghost use Rattle.lp_lines.specs.Refusals.{IsJudged, TellsImage};

use crate::refusal::Refusal;
use itoa::Buffer;
use lp_base::{Memory, Status};
use std::alloc::Global;

// `image: FILE: TEXT`.
#[tactic(auto, unfolding(crate::specs::Lines::image_line))]
fn line_of(alloc: Global, file: &[u8], said: &[u8]) -> Result<Vec<u8>, Memory>
    ensures { IfOk result (λ line. line.items ≡ image_line file.now said.now) }
{
    let mut line = b"image: ".to_vec(alloc)?;
    line.extend_from_slice(file)?;
    line.extend_from_slice(b": ")?;
    line.extend_from_slice(said)?;
    line.extend_from_slice(b"\n")?;
    Ok(line)
}

/// A text that is said of a file: `image: FILE: TEXT`.
pub fn said_of(alloc: Global, file: &[u8], said: &[u8]) -> Refusal
    ensures judged { IsJudged result }
    ensures says { TellsImage file.now said.now result }
{
    match line_of(alloc, file, said) {
        Ok(line) => Refusal::Line(Status::Image, line),
        Err(Memory) => Refusal::Memory,
    }
}

/// A text with a number behind it, in decimal digits.
pub fn numbered(alloc: Global, text: &str, number: u64) -> Result<Vec<u8>, Memory>
    ensures { IfOk result (λ said. said.items ≡ text.now ++ decimal number) }
{
    let mut buffer = Buffer::new();
    let mut said = text.as_bytes().to_vec(alloc)?;
    said.extend_from_slice(buffer.format(number).as_bytes())?;
    Ok(said)
}

/// A text that is said of a file, with a number behind it: `image: FILE: TEXT N`, where the text brings its blank.
pub fn said_with(alloc: Global, file: &[u8], text: &str, number: u64) -> Refusal
    ensures judged { IsJudged result }
    ensures says { TellsImage file.now (text.now ++ decimal number) result }
{
    match numbered(alloc, text, number) {
        Ok(said) => said_of(alloc, file, said.as_slice()),
        Err(Memory) => Refusal::Memory,
    }
}
