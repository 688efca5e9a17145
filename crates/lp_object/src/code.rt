// The code of a record: one field, of instructions.

ghost use Rattle.lp_bytes.specs.Writing.{text_of, more};
ghost use Rattle.std.specs.Prelude.{◌≡◌, ◌++◌, [], IfOk, OnOk, map};
ghost use Rattle.std.specs.List.{All, flat_map};
ghost use Rattle.lp_bytes.specs.Reading.{Gives, left_of};
ghost use Rattle.lp_code.specs.Length.{Fits};
ghost use Rattle.lp_object.specs.Plain.{plain_instr};
ghost use Rattle.lp_object.specs.Reading.{located_at, instrs_at, code_at};
ghost use Rattle.lp_object.specs.Spelling.{spelled_instr, spelled_code};

use crate::instructions::{read_instruction, write_instruction};
use crate::width::Width;
use lp_base::Memory;
use lp_bytes::{ReadError, Reader, Writer};
use lp_code::Instr;
use std::alloc::Global;

// The next instruction, whose faults are told at its first byte. So many bytes stand behind the code.
#[tactic(auto, unfolding(crate::specs::Reading::located_at))]
fn read_located(
    alloc: Global,
    reader: &mut Reader<'_>,
    width: Width,
    behind: usize,
) -> Result<Instr, ReadError>
    ensures fits { IfOk result (λ instr. Fits instr) }
    ensures read { Gives plain_instr result (left_of reader.new) (located_at width behind (left_of reader.old)) }
{
    let at = reader.at();
    match read_instruction(alloc, reader, width) {
        Ok(instr) => {
            if reader.len() < behind {
                return Err(Reader::bad(at));
            }
            Ok(instr)
        }
        Err(ReadError::Memory) => Err(ReadError::Memory),
        Err(ReadError::Fault(_)) => Err(Reader::bad(at)),
    }
}

// Instructions up to the end of the code, behind which so many bytes stand.
fn read_instructions(
    alloc: Global,
    reader: &mut Reader<'_>,
    width: Width,
    behind: usize,
    most: u32,
) -> Result<Vec<Instr>, ReadError>
    ensures fits { IfOk result (λ code. All Fits code.items) }
    ensures read { Gives (λ code. map plain_instr code.items) result (left_of reader.new) (instrs_at width behind [] most (left_of reader.old)) }
{
    let mut code = Vec::new(alloc);
    for _ in 0..most {
        if reader.len() <= behind {
            return Ok(code);
        }
        let instr = read_located(alloc, reader, width, behind)?;
        code.push(instr)?;
    }
    Ok(code)
}

// The length of the code, and the code.
#[tactic(auto, unfolding(crate::specs::Reading::code_at))]
pub(crate) fn read_code(
    alloc: Global,
    reader: &mut Reader<'_>,
    width: Width,
) -> Result<Vec<Instr>, ReadError>
    ensures fits { IfOk result (λ code. All Fits code.items) }
    ensures read { Gives (λ code. map plain_instr code.items) result (left_of reader.new) (code_at width (left_of reader.old)) }
{
    let length = reader.four()?;
    let mut end = *reader;
    end.take(length as usize)?;
    read_instructions(alloc, reader, width, end.len(), length)
}

// Instructions, one behind the other.
fn write_instructions(writer: &mut Writer, width: Width, code: &[Instr]) -> Result<(), Memory>
    ensures { OnOk result (text_of writer.new ≡ more (text_of writer.old) (flat_map (spelled_instr width) (map plain_instr code.now))) }
{
    for instr in code {
        write_instruction(writer, width, instr)?;
    }
    Ok(())
}

#[tactic(auto, unfolding(crate::specs::Spelling::spelled_code))]
pub(crate) fn write_code(
    writer: &mut Writer,
    alloc: Global,
    width: Width,
    code: &[Instr],
) -> Result<(), Memory>
    ensures { OnOk result (text_of writer.new ≡ more (text_of writer.old) (spelled_code width (map plain_instr code.now))) }
{
    let mut inside = Writer::new(alloc);
    write_instructions(&mut inside, width, code)?;
    match inside.finish() {
        Ok(bytes) => {
            writer.low_four(bytes.len() as u64)?;
            writer.put(bytes.as_slice())
        }
        Err(_) => {
            writer.fill();
            Ok(())
        }
    }
}
