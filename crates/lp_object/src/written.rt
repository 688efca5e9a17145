// Fields of one number or text that are written.

ghost use Rattle.std.specs.Prelude.{◌≡◌, OnOk};
ghost use Rattle.std.specs.List.{flat_map};
ghost use Rattle.lp_bytes.specs.Numbers.{spelled_one, spelled_two, spelled_four};
ghost use Rattle.lp_bytes.specs.Writing.{text_of, more};
ghost use Rattle.lp_object.specs.Numbers.{spelled_number, spelled_text, spelled_few, spelled_many, spelled_numbered};

use crate::width::Width;
use byteorder::{ByteOrder, LittleEndian};
use lp_base::Memory;
use lp_bytes::Writer;

// The lowest byte of a number.
pub(crate) fn write_low_one(writer: &mut Writer, number: u64) -> Result<(), Memory>
    ensures { OnOk result (text_of writer.new ≡ more (text_of writer.old) (spelled_one number)) }
{
    let mut bytes = [0; 8];
    LittleEndian::write_u64(&mut bytes, number);
    writer.put(&bytes[..1])
}

// The number of a constant or of a kind, or a count of them.
pub(crate) fn write_number(writer: &mut Writer, width: Width, number: u64) -> Result<(), Memory>
    ensures { OnOk result (text_of writer.new ≡ more (text_of writer.old) (spelled_number width number)) }
{
    match width {
        Width::Two => writer.low_two(number),
        Width::Four => writer.low_four(number),
    }
}

// A text behind its length.
#[tactic(auto, unfolding(crate::specs::Numbers::spelled_text))]
pub(crate) fn write_text(writer: &mut Writer, text: &[u8]) -> Result<(), Memory>
    ensures { OnOk result (text_of writer.new ≡ more (text_of writer.old) (spelled_text text.now)) }
{
    writer.low_two(text.len() as u64)?;
    writer.put(text)
}

// Registers behind a count of one byte.
#[tactic(auto, unfolding(crate::specs::Numbers::spelled_few))]
pub(crate) fn write_few(writer: &mut Writer, registers: &[u16]) -> Result<(), Memory>
    ensures { OnOk result (text_of writer.new ≡ more (text_of writer.old) (spelled_few registers.now)) }
{
    write_low_one(writer, registers.len() as u64)?;
    write_registers(writer, registers)
}

// Registers behind a count of two bytes.
#[tactic(auto, unfolding(crate::specs::Numbers::spelled_many))]
pub(crate) fn write_many(writer: &mut Writer, registers: &[u16]) -> Result<(), Memory>
    ensures { OnOk result (text_of writer.new ≡ more (text_of writer.old) (spelled_many registers.now)) }
{
    writer.low_two(registers.len() as u64)?;
    write_registers(writer, registers)
}

// Records behind a count of two bytes.
#[tactic(auto, unfolding(crate::specs::Numbers::spelled_numbered))]
pub(crate) fn write_numbered(writer: &mut Writer, records: &[u32]) -> Result<(), Memory>
    ensures { OnOk result (text_of writer.new ≡ more (text_of writer.old) (spelled_numbered records.now)) }
{
    writer.low_two(records.len() as u64)?;
    write_numbers(writer, records)
}

pub(crate) fn write_registers(writer: &mut Writer, registers: &[u16]) -> Result<(), Memory>
    ensures { OnOk result (text_of writer.new ≡ more (text_of writer.old) (flat_map spelled_two registers.now)) }
{
    for register in registers {
        writer.two(*register)?;
    }
    Ok(())
}

pub(crate) fn write_numbers(writer: &mut Writer, numbers: &[u32]) -> Result<(), Memory>
    ensures { OnOk result (text_of writer.new ≡ more (text_of writer.old) (flat_map spelled_four numbers.now)) }
{
    for number in numbers {
        writer.four(*number)?;
    }
    Ok(())
}
