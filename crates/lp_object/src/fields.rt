// Fields of one number or text that are read.

ghost use Rattle.std.specs.Prelude.{◌≡◌, [], IfOk, length};
ghost use Rattle.lp_code.specs.Length.{FitsByte, FitsTwo};
ghost use Rattle.lp_bytes.specs.Reading.{Gives, left_of, two_at, four_at, each_at};
ghost use Rattle.lp_object.specs.Reading.{number_at, text_at, name_length_at, name_at, choice_at, few_at, many_at, numbered_at, one_or_more_at, count_at};

use crate::width::Width;
use lp_base::Memory;
use lp_bytes::{ReadError, Reader};
use std::alloc::Global;

// The number of a constant or of a kind, or a count of them.
#[tactic(auto, unfolding(crate::specs::Reading::number_at))]
pub(crate) fn read_number(reader: &mut Reader<'_>, width: Width) -> Result<u32, ReadError>
    ensures { Gives (λ x. x) result (left_of reader.new) (number_at width (left_of reader.old)) }
{
    match width {
        Width::Two => {
            let number = reader.two()?;
            Ok(u32::from(number))
        }
        Width::Four => reader.four(),
    }
}

// A text behind its length.
#[tactic(auto, unfolding(crate::specs::Reading::text_at))]
pub(crate) fn read_text<'a>(reader: &mut Reader<'a>) -> Result<&'a [u8], ReadError>
    ensures fits { IfOk result (λ text. FitsTwo text.now) }
    ensures read { Gives (λ x. x.now) result (left_of reader.new) (text_at (left_of reader.old)) }
{
    let length = reader.two()?;
    reader.take(usize::from(length))
}

// A text of its own.
pub(crate) fn read_string(alloc: Global, reader: &mut Reader<'_>) -> Result<Vec<u8>, ReadError>
    ensures fits { IfOk result (λ text. FitsTwo text.items) }
    ensures read { Gives (λ x. x.items) result (left_of reader.new) (text_at (left_of reader.old)) }
{
    let text = read_text(reader)?;
    let owned = Vec::from_slice(alloc, text)?;
    Ok(owned)
}

// The length of a text that is not empty and has at most 255 bytes.
#[tactic(auto, unfolding(crate::specs::Reading::name_length_at))]
pub(crate) fn read_name_length(reader: &mut Reader<'_>) -> Result<u16, ReadError>
    ensures { Gives (λ x. x) result (left_of reader.new) (name_length_at (left_of reader.old)) }
{
    let at = reader.at();
    let length = reader.two()?;
    if length == 0 {
        return Err(Reader::bad(at));
    }
    if length > 255 {
        return Err(Reader::bad(at));
    }
    Ok(length)
}

#[tactic(auto, unfolding(crate::specs::Reading::name_at))]
pub(crate) fn read_name<'a>(reader: &mut Reader<'a>) -> Result<&'a [u8], ReadError>
    ensures { Gives (λ x. x.now) result (left_of reader.new) (name_at (left_of reader.old)) }
{
    let length = read_name_length(reader)?;
    reader.take(usize::from(length))
}

// A name of its own.
pub(crate) fn read_owned_name(alloc: Global, reader: &mut Reader<'_>) -> Result<Vec<u8>, ReadError>
    ensures { Gives (λ x. x.items) result (left_of reader.new) (name_at (left_of reader.old)) }
{
    let name = read_name(reader)?;
    let owned = Vec::from_slice(alloc, name)?;
    Ok(owned)
}

// One of two numbers, the first one for true.
#[tactic(auto, unfolding(crate::specs::Reading::choice_at))]
pub(crate) fn read_choice(reader: &mut Reader<'_>, yes: u8, no: u8) -> Result<bool, ReadError>
    ensures { Gives (λ x. x) result (left_of reader.new) (choice_at yes no (left_of reader.old)) }
{
    let at = reader.at();
    let byte = reader.byte()?;
    if byte == yes {
        return Ok(true);
    }
    if byte == no {
        return Ok(false);
    }
    Err(Reader::bad(at))
}

// A count that is not above a bound.
#[tactic(auto, unfolding(crate::specs::Reading::count_at))]
pub(crate) fn read_count(reader: &mut Reader<'_>, width: Width, most: u32) -> Result<u32, ReadError>
    ensures { Gives (λ x. x) result (left_of reader.new) (count_at width most (left_of reader.old)) }
{
    let at = reader.at();
    let count = read_number(reader, width)?;
    if count > most {
        return Err(Reader::bad(at));
    }
    Ok(count)
}

// Registers behind a count of one byte.
#[tactic(auto, unfolding(crate::specs::Reading::few_at))]
pub(crate) fn read_few(alloc: Global, reader: &mut Reader<'_>) -> Result<Vec<u16>, ReadError>
    ensures fits { IfOk result (λ registers. FitsByte registers.items) }
    ensures read { Gives (λ x. x.items) result (left_of reader.new) (few_at (left_of reader.old)) }
{
    let count = reader.byte()?;
    read_registers(alloc, reader, u16::from(count))
}

// Registers, of which there is one or more.
#[tactic(auto, unfolding(crate::specs::Reading::one_or_more_at))]
pub(crate) fn read_one_or_more(
    alloc: Global,
    reader: &mut Reader<'_>,
) -> Result<Vec<u16>, ReadError>
    ensures fits { IfOk result (λ registers. FitsByte registers.items) }
    ensures read { Gives (λ x. x.items) result (left_of reader.new) (one_or_more_at (left_of reader.old)) }
{
    let at = reader.at();
    let registers = read_few(alloc, reader)?;
    if registers.len() == 0 {
        return Err(Reader::bad(at));
    }
    Ok(registers)
}

// Registers behind a count of two bytes.
#[tactic(auto, unfolding(crate::specs::Reading::many_at))]
pub(crate) fn read_many(alloc: Global, reader: &mut Reader<'_>) -> Result<Vec<u16>, ReadError>
    ensures fits { IfOk result (λ registers. FitsTwo registers.items) }
    ensures read { Gives (λ x. x.items) result (left_of reader.new) (many_at (left_of reader.old)) }
{
    let count = reader.two()?;
    read_registers(alloc, reader, count)
}

fn read_registers(alloc: Global, reader: &mut Reader<'_>, count: u16) -> Result<Vec<u16>, ReadError>
    ensures length { IfOk result (λ registers. length registers.items ≡ count) }
    ensures read { Gives (λ x. x.items) result (left_of reader.new) (each_at (λ before. two_at) [] count (left_of reader.old)) }
{
    let mut registers = Vec::new(alloc);
    for _ in 0..count {
        let register = reader.two()?;
        registers.push(register)?;
    }
    Ok(registers)
}

// Records by number, behind a count of two bytes.
#[tactic(auto, unfolding(crate::specs::Reading::numbered_at))]
pub(crate) fn read_numbered(alloc: Global, reader: &mut Reader<'_>) -> Result<Vec<u32>, ReadError>
    ensures fits { IfOk result (λ records. FitsTwo records.items) }
    ensures read { Gives (λ x. x.items) result (left_of reader.new) (numbered_at (left_of reader.old)) }
{
    let count = reader.two()?;
    read_numbers(alloc, reader, count)
}

fn read_numbers(alloc: Global, reader: &mut Reader<'_>, count: u16) -> Result<Vec<u32>, ReadError>
    ensures length { IfOk result (λ records. length records.items ≡ count) }
    ensures read { Gives (λ x. x.items) result (left_of reader.new) (each_at (λ before. four_at) [] count (left_of reader.old)) }
{
    let mut records = Vec::new(alloc);
    for _ in 0..count {
        let record = reader.four()?;
        records.push(record)?;
    }
    Ok(records)
}
