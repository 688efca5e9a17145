// Records, with their heads and keys.
ghost use Rattle.lp_bytes.specs.Writing.{text_of, more};
ghost use Rattle.std.specs.List.{flat_map};
ghost use Rattle.std.specs.Prelude.{◌≡◌, ◌<◌, ◌^◌, ◌∷◌, [], if◌then◌else◌, Some, IfOk, OnOk, length, map};
ghost use Rattle.std.specs.List.{All};
ghost use Rattle.lp_bytes.specs.Reading.{Gives, left_of, each_at};
ghost use Rattle.lp_code.specs.Length.{Fits, AllFit};
ghost use Rattle.lp_code.specs.Groups.{plain_key, looked_key};
ghost use Rattle.lp_object.specs.Plain.{plain_record};
ghost use Rattle.lp_object.specs.Reading.{head_at, key_at, record_at, records_at};
ghost use Rattle.lp_object.specs.Spelling.{spelled_head, spelled_key, spelled_record, spelled_records};

use crate::code::{read_code, write_code};
use crate::fields::{read_choice, read_number, read_string};
use crate::width::Width;
use crate::written::{write_number, write_text};
use lp_base::Memory;
use lp_bytes::{ReadError, Reader, Writer};
use lp_code::{Code, Key, KeyRef, Record, RecordHead};
use std::alloc::Global;

#[tactic(auto, unfolding(crate::specs::Reading::head_at))]
fn read_head(reader: &mut Reader<'_>, width: Width) -> Result<RecordHead, ReadError>
    ensures { Gives (λ x. Some x) result (left_of reader.new) (head_at width (left_of reader.old)) }
{
    let constant = read_choice(reader, 0, 1)?;
    if constant {
        let number = read_number(reader, width)?;
        return Ok(RecordHead::Const(number));
    }
    let register = reader.two()?;
    Ok(RecordHead::Register(register))
}

#[tactic(auto, unfolding(crate::specs::Reading::key_at))]
fn read_key(alloc: Global, reader: &mut Reader<'_>, width: Width) -> Result<Key, ReadError>
    ensures { Gives plain_key result (left_of reader.new) (key_at width (left_of reader.old)) }
{
    let at = reader.at();
    let byte = reader.byte()?;
    match byte {
        0 => Ok(Key::None),
        1 => Ok(Key::Const(read_number(reader, width)?)),
        2 => Ok(Key::Int(reader.integer()?)),
        3 => Ok(Key::Text(read_string(alloc, reader)?)),
        _ => Err(Reader::bad(at)),
    }
}

#[tactic(auto, unfolding(crate::specs::Reading::record_at))]
fn read_record(alloc: Global, reader: &mut Reader<'_>, width: Width) -> Result<Record, ReadError>
    ensures fits { IfOk result (λ made. All Fits made.code.items) }
    ensures read { Gives plain_record result (left_of reader.new) (record_at width (left_of reader.old)) }
{
    let program = read_choice(reader, 1, 0)?;
    let head = read_head(reader, width)?;
    let captured_types = reader.two()?;
    let captured = reader.two()?;
    let types = reader.two()?;
    let registers = reader.two()?;
    let key = read_key(alloc, reader, width)?;
    let code = read_code(alloc, reader, width)?;
    Ok(Record {
        program,
        head: Some(head),
        captured_types,
        captured,
        types,
        registers,
        key,
        code,
    })
}

// So many records.
fn read_counted(
    alloc: Global,
    reader: &mut Reader<'_>,
    width: Width,
    count: u32,
) -> Result<Vec<Record>, ReadError>
    ensures few { IfOk result (λ records. length records.items ≡ count) }
    ensures fit { IfOk result (λ records. AllFit records.items) }
    ensures read { Gives (λ records. map plain_record records.items) result (left_of reader.new) (each_at (λ before. record_at width) [] count (left_of reader.old)) }
{
    let mut records = Vec::new(alloc);
    for _ in 0..count {
        let next = read_record(alloc, reader, width)?;
        records.push(next)?;
    }
    Ok(records)
}

// Records behind their count, of which there are at most so many.
#[tactic(auto, unfolding(crate::specs::Reading::records_at))]
pub(crate) fn read_records(
    alloc: Global,
    reader: &mut Reader<'_>,
    width: Width,
    most: u32,
) -> Result<Code, ReadError>
    ensures few { IfOk result (λ code. length code.records.items < 2 ^ 32) }
    ensures fit { IfOk result (λ code. AllFit code.records.items) }
    ensures read { Gives (λ code. map plain_record code.records.items) result (left_of reader.new) (records_at width most (left_of reader.old)) }
{
    let at = reader.at();
    let count = reader.four()?;
    if count > most {
        return Err(Reader::bad(at));
    }
    let records = read_counted(alloc, reader, width, count)?;
    Ok(Code { records })
}

// 1 for a clause of the program, 0 for an assumed one.
fn write_form(writer: &mut Writer, program: bool) -> Result<(), Memory>
    ensures { OnOk result (text_of writer.new ≡ more (text_of writer.old) ((if program then 1 else 0) ∷ [])) }
{
    writer.byte(if program { 1 } else { 0 })
}

// A head that is there.
fn write_some_head(writer: &mut Writer, width: Width, head: RecordHead) -> Result<(), Memory>
    ensures { OnOk result (text_of writer.new ≡ more (text_of writer.old) (spelled_head width (Some head))) }
{
    match head {
        RecordHead::Const(constant) => {
            writer.byte(0)?;
            write_number(writer, width, u64::from(constant))
        }
        RecordHead::Register(register) => {
            writer.byte(1)?;
            writer.two(register)
        }
    }
}

fn write_head(writer: &mut Writer, width: Width, head: Option<RecordHead>) -> Result<(), Memory>
    ensures { OnOk result (text_of writer.new ≡ more (text_of writer.old) (spelled_head width head)) }
{
    match head {
        None => writer.put(&[]),
        Some(head) => write_some_head(writer, width, head),
    }
}

pub(crate) fn write_key(writer: &mut Writer, width: Width, key: KeyRef<'_>) -> Result<(), Memory>
    ensures { OnOk result (text_of writer.new ≡ more (text_of writer.old) (spelled_key width (looked_key key.entry))) }
{
    match key {
        KeyRef::None => writer.byte(0),
        KeyRef::Const(constant) => {
            writer.byte(1)?;
            write_number(writer, width, u64::from(constant))
        }
        KeyRef::Int(integer) => {
            writer.byte(2)?;
            writer.integer(integer)
        }
        KeyRef::Text(text) => {
            writer.byte(3)?;
            write_text(writer, text)
        }
    }
}

#[tactic(auto, unfolding(crate::specs::Spelling::spelled_record))]
fn write_record(writer: &mut Writer, alloc: Global, width: Width, of: &Record) -> Result<(), Memory>
    ensures { OnOk result (text_of writer.new ≡ more (text_of writer.old) (spelled_record width (plain_record of.now))) }
{
    write_form(writer, of.program)?;
    write_head(writer, width, of.head)?;
    writer.two(of.captured_types)?;
    writer.two(of.captured)?;
    writer.two(of.types)?;
    writer.two(of.registers)?;
    write_key(writer, width, of.key.as_key_ref())?;
    write_code(writer, alloc, width, of.code.as_slice())
}

// Each of them.
fn write_each_record(
    writer: &mut Writer,
    alloc: Global,
    width: Width,
    records: &[Record],
) -> Result<(), Memory>
    ensures { OnOk result (text_of writer.new ≡ more (text_of writer.old) (flat_map (spelled_record width) (map plain_record records.now))) }
{
    for next in records {
        write_record(writer, alloc, width, next)?;
    }
    Ok(())
}

#[tactic(auto, unfolding(crate::specs::Spelling::spelled_records))]
pub(crate) fn write_records(
    writer: &mut Writer,
    alloc: Global,
    width: Width,
    records: &[Record],
) -> Result<(), Memory>
    ensures { OnOk result (text_of writer.new ≡ more (text_of writer.old) (spelled_records width (map plain_record records.now))) }
{
    writer.low_four(records.len() as u64)?;
    write_each_record(writer, alloc, width, records)
}
