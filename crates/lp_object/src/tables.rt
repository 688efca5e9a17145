// The tables of records by predicate and key, which are a function of the records.

ghost use Rattle.lp_bytes.specs.Writing.{text_of, more};
ghost use Rattle.std.specs.Prelude.{◌≡◌, ◌++◌, ◌∷◌, [], OnOk, map, length};
ghost use Rattle.std.specs.List.{flat_map};
ghost use Rattle.lp_bytes.specs.Numbers.{spelled_two, spelled_four, spelled_integer};
ghost use Rattle.lp_bytes.specs.Reading.{Passes, left_of};
ghost use Rattle.lp_code.specs.Groups.{looked_key};
ghost use Rattle.lp_object.specs.Plain.{plain_record};
ghost use Rattle.lp_object.specs.Reading.{expected_at, all_expected_at};
ghost use Rattle.lp_object.specs.Tables.{key_fields, group_fields, groups_fields, table_fields, group_of, spelled_group, spelled_groups, spelled_tables};

use crate::records::write_key;
use crate::width::Width;
use crate::written::write_numbers;
use byteorder::{ByteOrder, LittleEndian};
use lp_base::Memory;
use lp_bytes::{ReadError, Reader, Writer};
use lp_code::{Image, KeyRef};
use std::alloc::Global;

// A field of these bytes.
#[tactic(auto, unfolding(crate::specs::Reading::expected_at))]
fn expect(reader: &mut Reader<'_>, field: &[u8]) -> Result<(), ReadError>
    ensures { Passes result (left_of reader.new) (expected_at field.now (left_of reader.old)) }
{
    let at = reader.at();
    let taken = reader.take(field.len())?;
    if taken == field {
        return Ok(());
    }
    Err(Reader::bad(at))
}

fn expect_byte(reader: &mut Reader<'_>, number: u8) -> Result<(), ReadError>
    ensures { Passes result (left_of reader.new) (expected_at (number ∷ []) (left_of reader.old)) }
{
    expect(reader, &[number])
}

// The lowest two bytes of a number, and the lowest four.
fn expect_two(reader: &mut Reader<'_>, number: u64) -> Result<(), ReadError>
    ensures { Passes result (left_of reader.new) (expected_at (spelled_two number) (left_of reader.old)) }
{
    let mut bytes = [0; 8];
    LittleEndian::write_u64(&mut bytes, number);
    expect(reader, &bytes[..2])
}

fn expect_four(reader: &mut Reader<'_>, number: u64) -> Result<(), ReadError>
    ensures { Passes result (left_of reader.new) (expected_at (spelled_four number) (left_of reader.old)) }
{
    let mut bytes = [0; 8];
    LittleEndian::write_u64(&mut bytes, number);
    expect(reader, &bytes[..4])
}

fn expect_integer(reader: &mut Reader<'_>, integer: i64) -> Result<(), ReadError>
    ensures { Passes result (left_of reader.new) (expected_at (spelled_integer integer) (left_of reader.old)) }
{
    let mut bytes = [0; 8];
    LittleEndian::write_i64(&mut bytes, integer);
    expect(reader, &bytes)
}

#[tactic(auto, unfolding(crate::specs::Reading::all_expected_at))]
fn expect_key(reader: &mut Reader<'_>, key: KeyRef<'_>) -> Result<(), ReadError>
    ensures { Passes result (left_of reader.new) (all_expected_at (key_fields (looked_key key.entry)) (left_of reader.old)) }
{
    match key {
        KeyRef::None => {
            expect_byte(reader, 0)?;
        }
        KeyRef::Const(constant) => {
            expect_byte(reader, 1)?;
            expect_four(reader, u64::from(constant))?;
        }
        KeyRef::Int(integer) => {
            expect_byte(reader, 2)?;
            expect_integer(reader, integer)?;
        }
        KeyRef::Text(text) => {
            expect_byte(reader, 3)?;
            expect_two(reader, text.len() as u64)?;
            expect(reader, text)?;
        }
    }
    Ok(())
}

fn expect_numbers(reader: &mut Reader<'_>, numbers: &[u32]) -> Result<(), ReadError>
    ensures { Passes result (left_of reader.new) (all_expected_at (map spelled_four numbers.now) (left_of reader.old)) }
{
    for number in numbers {
        expect_four(reader, u64::from(*number))?;
    }
    Ok(())
}

// A key, and the records that have it.
fn expect_group(reader: &mut Reader<'_>, key: KeyRef<'_>, records: &[u32]) -> Result<(), ReadError>
    ensures { Passes result (left_of reader.new) (all_expected_at (group_fields records.now (looked_key key.entry)) (left_of reader.old)) }
{
    expect_key(reader, key)?;
    expect_four(reader, records.len() as u64)?;
    expect_numbers(reader, records)
}

// The group of a constant and a key.
#[tactic(auto, using(crate::proofs::Grouped::group_is))]
fn expect_keyed_group(
    reader: &mut Reader<'_>,
    image: &Image,
    constant: u32,
    key: KeyRef<'_>,
) -> Result<(), ReadError>
    ensures { Passes result (left_of reader.new) (all_expected_at (group_fields (group_of (map plain_record image.now.code.records.items) constant (looked_key key.entry)) (looked_key key.entry)) (left_of reader.old)) }
{
    expect_group(reader, key, image.group(constant, key))
}

// The groups of a constant, by their keys.
fn expect_keyed(
    reader: &mut Reader<'_>,
    image: &Image,
    constant: u32,
    keys: &[KeyRef<'_>],
) -> Result<(), ReadError>
    ensures { Passes result (left_of reader.new) (all_expected_at (flat_map (λ k. group_fields (group_of (map plain_record image.now.code.records.items) constant k) k) (map looked_key keys.now)) (left_of reader.old)) }
{
    for key in keys {
        expect_keyed_group(reader, image, constant, *key)?;
    }
    Ok(())
}

fn expect_groups(
    alloc: Global,
    reader: &mut Reader<'_>,
    image: &Image,
    constant: u32,
) -> Result<(), ReadError>
    ensures { Passes result (left_of reader.new) (all_expected_at (groups_fields (map plain_record image.now.code.records.items) constant) (left_of reader.old)) }
{
    expect_four(reader, u64::from(constant))?;
    let keys = image.keys(alloc, constant)?;
    expect_four(reader, keys.len() as u64)?;
    expect_keyed(reader, image, constant, keys.as_slice())
}

// The groups of these constants.
fn expect_heads(
    alloc: Global,
    reader: &mut Reader<'_>,
    image: &Image,
    heads: &[u32],
) -> Result<(), ReadError>
    ensures { Passes result (left_of reader.new) (all_expected_at (flat_map (groups_fields (map plain_record image.now.code.records.items)) heads.now) (left_of reader.old)) }
{
    for constant in heads {
        expect_groups(alloc, reader, image, *constant)?;
    }
    Ok(())
}

// The tables of the image, and no others.
pub(crate) fn expect_tables(
    alloc: Global,
    reader: &mut Reader<'_>,
    image: &Image,
) -> Result<(), ReadError>
    ensures { Passes result (left_of reader.new) (all_expected_at (table_fields (map plain_record image.now.code.records.items)) (left_of reader.old)) }
{
    let heads = image.heads(alloc)?;
    expect_four(reader, heads.len() as u64)?;
    expect_heads(alloc, reader, image, heads.as_slice())
}

#[tactic(auto, unfolding(crate::specs::Tables::spelled_group))]
fn write_group(writer: &mut Writer, key: KeyRef<'_>, records: &[u32]) -> Result<(), Memory>
    ensures { OnOk result (text_of writer.new ≡ more (text_of writer.old) (spelled_group records.now (looked_key key.entry))) }
{
    write_key(writer, Width::Four, key)?;
    writer.low_four(records.len() as u64)?;
    write_numbers(writer, records)
}

// The group of a constant and a key.
#[tactic(auto, using(crate::proofs::Grouped::group_is))]
fn write_keyed_group(
    writer: &mut Writer,
    image: &Image,
    constant: u32,
    key: KeyRef<'_>,
) -> Result<(), Memory>
    ensures { OnOk result (text_of writer.new ≡ more (text_of writer.old) (spelled_group (group_of (map plain_record image.now.code.records.items) constant (looked_key key.entry)) (looked_key key.entry))) }
{
    write_group(writer, key, image.group(constant, key))
}

// The groups of a constant, by their keys.
fn write_keyed(
    writer: &mut Writer,
    image: &Image,
    constant: u32,
    keys: &[KeyRef<'_>],
) -> Result<(), Memory>
    ensures { OnOk result (text_of writer.new ≡ more (text_of writer.old) (flat_map (λ k. spelled_group (group_of (map plain_record image.now.code.records.items) constant k) k) (map looked_key keys.now))) }
{
    for key in keys {
        write_keyed_group(writer, image, constant, *key)?;
    }
    Ok(())
}

fn write_groups(
    writer: &mut Writer,
    alloc: Global,
    image: &Image,
    constant: u32,
) -> Result<(), Memory>
    ensures { OnOk result (text_of writer.new ≡ more (text_of writer.old) (spelled_groups (map plain_record image.now.code.records.items) constant)) }
{
    writer.four(constant)?;
    let keys = image.keys(alloc, constant)?;
    writer.low_four(keys.len() as u64)?;
    write_keyed(writer, image, constant, keys.as_slice())?;
    Ok(())
}

// The groups of these constants.
fn write_grouped(
    writer: &mut Writer,
    alloc: Global,
    image: &Image,
    heads: &[u32],
) -> Result<(), Memory>
    ensures { OnOk result (text_of writer.new ≡ more (text_of writer.old) (flat_map (spelled_groups (map plain_record image.now.code.records.items)) heads.now)) }
{
    for constant in heads {
        write_groups(writer, alloc, image, *constant)?;
    }
    Ok(())
}

pub(crate) fn write_tables(writer: &mut Writer, alloc: Global, image: &Image) -> Result<(), Memory>
    ensures { OnOk result (text_of writer.new ≡ more (text_of writer.old) (spelled_tables (map plain_record image.now.code.records.items))) }
{
    let heads = image.heads(alloc)?;
    writer.low_four(heads.len() as u64)?;
    write_grouped(writer, alloc, image, heads.as_slice())?;
    Ok(())
}
