// Images.

ghost use Rattle.lp_bytes.specs.Writing.{text_of, more};
ghost use Rattle.std.specs.List.{flat_map};
ghost use Rattle.std.specs.Prelude.{IfErr};
ghost use Rattle.lp_object.specs.Refusing.{IsLimit};
ghost use Rattle.std.specs.Prelude.{◌≡◌, ◌⊎◌, ◌<◌, ◌≤◌, ◌^◌, ◌++◌, ◌∷◌, [], List, ℕ, IfOk, OnOk, Ok, length, map};
ghost use Rattle.lp_term.specs.Nodes.{Nodes, Extends};
ghost use Rattle.lp_bytes.specs.Reading.{Gives, Comes, left_of, each_at};
ghost use Rattle.lp_code.specs.Length.{AllFit};
ghost use Rattle.lp_object.specs.declared.width.Width.TheVariants.{Four};
ghost use Rattle.lp_object.specs.Files.{spelled_image_kind, spelled_image_kinds, spelled_image_constant, spelled_image_constants, spelled_image_1, spelled_image};
ghost use Rattle.lp_object.specs.Plain.{PlainImageKind, PlainImageConstant, PlainImage, plain_image_kind, plain_image_constant, plain_image};
ghost use Rattle.lp_object.specs.Reading.{image_kind_name, image_kind_at, image_kinds_at, image_constant_name, image_constant_at, image_constants_at, image_at, tabled_at, version_at, image_of};
ghost use Rattle.lp_object.specs.Refusing.{Tells};
ghost use Rattle.lp_object.specs.Spellable.{SpellsImage};
ghost use Rattle.lp_object.specs.inner.Known.{Knows};

use crate::fault::{FormatFault, WriteRefusal};
use crate::fields::{read_count, read_owned_name};
use crate::names::{Names, read_fixity, read_new_global, write_fixity};
use crate::records::{read_records, write_records};
use crate::schemes::{read_scheme, write_scheme};
use crate::tables::{expect_tables, write_tables};
use crate::width::Width;
use crate::written::write_text;
use lp_base::Memory;
use lp_bytes::{Fault, ReadError, Reader, Writer};
use lp_code::{Image, ImageConstant, ImageKind};
use lp_term::Bank;
use std::alloc::Global;

// The most kinds and constants of an image: numbers of kinds begin with 8 and those of constants with 32, and the last one is 1,048,575.
const MOST_KINDS: u32 = 1_048_568;

const MOST_CONSTANTS: u32 = 1_048_544;

#[tactic(auto, unfolding(crate::specs::Reading::image_kind_at))]
fn read_kind(
    alloc: Global,
    reader: &mut Reader<'_>,
    names: &mut Names,
) -> Result<ImageKind, ReadError>
    ensures read { (before : List PlainImageKind) → Knows names.old (map image_kind_name before) → Gives plain_image_kind result (left_of reader.new) (image_kind_at before (left_of reader.old)) }
    ensures known { (before : List (List ℕ × ℕ)) → Knows names.old before → IfOk result (λ kind. Knows names.new (before ++ (kind.name.items, kind.hidden) ∷ [])) }
{
    let (name, hidden) = read_new_global(reader, names)?;
    let arity = reader.byte()?;
    let name = Vec::from_slice(alloc, name)?;
    Ok(ImageKind {
        name,
        hidden,
        arity,
    })
}

// So many kinds.
fn read_counted_kinds(
    alloc: Global,
    reader: &mut Reader<'_>,
    count: u32,
) -> Result<Vec<ImageKind>, ReadError>
    ensures { Gives (λ kinds. map plain_image_kind kinds.items) result (left_of reader.new) (each_at image_kind_at [] count (left_of reader.old)) }
{
    let mut names = Names::new(alloc);
    let mut kinds = Vec::new(alloc);
    for _ in 0..count {
        let kind = read_kind(alloc, reader, &mut names)?;
        kinds.push(kind)?;
    }
    Ok(kinds)
}

#[tactic(auto, unfolding(crate::specs::Reading::image_kinds_at))]
fn read_kinds(
    alloc: Global,
    reader: &mut Reader<'_>,
    width: Width,
) -> Result<Vec<ImageKind>, ReadError>
    ensures { Gives (λ kinds. map plain_image_kind kinds.items) result (left_of reader.new) (image_kinds_at width (left_of reader.old)) }
{
    let count = read_count(reader, width, MOST_KINDS)?;
    read_counted_kinds(alloc, reader, count)
}

#[tactic(auto, unfolding(crate::specs::Reading::image_constant_at))]
fn read_constant(
    alloc: Global,
    reader: &mut Reader<'_>,
    width: Width,
    names: &mut Names,
    bank: &mut Bank,
    arities: &[u8],
) -> Result<ImageConstant, ReadError>
    ensures kept { Extends bank.old bank.new }
    ensures read { (b : Nodes) → Extends bank.new b → (before : List PlainImageConstant) → Knows names.old (map image_constant_name before) → Gives (plain_image_constant b) result (left_of reader.new) (image_constant_at width arities.now before (left_of reader.old)) }
    ensures known { (before : List (List ℕ × ℕ)) → Knows names.old before → IfOk result (λ constant. Knows names.new (before ++ (constant.name.items, constant.hidden) ∷ [])) }
{
    let (name, hidden) = read_new_global(reader, names)?;
    let type_vars = reader.byte()?;
    let scheme = read_scheme(alloc, reader, width, bank, arities, type_vars)?;
    let fixity = read_fixity(reader)?;
    let name = Vec::from_slice(alloc, name)?;
    Ok(ImageConstant {
        name,
        hidden,
        type_vars,
        scheme,
        fixity,
    })
}

// So many constants.
fn read_counted_constants(
    alloc: Global,
    reader: &mut Reader<'_>,
    width: Width,
    bank: &mut Bank,
    arities: &[u8],
    count: u32,
) -> Result<Vec<ImageConstant>, ReadError>
    ensures kept { Extends bank.old bank.new }
    ensures read { (b : Nodes) → Extends bank.new b → Gives (λ constants. map (plain_image_constant b) constants.items) result (left_of reader.new) (each_at (image_constant_at width arities.now) [] count (left_of reader.old)) }
{
    let mut names = Names::new(alloc);
    let mut constants = Vec::new(alloc);
    for _ in 0..count {
        let constant = read_constant(alloc, reader, width, &mut names, bank, arities)?;
        constants.push(constant)?;
    }
    Ok(constants)
}

#[tactic(auto, unfolding(crate::specs::Reading::image_constants_at))]
fn read_constants(
    alloc: Global,
    reader: &mut Reader<'_>,
    width: Width,
    bank: &mut Bank,
    arities: &[u8],
) -> Result<Vec<ImageConstant>, ReadError>
    ensures kept { Extends bank.old bank.new }
    ensures read { (b : Nodes) → Extends bank.new b → Gives (λ constants. map (plain_image_constant b) constants.items) result (left_of reader.new) (image_constants_at width arities.now (left_of reader.old)) }
{
    let count = read_count(reader, width, MOST_CONSTANTS)?;
    read_counted_constants(alloc, reader, width, bank, arities, count)
}

fn arities_of(alloc: Global, kinds: &[ImageKind]) -> Result<Vec<u8>, Memory>
    ensures { IfOk result (λ arities. arities.items ≡ map (λ k. k.arity) (map plain_image_kind kinds.now)) }
{
    let mut arities = Vec::new(alloc);
    for kind in kinds {
        arities.push(kind.arity)?;
    }
    Ok(arities)
}

// What stands behind the version, but for the tables.
#[tactic(auto, unfolding(crate::specs::Reading::image_at))]
fn read_parts(alloc: Global, reader: &mut Reader<'_>, width: Width) -> Result<Image, ReadError>
    ensures few { IfOk result (λ image. length image.code.records.items < 2 ^ 32) }
    ensures fit { IfOk result (λ image. AllFit image.code.records.items) }
    ensures read { Gives plain_image result (left_of reader.new) (image_at width (left_of reader.old)) }
{
    let name = read_owned_name(alloc, reader)?;
    let mut bank = Bank::new(alloc);
    let kinds = read_kinds(alloc, reader, width)?;
    let arities = arities_of(alloc, kinds.as_slice())?;
    let constants = read_constants(alloc, reader, width, &mut bank, arities.as_slice())?;
    let code = read_records(alloc, reader, width, u32::MAX)?;
    let image = Image::new(alloc, name, bank, kinds, constants, code)?;
    Ok(image)
}

// What stands behind version 2.
fn read_with_tables(alloc: Global, reader: &mut Reader<'_>) -> Result<Image, ReadError>
    ensures few { IfOk result (λ image. length image.code.records.items < 2 ^ 32) }
    ensures fit { IfOk result (λ image. AllFit image.code.records.items) }
    ensures read { Gives plain_image result (left_of reader.new) (tabled_at (left_of reader.old)) }
{
    let image = read_parts(alloc, reader, Width::Four)?;
    expect_tables(alloc, reader, &image)?;
    Ok(image)
}

fn read_versioned(alloc: Global, reader: &mut Reader<'_>, version: u16) -> Result<Image, ReadError>
    ensures few { IfOk result (λ image. length image.code.records.items < 2 ^ 32) }
    ensures fit { IfOk result (λ image. AllFit image.code.records.items) }
    ensures read { Gives plain_image result (left_of reader.new) (version_at version (left_of reader.old)) }
{
    if version == 1 {
        return read_parts(alloc, reader, Width::Two);
    }
    if version == 2 {
        return read_with_tables(alloc, reader);
    }
    Err(ReadError::Fault(Fault::BadVersion(version)))
}

#[tactic(auto, unfolding(crate::specs::Reading::image_of))]
fn read_file(alloc: Global, bytes: &[u8]) -> Result<Image, ReadError>
    ensures few { IfOk result (λ image. length image.code.records.items < 2 ^ 32) }
    ensures fit { IfOk result (λ image. AllFit image.code.records.items) }
    ensures read { Comes plain_image result (image_of bytes.now) }
{
    let mut reader = Reader::begin(bytes)?;
    reader.magic(b"LPIM")?;
    let version = reader.two()?;
    let image = read_versioned(alloc, &mut reader, version)?;
    reader.end()?;
    Ok(image)
}

// The same, where the refusal has its public name.
fn read_told(alloc: Global, bytes: &[u8]) -> Result<Image, FormatFault>
    ensures few { IfOk result (λ image. length image.code.records.items < 2 ^ 32) }
    ensures fit { IfOk result (λ image. AllFit image.code.records.items) }
    ensures exact { Tells plain_image result (image_of bytes.now) }
{
    match read_file(alloc, bytes) {
        Ok(image) => Ok(image),
        Err(error) => Err(FormatFault::from(error)),
    }
}

/// The image that the bytes spell in version 1 or 2, or the first fault in their order.
pub fn read_image(alloc: Global, bytes: &[u8]) -> Result<Image, FormatFault>
    ensures few { IfOk result (λ image. length image.code.records.items < 2 ^ 32) }
    ensures fit { IfOk result (λ image. AllFit image.code.records.items) }
    // What is read is spelled so in one of the two versions.
    ensures found { IfOk result (λ image. (length bytes.now ≤ 16777216) × SpellsImage (plain_image image) bytes.now) }
    // What is spelled so is read, unless memory runs out.
    ensures only { (i : PlainImage) → length bytes.now ≤ 16777216 → SpellsImage i bytes.now → Tells plain_image result (Ok i) }
    // Which fault it is: that there are too many bytes before all others, and else the first one from left to right.
    ensures exact { Tells plain_image result (image_of bytes.now) }
{
    read_told(alloc, bytes)
}

#[tactic(auto, unfolding(crate::specs::Files::spelled_image_kind))]
fn write_kind(writer: &mut Writer, kind: &ImageKind) -> Result<(), Memory>
    ensures { OnOk result (text_of writer.new ≡ more (text_of writer.old) (spelled_image_kind (plain_image_kind kind.now))) }
{
    write_text(writer, kind.name.as_slice())?;
    writer.two(kind.hidden)?;
    writer.byte(kind.arity)
}

// Each of them.
fn write_each_kind(writer: &mut Writer, kinds: &[ImageKind]) -> Result<(), Memory>
    ensures { OnOk result (text_of writer.new ≡ more (text_of writer.old) (flat_map spelled_image_kind (map plain_image_kind kinds.now))) }
{
    for kind in kinds {
        write_kind(writer, kind)?;
    }
    Ok(())
}

#[tactic(auto, unfolding(crate::specs::Files::spelled_image_kinds))]
fn write_kinds(writer: &mut Writer, kinds: &[ImageKind]) -> Result<(), Memory>
    ensures { OnOk result (text_of writer.new ≡ more (text_of writer.old) (spelled_image_kinds Four (map plain_image_kind kinds.now))) }
{
    writer.low_four(kinds.len() as u64)?;
    write_each_kind(writer, kinds)
}

#[tactic(auto, unfolding(crate::specs::Files::spelled_image_constant))]
fn write_constant(
    writer: &mut Writer,
    alloc: Global,
    bank: &Bank,
    constant: &ImageConstant,
) -> Result<(), Memory>
    ensures { OnOk result (text_of writer.new ≡ more (text_of writer.old) (spelled_image_constant Four (plain_image_constant bank.now constant.now))) }
{
    write_text(writer, constant.name.as_slice())?;
    writer.two(constant.hidden)?;
    writer.byte(constant.type_vars)?;
    write_scheme(writer, alloc, Width::Four, bank, constant.scheme)?;
    write_fixity(writer, constant.fixity)
}

// Each of them.
fn write_each_constant(
    writer: &mut Writer,
    alloc: Global,
    bank: &Bank,
    constants: &[ImageConstant],
) -> Result<(), Memory>
    ensures { OnOk result (text_of writer.new ≡ more (text_of writer.old) (flat_map (spelled_image_constant Four) (map (plain_image_constant bank.now) constants.now))) }
{
    for constant in constants {
        write_constant(writer, alloc, bank, constant)?;
    }
    Ok(())
}

#[tactic(auto, unfolding(crate::specs::Files::spelled_image_constants))]
fn write_constants(
    writer: &mut Writer,
    alloc: Global,
    bank: &Bank,
    constants: &[ImageConstant],
) -> Result<(), Memory>
    ensures { OnOk result (text_of writer.new ≡ more (text_of writer.old) (spelled_image_constants Four (map (plain_image_constant bank.now) constants.now))) }
{
    writer.low_four(constants.len() as u64)?;
    write_each_constant(writer, alloc, bank, constants)
}

// All of an image, in version 2.
fn write_all(writer: &mut Writer, alloc: Global, image: &Image) -> Result<(), Memory>
    ensures { OnOk result (text_of writer.new ≡ more (text_of writer.old) (spelled_image (plain_image image.now))) }
{
    writer.put(b"LPIM")?;
    writer.two(2)?;
    write_text(writer, image.name.as_slice())?;
    write_kinds(writer, image.kinds.as_slice())?;
    write_constants(writer, alloc, &image.bank, image.constants.as_slice())?;
    write_records(writer, alloc, Width::Four, image.code.records.as_slice())?;
    write_tables(writer, alloc, image)
}

/// The bytes that spell the image in version 2. `Limit` where these are more than a file may have.
pub fn write_image(alloc: Global, image: &Image) -> Result<Vec<u8>, WriteRefusal>
    // The one spelling, of which a number that does not fit its field gives its lowest bytes.
    ensures spelled { IfOk result (λ bytes. (bytes.items ≡ spelled_image (plain_image image.now)) × (length bytes.items ≤ 16777216)) }
    // There are too many bytes, unless memory ran out.
    ensures many { IfErr result (λ refusal. IsLimit refusal (16777216 < length (spelled_image (plain_image image.now)))) }
{
    let mut writer = Writer::new(alloc);
    write_all(&mut writer, alloc, image)?;
    match writer.finish() {
        Ok(bytes) => Ok(bytes),
        Err(limit) => Err(WriteRefusal::Limit(limit)),
    }
}
