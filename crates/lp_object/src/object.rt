// Objects.

ghost use Rattle.lp_bytes.specs.Writing.{text_of, more};
ghost use Rattle.std.specs.List.{flat_map};
ghost use Rattle.std.specs.Prelude.{IfErr};
ghost use Rattle.lp_object.specs.Numbers.{spelled_text};
ghost use Rattle.lp_object.specs.Refusing.{IsLimit};
ghost use Rattle.std.specs.Prelude.{◌≡◌, ◌<◌, ◌≤◌, ◌^◌, ◌++◌, ◌∷◌, [], List, ℕ, IfOk, OnOk, Ok, length, map};
ghost use Rattle.lp_term.specs.Nodes.{Nodes, Extends};
ghost use Rattle.lp_bytes.specs.Reading.{Gives, Comes, left_of, each_at};
ghost use Rattle.lp_code.specs.Length.{AllFit};
ghost use Rattle.lp_object.specs.Files.{spelled_class, spelled_object_kind, spelled_object_kinds, spelled_object_constant, spelled_object_constants, spelled_uses, spelled_object};
ghost use Rattle.lp_object.specs.Plain.{PlainObjectKind, PlainObjectConstant, PlainObject, plain_object_kind, plain_object_constant, plain_object};
ghost use Rattle.lp_object.specs.Reading.{name_at, object_kind_name, object_kind_at, object_kinds_at, object_constant_name, object_constant_at, object_constants_at, uses_at, object_at, object_of};
ghost use Rattle.lp_object.specs.Refusing.{Tells};
ghost use Rattle.lp_object.specs.Spellable.{IsObject};
ghost use Rattle.lp_object.specs.inner.Known.{Knows};

use crate::fault::{FormatFault, WriteRefusal};
use crate::fields::{read_choice, read_count, read_owned_name};
use crate::names::{Names, read_fixity, read_new_name, write_fixity};
use crate::records::{read_records, write_records};
use crate::schemes::{read_scheme, write_scheme};
use crate::width::Width;
use crate::written::write_text;
use lp_base::Memory;
use lp_bytes::{Fault, ReadError, Reader, Writer};
use lp_code::{Object, ObjectConstant, ObjectKind};
use lp_term::Bank;
use std::alloc::Global;

// The most kinds, constants and records of an object: numbers of kinds begin with 8 and those of constants with 32, and the last one is 65,534.
const MOST_KINDS: u32 = 65_527;

const MOST_CONSTANTS: u32 = 65_503;

const MOST_RECORDS: u32 = 65_535;

#[tactic(auto, unfolding(crate::specs::Reading::object_kind_at))]
fn read_kind(
    alloc: Global,
    reader: &mut Reader<'_>,
    names: &mut Names,
) -> Result<ObjectKind, ReadError>
    ensures read { (before : List PlainObjectKind) → Knows names.old (map object_kind_name before) → Gives plain_object_kind result (left_of reader.new) (object_kind_at before (left_of reader.old)) }
    ensures known { (before : List (List ℕ × ℕ)) → Knows names.old before → IfOk result (λ kind. Knows names.new (before ++ (kind.name.items, 0) ∷ [])) }
{
    let exported = read_choice(reader, 1, 2)?;
    let name = read_new_name(reader, names)?;
    let arity = reader.byte()?;
    let name = Vec::from_slice(alloc, name)?;
    Ok(ObjectKind {
        exported,
        name,
        arity,
    })
}

// So many kinds.
fn read_counted_kinds(
    alloc: Global,
    reader: &mut Reader<'_>,
    count: u32,
) -> Result<Vec<ObjectKind>, ReadError>
    ensures { Gives (λ kinds. map plain_object_kind kinds.items) result (left_of reader.new) (each_at object_kind_at [] count (left_of reader.old)) }
{
    let mut names = Names::new(alloc);
    let mut kinds = Vec::new(alloc);
    for _ in 0..count {
        let kind = read_kind(alloc, reader, &mut names)?;
        kinds.push(kind)?;
    }
    Ok(kinds)
}

#[tactic(auto, unfolding(crate::specs::Reading::object_kinds_at))]
fn read_kinds(alloc: Global, reader: &mut Reader<'_>) -> Result<Vec<ObjectKind>, ReadError>
    ensures { Gives (λ kinds. map plain_object_kind kinds.items) result (left_of reader.new) (object_kinds_at (left_of reader.old)) }
{
    let count = read_count(reader, Width::Two, MOST_KINDS)?;
    read_counted_kinds(alloc, reader, count)
}

#[tactic(auto, unfolding(crate::specs::Reading::object_constant_at))]
fn read_constant(
    alloc: Global,
    reader: &mut Reader<'_>,
    names: &mut Names,
    bank: &mut Bank,
    arities: &[u8],
) -> Result<ObjectConstant, ReadError>
    ensures kept { Extends bank.old bank.new }
    ensures read { (b : Nodes) → Extends bank.new b → (before : List PlainObjectConstant) → Knows names.old (map object_constant_name before) → Gives (plain_object_constant b) result (left_of reader.new) (object_constant_at arities.now before (left_of reader.old)) }
    ensures known { (before : List (List ℕ × ℕ)) → Knows names.old before → IfOk result (λ constant. Knows names.new (before ++ (constant.name.items, 0) ∷ [])) }
{
    let exported = read_choice(reader, 1, 2)?;
    let name = read_new_name(reader, names)?;
    let type_vars = reader.byte()?;
    let scheme = read_scheme(alloc, reader, Width::Two, bank, arities, type_vars)?;
    let fixity = read_fixity(reader)?;
    let name = Vec::from_slice(alloc, name)?;
    Ok(ObjectConstant {
        exported,
        name,
        type_vars,
        scheme,
        fixity,
    })
}

// So many constants.
fn read_counted_constants(
    alloc: Global,
    reader: &mut Reader<'_>,
    bank: &mut Bank,
    arities: &[u8],
    count: u32,
) -> Result<Vec<ObjectConstant>, ReadError>
    ensures kept { Extends bank.old bank.new }
    ensures read { (b : Nodes) → Extends bank.new b → Gives (λ constants. map (plain_object_constant b) constants.items) result (left_of reader.new) (each_at (object_constant_at arities.now) [] count (left_of reader.old)) }
{
    let mut names = Names::new(alloc);
    let mut constants = Vec::new(alloc);
    for _ in 0..count {
        let constant = read_constant(alloc, reader, &mut names, bank, arities)?;
        constants.push(constant)?;
    }
    Ok(constants)
}

#[tactic(auto, unfolding(crate::specs::Reading::object_constants_at))]
fn read_constants(
    alloc: Global,
    reader: &mut Reader<'_>,
    bank: &mut Bank,
    arities: &[u8],
) -> Result<Vec<ObjectConstant>, ReadError>
    ensures kept { Extends bank.old bank.new }
    ensures read { (b : Nodes) → Extends bank.new b → Gives (λ constants. map (plain_object_constant b) constants.items) result (left_of reader.new) (object_constants_at arities.now (left_of reader.old)) }
{
    let count = read_count(reader, Width::Two, MOST_CONSTANTS)?;
    read_counted_constants(alloc, reader, bank, arities, count)
}

// So many names.
fn read_names(alloc: Global, reader: &mut Reader<'_>, count: u16) -> Result<Vec<Vec<u8>>, ReadError>
    ensures { Gives (λ uses. map (λ u. u.items) uses.items) result (left_of reader.new) (each_at (λ before. name_at) [] count (left_of reader.old)) }
{
    let mut uses = Vec::new(alloc);
    for _ in 0..count {
        let name = read_owned_name(alloc, reader)?;
        uses.push(name)?;
    }
    Ok(uses)
}

#[tactic(auto, unfolding(crate::specs::Reading::uses_at))]
fn read_uses(alloc: Global, reader: &mut Reader<'_>) -> Result<Vec<Vec<u8>>, ReadError>
    ensures { Gives (λ uses. map (λ u. u.items) uses.items) result (left_of reader.new) (uses_at (left_of reader.old)) }
{
    let count = reader.two()?;
    read_names(alloc, reader, count)
}

fn arities_of(alloc: Global, kinds: &[ObjectKind]) -> Result<Vec<u8>, Memory>
    ensures { IfOk result (λ arities. arities.items ≡ map (λ k. k.arity) (map plain_object_kind kinds.now)) }
{
    let mut arities = Vec::new(alloc);
    for kind in kinds {
        arities.push(kind.arity)?;
    }
    Ok(arities)
}

// What stands behind the version.
#[tactic(auto, unfolding(crate::specs::Reading::object_at))]
fn read_parts(alloc: Global, reader: &mut Reader<'_>) -> Result<Object, ReadError>
    ensures few { IfOk result (λ object. length object.code.records.items < 2 ^ 32) }
    ensures fit { IfOk result (λ object. AllFit object.code.records.items) }
    ensures read { Gives plain_object result (left_of reader.new) (object_at (left_of reader.old)) }
{
    let name = read_owned_name(alloc, reader)?;
    let mut bank = Bank::new(alloc);
    let kinds = read_kinds(alloc, reader)?;
    let arities = arities_of(alloc, kinds.as_slice())?;
    let constants = read_constants(alloc, reader, &mut bank, arities.as_slice())?;
    let uses = read_uses(alloc, reader)?;
    let code = read_records(alloc, reader, Width::Two, MOST_RECORDS)?;
    Ok(Object {
        name,
        bank,
        kinds,
        constants,
        uses,
        code,
    })
}

#[tactic(auto, unfolding(crate::specs::Reading::object_of))]
fn read_file(alloc: Global, bytes: &[u8]) -> Result<Object, ReadError>
    ensures few { IfOk result (λ object. length object.code.records.items < 2 ^ 32) }
    ensures fit { IfOk result (λ object. AllFit object.code.records.items) }
    ensures read { Comes plain_object result (object_of bytes.now) }
{
    let mut reader = Reader::begin(bytes)?;
    reader.magic(b"LPOB")?;
    let version = reader.two()?;
    if version != 1 {
        return Err(ReadError::Fault(Fault::BadVersion(version)));
    }
    let object = read_parts(alloc, &mut reader)?;
    reader.end()?;
    Ok(object)
}

// The same, where the refusal has its public name.
fn read_told(alloc: Global, bytes: &[u8]) -> Result<Object, FormatFault>
    ensures few { IfOk result (λ object. length object.code.records.items < 2 ^ 32) }
    ensures fit { IfOk result (λ object. AllFit object.code.records.items) }
    ensures exact { Tells plain_object result (object_of bytes.now) }
{
    match read_file(alloc, bytes) {
        Ok(object) => Ok(object),
        Err(error) => Err(FormatFault::from(error)),
    }
}

/// The object that the bytes spell, or the first fault in their order.
pub fn read_object(alloc: Global, bytes: &[u8]) -> Result<Object, FormatFault>
    ensures few { IfOk result (λ object. length object.code.records.items < 2 ^ 32) }
    ensures fit { IfOk result (λ object. AllFit object.code.records.items) }
    // What is read is spelled so.
    ensures found { IfOk result (λ object. (length bytes.now ≤ 16777216) × IsObject (plain_object object) × (bytes.now ≡ spelled_object (plain_object object))) }
    // What is spelled so is read, unless memory runs out.
    ensures only { (o : PlainObject) → length bytes.now ≤ 16777216 → IsObject o → bytes.now ≡ spelled_object o → Tells plain_object result (Ok o) }
    // Which fault it is: that there are too many bytes before all others, and else the first one from left to right.
    ensures exact { Tells plain_object result (object_of bytes.now) }
{
    read_told(alloc, bytes)
}

fn write_class(writer: &mut Writer, exported: bool) -> Result<(), Memory>
    ensures { OnOk result (text_of writer.new ≡ more (text_of writer.old) (spelled_class exported)) }
{
    writer.byte(if exported { 1 } else { 2 })
}

#[tactic(auto, unfolding(crate::specs::Files::spelled_object_kind))]
fn write_kind(writer: &mut Writer, kind: &ObjectKind) -> Result<(), Memory>
    ensures { OnOk result (text_of writer.new ≡ more (text_of writer.old) (spelled_object_kind (plain_object_kind kind.now))) }
{
    write_class(writer, kind.exported)?;
    write_text(writer, kind.name.as_slice())?;
    writer.byte(kind.arity)
}

// Each of them.
fn write_each_kind(writer: &mut Writer, kinds: &[ObjectKind]) -> Result<(), Memory>
    ensures { OnOk result (text_of writer.new ≡ more (text_of writer.old) (flat_map spelled_object_kind (map plain_object_kind kinds.now))) }
{
    for kind in kinds {
        write_kind(writer, kind)?;
    }
    Ok(())
}

#[tactic(auto, unfolding(crate::specs::Files::spelled_object_kinds))]
fn write_kinds(writer: &mut Writer, kinds: &[ObjectKind]) -> Result<(), Memory>
    ensures { OnOk result (text_of writer.new ≡ more (text_of writer.old) (spelled_object_kinds (map plain_object_kind kinds.now))) }
{
    writer.low_two(kinds.len() as u64)?;
    write_each_kind(writer, kinds)
}

#[tactic(auto, unfolding(crate::specs::Files::spelled_object_constant))]
fn write_constant(
    writer: &mut Writer,
    alloc: Global,
    bank: &Bank,
    constant: &ObjectConstant,
) -> Result<(), Memory>
    ensures { OnOk result (text_of writer.new ≡ more (text_of writer.old) (spelled_object_constant (plain_object_constant bank.now constant.now))) }
{
    write_class(writer, constant.exported)?;
    write_text(writer, constant.name.as_slice())?;
    writer.byte(constant.type_vars)?;
    write_scheme(writer, alloc, Width::Two, bank, constant.scheme)?;
    write_fixity(writer, constant.fixity)
}

// Each of them.
fn write_each_constant(
    writer: &mut Writer,
    alloc: Global,
    bank: &Bank,
    constants: &[ObjectConstant],
) -> Result<(), Memory>
    ensures { OnOk result (text_of writer.new ≡ more (text_of writer.old) (flat_map spelled_object_constant (map (plain_object_constant bank.now) constants.now))) }
{
    for constant in constants {
        write_constant(writer, alloc, bank, constant)?;
    }
    Ok(())
}

#[tactic(auto, unfolding(crate::specs::Files::spelled_object_constants))]
fn write_constants(
    writer: &mut Writer,
    alloc: Global,
    bank: &Bank,
    constants: &[ObjectConstant],
) -> Result<(), Memory>
    ensures { OnOk result (text_of writer.new ≡ more (text_of writer.old) (spelled_object_constants (map (plain_object_constant bank.now) constants.now))) }
{
    writer.low_two(constants.len() as u64)?;
    write_each_constant(writer, alloc, bank, constants)
}

fn write_each_use(writer: &mut Writer, uses: &[Vec<u8>]) -> Result<(), Memory>
    ensures { OnOk result (text_of writer.new ≡ more (text_of writer.old) (flat_map spelled_text (map (λ u. u.items) uses.now))) }
{
    for name in uses {
        write_text(writer, name.as_slice())?;
    }
    Ok(())
}

#[tactic(auto, unfolding(crate::specs::Files::spelled_uses))]
fn write_uses(writer: &mut Writer, uses: &[Vec<u8>]) -> Result<(), Memory>
    ensures { OnOk result (text_of writer.new ≡ more (text_of writer.old) (spelled_uses (map (λ u. u.items) uses.now))) }
{
    writer.low_two(uses.len() as u64)?;
    write_each_use(writer, uses)
}

// All of an object.
fn write_all(writer: &mut Writer, alloc: Global, object: &Object) -> Result<(), Memory>
    ensures { OnOk result (text_of writer.new ≡ more (text_of writer.old) (spelled_object (plain_object object.now))) }
{
    writer.put(b"LPOB")?;
    writer.two(1)?;
    write_text(writer, object.name.as_slice())?;
    write_kinds(writer, object.kinds.as_slice())?;
    write_constants(writer, alloc, &object.bank, object.constants.as_slice())?;
    write_uses(writer, object.uses.as_slice())?;
    write_records(writer, alloc, Width::Two, object.code.records.as_slice())
}

/// The bytes that spell the object. `Limit` where these are more than a file may have.
pub fn write_object(alloc: Global, object: &Object) -> Result<Vec<u8>, WriteRefusal>
    // The one spelling, of which a number that does not fit its field gives its lowest bytes.
    ensures spelled { IfOk result (λ bytes. (bytes.items ≡ spelled_object (plain_object object.now)) × (length bytes.items ≤ 16777216)) }
    // There are too many bytes, unless memory ran out.
    ensures many { IfErr result (λ refusal. IsLimit refusal (16777216 < length (spelled_object (plain_object object.now)))) }
{
    let mut writer = Writer::new(alloc);
    write_all(&mut writer, alloc, object)?;
    match writer.finish() {
        Ok(bytes) => Ok(bytes),
        Err(limit) => Err(WriteRefusal::Limit(limit)),
    }
}
