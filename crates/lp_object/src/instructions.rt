// Instructions: the number of each, and its operands in order.

ghost use Rattle.lp_bytes.specs.Writing.{text_of, more};
ghost use Rattle.std.specs.Prelude.{◌≡◌, ◌++◌, ◌∷◌, ℕ, None, slice_index_or, IfOk, OnOk};
ghost use Rattle.std.specs.List.{flat_map};
ghost use Rattle.std.specs.Int.{IsInRange};
ghost use Rattle.lp_bytes.specs.Numbers.{spelled_two, spelled_integer};
ghost use Rattle.lp_bytes.specs.Reading.{Gives, left_of};
ghost use Rattle.lp_code.specs.Length.{Fits};
ghost use Rattle.lp_object.specs.declared.width.Width.TheVariants.{Two};
ghost use Rattle.lp_object.specs.Numbers.{spelled_number, spelled_text, spelled_few, spelled_many, spelled_numbered};
ghost use Rattle.lp_object.specs.Plain.{plain_instr};
ghost use Rattle.lp_object.specs.Reading.{layouts, laid_out_at, instr_at};
ghost use Rattle.lp_object.specs.Spelling.{spelled_operand, spelled_instr};

use crate::fields::{
    read_few, read_many, read_number, read_numbered, read_one_or_more, read_string,
};
use crate::width::Width;
use crate::written::{
    write_few, write_many, write_number, write_numbered, write_registers, write_text,
};
use lp_base::Memory;
use lp_bytes::{ReadError, Reader, Writer};
use lp_code::Instr;
use std::alloc::Global;

// Those that build types and terms.
fn read_building(
    alloc: Global,
    r: &mut Reader<'_>,
    width: Width,
    byte: u8,
) -> Result<Instr, ReadError>
    requires { IsInRange 1 10 byte }
    ensures fits { IfOk result (λ instr. Fits instr) }
    ensures read { (at : ℕ) → Gives plain_instr result (left_of r.new) (laid_out_at width at byte (slice_index_or layouts byte None) (left_of r.old)) }
{
    match byte {
        0x01 => Ok(Instr::TyCon(r.two()?, read_number(r, width)?, read_few(alloc, r)?)),
        0x02 => Ok(Instr::TyArr(r.two()?, r.two()?, r.two()?)),
        0x03 => Ok(Instr::TyNew(r.two()?)),
        0x04 => Ok(Instr::New(r.two()?, r.two()?)),
        0x05 => Ok(Instr::PutConst(r.two()?, read_number(r, width)?, read_few(alloc, r)?)),
        0x06 => Ok(Instr::PutInt(r.two()?, r.integer()?)),
        0x07 => Ok(Instr::PutStr(r.two()?, read_string(alloc, r)?)),
        0x08 => Ok(Instr::PutIndex(r.two()?, r.two()?, r.two()?)),
        0x09 => Ok(Instr::PutAbs(r.two()?, r.two()?, r.two()?)),
        _ => Ok(Instr::PutApp(r.two()?, r.two()?, read_one_or_more(alloc, r)?)),
    }
}

// Those of the head.
fn read_matching(
    alloc: Global,
    r: &mut Reader<'_>,
    width: Width,
    byte: u8,
) -> Result<Instr, ReadError>
    requires { IsInRange 11 17 byte }
    ensures fits { IfOk result (λ instr. Fits instr) }
    ensures read { (at : ℕ) → Gives plain_instr result (left_of r.new) (laid_out_at width at byte (slice_index_or layouts byte None) (left_of r.old)) }
{
    match byte {
        0x0b => Ok(Instr::GetType(r.byte()?, r.two()?)),
        0x0c => Ok(Instr::GetVar(r.byte()?, r.two()?)),
        0x0d => Ok(Instr::Get(r.byte()?, r.two()?)),
        0x0e => Ok(Instr::GetConst(r.byte()?, read_number(r, width)?, read_few(alloc, r)?)),
        0x0f => Ok(Instr::GetInt(r.byte()?, r.integer()?)),
        0x10 => Ok(Instr::GetStr(r.byte()?, read_string(alloc, r)?)),
        _ => Ok(Instr::Neck),
    }
}

// Goals without a block.
fn read_calling(
    alloc: Global,
    r: &mut Reader<'_>,
    width: Width,
    byte: u8,
) -> Result<Instr, ReadError>
    requires { IsInRange 18 26 byte }
    ensures fits { IfOk result (λ instr. Fits instr) }
    ensures read { (at : ℕ) → Gives plain_instr result (left_of r.new) (laid_out_at width at byte (slice_index_or layouts byte None) (left_of r.old)) }
{
    match byte {
        0x12 => Ok(Instr::Call(
            read_number(r, width)?,
            read_few(alloc, r)?,
            read_few(alloc, r)?,
        )),
        0x13 => Ok(Instr::CallTerm(r.two()?)),
        0x14 => Ok(Instr::Equal(r.two()?, r.two()?, r.two()?)),
        0x15 => Ok(Instr::Is(r.two()?, r.two()?, r.two()?)),
        0x16 => Ok(Instr::Less(r.two()?, r.two()?)),
        0x17 => Ok(Instr::Greater(r.two()?, r.two()?)),
        0x18 => Ok(Instr::AtMost(r.two()?, r.two()?)),
        0x19 => Ok(Instr::AtLeast(r.two()?, r.two()?)),
        _ => Ok(Instr::Cut),
    }
}

// Those that begin and end blocks.
fn read_nesting(
    alloc: Global,
    r: &mut Reader<'_>,
    width: Width,
    byte: u8,
) -> Result<Instr, ReadError>
    requires { IsInRange 27 36 byte }
    ensures fits { IfOk result (λ instr. Fits instr) }
    ensures read { (at : ℕ) → Gives plain_instr result (left_of r.new) (laid_out_at width at byte (slice_index_or layouts byte None) (left_of r.old)) }
{
    match byte {
        0x1b => Ok(Instr::Sigma(r.two()?, r.two()?)),
        0x1c => Ok(Instr::All(r.two()?, r.two()?)),
        0x1d => Ok(Instr::EndAll),
        0x1e => Ok(Instr::Assume(
            read_numbered(alloc, r)?,
            read_many(alloc, r)?,
            read_many(alloc, r)?,
        )),
        0x1f => Ok(Instr::EndAssume),
        0x20 => Ok(Instr::Either(r.four()?)),
        0x21 => Ok(Instr::Jump(r.four()?)),
        0x22 => Ok(Instr::Proceed),
        0x23 => Ok(Instr::Not),
        _ => Ok(Instr::EndNot),
    }
}

#[tactic(auto, unfolding(crate::specs::Reading::instr_at))]
pub(crate) fn read_instruction(
    alloc: Global,
    reader: &mut Reader<'_>,
    width: Width,
) -> Result<Instr, ReadError>
    ensures fits { IfOk result (λ instr. Fits instr) }
    ensures read { Gives plain_instr result (left_of reader.new) (instr_at width (left_of reader.old)) }
{
    let at = reader.at();
    let byte = reader.byte()?;
    match byte {
        0 => Err(Reader::bad(at)),
        0x01..=0x0a => read_building(alloc, reader, width, byte),
        0x0b..=0x11 => read_matching(alloc, reader, width, byte),
        0x12..=0x1a => read_calling(alloc, reader, width, byte),
        0x1b..=0x24 => read_nesting(alloc, reader, width, byte),
        _ => Err(Reader::bad(at)),
    }
}

fn number_of(instr: &Instr) -> u8
    ensures { result ≡ (plain_instr instr.now).number }
{
    match instr {
        Instr::TyCon(..) => 0x01,
        Instr::TyArr(..) => 0x02,
        Instr::TyNew(..) => 0x03,
        Instr::New(..) => 0x04,
        Instr::PutConst(..) => 0x05,
        Instr::PutInt(..) => 0x06,
        Instr::PutStr(..) => 0x07,
        Instr::PutIndex(..) => 0x08,
        Instr::PutAbs(..) => 0x09,
        Instr::PutApp(..) => 0x0a,
        Instr::GetType(..) => 0x0b,
        Instr::GetVar(..) => 0x0c,
        Instr::Get(..) => 0x0d,
        Instr::GetConst(..) => 0x0e,
        Instr::GetInt(..) => 0x0f,
        Instr::GetStr(..) => 0x10,
        Instr::Neck => 0x11,
        Instr::Call(..) => 0x12,
        Instr::CallTerm(..) => 0x13,
        Instr::Equal(..) => 0x14,
        Instr::Is(..) => 0x15,
        Instr::Less(..) => 0x16,
        Instr::Greater(..) => 0x17,
        Instr::AtMost(..) => 0x18,
        Instr::AtLeast(..) => 0x19,
        Instr::Cut => 0x1a,
        Instr::Sigma(..) => 0x1b,
        Instr::All(..) => 0x1c,
        Instr::EndAll => 0x1d,
        Instr::Assume(..) => 0x1e,
        Instr::EndAssume => 0x1f,
        Instr::Either(..) => 0x20,
        Instr::Jump(..) => 0x21,
        Instr::Proceed => 0x22,
        Instr::Not => 0x23,
        Instr::EndNot => 0x24,
    }
}

// The number of an argument, and a register.
fn write_argument(writer: &mut Writer, argument: u8, register: u16) -> Result<(), Memory>
    ensures { OnOk result (text_of writer.new ≡ more (text_of writer.old) (argument ∷ spelled_two register)) }
{
    writer.byte(argument)?;
    writer.two(register)
}

// A constant or kind with types.
fn write_typed(writer: &mut Writer, width: Width, number: u32, types: &[u16]) -> Result<(), Memory>
    ensures { OnOk result (text_of writer.new ≡ more (text_of writer.old) ((spelled_number width number ++ spelled_few types.now))) }
{
    write_number(writer, width, u64::from(number))?;
    write_few(writer, types)
}

// What is built in a register: a constant or kind with types, an application, an integer, a text.
fn write_put_typed(
    writer: &mut Writer,
    width: Width,
    made: u16,
    number: u32,
    types: &[u16],
) -> Result<(), Memory>
    ensures { OnOk result (text_of writer.new ≡ more (text_of writer.old) ((spelled_two made ++ spelled_number width number ++ spelled_few types.now))) }
{
    writer.two(made)?;
    write_typed(writer, width, number, types)
}

fn write_put_applied(
    writer: &mut Writer,
    made: u16,
    head: u16,
    arguments: &[u16],
) -> Result<(), Memory>
    ensures { OnOk result (text_of writer.new ≡ more (text_of writer.old) ((spelled_two made ++ spelled_two head ++ spelled_few arguments.now))) }
{
    writer.two(made)?;
    writer.two(head)?;
    write_few(writer, arguments)
}

fn write_put_integer(writer: &mut Writer, made: u16, integer: i64) -> Result<(), Memory>
    ensures { OnOk result (text_of writer.new ≡ more (text_of writer.old) ((spelled_two made ++ spelled_integer integer))) }
{
    writer.two(made)?;
    writer.integer(integer)
}

fn write_put_text(writer: &mut Writer, made: u16, text: &[u8]) -> Result<(), Memory>
    ensures { OnOk result (text_of writer.new ≡ more (text_of writer.old) ((spelled_two made ++ spelled_text text.now))) }
{
    writer.two(made)?;
    write_text(writer, text)
}

// What an argument of the head is: a constant with types, an integer, a text.
fn write_get_typed(
    writer: &mut Writer,
    width: Width,
    argument: u8,
    number: u32,
    types: &[u16],
) -> Result<(), Memory>
    ensures { OnOk result (text_of writer.new ≡ more (text_of writer.old) (argument ∷ (spelled_number width number ++ spelled_few types.now))) }
{
    writer.byte(argument)?;
    write_typed(writer, width, number, types)
}

fn write_get_integer(writer: &mut Writer, argument: u8, integer: i64) -> Result<(), Memory>
    ensures { OnOk result (text_of writer.new ≡ more (text_of writer.old) (argument ∷ spelled_integer integer)) }
{
    writer.byte(argument)?;
    writer.integer(integer)
}

fn write_get_text(writer: &mut Writer, argument: u8, text: &[u8]) -> Result<(), Memory>
    ensures { OnOk result (text_of writer.new ≡ more (text_of writer.old) (argument ∷ spelled_text text.now)) }
{
    writer.byte(argument)?;
    write_text(writer, text)
}

fn write_called(
    writer: &mut Writer,
    width: Width,
    constant: u32,
    types: &[u16],
    terms: &[u16],
) -> Result<(), Memory>
    ensures { OnOk result (text_of writer.new ≡ more (text_of writer.old) ((spelled_number width constant ++ spelled_few types.now ++ spelled_few terms.now))) }
{
    write_typed(writer, width, constant, types)?;
    write_few(writer, terms)
}

fn write_assumed(
    writer: &mut Writer,
    records: &[u32],
    types: &[u16],
    terms: &[u16],
) -> Result<(), Memory>
    ensures { OnOk result (text_of writer.new ≡ more (text_of writer.old) ((spelled_numbered records.now ++ spelled_many types.now ++ spelled_many terms.now))) }
{
    write_numbered(writer, records)?;
    write_many(writer, types)?;
    write_many(writer, terms)
}

fn write_operands(writer: &mut Writer, width: Width, instr: &Instr) -> Result<(), Memory>
    ensures { OnOk result (text_of writer.new ≡ more (text_of writer.old) (flat_map (spelled_operand width) (plain_instr instr.now).operands)) }
{
    match instr {
        Instr::Neck | Instr::Cut | Instr::EndAll | Instr::EndAssume => writer.put(&[]),
        Instr::Proceed | Instr::Not | Instr::EndNot => writer.put(&[]),
        Instr::TyNew(a) | Instr::CallTerm(a) => writer.two(*a),
        Instr::New(a, b) | Instr::Sigma(a, b) | Instr::All(a, b) => write_registers(
            writer,
            &[*a, *b],
        ),
        Instr::Less(a, b) | Instr::Greater(a, b) => write_registers(writer, &[*a, *b]),
        Instr::AtMost(a, b) | Instr::AtLeast(a, b) => write_registers(writer, &[*a, *b]),
        Instr::TyArr(a, b, c) | Instr::PutIndex(a, b, c) => write_registers(writer, &[*a, *b, *c]),
        Instr::PutAbs(a, b, c) => write_registers(writer, &[*a, *b, *c]),
        Instr::Equal(a, b, c) | Instr::Is(a, b, c) => write_registers(writer, &[*a, *b, *c]),
        Instr::GetType(i, r) | Instr::GetVar(i, r) | Instr::Get(i, r) => write_argument(
            writer, *i, *r,
        ),
        Instr::Either(bytes) | Instr::Jump(bytes) => writer.four(*bytes),
        Instr::TyCon(a, k, ts) => write_put_typed(writer, width, *a, *k, ts.as_slice()),
        Instr::PutConst(a, c, ts) => write_put_typed(writer, width, *a, *c, ts.as_slice()),
        Instr::PutApp(a, b, rs) => write_put_applied(writer, *a, *b, rs.as_slice()),
        Instr::PutInt(a, z) => write_put_integer(writer, *a, *z),
        Instr::PutStr(a, s) => write_put_text(writer, *a, s.as_slice()),
        Instr::GetConst(i, c, ts) => write_get_typed(writer, width, *i, *c, ts.as_slice()),
        Instr::GetInt(i, z) => write_get_integer(writer, *i, *z),
        Instr::GetStr(i, s) => write_get_text(writer, *i, s.as_slice()),
        Instr::Call(c, ts, rs) => write_called(writer, width, *c, ts.as_slice(), rs.as_slice()),
        Instr::Assume(ns, ts, rs) => {
            write_assumed(writer, ns.as_slice(), ts.as_slice(), rs.as_slice())
        }
    }
}

pub(crate) fn write_instruction(
    writer: &mut Writer,
    width: Width,
    instr: &Instr,
) -> Result<(), Memory>
    ensures { OnOk result (text_of writer.new ≡ more (text_of writer.old) (spelled_instr width (plain_instr instr.now))) }
{
    writer.byte(number_of(instr))?;
    write_operands(writer, width, instr)
}
