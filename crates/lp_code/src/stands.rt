// Which registers stand for what is written in a negated block, or in an assumed clause: what has to be known before the block is searched.
ghost use Rattle.std.specs.List.{All};
ghost use Rattle.lp_code.specs.Length.{Fits, AllFit};

use crate::instruction::{Instr, length};
use crate::marks::{Marks, Standing};
use crate::record::{Code, Record, RecordHead};
use lp_base::Memory;
use std::alloc::Global;
use std::collections::BTreeMap;

// The places of the instructions of a block: `from` is the first one's, and `to` that of the one that ends it.
#[derive(Clone, Copy)]
struct Span {
    from: usize,
    to: usize,
}

// The place of the instruction at an offset, or behind the last one.
fn place_at(code: &[Instr], offset: u32) -> usize
    requires { All Fits code.now }
{
    let mut place: usize = 0;
    let mut at: u64 = 0;
    for instr in code {
        if at == u64::from(offset) {
            return place;
        }
        at = at.saturating_add(u64::from(length(instr)));
        place = place.saturating_add(1);
    }
    place
}

// The place of the instruction that ends the negated block whose first instruction stands at a place, or behind the last one.
fn end_of(code: &[Instr], from: usize) -> usize {
    let mut open: usize = 0;
    let mut place: usize = 0;
    for instr in code {
        if place >= from {
            match instr {
                Instr::Not => open = open.saturating_add(1),
                Instr::EndNot if open == 0 => return place,
                Instr::EndNot => open -= 1,
                _ => {}
            }
        }
        place = place.saturating_add(1);
    }
    place
}

// The instructions of the negated block at an offset; without an offset all of them.
fn span_of(code: &[Instr], block: Option<u32>) -> Span
    requires { All Fits code.now }
{
    match block {
        None => Span {
            from: 0,
            to: code.len(),
        },
        Some(offset) => {
            let from = place_at(code, offset).saturating_add(1);
            Span {
                from,
                to: end_of(code, from),
            }
        }
    }
}

// The marks on what stands in the instructions of the span.
fn marks_of(
    alloc: Global,
    record: &Record,
    span: Span,
    assumed: &BTreeMap<u32, Marks>,
) -> Result<Marks, Memory> {
    let mut marks = Marks::none(alloc, record.types, record.registers)?;
    if let Some(RecordHead::Register(register)) = record.head {
        if span.from == 0 {
            marks.mark_register(register);
        }
    }
    let mut place: usize = 0;
    for instr in &record.code {
        if span.from <= place && place < span.to {
            marks.mark_said(instr, assumed);
        }
        place = place.saturating_add(1);
    }
    for instr in record.code.iter().rev() {
        marks.mark_read(instr);
    }
    Ok(marks)
}

// The records that an instruction of this one assumes.
fn push_assumed(record: &Record, reached: &mut Vec<u32>) -> Result<(), Memory> {
    for instr in &record.code {
        if let Instr::Assume(records, _, _) = instr {
            reached.extend_from_slice(records.as_slice())?;
        }
    }
    Ok(())
}

// The record of this number, and those that are assumed below it, each behind the one that assumes it.
fn reached_from(alloc: Global, records: &[Record], number: u32) -> Result<Vec<u32>, Memory> {
    let mut reached = Vec::new(alloc);
    reached.push(number)?;
    for next in 0..records.len() {
        let Some(record) = reached.get(next) else {
            return Ok(reached);
        };
        if let Some(record) = records.get(*record as usize) {
            push_assumed(record, &mut reached)?;
        }
    }
    Ok(reached)
}

// The marks of the records that are assumed below this one.
fn assumed_marks(
    alloc: Global,
    records: &[Record],
    number: u32,
) -> Result<BTreeMap<u32, Marks>, Memory> {
    let mut assumed = BTreeMap::new(alloc);
    for reached in reached_from(alloc, records, number)?.iter().rev() {
        if let Some(record) = records.get(*reached as usize) {
            let span = Span {
                from: 0,
                to: record.code.len(),
            };
            let marks = marks_of(alloc, record, span, &assumed)?;
            assumed.insert(*reached, marks)?;
        }
    }
    Ok(assumed)
}

// The marked ones of the registers that stand for themselves where the span begins: those that the record starts with, and variables that it made.
fn standing_in(
    alloc: Global,
    record: &Record,
    span: Span,
    marks: &Marks,
) -> Result<Standing, Memory> {
    let mut own = Marks::none(alloc, record.types, record.registers)?;
    own.mark_start(record.captured_types, record.captured);
    let mut place: usize = 0;
    for instr in &record.code {
        own.mark_made(instr, place < span.from);
        place = place.saturating_add(1);
    }
    Ok(Standing {
        types: both(alloc, own.types.as_slice(), marks.types.as_slice())?,
        registers: both(alloc, own.registers.as_slice(), marks.registers.as_slice())?,
    })
}

// The numbers that are marked in both, ascending.
fn both(alloc: Global, left: &[bool], right: &[bool]) -> Result<Vec<u16>, Memory> {
    let mut numbers = Vec::new(alloc);
    let mut number: u16 = 0;
    for (is_left, is_right) in left.iter().zip(right) {
        if *is_left && *is_right {
            numbers.push(number)?;
        }
        number = number.saturating_add(1);
    }
    Ok(numbers)
}

/// Of the record of this number: the registers of the type variables in constants' type arguments, and of the variables, that stand in the goals of
/// the negated block whose opening instruction is at this offset. Without an offset: the ones of those with which the record starts that stand in its clause.
pub fn standing(
    alloc: Global,
    code: &Code,
    number: u32,
    block: Option<u32>,
) -> Result<Standing, Memory>
    requires { AllFit code.now.records.items }
{
    let records = code.records.as_slice();
    let Some(record) = records.get(number as usize) else {
        return Ok(Standing {
            types: Vec::new(alloc),
            registers: Vec::new(alloc),
        });
    };
    let assumed = assumed_marks(alloc, records, number)?;
    let span = span_of(record.code.as_slice(), block);
    let marks = marks_of(alloc, record, span, &assumed)?;
    standing_in(alloc, record, span, &marks)
}
