// A cell as the store keeps it, in 24 bytes: what names cells, entries and bytes has 32 bits there.
ghost use Rattle.std.specs.Prelude.{◌≡◌, IfOk, IfSome};
ghost use Rattle.lp_store.specs.Slots.{cell_of, span_of};

use crate::cell::{Cell, CellId, Env, Span};
use lp_base::Memory;

/// A span of a store that has fewer than 2^32 of what it names.
#[derive(Clone, Copy)]
pub(crate) struct ShortSpan {
    pub(crate) from: u32,
    pub(crate) count: u32,
}

/// A cell of a store that has fewer than 2^32 cells.
#[derive(Clone, Copy)]
pub(crate) enum Slot {
    TypeVar,
    TypeCon(u32, ShortSpan),
    TypeArrow(u32, u32),
    Ref(u32),
    Const(u32, ShortSpan),
    Int(i64),
    Text(ShortSpan),
    Eigen(u64),
    Logic(u64),
    Index(u64),
    Abs(u32),
    App(u32, ShortSpan),
    Susp(u32, u32, u32, u32),
}

fn short(span: Span) -> Option<ShortSpan>
    ensures { IfSome result (λ made. span_of made ≡ span) }
{
    Some(ShortSpan {
        from: u32::try_from(span.from).ok()?,
        count: u32::try_from(span.count).ok()?,
    })
}

fn long(span: ShortSpan) -> Span
    ensures { result ≡ span_of span }
{
    Span {
        from: span.from as usize,
        count: span.count as usize,
    }
}

fn short_id(id: CellId) -> Option<u32>
    ensures { IfSome result (λ made. made ≡ id.0) }
{
    u32::try_from(id.0).ok()
}

/// The cell as the store keeps it. A number that does not have 32 bits is one of a store larger than there is memory for.
pub(crate) fn slot_of(cell: Cell) -> Result<Slot, Memory>
    ensures { IfOk result (λ slot. cell_of slot ≡ cell) }
{
    short_cell(cell).ok_or(Memory)
}

fn short_cell(cell: Cell) -> Option<Slot>
    ensures { IfSome result (λ slot. cell_of slot ≡ cell) }
{
    Some(match cell {
        Cell::TypeVar => Slot::TypeVar,
        Cell::TypeCon(kind, types) => Slot::TypeCon(kind, short(types)?),
        Cell::TypeArrow(from, to) => Slot::TypeArrow(short_id(from)?, short_id(to)?),
        Cell::Ref(to) => Slot::Ref(short_id(to)?),
        Cell::Const(name, types) => Slot::Const(name, short(types)?),
        Cell::Int(number) => Slot::Int(number),
        Cell::Text(bytes) => Slot::Text(short(bytes)?),
        Cell::Eigen(level) => Slot::Eigen(level),
        Cell::Logic(level) => Slot::Logic(level),
        Cell::Index(index) => Slot::Index(index),
        Cell::Abs(body) => Slot::Abs(short_id(body)?),
        Cell::App(head, arguments) => Slot::App(short_id(head)?, short(arguments)?),
        Cell::Susp(term, taken, around, env) => Slot::Susp(
            short_id(term)?,
            u32::try_from(taken).ok()?,
            u32::try_from(around).ok()?,
            u32::try_from(env.0).ok()?,
        ),
    })
}

/// The cell that the store keeps so.
pub(crate) fn cell_of(slot: Slot) -> Cell
    ensures { result ≡ cell_of slot }
{
    match slot {
        Slot::TypeVar => Cell::TypeVar,
        Slot::TypeCon(kind, types) => Cell::TypeCon(kind, long(types)),
        Slot::TypeArrow(from, to) => Cell::TypeArrow(CellId(from as usize), CellId(to as usize)),
        Slot::Ref(to) => Cell::Ref(CellId(to as usize)),
        Slot::Const(name, types) => Cell::Const(name, long(types)),
        Slot::Int(number) => Cell::Int(number),
        Slot::Text(bytes) => Cell::Text(long(bytes)),
        Slot::Eigen(level) => Cell::Eigen(level),
        Slot::Logic(level) => Cell::Logic(level),
        Slot::Index(index) => Cell::Index(index),
        Slot::Abs(body) => Cell::Abs(CellId(body as usize)),
        Slot::App(head, arguments) => Cell::App(CellId(head as usize), long(arguments)),
        Slot::Susp(term, taken, around, env) => Cell::Susp(
            CellId(term as usize),
            taken as u64,
            around as u64,
            Env(env as usize),
        ),
    }
}
