// A term when it is looked at: head-normal, with its head.
ghost use Rattle.std.specs.Prelude.{◌≡◌, ◌++◌, reverse, OnOk};
ghost use Rattle.lp_unify.specs.Frames.{Stays};

use crate::binding::put_application;
use crate::cells::{read, referred};
use lp_base::{Memory, RUN_LIMIT};
use lp_store::{Cell, CellId, Store};
use lp_susp::head_normal;
use lp_term::TermRefusal;
use std::alloc::Global;

// As many contractions may lead to the head of one term.
const CONTRACTIONS: u64 = RUN_LIMIT;

#[derive(Clone, Copy)]
pub(crate) enum Head {
    // The body of an abstraction, which has no arguments.
    Abstraction(CellId),
    // A variable of this level that is not bound.
    Variable(u64),
    Rigid,
}

// A term that is an abstraction, a head, or a head on one list of arguments; the cell of its head, and what the head is.
#[derive(Clone, Copy)]
pub(crate) struct Seen {
    pub whole: CellId,
    pub top: CellId,
    pub head: Head,
}

// What a cell is as a head.
fn head_of(cell: Cell) -> Option<Head> {
    match cell {
        Cell::Logic(level) => Some(Head::Variable(level)),
        Cell::Const(_, _) => Some(Head::Rigid),
        Cell::Int(_) => Some(Head::Rigid),
        Cell::Text(_) => Some(Head::Rigid),
        Cell::Eigen(_) => Some(Head::Rigid),
        Cell::Index(_) => Some(Head::Rigid),
        _ => None,
    }
}

// A term that needs no reduction to be seen.
fn glance(store: &Store, cell: CellId) -> Option<Seen> {
    let whole = referred(store, cell);
    match read(store, whole) {
        Cell::Abs(body) => Some(Seen {
            whole,
            top: whole,
            head: Head::Abstraction(body),
        }),
        Cell::App(inner, _) => {
            let top = referred(store, inner);
            let head = head_of(read(store, top))?;
            Some(Seen { whole, top, head })
        }
        other => {
            let head = head_of(other)?;
            Some(Seen {
                whole,
                top: whole,
                head,
            })
        }
    }
}

// Puts the cells behind the others, the last one first.
pub(crate) fn push_reversed(cells: &[CellId], stack: &mut Vec<CellId>) -> Result<(), Memory>
    ensures { OnOk result (stack.new.items ≡ stack.old.items ++ reverse cells.now) }
{
    let mut left = cells.len();
    while left > 0 {
        left -= 1;
        stack.push(cells[left])?;
    }
    Ok(())
}

// The head and all arguments, of which the last comes first, of a term whose head stands below several applications.
fn gathered(store: &Store, cell: CellId, arguments: &mut Vec<CellId>) -> Result<CellId, Memory> {
    let mut at = cell;
    'applications: for _ in 0..u64::MAX {
        at = referred(store, at);
        let Cell::App(head, list) = read(store, at) else {
            return Ok(at);
        };
        push_reversed(store.items(list), arguments)?;
        at = head;
    }
    Err(Memory)
}

// A head-normal term on one list of arguments.
fn flattened(alloc: Global, store: &mut Store, cell: CellId) -> Result<Seen, Memory>
    ensures { Stays store.old store.new }
{
    let mut arguments = Vec::new(alloc);
    let top = gathered(store, cell, &mut arguments)?;
    arguments.reverse();
    let whole = put_application(store, top, arguments.as_slice())?;
    glance(store, whole).ok_or(Memory)
}

// The head-normal form of a term.
fn reduced(alloc: Global, store: &mut Store, cell: CellId) -> Result<CellId, TermRefusal>
    ensures { Stays store.old store.new }
{
    if !store.has(cell) {
        return Err(TermRefusal::Memory);
    }
    head_normal(alloc, store, cell, CONTRACTIONS)
}

// Looks at a term. An abstraction is left as it is.
pub(crate) fn look(alloc: Global, store: &mut Store, cell: CellId) -> Result<Seen, TermRefusal>
    ensures { Stays store.old store.new }
{
    if let Some(seen) = glance(store, cell) {
        return Ok(seen);
    }
    let normal = reduced(alloc, store, cell)?;
    if let Some(seen) = glance(store, normal) {
        return Ok(seen);
    }
    let seen = flattened(alloc, store, normal)?;
    Ok(seen)
}
