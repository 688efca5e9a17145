ghost use Rattle.std.specs.Prelude.{◌≡◌, ℕ, ◌<◌, ◌≤◌, length, List, [], ◌∷◌, IfOk, IfSome};
ghost use Rattle.lp_calculus.specs.Types.{Ty};
ghost use Rattle.lp_calculus.specs.Term.{Term};
ghost use Rattle.lp_store.specs.Contents.{Contents, cell_at};
ghost use Rattle.lp_store.specs.Reading.{Reads, ReadsType};
ghost use Rattle.lp_store.specs.Sound.{IsSound};
ghost use Rattle.lp_store.specs.Change.{KeepsMarks};
ghost use Rattle.lp_susp.specs.Kept.{IsExposed, Keeps};
ghost use Rattle.lp_susp.specs.Route.{RefsTo, IsWaiting, IsClosure};

use crate::carrying::{Pending, carry};
use lp_base::Memory;
use lp_store::{Cell, CellId, Store};
use std::alloc::Global;

// A suspension that is to be carried out, and its cell.
#[derive(Clone, Copy)]
pub(crate) struct Waiting {
    pub(crate) cell: CellId,
    pub(crate) pending: Pending,
}

// An abstraction with this body, below a suspension.
#[derive(Clone, Copy)]
pub(crate) struct Closure {
    pub(crate) body: CellId,
    pub(crate) pending: Pending,
}

// Carries the suspension one node inwards, where its term is exposed. Its cell then refers to what comes.
fn carry_out(
    alloc: Global,
    store: &mut Store,
    waiting: Waiting,
    at: CellId,
) -> Result<CellId, Memory>
    requires at { at.0 < length store.old.cells }
    requires exposed { IsExposed (cell_at store.old at.0) }
    requires waits { IsWaiting store.old waiting at.0 }
    ensures refers { IfOk result (λ id. cell_at store.new waiting.cell.0 ≡ Cell.Ref id) }
    ensures elsewhere { (i : ℕ) → i < length store.old.cells → (i ≡ waiting.cell.0 → ⊥) → cell_at store.new i ≡ cell_at store.old i }
    ensures within { IfOk result (λ id. id.0 < length store.new.cells) }
    ensures kept { Keeps store.old store.new }
    ensures marks { KeepsMarks store.old store.new }
{
    let _mark = store.mark();
    let carried = carry(alloc, store, at, waiting.pending)?;
    store.overwrite(waiting.cell, carried)?;
    Ok(carried)
}

/// A cell that reads the same, and is neither a reference nor a suspension. Each suspension on the way is carried one
/// node inwards, once: its cell then refers to what came.
pub fn expose(alloc: Global, store: &mut Store, cell: CellId) -> Result<CellId, Memory>
    requires { cell.0 < length store.old.cells }
    ensures reads { IfOk result (λ id. (t : Term) → Reads store.old cell.0 t → Reads store.new id.0 t) }
    ensures reads_type { IfOk result (λ id. (T : Ty) → ReadsType store.old cell.0 T → ReadsType store.new id.0 T) }
    ensures refers { IfOk result (λ id. RefsTo store.new cell.0 id.0) }
    ensures exposed { IfOk result (λ id. IsExposed (cell_at store.new id.0)) }
    ensures within { IfOk result (λ id. id.0 < length store.new.cells) }
    ensures kept { Keeps store.old store.new }
    ensures marks { KeepsMarks store.old store.new }
{
    let mut around: Vec<Waiting> = Vec::new(alloc);
    let mut at = cell;
    for _step in 0..u64::MAX {
        match store.cell(at) {
            Cell::Ref(to) => {
                at = to;
                continue;
            }
            Cell::Susp(body, ol, nl, env) => {
                let pending = Pending { ol, nl, env };
                around.push(Waiting { cell: at, pending })?;
                at = body;
                continue;
            }
            _ => {
                let Some(waiting) = around.pop() else {
                    return Ok(at);
                };
                at = carry_out(alloc, store, waiting, at)?;
                continue;
            }
        }
    }
    Err(Memory)
}

// The cell that references lead to, which is no reference.
fn referred(store: &Store, cell: CellId) -> Result<CellId, Memory>
    requires { cell.0 < length store.now.cells }
    ensures refers { IfOk result (λ id. RefsTo store.now cell.0 id.0) }
    ensures within { IfOk result (λ id. id.0 < length store.now.cells) }
{
    let mut at = cell;
    'references: for _ in 0..u64::MAX {
        let Cell::Ref(to) = store.cell(at) else {
            return Ok(at);
        };
        at = to;
    }
    Err(Memory)
}

// The abstraction below the suspension that the cell is, where its term is exposed.
fn closure_at(store: &Store, cell: CellId) -> Result<Option<Closure>, Memory>
    requires { cell.0 < length store.now.cells }
    ensures { IfOk result (λ found. IfSome found (IsClosure store.now cell.0)) }
{
    let at = referred(store, cell)?;
    let Cell::Susp(term, ol, nl, env) = store.cell(at) else {
        return Ok(None);
    };
    let inside = referred(store, term)?;
    let Cell::Abs(body) = store.cell(inside) else {
        return Ok(None);
    };
    let pending = Pending { ol, nl, env };
    Ok(Some(Closure { body, pending }))
}

// Exposes the term of the suspension that the cell is.
fn expose_term(alloc: Global, store: &mut Store, cell: CellId) -> Result<(), Memory>
    requires { cell.0 < length store.old.cells }
    ensures kept { Keeps store.old store.new }
    ensures marks { KeepsMarks store.old store.new }
{
    let _mark = store.mark();
    let at = referred(store, cell)?;
    let Cell::Susp(term, _, _, _) = store.cell(at) else {
        return Ok(());
    };
    expose(alloc, store, term)?;
    Ok(())
}

// The abstraction below the suspension that the cell is, which is not carried inwards.
pub(crate) fn closure_of(
    alloc: Global,
    store: &mut Store,
    cell: CellId,
) -> Result<Option<Closure>, Memory>
    requires { cell.0 < length store.old.cells }
    ensures closure { IfOk result (λ found. IfSome found (IsClosure store.new cell.0)) }
    ensures sound { IfOk result (λ found. IsSound store.new) }
    ensures kept { Keeps store.old store.new }
    ensures marks { KeepsMarks store.old store.new }
{
    expose_term(alloc, store, cell)?;
    let _mark = store.mark();
    let found = closure_at(store, cell)?;
    Ok(found)
}
