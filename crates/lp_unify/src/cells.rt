// Cells at any number: one outside the store reads as the index 0.
ghost use Rattle.std.specs.Prelude.{◌≡◌, ◌<◌, length};
ghost use Rattle.lp_store.specs.Contents.{cell_at};
ghost use Rattle.lp_store.specs.Sound.{IsSound, Stands};
ghost use Rattle.lp_store.specs.declared.cell.Cell.TheVariants.{Index};
ghost use Rattle.lp_susp.specs.Route.{RefsTo};
ghost use Rattle.lp_unify.specs.Inside.{IsListIn, LeadsOn};
ghost use Rattle.lp_unify.specs.TypeTurns.{IsResolved};

use lp_base::Memory;
use lp_store::{Cell, CellId, Span, Store};

// What a cell holds.
pub(crate) fn read(store: &Store, id: CellId) -> Cell
    ensures cell { result ≡ cell_at store.now id.0 }
    ensures stands { Stands store.now result }
    ensures inside { (result ≡ Index 0 → ⊥) → id.0 < length store.now.cells }
    ensures sound { (result ≡ Index 0 → ⊥) → IsSound store.now }
{
    if store.has(id) {
        return store.cell(id);
    }
    Cell::Index(0)
}

// The cell that references lead to, which is no reference.
pub(crate) fn referred(store: &Store, cell: CellId) -> CellId
    ensures leads { LeadsOn store.now cell.0 result.0 }
    ensures refers { RefsTo store.now cell.0 result.0 }
    ensures resolved { IsResolved (cell_at store.now result.0) }
{
    let mut at = cell;
    'references: loop {
        let Cell::Ref(to) = read(store, at) else {
            return at;
        };
        at = to;
    }
}

// The arguments of an application.
pub(crate) fn arguments_of(store: &Store, cell: CellId) -> Option<Span>
    ensures { IsListIn store.now result }
{
    match read(store, cell) {
        Cell::App(_, list) => Some(list),
        _ => None,
    }
}

// How many arguments an application has.
pub(crate) fn count_of(store: &Store, cell: CellId) -> usize {
    match arguments_of(store, cell) {
        Some(list) => store.items(list).len(),
        None => 0,
    }
}

// The argument at a place.
pub(crate) fn argument_at(store: &Store, cell: CellId, place: usize) -> Result<CellId, Memory> {
    let Some(list) = arguments_of(store, cell) else {
        return Err(Memory);
    };
    store.items(list).get(place).copied().ok_or(Memory)
}
