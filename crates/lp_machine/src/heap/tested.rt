// Cells that stand in the store.
ghost use Rattle.std.specs.Prelude.{◌≡◌, ◌<◌, length, All, true, IfOk};
ghost use Rattle.lp_store.specs.Change.{KeepsMarks};
ghost use Rattle.lp_susp.specs.Kept.{Grows};
ghost use Rattle.lp_goal.specs.Kinds.{IsCell, IsList};

use lp_base::Memory;
use lp_store::{Cell, CellId, List, Store};

/// A term of the store: this cell, where it is one of the store.
pub(crate) fn known(store: &mut Store, cell: CellId) -> Result<CellId, Memory>
    ensures there { IfOk result (IsCell store.new) }
    ensures grows { Grows store.old store.new }
    ensures marks { KeepsMarks store.old store.new }
{
    if store.has(cell) {
        return Ok(cell);
    }
    let id = store.push(Cell::Int(0))?;
    Ok(id)
}

/// A type of the store: this cell, where it is one of the store.
pub(crate) fn known_type(store: &mut Store, cell: CellId) -> Result<CellId, Memory>
    ensures there { IfOk result (IsCell store.new) }
    ensures grows { Grows store.old store.new }
    ensures marks { KeepsMarks store.old store.new }
{
    if store.has(cell) {
        return Ok(cell);
    }
    let id = store.push(Cell::TypeVar)?;
    Ok(id)
}

// Whether all are cells of the store.
fn are_known(store: &Store, cells: &[CellId]) -> bool
    ensures { result ≡ true → All (IsCell store.now) cells.now }
{
    for cell in cells.iter().copied() {
        if !store.has(cell) {
            return false;
        }
    }
    true
}

// Cells of the store: these, where they are all of the store, else none.
fn test(store: &Store, cells: &mut Vec<CellId>)
    ensures { All (IsCell store.now) cells.new.items }
{
    if !are_known(store, cells.as_slice()) {
        cells.clear();
    }
}

/// The cells as a list of the store.
pub(crate) fn listed(store: &mut Store, cells: &mut Vec<CellId>) -> Result<List, Memory>
    ensures there { IfOk result (IsList store.new) }
    ensures grows { Grows store.old store.new }
    ensures marks { KeepsMarks store.old store.new }
{
    test(store, cells);
    let list = store.list(cells.as_slice())?;
    Ok(list)
}

/// A term on a list of arguments.
pub(crate) fn applied(store: &mut Store, head: CellId, arguments: List) -> Result<CellId, Memory>
    requires head { IsCell store.old head }
    requires arguments { IsList store.old arguments }
    ensures there { IfOk result (IsCell store.new) }
    ensures grows { Grows store.old store.new }
    ensures marks { KeepsMarks store.old store.new }
{
    if store.items(arguments).is_empty() {
        return Ok(head);
    }
    let id = store.push(Cell::App(head, arguments))?;
    Ok(id)
}
