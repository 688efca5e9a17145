// Rigid heads: whether they are the same but for their types, and the pairs of their types.
ghost use Rattle.std.specs.Prelude.{◌≡◌, ◌++◌, [], length, reverse, true, OnOk, MatchOption};
ghost use Rattle.lp_store.specs.Contents.{span};
ghost use Rattle.lp_unify.specs.Heads.{types_at, zipped_cells, HaveAsManyTypes};
ghost use Rattle.lp_unify.specs.Inside.{IsListIn};

use crate::cells::read;
use lp_base::Memory;
use lp_store::{Cell, CellId, Span, Store};

// Whether two rigid heads are the same name.
pub(crate) fn have_same_name(store: &Store, one: CellId, other: CellId) -> bool
    ensures types { result ≡ true → HaveAsManyTypes store.now one other }
{
    match read(store, one) {
        Cell::Const(c, types) => is_constant(store, other, c, store.items(types).len()),
        Cell::Eigen(k) => matches!(read(store, other), Cell::Eigen(l) if k == l),
        Cell::Int(i) => matches!(read(store, other), Cell::Int(j) if i == j),
        Cell::Text(bytes) => is_text(store, other, store.bytes(bytes)),
        Cell::Index(i) => matches!(read(store, other), Cell::Index(j) if i == j),
        _ => false,
    }
}

fn is_constant(store: &Store, cell: CellId, c: u32, count: usize) -> bool
    ensures types { result ≡ true → count ≡ length (types_at store.now cell) }
{
    match read(store, cell) {
        Cell::Const(d, types) => c == d && count == store.items(types).len(),
        _ => false,
    }
}

fn is_text(store: &Store, cell: CellId, bytes: &[u8]) -> bool
    ensures { result ≡ true → types_at store.now cell ≡ [] }
{
    match read(store, cell) {
        Cell::Text(others) => bytes == store.bytes(others),
        _ => false,
    }
}

// The types of a constant.
fn types_of(store: &Store, cell: CellId) -> Option<Span>
    ensures list { IsListIn store.now result }
    ensures types { MatchOption result (types_at store.now cell ≡ []) (λ l. types_at store.now cell ≡ span store.now.items l.from l.count) }
{
    match read(store, cell) {
        Cell::Const(_, types) => Some(types),
        _ => None,
    }
}

// Puts the pairs of types of two heads on a stack, so that the first of them comes first.
pub(crate) fn push_types(
    store: &Store,
    one: CellId,
    other: CellId,
    todo: &mut Vec<(CellId, CellId)>,
) -> Result<(), Memory>
    requires { HaveAsManyTypes store.now one other }
    ensures { OnOk result (reverse todo.new.items ≡ zipped_cells (types_at store.now one) (types_at store.now other) ++ reverse todo.old.items) }
{
    let Some(types) = types_of(store, one) else {
        return Ok(());
    };
    let Some(others) = types_of(store, other) else {
        return Ok(());
    };
    push_type_pairs(store.items(types), store.items(others), todo)
}

// Puts pairs on a stack, so that the first of them comes first.
pub(crate) fn push_type_pairs(
    lefts: &[CellId],
    rights: &[CellId],
    todo: &mut Vec<(CellId, CellId)>,
) -> Result<(), Memory>
    requires { length lefts.now ≡ length rights.now }
    ensures { OnOk result (reverse todo.new.items ≡ zipped_cells lefts.now rights.now ++ reverse todo.old.items) }
{
    for done in 0..lefts.len() {
        let at = lefts.len() - 1 - done;
        todo.push((lefts[at], rights[at]))?;
    }
    Ok(())
}
