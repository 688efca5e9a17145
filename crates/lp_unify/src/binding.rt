// What is put into a store, and what a variable is bound to.
ghost use Rattle.std.specs.Prelude.{◌≡◌, ℕ, ◌<◌, length, [], ◌∷◌, true, All, IfOk, OnOk};
ghost use Rattle.lp_calculus.specs.Types.{Ty};
ghost use Rattle.lp_store.specs.Contents.{cell_at};
ghost use Rattle.lp_store.specs.Reading.{Avoids, ReadsType};
ghost use Rattle.lp_unify.specs.Frames.{Goes, Stays, IsFresh};
ghost use Rattle.lp_unify.specs.Inside.{IsIn, IsApart, IsUnbound};
ghost use Rattle.lp_unify.specs.TypeEquations.{AreTypesPut};

use crate::cells::read;
use crate::round::Round;
use lp_base::Memory;
use lp_store::{Cell, CellId, Store};

// Whether a variable of types or of terms is not bound.
pub(crate) fn is_unbound(store: &Store, variable: CellId) -> bool
    ensures unbound { result ≡ true → IsUnbound (cell_at store.now variable.0) }
    ensures within { result ≡ true → variable.0 < length store.now.cells }
{
    match read(store, variable) {
        Cell::Logic(_) => true,
        Cell::TypeVar => true,
        _ => false,
    }
}

// Binds an unbound variable.
pub(crate) fn bind_to(
    store: &mut Store,
    round: &mut Round,
    variable: CellId,
    to: CellId,
) -> Result<(), Memory>
    requires variable { variable.0 < length store.old.cells }
    requires unbound { IsUnbound (cell_at store.old variable.0) }
    requires to { to.0 < length store.old.cells }
    requires avoids { Avoids store.old variable.0 to.0 }
    ensures goes { Goes store.old store.new }
    ensures types { OnOk result ((cell_at store.old variable.0 ≡ Cell.TypeVar) → (S : Ty) → ReadsType store.old to.0 S → AreTypesPut (record { id = variable.0; value = S } ∷ []) store.old store.new) }
    ensures units { round.new.units ≡ round.old.units }
    ensures bound { OnOk result (round.new.is_bound ≡ true) }
{
    let _mark = store.mark();
    store.bind(variable, to)?;
    round.is_bound = true;
    Ok(())
}

// Binds a variable.
pub(crate) fn bind(
    store: &mut Store,
    round: &mut Round,
    variable: CellId,
    to: CellId,
) -> Result<(), Memory>
    requires { Avoids store.old variable.0 to.0 }
    ensures { Goes store.old store.new }
{
    if !is_unbound(store, variable) {
        return Err(Memory);
    }
    if !store.has(to) {
        return Err(Memory);
    }
    bind_to(store, round, variable, to)
}

// A new variable of the level.
pub(crate) fn put_variable(store: &mut Store, level: u64) -> Result<CellId, Memory>
    ensures stays { Stays store.old store.new }
    ensures fresh { IfOk result (IsFresh store.old store.new) }
{
    let id = store.push(Cell::Logic(level))?;
    Ok(id)
}

pub(crate) fn put_eigen(store: &mut Store, level: u64) -> Result<CellId, Memory>
    ensures stays { Stays store.old store.new }
    ensures fresh { IfOk result (IsFresh store.old store.new) }
{
    let id = store.push(Cell::Eigen(level))?;
    Ok(id)
}

pub(crate) fn put_index(store: &mut Store, index: u64) -> Result<CellId, Memory>
    ensures stays { Stays store.old store.new }
    ensures fresh { IfOk result (IsFresh store.old store.new) }
{
    let id = store.push(Cell::Index(index))?;
    Ok(id)
}

pub(crate) fn put_abstraction(store: &mut Store, body: CellId) -> Result<CellId, Memory>
    ensures stays { Stays store.old store.new }
    ensures apart { IfOk result (λ id. (x : ℕ) → x < length store.old.cells → IsApart store.old x body → IsApart store.new x id) }
{
    if !store.has(body) {
        return Err(Memory);
    }
    let id = store.push(Cell::Abs(body))?;
    Ok(id)
}

// The body below so many abstractions.
pub(crate) fn put_abstractions(
    store: &mut Store,
    count: usize,
    body: CellId,
) -> Result<CellId, Memory>
    ensures stays { Stays store.old store.new }
    ensures apart { IfOk result (λ id. (x : ℕ) → x < length store.old.cells → IsApart store.old x body → IsApart store.new x id) }
{
    let mut made = body;
    for _ in 0..count {
        made = put_abstraction(store, made)?;
    }
    Ok(made)
}

// Whether all cells are there.
fn are_there(store: &Store, cells: &[CellId]) -> bool
    ensures { result ≡ true → All (IsIn (length store.now.cells)) cells.now }
{
    for place in 0..cells.len() {
        if !store.has(cells[place]) {
            return false;
        }
    }
    true
}

// The head on the arguments.
pub(crate) fn put_application(
    store: &mut Store,
    head: CellId,
    arguments: &[CellId],
) -> Result<CellId, Memory>
    ensures stays { Stays store.old store.new }
    ensures apart { IfOk result (λ id. (x : ℕ) → x < length store.old.cells → IsApart store.old x head → All (IsApart store.old x) arguments.now → IsApart store.new x id) }
{
    if arguments.is_empty() {
        return Ok(head);
    }
    if !store.has(head) || !are_there(store, arguments) {
        return Err(Memory);
    }
    let list = store.list(arguments)?;
    let id = store.push(Cell::App(head, list))?;
    Ok(id)
}
