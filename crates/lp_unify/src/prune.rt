// Pruning and lowering: a pattern that does not fit gives way to a new variable on what is allowed.
ghost use Rattle.std.specs.Prelude.{ℕ, ◌<◌, length, All, IfOk, OnOk};
ghost use Rattle.lp_unify.specs.Frames.{Goes, Stays, IsFresh};
ghost use Rattle.lp_unify.specs.Inside.{IsApart};

use crate::binding::{bind, put_abstractions, put_application, put_eigen, put_index, put_variable};
use crate::fault::PatternRefusal;
use crate::look::{Head, Seen, look};
use crate::patterns::pattern_of;
use crate::round::Round;
use crate::scan::{Visit, push_arguments};
use crate::side::Side;
use lp_base::Memory;
use lp_store::{CellId, Store};
use std::alloc::Global;

// The eigenconstants of the side up to the level.
fn push_low(
    store: &mut Store,
    side: &Side,
    level: u64,
    arguments: &mut Vec<CellId>,
) -> Result<(), Memory>
    ensures stays { Stays store.old store.new }
    ensures apart { OnOk result ((x : ℕ) → x < length store.old.cells → All (IsApart store.old x) arguments.old.items → All (IsApart store.new x) arguments.new.items) }
{
    for k in side.eigens.iter().copied() {
        if k > level {
            continue;
        }
        let id = put_eigen(store, k)?;
        arguments.push(id)?;
    }
    Ok(())
}

// The indices of the places whose eigenconstants are allowed.
fn push_places(
    store: &mut Store,
    side: &Side,
    eigens: &[u64],
    arguments: &mut Vec<CellId>,
) -> Result<(), Memory>
    ensures stays { Stays store.old store.new }
    ensures apart { OnOk result ((x : ℕ) → x < length store.old.cells → All (IsApart store.old x) arguments.old.items → All (IsApart store.new x) arguments.new.items) }
{
    for place in 0..eigens.len() {
        if !side.allows(eigens[place]) {
            continue;
        }
        let id = put_index(store, (eigens.len() - 1 - place) as u64)?;
        arguments.push(id)?;
    }
    Ok(())
}

fn smaller(one: u64, other: u64) -> u64 {
    if one <= other {
        return one;
    }
    other
}

// What the variable of a pattern that does not fit becomes: a new one, on the eigenconstants of the side up to the old level and on the
// places that are allowed.
fn renewal(
    alloc: Global,
    store: &mut Store,
    side: &Side,
    level: u64,
    eigens: &[u64],
) -> Result<CellId, Memory>
    ensures stays { Stays store.old store.new }
    ensures fresh { IfOk result (IsFresh store.old store.new) }
{
    let mut arguments = Vec::new(alloc);
    push_low(store, side, level, &mut arguments)?;
    push_places(store, side, eigens, &mut arguments)?;
    let variable = put_variable(store, smaller(side.level, level))?;
    let body = put_application(store, variable, arguments.as_slice())?;
    let value = put_abstractions(store, eigens.len(), body)?;
    Ok(value)
}

// A variable. A pattern that is changed is visited again; what stood before it fits still. Where it is no pattern what stands in it fits, for
// else the pair would be delayed.
fn visit_variable(
    alloc: Global,
    store: &mut Store,
    round: &mut Round,
    side: &Side,
    visit: Visit,
    seen: &Seen,
    level: u64,
    left: &mut Vec<Visit>,
) -> Result<(), PatternRefusal>
    ensures { Goes store.old store.new }
{
    let pattern = pattern_of(alloc, store, visit.opened, level, seen.whole)?;
    let Some(eigens) = pattern else {
        return Ok(());
    };
    let eigens = eigens.as_slice();
    if side.fits(level, eigens) {
        return Ok(());
    }
    if !store.has(seen.top) {
        return Err(PatternRefusal::Memory);
    }
    let value = renewal(alloc, store, side, level, eigens)?;
    bind(store, round, seen.top, value)?;
    left.push(visit)?;
    Ok(())
}

// Visits a part.
fn visit_part(
    alloc: Global,
    store: &mut Store,
    round: &mut Round,
    side: &Side,
    visit: Visit,
    left: &mut Vec<Visit>,
) -> Result<(), PatternRefusal>
    ensures { Goes store.old store.new }
{
    let seen = look(alloc, store, visit.term)?;
    match seen.head {
        Head::Abstraction(body) => {
            let inner = visit.body(body)?;
            left.push(inner)?;
            Ok(())
        }
        Head::Rigid => {
            push_arguments(store, visit, &seen, false, left)?;
            Ok(())
        }
        Head::Variable(level) => {
            visit_variable(alloc, store, round, side, visit, &seen, level, left)
        }
    }
}

// Changes the patterns of a term that do not fit, left to right. It takes no units.
pub(crate) fn prune(
    alloc: Global,
    store: &mut Store,
    round: &mut Round,
    side: &Side,
    term: CellId,
) -> Result<(), PatternRefusal>
    ensures { Goes store.old store.new }
{
    let mut left = Vec::new(alloc);
    left.push(Visit {
        term,
        opened: side.closed(),
        is_inside: false,
    })?;
    'parts: for _ in 0..u64::MAX {
        let Some(visit) = left.pop() else {
            return Ok(());
        };
        visit_part(alloc, store, round, side, visit, &mut left)?;
    }
    Err(PatternRefusal::Memory)
}
