// The scan of the other side, depth first and left to right. Each node is a unit; a pattern with its arguments is one node, and an
// abstraction that is opened is none.
ghost use Rattle.lp_unify.specs.Frames.{Stays};

use crate::cells::{arguments_of, read};
use crate::fault::PatternRefusal;
use crate::look::{Head, Seen, look};
use crate::opened::Opened;
use crate::patterns::pattern_of;
use crate::round::spend;
use crate::side::Side;
use lp_base::Memory;
use lp_store::{Cell, CellId, Store};
use std::alloc::Global;

// What a scan found that did not fail.
#[derive(Clone, Copy)]
pub(crate) struct Scanned {
    // The pair is to be delayed.
    pub is_delayed: bool,
    // Some pattern does not fit.
    pub has_misfit: bool,
}

// A part that is to be visited.
#[derive(Clone, Copy)]
pub(crate) struct Visit {
    pub term: CellId,
    pub opened: Opened,
    // Whether it stands inside a flexible term that is no pattern. Nothing fails there.
    pub is_inside: bool,
}

impl Visit {
    // The body of the abstraction.
    pub(crate) fn body(self, body: CellId) -> Result<Visit, Memory> {
        let opened = self.opened.one_more()?;
        Ok(Visit {
            term: body,
            opened,
            is_inside: self.is_inside,
        })
    }
}

// Puts the arguments of a visited part on the stack, so that the first of them comes first.
pub(crate) fn push_arguments(
    store: &Store,
    visit: Visit,
    seen: &Seen,
    is_inside: bool,
    left: &mut Vec<Visit>,
) -> Result<(), Memory> {
    let Some(list) = arguments_of(store, seen.whole) else {
        return Ok(());
    };
    let arguments = store.items(list);
    for done in 0..arguments.len() {
        left.push(Visit {
            term: arguments[arguments.len() - 1 - done],
            opened: visit.opened,
            is_inside,
        })?;
    }
    Ok(())
}

// Whether a rigid head is allowed.
fn allows_head(store: &Store, side: &Side, head: CellId) -> bool {
    match read(store, head) {
        Cell::Eigen(k) => side.allows(k),
        _ => true,
    }
}

// A rigid head, and its arguments.
fn visit_rigid(
    store: &Store,
    side: &Side,
    visit: Visit,
    seen: &Seen,
    left: &mut Vec<Visit>,
    found: &mut Scanned,
) -> Result<(), PatternRefusal> {
    let is_allowed = allows_head(store, side, seen.top);
    if !is_allowed && !visit.is_inside {
        return Err(PatternRefusal::Fails);
    }
    push_arguments(store, visit, seen, visit.is_inside, left)?;
    found.is_delayed = found.is_delayed || !is_allowed;
    Ok(())
}

// A variable on distinct eigenconstants above its level.
fn note_pattern(
    side: &Side,
    visit: Visit,
    variable: CellId,
    level: u64,
    eigens: &[u64],
    found: &mut Scanned,
) -> Result<(), PatternRefusal> {
    let is_side = side.is_variable(variable);
    let fits = side.fits(level, eigens);
    if visit.is_inside {
        found.is_delayed = found.is_delayed || is_side || !fits;
        return Ok(());
    }
    if is_side {
        return Err(PatternRefusal::Fails);
    }
    found.has_misfit = found.has_misfit || !fits;
    Ok(())
}

// A variable that is no pattern, and its arguments, in which nothing fails.
fn note_open(
    store: &Store,
    side: &Side,
    visit: Visit,
    seen: &Seen,
    level: u64,
    left: &mut Vec<Visit>,
    found: &mut Scanned,
) -> Result<(), Memory> {
    push_arguments(store, visit, seen, true, left)?;
    let stands = side.is_variable(seen.top) || side.level < level;
    found.is_delayed = found.is_delayed || stands;
    Ok(())
}

// A variable, and, if it is no pattern, its arguments.
fn visit_variable(
    alloc: Global,
    store: &mut Store,
    side: &Side,
    visit: Visit,
    seen: &Seen,
    level: u64,
    left: &mut Vec<Visit>,
    found: &mut Scanned,
) -> Result<(), PatternRefusal>
    ensures { Stays store.old store.new }
{
    let pattern = pattern_of(alloc, store, visit.opened, level, seen.whole)?;
    let Some(eigens) = pattern else {
        note_open(store, side, visit, seen, level, left, found)?;
        return Ok(());
    };
    note_pattern(side, visit, seen.top, level, eigens.as_slice(), found)?;
    Ok(())
}

// Visits a part.
fn visit_part(
    alloc: Global,
    store: &mut Store,
    side: &Side,
    visit: Visit,
    left: &mut Vec<Visit>,
    found: &mut Scanned,
    units: &mut u64,
) -> Result<(), PatternRefusal>
    ensures { Stays store.old store.new }
{
    let seen = look(alloc, store, visit.term)?;
    match seen.head {
        Head::Abstraction(body) => {
            let inner = visit.body(body)?;
            left.push(inner)?;
            Ok(())
        }
        Head::Rigid => {
            spend(units)?;
            visit_rigid(store, side, visit, &seen, left, found)
        }
        Head::Variable(level) => {
            spend(units)?;
            visit_variable(alloc, store, side, visit, &seen, level, left, found)
        }
    }
}

// Visits the term. A part that is not allowed fails, and goes before a delay.
pub(crate) fn scan(
    alloc: Global,
    store: &mut Store,
    side: &Side,
    term: CellId,
    units: &mut u64,
) -> Result<Scanned, PatternRefusal>
    ensures { Stays store.old store.new }
{
    let mut found = Scanned {
        is_delayed: false,
        has_misfit: false,
    };
    let mut left = Vec::new(alloc);
    let whole = Visit {
        term,
        opened: side.closed(),
        is_inside: false,
    };
    visit_part(alloc, store, side, whole, &mut left, &mut found, units)?;
    'parts: for _ in 0..u64::MAX {
        let Some(visit) = left.pop() else {
            return Ok(found);
        };
        visit_part(alloc, store, side, visit, &mut left, &mut found, units)?;
    }
    Err(PatternRefusal::Memory)
}
