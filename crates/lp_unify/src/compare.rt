// The comparison of terms up to conversion.
ghost use Rattle.lp_unify.specs.Frames.{Stays};

use crate::binding::{put_application, put_eigen};
use crate::cells::{arguments_of, count_of};
use crate::delayed::Pair;
use crate::fault::PatternRefusal;
use crate::heads::{have_same_name, push_types};
use crate::look::{Head, Seen, look};
use crate::opened::LEVELS;
use crate::round::spend;
use crate::types::are_same_types;
use lp_base::Memory;
use lp_store::{CellId, Store};
use std::alloc::Global;

// Both sides on the eigenconstant of the level plus one.
pub(crate) fn opened(
    store: &mut Store,
    left: CellId,
    right: CellId,
    level: u64,
) -> Result<Pair, Memory>
    ensures { Stays store.old store.new }
{
    if level >= LEVELS {
        return Err(Memory);
    }
    let level = level + 1;
    let eigen = put_eigen(store, level)?;
    let left = put_application(store, left, &[eigen])?;
    let right = put_application(store, right, &[eigen])?;
    Ok(Pair { left, right, level })
}

// Puts the pairs of arguments on a stack, so that the first of them comes first.
pub(crate) fn push_pairs(
    lefts: &[CellId],
    rights: &[CellId],
    level: u64,
    todo: &mut Vec<Pair>,
) -> Result<(), Memory> {
    if lefts.len() != rights.len() {
        return Err(Memory);
    }
    for done in 0..lefts.len() {
        let at = lefts.len() - 1 - done;
        todo.push(Pair {
            left: lefts[at],
            right: rights[at],
            level,
        })?;
    }
    Ok(())
}

// Puts the pairs of the arguments of two terms on a stack, where they have as many.
pub(crate) fn push_arguments(
    store: &Store,
    one: &Seen,
    other: &Seen,
    level: u64,
    todo: &mut Vec<Pair>,
) -> Result<(), Memory> {
    let Some(ones) = arguments_of(store, one.whole) else {
        return Ok(());
    };
    let Some(others) = arguments_of(store, other.whole) else {
        return Ok(());
    };
    push_pairs(store.items(ones), store.items(others), level, todo)
}

// Whether two rigid heads are the same, with their types, and have as many arguments.
fn have_same_head(
    alloc: Global,
    store: &Store,
    one: &Seen,
    other: &Seen,
    units: &mut u64,
) -> Result<bool, PatternRefusal> {
    if count_of(store, one.whole) != count_of(store, other.whole) {
        return Ok(false);
    }
    if !have_same_name(store, one.top, other.top) {
        return Ok(false);
    }
    let mut types = Vec::new(alloc);
    push_types(store, one.top, other.top, &mut types)?;
    are_same_types(store, &mut types, units)
}

// Whether both have the same variable as head and as many arguments.
pub(crate) fn have_same_variable(store: &Store, one: &Seen, other: &Seen) -> bool {
    match one.head {
        Head::Abstraction(_) => false,
        Head::Rigid => false,
        Head::Variable(_) => one.top.0 == other.top.0
            && count_of(store, one.whole) == count_of(store, other.whole),
    }
}

// Whether the heads of two terms that are no abstractions are the same, with as many arguments. Two heads are a unit.
fn have_same_top(
    alloc: Global,
    store: &Store,
    one: &Seen,
    other: &Seen,
    units: &mut u64,
) -> Result<bool, PatternRefusal> {
    spend(units)?;
    if are_rigid(one.head, other.head) {
        return have_same_head(alloc, store, one, other, units);
    }
    Ok(have_same_variable(store, one, other))
}

// Whether both are rigid.
pub(crate) fn are_rigid(one: Head, other: Head) -> bool {
    match one {
        Head::Abstraction(_) => false,
        Head::Variable(_) => false,
        Head::Rigid => match other {
            Head::Abstraction(_) => false,
            Head::Variable(_) => false,
            Head::Rigid => true,
        },
    }
}

// Whether one is an abstraction.
pub(crate) fn is_some_abstraction(one: Head, other: Head) -> bool {
    match one {
        Head::Abstraction(_) => true,
        Head::Variable(_) => is_abstraction(other),
        Head::Rigid => is_abstraction(other),
    }
}

fn is_abstraction(head: Head) -> bool {
    match head {
        Head::Abstraction(_) => true,
        Head::Variable(_) => false,
        Head::Rigid => false,
    }
}

// Compares two terms; their parts go on the stack.
fn compare(
    alloc: Global,
    store: &mut Store,
    pair: Pair,
    todo: &mut Vec<Pair>,
    units: &mut u64,
) -> Result<bool, PatternRefusal>
    ensures { Stays store.old store.new }
{
    let one = look(alloc, store, pair.left)?;
    let other = look(alloc, store, pair.right)?;
    if is_some_abstraction(one.head, other.head) {
        let inner = opened(store, one.whole, other.whole, pair.level)?;
        todo.push(inner)?;
        return Ok(true);
    }
    if !have_same_top(alloc, store, &one, &other, units)? {
        return Ok(false);
    }
    push_arguments(store, &one, &other, pair.level, todo)?;
    Ok(true)
}

// Whether all arguments of two terms are the same, left to right, until one differs.
pub(crate) fn are_same(
    alloc: Global,
    store: &mut Store,
    one: &Seen,
    other: &Seen,
    level: u64,
    units: &mut u64,
) -> Result<bool, PatternRefusal>
    ensures { Stays store.old store.new }
{
    let mut todo = Vec::new(alloc);
    push_arguments(store, one, other, level, &mut todo)?;
    'pairs: for _ in 0..u64::MAX {
        let Some(pair) = todo.pop() else {
            return Ok(true);
        };
        if !compare(alloc, store, pair, &mut todo, units)? {
            return Ok(false);
        }
    }
    Err(PatternRefusal::Memory)
}
