// Whether the arguments of a variable are distinct eigenconstants above its level.
ghost use Rattle.lp_unify.specs.Frames.{Stays};

use crate::cells::{argument_at, arguments_of, count_of, read, referred};
use crate::fault::PatternRefusal;
use crate::look::{Head, Seen, look};
use crate::opened::Opened;
use crate::round::spend;
use lp_base::{Memory, RUN_LIMIT};
use lp_store::{Cell, CellId, Store};
use std::alloc::Global;

// As many nodes may be visited to test one argument.
const NODES: u64 = RUN_LIMIT;

// A term below the abstractions of the argument at hand, which is to come to this index.
#[derive(Clone, Copy)]
struct Wanted {
    term: CellId,
    place: u64,
}

// The index or eigenconstant that a head is.
#[derive(Clone, Copy)]
enum Name {
    Eigen(u64),
    Index(u64),
}

fn name_of(store: &Store, cell: CellId) -> Option<Name> {
    match read(store, cell) {
        Cell::Eigen(k) => Some(Name::Eigen(k)),
        Cell::Index(i) => Some(Name::Index(i)),
        _ => None,
    }
}

// The eigenconstant that a name stands for below so many abstractions of the argument itself.
fn eigen_below(name: Name, count: u64, opened: Opened) -> Result<Option<u64>, Memory> {
    match name {
        Name::Eigen(k) => Ok(Some(k)),
        Name::Index(i) => {
            if i < count {
                return Ok(None);
            }
            opened.eigen(i - count)
        }
    }
}

// Whether a name is the index, below so many abstractions.
fn is_place(name: Name, count: u64, place: u64) -> bool {
    match name {
        Name::Eigen(_) => false,
        Name::Index(i) => i >= count && i - count == place,
    }
}

// A term below its leading abstractions, and how many they are.
fn strip(
    alloc: Global,
    store: &mut Store,
    term: CellId,
    left: &mut u64,
) -> Result<(Seen, u64), PatternRefusal>
    ensures { Stays store.old store.new }
{
    let mut at = term;
    for count in 0..u64::MAX {
        spend(left)?;
        let seen = look(alloc, store, at)?;
        let Head::Abstraction(body) = seen.head else {
            return Ok((seen, count));
        };
        at = body;
    }
    Err(PatternRefusal::Memory)
}

// Each argument is to come to the index of its own abstraction, the first to the outermost.
fn push_wanted(arguments: &[CellId], count: u64, wanted: &mut Vec<Wanted>) -> Result<(), Memory> {
    let mut place = count;
    for at in 0..arguments.len() {
        place = place.saturating_sub(1);
        wanted.push(Wanted {
            term: arguments[at],
            place,
        })?;
    }
    Ok(())
}

// Takes abstractions off a term, whose head, if it may come to a name by eta contractions, has as many arguments as they are.
fn stripped_name(
    alloc: Global,
    store: &mut Store,
    term: CellId,
    wanted: &mut Vec<Wanted>,
    left: &mut u64,
) -> Result<Option<(Name, u64)>, PatternRefusal>
    ensures { Stays store.old store.new }
{
    let (seen, count) = strip(alloc, store, term, left)?;
    if count_of(store, seen.whole) as u64 != count {
        return Ok(None);
    }
    let Some(name) = name_of(store, seen.top) else {
        return Ok(None);
    };
    if let Some(list) = arguments_of(store, seen.whole) {
        push_wanted(store.items(list), count, wanted)?;
    }
    Ok(Some((name, count)))
}

// Whether the term comes to its index, if those that are put behind the others come to theirs.
fn comes(
    alloc: Global,
    store: &mut Store,
    at: Wanted,
    wanted: &mut Vec<Wanted>,
    left: &mut u64,
) -> Result<bool, PatternRefusal>
    ensures { Stays store.old store.new }
{
    let Some((name, count)) = stripped_name(alloc, store, at.term, wanted, left)? else {
        return Ok(false);
    };
    Ok(is_place(name, count, at.place))
}

// The eigenconstant to which an abstraction comes by eta contractions, if it comes to one. `Deep` where that takes more nodes than the limit.
fn contracted(
    alloc: Global,
    store: &mut Store,
    opened: Opened,
    term: CellId,
) -> Result<Option<u64>, PatternRefusal>
    ensures { Stays store.old store.new }
{
    let mut left = NODES;
    let mut wanted = Vec::new(alloc);
    let Some((name, count)) = stripped_name(alloc, store, term, &mut wanted, &mut left)? else {
        return Ok(None);
    };
    let found = eigen_below(name, count, opened)?;
    'parts: for _ in 0..u64::MAX {
        let Some(at) = wanted.pop() else {
            return Ok(found);
        };
        let goes = comes(alloc, store, at, &mut wanted, &mut left)?;
        if !goes {
            return Ok(None);
        }
    }
    Err(PatternRefusal::Memory)
}

// The eigenconstant that a head without arguments is.
fn alone(store: &Store, seen: &Seen, opened: Opened) -> Result<Option<u64>, Memory> {
    if arguments_of(store, seen.whole).is_some() {
        return Ok(None);
    }
    let Some(name) = name_of(store, seen.top) else {
        return Ok(None);
    };
    eigen_below(name, 0, opened)
}

// The eigenconstant to which an argument comes, if it comes to one.
fn as_eigen(
    alloc: Global,
    store: &mut Store,
    opened: Opened,
    term: CellId,
) -> Result<Option<u64>, PatternRefusal>
    ensures { Stays store.old store.new }
{
    let seen = look(alloc, store, term)?;
    match seen.head {
        Head::Variable(_) => Ok(None),
        Head::Abstraction(_) => contracted(alloc, store, opened, seen.whole),
        Head::Rigid => {
            let found = alone(store, &seen, opened)?;
            Ok(found)
        }
    }
}

// The eigenconstant that a cell is seen to be without a reduction.
fn glance(store: &Store, cell: CellId, opened: Opened) -> Result<Option<u64>, Memory> {
    match name_of(store, referred(store, cell)) {
        Some(name) => eigen_below(name, 0, opened),
        None => Ok(None),
    }
}

// The eigenconstants that the first arguments are seen to be.
fn put_glanced(
    store: &Store,
    opened: Opened,
    whole: CellId,
    eigens: &mut Vec<u64>,
) -> Result<(), Memory> {
    let Some(list) = arguments_of(store, whole) else {
        return Ok(());
    };
    for argument in store.items(list).iter().copied() {
        let Some(eigen) = glance(store, argument, opened)? else {
            return Ok(());
        };
        eigens.push(eigen)?;
    }
    Ok(())
}

// Whether an eigenconstant is above the level and none of the others.
fn is_good(level: u64, k: u64, others: &[u64]) -> bool {
    if others.contains(&k) {
        return false;
    }
    level < k
}

// Whether each is above the one before, and the first above the level.
fn are_ascending(level: u64, ks: &[u64]) -> bool {
    let mut before = level;
    for k in ks.iter().copied() {
        if k <= before {
            return false;
        }
        before = k;
    }
    true
}

// Whether all are distinct and above the level. Mostly they stand in the order in which they were made.
fn make_a_pattern(level: u64, ks: &[u64]) -> bool {
    if are_ascending(level, ks) {
        return true;
    }
    for place in 0..ks.len() {
        if !is_good(level, ks[place], &ks[place + 1..]) {
            return false;
        }
    }
    true
}

// The eigenconstants on which a variable of the level makes a pattern.
pub(crate) fn pattern_of(
    alloc: Global,
    store: &mut Store,
    opened: Opened,
    level: u64,
    whole: CellId,
) -> Result<Option<Vec<u64>>, PatternRefusal>
    ensures { Stays store.old store.new }
{
    let mut eigens = Vec::new(alloc);
    put_glanced(store, opened, whole, &mut eigens)?;
    for place in eigens.len()..count_of(store, whole) {
        let term = argument_at(store, whole, place)?;
        let found = as_eigen(alloc, store, opened, term)?;
        let Some(eigen) = found else {
            return Ok(None);
        };
        eigens.push(eigen)?;
    }
    if !make_a_pattern(level, eigens.as_slice()) {
        return Ok(None);
    }
    Ok(Some(eigens))
}
