// The rules for one pair: the first that applies is taken.
ghost use Rattle.std.specs.Prelude.{ℕ, ◌<◌, ◌≤◌, length, List, All, IfOk, OnOk, IfErr};
ghost use Rattle.lp_calculus.specs.Types.{Ty};
ghost use Rattle.lp_model.specs.Types.{zipped};
ghost use Rattle.lp_unify.specs.Frames.{Goes, Stays};
ghost use Rattle.lp_unify.specs.Heads.{types_at, HaveAsManyTypes};
ghost use Rattle.lp_unify.specs.TypeEquations.{AreSolved, AreRefused};
ghost use Rattle.lp_unify.specs.TypeTurns.{ReadStack};
ghost use Rattle.lp_unify.specs.Inside.{IsApart};

use crate::binding::{bind, put_abstractions, put_application, put_index, put_variable};
use crate::cells::count_of;
use crate::compare::{
    are_rigid, are_same, have_same_variable, is_some_abstraction, opened, push_arguments,
};
use crate::delayed::Pair;
use crate::fault::PatternRefusal;
use crate::heads::{have_same_name, push_types};
use crate::look::{Head, Seen, look};
use crate::opened::Opened;
use crate::patterns::pattern_of;
use crate::prune::prune;
use crate::round::Round;
use crate::scan::scan;
use crate::settle::settled;
use crate::side::Side;
use crate::types::solve_types;
use lp_base::Memory;
use lp_store::{CellId, Store};
use std::alloc::Global;

// What a pair comes to that does not fail.
#[derive(Clone, Copy)]
pub(crate) enum Verdict {
    // It is solved, or other pairs took its place.
    Gone,
    // It is to wait.
    Delayed(Pair),
}

// The equations of the types of two equal heads, solved at once.
fn equate_types(
    alloc: Global,
    store: &mut Store,
    round: &mut Round,
    one: CellId,
    other: CellId,
) -> Result<(), PatternRefusal>
    requires { HaveAsManyTypes store.old one other }
    ensures goes { Goes store.old store.new }
    ensures solved { OnOk result ((Ts Us : List Ty) → ReadStack store.old (types_at store.old one) Ts → ReadStack store.old (types_at store.old other) Us → AreSolved store.old store.new round.old round.new (zipped Ts Us)) }
    ensures refused { IfErr result (λ e. (Ts Us : List Ty) → ReadStack store.old (types_at store.old one) Ts → ReadStack store.old (types_at store.old other) Us → AreRefused e round.old.units (zipped Ts Us)) }
    ensures fewer { OnOk result (round.new.units ≤ round.old.units) }
{
    let mut types = Vec::new(alloc);
    push_types(store, one, other, &mut types)?;
    solve_types(alloc, store, round, &mut types)
}

// Equal heads with as many arguments give the equations of their types, solved at once, and then the pairs of the arguments, in front.
fn decompose(
    alloc: Global,
    store: &mut Store,
    round: &mut Round,
    one: &Seen,
    other: &Seen,
    level: u64,
    todo: &mut Vec<Pair>,
) -> Result<(), PatternRefusal>
    ensures { Goes store.old store.new }
{
    if count_of(store, one.whole) != count_of(store, other.whole) {
        return Err(PatternRefusal::Fails);
    }
    if !have_same_name(store, one.top, other.top) {
        return Err(PatternRefusal::Fails);
    }
    equate_types(alloc, store, round, one.top, other.top)?;
    push_arguments(store, one, other, level, todo)?;
    Ok(())
}

// The indices of the places at which two patterns have the same eigenconstant.
fn put_agreeing(
    alloc: Global,
    store: &mut Store,
    ones: &[u64],
    others: &[u64],
) -> Result<Vec<CellId>, Memory>
    ensures stays { Stays store.old store.new }
    ensures apart { IfOk result (λ ids. (x : ℕ) → x < length store.old.cells → All (IsApart store.new x) ids.items) }
{
    let mut arguments = Vec::new(alloc);
    for place in 0..ones.len() {
        if place >= others.len() {
            return Ok(arguments);
        }
        if ones[place] != others[place] {
            continue;
        }
        let id = put_index(store, (ones.len() - 1 - place) as u64)?;
        arguments.push(id)?;
    }
    Ok(arguments)
}

// The variable becomes the abstraction of a new one on the places that agree.
fn join(
    alloc: Global,
    store: &mut Store,
    round: &mut Round,
    variable: CellId,
    level: u64,
    ones: &[u64],
    others: &[u64],
) -> Result<(), Memory>
    ensures { Goes store.old store.new }
{
    if !store.has(variable) {
        return Err(Memory);
    }
    let arguments = put_agreeing(alloc, store, ones, others)?;
    let new = put_variable(store, level)?;
    let body = put_application(store, new, arguments.as_slice())?;
    let value = put_abstractions(store, ones.len(), body)?;
    bind(store, round, variable, value)
}

// The side that a term is, if it is a pattern.
fn side_of(
    alloc: Global,
    store: &mut Store,
    seen: &Seen,
    pair: u64,
) -> Result<Option<Side>, PatternRefusal>
    ensures { Stays store.old store.new }
{
    let Head::Variable(level) = seen.head else {
        return Ok(None);
    };
    let pattern = pattern_of(alloc, store, Opened::none(pair), level, seen.whole)?;
    let Some(eigens) = pattern else {
        return Ok(None);
    };
    Ok(Some(Side {
        variable: seen.top,
        level,
        eigens,
        pair,
    }))
}

// Whether the term has the side's variable as its head.
fn has_head(side: &Side, seen: &Seen) -> bool {
    match seen.head {
        Head::Variable(_) => side.is_variable(seen.top),
        Head::Abstraction(_) => false,
        Head::Rigid => false,
    }
}

// Binds the side's variable to the other side, if it can be. Says whether the pair is done.
fn solve_for(
    alloc: Global,
    store: &mut Store,
    round: &mut Round,
    side: &Side,
    other: &Seen,
) -> Result<bool, PatternRefusal>
    ensures { Goes store.old store.new }
{
    if has_head(side, other) {
        return Ok(false);
    }
    let found = scan(alloc, store, side, other.whole, &mut round.units)?;
    if found.is_delayed {
        return Ok(false);
    }
    if found.has_misfit {
        prune(alloc, store, round, side, other.whole)?;
    }
    let value = settled(alloc, store, side, other.whole)?;
    bind(store, round, side.variable, value)?;
    Ok(true)
}

// The left side is a pattern, else the right side is.
fn by_pattern(
    alloc: Global,
    store: &mut Store,
    round: &mut Round,
    one: &Seen,
    other: &Seen,
    level: u64,
) -> Result<bool, PatternRefusal>
    ensures { Goes store.old store.new }
{
    let left = side_of(alloc, store, one, level)?;
    if let Some(side) = left {
        return solve_for(alloc, store, round, &side, other);
    }
    let right = side_of(alloc, store, other, level)?;
    let Some(side) = right else {
        return Ok(false);
    };
    solve_for(alloc, store, round, &side, one)
}

// One variable on arguments that differ. Two patterns are joined. Says whether the pair is done.
fn on_others(
    alloc: Global,
    store: &mut Store,
    round: &mut Round,
    one: &Seen,
    other: &Seen,
    level: u64,
) -> Result<bool, PatternRefusal>
    ensures { Goes store.old store.new }
{
    let left = side_of(alloc, store, one, level)?;
    let right = side_of(alloc, store, other, level)?;
    let Some(left) = left else {
        return by_pattern(alloc, store, round, one, other, level);
    };
    let Some(right) = right else {
        return by_pattern(alloc, store, round, one, other, level);
    };
    let ones = left.eigens.as_slice();
    let others = right.eigens.as_slice();
    join(alloc, store, round, left.variable, left.level, ones, others)?;
    Ok(true)
}

// A variable against a term that is no abstraction. Says whether the pair is done.
fn by_variables(
    alloc: Global,
    store: &mut Store,
    round: &mut Round,
    one: &Seen,
    other: &Seen,
    level: u64,
) -> Result<bool, PatternRefusal>
    ensures { Goes store.old store.new }
{
    if !have_same_variable(store, one, other) {
        return by_pattern(alloc, store, round, one, other, level);
    }
    if are_same(alloc, store, one, other, level, &mut round.units)? {
        return Ok(true);
    }
    on_others(alloc, store, round, one, other, level)
}

// Takes two terms that were looked at.
fn take_seen(
    alloc: Global,
    store: &mut Store,
    round: &mut Round,
    one: &Seen,
    other: &Seen,
    level: u64,
    todo: &mut Vec<Pair>,
) -> Result<Verdict, PatternRefusal>
    ensures { Goes store.old store.new }
{
    if is_some_abstraction(one.head, other.head) {
        let pair = opened(store, one.whole, other.whole, level)?;
        todo.push(pair)?;
        return Ok(Verdict::Gone);
    }
    if are_rigid(one.head, other.head) {
        decompose(alloc, store, round, one, other, level, todo)?;
        return Ok(Verdict::Gone);
    }
    if by_variables(alloc, store, round, one, other, level)? {
        return Ok(Verdict::Gone);
    }
    Ok(Verdict::Delayed(Pair {
        left: one.whole,
        right: other.whole,
        level,
    }))
}

// Takes a pair by the first rule that applies to it.
pub(crate) fn take(
    alloc: Global,
    store: &mut Store,
    round: &mut Round,
    pair: Pair,
    todo: &mut Vec<Pair>,
) -> Result<Verdict, PatternRefusal>
    ensures { Goes store.old store.new }
{
    let one = look(alloc, store, pair.left)?;
    let other = look(alloc, store, pair.right)?;
    take_seen(alloc, store, round, &one, &other, pair.level, todo)
}
