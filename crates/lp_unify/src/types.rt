// Type equations, and the comparison of types.
ghost use Rattle.std.specs.Prelude.{◌≡◌, ◌+◌, ◌<◌, ◌≤◌, List, length, reverse, All, IfOk, OnOk, IfErr, true, false};
ghost use Rattle.lp_calculus.specs.Types.{Ty};
ghost use Rattle.lp_store.specs.Contents.{cell_at, span};
ghost use Rattle.lp_store.specs.Reading.{Avoids, ReadsType};
ghost use Rattle.lp_model.specs.Types.{TypePair, visit};
ghost use Rattle.lp_unify.specs.Frames.{Goes};
ghost use Rattle.lp_unify.specs.Inside.{AvoidsIn, IsUnbound};
ghost use Rattle.lp_unify.specs.TypeEquations.{ReadsPair, ReadPairs, AreSolved, AreRefused, AreCompared, IsComparedOver};
ghost use Rattle.lp_unify.specs.TypeTurns.{IsResolved, IsVariable, IsChosen, IsSplit, IsVisited, IsWant, IsBoundTo, IsUnboundAs, IsLedOn, IsTurnRefused};

use crate::binding::{bind_to, is_unbound};
use crate::cells::{read, referred};
use crate::fault::PatternRefusal;
use crate::heads::push_type_pairs;
use crate::look::push_reversed;
use crate::round::{Round, spend};
use lp_base::Memory;
use lp_store::{Cell, CellId, Span, Store};
use std::alloc::Global;

// What two types come to by their tops.
#[derive(Clone, Copy)]
enum Choice {
    // They are one variable.
    Drop,
    Bind(CellId, CellId),
    Split,
}

fn is_variable(store: &Store, cell: CellId) -> bool
    ensures variable { result ≡ true → IsVariable store.now cell }
    ensures other { result ≡ false → IsVariable store.now cell → ⊥ }
{
    match read(store, cell) {
        Cell::TypeVar => true,
        _ => false,
    }
}

// Chooses by the tops: of two variables the younger is bound.
fn choose(store: &Store, one: CellId, other: CellId) -> Choice
    ensures { IsChosen store.now one other result }
{
    if is_variable(store, one) {
        if !is_variable(store, other) {
            return Choice::Bind(one, other);
        }
        if one.0 == other.0 {
            return Choice::Drop;
        }
        if one.0 < other.0 {
            return Choice::Bind(other, one);
        }
        return Choice::Bind(one, other);
    }
    if is_variable(store, other) {
        return Choice::Bind(other, one);
    }
    Choice::Split
}

// Puts the pairs of the parts of two types that are no variables on the stack. Says whether they begin in the same way.
fn split(
    store: &Store,
    one: CellId,
    other: CellId,
    todo: &mut Vec<(CellId, CellId)>,
) -> Result<bool, Memory>
    ensures { IfOk result (λ same. IsResolved (cell_at store.now one.0) → IsResolved (cell_at store.now other.0) → (IsVariable store.now one → ⊥) → (IsVariable store.now other → ⊥) →
        (A B : Ty) → ReadsType store.now one.0 A → ReadsType store.now other.0 B → IsSplit same store.now A B (reverse todo.old.items) (reverse todo.new.items)) }
{
    match read(store, one) {
        Cell::TypeCon(c, types) => match read(store, other) {
            Cell::TypeCon(d, others) => {
                let lefts = store.items(types);
                let rights = store.items(others);
                if c != d || lefts.len() != rights.len() {
                    return Ok(false);
                }
                push_type_pairs(lefts, rights, todo)?;
                Ok(true)
            }
            _ => Ok(false),
        },
        Cell::TypeArrow(a, b) => match read(store, other) {
            Cell::TypeArrow(c, d) => {
                todo.push((b, d))?;
                todo.push((a, c))?;
                Ok(true)
            }
            _ => Ok(false),
        },
        _ => Ok(false),
    }
}

// Says whether the type is the variable; else its parts go on the stack.
fn visit(
    store: &Store,
    variable: CellId,
    top: CellId,
    stack: &mut Vec<CellId>,
) -> Result<bool, Memory>
    ensures avoids { IfOk result (λ found. found ≡ false → IsUnbound (cell_at store.now variable.0) → All (AvoidsIn store.now variable.0) stack.new.items → All (AvoidsIn store.now variable.0) stack.old.items × Avoids store.now variable.0 top.0) }
    ensures visited { IfOk result (λ found. IsResolved (cell_at store.now top.0) → (T : Ty) → ReadsType store.now top.0 T → IsVisited found store.now variable.0 T (reverse stack.old.items) (reverse stack.new.items)) }
    ensures within { IfOk result (λ found. found ≡ false → top.0 < length store.now.cells) }
{
    match read(store, top) {
        Cell::TypeCon(_, types) => {
            push_reversed(store.items(types), stack)?;
            Ok(false)
        }
        Cell::TypeArrow(from, to) => {
            stack.push(to)?;
            stack.push(from)?;
            Ok(false)
        }
        Cell::TypeVar => Ok(top.0 == variable.0),
        _ => Ok(true),
    }
}

// Whether the variable stands in the type. A node that is visited is a unit.
fn occurs(
    alloc: Global,
    store: &Store,
    variable: CellId,
    of: CellId,
    units: &mut u64,
) -> Result<bool, PatternRefusal>
    ensures avoids { IfOk result (λ found. found ≡ false → IsUnbound (cell_at store.now variable.0) → Avoids store.now variable.0 of.0) }
    ensures seen { IfOk result (λ found. (T : Ty) → ReadsType store.now of.0 T → ((visit variable.0 T).found ≡ found) × (units.old ≡ (visit variable.0 T).units + units.new)) }
    ensures spent { IfErr result (λ e. (T : Ty) → ReadsType store.now of.0 T → IsWant e (units.old < (visit variable.0 T).units)) }
    ensures within { IfOk result (λ found. found ≡ false → of.0 < length store.now.cells) }
    ensures fewer { units.new ≤ units.old }
{
    let mut stack = Vec::new(alloc);
    stack.push(of)?;
    'types: while let Some(next) = stack.pop() {
        spend(units)?;
        let top = referred(store, next);
        let found = visit(store, variable, top, &mut stack)?;
        if found {
            return Ok(true);
        }
    }
    Ok(false)
}

// Whether a variable stands in none of the types. Nothing is counted.
pub(crate) fn are_apart(
    alloc: Global,
    store: &Store,
    variable: CellId,
    types: Span,
) -> Result<bool, PatternRefusal>
    requires { types.from + types.count ≤ length store.now.items }
    ensures { IfOk result (λ is. is ≡ true → All (AvoidsIn store.now variable.0) (span store.now.items types.from types.count)) }
{
    if store.items(types).is_empty() {
        return Ok(true);
    }
    if !is_unbound(store, variable) {
        return Ok(false);
    }
    let cells = store.items(types);
    for place in 0..cells.len() {
        let mut uncounted = u64::MAX;
        let found = occurs(alloc, store, variable, cells[place], &mut uncounted)?;
        if found {
            return Ok(false);
        }
    }
    Ok(true)
}

// Binds a type variable to a type in which it does not stand.
fn bind_type(
    alloc: Global,
    store: &mut Store,
    round: &mut Round,
    variable: CellId,
    to: CellId,
) -> Result<(), PatternRefusal>
    requires { IsVariable store.old variable }
    ensures goes { Goes store.old store.new }
    ensures bound { OnOk result ((T : Ty) → ReadsType store.old to.0 T → IsBoundTo store.old store.new round.old round.new variable.0 T) }
    ensures refused { IfErr result (λ e. (T : Ty) → ReadsType store.old to.0 T → IsUnboundAs e round.old.units variable.0 T) }
    ensures fewer { OnOk result (round.new.units ≤ round.old.units) }
{
    if occurs(alloc, store, variable, to, &mut round.units)? {
        return Err(PatternRefusal::Fails);
    }
    bind_to(store, round, variable, to)?;
    Ok(())
}

// Takes a pair, which costs a unit.
fn take(
    alloc: Global,
    store: &mut Store,
    round: &mut Round,
    pair: (CellId, CellId),
    todo: &mut Vec<(CellId, CellId)>,
) -> Result<(), PatternRefusal>
    ensures goes { Goes store.old store.new }
    ensures turns { OnOk result ((p : TypePair) (ps : List TypePair) → ReadsPair store.old pair p → ReadPairs store.old (reverse todo.old.items) ps →
        IsLedOn store.old store.new round.old round.new p ps (reverse todo.new.items)) }
    ensures refused { IfErr result (λ e. (p : TypePair) → ReadsPair store.old pair p → IsTurnRefused e round.old.units p) }
    ensures fewer { OnOk result (round.new.units < round.old.units) }
{
    spend(&mut round.units)?;
    let one = referred(store, pair.0);
    let other = referred(store, pair.1);
    match choose(store, one, other) {
        Choice::Drop => Ok(()),
        Choice::Bind(variable, to) => bind_type(alloc, store, round, variable, to),
        Choice::Split => {
            if split(store, one, other, todo)? {
                return Ok(());
            }
            Err(PatternRefusal::Fails)
        }
    }
}

// Solves the type equations on the stack.
pub(crate) fn solve_types(
    alloc: Global,
    store: &mut Store,
    round: &mut Round,
    todo: &mut Vec<(CellId, CellId)>,
) -> Result<(), PatternRefusal>
    ensures goes { Goes store.old store.new }
    ensures solved { OnOk result ((ps : List TypePair) → ReadPairs store.old (reverse todo.old.items) ps → AreSolved store.old store.new round.old round.new ps) }
    ensures refused { IfErr result (λ e. (ps : List TypePair) → ReadPairs store.old (reverse todo.old.items) ps → AreRefused e round.old.units ps) }
    ensures fewer { OnOk result (round.new.units ≤ round.old.units) }
{
    'pairs: while let Some(pair) = todo.pop() {
        take(alloc, store, round, pair, todo)?;
    }
    Ok(())
}

// Whether two types begin in the same way; their parts go on the stack.
fn have_same_top(
    store: &Store,
    one: CellId,
    other: CellId,
    todo: &mut Vec<(CellId, CellId)>,
) -> Result<bool, Memory>
    ensures { IfOk result (λ same. IsResolved (cell_at store.now one.0) → IsResolved (cell_at store.now other.0) → (A B : Ty) → ReadsType store.now one.0 A → ReadsType store.now other.0 B →
        IsSplit same store.now A B (reverse todo.old.items) (reverse todo.new.items)) }
{
    match choose(store, one, other) {
        Choice::Drop => Ok(true),
        Choice::Bind(_, _) => Ok(false),
        Choice::Split => split(store, one, other, todo),
    }
}

// Whether the types of each pair on the stack are the same. A pair of types is a unit.
pub(crate) fn are_same_types(
    store: &Store,
    todo: &mut Vec<(CellId, CellId)>,
    units: &mut u64,
) -> Result<bool, PatternRefusal>
    ensures compared { IfOk result (λ same. (ps : List TypePair) → ReadPairs store.now (reverse todo.old.items) ps → AreCompared same units.old units.new ps) }
    ensures spent { IfErr result (λ e. (ps : List TypePair) → ReadPairs store.now (reverse todo.old.items) ps → IsWant e (IsComparedOver units.old ps)) }
    ensures fewer { units.new ≤ units.old }
{
    'pairs: while let Some((one, other)) = todo.pop() {
        spend(units)?;
        let one = referred(store, one);
        let other = referred(store, other);
        if !have_same_top(store, one, other, todo)? {
            return Ok(false);
        }
    }
    Ok(true)
}
