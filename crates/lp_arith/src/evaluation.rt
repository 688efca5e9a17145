// The evaluation of an expression, operands left to right before the operation.
#![tactic(auto, using(lp_susp::proofs::Keeping::grows_on, lp_susp::proofs::Keeping::grows_same, lp_susp::proofs::Keeping::keeps_on, lp_susp::proofs::Keeping::keeps_same, lp_susp::proofs::Keeping::keeps_of, lp_susp::proofs::Keeping::reduced_of, lp_susp::proofs::Keeping::reduced_on, lp_susp::proofs::Keeping::reduced_same, lp_susp::proofs::Chains::marks_on))]

ghost use Rattle.std.specs.Prelude.{◌≡◌, ◌++◌, ◌∷◌, ◌+◌, ◌<◌, ◌≤◌, ℕ, List, length, reverse, suc, All, IfOk, IfErr, OnOk};
ghost use Rattle.lp_calculus.specs.Term.{Term, atom, text};
ghost use Rattle.lp_standard.specs.Constants.{number};
ghost use Rattle.lp_model.specs.Values as model;
ghost use Rattle.lp_model.specs.Values.{HasValue, binary, unary};
ghost use Rattle.lp_store.specs.Reading.{Reads};
ghost use Rattle.lp_store.specs.Change.{KeepsMarks};
ghost use Rattle.lp_susp.specs.Kept.{Grows, Keeps, Reduced};
ghost use Rattle.lp_goal.specs.Kinds.{IsCell};
ghost use Rattle.lp_arith.specs.Meaning.{IsValueIn, GivesValue, IsRefused};
ghost use Rattle.lp_arith.specs.Stands.{StandsValue, StandsAround, StandsState};
ghost use Rattle.lp_arith.specs.inner.Frames.{IsAt, weight, weights};

use crate::expression::{Expression, expression_of};
use crate::operation::{on_integer, on_integers, on_length};
use crate::value::{ArithRefusal, Value};
use lp_base::{Memory, RUN_LIMIT};
use lp_standard::Constant;
use lp_store::{Cell, CellId, Store};
use lp_susp::expose;
use std::alloc::Global;

// What stands around the part that is evaluated: an operation on it alone, one whose right operand follows, or one whose left value is known.
#[derive(Clone, Copy)]
pub(crate) enum Around {
    One(Constant),
    Left(Constant, CellId),
    Right(Constant, Value),
}

// The part that is evaluated, or its value.
#[derive(Clone, Copy)]
pub(crate) enum State {
    Visit(CellId),
    Known(Value),
}

// Puts the bytes of a string behind others.
fn add_text(alloc: Global, store: &mut Store, cell: CellId, out: &mut Vec<u8>) -> Result<(), Memory>
    requires { IsCell store.old cell }
    ensures added { OnOk result ((s : List ℕ) → Reads store.old cell.0 (atom (text s)) → out.new.items ≡ out.old.items ++ s) }
    ensures kept { Keeps store.old store.new }
    ensures marks { KeepsMarks store.old store.new }
{
    let at = expose(alloc, store, cell)?;
    let Cell::Text(bytes) = store.cell(at) else {
        return Ok(());
    };
    out.extend_from_slice(store.bytes(bytes))?;
    Ok(())
}

// One string behind another.
fn joined(
    alloc: Global,
    store: &mut Store,
    left: CellId,
    right: CellId,
) -> Result<CellId, ArithRefusal>
    requires left { IsCell store.old left }
    requires right { IsCell store.old right }
    ensures cell { IfOk result (IsCell store.new) }
    ensures reads { IfOk result (λ id. (s t : List ℕ) → Reads store.old left.0 (atom (text s)) → Reads store.old right.0 (atom (text t)) → Reads store.new id.0 (atom (text (s ++ t)))) }
    ensures refused { IfErr result (λ e. e ≡ ArithRefusal.Memory) }
    ensures kept { Keeps store.old store.new }
    ensures marks { KeepsMarks store.old store.new }
{
    let mut bytes = Vec::new(alloc);
    add_text(alloc, store, left, &mut bytes)?;
    add_text(alloc, store, right, &mut bytes)?;
    let span = store.text(bytes.as_slice())?;
    let id = store.push(Cell::Text(span))?;
    Ok(id)
}

// How many bytes a string has.
fn length_of(alloc: Global, store: &mut Store, cell: CellId) -> Result<usize, Memory>
    requires { IsCell store.old cell }
    ensures count { IfOk result (λ count. (s : List ℕ) → Reads store.old cell.0 (atom (text s)) → length s ≡ count) }
    ensures kept { Keeps store.old store.new }
    ensures marks { KeepsMarks store.old store.new }
{
    let at = expose(alloc, store, cell)?;
    let Cell::Text(bytes) = store.cell(at) else {
        return Ok(0);
    };
    Ok(store.bytes(bytes).len())
}

fn on_strings(
    alloc: Global,
    store: &mut Store,
    operation: Constant,
    left: CellId,
    right: CellId,
) -> Result<Value, ArithRefusal>
    requires left { IsCell store.old left }
    requires right { IsCell store.old right }
    ensures value { IfOk result (StandsValue store.new) }
    ensures gives { (s t : List ℕ) → Reads store.old left.0 (atom (text s)) → Reads store.old right.0 (atom (text t)) → GivesValue store.new result (binary (number operation) (model.Bytes s) (model.Bytes t)) }
    ensures kept { Keeps store.old store.new }
    ensures marks { KeepsMarks store.old store.new }
{
    match operation {
        Constant::Concatenate => {
            let span = joined(alloc, store, left, right)?;
            Ok(Value::Text(span))
        }
        _ => Err(ArithRefusal::NotClosed),
    }
}

fn on_two(
    alloc: Global,
    store: &mut Store,
    operation: Constant,
    left: Value,
    right: Value,
) -> Result<Value, ArithRefusal>
    requires left { StandsValue store.old left }
    requires right { StandsValue store.old right }
    ensures value { IfOk result (StandsValue store.new) }
    ensures gives { (m n : model.Value) → IsValueIn store.old left m → IsValueIn store.old right n → GivesValue store.new result (binary (number operation) m n) }
    ensures kept { Keeps store.old store.new }
    ensures marks { KeepsMarks store.old store.new }
{
    match left {
        Value::Int(one) => match right {
            Value::Int(other) => {
                let sum = on_integers(operation, one, other)?;
                Ok(Value::Int(sum))
            }
            Value::Text(_) => Err(ArithRefusal::NotClosed),
        },
        Value::Text(one) => match right {
            Value::Int(_) => Err(ArithRefusal::NotClosed),
            Value::Text(other) => on_strings(alloc, store, operation, one, other),
        },
    }
}

fn on_one(
    alloc: Global,
    store: &mut Store,
    operation: Constant,
    operand: Value,
) -> Result<Value, ArithRefusal>
    requires { StandsValue store.old operand }
    ensures value { IfOk result (StandsValue store.new) }
    ensures gives { (m : model.Value) → IsValueIn store.old operand m → GivesValue store.new result (unary (number operation) m) }
    ensures kept { Keeps store.old store.new }
    ensures marks { KeepsMarks store.old store.new }
{
    match operand {
        Value::Int(one) => {
            let negative = on_integer(operation, one)?;
            Ok(Value::Int(negative))
        }
        Value::Text(cell) => {
            let count = length_of(alloc, store, cell)?;
            let size = on_length(operation, count)?;
            Ok(Value::Int(size))
        }
    }
}

// Looks at an expression: its value, or its first operand.
fn enter(
    alloc: Global,
    store: &mut Store,
    around: &mut Vec<Around>,
    term: CellId,
) -> Result<State, ArithRefusal>
    requires term { IsCell store.old term }
    requires around { All (StandsAround store.old) around.old.items }
    ensures state { IfOk result (StandsState store.new) }
    ensures around { OnOk result (All (StandsAround store.new) around.new.items) }
    ensures weight { OnOk result (weights (reverse around.new.items) ≤ 2 + weights (reverse around.old.items)) }
    ensures at { IfOk result (λ state. (n : ℕ) (t : Term) → IsAt store.old (reverse around.old.items) (State.Visit term) n t → IsAt store.new (reverse around.new.items) state (suc n) t) }
    ensures refused { IfErr result (λ e. (n : ℕ) (t : Term) → IsAt store.old (reverse around.old.items) (State.Visit term) n t → IsRefused t e) }
    ensures reduced { Reduced store.old store.new }
    ensures marks { KeepsMarks store.old store.new }
{
    match expression_of(alloc, store, term)? {
        Expression::Leaf(value) => Ok(State::Known(value)),
        Expression::One(operation, operand) => {
            around.push(Around::One(operation))?;
            Ok(State::Visit(operand))
        }
        Expression::Two(operation, left, right) => {
            around.push(Around::Left(operation, right))?;
            Ok(State::Visit(left))
        }
        Expression::Other => Err(ArithRefusal::NotClosed),
    }
}

// Goes on behind the value of a part.
fn leave(
    alloc: Global,
    store: &mut Store,
    around: &mut Vec<Around>,
    innermost: Around,
    value: Value,
) -> Result<State, ArithRefusal>
    requires innermost { StandsAround store.old innermost }
    requires value { StandsValue store.old value }
    requires around { All (StandsAround store.old) around.old.items }
    ensures state { IfOk result (StandsState store.new) }
    ensures around { OnOk result (All (StandsAround store.new) around.new.items) }
    ensures weight { OnOk result (weights (reverse around.new.items) < weight innermost + weights (reverse around.old.items)) }
    ensures at { IfOk result (λ state. (n : ℕ) (t : Term) → IsAt store.old (innermost ∷ reverse around.old.items) (State.Known value) n t → IsAt store.new (reverse around.new.items) state n t) }
    ensures refused { IfErr result (λ e. (n : ℕ) (t : Term) → IsAt store.old (innermost ∷ reverse around.old.items) (State.Known value) n t → IsRefused t e) }
    ensures kept { Keeps store.old store.new }
    ensures marks { KeepsMarks store.old store.new }
{
    match innermost {
        Around::One(operation) => {
            let known = on_one(alloc, store, operation, value)?;
            Ok(State::Known(known))
        }
        Around::Left(operation, right) => {
            around.push(Around::Right(operation, value))?;
            Ok(State::Visit(right))
        }
        Around::Right(operation, left) => {
            let known = on_two(alloc, store, operation, left, value)?;
            Ok(State::Known(known))
        }
    }
}

/// The value of an expression.
///
/// # Errors
/// The first fault, operands left to right before their operation; `Deep` where more than `RUN_LIMIT` nodes are visited, or where head reduction of one takes
/// more than as many steps.
pub fn evaluate(alloc: Global, store: &mut Store, cell: CellId) -> Result<Value, ArithRefusal>
    requires { IsCell store.old cell }
    ensures value { IfOk result (StandsValue store.new) }
    ensures is { IfOk result (λ value. (t : Term) → Reads store.old cell.0 t → (m : model.Value) × IsValueIn store.new value m × HasValue t m) }
    ensures refused { IfErr result (λ e. (t : Term) → Reads store.old cell.0 t → IsRefused t e) }
    ensures grows { Grows store.old store.new }
    ensures reduced { Reduced store.old store.new }
    ensures marks { KeepsMarks store.old store.new }
{
    let mut around = Vec::new(alloc);
    let mut state = State::Visit(cell);
    let mut left = RUN_LIMIT;
    'parts: loop {
        match state {
            State::Visit(term) => {
                if left == 0 {
                    return Err(ArithRefusal::Deep);
                }
                left -= 1;
                state = enter(alloc, store, &mut around, term)?;
                continue;
            }
            State::Known(value) => {
                let Some(innermost) = around.pop() else {
                    return Ok(value);
                };
                state = leave(alloc, store, &mut around, innermost, value)?;
                continue;
            }
        }
    }
}
