// A head-normal expression, by its head.
ghost use Rattle.std.specs.Prelude.{◌≡◌, IfOk, IfErr};
ghost use Rattle.lp_calculus.specs.Term.{Term};
ghost use Rattle.lp_calculus.specs.Convert.{Reduces};
ghost use Rattle.lp_standard.specs.Constants.{numbered};
ghost use Rattle.lp_store.specs.Reading.{Reads};
ghost use Rattle.lp_store.specs.Change.{KeepsMarks};
ghost use Rattle.lp_susp.specs.Kept.{Reduced};
ghost use Rattle.lp_goal.specs.Kinds.{IsCell};
ghost use Rattle.lp_arith.specs.Stands.{StandsExpression};
ghost use Rattle.lp_arith.specs.inner.ByOperation.{one_by, two_by, operation_by, applied_by, expression_by};
ghost use Rattle.lp_arith.specs.inner.Frames.{IsExpression};
ghost use Rattle.lp_arith.specs.inner.Refusals.{IsUnseen};

use crate::value::{ArithRefusal, Value};
use lp_base::Memory;
use lp_goal::{Spine, spine_of};
use lp_standard::Constant;
use lp_store::{Cell, CellId, Store};
use std::alloc::Global;

#[derive(Clone, Copy)]
pub(crate) enum Expression {
    Leaf(Value),
    One(Constant, CellId),
    Two(Constant, CellId, CellId),
    Other,
}

fn on_two(operation: Constant, left: CellId, right: CellId) -> Expression
    ensures { result ≡ two_by operation left right }
{
    match operation {
        Constant::Add | Constant::Subtract | Constant::Multiply => {
            Expression::Two(operation, left, right)
        }
        Constant::Divide | Constant::Remainder | Constant::Concatenate => {
            Expression::Two(operation, left, right)
        }
        _ => Expression::Other,
    }
}

fn on_one(operation: Constant, operand: CellId) -> Expression
    ensures { result ≡ one_by operation operand }
{
    match operation {
        Constant::Negate | Constant::Size => Expression::One(operation, operand),
        _ => Expression::Other,
    }
}

// An operation on these operands.
fn operation_on(operation: Constant, operands: &[CellId]) -> Expression
    ensures { result ≡ operation_by operation operands.now }
{
    match operands {
        [operand] => on_one(operation, *operand),
        [left, right] => on_two(operation, *left, *right),
        _ => Expression::Other,
    }
}

// The operation of a number on these operands.
fn applied(number: u32, operands: &[CellId]) -> Expression
    ensures { result ≡ applied_by (numbered number) operands.now }
{
    match Constant::from_number(number) {
        Some(operation) => operation_on(operation, operands),
        None => Expression::Other,
    }
}

// A head on these operands.
fn told(head: CellId, cell: Cell, operands: &[CellId]) -> Expression
    ensures { result ≡ expression_by head cell operands.now }
{
    match cell {
        Cell::Int(integer) if operands.is_empty() => Expression::Leaf(Value::Int(integer)),
        Cell::Text(_) if operands.is_empty() => Expression::Leaf(Value::Text(head)),
        Cell::Const(number, _) => applied(number, operands),
        _ => Expression::Other,
    }
}

/// Looks at a term as an expression.
pub(crate) fn expression_of(
    alloc: Global,
    store: &mut Store,
    term: CellId,
) -> Result<Expression, ArithRefusal>
    requires { IsCell store.old term }
    ensures stands { IfOk result (StandsExpression store.new) }
    ensures is { IfOk result (λ seen. (t : Term) → Reads store.old term.0 t → (x : Term) × Reduces t x × IsExpression store.new seen x) }
    ensures refused { IfErr result (λ e. (t : Term) → Reads store.old term.0 t → IsUnseen t e) }
    ensures reduced { Reduced store.old store.new }
    ensures marks { KeepsMarks store.old store.new }
{
    let spine = spine_of(alloc, store, term)?;
    let cell = store.cell(spine.head);
    Ok(told(spine.head, cell, spine.arguments(store)))
}
