// The values of expressions.
ghost use Rattle.std.specs.Prelude.{◌≡◌, ◌+◌, ◌*◌, ◌++◌, ◌∷◌, [], ◌<◌, ◌≤◌, ℕ, List, length, reverse, None, IfOk, OnOk};
ghost use Rattle.lp_calculus.specs.Term.{atom, text};
ghost use Rattle.lp_standard.specs.Constants.{number as number_of, numbered};
ghost use Rattle.lp_term.specs.Nodes.{Extends, Nodes, tree};
ghost use Rattle.lp_model.specs.Values.{Value as Meant, Outcome as Told, Bytes, Number as a_number, binary, ordered, term_of as meant_term, unary};
ghost use Rattle.lp_model.specs.Pair.{Closing, closed};
ghost use Rattle.lp_pattern.specs.Turning.{IsOpenReading};
ghost use Rattle.lp_term.specs.declared.node.TermId.{TermId};
ghost use Rattle.lp_plain.specs.declared.machine.Machine.{Machine};
ghost use Rattle.lp_plain.specs.declared.arithmetic.Task.{Task as Todo};
ghost use Rattle.lp_plain.specs.declared.arithmetic.Task.TheVariants as todo;
ghost use Rattle.lp_plain.specs.Evaluated.{EvaluatesTo, GivesNumber, GivesValue, IsValueIn};
ghost use Rattle.lp_plain.specs.Forms.{order_number};
ghost use Rattle.lp_plain.specs.HeadLooks.{OnlyBank};
ghost use Rattle.lp_plain.specs.inner.Evaluating.{GoesFrom, GoesServed, IsCounted, IsExpression, IsKept, IsLast, IsOnWay, IsPut, IsStep, IsStepOn, Serves, StandsExpression, TakesTask, applied_by, cost_of, leaf_by, one_by, operation_by, two_by};

use crate::machine::Machine;
use crate::operation::{on_integer, on_integers, on_length};
use crate::unified::head_normal;
use lp_base::{Compare, Memory, RUN_LIMIT};
use lp_model::Fault;
use lp_standard::Constant;
use lp_term::{Bank, Spine, TermId, TermNode, put_integer, put_text, spine_of};
use std::alloc::Global;

/// A value. A text is known by a term.
#[derive(Clone, Copy)]
pub(crate) enum Value {
    Number(i64),
    Text(TermId),
}

/// What an evaluation comes to.
#[derive(Clone, Copy)]
pub(crate) enum Outcome {
    Is(Value),
    Faults(Fault),
    Deep,
}

#[derive(Clone, Copy)]
pub(crate) enum Task {
    Visit(TermId),
    /// The operation on the last two values, or on the last one.
    Two(Constant),
    One(Constant),
}

/// How an evaluation goes on: so many parts were looked at, or it ends.
#[derive(Clone, Copy)]
pub(crate) enum Step {
    On(u64),
    End(Outcome),
}

/// A head-normal expression.
#[derive(Clone, Copy)]
pub(crate) enum Expression {
    Leaf(Value),
    Two(Constant, TermId, TermId),
    One(Constant, TermId),
    Other,
}

fn on_two_args(operation: Constant, left: TermId, right: TermId) -> Expression
    ensures { result ≡ two_by operation left right }
{
    match operation {
        Constant::Add | Constant::Subtract | Constant::Multiply => {
            Expression::Two(operation, left, right)
        }
        Constant::Divide | Constant::Remainder | Constant::Concatenate => {
            Expression::Two(operation, left, right)
        }
        _ => Expression::Other,
    }
}

fn on_one_arg(operation: Constant, arg: TermId) -> Expression
    ensures { result ≡ one_by operation arg }
{
    match operation {
        Constant::Negate | Constant::Size => Expression::One(operation, arg),
        _ => Expression::Other,
    }
}

// An operation on these arguments.
fn operation_on(operation: Constant, args: &[TermId]) -> Expression
    ensures { result ≡ operation_by operation args.now }
{
    match args {
        [arg] => on_one_arg(operation, *arg),
        [left, right] => on_two_args(operation, *left, *right),
        _ => Expression::Other,
    }
}

// The operation of a number on these arguments.
fn applied(number: u32, args: &[TermId]) -> Expression
    ensures { result ≡ applied_by (numbered number) args.now }
{
    match Constant::from_number(number) {
        Some(operation) => operation_on(operation, args),
        None => Expression::Other,
    }
}

// A literal on these arguments.
fn leaf(value: Value, args: &[TermId]) -> Expression
    ensures { result ≡ leaf_by value args.now }
{
    match args {
        [] => Expression::Leaf(value),
        _ => Expression::Other,
    }
}

fn read_expression(alloc: Global, bank: &Bank, term: TermId) -> Result<Expression, Memory>
    ensures is { IfOk result (λ e. IsExpression bank.now e (tree bank.now term.0)) }
    ensures stands { IfOk result (λ e. term.0 < length bank.now.terms → StandsExpression (length bank.now.terms) e) }
{
    let Spine { head, args } = spine_of(alloc, bank, term)?;
    match bank.term_node(head) {
        TermNode::Int(value) => Ok(leaf(Value::Number(value), args.as_slice())),
        TermNode::Text(_) => Ok(leaf(Value::Text(head), args.as_slice())),
        TermNode::Const(number, _) => Ok(applied(number, args.as_slice())),
        _ => Ok(Expression::Other),
    }
}

// What an operation on integers gave.
fn outcome_of(given: Result<i64, Fault>) -> Outcome
    ensures { (b : Nodes) (o : Told) → GivesNumber given o → GivesValue b result o }
{
    match given {
        Ok(value) => Outcome::Is(Value::Number(value)),
        Err(fault) => Outcome::Faults(fault),
    }
}

fn add_text(bank: &Bank, part: TermId, out: &mut Vec<u8>) -> Result<(), Memory>
    ensures { OnOk result ((s : List ℕ) → tree bank.now part.0 ≡ atom (text s) → out.new.items ≡ out.old.items ++ s) }
{
    match bank.term_node(part) {
        TermNode::Text(bytes) => {
            out.extend_from_slice(bytes)?;
            Ok(())
        }
        _ => Ok(()),
    }
}

fn joined(alloc: Global, bank: &mut Bank, left: TermId, right: TermId) -> Result<TermId, Memory>
    ensures kept { Extends bank.old bank.new }
    ensures within { IfOk result (λ id. id.0 < length bank.new.terms) }
    ensures joined { IfOk result (λ id. (a b : List ℕ) → tree bank.old left.0 ≡ atom (text a) → tree bank.old right.0 ≡ atom (text b) → tree bank.new id.0 ≡ atom (text (a ++ b))) }
{
    let mut bytes = Vec::new(alloc);
    add_text(bank, left, &mut bytes)?;
    add_text(bank, right, &mut bytes)?;
    let text = put_text(bank, bytes.as_slice())?;
    Ok(text)
}

fn on_texts(
    alloc: Global,
    bank: &mut Bank,
    operation: Constant,
    left: TermId,
    right: TermId,
) -> Result<Outcome, Memory>
    ensures kept { Extends bank.old bank.new }
    ensures gives { IfOk result (λ o. (a b : List ℕ) → tree bank.old left.0 ≡ atom (text a) → tree bank.old right.0 ≡ atom (text b) → GivesValue bank.new o (binary (number_of operation) (Bytes a) (Bytes b))) }
{
    match operation {
        Constant::Concatenate => {
            let both = joined(alloc, bank, left, right)?;
            Ok(Outcome::Is(Value::Text(both)))
        }
        _ => Ok(Outcome::Faults(Fault::NotClosed)),
    }
}

// A number in front of a value.
fn with_number(operation: Constant, left: i64, right: Value) -> Outcome
    ensures { (b : Nodes) (y : Meant) → IsValueIn b right y → GivesValue b result (binary (number_of operation) (a_number left) y) }
{
    match right {
        Value::Number(other) => outcome_of(on_integers(operation, left, other)),
        Value::Text(_) => Outcome::Faults(Fault::NotClosed),
    }
}

// A text in front of a value.
fn with_text(
    alloc: Global,
    bank: &mut Bank,
    operation: Constant,
    left: TermId,
    right: Value,
) -> Result<Outcome, Memory>
    ensures kept { Extends bank.old bank.new }
    ensures gives { IfOk result (λ o. (s : List ℕ) (y : Meant) → tree bank.old left.0 ≡ atom (text s) → IsValueIn bank.old right y → GivesValue bank.new o (binary (number_of operation) (Bytes s) y)) }
{
    match right {
        Value::Number(_) => Ok(Outcome::Faults(Fault::NotClosed)),
        Value::Text(other) => {
            let outcome = on_texts(alloc, bank, operation, left, other)?;
            Ok(outcome)
        }
    }
}

fn on_two(
    alloc: Global,
    bank: &mut Bank,
    operation: Constant,
    left: Value,
    right: Value,
) -> Result<Outcome, Memory>
    ensures kept { Extends bank.old bank.new }
    ensures gives { IfOk result (λ o. (x y : Meant) → IsValueIn bank.old left x → IsValueIn bank.old right y → GivesValue bank.new o (binary (number_of operation) x y)) }
{
    match left {
        Value::Number(one) => Ok(with_number(operation, one, right)),
        Value::Text(one) => {
            let outcome = with_text(alloc, bank, operation, one, right)?;
            Ok(outcome)
        }
    }
}

fn on_text(bank: &Bank, operation: Constant, part: TermId) -> Outcome
    ensures { (s : List ℕ) → tree bank.now part.0 ≡ atom (text s) → GivesValue bank.now result (unary (number_of operation) (Bytes s)) }
{
    match bank.term_node(part) {
        TermNode::Text(bytes) => outcome_of(on_length(operation, bytes.len())),
        _ => Outcome::Faults(Fault::NotClosed),
    }
}

fn on_one(bank: &Bank, operation: Constant, value: Value) -> Outcome
    ensures { (x : Meant) → IsValueIn bank.now value x → GivesValue bank.now result (unary (number_of operation) x) }
{
    match value {
        Value::Number(a) => outcome_of(on_integer(operation, a)),
        Value::Text(part) => on_text(bank, operation, part),
    }
}

// What is left to do of an expression, or how the evaluation ends.
fn put_expression(
    expression: Expression,
    tasks: &mut Vec<Task>,
    values: &mut Vec<Value>,
) -> Result<Option<Outcome>, Memory>
    ensures { IfOk result (λ end. IsPut expression end tasks.old.items tasks.new.items values.old.items values.new.items) }
{
    match expression {
        Expression::Leaf(value) => {
            values.push(value)?;
            Ok(None)
        }
        Expression::Two(operation, left, right) => {
            tasks.push(Task::Two(operation))?;
            tasks.push(Task::Visit(right))?;
            tasks.push(Task::Visit(left))?;
            Ok(None)
        }
        Expression::One(operation, arg) => {
            tasks.push(Task::One(operation))?;
            tasks.push(Task::Visit(arg))?;
            Ok(None)
        }
        Expression::Other => Ok(Some(Outcome::Faults(Fault::NotClosed))),
    }
}

// Looks at an expression: its value, or the operands first.
fn visit(
    machine: &mut Machine,
    term: TermId,
    tasks: &mut Vec<Task>,
    values: &mut Vec<Value>,
) -> Result<Option<Outcome>, Memory>
    ensures bank { OnOk result (OnlyBank machine.old machine.new) }
    ensures takes { IfOk result (λ end. TakesTask machine.old machine.new end (todo.Visit term) tasks.old.items tasks.new.items values.old.items values.new.items) }
    ensures served { IfOk result (λ end. end ≡ None → Serves (reverse tasks.old.items) (length values.old.items + 1) → Serves (reverse tasks.new.items) (length values.new.items)) }
    ensures more { IfOk result (λ end. end ≡ None → length tasks.new.items ≤ length tasks.old.items + 3) }
{
    let Some(form) = head_normal(machine, term)? else {
        return Ok(Some(Outcome::Deep));
    };
    let expression = read_expression(machine.alloc, &machine.bank, form)?;
    let end = put_expression(expression, tasks, values)?;
    Ok(end)
}

// Keeps the value of an operation, or tells how the evaluation ends.
fn keep(outcome: Outcome, values: &mut Vec<Value>) -> Result<Option<Outcome>, Memory>
    ensures { IfOk result (λ end. IsKept outcome end values.old.items values.new.items) }
{
    match outcome {
        Outcome::Is(value) => {
            values.push(value)?;
            Ok(None)
        }
        Outcome::Faults(_) => Ok(Some(outcome)),
        Outcome::Deep => Ok(Some(outcome)),
    }
}

fn operate_on_two(
    machine: &mut Machine,
    operation: Constant,
    values: &mut Vec<Value>,
) -> Result<Option<Outcome>, Memory>
    requires { 2 ≤ length values.old.items }
    ensures bank { OnOk result (OnlyBank machine.old machine.new) }
    ensures takes { IfOk result (λ end. (ts : List Todo) → TakesTask machine.old machine.new end (todo.Two operation) ts ts values.old.items values.new.items) }
    ensures left { IfOk result (λ end. end ≡ None → length values.new.items + 1 ≡ length values.old.items) }
{
    let Some(right) = values.pop() else {
        unreachable!()
    };
    let Some(left) = values.pop() else {
        unreachable!()
    };
    let outcome = on_two(machine.alloc, &mut machine.bank, operation, left, right)?;
    let end = keep(outcome, values)?;
    Ok(end)
}

fn operate_on_one(
    machine: &mut Machine,
    operation: Constant,
    values: &mut Vec<Value>,
) -> Result<Option<Outcome>, Memory>
    requires { 1 ≤ length values.old.items }
    ensures bank { OnOk result (OnlyBank machine.old machine.new) }
    ensures takes { IfOk result (λ end. (ts : List Todo) → TakesTask machine.old machine.new end (todo.One operation) ts ts values.old.items values.new.items) }
    ensures left { IfOk result (λ end. end ≡ None → length values.new.items ≡ length values.old.items) }
{
    let Some(value) = values.pop() else {
        unreachable!()
    };
    let outcome = on_one(&machine.bank, operation, value);
    let end = keep(outcome, values)?;
    Ok(end)
}

fn take_task(
    machine: &mut Machine,
    task: Task,
    tasks: &mut Vec<Task>,
    values: &mut Vec<Value>,
) -> Result<Option<Outcome>, Memory>
    requires { Serves (task ∷ reverse tasks.old.items) (length values.old.items) }
    ensures bank { OnOk result (OnlyBank machine.old machine.new) }
    ensures takes { IfOk result (λ end. TakesTask machine.old machine.new end task tasks.old.items tasks.new.items values.old.items values.new.items) }
    ensures served { IfOk result (λ end. end ≡ None → Serves (reverse tasks.new.items) (length values.new.items)) }
    ensures more { IfOk result (λ end. end ≡ None → length tasks.new.items ≤ length tasks.old.items + 3 * cost_of task) }
{
    match task {
        Task::Visit(term) => {
            let end = visit(machine, term, tasks, values)?;
            Ok(end)
        }
        Task::Two(operation) => {
            let end = operate_on_two(machine, operation, values)?;
            Ok(end)
        }
        Task::One(operation) => {
            let end = operate_on_one(machine, operation, values)?;
            Ok(end)
        }
    }
}

// Counts a task, where it may be taken: at most a million parts are looked at.
fn counted(task: Task, visited: u64) -> Option<u64>
    ensures { IsCounted task visited result }
{
    match task {
        Task::Visit(_) => {
            if visited >= RUN_LIMIT {
                return None;
            }
            Some(visited + 1)
        }
        Task::Two(_) => Some(visited),
        Task::One(_) => Some(visited),
    }
}

// How the evaluation goes on behind a task.
fn step_of(end: Option<Outcome>, count: u64) -> Step
    ensures { IsStep end count result }
{
    match end {
        None => Step::On(count),
        Some(outcome) => Step::End(outcome),
    }
}

// Takes a task where it may be counted.
fn take_counted(
    machine: &mut Machine,
    task: Task,
    tasks: &mut Vec<Task>,
    values: &mut Vec<Value>,
    visited: u64,
) -> Result<Step, Memory>
    requires { Serves (task ∷ reverse tasks.old.items) (length values.old.items) }
    ensures bank { OnOk result (OnlyBank machine.old machine.new) }
    ensures goes { IfOk result (λ step. GoesFrom machine.old machine.new task tasks.old.items tasks.new.items values.old.items values.new.items visited step) }
    ensures served { IfOk result (λ step. GoesServed step visited (tasks.old.items ++ task ∷ []) tasks.new.items values.new.items) }
{
    match counted(task, visited) {
        None => Ok(Step::End(Outcome::Deep)),
        Some(count) => {
            let end = take_task(machine, task, tasks, values)?;
            Ok(step_of(end, count))
        }
    }
}

// The value that is left.
fn last_value(values: &mut Vec<Value>) -> Outcome
    requires { 1 ≤ length values.old.items }
    ensures { IsLast values.old.items result }
{
    let Some(last) = values.pop() else {
        unreachable!()
    };
    Outcome::Is(last)
}

// Takes the next task. So many parts were looked at.
fn go_on(
    machine: &mut Machine,
    tasks: &mut Vec<Task>,
    values: &mut Vec<Value>,
    visited: u64,
) -> Result<Step, Memory>
    requires { Serves (reverse tasks.old.items) (length values.old.items) }
    ensures bank { OnOk result (OnlyBank machine.old machine.new) }
    ensures served { IfOk result (λ step. GoesServed step visited tasks.old.items tasks.new.items values.new.items) }
    ensures goes { IfOk result (λ step. (m : Machine) (term : TermId) → OnlyBank m machine.old → IsOnWay m machine.old term tasks.old.items values.old.items visited → IsStepOn step m machine.new term tasks.new.items values.new.items) }
{
    let Some(task) = tasks.pop() else {
        let outcome = last_value(values);
        return Ok(Step::End(outcome));
    };
    let step = take_counted(machine, task, tasks, values, visited)?;
    Ok(step)
}

/// Evaluates an expression, operands left to right before the operation.
pub(crate) fn evaluate(machine: &mut Machine, term: TermId) -> Result<Outcome, Memory>
    ensures bank { OnOk result (OnlyBank machine.old machine.new) }
    ensures value { IfOk result (λ outcome. term.0 < length machine.old.bank.terms → (z : Closing) → IsOpenReading machine.old.bank machine.old.bindings machine.old.branch.next z → EvaluatesTo machine.new.bank outcome (closed z (tree machine.old.bank term.0))) }
{
    let mut tasks = Vec::new(machine.alloc);
    let mut values = Vec::new(machine.alloc);
    let mut visited = 0u64;
    tasks.push(Task::Visit(term))?;
    'tasks: loop {
        match go_on(machine, &mut tasks, &mut values, visited)? {
            Step::On(count) => visited = count,
            Step::End(outcome) => return Ok(outcome),
        }
    }
}

/// The term of a value.
pub(crate) fn term_of(bank: &mut Bank, value: Value) -> Result<TermId, Memory>
    ensures kept { Extends bank.old bank.new }
    ensures within { IfOk result (λ id. (m : Meant) → IsValueIn bank.old value m → id.0 < length bank.new.terms) }
    ensures tree { IfOk result (λ id. (m : Meant) → IsValueIn bank.old value m → tree bank.new id.0 ≡ meant_term m) }
{
    match value {
        Value::Number(number) => {
            let id = put_integer(bank, number)?;
            Ok(id)
        }
        Value::Text(text) => Ok(text),
    }
}

/// Whether the order holds.
pub(crate) fn holds(order: Compare, left: i64, right: i64) -> bool
    ensures { result ≡ ordered (order_number order) left right }
{
    match order {
        Compare::Less => left < right,
        Compare::Greater => left > right,
        Compare::AtMost => left <= right,
        Compare::AtLeast => left >= right,
    }
}
