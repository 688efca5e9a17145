// The steps of a term, those of its parts before its own.
ghost use Rattle.std.specs.Prelude.{◌≡◌, ℕ, List, [], ◌≤◌, ◌-◌, ◌+◌, ◌*◌, length, map, reverse, slice_get, sum_by, take, OnOk, IfOk};
ghost use Rattle.lp_calculus.specs.Types.{Ty};
ghost use Rattle.lp_term.specs.Nodes.{Nodes, tree};
ghost use Rattle.lp_term.specs.Walk.{size};
ghost use Rattle.lp_gen.specs.inner.Reading.{read};
ghost use Rattle.lp_gen.specs.inner.Sizes.{term_task, term_work};
ghost use Rattle.lp_gen.specs.Steps.{level_listed, level_in, index_listed, index_type, constant_function, head_type, listed};
ghost use Rattle.lp_gen.specs.inner.Listing.{plain_step, around_of, node_listed, read_function};
ghost use Rattle.lp_gen.specs.inner.Tasks.{Adds, Course, course, act, done};
ghost use Rattle.lp_gen.specs.declared.listing.Task.TheVariants as on;

use crate::environment::Environment;
use crate::standard::{Function, constant_type};
use crate::tables::Tables;
use crate::term_steps::TermStep;
use crate::types::TypeView;
use lp_base::Memory;
use lp_term::{Bank, Spine, TermId, TermNode, spine_of};
use std::alloc::Global;

// The types of the indices that are bound in the term at work, the outermost first, and its steps so far.
#[derive(Drop)]
struct Lists<'a> {
    bound: Vec<TypeView>,
    steps: Vec<TermStep<'a>>,
}

// What is still to be done for a term, the next one last. The arguments of a function wait, the last one first; an `Abstract` names the type of its index.
#[derive(Drop)]
enum Task {
    Visit(TermId, TypeView),
    Args(Vec<TermId>, Function),
    Apply(usize),
    Abstract(TypeView),
}

// The type of a bound index, the innermost first.
fn bound_type(bound: &[TypeView], index: u64) -> Option<TypeView>
    ensures { result ≡ slice_get (reverse bound.now) index }
{
    let depth = bound.len() as u64;
    if index >= depth {
        return None;
    }
    Some(bound[(depth - index - 1) as usize])
}

// A variable of this index, which is made if it is not yet.
fn variable<'a>(
    environment: &mut Environment<'_>,
    index: u64,
    steps: &mut Vec<TermStep<'a>>,
) -> Result<(), Memory>
    ensures { OnOk result ((b : Nodes) → Adds b environment.old environment.new steps.old.items steps.new.items (level_listed (around_of b environment.old) (level_in (around_of b environment.old) index))) }
{
    let Some(level) = environment.level(index) else {
        steps.push(TermStep::Register(0))?;
        return Ok(());
    };
    let Some(variable) = environment.at(level) else {
        steps.push(TermStep::Register(0))?;
        return Ok(());
    };
    if variable.is_set {
        steps.push(TermStep::Register(variable.register))?;
        return Ok(());
    }
    steps.push(TermStep::New(variable.register, variable.of))?;
    environment.set(level);
    steps.push(TermStep::Register(variable.register))?;
    Ok(())
}

fn list_index<'a>(
    environment: &mut Environment<'_>,
    bound: &[TypeView],
    index: u64,
    steps: &mut Vec<TermStep<'a>>,
) -> Result<(), Memory>
    ensures { OnOk result ((b : Nodes) → Adds b environment.old environment.new steps.old.items steps.new.items (index_listed (map (read b) (reverse bound.now)) (around_of b environment.old) index)) }
{
    match bound_type(bound, index) {
        Some(of) => {
            steps.push(TermStep::Index(index, of))?;
            Ok(())
        }
        None => {
            let depth = bound.len() as u64;
            variable(environment, index.saturating_sub(depth), steps)?;
            Ok(())
        }
    }
}

fn type_of_index(environment: &Environment<'_>, bound: &[TypeView], index: u64) -> TypeView
    ensures { (b : Nodes) → read b result ≡ index_type (map (read b) (reverse bound.now)) (around_of b environment.now) index }
{
    if let Some(of) = bound_type(bound, index) {
        return of;
    }
    let Some(level) = environment.level(index.saturating_sub(bound.len() as u64)) else {
        return TypeView::Proposition;
    };
    match environment.at(level) {
        Some(variable) => TypeView::Of(variable.of, None),
        None => TypeView::Proposition,
    }
}

/// What is known of the type of a head, under indices of these types.
pub(crate) fn type_of_head(
    tables: Tables<'_>,
    environment: &Environment<'_>,
    bound: &[TypeView],
    head: TermId,
) -> Function
    ensures { read_function tables.entry.bank.now result ≡ head_type (constant_function tables.entry.bank.now tables.entry.constants.now) (map (read tables.entry.bank.now) (reverse bound.now)) (around_of tables.entry.bank.now environment.now) (tree tables.entry.bank.now head.0) }
{
    match tables.bank.term_node(head) {
        TermNode::Index(index) => Function::Of(type_of_index(environment, bound, index)),
        _ => constant_type(tables.bank, tables.constants, head),
    }
}

// A term without parts.
fn leaf<'a>(
    environment: &mut Environment<'_>,
    lists: &mut Lists<'a>,
    node: TermNode<'a>,
) -> Result<(), Memory>
    ensures bound { OnOk result (lists.new.bound.items ≡ lists.old.bound.items) }
    ensures adds { OnOk result ((b : Nodes) → Adds b environment.old environment.new lists.old.steps.items lists.new.steps.items (node_listed b (map (read b) (reverse lists.old.bound.items)) (around_of b environment.old) node.entry)) }
{
    match node {
        TermNode::Index(index) => {
            list_index(environment, lists.bound.as_slice(), index, &mut lists.steps)?;
            Ok(())
        }
        TermNode::Const(number, types) => {
            lists.steps.push(TermStep::Constant(number, types))?;
            Ok(())
        }
        TermNode::Int(value) => {
            lists.steps.push(TermStep::Integer(value))?;
            Ok(())
        }
        TermNode::Text(bytes) => {
            lists.steps.push(TermStep::Text(bytes))?;
            Ok(())
        }
        _ => {
            list_index(environment, lists.bound.as_slice(), 0, &mut lists.steps)?;
            Ok(())
        }
    }
}

// Looks at a term, whose parts come first: of an application its head and its arguments in order.
fn visit<'a>(
    alloc: Global,
    tables: Tables<'a>,
    environment: &mut Environment<'_>,
    lists: &mut Lists<'a>,
    term: TermId,
    of: TypeView,
    work: &mut Vec<Task>,
) -> Result<(), Memory>
    ensures less { OnOk result (term_work tables.entry.bank.now work.new.items + 1 ≤ term_work tables.entry.bank.now work.old.items + 4 * size (tree tables.entry.bank.now term.0)) }
    ensures acts { OnOk result (done (constant_function tables.entry.bank.now tables.entry.constants.now) tables.entry.bank.now work.new.items (course tables.entry.bank.now environment.new lists.new) ≡ done (constant_function tables.entry.bank.now tables.entry.constants.now) tables.entry.bank.now work.old.items (act (constant_function tables.entry.bank.now tables.entry.constants.now) tables.entry.bank.now (on.Visit term of) (course tables.entry.bank.now environment.old lists.old))) }
{
    match tables.bank.term_node(term) {
        TermNode::Abs(body) => {
            let (from, to) = of.sides(tables.bank);
            lists.bound.push(from)?;
            work.push(Task::Abstract(from))?;
            work.push(Task::Visit(body, to))?;
            Ok(())
        }
        TermNode::App(_, _) => {
            let Spine { head, mut args } = spine_of(alloc, tables.bank, term)?;
            args.reverse();
            let function = type_of_head(tables, environment, lists.bound.as_slice(), head);
            work.push(Task::Apply(args.len()))?;
            work.push(Task::Args(args, function))?;
            work.push(Task::Visit(head, TypeView::Proposition))?;
            Ok(())
        }
        node => {
            leaf(environment, lists, node)?;
            Ok(())
        }
    }
}

// The arguments of a function one by one.
fn visit_args(
    bank: &Bank,
    mut args: Vec<TermId>,
    function: Function,
    work: &mut Vec<Task>,
) -> Result<(), Memory>
    ensures less { OnOk result (term_work bank.now work.new.items ≤ term_work bank.now work.old.items + sum_by (λ t. 1 + 4 * size (tree bank.now t.0)) args.items) }
    ensures acts { OnOk result ((K : ℕ → List Ty → Ty) (w : Course) → done K bank.now work.new.items w ≡ done K bank.now work.old.items (act K bank.now (on.Args args function) w)) }
{
    if let Some(first) = args.pop() {
        let (of, left) = function.next(bank);
        work.push(Task::Args(args, left))?;
        work.push(Task::Visit(first, of))?;
    }
    Ok(())
}

// The innermost index is bound no more.
fn leave(bound: &mut Vec<TypeView>)
    ensures { bound.new.items ≡ take (length bound.old.items - 1) bound.old.items }
{
    let outer = bound.len().saturating_sub(1);
    bound.truncate(outer);
}

// Does one task.
fn take_up<'a>(
    alloc: Global,
    tables: Tables<'a>,
    environment: &mut Environment<'_>,
    lists: &mut Lists<'a>,
    task: Task,
    work: &mut Vec<Task>,
) -> Result<(), Memory>
    ensures less { OnOk result (term_work tables.entry.bank.now work.new.items + 1 ≤ term_work tables.entry.bank.now work.old.items + term_task tables.entry.bank.now task) }
    ensures acts { OnOk result (done (constant_function tables.entry.bank.now tables.entry.constants.now) tables.entry.bank.now work.new.items (course tables.entry.bank.now environment.new lists.new) ≡ done (constant_function tables.entry.bank.now tables.entry.constants.now) tables.entry.bank.now work.old.items (act (constant_function tables.entry.bank.now tables.entry.constants.now) tables.entry.bank.now task (course tables.entry.bank.now environment.old lists.old))) }
{
    match task {
        Task::Visit(part, of) => {
            visit(alloc, tables, environment, lists, part, of, work)?;
            Ok(())
        }
        Task::Args(args, function) => {
            visit_args(tables.bank, args, function, work)?;
            Ok(())
        }
        Task::Apply(count) => {
            lists.steps.push(TermStep::Apply(count))?;
            Ok(())
        }
        Task::Abstract(bound) => {
            leave(&mut lists.bound);
            lists.steps.push(TermStep::Abstract(bound))?;
            Ok(())
        }
    }
}

/// The steps of a term of this type.
pub(crate) fn list_steps<'a>(
    alloc: Global,
    tables: Tables<'a>,
    environment: &mut Environment<'_>,
    term: TermId,
    of: TypeView,
) -> Result<Vec<TermStep<'a>>, Memory>
    ensures { IfOk result (λ steps. Adds tables.entry.bank.now environment.old environment.new [] steps.items (listed (constant_function tables.entry.bank.now tables.entry.constants.now) [] (around_of tables.entry.bank.now environment.old) (read tables.entry.bank.now of) (tree tables.entry.bank.now term.0))) }
{
    let mut lists = Lists {
        bound: Vec::new(alloc),
        steps: Vec::new(alloc),
    };
    let mut work = Vec::new(alloc);
    work.push(Task::Visit(term, of))?;
    'terms: while let Some(task) = work.pop() {
        take_up(alloc, tables, environment, &mut lists, task, &mut work)?;
    }
    Ok(lists.steps)
}
