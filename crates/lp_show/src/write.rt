ghost use Rattle.std.specs.Prelude.{◌≡◌, ℕ, List, None, IfSome, option_map, ◌<◌, ◌+◌, ◌*◌, ◌++◌, [], length, OnOk, codes, if◌then◌else◌, All};
ghost use Rattle.lp_term.specs.Nodes.{tree};
ghost use Rattle.lp_term.specs.Walk.{size, sizes, trees};
ghost use Rattle.lp_term.specs.Facts.{IsNoAbstraction};
ghost use Rattle.lp_calculus.specs.Term.{abs, apply};
ghost use Rattle.lp_model.specs.Shown.{Abstracted, applied, arguments_text, Entry};
ghost use Rattle.lp_show.specs.Named.{all, AreBinders, IsReady};
ghost use Rattle.lp_show.specs.Operators.{of_head, operation, within_bank, operands_size};
ghost use Rattle.lp_show.specs.Places.{placed, shape_of};
ghost use Rattle.lp_show.specs.Scene.{Scene, scene_of, abstraction_text, abstraction_piece, head_text, head_weight, piece_at, pieces};
ghost use Rattle.lp_show.specs.Spines.{IsNoApplication, IsSpineIn};
ghost use Rattle.lp_show.specs.Written.{IsIdle};
ghost use Rattle.lp_show.specs.Tasks.{Adds, AreWithin, rest, Writes, weight, task_weight, task_text, IsWithin};

use crate::binders::push_binder;
use crate::leaves::{push_constant, push_eigen, push_integer, push_string, push_variable};
use crate::names::Names;
use crate::operator::{Operands, Operator, operator_in};
use crate::place::{Place, Top};
use crate::spine::{Spine, spine_of};
use crate::task::{Task, put_bytes, put_show};
use indexmap::IndexSet;
use lp_base::Memory;
use lp_term::{Bank, TermId, TermNode};
use std::alloc::Global;

/// Where terms are shown: their bank, the names of constants, and the variables in order.
#[derive(Clone, Copy)]
pub(crate) struct Context<'a> {
    pub(crate) alloc: Global,
    pub(crate) bank: &'a Bank,
    pub(crate) names: &'a Names<'a>,
    pub(crate) seen: &'a IndexSet<u64>,
}

/// The text so far, what is still to be written, of which the last comes first, and the numbers of binders so far.
#[derive(Drop)]
pub(crate) struct Writer<'a> {
    pub(crate) out: Vec<u8>,
    pub(crate) tasks: Vec<Task<'a>>,
    pub(crate) binders: Vec<u64>,
}

impl<'a> Writer<'a> {
    /// A writer behind this text.
    pub(crate) fn new(alloc: Global, out: Vec<u8>) -> Writer<'a>
        ensures text { result.out.items ≡ out.items }
        ensures idle { (es : List Entry) → IsIdle es result }
    {
        Writer {
            out,
            tasks: Vec::new(alloc),
            binders: Vec::new(alloc),
        }
    }
}

// An opening parenthesis, and the closing one as what is still to be written, where they are wanted.
fn open(wanted: bool, out: &mut Vec<u8>, tasks: &mut Vec<Task<'_>>) -> Result<(), Memory>
    ensures text { OnOk result (out.new.items ≡ out.old.items ++ (if wanted then codes "(" else [])) }
    ensures tasks { OnOk result ((scene : Scene) → Adds scene tasks.old.items tasks.new.items (if wanted then codes ")" else []) 1) }
{
    if wanted {
        put_bytes(b")", tasks)?;
        out.extend_from_slice(b"(")?;
    }
    Ok(())
}

// The name of a binder; its body is still to be written.
fn put_body<'a>(
    context: &Context<'a>,
    body: TermId,
    depth: u64,
    writer: &mut Writer<'a>,
) -> Result<(), Memory>
    requires ready { IsReady context.now.names.now }
    requires binders { AreBinders (all context.now.names.now) writer.old.binders.items }
    requires body { body.0 < length context.now.bank.now.terms }
    requires tasks { AreWithin (scene_of context.now) writer.old.tasks.items }
    ensures binders { OnOk result (AreBinders (all context.now.names.now) writer.new.binders.items) }
    ensures written { OnOk result (Writes (scene_of context.now) writer.old.out.items writer.old.tasks.items writer.new.out.items writer.new.tasks.items (abstraction_text (scene_of context.now) depth body.0) (1 + 6 * size (tree context.now.bank.now body.0))) }
{
    if depth == u64::MAX {
        return Err(Memory);
    }
    push_binder(context.names, &mut writer.binders, depth, &mut writer.out)?;
    writer.out.extend_from_slice(b"\\ ")?;
    put_show(body, depth + 1, Place::Alone, &mut writer.tasks)?;
    Ok(())
}

// The head of a term: an index, an atom, or an abstraction that is applied.
fn put_head<'a>(
    context: &Context<'a>,
    head: TermId,
    depth: u64,
    writer: &mut Writer<'a>,
) -> Result<(), Memory>
    requires ready { IsReady context.now.names.now }
    requires binders { AreBinders (all context.now.names.now) writer.old.binders.items }
    requires head { head.0 < length context.now.bank.now.terms }
    requires alone { IsNoApplication (tree context.now.bank.now head.0) }
    requires tasks { AreWithin (scene_of context.now) writer.old.tasks.items }
    ensures binders { OnOk result (AreBinders (all context.now.names.now) writer.new.binders.items) }
    ensures written { OnOk result (Writes (scene_of context.now) writer.old.out.items writer.old.tasks.items writer.new.out.items writer.new.tasks.items (head_text (scene_of context.now) depth (tree context.now.bank.now head.0)) (head_weight (tree context.now.bank.now head.0))) }
{
    let out = &mut writer.out;
    match context.bank.term_node(head) {
        TermNode::Index(index) => {
            let binder = depth.saturating_sub(1).saturating_sub(index);
            push_binder(context.names, &mut writer.binders, binder, out)?;
        }
        TermNode::Const(constant, _) => push_constant(context.names, constant, out)?,
        TermNode::Int(number) => push_integer(number, out)?,
        TermNode::Text(bytes) => push_string(bytes, out)?,
        TermNode::Eigen(level) => push_eigen(level, out)?,
        TermNode::Logic { id, level: _ } => push_variable(context.seen, id, out)?,
        TermNode::Param(_, _) => (),
        TermNode::Abs(body) => {
            put_bytes(b")", &mut writer.tasks)?;
            out.extend_from_slice(b"(")?;
            put_body(context, body, depth, writer)?;
        }
        TermNode::App(_, _) => (),
    }
    Ok(())
}

// Arguments, each behind a space; the last one comes first in the list.
fn put_arguments(
    arguments: &Vec<TermId>,
    depth: u64,
    tasks: &mut Vec<Task<'_>>,
) -> Result<(), Memory>
    ensures { OnOk result ((scene : Scene) → All (λ t. t.0 < length scene.nodes.terms) arguments.now.items → Adds scene tasks.old.items tasks.new.items (arguments_text (pieces scene depth arguments.now.items)) (length arguments.now.items + 6 * sizes scene.nodes arguments.now.items)) }
{
    let mut at = 0;
    'arguments: while at < arguments.len() {
        put_show(arguments[at], depth, Place::Argument, tasks)?;
        put_bytes(b" ", tasks)?;
        at += 1;
    }
    Ok(())
}

fn show_abstraction<'a>(
    context: &Context<'a>,
    body: TermId,
    depth: u64,
    place: Place,
    writer: &mut Writer<'a>,
) -> Result<(), Memory>
    requires ready { IsReady context.now.names.now }
    requires binders { AreBinders (all context.now.names.now) writer.old.binders.items }
    requires body { body.0 < length context.now.bank.now.terms }
    requires tasks { AreWithin (scene_of context.now) writer.old.tasks.items }
    ensures binders { OnOk result (AreBinders (all context.now.names.now) writer.new.binders.items) }
    ensures written { OnOk result (Writes (scene_of context.now) writer.old.out.items writer.old.tasks.items writer.new.out.items writer.new.tasks.items (placed place (abstraction_piece (scene_of context.now) depth body.0)) (2 + 6 * size (tree context.now.bank.now body.0))) }
{
    open(
        place.wants_brackets(Top::Abstracted),
        &mut writer.out,
        &mut writer.tasks,
    )?;
    put_body(context, body, depth, writer)?;
    Ok(())
}

// What stands at the top of a head with these arguments.
fn top_of(arguments: &Vec<TermId>) -> Top
    ensures { (h : List ℕ) (scene : Scene) (d : ℕ) → shape_of result ≡ (applied h (pieces scene d arguments.now.items)).shape }
{
    if arguments.is_empty() {
        return Top::Name;
    }
    Top::Applied
}

// A head with its arguments behind it.
fn show_applied<'a>(
    context: &Context<'a>,
    spine: &Spine,
    depth: u64,
    place: Place,
    writer: &mut Writer<'a>,
) -> Result<(), Memory>
    requires ready { IsReady context.now.names.now }
    requires binders { AreBinders (all context.now.names.now) writer.old.binders.items }
    requires spine { IsSpineIn context.now.bank.now spine.now }
    requires tasks { AreWithin (scene_of context.now) writer.old.tasks.items }
    ensures binders { OnOk result (AreBinders (all context.now.names.now) writer.new.binders.items) }
    ensures written { OnOk result (Writes (scene_of context.now) writer.old.out.items writer.old.tasks.items writer.new.out.items writer.new.tasks.items
        (placed place (applied (head_text (scene_of context.now) depth (tree context.now.bank.now spine.now.head.0)) (pieces (scene_of context.now) depth spine.now.arguments.items)))
        (1 + length spine.now.arguments.items + 6 * sizes context.now.bank.now spine.now.arguments.items + head_weight (tree context.now.bank.now spine.now.head.0))) }
{
    open(
        place.wants_brackets(top_of(&spine.arguments)),
        &mut writer.out,
        &mut writer.tasks,
    )?;
    put_arguments(&spine.arguments, depth, &mut writer.tasks)?;
    put_head(context, spine.head, depth, writer)?;
    Ok(())
}

// An operator and its operands.
fn put_operation<'a>(
    operator: Operator<'a>,
    depth: u64,
    out: &mut Vec<u8>,
    tasks: &mut Vec<Task<'a>>,
) -> Result<(), Memory>
    ensures { OnOk result ((scene : Scene) → within_bank scene operator.entry.operands → AreWithin scene tasks.old.items →
        Writes scene out.old.items tasks.old.items out.new.items tasks.new.items (operation scene depth operator.entry).text (4 + 6 * operands_size scene operator.entry.operands)) }
{
    let left = Place::Left(operator.fixity, operator.number);
    let right = Place::Right(operator.fixity, operator.number);
    match operator.operands {
        Operands::Behind(operand) => {
            put_show(operand, depth, right, tasks)?;
            out.extend_from_slice(operator.name)?;
            out.extend_from_slice(b" ")?;
        }
        Operands::Before(operand) => {
            put_bytes(operator.name, tasks)?;
            put_bytes(b" ", tasks)?;
            put_show(operand, depth, left, tasks)?;
        }
        Operands::Both(first, second) => {
            put_show(second, depth, right, tasks)?;
            put_bytes(b" ", tasks)?;
            put_bytes(operator.name, tasks)?;
            put_bytes(b" ", tasks)?;
            put_show(first, depth, left, tasks)?;
        }
    }
    Ok(())
}

fn show_operated<'a>(
    operator: Operator<'a>,
    depth: u64,
    place: Place,
    out: &mut Vec<u8>,
    tasks: &mut Vec<Task<'a>>,
) -> Result<(), Memory>
    ensures { OnOk result ((scene : Scene) → within_bank scene operator.entry.operands → AreWithin scene tasks.old.items →
        Writes scene out.old.items tasks.old.items out.new.items tasks.new.items (placed place (operation scene depth operator.entry)) (5 + 6 * operands_size scene operator.entry.operands)) }
{
    let top = Top::Operated(operator.fixity, operator.number);
    open(place.wants_brackets(top), out, tasks)?;
    put_operation(operator, depth, out, tasks)?;
    Ok(())
}

// The operator that the head is, if it has exactly its operands.
fn operator_of<'a>(context: &Context<'a>, spine: &Spine) -> Option<Operator<'a>>
    requires ready { IsReady context.now.names.now }
    requires spine { IsSpineIn context.now.bank.now spine.now }
    ensures form { (d : ℕ) → of_head (all context.now.names.now) (tree context.now.bank.now spine.now.head.0) (pieces (scene_of context.now) d spine.now.arguments.items) ≡ option_map (operation (scene_of context.now) d) result }
    ensures size { IfSome result (λ o. operands_size (scene_of context.now) o.operands ≡ sizes context.now.bank.now spine.now.arguments.items) }
    ensures some { IfSome result (λ o. 0 < length spine.now.arguments.items) }
    ensures within { IfSome result (λ o. within_bank (scene_of context.now) o.operands) }
{
    match context.bank.term_node(spine.head) {
        TermNode::Const(constant, _) => {
            operator_in(context.names.entry(constant), spine.arguments.as_slice())
        }
        TermNode::Index(_) => None,
        TermNode::Int(_) => None,
        TermNode::Text(_) => None,
        TermNode::Eigen(_) => None,
        TermNode::Logic { id: _, level: _ } => None,
        TermNode::Param(_, _) => None,
        TermNode::Abs(_) => None,
        TermNode::App(_, _) => None,
    }
}

// The body of an abstraction on no arguments.
fn bare_body(bank: &Bank, spine: &Spine) -> Option<TermId>
    requires { IsSpineIn bank.now spine.now }
    ensures yes { IfSome result (λ body. (body.0 < length bank.now.terms) × (spine.now.arguments.items ≡ []) × (abs (tree bank.now body.0) ≡ tree bank.now spine.now.head.0)) }
    ensures no { result ≡ None → spine.now.arguments.items ≡ [] → IsNoAbstraction (tree bank.now spine.now.head.0) }
{
    if !spine.arguments.is_empty() {
        return None;
    }
    match bank.term_node(spine.head) {
        TermNode::Abs(body) => Some(body),
        TermNode::Index(_) => None,
        TermNode::Const(_, _) => None,
        TermNode::Int(_) => None,
        TermNode::Text(_) => None,
        TermNode::Eigen(_) => None,
        TermNode::Logic { id: _, level: _ } => None,
        TermNode::Param(_, _) => None,
        TermNode::App(_, _) => None,
    }
}

// A term, where it stands.
fn show<'a>(
    context: &Context<'a>,
    term: TermId,
    depth: u64,
    place: Place,
    writer: &mut Writer<'a>,
) -> Result<(), Memory>
    requires ready { IsReady context.now.names.now }
    requires binders { AreBinders (all context.now.names.now) writer.old.binders.items }
    requires term { term.0 < length context.now.bank.now.terms }
    requires tasks { AreWithin (scene_of context.now) writer.old.tasks.items }
    ensures binders { OnOk result (AreBinders (all context.now.names.now) writer.new.binders.items) }
    ensures written { OnOk result (Writes (scene_of context.now) writer.old.out.items writer.old.tasks.items writer.new.out.items writer.new.tasks.items (placed place (piece_at (scene_of context.now) depth term.0)) (6 * size (tree context.now.bank.now term.0))) }
{
    let spine = spine_of(context.alloc, context.bank, term)?;
    if let Some(body) = bare_body(context.bank, &spine) {
        show_abstraction(context, body, depth, place, writer)?;
        return Ok(());
    }
    if let Some(operator) = operator_of(context, &spine) {
        show_operated(operator, depth, place, &mut writer.out, &mut writer.tasks)?;
        return Ok(());
    }
    show_applied(context, &spine, depth, place, writer)?;
    Ok(())
}

// The next of what is still to be written.
fn step<'a>(context: &Context<'a>, task: Task<'a>, writer: &mut Writer<'a>) -> Result<(), Memory>
    requires ready { IsReady context.now.names.now }
    requires binders { AreBinders (all context.now.names.now) writer.old.binders.items }
    requires task { IsWithin (scene_of context.now) task }
    requires tasks { AreWithin (scene_of context.now) writer.old.tasks.items }
    ensures binders { OnOk result (AreBinders (all context.now.names.now) writer.new.binders.items) }
    ensures written { OnOk result (Writes (scene_of context.now) writer.old.out.items writer.old.tasks.items writer.new.out.items writer.new.tasks.items (task_text (scene_of context.now) task.entry) (task_weight (scene_of context.now) task.entry)) }
{
    match task {
        Task::Show(term, depth, place) => {
            show(context, term, depth, place, writer)?;
            Ok(())
        }
        Task::Bytes(bytes) => {
            writer.out.extend_from_slice(bytes)?;
            Ok(())
        }
    }
}

/// Writes a term, where it stands.
pub(crate) fn write_term<'a>(
    context: &Context<'a>,
    term: TermId,
    place: Place,
    writer: &mut Writer<'a>,
) -> Result<(), Memory>
    requires ready { IsReady context.now.names.now }
    requires term { term.0 < length context.now.bank.now.terms }
    requires idle { IsIdle (all context.now.names.now) writer.old }
    ensures idle { OnOk result (IsIdle (all context.now.names.now) writer.new) }
    ensures text { OnOk result (writer.new.out.items ≡ writer.old.out.items ++ placed place (piece_at (scene_of context.now) 0 term.0)) }
{
    writer.tasks.push(Task::Show(term, 0, place))?;
    'tasks: while let Some(task) = writer.tasks.pop() {
        step(context, task, writer)?;
    }
    Ok(())
}
