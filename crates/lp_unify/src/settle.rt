// What the variable of a side becomes: the beta-normal form of the other side, its patterns standing on the eigenconstants themselves,
// with the side's eigenconstants abstracted. A part that stays as it is keeps its cell.
ghost use Rattle.std.specs.Prelude.{◌≡◌, ℕ, ◌<◌, length, All, IfOk, OnOk, true};
ghost use Rattle.lp_store.specs.Contents.{Contents, cell_at};
ghost use Rattle.lp_unify.specs.Frames.{Stays};
ghost use Rattle.lp_unify.specs.Inside.{IsApart, IsSettling, IsTaskFor, IsUnbound};

use crate::binding::{
    is_unbound, put_abstraction, put_abstractions, put_application, put_eigen, put_index,
};
use crate::cells::{argument_at, arguments_of, read, referred};
use crate::fault::PatternRefusal;
use crate::look::{Head, Seen, look};
use crate::opened::Opened;
use crate::patterns::pattern_of;
use crate::side::Side;
use crate::types::are_apart;
use lp_base::Memory;
use lp_store::{Cell, CellId, Store};
use std::alloc::Global;

// What is left to do: to visit a part, or to put a node together from the results behind it.
#[derive(Clone, Copy)]
enum Task {
    Visit(CellId, Opened),
    // The abstraction as it stands.
    Abstract(CellId),
    // The application as it stands, the head that it has then, and how many arguments it has.
    Apply(CellId, CellId, usize),
}

#[derive(Drop)]
struct Work {
    tasks: Vec<Task>,
    made: Vec<CellId>,
}

// The index of the abstraction that stands for an eigenconstant: one that is open, or one that the side makes.
fn index_of(side: &Side, opened: Opened, eigen: u64) -> Result<Option<u64>, Memory> {
    if let Some(index) = opened.index(eigen) {
        return Ok(Some(index));
    }
    let Some(out) = side.abstraction_of(eigen) else {
        return Ok(None);
    };
    if out > u64::MAX - opened.depth {
        return Err(Memory);
    }
    Ok(Some(opened.depth + out))
}

// Whether nothing leads from a head to the side's variable: it is another one, and the types of a constant are types.
fn is_apart(alloc: Global, store: &Store, side: &Side, head: CellId) -> Result<bool, PatternRefusal>
    ensures { IfOk result (λ is. is ≡ true → IsApart store.now side.now.variable.0 head) }
{
    if !store.has(head) || head.0 == side.variable.0 {
        return Ok(false);
    }
    match store.cell(head) {
        Cell::Const(_, types) => {
            let is_apart = are_apart(alloc, store, side.variable, types)?;
            Ok(is_apart)
        }
        Cell::Int(_) => Ok(true),
        Cell::Text(_) => Ok(true),
        Cell::Eigen(_) => Ok(true),
        Cell::Logic(_) => Ok(true),
        Cell::Index(_) => Ok(true),
        _ => Ok(false),
    }
}

// A head that is not apart from the side's variable is in no value of it.
fn keep_apart(alloc: Global, store: &Store, side: &Side, head: CellId) -> Result<(), PatternRefusal>
    ensures { OnOk result (IsApart store.now side.now.variable.0 head) }
{
    if is_apart(alloc, store, side, head)? {
        return Ok(());
    }
    Err(PatternRefusal::Fails)
}

// Whether a cell is already what stands for an eigenconstant, of which this is the index.
fn stands(store: &Store, side: &Side, cell: CellId, index: Option<u64>, eigen: u64) -> bool
    ensures { result ≡ true → IsApart store.now side.now.variable.0 cell }
{
    if !store.has(cell) || cell.0 == side.variable.0 {
        return false;
    }
    match store.cell(cell) {
        Cell::Index(place) => index == Some(place),
        Cell::Eigen(k) => index.is_none() && k == eigen,
        _ => false,
    }
}

// What stands for an eigenconstant, which is the old cell where that is it already.
fn put_stand_in(
    store: &mut Store,
    side: &Side,
    opened: Opened,
    eigen: u64,
    old: CellId,
) -> Result<CellId, Memory>
    requires { side.now.variable.0 < length store.old.cells }
    ensures stays { Stays store.old store.new }
    ensures apart { IfOk result (IsApart store.new side.now.variable.0) }
{
    let index = index_of(side, opened, eigen)?;
    let at = referred(store, old);
    if stands(store, side, at, index, eigen) {
        return Ok(at);
    }
    match index {
        Some(index) => put_index(store, index),
        None => put_eigen(store, eigen),
    }
}

// A rigid head, which is another one where it is an eigenconstant for which an abstraction stands.
fn head_in(store: &mut Store, side: &Side, opened: Opened, head: CellId) -> Result<CellId, Memory>
    requires { side.now.variable.0 < length store.old.cells }
    ensures { Stays store.old store.new }
{
    match read(store, head) {
        Cell::Eigen(eigen) => put_stand_in(store, side, opened, eigen, head),
        _ => Ok(head),
    }
}

// Whether a cell refers to another, from which nothing leads to the side's variable.
fn refers_to(store: &Store, side: &Side, cell: CellId, other: CellId) -> bool
    requires unbound { IsUnbound (cell_at store.now side.now.variable.0) }
    requires other { IsApart store.now side.now.variable.0 other }
    ensures { result ≡ true → IsApart store.now side.now.variable.0 cell }
{
    if !store.has(cell) {
        return false;
    }
    referred(store, cell).0 == other.0
}

// Whether cells refer to others.
fn are_same(store: &Store, side: &Side, cells: &[CellId], others: &[CellId]) -> bool
    requires unbound { IsUnbound (cell_at store.now side.now.variable.0) }
    requires others { All (IsApart store.now side.now.variable.0) others.now }
    ensures { result ≡ true → All (IsApart store.now side.now.variable.0) cells.now }
{
    if cells.len() != others.len() {
        return false;
    }
    for place in 0..cells.len() {
        if !refers_to(store, side, cells[place], others[place]) {
            return false;
        }
    }
    true
}

// Whether the cell is the head on the arguments.
fn is_applied(store: &Store, side: &Side, old: CellId, head: CellId, arguments: &[CellId]) -> bool
    requires head { IsApart store.now side.now.variable.0 head }
    requires arguments { All (IsApart store.now side.now.variable.0) arguments.now }
    ensures { result ≡ true → IsApart store.now side.now.variable.0 old }
{
    if !store.has(old) || !is_unbound(store, side.variable) {
        return false;
    }
    let Cell::App(top, list) = store.cell(old) else {
        return false;
    };
    if !refers_to(store, side, top, head) {
        return false;
    }
    are_same(store, side, store.items(list), arguments)
}

// The head on the arguments, which is the old cell where that is it already.
fn put_on(
    store: &mut Store,
    side: &Side,
    old: CellId,
    head: CellId,
    arguments: &[CellId],
) -> Result<CellId, Memory>
    requires variable { side.now.variable.0 < length store.old.cells }
    requires head { IsApart store.old side.now.variable.0 head }
    requires arguments { All (IsApart store.old side.now.variable.0) arguments.now }
    ensures stays { Stays store.old store.new }
    ensures apart { IfOk result (IsApart store.new side.now.variable.0) }
{
    if is_applied(store, side, old, head, arguments) {
        return Ok(old);
    }
    put_application(store, head, arguments)
}

// Parts that are to be visited, the first of them before the others.
fn push_visits(cells: &[CellId], opened: Opened, tasks: &mut Vec<Task>) -> Result<(), Memory>
    ensures { OnOk result ((s : Contents) → (x : ℕ) → All (IsTaskFor s x) tasks.old.items → All (IsTaskFor s x) tasks.new.items) }
{
    for done in 0..cells.len() {
        tasks.push(Task::Visit(cells[cells.len() - 1 - done], opened))?;
    }
    Ok(())
}

// The head, or the task of putting it on what its arguments become.
fn push_application(
    store: &Store,
    side: &Side,
    work: &mut Work,
    opened: Opened,
    whole: CellId,
    head: CellId,
) -> Result<(), Memory>
    requires head { IsApart store.now side.now.variable.0 head }
    requires work { IsSettling store.now side.now.variable.0 work.old.tasks.items work.old.made.items }
    ensures { OnOk result (IsSettling store.now side.now.variable.0 work.new.tasks.items work.new.made.items) }
{
    let Some(list) = arguments_of(store, whole) else {
        work.made.push(head)?;
        return Ok(());
    };
    let cells = store.items(list);
    work.tasks.push(Task::Apply(whole, head, cells.len()))?;
    push_visits(cells, opened, &mut work.tasks)?;
    Ok(())
}

// What stands for the eigenconstants to which arguments come.
fn put_stand_ins(
    alloc: Global,
    store: &mut Store,
    side: &Side,
    opened: Opened,
    whole: CellId,
    eigens: &[u64],
) -> Result<Vec<CellId>, Memory>
    requires { side.now.variable.0 < length store.old.cells }
    ensures stays { Stays store.old store.new }
    ensures apart { IfOk result (λ ids. All (IsApart store.new side.now.variable.0) ids.items) }
{
    let mut ids = Vec::new(alloc);
    for place in 0..eigens.len() {
        let old = argument_at(store, whole, place)?;
        let id = put_stand_in(store, side, opened, eigens[place], old)?;
        ids.push(id)?;
    }
    Ok(ids)
}

// A pattern, on the eigenconstants themselves.
fn put_pattern(
    alloc: Global,
    store: &mut Store,
    side: &Side,
    opened: Opened,
    seen: &Seen,
    eigens: &[u64],
) -> Result<CellId, Memory>
    requires variable { side.now.variable.0 < length store.old.cells }
    requires top { IsApart store.old side.now.variable.0 seen.now.top }
    ensures stays { Stays store.old store.new }
    ensures apart { IfOk result (IsApart store.new side.now.variable.0) }
{
    if eigens.is_empty() {
        return Ok(seen.top);
    }
    let ids = put_stand_ins(alloc, store, side, opened, seen.whole, eigens)?;
    put_on(store, side, seen.whole, seen.top, ids.as_slice())
}

fn visit_variable(
    alloc: Global,
    store: &mut Store,
    side: &Side,
    work: &mut Work,
    opened: Opened,
    seen: &Seen,
    level: u64,
) -> Result<(), PatternRefusal>
    requires variable { side.now.variable.0 < length store.old.cells }
    requires work { IsSettling store.old side.now.variable.0 work.old.tasks.items work.old.made.items }
    ensures stays { Stays store.old store.new }
    ensures work { OnOk result (IsSettling store.new side.now.variable.0 work.new.tasks.items work.new.made.items) }
{
    let pattern = pattern_of(alloc, store, opened, level, seen.whole)?;
    keep_apart(alloc, store, side, seen.top)?;
    let Some(eigens) = pattern else {
        push_application(store, side, work, opened, seen.whole, seen.top)?;
        return Ok(());
    };
    let made = put_pattern(alloc, store, side, opened, seen, eigens.as_slice())?;
    work.made.push(made)?;
    Ok(())
}

// A rigid head, and its arguments.
fn visit_rigid(
    alloc: Global,
    store: &mut Store,
    side: &Side,
    work: &mut Work,
    opened: Opened,
    seen: &Seen,
) -> Result<(), PatternRefusal>
    requires variable { side.now.variable.0 < length store.old.cells }
    requires work { IsSettling store.old side.now.variable.0 work.old.tasks.items work.old.made.items }
    ensures stays { Stays store.old store.new }
    ensures work { OnOk result (IsSettling store.new side.now.variable.0 work.new.tasks.items work.new.made.items) }
{
    let head = head_in(store, side, opened, seen.top)?;
    keep_apart(alloc, store, side, head)?;
    push_application(store, side, work, opened, seen.whole, head)?;
    Ok(())
}

// The body of an abstraction, which is put together behind it.
fn visit_body(
    store: &Store,
    side: &Side,
    work: &mut Work,
    opened: Opened,
    whole: CellId,
    body: CellId,
) -> Result<(), Memory>
    requires { IsSettling store.now side.now.variable.0 work.old.tasks.items work.old.made.items }
    ensures { OnOk result (IsSettling store.now side.now.variable.0 work.new.tasks.items work.new.made.items) }
{
    let inner = opened.one_more()?;
    work.tasks.push(Task::Abstract(whole))?;
    work.tasks.push(Task::Visit(body, inner))?;
    Ok(())
}

// Visits a part by what was seen of it.
fn visit_seen(
    alloc: Global,
    store: &mut Store,
    side: &Side,
    work: &mut Work,
    opened: Opened,
    seen: &Seen,
) -> Result<(), PatternRefusal>
    requires variable { side.now.variable.0 < length store.old.cells }
    requires work { IsSettling store.old side.now.variable.0 work.old.tasks.items work.old.made.items }
    ensures stays { Stays store.old store.new }
    ensures work { OnOk result (IsSettling store.new side.now.variable.0 work.new.tasks.items work.new.made.items) }
{
    match seen.head {
        Head::Abstraction(body) => {
            visit_body(store, side, work, opened, seen.whole, body)?;
            Ok(())
        }
        Head::Rigid => visit_rigid(alloc, store, side, work, opened, seen),
        Head::Variable(level) => visit_variable(alloc, store, side, work, opened, seen, level),
    }
}

fn visit(
    alloc: Global,
    store: &mut Store,
    side: &Side,
    work: &mut Work,
    term: CellId,
    opened: Opened,
) -> Result<(), PatternRefusal>
    requires variable { side.now.variable.0 < length store.old.cells }
    requires work { IsSettling store.old side.now.variable.0 work.old.tasks.items work.old.made.items }
    ensures stays { Stays store.old store.new }
    ensures work { OnOk result (IsSettling store.new side.now.variable.0 work.new.tasks.items work.new.made.items) }
{
    let seen = look(alloc, store, term)?;
    visit_seen(alloc, store, side, work, opened, &seen)
}

// Whether the cell is the abstraction of the body.
fn is_abstracted(store: &Store, side: &Side, old: CellId, body: CellId) -> bool
    requires { IsApart store.now side.now.variable.0 body }
    ensures { result ≡ true → IsApart store.now side.now.variable.0 old }
{
    if !store.has(old) || !is_unbound(store, side.variable) {
        return false;
    }
    let Cell::Abs(inside) = store.cell(old) else {
        return false;
    };
    refers_to(store, side, inside, body)
}

// The abstraction of the body, which is the old cell where that is it already.
fn put_below(store: &mut Store, side: &Side, old: CellId, body: CellId) -> Result<CellId, Memory>
    requires variable { side.now.variable.0 < length store.old.cells }
    requires body { IsApart store.old side.now.variable.0 body }
    ensures stays { Stays store.old store.new }
    ensures apart { IfOk result (IsApart store.new side.now.variable.0) }
{
    if is_abstracted(store, side, old, body) {
        return Ok(old);
    }
    put_abstraction(store, body)
}

// The body under its abstraction.
fn abstracted(store: &mut Store, side: &Side, work: &mut Work, old: CellId) -> Result<(), Memory>
    requires variable { side.now.variable.0 < length store.old.cells }
    requires work { IsSettling store.old side.now.variable.0 work.old.tasks.items work.old.made.items }
    ensures stays { Stays store.old store.new }
    ensures work { OnOk result (IsSettling store.new side.now.variable.0 work.new.tasks.items work.new.made.items) }
{
    let Some(body) = work.made.pop() else {
        return Err(Memory);
    };
    let id = put_below(store, side, old, body)?;
    work.made.push(id)?;
    Ok(())
}

// The head on what its arguments have become.
fn applied(
    store: &mut Store,
    side: &Side,
    work: &mut Work,
    old: CellId,
    head: CellId,
    count: usize,
) -> Result<(), Memory>
    requires variable { side.now.variable.0 < length store.old.cells }
    requires head { IsApart store.old side.now.variable.0 head }
    requires work { IsSettling store.old side.now.variable.0 work.old.tasks.items work.old.made.items }
    ensures stays { Stays store.old store.new }
    ensures work { OnOk result (IsSettling store.new side.now.variable.0 work.new.tasks.items work.new.made.items) }
{
    let Some(from) = work.made.len().checked_sub(count) else {
        return Err(Memory);
    };
    let id = put_on(store, side, old, head, &work.made.as_slice()[from..])?;
    work.made.truncate(from);
    work.made.push(id)?;
    Ok(())
}

fn step(
    alloc: Global,
    store: &mut Store,
    side: &Side,
    work: &mut Work,
    task: Task,
) -> Result<(), PatternRefusal>
    requires variable { side.now.variable.0 < length store.old.cells }
    requires task { IsTaskFor store.old side.now.variable.0 task }
    requires work { IsSettling store.old side.now.variable.0 work.old.tasks.items work.old.made.items }
    ensures stays { Stays store.old store.new }
    ensures work { OnOk result (IsSettling store.new side.now.variable.0 work.new.tasks.items work.new.made.items) }
{
    match task {
        Task::Visit(term, opened) => visit(alloc, store, side, work, term, opened),
        Task::Abstract(old) => {
            abstracted(store, side, work, old)?;
            Ok(())
        }
        Task::Apply(old, head, count) => {
            applied(store, side, work, old, head, count)?;
            Ok(())
        }
    }
}

// The result of the last task, with the side's eigenconstants abstracted.
fn finished(store: &mut Store, side: &Side, work: &mut Work) -> Result<CellId, Memory>
    requires variable { side.now.variable.0 < length store.old.cells }
    requires work { IsSettling store.old side.now.variable.0 work.old.tasks.items work.old.made.items }
    ensures stays { Stays store.old store.new }
    ensures apart { IfOk result (IsApart store.new side.now.variable.0) }
{
    let Some(body) = work.made.pop() else {
        return Err(Memory);
    };
    put_abstractions(store, side.eigens.len(), body)
}

// The value of the side's variable.
pub(crate) fn settled(
    alloc: Global,
    store: &mut Store,
    side: &Side,
    term: CellId,
) -> Result<CellId, PatternRefusal>
    ensures stays { Stays store.old store.new }
    ensures apart { IfOk result (IsApart store.new side.now.variable.0) }
{
    if !store.has(side.variable) {
        return Err(PatternRefusal::Memory);
    }
    let mut work = Work {
        tasks: Vec::new(alloc),
        made: Vec::new(alloc),
    };
    work.tasks.push(Task::Visit(term, side.closed()))?;
    'tasks: for _ in 0..u64::MAX {
        let Some(task) = work.tasks.pop() else {
            let value = finished(store, side, &mut work)?;
            return Ok(value);
        };
        step(alloc, store, side, &mut work, task)?;
    }
    Err(PatternRefusal::Memory)
}
