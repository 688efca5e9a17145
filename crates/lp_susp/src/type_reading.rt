ghost use Rattle.std.specs.Prelude.{◌≡◌, ℕ, ◌+◌, ◌<◌, ◌≤◌, length, List, [], ◌∷◌, ◌++◌, reverse, IfOk, OnOk, All, map};
ghost use Rattle.lp_calculus.specs.Types.{Ty, con, arrow, tys};
ghost use Rattle.lp_store.specs.Contents.{Contents, cell_at, span};
ghost use Rattle.lp_store.specs.Reading.{ReadTypes};
ghost use Rattle.lp_term.specs.Nodes.{Nodes, type_tree, Extends};
ghost use Rattle.lp_susp.specs.TypeWork.{Ran, IsThere, reads_of};

use lp_base::Memory;
use lp_store::{Cell, CellId, Span, Store};
use lp_term::{Bank, TypeId, TypeNode};
use std::alloc::Global;

// What is left to do on the way through types, the last first.
#[derive(Clone, Copy)]
pub(crate) enum TypeTask {
    Read(CellId),
    MakeCon(u32, usize),
    MakeArrow,
}

// The cells are to be read, the first one first.
fn put_reads(cells: &[CellId], work: &mut Vec<TypeTask>) -> Result<(), Memory>
    ensures { OnOk result (work.new.items ≡ work.old.items ++ reverse (reads_of cells.now)) }
{
    let mut left = cells.len();
    while left > 0 {
        left -= 1;
        work.push(TypeTask::Read(cells[left]))?;
    }
    Ok(())
}

// A constructor on the newest types.
fn make_con(
    alloc: Global,
    bank: &mut Bank,
    name: u32,
    count: usize,
    out: &mut Vec<TypeId>,
) -> Result<(), Memory>
    requires { All (λ t. t.0 < length bank.old.types) out.old.items }
    ensures kept { Extends bank.old bank.new }
    ensures terms { bank.new.terms ≡ bank.old.terms }
    ensures within { OnOk result (All (λ t. t.0 < length bank.new.types) out.new.items) }
    ensures made { OnOk result ((front Ts : List Ty) → (map (λ t. type_tree bank.old t.0) out.old.items ≡ front ++ Ts) → (length Ts ≡ count) →
        map (λ t. type_tree bank.new t.0) out.new.items ≡ front ++ con name (tys Ts) ∷ []) }
{
    let Some(from) = out.len().checked_sub(count) else {
        return Err(Memory);
    };
    let id = bank.put_type(TypeNode::Con(name, &out.as_slice()[from..]))?;
    out.truncate(from);
    out.push(id)?;
    Ok(())
}

// The function type of the two newest types.
fn make_arrow(bank: &mut Bank, out: &mut Vec<TypeId>) -> Result<(), Memory>
    requires { All (λ t. t.0 < length bank.old.types) out.old.items }
    ensures kept { Extends bank.old bank.new }
    ensures terms { bank.new.terms ≡ bank.old.terms }
    ensures within { OnOk result (All (λ t. t.0 < length bank.new.types) out.new.items) }
    ensures made { OnOk result ((front : List Ty) (a b : Ty) → (map (λ t. type_tree bank.old t.0) out.old.items ≡ front ++ a ∷ b ∷ []) →
        map (λ t. type_tree bank.new t.0) out.new.items ≡ front ++ arrow a b ∷ []) }
{
    let Some(to) = out.pop() else {
        return Err(Memory);
    };
    let Some(from) = out.pop() else {
        return Err(Memory);
    };
    let id = bank.put_type(TypeNode::Arrow(from, to))?;
    out.push(id)?;
    Ok(())
}

// Does the task.
fn type_step(
    alloc: Global,
    store: &Store,
    bank: &mut Bank,
    task: TypeTask,
    work: &mut Vec<TypeTask>,
    out: &mut Vec<TypeId>,
) -> Result<(), Memory>
    requires outs { All (λ t. t.0 < length bank.old.types) out.old.items }
    requires tasks { All (IsThere store.now) work.old.items }
    requires task { IsThere store.now task }
    ensures kept { Extends bank.old bank.new }
    ensures terms { bank.new.terms ≡ bank.old.terms }
    ensures outs { OnOk result (All (λ t. t.0 < length bank.new.types) out.new.items) }
    ensures tasks { OnOk result (All (IsThere store.now) work.new.items) }
    ensures ran { OnOk result ((res : List Ty) → Ran store.now (work.old.items ++ task ∷ []) (map (λ t. type_tree bank.old t.0) out.old.items) res →
        Ran store.now work.new.items (map (λ t. type_tree bank.new t.0) out.new.items) res) }
{
    match task {
        TypeTask::Read(cell) => match store.cell(cell) {
            Cell::Ref(to) => {
                work.push(TypeTask::Read(to))?;
                Ok(())
            }
            Cell::TypeVar => {
                let id = bank.put_type(TypeNode::Var(cell.0 as u64))?;
                out.push(id)?;
                Ok(())
            }
            Cell::TypeCon(name, list) => {
                let cells = store.items(list);
                work.push(TypeTask::MakeCon(name, cells.len()))?;
                put_reads(cells, work)?;
                Ok(())
            }
            Cell::TypeArrow(from, to) => {
                work.push(TypeTask::MakeArrow)?;
                work.push(TypeTask::Read(to))?;
                work.push(TypeTask::Read(from))?;
                Ok(())
            }
            _ => Err(Memory),
        },
        TypeTask::MakeCon(name, count) => {
            make_con(alloc, bank, name, count, out)?;
            Ok(())
        }
        TypeTask::MakeArrow => {
            make_arrow(bank, out)?;
            Ok(())
        }
    }
}

// The types of the list in the bank.
pub(crate) fn read_types(
    alloc: Global,
    store: &Store,
    list: Span,
    bank: &mut Bank,
) -> Result<Vec<TypeId>, Memory>
    requires { list.from + list.count ≤ length store.now.items }
    ensures kept { Extends bank.old bank.new }
    ensures terms { bank.new.terms ≡ bank.old.terms }
    ensures within { IfOk result (λ ids. All (λ t. t.0 < length bank.new.types) ids.items) }
    ensures types { IfOk result (λ ids. (Ts : List Ty) → ReadTypes store.now (map (λ t. t.0) (span store.now.items list.from list.count)) Ts →
        map (λ t. type_tree bank.new t.0) ids.items ≡ Ts) }
{
    let mut work = Vec::new(alloc);
    let mut out: Vec<TypeId> = Vec::new(alloc);
    put_reads(store.items(list), &mut work)?;
    for _task in 0..u64::MAX {
        let Some(task) = work.pop() else {
            return Ok(out);
        };
        type_step(alloc, store, bank, task, &mut work, &mut out)?;
    }
    Err(Memory)
}
