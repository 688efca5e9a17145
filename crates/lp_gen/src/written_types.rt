// Types in registers: of each node the parts come first, and then the node in the next register.
ghost use Rattle.std.specs.Prelude.{◌≡◌, ℕ, List, ◌≤◌, ◌+◌, ◌*◌, length, map, min, slice_index_or, OnOk, IfOk, IfErr};
ghost use Rattle.lp_calculus.specs.Types.{tys};
ghost use Rattle.lp_term.specs.Nodes.{type_tree};
ghost use Rattle.lp_gen.specs.inner.Reading.{read, read_at};
ghost use Rattle.lp_gen.specs.inner.Running.{IsTypePut, AreTypesPut};
ghost use Rattle.lp_gen.specs.Registers.{type_takes, all_take};
ghost use Rattle.lp_gen.specs.inner.Spending.{Spent, Overflows};
ghost use Rattle.lp_gen.specs.inner.Using.{Uses, Lacks};
ghost use Rattle.lp_gen.specs.inner.Sizes.{type_size, types_size, type_task, type_work};
ghost use Rattle.lp_gen.specs.inner.Works.{Comes, GivesWay, IsGrown, act, done, work_now, with_constructor, with_arrow, first_of, last_of};
ghost use Rattle.lp_gen.specs.declared.written_types.TypeTask.TheVariants as on;

use crate::emitter::Emitter;
use crate::fault::RecordRefusal;
use crate::types::{Top, TypeView};
use lp_base::Memory;
use lp_code::Instr;
use lp_term::{Bank, TermId, TypeId};
use std::alloc::Global;

// What is still to be done for a type, the next one last.
#[derive(Clone, Copy)]
enum TypeTask<'b> {
    Visit(TypeView),
    /// The parts of a type, read as it is.
    Parts(&'b [TypeId], Option<TermId>),
    Constructor(u32, usize),
    Arrow,
}

/// The register of a type variable of the clause.
pub(crate) fn register_of_type(number: u64) -> u16
    ensures { result ≡ min number 65535 }
{
    number.min(65_535) as u16
}

/// The last registers of so many, taken off.
pub(crate) fn take(registers: &mut Vec<u16>, count: usize) -> Result<Vec<u16>, Memory>
    ensures taken { IfOk result (λ taken. taken.items ≡ last_of count registers.old.items) }
    ensures left { OnOk result (registers.new.items ≡ first_of count registers.old.items) }
{
    let kept = registers.len().saturating_sub(count);
    Ok(registers.split_off(kept)?)
}

/// The register at a place.
pub(crate) fn register_at(registers: &[u16], place: usize) -> u16
    ensures { result ≡ slice_index_or registers.now place 0 }
{
    match registers.get(place) {
        Some(register) => *register,
        None => 0,
    }
}

// Looks at a type, whose parts come first.
fn visit_type<'b>(
    bank: &'b Bank,
    of: TypeView,
    work: &mut Vec<TypeTask<'b>>,
    made: &mut Vec<u16>,
) -> Result<(), Memory>
    ensures less { OnOk result (type_work bank.now work.new.items + 1 ≤ type_work bank.now work.old.items + 3 * type_size (read bank.now of)) }
    ensures gives { OnOk result (GivesWay bank.now (on.Visit of) work.old.items work.new.items made.old.items made.new.items) }
{
    match of.top(bank) {
        Top::Variable(number) => {
            made.push(register_of_type(number))?;
            Ok(())
        }
        Top::Parameter(_) => {
            made.push(0)?;
            Ok(())
        }
        Top::Constructor(kind, parts, constant) => {
            work.push(TypeTask::Constructor(kind, parts.len()))?;
            work.push(TypeTask::Parts(parts, constant))?;
            Ok(())
        }
        Top::Arrow(from, to) => {
            work.push(TypeTask::Arrow)?;
            work.push(TypeTask::Visit(to))?;
            work.push(TypeTask::Visit(from))?;
            Ok(())
        }
    }
}

// The parts of a type one by one.
fn visit_parts<'b>(
    bank: &'b Bank,
    parts: &'b [TypeId],
    constant: Option<TermId>,
    work: &mut Vec<TypeTask<'b>>,
) -> Result<(), Memory>
    ensures less { OnOk result (type_work bank.now work.new.items ≤ type_work bank.now work.old.items + 3 * types_size (tys (map (λ p. read_at bank.now constant (type_tree bank.now p.0)) parts.now))) }
    ensures gives { OnOk result ((made : List ℕ) → GivesWay bank.now (on.Parts parts.entry constant) work.old.items work.new.items made made) }
{
    let Some((first, rest)) = parts.split_first() else {
        return Ok(());
    };
    work.push(TypeTask::Parts(rest, constant))?;
    work.push(TypeTask::Visit(TypeView::Of(*first, constant)))?;
    Ok(())
}

// A kind on the last types that were made.
fn put_constructor(
    emitter: &mut Emitter,
    kind: u32,
    parts: usize,
    made: &mut Vec<u16>,
) -> Result<(), RecordRefusal>
    ensures made { OnOk result (Comes emitter.old emitter.new (with_constructor kind parts) made.old.items made.new.items) }
    ensures spent { OnOk result (Spent emitter.old emitter.new) }
    ensures over { IfErr result (Overflows emitter.old (with_constructor kind parts (work_now emitter.old made.old.items))) }
{
    let types = take(made, parts)?;
    let register = emitter.new_type()?;
    emitter.emit(Instr::TyCon(register, kind, types))?;
    made.push(register)?;
    Ok(())
}

// An arrow between the last two.
fn put_arrow(emitter: &mut Emitter, made: &mut Vec<u16>) -> Result<(), RecordRefusal>
    ensures made { OnOk result (Comes emitter.old emitter.new with_arrow made.old.items made.new.items) }
    ensures spent { OnOk result (Spent emitter.old emitter.new) }
    ensures over { IfErr result (Overflows emitter.old (with_arrow (work_now emitter.old made.old.items))) }
{
    let sides = take(made, 2)?;
    let from = register_at(sides.as_slice(), 0);
    let to = register_at(sides.as_slice(), 1);
    let register = emitter.new_type()?;
    emitter.emit(Instr::TyArr(register, from, to))?;
    made.push(register)?;
    Ok(())
}

// Does one task.
fn take_up<'b>(
    bank: &'b Bank,
    emitter: &mut Emitter,
    task: TypeTask<'b>,
    work: &mut Vec<TypeTask<'b>>,
    made: &mut Vec<u16>,
) -> Result<(), RecordRefusal>
    ensures less { OnOk result (type_work bank.now work.new.items + 1 ≤ type_work bank.now work.old.items + type_task bank.now task.entry) }
    ensures grown { OnOk result (IsGrown emitter.old emitter.new) }
    ensures spent { OnOk result (Spent emitter.old emitter.new) }
    ensures over { IfErr result (Overflows emitter.old (act bank.now task.entry (work_now emitter.old made.old.items))) }
    ensures acts { OnOk result (done bank.now work.new.items (work_now emitter.new made.new.items) ≡ done bank.now work.old.items (act bank.now task.entry (work_now emitter.old made.old.items))) }
{
    match task {
        TypeTask::Visit(part) => {
            visit_type(bank, part, work, made)?;
            Ok(())
        }
        TypeTask::Parts(parts, constant) => {
            visit_parts(bank, parts, constant, work)?;
            Ok(())
        }
        TypeTask::Constructor(kind, parts) => {
            put_constructor(emitter, kind, parts, made)?;
            Ok(())
        }
        TypeTask::Arrow => {
            put_arrow(emitter, made)?;
            Ok(())
        }
    }
}

/// The type in a register.
pub(crate) fn put_type(
    alloc: Global,
    bank: &Bank,
    emitter: &mut Emitter,
    of: TypeView,
) -> Result<u16, RecordRefusal>
    ensures code { IfOk result (λ register. IsTypePut emitter.old emitter.new register (read bank.now of)) }
    ensures uses { OnOk result (Uses emitter.old emitter.new (type_takes (read bank.now of))) }
    ensures lacks { IfErr result (Lacks emitter.old (type_takes (read bank.now of))) }
{
    let mut work = Vec::new(alloc);
    let mut made = Vec::new(alloc);
    work.push(TypeTask::Visit(of))?;
    'types: while let Some(task) = work.pop() {
        take_up(bank, emitter, task, &mut work, &mut made)?;
    }
    Ok(register_at(made.as_slice(), 0))
}

/// Types of the clause in registers.
pub(crate) fn put_types(
    alloc: Global,
    bank: &Bank,
    emitter: &mut Emitter,
    types: &[TypeId],
) -> Result<Vec<u16>, RecordRefusal>
    ensures code { IfOk result (λ registers. AreTypesPut emitter.old emitter.new registers.items (map (λ t. type_tree bank.now t.0) types.now)) }
    ensures count { IfOk result (λ registers. length registers.items ≡ length types.now) }
    ensures uses { OnOk result (Uses emitter.old emitter.new (all_take (map (λ t. type_tree bank.now t.0) types.now))) }
    ensures lacks { IfErr result (Lacks emitter.old (all_take (map (λ t. type_tree bank.now t.0) types.now))) }
{
    let mut registers = Vec::new(alloc);
    for of in types.iter().copied() {
        let register = put_type(alloc, bank, emitter, TypeView::Of(of, None))?;
        registers.push(register)?;
    }
    Ok(registers)
}
