// A record.
ghost use Rattle.std.specs.Prelude.{◌≡◌, List, Some, None, true, length, map, [], ◌+◌, ◌<◌, ◌≤◌, ◌^◌, nat_eq, min, All, sum_by, slice_get, if◌then◌else◌, IfOk, IfErr, OnOk};
ghost use Rattle.lp_term.specs.Nodes.{Nodes};
ghost use Rattle.lp_code.specs.Length.{Fits, length_of};
ghost use Rattle.lp_code.specs.Denote.{from_zero};
ghost use Rattle.lp_model.specs.declared.clause.Goal.{Goal};
ghost use Rattle.lp_gen.specs.declared.plan.Origin.TheVariants as origin;
ghost use Rattle.lp_gen.specs.inner.Fitting.{is_short, IsRefused};
ghost use Rattle.lp_gen.specs.inner.BodyUsing.{instr_takes, assumption_takes};
ghost use Rattle.lp_gen.specs.Steps.{constant_function};
ghost use Rattle.lp_gen.specs.inner.Listing.{around_of};
ghost use Rattle.lp_gen.specs.Registers.{Passes};
ghost use Rattle.lp_gen.specs.inner.Using.{Uses, Lacks};
ghost use Rattle.lp_gen.specs.inner.Recorded.{own_count, head_in, FrontWritten, TypesWritten, HasKey, RecordWritten, types_taken, front_takes, front_around, StartsWell, start_around, RecordTakes};
ghost use Rattle.lp_gen.specs.inner.GoalCode.{numbers, AreRegisters};
ghost use Rattle.lp_gen.specs.inner.BodyCode.{levels_found, AreStarts, started_at, AreAllSet, StartsGrow, AssumptionMade};
ghost use Rattle.lp_gen.specs.declared.plan.Step.TheVariants as on;
ghost use Rattle.std.specs.List.{IsDistinct};
ghost use Rattle.std.specs.Borrow.{Bor};
ghost use Rattle.indexmap.specs.IndexMap.{index_map_len};

use crate::body::write_body;
use crate::emitter::Emitter;
use crate::entering::{enter_clause, enter_query, make_types};
use crate::environment::{Environment, Variable};
use crate::fault::RecordRefusal;
use crate::head::{get_head, key_of};
use crate::plan::{Assumption, Origin, Part, Step};
use crate::tables::Tables;
use crate::variables::make_variables;
use indexmap::IndexMap;
use lp_base::Memory;
use lp_code::{Instr, Key, Record, RecordHead};
use lp_model::{Clause, Typed};
use lp_term::{Bank, TypeId};
use std::alloc::Global;

/// The variables with which records start, by level.
pub(crate) type Starts = IndexMap<u64, Variable>;

/// The number of a record.
pub(crate) fn number_of(place: usize) -> u32
    ensures { result ≡ min place 4294967295 }
{
    place.min(u32::MAX as usize) as u32
}

/// So many registers.
pub(crate) fn count_of_registers(count: u64) -> Result<u16, RecordRefusal>
    ensures count { IfOk result (λ registers. registers ≡ count) }
    ensures cause { IfErr result (IsRefused (65535 < count)) }
{
    match u16::try_from(count) {
        Ok(registers) => Ok(registers),
        Err(_) => Err(RecordRefusal::Registers),
    }
}

// The numbers of the records of an assumption.
fn records_of(alloc: Global, first: u32, assumption: &Assumption<'_>) -> Result<Vec<u32>, Memory>
    ensures numbers { IfOk result (λ records. first + assumption.now.first + assumption.now.count < 2 ^ 32 → records.items ≡ numbers (first + assumption.now.first) assumption.now.count) }
    ensures count { IfOk result (λ records. length records.items ≡ assumption.now.count) }
{
    let mut records = Vec::new(alloc);
    for at in 0..assumption.count {
        let place = number_of(assumption.first.saturating_add(at));
        records.push(first.saturating_add(place))?;
    }
    Ok(records)
}

// The registers of all type variables.
fn all_types(alloc: Global, type_vars: u16) -> Result<Vec<u16>, Memory>
    ensures { IfOk result (λ types. types.items ≡ from_zero type_vars) }
{
    let mut types = Vec::new(alloc);
    for register in 0..type_vars {
        types.push(register)?;
    }
    Ok(types)
}

// The registers of the variables that stand in an assumption, and the variables with which its records start.
fn captured_by(
    alloc: Global,
    environment: &Environment<'_>,
    levels: &[u64],
    starts: &mut Starts,
) -> Result<Vec<u16>, RecordRefusal>
    ensures registers { IfOk result (λ registers. (b : Nodes) → AreRegisters (around_of b environment.now) (levels_found (around_of b environment.now) levels.now) registers.items) }
    ensures many { (b : Nodes) → IfErr result (IsRefused (65535 < length (levels_found (around_of b environment.now) levels.now))) }
    ensures starts { OnOk result ((b : Nodes) → starts.old.entries ≡ [] → IsDistinct nat_eq levels.now → AreStarts (around_of b environment.now) (levels_found (around_of b environment.now) levels.now) (started_at b starts.new) (index_map_len starts.new)) }
{
    let mut registers = Vec::new(alloc);
    for level in levels.iter().copied() {
        let Some(variable) = environment.at(level) else {
            continue;
        };
        let start = Variable {
            register: count_of_registers(registers.len() as u64)?,
            of: variable.of,
            is_set: true,
        };
        registers.push(variable.register)?;
        let _old = starts.insert(level, start)?;
    }
    Ok(registers)
}

/// The instruction that opens an assumption. Its records start with the variables that stand in them.
pub(crate) fn assumption(
    alloc: Global,
    tables: Tables<'_>,
    environment: &Environment<'_>,
    all_starts: &mut Vec<Starts>,
    number: usize,
) -> Result<Instr, RecordRefusal>
    ensures short { IfOk result (λ instr. is_short instr ≡ true) }
    ensures takes { IfOk result (λ instr. instr_takes instr ≡ assumption_takes tables.entry.type_vars (around_of tables.entry.bank.now environment.now) (slice_get tables.entry.assumptions.now number)) }
    ensures many { IfErr result (IsRefused (0 < (assumption_takes tables.entry.type_vars (around_of tables.entry.bank.now environment.now) (slice_get tables.entry.assumptions.now number)).misfits)) }
    ensures made { IfOk result (λ instr. AssumptionMade tables.entry environment.now number all_starts.old.items all_starts.new.items instr) }
    ensures grown { OnOk result (StartsGrow tables.entry all_starts.old.items all_starts.new.items (on.Assume number)) }
{
    if number >= tables.assumptions.len() {
        return Ok(Instr::Cut);
    }
    let assumption = &tables.assumptions[number];
    let mut starts = IndexMap::new(alloc);
    let levels = assumption.captured.as_slice();
    let registers = captured_by(alloc, environment, levels, &mut starts)?;
    all_starts.push(starts)?;
    let records = records_of(alloc, tables.first, assumption)?;
    let types = all_types(alloc, tables.type_vars)?;
    Ok(Instr::Assume(records, types, registers))
}

// The types of the variables of a query.
fn types_of_query(alloc: Global, query: &Typed) -> Result<Vec<TypeId>, Memory>
    ensures { IfOk result (λ types. types.items ≡ map (λ v. v.1) query.now.vars.items) }
{
    let mut types = Vec::new(alloc);
    for (_, of) in query.vars.iter().copied() {
        types.push(of)?;
    }
    Ok(types)
}

// The variables of a clause, its head, and what is made before NECK; says the predicate.
fn write_head(
    alloc: Global,
    tables: Tables<'_>,
    emitter: &mut Emitter,
    environment: &mut Environment<'_>,
    clause: &Clause,
) -> Result<RecordHead, RecordRefusal>
    ensures written { IfOk result (λ head. FrontWritten tables.entry.bank.now (constant_function tables.entry.bank.now tables.entry.constants.now) emitter.old emitter.new environment.old environment.new (origin.Clause clause.entry) (Some head)) }
    ensures uses { StartsWell tables.entry.bank.now environment.old (origin.Clause clause.entry) → OnOk result (Uses emitter.old emitter.new (front_takes (constant_function tables.entry.bank.now tables.entry.constants.now) (front_around tables.entry.bank.now environment.old emitter.old.registers (origin.Clause clause.entry)) (own_count (origin.Clause clause.entry)) (head_in tables.entry.bank.now (origin.Clause clause.entry)))) }
    ensures lacks { IfErr result (Lacks emitter.old (front_takes (constant_function tables.entry.bank.now tables.entry.constants.now) (front_around tables.entry.bank.now environment.old emitter.old.registers (origin.Clause clause.entry)) (own_count (origin.Clause clause.entry)) (head_in tables.entry.bank.now (origin.Clause clause.entry)))) }
{
    enter_clause(emitter, environment, clause.vars.as_slice())?;
    let head = get_head(alloc, tables, emitter, environment, clause.head)?;
    make_variables(alloc, tables.bank, emitter, environment, true)?;
    Ok(head)
}

// The variables of a query.
fn write_variables(
    alloc: Global,
    tables: Tables<'_>,
    emitter: &mut Emitter,
    environment: &mut Environment<'_>,
    query: &Typed,
) -> Result<(), RecordRefusal>
    ensures written { OnOk result ((goals : Bor (List Goal)) → FrontWritten tables.entry.bank.now (constant_function tables.entry.bank.now tables.entry.constants.now) emitter.old emitter.new environment.old environment.new (origin.Query query.entry goals) None) }
    ensures uses { (goals : Bor (List Goal)) → StartsWell tables.entry.bank.now environment.old (origin.Query query.entry goals) → OnOk result (Uses emitter.old emitter.new (front_takes (constant_function tables.entry.bank.now tables.entry.constants.now) (front_around tables.entry.bank.now environment.old emitter.old.registers (origin.Query query.entry goals)) (own_count (origin.Query query.entry goals)) (head_in tables.entry.bank.now (origin.Query query.entry goals)))) }
    ensures lacks { (goals : Bor (List Goal)) → IfErr result (Lacks emitter.old (front_takes (constant_function tables.entry.bank.now tables.entry.constants.now) (front_around tables.entry.bank.now environment.old emitter.old.registers (origin.Query query.entry goals)) (own_count (origin.Query query.entry goals)) (head_in tables.entry.bank.now (origin.Query query.entry goals)))) }
{
    let vars = types_of_query(alloc, query)?;
    enter_query(emitter, environment, vars.as_slice())?;
    make_variables(alloc, tables.bank, emitter, environment, false)?;
    Ok(())
}

// The code up to NECK; says the predicate, if there is one.
fn write_front(
    alloc: Global,
    tables: Tables<'_>,
    emitter: &mut Emitter,
    environment: &mut Environment<'_>,
    origin: Origin<'_>,
) -> Result<Option<RecordHead>, RecordRefusal>
    ensures written { IfOk result (λ head. FrontWritten tables.entry.bank.now (constant_function tables.entry.bank.now tables.entry.constants.now) emitter.old emitter.new environment.old environment.new origin.entry head) }
    ensures uses { StartsWell tables.entry.bank.now environment.old origin.entry → OnOk result (Uses emitter.old emitter.new (front_takes (constant_function tables.entry.bank.now tables.entry.constants.now) (front_around tables.entry.bank.now environment.old emitter.old.registers origin.entry) (own_count origin.entry) (head_in tables.entry.bank.now origin.entry))) }
    ensures lacks { IfErr result (Lacks emitter.old (front_takes (constant_function tables.entry.bank.now tables.entry.constants.now) (front_around tables.entry.bank.now environment.old emitter.old.registers origin.entry) (own_count origin.entry) (head_in tables.entry.bank.now origin.entry))) }
{
    match origin {
        Origin::Clause(clause) => {
            let head = write_head(alloc, tables, emitter, environment, clause)?;
            Ok(Some(head))
        }
        Origin::Query(query, _) => {
            write_variables(alloc, tables, emitter, environment, query)?;
            Ok(None)
        }
    }
}

// The type variables that a clause of a program makes.
fn write_types(emitter: &mut Emitter, program: bool, count: u16) -> Result<(), RecordRefusal>
    ensures written { OnOk result (TypesWritten program emitter.old emitter.new count) }
    ensures uses { OnOk result (Uses emitter.old emitter.new (types_taken program count)) }
    ensures lacks { IfErr result (Lacks emitter.old (types_taken program count)) }
{
    if !program {
        return Ok(());
    }
    make_types(emitter, count)?;
    Ok(())
}

// The key of a record.
fn key_by(alloc: Global, bank: &Bank, origin: Origin<'_>, program: bool) -> Result<Key, Memory>
    ensures { IfOk result (HasKey bank.now origin.entry program) }
{
    let Origin::Clause(clause) = origin else {
        return Ok(Key::None);
    };
    if !program {
        return Ok(Key::None);
    }
    let key = key_of(alloc, bank, clause.head)?;
    Ok(key)
}

// How many type variables a record starts with.
fn first_types(program: bool, type_vars: u16) -> u16
    ensures { result ≡ (if program then 0 else type_vars) }
{
    if program { 0 } else { type_vars }
}

/// The record of a part that starts with these variables; those that it assumes start with the ones that are added to `starts`.
pub(crate) fn record_of<'x>(
    alloc: Global,
    tables: Tables<'x>,
    part: &Part<'_>,
    captured: &'x Starts,
    starts: &mut Vec<Starts>,
) -> Result<Record, RecordRefusal>
    ensures fit { IfOk result (λ r. All Fits r.code.items) }
    ensures few { IfOk result (λ r. sum_by length_of r.code.items ≤ 4294967295) }
    ensures lacks { AreAllSet tables.entry.bank.now captured.now → part.now.base + own_count part.now.origin ≤ 4294967295 → IfErr result (IsRefused (RecordTakes Passes tables.entry (constant_function tables.entry.bank.now tables.entry.constants.now) part.now (start_around tables.entry.bank.now captured.now part.now.base) (index_map_len captured.now))) }
    ensures written { IfOk result (RecordWritten tables.entry (constant_function tables.entry.bank.now tables.entry.constants.now) part.now captured.now starts.old.items starts.new.items) }
{
    let program = part.within.is_none();
    let captured_types = first_types(program, tables.type_vars);
    let registers = count_of_registers(captured.len() as u64)?;
    let mut emitter = Emitter::new(alloc, captured_types, registers);
    let mut environment = Environment::new(alloc, captured, part.base);
    write_types(&mut emitter, program, tables.type_vars)?;
    let head = write_front(alloc, tables, &mut emitter, &mut environment, part.origin)?;
    let steps = part.steps.as_slice();
    write_body(alloc, tables, &mut emitter, &mut environment, starts, steps)?;
    let key = key_by(alloc, tables.bank, part.origin, program)?;
    let types = emitter.count_types();
    let terms = emitter.count_terms();
    Ok(Record {
        program,
        head,
        captured_types,
        captured: registers,
        types,
        registers: terms,
        key,
        code: emitter.code,
    })
}
