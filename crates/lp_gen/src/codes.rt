// The code of clauses and queries.
ghost use Rattle.std.specs.Prelude.{◌≡◌, ℕ, List, [], ◌++◌, ◌+◌, ◌-◌, ◌<◌, ◌≤◌, ◌^◌, All, length, sum_by, IfOk, IfErr, OnOk};
ghost use Rattle.lp_code.specs.declared.record.Record.{Record};
ghost use Rattle.lp_code.specs.Length.{length_of, AllFit};
ghost use Rattle.lp_gen.specs.Contract.{DenotesClauses, DenotesQuery, ReadyClauses, ReadyQuery};
ghost use Rattle.lp_gen.specs.Limits.{ClausesPass, ClausesWithin, QueryPasses, QueryWithin};
ghost use Rattle.lp_gen.specs.inner.Limiting.{IsOfPlan};
ghost use Rattle.lp_gen.specs.inner.Planning.{origin_records, most_of};
ghost use Rattle.lp_gen.specs.inner.Groups.{Kept, IsStartOf, AllWritten, PartFull, OriginFull, IsGroup};
ghost use Rattle.lp_gen.specs.inner.Fitting.{IsRefused};
ghost use Rattle.lp_gen.specs.declared.fault.GenRefusal.TheVariants as told;
ghost use Rattle.lp_base.specs.declared.limit.Limit.TheVariants as limit;

use crate::fault::{GenRefusal, RecordRefusal};
use crate::limits::{Source, check_limits};
use crate::plan::{Origin, Part, Plan};
use crate::record::{Starts, count_of_registers, number_of, record_of};
use crate::tables::Tables;
use indexmap::IndexMap;
use lp_code::{Code, Record};
use lp_model::{Clause, Declared, Goal, Typed};
use lp_term::Bank;
use std::alloc::Global;

// The variables with which the records of an assumption start.
fn start_of<'x>(starts: &'x [Starts], none: &'x Starts, within: Option<usize>) -> &'x Starts
    ensures { none.now.entries ≡ [] → IsStartOf starts.now within result.now }
{
    let Some(at) = within else {
        return none;
    };
    if at >= starts.len() {
        return none;
    }
    &starts[at]
}

// The records of parts, behind those so far.
fn add_parts(
    alloc: Global,
    tables: Tables<'_>,
    parts: &[Part<'_>],
    records: &mut Vec<Record>,
) -> Result<(), RecordRefusal>
    requires fit { AllFit records.old.items }
    requires short { All (λ r. sum_by length_of r.code.items < 2 ^ 32) records.old.items }
    ensures fit { OnOk result (AllFit records.new.items) }
    ensures short { OnOk result (All (λ r. sum_by length_of r.code.items < 2 ^ 32) records.new.items) }
    ensures lacks { IfErr result (IsRefused (PartFull tables.entry parts.now)) }
    ensures written { OnOk result ((g : List Record) × (xs : List Kept) × (records.new.items ≡ records.old.items ++ g) × AllWritten tables.entry [] xs parts.now g) }
{
    let none = IndexMap::new(alloc);
    let mut starts = Vec::new(alloc);
    for at in 0..parts.len() {
        let part = &parts[at];
        let mut more = Vec::new(alloc);
        let captured = start_of(starts.as_slice(), &none, part.within);
        let record = record_of(alloc, tables, part, captured, &mut more)?;
        records.push(record)?;
        starts.append(&mut more)?;
    }
    Ok(())
}

// The records of a clause or query, behind those so far.
fn add(
    alloc: Global,
    bank: &Bank,
    constants: &[Declared],
    type_vars: u64,
    origin: Origin<'_>,
    records: &mut Vec<Record>,
) -> Result<(), GenRefusal>
    requires fit { AllFit records.old.items }
    requires short { All (λ r. sum_by length_of r.code.items < 2 ^ 32) records.old.items }
    ensures fit { OnOk result (AllFit records.new.items) }
    ensures short { OnOk result (All (λ r. sum_by length_of r.code.items < 2 ^ 32) records.new.items) }
    ensures group { OnOk result ((g : List Record) × (records.new.items ≡ records.old.items ++ g) × IsGroup bank.now constants.now (length records.old.items) type_vars origin.entry g) }
    ensures count { OnOk result (length records.new.items ≡ length records.old.items + origin_records bank.now origin.entry) }
    ensures within { OnOk result (origin_records bank.now origin.entry ≤ most_of origin.entry) }
    ensures cause { IfErr result (IsOfPlan (origin_records bank.now origin.entry) (most_of origin.entry)) }
    ensures fits { length records.old.items + origin_records bank.now origin.entry < 2 ^ 32 - 1 → OnOk result (OriginFull bank.now constants.now type_vars origin.entry → ⊥) }
    ensures full { length records.old.items + origin_records bank.now origin.entry < 2 ^ 32 - 1 → IfErr result (λ e. e ≡ told.Limit limit.Registers → OriginFull bank.now constants.now type_vars origin.entry) }
{
    let type_vars = count_of_registers(type_vars)?;
    let plan = Plan::of(alloc, bank, origin)?;
    let tables = Tables {
        bank,
        constants,
        type_vars,
        assumptions: plan.assumptions.as_slice(),
        first: number_of(records.len()),
    };
    add_parts(alloc, tables, plan.parts.as_slice(), records)?;
    Ok(())
}

/// The code of flattened clauses: a record for each, in order, and behind it those of the clauses that it assumes. Over the declared constants, and over
/// each table that gives a kind the count of arguments that it has there, the code denotes the clauses.
///
/// # Errors
/// The first of these that is passed: `Limit(Text)` where a string is longer than 65,535 bytes, `Limit(Arguments)` where a head has more than 255 arguments
/// or a constant more than 255 types, `Limit(Nesting)` where a term or blocks of goals nest more than 2,000 deep, `Limit(Clauses)` where there are more than
/// 65,535 records, `Limit(Registers)` where a record needs more than 65,535 registers of one kind or its code takes 2^32 bytes or more.
pub fn generate(
    alloc: Global,
    bank: &Bank,
    constants: &[Declared],
    clauses: &[Clause],
) -> Result<Code, GenRefusal>
    ensures fit { IfOk result (λ code. AllFit code.records.items) }
    ensures short { IfOk result (λ code. All (λ r. sum_by length_of r.code.items < 2 ^ 32) code.records.items) }
    ensures few { IfOk result (λ code. length code.records.items ≤ 65535) }
    ensures denotes { IfOk result (λ code. DenotesClauses bank.now constants.now clauses.now code.records.items) }
    ensures within { OnOk result (ClausesWithin bank.now constants.now clauses.now) }
    ensures cause { IfErr result (ClausesPass bank.now constants.now clauses.now) }
    ensures ready { IfErr result (ReadyClauses bank.now constants.now clauses.now) }
{
    check_limits(alloc, bank, Source::Clauses(clauses, 0))?;
    let mut records = Vec::new(alloc);
    for at in 0..clauses.len() {
        let clause = &clauses[at];
        let origin = Origin::Clause(clause);
        let type_vars = clause.type_vars as u64;
        add(alloc, bank, constants, type_vars, origin, &mut records)?;
    }
    Ok(Code { records })
}

/// The code of a query with these flattened goals: a record without head, whose first registers are the query's variables, and those of the clauses that
/// it assumes.
///
/// # Errors
/// As for `generate`.
pub fn generate_query(
    alloc: Global,
    bank: &Bank,
    constants: &[Declared],
    query: &Typed,
    body: &[Goal],
) -> Result<Code, GenRefusal>
    ensures fit { IfOk result (λ code. AllFit code.records.items) }
    ensures short { IfOk result (λ code. All (λ r. sum_by length_of r.code.items < 2 ^ 32) code.records.items) }
    ensures few { IfOk result (λ code. length code.records.items ≤ 65536) }
    ensures denotes { IfOk result (λ code. DenotesQuery bank.now constants.now query.now body.now code.records.items) }
    ensures within { OnOk result (QueryWithin bank.now constants.now query.now body.now) }
    ensures cause { IfErr result (QueryPasses bank.now constants.now query.now body.now) }
    ensures ready { IfErr result (ReadyQuery bank.now constants.now query.now body.now) }
{
    check_limits(alloc, bank, Source::Goals(body, 0))?;
    let mut records = Vec::new(alloc);
    let origin = Origin::Query(query, body);
    add(
        alloc,
        bank,
        constants,
        query.type_vars,
        origin,
        &mut records,
    )?;
    Ok(Code { records })
}
