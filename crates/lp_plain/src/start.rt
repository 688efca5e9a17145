// The start of a search: clauses and query flattened and put into tables.
ghost use Rattle.std.specs.Prelude.{◌≡◌, ◌<◌, ◌≤◌, ℕ, List, ◌++◌, [], length, map, reverse, All, IfOk, OnOk, Option, Some, nat_eq};
ghost use Rattle.std.specs.HashMap.{get};
ghost use Rattle.lp_calculus.specs.Typing.{Scheme};
ghost use Rattle.lp_term.specs.Nodes.{Nodes, Extends, tree};
ghost use Rattle.lp_term.specs.Within.{AreTermsOf};
ghost use Rattle.lp_model.specs.Flat.{Clauses, Goals};
ghost use Rattle.lp_model.specs.Flatten.{flatten, flatten_query};
ghost use Rattle.lp_model.specs.Flattened.{clauses_of, goals_of};
ghost use Rattle.lp_model.specs.Readings.{formula_of};
ghost use Rattle.lp_model.specs.Search.{start, vars_from};
ghost use Rattle.lp_normal.specs.Within.{AreGoalsIn, AreClausesIn};
ghost use Rattle.lp_plain.specs.Assuming.{ArePlaced};
ghost use Rattle.lp_plain.specs.Candidates.{AreInOrder, IsIndex, numbers};
ghost use Rattle.lp_plain.specs.Entries.{Around};
ghost use Rattle.lp_plain.specs.Scopes.{IsScope, block_count, value_count};
ghost use Rattle.lp_plain.specs.Searching.{IsStateOf};
ghost use Rattle.lp_plain.specs.Marks.{IsMarked};
ghost use Rattle.lp_plain.specs.Moving.{HasNoVariable, IsState};
ghost use Rattle.lp_plain.specs.Resuming.{AllOfGoals};
ghost use Rattle.lp_plain.specs.Starts.{AreFlat, AreFormulasIn, AreProgramOf, IsAlone, IsOutermost, IsOutside};
ghost use Rattle.lp_plain.specs.Tables.{IsListOf};
ghost use Rattle.lp_plain.specs.Within.{IsTableIn, StandsIn};
ghost use Rattle.lp_plain.specs.WrittenGoals.{GoalsWritten};
ghost use Rattle.lp_plain.specs.WrittenSearch.{IsWrittenSearch};
ghost use Rattle.lp_plain.specs.WrittenTable.{own_and};

use crate::candidates::{Index, index_of};
use crate::frame::Place;
use crate::instance::Values;
use crate::machine::{Branch, Counts, Machine};
use crate::scope::Scopes;
use crate::table::{Span, Table};
use crate::types::Renewal;
use lp_base::Memory;
use lp_model::{Clause, ClauseFormula, Declared, Goal, Program, Typed};
use lp_normal::{NormalRefusal, normalise, query_body};
use lp_pattern::Bindings;
use lp_term::{Bank, TermId, put_logic};
use std::alloc::Global;

/// What is searched, before it was flattened, and the numbers of the clauses of each clause formula.
#[derive(Drop)]
pub(crate) struct Source {
    pub(crate) clauses: Vec<ClauseFormula>,
    pub(crate) spans: Vec<Span>,
    pub(crate) query: Typed,
}

/// A search before its first goal, and the query's variables in order.
#[derive(Drop)]
pub(crate) struct Started {
    pub(crate) machine: Machine,
    pub(crate) constants: Vec<Declared>,
    pub(crate) source: Source,
    pub(crate) variables: Vec<TermId>,
}

// The limits hold of the clauses and the query.
fn flat_clauses(
    alloc: Global,
    bank: &mut Bank,
    formula: ClauseFormula,
) -> Result<Vec<Clause>, Memory>
    ensures kept { Extends bank.old bank.new }
    ensures within { IfOk result (λ cs. AreClausesIn bank.new cs.items) }
    ensures flattened { IfOk result (λ cs. (n : ℕ) (d : ℕ → Option Scheme) (flat : Clauses) (later : Nodes) → flatten n d (formula_of bank.old formula) ≡ Some flat → Extends bank.new later → clauses_of later cs.items ≡ flat) }
{
    match normalise(alloc, bank, formula) {
        Ok(clauses) => Ok(clauses),
        Err(NormalRefusal::Limit(_) | NormalRefusal::Memory) => Err(Memory),
    }
}

fn flat_query(alloc: Global, bank: &mut Bank, query: &Typed) -> Result<Vec<Goal>, Memory>
    ensures kept { Extends bank.old bank.new }
    ensures within { IfOk result (λ gs. AreGoalsIn bank.new gs.items) }
    ensures flattened { IfOk result (λ gs. (n : ℕ) (d : ℕ → Option Scheme) (flat : Goals) (later : Nodes) → flatten_query n d (tree bank.old query.now.formula.0) ≡ Some flat → Extends bank.new later → goals_of later gs.items ≡ flat) }
{
    match query_body(alloc, bank, query) {
        Ok(goals) => Ok(goals),
        Err(NormalRefusal::Limit(_) | NormalRefusal::Memory) => Err(Memory),
    }
}

// Puts the clauses into the table. The numbers of each formula's clauses.
fn put_program(
    alloc: Global,
    bank: &mut Bank,
    formulas: &Vec<ClauseFormula>,
    table: &mut Table,
) -> Result<Vec<Span>, Memory>
    ensures kept { OnOk result (Extends bank.old bank.new) }
    ensures within { OnOk result (IsTableIn (length bank.old.terms) table.old → IsTableIn (length bank.new.terms) table.new) }
    ensures ends { IfOk result (λ spans. All (λ s. s.to ≤ length table.new.rules.items) spans.items) }
    ensures order { IfOk result (λ spans. AreInOrder 0 spans.items) }
    ensures program { IfOk result (λ spans. IsTableIn (length bank.old.terms) table.old → AreFormulasIn bank.old formulas.now.items → (d : ℕ → Option Scheme) (css : List Clauses) → AreFlat d bank.old formulas.now.items css → AreProgramOf bank.new table.new spans.items css) }
{
    let mut spans = Vec::new(alloc);
    'formulas: for at in 0..formulas.len() {
        let clauses = flat_clauses(alloc, bank, formulas[at])?;
        let span = table.put_clauses(alloc, bank, &clauses)?;
        spans.push(span)?;
    }
    Ok(spans)
}

// The table of a program and a query: the numbers of each formula's clauses, and of the query's list of goals.
#[derive(Drop)]
struct Tabled {
    table: Table,
    spans: Vec<Span>,
    index: Index,
    list: usize,
}

fn put_all(
    alloc: Global,
    bank: &mut Bank,
    formulas: &Vec<ClauseFormula>,
    query: &Typed,
) -> Result<Tabled, Memory>
    ensures kept { OnOk result (Extends bank.old bank.new) }
    ensures within { IfOk result (λ made. IsTableIn (length bank.new.terms) made.table) }
    ensures ends { IfOk result (λ made. All (λ k. k < length made.table.rules.items) (numbers made.spans.items)) }
    ensures index { IfOk result (λ made. IsIndex bank.new made.table.rules.items (λ c. get nat_eq made.index c) (numbers made.spans.items)) }
    ensures program { IfOk result (λ made. AreFormulasIn bank.old formulas.now.items → (d : ℕ → Option Scheme) (css : List Clauses) → AreFlat d bank.old formulas.now.items css → AreProgramOf bank.new made.table made.spans.items css) }
    ensures query { IfOk result (λ made. query.now.formula.0 < length bank.old.terms → (n : ℕ) (d : ℕ → Option Scheme) (flat : Goals) → flatten_query n d (tree bank.old query.now.formula.0) ≡ Some flat → IsListOf bank.new made.table made.list flat) }
{
    let mut table = Table::new(alloc);
    let spans = put_program(alloc, bank, formulas, &mut table)?;
    let index = index_of(alloc, bank, &mut table.rules, &spans)?;
    let goals = flat_query(alloc, bank, query)?;
    let list = table.put_goals(alloc, bank, &goals)?;
    Ok(Tabled {
        table,
        spans,
        index,
        list,
    })
}

/// The variables of the query, in order.
pub(crate) fn query_variables(
    alloc: Global,
    bank: &mut Bank,
    count: usize,
) -> Result<Vec<TermId>, Memory>
    ensures count { IfOk result (λ made. length made.items ≡ count) }
    ensures kept { Extends bank.old bank.new }
    ensures within { IfOk result (λ made. AreTermsOf bank.new made.items) }
    ensures trees { IfOk result (λ made. map (λ t. tree bank.new t.0) made.items ≡ vars_from count 0) }
{
    let mut variables = Vec::new(alloc);
    'numbers: for number in 0..count {
        variables.push(put_logic(bank, number as u64, 0)?)?;
    }
    Ok(variables)
}

// The place of the query's goals: the first variable is the outermost index.
fn query_place(alloc: Global, scopes: &mut Scopes, variables: &Vec<TermId>) -> Result<Place, Memory>
    ensures values { OnOk result (scopes.new.values.items ≡ scopes.old.values.items ++ reverse variables.now.items) }
    ensures scope { IfOk result (λ p. IsScope scopes.new (block_count scopes.new) (value_count scopes.new) p.values.scope (reverse variables.now.items)) }
    ensures outside { IfOk result IsOutside }
{
    let mut inner = Vec::from_slice(alloc, variables.as_slice())?;
    inner.reverse();
    let scope = scopes.open(None, inner.as_slice())?;
    // A query keeps its type variables.
    let types = Renewal { count: 0, first: 0 };
    Ok(Place {
        values: Values { scope, types },
        assumed: None,
        standing: None,
        level: 0,
        mark: 0,
    })
}

/// Flattens and puts into tables.
pub(crate) fn begin(
    alloc: Global,
    program: Program,
    query: Typed,
    limit: u64,
) -> Result<Started, Memory>
    ensures variables { IfOk result (λ s. length s.variables.items ≡ length query.vars.items) }
    ensures query { IfOk result (λ s. s.source.query ≡ query) }
    ensures stands { IfOk result (λ s. StandsIn s.machine) }
    ensures index { IfOk result (λ s. IsIndex s.machine.bank s.machine.table.rules.items (λ c. get nat_eq s.machine.index c) (numbers s.source.spans.items)) }
    ensures ends { IfOk result (λ s. All (λ k. k < length s.machine.table.rules.items) (numbers s.source.spans.items)) }
    ensures program { IfOk result (λ s. AreFormulasIn program.bank program.clauses.items → (d : ℕ → Option Scheme) (css : List Clauses) → AreFlat d program.bank program.clauses.items css → AreProgramOf s.machine.bank s.machine.table s.source.spans.items css) }
    ensures starts { IfOk result (λ s. query.formula.0 < length program.bank.terms → (n : ℕ) (d : ℕ → Option Scheme) (flat : Goals) → flatten_query n d (tree program.bank query.formula.0) ≡ Some flat → (a : Around) → IsOutermost a → (answers : ℕ) →
        IsAlone s.machine a (start query.type_vars (length query.vars.items) flat limit answers).stack) }
    ensures state { IfOk result (λ s. query.formula.0 < length program.bank.terms → (n : ℕ) (d : ℕ → Option Scheme) (flat : Goals) → flatten_query n d (tree program.bank query.formula.0) ≡ Some flat → (a : Around) → IsOutermost a → (answers : ℕ) →
        IsStateOf s.machine a (start query.type_vars (length query.vars.items) flat limit answers)) }
    ensures begun { IfOk result (λ s. query.formula.0 < length program.bank.terms → (n : ℕ) (d : ℕ → Option Scheme) (flat : Goals) → flatten_query n d (tree program.bank query.formula.0) ≡ Some flat → AllOfGoals HasNoVariable (length query.vars.items) flat → (arity : ℕ → ℕ) (answers : ℕ) →
        IsState (record { types = query.type_vars; vars = length query.vars.items; arity = arity; outer = [] }) s.machine (start query.type_vars (length query.vars.items) flat limit answers)) }
    ensures written { IfOk result (λ s. query.formula.0 < length program.bank.terms → (n : ℕ) (d : ℕ → Option Scheme) (flat : Goals) → flatten_query n d (tree program.bank query.formula.0) ≡ Some flat → (ar : ℕ → ℕ) (k : ℕ) →
        GoalsWritten ar k (own_and (length query.vars.items) []) flat → IsWrittenSearch s.machine ar) }
    ensures marked { IfOk result (λ s. IsMarked s.machine) }
    ensures placed { IfOk result (λ s. (a : Around) → IsOutermost a → ArePlaced s.machine a) }
    ensures steps { IfOk result (λ s. s.machine.counts.steps ≡ 0) }
    ensures constants { IfOk result (λ s. s.constants ≡ program.constants) }
{
    let Program {
        mut bank,
        constants,
        clauses,
    } = program;
    let made = put_all(alloc, &mut bank, &clauses, &query)?;
    let Tabled {
        table,
        spans,
        index,
        list,
    } = made;
    let count = query.vars.len();
    let variables = query_variables(alloc, &mut bank, count)?;
    let mut scopes = Scopes::new(alloc);
    let place = query_place(alloc, &mut scopes, &variables)?;
    let choices = Vec::new(alloc);
    let frames = Vec::new(alloc);
    let bindings = Bindings::new(alloc);
    let pairs = Vec::new(alloc);
    let mut machine = Machine {
        alloc,
        bank,
        table,
        index,
        bindings,
        scopes,
        frames,
        assumptions: Vec::new(alloc),
        newest: Vec::new(alloc),
        standings: Vec::new(alloc),
        acts: Vec::new(alloc),
        choices,
        denied: None,
        branch: Branch {
            goals: None,
            next: count as u64,
            next_type: query.type_vars,
            pairs,
        },
        counts: Counts {
            limit,
            steps: 0,
            row: 0,
            lost: false,
        },
    };
    let front = machine.put_list(list, place, None)?;
    machine.branch.goals = front;
    let source = Source {
        clauses,
        spans,
        query,
    };
    Ok(Started {
        machine,
        constants,
        source,
        variables,
    })
}
