// The instance of the query.
ghost use Rattle.std.specs.Prelude.{◌≡◌, ◌<◌, length, IfOk};
ghost use Rattle.lp_calculus.specs.Term.{substitute};
ghost use Rattle.lp_term.specs.Nodes.{Extends, tree};
ghost use Rattle.lp_plain.specs.Held.{variables_of, query_of};

use crate::forms::{MOST_LOOSE, normal};
use crate::walk::Walk;
use lp_base::Memory;
use lp_model::Typed;
use lp_plain::Search;
use lp_term::{Bank, TermId, TermRefusal, TypeId, substitute};
use std::alloc::Global;

/// The types and the values of the query's variables.
#[derive(Drop)]
pub(crate) struct Asked {
    pub(crate) types: Vec<TypeId>,
    pub(crate) values: Vec<TermId>,
}

fn types_of(walk: &mut Walk, search: &Search, count: u64) -> Result<Vec<TypeId>, Memory>
    ensures { IfOk result (λ types. length types.items ≡ count) }
{
    let mut types = Vec::new(walk.alloc);
    'variables: for variable in 0..count {
        let of = walk.type_at(search, variable)?;
        types.push(of)?;
    }
    Ok(types)
}

// The type of a variable of the query.
fn type_of(query: &Typed, place: usize) -> Result<TypeId, Memory> {
    match query.vars.get(place) {
        Some((_, of)) => Ok(*of),
        None => Err(Memory),
    }
}

fn values_of(walk: &mut Walk, search: &Search) -> Result<Vec<TermId>, TermRefusal>
    ensures { IfOk result (λ values. length values.items ≡ variables_of search.now) }
{
    let mut values = Vec::new(walk.alloc);
    let variables = search.variables();
    'variables: for place in 0..variables.len() {
        let of = type_of(search.query(), place)?;
        let sort = walk.filled_type(search, of)?;
        let value = walk.value(search, variables[place], sort)?;
        values.push(value)?;
    }
    Ok(values)
}

// The body with the argument for its index 0.
fn contracted(
    alloc: Global,
    bank: &mut Bank,
    body: TermId,
    argument: TermId,
) -> Result<TermId, Memory>
    requires body { body.0 < length bank.old.terms }
    requires argument { argument.0 < length bank.old.terms }
    ensures kept { Extends bank.old bank.new }
    ensures within { IfOk result (λ id. id.0 < length bank.new.terms) }
    ensures tree { IfOk result (λ id. tree bank.new id.0 ≡ substitute (tree bank.old argument.0) (tree bank.old body.0)) }
{
    let _count = bank.term_count();
    if !bank.is_known_below(argument, MOST_LOOSE) {
        return Err(Memory);
    }
    substitute(alloc, bank, body, argument)
}

// The body with the value for its index 0, where both may be any numbers.
fn put_value(alloc: Global, bank: &mut Bank, body: TermId, value: TermId) -> Result<TermId, Memory>
    ensures kept { Extends bank.old bank.new }
{
    let whole = bank.inside(body)?;
    let part = bank.inside(value)?;
    contracted(alloc, bank, whole, part)
}

// The formula with the values for its indices, of which the first value has the greatest.
fn put_values(
    alloc: Global,
    bank: &mut Bank,
    formula: TermId,
    values: &Vec<TermId>,
) -> Result<TermId, Memory> {
    let mut whole = formula;
    'values: for value in values.iter().rev().copied() {
        whole = put_value(alloc, bank, whole, value)?;
    }
    Ok(whole)
}

/// The instance that the answer is; its goal is next.
pub(crate) fn ask(walk: &mut Walk, search: &Search) -> Result<Asked, TermRefusal>
    ensures types { IfOk result (λ asked. length asked.types.items ≡ (query_of search.now).type_vars) }
    ensures values { IfOk result (λ asked. length asked.values.items ≡ variables_of search.now) }
{
    let query = search.query();
    let types = types_of(walk, search, query.type_vars)?;
    let values = values_of(walk, search)?;
    let formula = walk.filled(search, query.formula)?;
    let whole = put_values(walk.alloc, &mut walk.bank, formula, &values)?;
    let goal = normal(walk.alloc, &mut walk.bank, whole)?;
    walk.wait_for_goal(goal)?;
    Ok(Asked { types, values })
}
