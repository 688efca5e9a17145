// Whether a negated goal is open: whether a variable, or a type variable in a constant's types, stands in what the variables that are written
// in it, or in the clauses that are assumed at it, stand for.
ghost use Rattle.std.specs.Prelude.{◌≡◌, true, false, ℕ, List, ◌<◌, ◌^◌, length, IfOk};
ghost use Rattle.std.specs.List.{list_any};
ghost use Rattle.lp_calculus.specs.Types.{Ty};
ghost use Rattle.lp_calculus.specs.Term.{Term};
ghost use Rattle.lp_term.specs.Nodes.{Extends, tree};
ghost use Rattle.lp_term.specs.Frame.{IsDeepBeta};
ghost use Rattle.lp_term.specs.Spine.{LooseBelow};
ghost use Rattle.lp_term.specs.declared.node.TermId.{TermId};
ghost use Rattle.lp_model.specs.Pair.{Closing, closed};
ghost use Rattle.lp_pattern.specs.Stripping.{IsShut};
ghost use Rattle.lp_pattern.specs.Under.{AreTypes, IsReading};
ghost use Rattle.lp_plain.specs.declared.openness.Openness.{Openness};
ghost use Rattle.lp_plain.specs.Standings.{is_large, openness_by, IsJudged, IsTypeJudged, OfAll, OfIndex, OfFree, OfStanding};
ghost use Rattle.lp_plain.specs.Renewal.{new_number};
ghost use Rattle.lp_plain.specs.Scopes.{IsScope};

use crate::free::{Free, free_in_term};
use crate::instance::Values;
use crate::scope::Scopes;
use crate::table::Table;
use crate::types::Renewal;
use crate::variables::{has_type_variable, has_variable};
use indexmap::IndexSet;
use lp_base::{Memory, RUN_LIMIT};
use lp_pattern::{Bindings, filled, filled_type};
use lp_term::{Bank, TermId, TermRefusal, beta_normal, put_type_variable};
use std::alloc::Global;

// Reduction takes terms whose loose indices are below it.
const MOST_LOOSE: u64 = 4_294_967_296;

/// Goals that are negated, or clauses that are assumed: the number of what is written in them, what stands for it, and the clauses that were
/// assumed before.
#[derive(Clone, Copy)]
pub(crate) struct Standing {
    pub(crate) free: usize,
    pub(crate) values: Values,
    pub(crate) older: Option<usize>,
}

/// Whether variables are left, or a value is too large to be looked at.
#[derive(Clone, Copy)]
pub(crate) enum Openness {
    Closed,
    Open,
    Deep,
}

/// What stands for what is written.
#[derive(Clone, Copy)]
pub(crate) struct Around<'a> {
    pub(crate) bindings: &'a Bindings,
    pub(crate) scopes: &'a Scopes,
    pub(crate) table: &'a Table,
    pub(crate) standings: &'a [Standing],
}

fn is_closed(openness: Openness) -> bool
    ensures closed { result ≡ true → openness ≡ Openness.Closed }
    ensures left { result ≡ false → openness ≡ Openness.Closed → ⊥ }
{
    match openness {
        Openness::Closed => true,
        Openness::Open | Openness::Deep => false,
    }
}

fn judged(found: bool) -> Openness
    ensures { result ≡ openness_by found }
{
    if found {
        Openness::Open
    } else {
        Openness::Closed
    }
}

fn has_large(numbers: &[u64]) -> bool
    ensures { result ≡ list_any is_large numbers.now }
{
    'numbers: for number in numbers {
        if *number >= MOST_LOOSE {
            return true;
        }
    }
    false
}

/// Whether the loose indices of the term fit 32 bits, so that it can be reduced: by what is known of them, else by a look at all of them.
pub(crate) fn has_small_indices(alloc: Global, bank: &Bank, term: TermId) -> Result<bool, Memory>
    ensures small { IfOk result (λ small. small ≡ true → LooseBelow (2 ^ 32) 0 (tree bank.now term.0)) }
    ensures large { IfOk result (λ small. small ≡ false → LooseBelow (2 ^ 32) 0 (tree bank.now term.0) → ⊥) }
{
    if bank.is_known_below(term, MOST_LOOSE) {
        return Ok(true);
    }
    let free = free_in_term(alloc, bank, term)?;
    let large = has_large(free.variables.as_slice());
    Ok(!large)
}

// A term that has no form within the limits.
fn refused(refusal: TermRefusal) -> Result<Openness, Memory>
    ensures { IfOk result (λ o. (t : Term) → IsDeepBeta 1000000 1000000 t refusal → IsJudged o t) }
{
    match refusal {
        TermRefusal::Deep(_) => Ok(Openness::Deep),
        TermRefusal::Memory => Err(Memory),
    }
}

// By the beta-normal form of the value with all bindings put in.
fn openness_of_term(
    alloc: Global,
    bank: &mut Bank,
    bindings: &Bindings,
    value: TermId,
) -> Result<Openness, Memory>
    ensures kept { Extends bank.old bank.new }
    ensures judged { IfOk result (λ o. (c : Closing) → IsReading bank.old bindings.now c → IsShut c → IsJudged o (closed c (tree bank.old value.0))) }
{
    let full = filled(alloc, bank, bindings, value)?;
    if !has_small_indices(alloc, bank, full)? {
        return Ok(Openness::Deep);
    }
    match beta_normal(alloc, bank, full, RUN_LIMIT, RUN_LIMIT) {
        Ok(normal) => {
            let found = has_variable(alloc, bank, normal)?;
            Ok(judged(found))
        }
        Err(refusal) => {
            let openness = refused(refusal)?;
            Ok(openness)
        }
    }
}

// By what the type variable stands for, with all bindings put in.
fn openness_of_type(
    alloc: Global,
    bank: &mut Bank,
    bindings: &Bindings,
    number: u64,
) -> Result<Openness, Memory>
    ensures kept { Extends bank.old bank.new }
    ensures judged { IfOk result (λ o. (θ : ℕ → Ty) → AreTypes bank.old bindings.now θ → IsTypeJudged o (θ number)) }
{
    let written = put_type_variable(bank, number)?;
    let full = filled_type(alloc, bank, bindings, written)?;
    let mut seen = IndexSet::new(alloc);
    let found = has_type_variable(alloc, bank, &mut seen, &[full])?;
    Ok(judged(found))
}

// By what stands for the variables of these numbers.
fn openness_of_values(
    alloc: Global,
    bank: &mut Bank,
    around: Around<'_>,
    variables: &[u64],
    scope: Option<usize>,
) -> Result<Openness, Memory>
    ensures kept { Extends bank.old bank.new }
    ensures judged { IfOk result (λ o. (c : Closing) → IsReading bank.old around.entry.bindings.now c → IsShut c → (nb nv : ℕ) → (vs : List TermId) → IsScope around.entry.scopes.now nb nv scope vs →
        OfAll (OfIndex bank.old c vs) o variables.now) }
{
    'values: for variable in variables {
        let Some(value) = around.scopes.value(scope, *variable) else {
            return Err(Memory);
        };
        let openness = openness_of_term(alloc, bank, around.bindings, value)?;
        if !is_closed(openness) {
            return Ok(openness);
        }
    }
    Ok(Openness::Closed)
}

// By what stands for the type variables of these numbers.
fn openness_of_types(
    alloc: Global,
    bank: &mut Bank,
    bindings: &Bindings,
    variables: &[u64],
    types: Renewal,
) -> Result<Openness, Memory>
    ensures kept { Extends bank.old bank.new }
    ensures judged { IfOk result (λ o. (θ : ℕ → Ty) → AreTypes bank.old bindings.now θ → OfAll (λ o x. IsTypeJudged o (θ (new_number types x))) o variables.now) }
{
    'types: for variable in variables {
        let openness = openness_of_type(alloc, bank, bindings, types.of(*variable))?;
        if !is_closed(openness) {
            return Ok(openness);
        }
    }
    Ok(Openness::Closed)
}

// By what stands for what is written in goals or clauses.
fn openness_of_free(
    alloc: Global,
    bank: &mut Bank,
    around: Around<'_>,
    free: &Free,
    values: Values,
) -> Result<Openness, Memory>
    ensures kept { Extends bank.old bank.new }
    ensures judged { IfOk result (λ o. (c : Closing) → IsReading bank.old around.entry.bindings.now c → IsShut c → OfFree bank.old c around.entry.scopes.now values free.now o) }
{
    let variables = free.variables.as_slice();
    let openness = openness_of_values(alloc, bank, around, variables, values.scope)?;
    if !is_closed(openness) {
        return Ok(openness);
    }
    let types = free.types.as_slice();
    let other = openness_of_types(alloc, bank, around.bindings, types, values.types)?;
    Ok(other)
}

/// Whether goals are open at the clauses that are assumed around them.
pub(crate) fn openness_of_goal(
    alloc: Global,
    bank: &mut Bank,
    around: Around<'_>,
    goals: Standing,
) -> Result<Openness, Memory>
    ensures kept { Extends bank.old bank.new }
    ensures judged { IfOk result (λ o. (c : Closing) → IsReading bank.old around.entry.bindings.now c → IsShut c →
        OfStanding around.entry.table.now.frees.items around.entry.standings.now (OfFree bank.old c around.entry.scopes.now) (length around.entry.standings.now) o goals) }
{
    let mut standing = goals;
    let mut below = around.standings.len();
    'outwards: loop {
        // Each number stands for something that is written, and the clauses assumed before have an older one.
        if !around.table.has_free(standing.free) {
            return Ok(Openness::Deep);
        }
        let free = around.table.free(standing.free);
        let openness = openness_of_free(alloc, bank, around, free, standing.values)?;
        if !is_closed(openness) {
            return Ok(openness);
        }
        let Some(number) = standing.older else {
            return Ok(Openness::Closed);
        };
        if number >= below {
            return Ok(Openness::Deep);
        }
        let Some(older) = around.standings.get(number) else {
            return Ok(Openness::Deep);
        };
        below = number;
        standing = *older;
    }
}
