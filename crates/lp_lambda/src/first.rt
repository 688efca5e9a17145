// The first text of a set of modules and a query that is no pattern text.
ghost use Rattle.std.specs.Prelude.{◌≡◌, suc, map, All, IfOk, MatchOption};
ghost use Rattle.std.specs.Bool.{Decides};
ghost use Rattle.lp_term.specs.Nodes.{Extends, tree};
ghost use Rattle.lp_lambda.specs.Pattern.{IsPatternClause};
ghost use Rattle.lp_lambda.specs.First.{terms_of, formulas_of, ArePatternClauses, IsFirstClause, IsFirstIn, IsVerdict};

use crate::text::{clause_is_pattern, query_is_pattern};
use lp_base::Memory;
use lp_model::{ClauseFormula, Typed};
use lp_module::Module;
use lp_term::{Bank, Changed, Same};
use std::alloc::Global;

/// That all texts are pattern texts; else the first that is none: a clause, by the place of its module from 0 and its number there from 1, or the
/// query.
#[derive(Clone, Copy, Debug, PartialEq, Eq)]
pub enum Verdict {
    Yes,
    Clause(u32, u32),
    Query,
}

// A clause and a module of a text, each of which takes memory, are far fewer than there are numbers.
fn as_number(count: usize) -> Result<u32, Memory>
    ensures { IfOk result (λ number. number ≡ count) }
{
    if count > u32::MAX as usize {
        return Err(Memory);
    }
    Ok(count as u32)
}

// Whether a clause of another bank is pattern text. It is judged in a bank that is left behind, so that no normal form is kept.
fn is_pattern_clause(alloc: Global, bank: &Bank, clause: &ClauseFormula) -> Result<bool, Memory>
    ensures { IfOk result (λ judged. Decides judged (IsPatternClause (tree bank.now clause.now.formula.0))) }
{
    let mut scratch = Bank::new(alloc);
    let mut copied = Changed::new(alloc);
    let formula = copied.copy(alloc, &Same, bank, clause.formula, &mut scratch)?;
    let copy = ClauseFormula {
        type_vars: clause.type_vars,
        formula,
    };
    let judged = clause_is_pattern(alloc, &mut scratch, copy)?;
    Ok(judged)
}

// The number of the first of these clauses that is no pattern text.
fn first_clause(
    alloc: Global,
    bank: &Bank,
    clauses: &[ClauseFormula],
) -> Result<Option<u32>, Memory>
    ensures { IfOk result (λ found. MatchOption found (ArePatternClauses (terms_of bank.now clauses.now)) (IsFirstClause (terms_of bank.now clauses.now))) }
{
    for place in 0..clauses.len() {
        let keeps = is_pattern_clause(alloc, bank, &clauses[place])?;
        if !keeps {
            let number = as_number(place + 1)?;
            return Ok(Some(number));
        }
    }
    Ok(None)
}

// The number of the first clause of a module that is no pattern text.
fn first_of(alloc: Global, among: &Module) -> Result<Option<u32>, Memory>
    ensures { IfOk result (λ found. MatchOption found (ArePatternClauses (formulas_of among.now)) (IsFirstClause (formulas_of among.now))) }
{
    let found = first_clause(alloc, &among.bank, among.clauses.as_slice())?;
    Ok(found)
}

// The place of the first module that has one, and the number of that clause.
fn first_in(alloc: Global, modules: &[Module]) -> Result<Option<(u32, u32)>, Memory>
    ensures { IfOk result (λ found. MatchOption found (All ArePatternClauses (map formulas_of modules.now)) (λ first. IsFirstIn (map formulas_of modules.now) first.0 first.1)) }
{
    for place in 0..modules.len() {
        let found = first_of(alloc, &modules[place])?;
        match found {
            None => continue,
            Some(number) => {
                let at = as_number(place)?;
                return Ok(Some((at, number)));
            }
        }
    }
    Ok(None)
}

/// The first clause of the modules, in their order, that is no pattern text, or the query, if it alone is none. The query's normal form is put into
/// its bank.
///
/// # Errors
/// `Memory`. The sentences and the query are within the limit `normal form`.
pub fn survey(
    alloc: Global,
    modules: &mut [Module],
    bank: &mut Bank,
    query: &Typed,
) -> Result<Verdict, Memory>
    ensures kept { Extends bank.old bank.new }
    ensures modules { modules.new ≡ modules.old }
    ensures verdict { IfOk result (IsVerdict (map formulas_of modules.old) (tree bank.old query.now.formula.0)) }
{
    if let Some((at, number)) = first_in(alloc, modules)? {
        return Ok(Verdict::Clause(at, number));
    }
    let keeps = query_is_pattern(alloc, bank, query)?;
    if keeps {
        return Ok(Verdict::Yes);
    }
    Ok(Verdict::Query)
}
