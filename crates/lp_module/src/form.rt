// The form of clauses and queries, and the limits on their normal forms.
ghost use Rattle.std.specs.Prelude.{◌<◌, ◌≤◌, ℕ, Bool, Option, true, length, IfOk, IfErr, OnOk};
ghost use Rattle.lp_base.specs.declared.place.Spot.{Spot};
ghost use Rattle.lp_base.specs.declared.limits.TheConstants.{MAX_ARGUMENTS};
ghost use Rattle.lp_calculus.specs.Term.{Term};
ghost use Rattle.lp_calculus.specs.Typing.{Scheme};
ghost use Rattle.lp_term.specs.Nodes.{Extends, tree};
ghost use Rattle.lp_module.specs.Clauses.{IsShortForm, IsFormed};
ghost use Rattle.lp_module.specs.Form.{whole};
ghost use Rattle.lp_module.specs.Refusals.{IsFormFault, IsShort};
ghost use Rattle.lp_module.specs.Schemes.{any_schemes, declared_schemes};
ghost use Rattle.lp_module.specs.inner.Judging.{AreHeads, AreMeasured, IsVerdict};

use crate::fault::ModuleFault;
use crate::heads::Heads;
use crate::judge::{Verdict, judge};
use crate::measure::Measures;
use crate::quantified::LOOSE;
use lp_base::{Limit, MAX_ARGUMENTS, MAX_CONTRACTIONS, MAX_NODES, Spot};
use lp_model::Typed;
use lp_sig::Signature;
use lp_term::{Bank, TermId, TermRefusal, beta_normal};
use std::alloc::Global;

// The beta-normal form of a formula.
fn normal_of(alloc: Global, bank: &mut Bank, formula: TermId) -> Result<TermId, ModuleFault>
    ensures kept { Extends bank.old bank.new }
    ensures within { IfOk result (λ id. id.0 < length bank.new.terms) }
    ensures form { IfOk result (λ id. IsShortForm (tree bank.old formula.0) (tree bank.new id.0)) }
    ensures refused { (d : ℕ → Option Scheme) (goal : Bool) (n : ℕ) (first : Spot) → IfErr result (IsFormFault d goal n (tree bank.old formula.0) first) }
{
    let formula = bank.inside(formula)?;
    if !bank.is_known_below(formula, LOOSE) {
        return Err(ModuleFault::Memory);
    }
    match beta_normal(alloc, bank, formula, MAX_CONTRACTIONS, MAX_NODES) {
        Ok(normal) => Ok(normal),
        Err(TermRefusal::Deep(_)) => Err(ModuleFault::Limit(Limit::NormalForm)),
        Err(TermRefusal::Memory) => Err(ModuleFault::Memory),
    }
}

// The first fault of a formula of which is known what is wrong with it.
fn first_fault(verdict: Verdict, type_vars: u64, first: Spot) -> Result<(), ModuleFault>
    ensures formed { OnOk result ((d : ℕ → Option Scheme) (goal : Bool) (formula form : Term) → IsVerdict d (whole goal form) verdict → IsShortForm formula form → IsFormed d goal type_vars formula) }
    ensures refused { IfErr result (λ e. (d : ℕ → Option Scheme) (goal : Bool) (formula form : Term) → IsVerdict d (whole goal form) verdict → IsShortForm formula form → IsFormFault d goal type_vars formula first e) }
{
    if verdict.deep {
        return Err(ModuleFault::Limit(Limit::Nesting));
    }
    if verdict.wide {
        return Err(ModuleFault::Limit(Limit::Arguments));
    }
    if type_vars > MAX_ARGUMENTS as u64 {
        return Err(ModuleFault::Limit(Limit::Arguments));
    }
    if verdict.in_term {
        return Err(ModuleFault::InTerm(first));
    }
    if verdict.other {
        return Err(ModuleFault::NotClause(first));
    }
    Ok(())
}

/// Whether a sentence or query is within the limits and has the form of its position. `first` is the spot of its first token.
pub(crate) fn check_form(
    alloc: Global,
    bank: &mut Bank,
    heads: &Heads,
    measures: &mut Measures,
    goal: bool,
    type_vars: u64,
    formula: TermId,
    first: Spot,
) -> Result<(), ModuleFault>
    requires measured { AreMeasured bank.old measures.old }
    ensures kept { Extends bank.old bank.new }
    ensures measured { OnOk result (AreMeasured bank.new measures.new) }
    ensures formed { OnOk result ((d : ℕ → Option Scheme) → AreHeads d heads.now → IsFormed d goal type_vars (tree bank.old formula.0)) }
    ensures refused { IfErr result (λ e. (d : ℕ → Option Scheme) → AreHeads d heads.now → IsFormFault d goal type_vars (tree bank.old formula.0) first e) }
{
    let normal = normal_of(alloc, bank, formula)?;
    let verdict = judge(alloc, bank, heads, measures, goal, normal)?;
    first_fault(verdict, type_vars, first)?;
    Ok(())
}

// Whether a query is within the limits and is a goal, where it is known which constants can head a clause.
fn goal_form(
    alloc: Global,
    bank: &mut Bank,
    heads: &Heads,
    query: &Typed,
    first: Spot,
) -> Result<(), ModuleFault>
    ensures kept { Extends bank.old bank.new }
    ensures formed { OnOk result ((d : ℕ → Option Scheme) → AreHeads d heads.now → IsFormed d true query.now.type_vars (tree bank.old query.now.formula.0)) }
    ensures refused { IfErr result (λ e. (d : ℕ → Option Scheme) → AreHeads d heads.now → IsFormFault d true query.now.type_vars (tree bank.old query.now.formula.0) first e) }
{
    let mut measures = Measures::new(alloc);
    check_form(
        alloc,
        bank,
        heads,
        &mut measures,
        true,
        query.type_vars,
        query.formula,
        first,
    )
}

/// Whether a query is within the limits and is a goal, where each constant that is not standard may head an assumed clause. `first` is the spot of its
/// first token.
pub fn query_form(
    alloc: Global,
    bank: &mut Bank,
    query: &Typed,
    first: Spot,
) -> Result<(), ModuleFault>
    ensures kept { Extends bank.old bank.new }
    ensures short { OnOk result (IsShort (tree bank.old query.now.formula.0)) }
    ensures variables { OnOk result (query.now.type_vars ≤ MAX_ARGUMENTS) }
    ensures formed { OnOk result (IsFormed any_schemes true query.now.type_vars (tree bank.old query.now.formula.0)) }
    ensures refused { IfErr result (IsFormFault any_schemes true query.now.type_vars (tree bank.old query.now.formula.0) first) }
{
    goal_form(alloc, bank, &Heads::Any, query, first)?;
    Ok(())
}

/// Whether a query that is written in the names of a signature is within the limits and is a goal: a constant may head an assumed clause where its
/// declared type ends in `o`. `first` is the spot of the query's first token.
pub fn query_form_under(
    alloc: Global,
    bank: &mut Bank,
    names: &Signature,
    query: &Typed,
    first: Spot,
) -> Result<(), ModuleFault>
    ensures kept { Extends bank.old bank.new }
    ensures short { OnOk result (IsShort (tree bank.old query.now.formula.0)) }
    ensures variables { OnOk result (query.now.type_vars ≤ MAX_ARGUMENTS) }
    ensures formed { OnOk result (IsFormed (declared_schemes names.now) true query.now.type_vars (tree bank.old query.now.formula.0)) }
    ensures refused { IfErr result (IsFormFault (declared_schemes names.now) true query.now.type_vars (tree bank.old query.now.formula.0) first) }
{
    let heads = Heads::of(alloc, names)?;
    goal_form(alloc, bank, &heads, query, first)?;
    Ok(())
}
