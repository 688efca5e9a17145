// The flattening of sentences and queries.
ghost use Rattle.std.specs.Prelude.{◌≡◌, ◌+◌, ◌<◌, ◌≤◌, ◌⊎◌, ℕ, ◌^◌, length, [], All, IfErr, IfOk, OnOk, Option, Some, Bool, true, reverse};
ghost use Rattle.lp_base.specs.declared.limits.TheConstants.{MAX_CLAUSES};
ghost use Rattle.lp_calculus.specs.Typing.{Scheme};
ghost use Rattle.lp_term.specs.Nodes.{Nodes, Extends, tree};
ghost use Rattle.lp_term.specs.Spine.{LooseBelow};
ghost use Rattle.lp_term.specs.Frame.{IsBetaForm};
ghost use Rattle.lp_model.specs.Flat.{Clauses, Goals};
ghost use Rattle.lp_model.specs.Flatten.{flatten, flatten_query};
ghost use Rattle.lp_model.specs.Flattened.{clauses_of, goals_of};
ghost use Rattle.lp_model.specs.Readings.{formula_of};
ghost use Rattle.lp_normal.specs.Counted.{HasManyClauses, HasFewClauses, AssumesManyClauses, AssumesFewClauses, IsOver};
ghost use Rattle.lp_normal.specs.inner.Kinds.{are_goals, is_in_goals, IsNested, IsMoveNested};
ghost use Rattle.lp_normal.specs.inner.Met.{inner_met, frames_met, made_met, move_met, Passes, IsMade};
ghost use Rattle.lp_normal.specs.Within.{AreGoalsIn, AreClausesIn, IsFrameIn, IsInnerIn, IsMadeIn, IsMoveIn};
ghost use Rattle.lp_normal.specs.Making.{Flat, InnerComesTo, IsMadeOf, MoveComesTo};

use crate::clauses::ClauseList;
use crate::fault::NormalRefusal;
use crate::frame::{Frame, Inner, Made, Move};
use crate::goals::{GoalList, Waiting};
use crate::step::step;
use lp_base::Memory;
use lp_model::{Clause, ClauseFormula, Goal, Typed};
use lp_term::{Bank, TermId, beta_normal};
use std::alloc::Global;

// The most contractions and nodes of a beta-normal form.
const MOST_CONTRACTIONS: u64 = 1_000_000;

const MOST_NODES: u64 = 1_000_000;

// The bound of the loose indices of a formula.
const MOST_LOOSE: u64 = 4_294_967_296;

// Whether the formula stands in the bank, and its loose indices are below their bound.
fn is_formula(bank: &Bank, formula: TermId) -> bool
    ensures known { result ≡ true → formula.0 < length bank.now.terms }
    ensures loose { result ≡ true → LooseBelow (2 ^ 32) 0 (tree bank.now formula.0) }
{
    formula.0 < bank.term_count() && bank.is_known_below(formula, MOST_LOOSE)
}

// The beta-normal form of a formula.
fn form(alloc: Global, bank: &mut Bank, formula: TermId) -> Result<TermId, Memory>
    ensures kept { Extends bank.old bank.new }
    ensures within { IfOk result (λ id. id.0 < length bank.new.terms) }
    ensures form { IfOk result (λ id. IsBetaForm 1000000 (tree bank.old formula.0) (tree bank.new id.0)) }
{
    if !is_formula(bank, formula) {
        return Err(Memory);
    }
    match beta_normal(alloc, bank, formula, MOST_CONTRACTIONS, MOST_NODES) {
        Ok(id) => Ok(id),
        Err(_) => Err(Memory),
    }
}

// Goes on until one more clause is met, or all is made.
fn until_clause(
    alloc: Global,
    bank: &mut Bank,
    frames: &mut Vec<Frame>,
    count: &mut u64,
    first: Inner,
) -> Result<Move, NormalRefusal>
    requires frames { All (IsFrameIn bank.old) frames.old.items }
    requires inner { IsInnerIn bank.old first }
    ensures kept { Extends bank.old bank.new }
    ensures frames { OnOk result (All (IsFrameIn bank.new) frames.new.items) }
    ensures within { IfOk result (IsMoveIn bank.new) }
    ensures comes { IfOk result (λ m. (whole : Flat) → InnerComesTo bank.old first frames.old.items whole → MoveComesTo bank.new m frames.new.items whole) }
    ensures kind { IfOk result (λ m. (k : Bool) → IsNested k (is_in_goals first) (reverse frames.old.items) → IsMoveNested k m (reverse frames.new.items)) }
    ensures met { IfOk result (λ m. ((b : Nodes) → inner_met b first + frames_met b frames.old.items ≡ count.old) → (b : Nodes) → move_met b m + frames_met b frames.new.items ≡ count.new) }
    ensures few { OnOk result (count.old ≤ MAX_CLAUSES → count.new ≤ MAX_CLAUSES) }
    ensures over { IfErr result (IsOver (((b : Nodes) → inner_met b first + frames_met b frames.old.items ≡ count.old) → Passes bank.old first frames.old.items count.old)) }
    ensures later { IfOk result (λ m. IsMade m ⊎ (count.old < count.new)) }
{
    let before = *count;
    let mut inner = first;
    'moves: loop {
        match step(alloc, bank, frames, count, inner)? {
            Move::On(next) => {
                if *count != before {
                    return Ok(Move::On(next));
                }
                inner = next;
            }
            Move::Done(made) => return Ok(Move::Done(made)),
        }
    }
}

// The list in the making, made.
fn run(alloc: Global, bank: &mut Bank, first: Inner) -> Result<Made, NormalRefusal>
    requires inner { IsInnerIn bank.old first }
    requires empty { (b : Nodes) → inner_met b first ≡ 0 }
    ensures kept { Extends bank.old bank.new }
    ensures within { IfOk result (IsMadeIn bank.new) }
    ensures made { IfOk result (λ made. (whole : Flat) → InnerComesTo bank.old first [] whole → IsMadeOf bank.new made whole) }
    ensures kind { IfOk result (λ made. are_goals made ≡ is_in_goals first) }
    ensures few { IfOk result (λ made. (b : Nodes) → made_met b made ≤ MAX_CLAUSES) }
    ensures over { IfErr result (IsOver (Passes bank.old first [] 0)) }
{
    let mut frames = Vec::new(alloc);
    let mut count = 0;
    let mut inner = first;
    'clauses: loop {
        match until_clause(alloc, bank, &mut frames, &mut count, inner)? {
            Move::On(next) => inner = next,
            Move::Done(made) => return Ok(made),
        }
    }
}

/// The flattened clauses of a closed clause formula, in written order.
pub fn normalise(
    alloc: Global,
    bank: &mut Bank,
    formula: ClauseFormula,
) -> Result<Vec<Clause>, NormalRefusal>
    ensures kept { Extends bank.old bank.new }
    ensures within { IfOk result (λ cs. AreClausesIn bank.new cs.items) }
    ensures flattened { IfOk result (λ cs. (n : ℕ) (d : ℕ → Option Scheme) (flat : Clauses) (later : Nodes) → flatten n d (formula_of bank.old formula) ≡ Some flat → Extends bank.new later → clauses_of later cs.items ≡ flat) }
    ensures limit { IfErr result (IsOver (HasManyClauses (formula_of bank.old formula))) }
    ensures few { OnOk result (HasFewClauses (formula_of bank.old formula)) }
{
    let id = form(alloc, bank, formula.formula)?;
    let list = ClauseList::of(alloc, id, formula.type_vars, None)?;
    match run(alloc, bank, Inner::Clauses(list))? {
        Made::Clauses(clauses) => Ok(clauses),
        Made::Goals(_) => unreachable!(),
    }
}

/// The flattened goals of a query. Its variables are the outermost indices, the first of them the greatest.
pub fn query_body(alloc: Global, bank: &mut Bank, query: &Typed) -> Result<Vec<Goal>, NormalRefusal>
    ensures kept { Extends bank.old bank.new }
    ensures within { IfOk result (λ gs. AreGoalsIn bank.new gs.items) }
    ensures flattened { IfOk result (λ gs. (n : ℕ) (d : ℕ → Option Scheme) (flat : Goals) (later : Nodes) → flatten_query n d (tree bank.old query.now.formula.0) ≡ Some flat → Extends bank.new later → goals_of later gs.items ≡ flat) }
    ensures limit { IfErr result (IsOver (AssumesManyClauses (tree bank.old query.now.formula.0))) }
    ensures few { OnOk result (AssumesFewClauses (tree bank.old query.now.formula.0)) }
{
    let formula = form(alloc, bank, query.formula)?;
    let list = GoalList::of(alloc, Waiting { formula, level: 0 }, 0)?;
    match run(alloc, bank, Inner::Goals(list))? {
        Made::Goals(goals) => Ok(goals),
        Made::Clauses(_) => unreachable!(),
    }
}
