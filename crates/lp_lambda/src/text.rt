// Clauses and queries.
ghost use Rattle.std.specs.Prelude.{◌≡◌, ◌+◌, ◌<◌, ◌∷◌, length, reverse, IfOk};
ghost use Rattle.std.specs.Bool.{Decides};
ghost use Rattle.lp_calculus.specs.Normal.{IsFormOf};
ghost use Rattle.lp_term.specs.Nodes.{Extends, tree};
ghost use Rattle.lp_lambda.specs.Pattern.{IsPatternText, IsPatternClause, IsPatternQuery, ArePatterns};
ghost use Rattle.lp_lambda.specs.inner.Walking.{outer, parts_left, scope_of, left, IsTaskIn, AreTasksIn, task_weight, work, Leads};

use crate::parts::take;
use crate::reading::LOOSE;
use crate::walk::{Position, Task, Walk};
use lp_base::Memory;
use lp_model::{ClauseFormula, Typed};
use lp_term::{Bank, TermId, normal_form};
use std::alloc::Global;

// The beta-eta normal form, without limits: a sentence has one within the limit `normal form`.
fn form_of(alloc: Global, bank: &mut Bank, formula: TermId) -> Result<TermId, Memory>
    ensures kept { Extends bank.old bank.new }
    ensures within { IfOk result (λ id. id.0 < length bank.new.terms) }
    ensures form { IfOk result (λ id. IsFormOf (tree bank.old formula.0) (tree bank.new id.0)) }
{
    let inside = bank.inside(formula)?;
    if !bank.is_known_below(inside, LOOSE) {
        return Err(Memory);
    }
    match normal_form(alloc, bank, inside, u64::MAX, u64::MAX) {
        Ok(form) => Ok(form),
        Err(_) => Err(Memory),
    }
}

// The innermost binder is left.
fn leave(walk: &mut Walk)
    ensures scope { scope_of walk.new ≡ outer (scope_of walk.old) }
    ensures work { walk.new.work ≡ walk.old.work }
{
    let _binder = walk.scope.pop();
}

// Does a task. Whether its part keeps the rule.
fn go_on(alloc: Global, bank: &mut Bank, walk: &mut Walk, task: Task) -> Result<bool, Memory>
    requires tasks { AreTasksIn bank.old walk.old }
    requires task { IsTaskIn bank.old task }
    ensures kept { Extends bank.old bank.new }
    ensures leads { IfOk result (Leads bank.new (parts_left bank.old (scope_of walk.old) (task ∷ reverse walk.old.work.items)) (task_weight bank.old task + work bank.old walk.old.work.items) walk.new) }
{
    match task {
        Task::Leave => {
            leave(walk);
            Ok(true)
        }
        Task::Visit(position, part) => {
            let keeps = take(alloc, bank, walk, position, part)?;
            Ok(keeps)
        }
    }
}

// Whether all parts that are left are pattern text.
fn walk_on(alloc: Global, bank: &mut Bank, mut walk: Walk) -> Result<bool, Memory>
    requires { AreTasksIn bank.old walk }
    ensures kept { Extends bank.old bank.new }
    ensures judged { IfOk result (λ judged. Decides judged (ArePatterns (left bank.old walk))) }
{
    'tasks: loop {
        let Some(task) = walk.work.pop() else {
            return Ok(true);
        };
        if !go_on(alloc, bank, &mut walk, task)? {
            return Ok(false);
        }
    }
}

fn is_pattern(
    alloc: Global,
    bank: &mut Bank,
    position: Position,
    formula: TermId,
) -> Result<bool, Memory>
    ensures kept { Extends bank.old bank.new }
    ensures judged { IfOk result (λ judged. Decides judged (IsPatternText position (tree bank.old formula.0))) }
{
    let form = form_of(alloc, bank, formula)?;
    let walk = Walk::of(alloc, position, form)?;
    let judged = walk_on(alloc, bank, walk)?;
    Ok(judged)
}

/// Whether a closed clause formula is pattern text. Its beta-eta normal form is judged, and is put into the bank.
///
/// # Errors
/// `Memory`. The formula is a sentence within the limit `normal form`.
pub fn clause_is_pattern(
    alloc: Global,
    bank: &mut Bank,
    formula: ClauseFormula,
) -> Result<bool, Memory>
    ensures kept { Extends bank.old bank.new }
    ensures judged { IfOk result (λ judged. Decides judged (IsPatternClause (tree bank.old formula.formula.0))) }
{
    let judged = is_pattern(alloc, bank, Position::Clause, formula.formula)?;
    Ok(judged)
}

/// Whether the formula of a query is pattern text. The query's variables, its loose indices, are existential.
///
/// # Errors
/// `Memory`. The formula is within the limit `normal form`.
pub fn query_is_pattern(alloc: Global, bank: &mut Bank, query: &Typed) -> Result<bool, Memory>
    ensures kept { Extends bank.old bank.new }
    ensures judged { IfOk result (λ judged. Decides judged (IsPatternQuery (tree bank.old query.now.formula.0))) }
{
    let judged = is_pattern(alloc, bank, Position::Goal, query.formula)?;
    Ok(judged)
}
