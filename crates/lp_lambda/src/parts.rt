// Parts of a formula, taken apart.
ghost use Rattle.std.specs.Prelude.{◌≡◌, ◌<◌, [], ◌∷◌, length, map, All, IfOk, OnOk, nat_eq};
ghost use Rattle.lp_term.specs.Nodes.{Extends, tree};
ghost use Rattle.lp_term.specs.Within.{AreTermsOf};
ghost use Rattle.lp_standard.specs.Numbers as number;
ghost use Rattle.lp_standard.specs.Connectives.{body_of, connective_of as connective_of_term};
ghost use Rattle.lp_lambda.specs.Pattern.{binder_of, variable_parts, inside_parts, goal_parts, clause_parts, parts_at};
ghost use Rattle.lp_lambda.specs.inner.Walking.{scope_of, AreTasksIn, IsPut, IsTaken};

use crate::names::are_names;
use crate::reading::body;
use crate::walk::{Binder, Position, Walk};
use lp_base::Memory;
use lp_model::{Connective, connective_of};
use lp_standard::Constant;
use lp_term::{Bank, TermId, TermNode, spine_of};
use std::alloc::Global;

// The body of a quantifier on this term is the next part, under its binder.
fn take_body(
    alloc: Global,
    bank: &mut Bank,
    walk: &mut Walk,
    binder: Binder,
    position: Position,
    on: TermId,
) -> Result<(), Memory>
    requires tasks { AreTasksIn bank.old walk.old }
    requires on { on.0 < length bank.old.terms }
    ensures kept { Extends bank.old bank.new }
    ensures put { OnOk result (IsPut bank.old bank.new (record { position = position; binders = binder ∷ scope_of walk.old; term = body_of (tree bank.old on.0) } ∷ []) walk.old walk.new) }
{
    let inner = body(alloc, bank, on)?;
    walk.visit_under(binder, position, inner)?;
    Ok(())
}

// The parts of a goal.
fn take_goal(alloc: Global, bank: &mut Bank, walk: &mut Walk, term: TermId) -> Result<(), Memory>
    requires tasks { AreTasksIn bank.old walk.old }
    requires term { term.0 < length bank.old.terms }
    ensures kept { Extends bank.old bank.new }
    ensures put { OnOk result (IsPut bank.old bank.new (goal_parts (scope_of walk.old) (tree bank.old term.0) (connective_of_term (tree bank.old term.0))) walk.old walk.new) }
{
    match connective_of(bank, term) {
        Connective::True => Ok(()),
        Connective::Cut => Ok(()),
        Connective::And(left, right) => {
            walk.visit_both(Position::Goal, left, Position::Goal, right)?;
            Ok(())
        }
        Connective::Or(left, right) => {
            walk.visit_both(Position::Goal, left, Position::Goal, right)?;
            Ok(())
        }
        Connective::Implies(clause, goal) => {
            walk.visit_both(Position::Clause, clause, Position::Goal, goal)?;
            Ok(())
        }
        Connective::ForAll(_, on) => {
            take_body(alloc, bank, walk, Binder::Universal, Position::Goal, on)?;
            Ok(())
        }
        Connective::Exists(_, on) => {
            take_body(alloc, bank, walk, Binder::Existential, Position::Goal, on)?;
            Ok(())
        }
        Connective::Not(on) => {
            walk.visit(Position::Goal, on)?;
            Ok(())
        }
        Connective::Atomic => {
            walk.visit(Position::Inside, term)?;
            Ok(())
        }
    }
}

// The parts of a clause.
fn take_clause(alloc: Global, bank: &mut Bank, walk: &mut Walk, term: TermId) -> Result<(), Memory>
    requires tasks { AreTasksIn bank.old walk.old }
    requires term { term.0 < length bank.old.terms }
    ensures kept { Extends bank.old bank.new }
    ensures put { OnOk result (IsPut bank.old bank.new (clause_parts (scope_of walk.old) (tree bank.old term.0) (connective_of_term (tree bank.old term.0))) walk.old walk.new) }
{
    match connective_of(bank, term) {
        Connective::And(left, right) => {
            walk.visit_both(Position::Clause, left, Position::Clause, right)?;
            Ok(())
        }
        Connective::Implies(goal, clause) => {
            walk.visit_both(Position::Goal, goal, Position::Clause, clause)?;
            Ok(())
        }
        Connective::ForAll(_, on) => {
            take_body(alloc, bank, walk, Binder::Existential, Position::Clause, on)?;
            Ok(())
        }
        _ => {
            walk.visit(Position::Inside, term)?;
            Ok(())
        }
    }
}

// The parts of a variable on arguments.
fn take_variable(
    bank: &Bank,
    walk: &mut Walk,
    index: u64,
    arguments: &[TermId],
) -> Result<bool, Memory>
    requires tasks { AreTasksIn bank.now walk.old }
    requires arguments { AreTermsOf bank.now arguments.now }
    ensures { IfOk result (IsTaken bank.now bank.now (variable_parts (binder_of (scope_of walk.old) index) (scope_of walk.old) index (map (λ t. tree bank.now t.0) arguments.now)) walk.old walk.new) }
{
    match walk.binder(index) {
        Binder::Existential => Ok(are_names(bank, walk, index, arguments)),
        Binder::Universal => {
            walk.visit_all(arguments)?;
            Ok(true)
        }
    }
}

fn is_sigma(constant: u32) -> bool
    ensures { result ≡ nat_eq constant number.Exists }
{
    constant == Constant::Exists.number()
}

// The parts of a head on arguments.
fn take_head(
    bank: &Bank,
    walk: &mut Walk,
    head: TermId,
    arguments: &[TermId],
) -> Result<bool, Memory>
    requires tasks { AreTasksIn bank.now walk.old }
    requires arguments { AreTermsOf bank.now arguments.now }
    ensures { IfOk result (IsTaken bank.now bank.now (inside_parts (scope_of walk.old) (tree bank.now head.0) (map (λ t. tree bank.now t.0) arguments.now)) walk.old walk.new) }
{
    match bank.term_node(head) {
        TermNode::Index(index) => {
            let keeps = take_variable(bank, walk, index, arguments)?;
            Ok(keeps)
        }
        TermNode::Const(constant, _) => {
            if is_sigma(constant) {
                return Ok(false);
            }
            walk.visit_all(arguments)?;
            Ok(true)
        }
        TermNode::Abs(body) => {
            walk.visit_all(arguments)?;
            walk.visit_under(Binder::Universal, Position::Inside, body)?;
            Ok(true)
        }
        TermNode::App(_, _) => Ok(false),
        _ => {
            walk.visit_all(arguments)?;
            Ok(true)
        }
    }
}

/// Whether a part keeps the rule. Its own parts then are the next ones.
pub(crate) fn take(
    alloc: Global,
    bank: &mut Bank,
    walk: &mut Walk,
    position: Position,
    term: TermId,
) -> Result<bool, Memory>
    requires tasks { AreTasksIn bank.old walk.old }
    requires term { term.0 < length bank.old.terms }
    ensures kept { Extends bank.old bank.new }
    ensures taken { IfOk result (IsTaken bank.old bank.new (parts_at position (scope_of walk.old) (tree bank.old term.0)) walk.old walk.new) }
{
    match position {
        Position::Goal => {
            take_goal(alloc, bank, walk, term)?;
            Ok(true)
        }
        Position::Clause => {
            take_clause(alloc, bank, walk, term)?;
            Ok(true)
        }
        Position::Inside => {
            let spine = spine_of(alloc, bank, term)?;
            let keeps = take_head(bank, walk, spine.head, spine.args.as_slice())?;
            Ok(keeps)
        }
    }
}
