// The moves of the flattening.
ghost use Rattle.std.specs.Prelude.{◌≡◌, ◌+◌, ◌<◌, ◌≤◌, ◌⊎◌, suc, length, [], Bool, true, All, IfErr, IfOk, OnOk, reverse};
ghost use Rattle.lp_base.specs.declared.limits.TheConstants.{MAX_CLAUSES};
ghost use Rattle.lp_calculus.specs.Term.{shift};
ghost use Rattle.lp_term.specs.Nodes.{Nodes, Extends, tree, type_tree};
ghost use Rattle.lp_standard.specs.Connectives.{body_of, connective_of};
ghost use Rattle.lp_standard.specs.Connectives as connective;
ghost use Rattle.lp_model.specs.Flat.{Goals, no_goals, no_clauses};
ghost use Rattle.lp_model.specs.Flattened.{goals_of};
ghost use Rattle.lp_normal.specs.Counted.{count_in_goals, PassesLimit, IsOver};
ghost use Rattle.lp_normal.specs.declared.fault.NormalRefusal.TheVariants as refusal;
ghost use Rattle.lp_normal.specs.inner.Kinds.{is_assumed, is_in_goals, waits_in_goals, IsNested, IsMoveNested};
ghost use Rattle.lp_normal.specs.inner.Met.{list_met, clause_list_met, frame_met, frames_met, inner_met, move_met, flat_count, Passes};
ghost use Rattle.lp_normal.specs.inner.Work.{formula_work, list_work, part_work, clause_list_work, frame_work, frames_work, inner_work, move_work};
ghost use Rattle.lp_normal.specs.Within.{AreGoalsIn, IsWaitingIn, IsGoalListIn, IsClauseListIn, IsFrameIn, IsInnerIn, IsMoveIn};
ghost use Rattle.lp_normal.specs.Making.{Flat, these_goals, Reads, NextComesTo, PartComesTo, ComesTo, ClausesComeTo, Turns, AllTurn, InnerComesTo, MoveComesTo};

use crate::clauses::{Assumed, ClauseList, Link, Part};
use crate::fault::NormalRefusal;
use crate::frame::{Frame, Inner, Made, Move};
use crate::goals::{GoalList, Waiting};
use crate::raising::{body, raised};
use lp_base::{Limit, MAX_CLAUSES, Memory};
use lp_model::{Clause, Connective, Goal, connective_of};
use lp_term::{Bank, TermId, TypeId};
use std::alloc::Global;

// The body of a quantifier on a term that is raised first.
fn raised_body(alloc: Global, bank: &mut Bank, on: TermId, by: u64) -> Result<TermId, Memory>
    requires on { on.0 < length bank.old.terms }
    ensures kept { Extends bank.old bank.new }
    ensures within { IfOk result (λ made. made.0 < length bank.new.terms) }
    ensures tree { IfOk result (λ made. tree bank.new made.0 ≡ body_of (shift 0 by (tree bank.old on.0))) }
{
    let under = raised(alloc, bank, on, by)?;
    let made = body(alloc, bank, under)?;
    Ok(made)
}

// An atom.
fn atom(alloc: Global, bank: &mut Bank, list: GoalList, next: Waiting) -> Result<GoalList, Memory>
    requires list { IsGoalListIn bank.old list }
    requires next { IsWaitingIn bank.old list.level next }
    requires form { connective_of (tree bank.old next.formula.0) ≡ connective.Atomic }
    ensures kept { Extends bank.old bank.new }
    ensures within { IfOk result (IsGoalListIn bank.new) }
    ensures comes { IfOk result (λ l. (out : Goals) → NextComesTo bank.old list next out → ComesTo bank.new l no_goals out) }
    ensures met { IfOk result (λ l. (b : Nodes) → list_met b l ≡ list_met b list) }
    ensures less { IfOk result (λ l. (c : Nodes) → Extends bank.new c → list_work c l < list_work c list + formula_work c next) }
{
    let by = list.raise_from(next.level);
    let id = raised(alloc, bank, next.formula, by)?;
    let made = list.with(Goal::Atom(id))?;
    Ok(made)
}

// A `sigma`, which takes the goals behind it into its scope.
fn exists(
    alloc: Global,
    bank: &mut Bank,
    list: GoalList,
    next: Waiting,
    bound: TypeId,
    on: TermId,
) -> Result<GoalList, Memory>
    requires list { IsGoalListIn bank.old list }
    requires next { IsWaitingIn bank.old list.level next }
    requires bound { bound.0 < length bank.old.types }
    requires on { on.0 < length bank.old.terms }
    requires form { connective_of (tree bank.old next.formula.0) ≡ connective.Exists (type_tree bank.old bound.0) (body_of (tree bank.old on.0)) }
    ensures kept { Extends bank.old bank.new }
    ensures within { IfOk result (IsGoalListIn bank.new) }
    ensures comes { IfOk result (λ l. (out : Goals) → NextComesTo bank.old list next out → ComesTo bank.new l no_goals out) }
    ensures met { IfOk result (λ l. (b : Nodes) → list_met b l ≡ list_met b list) }
    ensures less { IfOk result (λ l. (c : Nodes) → Extends bank.new c → list_work c l < list_work c list + formula_work c next) }
{
    let by = list.raise_from(next.level);
    let inside = raised_body(alloc, bank, on, by)?;
    let made = list.open(alloc, bound, inside)?;
    Ok(made)
}

// A `pi`.
fn for_all(
    alloc: Global,
    bank: &mut Bank,
    frames: &mut Vec<Frame>,
    list: GoalList,
    next: Waiting,
    bound: TypeId,
    on: TermId,
) -> Result<GoalList, Memory>
    requires frames { All (IsFrameIn bank.old) frames.old.items }
    requires list { IsGoalListIn bank.old list }
    requires next { IsWaitingIn bank.old list.level next }
    requires bound { bound.0 < length bank.old.types }
    requires on { on.0 < length bank.old.terms }
    requires form { connective_of (tree bank.old next.formula.0) ≡ connective.ForAll (type_tree bank.old bound.0) (body_of (tree bank.old on.0)) }
    ensures kept { Extends bank.old bank.new }
    ensures frames { OnOk result (All (IsFrameIn bank.new) frames.new.items) }
    ensures within { IfOk result (IsGoalListIn bank.new) }
    ensures comes { IfOk result (λ l. (out : Goals) (whole : Flat) → NextComesTo bank.old list next out → AllTurn bank.old (reverse frames.old.items) (these_goals out) whole → InnerComesTo bank.new (Inner.Goals l) frames.new.items whole) }
    ensures kind { OnOk result ((k : Bool) → IsNested k true (reverse frames.old.items) → IsNested k true (reverse frames.new.items)) }
    ensures met { IfOk result (λ l. (b : Nodes) → list_met b l + frames_met b frames.new.items ≡ list_met b list + frames_met b frames.old.items) }
    ensures less { IfOk result (λ l. (c : Nodes) → Extends bank.new c → list_work c l + frames_work c frames.new.items < list_work c list + formula_work c next + frames_work c frames.old.items) }
{
    let by = list.raise_from(next.level);
    let formula = raised_body(alloc, bank, on, by)?;
    let inner = GoalList::of(alloc, Waiting { formula, level: 0 }, 0)?;
    frames.push(Frame::All(list, bound))?;
    Ok(inner)
}

// A `;`: its left goals are next.
fn either(
    alloc: Global,
    bank: &Bank,
    frames: &mut Vec<Frame>,
    list: GoalList,
    next: Waiting,
    left: TermId,
    right: TermId,
) -> Result<GoalList, Memory>
    requires frames { All (IsFrameIn bank.now) frames.old.items }
    requires list { IsGoalListIn bank.now list }
    requires next { IsWaitingIn bank.now list.level next }
    requires left { left.0 < length bank.now.terms }
    requires right { right.0 < length bank.now.terms }
    requires form { connective_of (tree bank.now next.formula.0) ≡ connective.Or (tree bank.now left.0) (tree bank.now right.0) }
    ensures frames { OnOk result (All (IsFrameIn bank.now) frames.new.items) }
    ensures within { IfOk result (IsGoalListIn bank.now) }
    ensures comes { IfOk result (λ l. (out : Goals) (whole : Flat) → NextComesTo bank.now list next out → AllTurn bank.now (reverse frames.old.items) (these_goals out) whole → InnerComesTo bank.now (Inner.Goals l) frames.new.items whole) }
    ensures kind { OnOk result ((k : Bool) → IsNested k true (reverse frames.old.items) → IsNested k true (reverse frames.new.items)) }
    ensures met { IfOk result (λ l. (b : Nodes) → list_met b l + frames_met b frames.new.items ≡ list_met b list + frames_met b frames.old.items) }
    ensures less { IfOk result (λ l. (c : Nodes) → Extends bank.now c → list_work c l + frames_work c frames.new.items < list_work c list + formula_work c next + frames_work c frames.old.items) }
{
    let first = Waiting {
        formula: left,
        level: next.level,
    };
    let second = Waiting {
        formula: right,
        level: next.level,
    };
    let inner = GoalList::of(alloc, first, list.level)?;
    frames.push(Frame::Left(list, second))?;
    Ok(inner)
}

// A `=>`: its clauses are next.
fn assume(
    alloc: Global,
    bank: &mut Bank,
    list: GoalList,
    next: Waiting,
    clause: TermId,
    goal: TermId,
) -> Result<ClauseList, Memory>
    requires list { IsGoalListIn bank.old list }
    requires next { IsWaitingIn bank.old list.level next }
    requires clause { clause.0 < length bank.old.terms }
    requires goal { goal.0 < length bank.old.terms }
    requires form { connective_of (tree bank.old next.formula.0) ≡ connective.Implies (tree bank.old clause.0) (tree bank.old goal.0) }
    ensures kept { Extends bank.old bank.new }
    ensures within { IfOk result (IsClauseListIn bank.new) }
    ensures comes { IfOk result (λ l. (out : Goals) → NextComesTo bank.old list next out → ClausesComeTo bank.new l no_clauses (these_goals out)) }
    ensures kind { IfOk result (λ l. is_assumed l.assumed ≡ true) }
    ensures met { IfOk result (λ l. (b : Nodes) → clause_list_met b l ≡ list_met b list) }
    ensures less { IfOk result (λ l. (c : Nodes) → Extends bank.new c → clause_list_work c l < list_work c list + formula_work c next) }
{
    let by = list.raise_from(next.level);
    let formula = raised(alloc, bank, clause, by)?;
    let goal = Waiting {
        formula: goal,
        level: next.level,
    };
    let inner = ClauseList::of(alloc, formula, 0, Some(Assumed { outer: list, goal }))?;
    Ok(inner)
}

// A `not`: its goals are next.
fn negated(
    alloc: Global,
    bank: &Bank,
    frames: &mut Vec<Frame>,
    list: GoalList,
    next: Waiting,
    on: TermId,
) -> Result<GoalList, Memory>
    requires frames { All (IsFrameIn bank.now) frames.old.items }
    requires list { IsGoalListIn bank.now list }
    requires next { IsWaitingIn bank.now list.level next }
    requires on { on.0 < length bank.now.terms }
    requires form { connective_of (tree bank.now next.formula.0) ≡ connective.Not (tree bank.now on.0) }
    ensures frames { OnOk result (All (IsFrameIn bank.now) frames.new.items) }
    ensures within { IfOk result (IsGoalListIn bank.now) }
    ensures comes { IfOk result (λ l. (out : Goals) (whole : Flat) → NextComesTo bank.now list next out → AllTurn bank.now (reverse frames.old.items) (these_goals out) whole → InnerComesTo bank.now (Inner.Goals l) frames.new.items whole) }
    ensures kind { OnOk result ((k : Bool) → IsNested k true (reverse frames.old.items) → IsNested k true (reverse frames.new.items)) }
    ensures met { IfOk result (λ l. (b : Nodes) → list_met b l + frames_met b frames.new.items ≡ list_met b list + frames_met b frames.old.items) }
    ensures less { IfOk result (λ l. (c : Nodes) → Extends bank.now c → list_work c l + frames_work c frames.new.items < list_work c list + formula_work c next + frames_work c frames.old.items) }
{
    let first = Waiting {
        formula: on,
        level: next.level,
    };
    let inner = GoalList::of(alloc, first, list.level)?;
    frames.push(Frame::Not(list))?;
    Ok(inner)
}

// The next formula of a list of goals.
fn next_goal(
    alloc: Global,
    bank: &mut Bank,
    frames: &mut Vec<Frame>,
    list: GoalList,
    next: Waiting,
) -> Result<Inner, Memory>
    requires frames { All (IsFrameIn bank.old) frames.old.items }
    requires list { IsGoalListIn bank.old list }
    requires next { IsWaitingIn bank.old list.level next }
    ensures kept { Extends bank.old bank.new }
    ensures frames { OnOk result (All (IsFrameIn bank.new) frames.new.items) }
    ensures within { IfOk result (IsInnerIn bank.new) }
    ensures comes { IfOk result (λ inner. (out : Goals) (whole : Flat) → NextComesTo bank.old list next out → AllTurn bank.old (reverse frames.old.items) (these_goals out) whole → InnerComesTo bank.new inner frames.new.items whole) }
    ensures kind { IfOk result (λ inner. (k : Bool) → IsNested k true (reverse frames.old.items) → IsNested k (is_in_goals inner) (reverse frames.new.items)) }
    ensures met { IfOk result (λ inner. (b : Nodes) → inner_met b inner + frames_met b frames.new.items ≡ list_met b list + frames_met b frames.old.items) }
    ensures less { IfOk result (λ inner. (c : Nodes) → Extends bank.new c → inner_work c inner + frames_work c frames.new.items < list_work c list + formula_work c next + frames_work c frames.old.items) }
{
    match connective_of(bank, next.formula) {
        Connective::True => Ok(Inner::Goals(list)),
        Connective::Cut => {
            let made = list.with(Goal::Cut)?;
            Ok(Inner::Goals(made))
        }
        Connective::And(left, right) => {
            let made = list.wait_for(left, right, next.level)?;
            Ok(Inner::Goals(made))
        }
        Connective::Or(left, right) => {
            let made = either(alloc, bank, frames, list, next, left, right)?;
            Ok(Inner::Goals(made))
        }
        Connective::Implies(clause, goal) => {
            let made = assume(alloc, bank, list, next, clause, goal)?;
            Ok(Inner::Clauses(made))
        }
        Connective::ForAll(bound, on) => {
            let made = for_all(alloc, bank, frames, list, next, bound, on)?;
            Ok(Inner::Goals(made))
        }
        Connective::Exists(bound, on) => {
            let made = exists(alloc, bank, list, next, bound, on)?;
            Ok(Inner::Goals(made))
        }
        Connective::Not(on) => {
            let made = negated(alloc, bank, frames, list, next, on)?;
            Ok(Inner::Goals(made))
        }
        Connective::Atomic => {
            let made = atom(alloc, bank, list, next)?;
            Ok(Inner::Goals(made))
        }
    }
}

// The goals are what the innermost frame waits for.
fn take_goals(
    alloc: Global,
    frame: Frame,
    frames: &mut Vec<Frame>,
    goals: Vec<Goal>,
) -> Result<Inner, Memory>
    ensures frames { OnOk result ((b : Nodes) → All (IsFrameIn b) frames.old.items → IsFrameIn b frame → AreGoalsIn b goals.items → All (IsFrameIn b) frames.new.items) }
    ensures within { IfOk result (λ inner. (b : Nodes) → IsFrameIn b frame → AreGoalsIn b goals.items → IsInnerIn b inner) }
    ensures comes { IfOk result (λ inner. (b : Nodes) (gs : Goals) (next whole : Flat) → IsFrameIn b frame → Reads b goals.items gs → Turns b frame gs next → AllTurn b (reverse frames.old.items) next whole → InnerComesTo b inner frames.new.items whole) }
    ensures kind { IfOk result (λ inner. (k : Bool) → IsNested k (waits_in_goals frame) (reverse frames.old.items) → IsNested k (is_in_goals inner) (reverse frames.new.items)) }
    ensures met { IfOk result (λ inner. (b : Nodes) → inner_met b inner + frames_met b frames.new.items ≡ frame_met b frame + frames_met b frames.old.items + count_in_goals (goals_of b goals.items)) }
    ensures less { IfOk result (λ inner. (c : Nodes) → inner_work c inner + frames_work c frames.new.items ≤ frame_work c frame + frames_work c frames.old.items) }
{
    match frame {
        Frame::Left(outer, right) => {
            let inner = GoalList::of(alloc, right, outer.level)?;
            frames.push(Frame::Right(outer, goals))?;
            Ok(Inner::Goals(inner))
        }
        Frame::Right(outer, left) => {
            let made = outer.with(Goal::Either(left, goals))?;
            Ok(Inner::Goals(made))
        }
        Frame::All(outer, bound) => {
            let made = outer.with(Goal::All(bound, goals))?;
            Ok(Inner::Goals(made))
        }
        Frame::Assume(outer, clauses) => {
            let made = outer.with(Goal::Assume(clauses, goals))?;
            Ok(Inner::Goals(made))
        }
        Frame::Not(outer) => {
            let made = outer.with(Goal::Not(goals))?;
            Ok(Inner::Goals(made))
        }
        Frame::Body(outer, vars, head) => {
            let clause = Clause {
                type_vars: outer.type_vars,
                vars,
                head,
                body: goals,
            };
            let made = outer.with(clause)?;
            Ok(Inner::Clauses(made))
        }
    }
}

// The goals are all made.
fn end_goals(
    alloc: Global,
    bank: &Bank,
    frames: &mut Vec<Frame>,
    list: GoalList,
) -> Result<Move, Memory>
    requires frames { All (IsFrameIn bank.now) frames.old.items }
    requires list { IsGoalListIn bank.now list }
    requires waiting { list.waiting.items ≡ [] }
    ensures frames { OnOk result (All (IsFrameIn bank.now) frames.new.items) }
    ensures within { IfOk result (IsMoveIn bank.now) }
    ensures comes { IfOk result (λ m. (whole : Flat) → InnerComesTo bank.now (Inner.Goals list) frames.old.items whole → MoveComesTo bank.now m frames.new.items whole) }
    ensures kind { IfOk result (λ m. (k : Bool) → IsNested k true (reverse frames.old.items) → IsMoveNested k m (reverse frames.new.items)) }
    ensures met { IfOk result (λ m. (b : Nodes) → move_met b m + frames_met b frames.new.items ≡ list_met b list + frames_met b frames.old.items) }
    ensures less { IfOk result (λ m. (c : Nodes) → move_work c m + frames_work c frames.new.items < list_work c list + frames_work c frames.old.items) }
{
    let goals = list.close()?;
    let Some(frame) = frames.pop() else {
        return Ok(Move::Done(Made::Goals(goals)));
    };
    let inner = take_goals(alloc, frame, frames, goals)?;
    Ok(Move::On(inner))
}

// Goes on with the next formula, or ends the list.
fn goals_move(
    alloc: Global,
    bank: &mut Bank,
    frames: &mut Vec<Frame>,
    mut list: GoalList,
) -> Result<Move, Memory>
    requires frames { All (IsFrameIn bank.old) frames.old.items }
    requires list { IsGoalListIn bank.old list }
    ensures kept { Extends bank.old bank.new }
    ensures frames { OnOk result (All (IsFrameIn bank.new) frames.new.items) }
    ensures within { IfOk result (IsMoveIn bank.new) }
    ensures comes { IfOk result (λ m. (whole : Flat) → InnerComesTo bank.old (Inner.Goals list) frames.old.items whole → MoveComesTo bank.new m frames.new.items whole) }
    ensures kind { IfOk result (λ m. (k : Bool) → IsNested k true (reverse frames.old.items) → IsMoveNested k m (reverse frames.new.items)) }
    ensures met { IfOk result (λ m. (b : Nodes) → move_met b m + frames_met b frames.new.items ≡ list_met b list + frames_met b frames.old.items) }
    ensures less { IfOk result (λ m. (c : Nodes) → Extends bank.new c → move_work c m + frames_work c frames.new.items < list_work c list + frames_work c frames.old.items) }
{
    let Some(next) = list.waiting.pop() else {
        let ended = end_goals(alloc, bank, frames, list)?;
        return Ok(ended);
    };
    let inner = next_goal(alloc, bank, frames, list, next)?;
    Ok(Move::On(inner))
}

// The clause of an atom: its body is flattened next.
fn clause_body(
    alloc: Global,
    bank: &Bank,
    frames: &mut Vec<Frame>,
    count: &mut u64,
    list: ClauseList,
    head: TermId,
) -> Result<GoalList, NormalRefusal>
    requires frames { All (IsFrameIn bank.now) frames.old.items }
    requires list { IsClauseListIn bank.now list }
    requires head { head.0 < length bank.now.terms }
    requires form { connective_of (tree bank.now head.0) ≡ connective.Atomic }
    ensures frames { OnOk result (All (IsFrameIn bank.now) frames.new.items) }
    ensures within { IfOk result (IsGoalListIn bank.now) }
    ensures comes { IfOk result (λ l. (out whole : Flat) → PartComesTo bank.now list head.0 out → AllTurn bank.now (reverse frames.old.items) out whole → InnerComesTo bank.now (Inner.Goals l) frames.new.items whole) }
    ensures kind { OnOk result ((k : Bool) → IsNested k (is_assumed list.assumed) (reverse frames.old.items) → IsNested k true (reverse frames.new.items)) }
    ensures met { IfOk result (λ l. (b : Nodes) → list_met b l + frames_met b frames.new.items ≡ suc (clause_list_met b list + frames_met b frames.old.items)) }
    ensures count { OnOk result (count.new ≡ suc count.old) }
    ensures few { OnOk result (count.new ≤ MAX_CLAUSES) }
    ensures over { IfErr result (IsOver (MAX_CLAUSES ≤ count.old)) }
    ensures more { count.old ≤ count.new }
{
    if *count >= MAX_CLAUSES {
        return Err(NormalRefusal::Limit(Limit::Clauses));
    }
    *count += 1;
    let scope = list.scope(alloc)?;
    let level = scope.vars.len() as u64;
    let inner = GoalList::of_all(alloc, scope.body, level);
    frames.push(Frame::Body(list, scope.vars, head))?;
    Ok(inner)
}

// The refusal of what is no clause, which is never met in a sentence that has clause form.
fn no_clause() -> NormalRefusal
    ensures { result ≡ refusal.Memory }
{
    NormalRefusal::Memory
}

// The next part of a clause formula.
fn next_part(
    alloc: Global,
    bank: &mut Bank,
    frames: &mut Vec<Frame>,
    count: &mut u64,
    list: ClauseList,
    part: TermId,
) -> Result<Inner, NormalRefusal>
    requires frames { All (IsFrameIn bank.old) frames.old.items }
    requires list { IsClauseListIn bank.old list }
    requires part { part.0 < length bank.old.terms }
    ensures kept { Extends bank.old bank.new }
    ensures frames { OnOk result (All (IsFrameIn bank.new) frames.new.items) }
    ensures within { IfOk result (IsInnerIn bank.new) }
    ensures comes { IfOk result (λ inner. (out whole : Flat) → PartComesTo bank.old list part.0 out → AllTurn bank.old (reverse frames.old.items) out whole → InnerComesTo bank.new inner frames.new.items whole) }
    ensures kind { IfOk result (λ inner. (k : Bool) → IsNested k (is_assumed list.assumed) (reverse frames.old.items) → IsNested k (is_in_goals inner) (reverse frames.new.items)) }
    ensures met { IfOk result (λ inner. (b : Nodes) → clause_list_met b list + frames_met b frames.old.items ≡ count.old → inner_met b inner + frames_met b frames.new.items ≡ count.new) }
    ensures few { OnOk result (count.old ≤ MAX_CLAUSES → count.new ≤ MAX_CLAUSES) }
    ensures over { IfErr result (IsOver ((out whole : Flat) → clause_list_met bank.old list + frames_met bank.old frames.old.items ≡ count.old → PartComesTo bank.old list part.0 out → AllTurn bank.old (reverse frames.old.items) out whole → PassesLimit (flat_count whole))) }
    ensures less { IfOk result (λ inner. (count.old < count.new) ⊎ ((c : Nodes) → Extends bank.new c → inner_work c inner + frames_work c frames.new.items < clause_list_work c list + part_work c (Part.Visit part) + frames_work c frames.old.items)) }
    ensures more { count.old ≤ count.new }
{
    match connective_of(bank, part) {
        Connective::And(left, right) => {
            let made = list.wait_for(left, right)?;
            Ok(Inner::Clauses(made))
        }
        Connective::Implies(goal, clause) => {
            let made = list.enter(Link::Guard(goal), clause)?;
            Ok(Inner::Clauses(made))
        }
        Connective::ForAll(bound, on) => {
            let inside = body(alloc, bank, on)?;
            let made = list.enter(Link::Variable(bound), inside)?;
            Ok(Inner::Clauses(made))
        }
        Connective::Atomic => {
            let made = clause_body(alloc, bank, frames, count, list, part)?;
            Ok(Inner::Goals(made))
        }
        Connective::True => Err(no_clause()),
        Connective::Cut => Err(no_clause()),
        Connective::Or(_, _) => Err(no_clause()),
        Connective::Exists(_, _) => Err(no_clause()),
        Connective::Not(_) => Err(no_clause()),
    }
}

// The clauses are all made.
fn end_clauses(
    alloc: Global,
    bank: &Bank,
    frames: &mut Vec<Frame>,
    list: ClauseList,
) -> Result<Move, Memory>
    requires frames { All (IsFrameIn bank.now) frames.old.items }
    requires list { IsClauseListIn bank.now list }
    requires waiting { list.waiting.items ≡ [] }
    ensures frames { OnOk result (All (IsFrameIn bank.now) frames.new.items) }
    ensures within { IfOk result (IsMoveIn bank.now) }
    ensures comes { IfOk result (λ m. (whole : Flat) → InnerComesTo bank.now (Inner.Clauses list) frames.old.items whole → MoveComesTo bank.now m frames.new.items whole) }
    ensures kind { IfOk result (λ m. (k : Bool) → IsNested k (is_assumed list.assumed) (reverse frames.old.items) → IsMoveNested k m (reverse frames.new.items)) }
    ensures met { IfOk result (λ m. (b : Nodes) → move_met b m + frames_met b frames.new.items ≡ clause_list_met b list + frames_met b frames.old.items) }
    ensures less { IfOk result (λ m. (c : Nodes) → move_work c m + frames_work c frames.new.items < clause_list_work c list + frames_work c frames.old.items) }
{
    let ClauseList {
        type_vars: _,
        assumed,
        done,
        waiting: _,
        around: _,
    } = list;
    match assumed {
        None => Ok(Move::Done(Made::Clauses(done))),
        Some(assumed) => {
            let Assumed { outer, goal } = assumed;
            let inner = GoalList::of(alloc, goal, outer.level)?;
            frames.push(Frame::Assume(outer, done))?;
            Ok(Move::On(Inner::Goals(inner)))
        }
    }
}

// Goes on with the next part, or ends the list.
fn clauses_move(
    alloc: Global,
    bank: &mut Bank,
    frames: &mut Vec<Frame>,
    count: &mut u64,
    mut list: ClauseList,
) -> Result<Move, NormalRefusal>
    requires frames { All (IsFrameIn bank.old) frames.old.items }
    requires list { IsClauseListIn bank.old list }
    ensures kept { Extends bank.old bank.new }
    ensures frames { OnOk result (All (IsFrameIn bank.new) frames.new.items) }
    ensures within { IfOk result (IsMoveIn bank.new) }
    ensures comes { IfOk result (λ m. (whole : Flat) → InnerComesTo bank.old (Inner.Clauses list) frames.old.items whole → MoveComesTo bank.new m frames.new.items whole) }
    ensures kind { IfOk result (λ m. (k : Bool) → IsNested k (is_assumed list.assumed) (reverse frames.old.items) → IsMoveNested k m (reverse frames.new.items)) }
    ensures met { IfOk result (λ m. (b : Nodes) → clause_list_met b list + frames_met b frames.old.items ≡ count.old → move_met b m + frames_met b frames.new.items ≡ count.new) }
    ensures few { OnOk result (count.old ≤ MAX_CLAUSES → count.new ≤ MAX_CLAUSES) }
    ensures over { IfErr result (IsOver (Passes bank.old (Inner.Clauses list) frames.old.items count.old)) }
    ensures less { IfOk result (λ m. (count.old < count.new) ⊎ ((c : Nodes) → Extends bank.new c → move_work c m + frames_work c frames.new.items < clause_list_work c list + frames_work c frames.old.items)) }
    ensures more { count.old ≤ count.new }
{
    let Some(next) = list.waiting.pop() else {
        let ended = end_clauses(alloc, bank, frames, list)?;
        return Ok(ended);
    };
    match next {
        Part::Visit(part) => {
            let inner = next_part(alloc, bank, frames, count, list, part)?;
            Ok(Move::On(inner))
        }
        Part::Leave => {
            let _link = list.around.pop();
            Ok(Move::On(Inner::Clauses(list)))
        }
    }
}

/// Goes on with the list in the making.
pub(crate) fn step(
    alloc: Global,
    bank: &mut Bank,
    frames: &mut Vec<Frame>,
    count: &mut u64,
    inner: Inner,
) -> Result<Move, NormalRefusal>
    requires frames { All (IsFrameIn bank.old) frames.old.items }
    requires inner { IsInnerIn bank.old inner }
    ensures kept { Extends bank.old bank.new }
    ensures frames { OnOk result (All (IsFrameIn bank.new) frames.new.items) }
    ensures within { IfOk result (IsMoveIn bank.new) }
    ensures comes { IfOk result (λ m. (whole : Flat) → InnerComesTo bank.old inner frames.old.items whole → MoveComesTo bank.new m frames.new.items whole) }
    ensures kind { IfOk result (λ m. (k : Bool) → IsNested k (is_in_goals inner) (reverse frames.old.items) → IsMoveNested k m (reverse frames.new.items)) }
    ensures met { IfOk result (λ m. (b : Nodes) → inner_met b inner + frames_met b frames.old.items ≡ count.old → move_met b m + frames_met b frames.new.items ≡ count.new) }
    ensures few { OnOk result (count.old ≤ MAX_CLAUSES → count.new ≤ MAX_CLAUSES) }
    ensures over { IfErr result (IsOver (Passes bank.old inner frames.old.items count.old)) }
    ensures less { IfOk result (λ m. (count.old < count.new) ⊎ ((c : Nodes) → Extends bank.new c → move_work c m + frames_work c frames.new.items < inner_work c inner + frames_work c frames.old.items)) }
    ensures more { count.old ≤ count.new }
{
    match inner {
        Inner::Goals(list) => {
            let next = goals_move(alloc, bank, frames, list)?;
            Ok(next)
        }
        Inner::Clauses(list) => {
            let next = clauses_move(alloc, bank, frames, count, list)?;
            Ok(next)
        }
    }
}
