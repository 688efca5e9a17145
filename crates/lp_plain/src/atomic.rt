// Atomic goals: a step each.
ghost use Rattle.std.specs.Prelude.{◌≡◌, ℕ, List, [], ◌∷◌, map, None, Some, length, IfOk, OnOk, Ok};
ghost use Rattle.lp_standard.specs.Constants.{numbered};
ghost use Rattle.lp_watch.specs.Crowd.{places};
ghost use Rattle.lp_model.specs.Branch.{Branch, Task};
ghost use Rattle.lp_model.specs.Skeleton.{GoalNote, State};
ghost use Rattle.lp_plain.specs.declared.arithmetic.Outcome.TheVariants as code;
ghost use Rattle.lp_plain.specs.declared.outcome.Turn.{Turn};
ghost use Rattle.lp_plain.specs.declared.table.Flat.{Flat};
ghost use Rattle.lp_plain.specs.Assigned.{Assigns, Compares, ComparesBy, IsAssigned, IsNumber, IsNumberOr, turn_if};
ghost use Rattle.lp_plain.specs.Cuts.{CutsOff};
ghost use Rattle.lp_plain.specs.Assuming.{KeepsAssumed};
ghost use Rattle.lp_plain.specs.AtRunTime.{IsAtLooked, IsAtomForm};
ghost use Rattle.lp_plain.specs.Calling.{AtomTurns, CallLeads, IsLookedAs, TellsOn};
ghost use Rattle.lp_plain.specs.Entries.{Around, KeepsGoals};
ghost use Rattle.lp_plain.specs.Forms.{order_number};
ghost use Rattle.lp_plain.specs.HeadLooks.{OnlyBank};
ghost use Rattle.lp_plain.specs.Hearing.{HeardBy, Hears, HearsPart, form_name, head_name};
ghost use Rattle.lp_model.specs.declared.program.Declared.{Declared as Named};
ghost use Rattle.lp_plain.specs.Turns.{IsGoalTurn, KeepsProgram};
ghost use Rattle.lp_plain.specs.Unifying.{IsBoundIn};
ghost use Rattle.lp_plain.specs.Moving.{IsAtGoal, IsAtTry, IsRunning, IsTrying, LeadsTo, MovesTo, Query, quiet};
ghost use Rattle.lp_plain.specs.Stacks.{CutsTasks, HaveTasks, IsMarkOf};
ghost use Rattle.lp_plain.specs.Within.{StandsIn};
ghost use Rattle.lp_plain.specs.WrittenSearch.{IsWrittenSearch};
ghost use Rattle.lp_plain.specs.WrittenTable.{StandsWritten};
ghost use Rattle.lp_plain.specs.inner.Beginning.{CountsFirst, HearsFirst};
ghost use Rattle.lp_plain.specs.inner.Remaining.{IsSpent, MayChoose, Uses};
ghost use Rattle.lp_term.specs.Nodes.{tree};

use crate::arithmetic::{Outcome, Value, evaluate, holds, term_of};
use crate::attempt::attempt;
use crate::candidates::Candidate;
use crate::choice::{Call, Untried};
use crate::form::Form;
use crate::frame::Place;
use crate::head::{Head, key_of};
use crate::machine::Machine;
use crate::name::{tell_constant, tell_eigen, tell_variable};
use crate::outcome::{Turn, take_step, turn_of};
use crate::unified::{equate, head_normal};
use lp_base::{Compare, Memory};
use lp_model::{Declared, Ending, Fault};
use lp_standard::Constant;
use lp_term::TermId;
use lp_watch::{Crowd, Note, Watch};
use std::alloc::Global;

fn order_constant(order: Compare) -> Constant
    ensures { numbered (order_number order) ≡ Some result }
{
    match order {
        Compare::Less => Constant::Less,
        Compare::Greater => Constant::Greater,
        Compare::AtMost => Constant::AtMost,
        Compare::AtLeast => Constant::AtLeast,
    }
}

// Tells that a goal is taken which has this head.
fn tell_head<W: Watch>(
    alloc: Global,
    crowd: &mut Crowd<'_, W>,
    constants: &[Declared],
    head: Head,
) -> Result<(), Memory>
    ensures told { OnOk result (Hears constants.now (GoalNote (head_name head) ∷ []) (places crowd.old.texts.items (map W.seen crowd.old.watchers.now.items)) (places crowd.new.texts.items (map W.seen crowd.new.watchers.now.items))) }
    ensures part { HearsPart constants.now (GoalNote (head_name head) ∷ []) (places crowd.old.texts.items (map W.seen crowd.old.watchers.now.items)) (places crowd.new.texts.items (map W.seen crowd.new.watchers.now.items)) }
    ensures same { crowd.new.watchers.ghost_name ≡ crowd.old.watchers.ghost_name }
{
    match head {
        Head::Constant(number) => tell_constant(crowd, constants, number),
        Head::Eigen(level) => tell_eigen(alloc, crowd, level),
    }
}

// Tells that an atomic goal is taken.
fn tell_goal<W: Watch>(
    alloc: Global,
    crowd: &mut Crowd<'_, W>,
    constants: &[Declared],
    form: Form,
) -> Result<(), Memory>
    ensures told { OnOk result (Hears constants.now (GoalNote (form_name form) ∷ []) (places crowd.old.texts.items (map W.seen crowd.old.watchers.now.items)) (places crowd.new.texts.items (map W.seen crowd.new.watchers.now.items))) }
    ensures part { HearsPart constants.now (GoalNote (form_name form) ∷ []) (places crowd.old.texts.items (map W.seen crowd.old.watchers.now.items)) (places crowd.new.texts.items (map W.seen crowd.new.watchers.now.items)) }
    ensures same { crowd.new.watchers.ghost_name ≡ crowd.old.watchers.ghost_name }
{
    match form {
        Form::Equal(_, _) => crowd.tell(Note::Goal(Constant::Equal.name())),
        Form::Is(_, _) => crowd.tell(Note::Goal(Constant::Is.name())),
        Form::Order(order, _, _) => crowd.tell(Note::Goal(order_constant(order).name())),
        Form::Call(head, _) => tell_head(alloc, crowd, constants, head),
        Form::Flexible => tell_variable(crowd),
        Form::Other => tell_variable(crowd),
    }
}

fn assign(machine: &mut Machine, left: TermId, right: TermId, level: u64) -> Result<Turn, Memory>
    ensures assigns { IfOk result (Assigns machine.old machine.new left right level) }
    ensures bound { OnOk result (IsBoundIn machine.old machine.new) }
{
    match evaluate(machine, right)? {
        Outcome::Deep => Ok(Turn::Ended(Ending::Deep)),
        Outcome::Faults(fault) => Ok(Turn::Ended(Ending::Arithmetic(fault))),
        Outcome::Is(value) => {
            let turn = assign_value(machine, left, value, level)?;
            Ok(turn)
        }
    }
}

// Makes the term and the value one.
fn assign_value(
    machine: &mut Machine,
    left: TermId,
    value: Value,
    level: u64,
) -> Result<Turn, Memory>
    ensures { IfOk result (IsAssigned machine.old machine.new left level value) }
{
    let term = term_of(&mut machine.bank, value)?;
    let unified = equate(machine, left, term, level)?;
    Ok(turn_of(unified))
}

// The number that an expression is, or how the search ends.
fn number(machine: &mut Machine, term: TermId) -> Result<Result<i64, Ending>, Memory>
    ensures { IfOk result (IsNumber machine.old machine.new term) }
{
    let outcome = evaluate(machine, term)?;
    Ok(number_of(outcome))
}

fn number_of(outcome: Outcome) -> Result<i64, Ending>
    ensures { IsNumberOr outcome result }
{
    match outcome {
        Outcome::Deep => Err(Ending::Deep),
        Outcome::Faults(fault) => Err(Ending::Arithmetic(fault)),
        Outcome::Is(value) => number_in(value),
    }
}

fn number_in(value: Value) -> Result<i64, Ending>
    ensures { IsNumberOr (code.Is value) result }
{
    match value {
        Value::Number(number) => Ok(number),
        Value::Text(_) => Err(Ending::Arithmetic(Fault::NotClosed)),
    }
}

fn compare(
    machine: &mut Machine,
    order: Compare,
    left: TermId,
    right: TermId,
) -> Result<Turn, Memory>
    ensures compares { IfOk result (Compares machine.old machine.new order left right) }
    ensures only { OnOk result (OnlyBank machine.old machine.new) }
{
    match number(machine, left)? {
        Ok(one) => {
            let turn = compare_with(machine, order, one, right)?;
            Ok(turn)
        }
        Err(ending) => Ok(Turn::Ended(ending)),
    }
}

// Compares with the number that the expression is.
fn compare_with(
    machine: &mut Machine,
    order: Compare,
    one: i64,
    right: TermId,
) -> Result<Turn, Memory>
    ensures { IfOk result (ComparesBy (Ok one) machine.old machine.new order right) }
{
    match number(machine, right)? {
        Ok(other) => Ok(turn_by(holds(order, one, other))),
        Err(ending) => Ok(Turn::Ended(ending)),
    }
}

fn turn_by(holds: bool) -> Turn
    ensures { result ≡ turn_if holds }
{
    if holds {
        return Turn::On;
    }
    Turn::Back
}

// Keeps the candidates behind one of them as an alternative.
fn put_others(machine: &mut Machine, call: &Call, candidate: Candidate) -> Result<(), Memory>
    ensures goals { OnOk result (KeepsGoals machine.old machine.new) }
    ensures assumed { OnOk result (KeepsAssumed machine.old machine.new) }
    ensures branch { OnOk result (machine.new.branch ≡ machine.old.branch) }
    ensures frames { OnOk result (machine.new.frames ≡ machine.old.frames) }
    ensures counts { OnOk result (machine.new.counts ≡ machine.old.counts) }
    ensures written { OnOk result ((ar : ℕ → ℕ) → StandsIn machine.old → IsWrittenSearch machine.old ar → IsWrittenSearch machine.new ar) }
    ensures at_try { OnOk result ((qv : Query) (a : Around) (s : State Task) → IsTrying qv machine.old a call.now candidate s → IsAtTry qv machine.new a call.now candidate (length machine.old.choices.items) s) }
    ensures spent { OnOk result (IsSpent machine.old machine.new candidate) }
{
    let found = machine.candidate_after(call, candidate);
    let Some(next) = found else {
        return Ok(());
    };
    machine.put_choice(Untried::Clauses(*call, next))?;
    Ok(())
}

/// Tries a candidate for a goal; those behind it are an alternative.
pub(crate) fn try_candidate(
    machine: &mut Machine,
    call: &Call,
    candidate: Candidate,
) -> Result<Turn, Memory>
    ensures written { OnOk result ((qv : Query) (a : Around) (s : State Task) → IsTrying qv machine.old a call.now candidate s → IsWrittenSearch machine.old qv.arity → IsWrittenSearch machine.new qv.arity) }
    ensures leads { IfOk result (λ turn. (qv : Query) (a : Around) (s : State Task) → IsTrying qv machine.old a call.now candidate s → StandsWritten machine.old qv.arity → LeadsTo 1 quiet qv turn machine.new s) }
    ensures steps { OnOk result (machine.new.counts.steps ≡ machine.old.counts.steps) }
    ensures program { OnOk result (KeepsProgram machine.old machine.new) }
    ensures ends { IfOk result IsGoalTurn }
    ensures spent { OnOk result (IsSpent machine.old machine.new candidate) }
{
    let mark = machine.choices.len();
    put_others(machine, call, candidate)?;
    let unified = attempt(machine, call, candidate, mark)?;
    Ok(turn_of(unified))
}

// The call of an atom, with its first argument as it was looked at; none where that is too deep.
fn looked_call(
    machine: &mut Machine,
    goal: TermId,
    head: Head,
    first: Option<TermId>,
    place: Place,
    behind: Option<usize>,
) -> Result<Option<Call>, Memory>
    ensures only { OnOk result (OnlyBank machine.old machine.new) }
    ensures looks { IfOk result (IsLookedAs machine.old machine.new (record { goal = goal; head = head; first = None; key = None; place = place; behind = behind }) first) }
{
    let Some(arg) = first else {
        return Ok(Some(Call {
            goal,
            head,
            first: None,
            key: None,
            place,
            behind,
        }));
    };
    let looked = head_normal(machine, arg)?;
    let Some(form) = looked else {
        return Ok(None);
    };
    let key = key_of(&machine.bank, form);
    Ok(Some(Call {
        goal,
        head,
        first: Some(form),
        key,
        place,
        behind,
    }))
}

// Tries the clauses for an atom whose step was taken.
fn take_call(
    machine: &mut Machine,
    goal: TermId,
    head: Head,
    first: Option<TermId>,
    place: Place,
    behind: Option<usize>,
) -> Result<Turn, Memory>
    ensures leads { IfOk result (CallLeads machine.old machine.new place goal head first behind) }
    ensures steps { OnOk result (machine.new.counts.steps ≡ machine.old.counts.steps) }
    ensures program { OnOk result (KeepsProgram machine.old machine.new) }
    ensures ends { IfOk result IsGoalTurn }
    ensures few { OnOk result (MayChoose machine.old machine.new) }
{
    let looked = looked_call(machine, goal, head, first, place, behind)?;
    let Some(call) = looked else {
        return Ok(Turn::Ended(Ending::Deep));
    };
    let found = machine.first_candidate(&call);
    let Some(candidate) = found else {
        return Ok(Turn::Back);
    };
    let turn = try_candidate(machine, &call, candidate)?;
    Ok(turn)
}

/// Takes an atomic goal: one step.
pub(crate) fn take_atom<W: Watch>(
    machine: &mut Machine,
    crowd: &mut Crowd<'_, W>,
    constants: &[Declared],
    goal: TermId,
    form: Form,
    place: Place,
    behind: Option<usize>,
) -> Result<Turn, Memory>
    ensures leads { IfOk result (AtomTurns (HeardBy constants.now machine.old machine.new (places crowd.old.texts.items (map W.seen crowd.old.watchers.now.items)) (places crowd.new.texts.items (map W.seen crowd.new.watchers.now.items))) machine.old machine.new place goal form behind) }
    ensures begins { (qv : Query) (a : Around) (raw : Branch) (s : State Task) (h : IsRunning qv machine.old a raw s) → IsAtLooked machine.old h.closing a place goal behind raw → IsAtomForm machine.old.bank (tree machine.old.bank goal.0) form → HearsFirst constants.now (places crowd.old.texts.items (map W.seen crowd.old.watchers.now.items)) (places crowd.new.texts.items (map W.seen crowd.new.watchers.now.items)) s }
    ensures within { OnOk result ((qv : Query) (a : Around) (raw : Branch) (s : State Task) (h : IsRunning qv machine.old a raw s) → IsAtLooked machine.old h.closing a place goal behind raw → IsAtomForm machine.old.bank (tree machine.old.bank goal.0) form → CountsFirst machine.old machine.new s) }
    ensures same { crowd.new.watchers.ghost_name ≡ crowd.old.watchers.ghost_name }
    ensures program { OnOk result (KeepsProgram machine.old machine.new) }
    ensures ends { IfOk result IsGoalTurn }
    ensures uses { IfOk result (λ turn. Uses turn machine.old machine.new) }
{
    if !take_step(machine) {
        return Ok(Turn::Ended(Ending::Steps));
    }
    tell_goal(machine.alloc, crowd, constants, form)?;
    machine.branch.goals = behind;
    match form {
        Form::Equal(left, right) => {
            let unified = equate(machine, left, right, place.level)?;
            Ok(turn_of(unified))
        }
        Form::Is(left, right) => {
            let turn = assign(machine, left, right, place.level)?;
            Ok(turn)
        }
        Form::Order(order, left, right) => {
            let turn = compare(machine, order, left, right)?;
            Ok(turn)
        }
        Form::Call(head, first) => {
            let turn = take_call(machine, goal, head, first, place, behind)?;
            Ok(turn)
        }
        Form::Flexible => Ok(Turn::Ended(Ending::Flexible)),
        Form::Other => Ok(Turn::Back),
    }
}

/// Takes a `!`: one step.
pub(crate) fn take_cut<W: Watch>(
    machine: &mut Machine,
    crowd: &mut Crowd<'_, W>,
    place: Place,
    behind: Option<usize>,
) -> Result<Turn, Memory>
    ensures cuts { IfOk result (λ turn. CutsOff turn machine.old machine.new place.mark behind) }
    ensures moved { IfOk result (λ turn. (qv : Query) (a : Around) (raw : Branch) (s : State Task) → IsRunning qv machine.old a raw s → IsAtGoal machine.old a place Flat.Cut behind raw → TellsOn (λ x. (cs : List Named) → HeardBy cs machine.old machine.new (places crowd.old.texts.items (map W.seen crowd.old.watchers.now.items)) (places crowd.new.texts.items (map W.seen crowd.new.watchers.now.items)) x) (λ x. MovesTo x qv turn machine.new s)) }
    ensures begins { (qv : Query) (a : Around) (raw : Branch) (s : State Task) → IsRunning qv machine.old a raw s → IsAtGoal machine.old a place Flat.Cut behind raw → (cs : List Named) → HearsFirst cs (places crowd.old.texts.items (map W.seen crowd.old.watchers.now.items)) (places crowd.new.texts.items (map W.seen crowd.new.watchers.now.items)) s }
    ensures within { OnOk result ((qv : Query) (a : Around) (raw : Branch) (s : State Task) → IsRunning qv machine.old a raw s → IsAtGoal machine.old a place Flat.Cut behind raw → CountsFirst machine.old machine.new s) }
    ensures same { crowd.new.watchers.ghost_name ≡ crowd.old.watchers.ghost_name }
    ensures written { OnOk result ((ar : ℕ → ℕ) → StandsIn machine.old → IsWrittenSearch machine.old ar → IsWrittenSearch machine.new ar) }
    ensures tasks { IfOk result (λ turn. turn ≡ Turn.On → (tss : List (List Task)) (keep : ℕ) → HaveTasks machine.old tss → IsMarkOf machine.old tss place.mark keep → CutsTasks machine.old machine.new place.mark keep tss) }
    ensures program { OnOk result (KeepsProgram machine.old machine.new) }
    ensures ends { IfOk result IsGoalTurn }
    ensures uses { IfOk result (λ turn. Uses turn machine.old machine.new) }
{
    if !take_step(machine) {
        return Ok(Turn::Ended(Ending::Steps));
    }
    crowd.tell(Note::Cut)?;
    machine.cut(place.mark);
    machine.branch.goals = behind;
    Ok(Turn::On)
}
