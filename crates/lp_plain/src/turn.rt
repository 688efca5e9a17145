// The next goal of the branch at work, and the way back to an alternative.
ghost use Rattle.std.specs.Prelude.{◌≡◌, ℕ, suc, ◌+◌, true, false, Bool, ◌∷◌, ◌++◌, ◌<◌, ◌≤◌, [], List, map, drop, length, Option, None, IfOk, OnOk, Some, slice_get};
ghost use Rattle.lp_watch.specs.Crowd.{places};
ghost use Rattle.lp_model.specs.Branch.{Answer, Branch, Task};
ghost use Rattle.lp_model.specs.Flat.{Clause, Goals};
ghost use Rattle.lp_model.specs.Skeleton.{Inner, State};
ghost use Rattle.lp_plain.specs.declared.candidates.Candidate.{Candidate as Tried};
ghost use Rattle.lp_plain.specs.declared.choice.Call.{Call as Called};
ghost use Rattle.lp_plain.specs.declared.choice.Choice.{Choice};
ghost use Rattle.lp_plain.specs.declared.choice.Denial.{Denial};
ghost use Rattle.lp_plain.specs.declared.choice.Untried.{Untried};
ghost use Rattle.lp_plain.specs.declared.outcome.Turn.{Turn};
ghost use Rattle.lp_plain.specs.declared.table.Flat.{Flat};
ghost use Rattle.lp_plain.specs.Apart.{IsApart};
ghost use Rattle.lp_plain.specs.Assuming.{KeepsAssumed};
ghost use Rattle.lp_standard.specs.Connectives.{connective_of};
ghost use Rattle.lp_term.specs.Nodes.{Nodes, tree};
ghost use Rattle.lp_model.specs.Connected.{connective_in};
ghost use Rattle.lp_plain.specs.AtRunTime.{AreWrittenGoals, IsAtTerm, IsAtomFirst, IsAtomForm, IsAtomOrNoForm, IsWrittenFlat};
ghost use Rattle.lp_plain.specs.Calling.{IsFirstIn, LeadsOf, TellsOn, TermTurns, WrittenBehind};
ghost use Rattle.lp_plain.specs.Denials.{IsDeniedFirst, IsHeldBy, IsRefutedBy, TakesDenied};
ghost use Rattle.lp_plain.specs.Entries.{Around, KeepsGoals};
ghost use Rattle.lp_plain.specs.Forms.{StandsForm};
ghost use Rattle.lp_plain.specs.Hearing.{HeardBy, Hears, HearsPart, back_in};
ghost use Rattle.lp_model.specs.declared.program.Declared.{Declared as Named};
ghost use Rattle.lp_plain.specs.Marks.{AreMarked, IsMarked, Marks, PutsAside, PutsMarks, SetsAside};
ghost use Rattle.lp_plain.specs.Moving.{IsBack, IsAtGoal, IsAtGoals, IsPlainFirst, IsRunning, IsState, LeadsTo, MovesTo, Query, Tally, quiet};
ghost use Rattle.lp_plain.specs.Restoring.{GoesBack};
ghost use Rattle.lp_plain.specs.Searching.{EndsSo, GoesOnOrStops, IsBackOf, IsQuietMove, IsStateOf};
ghost use Rattle.lp_plain.specs.Stacks.{base_of};
ghost use Rattle.lp_plain.specs.Tables.{AreGoals, Never, shown};
ghost use Rattle.lp_plain.specs.Taking.{FirstIsApart, IsApartFirst, IsApartFlat, IsApartForm, TakesApart, TakesGoals};
ghost use Rattle.lp_plain.specs.Turns.{IsGoalTurn, KeepsProgram};
ghost use Rattle.lp_plain.specs.Within.{StandsIn};
ghost use Rattle.lp_plain.specs.WrittenSearch.{IsApartAtHand, IsWrittenSearch, WritesFlat, WritesGoals};
ghost use Rattle.lp_plain.specs.inner.Beginning.{CountsFirst, HearsFirst};
ghost use Rattle.lp_plain.specs.inner.Following.{Course, Follows, Leaves, Stands};
ghost use Rattle.lp_plain.specs.inner.Remaining.{Uses, left_behind};

use crate::act::Act;
use crate::atomic::{take_atom, take_cut, try_candidate};
use crate::choice::Untried;
use crate::form::{Form, form_of};
use crate::frame::{Place, Todo};
use crate::machine::Machine;
use crate::negation::{end_branch, end_denial, take_not};
use crate::outcome::Turn;
use crate::parts::{put_connective, put_parts};
use crate::table::{Flat, Span};
use crate::unified::head_normal;
use lp_base::Memory;
use lp_model::{Connective, Declared, Ending, connective_of};
use lp_term::TermId;
use lp_watch::{Crowd, Note, Watch};

fn take_flat<W: Watch>(
    machine: &mut Machine,
    crowd: &mut Crowd<'_, W>,
    constants: &[Declared],
    goal: Flat,
    place: Place,
    behind: Option<usize>,
) -> Result<Turn, Memory>
    ensures taken { IfOk result (λ turn. turn ≡ Turn.On → TakesApart machine.old machine.new place goal behind) }
    ensures written { IfOk result (λ turn. turn ≡ Turn.On → IsApartFlat goal → WritesFlat machine.old machine.new place goal) }
    ensures marks { IfOk result (λ turn. turn ≡ Turn.On → IsApartFlat goal → PutsMarks machine.old machine.new place behind machine.new.branch.goals) }
    ensures aside { IfOk result (λ turn. turn ≡ Turn.On → IsApartFlat goal → PutsAside machine.old machine.new place behind) }
    ensures counted { IfOk result (λ turn. IsApartFlat goal → (ar : ℕ → ℕ) → IsWrittenFlat machine.old ar place goal → IsApart turn machine.old.counts machine.new.counts) }
    ensures moved { IfOk result (λ turn. (qv : Query) (a : Around) (raw : Branch) (s : State Task) → IsRunning qv machine.old a raw s → IsAtGoal machine.old a place goal behind raw → IsPlainFirst raw.goals → IsWrittenFlat machine.old qv.arity place goal → TellsOn (HeardBy constants.now machine.old machine.new (places crowd.old.texts.items (map W.seen crowd.old.watchers.now.items)) (places crowd.new.texts.items (map W.seen crowd.new.watchers.now.items))) (λ x. MovesTo x qv turn machine.new s)) }
    ensures leads { IfOk result (λ turn. (qv : Query) (a : Around) (raw : Branch) (s : State Task) → IsRunning qv machine.old a raw s → IsAtGoal machine.old a place goal behind raw → IsAtomFirst raw.goals → IsWrittenFlat machine.old qv.arity place goal → TellsOn (HeardBy constants.now machine.old machine.new (places crowd.old.texts.items (map W.seen crowd.old.watchers.now.items)) (places crowd.new.texts.items (map W.seen crowd.new.watchers.now.items))) (λ x. LeadsOf x machine.old machine.new qv turn s)) }
    ensures stays { IfOk result (λ turn. (a : Around) (raw : Branch) → IsAtGoal machine.old a place goal behind raw → IsPlainFirst raw.goals → (ar : ℕ → ℕ) → StandsIn machine.old → IsWrittenFlat machine.old ar place goal → IsWrittenSearch machine.old ar → WrittenBehind turn machine.new ar) }
    ensures program { OnOk result (KeepsProgram machine.old machine.new) }
    ensures ends { IfOk result IsGoalTurn }
    ensures denied_stays { IfOk result (λ turn. (a : Around) (raw : Branch) → IsAtGoal machine.old a place goal behind raw → IsDeniedFirst raw.goals → (ar : ℕ → ℕ) → StandsIn machine.old → IsWrittenFlat machine.old ar place goal → IsWrittenSearch machine.old ar → turn ≡ Turn.On → IsWrittenSearch machine.new ar) }
    ensures denies { IfOk result (λ turn. (qv : Query) (a : Around) (raw : Branch) (s : State Task) (h : IsRunning qv machine.old a raw s) → IsAtGoal machine.old a place goal behind raw → IsDeniedFirst raw.goals → TellsOn (HeardBy constants.now machine.old machine.new (places crowd.old.texts.items (map W.seen crowd.old.watchers.now.items)) (places crowd.new.texts.items (map W.seen crowd.new.watchers.now.items))) (λ x. TakesDenied x turn qv machine.new s h.at_work.goals)) }
    ensures begins { (qv : Query) (a : Around) (raw : Branch) (s : State Task) → IsRunning qv machine.old a raw s → IsAtGoal machine.old a place goal behind raw → IsWrittenFlat machine.old qv.arity place goal → HearsFirst constants.now (places crowd.old.texts.items (map W.seen crowd.old.watchers.now.items)) (places crowd.new.texts.items (map W.seen crowd.new.watchers.now.items)) s }
    ensures within { OnOk result ((qv : Query) (a : Around) (raw : Branch) (s : State Task) → IsRunning qv machine.old a raw s → IsAtGoal machine.old a place goal behind raw → IsWrittenFlat machine.old qv.arity place goal → CountsFirst machine.old machine.new s) }
    ensures same { crowd.new.watchers.ghost_name ≡ crowd.old.watchers.ghost_name }
    ensures uses { IfOk result (λ turn. Uses turn machine.old machine.new) }
{
    match goal {
        Flat::Atom(term) => {
            let atom = machine.instance(term, place)?;
            let turn = take_term(machine, crowd, constants, atom, place, behind)?;
            Ok(turn)
        }
        Flat::Cut => {
            let turn = take_cut(machine, crowd, place, behind)?;
            Ok(turn)
        }
        Flat::Not(goals, free) => {
            let turn = take_not(machine, crowd, goals, free, place, behind)?;
            Ok(turn)
        }
        _ => {
            let turn = put_parts(machine, goal, place, behind)?;
            Ok(turn)
        }
    }
}

// Whether a goal that is known at run time is taken apart.
fn is_apart(connective: Connective) -> bool
    ensures apart { result ≡ true → IsApartForm connective }
    ensures alone { result ≡ false → (b : Nodes) → IsAtomOrNoForm (connective_in b connective) }
{
    match connective {
        Connective::And(_, _) => true,
        Connective::Or(_, _) => true,
        Connective::ForAll(_, _) => true,
        Connective::Exists(_, _) => true,
        Connective::True => true,
        Connective::Cut => false,
        Connective::Implies(_, _) => false,
        Connective::Not(_) => false,
        Connective::Atomic => false,
    }
}

// The form of a goal that is not taken apart.
fn form_beside(machine: &Machine, goal: TermId, connective: Connective) -> Result<Form, Memory>
    ensures stands { IfOk result (StandsForm (length machine.now.bank.terms)) }
    ensures form { IfOk result (λ form. connective_of (tree machine.now.bank goal.0) ≡ connective_in machine.now.bank connective → IsAtomOrNoForm (connective_in machine.now.bank connective) → IsAtomForm machine.now.bank (tree machine.now.bank goal.0) form) }
    ensures within { IfOk result (IsFirstIn (length machine.now.bank.terms)) }
{
    match connective {
        Connective::Atomic => {
            let form = form_of(machine.alloc, &machine.bank, goal)?;
            Ok(form)
        }
        // No term that stands for a variable is built so.
        _ => Ok(Form::Other),
    }
}

// Takes a goal by its head-normal form.
fn take_term<W: Watch>(
    machine: &mut Machine,
    crowd: &mut Crowd<'_, W>,
    constants: &[Declared],
    term: TermId,
    place: Place,
    behind: Option<usize>,
) -> Result<Turn, Memory>
    ensures leads { IfOk result (TermTurns (HeardBy constants.now machine.old machine.new (places crowd.old.texts.items (map W.seen crowd.old.watchers.now.items)) (places crowd.new.texts.items (map W.seen crowd.new.watchers.now.items))) machine.old machine.new place term behind) }
    ensures program { OnOk result (KeepsProgram machine.old machine.new) }
    ensures ends { IfOk result IsGoalTurn }
    ensures begins { (qv : Query) (a : Around) (raw : Branch) (s : State Task) → IsRunning qv machine.old a raw s → IsAtTerm machine.old a place term behind raw → HearsFirst constants.now (places crowd.old.texts.items (map W.seen crowd.old.watchers.now.items)) (places crowd.new.texts.items (map W.seen crowd.new.watchers.now.items)) s }
    ensures within { OnOk result ((qv : Query) (a : Around) (raw : Branch) (s : State Task) → IsRunning qv machine.old a raw s → IsAtTerm machine.old a place term behind raw → CountsFirst machine.old machine.new s) }
    ensures same { crowd.new.watchers.ghost_name ≡ crowd.old.watchers.ghost_name }
    ensures uses { IfOk result (λ turn. Uses turn machine.old machine.new) }
{
    let Some(goal) = head_normal(machine, term)? else {
        return Ok(Turn::Ended(Ending::Deep));
    };
    let connective = connective_of(&machine.bank, goal);
    if is_apart(connective) {
        let turn = put_connective(machine, connective, place, behind)?;
        return Ok(turn);
    }
    let form = form_beside(machine, goal, connective)?;
    let turn = take_atom(machine, crowd, constants, goal, form, place, behind)?;
    Ok(turn)
}

// Takes the first of the flattened goals; the others stay in front of those behind.
fn take_first<W: Watch>(
    machine: &mut Machine,
    crowd: &mut Crowd<'_, W>,
    constants: &[Declared],
    goals: Span,
    place: Place,
    behind: Option<usize>,
) -> Result<Turn, Memory>
    ensures taken { IfOk result (λ turn. turn ≡ Turn.On → TakesGoals machine.old machine.new place goals behind) }
    ensures written { IfOk result (λ turn. turn ≡ Turn.On → (f : Flat) → slice_get machine.old.table.goals.items goals.from ≡ Some f → IsApartFlat f → goals.from < goals.to → WritesGoals machine.old machine.new place goals) }
    ensures marks { IfOk result (λ turn. turn ≡ Turn.On → (hs : Goals) → goals.from < goals.to → AreGoals machine.old.bank Never (shown machine.old.table) goals.from goals.to hs → FirstIsApart hs → PutsMarks machine.old machine.new place behind machine.new.branch.goals) }
    ensures aside { IfOk result (λ turn. turn ≡ Turn.On → (hs : Goals) → goals.from < goals.to → AreGoals machine.old.bank Never (shown machine.old.table) goals.from goals.to hs → FirstIsApart hs → PutsAside machine.old machine.new place behind) }
    ensures counted { IfOk result (λ turn. (hs : Goals) → goals.from < goals.to → AreGoals machine.old.bank Never (shown machine.old.table) goals.from goals.to hs → FirstIsApart hs → (ar : ℕ → ℕ) → AreWrittenGoals machine.old ar place goals → IsApart turn machine.old.counts machine.new.counts) }
    ensures moved { IfOk result (λ turn. (qv : Query) (a : Around) (raw : Branch) (s : State Task) → IsRunning qv machine.old a raw s → IsAtGoals machine.old a place goals behind raw → IsPlainFirst raw.goals → AreWrittenGoals machine.old qv.arity place goals → TellsOn (HeardBy constants.now machine.old machine.new (places crowd.old.texts.items (map W.seen crowd.old.watchers.now.items)) (places crowd.new.texts.items (map W.seen crowd.new.watchers.now.items))) (λ x. MovesTo x qv turn machine.new s)) }
    ensures leads { IfOk result (λ turn. (qv : Query) (a : Around) (raw : Branch) (s : State Task) → IsRunning qv machine.old a raw s → IsAtGoals machine.old a place goals behind raw → IsAtomFirst raw.goals → AreWrittenGoals machine.old qv.arity place goals → TellsOn (HeardBy constants.now machine.old machine.new (places crowd.old.texts.items (map W.seen crowd.old.watchers.now.items)) (places crowd.new.texts.items (map W.seen crowd.new.watchers.now.items))) (λ x. LeadsOf x machine.old machine.new qv turn s)) }
    ensures stays { IfOk result (λ turn. (a : Around) (raw : Branch) → IsAtGoals machine.old a place goals behind raw → IsPlainFirst raw.goals → (ar : ℕ → ℕ) → StandsIn machine.old → AreWrittenGoals machine.old ar place goals → IsWrittenSearch machine.old ar → WrittenBehind turn machine.new ar) }
    ensures program { OnOk result (KeepsProgram machine.old machine.new) }
    ensures ends { IfOk result IsGoalTurn }
    ensures denied_stays { IfOk result (λ turn. (a : Around) (raw : Branch) → IsAtGoals machine.old a place goals behind raw → IsDeniedFirst raw.goals → (ar : ℕ → ℕ) → StandsIn machine.old → AreWrittenGoals machine.old ar place goals → IsWrittenSearch machine.old ar → turn ≡ Turn.On → IsWrittenSearch machine.new ar) }
    ensures denies { IfOk result (λ turn. (qv : Query) (a : Around) (raw : Branch) (s : State Task) (h : IsRunning qv machine.old a raw s) → IsAtGoals machine.old a place goals behind raw → IsDeniedFirst raw.goals → TellsOn (HeardBy constants.now machine.old machine.new (places crowd.old.texts.items (map W.seen crowd.old.watchers.now.items)) (places crowd.new.texts.items (map W.seen crowd.new.watchers.now.items))) (λ x. TakesDenied x turn qv machine.new s h.at_work.goals)) }
    ensures begins { (qv : Query) (a : Around) (raw : Branch) (s : State Task) → IsRunning qv machine.old a raw s → IsAtGoals machine.old a place goals behind raw → AreWrittenGoals machine.old qv.arity place goals → HearsFirst constants.now (places crowd.old.texts.items (map W.seen crowd.old.watchers.now.items)) (places crowd.new.texts.items (map W.seen crowd.new.watchers.now.items)) s }
    ensures within { OnOk result ((qv : Query) (a : Around) (raw : Branch) (s : State Task) → IsRunning qv machine.old a raw s → IsAtGoals machine.old a place goals behind raw → AreWrittenGoals machine.old qv.arity place goals → CountsFirst machine.old machine.new s) }
    ensures same { crowd.new.watchers.ghost_name ≡ crowd.old.watchers.ghost_name }
    ensures less { IfOk result (λ turn. left_behind turn machine.new < left_behind Turn.On machine.old) }
{
    let found = machine.table.goal(goals.from);
    let Some(goal) = found else {
        return Ok(Turn::Back);
    };
    let count = goals.to.saturating_sub(goals.from);
    if count <= 1 {
        let turn = take_flat(machine, crowd, constants, goal, place, behind)?;
        return Ok(turn);
    }
    let others = Span {
        from: goals.from + 1,
        to: goals.to,
    };
    let rest = machine.put_frame(Todo::Goals(others), place, behind)?;
    let turn = take_flat(machine, crowd, constants, goal, place, rest)?;
    Ok(turn)
}

/// Takes the first goal of the branch at work.
pub(crate) fn take_goal<W: Watch>(
    machine: &mut Machine,
    crowd: &mut Crowd<'_, W>,
    constants: &[Declared],
) -> Result<Turn, Memory>
    ensures written { IfOk result (λ turn. turn ≡ Turn.On → IsApartAtHand machine.old → (ar : ℕ → ℕ) → StandsIn machine.old → IsWrittenSearch machine.old ar → IsWrittenSearch machine.new ar) }
    ensures moves { IfOk result (λ turn. turn ≡ Turn.On → (a : Around) (s : State Task) (h : IsStateOf machine.old a s) → IsApartFirst h.at_work.goals → (k : ℕ) → s.answers ≡ suc k → (go : (Answer → Bool) → State Task → Inner) (u n : ℕ) (P : List Clause) → IsQuietMove machine.old machine.new a u n P go s) }
    ensures stops { IfOk result (λ turn. (a : Around) (s : State Task) (h : IsStateOf machine.old a s) → IsApartFirst h.at_work.goals → (ar : ℕ → ℕ) → IsWrittenSearch machine.old ar → GoesOnOrStops turn s) }
    ensures marks { IfOk result (λ turn. turn ≡ Turn.On → (a : Around) (s : State Task) (h : IsStateOf machine.old a s) → IsApartFirst h.at_work.goals → (l u : ℕ) → Marks l u machine.old machine.old.branch.goals → Marks l u machine.new machine.new.branch.goals) }
    ensures aside { IfOk result (λ turn. turn ≡ Turn.On → (a : Around) (s : State Task) (h : IsStateOf machine.old a s) → IsApartFirst h.at_work.goals → SetsAside machine.old machine.new) }
    ensures marked { IfOk result (λ turn. turn ≡ Turn.On → (a : Around) (s : State Task) (h : IsStateOf machine.old a s) → IsApartFirst h.at_work.goals → IsMarked machine.old → IsMarked machine.new) }
    ensures answered { IfOk result (λ turn. (qv : Query) (s : State Task) → IsState qv machine.old s → machine.old.branch.goals ≡ None → machine.old.denied ≡ None → (turn ≡ Turn.Answered) × HeardBy constants.now machine.old machine.new (places crowd.old.texts.items (map W.seen crowd.old.watchers.now.items)) (places crowd.new.texts.items (map W.seen crowd.new.watchers.now.items)) quiet × MovesTo quiet qv turn machine.new s) }
    ensures moved { IfOk result (λ turn. (qv : Query) (s : State Task) (h : IsState qv machine.old s) → IsPlainFirst h.raw.goals → IsWrittenSearch machine.old qv.arity → TellsOn (HeardBy constants.now machine.old machine.new (places crowd.old.texts.items (map W.seen crowd.old.watchers.now.items)) (places crowd.new.texts.items (map W.seen crowd.new.watchers.now.items))) (λ x. MovesTo x qv turn machine.new s)) }
    ensures stands { IfOk result (λ turn. (c : Course) (x : Tally) → Stands c x Turn.On machine.old → Follows c constants.now x machine.old machine.new (places crowd.old.texts.items (map W.seen crowd.old.watchers.now.items)) (places crowd.new.texts.items (map W.seen crowd.new.watchers.now.items)) turn) }
    ensures leads { IfOk result (λ turn. (qv : Query) (s : State Task) (h : IsState qv machine.old s) → IsAtomFirst h.raw.goals → IsWrittenSearch machine.old qv.arity → TellsOn (HeardBy constants.now machine.old machine.new (places crowd.old.texts.items (map W.seen crowd.old.watchers.now.items)) (places crowd.new.texts.items (map W.seen crowd.new.watchers.now.items))) (λ x. LeadsOf x machine.old machine.new qv turn s)) }
    ensures denies { IfOk result (λ turn. (qv : Query) (s : State Task) (h : IsState qv machine.old s) → IsDeniedFirst h.raw.goals → TellsOn (HeardBy constants.now machine.old machine.new (places crowd.old.texts.items (map W.seen crowd.old.watchers.now.items)) (places crowd.new.texts.items (map W.seen crowd.new.watchers.now.items))) (λ x. TakesDenied x turn qv machine.new s h.running.at_work.goals)) }
    ensures held { IfOk result (λ turn. (qv : Query) (s : State Task) → IsState qv machine.old s → machine.old.branch.goals ≡ None → (number : ℕ) → machine.old.denied ≡ Some number → HeardBy constants.now machine.old machine.new (places crowd.old.texts.items (map W.seen crowd.old.watchers.now.items)) (places crowd.new.texts.items (map W.seen crowd.new.watchers.now.items)) quiet × IsHeldBy qv turn machine.new s) }
    ensures begins { (c : Course) (x : Tally) → Stands c x Turn.On machine.old → HearsPart constants.now x.notes (places crowd.old.texts.items (map W.seen crowd.old.watchers.now.items)) (places crowd.new.texts.items (map W.seen crowd.new.watchers.now.items)) }
    ensures within { OnOk result ((c : Course) (x : Tally) → Stands c x Turn.On machine.old → machine.new.counts.steps ≤ machine.old.counts.steps + x.steps) }
    ensures same { crowd.new.watchers.ghost_name ≡ crowd.old.watchers.ghost_name }
    ensures less { IfOk result (λ turn. left_behind turn machine.new < left_behind Turn.On machine.old) }
{
    let Some(number) = machine.branch.goals else {
        return Ok(end_branch(machine));
    };
    let found = machine.frame(number);
    let Some(frame) = found else {
        return Ok(Turn::Back);
    };
    match frame.todo {
        Todo::Goals(goals) => {
            let turn = take_first(machine, crowd, constants, goals, frame.place, frame.behind)?;
            Ok(turn)
        }
        Todo::Term(term) => {
            let turn = take_term(machine, crowd, constants, term, frame.place, frame.behind)?;
            Ok(turn)
        }
    }
}

/// Tells that the search goes back to an alternative, where there is one.
pub(crate) fn tell_back<W: Watch>(machine: &Machine, crowd: &mut Crowd<'_, W>) -> Result<(), Memory>
    ensures told { OnOk result ((cs : List Named) → Hears cs (back_in machine.now) (places crowd.old.texts.items (map W.seen crowd.old.watchers.now.items)) (places crowd.new.texts.items (map W.seen crowd.new.watchers.now.items))) }
    ensures part { (cs : List Named) → HearsPart cs (back_in machine.now) (places crowd.old.texts.items (map W.seen crowd.old.watchers.now.items)) (places crowd.new.texts.items (map W.seen crowd.new.watchers.now.items)) }
    ensures same { crowd.new.watchers.ghost_name ≡ crowd.old.watchers.ghost_name }
{
    if machine.has_choice() {
        return crowd.tell(Note::Back);
    }
    Ok(())
}

// Goes on with the right side of a `;`.
fn go_right(machine: &mut Machine, goals: Option<usize>) -> Result<(), Memory>
    ensures known { OnOk result (KeepsGoals machine.old machine.new) }
    ensures assumed { OnOk result (KeepsAssumed machine.old machine.new) }
    ensures frames { OnOk result (machine.new.frames ≡ machine.old.frames) }
    ensures goals { OnOk result (machine.new.branch.goals ≡ goals) }
    ensures next { OnOk result (machine.new.branch.next ≡ machine.old.branch.next) }
    ensures next_type { OnOk result (machine.new.branch.next_type ≡ machine.old.branch.next_type) }
    ensures pairs { OnOk result (machine.new.branch.pairs ≡ machine.old.branch.pairs) }
    ensures choices { OnOk result (machine.new.choices.items ≡ machine.old.choices.items) }
    ensures counts { OnOk result (machine.new.counts ≡ machine.old.counts) }
    ensures denied { OnOk result (machine.new.denied ≡ machine.old.denied) }
{
    machine.note(Act::Right)?;
    machine.branch.goals = goals;
    Ok(())
}

/// Goes on with the newest alternative.
pub(crate) fn go_back(machine: &mut Machine) -> Result<Turn, Memory>
    ensures goes { IfOk result (λ turn. (c : Choice) (rest : List Choice) (from : Option ℕ) → machine.old.choices.items ≡ rest ++ c ∷ [] → c.untried ≡ Untried.Goals from → (turn ≡ Turn.On) × GoesBack machine.old machine.new c rest) }
    ensures written { IfOk result (λ turn. (c : Choice) (rest : List Choice) (from : Option ℕ) → machine.old.choices.items ≡ rest ++ c ∷ [] → c.untried ≡ Untried.Goals from → (ar : ℕ → ℕ) → StandsIn machine.old → IsWrittenSearch machine.old ar → IsWrittenSearch machine.new ar) }
    ensures state { IfOk result (λ turn. (c : Choice) (rest : List Choice) (from : Option ℕ) → machine.old.choices.items ≡ rest ++ c ∷ [] → c.untried ≡ Untried.Goals from → base_of machine.old.denied ≤ length rest → (a : Around) (s : State Task) → IsBackOf machine.old a s → IsStateOf machine.new a s) }
    ensures marked { IfOk result (λ turn. (c : Choice) (rest : List Choice) (from : Option ℕ) → machine.old.choices.items ≡ rest ++ c ∷ [] → c.untried ≡ Untried.Goals from → base_of machine.old.denied ≤ length rest → (a : Around) (s : State Task) → IsBackOf machine.old a s → AreMarked machine.old (base_of machine.old.denied) (base_of machine.old.denied) (drop (base_of machine.old.denied) machine.old.choices.items) → IsMarked machine.new) }
    ensures resumed { IfOk result (λ turn. (qv : Query) (c : Choice) (rest : List Choice) (from : Option ℕ) → machine.old.choices.items ≡ rest ++ c ∷ [] → c.untried ≡ Untried.Goals from → base_of machine.old.denied ≤ length rest → (s : State Task) → IsBack qv machine.old s → IsState qv machine.new s) }
    ensures moved { IfOk result (λ turn. (qv : Query) → machine.old.choices.items ≡ [] → (s : State Task) → IsBack qv machine.old s → MovesTo quiet qv turn machine.new s) }
    ensures leads { IfOk result (λ turn. (c : Choice) (rest : List Choice) (call : Called) (one : Tried) → machine.old.choices.items ≡ rest ++ c ∷ [] → c.untried ≡ Untried.Clauses call one → base_of machine.old.denied ≤ length rest → (qv : Query) (s : State Task) → IsBack qv machine.old s →
        IsWrittenSearch machine.old qv.arity → LeadsTo 1 quiet qv turn machine.new s) }
    ensures tries_written { OnOk result ((c : Choice) (rest : List Choice) (call : Called) (one : Tried) → machine.old.choices.items ≡ rest ++ c ∷ [] → c.untried ≡ Untried.Clauses call one → base_of machine.old.denied ≤ length rest → (qv : Query) (s : State Task) → IsBack qv machine.old s →
        IsWrittenSearch machine.old qv.arity → IsWrittenSearch machine.new qv.arity) }
    ensures denied_written { OnOk result ((c : Choice) (rest : List Choice) (d : Denial) → machine.old.choices.items ≡ rest ++ c ∷ [] → c.untried ≡ Untried.Denied d → (ar : ℕ → ℕ) → IsWrittenSearch machine.old ar → IsWrittenSearch machine.new ar) }
    ensures refuted { IfOk result (λ turn. (c : Choice) (rest : List Choice) (d : Denial) → machine.old.choices.items ≡ rest ++ c ∷ [] → c.untried ≡ Untried.Denied d → (qv : Query) (s : State Task) → IsBack qv machine.old s → IsRefutedBy qv turn machine.new s) }
    ensures ends { IfOk result (λ turn. machine.old.choices.items ≡ [] → (a : Around) (s : State Task) → IsBackOf machine.old a s → EndsSo turn machine.old.counts.lost s) }
    ensures stands { IfOk result (λ turn. (c : Course) (x : Tally) → Stands c x Turn.Back machine.old → Leaves c x quiet turn machine.new) }
    ensures steps { OnOk result (machine.new.counts.steps ≡ machine.old.counts.steps) }
    ensures less { IfOk result (λ turn. left_behind turn machine.new < left_behind Turn.Back machine.old) }
{
    let Some(untried) = machine.take_choice()? else {
        if machine.counts.lost {
            return Ok(Turn::Ended(Ending::NoMoreCut));
        }
        return Ok(Turn::Ended(Ending::NoMore));
    };
    match untried {
        Untried::Goals(goals) => {
            go_right(machine, goals)?;
            Ok(Turn::On)
        }
        Untried::Clauses(call, candidate) => {
            let turn = try_candidate(machine, &call, candidate)?;
            Ok(turn)
        }
        Untried::Denied(denial) => Ok(end_denial(machine, denial)),
    }
}
