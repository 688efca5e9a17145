// Negated goals: the search of one stands on that of its branch.
ghost use Rattle.std.specs.Prelude.{◌≡◌, ◌≢◌, ◌+◌, ◌<◌, ◌≤◌, ℕ, List, map, [], length, take, true, false, None, Some, OnOk, IfOk};
ghost use Rattle.lp_watch.specs.Crowd.{places};
ghost use Rattle.lp_model.specs.declared.ending.Ending.{Ending};
ghost use Rattle.lp_plain.specs.declared.choice.Untried.{Untried};
ghost use Rattle.lp_plain.specs.declared.table.Flat.{Flat};
ghost use Rattle.lp_plain.specs.declared.outcome.Turn.{Turn};
ghost use Rattle.lp_calculus.specs.Term.{Term};
ghost use Rattle.lp_model.specs.Branch.{Branch, Task};
ghost use Rattle.lp_model.specs.Flat.{Goals, Written, Not as Denied};
ghost use Rattle.lp_model.specs.Search.{look_not};
ghost use Rattle.lp_model.specs.Skeleton.{State};
ghost use Rattle.lp_model.specs.declared.program.Declared.{Declared as Named};
ghost use Rattle.lp_plain.specs.Calling.{TellsOn};
ghost use Rattle.lp_plain.specs.Hearing.{HeardBy};
ghost use Rattle.lp_plain.specs.Denials.{IsBegun, IsHeldBy, TakesDenied, goes_around};
ghost use Rattle.lp_plain.specs.Entries.{Around as Reading, GrowsGoals, IsBehind, IsOf, entry_at, in_scope};
ghost use Rattle.lp_plain.specs.HeadLooks.{OnlyBank};
ghost use Rattle.lp_plain.specs.Keeping.{HasOneMore};
ghost use Rattle.lp_plain.specs.Moving.{IsAtGoal, IsRunning, IsState, Query};
ghost use Rattle.lp_plain.specs.Negations.{denial, AreFound, IsDenied, Takes};
ghost use Rattle.lp_plain.specs.Turns.{IsGoalTurn, KeepsProgram};
ghost use Rattle.lp_plain.specs.Within.{StandsIn};
ghost use Rattle.lp_plain.specs.WrittenSearch.{IsWrittenSearch, WritesList};
ghost use Rattle.lp_plain.specs.inner.Beginning.{CountsFirst, HearsFirst};
ghost use Rattle.lp_plain.specs.inner.Remaining.{Uses, left_behind};

use crate::choice::{Denial, Untried};
use crate::frame::Place;
use crate::machine::Machine;
use crate::openness::{Around, Openness, Standing, openness_of_goal};
use crate::outcome::{Turn, take_step};
use lp_base::Memory;
use lp_model::Ending;
use lp_standard::Constant;
use lp_watch::{Crowd, Note, Watch};

// Begins the search of the goals: one branch without residual pairs, whose alternatives stand on those of the branch at work.
fn begin(
    machine: &mut Machine,
    goals: usize,
    place: Place,
    behind: Option<usize>,
) -> Result<(), Memory>
    ensures more { OnOk result (HasOneMore machine.old.choices.items machine.new.choices.items (Untried.Denied (denial machine.old behind))) }
    ensures inside { OnOk result (machine.new.denied ≡ Some (length machine.old.choices.items)) }
    ensures lost { OnOk result (machine.new.counts.lost ≡ false) }
    ensures steps { OnOk result (machine.new.counts.steps ≡ machine.old.counts.steps) }
    ensures pairs { OnOk result (machine.new.branch.pairs.items ≡ []) }
    ensures program { OnOk result (KeepsProgram machine.old machine.new) }
    ensures written { OnOk result (WritesList machine.old machine.new place [] goals) }
    ensures begun { OnOk result (IsBegun machine.old machine.new place goals behind) }
    ensures inner { OnOk result ((a : Reading) (hs : Goals) (σ : ℕ → Term) (b : Branch) (w : Written) → IsOf machine.old place goals hs σ → machine.old.branch.next ≡ b.next → machine.old.branch.next_type ≡ b.next_type → a.mark (length machine.new.choices.items) ≡ 0 →
        let gs : Goals = in_scope σ place.values.types hs in IsDenied machine.new a (look_not (entry_at a place (Denied w gs)) b gs (Some false))) }
{
    let denial = Denial {
        behind,
        around: machine.denied,
        lost: machine.counts.lost,
    };
    let number = machine.choices.len();
    machine.put_choice(Untried::Denied(denial))?;
    machine.denied = Some(number);
    machine.counts.lost = false;
    machine.branch.pairs = Vec::new(machine.alloc);
    let mark = machine.choices.len();
    let first = machine.put_list(goals, Place { mark, ..place }, None)?;
    machine.branch.goals = first;
    Ok(())
}

// Whether a negated goal is open in which this is written.
fn openness_at(machine: &mut Machine, free: usize, place: Place) -> Result<Openness, Memory>
    ensures bank { OnOk result (OnlyBank machine.old machine.new) }
    ensures counts { machine.new.counts ≡ machine.old.counts }
    ensures choices { machine.new.choices ≡ machine.old.choices }
    ensures denied { machine.new.denied ≡ machine.old.denied }
    ensures branch { machine.new.branch ≡ machine.old.branch }
    ensures frames { machine.new.frames ≡ machine.old.frames }
    ensures assumptions { machine.new.assumptions ≡ machine.old.assumptions }
    ensures newest { machine.new.newest ≡ machine.old.newest }
    ensures grows { OnOk result (GrowsGoals machine.old machine.new) }
    ensures program { OnOk result (KeepsProgram machine.old machine.new) }
    ensures stands { OnOk result (StandsIn machine.old → StandsIn machine.new) }
    ensures found { IfOk result (AreFound machine.old (record { free = free; values = place.values; older = place.standing })) }
{
    let around = Around {
        bindings: &machine.bindings,
        scopes: &machine.scopes,
        table: &machine.table,
        standings: machine.standings.as_slice(),
    };
    let goals = Standing {
        free,
        values: place.values,
        older: place.standing,
    };
    let openness = openness_of_goal(machine.alloc, &mut machine.bank, around, goals)?;
    Ok(openness)
}

/// Takes a negated goal: one step. `free` is what is written in its goals.
pub(crate) fn take_not<W: Watch>(
    machine: &mut Machine,
    crowd: &mut Crowd<'_, W>,
    goals: usize,
    free: usize,
    place: Place,
    behind: Option<usize>,
) -> Result<Turn, Memory>
    ensures takes { IfOk result (λ turn. Takes turn (record { free = free; values = place.values; older = place.standing }) machine.old machine.new behind) }
    ensures denies { IfOk result (λ turn. (qv : Query) (a : Reading) (raw : Branch) (s : State Task) (h : IsRunning qv machine.old a raw s) → IsAtGoal machine.old a place (Flat.Not goals free) behind raw → TellsOn (λ x. (cs : List Named) → HeardBy cs machine.old machine.new (places crowd.old.texts.items (map W.seen crowd.old.watchers.now.items)) (places crowd.new.texts.items (map W.seen crowd.new.watchers.now.items)) x) (λ x. TakesDenied x turn qv machine.new s h.at_work.goals)) }
    ensures begins { (qv : Query) (a : Reading) (raw : Branch) (s : State Task) → IsRunning qv machine.old a raw s → IsAtGoal machine.old a place (Flat.Not goals free) behind raw → (cs : List Named) → HearsFirst cs (places crowd.old.texts.items (map W.seen crowd.old.watchers.now.items)) (places crowd.new.texts.items (map W.seen crowd.new.watchers.now.items)) s }
    ensures within { OnOk result ((qv : Query) (a : Reading) (raw : Branch) (s : State Task) → IsRunning qv machine.old a raw s → IsAtGoal machine.old a place (Flat.Not goals free) behind raw → CountsFirst machine.old machine.new s) }
    ensures same { crowd.new.watchers.ghost_name ≡ crowd.old.watchers.ghost_name }
    ensures written { IfOk result (λ turn. turn ≡ Turn.On → WritesList machine.old machine.new place [] goals) }
    ensures program { OnOk result (KeepsProgram machine.old machine.new) }
    ensures ends { IfOk result IsGoalTurn }
    ensures inner { IfOk result (λ turn. turn ≡ Turn.On → (a : Reading) (hs : Goals) (σ : ℕ → Term) (b : Branch) (w : Written) → StandsIn machine.old → IsOf machine.old place goals hs σ → IsBehind machine.old a behind b → a.mark (length machine.new.choices.items) ≡ 0 →
        let gs : Goals = in_scope σ place.values.types hs in IsDenied machine.new a (look_not (entry_at a place (Denied w gs)) b gs (Some false))) }
    ensures uses { IfOk result (λ turn. Uses turn machine.old machine.new) }
{
    if !take_step(machine) {
        return Ok(Turn::Ended(Ending::Steps));
    }
    crowd.tell(Note::Goal(Constant::Not.name()))?;
    match openness_at(machine, free, place)? {
        Openness::Deep => Ok(Turn::Ended(Ending::Deep)),
        Openness::Open => Ok(Turn::Ended(Ending::OpenNot)),
        Openness::Closed => {
            begin(machine, goals, place, behind)?;
            Ok(Turn::On)
        }
    }
}

/// The branch at work has no goals: an answer of the search, or of that of a negated goal, which fails by it.
pub(crate) fn end_branch(machine: &mut Machine) -> Turn
    ensures answered { machine.old.denied ≡ None → result ≡ Turn.Answered }
    ensures same { machine.old.denied ≡ None → machine.new ≡ machine.old }
    ensures pairs { (number : ℕ) → machine.old.denied ≡ Some number → machine.old.branch.pairs.items ≢ [] → result ≡ Turn.Ended Ending.OpenNot }
    ensures written { (ar : ℕ → ℕ) → StandsIn machine.old → IsWrittenSearch machine.old ar → IsWrittenSearch machine.new ar }
    ensures fails { (number : ℕ) → machine.old.denied ≡ Some number → machine.old.branch.pairs.items ≡ [] → (result ≡ Turn.Back) × (machine.new.choices.items ≡ take number machine.old.choices.items) }
    ensures steps { machine.new.counts.steps ≡ machine.old.counts.steps }
    ensures program { KeepsProgram machine.old machine.new }
    ensures held { (qv : Query) (s : State Task) → IsState qv machine.old s → machine.old.branch.goals ≡ None → (number : ℕ) → machine.old.denied ≡ Some number → IsHeldBy qv result machine.new s }
    ensures less { left_behind result machine.new < left_behind Turn.On machine.old }
{
    let Some(number) = machine.denied else {
        return Turn::Answered;
    };
    if !machine.branch.pairs.is_empty() {
        return Turn::Ended(Ending::OpenNot);
    }
    machine.drop_denied(number);
    Turn::Back
}

/// No alternative of the search of a negated goal is left, and its branch, to which the search went back, goes on. A cut may have removed an
/// answer of it.
pub(crate) fn end_denial(machine: &mut Machine, denial: Denial) -> Turn
    ensures cut { machine.old.counts.lost ≡ true → result ≡ Turn.Ended Ending.OpenNot }
    ensures holds { machine.old.counts.lost ≡ false → result ≡ Turn.On }
    ensures around { machine.new.denied ≡ denial.around }
    ensures lost { machine.new.counts.lost ≡ denial.lost }
    ensures written { (ar : ℕ → ℕ) → IsWrittenSearch machine.old ar → IsWrittenSearch machine.new ar }
    ensures behind { machine.new.branch.goals ≡ denial.behind }
    ensures steps { machine.new.counts.steps ≡ machine.old.counts.steps }
    ensures program { KeepsProgram machine.old machine.new }
    ensures only { machine.new ≡ goes_around machine.old denial }
{
    let lost = machine.counts.lost;
    machine.denied = denial.around;
    machine.counts.lost = denial.lost;
    machine.branch.goals = denial.behind;
    if lost {
        return Turn::Ended(Ending::OpenNot);
    }
    Turn::On
}
