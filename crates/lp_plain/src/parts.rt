// Goals that are taken apart.
ghost use Rattle.std.specs.Prelude.{◌≡◌, ℕ, true, false, ◌<◌, List, [], ◌∷◌, ◌++◌, length, IfOk, OnOk};
ghost use Rattle.lp_calculus.specs.Term.{Term, app};
ghost use Rattle.lp_calculus.specs.Types.{Ty};
ghost use Rattle.lp_standard.specs.Connectives.{body_of};
ghost use Rattle.lp_standard.specs.Connectives as two_sided;
ghost use Rattle.lp_term.specs.Nodes.{tree};
ghost use Rattle.lp_term.specs.declared.node.TermId.{TermId};
ghost use Rattle.lp_term.specs.declared.node.TypeId.{TypeId};
ghost use Rattle.lp_model.specs.declared.connective.Connective.TheVariants as known;
ghost use Rattle.lp_model.specs.Branch.{Branch, Entry};
ghost use Rattle.lp_model.specs.Connected.{IsConnectiveIn, connective_in};
ghost use Rattle.lp_model.specs.Flat.{Goal, Goals, Clause, Clauses, Assume, Atomic, Either, Exists, Forall, collect_clauses, written_in_clauses};
ghost use Rattle.lp_model.specs.Index.{lifted};
ghost use Rattle.lp_model.specs.Search.{look_goal, look_form};
ghost use Rattle.lp_plain.specs.declared.outcome.Turn.{Turn};
ghost use Rattle.lp_plain.specs.declared.table.Flat.{Flat};
ghost use Rattle.lp_plain.specs.declared.table.Span.{Span};
ghost use Rattle.lp_plain.specs.Apart.{IsApart};
ghost use Rattle.lp_plain.specs.AtRunTime.{IsWrittenFlat};
ghost use Rattle.lp_plain.specs.Assuming.{ArePlaced, AssumesFor, GrowsAt, IsPlaceAt, KeepsAssumed, clauses_in, lists_of, written_at};
ghost use Rattle.lp_plain.specs.Entries.{Around, ArePartsOf, GoesOnWith, GrowsGoals, HeadsTo, IsBehind, IsOf, KeepsGoals, Reads, entry_at, in_scope, placed};
ghost use Rattle.lp_plain.specs.Keeping.{KeepsCourse};
ghost use Rattle.lp_plain.specs.Marks.{PutsAside, PutsMarks};
ghost use Rattle.lp_plain.specs.Moving.{BindsNone, PutsWith};
ghost use Rattle.lp_plain.specs.Opening.{IsBoundBy, IsNewVariable, IsRaised};
ghost use Rattle.lp_plain.specs.Tables.{AreClausesOf, IsNumbered, shown};
ghost use Rattle.lp_plain.specs.Taking.{IsApartFlat, IsApartForm, KeepsNew, TakesApart, TakesKnown};
ghost use Rattle.lp_plain.specs.Turns.{IsGoalTurn, KeepsProgram};
ghost use Rattle.lp_plain.specs.Within.{StandsIn};
ghost use Rattle.lp_plain.specs.inner.Remaining.{MayChoose, Uses};
ghost use Rattle.lp_plain.specs.WrittenSearch.{IsShut, IsShutIn, WritesBoth, WritesFlat, WritesList, WritesWhere};

use crate::act::Act;
use crate::assume::put_assume;
use crate::choice::Untried;
use crate::frame::{Place, Todo};
use crate::instance::Values;
use crate::machine::Machine;
use crate::outcome::{Turn, take_apart};
use crate::table::Flat;
use lp_base::Memory;
use lp_model::{Connective, Ending};
use lp_term::{TermId, put_applied, put_eigen};

// The place inside the scope of one more variable.
fn bound(machine: &mut Machine, place: Place, value: TermId) -> Result<Place, Memory>
    ensures counts { machine.new.counts ≡ machine.old.counts }
    ensures none { BindsNone machine.old machine.new }
    ensures bound { IfOk result (λ inner. IsBoundBy machine.old machine.new place inner value) }
{
    let one = [value];
    let scope = machine.scopes.open(place.values.scope, &one)?;
    Ok(Place {
        values: Values {
            scope,
            types: place.values.types,
        },
        ..place
    })
}

// The place one level up, and the eigenconstant of that level.
fn raised(machine: &mut Machine, place: Place) -> Result<(Place, TermId), Memory>
    ensures counts { machine.new.counts ≡ machine.old.counts }
    ensures none { BindsNone machine.old machine.new }
    ensures raised { IfOk result (λ made. IsRaised machine.old machine.new place made.0 made.1) }
    ensures stands { OnOk result (StandsIn machine.old → StandsIn machine.new) }
{
    let Some(level) = place.level.checked_add(1) else {
        return Err(Memory);
    };
    let eigen = put_eigen(&mut machine.bank, level)?;
    Ok((Place { level, ..place }, eigen))
}

fn put_either(
    machine: &mut Machine,
    left: usize,
    right: usize,
    place: Place,
    behind: Option<usize>,
) -> Result<(), Memory>
    ensures counts { machine.new.counts ≡ machine.old.counts }
    ensures none { OnOk result (BindsNone machine.old machine.new) }
    ensures aside_with { OnOk result (PutsWith machine.old machine.new) }
    ensures grown { OnOk result (GrowsAt machine.old machine.new place) }
    ensures stands { OnOk result (StandsIn machine.old → StandsIn machine.new) }
    ensures written { OnOk result (WritesBoth machine.old machine.new place left right) }
    ensures kept { OnOk result ((a : Around) → StandsIn machine.old → ArePlaced machine.old a → IsPlaceAt (lists_of machine.old) a place → KeepsNew machine.old machine.new a) }
    ensures marks { OnOk result (PutsMarks machine.old machine.new place behind machine.new.branch.goals) }
    ensures aside { OnOk result (PutsAside machine.old machine.new place behind) }
    ensures parts { OnOk result ((a : Around) (hs ks : Goals) (σ : ℕ → Term) (b : Branch) → IsOf machine.old place left hs σ → IsOf machine.old place right ks σ → IsBehind machine.old a behind b →
        (u n height : ℕ) (P : List Clause) → let g : Goal = Either (in_scope σ place.values.types hs) (in_scope σ place.values.types ks) in ArePartsOf machine.old machine.new a (look_goal u n P height (entry_at a place g) b g)) }
    ensures few { OnOk result (MayChoose machine.old machine.new) }
{
    let other = machine.put_list(right, place, behind)?;
    machine.put_choice(Untried::Goals(other))?;
    machine.note(Act::Left)?;
    let one = machine.put_list(left, place, behind)?;
    machine.branch.goals = one;
    Ok(())
}

// The new variable at which a `sigma` is opened.
fn opened(machine: &mut Machine, level: u64) -> Result<TermId, Memory>
    ensures counts { machine.new.counts ≡ machine.old.counts }
    ensures none { BindsNone machine.old machine.new }
    ensures variable { IfOk result (IsNewVariable machine.old machine.new level) }
    ensures stands { OnOk result (StandsIn machine.old → StandsIn machine.new) }
{
    let variable = machine.new_variable(level)?;
    machine.note(Act::Opened(variable))?;
    Ok(variable)
}

fn put_some(
    machine: &mut Machine,
    goals: usize,
    place: Place,
    behind: Option<usize>,
) -> Result<(), Memory>
    ensures counts { machine.new.counts ≡ machine.old.counts }
    ensures none { OnOk result (BindsNone machine.old machine.new) }
    ensures grown { OnOk result (GrowsAt machine.old machine.new place) }
    ensures stands { OnOk result (StandsIn machine.old → StandsIn machine.new) }
    ensures written { OnOk result (WritesList machine.old machine.new place (false ∷ []) goals) }
    ensures choices { OnOk result (machine.new.choices.items ≡ machine.old.choices.items) }
    ensures marks { OnOk result (PutsMarks machine.old machine.new place behind machine.new.branch.goals) }
    ensures parts { OnOk result ((a : Around) (hs : Goals) (σ : ℕ → Term) (b : Branch) → StandsIn machine.old → IsOf machine.old place goals hs σ → IsBehind machine.old a behind b → (u n height : ℕ) (P : List Clause) (T : Ty) →
        let g : Goal = Exists T (in_scope (lifted σ) place.values.types hs) in ArePartsOf machine.old machine.new a (look_goal u n P height (entry_at a place g) b g)) }
{
    let variable = opened(machine, place.level)?;
    let inner = bound(machine, place, variable)?;
    let front = machine.put_list(goals, inner, behind)?;
    machine.branch.goals = front;
    Ok(())
}

fn put_all(
    machine: &mut Machine,
    goals: usize,
    place: Place,
    behind: Option<usize>,
) -> Result<(), Memory>
    ensures counts { machine.new.counts ≡ machine.old.counts }
    ensures none { OnOk result (BindsNone machine.old machine.new) }
    ensures grown { OnOk result (GrowsAt machine.old machine.new place) }
    ensures stands { OnOk result (StandsIn machine.old → StandsIn machine.new) }
    ensures written { OnOk result (WritesList machine.old machine.new place (true ∷ []) goals) }
    ensures choices { OnOk result (machine.new.choices.items ≡ machine.old.choices.items) }
    ensures marks { OnOk result (PutsMarks machine.old machine.new place behind machine.new.branch.goals) }
    ensures parts { OnOk result ((a : Around) (hs : Goals) (σ : ℕ → Term) (b : Branch) → StandsIn machine.old → IsOf machine.old place goals hs σ → IsBehind machine.old a behind b → (u n height : ℕ) (P : List Clause) (T : Ty) →
        let g : Goal = Forall T (in_scope (lifted σ) place.values.types hs) in ArePartsOf machine.old machine.new a (look_goal u n P height (entry_at a place g) b g)) }
{
    let (above, eigen) = raised(machine, place)?;
    let inner = bound(machine, above, eigen)?;
    let front = machine.put_list(goals, inner, behind)?;
    machine.branch.goals = front;
    Ok(())
}

/// Takes a flattened goal apart.
pub(crate) fn put_parts(
    machine: &mut Machine,
    goal: Flat,
    place: Place,
    behind: Option<usize>,
) -> Result<Turn, Memory>
    ensures counted { IfOk result (λ turn. (ar : ℕ → ℕ) → IsWrittenFlat machine.old ar place goal → IsApart turn machine.old.counts machine.new.counts) }
    ensures either { IfOk result (λ turn. turn ≡ Turn.On → (l r : ℕ) → goal ≡ Flat.Either l r → (a : Around) (hs ks : Goals) (σ : ℕ → Term) (b : Branch) → IsOf machine.old place l hs σ → IsOf machine.old place r ks σ → IsBehind machine.old a behind b →
        (u n height : ℕ) (P : List Clause) → let g : Goal = Either (in_scope σ place.values.types hs) (in_scope σ place.values.types ks) in ArePartsOf machine.old machine.new a (look_goal u n P height (entry_at a place g) b g)) }
    ensures some { IfOk result (λ turn. turn ≡ Turn.On → (l : ℕ) → goal ≡ Flat.Some l → (a : Around) (hs : Goals) (σ : ℕ → Term) (b : Branch) → StandsIn machine.old → IsOf machine.old place l hs σ → IsBehind machine.old a behind b →
        (u n height : ℕ) (P : List Clause) (T : Ty) → let g : Goal = Exists T (in_scope (lifted σ) place.values.types hs) in ArePartsOf machine.old machine.new a (look_goal u n P height (entry_at a place g) b g)) }
    ensures all { IfOk result (λ turn. turn ≡ Turn.On → (l : ℕ) → goal ≡ Flat.All l → (a : Around) (hs : Goals) (σ : ℕ → Term) (b : Branch) → StandsIn machine.old → IsOf machine.old place l hs σ → IsBehind machine.old a behind b →
        (u n height : ℕ) (P : List Clause) (T : Ty) → let g : Goal = Forall T (in_scope (lifted σ) place.values.types hs) in ArePartsOf machine.old machine.new a (look_goal u n P height (entry_at a place g) b g)) }
    ensures taken { IfOk result (λ turn. turn ≡ Turn.On → TakesApart machine.old machine.new place goal behind) }
    ensures written { IfOk result (λ turn. turn ≡ Turn.On → IsApartFlat goal → WritesFlat machine.old machine.new place goal) }
    ensures none { IfOk result (λ turn. turn ≡ Turn.On → IsApartFlat goal → BindsNone machine.old machine.new) }
    ensures aside_with { IfOk result (λ turn. turn ≡ Turn.On → IsApartFlat goal → PutsWith machine.old machine.new) }
    ensures marks { IfOk result (λ turn. turn ≡ Turn.On → IsApartFlat goal → PutsMarks machine.old machine.new place behind machine.new.branch.goals) }
    ensures aside { IfOk result (λ turn. turn ≡ Turn.On → IsApartFlat goal → PutsAside machine.old machine.new place behind) }
    ensures program { OnOk result (KeepsProgram machine.old machine.new) }
    ensures ends { IfOk result IsGoalTurn }
    ensures assume { IfOk result (λ turn. turn ≡ Turn.On → (s : Span) (l free : ℕ) → goal ≡ Flat.Assume s l free → (a : Around) (cs : Clauses) (hs : Goals) (σ : ℕ → Term) (b : Branch) → StandsIn machine.old → ArePlaced machine.old a → IsPlaceAt (lists_of machine.old) a place →
        AreClausesOf machine.old.bank machine.old.table s cs → IsNumbered (shown machine.old.table).frees free (λ f. collect_clauses f 0 cs) → IsOf machine.old place l hs σ → IsBehind machine.old a behind b → (u n height : ℕ) (P : List Clause) →
        let g : Goal = Assume (written_at σ place.values.types (written_in_clauses cs)) (clauses_in σ place.values.types cs) (in_scope σ place.values.types hs) in AssumesFor machine.old machine.new a (look_goal u n P height (entry_at a place g) b g)) }
    ensures uses { IfOk result (λ turn. Uses turn machine.old machine.new) }
{
    if !take_apart(machine) {
        return Ok(Turn::Ended(Ending::Deep));
    }
    match goal {
        Flat::Either(left, right) => {
            put_either(machine, left, right, place, behind)?;
            Ok(Turn::On)
        }
        Flat::Some(goals) => {
            put_some(machine, goals, place, behind)?;
            Ok(Turn::On)
        }
        Flat::All(goals) => {
            put_all(machine, goals, place, behind)?;
            Ok(Turn::On)
        }
        Flat::Assume(rules, goals, free) => {
            let turn = put_assume(machine, rules, goals, free, place, behind)?;
            Ok(turn)
        }
        Flat::Atom(_) => Ok(Turn::On),
        Flat::Cut => Ok(Turn::On),
        Flat::Not(_, _) => Ok(Turn::On),
    }
}

// Terms as goals of a place, in front of others.
fn put_and(
    machine: &mut Machine,
    left: TermId,
    right: TermId,
    place: Place,
    behind: Option<usize>,
) -> Result<(), Memory>
    ensures counts { machine.new.counts ≡ machine.old.counts }
    ensures grown { OnOk result (GrowsAt machine.old machine.new place) }
    ensures written { OnOk result (WritesWhere machine.old machine.new (IsShut machine.old.bank left × IsShut machine.old.bank right)) }
    ensures choices { OnOk result (machine.new.choices.items ≡ machine.old.choices.items) }
    ensures none { OnOk result (BindsNone machine.old machine.new) }
    ensures stands { OnOk result (left.0 < length machine.old.bank.terms → right.0 < length machine.old.bank.terms → StandsIn machine.old → StandsIn machine.new) }
    ensures parts { OnOk result ((a : Around) (b : Branch) → IsBehind machine.old a behind b → (u n height : ℕ) (P : List Clause) (t : Term) (g : Goal) →
        ArePartsOf machine.old machine.new a (look_form u n P height (entry_at a place g) b t (two_sided.And (tree machine.old.bank left.0) (tree machine.old.bank right.0)))) }
{
    let second = machine.put_frame(Todo::Term(right), place, behind)?;
    let first = machine.put_frame(Todo::Term(left), place, second)?;
    machine.branch.goals = first;
    Ok(())
}

fn put_or(
    machine: &mut Machine,
    left: TermId,
    right: TermId,
    place: Place,
    behind: Option<usize>,
) -> Result<(), Memory>
    ensures counts { machine.new.counts ≡ machine.old.counts }
    ensures none { OnOk result (BindsNone machine.old machine.new) }
    ensures aside_with { OnOk result (PutsWith machine.old machine.new) }
    ensures grown { OnOk result (GrowsAt machine.old machine.new place) }
    ensures written { OnOk result (WritesWhere machine.old machine.new (IsShut machine.old.bank left × IsShut machine.old.bank right)) }
    ensures stands { OnOk result (left.0 < length machine.old.bank.terms → right.0 < length machine.old.bank.terms → StandsIn machine.old → StandsIn machine.new) }
    ensures kept { OnOk result ((a : Around) → StandsIn machine.old → ArePlaced machine.old a → IsPlaceAt (lists_of machine.old) a place → KeepsNew machine.old machine.new a) }
    ensures parts { OnOk result ((a : Around) (b : Branch) → IsBehind machine.old a behind b → (u n height : ℕ) (P : List Clause) (t : Term) (g : Goal) →
        ArePartsOf machine.old machine.new a (look_form u n P height (entry_at a place g) b t (two_sided.Or (tree machine.old.bank left.0) (tree machine.old.bank right.0)))) }
    ensures few { OnOk result (MayChoose machine.old machine.new) }
{
    let other = machine.put_frame(Todo::Term(right), place, behind)?;
    machine.put_choice(Untried::Goals(other))?;
    machine.note(Act::Left)?;
    let one = machine.put_frame(Todo::Term(left), place, behind)?;
    machine.branch.goals = one;
    Ok(())
}

// The term on a value.
fn applied(machine: &mut Machine, term: TermId, value: TermId) -> Result<TermId, Memory>
    ensures counts { machine.new.counts ≡ machine.old.counts }
    ensures none { BindsNone machine.old machine.new }
    ensures grows { OnOk result (GrowsGoals machine.old machine.new) }
    ensures frames { machine.new.frames ≡ machine.old.frames }
    ensures assumed { KeepsAssumed machine.old machine.new }
    ensures standings { machine.new.standings ≡ machine.old.standings }
    ensures index { machine.new.index ≡ machine.old.index }
    ensures stands { OnOk result (StandsIn machine.old → StandsIn machine.new) }
    ensures within { IfOk result (λ t. t.0 < length machine.new.bank.terms) }
    ensures course { KeepsCourse machine.old machine.new }
    ensures tree { IfOk result (λ t. tree machine.new.bank t.0 ≡ app (tree machine.old.bank term.0) (tree machine.old.bank value.0)) }
{
    let goal = put_applied(&mut machine.bank, term, value)?;
    Ok(goal)
}

// The term on a value, as the goal of a place.
fn put_goal_of(
    machine: &mut Machine,
    term: TermId,
    value: TermId,
    place: Place,
    behind: Option<usize>,
) -> Result<(), Memory>
    ensures counts { machine.new.counts ≡ machine.old.counts }
    ensures none { OnOk result (BindsNone machine.old machine.new) }
    ensures grown { OnOk result (GrowsAt machine.old machine.new place) }
    ensures written { OnOk result (WritesWhere machine.old machine.new (IsShut machine.old.bank term × IsShut machine.old.bank value)) }
    ensures choices { OnOk result (machine.new.choices.items ≡ machine.old.choices.items) }
    ensures stands { OnOk result (StandsIn machine.old → StandsIn machine.new) }
    ensures front { OnOk result ((a : Around) (es : List Entry) (v : Term) → StandsIn machine.old → HeadsTo (app (tree machine.old.bank term.0) (tree machine.old.bank value.0)) v → Reads machine.old a behind es →
        GoesOnWith machine.old machine.new a (placed a place (Atomic v ∷ []) ++ es)) }
{
    let goal = applied(machine, term, value)?;
    let front = machine.put_frame(Todo::Term(goal), place, behind)?;
    machine.branch.goals = front;
    Ok(())
}

// A `pi` of a term at the next eigenconstant.
fn put_for_all(
    machine: &mut Machine,
    term: TermId,
    place: Place,
    behind: Option<usize>,
) -> Result<(), Memory>
    ensures counts { machine.new.counts ≡ machine.old.counts }
    ensures none { OnOk result (BindsNone machine.old machine.new) }
    ensures grown { OnOk result (GrowsAt machine.old machine.new place) }
    ensures written { OnOk result (WritesWhere machine.old machine.new (IsShut machine.old.bank term)) }
    ensures choices { OnOk result (machine.new.choices.items ≡ machine.old.choices.items) }
    ensures stands { OnOk result (StandsIn machine.old → StandsIn machine.new) }
    ensures parts { OnOk result ((a : Around) (b : Branch) → StandsIn machine.old → term.0 < length machine.old.bank.terms → IsBehind machine.old a behind b → (u n height : ℕ) (P : List Clause) (t : Term) (g : Goal) (T : Ty) →
        ArePartsOf machine.old machine.new a (look_form u n P height (entry_at a place g) b t (two_sided.ForAll T (body_of (tree machine.old.bank term.0))))) }
{
    let (above, eigen) = raised(machine, place)?;
    put_goal_of(machine, term, eigen, above, behind)?;
    Ok(())
}

// A `sigma` of a term at a new variable.
fn put_exists(
    machine: &mut Machine,
    term: TermId,
    place: Place,
    behind: Option<usize>,
) -> Result<(), Memory>
    ensures counts { machine.new.counts ≡ machine.old.counts }
    ensures none { OnOk result (BindsNone machine.old machine.new) }
    ensures grown { OnOk result (GrowsAt machine.old machine.new place) }
    ensures written { OnOk result (WritesWhere machine.old machine.new (IsShut machine.old.bank term)) }
    ensures choices { OnOk result (machine.new.choices.items ≡ machine.old.choices.items) }
    ensures stands { OnOk result (StandsIn machine.old → StandsIn machine.new) }
    ensures parts { OnOk result ((a : Around) (b : Branch) → StandsIn machine.old → term.0 < length machine.old.bank.terms → IsBehind machine.old a behind b → (u n height : ℕ) (P : List Clause) (t : Term) (g : Goal) (T : Ty) →
        ArePartsOf machine.old machine.new a (look_form u n P height (entry_at a place g) b t (two_sided.Exists T (body_of (tree machine.old.bank term.0))))) }
{
    let variable = opened(machine, place.level)?;
    put_goal_of(machine, term, variable, place, behind)?;
    Ok(())
}

// Goes on with the goals behind.
fn go_behind(machine: &mut Machine, behind: Option<usize>)
    ensures counts { machine.new.counts ≡ machine.old.counts }
    ensures none { BindsNone machine.old machine.new }
    ensures known { KeepsGoals machine.old machine.new }
    ensures frames { machine.new.frames ≡ machine.old.frames }
    ensures assumed { KeepsAssumed machine.old machine.new }
    ensures denied { machine.new.denied ≡ machine.old.denied }
    ensures goals { machine.new.branch.goals ≡ behind }
    ensures next { machine.new.branch.next ≡ machine.old.branch.next }
    ensures next_type { machine.new.branch.next_type ≡ machine.old.branch.next_type }
    ensures choices { machine.new.choices ≡ machine.old.choices }
{
    machine.branch.goals = behind;
}

/// Takes a goal that is known at run time apart.
pub(crate) fn put_connective(
    machine: &mut Machine,
    connective: Connective,
    place: Place,
    behind: Option<usize>,
) -> Result<Turn, Memory>
    ensures counted { IfOk result (λ turn. IsApart turn machine.old.counts machine.new.counts) }
    ensures program { OnOk result (KeepsProgram machine.old machine.new) }
    ensures ends { IfOk result IsGoalTurn }
    ensures none { IfOk result (λ turn. turn ≡ Turn.On → IsApartForm connective → BindsNone machine.old machine.new) }
    ensures aside_with { IfOk result (λ turn. turn ≡ Turn.On → IsApartForm connective → PutsWith machine.old machine.new) }
    ensures written { IfOk result (λ turn. turn ≡ Turn.On → IsApartForm connective → WritesWhere machine.old machine.new (IsShutIn machine.old.bank connective)) }
    ensures taken { IfOk result (λ turn. turn ≡ Turn.On → IsApartForm connective → TakesKnown machine.old machine.new place connective behind) }
    ensures and { IfOk result (λ turn. turn ≡ Turn.On → (l r : TermId) → connective ≡ known.And l r → (a : Around) (b : Branch) → IsBehind machine.old a behind b → (u n height : ℕ) (P : List Clause) (t : Term) (g : Goal) →
        ArePartsOf machine.old machine.new a (look_form u n P height (entry_at a place g) b t (connective_in machine.old.bank connective))) }
    ensures or { IfOk result (λ turn. turn ≡ Turn.On → (l r : TermId) → connective ≡ known.Or l r → (a : Around) (b : Branch) → IsBehind machine.old a behind b → (u n height : ℕ) (P : List Clause) (t : Term) (g : Goal) →
        ArePartsOf machine.old machine.new a (look_form u n P height (entry_at a place g) b t (connective_in machine.old.bank connective))) }
    ensures truth { IfOk result (λ turn. turn ≡ Turn.On → connective ≡ known.True → (a : Around) (b : Branch) → IsBehind machine.old a behind b → (u n height : ℕ) (P : List Clause) (t : Term) (g : Goal) →
        ArePartsOf machine.old machine.new a (look_form u n P height (entry_at a place g) b t (connective_in machine.old.bank connective))) }
    ensures forall { IfOk result (λ turn. turn ≡ Turn.On → (of : TypeId) (s : TermId) → connective ≡ known.ForAll of s → (a : Around) (b : Branch) → StandsIn machine.old → IsConnectiveIn machine.old.bank connective → IsBehind machine.old a behind b → (u n height : ℕ) (P : List Clause) (t : Term) (g : Goal) →
        ArePartsOf machine.old machine.new a (look_form u n P height (entry_at a place g) b t (connective_in machine.old.bank connective))) }
    ensures exists { IfOk result (λ turn. turn ≡ Turn.On → (of : TypeId) (s : TermId) → connective ≡ known.Exists of s → (a : Around) (b : Branch) → StandsIn machine.old → IsConnectiveIn machine.old.bank connective → IsBehind machine.old a behind b → (u n height : ℕ) (P : List Clause) (t : Term) (g : Goal) →
        ArePartsOf machine.old machine.new a (look_form u n P height (entry_at a place g) b t (connective_in machine.old.bank connective))) }
    ensures uses { IfOk result (λ turn. Uses turn machine.old machine.new) }
{
    if !take_apart(machine) {
        return Ok(Turn::Ended(Ending::Deep));
    }
    match connective {
        Connective::And(left, right) => {
            put_and(machine, left, right, place, behind)?;
            Ok(Turn::On)
        }
        Connective::Or(left, right) => {
            put_or(machine, left, right, place, behind)?;
            Ok(Turn::On)
        }
        Connective::ForAll(_, term) => {
            put_for_all(machine, term, place, behind)?;
            Ok(Turn::On)
        }
        Connective::Exists(_, term) => {
            put_exists(machine, term, place, behind)?;
            Ok(Turn::On)
        }
        Connective::True => {
            go_behind(machine, behind);
            Ok(Turn::On)
        }
        Connective::Cut | Connective::Implies(_, _) | Connective::Not(_) | Connective::Atomic => {
            go_behind(machine, behind);
            Ok(Turn::On)
        }
    }
}
