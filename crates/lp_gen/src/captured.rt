// The variables around assumed clauses that stand in them.
ghost use Rattle.std.specs.Prelude.{◌≡◌, ℕ, nat_eq, Bool, List, ◌<◌, ◌≤◌, ◌+◌, ◌-◌, ◌*◌, true, None, IfOk, IfSome, OnOk};
ghost use Rattle.std.specs.List.{IsDistinct};
ghost use Rattle.lp_term.specs.Nodes.{tree};
ghost use Rattle.lp_term.specs.Walk.{size};
ghost use Rattle.lp_model.specs.Flat.{clauses, no_clauses};
ghost use Rattle.lp_model.specs.Flattened.{goal_of, clause_of, clauses_of};
ghost use Rattle.lp_code.specs.States.{member};
ghost use Rattle.lp_gen.specs.inner.Bodies.{IsThrough, AllThrough};
ghost use Rattle.lp_gen.specs.inner.TermLaw.{AllLoose};
ghost use Rattle.lp_gen.specs.inner.Capturing.{IsDepth, IsAmong, IsSo, IsLevelOf, AreFound, PlacesHold, PlacesHave, Marks, Finds, goal_size, clause_size, place_task, place_work};
ghost use Rattle.lp_gen.specs.declared.captured.Place.TheVariants as on;

use indexmap::IndexSet;
use lp_base::Memory;
use lp_model::{Clause, Goal};
use lp_term::{Bank, TermId, TermNode};
use std::alloc::Global;

// Where variables may stand, under so many that are bound there, the next one last. Under 2^64 and more none that is around can stand: these are no number.
#[derive(Clone, Copy)]
enum Place<'a> {
    Clauses(&'a [Clause], Option<u64>),
    Goals(&'a [Goal], Option<u64>),
    Terms(&'a [TermId], Option<u64>),
    Term(TermId, Option<u64>),
}

// The depth under so many variables more.
fn deeper(depth: Option<u64>, more: u64) -> Option<u64>
    ensures { (d : ℕ) → IsDepth d depth → IsDepth (d + more) result }
{
    depth?.checked_add(more)
}

// An index as it stands for what is around so many variables.
fn around(index: u64, depth: Option<u64>) -> Option<u64>
    ensures bound { result ≡ None → (d : ℕ) → IsDepth d depth → index < d }
    ensures free { IfSome result (λ i. (d : ℕ) → IsDepth d depth → (d ≤ index) × (i ≡ index - d)) }
    ensures depth { IfSome result (λ i. (d : ℕ) × IsDepth d depth) }
{
    index.checked_sub(depth?)
}

// The variable that an index stands for, of as many as are around.
fn mark(levels: &mut IndexSet<u64>, base: u64, index: u64) -> Result<(), Memory>
    ensures old { OnOk result ((k : ℕ) → member k levels.old.keys ≡ true → member k levels.new.keys ≡ true) }
    ensures new { OnOk result (IsAmong base levels.new.keys index) }
    ensures found { OnOk result ((p : ℕ → Bool) → p index ≡ true → AreFound base p levels.old.keys levels.new.keys) }
    ensures distinct { OnOk result (IsDistinct nat_eq levels.old.keys → IsDistinct nat_eq levels.new.keys) }
{
    if index >= base {
        return Ok(());
    }
    let _new = levels.insert(base - index - 1)?;
    Ok(())
}

fn visit_term<'a>(
    bank: &'a Bank,
    base: u64,
    term: TermId,
    depth: Option<u64>,
    levels: &mut IndexSet<u64>,
    work: &mut Vec<Place<'a>>,
) -> Result<(), Memory>
    ensures less { OnOk result (place_work bank.now work.new.items + 1 ≤ place_work bank.now work.old.items + 4 * size (tree bank.now term.0)) }
    ensures marks { OnOk result (Marks bank.now base levels.old.keys levels.new.keys work.old.items work.new.items (on.Term term depth)) }
    ensures finds { OnOk result (Finds bank.now base levels.old.keys levels.new.keys work.old.items work.new.items (on.Term term depth)) }
    ensures distinct { OnOk result (IsDistinct nat_eq levels.old.keys → IsDistinct nat_eq levels.new.keys) }
{
    match bank.term_node(term) {
        TermNode::Index(index) => {
            let Some(index) = around(index, depth) else {
                return Ok(());
            };
            mark(levels, base, index)?;
            Ok(())
        }
        TermNode::Abs(body) => {
            let under = deeper(depth, 1);
            work.push(Place::Term(body, under))?;
            Ok(())
        }
        TermNode::App(head, args) => {
            work.push(Place::Terms(args, depth))?;
            work.push(Place::Term(head, depth))?;
            Ok(())
        }
        _ => Ok(()),
    }
}

// The parts of a goal.
fn visit_goal<'a>(
    bank: &Bank,
    goal: &'a Goal,
    depth: Option<u64>,
    work: &mut Vec<Place<'a>>,
) -> Result<(), Memory>
    ensures less { OnOk result (place_work bank.now work.new.items ≤ place_work bank.now work.old.items + goal_size bank.now goal.now) }
    ensures marks { OnOk result ((base : ℕ) (ks : List ℕ) → PlacesHold bank.now base ks work.new.items → PlacesHold bank.now base ks work.old.items × ((d : ℕ) → IsDepth d depth → IsThrough (AllLoose (IsAmong base ks)) d (goal_of bank.now goal.now))) }
    ensures finds { OnOk result ((p : ℕ → Bool) → PlacesHave bank.now p work.old.items → (d : ℕ) → IsDepth d depth → IsThrough (AllLoose (IsSo p)) d (goal_of bank.now goal.now) → PlacesHave bank.now p work.new.items) }
{
    match goal {
        Goal::Atom(term) => {
            work.push(Place::Term(*term, depth))?;
            Ok(())
        }
        Goal::Cut => Ok(()),
        Goal::Either(left, right) => {
            work.push(Place::Goals(left.as_slice(), depth))?;
            work.push(Place::Goals(right.as_slice(), depth))?;
            Ok(())
        }
        Goal::Some(_, goals) => {
            let under = deeper(depth, 1);
            work.push(Place::Goals(goals.as_slice(), under))?;
            Ok(())
        }
        Goal::All(_, goals) => {
            let under = deeper(depth, 1);
            work.push(Place::Goals(goals.as_slice(), under))?;
            Ok(())
        }
        Goal::Assume(clauses, goals) => {
            work.push(Place::Clauses(clauses.as_slice(), depth))?;
            work.push(Place::Goals(goals.as_slice(), depth))?;
            Ok(())
        }
        Goal::Not(goals) => {
            work.push(Place::Goals(goals.as_slice(), depth))?;
            Ok(())
        }
    }
}

// The parts of a clause.
fn visit_clause<'a>(
    bank: &Bank,
    clause: &'a Clause,
    depth: Option<u64>,
    work: &mut Vec<Place<'a>>,
) -> Result<(), Memory>
    ensures less { OnOk result (place_work bank.now work.new.items ≤ place_work bank.now work.old.items + clause_size bank.now clause.now) }
    ensures marks { OnOk result ((base : ℕ) (ks : List ℕ) → PlacesHold bank.now base ks work.new.items → PlacesHold bank.now base ks work.old.items × ((d : ℕ) → IsDepth d depth → AllThrough (AllLoose (IsAmong base ks)) d (clauses (clause_of bank.now clause.now) no_clauses))) }
    ensures finds { OnOk result ((p : ℕ → Bool) → PlacesHave bank.now p work.old.items → (d : ℕ) → IsDepth d depth → AllThrough (AllLoose (IsSo p)) d (clauses (clause_of bank.now clause.now) no_clauses) → PlacesHave bank.now p work.new.items) }
{
    let under = deeper(depth, clause.vars.len() as u64);
    work.push(Place::Goals(clause.body.as_slice(), under))?;
    work.push(Place::Term(clause.head, under))?;
    Ok(())
}

// Looks at a place, whose parts come next.
fn take_up<'a>(
    bank: &'a Bank,
    base: u64,
    place: Place<'a>,
    levels: &mut IndexSet<u64>,
    work: &mut Vec<Place<'a>>,
) -> Result<(), Memory>
    ensures less { OnOk result (place_work bank.now work.new.items + 1 ≤ place_work bank.now work.old.items + place_task bank.now place.entry) }
    ensures marks { OnOk result (Marks bank.now base levels.old.keys levels.new.keys work.old.items work.new.items place.entry) }
    ensures finds { OnOk result (Finds bank.now base levels.old.keys levels.new.keys work.old.items work.new.items place.entry) }
    ensures distinct { OnOk result (IsDistinct nat_eq levels.old.keys → IsDistinct nat_eq levels.new.keys) }
{
    match place {
        Place::Clauses(clauses, depth) => {
            let Some((first, rest)) = clauses.split_first() else {
                return Ok(());
            };
            work.push(Place::Clauses(rest, depth))?;
            visit_clause(bank, first, depth, work)?;
            Ok(())
        }
        Place::Goals(goals, depth) => {
            let Some((first, rest)) = goals.split_first() else {
                return Ok(());
            };
            work.push(Place::Goals(rest, depth))?;
            visit_goal(bank, first, depth, work)?;
            Ok(())
        }
        Place::Terms(terms, depth) => {
            let Some((first, rest)) = terms.split_first() else {
                return Ok(());
            };
            work.push(Place::Terms(rest, depth))?;
            work.push(Place::Term(*first, depth))?;
            Ok(())
        }
        Place::Term(term, depth) => {
            visit_term(bank, base, term, depth, levels, work)?;
            Ok(())
        }
    }
}

/// The levels of those of so many variables around clauses that stand in them.
pub(crate) fn captured_of(
    alloc: Global,
    bank: &Bank,
    clauses: &[Clause],
    base: u64,
) -> Result<IndexSet<u64>, Memory>
    ensures all { IfOk result (λ levels. AllThrough (AllLoose (IsAmong base levels.keys)) 0 (clauses_of bank.now clauses.now)) }
    ensures found { IfOk result (λ levels. (p : ℕ → Bool) → AllThrough (AllLoose (IsSo p)) 0 (clauses_of bank.now clauses.now) → (k : ℕ) → member k levels.keys ≡ true → IsLevelOf base p k) }
    ensures distinct { IfOk result (λ levels. IsDistinct nat_eq levels.keys) }
{
    let mut levels = IndexSet::new(alloc);
    let mut work = Vec::new(alloc);
    work.push(Place::Clauses(clauses, Some(0)))?;
    'places: while let Some(place) = work.pop() {
        take_up(bank, base, place, &mut levels, &mut work)?;
    }
    Ok(levels)
}
