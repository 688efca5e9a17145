// The unification of pairs.
ghost use Rattle.std.specs.Prelude.{[], ◌∷◌, OnOk, IfErr};
ghost use Rattle.lp_calculus.specs.Types.{Ty};
ghost use Rattle.lp_store.specs.Reading.{ReadsType};
ghost use Rattle.lp_unify.specs.TypeEquations.{pair_of_types, AreSolved, AreRefused};
ghost use Rattle.lp_unify.specs.Frames.{Goes};
ghost use Rattle.lp_unify.specs.Waits.{KeepsEntries};

use crate::delayed::{Delayed, Pair};
use crate::fault::PatternRefusal;
use crate::round::{Round, spend};
use crate::rules::{Verdict, take};
use crate::types::solve_types;
use lp_store::{CellId, Store};
use std::alloc::Global;

// Takes a pair, which costs a unit. One that is stuck waits from then on.
fn take_one(
    alloc: Global,
    store: &mut Store,
    delayed: &mut Delayed,
    round: &mut Round,
    pair: Pair,
    todo: &mut Vec<Pair>,
) -> Result<(), PatternRefusal>
    ensures goes { Goes store.old store.new }
    ensures entries { KeepsEntries delayed.old delayed.new }
{
    spend(&mut round.units)?;
    match take(alloc, store, round, pair, todo)? {
        Verdict::Gone => Ok(()),
        Verdict::Delayed(pair) => {
            delayed.delay(pair)?;
            Ok(())
        }
    }
}

// Takes the pairs until none is left.
fn take_all(
    alloc: Global,
    store: &mut Store,
    delayed: &mut Delayed,
    round: &mut Round,
    todo: &mut Vec<Pair>,
) -> Result<(), PatternRefusal>
    ensures goes { Goes store.old store.new }
    ensures entries { KeepsEntries delayed.old delayed.new }
{
    'pairs: for _ in 0..u64::MAX {
        let Some(pair) = todo.pop() else {
            return Ok(());
        };
        take_one(alloc, store, delayed, round, pair, todo)?;
    }
    Err(PatternRefusal::Memory)
}

/// Unifies two terms at a level. Pairs that are stuck wait from then on; those that wait are not taken up. After a refusal variables may have
/// been bound, and pairs may wait: the caller goes back to marks of the store and of the waiting pairs that were made together.
pub fn unify(
    alloc: Global,
    store: &mut Store,
    delayed: &mut Delayed,
    round: &mut Round,
    left: CellId,
    right: CellId,
    level: u64,
) -> Result<(), PatternRefusal>
    ensures goes { Goes store.old store.new }
    ensures entries { KeepsEntries delayed.old delayed.new }
{
    let mut todo = Vec::new(alloc);
    let pair = Pair { left, right, level };
    take_one(alloc, store, delayed, round, pair, &mut todo)?;
    take_all(alloc, store, delayed, round, &mut todo)?;
    Ok(())
}

/// Unifies two types: finds the most general types for type variables that make them one. After a refusal type variables may have been bound.
pub fn unify_types(
    alloc: Global,
    store: &mut Store,
    round: &mut Round,
    left: CellId,
    right: CellId,
) -> Result<(), PatternRefusal>
    ensures goes { Goes store.old store.new }
    ensures solved { OnOk result ((A B : Ty) → ReadsType store.old left.0 A → ReadsType store.old right.0 B → AreSolved store.old store.new round.old round.new (pair_of_types A B ∷ [])) }
    ensures refused { IfErr result (λ e. (A B : Ty) → ReadsType store.old left.0 A → ReadsType store.old right.0 B → AreRefused e round.old.units (pair_of_types A B ∷ [])) }
{
    let mut todo = Vec::new(alloc);
    todo.push((left, right))?;
    solve_types(alloc, store, round, &mut todo)
}

/// Takes up all pairs that wait, oldest first, as long as a variable was bound since they were last taken up. So it ends the round.
pub fn wake_delayed(
    alloc: Global,
    store: &mut Store,
    delayed: &mut Delayed,
    round: &mut Round,
) -> Result<(), PatternRefusal>
    ensures goes { Goes store.old store.new }
    ensures entries { KeepsEntries delayed.old delayed.new }
{
    let mut todo = Vec::new(alloc);
    'rounds: for _ in 0..u64::MAX {
        if !round.is_bound {
            return Ok(());
        }
        round.is_bound = false;
        delayed.take_up(&mut todo)?;
        take_all(alloc, store, delayed, round, &mut todo)?;
    }
    Err(PatternRefusal::Memory)
}
