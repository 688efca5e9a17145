// The unification of pairs.
ghost use Rattle.std.specs.Prelude.{◌≡◌, ◌≤◌, ◌<◌, ◌++◌, ◌||◌, ℕ, Bool, List, [], length, map, reverse, true, Some, All, IfOk, OnOk, IfErr};
ghost use Rattle.lp_calculus.specs.Types.{Ty, var};
ghost use Rattle.lp_term.specs.Nodes.{Extends};
ghost use Rattle.lp_model.specs.Pair.{Closing, Pair as Equation};
ghost use Rattle.lp_model.specs.Proofs.{Declared};
ghost use Rattle.lp_model.specs.Answers.{Variable as TypedVariable};
ghost use Rattle.lp_model.specs.Unify.{State, Unified, Solution, solve};
ghost use Rattle.lp_unify_laws.specs.TypeSolutions.{Satisfies};
ghost use Rattle.lp_unify_laws.specs.Solutions.{IsTypedInput, AreStuck, IsSolution as SolvesInput};
ghost use Rattle.lp_pattern.specs.declared.fault.PatternRefusal.TheVariants.{Fails};
ghost use Rattle.lp_pattern.specs.Growing.{Grows, IsPairOf};
ghost use Rattle.lp_pattern.specs.Inside.{IsTypePairOf};
ghost use Rattle.lp_pattern.specs.Reading.{type_pairs_of};
ghost use Rattle.lp_pattern.specs.Solutions.{HasSolutions};
ghost use Rattle.lp_pattern.specs.Turning.{IsOpenReading, AreKnownPairs, ArePairsFor};
ghost use Rattle.lp_pattern.specs.Turns.{Began, LeadsTo};
ghost use Rattle.lp_pattern.specs.Unifying.{pairs_at, run, ComesToOutcome, IsTypedRun, Reads, IsSolutionUnder, IsSolution, IsRefusedAs};

use crate::bindings::Bindings;
use crate::fault::PatternRefusal;
use crate::inside::{are_pairs, are_type_pairs, inside};
use crate::rules::{Verdict, take};
use crate::types::solve_types;
use crate::units::spend;
use lp_base::Memory;
use lp_model::Pair;
use lp_term::{Bank, TermId, TypeId};
use std::alloc::Global;

/// What variables are bound to, in the order in which they were bound, and the pairs that are left.
#[derive(Drop)]
pub struct Solved {
    pub bindings: Vec<(u64, TermId)>,
    pub types: Vec<(u64, TypeId)>,
    pub residual: Vec<Pair>,
}

// Puts pairs on a stack, so that the first of them comes first.
fn push_pairs(pairs: &[Pair], todo: &mut Vec<Pair>) -> Result<(), Memory>
    ensures { OnOk result (todo.new.items ≡ todo.old.items ++ reverse pairs.now) }
{
    for pair in pairs.iter().rev().copied() {
        todo.push(pair)?;
    }
    Ok(())
}

// Takes the pairs until none is left. Says whether a variable was bound.
fn take_all(
    alloc: Global,
    bank: &mut Bank,
    bindings: &mut Bindings,
    todo: &mut Vec<Pair>,
    waiting: &mut Vec<Pair>,
    next: &mut u64,
    units: &mut u64,
) -> Result<bool, PatternRefusal>
    requires todo { All (IsPairOf (length bank.old.terms)) todo.old.items }
    requires waiting { All (IsPairOf (length bank.old.terms)) waiting.old.items }
    ensures kept { Extends bank.old bank.new }
    ensures waiting { OnOk result (All (IsPairOf (length bank.new.terms)) waiting.new.items) }
    ensures more { next.old ≤ next.new }
    ensures grown { Grows bindings.old bindings.new }
    ensures emptied { OnOk result (todo.new.items ≡ []) }
    ensures fewer { OnOk result (units.new ≤ units.old) }
    ensures bound { IfOk result (λ is_bound. is_bound ≡ true → units.new < units.old) }
    ensures taken { IfOk result (λ is_bound. (limit : ℕ) (o : Began) (n : ℕ) (u : Unified) (bound : Bool) → LeadsTo limit o n u bank.old bindings.old next.old units.old (reverse todo.old.items) waiting.old.items bound →
        LeadsTo limit o n u bank.new bindings.new next.new units.new [] waiting.new.items (bound || is_bound)) }
    ensures refused { IfErr result (λ e. (limit : ℕ) (o : Began) (n : ℕ) (u : Unified) (bound : Bool) → LeadsTo limit o n u bank.old bindings.old next.old units.old (reverse todo.old.items) waiting.old.items bound → IsRefusedAs e n u) }
{
    let before = bindings.mark();
    'pairs: loop {
        let Some(pair) = todo.pop() else {
            return Ok(bindings.mark() != before);
        };
        spend(units)?;
        match take(alloc, bank, bindings, next, pair, todo, units)? {
            Verdict::Gone => {}
            Verdict::Delayed(pair) => waiting.push(pair)?,
        }
    }
}

// Unifies where all types and terms are in the bank.
fn solve_inside(
    alloc: Global,
    bank: &mut Bank,
    bindings: &mut Bindings,
    types: &[(TypeId, TypeId)],
    pairs: &[Pair],
    delayed: &[Pair],
    next: &mut u64,
    limit: u64,
) -> Result<Vec<Pair>, PatternRefusal>
    requires types { All (IsTypePairOf (length bank.old.types)) types.now }
    requires pairs { All (IsPairOf (length bank.old.terms)) pairs.now }
    requires delayed { All (IsPairOf (length bank.old.terms)) delayed.now }
    ensures kept { Extends bank.old bank.new }
    ensures more { next.old ≤ next.new }
    ensures grown { Grows bindings.old bindings.new }
    ensures within { IfOk result (λ left. All (IsPairOf (length bank.new.terms)) left.items) }
    ensures solved { IfOk result (λ left. (c : Closing) → IsOpenReading bank.old bindings.old next.old c → (levels : ℕ → ℕ) → (ps ds : List Equation) → ArePairsFor bank.old c pairs.now ps → ArePairsFor bank.old c delayed.now ds → AreKnownPairs levels next.old ps → AreKnownPairs levels next.old ds → (n : ℕ) (u : Unified) →
        solve n limit (type_pairs_of bank.old c.types types.now) ps ds next.old ≡ Some u → IsSolutionUnder levels next.old c bank.new bindings.new next.new left.items u) }
    ensures refused { IfErr result (λ e. (c : Closing) → IsOpenReading bank.old bindings.old next.old c → (levels : ℕ → ℕ) → (ps ds : List Equation) → ArePairsFor bank.old c pairs.now ps → ArePairsFor bank.old c delayed.now ds → AreKnownPairs levels next.old ps → AreKnownPairs levels next.old ds → (n : ℕ) (u : Unified) →
        solve n limit (type_pairs_of bank.old c.types types.now) ps ds next.old ≡ Some u → IsRefusedAs e n u) }
{
    let mut units = limit;
    let mut waiting = Vec::from_slice(alloc, delayed)?;
    let mut todo = Vec::new(alloc);
    push_pairs(pairs, &mut todo)?;
    let before = bindings.mark();
    solve_types(alloc, bank, bindings, types, &mut units)?;
    let mut has_types = bindings.mark() != before;
    'rounds: loop {
        let is_bound = take_all(
            alloc,
            bank,
            bindings,
            &mut todo,
            &mut waiting,
            next,
            &mut units,
        )?;
        if !is_bound && !has_types {
            return Ok(waiting);
        }
        has_types = false;
        push_pairs(waiting.as_slice(), &mut todo)?;
        waiting.clear();
    }
}

/// Unifies under bindings and adds to them: first the type equations, in order, then the pairs. The delayed pairs, oldest first, are
/// taken up again when something was bound. The result is the residual pairs. After a refusal some variables may have been bound: the
/// caller undoes to a mark.
///
/// `next` is above the number of each variable, and is raised past the new ones. Each variable has one level. A pair that is taken, a
/// pair of types, and a node that a scan visits are units; `Deep` comes where they pass the limit. A number outside
/// the bank stands for its tree.
pub fn solve_under(
    alloc: Global,
    bank: &mut Bank,
    bindings: &mut Bindings,
    types: &[(TypeId, TypeId)],
    pairs: &[Pair],
    delayed: &[Pair],
    next: &mut u64,
    limit: u64,
) -> Result<Vec<Pair>, PatternRefusal>
    ensures kept { Extends bank.old bank.new }
    ensures more { next.old ≤ next.new }
    ensures grown { Grows bindings.old bindings.new }
    ensures within { IfOk result (λ left. All (IsPairOf (length bank.new.terms)) left.items) }
    ensures solved { IfOk result (λ left. (c : Closing) → IsOpenReading bank.old bindings.old next.old c → (levels : ℕ → ℕ) → (ps ds : List Equation) → ArePairsFor bank.old c pairs.now ps → ArePairsFor bank.old c delayed.now ds → AreKnownPairs levels next.old ps → AreKnownPairs levels next.old ds → (n : ℕ) (u : Unified) →
        solve n limit (type_pairs_of bank.old c.types types.now) ps ds next.old ≡ Some u → IsSolutionUnder levels next.old c bank.new bindings.new next.new left.items u) }
    ensures refused { IfErr result (λ e. (c : Closing) → IsOpenReading bank.old bindings.old next.old c → (levels : ℕ → ℕ) → (ps ds : List Equation) → ArePairsFor bank.old c pairs.now ps → ArePairsFor bank.old c delayed.now ds → AreKnownPairs levels next.old ps → AreKnownPairs levels next.old ds → (n : ℕ) (u : Unified) →
        solve n limit (type_pairs_of bank.old c.types types.now) ps ds next.old ≡ Some u → IsRefusedAs e n u) }
{
    if are_type_pairs(bank, types) && are_pairs(bank, pairs) && are_pairs(bank, delayed) {
        return solve_inside(alloc, bank, bindings, types, pairs, delayed, next, limit);
    }
    let input = inside(alloc, bank, types, pairs, delayed)?;
    let types = input.types.as_slice();
    let pairs = input.pairs.as_slice();
    let delayed = input.delayed.as_slice();
    solve_inside(alloc, bank, bindings, types, pairs, delayed, next, limit)
}

/// Unifies, with nothing bound at the start, where each variable has one level: what comes out is what the definition of unification makes of the input,
/// wherever it comes to an outcome in any number of steps of each kind (`solved`, `refused`), and on typed input it comes to one (`typed`, `typed_refused`). Through
/// the values found, typed pairs have the solutions of those that are left (`right`), and none where the call fails (`none`).
pub fn solve(
    alloc: Global,
    bank: &mut Bank,
    types: &[(TypeId, TypeId)],
    pairs: &[Pair],
    delayed: &[Pair],
    next: &mut u64,
    limit: u64,
) -> Result<Solved, PatternRefusal>
    ensures kept { Extends bank.old bank.new }
    ensures more { next.old ≤ next.new }
    ensures within { IfOk result (λ found. All (IsPairOf (length bank.new.terms)) found.residual.items) }
    ensures solved { IfOk result (λ found. (levels : ℕ → ℕ) → AreKnownPairs levels next.old (pairs_at bank.old pairs.now) → AreKnownPairs levels next.old (pairs_at bank.old delayed.now) →
        (n : ℕ) (u : Unified) → run n limit bank.old types.now pairs.now delayed.now next.old ≡ Some u → IsSolution levels next.old bank.new next.new found u) }
    ensures typed { IfOk result (λ found. (d : Declared) (V : List TypedVariable) → IsTypedRun d V bank.old types.now pairs.now delayed.now next.old → (levels : ℕ → ℕ) → AreKnownPairs levels next.old (pairs_at bank.old pairs.now) → AreKnownPairs levels next.old (pairs_at bank.old delayed.now) →
        ComesToOutcome limit bank.old types.now pairs.now delayed.now next.old (λ n u. IsSolution levels next.old bank.new next.new found u)) }
    ensures right { IfOk result (λ found. (d : Declared) (V : List TypedVariable) (θ : ℕ → Ty) → length V ≡ next.old → IsTypedInput θ d V (type_pairs_of bank.old var types.now) (pairs_at bank.old pairs.now) (pairs_at bank.old delayed.now) →
        (n : ℕ) (s : State) → run n limit bank.old types.now pairs.now delayed.now next.old ≡ Some (Solution s) → AreStuck n (pairs_at bank.old delayed.now) → Satisfies θ s.types →
        (z : Closing) × Reads bank.new found.bindings.items found.types.items z × HasSolutions n d V θ (pairs_at bank.old pairs.now) (pairs_at bank.old delayed.now) bank.new next.new found.residual.items z) }
    ensures none { IfErr result (λ e. e ≡ Fails → (d : Declared) (V : List TypedVariable) (c : Closing) → length V ≡ next.old → IsTypedInput c.types d V (type_pairs_of bank.old var types.now) (pairs_at bank.old pairs.now) (pairs_at bank.old delayed.now) →
        (n : ℕ) (u : Unified) → run n limit bank.old types.now pairs.now delayed.now next.old ≡ Some u → SolvesInput d V c (type_pairs_of bank.old var types.now) (pairs_at bank.old pairs.now) (pairs_at bank.old delayed.now) → ⊥) }
    ensures typed_refused { IfErr result (λ e. (d : Declared) (V : List TypedVariable) → IsTypedRun d V bank.old types.now pairs.now delayed.now next.old → (levels : ℕ → ℕ) → AreKnownPairs levels next.old (pairs_at bank.old pairs.now) → AreKnownPairs levels next.old (pairs_at bank.old delayed.now) →
        ComesToOutcome limit bank.old types.now pairs.now delayed.now next.old (IsRefusedAs e)) }
    ensures refused { IfErr result (λ e. (levels : ℕ → ℕ) → AreKnownPairs levels next.old (pairs_at bank.old pairs.now) → AreKnownPairs levels next.old (pairs_at bank.old delayed.now) →
        (n : ℕ) (u : Unified) → run n limit bank.old types.now pairs.now delayed.now next.old ≡ Some u → IsRefusedAs e n u) }
{
    let mut bindings = Bindings::new(alloc);
    let residual = solve_under(
        alloc,
        bank,
        &mut bindings,
        types,
        pairs,
        delayed,
        next,
        limit,
    )?;
    Ok(Solved {
        bindings: bindings.term_entries(alloc)?,
        types: bindings.type_entries(alloc)?,
        residual,
    })
}
