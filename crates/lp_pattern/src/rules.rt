// The rules for one pair: the first that applies is taken.
ghost use Rattle.std.specs.Prelude.{◌≡◌, ◌≤◌, ◌<◌, ◌+◌, ◌++◌, ℕ, suc, nat_eq, length, map, reverse, true, false, All, None, Some, IfSome, IfOk, OnOk, IfErr};
ghost use Rattle.indexmap.specs.IndexMap.{get};
ghost use Rattle.lp_calculus.specs.Convert.{steps};
ghost use Rattle.lp_calculus.specs.Term.{Term, atom, apply, index, logic};
ghost use Rattle.lp_calculus.specs.Fill.{Within, abstracted};
ghost use Rattle.lp_term.specs.Nodes.{Extends, Nodes};
ghost use Rattle.lp_model.specs.Look.{are_distinct, weak_step};
ghost use Rattle.lp_model.specs.Pair.{Closing, Pair as Equation};
ghost use Rattle.lp_model.specs.Patterns.{eigens, agreeing};
ghost use Rattle.lp_model.specs.Rule.{Ruled, rule, by_looks, by_rule_4, by_rule_5, solve_for, has_head, decompose};
ghost use Rattle.lp_pattern.specs.Behind.{IsGiven};
ghost use Rattle.lp_pattern.specs.Comparing.{pairs_of};
ghost use Rattle.lp_pattern.specs.declared.look.Head.TheVariants.{Rigid, Variable};
ghost use Rattle.lp_pattern.specs.Filling.{IsStill};
ghost use Rattle.lp_pattern.specs.Growing.{Grows, IsPairOf, IsVerdictIn};
ghost use Rattle.lp_pattern.specs.Putting.{Known};
ghost use Rattle.lp_pattern.specs.Reading.{side_of};
ghost use Rattle.lp_pattern.specs.Refusing.{IsNoFailure};
ghost use Rattle.lp_pattern.specs.Ruling.{view, is_one_variable, is_flexible, are_both_rigid, IsSideOf, IsNoSide, IsSeenPair, IsJudged, IsRuledOut, IsDone, IsTaken};
ghost use Rattle.lp_pattern.specs.Scanning.{Pushes, AreTerms, Binds, one_if, agreeing_places};
ghost use Rattle.lp_pattern.specs.Seen.{IsLooked};
ghost use Rattle.lp_pattern.specs.Stripping.{IsShut};
ghost use Rattle.lp_pattern.specs.Turning.{IsOpenReading, IsKnownPair, IsPairFor, IsDoneAs, IsGivenAs, IsTakenAs};
ghost use Rattle.lp_pattern.specs.Under.{IsReading, under};
ghost use Rattle.lp_pattern.specs.Valuing.{IsKnownSide, Values, HasNoValue};

use crate::bindings::Bindings;
use crate::compare::{are_one_variable, are_same, opened, push_pairs};
use crate::fault::PatternRefusal;
use crate::heads::{have_same_name, type_pairs};
use crate::look::{CONTRACTIONS, Head, Looked, look};
use crate::opened::Opened;
use crate::patterns::pattern_of;
use crate::prune::{prune, put_variable};
use crate::scan::{Scanned, scan};
use crate::settle::settled;
use crate::side::Side;
use crate::types::solve_types;
use lp_base::Memory;
use lp_model::Pair;
use lp_term::{Bank, TermId, put_abstractions, put_application, put_index};
use std::alloc::Global;

// What a pair comes to that does not fail.
#[derive(Clone, Copy)]
pub(crate) enum Verdict {
    // It is solved, or other pairs took its place.
    Gone,
    // It is to wait. Its sides are head-normal.
    Delayed(Pair),
}

// Equal heads with as many arguments give the equations of their types, solved at once, and then the pairs of the arguments, in front.
fn decompose(
    alloc: Global,
    bank: &mut Bank,
    bindings: &mut Bindings,
    one: &Looked,
    other: &Looked,
    level: u64,
    todo: &mut Vec<Pair>,
    units: &mut u64,
) -> Result<(), PatternRefusal>
    requires one { IsLooked bank.old bindings.old one.now }
    requires other { IsLooked bank.old bindings.old other.now }
    requires rigid_one { one.now.head ≡ Rigid }
    requires rigid_other { other.now.head ≡ Rigid }
    requires todo { All (IsPairOf (length bank.old.terms)) todo.old.items }
    ensures kept { Extends bank.old bank.new }
    ensures todo { OnOk result (All (IsPairOf (length bank.new.terms)) todo.new.items) }
    ensures grown { Grows bindings.old bindings.new }
    ensures terms { bindings.new.terms ≡ bindings.old.terms }
    ensures pushed { OnOk result (todo.new.items ≡ todo.old.items ++ reverse (pairs_of level one.now.arguments.items other.now.arguments.items)) }
    ensures fewer { OnOk result (units.new ≤ units.old) }
    ensures solved { OnOk result ((c : Closing) → IsReading bank.old bindings.old c → IsShut c → (n : ℕ) (r : Ruled) → (decompose n level (under bank.old c one.now.top) (map (under bank.old c) one.now.arguments.items) (under bank.old c other.now.top) (map (under bank.old c) other.now.arguments.items)) ≡ Some r → (units.old ≡ r.units + units.new) × IsDone r.verdict) }
    ensures given { OnOk result ((c : Closing) → IsReading bank.old bindings.old c → IsShut c → IsStill c.types → (n : ℕ) (r : Ruled) → (decompose n level (under bank.old c one.now.top) (map (under bank.old c) one.now.arguments.items) (under bank.old c other.now.top) (map (under bank.old c) other.now.arguments.items)) ≡ Some r → IsGiven bindings.old bank.new bindings.new c level (map (under bank.old c) one.now.arguments.items) (map (under bank.old c) other.now.arguments.items) r.verdict) }
    ensures refused { IfErr result (λ e. (c : Closing) → IsReading bank.old bindings.old c → IsShut c → (n : ℕ) → IsRuledOut n e units.old (decompose n level (under bank.old c one.now.top) (map (under bank.old c) one.now.arguments.items) (under bank.old c other.now.top) (map (under bank.old c) other.now.arguments.items))) }
{
    if one.arguments.len() != other.arguments.len() {
        return Err(PatternRefusal::Fails);
    }
    let is_named = have_same_name(bank, one.top, other.top);
    if !is_named {
        return Err(PatternRefusal::Fails);
    }
    let types = type_pairs(alloc, bank, one.top, other.top)?;
    solve_types(alloc, bank, bindings, types.as_slice(), units)?;
    let ones = one.arguments.as_slice();
    push_pairs(ones, other.arguments.as_slice(), level, todo)?;
    Ok(())
}

// An index, if the eigenconstants at its place are the same.
fn push_agreeing(
    bank: &mut Bank,
    one: u64,
    other: u64,
    place: u64,
    arguments: &mut Vec<TermId>,
) -> Result<(), Memory>
    ensures kept { Extends bank.old bank.new }
    ensures pushed { OnOk result (Pushes bank.old bank.new arguments.old.items arguments.new.items (one_if (nat_eq one other) (index place))) }
{
    if one != other {
        return Ok(());
    }
    let id = put_index(bank, place)?;
    arguments.push(id)?;
    Ok(())
}

// The indices of the places at which two patterns have the same eigenconstant.
fn put_agreeing(
    alloc: Global,
    bank: &mut Bank,
    ones: &[u64],
    others: &[u64],
) -> Result<Vec<TermId>, Memory>
    ensures kept { Extends bank.old bank.new }
    ensures terms { IfOk result (λ ids. AreTerms bank.new ids.items (agreeing_places (length ones.now) ones.now others.now)) }
{
    let mut arguments = Vec::new(alloc);
    for place in 0..ones.len() {
        if place >= others.len() {
            return Ok(arguments);
        }
        let left = (ones.len() - 1 - place) as u64;
        push_agreeing(bank, ones[place], others[place], left, &mut arguments)?;
    }
    Ok(arguments)
}

// The variable becomes the abstraction of a new one on the places that agree.
fn join(
    alloc: Global,
    bank: &mut Bank,
    bindings: &mut Bindings,
    next: &mut u64,
    id: u64,
    level: u64,
    ones: &[u64],
    others: &[u64],
) -> Result<(), Memory>
    requires { get nat_eq bindings.old.terms id ≡ None }
    ensures kept { Extends bank.old bank.new }
    ensures more { next.old ≤ next.new }
    ensures next { OnOk result (next.new ≡ suc next.old) }
    ensures grown { Grows bindings.old bindings.new }
    ensures types { bindings.new.types ≡ bindings.old.types }
    ensures bound { OnOk result (are_distinct ones.now ≡ true →
        Binds bank.new bindings.old bindings.new id (abstracted ones.now (apply (atom (logic next.old level)) (eigens (agreeing ones.now others.now))))) }
{
    let arguments = put_agreeing(alloc, bank, ones, others)?;
    let variable = put_variable(bank, next, level)?;
    let body = put_application(bank, variable, arguments.as_slice())?;
    let value = put_abstractions(bank, ones.len() as u64, body)?;
    bindings.put_term(id, value)
}

// The side that a term is, if it is a pattern.
fn side_of(
    alloc: Global,
    bank: &mut Bank,
    bindings: &Bindings,
    looked: &Looked,
    pair: u64,
) -> Result<Option<Side>, PatternRefusal>
    requires looked { IsLooked bank.old bindings.now looked.now }
    ensures kept { Extends bank.old bank.new }
    ensures side { IfOk result (λ o. (c : Closing) → IsReading bank.old bindings.now c → IsShut c → (m : ℕ) → IsSideOf m (view bank.old c looked.now) pair o) }
    ensures free { IfOk result (λ o. IfSome o (λ s. get nat_eq bindings.now.terms s.id ≡ None)) }
    ensures refused { IfErr result (λ e. (c : Closing) → IsReading bank.old bindings.now c → IsShut c → (m : ℕ) → IsNoSide m (view bank.old c looked.now) pair e) }
{
    let Head::Variable { id, level } = looked.head else {
        return Ok(None);
    };
    let arguments = looked.arguments.as_slice();
    let opened = Opened::none(pair);
    let pattern = pattern_of(alloc, bank, bindings, opened, level, arguments)?;
    let Some(pattern) = pattern else {
        return Ok(None);
    };
    Ok(Some(Side {
        id,
        level,
        eigens: pattern.eigens,
        pair,
    }))
}

// Whether the term has the side's variable as its head.
fn has_head(side: &Side, looked: &Looked) -> bool
    ensures { (b : Nodes) (c : Closing) → result ≡ has_head (side_of side.now) (view b c looked.now) }
{
    match looked.head {
        Head::Variable { id, level } => side.is_variable(id, level),
        Head::Abstraction(_) => false,
        Head::Rigid => false,
    }
}

// What the side's variable becomes where the other side neither fails nor delays.
fn value_for(
    alloc: Global,
    bank: &mut Bank,
    bindings: &mut Bindings,
    next: &mut u64,
    side: &Side,
    term: TermId,
    found: Scanned,
) -> Result<TermId, PatternRefusal>
    ensures kept { Extends bank.old bank.new }
    ensures more { next.old ≤ next.new }
    ensures grown { Grows bindings.old bindings.new }
    ensures value { IfOk result (λ id. term.0 < length bank.old.terms → (c : Closing) → IsOpenReading bank.old bindings.old next.old c → (levels : ℕ → ℕ) → IsKnownSide levels next.old (side_of side.now) → Within (Known levels next.old) 0 (under bank.old c term) → (n : ℕ) →
        Values (side_of side.now) levels next.old c bindings.old bank.new bindings.new next.new id n found (under bank.old c term)) }
    ensures unfailing { IfErr result IsNoFailure }
    ensures refused { IfErr result (λ e. term.0 < length bank.old.terms → (c : Closing) → IsOpenReading bank.old bindings.old next.old c → (levels : ℕ → ℕ) → IsKnownSide levels next.old (side_of side.now) → Within (Known levels next.old) 0 (under bank.old c term) → (n : ℕ) →
        HasNoValue n e (side_of side.now) next.old found (under bank.old c term)) }
{
    if found.has_misfit {
        prune(alloc, bank, bindings, side, next, term)?;
        return settled(alloc, bank, bindings, side, term);
    }
    settled(alloc, bank, bindings, side, term)
}

// Binds the side's variable to the other side, if it can be. Says whether the pair is done.
fn solve_for(
    alloc: Global,
    bank: &mut Bank,
    bindings: &mut Bindings,
    next: &mut u64,
    side: &Side,
    other: &Looked,
    units: &mut u64,
) -> Result<bool, PatternRefusal>
    requires other { IsLooked bank.old bindings.old other.now }
    ensures kept { Extends bank.old bank.new }
    ensures more { next.old ≤ next.new }
    ensures grown { Grows bindings.old bindings.new }
    ensures fewer { OnOk result (units.new ≤ units.old) }
    ensures judged { IfOk result (λ done. (c : Closing) → IsReading bank.old bindings.old c → IsShut c → (n j : ℕ) (t : Term) → steps weak_step j t ≡ Some (under bank.old c other.now.whole) →
        IsJudged done units.old units.new (solve_for n next.old (side_of side.now) t (view bank.old c other.now))) }
    ensures done { IfOk result (λ done. (c : Closing) → IsOpenReading bank.old bindings.old next.old c → (levels : ℕ → ℕ) → IsKnownSide levels next.old (side_of side.now) → (n j : ℕ) (t : Term) → steps weak_step j t ≡ Some (under bank.old c other.now.whole) → Within (Known levels next.old) 0 t → (r : Ruled) →
        solve_for n next.old (side_of side.now) t (view bank.old c other.now) ≡ Some r → IsDoneAs done levels next.old c bindings.old bank.new bindings.new next.new r.verdict) }
    ensures refused { IfErr result (λ e. (c : Closing) → IsOpenReading bank.old bindings.old next.old c → (levels : ℕ → ℕ) → IsKnownSide levels next.old (side_of side.now) → (n j : ℕ) (t : Term) → steps weak_step j t ≡ Some (under bank.old c other.now.whole) → Within (Known levels next.old) 0 t →
        IsRuledOut n e units.old (solve_for n next.old (side_of side.now) t (view bank.old c other.now))) }
{
    if has_head(side, other) {
        return Ok(false);
    }
    let found = scan(alloc, bank, bindings, side, other.whole, units)?;
    if found.is_delayed {
        return Ok(false);
    }
    let value = value_for(alloc, bank, bindings, next, side, other.whole, found)?;
    bindings.bind(side.id, value)?;
    Ok(true)
}

// The left side is a pattern, else the right side is.
fn by_pattern(
    alloc: Global,
    bank: &mut Bank,
    bindings: &mut Bindings,
    next: &mut u64,
    one: &Looked,
    other: &Looked,
    level: u64,
    units: &mut u64,
) -> Result<bool, PatternRefusal>
    requires one { IsLooked bank.old bindings.old one.now }
    requires other { IsLooked bank.old bindings.old other.now }
    ensures kept { Extends bank.old bank.new }
    ensures more { next.old ≤ next.new }
    ensures grown { Grows bindings.old bindings.new }
    ensures fewer { OnOk result (units.new ≤ units.old) }
    ensures judged { IfOk result (λ done. (c : Closing) → IsReading bank.old bindings.old c → IsShut c → (n : ℕ) (p : Equation) → IsSeenPair bank.old c level one.now other.now p →
        IsJudged done units.old units.new (by_rule_5 n next.old p (view bank.old c one.now) (view bank.old c other.now))) }
    ensures done { IfOk result (λ done. (c : Closing) → IsOpenReading bank.old bindings.old next.old c → (levels : ℕ → ℕ) → (n : ℕ) (p : Equation) → IsSeenPair bank.old c level one.now other.now p → IsKnownPair levels next.old p → (r : Ruled) →
        by_rule_5 n next.old p (view bank.old c one.now) (view bank.old c other.now) ≡ Some r → IsDoneAs done levels next.old c bindings.old bank.new bindings.new next.new r.verdict) }
    ensures refused { IfErr result (λ e. (c : Closing) → IsOpenReading bank.old bindings.old next.old c → (levels : ℕ → ℕ) → (n : ℕ) (p : Equation) → IsSeenPair bank.old c level one.now other.now p → IsKnownPair levels next.old p →
        IsRuledOut n e units.old (by_rule_5 n next.old p (view bank.old c one.now) (view bank.old c other.now))) }
{
    let left = side_of(alloc, bank, bindings, one, level)?;
    if let Some(side) = left {
        return solve_for(alloc, bank, bindings, next, &side, other, units);
    }
    let right = side_of(alloc, bank, bindings, other, level)?;
    let Some(side) = right else {
        return Ok(false);
    };
    solve_for(alloc, bank, bindings, next, &side, one, units)
}

// One variable on arguments that differ. Two patterns are joined. Says whether the pair is done.
fn on_others(
    alloc: Global,
    bank: &mut Bank,
    bindings: &mut Bindings,
    next: &mut u64,
    one: &Looked,
    other: &Looked,
    level: u64,
    units: &mut u64,
) -> Result<bool, PatternRefusal>
    requires one { IsLooked bank.old bindings.old one.now }
    requires other { IsLooked bank.old bindings.old other.now }
    requires same { is_one_variable one.now.head other.now.head (length one.now.arguments.items) (length other.now.arguments.items) ≡ true }
    ensures kept { Extends bank.old bank.new }
    ensures more { next.old ≤ next.new }
    ensures grown { Grows bindings.old bindings.new }
    ensures fewer { OnOk result (units.new ≤ units.old) }
    ensures judged { IfOk result (λ done. (c : Closing) → IsReading bank.old bindings.old c → IsShut c → (n : ℕ) (p : Equation) → IsSeenPair bank.old c level one.now other.now p → (x l : ℕ) → one.now.head ≡ Variable x l → other.now.head ≡ Variable x l →
        IsJudged done units.old units.new (by_rule_4 n next.old p x l (map (under bank.old c) one.now.arguments.items) (map (under bank.old c) other.now.arguments.items))) }
    ensures done { IfOk result (λ done. (c : Closing) → IsOpenReading bank.old bindings.old next.old c → (levels : ℕ → ℕ) → (n : ℕ) (p : Equation) → IsSeenPair bank.old c level one.now other.now p → IsKnownPair levels next.old p → (x l : ℕ) → one.now.head ≡ Variable x l → other.now.head ≡ Variable x l → (r : Ruled) →
        by_rule_4 n next.old p x l (map (under bank.old c) one.now.arguments.items) (map (under bank.old c) other.now.arguments.items) ≡ Some r → IsDoneAs done levels next.old c bindings.old bank.new bindings.new next.new r.verdict) }
    ensures refused { IfErr result (λ e. (c : Closing) → IsOpenReading bank.old bindings.old next.old c → (levels : ℕ → ℕ) → (n : ℕ) (p : Equation) → IsSeenPair bank.old c level one.now other.now p → IsKnownPair levels next.old p → (x l : ℕ) → one.now.head ≡ Variable x l → other.now.head ≡ Variable x l →
        IsRuledOut n e units.old (by_rule_4 n next.old p x l (map (under bank.old c) one.now.arguments.items) (map (under bank.old c) other.now.arguments.items))) }
{
    let left = side_of(alloc, bank, bindings, one, level)?;
    let Some(left) = left else {
        return by_pattern(alloc, bank, bindings, next, one, other, level, units);
    };
    let right = side_of(alloc, bank, bindings, other, level)?;
    let Some(right) = right else {
        return by_pattern(alloc, bank, bindings, next, one, other, level, units);
    };
    let ones = left.eigens.as_slice();
    let others = right.eigens.as_slice();
    join(
        alloc, bank, bindings, next, left.id, left.level, ones, others,
    )?;
    Ok(true)
}

// One variable on both sides, with as many arguments. Says whether the pair is done.
fn on_one_variable(
    alloc: Global,
    bank: &mut Bank,
    bindings: &mut Bindings,
    next: &mut u64,
    one: &Looked,
    other: &Looked,
    level: u64,
    units: &mut u64,
) -> Result<bool, PatternRefusal>
    requires one { IsLooked bank.old bindings.old one.now }
    requires other { IsLooked bank.old bindings.old other.now }
    requires same { is_one_variable one.now.head other.now.head (length one.now.arguments.items) (length other.now.arguments.items) ≡ true }
    ensures kept { Extends bank.old bank.new }
    ensures more { next.old ≤ next.new }
    ensures grown { Grows bindings.old bindings.new }
    ensures fewer { OnOk result (units.new ≤ units.old) }
    ensures judged { IfOk result (λ done. (c : Closing) → IsReading bank.old bindings.old c → IsShut c → (n : ℕ) (p : Equation) → IsSeenPair bank.old c level one.now other.now p →
        IsJudged done units.old units.new (by_looks n next.old p (view bank.old c one.now) (view bank.old c other.now))) }
    ensures done { IfOk result (λ done. (c : Closing) → IsOpenReading bank.old bindings.old next.old c → (levels : ℕ → ℕ) → (n : ℕ) (p : Equation) → IsSeenPair bank.old c level one.now other.now p → IsKnownPair levels next.old p → (r : Ruled) →
        by_looks n next.old p (view bank.old c one.now) (view bank.old c other.now) ≡ Some r → IsDoneAs done levels next.old c bindings.old bank.new bindings.new next.new r.verdict) }
    ensures refused { IfErr result (λ e. (c : Closing) → IsOpenReading bank.old bindings.old next.old c → (levels : ℕ → ℕ) → (n : ℕ) (p : Equation) → IsSeenPair bank.old c level one.now other.now p → IsKnownPair levels next.old p →
        IsRuledOut n e units.old (by_looks n next.old p (view bank.old c one.now) (view bank.old c other.now))) }
{
    let ones = one.arguments.as_slice();
    let others = other.arguments.as_slice();
    let is_same = are_same(alloc, bank, bindings, ones, others, level, units)?;
    if is_same {
        return Ok(true);
    }
    on_others(alloc, bank, bindings, next, one, other, level, units)
}

// Whether both have the same variable as head and as many arguments.
fn have_same_variable(one: &Looked, other: &Looked) -> bool
    ensures { result ≡ is_one_variable one.now.head other.now.head (length one.now.arguments.items) (length other.now.arguments.items) }
{
    match one.head {
        Head::Abstraction(_) => false,
        Head::Rigid => false,
        Head::Variable { id: x, level: l } => match other.head {
            Head::Abstraction(_) => false,
            Head::Rigid => false,
            Head::Variable { id: y, level: m } => are_one_variable((x, y), (l, m), one, other),
        },
    }
}

// A variable against a term that is no abstraction. Says whether the pair is done.
fn by_variables(
    alloc: Global,
    bank: &mut Bank,
    bindings: &mut Bindings,
    next: &mut u64,
    one: &Looked,
    other: &Looked,
    level: u64,
    units: &mut u64,
) -> Result<bool, PatternRefusal>
    requires one { IsLooked bank.old bindings.old one.now }
    requires other { IsLooked bank.old bindings.old other.now }
    requires flexible { is_flexible one.now.head other.now.head ≡ true }
    ensures kept { Extends bank.old bank.new }
    ensures more { next.old ≤ next.new }
    ensures grown { Grows bindings.old bindings.new }
    ensures fewer { OnOk result (units.new ≤ units.old) }
    ensures judged { IfOk result (λ done. (c : Closing) → IsReading bank.old bindings.old c → IsShut c → (n : ℕ) (p : Equation) → IsSeenPair bank.old c level one.now other.now p →
        IsJudged done units.old units.new (by_looks n next.old p (view bank.old c one.now) (view bank.old c other.now))) }
    ensures done { IfOk result (λ done. (c : Closing) → IsOpenReading bank.old bindings.old next.old c → (levels : ℕ → ℕ) → (n : ℕ) (p : Equation) → IsSeenPair bank.old c level one.now other.now p → IsKnownPair levels next.old p → (r : Ruled) →
        by_looks n next.old p (view bank.old c one.now) (view bank.old c other.now) ≡ Some r → IsDoneAs done levels next.old c bindings.old bank.new bindings.new next.new r.verdict) }
    ensures refused { IfErr result (λ e. (c : Closing) → IsOpenReading bank.old bindings.old next.old c → (levels : ℕ → ℕ) → (n : ℕ) (p : Equation) → IsSeenPair bank.old c level one.now other.now p → IsKnownPair levels next.old p →
        IsRuledOut n e units.old (by_looks n next.old p (view bank.old c one.now) (view bank.old c other.now))) }
{
    if have_same_variable(one, other) {
        return on_one_variable(alloc, bank, bindings, next, one, other, level, units);
    }
    by_pattern(alloc, bank, bindings, next, one, other, level, units)
}

// Whether none is an abstraction and one is a variable.
fn are_flexible(one: Head, other: Head) -> bool
    ensures { result ≡ is_flexible one other }
{
    match one {
        Head::Abstraction(_) => false,
        Head::Rigid => match other {
            Head::Abstraction(_) => false,
            Head::Rigid => false,
            Head::Variable { id: _, level: _ } => true,
        },
        Head::Variable { id: _, level: _ } => match other {
            Head::Abstraction(_) => false,
            Head::Rigid => true,
            Head::Variable { id: _, level: _ } => true,
        },
    }
}

// Whether both are rigid.
fn are_rigid(one: Head, other: Head) -> bool
    ensures { result ≡ are_both_rigid one other }
{
    match one {
        Head::Abstraction(_) => false,
        Head::Variable { id: _, level: _ } => false,
        Head::Rigid => match other {
            Head::Abstraction(_) => false,
            Head::Variable { id: _, level: _ } => false,
            Head::Rigid => true,
        },
    }
}

// Two abstractions, or an abstraction and another term, are opened; two rigid heads give the pairs of their arguments.
fn replace(
    alloc: Global,
    bank: &mut Bank,
    bindings: &mut Bindings,
    one: &Looked,
    other: &Looked,
    level: u64,
    todo: &mut Vec<Pair>,
    units: &mut u64,
) -> Result<(), PatternRefusal>
    requires one { IsLooked bank.old bindings.old one.now }
    requires other { IsLooked bank.old bindings.old other.now }
    requires flexible { is_flexible one.now.head other.now.head ≡ false }
    requires todo { All (IsPairOf (length bank.old.terms)) todo.old.items }
    ensures kept { Extends bank.old bank.new }
    ensures todo { OnOk result (All (IsPairOf (length bank.new.terms)) todo.new.items) }
    ensures grown { Grows bindings.old bindings.new }
    ensures fewer { OnOk result (units.new ≤ units.old) }
    ensures replaced { OnOk result ((c : Closing) → IsReading bank.old bindings.old c → IsShut c → (n next : ℕ) (p : Equation) → IsSeenPair bank.old c level one.now other.now p → (r : Ruled) → rule n next p ≡ Some r → (units.old ≡ r.units + units.new) × IsDone r.verdict) }
    ensures given { OnOk result ((next : ℕ) (c : Closing) → IsOpenReading bank.old bindings.old next c → (levels : ℕ → ℕ) → (n : ℕ) (p : Equation) → IsSeenPair bank.old c level one.now other.now p → IsKnownPair levels next p → (r : Ruled) → rule n next p ≡ Some r →
        IsGivenAs levels next c bindings.old bank.new bindings.new next todo.old.items todo.new.items r.verdict) }
    ensures refused { IfErr result (λ e. (c : Closing) → IsReading bank.old bindings.old c → IsShut c → (n next : ℕ) (p : Equation) → IsSeenPair bank.old c level one.now other.now p → IsRuledOut n e units.old (rule n next p)) }
{
    if are_rigid(one.head, other.head) {
        return decompose(alloc, bank, bindings, one, other, level, todo, units);
    }
    let pair = opened(bank, one.whole, other.whole, level)?;
    todo.push(pair)?;
    Ok(())
}

// Takes two terms that were looked at.
fn take_seen(
    alloc: Global,
    bank: &mut Bank,
    bindings: &mut Bindings,
    next: &mut u64,
    one: &Looked,
    other: &Looked,
    level: u64,
    todo: &mut Vec<Pair>,
    units: &mut u64,
) -> Result<Verdict, PatternRefusal>
    requires one { IsLooked bank.old bindings.old one.now }
    requires other { IsLooked bank.old bindings.old other.now }
    requires todo { All (IsPairOf (length bank.old.terms)) todo.old.items }
    ensures kept { Extends bank.old bank.new }
    ensures todo { OnOk result (All (IsPairOf (length bank.new.terms)) todo.new.items) }
    ensures delayed { IfOk result (IsVerdictIn (length bank.new.terms)) }
    ensures more { next.old ≤ next.new }
    ensures grown { Grows bindings.old bindings.new }
    ensures fewer { OnOk result (units.new ≤ units.old) }
    ensures judged { IfOk result (λ v. (c : Closing) → IsReading bank.old bindings.old c → IsShut c → (n : ℕ) (p : Equation) → IsSeenPair bank.old c level one.now other.now p → (r : Ruled) → rule n next.old p ≡ Some r →
        IsTaken v units.old units.new r) }
    ensures taken { IfOk result (λ v. (c : Closing) → IsOpenReading bank.old bindings.old next.old c → (levels : ℕ → ℕ) → (n : ℕ) (p : Equation) → IsSeenPair bank.old c level one.now other.now p → IsKnownPair levels next.old p → (r : Ruled) → rule n next.old p ≡ Some r →
        IsTakenAs v levels next.old c bindings.old bank.new bindings.new next.new todo.old.items todo.new.items p r.verdict) }
    ensures refused { IfErr result (λ e. (c : Closing) → IsOpenReading bank.old bindings.old next.old c → (levels : ℕ → ℕ) → (n : ℕ) (p : Equation) → IsSeenPair bank.old c level one.now other.now p → IsKnownPair levels next.old p → IsRuledOut n e units.old (rule n next.old p)) }
{
    if are_flexible(one.head, other.head) {
        let is_done = by_variables(alloc, bank, bindings, next, one, other, level, units)?;
        if is_done {
            return Ok(Verdict::Gone);
        }
        return Ok(Verdict::Delayed(Pair {
            left: one.whole,
            right: other.whole,
            level,
        }));
    }
    replace(alloc, bank, bindings, one, other, level, todo, units)?;
    Ok(Verdict::Gone)
}

// Takes a pair by the first rule that applies to it.
pub(crate) fn take(
    alloc: Global,
    bank: &mut Bank,
    bindings: &mut Bindings,
    next: &mut u64,
    pair: Pair,
    todo: &mut Vec<Pair>,
    units: &mut u64,
) -> Result<Verdict, PatternRefusal>
    requires pair { IsPairOf (length bank.old.terms) pair }
    requires todo { All (IsPairOf (length bank.old.terms)) todo.old.items }
    ensures kept { Extends bank.old bank.new }
    ensures todo { OnOk result (All (IsPairOf (length bank.new.terms)) todo.new.items) }
    ensures delayed { IfOk result (IsVerdictIn (length bank.new.terms)) }
    ensures more { next.old ≤ next.new }
    ensures grown { Grows bindings.old bindings.new }
    ensures fewer { OnOk result (units.new ≤ units.old) }
    ensures judged { IfOk result (λ v. (c : Closing) → IsReading bank.old bindings.old c → IsShut c → (p : Equation) → IsPairFor bank.old c pair p → (n : ℕ) (r : Ruled) → rule n next.old p ≡ Some r → IsTaken v units.old units.new r) }
    ensures taken { IfOk result (λ v. (c : Closing) → IsOpenReading bank.old bindings.old next.old c → (levels : ℕ → ℕ) → (p : Equation) → IsPairFor bank.old c pair p → IsKnownPair levels next.old p → (n : ℕ) (r : Ruled) → rule n next.old p ≡ Some r →
        IsTakenAs v levels next.old c bindings.old bank.new bindings.new next.new todo.old.items todo.new.items p r.verdict) }
    ensures refused { IfErr result (λ e. (c : Closing) → IsOpenReading bank.old bindings.old next.old c → (levels : ℕ → ℕ) → (p : Equation) → IsPairFor bank.old c pair p → IsKnownPair levels next.old p → (n : ℕ) → IsRuledOut n e units.old (rule n next.old p)) }
{
    let one = look(alloc, bank, bindings, pair.left, CONTRACTIONS)?;
    let other = look(alloc, bank, bindings, pair.right, CONTRACTIONS)?;
    take_seen(
        alloc, bank, bindings, next, &one, &other, pair.level, todo, units,
    )
}
