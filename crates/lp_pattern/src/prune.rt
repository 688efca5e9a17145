// Pruning and lowering: a pattern that does not fit gives way to a new variable on what is allowed.
ghost use Rattle.std.specs.Prelude.{◌≡◌, ◌≤◌, ◌<◌, ◌∷◌, ◌++◌, ℕ, [], suc, min, nat_le, nat_eq, length, true, None, Some, IfOk, OnOk, IfErr};
ghost use Rattle.indexmap.specs.IndexMap.{get};
ghost use Rattle.lp_calculus.specs.Fill.{Within};
ghost use Rattle.lp_calculus.specs.Term.{atom, index, eigen, logic};
ghost use Rattle.lp_term.specs.Nodes.{Extends, tree};
ghost use Rattle.lp_model.specs.Look.{are_distinct, are_above};
ghost use Rattle.lp_model.specs.Pair.{Closing};
ghost use Rattle.lp_model.specs.Scan.{allows, pattern, renewal, prune, Pruned};
ghost use Rattle.lp_pattern.specs.declared.look.Head.TheVariants.{Abstraction, Rigid, Variable};
ghost use Rattle.lp_pattern.specs.Growing.{Grows};
ghost use Rattle.lp_pattern.specs.Pruning.{IsPruned, Prunes, StopsPruning, visit_at};
ghost use Rattle.lp_pattern.specs.Putting.{Known};
ghost use Rattle.lp_pattern.specs.Reading.{side_of};
ghost use Rattle.lp_pattern.specs.Refusing.{IsNoFailure, IsNothing};
ghost use Rattle.lp_pattern.specs.Seen.{IsLooked};
ghost use Rattle.lp_pattern.specs.Scanning.{Pushes, AreTerms, Binds, one_if, low_eigens, allowed_places};
ghost use Rattle.lp_pattern.specs.Turning.{IsOpenReading};
ghost use Rattle.lp_pattern.specs.Under.{under};

use crate::bindings::Bindings;
use crate::fault::PatternRefusal;
use crate::look::{CONTRACTIONS, Head, Looked, look};
use crate::patterns::pattern_of;
use crate::scan::{Visit, push_arguments};
use crate::side::Side;
use lp_base::Memory;
use lp_term::{Bank, TermId, put_abstractions, put_application, put_eigen, put_index, put_logic};
use std::alloc::Global;

// A new variable of the level.
pub(crate) fn put_variable(bank: &mut Bank, next: &mut u64, level: u64) -> Result<TermId, Memory>
    ensures kept { Extends bank.old bank.new }
    ensures more { next.old ≤ next.new }
    ensures within { IfOk result (λ id. id.0 < length bank.new.terms) }
    ensures tree { IfOk result (λ id. tree bank.new id.0 ≡ atom (logic next.old level)) }
    ensures next { OnOk result (next.new ≡ suc next.old) }
{
    let id = *next;
    if id == u64::MAX {
        return Err(Memory);
    }
    *next = id + 1;
    put_logic(bank, id, level)
}

// An eigenconstant, if it is not above the level.
fn push_low(bank: &mut Bank, level: u64, k: u64, arguments: &mut Vec<TermId>) -> Result<(), Memory>
    ensures kept { Extends bank.old bank.new }
    ensures pushed { OnOk result (Pushes bank.old bank.new arguments.old.items arguments.new.items (one_if (nat_le k level) (atom (eigen k)))) }
{
    if k > level {
        return Ok(());
    }
    let id = put_eigen(bank, k)?;
    arguments.push(id)?;
    Ok(())
}

// An index, if the eigenconstant for which it stands is allowed.
fn push_place(
    bank: &mut Bank,
    side: &Side,
    k: u64,
    place: u64,
    arguments: &mut Vec<TermId>,
) -> Result<(), Memory>
    ensures kept { Extends bank.old bank.new }
    ensures pushed { OnOk result (Pushes bank.old bank.new arguments.old.items arguments.new.items (one_if (allows (side_of side.now) k) (index place))) }
{
    if !side.allows(k) {
        return Ok(());
    }
    let id = put_index(bank, place)?;
    arguments.push(id)?;
    Ok(())
}

// What the new variable stands on: the eigenconstants of the side up to the level of the old one, and its places that are allowed.
fn put_allowed(
    alloc: Global,
    bank: &mut Bank,
    side: &Side,
    level: u64,
    eigens: &[u64],
) -> Result<Vec<TermId>, Memory>
    ensures kept { Extends bank.old bank.new }
    ensures terms { IfOk result (λ ids. AreTerms bank.new ids.items
        (low_eigens level side.now.eigens.items ++ allowed_places (side_of side.now) (length eigens.now) eigens.now)) }
{
    let mut arguments = Vec::new(alloc);
    for k in side.eigens.iter().copied() {
        push_low(bank, level, k, &mut arguments)?;
    }
    for at in 0..eigens.len() {
        let place = (eigens.len() - 1 - at) as u64;
        push_place(bank, side, eigens[at], place, &mut arguments)?;
    }
    Ok(arguments)
}

fn smaller(one: u64, other: u64) -> u64
    ensures { result ≡ min one other }
{
    if one <= other {
        return one;
    }
    other
}

// Binds the variable of a pattern that does not fit.
fn renew(
    alloc: Global,
    bank: &mut Bank,
    bindings: &mut Bindings,
    side: &Side,
    next: &mut u64,
    id: u64,
    level: u64,
    eigens: &[u64],
) -> Result<(), Memory>
    requires { get nat_eq bindings.old.terms id ≡ None }
    ensures kept { Extends bank.old bank.new }
    ensures more { next.old ≤ next.new }
    ensures next { OnOk result (next.new ≡ suc next.old) }
    ensures grown { Grows bindings.old bindings.new }
    ensures types { bindings.new.types ≡ bindings.old.types }
    ensures bound { OnOk result (are_distinct eigens.now ≡ true → are_above level eigens.now ≡ true →
        Binds bank.new bindings.old bindings.new id (renewal (side_of side.now) next.old (pattern id level eigens.now)).value) }
{
    let arguments = put_allowed(alloc, bank, side, level, eigens)?;
    let variable = put_variable(bank, next, smaller(side.level, level))?;
    let body = put_application(bank, variable, arguments.as_slice())?;
    let value = put_abstractions(bank, eigens.len() as u64, body)?;
    bindings.put_term(id, value)
}

// A variable. A pattern that is changed is visited again; what stood before it fits still. Where it is no pattern what stands in it fits, for
// else the pair would be delayed.
fn visit_variable(
    alloc: Global,
    bank: &mut Bank,
    bindings: &mut Bindings,
    side: &Side,
    next: &mut u64,
    visit: Visit,
    looked: &Looked,
    id: u64,
    level: u64,
    left: &mut Vec<Visit>,
) -> Result<(), PatternRefusal>
    requires looked { IsLooked bank.old bindings.old looked.now }
    requires head { looked.now.head ≡ Variable id level }
    ensures kept { Extends bank.old bank.new }
    ensures more { next.old ≤ next.new }
    ensures grown { Grows bindings.old bindings.new }
    ensures prunes { OnOk result (Prunes (side_of side.now) bank.old bank.new bindings.old bindings.new next.old next.new (left.old.items ++ visit_at visit looked.now.whole ∷ []) left.new.items) }
    ensures unfailing { IfErr result IsNoFailure }
    ensures refused { IfErr result (λ e. StopsPruning e (side_of side.now) bank.old bindings.old next.old (left.old.items ++ visit_at visit looked.now.whole ∷ [])) }
{
    let arguments = looked.arguments.as_slice();
    let pattern = pattern_of(alloc, bank, bindings, visit.opened, level, arguments)?;
    let Some(pattern) = pattern else {
        return Ok(());
    };
    let eigens = pattern.eigens.as_slice();
    if side.fits(level, eigens) {
        return Ok(());
    }
    renew(alloc, bank, bindings, side, next, id, level, eigens)?;
    left.push(visit.at(looked.whole))?;
    Ok(())
}

// The body of an abstraction.
fn visit_body(
    bank: &Bank,
    bindings: &Bindings,
    side: &Side,
    visit: Visit,
    looked: &Looked,
    body: TermId,
    left: &mut Vec<Visit>,
) -> Result<(), Memory>
    requires looked { IsLooked bank.now bindings.now looked.now }
    requires head { looked.now.head ≡ Abstraction body }
    ensures { OnOk result ((next : ℕ) → Prunes (side_of side.now) bank.now bank.now bindings.now bindings.now next next (left.old.items ++ visit_at visit looked.now.whole ∷ []) left.new.items) }
{
    let inner = visit.body(body)?;
    left.push(inner)?;
    Ok(())
}

// The arguments of a rigid head.
fn visit_rigid(
    bank: &Bank,
    bindings: &Bindings,
    side: &Side,
    visit: Visit,
    looked: &Looked,
    left: &mut Vec<Visit>,
) -> Result<(), Memory>
    requires looked { IsLooked bank.now bindings.now looked.now }
    requires head { looked.now.head ≡ Rigid }
    ensures { OnOk result ((next : ℕ) → Prunes (side_of side.now) bank.now bank.now bindings.now bindings.now next next (left.old.items ++ visit_at visit looked.now.whole ∷ []) left.new.items) }
{
    push_arguments(visit, looked.arguments.as_slice(), false, left)
}

// Visits a part by what was seen of it.
fn visit_seen(
    alloc: Global,
    bank: &mut Bank,
    bindings: &mut Bindings,
    side: &Side,
    next: &mut u64,
    visit: Visit,
    looked: &Looked,
    left: &mut Vec<Visit>,
) -> Result<(), PatternRefusal>
    requires looked { IsLooked bank.old bindings.old looked.now }
    ensures kept { Extends bank.old bank.new }
    ensures more { next.old ≤ next.new }
    ensures grown { Grows bindings.old bindings.new }
    ensures prunes { OnOk result (Prunes (side_of side.now) bank.old bank.new bindings.old bindings.new next.old next.new (left.old.items ++ visit_at visit looked.now.whole ∷ []) left.new.items) }
    ensures unfailing { IfErr result IsNoFailure }
    ensures refused { IfErr result (λ e. StopsPruning e (side_of side.now) bank.old bindings.old next.old (left.old.items ++ visit_at visit looked.now.whole ∷ [])) }
{
    match looked.head {
        Head::Abstraction(body) => {
            visit_body(bank, bindings, side, visit, looked, body, left)?;
            Ok(())
        }
        Head::Rigid => {
            visit_rigid(bank, bindings, side, visit, looked, left)?;
            Ok(())
        }
        Head::Variable { id, level } => visit_variable(
            alloc, bank, bindings, side, next, visit, looked, id, level, left,
        ),
    }
}

// Visits a part.
fn visit_part(
    alloc: Global,
    bank: &mut Bank,
    bindings: &mut Bindings,
    side: &Side,
    next: &mut u64,
    visit: Visit,
    left: &mut Vec<Visit>,
) -> Result<(), PatternRefusal>
    ensures kept { Extends bank.old bank.new }
    ensures more { next.old ≤ next.new }
    ensures grown { Grows bindings.old bindings.new }
    ensures prunes { OnOk result (Prunes (side_of side.now) bank.old bank.new bindings.old bindings.new next.old next.new (left.old.items ++ visit ∷ []) left.new.items) }
    ensures unfailing { IfErr result IsNoFailure }
    ensures refused { IfErr result (λ e. StopsPruning e (side_of side.now) bank.old bindings.old next.old (left.old.items ++ visit ∷ [])) }
{
    let looked = look(alloc, bank, bindings, visit.term, CONTRACTIONS)?;
    visit_seen(alloc, bank, bindings, side, next, visit, &looked, left)
}

// Changes the patterns of a term that do not fit, left to right. It takes no units.
pub(crate) fn prune(
    alloc: Global,
    bank: &mut Bank,
    bindings: &mut Bindings,
    side: &Side,
    next: &mut u64,
    term: TermId,
) -> Result<(), PatternRefusal>
    ensures kept { Extends bank.old bank.new }
    ensures more { next.old ≤ next.new }
    ensures grown { Grows bindings.old bindings.new }
    ensures pruned { OnOk result (side.now.id < next.old → term.0 < length bank.old.terms → (c : Closing) → IsOpenReading bank.old bindings.old next.old c →
        (levels : ℕ → ℕ) → Within (Known levels next.old) 0 (under bank.old c term) → (n : ℕ) → (r : Pruned) → prune n (side_of side.now) next.old (under bank.old c term) ≡ Some r → IsPruned (record { closing = c; levels = levels; next = next.old; bindings = bindings.old }) bank.new bindings.new next.new term r) }
    ensures unfailing { IfErr result IsNoFailure }
    ensures refused { IfErr result (λ e. side.now.id < next.old → term.0 < length bank.old.terms → (c : Closing) → IsOpenReading bank.old bindings.old next.old c →
        (levels : ℕ → ℕ) → Within (Known levels next.old) 0 (under bank.old c term) → (n : ℕ) → IsNothing n e (prune n (side_of side.now) next.old (under bank.old c term))) }
{
    let mut left = Vec::new(alloc);
    left.push(Visit {
        term,
        opened: side.closed(),
        is_inside: false,
    })?;
    'parts: for _ in 0..u64::MAX {
        let Some(visit) = left.pop() else {
            return Ok(());
        };
        visit_part(alloc, bank, bindings, side, next, visit, &mut left)?;
    }
    Err(PatternRefusal::Memory)
}
