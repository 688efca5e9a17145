// Whether the arguments of a variable are distinct eigenconstants above its level.
ghost use Rattle.std.specs.Prelude.{◌≡◌, ◌≤◌, ◌<◌, ◌++◌, ◌&&◌, ℕ, nat_lt, not, true, length, map, All, IfOk, OnOk, IfErr, IfSome};
ghost use Rattle.lp_term.specs.Nodes.{Extends, tree};
ghost use Rattle.lp_model.specs.Look.{are_distinct, are_above};
ghost use Rattle.lp_model.specs.Patterns.{member};
ghost use Rattle.lp_model.specs.Pair.{Closing};
ghost use Rattle.lp_pattern.specs.Under.{IsReading, under};
ghost use Rattle.lp_pattern.specs.Seen.{IsLooked};
ghost use Rattle.lp_pattern.specs.Stripping.{opens, eigen_past, name_term, is_at, wanted_at, IsShut, IsNameOf, IsNoAbstraction, IsStripped, Strips, HasForm, HasNoForm, IsTaken, read_at, IsAlone, IsEigen, HasNoEigen, IsPattern, HasNoPattern};

use crate::bindings::Bindings;
use crate::look::{CONTRACTIONS, Head, Looked, look};
use crate::opened::Opened;
use lp_base::Memory;
use lp_term::{Bank, TermId, TermNode, TermRefusal};
use std::alloc::Global;

// The eigenconstants on which a variable stands.
#[derive(Drop)]
pub(crate) struct Arguments {
    pub eigens: Vec<u64>,
}

// A term below the abstractions of the argument at hand, which is to come to this index.
#[derive(Clone, Copy)]
struct Wanted {
    term: TermId,
    place: u64,
}

// The index or eigenconstant that an atom is.
#[derive(Clone, Copy)]
enum Name {
    Eigen(u64),
    Index(u64),
}

fn name_of(bank: &Bank, id: TermId) -> Option<Name>
    ensures { IsNameOf result (tree bank.now id.0) }
{
    match bank.term_node(id) {
        TermNode::Eigen(k) => Some(Name::Eigen(k)),
        TermNode::Index(i) => Some(Name::Index(i)),
        _ => None,
    }
}

// The eigenconstant that a name stands for below so many abstractions of the argument itself.
fn eigen_below(name: Name, count: u64, opened: Opened) -> Result<Option<u64>, Memory>
    ensures { IfOk result (λ o. o ≡ eigen_past count (opens opened.level opened.depth) (name_term name)) }
{
    match name {
        Name::Eigen(k) => Ok(Some(k)),
        Name::Index(i) => {
            if i < count {
                return Ok(None);
            }
            opened.eigen(i - count)
        }
    }
}

// Whether a name is the index, below so many abstractions.
fn is_place(name: Name, count: u64, place: u64) -> bool
    ensures { result ≡ is_at place count (name_term name) }
{
    match name {
        Name::Eigen(_) => false,
        Name::Index(i) => i >= count && i - count == place,
    }
}

// A term below its leading abstractions, and how many they are.
fn strip(
    alloc: Global,
    bank: &mut Bank,
    bindings: &Bindings,
    term: TermId,
) -> Result<(Looked, u64), TermRefusal>
    ensures kept { Extends bank.old bank.new }
    ensures looked { IfOk result (λ r. IsLooked bank.new bindings.now r.0) }
    ensures top { IfOk result (λ r. IsNoAbstraction r.0.head) }
    ensures strips { IfOk result (λ r. (c : Closing) → IsReading bank.old bindings.now c → IsShut c → Strips r.1 (under bank.old c term) (under bank.new c r.0.whole)) }
    ensures refused { IfErr result (λ e. (c : Closing) → IsReading bank.old bindings.now c → IsShut c → (m : ℕ) → m ≤ 1000000 → HasNoForm m (under bank.old c term) e) }
{
    let mut at = term;
    for count in 0..u64::MAX {
        let looked = look(alloc, bank, bindings, at, CONTRACTIONS)?;
        let Head::Abstraction(body) = looked.head else {
            return Ok((looked, count));
        };
        at = body;
    }
    Err(TermRefusal::Memory)
}

// Each argument is to come to the index of its own abstraction, the first to the outermost.
fn push_wanted(arguments: &[TermId], count: u64, left: &mut Vec<Wanted>) -> Result<(), Memory>
    ensures { OnOk result (left.new.items ≡ left.old.items ++ wanted_at count arguments.now) }
{
    let mut place = count;
    for term in arguments.iter().copied() {
        place = place.saturating_sub(1);
        left.push(Wanted { term, place })?;
    }
    Ok(())
}

// Takes abstractions off a term, whose head, if it may come to a name by eta contractions, has as many arguments as they are.
fn stripped_name(
    alloc: Global,
    bank: &mut Bank,
    bindings: &Bindings,
    term: TermId,
    left: &mut Vec<Wanted>,
) -> Result<Option<(Name, u64)>, TermRefusal>
    requires known { All (λ w. w.term.0 < length bank.old.terms) left.old.items }
    ensures kept { Extends bank.old bank.new }
    ensures known { OnOk result (All (λ w. w.term.0 < length bank.new.terms) left.new.items) }
    ensures stripped { IfOk result (λ o. (c : Closing) → IsReading bank.old bindings.now c → IsShut c → (m : ℕ) → HasForm m (under bank.old c term) →
        IsStripped m (under bank.old c term) bank.new c o left.old.items left.new.items) }
    ensures refused { IfErr result (λ e. (c : Closing) → IsReading bank.old bindings.now c → IsShut c → (m : ℕ) → m ≤ 1000000 → HasNoForm m (under bank.old c term) e) }
{
    let (looked, count) = strip(alloc, bank, bindings, term)?;
    if looked.arguments.len() as u64 != count {
        return Ok(None);
    }
    let Some(name) = name_of(bank, looked.top) else {
        return Ok(None);
    };
    push_wanted(looked.arguments.as_slice(), count, left)?;
    Ok(Some((name, count)))
}

// Whether the term comes to its index, if those that are put behind the others come to theirs.
fn comes(
    alloc: Global,
    bank: &mut Bank,
    bindings: &Bindings,
    wanted: Wanted,
    left: &mut Vec<Wanted>,
) -> Result<bool, TermRefusal>
    requires known { All (λ w. w.term.0 < length bank.old.terms) left.old.items }
    ensures kept { Extends bank.old bank.new }
    ensures known { OnOk result (All (λ w. w.term.0 < length bank.new.terms) left.new.items) }
    ensures comes { IfOk result (λ is. (c : Closing) → IsReading bank.old bindings.now c → IsShut c → (m : ℕ) → HasForm m (under bank.old c wanted.term) →
        IsTaken m (under bank.old c wanted.term) wanted.place bank.new c is left.old.items left.new.items) }
    ensures refused { IfErr result (λ e. (c : Closing) → IsReading bank.old bindings.now c → IsShut c → (m : ℕ) → m ≤ 1000000 → HasNoForm m (under bank.old c wanted.term) e) }
{
    let Some((name, count)) = stripped_name(alloc, bank, bindings, wanted.term, left)? else {
        return Ok(false);
    };
    Ok(is_place(name, count, wanted.place))
}

// The eigenconstant to which an abstraction comes by eta contractions, if it comes to one.
fn contracted(
    alloc: Global,
    bank: &mut Bank,
    bindings: &Bindings,
    opened: Opened,
    term: TermId,
) -> Result<Option<u64>, TermRefusal>
    ensures kept { Extends bank.old bank.new }
    ensures eigen { IfOk result (λ o. (c : Closing) → IsReading bank.old bindings.now c → IsShut c → (m : ℕ) → IsEigen m (read_at bank.old c opened.level opened.depth term) o) }
    ensures refused { IfErr result (λ e. (c : Closing) → IsReading bank.old bindings.now c → IsShut c → (m : ℕ) → m ≤ 1000000 → HasNoEigen m (read_at bank.old c opened.level opened.depth term) e) }
{
    let mut left = Vec::new(alloc);
    let Some((name, count)) = stripped_name(alloc, bank, bindings, term, &mut left)? else {
        return Ok(None);
    };
    let found = eigen_below(name, count, opened)?;
    'parts: for _ in 0..u64::MAX {
        let Some(wanted) = left.pop() else {
            return Ok(found);
        };
        let goes = comes(alloc, bank, bindings, wanted, &mut left)?;
        if !goes {
            return Ok(None);
        }
    }
    Err(TermRefusal::Memory)
}

// The eigenconstant that a head without arguments is.
fn alone(bank: &Bank, looked: &Looked, opened: Opened) -> Result<Option<u64>, Memory>
    ensures { IfOk result (λ o. IsAlone bank.now looked.now (opens opened.level opened.depth) o) }
{
    if !looked.arguments.is_empty() {
        return Ok(None);
    }
    let Some(name) = name_of(bank, looked.top) else {
        return Ok(None);
    };
    eigen_below(name, 0, opened)
}

// The eigenconstant to which an argument comes, if it comes to one.
fn as_eigen(
    alloc: Global,
    bank: &mut Bank,
    bindings: &Bindings,
    opened: Opened,
    term: TermId,
) -> Result<Option<u64>, TermRefusal>
    ensures kept { Extends bank.old bank.new }
    ensures eigen { IfOk result (λ o. (c : Closing) → IsReading bank.old bindings.now c → IsShut c → (m : ℕ) → IsEigen m (read_at bank.old c opened.level opened.depth term) o) }
    ensures refused { IfErr result (λ e. (c : Closing) → IsReading bank.old bindings.now c → IsShut c → (m : ℕ) → m ≤ 1000000 → HasNoEigen m (read_at bank.old c opened.level opened.depth term) e) }
{
    let looked = look(alloc, bank, bindings, term, CONTRACTIONS)?;
    match looked.head {
        Head::Variable { id: _, level: _ } => Ok(None),
        Head::Abstraction(_) => contracted(alloc, bank, bindings, opened, looked.whole),
        Head::Rigid => {
            let found = alone(bank, &looked, opened)?;
            Ok(found)
        }
    }
}

// Whether an eigenconstant is above the level and none of the others.
fn is_good(level: u64, k: u64, others: &[u64]) -> bool
    ensures { result ≡ (not (member k others.now) && nat_lt level k) }
{
    if others.contains(&k) {
        return false;
    }
    level < k
}

// Whether all are distinct and above the level.
fn make_a_pattern(level: u64, ks: &[u64]) -> bool
    ensures { result ≡ (are_distinct ks.now && are_above level ks.now) }
{
    for place in 0..ks.len() {
        if !is_good(level, ks[place], &ks[place + 1..]) {
            return false;
        }
    }
    true
}

// The eigenconstants on which a variable of the level makes a pattern.
pub(crate) fn pattern_of(
    alloc: Global,
    bank: &mut Bank,
    bindings: &Bindings,
    opened: Opened,
    level: u64,
    arguments: &[TermId],
) -> Result<Option<Arguments>, TermRefusal>
    requires known { All (λ t. t.0 < length bank.old.terms) arguments.now }
    ensures kept { Extends bank.old bank.new }
    ensures pattern { IfOk result (λ o. (c : Closing) → IsReading bank.old bindings.now c → IsShut c → (m : ℕ) → IsPattern m level (map (read_at bank.old c opened.level opened.depth) arguments.now) o) }
    ensures distinct { IfOk result (λ o. IfSome o (λ a. (are_distinct a.eigens.items && are_above level a.eigens.items) ≡ true)) }
    ensures many { IfOk result (λ o. IfSome o (λ a. length a.eigens.items ≡ length arguments.now)) }
    ensures refused { IfErr result (λ e. (c : Closing) → IsReading bank.old bindings.now c → IsShut c → (m : ℕ) → m ≤ 1000000 → HasNoPattern m level (map (read_at bank.old c opened.level opened.depth) arguments.now) e) }
{
    let mut eigens = Vec::new(alloc);
    for place in 0..arguments.len() {
        let found = as_eigen(alloc, bank, bindings, opened, arguments[place])?;
        let Some(eigen) = found else {
            return Ok(None);
        };
        eigens.push(eigen)?;
    }
    if !make_a_pattern(level, eigens.as_slice()) {
        return Ok(None);
    }
    Ok(Some(Arguments { eigens }))
}
