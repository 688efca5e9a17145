// The scan of the other side, depth first and left to right. Each node is a unit; a pattern with its arguments is one node, and an
// abstraction that is opened is none.
ghost use Rattle.std.specs.Prelude.{◌≡◌, ◌∷◌, ◌++◌, ◌||◌, ◌<◌, ◌≤◌, ℕ, suc, nat_lt, length, not, reverse, true, false, Some, All, IfOk, OnOk, IfErr};
ghost use Rattle.lp_term.specs.Nodes.{Extends, tree};
ghost use Rattle.lp_model.specs.Pair.{Closing};
ghost use Rattle.lp_model.specs.Scan.{Scanned as Outcome, is_side, allows_head, scan, scanned_pattern};
ghost use Rattle.lp_pattern.specs.declared.fault.PatternRefusal.TheVariants.{Fails};
ghost use Rattle.lp_pattern.specs.declared.look.Head.TheVariants.{Abstraction, Rigid, Variable};
ghost use Rattle.lp_pattern.specs.inner.Falling.{walk_left, depth_on_top};
ghost use Rattle.lp_pattern.specs.Pruning.{visit_at};
ghost use Rattle.lp_pattern.specs.Reading.{side_of};
ghost use Rattle.lp_pattern.specs.Scanning.{Adds, IsBroken, visits};
ghost use Rattle.lp_pattern.specs.Seen.{IsLooked};
ghost use Rattle.lp_pattern.specs.Stripping.{IsShut};
ghost use Rattle.lp_pattern.specs.Under.{IsReading, under};
ghost use Rattle.lp_pattern.specs.Visiting.{IsVisitOf, IsRestOf, IsScanned, IsStopped, part_at, part_of, parts_of, scan_parts};

use crate::bindings::Bindings;
use crate::fault::PatternRefusal;
use crate::look::{CONTRACTIONS, Head, Looked, look};
use crate::opened::Opened;
use crate::patterns::{Arguments, pattern_of};
use crate::side::Side;
use crate::units::{spend, spend_many};
use lp_base::Memory;
use lp_term::{Bank, TermId, TermNode};
use std::alloc::Global;

// What a scan found that did not fail.
#[derive(Clone, Copy)]
pub(crate) struct Scanned {
    // The pair is to be delayed.
    pub is_delayed: bool,
    // Some pattern does not fit.
    pub has_misfit: bool,
}

// A part that is to be visited.
#[derive(Clone, Copy)]
pub(crate) struct Visit {
    pub term: TermId,
    pub opened: Opened,
    // Whether it stands inside a flexible term that is no pattern. Nothing fails there.
    pub is_inside: bool,
}

impl Visit {
    // Another term in its place.
    pub(crate) fn at(self, term: TermId) -> Visit
        ensures { result ≡ visit_at self term }
    {
        Visit {
            term,
            opened: self.opened,
            is_inside: self.is_inside,
        }
    }

    // The body of the abstraction.
    pub(crate) fn body(self, body: TermId) -> Result<Visit, Memory>
        ensures term { IfOk result (λ v. v.term ≡ body) }
        ensures level { IfOk result (λ v. v.opened.level ≡ self.opened.level) }
        ensures depth { IfOk result (λ v. v.opened.depth ≡ suc self.opened.depth) }
        ensures few { OnOk result (self.opened.depth < 4611686018427387904) }
        ensures inside { IfOk result (λ v. v.is_inside ≡ self.is_inside) }
    {
        let opened = self.opened.one_more()?;
        Ok(Visit {
            term: body,
            opened,
            is_inside: self.is_inside,
        })
    }
}

fn either(one: bool, other: bool) -> bool
    ensures { result ≡ (one || other) }
{
    one || other
}

// Puts the arguments of a visited part on the stack, so that the first of them comes first.
pub(crate) fn push_arguments(
    visit: Visit,
    arguments: &[TermId],
    is_inside: bool,
    left: &mut Vec<Visit>,
) -> Result<(), Memory>
    ensures { OnOk result (left.new.items ≡ left.old.items ++ reverse (visits visit is_inside arguments.now)) }
{
    for done in 0..arguments.len() {
        let at = arguments.len() - 1 - done;
        left.push(Visit {
            term: arguments[at],
            opened: visit.opened,
            is_inside,
        })?;
    }
    Ok(())
}

// Whether a rigid head is allowed.
fn allows_head(bank: &Bank, side: &Side, head: TermId) -> bool
    ensures { result ≡ allows_head (side_of side.now) (tree bank.now head.0) }
{
    match bank.term_node(head) {
        TermNode::Eigen(k) => side.allows(k),
        _ => true,
    }
}

// A rigid head, and its arguments.
fn visit_rigid(
    bank: &Bank,
    bindings: &Bindings,
    side: &Side,
    visit: Visit,
    looked: &Looked,
    left: &mut Vec<Visit>,
    found: &mut Scanned,
    units: &mut u64,
) -> Result<(), PatternRefusal>
    requires visit { IsVisitOf (length bank.now.terms) side.now.pair visit }
    requires head { looked.now.head ≡ Rigid }
    requires looked { IsLooked bank.now bindings.now looked.now }
    requires left { All (IsVisitOf (length bank.now.terms) side.now.pair) left.old.items }
    ensures left { OnOk result (All (IsVisitOf (length bank.now.terms) side.now.pair) left.new.items) }
    ensures fewer { OnOk result (units.new ≤ units.old) }
    ensures falls { OnOk result (walk_left units.new (depth_on_top left.new.items) < walk_left units.old visit.opened.depth) }
    ensures scanned { OnOk result ((c : Closing) → IsReading bank.now bindings.now c → IsShut c → (m n : ℕ) → IsRestOf (side_of side.now) units.old units.new found.old found.new
        (scan_parts m n (side_of side.now) (part_at bank.now c visit looked.now.whole ∷ parts_of bank.now c left.old.items))
        (scan_parts m n (side_of side.now) (parts_of bank.now c left.new.items))) }
    ensures stopped { IfErr result (λ r. (c : Closing) → IsReading bank.now bindings.now c → IsShut c → (m n : ℕ) → IsStopped m r units.old
        (scan_parts m n (side_of side.now) (part_at bank.now c visit looked.now.whole ∷ parts_of bank.now c left.old.items))) }
{
    spend(units)?;
    let is_allowed = allows_head(bank, side, looked.top);
    let goes = either(is_allowed, visit.is_inside);
    if !goes {
        return Err(PatternRefusal::Fails);
    }
    push_arguments(visit, looked.arguments.as_slice(), visit.is_inside, left)?;
    found.is_delayed = either(found.is_delayed, !is_allowed);
    Ok(())
}

// A variable on distinct eigenconstants above its level.
fn note_pattern(
    side: &Side,
    visit: Visit,
    id: u64,
    level: u64,
    pattern: &Arguments,
    found: &mut Scanned,
) -> Result<(), PatternRefusal>
    ensures failed { IfErr result (λ r. (r ≡ Fails) × IsBroken (scanned_pattern (side_of side.now) visit.is_inside id level pattern.now.eigens.items)) }
    ensures noted { OnOk result (Adds (side_of side.now) found.old found.new (scanned_pattern (side_of side.now) visit.is_inside id level pattern.now.eigens.items)) }
{
    let is_side = side.is_variable(id, level);
    let fits = side.fits(level, pattern.eigens.as_slice());
    if visit.is_inside {
        found.is_delayed = either(either(found.is_delayed, is_side), !fits);
        return Ok(());
    }
    if is_side {
        return Err(PatternRefusal::Fails);
    }
    found.has_misfit = either(found.has_misfit, !fits);
    Ok(())
}

// A variable that is no pattern, and its arguments, in which nothing fails.
fn note_open(
    side: &Side,
    visit: Visit,
    id: u64,
    level: u64,
    arguments: &[TermId],
    left: &mut Vec<Visit>,
    found: &mut Scanned,
) -> Result<(), Memory>
    ensures arguments { OnOk result (left.new.items ≡ left.old.items ++ reverse (visits visit true arguments.now)) }
    ensures delayed { OnOk result (found.new.is_delayed ≡ (found.old.is_delayed || (is_side (side_of side.now) id level || nat_lt side.now.level level))) }
    ensures misfit { OnOk result (found.new.has_misfit ≡ found.old.has_misfit) }
{
    push_arguments(visit, arguments, true, left)?;
    let stands = either(side.is_variable(id, level), side.level < level);
    found.is_delayed = either(found.is_delayed, stands);
    Ok(())
}

// A variable, and, if it is no pattern, its arguments.
fn visit_variable(
    alloc: Global,
    bank: &mut Bank,
    bindings: &Bindings,
    side: &Side,
    visit: Visit,
    looked: &Looked,
    id: u64,
    level: u64,
    left: &mut Vec<Visit>,
    found: &mut Scanned,
    units: &mut u64,
) -> Result<(), PatternRefusal>
    requires visit { IsVisitOf (length bank.old.terms) side.now.pair visit }
    requires head { looked.now.head ≡ Variable id level }
    requires looked { IsLooked bank.old bindings.now looked.now }
    requires left { All (IsVisitOf (length bank.old.terms) side.now.pair) left.old.items }
    ensures kept { Extends bank.old bank.new }
    ensures left { OnOk result (All (IsVisitOf (length bank.new.terms) side.now.pair) left.new.items) }
    ensures fewer { OnOk result (units.new ≤ units.old) }
    ensures falls { OnOk result (walk_left units.new (depth_on_top left.new.items) < walk_left units.old visit.opened.depth) }
    ensures scanned { OnOk result ((c : Closing) → IsReading bank.old bindings.now c → IsShut c → (m n : ℕ) → IsRestOf (side_of side.now) units.old units.new found.old found.new
        (scan_parts m n (side_of side.now) (part_at bank.old c visit looked.now.whole ∷ parts_of bank.old c left.old.items))
        (scan_parts m n (side_of side.now) (parts_of bank.new c left.new.items))) }
    ensures stopped { IfErr result (λ r. (c : Closing) → IsReading bank.old bindings.now c → IsShut c → (m n : ℕ) → IsStopped m r units.old
        (scan_parts m n (side_of side.now) (part_at bank.old c visit looked.now.whole ∷ parts_of bank.old c left.old.items))) }
{
    spend(units)?;
    let arguments = looked.arguments.as_slice();
    let pattern = pattern_of(alloc, bank, bindings, visit.opened, level, arguments)?;
    let Some(pattern) = pattern else {
        note_open(side, visit, id, level, arguments, left, found)?;
        return Ok(());
    };
    note_pattern(side, visit, id, level, &pattern, found)?;
    Ok(())
}

// The body of an abstraction.
fn visit_body(
    bank: &Bank,
    bindings: &Bindings,
    side: &Side,
    visit: Visit,
    looked: &Looked,
    body: TermId,
    left: &mut Vec<Visit>,
    found: &Scanned,
    units: &u64,
) -> Result<(), PatternRefusal>
    requires visit { IsVisitOf (length bank.now.terms) side.now.pair visit }
    requires head { looked.now.head ≡ Abstraction body }
    requires looked { IsLooked bank.now bindings.now looked.now }
    requires left { All (IsVisitOf (length bank.now.terms) side.now.pair) left.old.items }
    ensures left { OnOk result (All (IsVisitOf (length bank.now.terms) side.now.pair) left.new.items) }
    ensures falls { OnOk result (walk_left units.now (depth_on_top left.new.items) < walk_left units.now visit.opened.depth) }
    ensures scanned { OnOk result ((c : Closing) → IsReading bank.now bindings.now c → IsShut c → (m n : ℕ) → IsRestOf (side_of side.now) units.now units.now found.now found.now
        (scan_parts m n (side_of side.now) (part_at bank.now c visit looked.now.whole ∷ parts_of bank.now c left.old.items))
        (scan_parts m n (side_of side.now) (parts_of bank.now c left.new.items))) }
    ensures stopped { IfErr result (λ r. (c : Closing) → IsReading bank.now bindings.now c → IsShut c → (m n : ℕ) → IsStopped m r units.now
        (scan_parts m n (side_of side.now) (part_at bank.now c visit looked.now.whole ∷ parts_of bank.now c left.old.items))) }
{
    let inner = visit.body(body)?;
    left.push(inner)?;
    Ok(())
}

// Visits a part by what was seen of it.
fn visit_seen(
    alloc: Global,
    bank: &mut Bank,
    bindings: &Bindings,
    side: &Side,
    visit: Visit,
    looked: &Looked,
    left: &mut Vec<Visit>,
    found: &mut Scanned,
    units: &mut u64,
) -> Result<(), PatternRefusal>
    requires visit { IsVisitOf (length bank.old.terms) side.now.pair visit }
    requires looked { IsLooked bank.old bindings.now looked.now }
    requires left { All (IsVisitOf (length bank.old.terms) side.now.pair) left.old.items }
    ensures kept { Extends bank.old bank.new }
    ensures left { OnOk result (All (IsVisitOf (length bank.new.terms) side.now.pair) left.new.items) }
    ensures fewer { OnOk result (units.new ≤ units.old) }
    ensures falls { OnOk result (walk_left units.new (depth_on_top left.new.items) < walk_left units.old visit.opened.depth) }
    ensures scanned { OnOk result ((c : Closing) → IsReading bank.old bindings.now c → IsShut c → (m n : ℕ) → IsRestOf (side_of side.now) units.old units.new found.old found.new
        (scan_parts m n (side_of side.now) (part_at bank.old c visit looked.now.whole ∷ parts_of bank.old c left.old.items))
        (scan_parts m n (side_of side.now) (parts_of bank.new c left.new.items))) }
    ensures stopped { IfErr result (λ r. (c : Closing) → IsReading bank.old bindings.now c → IsShut c → (m n : ℕ) → IsStopped m r units.old
        (scan_parts m n (side_of side.now) (part_at bank.old c visit looked.now.whole ∷ parts_of bank.old c left.old.items))) }
{
    match looked.head {
        Head::Abstraction(body) => {
            visit_body(
                bank, bindings, side, visit, looked, body, left, found, units,
            )
        }
        Head::Rigid => visit_rigid(bank, bindings, side, visit, looked, left, found, units),
        Head::Variable { id, level } => visit_variable(
            alloc, bank, bindings, side, visit, looked, id, level, left, found, units,
        ),
    }
}

fn visit_part(
    alloc: Global,
    bank: &mut Bank,
    bindings: &Bindings,
    side: &Side,
    visit: Visit,
    left: &mut Vec<Visit>,
    found: &mut Scanned,
    units: &mut u64,
) -> Result<(), PatternRefusal>
    requires visit { IsVisitOf (length bank.old.terms) side.now.pair visit }
    requires left { All (IsVisitOf (length bank.old.terms) side.now.pair) left.old.items }
    ensures kept { Extends bank.old bank.new }
    ensures left { OnOk result (All (IsVisitOf (length bank.new.terms) side.now.pair) left.new.items) }
    ensures fewer { OnOk result (units.new ≤ units.old) }
    ensures falls { OnOk result (walk_left units.new (depth_on_top left.new.items) < walk_left units.old visit.opened.depth) }
    ensures scanned { OnOk result ((c : Closing) → IsReading bank.old bindings.now c → IsShut c → (m n : ℕ) → IsRestOf (side_of side.now) units.old units.new found.old found.new
        (scan_parts m n (side_of side.now) (part_of bank.old c visit ∷ parts_of bank.old c left.old.items))
        (scan_parts m n (side_of side.now) (parts_of bank.new c left.new.items))) }
    ensures stopped { IfErr result (λ r. (c : Closing) → IsReading bank.old bindings.now c → IsShut c → (m n : ℕ) → IsStopped m r units.old
        (scan_parts m n (side_of side.now) (part_of bank.old c visit ∷ parts_of bank.old c left.old.items))) }
{
    // Each node of a ground term is a unit, and nothing else is found in it.
    if let Some(count) = bank.ground_nodes(visit.term) {
        return spend_many(units, count);
    }
    let looked = look(alloc, bank, bindings, visit.term, CONTRACTIONS)?;
    visit_seen(
        alloc, bank, bindings, side, visit, &looked, left, found, units,
    )
}

// Visits the term. A part that is not allowed fails, and goes before a delay.
pub(crate) fn scan(
    alloc: Global,
    bank: &mut Bank,
    bindings: &Bindings,
    side: &Side,
    term: TermId,
    units: &mut u64,
) -> Result<Scanned, PatternRefusal>
    requires term { term.0 < length bank.old.terms }
    ensures kept { Extends bank.old bank.new }
    ensures fewer { OnOk result (units.new ≤ units.old) }
    ensures scanned { IfOk result (λ found. (c : Closing) → IsReading bank.old bindings.now c → IsShut c → (n : ℕ) → (r : Outcome) → scan n (side_of side.now) false side.now.pair (under bank.old c term) ≡ Some r →
        IsScanned (side_of side.now) units.old units.new found r) }
    ensures stopped { IfErr result (λ e. (c : Closing) → IsReading bank.old bindings.now c → IsShut c → (n : ℕ) → IsStopped n e units.old (scan n (side_of side.now) false side.now.pair (under bank.old c term))) }
{
    let mut found = Scanned {
        is_delayed: false,
        has_misfit: false,
    };
    let mut left = Vec::new(alloc);
    left.push(Visit {
        term,
        opened: side.closed(),
        is_inside: false,
    })?;
    'parts: loop {
        let Some(visit) = left.pop() else {
            return Ok(found);
        };
        visit_part(
            alloc, bank, bindings, side, visit, &mut left, &mut found, units,
        )?;
    }
}
