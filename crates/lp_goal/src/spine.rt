// A head-normal term by its head and its arguments.
#![tactic(auto, using(lp_susp::proofs::Keeping::grows_on, lp_susp::proofs::Keeping::grows_same, lp_susp::proofs::Keeping::grows_of, lp_susp::proofs::Chains::marks_on))]

ghost use Rattle.std.specs.Prelude.{◌≡◌, ◌+◌, ◌<◌, ◌≤◌, ◌++◌, ℕ, length, map, reverse, true, None, All, IfOk, IfErr, OnOk, IfSome};
ghost use Rattle.lp_base.specs.declared.limits.TheConstants.{RUN_LIMIT};
ghost use Rattle.lp_calculus.specs.Term.{Term};
ghost use Rattle.lp_calculus.specs.Convert.{head_step};
ghost use Rattle.lp_store.specs.Contents.{cell_at};
ghost use Rattle.lp_store.specs.Reading.{Reads};
ghost use Rattle.lp_store.specs.Change.{Extends, KeepsMarks};
ghost use Rattle.lp_susp.specs.Kept.{Grows, Keeps, Reduced};
ghost use Rattle.lp_susp.specs.Route.{RefsTo};
ghost use Rattle.lp_susp.specs.Counted.{IsDeepOnlyWhere};
ghost use Rattle.lp_goal.specs.Spines.{IsThere, IsTop, IsHeadCell, IsSpineOf, argument_cells};

use lp_base::{Memory, RUN_LIMIT};
use lp_store::{Cell, CellId, List, Store};
use lp_susp::{expose, head_normal};
use lp_term::TermRefusal;
use std::alloc::Global;

/// A term by the cell of its head, which is neither a reference nor a suspension nor an application, and its arguments, if it has any.
#[derive(Clone, Copy)]
pub struct Spine {
    pub head: CellId,
    pub arguments: Option<List>,
}

impl Spine {
    /// The arguments, in order.
    pub fn arguments<'s>(&self, store: &'s Store) -> &'s [CellId]
        requires { IsThere store.now self.now }
        ensures within { All (λ t. t.0 < length store.now.cells) result.now }
        ensures cells { map (λ t. t.0) result.now ≡ argument_cells store.now self.now.arguments }
    {
        match self.arguments {
            Some(list) => store.items(list),
            None => &[],
        }
    }
}

// The cell that references lead to.
fn referred(store: &Store, cell: CellId) -> CellId
    requires { cell.0 < length store.now.cells }
    ensures within { result.0 < length store.now.cells }
    ensures refers { RefsTo store.now cell.0 result.0 }
{
    let mut at = cell;
    'references: for _ in 0..u64::MAX {
        match store.cell(at) {
            Cell::Ref(to) => at = to,
            _ => return at,
        }
    }
    at
}

// Whether the cell is seen to be the head of a head-normal term.
fn is_head(cell: Cell) -> bool
    ensures { result ≡ true → IsHeadCell cell }
{
    match cell {
        Cell::Const(_, _) | Cell::Int(_) | Cell::Text(_) | Cell::Eigen(_) | Cell::Logic(_) => true,
        _ => false,
    }
}

// A term that needs no reduction to be seen: a head, or a head on one list of arguments.
fn glance(store: &Store, term: CellId) -> Option<Spine>
    requires { term.0 < length store.now.cells }
    ensures there { IfSome result (IsThere store.now) }
    ensures top { IfSome result (λ spine. IsTop (cell_at store.now spine.head.0)) }
    ensures spine { IfSome result (λ spine. (t : Term) → Reads store.now term.0 t → IsSpineOf store.now spine t) }
{
    let at = referred(store, term);
    match store.cell(at) {
        Cell::App(head, list) => {
            let top = referred(store, head);
            if !is_head(store.cell(top)) {
                return None;
            }
            Some(Spine {
                head: top,
                arguments: Some(list),
            })
        }
        other => {
            if !is_head(other) {
                return None;
            }
            Some(Spine {
                head: at,
                arguments: None,
            })
        }
    }
}

// Puts the cells behind the others, the last one first.
fn push_reversed(cells: &[CellId], stack: &mut Vec<CellId>) -> Result<(), Memory>
    ensures { OnOk result (stack.new.items ≡ stack.old.items ++ reverse cells.now) }
{
    let mut left = cells.len();
    while left > 0 {
        left -= 1;
        stack.push(cells[left])?;
    }
    Ok(())
}

// The arguments that were gathered, the last one first, as one list.
fn listed(store: &mut Store, mut gathered: Vec<CellId>) -> Result<Option<List>, Memory>
    requires { All (λ t. t.0 < length store.old.cells) gathered.items }
    ensures list { IfOk result (λ list. IfSome list (λ l. l.from + l.count ≤ length store.new.items)) }
    ensures cells { IfOk result (λ list. argument_cells store.new list ≡ map (λ t. t.0) (reverse gathered.items)) }
    ensures kept { Extends store.old store.new }
    ensures marks { KeepsMarks store.old store.new }
{
    if gathered.is_empty() {
        return Ok(None);
    }
    gathered.reverse();
    let list = store.list(gathered.as_slice())?;
    Ok(Some(list))
}

// A head-normal term whose head may stand below several applications.
fn gathered(alloc: Global, store: &mut Store, normal: CellId) -> Result<Spine, Memory>
    requires { normal.0 < length store.old.cells }
    ensures there { IfOk result (IsThere store.new) }
    ensures top { IfOk result (λ spine. IsTop (cell_at store.new spine.head.0)) }
    ensures spine { IfOk result (λ spine. (t : Term) → Reads store.old normal.0 t → head_step t ≡ None → IsSpineOf store.new spine t) }
    ensures kept { Keeps store.old store.new }
    ensures marks { KeepsMarks store.old store.new }
{
    let mut stack = Vec::new(alloc);
    let mut at = normal;
    'applications: for _ in 0..u64::MAX {
        at = expose(alloc, store, at)?;
        match store.cell(at) {
            Cell::App(head, list) => {
                push_reversed(store.items(list), &mut stack)?;
                at = head;
                continue;
            }
            _ => {
                let arguments = listed(store, stack)?;
                return Ok(Spine {
                    head: at,
                    arguments,
                });
            }
        }
    }
    Err(Memory)
}

/// The head-normal form of the term, by its head and its arguments. `Deep` comes only where leftmost head reduction takes more than `RUN_LIMIT` steps.
pub fn spine_of(alloc: Global, store: &mut Store, term: CellId) -> Result<Spine, TermRefusal>
    requires { term.0 < length store.old.cells }
    ensures there { IfOk result (IsThere store.new) }
    ensures top { IfOk result (λ spine. IsTop (cell_at store.new spine.head.0)) }
    ensures spine { IfOk result (λ spine. (t : Term) → Reads store.old term.0 t → IsSpineOf store.new spine t) }
    ensures refused { IfErr result (λ e. (t : Term) → Reads store.old term.0 t → IsDeepOnlyWhere RUN_LIMIT t e) }
    ensures grows { Grows store.old store.new }
    ensures reduced { Reduced store.old store.new }
    ensures marks { KeepsMarks store.old store.new }
{
    if let Some(spine) = glance(store, term) {
        return Ok(spine);
    }
    match head_normal(alloc, store, term, RUN_LIMIT) {
        Ok(normal) => {
            let spine = gathered(alloc, store, normal)?;
            Ok(spine)
        }
        Err(refusal) => Err(refusal),
    }
}
