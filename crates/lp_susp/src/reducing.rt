ghost use Rattle.std.specs.Prelude.{◌≡◌, ℕ, suc, ◌+◌, ◌-◌, ◌<◌, ◌≤◌, length, List, [], ◌∷◌, ◌++◌, IfOk, OnOk, IfErr, map, Some, None};
ghost use Rattle.lp_calculus.specs.Term.{Term, abs, apply, substitute};
ghost use Rattle.lp_calculus.specs.Convert.{head_step, Reduces};
ghost use Rattle.lp_store.specs.Contents.{Contents, cell_at, span};
ghost use Rattle.lp_store.specs.Reading.{Avoids, AvoidsAll, Reads, ReadAll};
ghost use Rattle.lp_store.specs.Change.{Extends, KeepsMarks};
ghost use Rattle.lp_susp.specs.Pending.{IsPending, Carries};
ghost use Rattle.lp_susp.specs.Kept.{IsExposed, Reduced};
ghost use Rattle.lp_susp.specs.Route.{IsRedex, closure_parts};
ghost use Rattle.lp_susp.specs.Counted.{Works, IsApplication, IsStopped, IsDeepOnlyWhere};

use crate::carrying::Pending;
use crate::exposing::{Closure, closure_of, expose};
use lp_base::Memory;
use lp_store::{Cell, CellId, Env, EnvEntry, Span, Store};
use lp_term::TermRefusal;
use std::alloc::Global;

// How many contractions may be made, or nodes put into a bank, in all, and how many are left.
#[derive(Clone, Copy)]
pub(crate) struct Budget {
    pub(crate) limit: u64,
    pub(crate) left: u64,
}

// A body below no suspension.
fn plain(body: CellId) -> Closure
    ensures body { result.body ≡ body }
    ensures ol { result.pending.ol ≡ 0 }
    ensures nl { result.pending.nl ≡ 0 }
    ensures env { result.pending.env.0 ≡ 0 }
{
    let pending = Pending {
        ol: 0,
        nl: 0,
        env: Env::nil(),
    };
    Closure { body, pending }
}

// The body with the argument for its index 0, as one suspension: the argument stands in front of what the body's own
// suspension gives.
fn instantiate(store: &mut Store, closure: Closure, arg: CellId) -> Result<CellId, Memory>
    requires body { closure.body.0 < length store.old.cells }
    requires pending { IsPending store.old closure.pending }
    requires arg { arg.0 < length store.old.cells }
    ensures kept { Extends store.old store.new }
    ensures marks { KeepsMarks store.old store.new }
    ensures avoids { IfOk result (λ id. (c : ℕ) → c < length store.old.cells → AvoidsAll store.old c (closure_parts store.old closure) → Avoids store.old c arg.0 → Avoids store.new c id.0) }
    ensures within { IfOk result (λ id. id.0 < length store.new.cells) }
    ensures reads { IfOk result (λ id. (m n u : Term) → Reads store.old closure.body.0 m → Carries store.old closure.pending (abs m) (abs n) → Reads store.old arg.0 u → Reads store.new id.0 (substitute u n)) }
{
    let pending = closure.pending;
    if pending.ol == u64::MAX {
        return Err(Memory);
    }
    let _mark = store.mark();
    let env = store.env(EnvEntry::Value(arg, pending.nl), pending.env)?;
    let id = store.push(Cell::Susp(closure.body, pending.ol + 1, pending.nl, env))?;
    Ok(id)
}

// The cell on all but the first of the arguments.
fn on_the_rest(store: &mut Store, head: CellId, arguments: Span) -> Result<CellId, Memory>
    requires head { head.0 < length store.old.cells }
    requires arguments { arguments.from + arguments.count ≤ length store.old.items }
    requires some { 0 < arguments.count }
    ensures kept { Extends store.old store.new }
    ensures marks { KeepsMarks store.old store.new }
    ensures avoids { IfOk result (λ id. (c : ℕ) → c < length store.old.cells → Avoids store.old c head.0 → AvoidsAll store.old c (map (λ t. t.0) (span store.old.items arguments.from arguments.count)) → Avoids store.new c id.0) }
    ensures within { IfOk result (λ id. id.0 < length store.new.cells) }
    ensures reads { IfOk result (λ id. (h u : Term) (us : List Term) → Reads store.old head.0 h →
        ReadAll store.old (map (λ t. t.0) (span store.old.items arguments.from arguments.count)) (u ∷ us) → Reads store.new id.0 (apply h us)) }
{
    let _mark = store.mark();
    let rest = store.tail(arguments);
    if store.items(rest).is_empty() {
        return Ok(head);
    }
    let id = store.push(Cell::App(head, rest))?;
    Ok(id)
}

// What a closure and its arguments contract to.
fn contractum(store: &mut Store, closure: Closure, arguments: Span) -> Result<CellId, Memory>
    requires body { closure.body.0 < length store.old.cells }
    requires pending { IsPending store.old closure.pending }
    requires arguments { arguments.from + arguments.count ≤ length store.old.items }
    requires some { 0 < arguments.count }
    ensures kept { Extends store.old store.new }
    ensures marks { KeepsMarks store.old store.new }
    ensures avoids { IfOk result (λ id. (c : ℕ) → c < length store.old.cells → AvoidsAll store.old c (closure_parts store.old closure) → AvoidsAll store.old c (map (λ t. t.0) (span store.old.items arguments.from arguments.count)) → Avoids store.new c id.0) }
    ensures within { IfOk result (λ id. id.0 < length store.new.cells) }
    ensures reads { IfOk result (λ id. (m n u : Term) (us : List Term) → Reads store.old closure.body.0 m → Carries store.old closure.pending (abs m) (abs n) →
        ReadAll store.old (map (λ t. t.0) (span store.old.items arguments.from arguments.count)) (u ∷ us) → Reads store.new id.0 (apply (substitute u n) us)) }
{
    let _mark = store.mark();
    let arg = store.items(arguments)[0];
    let inside = instantiate(store, closure, arg)?;
    let result = on_the_rest(store, inside, arguments)?;
    Ok(result)
}

// Contracts a closure and its first argument. The cell of the application then refers to what came.
fn contract(
    store: &mut Store,
    redex: CellId,
    closure: Closure,
    arguments: Span,
) -> Result<(), Memory>
    requires { IsRedex store.old redex.0 closure arguments }
    ensures steps { OnOk result ((t : Term) → Reads store.old redex.0 t → (r : Term) × (head_step t ≡ Some r) × IsApplication t × Reads store.new redex.0 r) }
    ensures elsewhere { (i : ℕ) → i < length store.old.cells → (i ≡ redex.0 → ⊥) → cell_at store.new i ≡ cell_at store.old i }
    ensures reduced { Reduced store.old store.new }
    ensures marks { KeepsMarks store.old store.new }
{
    let _mark = store.mark();
    let result = contractum(store, closure, arguments)?;
    store.overwrite(redex, result)?;
    Ok(())
}

// One contraction of those that are left.
fn spend(budget: &mut Budget) -> Result<(), TermRefusal>
    ensures spent { OnOk result (budget.old.left ≡ suc budget.new.left) }
    ensures limit { budget.new.limit ≡ budget.old.limit }
    ensures refused { IfErr result (λ e. (e ≡ TermRefusal.Deep budget.old.limit) × (budget.old.left ≡ 0) × (budget.new.left ≡ budget.old.left)) }
{
    if budget.left == 0 {
        return Err(TermRefusal::Deep(budget.limit));
    }
    budget.left -= 1;
    Ok(())
}

fn put_on(spine: &mut Vec<CellId>, cell: CellId) -> Result<(), Memory>
    ensures { OnOk result (spine.new.items ≡ spine.old.items ++ cell ∷ []) }
{
    spine.push(cell)?;
    Ok(())
}

// Reduces the cell in place to its head-normal form.
pub(crate) fn reduce(
    alloc: Global,
    store: &mut Store,
    cell: CellId,
    budget: &mut Budget,
) -> Result<CellId, TermRefusal>
    requires { cell.0 < length store.old.cells }
    ensures works { IfOk result (λ id. (t : Term) → Reads store.old cell.0 t → (s : Term) × Reads store.new id.0 s × Reads store.new cell.0 s × Works (budget.old.left - budget.new.left) t s × (head_step s ≡ None)) }
    ensures refused { IfErr result (λ e. (t : Term) → Reads store.old cell.0 t → IsStopped budget.old.limit budget.old.left t e) }
    ensures left { budget.new.left ≤ budget.old.left }
    ensures limit { budget.new.limit ≡ budget.old.limit }
    ensures exposed { IfOk result (λ id. IsExposed (cell_at store.new id.0)) }
    ensures within { IfOk result (λ id. id.0 < length store.new.cells) }
    ensures reduced { Reduced store.old store.new }
    ensures marks { KeepsMarks store.old store.new }
{
    let mut spine: Vec<CellId> = Vec::new(alloc);
    let mut at = cell;
    for _step in 0..u64::MAX {
        let exposed = expose(alloc, store, at)?;
        match store.cell(exposed) {
            Cell::App(head, arguments) => {
                let Some(closure) = closure_of(alloc, store, head)? else {
                    put_on(&mut spine, exposed)?;
                    at = head;
                    continue;
                };
                spend(budget)?;
                contract(store, exposed, closure, arguments)?;
                at = exposed;
                continue;
            }
            Cell::Abs(body) => {
                let Some(redex) = spine.pop() else {
                    at = body;
                    continue;
                };
                let Cell::App(_, arguments) = store.cell(redex) else {
                    unreachable!()
                };
                spend(budget)?;
                contract(store, redex, plain(body), arguments)?;
                at = redex;
                continue;
            }
            _ => {
                let id = expose(alloc, store, cell)?;
                return Ok(id);
            }
        }
    }
    Err(TermRefusal::Memory)
}

/// Lets the cell read as its head-normal form, and gives a cell that is exposed and reads so. What is contracted on the
/// way is contracted in its own cell, for all that refers to it. `Deep` comes only where leftmost head reduction takes
/// more than `limit` steps.
pub fn head_normal(
    alloc: Global,
    store: &mut Store,
    cell: CellId,
    limit: u64,
) -> Result<CellId, TermRefusal>
    requires { cell.0 < length store.old.cells }
    ensures normal { IfOk result (λ id. (t : Term) → Reads store.old cell.0 t → (s : Term) × Reads store.new id.0 s × Reads store.new cell.0 s × Reduces t s × (head_step s ≡ None)) }
    ensures refused { IfErr result (λ e. (t : Term) → Reads store.old cell.0 t → IsDeepOnlyWhere limit t e) }
    ensures exposed { IfOk result (λ id. IsExposed (cell_at store.new id.0)) }
    ensures within { IfOk result (λ id. id.0 < length store.new.cells) }
    ensures reduced { Reduced store.old store.new }
    ensures marks { KeepsMarks store.old store.new }
{
    let mut budget = Budget { limit, left: limit };
    match reduce(alloc, store, cell, &mut budget) {
        Ok(id) => Ok(id),
        Err(refusal) => Err(refusal),
    }
}
