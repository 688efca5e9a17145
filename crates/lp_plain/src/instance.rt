// Terms of a clause with values for its variables and new type variables.
ghost use Rattle.std.specs.Prelude.{◌≡◌, ℕ, ◌+◌, ◌-◌, ◌<◌, ◌≤◌, List, [], ◌∷◌, ◌++◌, length, map, reverse, true, All, Some, slice_get, OnOk, IfOk};
ghost use Rattle.lp_calculus.specs.Term.{Term, atom, constant};
ghost use Rattle.lp_calculus.specs.Types.{Ty, instance};
ghost use Rattle.lp_calculus.specs.Instance.{instance_term};
ghost use Rattle.lp_term.specs.Nodes.{Extends, term_at, tree, type_tree};
ghost use Rattle.lp_term.specs.declared.node.TermId.{TermId};
ghost use Rattle.lp_model.specs.Index.{instantiate};
ghost use Rattle.lp_plain.specs.Instances.{values_of, AreValues, StandFor, IsRenewedAtom, KeepsInstancing, visits_at};
ghost use Rattle.lp_plain.specs.Renewal.{renewing};
ghost use Rattle.lp_plain.specs.Scopes.{IsScope};
ghost use Rattle.lp_plain.specs.Written.{IsWritten};
ghost use Rattle.lp_plain.specs.inner.Building.{GoesFed, IsAtomNode, IsFed, IsReady, parts_of};

use crate::scope::Scopes;
use crate::types::{Renewal, all_renewed};
use lp_base::Memory;
use lp_term::{Bank, TermId, TermNode, TypeId, put_abstraction, put_application, put_constant};
use std::alloc::Global;

/// What stands for the loose indices of a clause's term, and its new type variables.
#[derive(Clone, Copy)]
pub(crate) struct Values {
    pub(crate) scope: Option<usize>,
    pub(crate) types: Renewal,
}

#[derive(Clone, Copy)]
enum Task {
    /// A term below so many binders.
    Visit(TermId, u64),
    /// The abstraction or application of this term on the terms that were made last.
    Build(TermId),
}

// What stands for the index of the node, below so many binders. An index that has no value stays.
fn value_of(scopes: &Scopes, values: Values, id: TermId, at: u64, depth: u64) -> TermId
    ensures bound { at < depth → result ≡ id }
    ensures value { depth ≤ at → (nb nv : ℕ) → (vs : List TermId) → IsScope scopes.now nb nv values.scope vs → (t : TermId) → slice_get vs (at - depth) ≡ Some t → result ≡ t }
{
    if at < depth {
        return id;
    }
    let Some(value) = scopes.value(values.scope, at - depth) else {
        return id;
    };
    value
}

// The constant with new type variables.
fn put_renewed(
    alloc: Global,
    bank: &mut Bank,
    number: u32,
    ids: &[TypeId],
    types: Renewal,
) -> Result<TermId, Memory>
    ensures kept { Extends bank.old bank.new }
    ensures within { IfOk result (λ new. new.0 < length bank.new.terms) }
    ensures tree { IfOk result (λ new. All (λ t. t.0 < length bank.old.types) ids.now → tree bank.new new.0 ≡ atom (constant number (map (λ t. instance (renewing types) (type_tree bank.old t.0)) ids.now))) }
{
    let renewed = all_renewed(alloc, bank, ids, types)?;
    let id = put_constant(bank, number, renewed.as_slice())?;
    Ok(id)
}

// Puts a visit of each term behind the other tasks, the last one first.
fn push_visits(ids: &[TermId], depth: u64, tasks: &mut Vec<Task>) -> Result<(), Memory>
    ensures { OnOk result (tasks.new.items ≡ tasks.old.items ++ reverse (visits_at depth ids.now)) }
{
    for done in 0..ids.len() {
        let at = ids.len() - 1 - done;
        tasks.push(Task::Visit(ids[at], depth))?;
    }
    Ok(())
}

// The atom with new type variables.
fn renewed_atom(
    alloc: Global,
    bank: &mut Bank,
    id: TermId,
    types: Renewal,
) -> Result<TermId, Memory>
    requires { IsAtomNode (term_at bank.old id.0) }
    ensures kept { Extends bank.old bank.new }
    ensures within { IfOk result (λ new. id.0 < length bank.old.terms → new.0 < length bank.new.terms) }
    ensures renewed { IfOk result (λ new. IsRenewedAtom (renewing types) (tree bank.old id.0) (tree bank.new new.0)) }
{
    match bank.term_node(id) {
        TermNode::Const(number, ids) => {
            if ids.is_empty() {
                return Ok(id);
            }
            if types.count == 0 {
                return Ok(id);
            }
            let old: Vec<TypeId> = Vec::from_slice(alloc, ids)?;
            let new = put_renewed(alloc, bank, number, old.as_slice(), types)?;
            Ok(new)
        }
        TermNode::Int(_) => Ok(id),
        TermNode::Text(_) => Ok(id),
        TermNode::Eigen(_) => Ok(id),
        TermNode::Logic { .. } => Ok(id),
        TermNode::Param(_, _) => Ok(id),
        _ => unreachable!(),
    }
}

fn visit(
    alloc: Global,
    bank: &mut Bank,
    scopes: &Scopes,
    values: Values,
    id: TermId,
    depth: u64,
    tasks: &mut Vec<Task>,
    made: &mut Vec<TermId>,
) -> Result<(), Memory>
    requires { IsFed bank.old (Task.Visit id depth ∷ reverse tasks.old.items) (length made.old.items) }
    ensures kept { Extends bank.old bank.new }
    ensures fed { OnOk result (GoesFed bank.old bank.new (Task.Visit id depth) tasks.old.items tasks.new.items (length made.new.items)) }
    ensures moves { OnOk result ((nb nv : ℕ) → (vs : List TermId) → IsScope scopes.now nb nv values.scope vs → (σ : ℕ → Term) → StandFor bank.old vs σ →
        KeepsInstancing (length vs) σ (renewing values.types) bank.old bank.new (tasks.old.items ++ Task.Visit id depth ∷ []) tasks.new.items made.old.items made.new.items) }
{
    if values.types.count == 0 {
        if bank.is_known_below(id, depth) {
            made.push(id)?;
            return Ok(());
        }
    }
    match bank.term_node(id) {
        TermNode::Index(at) => {
            let new = value_of(scopes, values, id, at, depth);
            made.push(new)?;
            Ok(())
        }
        TermNode::Abs(body) => {
            let inner = depth + 1;
            tasks.push(Task::Build(id))?;
            tasks.push(Task::Visit(body, inner))?;
            Ok(())
        }
        TermNode::App(head, args) => {
            tasks.push(Task::Build(id))?;
            push_visits(args, depth, tasks)?;
            tasks.push(Task::Visit(head, depth))?;
            Ok(())
        }
        _ => {
            let new = renewed_atom(alloc, bank, id, values.types)?;
            made.push(new)?;
            Ok(())
        }
    }
}

// The last so many terms, in order.
fn take_last(alloc: Global, made: &mut Vec<TermId>, count: usize) -> Result<Vec<TermId>, Memory>
    requires { count ≤ length made.old.items }
    ensures taken { IfOk result (λ parts. made.old.items ≡ made.new.items ++ parts.items) }
    ensures many { IfOk result (λ parts. length parts.items ≡ count) }
{
    let mut parts = Vec::new(alloc);
    for _ in 0..count {
        let Some(part) = made.pop() else {
            unreachable!()
        };
        parts.push(part)?;
    }
    parts.reverse();
    Ok(parts)
}

// Whether the terms have the same numbers.
fn are_same(ones: &[TermId], others: &[TermId]) -> bool
    ensures { result ≡ true → ones.now ≡ others.now }
{
    if ones.len() != others.len() {
        return false;
    }
    for place in 0..ones.len() {
        if ones[place].0 != others[place].0 {
            return false;
        }
    }
    true
}

// Whether the head and the arguments are those that there were.
fn is_unchanged(head: TermId, old: TermId, args: &[TermId], parts: &[TermId]) -> bool
    ensures head { result ≡ true → head.0 ≡ old.0 }
    ensures args { result ≡ true → args.now ≡ parts.now }
{
    if head.0 != old.0 {
        return false;
    }
    are_same(args, parts)
}

fn build(alloc: Global, bank: &mut Bank, id: TermId, made: &mut Vec<TermId>) -> Result<(), Memory>
    requires { IsReady bank.old id.0 (length made.old.items) }
    ensures kept { Extends bank.old bank.new }
    ensures left { OnOk result (length made.new.items ≡ length made.old.items - parts_of (term_at bank.old id.0) + 1) }
    ensures moves { OnOk result ((n : ℕ) → (σ : ℕ → Term) → (θ : ℕ → Ty) → (tasks : List Task) → KeepsInstancing n σ θ bank.old bank.new (tasks ++ Task.Build id ∷ []) tasks made.old.items made.new.items) }
{
    match bank.term_node(id) {
        TermNode::Abs(old) => {
            let Some(body) = made.pop() else {
                unreachable!()
            };
            if body.0 == old.0 {
                made.push(id)?;
                return Ok(());
            }
            let put = put_abstraction(bank, body)?;
            made.push(put)?;
            Ok(())
        }
        TermNode::App(old, parts) => {
            let args = take_last(alloc, made, parts.len())?;
            let Some(head) = made.pop() else {
                unreachable!()
            };
            if is_unchanged(head, old, args.as_slice(), parts) {
                made.push(id)?;
                return Ok(());
            }
            let put = put_application(bank, head, args.as_slice())?;
            made.push(put)?;
            Ok(())
        }
        _ => unreachable!(),
    }
}

fn step(
    alloc: Global,
    bank: &mut Bank,
    scopes: &Scopes,
    values: Values,
    task: Task,
    tasks: &mut Vec<Task>,
    made: &mut Vec<TermId>,
) -> Result<(), Memory>
    requires { IsFed bank.old (task ∷ reverse tasks.old.items) (length made.old.items) }
    ensures kept { Extends bank.old bank.new }
    ensures fed { OnOk result (GoesFed bank.old bank.new task tasks.old.items tasks.new.items (length made.new.items)) }
    ensures moves { OnOk result ((nb nv : ℕ) → (vs : List TermId) → IsScope scopes.now nb nv values.scope vs → (σ : ℕ → Term) → StandFor bank.old vs σ →
        KeepsInstancing (length vs) σ (renewing values.types) bank.old bank.new (tasks.old.items ++ task ∷ []) tasks.new.items made.old.items made.new.items) }
{
    match task {
        Task::Visit(id, depth) => {
            visit(alloc, bank, scopes, values, id, depth, tasks, made)?;
            Ok(())
        }
        Task::Build(id) => {
            build(alloc, bank, id, made)?;
            Ok(())
        }
    }
}

/// The term with values for its loose indices. What has none is shared.
pub(crate) fn instance(
    alloc: Global,
    bank: &mut Bank,
    scopes: &Scopes,
    values: Values,
    term: TermId,
) -> Result<TermId, Memory>
    ensures kept { Extends bank.old bank.new }
    ensures within { IfOk result (λ id. id.0 < length bank.new.terms) }
    ensures tree { IfOk result (λ id. (nb nv : ℕ) → (vs : List TermId) → IsScope scopes.now nb nv values.scope vs → AreValues bank.old vs → (ar : ℕ → ℕ) → (k : ℕ) → IsWritten ar k (length vs) (tree bank.old term.0) →
        tree bank.new id.0 ≡ instantiate (values_of bank.old vs) (instance_term (renewing values.types) (tree bank.old term.0))) }
{
    let root = bank.inside(term)?;
    // The numbers of a bank are few: so is how deep a term stands.
    let _count = bank.term_count();
    let mut tasks = Vec::new(alloc);
    let mut made = Vec::new(alloc);
    tasks.push(Task::Visit(root, 0))?;
    'tasks: loop {
        let Some(task) = tasks.pop() else {
            let Some(last) = made.pop() else {
                unreachable!()
            };
            let new = bank.inside(last)?;
            return Ok(new);
        };
        step(alloc, bank, scopes, values, task, &mut tasks, &mut made)?;
    }
}
