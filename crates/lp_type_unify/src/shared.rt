//! Unification of pairs of types without a limit, in which shared nodes are taken once: it stays polynomial in the number of nodes.
ghost use Rattle.std.specs.Prelude.{◌≡◌, ℕ, ◌<◌, length, List, [], ◌∷◌, ◌++◌, IfOk, OnOk, All, None, nat_eq, map, reverse, MatchOption, IfSome};
ghost use Rattle.indexmap.specs.IndexMap.{get};
ghost use Rattle.lp_calculus.specs.Types.{Ty, instance, var};
ghost use Rattle.lp_term.specs.Nodes.{type_tree};
ghost use Rattle.lp_type_laws.specs.Equations.{IsMostGeneral, HaveNoSolution};
ghost use Rattle.lp_type_unify.specs.declared.shared.Task.{Task};
ghost use Rattle.lp_type_unify.specs.Reading.{reads, AreKept, IsPair, IsOlder, read_pairs};
ghost use Rattle.lp_type_unify.specs.Looking.{IsMade};
ghost use Rattle.lp_type_unify.specs.Sharing.{AreJoined, IsLower, IsTask, Apart, BoundApart, State, Taken};

use crate::bindings::{Bindings, Pair};
use crate::joined::Joined;
use crate::looking::{Choice, choose, split};
use crate::reaching::occurs_in;
use lp_base::Memory;
use lp_term::{Bank, TypeId};
use std::alloc::Global;

// What is left to do: to make a pair one, or to note that it is one.
#[derive(Clone, Copy)]
pub(crate) enum Task {
    Take(Pair),
    Join(Pair),
}

// Binds a variable to a type in which it does not occur.
fn bind_apart(
    alloc: Global,
    bank: &Bank,
    bindings: &mut Bindings,
    variable: u64,
    to: TypeId,
) -> Result<bool, Memory>
    requires kept { AreKept bank.now bindings.old.made }
    requires known { to.0 < length bank.now.types }
    requires unbound { get nat_eq bindings.old.made variable ≡ None }
    requires older { IsOlder variable (type_tree bank.now to.0) }
    ensures { IfOk result (λ ok. BoundApart ok variable (instance (reads bank.now bindings.old.made) (type_tree bank.now to.0))
        (reads bank.now bindings.old.made) (reads bank.now bindings.new.made) (AreKept bank.now bindings.new.made)) }
{
    if occurs_in(alloc, bank, bindings, variable, to)? {
        return Ok(false);
    }
    bindings.bind(variable, to)?;
    Ok(true)
}

// Puts pairs on the list of tasks.
fn push_takes(pairs: &[Pair], todo: &mut Vec<Task>) -> Result<(), Memory>
    ensures { OnOk result (todo.new.items ≡ todo.old.items ++ map Task.Take pairs.now) }
{
    for pair in pairs.iter().copied() {
        todo.push(Task::Take(pair))?;
    }
    Ok(())
}

// Takes apart two types that are no variables, if they are not joined. Once their parts are one, so are they.
fn take_apart(
    alloc: Global,
    bank: &Bank,
    joined: &Joined,
    one: TypeId,
    other: TypeId,
    todo: &mut Vec<Task>,
) -> Result<bool, Memory>
    requires one { one.0 < length bank.now.types }
    requires other { other.0 < length bank.now.types }
    requires made_one { IsMade (type_tree bank.now one.0) }
    requires made_other { IsMade (type_tree bank.now other.0) }
    requires joined { (θ : ℕ → Ty) × AreJoined (type_tree bank.now) (length bank.now.types) θ (get nat_eq joined.now.older) }
    requires todos { All (IsTask (type_tree bank.now) (length bank.now.types)) todo.old.items }
    ensures apart { IfOk result (λ ok. (θ : ℕ → Ty) → AreJoined (type_tree bank.now) (length bank.now.types) θ (get nat_eq joined.now.older) →
        Apart ok (type_tree bank.now) θ one other todo.old.items todo.new.items) }
    ensures todos { OnOk result (All (IsTask (type_tree bank.now) (length bank.now.types)) todo.new.items) }
{
    let left = joined.root(one);
    let right = joined.root(other);
    if left.0 == right.0 {
        return Ok(true);
    }
    let mut parts = Vec::new(alloc);
    if !split(bank, left, right, &mut parts)? {
        return Ok(false);
    }
    todo.push(Task::Join(Pair { left, right }))?;
    push_takes(parts.as_slice(), todo)?;
    Ok(true)
}

// Takes a pair.
fn take(
    alloc: Global,
    bank: &Bank,
    bindings: &mut Bindings,
    joined: &Joined,
    pair: Pair,
    todo: &mut Vec<Task>,
) -> Result<bool, Memory>
    requires known { IsPair (length bank.now.types) pair }
    requires state { State bank.now bindings.old.made (get nat_eq joined.now.older) (todo.old.items ++ Task.Take pair ∷ []) }
    ensures { IfOk result (λ ok. Taken ok bank.now bindings.old.made bindings.new.made (get nat_eq joined.now.older) pair todo.old.items todo.new.items) }
{
    let one = bindings.resolve(bank, pair.left);
    let other = bindings.resolve(bank, pair.right);
    match choose(bank, one, other) {
        Choice::Drop => Ok(true),
        Choice::Bind(variable, to) => {
            let ok = bind_apart(alloc, bank, bindings, variable, to)?;
            Ok(ok)
        }
        Choice::Split => {
            let ok = take_apart(alloc, bank, joined, one, other, todo)?;
            Ok(ok)
        }
    }
}

// Puts pairs on the list of tasks, so that the first one is taken first.
fn push_all(pairs: &[Pair], todo: &mut Vec<Task>) -> Result<(), Memory>
    ensures { OnOk result (todo.new.items ≡ todo.old.items ++ map Task.Take (reverse pairs.now)) }
{
    for pair in pairs.iter().rev().copied() {
        todo.push(Task::Take(pair))?;
    }
    Ok(())
}

/// The most general types for the type variables that make the two types of each pair one, where there are any. Of two
/// variables the younger is bound.
pub fn unify(alloc: Global, bank: &Bank, pairs: &[Pair]) -> Result<Option<Bindings>, Memory>
    requires { All (IsPair (length bank.now.types)) pairs.now }
    ensures solved { IfOk result (λ found. MatchOption found
        (HaveNoSolution (read_pairs (type_tree bank.now) var pairs.now))
        (λ bindings. IsMostGeneral (read_pairs (type_tree bank.now) var pairs.now) (reads bank.now bindings.made))) }
    ensures kept { IfOk result (λ found. IfSome found (λ bindings. AreKept bank.now bindings.made)) }
{
    // From the first pair on: parts of a text come before the whole, and so chains of variables stay short.
    let mut todo = Vec::new(alloc);
    push_all(pairs, &mut todo)?;
    let mut bindings = Bindings::new(alloc);
    let mut joined = Joined::new(alloc);
    'tasks: while let Some(task) = todo.pop() {
        match task {
            Task::Take(pair) => {
                if !take(alloc, bank, &mut bindings, &joined, pair, &mut todo)? {
                    return Ok(None);
                }
            }
            Task::Join(pair) => joined.join(pair)?,
        }
    }
    Ok(Some(bindings))
}
