//! Unification of pairs of types within a limit of units: one for each pair that is taken, one for each node that the occurs check visits.
ghost use Rattle.std.specs.Prelude.{◌≡◌, ℕ, ◌+◌, ◌<◌, length, List, [], ◌∷◌, ◌++◌, IfOk, OnOk, All, None, nat_eq, IfErr};
ghost use Rattle.indexmap.specs.IndexMap.{get};
ghost use Rattle.lp_calculus.specs.Types.{Ty, instance, var};
ghost use Rattle.lp_term.specs.Nodes.{type_tree};
ghost use Rattle.lp_type_laws.specs.Equations.{IsMostGeneralFrom, HaveNoSolutionFrom};
ghost use Rattle.lp_type_laws.specs.Units.{solve_within};
ghost use Rattle.lp_type_unify.specs.Reading.{reads, AreKept, IsPair, IsOlder, read_pairs, read_pair};
ghost use Rattle.lp_type_unify.specs.declared.counted.EquationRefusal.TheVariants.{Memory as NoMemory};
ghost use Rattle.lp_type_unify.specs.Counting.{Seen, BoundWithin, Stepped, HasEnded, IsRefused, IfFails};

use crate::bindings::{Bindings, Pair};
use crate::looking::{Choice, choose, look, split};
use lp_base::Memory;
use lp_term::{Bank, TypeId};
use std::alloc::{AllocError, Global};

// Whether a variable was found in a type, and the units that are left.
#[derive(Clone, Copy)]
pub(crate) enum Sight {
    Found(u64),
    Absent(u64),
    Spent,
}

// What a turn came to, and the units that are left.
#[derive(Clone, Copy)]
pub(crate) enum Taken {
    Goes(u64),
    Clashes,
    Spent,
}

/// Why pairs of types have no solution: there is none, or looking for it takes more units than are left.
#[derive(Clone, Copy, Debug, PartialEq, Eq)]
pub enum EquationRefusal {
    Fails,
    Deep,
    Memory,
}

impl From<Memory> for EquationRefusal {
    ghost from_gives = { λ _ e. e ≡ NoMemory };

    fn from(_: Memory) -> EquationRefusal {
        EquationRefusal::Memory
    }
}

impl From<AllocError> for EquationRefusal {
    ghost from_gives = { λ _ e. e ≡ NoMemory };

    fn from(_: AllocError) -> EquationRefusal {
        EquationRefusal::Memory
    }
}

// Looks for the variable in what the type is under the bindings.
fn occurs_within(
    alloc: Global,
    bank: &Bank,
    bindings: &Bindings,
    variable: u64,
    id: TypeId,
    left: u64,
) -> Result<Sight, Memory>
    requires kept { AreKept bank.now bindings.now.made }
    requires known { id.0 < length bank.now.types }
    ensures { IfOk result (λ sight. Seen sight variable (instance (reads bank.now bindings.now.made) (type_tree bank.now id.0)) left) }
{
    let mut stack = Vec::new(alloc);
    stack.push(id)?;
    let mut rest = left;
    'types: while let Some(next) = stack.pop() {
        if rest == 0 {
            return Ok(Sight::Spent);
        }
        rest -= 1;
        let top = bindings.resolve(bank, next);
        if look(bank, variable, top, &mut stack)? {
            return Ok(Sight::Found(rest));
        }
    }
    Ok(Sight::Absent(rest))
}

// Binds a variable to a type in which it does not occur.
fn bind_within(
    alloc: Global,
    bank: &Bank,
    bindings: &mut Bindings,
    variable: u64,
    to: TypeId,
    left: u64,
) -> Result<Taken, Memory>
    requires kept { AreKept bank.now bindings.old.made }
    requires known { to.0 < length bank.now.types }
    requires unbound { get nat_eq bindings.old.made variable ≡ None }
    requires older { IsOlder variable (type_tree bank.now to.0) }
    ensures { IfOk result (λ step. BoundWithin step bank.now variable (instance (reads bank.now bindings.old.made) (type_tree bank.now to.0)) left
        (reads bank.now bindings.old.made) (reads bank.now bindings.new.made) (AreKept bank.now bindings.new.made)) }
{
    match occurs_within(alloc, bank, bindings, variable, to, left)? {
        Sight::Found(_) => Ok(Taken::Clashes),
        Sight::Spent => Ok(Taken::Spent),
        Sight::Absent(rest) => {
            bindings.bind(variable, to)?;
            Ok(Taken::Goes(rest))
        }
    }
}

// Takes a pair, which costs a unit.
fn step(
    alloc: Global,
    bank: &Bank,
    bindings: &mut Bindings,
    pair: Pair,
    todo: &mut Vec<Pair>,
    left: u64,
) -> Result<Taken, Memory>
    requires kept { AreKept bank.now bindings.old.made }
    requires known { IsPair (length bank.now.types) pair }
    requires todos { All (IsPair (length bank.now.types)) todo.old.items }
    ensures stepped { IfOk result (λ step. Stepped step (type_tree bank.now) (reads bank.now bindings.old.made) (reads bank.now bindings.new.made)
        pair todo.old.items todo.new.items left (AreKept bank.now bindings.new.made)) }
    ensures todos { OnOk result (All (IsPair (length bank.now.types)) todo.new.items) }
{
    if left == 0 {
        return Ok(Taken::Spent);
    }
    let one = bindings.resolve(bank, pair.left);
    let other = bindings.resolve(bank, pair.right);
    match choose(bank, one, other) {
        Choice::Drop => Ok(Taken::Goes(left - 1)),
        Choice::Bind(variable, to) => {
            let step = bind_within(alloc, bank, bindings, variable, to, left - 1)?;
            Ok(step)
        }
        Choice::Split => {
            if split(bank, one, other, todo)? {
                return Ok(Taken::Goes(left - 1));
            }
            Ok(Taken::Clashes)
        }
    }
}

/// Goes on to make the two types of each pair one, the last pair first, with at most so many units, and gives the units that are
/// left. A pair of types that is taken is a unit, and so is a node that the occurs check visits. After a refusal the bindings
/// are of no use.
pub fn unify_within(
    alloc: Global,
    bank: &Bank,
    bindings: &mut Bindings,
    pairs: &[Pair],
    limit: u64,
) -> Result<u64, EquationRefusal>
    requires kept { AreKept bank.now bindings.old.made }
    requires known { All (IsPair (length bank.now.types)) pairs.now }
    ensures solved { IfOk result (λ left. HasEnded (solve_within limit (read_pairs (type_tree bank.now) (reads bank.now bindings.old.made) pairs.now) (reads bank.now bindings.old.made))
        limit left (reads bank.now bindings.new.made)) }
    ensures refused { IfErr result (λ r. IsRefused r (solve_within limit (read_pairs (type_tree bank.now) (reads bank.now bindings.old.made) pairs.now) (reads bank.now bindings.old.made))) }
    ensures general { OnOk result (IsMostGeneralFrom (reads bank.now bindings.old.made) (read_pairs (type_tree bank.now) var pairs.now) (reads bank.now bindings.new.made)) }
    ensures none { IfErr result (λ r. IfFails r (HaveNoSolutionFrom (reads bank.now bindings.old.made) (read_pairs (type_tree bank.now) var pairs.now))) }
    ensures kept { OnOk result (AreKept bank.now bindings.new.made) }
{
    let mut todo = Vec::from_slice(alloc, pairs)?;
    let mut left = limit;
    'pairs: while let Some(pair) = todo.pop() {
        match step(alloc, bank, bindings, pair, &mut todo, left)? {
            Taken::Goes(rest) => left = rest,
            Taken::Clashes => return Err(EquationRefusal::Fails),
            Taken::Spent => return Err(EquationRefusal::Deep),
        }
    }
    Ok(left)
}
