//! Whether a variable occurs in a type, with a look at each shared node once.
ghost use Rattle.std.specs.Prelude.{◌≡◌, ℕ, ◌<◌, length, IfOk, OnOk, OnErr, nat_eq, not, if◌then◌else◌, true};
ghost use Rattle.indexmap.specs.IndexSet.{contains};
ghost use Rattle.lp_calculus.specs.Types.{instance};
ghost use Rattle.lp_term.specs.Nodes.{type_tree};
ghost use Rattle.lp_type_laws.specs.Equations.{occurs};
ghost use Rattle.lp_type_unify.specs.Reading.{reads, AreKept};

use crate::bindings::Bindings;
use crate::looking::look;
use indexmap::IndexSet;
use lp_base::Memory;
use lp_term::{Bank, TypeId};
use std::alloc::Global;

// Marks a node. Says whether it had no mark.
fn mark(seen: &mut IndexSet<usize>, node: usize) -> Result<bool, Memory>
    ensures new { IfOk result (λ new. new ≡ not (contains nat_eq seen.old node)) }
    ensures marked { OnOk result ((i : ℕ) → contains nat_eq seen.new i ≡ (if nat_eq node i then true else contains nat_eq seen.old i)) }
{
    let new = seen.insert(node)?;
    Ok(new)
}

// Says whether the variable occurs in what the type is under the bindings.
pub(crate) fn occurs_in(
    alloc: Global,
    bank: &Bank,
    bindings: &Bindings,
    variable: u64,
    id: TypeId,
) -> Result<bool, Memory>
    requires kept { AreKept bank.now bindings.now.made }
    requires known { id.0 < length bank.now.types }
    ensures { IfOk result (λ found. found ≡ occurs variable (instance (reads bank.now bindings.now.made) (type_tree bank.now id.0))) }
{
    let mut stack = Vec::new(alloc);
    stack.push(id)?;
    let mut seen = IndexSet::new(alloc);
    'types: while let Some(next) = stack.pop() {
        let top = bindings.resolve(bank, next);
        if !mark(&mut seen, top.0)? {
            continue;
        }
        if look(bank, variable, top, &mut stack)? {
            return Ok(true);
        }
    }
    Ok(false)
}
