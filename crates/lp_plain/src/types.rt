// Types with new type variables.
ghost use Rattle.std.specs.Prelude.{◌≡◌, ◌<◌, length, map, All, IfOk};
ghost use Rattle.lp_calculus.specs.Types.{instance};
ghost use Rattle.lp_term.specs.Nodes.{Extends, type_tree};
ghost use Rattle.lp_plain.specs.Renewal.{new_number, renewing};

use lp_base::Memory;
use lp_term::{Bank, Changed, Mapping, TermChange, TypeChange, TypeId};
use std::alloc::Global;

/// The numbers that the type variables of a clause get: there are so many variables, and the numbers run from the first one on.
#[derive(Clone, Copy)]
pub(crate) struct Renewal {
    pub(crate) count: u64,
    pub(crate) first: u64,
}

impl Renewal {
    /// The number that a type variable gets.
    pub(crate) fn of(self, variable: u64) -> u64
        ensures { result ≡ new_number self variable }
    {
        if variable < self.count {
            self.first.saturating_add(variable)
        } else {
            variable
        }
    }
}

impl Mapping for Renewal {
    ghost use Rattle.lp_plain.specs.Renewal.{renewing_told};

    ghost told = { λ r. renewing_told r };

    fn kind(&self, kind: u32) -> u32 {
        kind
    }

    fn constant(&self, constant: u32) -> u32 {
        constant
    }

    fn type_variable(&self, variable: u64) -> TypeChange {
        TypeChange::Var(self.of(variable))
    }

    fn logic_variable(&self, _variable: u64) -> TermChange {
        TermChange::Stays
    }
}

/// The type with new type variables.
pub(crate) fn renewed(
    alloc: Global,
    bank: &mut Bank,
    id: TypeId,
    by: Renewal,
) -> Result<TypeId, Memory>
    ensures kept { Extends bank.old bank.new }
    ensures within { IfOk result (λ new. new.0 < length bank.new.types) }
    ensures tree { IfOk result (λ new. type_tree bank.new new.0 ≡ instance (renewing by) (type_tree bank.old id.0)) }
{
    if by.count == 0 {
        return bank.inside_type(id);
    }
    let mut changed = Changed::new(alloc);
    changed.change_type(alloc, &by, id, bank)
}

/// The types with new type variables.
pub(crate) fn all_renewed(
    alloc: Global,
    bank: &mut Bank,
    ids: &[TypeId],
    by: Renewal,
) -> Result<Vec<TypeId>, Memory>
    ensures kept { Extends bank.old bank.new }
    ensures within { IfOk result (λ new. All (λ t. t.0 < length bank.new.types) new.items) }
    ensures trees { IfOk result (λ new. All (λ t. t.0 < length bank.old.types) ids.now → map (λ t. type_tree bank.new t.0) new.items ≡ map (λ t. instance (renewing by) (type_tree bank.old t.0)) ids.now) }
{
    let mut new = Vec::new(alloc);
    'ids: for id in ids.iter().copied() {
        let made = renewed(alloc, bank, id, by)?;
        new.push(made)?;
    }
    Ok(new)
}
