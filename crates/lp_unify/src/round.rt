// The units that are left to a unification, and whether a variable was bound.
ghost use Rattle.std.specs.Prelude.{◌≡◌, ℕ, suc, ◌≤◌, OnOk, IfErr};
ghost use Rattle.lp_unify.specs.declared.fault.PatternRefusal.TheVariants.{Deep};

use crate::fault::PatternRefusal;

/// One unification: the type equations and pairs that are given to it one after the other, and the pairs that wait.
#[derive(Clone, Copy)]
pub struct Round {
    // The units that are left.
    pub(crate) units: u64,
    // A variable was bound since the waiting pairs were last taken up.
    pub(crate) is_bound: bool,
}

impl Round {
    /// A unification that may take as many units.
    pub fn start(limit: u64) -> Round {
        Round {
            units: limit,
            is_bound: false,
        }
    }

    /// Takes the unit of a pair that the caller takes apart.
    ///
    /// # Errors
    /// `Deep` where no unit is left.
    pub fn pair(&mut self) -> Result<(), PatternRefusal> {
        spend(&mut self.units)
    }

    /// A variable that stands nowhere else becomes a value of so many nodes: what its pair and the scan of the value take.
    ///
    /// # Errors
    /// `Deep` where the units do not suffice.
    pub fn name(&mut self, nodes: u64) -> Result<(), PatternRefusal> {
        spend(&mut self.units)?;
        if nodes > self.units {
            return Err(PatternRefusal::Deep);
        }
        self.units -= nodes;
        self.is_bound = true;
        Ok(())
    }
}

// Takes a unit.
pub(crate) fn spend(units: &mut u64) -> Result<(), PatternRefusal>
    ensures taken { OnOk result (units.old ≡ suc units.new) }
    ensures spent { IfErr result (λ e. (e ≡ Deep) × (units.old ≡ 0)) }
    ensures fewer { units.new ≤ units.old }
{
    if *units == 0 {
        return Err(PatternRefusal::Deep);
    }
    *units -= 1;
    Ok(())
}
