// The units that are left to a unification.
ghost use Rattle.std.specs.Prelude.{◌≡◌, ◌<◌, ◌+◌, suc, OnOk, IfErr};
ghost use Rattle.lp_pattern.specs.declared.fault.PatternRefusal.TheVariants.{Deep};

use crate::fault::PatternRefusal;

// Takes so many units.
pub(crate) fn spend_many(units: &mut u64, count: u64) -> Result<(), PatternRefusal>
    ensures spent { OnOk result (units.old ≡ units.new + count) }
    ensures refused { IfErr result (λ r. (r ≡ Deep) × (units.old < count)) }
{
    if *units < count {
        return Err(PatternRefusal::Deep);
    }
    *units -= count;
    Ok(())
}

// Takes a unit.
pub(crate) fn spend(units: &mut u64) -> Result<(), PatternRefusal>
    ensures spent { OnOk result (units.old ≡ suc units.new) }
    ensures refused { IfErr result (λ r. (r ≡ Deep) × (units.old ≡ 0)) }
{
    if *units == 0 {
        return Err(PatternRefusal::Deep);
    }
    *units -= 1;
    Ok(())
}
