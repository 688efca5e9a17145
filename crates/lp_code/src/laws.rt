//! What code denotes, on worked records.
ghost use Rattle.lp_code.specs.Worked.{IsWorked};

/// Records of one predicate on one constant: a fact and a clause with a negated block denote themselves, and broken records have these first faults.
pub fn worked_records()
    ensures { IsWorked }
{}
