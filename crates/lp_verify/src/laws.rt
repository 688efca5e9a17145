//! Where code denotes clauses.
ghost use Rattle.std.specs.Prelude.{◌≡◌, List, is_some, is_none};
ghost use Rattle.lp_code.specs.declared.record.Record.{Record as Rec};
ghost use Rattle.lp_code.specs.Symbolic.{Tables};
ghost use Rattle.lp_code.specs.Denote.{denote, first_fault};

/// Code denotes clauses over its tables exactly where no rule is broken.
pub fn denotes_exactly()
    ensures { (t : Tables) (rs : List Rec) → is_some (denote t rs) ≡ is_none (first_fault t rs) }
{}
