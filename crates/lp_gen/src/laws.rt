//! Laws of what code takes.
ghost use Rattle.std.specs.Prelude.{◌≡◌, ℕ, List};
ghost use Rattle.lp_calculus.specs.Types.{Ty};
ghost use Rattle.lp_model.specs.Flat.{Goals};
ghost use Rattle.lp_gen.specs.Registers.{goals_take};
ghost use Rattle.lp_gen.specs.Worked.{AreWorked};
ghost use Rattle.lp_gen.specs.inner.Alike.{IsAlike};
ghost use Rattle.lp_gen.specs.Steps.{Around};

/// The clause and the query of the profile's worked image take what their bytes show.
pub fn worked_records_take()
    ensures { (constants : ℕ → List Ty → Ty) → AreWorked constants }
{}

/// What goals take does not depend on the registers in which the variables around them stand.
pub fn goals_take_alike()
    ensures { (constants : ℕ → List Ty → Ty) (type_vars : ℕ) (a b : Around) (gs : Goals) → IsAlike a b → goals_take constants type_vars a gs ≡ goals_take constants type_vars b gs }
{}
