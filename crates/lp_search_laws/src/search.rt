// The plain search of hereditary Harrop goals.

ghost use Rattle.std.specs.Prelude.{◌≡◌, ◌≤◌, ℕ, List, Some};
ghost use Rattle.lp_model.specs.Branch.{Answer, Task};
ghost use Rattle.lp_model.specs.declared.ending.Ending.{Ending};
ghost use Rattle.lp_model.specs.declared.ending.Ending.TheVariants.{NoMore};
ghost use Rattle.lp_model.specs.Flat.{Clause};
ghost use Rattle.lp_model.specs.Search.{ComesTo, look};
ghost use Rattle.lp_model.specs.Skeleton.{State, Told, run, starts_within};

/// A run that is over is the same with more steps for each look, more moves in each search of a negated goal, and more moves.
pub fn more_steps_change_nothing()
    ensures { (units n m : ℕ) → n ≤ m → (P : List Clause) → (j k i l : ℕ) → j ≤ k → i ≤ l → (s : State Task) → (e : Ending) → (run (look units n P) j i s).ending ≡ Some e → run (look units m P) k l s ≡ run (look units n P) j i s }
{}

/// A search comes to at most one value.
pub fn searches_come_to_one_value()
    ensures { (P : List Clause) → (s : State Task) → (t u : Told Answer) → ComesTo P s t → ComesTo P s u → t ≡ u }
{}

/// A run that ends since it has no more is the same within greater limits: more units for each unification, more goals that may be taken apart in a row, and
/// more steps.
pub fn greater_limits_change_nothing()
    ensures { (units more : ℕ) → units ≤ more → (n : ℕ) (P : List Clause) (j m : ℕ) (t : Task) (rows more_rows steps more_steps answers : ℕ) → rows ≤ more_rows → steps ≤ more_steps → (run (look units n P) j m (starts_within rows t steps answers)).ending ≡ Some NoMore → run (look more n P) j m (starts_within more_rows t more_steps answers) ≡ run (look units n P) j m (starts_within rows t steps answers) }
{}
