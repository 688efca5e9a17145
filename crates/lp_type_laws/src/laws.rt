ghost use Rattle.std.specs.Prelude.{◌≡◌, ◌≢◌, ◌<◌, ◌≤◌, ℕ, List, map};
ghost use Rattle.lp_calculus.specs.Types.{Ty, var};
ghost use Rattle.lp_type_laws.specs.Equations.{Equation, IsMostGeneral, IsMostGeneralFrom, HaveNoSolution, put_equation};
ghost use Rattle.lp_type_laws.specs.Solving.{solve, solved, fails, unfinished};
ghost use Rattle.lp_type_laws.specs.Units.{units, solve_within, spent, ended};

/// What solving gives is most general (Robinson 1965).
pub fn solving_is_most_general()
    ensures { (n : ℕ) → (es : List Equation) → (θ : ℕ → Ty) → solve n es var ≡ solved θ → IsMostGeneral es θ }
{}

/// So is what solving gives that goes on from types for the variables.
pub fn going_on_is_most_general()
    ensures { (n : ℕ) → (es : List Equation) → (θ ι : ℕ → Ty) → solve n (map (put_equation θ) es) θ ≡ solved ι → IsMostGeneralFrom θ es ι }
{}

/// Equations on which solving fails have no solution.
pub fn failing_have_no_solution()
    ensures { (n : ℕ) → (es : List Equation) → (θ : ℕ → Ty) → solve n es θ ≡ fails → HaveNoSolution es }
{}

/// Solving ends.
pub fn solving_ends()
    ensures { (es : List Equation) → (θ : ℕ → Ty) → (n : ℕ) × (solve n es θ ≢ unfinished) }
{}

/// What solving within a limit comes to, it comes to without one.
pub fn a_limit_changes_no_outcome()
    ensures { (limit used : ℕ) → (es : List Equation) → (θ ι : ℕ → Ty) → solve_within limit es θ ≡ ended used (solved ι) → (n : ℕ) × (solve n es θ ≡ solved ι) × (used ≡ units n es θ) × (used ≤ limit) }
{}

/// The limit is passed exactly where some number of equations taken costs more units.
pub fn a_limit_is_passed_by_units()
    ensures { (limit n : ℕ) → (es : List Equation) → (θ : ℕ → Ty) → limit < units n es θ → solve_within limit es θ ≡ spent }
{}
