//! Laws of the counts of head reduction and of leftmost reduction.
ghost use Rattle.std.specs.Prelude.{◌≡◌, ℕ, suc, ◌≤◌, IsSome};
ghost use Rattle.lp_calculus.specs.Term.{Term};
ghost use Rattle.lp_calculus.specs.Convert.{BetaStep, Reduces, head_step, leftmost_step, steps};
ghost use Rattle.lp_calculus.specs.Normal.{HeadNormalisesTo, NormalisesTo};

/// A beta step anywhere in a term makes its head count no greater, and the head-normal form that is reached then is a reduct of the one before.
pub fn head_count_falls()
    ensures { (n : ℕ) (t s z : Term) → BetaStep t s → HeadNormalisesTo n t z → (m : ℕ) × (m ≤ n) × ((y : Term) × HeadNormalisesTo m s y × Reduces z y) }
{}

/// A beta step anywhere in a term makes its full count no greater, and the beta-normal form is the same.
pub fn full_count_falls()
    ensures { (n : ℕ) (t s z : Term) → BetaStep t s → NormalisesTo n t z → (m : ℕ) × (m ≤ n) × NormalisesTo m s z }
{}

/// A term has at most one head count and one head-normal form that head reduction reaches.
pub fn head_counts_are_one()
    ensures { (n m : ℕ) (t s r : Term) → HeadNormalisesTo n t s → HeadNormalisesTo m t r → (n ≡ m) × (s ≡ r) }
{}

/// A term has at most one full count and one beta-normal form.
pub fn full_counts_are_one()
    ensures { (n m : ℕ) (t s r : Term) → NormalisesTo n t s → NormalisesTo m t r → (n ≡ m) × (s ≡ r) }
{}

/// Where leftmost reduction ends within a limit, it takes no more steps than the limit.
pub fn full_counts_are_whole()
    ensures { (n m : ℕ) (t s : Term) → NormalisesTo n t s → n ≤ m → IsSome (steps leftmost_step (suc m) t) → ⊥ }
{}

/// Where head reduction ends within a limit, it takes no more steps than the limit.
pub fn head_counts_are_whole()
    ensures { (n m : ℕ) (t s : Term) → HeadNormalisesTo n t s → n ≤ m → IsSome (steps head_step (suc m) t) → ⊥ }
{}
