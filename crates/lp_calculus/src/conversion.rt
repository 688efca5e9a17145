//! Laws of conversion.
ghost use Rattle.std.specs.Prelude.{◌≡◌, ℕ, Bool, true};
ghost use Rattle.lp_calculus.specs.Types.{Ty};
ghost use Rattle.lp_calculus.specs.Term.{Term, Atom};
ghost use Rattle.lp_calculus.specs.Convert.{Converts, ReducesTo};
ghost use Rattle.lp_calculus.specs.Normal.{IsNormal};
ghost use Rattle.lp_calculus.specs.Fill.{fill, Within};
ghost use Rattle.lp_calculus.specs.Instance.{instance_term};

/// Terms that convert reduce to one term (Church and Rosser 1936, for beta and eta).
pub fn conversion_meets()
    ensures { (t s : Term) → Converts t s → (w : Term) × ReducesTo t w × ReducesTo s w }
{}

/// Normal terms that convert are one term.
pub fn normal_forms_agree()
    ensures { (t s : Term) → IsNormal t → IsNormal s → Converts t s → t ≡ s }
{}

/// Reduction brings no atom and no loose index: a test that each atom passes is passed on.
pub fn reduction_brings_nothing()
    ensures { (p : Atom → Bool) (d : ℕ) (t s : Term) → ReducesTo t s → Within (λ a. p a ≡ true) d t → Within (λ a. p a ≡ true) d s }
{}

/// Terms put for atoms, as for logic variables or eigenconstants, keep conversion.
pub fn filling_keeps_conversion()
    ensures { (f : Atom → Term) (t s : Term) → Converts t s → Converts (fill f t) (fill f s) }
{}

/// Terms put for atoms that convert atom by atom give terms that convert.
pub fn fillings_that_convert()
    ensures { (f g : Atom → Term) → ((a : Atom) → Converts (f a) (g a)) → (t : Term) → Converts (fill f t) (fill g t) }
{}

/// Types put for type variables keep conversion.
pub fn types_keep_conversion()
    ensures { (θ : ℕ → Ty) (t s : Term) → Converts t s → Converts (instance_term θ t) (instance_term θ s) }
{}
