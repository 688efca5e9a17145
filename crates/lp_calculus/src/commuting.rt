//! Laws of shift, substitution and the filling of atoms, one after the other.
ghost use Rattle.std.specs.Prelude.{◌≡◌, ℕ, suc};
ghost use Rattle.lp_calculus.specs.Types.{Ty};
ghost use Rattle.lp_calculus.specs.Term.{Term, Atom, atom, shift, substitute, replace, put_for};
ghost use Rattle.lp_calculus.specs.Fill.{fill, raise};
ghost use Rattle.lp_calculus.specs.Instance.{instance_atom, instance_term};

/// A shift goes into a substitution.
pub fn shift_past_substitution()
    ensures { (from by : ℕ) (u b : Term) → shift from by (substitute u b) ≡ substitute (shift from by u) (shift (suc from) by b) }
{}

/// A substitution goes into a substitution.
pub fn substitution_past_substitution()
    ensures { (v u b : Term) → substitute v (substitute u b) ≡ substitute (substitute v u) (replace (put_for v) 1 b) }
{}

/// A value for an index that is not there changes nothing.
pub fn substitution_undoes_shift()
    ensures { (u t : Term) → substitute u (shift 0 1 t) ≡ t }
{}

/// Atoms are filled before a shift or after it.
pub fn filling_past_shift()
    ensures { (f : Atom → Term) (from by : ℕ) (t : Term) → fill (λ a. shift from by (f a)) (shift from by t) ≡ shift from by (fill f t) }
{}

/// Atoms are filled before a substitution or after it.
pub fn filling_past_substitution()
    ensures { (f : Atom → Term) (u b : Term) → fill f (substitute u b) ≡ substitute (fill f u) (fill (raise f) b) }
{}

/// Two fillings are one.
pub fn filling_twice()
    ensures { (f g h : Atom → Term) → ((a : Atom) → fill f (g a) ≡ h a) → (t : Term) → fill f (fill g t) ≡ fill h t }
{}

/// Types put for type variables are a filling of atoms.
pub fn types_fill()
    ensures { (θ : ℕ → Ty) (t : Term) → instance_term θ t ≡ fill (λ a. atom (instance_atom θ a)) t }
{}
