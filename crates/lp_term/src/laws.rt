//! Laws of beta-eta normal forms.
ghost use Rattle.std.specs.Prelude.{◌≡◌, ℕ};
ghost use Rattle.lp_calculus.specs.Term.{Term};
ghost use Rattle.lp_calculus.specs.Normal.{NormalisesTo, IsFormOf, eta_normal};

/// The eta-normal form of what leftmost reduction leads to is a beta-eta normal form of the term.
pub fn eta_normal_is_a_form()
    ensures { (n : ℕ) (t r : Term) → NormalisesTo n t r → IsFormOf t (eta_normal r) }
{}

/// A term has at most one beta-eta normal form.
pub fn normal_forms_are_one()
    ensures { (t s r : Term) → IsFormOf t s → IsFormOf t r → s ≡ r }
{}
