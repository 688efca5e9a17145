//! Reduction of typed terms ends (Tait 1967). The types of atoms and of loose indices are any.
ghost use Rattle.std.specs.Prelude.{ℕ, List, Option};
ghost use Rattle.lp_calculus.specs.Types.{Ty};
ghost use Rattle.lp_calculus.specs.Term.{Term, Atom};
ghost use Rattle.lp_calculus.specs.Typing.{HasType};
ghost use Rattle.lp_calculus.specs.Normal.{HeadNormalisesTo, NormalisesTo};

/// Leftmost head reduction of a term that has a type comes to a head-normal form.
pub fn typed_terms_have_head_normal_forms()
    ensures { (τ : Atom → Option Ty) (C : List Ty) (t : Term) (T : Ty) → HasType τ C t T → (n : ℕ) × (s : Term) × HeadNormalisesTo n t s }
{}

/// Leftmost reduction of a term that has a type comes to a beta-normal form.
pub fn typed_terms_have_normal_forms()
    ensures { (τ : Atom → Option Ty) (C : List Ty) (t : Term) (T : Ty) → HasType τ C t T → (n : ℕ) × (s : Term) × NormalisesTo n t s }
{}
