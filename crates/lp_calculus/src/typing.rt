//! Laws of typing.
ghost use Rattle.std.specs.Prelude.{ℕ, List, ◌∷◌, map, Option};
ghost use Rattle.lp_calculus.specs.Types.{Ty, instance};
ghost use Rattle.lp_calculus.specs.Term.{Term, Atom, apply, substitute};
ghost use Rattle.lp_calculus.specs.Convert.{ReducesTo};
ghost use Rattle.lp_calculus.specs.Fill.{fill, close};
ghost use Rattle.lp_calculus.specs.Typing.{Context, HasType, HaveTypes, Typed, IsMap, IsClosingMap};
ghost use Rattle.lp_calculus.specs.Instance.{instance_term, instance_context};

/// Beta and eta steps keep a type (subject reduction).
pub fn reduction_keeps_typing()
    ensures { (τ : Atom → Option Ty) (C : List Ty) (t s : Term) (T : Ty) → ReducesTo t s → HasType τ C t T → HasType τ C s T }
{}

/// A value of the type of index 0 keeps the type of a term.
pub fn substitution_keeps_typing()
    ensures { (τ : Atom → Option Ty) (C : List Ty) (u b : Term) (A B : Ty) → HasType τ C u A → HasType τ (A ∷ C) b B → HasType τ C (substitute u b) B }
{}

/// A map between contexts keeps the type of a term.
pub fn maps_keep_typing()
    ensures { (τ κ : Atom → Option Ty) (C : List Ty) (f : Atom → Term) → IsMap τ κ C f → (t : Term) (T : Ty) → HasType τ C t T → HasType κ C (fill f t) T }
{}

/// Terms of their types put for logic variables keep the type of a term.
pub fn closings_keep_typing()
    ensures { (K L : Context) (σ : ℕ → ℕ → Term) (C : List Ty) (t : Term) (T : Ty) → IsClosingMap K L σ → Typed K C t T → Typed L C (close σ t) T }
{}

/// Types put for type variables, in a context and a term, keep the type of the term.
pub fn types_keep_typing()
    ensures { (θ : ℕ → Ty) (K : Context) (C : List Ty) (t : Term) (T : Ty) → Typed K C t T → Typed (instance_context θ K) (map (instance θ) C) (instance_term θ t) (instance θ T) }
{}

/// A type of a head on arguments gives one of the head and those of the arguments.
pub fn parts_have_types()
    ensures { (τ : Atom → Option Ty) (C : List Ty) (h : Term) (ts : List Term) (T : Ty) → HasType τ C (apply h ts) T → (A : Ty) × HasType τ C h A × HaveTypes τ C A ts T }
{}

/// And the types of the parts give the type of the whole.
pub fn parts_give_types()
    ensures { (τ : Atom → Option Ty) (C : List Ty) (h : Term) (ts : List Term) (A T : Ty) → HasType τ C h A → HaveTypes τ C A ts T → HasType τ C (apply h ts) T }
{}
