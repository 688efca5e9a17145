//! What unification does with typed terms comes to an outcome (Miller 1991): looks, comparisons, scans and settling take finitely many steps. The
//! types of atoms and of loose indices are any. Type equations come to one whatever they are (Robinson 1965).
ghost use Rattle.std.specs.Prelude.{◌≡◌, ℕ, Bool, List, [], length, map, Option, Some};
ghost use Rattle.lp_calculus.specs.Types.{Ty};
ghost use Rattle.lp_calculus.specs.Term.{Term, Atom};
ghost use Rattle.lp_calculus.specs.Typing.{HasType};
ghost use Rattle.lp_model.specs.Eigens.{beta_normal};
ghost use Rattle.lp_model.specs.Look.{Look, head_normal, look};
ghost use Rattle.lp_model.specs.Types.{TypePair, TypeOutcome, solve_types};
ghost use Rattle.lp_model.specs.Scan.{Side, Scanned, scan, settle};
ghost use Rattle.lp_model.specs.Pair.{Pair};
ghost use Rattle.lp_model.specs.Rule.{Compared, compare, Ruled, rule};
ghost use Rattle.lp_model.specs.Unify.{Unified, solve};
ghost use Rattle.lp_model.specs.Proofs.{Declared};
ghost use Rattle.lp_model.specs.Answers.{Variable, PairTyping, IsTypedPair};
ghost use Rattle.lp_unify_laws.specs.Solutions.{instance_pair, instance_variable, IsTypedInput};

/// A typed term has a head-normal and a beta-normal form with enough steps.
pub fn typed_terms_come_to_forms()
    ensures head_form { (τ : Atom → Option Ty) (C : List Ty) (t : Term) (T : Ty) → HasType τ C t T → (n : ℕ) × (s : Term) × (head_normal n t ≡ Some s) }
    ensures form { (τ : Atom → Option Ty) (C : List Ty) (t : Term) (T : Ty) → HasType τ C t T → (n : ℕ) × (s : Term) × (beta_normal n t ≡ Some s) }
{}

/// A look at a typed term sees something.
pub fn looks_at_typed_terms_come()
    ensures { (τ : Atom → Option Ty) (C : List Ty) (t : Term) (T : Ty) → HasType τ C t T → (n : ℕ) × (v : Look) × (look n t ≡ Some v) }
{}

/// Two typed terms can be compared, whether or not their types are one.
pub fn typed_terms_are_compared()
    ensures { (τ ι : Atom → Option Ty) (C D : List Ty) (t u : Term) (T U : Ty) → HasType τ C t T → HasType ι D u U → (k : ℕ) → (n : ℕ) × (c : Compared) × (compare n k t u ≡ Some c) }
{}

/// A typed term can be scanned for each variable.
pub fn typed_terms_are_scanned()
    ensures { (τ : Atom → Option Ty) (C : List Ty) (t : Term) (T : Ty) → HasType τ C t T → (s : Side) (inside : Bool) (k : ℕ) → (n : ℕ) × (r : Scanned) × (scan n s inside k t ≡ Some r) }
{}

/// A typed term can be settled.
pub fn typed_terms_are_settled()
    ensures { (τ : Atom → Option Ty) (C : List Ty) (t : Term) (T : Ty) → HasType τ C t T → (k : ℕ) → (n : ℕ) × (u : Term) × (settle n k t ≡ Some u) }
{}

/// Type equations have a most general solution or none.
pub fn type_equations_come_to_an_outcome()
    ensures { (eqs : List TypePair) → (n : ℕ) × (o : TypeOutcome) × (solve_types n eqs [] 0 ≡ Some o) }
{}

/// The first rule that applies to a pair comes, where the pair is typed once types are put for its type variables. Pruning is part of it.
pub fn rules_for_typed_pairs_come()
    ensures { (θ : ℕ → Ty) (d : Declared) (V : List Variable) (q : PairTyping) (p : Pair) → IsTypedPair d V q (instance_pair θ p) → (n : ℕ) × (r : Ruled) × (rule n (length V) p ≡ Some r) }
{}

/// Unification of typed input comes to an outcome, whatever the limit on units. The input is typed under each choice of types that solves the equations.
pub fn unification_comes_to_an_outcome()
    ensures { (d : Declared) (V : List Variable) (eqs : List TypePair) (ps ds : List Pair) → ((θ : ℕ → Ty) → IsTypedInput θ d (map (instance_variable θ) V) eqs ps ds) → (limit : ℕ) → (n : ℕ) × (u : Unified) × (solve n limit eqs ps ds (length V) ≡ Some u) }
{}
