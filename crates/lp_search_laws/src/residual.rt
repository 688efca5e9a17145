// What unification leaves is made of what it was given.

ghost use Rattle.std.specs.Prelude.{◌≡◌, ℕ, ◌<◌, List, Some};
ghost use Rattle.lp_unify_laws.specs.TypesBelow.{IsTypeBelow};
ghost use Rattle.lp_calculus.specs.Types.{var};
ghost use Rattle.lp_lemmas.specs.Each.{EachOf};
ghost use Rattle.lp_model.specs.Types.{TypePair, put_types};
ghost use Rattle.lp_model.specs.Pair.{Pair};
ghost use Rattle.lp_model.specs.Unify.{State, Solution, solve};
ghost use Rattle.lp_unify_laws.specs.TypeSolutions.{Satisfies};
ghost use Rattle.lp_unify_laws.specs.Solutions.{at_types};
ghost use Rattle.lp_search_laws.specs.Branches.{IsPlainTerm, IsPlainPair};

/// Positive terms over some type variables leave positive terms over these.
pub fn solve_keeps_plain()
    ensures { (k n limit : ℕ) (eqs : List TypePair) (ps ds : List Pair) (next : ℕ) (s : State) → EachOf (λ x. IsTypeBelow k x.left × IsTypeBelow k x.right) eqs → EachOf (IsPlainPair k) ps → EachOf (IsPlainPair k) ds → solve n limit eqs ps ds next ≡ Some (Solution s) → EachOf (IsPlainPair k) s.delayed × EachOf (λ b. IsPlainTerm k b.value) s.bindings × EachOf (λ b. (b.id < k) × IsTypeBelow k b.value) s.types }
{}

/// The types that the type bindings put satisfy these bindings, and change nothing in the residual pairs.
pub fn types_satisfy_themselves()
    ensures { (n limit : ℕ) (eqs : List TypePair) (ps ds : List Pair) (next : ℕ) (s : State) → solve n limit eqs ps ds next ≡ Some (Solution s) → Satisfies (λ i. put_types s.types (var i)) s.types × (at_types (λ i. put_types s.types (var i)) s.delayed ≡ s.delayed) }
{}
