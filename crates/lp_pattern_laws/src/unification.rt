//! Unification of pattern terms (Miller 1991) comes to a most general answer: no pair is left.
ghost use Rattle.std.specs.Prelude.{◌≡◌, ℕ, List, [], length, Some};
ghost use Rattle.lp_calculus.specs.Types.{Ty};
ghost use Rattle.lp_lemmas.specs.Each.{EachOf};
ghost use Rattle.lp_model.specs.Types.{TypePair};
ghost use Rattle.lp_model.specs.Pair.{Pair};
ghost use Rattle.lp_model.specs.Unify.{State, Solution, solve};
ghost use Rattle.lp_model.specs.Proofs.{Declared};
ghost use Rattle.lp_model.specs.Answers.{Variable};
ghost use Rattle.lp_unify_laws.specs.Solutions.{IsTypedInput};
ghost use Rattle.lp_unify_laws.specs.TypeSolutions.{Satisfies};
ghost use Rattle.lp_pattern_laws.specs.Goals.{IsPatternValue};
ghost use Rattle.lp_pattern_laws.specs.Patterns.{ArePatternPairs};

/// Where unification of typed pairs of terms that reduce to pattern terms, with none delayed before, has a solution, none is left, and each variable that it binds
/// gets such a term, closed and of its level. The limit, and the steps of each kind, are any.
pub fn patterns_leave_no_pair()
    ensures { (θ : ℕ → Ty) (d : Declared) (V : List Variable) (n limit : ℕ) (eqs : List TypePair) (ps : List Pair) (s : State) → IsTypedInput θ d V eqs ps [] → ArePatternPairs ps →
        solve n limit eqs ps [] (length V) ≡ Some (Solution s) → Satisfies θ s.types → (s.delayed ≡ []) × EachOf IsPatternValue s.bindings }
{}
