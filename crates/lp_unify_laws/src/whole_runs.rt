// Whole runs of unification: from type equations, pairs and delayed pairs to types, bindings and residual pairs (Robinson 1965 for the
// types, Miller 1991 and Nadathur 1993 for the pairs). The pairs have a typing under each choice of types that solves the equations.

ghost use Rattle.std.specs.Prelude.{◌≡◌, ℕ, List, [], length, map, Some};
ghost use Rattle.lp_calculus.specs.Types.{Ty};
ghost use Rattle.lp_model.specs.Types.{TypePair, TypeBinding, none, solved, solve_types};
ghost use Rattle.lp_model.specs.Pair.{Pair, Closing, SolvesAll};
ghost use Rattle.lp_model.specs.Unify.{State, Fail, Solution, solve};
ghost use Rattle.lp_model.specs.Proofs.{Declared};
ghost use Rattle.lp_model.specs.Answers.{Variable, PairTyping, IsTypedPair};
ghost use Rattle.lp_unify_laws.specs.Levels.{IsClosing};
ghost use Rattle.lp_unify_laws.specs.TypeSolutions.{Unifies, Satisfies};
ghost use Rattle.lp_unify_laws.specs.Solutions.{instance_pair, instance_variable, instance_typing, IsTypedInput, IsSolution, IsClosedSolution, closed_variables, through_bindings, KeepsTypings, KeepsSolution, AreStuck, HasSameClosings};

/// Types solve type equations exactly where they satisfy the bindings that solving them makes.
pub fn types_solve_all()
    ensures { (n : ℕ) (eqs : List TypePair) (bs : List TypeBinding) (u : ℕ) → solve_types n eqs [] 0 ≡ Some (solved bs u) → (θ : ℕ → Ty) → (Unifies θ eqs → Satisfies θ bs) × (Satisfies θ bs → Unifies θ eqs) }
{}

/// Type equations that are found to have no solution have none.
pub fn types_that_differ()
    ensures { (n : ℕ) (eqs : List TypePair) (u : ℕ) → solve_types n eqs [] 0 ≡ Some (none u) → (θ : ℕ → Ty) → Unifies θ eqs → ⊥ }
{}

/// Where a run fails there is no solution.
pub fn failures_have_no_solution()
    ensures { (d : Declared) (V : List Variable) (n limit : ℕ) (eqs : List TypePair) (ps ds : List Pair) (c : Closing) → IsTypedInput c.types d V eqs ps ds → solve n limit eqs ps ds (length V) ≡ Some Fail → IsSolution d V c eqs ps ds → ⊥ }
{}

/// Each solution of the input comes, up to conversion, from one of the residual pairs through the bindings.
pub fn solutions_are_kept()
    ensures { (d : Declared) (V : List Variable) (n limit : ℕ) (eqs : List TypePair) (ps ds : List Pair) (s : State) (c : Closing) → IsTypedInput c.types d V eqs ps ds → solve n limit eqs ps ds (length V) ≡ Some (Solution s) → IsSolution d V c eqs ps ds → KeepsSolution d V c s }
{}

/// What a solution of the residual pairs gives through the bindings is a solution of the input.
pub fn solutions_are_not_added()
    ensures { (d : Declared) (V : List Variable) (n limit : ℕ) (eqs : List TypePair) (ps ds : List Pair) (s : State) (c : Closing) → IsTypedInput c.types d V eqs ps ds → solve n limit eqs ps ds (length V) ≡ Some (Solution s) → AreStuck n ds → IsClosing c.terms → Satisfies c.types s.types → SolvesAll c s.delayed → Unifies c.types eqs × SolvesAll (through_bindings s.bindings c) ps × SolvesAll (through_bindings s.bindings c) ds }
{}

/// Bindings and residual pairs have typings, over the variables of the input and those that were added.
pub fn typings_are_kept()
    ensures { (d : Declared) (V : List Variable) (n limit : ℕ) (eqs : List TypePair) (ps ds : List Pair) (s : State) (θ : ℕ → Ty) → IsTypedInput θ d V eqs ps ds → solve n limit eqs ps ds (length V) ≡ Some (Solution s) → Satisfies θ s.types → KeepsTypings θ d V s }
{}

/// The residual pairs are the delayed ones, and no rule applies to any of them.
pub fn residual_pairs_are_stuck()
    ensures { (n limit : ℕ) (eqs : List TypePair) (ps ds : List Pair) (next : ℕ) (s : State) → AreStuck n ds → solve n limit eqs ps ds next ≡ Some (Solution s) → (s.pairs ≡ []) × AreStuck n s.delayed }
{}

/// A typed pair is typed with types for its type variables, over variables with these types: so a typing gives what the laws ask for.
pub fn typings_have_instances()
    ensures { (θ : ℕ → Ty) (d : Declared) (V : List Variable) (q : PairTyping) (p : Pair) → IsTypedPair d V q p → IsTypedPair d (map (instance_variable θ) V) (instance_typing θ q) (instance_pair θ p) }
{}

/// Where a run fails no closing of the variables solves the input.
pub fn closings_have_none()
    ensures { (d : Declared) (V : List Variable) (n limit : ℕ) (eqs : List TypePair) (ps ds : List Pair) (c : Closing) → IsTypedInput c.types d (closed_variables c V) eqs ps ds → solve n limit eqs ps ds (length V) ≡ Some Fail → IsClosedSolution d V c eqs ps ds → ⊥ }
{}

/// Each closing of the variables that solves the input comes, up to conversion, from one that solves the residual pairs.
pub fn closings_are_kept()
    ensures { (d : Declared) (V : List Variable) (n limit : ℕ) (eqs : List TypePair) (ps ds : List Pair) (s : State) (c : Closing) → IsTypedInput c.types d (closed_variables c V) eqs ps ds → solve n limit eqs ps ds (length V) ≡ Some (Solution s) → IsClosedSolution d V c eqs ps ds → KeepsSolution d (closed_variables c V) c s }
{}

/// Under types that satisfy the type bindings, bindings and residual pairs are typed over one list of variables, and its closings that solve the
/// residual pairs are, up to conversion and through the bindings, the closings that solve the pairs.
pub fn closings_are_the_same()
    ensures { (d : Declared) (V : List Variable) (n limit : ℕ) (eqs : List TypePair) (ps ds : List Pair) (s : State) (θ : ℕ → Ty) → IsTypedInput θ d V eqs ps ds → solve n limit eqs ps ds (length V) ≡ Some (Solution s) → AreStuck n ds → Satisfies θ s.types → HasSameClosings θ d V ps ds s }
{}
