// An equality is taken by the unifier, with the residual pairs of before.

ghost use Rattle.std.specs.Prelude.{◌≡◌, ℕ, List, [], length, Some};
ghost use Rattle.lp_calculus.specs.Types.{Ty};
ghost use Rattle.lp_calculus.specs.Term.{Term};
ghost use Rattle.lp_model.specs.Pair.{Pair, Closing, closed, SolvesAll};
ghost use Rattle.lp_model.specs.Unify.{State, Fail, Solution, solve};
ghost use Rattle.lp_model.specs.Proofs.{Declared, IsFormula, no_leaf};
ghost use Rattle.lp_standard.specs.Schemes.{IsStandard};
ghost use Rattle.lp_model.specs.Flatten.{ClauseFormula};
ghost use Rattle.lp_model.specs.Answers.{Variable, Closes};
ghost use Rattle.lp_unify_laws.specs.TypeSolutions.{Satisfies};
ghost use Rattle.lp_unify_laws.specs.Solutions.{IsTypedInput, closed_variables, AreStuck, KeptClosing};
ghost use Rattle.lp_calculus.specs.Convert.{Converts};
ghost use Rattle.lp_calculus.specs.Fill.{Binding, put_all};
ghost use Rattle.lp_search_laws.specs.Holds.{Holds, IsTyped, equation, equality, EqualityHolds};

/// Where the unifier fails no closing of the variables that solves the pairs makes the equality hold.
pub fn refused_equalities()
    ensures { (d : Declared) → IsStandard d → (V : List Variable) (E : List Ty) (P : List ClauseFormula) (n limit k : ℕ) (T : Ty) (l r : Term) (ds : List Pair) (c : Closing) → IsTypedInput c.types d (closed_variables c V) [] (equation l r k) ds → solve n limit [] (equation l r k) ds (length V) ≡ Some Fail → Closes d V c → SolvesAll c ds → IsFormula d E (closed c (equality T l r)) → Holds no_leaf d E P c (equality T l r) → ⊥ }
{}

/// What the unifier leaves has, through its bindings, the closings that solve the pairs and make the equality hold.
pub fn equalities_are_solved()
    ensures { (d : Declared) → IsStandard d → (V : List Variable) (E : List Ty) (P : List ClauseFormula) (n limit k : ℕ) (T : Ty) (l r : Term) (ds : List Pair) (s : State) (θ : ℕ → Ty) → IsTypedInput θ d V [] (equation l r k) ds → solve n limit [] (equation l r k) ds (length V) ≡ Some (Solution s) → AreStuck n ds → Satisfies θ s.types → EqualityHolds no_leaf θ d V E P T l r ds s }
{}

/// A term under a closing converts to the term with the bindings under the closing that was kept.
pub fn terms_go_through()
    ensures { (d : Declared) (E : List Ty) (V W : List Variable) (c : Closing) (bs : List Binding) (ps : List Pair) → (k : KeptClosing d V W c bs ps) → (t : Term) (T : Ty) → IsTyped d E V t T → Converts (closed c t) (closed k.closing (put_all bs t)) }
{}

/// So a goal behind the unification is provable exactly where it was.
pub fn goals_go_through()
    ensures { (d : Declared) (E F : List Ty) (P : List ClauseFormula) (V W : List Variable) (c : Closing) (bs : List Binding) (ps : List Pair) → (k : KeptClosing d V W c bs ps) → (t : Term) (T : Ty) → IsTyped d E V t T → IsFormula d F (closed c t) → IsFormula d F (closed k.closing (put_all bs t)) → (Holds no_leaf d F P c t → Holds no_leaf d F P k.closing (put_all bs t)) × (Holds no_leaf d F P k.closing (put_all bs t) → Holds no_leaf d F P c t) }
{}
