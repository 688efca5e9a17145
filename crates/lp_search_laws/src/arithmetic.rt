// Arithmetic goals: a value that was computed is the value under each closing, so `is` is an equality, and a comparison is decided.

ghost use Rattle.std.specs.Prelude.{◌≡◌, ◌≤◌, ℕ, ℤ, List, [], ◌∷◌, Some, true};
ghost use Rattle.lp_calculus.specs.Types.{Ty};
ghost use Rattle.lp_calculus.specs.Term.{Term};
ghost use Rattle.lp_calculus.specs.Convert.{Converts};
ghost use Rattle.lp_calculus.specs.Typing.{Context, Typed};
ghost use Rattle.lp_model.specs.Pair.{Closing, closed};
ghost use Rattle.lp_model.specs.Proofs.{Declared, IsFormula, no_leaf};
ghost use Rattle.lp_standard.specs.Schemes.{IsStandard};
ghost use Rattle.lp_standard.specs.Connectives.{two};
ghost use Rattle.lp_model.specs.Flatten.{ClauseFormula};
ghost use Rattle.lp_model.specs.Values.{Value, Number, Is, HasValue, evaluate, term_of, ordered};
ghost use Rattle.lp_model.specs.Flat.{Atomic, Clause};
ghost use Rattle.lp_model.specs.Look.{head_normal};
ghost use Rattle.lp_model.specs.Branch.{Entry, Branch};
ghost use Rattle.lp_model.specs.Search.{with_goals, compared};
ghost use Rattle.lp_model.specs.Answers.{Query};
ghost use Rattle.lp_search_laws.specs.Holds.{Holds, IsSameGoal};
ghost use Rattle.lp_search_laws.specs.Branches.{BranchTyping, IsTypedBranch, SolvesAs, going, with_atom};
ghost use Rattle.lp_search_laws.specs.Views.{StandFor};

/// An expression has at most one value, up to conversion.
pub fn values_are_unique()
    ensures { (t u : Term) (v w : Value) → Converts t u → HasValue t v → HasValue u w → w ≡ v }
{}

/// The value that an expression comes to is its value under each closing, and the only one.
pub fn values_under_closings()
    ensures { (n : ℕ) (t : Term) (v : Value) → evaluate n t ≡ Some (Is v) → (c : Closing) → HasValue (closed c t) v × ((w : Value) → HasValue (closed c t) w → w ≡ v) }
{}

/// It has the type of the expression.
pub fn values_have_types()
    ensures { (n : ℕ) (K : Context) (C : List Ty) (t : Term) (T : Ty) (v : Value) → IsStandard K.declared → evaluate n t ≡ Some (Is v) → Typed K C t T → Typed K C (term_of v) T }
{}

/// `is` stands for the equality of its left side and the value of the right one.
pub fn assignments()
    ensures { (d : Declared) → IsStandard d → (E : List Ty) (P : List ClauseFormula) (c : Closing) (ts : List Ty) (n : ℕ) (l r : Term) (v : Value) → evaluate n r ≡ Some (Is v) → IsFormula d E (closed c (two 9 ts l r)) → (T : Ty) × (ts ≡ T ∷ []) × IsSameGoal no_leaf d E P c (two 9 ts l r) (two 8 (T ∷ []) l (term_of v)) }
{}

/// A comparison holds exactly where the values of its sides are so ordered, under each closing.
pub fn comparisons()
    ensures { (d : Declared) → IsStandard d → (E : List Ty) (P : List ClauseFormula) (c : Closing) (ts : List Ty) (k n : ℕ) (l r : Term) (x y : ℤ) → 10 ≤ k → k ≤ 13 → evaluate n l ≡ Some (Is (Number x)) → evaluate n r ≡ Some (Is (Number y)) → IsFormula d E (closed c (two k ts l r)) → (Holds no_leaf d E P c (two k ts l r) → ordered k x y ≡ true) × (ordered k x y ≡ true → Holds no_leaf d E P c (two k ts l r)) }
{}

/// A branch with `is` in front, where the expression has a value, has the instances of the branch with the equality in its place.
pub fn assignments_are_equalities()
    ensures { (n : ℕ) (d : Declared) → IsStandard d → (P : List Clause) (q : Query) (y : BranchTyping) (b : Branch) (e : Entry) (es : List Entry) (t u : Term) (ts : List Ty) (l r : Term) (v : Value) → b.goals ≡ e ∷ es → e.goal ≡ Atomic t → head_normal n t ≡ Some u → u ≡ two 9 ts l r → evaluate n r ≡ Some (Is v) → IsTypedBranch n d q y b → (T : Ty) × (ts ≡ T ∷ []) × SolvesAs no_leaf n d P q y b (with_goals b (with_atom e (two 8 (T ∷ []) l (term_of v)) ∷ es)) }
{}

/// What the search leaves of a comparison stands for its branch.
pub fn comparisons_stand()
    ensures { (n : ℕ) (d : Declared) → IsStandard d → (P : List Clause) (q : Query) (y : BranchTyping) (b : Branch) (e : Entry) (es : List Entry) (t u : Term) (k : ℕ) (ts : List Ty) (l r : Term) → b.goals ≡ e ∷ es → e.goal ≡ Atomic t → head_normal n t ≡ Some u → u ≡ two k ts l r → 10 ≤ k → k ≤ 13 → IsTypedBranch n d q y b → StandFor no_leaf n d P q (going y b) (compared k (with_goals b es) (evaluate n l) (evaluate n r)) }
{}
