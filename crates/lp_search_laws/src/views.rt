// What a typed task turns out to be: answers and typed tasks with the same solutions.

ghost use Rattle.std.specs.Prelude.{◌≡◌, ℕ, List, [], ◌∷◌, Some};
ghost use Rattle.lp_calculus.specs.Types.{Ty};
ghost use Rattle.lp_calculus.specs.Term.{Term};
ghost use Rattle.lp_model.specs.Unify.{unit_limit};
ghost use Rattle.lp_model.specs.Look.{head_normal};
ghost use Rattle.lp_standard.specs.Connectives.{two};
ghost use Rattle.lp_model.specs.Flat.{Atomic, Clause};
ghost use Rattle.lp_model.specs.Branch.{Entry, Branch, Go};
ghost use Rattle.lp_model.specs.Answers.{Query};
ghost use Rattle.lp_model.specs.Proofs.{Declared, no_leaf};
ghost use Rattle.lp_standard.specs.Schemes.{IsStandard};
ghost use Rattle.lp_lemmas.specs.Each.{EachOf};
ghost use Rattle.lp_model.specs.Search.{look, with_goals, equated, try_clause};
ghost use Rattle.lp_search_laws.specs.Branches.{BranchTyping, IsTypedBranch, IsProgramTyped, IsTypedTry, IsAtAtom, TypedTask, IsOk, task_of, going, trying};
ghost use Rattle.lp_search_laws.specs.Views.{IsRightView, StandFor};

/// Where no goal is left the branch gives its answer.
pub fn proved_branches_answer()
    ensures { (n height : ℕ) (d : Declared) (P : List Clause) (q : Query) (y : BranchTyping) (b : Branch) → b.goals ≡ [] → IsTypedBranch n d q y b → IsRightView no_leaf n d P q (going y b) (look unit_limit n P height (Go b)) }
{}

/// A goal that is no atom is taken apart: the branches that are left are typed, and have the solutions of the branch.
pub fn goals_are_taken_apart()
    ensures { (n height : ℕ) (d : Declared) → IsStandard d → (P : List Clause) (q : Query) (y : BranchTyping) (b : Branch) (e : Entry) (es : List Entry) → b.goals ≡ e ∷ es → (IsAtAtom n e → ⊥) → IsTypedBranch n d q y b → IsRightView no_leaf n d P q (going y b) (look unit_limit n P height (Go b)) }
{}

/// What the unifier leaves of an equality stands for its branch.
pub fn equalities_stand()
    ensures { (n : ℕ) (d : Declared) → IsStandard d → (P : List Clause) (q : Query) (y : BranchTyping) (b : Branch) (e : Entry) (es : List Entry) (t u : Term) (T : Ty) (l r : Term) → b.goals ≡ e ∷ es → e.goal ≡ Atomic t → head_normal n t ≡ Some u → u ≡ two 8 (T ∷ []) l r → IsTypedBranch n d q y b → StandFor no_leaf n d P q (going y b) (equated unit_limit n e.level l r (with_goals b es)) }
{}

/// What a typed branch turns out to be: its answer, or typed tasks with its solutions. Of a negated goal the search begins with a typed branch, and what
/// stands behind it is typed.
pub fn each_branch_is_right()
    ensures { (n height : ℕ) (d : Declared) → IsStandard d → (P : List Clause) → EachOf (IsProgramTyped d) P → (q : Query) (y : BranchTyping) (b : Branch) → IsTypedBranch n d q y b → IsRightView no_leaf n d P q (going y b) (look unit_limit n P height (Go b)) }
{}

/// What a try leaves stands for it.
pub fn tries_stand()
    ensures { (n : ℕ) (d : Declared) → IsStandard d → (P : List Clause) → EachOf (IsProgramTyped d) P → (q : Query) (y : BranchTyping) (c : Clause) (t : Term) (e : Entry) (b : Branch) (mark : ℕ) → IsTypedTry n d P q y c t e b → StandFor no_leaf n d P q (trying y c t e b mark) (try_clause unit_limit n c t e b mark) }
{}

/// What any typed task turns out to be.
pub fn each_look_is_right()
    ensures { (n height : ℕ) (d : Declared) → IsStandard d → (P : List Clause) → EachOf (IsProgramTyped d) P → (q : Query) (T : TypedTask) → IsOk n d P q T → IsRightView no_leaf n d P q T (look unit_limit n P height (task_of T)) }
{}
