// An atom whose head is a declared constant or an eigenconstant is provable exactly by the candidates.

ghost use Rattle.std.specs.Prelude.{◌≡◌, ℕ, List, ◌∷◌, Some};
ghost use Rattle.lp_calculus.specs.Types.{Ty};
ghost use Rattle.lp_calculus.specs.Term.{Term};
ghost use Rattle.lp_calculus.specs.Spine.{head_of};
ghost use Rattle.lp_lemmas.specs.Each.{AnyOf, EachOf};
ghost use Rattle.lp_model.specs.Pair.{Closing, closed};
ghost use Rattle.lp_model.specs.Proofs.{Declared, IsFormula, IsAtomHead, PlainlyFocusable, no_leaf};
ghost use Rattle.lp_standard.specs.Schemes.{IsStandard};
ghost use Rattle.lp_model.specs.Flat.{Goals, Atomic, Clause, clause, formula_of_clause};
ghost use Rattle.lp_model.specs.Flatten.{ClauseFormula};
ghost use Rattle.lp_model.specs.Search.{with_goals, candidates, goal_looked, tries};
ghost use Rattle.lp_model.specs.Look.{head_normal};
ghost use Rattle.lp_model.specs.Branch.{Entry, Branch};
ghost use Rattle.lp_model.specs.Answers.{Query};
ghost use Rattle.lp_search_laws.specs.Holds.{Holds};
ghost use Rattle.lp_search_laws.specs.Branches.{IsProgramTyped, BranchTyping, IsTypedBranch, going};
ghost use Rattle.lp_search_laws.specs.Views.{StandFor};
ghost use Rattle.lp_search_laws.specs.Clauses.{Applies, Serves, IsInFocus, IsProgramClause, IsAssumedClause, sentence_of, clauses_at};

/// One can focus on a clause that a closing makes closed, for an atom, exactly where there are terms for its variables with which its head is the
/// atom and its goals are provable.
pub fn clauses_in_focus()
    ensures { (d : Declared) → IsStandard d → (E : List Ty) (P : List ClauseFormula) (c : Closing) (k : ℕ) (vs : List Ty) (h : Term) (body : Goals) (A : Term) → IsAtomHead (head_of h) → IsFormula d E (closed c (formula_of_clause (clause k vs h body))) → IsAtomHead (head_of A) → (PlainlyFocusable d E P (closed c (formula_of_clause (clause k vs h body))) A → Applies no_leaf d E P c vs h body A) × (Applies no_leaf d E P c vs h body A → PlainlyFocusable d E P (closed c (formula_of_clause (clause k vs h body))) A) }
{}

/// The same of a clause of the program, with types for its type variables; the closing is any.
pub fn program_clauses_in_focus()
    ensures { (d : Declared) → IsStandard d → (E : List Ty) (P : List ClauseFormula) (c : Closing) (x : Clause) (A : Term) → IsProgramClause d x → IsAtomHead (head_of A) → (IsInFocus no_leaf d E P (sentence_of x) A → Serves no_leaf d E P c x A) × (Serves no_leaf d E P c x A → IsInFocus no_leaf d E P (sentence_of x) A) }
{}

/// An atom holds, from the clauses of the program and the assumed ones, exactly where some candidate for it serves.
pub fn atoms_have_candidates()
    ensures { (d : Declared) → IsStandard d → (E : List Ty) (P A : List Clause) (c : Closing) (t : Term) → EachOf (IsProgramClause d) P → EachOf (IsAssumedClause d E c) A → IsAtomHead (head_of t) → IsFormula d E (closed c t) → (Holds no_leaf d E (clauses_at P A c) c t → AnyOf (λ x. Serves no_leaf d E (clauses_at P A c) c x (closed c t)) (candidates P A t)) × (AnyOf (λ x. Serves no_leaf d E (clauses_at P A c) c x (closed c t)) (candidates P A t) → Holds no_leaf d E (clauses_at P A c) c t) }
{}

/// The tries that the search puts for an atom stand for its branch.
pub fn atoms_are_tried()
    ensures { (n height : ℕ) (d : Declared) → IsStandard d → (P : List Clause) → EachOf (IsProgramTyped d) P → (q : Query) (y : BranchTyping) (b : Branch) (e : Entry) (es : List Entry) (t u : Term) → b.goals ≡ e ∷ es → e.goal ≡ Atomic t → head_normal n t ≡ Some u → IsAtomHead (head_of u) → IsTypedBranch n d q y b → StandFor no_leaf n d P q (going y b) (tries P e (with_goals b es) height (goal_looked n u)) }
{}
