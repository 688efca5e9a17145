// Goals that the search takes apart, under a closing: each is provable exactly where what the search puts in its place is provable. A goal
// closed by the closing is a formula over the eigenconstants of its level.

ghost use Rattle.std.specs.Prelude.{◌≡◌, ℕ, List, [], ◌∷◌, Some};
ghost use Rattle.lp_calculus.specs.Types.{Ty};
ghost use Rattle.lp_calculus.specs.Term.{Term, substitute};
ghost use Rattle.lp_model.specs.Search.{opened};
ghost use Rattle.lp_model.specs.Look.{head_normal};
ghost use Rattle.lp_lemmas.specs.Each.{EachOf};
ghost use Rattle.lp_model.specs.Pair.{Closing, closed, Solves};
ghost use Rattle.lp_model.specs.Proofs.{Declared, IsFormula, no_leaf};
ghost use Rattle.lp_standard.specs.Schemes.{IsStandard};
ghost use Rattle.lp_standard.specs.Connectives.{two, connective_of};
ghost use Rattle.lp_model.specs.Flat.{Goal, Goals, goal_list, formula_of_goal, formula_of_goals};
ghost use Rattle.lp_model.specs.Flatten.{ClauseFormula};
ghost use Rattle.lp_search_laws.specs.Holds.{Holds, FormHolds, GoalHolds, IsTakenApart, IsUnused};

/// A goal known at run time, by the connective at the head of its head-normal form. The variable that `sigma` gets does not stand in it.
pub fn run_time_goals()
    ensures { (d : Declared) → IsStandard d → (E : List Ty) (P : List ClauseFormula) (c : Closing) (x l n : ℕ) (t u : Term) → head_normal n t ≡ Some u → IsTakenApart (connective_of u) → IsUnused x l t → IsFormula d E (closed c t) → (Holds no_leaf d E P c t → FormHolds no_leaf d E P c x l (connective_of u)) × (FormHolds no_leaf d E P c x l (connective_of u) → Holds no_leaf d E P c t) }
{}

/// A flattened goal, by its parts.
pub fn flat_goals()
    ensures { (d : Declared) → IsStandard d → (E : List Ty) (P : List ClauseFormula) (c : Closing) (x l : ℕ) (g : Goal) → IsUnused x l (formula_of_goal g) → IsFormula d E (closed c (formula_of_goal g)) → (Holds no_leaf d E P c (formula_of_goal g) → GoalHolds no_leaf d E P c x l g) × (GoalHolds no_leaf d E P c x l g → Holds no_leaf d E P c (formula_of_goal g)) }
{}

/// Flattened goals, one behind the other.
pub fn goals_in_turn()
    ensures { (d : Declared) → IsStandard d → (E : List Ty) (P : List ClauseFormula) (c : Closing) (gs : Goals) → IsFormula d E (closed c (formula_of_goals gs)) → (Holds no_leaf d E P c (formula_of_goals gs) → EachOf (λ g. Holds no_leaf d E P c (formula_of_goal g)) (goal_list gs)) × (EachOf (λ g. Holds no_leaf d E P c (formula_of_goal g)) (goal_list gs) → Holds no_leaf d E P c (formula_of_goals gs)) }
{}

/// An equality, by the pair of its sides.
pub fn equalities()
    ensures { (d : Declared) → IsStandard d → (E : List Ty) (P : List ClauseFormula) (c : Closing) (T : Ty) (a b : Term) (k : ℕ) → IsFormula d E (closed c (two 8 (T ∷ []) a b)) → (Holds no_leaf d E P c (two 8 (T ∷ []) a b) → Solves c (record { left = a; right = b; level = k })) × (Solves c (record { left = a; right = b; level = k }) → Holds no_leaf d E P c (two 8 (T ∷ []) a b)) }
{}

/// The goals that the search puts for a quantified one, opened with a term, are provable exactly where its body at the term is.
pub fn opened_goals()
    ensures { (d : Declared) → IsStandard d → (E : List Ty) (P : List ClauseFormula) (c : Closing) (u : Term) (gs : Goals) → IsFormula d E (closed c (substitute u (formula_of_goals gs))) → (Holds no_leaf d E P c (substitute u (formula_of_goals gs)) → EachOf (λ g. Holds no_leaf d E P c (formula_of_goal g)) (opened u gs)) × (EachOf (λ g. Holds no_leaf d E P c (formula_of_goal g)) (opened u gs) → Holds no_leaf d E P c (substitute u (formula_of_goals gs))) }
{}
