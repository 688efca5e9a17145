// Flattening reads back: in proofs without failing searches, and what was flattened flattens to itself.

ghost use Rattle.std.specs.Prelude.{◌≡◌, ◌≤◌, ◌++◌, ◌∷◌, [], ℕ, Bool, List, Some};
ghost use Rattle.lp_calculus.specs.Closed.{AllAtoms};
ghost use Rattle.lp_calculus.specs.Fill.{Binding, put};
ghost use Rattle.lp_calculus.specs.Instance.{instance_term};
ghost use Rattle.lp_calculus.specs.Term.{Term, shift};
ghost use Rattle.lp_calculus.specs.Types.{Ty, instance};
ghost use Rattle.lp_model.specs.Flat.{Clauses, Goals, formula_of_clauses, formula_of_goals, instantiate_goals, map_goals, no_goals, same_type, type_goals};
ghost use Rattle.lp_model.specs.Flatten.{ClauseFormula, flat_clause, flat_goal};
ghost use Rattle.lp_model.specs.Index.{instantiate};
ghost use Rattle.lp_model.specs.Proofs.{Declared, Filling, IsFilling, IsFormula, IsSentence, PlainlyProvable, StandsForClause, StandsForGoal, assumed};
ghost use Rattle.lp_model.specs.Variables.{IsFormulaOver, Variable};
ghost use Rattle.lp_proof_laws.specs.Filled.{IsSourceAtom, filled_clauses, filled_goals};
ghost use Rattle.lp_proof_laws.specs.Terms.{AreTermsOf};
ghost use Rattle.lp_standard.specs.Schemes.{IsStandard};

/// The flattened goals of a closed formula are provable exactly where the formula is.
pub fn flattened_goals_read_back()
    ensures { (d : Declared) → IsStandard d → (n : ℕ) → (t : Term) → (gs : Goals) → flat_goal n d [] t no_goals ≡ Some gs → IsFormula d [] t → (E : List Ty) → (P : List ClauseFormula) → (PlainlyProvable d E P t → PlainlyProvable d E P (formula_of_goals gs)) × (PlainlyProvable d E P (formula_of_goals gs) → PlainlyProvable d E P t) }
{}

/// The flattened clauses of a closed clause prove exactly what the clause proves.
pub fn flattened_clauses_read_back()
    ensures { (d : Declared) → IsStandard d → (n : ℕ) → (c : Term) → (cs : Clauses) → flat_clause n d [] c [] [] ≡ Some cs → IsFormula d [] c → (E : List Ty) → (P : List ClauseFormula) → (G : Term) → (PlainlyProvable d E (P ++ assumed c ∷ []) G → PlainlyProvable d E (P ++ assumed (formula_of_clauses cs) ∷ []) G) × (PlainlyProvable d E (P ++ assumed (formula_of_clauses cs) ∷ []) G → PlainlyProvable d E (P ++ assumed c ∷ []) G) }
{}

/// With type variables: the flattened clauses of a sentence, read as a formula over the same type variables, prove in its place exactly what the
/// sentence proves, whatever stands before and behind it.
pub fn sentences_read_back()
    ensures { (d : Declared) → IsStandard d → (n : ℕ) → (D : ClauseFormula) → (cs : Clauses) → flat_clause n d [] D.formula [] [] ≡ Some cs → IsSentence d D → (E : List Ty) → (P R : List ClauseFormula) → (G : Term) → (PlainlyProvable d E (P ++ D ∷ R) G → PlainlyProvable d E (P ++ record { type_vars = D.type_vars; formula = formula_of_clauses cs } ∷ R) G) × (PlainlyProvable d E (P ++ record { type_vars = D.type_vars; formula = formula_of_clauses cs } ∷ R) G → PlainlyProvable d E (P ++ D ∷ R) G) }
{}

/// What was flattened, read as a formula, flattens to itself, with negated goals too: the goals of a formula with variables, of which `binders` says which may
/// head clauses, and its clauses.
pub fn flattened_forms_flatten_again()
    ensures { (d : Declared) (n : ℕ) (binders : List Bool) (t : Term) →
        ((gs : Goals) → flat_goal n d binders t no_goals ≡ Some gs → (m : ℕ) × ((k : ℕ) → m ≤ k → flat_goal k d binders (formula_of_goals gs) no_goals ≡ Some gs)) ×
        ((cs : Clauses) → flat_clause n d binders t [] [] ≡ Some cs → (m : ℕ) × ((k : ℕ) → m ≤ k → flat_clause k d binders (formula_of_clauses cs) [] [] ≡ Some cs)) }
{}

/// Flattened goals, filled with terms for their variables and types for their type variables, stay filled flattened goals: what is put in later, a closed term for
/// a logic variable (of which none is in what was flattened), types, or terms for loose indices, is put into what fills them.
pub fn filled_goals_stay_filled()
    ensures { (θ : ℕ → Ty) (σ : ℕ → Term) (gs : Goals) → (AreTermsOf (λ t. AllAtoms IsSourceAtom t) gs → (b : Binding) → shift 0 1 b.value ≡ b.value → map_goals (λ (u : ℕ). u) (λ u t. put b t) same_type 0 (filled_goals θ σ gs) ≡ filled_goals θ (λ i. put b (σ i)) gs) ×
        ((κ : ℕ → Ty) → type_goals κ (filled_goals θ σ gs) ≡ filled_goals (λ i. instance κ (θ i)) (λ i. instance_term κ (σ i)) gs) × ((γ : ℕ → Term) → instantiate_goals γ (filled_goals θ σ gs) ≡ filled_goals θ (λ i. instantiate γ (σ i)) gs) }
{}

/// And they stand for the formula that they read as, so that a search of them that fails is a leaf for it; so do filled clauses.
pub fn filled_goals_stand_for_their_formula()
    ensures { (d : Declared) (E : List Ty) (V : List Variable) (k : ℕ) (f : Filling) → IsFilling f → (n : ℕ) (t : Term) →
        ((gs : Goals) → flat_goal n d f.heads t no_goals ≡ Some gs → IsFormulaOver d E V k (formula_of_goals (filled_goals f.types f.terms gs)) → StandsForGoal d E V k (formula_of_goals (filled_goals f.types f.terms gs)) (filled_goals f.types f.terms gs)) ×
        ((cs : Clauses) → flat_clause n d f.heads t [] [] ≡ Some cs → IsFormulaOver d E V k (formula_of_clauses (filled_clauses f.types f.terms cs)) → StandsForClause d E V k (formula_of_clauses (filled_clauses f.types f.terms cs)) (filled_clauses f.types f.terms cs)) }
{}
