// What a search starts with: a program of flattened clauses proves what its sentences prove, and a query has the instances that its goals have.

ghost use Rattle.std.specs.Prelude.{◌≡◌, ℕ, List, [], ◌∷◌, ◌++◌, map, length, Some};
ghost use Rattle.lp_calculus.specs.Types.{Ty, instance};
ghost use Rattle.lp_calculus.specs.Term.{Term};
ghost use Rattle.lp_calculus.specs.Typing.{type_at};
ghost use Rattle.lp_lemmas.specs.Each.{EachOf};
ghost use Rattle.lp_model.specs.Pair.{Closing, closed};
ghost use Rattle.lp_model.specs.Proofs.{AreFlattened, Declared, IsFormula, IsSentence, PlainlyProvable, assumed, no_leaf};
ghost use Rattle.lp_standard.specs.Schemes.{IsStandard};
ghost use Rattle.lp_model.specs.Flat.{Goals, Clause, Clauses, clause_list, formula_of_clauses};
ghost use Rattle.lp_model.specs.Flatten.{ClauseFormula, flatten_query};
ghost use Rattle.lp_model.specs.Answers.{Query, Instance, AreWitnesses};
ghost use Rattle.lp_model.specs.Branch.{Go};
ghost use Rattle.lp_model.specs.Search.{start};
ghost use Rattle.lp_search_laws.specs.Begun.{first_branch, first_typing};
ghost use Rattle.lp_search_laws.specs.Branches.{IsProgramTyped, IsTypedBranch, SolvesBranch};
ghost use Rattle.lp_search_laws.specs.Clauses.{assumed_at, sentence_of};
ghost use Rattle.lp_search_laws.specs.Started.{IsTypedQuery, IsTypedSentence, StartHolds, IsPlainlyProvable};

/// The flattened clauses of a program, each on its own, prove exactly what its sentences prove, with any clauses behind them.
pub fn programs_read_back()
    ensures { (d : Declared) → IsStandard d → (F : List ClauseFormula) (P : List Clause) → EachOf (IsSentence d) F → AreFlattened d F P → (E : List Ty) (Q : List ClauseFormula) (G : Term) → (PlainlyProvable d E (F ++ Q) G → PlainlyProvable d E (map sentence_of P ++ Q) G) × (PlainlyProvable d E (map sentence_of P ++ Q) G → PlainlyProvable d E (F ++ Q) G) }
{}

/// Each of them is a sentence.
pub fn flattened_clauses_are_sentences()
    ensures { (d : Declared) → IsStandard d → (F : List ClauseFormula) (P : List Clause) → EachOf (IsSentence d) F → AreFlattened d F P → EachOf (λ c. IsSentence d (sentence_of c)) P }
{}

/// Clauses that are assumed together may be assumed each on its own, the first one last.
pub fn assumptions_stand_apart()
    ensures { (d : Declared) → IsStandard d → (E : List Ty) (P : List ClauseFormula) (c : Closing) (cs : Clauses) (G : Term) → IsFormula d E (closed c (formula_of_clauses cs)) → (PlainlyProvable d E (P ++ assumed (closed c (formula_of_clauses cs)) ∷ []) G → PlainlyProvable d E (P ++ assumed_at c (clause_list cs)) G) × (PlainlyProvable d E (P ++ assumed_at c (clause_list cs)) G → PlainlyProvable d E (P ++ assumed (closed c (formula_of_clauses cs)) ∷ []) G) }
{}

/// A query has a provable instance exactly where the goals that the search starts with hold under a closing that gives the instance.
pub fn a_query_starts()
    ensures { (d : Declared) → IsStandard d → (n : ℕ) (q : Query) (gs : Goals) → IsTypedQuery d q → flatten_query n d q.formula ≡ Some gs → (P : List ClauseFormula) (i : Instance) → (IsPlainlyProvable d P q i → StartHolds no_leaf d P q gs i) × (AreWitnesses d i.values (map (instance (type_at i.types)) q.vars) → StartHolds no_leaf d P q gs i → IsPlainlyProvable d P q i) }
{}

/// A sentence that is typed over its type variables is one, with each types for these.
pub fn typed_sentences()
    ensures { (d : Declared) (D : ClauseFormula) → IsTypedSentence d D → IsSentence d D }
{}

/// The flattened clauses of typed sentences are typed over their type variables, with positive atoms.
pub fn typed_programs()
    ensures { (d : Declared) → IsStandard d → (F : List ClauseFormula) (P : List Clause) → EachOf (IsTypedSentence d) F → AreFlattened d F P → EachOf (IsProgramTyped d) P }
{}

/// The search of a typed query starts with a typed branch.
pub fn typed_starts()
    ensures { (n m : ℕ) (d : Declared) → IsStandard d → (q : Query) (gs : Goals) (steps answers : ℕ) → IsTypedQuery d q → flatten_query m d q.formula ≡ Some gs → ((start q.type_vars (length q.vars) gs steps answers).stack ≡ Go (first_branch q.type_vars (length q.vars) gs) ∷ []) × IsTypedBranch n d q (first_typing q gs) (first_branch q.type_vars (length q.vars) gs) }
{}

/// And its instances are those for which the query is provable.
pub fn starts_are_solved()
    ensures { (m : ℕ) (d : Declared) → IsStandard d → (F : List ClauseFormula) (P : List Clause) → EachOf (IsTypedSentence d) F → AreFlattened d F P → (q : Query) (gs : Goals) → IsTypedQuery d q → flatten_query m d q.formula ≡ Some gs → (i : Instance) → (IsPlainlyProvable d F q i → SolvesBranch no_leaf d P q i (first_typing q gs) (first_branch q.type_vars (length q.vars) gs)) × (SolvesBranch no_leaf d P q i (first_typing q gs) (first_branch q.type_vars (length q.vars) gs) → IsPlainlyProvable d F q i) }
{}
