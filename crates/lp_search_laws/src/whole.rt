// The search of whole programs of hereditary Harrop formulas.

ghost use Rattle.std.specs.Prelude.{◌≡◌, ℕ, List, length, Some};
ghost use Rattle.lp_model.specs.Unify.{unit_limit};
ghost use Rattle.lp_lemmas.specs.Each.{EachOf};
ghost use Rattle.lp_standard.specs.Schemes.{IsStandard};
ghost use Rattle.lp_model.specs.Skeleton.{Told, run};
ghost use Rattle.lp_model.specs.Branch.{Answer};
ghost use Rattle.lp_model.specs.Flat.{Goals, Clause};
ghost use Rattle.lp_model.specs.Flatten.{ClauseFormula, flatten_query};
ghost use Rattle.lp_model.specs.Answers.{AnswerTyping, Instance, IsClosedInstance, Query, IsRight, IsWellFormed};
ghost use Rattle.lp_model.specs.Proofs.{Declared, AreFlattened};
ghost use Rattle.lp_model.specs.Search.{ComesTo, look, start};
ghost use Rattle.lp_search_laws.specs.Failed.{InAny, InOrder, IsFailedSearch};
ghost use Rattle.lp_search_laws.specs.Given.{IsGiven};
ghost use Rattle.lp_search_laws.specs.Right.{IsRightBy};
ghost use Rattle.lp_search_laws.specs.Started.{IsPlainQuery, IsPlainSentence, IsProvableBy, IsTypedQuery, IsTypedSentence};

/// Soundness and exhaustion, of programs and queries without negation: each closed instance of an answer has a uniform proof, and where there is no more, each
/// instance of the query that has one is, up to conversion, an instance of an answer. The steps n of each look, and the moves, are any: where they are too few
/// the run has no end.
pub fn plain_search_is_right()
    ensures { (d : Declared) → IsStandard d → (l : ℕ) (F : List ClauseFormula) (P : List Clause) → EachOf (IsPlainSentence d) F → AreFlattened d F P → (q : Query) (gs : Goals) → IsPlainQuery d q → flatten_query l d q.formula ≡ Some gs → (n j m steps answers : ℕ) → IsRight d F q (run (look unit_limit n P) j m (start q.type_vars (length q.vars) gs steps answers)) }
{}

/// Soundness of the whole language, negation too: each answer is well formed under the typing that the search gives the variables that are left, its values are positive, and each of its closed instances gives
/// the query's variables closed positive terms of their types, with which it has a uniform proof from the source clauses. In that a negated goal is proved by a search that fails. The search stands for the goal as some closing of its variables makes its goals, and for the clauses that are assumed there, in
/// their order, but for conversion and flattening.
pub fn answers_are_sound()
    ensures { (d : Declared) → IsStandard d → (l : ℕ) (F : List ClauseFormula) (P : List Clause) → EachOf (IsTypedSentence d) F → AreFlattened d F P → (q : Query) (gs : Goals) → IsTypedQuery d q → flatten_query l d q.formula ≡ Some gs → (n j m steps answers : ℕ) → EachOf (λ a. (y : AnswerTyping) × IsGiven n d P q gs (record { answer = a; typing = y }) × IsWellFormed d q y a × ((i : Instance) → IsClosedInstance d y a i → IsProvableBy (IsFailedSearch (InOrder F) d P) d F q i)) (run (look unit_limit n P) j m (start q.type_vars (length q.vars) gs steps answers)).answers }
{}

/// Soundness and exhaustion of the whole language, negation too, under the typings that the search gives: each closed instance of an answer has a uniform proof from the source clauses, and where there is no
/// more, each instance of the query that has one is, up to conversion, an instance of an answer. In these proofs a negated goal is proved by a search that fails,
/// with the clauses in any order.
pub fn search_is_right()
    ensures { (d : Declared) → IsStandard d → (l : ℕ) (F : List ClauseFormula) (P : List Clause) → EachOf (IsTypedSentence d) F → AreFlattened d F P → (q : Query) (gs : Goals) → IsTypedQuery d q → flatten_query l d q.formula ≡ Some gs → (n j m steps answers : ℕ) → IsRightBy (IsFailedSearch InAny d P) (IsGiven n d P q gs) d F q (run (look unit_limit n P) j m (start q.type_vars (length q.vars) gs steps answers)) }
{}

/// The search comes to a value, for each limit on steps and answers, of the whole language.
pub fn search_comes_to_a_value()
    ensures { (d : Declared) → IsStandard d → (l : ℕ) (F : List ClauseFormula) (P : List Clause) → EachOf (IsTypedSentence d) F → AreFlattened d F P → (q : Query) (gs : Goals) → IsTypedQuery d q → flatten_query l d q.formula ≡ Some gs → (steps answers : ℕ) → (t : Told Answer) × ComesTo P (start q.type_vars (length q.vars) gs steps answers) t }
{}
