//! The search of pattern text (Miller 1991), whole.
ghost use Rattle.std.specs.Prelude.{◌≡◌, ℕ, List, [], length, Some};
ghost use Rattle.lp_lemmas.specs.Each.{EachOf};
ghost use Rattle.lp_standard.specs.Schemes.{IsStandard};
ghost use Rattle.lp_model.specs.Answers.{Query};
ghost use Rattle.lp_model.specs.Branch.{Answer};
ghost use Rattle.lp_model.specs.Flat.{Clause, Goals};
ghost use Rattle.lp_model.specs.Flatten.{ClauseFormula, flatten_query};
ghost use Rattle.lp_model.specs.Proofs.{AreFlattened, Declared};
ghost use Rattle.lp_model.specs.Search.{look, start};
ghost use Rattle.lp_model.specs.Skeleton.{run};
ghost use Rattle.lp_model.specs.Unify.{unit_limit};
ghost use Rattle.lp_search_laws.specs.Started.{IsTypedQuery, IsTypedSentence};
ghost use Rattle.lp_pattern_laws.specs.Goals.{AreTextGoals, IsTextClause};
ghost use Rattle.lp_pattern_laws.specs.Parts.{existentials};

/// No answer of the search has an equation left, where the flattened clauses of the program and the flattened goals of the query are pattern text, up to reduction, and
/// `sigma` stands in none of their atoms. Program and query are typed, and may have negated goals. The limits on steps and answers are any, as are the steps n of each
/// look and the moves.
pub fn pattern_answers_have_no_pairs()
    ensures { (d : Declared) → IsStandard d → (l : ℕ) (F : List ClauseFormula) (P : List Clause) → EachOf (IsTypedSentence d) F → AreFlattened d F P → EachOf IsTextClause P → (q : Query) (gs : Goals) → IsTypedQuery d q → flatten_query l d q.formula ≡ Some gs → AreTextGoals (existentials q.vars) gs →
        (n j m steps answers : ℕ) → EachOf (λ (a : Answer). a.pairs ≡ []) (run (look unit_limit n P) j m (start q.type_vars (length q.vars) gs steps answers)).answers }
{}
