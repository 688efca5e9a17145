// Negated goals: what a search that is refuted proves.

ghost use Rattle.std.specs.Prelude.{◌≡◌, ◌++◌, ◌∷◌, [], ℕ, Bool, List, Some, false, length, map, slice_get};
ghost use Rattle.lp_calculus.specs.Convert.{Converts};
ghost use Rattle.lp_calculus.specs.Term.{Term};
ghost use Rattle.lp_calculus.specs.Types.{Ty, instance};
ghost use Rattle.lp_lemmas.specs.Each.{EachOf};
ghost use Rattle.lp_model.specs.Branch.{Answer, Branch, Entry, both_written};
ghost use Rattle.lp_model.specs.Flat.{Clause, Clauses, Goals, Not, Written, denied, formula_of_goals, goals, no_goals};
ghost use Rattle.lp_model.specs.Answers.{AnswerTyping, Closes, IsProvable, Query};
ghost use Rattle.lp_model.specs.Flatten.{ClauseFormula, flatten_query};
ghost use Rattle.lp_model.specs.Proofs.{AreFlattened, Declared, IsFormula, Provable, ProvableBy, StandForClauses, StandsForGoal, newest_first, no_leaf};
ghost use Rattle.lp_model.specs.Pair.{Closing, closed};
ghost use Rattle.lp_model.specs.Search.{has_no_pairs, has_variables, look, start, with_goals};
ghost use Rattle.lp_model.specs.Skeleton.{Held, Note, Refuted, inner, run, starts, starts_within};
ghost use Rattle.lp_model.specs.declared.ending.Ending.TheVariants.{NoMore};
ghost use Rattle.lp_model.specs.Unify.{unit_limit};
ghost use Rattle.lp_model.specs.Variables.{IsVariableBelow, Variable};
ghost use Rattle.lp_search_laws.specs.Branches.{HasLeaf, IsProgramTyped, IsTypedBranch};
ghost use Rattle.lp_search_laws.specs.Clauses.{clauses_at};
ghost use Rattle.lp_search_laws.specs.Denials.{denied_task};
ghost use Rattle.lp_search_laws.specs.Failed.{InAny, IsFailedSearch};
ghost use Rattle.lp_search_laws.specs.Holds.{Holds};
ghost use Rattle.lp_search_laws.specs.Started.{IsPlainQuery, IsPlainSentence, IsProvableBy, IsTypedQuery, IsTypedSentence};
ghost use Rattle.lp_search_laws.specs.Unnegated.{AreUnnegatedGoals, IsUnnegatedClause};
ghost use Rattle.lp_standard.specs.Schemes.{IsStandard};
ghost use Rattle.lp_standard.specs.Connectives.{not_of};

/// What is tested to hold no variable is the same under each closing: its terms up to conversion. So a negated goal that is searched says the same whatever
/// becomes of the variables of its branch.
pub fn tested_values_are_closed()
    ensures { (n : ℕ) (w : Written) → has_variables n w ≡ Some false → (c : Closing) → EachOf (λ t. Converts (closed c t) t) w.terms × EachOf (λ T. instance c.types T ≡ T) w.types }
{}

/// Where the search of a negated goal is refuted, the negation of each formula for which its goals stand has a uniform proof, from the program and what is
/// assumed: the search itself is its leaf.
pub fn refuted_goals_have_proved_negations()
    ensures { (d : Declared) (F : List ClauseFormula) (P : List Clause) → AreFlattened d F P → (E : List Ty) (V : List Variable) (next_type : ℕ) → ((x : ℕ) (v : Variable) → slice_get V x ≡ Some v → IsVariableBelow next_type v) → (G : Term) (gs : Goals) → StandsForGoal d E V next_type G gs → (Ds : List ClauseFormula) (css : List Clauses) → StandForClauses d E V next_type Ds css → (w : Written) (steps looks j rows k p : ℕ) (ns : List Note) (is_final : Answer → Bool) →
        inner (look unit_limit looks P) j is_final (starts_within rows (denied_task (length V) next_type gs (newest_first css) w (length E)) steps 1) ≡ Refuted k ns p → Provable d (length F) E (F ++ Ds) (not_of G) }
{}

/// What a negated goal's search says, where neither its goals nor the clauses have a negation: where it is refuted no closing of the variables of its branch makes
/// its goals provable, and where it is held some closing does. (And what is tested is the same under each closing.)
pub fn negations_are_judged_rightly()
    ensures { (n : ℕ) (d : Declared) → IsStandard d → (P : List Clause) → EachOf (IsProgramTyped d) P → EachOf IsUnnegatedClause P → (q : Query) (z : AnswerTyping) (b : Branch) (E : List Ty) (Es : List (List Ty)) (e : Entry) (es : List Entry) → IsTypedBranch n d q (record { answer = z; eigens = E ∷ Es }) (with_goals b (e ∷ es)) →
        (w : Written) (gs : Goals) → e.goal ≡ Not w gs → AreUnnegatedGoals gs → EachOf IsUnnegatedClause e.assumed → (j steps k p : ℕ) (ns : List Note) →
        (inner (look unit_limit n P) j has_no_pairs (starts (denied_task b.next b.next_type gs e.assumed e.written e.level) steps 1) ≡ Refuted k ns p → (c : Closing) → Closes d z.variables c → Holds no_leaf d (map (instance c.types) E) (clauses_at P e.assumed c) c (formula_of_goals gs) → ⊥) ×
        (inner (look unit_limit n P) j has_no_pairs (starts (denied_task b.next b.next_type gs e.assumed e.written e.level) steps 1) ≡ Held k ns p → (c : Closing) × Closes d z.variables c × Holds no_leaf d (map (instance c.types) E) (clauses_at P e.assumed c) c (formula_of_goals gs)) }
{}

/// The search of a negated goal decides it, whatever negations stand in the goals and in the clauses: where it is refuted it is a failing search
/// for the goals as each closing of the variables of its branch makes them, and where it is held the goals are provable under each closing, and for none is there a failing search.
pub fn negated_goals_are_decided()
    ensures { (n : ℕ) (d : Declared) → IsStandard d → (P : List Clause) → EachOf (IsProgramTyped d) P → (q : Query) (z : AnswerTyping) (b : Branch) (E : List Ty) (Es : List (List Ty)) (e : Entry) (es : List Entry) → IsTypedBranch n d q (record { answer = z; eigens = E ∷ Es }) (with_goals b (e ∷ es)) →
        (w : Written) (gs : Goals) → e.goal ≡ Not w gs → has_variables n (both_written w e.written) ≡ Some false → (j steps k p : ℕ) (ns : List Note) →
        (inner (look unit_limit n P) j has_no_pairs (starts (denied_task b.next b.next_type gs e.assumed e.written e.level) steps 1) ≡ Refuted k ns p → (c : Closing) → Closes d z.variables c → HasLeaf (IsFailedSearch InAny d P) P c E e.assumed gs) ×
        (inner (look unit_limit n P) j has_no_pairs (starts (denied_task b.next b.next_type gs e.assumed e.written e.level) steps 1) ≡ Held k ns p → (c : Closing) → Closes d z.variables c → Holds (IsFailedSearch InAny d P) d (map (instance c.types) E) (clauses_at P e.assumed c) c (formula_of_goals gs) × (HasLeaf (IsFailedSearch InAny d P) P c E e.assumed gs → ⊥)) }
{}

/// What the query `not G` says, where G has no variables and neither G nor the program a negation: it is answered only where G has no proof, and it ends with no
/// more and no answer only where G has one. The goals are those of G, denied.
pub fn closed_negations_are_right()
    ensures { (d : Declared) → IsStandard d → (l : ℕ) (F : List ClauseFormula) (P : List Clause) → EachOf (IsPlainSentence d) F → AreFlattened d F P → (G : Term) (gs : Goals) → IsPlainQuery d (record { type_vars = 0; vars = []; formula = G }) → flatten_query l d G ≡ Some gs → (n j m steps answers : ℕ) →
        ((a : Answer) (more : List Answer) → (run (look unit_limit n P) j m (start 0 0 (goals (denied gs) no_goals) steps answers)).answers ≡ a ∷ more → IsProvable d F (record { type_vars = 0; vars = []; formula = G }) (record { types = []; values = [] }) → ⊥) ×
        ((run (look unit_limit n P) j m (start 0 0 (goals (denied gs) no_goals) steps answers)).ending ≡ Some NoMore → (run (look unit_limit n P) j m (start 0 0 (goals (denied gs) no_goals) steps answers)).answers ≡ [] → IsProvable d F (record { type_vars = 0; vars = []; formula = G }) (record { types = []; values = [] })) }
{}

/// The same whatever negations stand in G and in the program: G has a proof or none, with failing searches for what is negated in it.
pub fn closed_negations_are_decided()
    ensures { (d : Declared) → IsStandard d → (l : ℕ) (F : List ClauseFormula) (P : List Clause) → EachOf (IsTypedSentence d) F → AreFlattened d F P → (G : Term) (gs : Goals) → IsTypedQuery d (record { type_vars = 0; vars = []; formula = G }) → flatten_query l d G ≡ Some gs → (n j m steps answers : ℕ) →
        ((a : Answer) (more : List Answer) → (run (look unit_limit n P) j m (start 0 0 (goals (denied gs) no_goals) steps answers)).answers ≡ a ∷ more → IsProvableBy (IsFailedSearch InAny d P) d F (record { type_vars = 0; vars = []; formula = G }) (record { types = []; values = [] }) → ⊥) ×
        ((run (look unit_limit n P) j m (start 0 0 (goals (denied gs) no_goals) steps answers)).ending ≡ Some NoMore → (run (look unit_limit n P) j m (start 0 0 (goals (denied gs) no_goals) steps answers)).answers ≡ [] → IsProvableBy (IsFailedSearch InAny d P) d F (record { type_vars = 0; vars = []; formula = G }) (record { types = []; values = [] })) }
{}

/// No formula and its negation are both provable, from whatever clauses, with failing searches of a typed program as leaves.
pub fn negation_is_consistent()
    ensures { (d : Declared) → IsStandard d → (P : List Clause) → EachOf (IsProgramTyped d) P → (E : List Ty) (R : List ClauseFormula) (G : Term) → IsFormula d E (not_of G) → ProvableBy (IsFailedSearch InAny d P) d E R G → ProvableBy (IsFailedSearch InAny d P) d E R (not_of G) → ⊥ }
{}
