//! What the search does to goals that are pattern terms (Miller 1991).
ghost use Rattle.std.specs.Prelude.{◌≡◌, ℕ, ◌<◌, ◌≤◌, List, [], ◌∷◌};
ghost use Rattle.lp_calculus.specs.Fill.{Binding, Within};
ghost use Rattle.lp_calculus.specs.Instance.{instance_term};
ghost use Rattle.lp_calculus.specs.Spine.{arguments};
ghost use Rattle.lp_calculus.specs.Term.{atom, eigen, Term};
ghost use Rattle.lp_calculus.specs.Types.{Ty};
ghost use Rattle.lp_lemmas.specs.Each.{EachOf};
ghost use Rattle.lp_model.specs.Branch.{Branch, resume};
ghost use Rattle.lp_model.specs.Flat.{Goal, Goals, instantiate_goals, put_goal, type_goal};
ghost use Rattle.lp_model.specs.Search.{pairs_of, slots_of, slotted};
ghost use Rattle.lp_model.specs.Unify.{State};
ghost use Rattle.lp_standard.specs.Connectives.{connective_of};
ghost use Rattle.lp_pattern_laws.specs.Goals.{ArePatternGoals, IsPatternGoal, IsPatternValue, StaysPattern};
ghost use Rattle.lp_pattern_laws.specs.Binders.{existential, IsAtLevel, IsPatternText, Binder, universal};
ghost use Rattle.lp_pattern_laws.specs.Parts.{existentials, IsPatternForm};
ghost use Rattle.lp_pattern_laws.specs.Patterns.{ArePatternPairs, free, IsNewTo, IsPattern, IsPatternTerm};
ghost use Rattle.lp_pattern_laws.specs.Tasks.{IsPatternBranch, IsPatternEntry};

/// A goal that is a pattern term is taken apart into such goals, where a `pi` gets an eigenconstant that is new to it; and the arguments of an atom are such terms.
pub fn pattern_goals_come_apart_into_patterns()
    ensures forms { (t : Term) (k : ℕ) → IsPatternTerm t → IsNewTo (free k) t → IsPatternForm k (connective_of t) }
    ensures arguments { (t : Term) → IsPatternTerm t → EachOf IsPatternTerm (arguments t) }
{}

/// Where a clause with a head of pattern text is tried for an atom that is a pattern term, under any types for its type variables, each of its variables becomes a
/// pattern term, and pairs of terms that reduce to such terms are unified; so none is left (`patterns_leave_no_pair`).
pub fn tried_clauses_unify_patterns()
    ensures variables { (l : ℕ) (vs : List Ty) (θ : ℕ → Ty) (h t : Term) (next level : ℕ) → IsPatternText l (existentials vs) h → IsPatternTerm t →
        (i : ℕ) → IsPatternTerm (slotted (slots_of [] (arguments (instance_term θ h)) (arguments t)) next level i) }
    ensures pairs { (l : ℕ) (vs : List Ty) (θ : ℕ → Ty) (h t : Term) (next level : ℕ) → IsPatternText l (existentials vs) h → IsPatternTerm t →
        ArePatternPairs (pairs_of (slotted (slots_of [] (arguments (instance_term θ h)) (arguments t)) next level) level [] (arguments (instance_term θ h)) (arguments t)) }
{}

/// Goals of pattern text stay so while a search goes on: where logic variables get values and type variables types, where the variable of a `sigma` or of a clause
/// becomes a closed term that reduces to a pattern term, and where that of a `pi` becomes an eigenconstant above the level.
pub fn pattern_goals_stay_so()
    ensures texts { (l : ℕ) (Γ : List Binder) (t : Term) → IsPatternText l Γ t → StaysPattern l Γ t }
    ensures values { (l : ℕ) (Γ : List Binder) (b : Binding) → IsPatternValue b → (g : Goal) → IsPatternGoal l Γ g → IsPatternGoal l Γ (put_goal b g) }
    ensures types { (l : ℕ) (Γ : List Binder) (κ : ℕ → Ty) (g : Goal) → IsPatternGoal l Γ g → IsPatternGoal l Γ (type_goal κ g) }
    ensures variables { (l : ℕ) (f : ℕ → Term) → IsPattern (f 0) → Within (IsAtLevel l) 0 (f 0) →
        (gs : Goals) → ArePatternGoals l (existential ∷ []) gs → ArePatternGoals l [] (instantiate_goals f gs) }
    ensures eigenconstants { (l k m : ℕ) (f : ℕ → Term) → f 0 ≡ atom (eigen k) → l < k → k ≤ m →
        (gs : Goals) → ArePatternGoals l (universal ∷ []) gs → ArePatternGoals m [] (instantiate_goals f gs) }
{}

/// A branch of pattern text is one behind a unification that leaves no pair and gives closed terms of their levels that reduce to pattern terms.
pub fn pattern_branches_go_on()
    ensures { (b : Branch) (s : State) → EachOf IsPatternEntry b.goals → s.delayed ≡ [] → EachOf IsPatternValue s.bindings → IsPatternBranch (resume b s) }
{}
