// A clause against a goal: the terms for the clause's variables with which its head is the goal and its goals are provable are those of the closings
// that solve what a try asks for.

ghost use Rattle.std.specs.Prelude.{◌≡◌, ℕ, List, length, map};
ghost use Rattle.lp_calculus.specs.Types.{Ty, instance};
ghost use Rattle.lp_calculus.specs.Term.{Term};
ghost use Rattle.lp_model.specs.Pair.{Closing, closed};
ghost use Rattle.lp_model.specs.Flat.{Goals, formula_of_goals};
ghost use Rattle.lp_model.specs.Flatten.{ClauseFormula};
ghost use Rattle.lp_model.specs.Proofs.{Declared, no_leaf};
ghost use Rattle.lp_model.specs.Answers.{Variable, Closes};
ghost use Rattle.lp_search_laws.specs.Clauses.{Applies};
ghost use Rattle.lp_search_laws.specs.Tries.{IsMatch, SolvesMatch, GoesOn};

/// Where the clause applies, the closing goes on to one that solves the types of the heads and the pairs of the arguments.
pub fn applying_clauses_are_solved()
    ensures { (d : Declared) (E : List Ty) (V : List Variable) (P : List ClauseFormula) (level : ℕ) (vs : List Ty) (h : Term) (body : Goals) (t : Term) (c : Closing) → IsMatch d E V vs h (formula_of_goals body) t → Closes d V c → Applies no_leaf d (map (instance c.types) E) P c vs h body (closed c t) → (z : Closing) × GoesOn V c z × SolvesMatch no_leaf d E V P level vs h body t z }
{}

/// With each closing that solves them, and with which the goals of the clause are provable, the clause applies.
pub fn solved_clauses_apply()
    ensures { (d : Declared) (E : List Ty) (V : List Variable) (P : List ClauseFormula) (level : ℕ) (vs : List Ty) (h : Term) (body : Goals) (t : Term) (z : Closing) → length E ≡ level → IsMatch d E V vs h (formula_of_goals body) t → SolvesMatch no_leaf d E V P level vs h body t z → Applies no_leaf d (map (instance z.types) E) P z vs h body (closed z t) }
{}
