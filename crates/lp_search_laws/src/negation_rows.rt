// Worked searches with negated goals, by computation over the definition.

ghost use Rattle.lp_calculus.specs.Term.{abs};
ghost use Rattle.lp_calculus.specs.Types.{var};
ghost use Rattle.lp_model.specs.Skeleton.{AnswerNote, BackNote, GoalNote, named};
ghost use Rattle.lp_model.specs.declared.ending.Ending.TheVariants.{NoMore, OpenNot, Steps};
ghost use Rattle.lp_search_laws.specs.NegationRows.{asked, i, x};
ghost use Rattle.lp_search_laws.specs.ParameterRows.{asked_over, by};
ghost use Rattle.lp_search_laws.specs.Worked.{conj, impl, kind, known, on, values};
ghost use Rattle.lp_standard.specs.Connectives.{not_of, pi_of, sigma_of};
ghost use Rattle.std.specs.Prelude.{Some, [], ◌∷◌, ◌≡◌};

/// `lone X :- p X, not (q X)`: its answer, notes and steps, those of the inner searches among them.
pub fn a_clause_with_negation()
    ensures lone_value { values (asked 1 (on 36 (x 0)) 1000) ≡ (known 33 ∷ []) ∷ [] }
    ensures lone_end { (asked 1 (on 36 (x 0)) 1000).ending ≡ Some NoMore }
    ensures lone_notes { (asked 1 (on 36 (x 0)) 1000).notes ≡ GoalNote (named 36) ∷ GoalNote (named 34) ∷ GoalNote (named 24) ∷ GoalNote (named 35) ∷ BackNote ∷ GoalNote (named 24) ∷ GoalNote (named 35) ∷ AnswerNote 1 ∷ [] }
    ensures lone_steps { (asked 1 (on 36 (x 0)) 1000).steps ≡ 6 }
    ensures lone_stops { (asked 1 (on 36 (x 0)) 5).ending ≡ Some Steps }
{}

/// Negated goals without variables, below a `sigma`, a `pi` and an assumption.
pub fn negations_of_closed_goals()
    ensures some_q { values (asked 0 (not_of (sigma_of i (abs (on 35 (x 0))))) 1000) ≡ [] }
    ensures some_q_end { (asked 0 (not_of (sigma_of i (abs (on 35 (x 0))))) 1000).ending ≡ Some NoMore }
    ensures new_name { values (asked 0 (pi_of i (abs (not_of (on 35 (x 0))))) 1000) ≡ [] ∷ [] }
    ensures assumed { values (asked 0 (pi_of i (abs (impl (on 35 (x 0)) (not_of (on 35 (x 0)))))) 1000) ≡ [] }
    ensures assumed_end { (asked 0 (pi_of i (abs (impl (on 35 (x 0)) (not_of (on 35 (x 0)))))) 1000).ending ≡ Some NoMore }
{}

/// A variable in the goal, one in an assumption, and a cut that took something away.
pub fn open_negations()
    ensures open_variable { (asked 1 (not_of (on 35 (x 0))) 1000).ending ≡ Some OpenNot }
    ensures open_assumption { (asked 1 (impl (on 35 (x 0)) (not_of (on 35 (known 33)))) 1000).ending ≡ Some OpenNot }
    ensures cut_inside { (asked 0 (not_of (sigma_of i (abs (conj (on 34 (x 0)) (conj (known 7) (on 35 (known 33))))))) 1000).ending ≡ Some OpenNot }
{}

/// A type variable in the type of a parameter makes a negated goal open; with a type for it the goal is refuted or holds.
pub fn types_of_parameters()
    ensures open_gives { values (asked_over 1 (not_of (on 32 (by (var 0))))) ≡ [] }
    ensures open_end { (asked_over 1 (not_of (on 32 (by (var 0))))).ending ≡ Some OpenNot }
    ensures this_gives { values (asked_over 0 (not_of (on 32 (by (kind 9))))) ≡ [] }
    ensures this_end { (asked_over 0 (not_of (on 32 (by (kind 9))))).ending ≡ Some NoMore }
    ensures other_gives { values (asked_over 0 (not_of (on 32 (by (kind 10))))) ≡ [] ∷ [] }
{}
