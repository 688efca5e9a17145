// Worked searches: what they tell, by computation over the definition.

ghost use Rattle.lp_calculus.specs.Term.{abs, app, atom, integer, text};
ghost use Rattle.lp_calculus.specs.Types.{arrow, var};
ghost use Rattle.lp_calculus.specs.Typing.{int_type, o_type};
ghost use Rattle.lp_model.specs.Skeleton.{AnswerNote, BackNote, GoalNote, named};
ghost use Rattle.lp_model.specs.declared.ending.Ending.TheVariants.{Arithmetic, Flexible, NoMore, NoMoreCut, Steps};
ghost use Rattle.lp_model.specs.declared.ending.Fault.TheVariants.{NotClosed, Overflow, ZeroDivisor};
ghost use Rattle.lp_model.specs.Flatten.{flatten_query};
ghost use Rattle.lp_model.specs.Proofs.{AreFlattened};
ghost use Rattle.lp_search_laws.specs.StartRow.{declared, flat_query, flat_rule, query, rule};
ghost use Rattle.lp_search_laws.specs.Started.{IsTypedQuery, IsTypedSentence};
ghost use Rattle.lp_search_laws.specs.SearchRows.{append, appends, both_ways, calculation, cons, empty, eq, free, fun, hyp, i, int, ints_text, is, lists, local, local_rules, loop, loop_rules, nil, of_rules, once, once_rules, poly, stlc, tag, tags, ten, x};
ghost use Rattle.lp_search_laws.specs.Worked.{conj, impl, kind, known, on, on2, residues, told, values};
ghost use Rattle.lp_standard.specs.Connectives.{pi_of, sigma_of, two};
ghost use Rattle.std.specs.Prelude.{Some, [], neg_ℤ, pos, ◌∷◌, ◌≡◌};

/// A variable takes no eigenconstant that is younger than it; functions, swapped arguments and two `pi` beside each other.
pub fn levels()
    ensures too_old { values (told empty [] 1 1 (pi_of (var 0) (abs (two 8 (var 0 ∷ []) (x 1) (x 0)))) 1000 100) ≡ [] }
    ensures too_old_end { (told empty [] 1 1 (pi_of (var 0) (abs (two 8 (var 0 ∷ []) (x 1) (x 0)))) 1000 100).ending ≡ Some NoMore }
    ensures function { values (told fun [] 0 1 (pi_of i (abs (eq (app (x 1) (x 0)) (on2 33 (x 0) (x 0))))) 1000 100) ≡ (abs (on2 33 (x 0) (x 0)) ∷ []) ∷ [] }
    ensures swapped { values (told fun [] 0 2 (pi_of i (abs (pi_of i (abs (eq (app (app (x 3) (x 1)) (x 0)) (app (app (x 2) (x 0)) (x 1))))))) 1000 100) ≡ (abs (abs (app (app (free 1) (x 0)) (x 1))) ∷ free 1 ∷ []) ∷ [] }
    ensures siblings { values (told fun [] 0 2 (conj (pi_of i (abs (eq (app (x 2) (x 0)) (x 0)))) (pi_of i (abs (eq (app (x 1) (x 0)) (on2 33 (x 0) (x 0)))))) 1000 100) ≡ (abs (x 0) ∷ abs (on2 33 (x 0) (x 0)) ∷ []) ∷ [] }
    ensures some_term { values (told fun [] 0 1 (sigma_of i (abs (eq (x 1) (on2 33 (x 0) (x 0))))) 1000 100) ≡ (on2 33 (free 1) (free 1) ∷ []) ∷ [] }
{}

/// Equations that wait and are taken up again, a circle, and a goal whose head is a variable.
pub fn pairs_that_wait()
    ensures delayed { residues (told fun [] 0 1 (eq (app (x 0) (known 32)) (known 32)) 1000 100) ≡ (record { left = app (free 0) (known 32); right = known 32; level = 0 } ∷ []) ∷ [] }
    ensures woken { residues (told fun [] 0 1 (conj (eq (app (x 0) (known 32)) (known 32)) (two 8 (arrow i i ∷ []) (x 0) (abs (x 0)))) 1000 100) ≡ [] ∷ [] }
    ensures circular { values (told fun [] 0 1 (eq (x 0) (on2 33 (x 0) (known 32))) 1000 100) ≡ [] }
    ensures flexible { (told fun [] 0 1 (app (x 0) (known 32)) 1000 100).ending ≡ Some Flexible }
{}

/// An assumption holds for its goal alone, and the newest one is tried first.
pub fn assumptions()
    ensures assumed { values (told hyp [] 0 0 (pi_of (kind 8) (abs (impl (on 32 (x 0)) (on 32 (x 0))))) 1000 100) ≡ [] ∷ [] }
    ensures scoped { values (told hyp [] 0 0 (conj (impl (on 32 (known 33)) (on 32 (known 33))) (on 32 (known 33))) 1000 100) ≡ [] }
    ensures newest_first { values (told hyp [] 0 1 (impl (on 32 (known 33)) (impl (on 32 (known 34)) (on 32 (x 0)))) 1000 100) ≡ (known 34 ∷ []) ∷ (known 33 ∷ []) ∷ [] }
{}

/// The types of lambda terms, by `pi` and `=>`.
pub fn typing_rules()
    ensures identity { values (told stlc of_rules 0 1 (on2 35 (on 32 (abs (x 0))) (x 0)) 1000 100) ≡ (on2 34 (free 2) (free 2) ∷ []) ∷ [] }
    ensures self_application { values (told stlc of_rules 0 1 (on2 35 (on 32 (abs (on2 33 (x 0) (x 0)))) (x 0)) 1000 100) ≡ [] }
    ensures self_application_end { (told stlc of_rules 0 1 (on2 35 (on 32 (abs (on2 33 (x 0) (x 0)))) (x 0)) 1000 100).ending ≡ Some NoMore }
{}

/// The type of a list tells rules apart at run time.
pub fn type_arguments()
    ensures tagged { values (told poly tags 0 2 (conj (on 32 (x 1)) (tag int_type (x 1) (x 0))) 1000 100) ≡ (nil int_type ∷ ints_text ∷ []) ∷ [] }
    ensures tagged_end { (told poly tags 0 2 (conj (on 32 (x 1)) (tag int_type (x 1) (x 0))) 1000 100).ending ≡ Some NoMore }
{}

/// A loop, and ten goals within ten and nine steps.
pub fn step_limits()
    ensures loops { (told loop loop_rules 0 0 (known 32) 10 100).ending ≡ Some Steps }
    ensures ten_steps { values (told loop loop_rules 0 0 ten 10 100) ≡ [] ∷ [] }
    ensures ten_steps_end { (told loop loop_rules 0 0 ten 10 100).ending ≡ Some NoMore }
    ensures nine_steps { (told loop loop_rules 0 0 ten 9 100).ending ≡ Some Steps }
{}

/// A cut ends its clause's alternatives, and no others; the filter by the first argument leaves it none to take away.
pub fn cuts()
    ensures first_only { values (told once once_rules 0 1 (on 35 (x 0)) 1000 100) ≡ (known 32 ∷ []) ∷ [] }
    ensures first_only_end { (told once once_rules 0 1 (on 35 (x 0)) 1000 100).ending ≡ Some NoMoreCut }
    ensures filtered { (told once once_rules 0 0 (on 35 (known 33)) 1000 100).ending ≡ Some NoMore }
    ensures local_cut { values (told local local_rules 0 1 (on 35 (x 0)) 1000 100) ≡ (known 32 ∷ []) ∷ (known 33 ∷ []) ∷ [] }
    ensures local_cut_end { (told local local_rules 0 1 (on 35 (x 0)) 1000 100).ending ≡ Some NoMoreCut }
{}

/// Goals whose form is known only when they are run.
pub fn goals_known_at_run_time()
    ensures at_run_time { values (told once once_rules 0 1 (conj (two 8 (arrow i o_type ∷ []) (x 0) (known 34)) (app (x 0) (known 33))) 1000 100) ≡ (known 34 ∷ []) ∷ [] }
    ensures at_run_time_end { (told once once_rules 0 1 (conj (two 8 (arrow i o_type ∷ []) (x 0) (known 34)) (app (x 0) (known 33))) 1000 100).ending ≡ Some NoMore }
    ensures conjunction_at_run_time { (told once once_rules 0 1 (conj (two 8 (arrow i o_type ∷ []) (x 0) (abs (conj (on 34 (x 0)) (on 34 (x 0))))) (app (x 0) (known 32))) 1000 100).steps ≡ 3 }
{}

/// Arithmetic on integers and texts, and its faults.
pub fn calculations()
    ensures overflow { (told empty [] 0 1 (is int_type (x 0) (two 16 [] (int 9223372036854775807) (int 1))) 1000 100).ending ≡ Some (Arithmetic Overflow) }
    ensures zero_divisor { (told empty [] 0 1 (is int_type (x 0) (two 19 [] (int 1) (int 0))) 1000 100).ending ≡ Some (Arithmetic ZeroDivisor) }
    ensures not_closed { (told empty [] 0 2 (is int_type (x 1) (two 16 [] (x 0) (int 1))) 1000 100).ending ≡ Some (Arithmetic NotClosed) }
    ensures calculated { values (told empty [] 0 4 calculation 1000 100) ≡ (atom (integer (neg_ℤ (pos 3))) ∷ atom (integer (neg_ℤ (pos 1))) ∷ atom (text (97 ∷ 98 ∷ 99 ∷ [])) ∷ int 3 ∷ []) ∷ [] }
{}

/// Lists joined and split, with their notes; alternatives.
pub fn lists()
    ensures joined { values (told lists appends 0 1 (append int_type (cons int_type (int 1) (nil int_type)) (cons int_type (int 2) (nil int_type)) (x 0)) 1000 100) ≡ (cons int_type (int 1) (cons int_type (int 2) (nil int_type)) ∷ []) ∷ [] }
    ensures split { values (told lists appends 0 2 (append int_type (x 1) (x 0) (cons int_type (int 1) (nil int_type))) 1000 100) ≡ (nil int_type ∷ cons int_type (int 1) (nil int_type) ∷ []) ∷ (cons int_type (int 1) (nil int_type) ∷ nil int_type ∷ []) ∷ [] }
    ensures split_notes { (told lists appends 0 2 (append int_type (x 1) (x 0) (cons int_type (int 1) (nil int_type))) 1000 100).notes ≡ GoalNote (named 32) ∷ AnswerNote 1 ∷ BackNote ∷ GoalNote (named 32) ∷ AnswerNote 2 ∷ BackNote ∷ [] }
    ensures split_end { (told lists appends 0 2 (append int_type (x 1) (x 0) (cons int_type (int 1) (nil int_type))) 1000 100).ending ≡ Some NoMore }
    ensures alternatives { values (told fun [] 0 1 (two 1 [] (eq (x 0) (known 32)) (eq (x 0) (on2 33 (known 32) (known 32)))) 1000 100) ≡ (known 32 ∷ []) ∷ (on2 33 (known 32) (known 32) ∷ []) ∷ [] }
    ensures alternatives_notes { (told fun [] 0 1 (two 1 [] (eq (x 0) (known 32)) (eq (x 0) (on2 33 (known 32) (known 32)))) 1000 100).notes ≡ GoalNote (named 8) ∷ AnswerNote 1 ∷ BackNote ∷ GoalNote (named 8) ∷ AnswerNote 2 ∷ [] }
{}

/// A sentence, its clause, and a query with arithmetic: what the laws on the start of a search ask for.
pub fn a_typed_program()
    ensures sentence { IsTypedSentence declared rule }
    ensures program { AreFlattened declared (rule ∷ []) (flat_rule ∷ []) }
    ensures asked { IsTypedQuery declared query }
    ensures goals { flatten_query 9 declared query.formula ≡ Some flat_query }
{}

/// An answer does not say the types of its variables: a query over variables of one type and the same query over those of another have the same. So answers are judged
/// by the typing that the search gives: only where Z and W have the type of X and Y may these be any two terms.
pub fn answers_without_types()
    ensures of_the_same_type { values (told fun [] 0 2 (both_ways i) 1000 100) ≡ (app (app (free 2) (free 3)) (free 4) ∷ app (app (free 2) (free 4)) (free 3) ∷ []) ∷ [] }
    ensures of_another_type { values (told fun [] 0 2 (both_ways (kind 9)) 1000 100) ≡ (app (app (free 2) (free 3)) (free 4) ∷ app (app (free 2) (free 4)) (free 3) ∷ []) ∷ [] }
{}
