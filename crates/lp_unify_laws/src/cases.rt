// Each rule of plain unification at work: the cases that lp_pattern's tests run, over the definition.

ghost use Rattle.std.specs.Prelude.{◌≡◌, List, [], ◌∷◌, Option, Some};
ghost use Rattle.lp_calculus.specs.Types.{var};
ghost use Rattle.lp_calculus.specs.Term.{index, abs, apply};
ghost use Rattle.lp_unify_laws.specs.Cases.{Outcome, refused, found, too_many_units, within, run, pair, a, b, f, at, kind, X, Y, new, young, u, v, w};

/// Patterns: a function, swapped arguments, the places that agree, eta, abstractions.
pub fn patterns()
    ensures a_function { run (pair (X (u ∷ [])) (f (u ∷ u ∷ [])) 1 ∷ []) ≡ Some (found (abs (f (index 0 ∷ index 0 ∷ []))) []) }
    ensures swapped_arguments { run (pair (X (u ∷ v ∷ [])) (Y (v ∷ u ∷ [])) 2 ∷ []) ≡ Some (found (abs (abs (Y (index 0 ∷ index 1 ∷ [])))) []) }
    ensures a_value_in_a_value { run (pair (X []) (f (Y [] ∷ [])) 0 ∷ pair (Y []) b 0 ∷ []) ≡ Some (found (f (b ∷ [])) []) }
    ensures the_places_that_agree { run (pair (X (u ∷ v ∷ [])) (X (u ∷ w ∷ [])) 3 ∷ []) ≡ Some (found (abs (abs (new (index 1 ∷ [])))) []) }
    ensures an_eigenconstant_by_eta { run (pair (X (abs (apply u (index 0 ∷ [])) ∷ [])) (f (u ∷ [])) 1 ∷ []) ≡ Some (found (abs (f (index 0 ∷ []))) []) }
    ensures below_an_abstraction { run (pair (abs (X (index 0 ∷ []))) (abs (f (index 0 ∷ index 0 ∷ []))) 0 ∷ []) ≡ Some (found (abs (f (index 0 ∷ index 0 ∷ []))) []) }
{}

/// Levels: an eigenconstant too young, pruning and lowering.
pub fn levels()
    ensures too_young_an_eigenconstant { run (pair (X []) u 1 ∷ []) ≡ Some refused }
    ensures pruned { run (pair (X []) (f (Y (u ∷ []) ∷ [])) 1 ∷ []) ≡ Some (found (f (new [] ∷ [])) []) }
    ensures lowered { run (pair (X []) (f (young ∷ [])) 1 ∷ []) ≡ Some (found (f (new [] ∷ [])) []) }
    ensures lowered_on_arguments { run (pair (X (u ∷ [])) (f (young ∷ [])) 1 ∷ []) ≡ Some (found (abs (f (new (index 0 ∷ []) ∷ []))) []) }
{}

/// Pairs without a solution, and types.
pub fn failures()
    ensures the_other_side_has_the_variable { run (pair (X []) (f (X [] ∷ a ∷ [])) 0 ∷ []) ≡ Some refused }
    ensures two_values { run (pair (f (X [] ∷ X [] ∷ [])) (f (a ∷ b ∷ [])) 0 ∷ []) ≡ Some refused }
    ensures other_numbers_of_arguments { run (pair (f (a ∷ [])) (f (a ∷ a ∷ [])) 0 ∷ []) ≡ Some refused }
    ensures other_types { run (pair (at (kind 1)) (at (kind 2)) 0 ∷ []) ≡ Some refused }
    ensures a_type_for_a_type_variable { run (pair (at (var 3)) (at (kind 2)) 0 ∷ pair (at (kind 2)) (at (var 3)) 0 ∷ []) ≡ Some (found (X []) []) }
{}

/// Pairs outside the fragment wait, and are woken when something was bound.
pub fn delays()
    ensures no_pattern_is_left { run (pair (X (a ∷ [])) a 0 ∷ []) ≡ Some (found (X []) (pair (X (a ∷ [])) a 0 ∷ [])) }
    ensures flexible_inside { run (pair (X []) (f (Y (u ∷ u ∷ []) ∷ [])) 1 ∷ []) ≡ Some (found (X []) (pair (X []) (f (Y (u ∷ u ∷ []) ∷ [])) 1 ∷ [])) }
    ensures woken { run (pair (X (a ∷ [])) a 0 ∷ pair (X []) (abs (index 0)) 0 ∷ []) ≡ Some (found (abs (index 0)) []) }
    ensures woken_and_refused { run (pair (X (a ∷ [])) b 0 ∷ pair (X []) (abs (index 0)) 0 ∷ []) ≡ Some refused }
    ensures a_redex_that_waits { run (pair (apply (abs (apply (index 0) (a ∷ []))) (X [] ∷ [])) b 0 ∷ pair (X []) (abs b) 0 ∷ []) ≡ Some (found (abs b) []) }
{}

/// Units, at the limit and one below it.
pub fn units()
    ensures units_of_a_value { (within 2 (pair (X []) a 0 ∷ []) ≡ run (pair (X []) a 0 ∷ [])) × (within 1 (pair (X []) a 0 ∷ []) ≡ Some too_many_units) }
    ensures units_of_arguments { (within 4 (pair (f (X [] ∷ X [] ∷ [])) (f (a ∷ a ∷ [])) 0 ∷ []) ≡ run (pair (f (X [] ∷ X [] ∷ [])) (f (a ∷ a ∷ [])) 0 ∷ [])) × (within 3 (pair (f (X [] ∷ X [] ∷ [])) (f (a ∷ a ∷ [])) 0 ∷ []) ≡ Some too_many_units) }
    ensures units_of_nodes { (within 5 (pair (X []) (abs (f (index 0 ∷ a ∷ []))) 0 ∷ []) ≡ run (pair (X []) (abs (f (index 0 ∷ a ∷ []))) 0 ∷ [])) × (within 4 (pair (X []) (abs (f (index 0 ∷ a ∷ []))) 0 ∷ []) ≡ Some too_many_units) }
    ensures units_of_types { (within 3 (pair (at (var 3)) (at (kind 2)) 0 ∷ []) ≡ run (pair (at (var 3)) (at (kind 2)) 0 ∷ [])) × (within 2 (pair (at (var 3)) (at (kind 2)) 0 ∷ []) ≡ Some too_many_units) }
    ensures units_of_a_comparison { (within 3 (pair (X (f (a ∷ []) ∷ [])) (X (f (a ∷ []) ∷ [])) 0 ∷ []) ≡ run (pair (X (f (a ∷ []) ∷ [])) (X (f (a ∷ []) ∷ [])) 0 ∷ [])) × (within 2 (pair (X (f (a ∷ []) ∷ [])) (X (f (a ∷ []) ∷ [])) 0 ∷ []) ≡ Some too_many_units) }
{}
