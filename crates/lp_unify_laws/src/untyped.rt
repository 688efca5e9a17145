// Typing is needed: pairs that have no typing, with a solution that the rules lose.

ghost use Rattle.std.specs.Prelude.{◌≡◌, [], ◌∷◌, Some};
ghost use Rattle.lp_model.specs.Pair.{Solves};
ghost use Rattle.lp_model.specs.Unify.{Fail, Solution, solve};
ghost use Rattle.lp_unify_laws.specs.Untyped.{occurs, applies, swapped, swapped_binding, loop, ended};

/// `X h v = h (z\ X v z)` is refused, and `X = p\ q\ (p q)` solves it.
pub fn an_untyped_failure()
    ensures { (solve 20 100 [] (occurs ∷ []) [] 1 ≡ Some Fail) × Solves applies occurs }
{}

/// `X x y = X y x` binds X to a constant function, and `X = u u` with `u = u\ x\ y\ (u u y x)` solves it.
pub fn an_untyped_binding()
    ensures { (solve 20 100 [] (swapped ∷ []) [] 1 ≡ Some (Solution (ended (swapped_binding ∷ []) 2 2))) × Solves loop swapped }
{}
