//! Laws of heads and their arguments.
ghost use Rattle.std.specs.Prelude.{◌≡◌, List};
ghost use Rattle.lp_calculus.specs.Term.{Term, index, abs, app, apply, shift};
ghost use Rattle.lp_calculus.specs.Convert.{Converts, ConvertAll};
ghost use Rattle.lp_calculus.specs.Normal.{IsHead};

/// Heads on arguments that convert are one head on as many arguments, which convert one by one.
pub fn heads_and_arguments()
    ensures { (h g : Term) (ts us : List Term) → IsHead h → IsHead g → Converts (apply h ts) (apply g us) → (h ≡ g) × ConvertAll ts us }
{}

/// What converts to an abstraction converts, on a new index, to its body: so heads and arguments agree up to eta.
pub fn abstraction_opens()
    ensures { (b t : Term) → Converts (abs b) t → Converts b (app (shift 0 1 t) (index 0)) }
{}

/// And the other way.
pub fn abstraction_closes()
    ensures { (b t : Term) → Converts b (app (shift 0 1 t) (index 0)) → Converts (abs b) t }
{}
