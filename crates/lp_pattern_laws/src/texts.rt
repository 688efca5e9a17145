//! Pattern text (Miller 1991), while it is opened: what binds its variables is taken away, and they get terms.
ghost use Rattle.std.specs.Prelude.{ℕ, List};
ghost use Rattle.lp_calculus.specs.Term.{Term};
ghost use Rattle.lp_model.specs.Index.{instantiate};
ghost use Rattle.lp_model.specs.Pair.{Closing, closed};
ghost use Rattle.lp_pattern_laws.specs.Patterns.{IsPatternTerm};
ghost use Rattle.lp_pattern_laws.specs.Binders.{HasPatternValues, IsOpening, IsPatternText, Binder};

/// Pattern text is a pattern term as soon as its universal variables are eigenconstants that are new to it, no two the same, and each of its existential variables
/// is any pattern term without those that are bound below it. Its logic variables may have got such terms too, at their levels, and its type variables types.
pub fn openings_of_pattern_text_are_patterns()
    ensures { (l : ℕ) (Γ : List Binder) (t : Term) → IsPatternText l Γ t → (c : Closing) → HasPatternValues c →
        (σ : ℕ → Term) → IsOpening l Γ σ → IsPatternTerm (instantiate σ (closed c t)) }
{}
