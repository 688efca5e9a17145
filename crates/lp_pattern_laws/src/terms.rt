//! Pattern terms (Miller 1991) stay pattern terms: under reduction, and where a variable gets a value.
ghost use Rattle.lp_calculus.specs.Term.{Term};
ghost use Rattle.lp_calculus.specs.Convert.{ReducesTo};
ghost use Rattle.lp_pattern_laws.specs.Patterns.{IsPatternTerm};

/// What a pattern term reduces to, by beta and eta, is a pattern term.
pub fn patterns_reduce_to_patterns()
    ensures { (t s : Term) → ReducesTo t s → IsPatternTerm t → IsPatternTerm s }
{}
