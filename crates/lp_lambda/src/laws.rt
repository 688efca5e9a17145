//! Rows of pattern text.
ghost use Rattle.lp_lambda.specs.Pattern.{IsPatternClause, IsPatternQuery};
ghost use Rattle.lp_lambda.specs.Rows as row;

/// Clauses and queries of the worked examples.
pub fn examples_are_judged()
    ensures applications_typed { IsPatternClause row.applications_typed }
    ensures abstractions_typed { IsPatternClause row.abstractions_typed }
    ensures identity_typed { IsPatternQuery row.identity_typed }
    ensures on_a_constant { IsPatternQuery row.on_a_constant → ⊥ }
    ensures abstractions_evaluated { IsPatternClause row.abstractions_evaluated }
    ensures applications_evaluated { IsPatternClause row.applications_evaluated → ⊥ }
{}

/// The arguments of an existential variable: up to eta, distinct, and bound inside its scope.
pub fn arguments_are_judged()
    ensures expanded { IsPatternQuery row.expanded }
    ensures exchanged { IsPatternQuery row.exchanged }
    ensures expanded_argument { IsPatternQuery row.expanded_argument }
    ensures distinct { IsPatternQuery row.distinct }
    ensures repeated { IsPatternQuery row.repeated → ⊥ }
    ensures bound_outside { IsPatternQuery row.bound_outside → ⊥ }
    ensures bound_inside { IsPatternQuery row.bound_inside }
    ensures on_a_variable { IsPatternQuery row.on_a_variable → ⊥ }
{}

/// Quantifiers: on a term that is no abstraction, inside terms, and in clauses and goals in one another.
pub fn quantifiers_are_judged()
    ensures some_constant { IsPatternQuery row.some_constant }
    ensures some_variable { IsPatternQuery row.some_variable → ⊥ }
    ensures every_variable { IsPatternQuery row.every_variable }
    ensures every_predicate { IsPatternQuery row.every_predicate }
    ensures some_inside { IsPatternQuery row.some_inside → ⊥ }
    ensures some_clause { IsPatternClause row.some_clause → ⊥ }
    ensures not_every { IsPatternQuery row.not_every }
    ensures not_some { IsPatternQuery row.not_some → ⊥ }
    ensures assumed_application { IsPatternQuery row.assumed_application → ⊥ }
    ensures assumed_variable { IsPatternQuery row.assumed_variable → ⊥ }
{}
