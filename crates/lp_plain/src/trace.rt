// What was done on the way to the branch at work, as others see it.
ghost use Rattle.std.specs.Prelude.{◌≡◌, length};
ghost use Rattle.lp_plain.specs.Held.{value_of, type_value_of, query_of, variables_of};

use crate::act::{Act, Try};
use crate::candidates::Candidate;
use crate::search::Search;
use crate::table::Span;
use lp_model::{ClauseFormula, Typed};
use lp_term::{Bank, TermId, TypeId};

/// A flattened clause by where it comes from.
#[derive(Clone, Copy, Debug, PartialEq, Eq)]
pub enum Origin {
    /// Of the clause formula of this number, the part of this number.
    Program(usize, usize),
    /// The assumption of this number.
    Assumed(usize),
}

// The span that the number is in. The spans are in order.
fn span_of(spans: &Vec<Span>, number: usize) -> Option<usize> {
    let mut low = 0usize;
    let mut high = spans.len();
    'halves: for _ in 0..64 {
        if low >= high {
            return Some(low);
        }
        let middle = low + (high - low) / 2;
        let Some(span) = spans.get(middle) else {
            return None;
        };
        if span.to <= number {
            low = middle.saturating_add(1);
        } else {
            high = middle;
        }
    }
    None
}

impl Search {
    /// The bank in which the terms of the search stand.
    pub fn bank(&self) -> &Bank {
        &self.machine.bank
    }

    /// The clause formulas of the program.
    pub fn clauses(&self) -> &Vec<ClauseFormula> {
        &self.source.clauses
    }

    /// The query.
    #[tactic(auto, unfolding(crate::specs::Held::query_of))]
    pub fn query(&self) -> &Typed
        ensures { result.now ≡ query_of self.now }
    {
        &self.source.query
    }

    /// The variables of the query, in order.
    #[tactic(auto, unfolding(crate::specs::Held::variables_of))]
    pub fn variables(&self) -> &Vec<TermId>
        ensures { length result.now.items ≡ variables_of self.now }
    {
        &self.variables
    }

    /// What a logic variable is bound to.
    #[tactic(auto, unfolding(crate::specs::Held::value_of))]
    pub fn value(&self, variable: u64) -> Option<TermId>
        ensures { result ≡ value_of self.now variable }
    {
        self.machine.bindings.value(variable)
    }

    /// What a type variable is bound to.
    #[tactic(auto, unfolding(crate::specs::Held::type_value_of))]
    pub fn type_value(&self, variable: u64) -> Option<TypeId>
        ensures { result ≡ type_value_of self.now variable }
    {
        self.machine.bindings.type_value(variable)
    }

    /// What was done on the way to the branch at work: the act of this number, from 0, in time. The goals of a branch are taken depth first, so these
    /// are the choices of a proof of the query, in the order of its nodes, as long as no pair is residual.
    pub fn act(&self, number: usize) -> Option<Act> {
        self.machine.acts.get(number).copied()
    }

    fn origin_of(&self, candidate: Candidate) -> Option<Origin> {
        match candidate {
            Candidate::Assumed(number) => Some(Origin::Assumed(number)),
            Candidate::Program(rule) => {
                let formula = span_of(&self.source.spans, rule)?;
                let span = self.source.spans.get(formula)?;
                let part = rule.checked_sub(span.from)?;
                Some(Origin::Program(formula, part))
            }
        }
    }

    /// Where the clause of a try comes from.
    pub fn origin(&self, tried: Try) -> Option<Origin> {
        self.origin_of(tried.candidate)
    }

    /// The number of the type variable that stood for the clause's first one. The others follow it.
    pub fn first_type(&self, tried: Try) -> u64 {
        tried.first_type
    }

    fn rule_of(&self, candidate: Candidate) -> Option<usize> {
        match candidate {
            Candidate::Assumed(number) => {
                let assumption = self.machine.assumptions.get(number)?;
                Some(assumption.rule)
            }
            Candidate::Program(number) => Some(number),
        }
    }

    /// How many variables the clause has.
    pub fn clause_variables(&self, tried: Try) -> Option<usize> {
        let number = self.rule_of(tried.candidate)?;
        let rule = self.machine.table.rules.get(number)?;
        Some(rule.slots.len())
    }

    /// What stood for a variable of the clause, counted from the innermost one.
    pub fn clause_value(&self, tried: Try, index: usize) -> Option<TermId> {
        self.machine.scopes.value(tried.scope, index as u64)
    }
}
