// The arguments of existential variables.
ghost use Rattle.std.specs.Prelude.{◌≡◌, map, reverse};
ghost use Rattle.lp_term.specs.Nodes.{tree};
ghost use Rattle.lp_lambda.specs.Pattern.{is_index, is_among, is_name, are_names};

use crate::walk::{Binder, Walk};
use lp_term::{Bank, TermId, TermNode};

fn is_index(bank: &Bank, index: u64, term: TermId) -> bool
    ensures { result ≡ is_index index (tree bank.now term.0) }
{
    match bank.term_node(term) {
        TermNode::Index(at) => at == index,
        _ => false,
    }
}

// Whether an index stands among the terms.
fn is_among(bank: &Bank, index: u64, terms: &[TermId]) -> bool
    ensures { result ≡ is_among index (map (λ t. tree bank.now t.0) terms.now) }
{
    for place in 0..terms.len() {
        if is_index(bank, index, terms[place]) {
            return true;
        }
    }
    false
}

// Whether a term is a universal variable that is bound inside the scope of this one, and is none of the others.
fn is_name(bank: &Bank, walk: &Walk, variable: u64, term: TermId, others: &[TermId]) -> bool
    ensures { result ≡ is_name (reverse walk.now.scope.items) variable (tree bank.now term.0) (map (λ t. tree bank.now t.0) others.now) }
{
    let TermNode::Index(at) = bank.term_node(term) else {
        return false;
    };
    if at >= variable {
        return false;
    }
    match walk.binder(at) {
        Binder::Existential => false,
        Binder::Universal => !is_among(bank, at, others),
    }
}

/// Whether all arguments of an existential variable are universal variables that are bound inside its scope, none of them the same as another.
pub(crate) fn are_names(bank: &Bank, walk: &Walk, variable: u64, arguments: &[TermId]) -> bool
    ensures { result ≡ are_names (reverse walk.now.scope.items) variable (map (λ t. tree bank.now t.0) arguments.now) }
{
    for place in 0..arguments.len() {
        if !is_name(
            bank,
            walk,
            variable,
            arguments[place],
            &arguments[place + 1..],
        ) {
            return false;
        }
    }
    true
}
