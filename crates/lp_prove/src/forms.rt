// Normal forms.

use lp_base::RUN_LIMIT;
use lp_term::{Bank, TermId, TermNode, TermRefusal, normal_form, put_applied};
use std::alloc::Global;

/// The bound of loose indices.
pub(crate) const MOST_LOOSE: u64 = 4_294_967_296;

/// A term in beta-eta normal form, and whether it is another term than the one that it is the form of.
#[derive(Clone, Copy)]
pub(crate) struct Formed {
    pub(crate) term: TermId,
    pub(crate) changed: bool,
}

/// The normal form of a term. A term that is its own form keeps its number.
pub(crate) fn normal(alloc: Global, bank: &mut Bank, term: TermId) -> Result<Formed, TermRefusal> {
    let inside = bank.inside(term)?;
    if !bank.is_known_below(inside, MOST_LOOSE) {
        return Err(TermRefusal::Memory);
    }
    let form = normal_form(alloc, bank, inside, RUN_LIMIT, RUN_LIMIT)?;
    Ok(Formed {
        term: form,
        changed: form != inside,
    })
}

fn is_abstraction(bank: &Bank, term: TermId) -> bool {
    match bank.term_node(term) {
        TermNode::Abs(_) => true,
        _ => false,
    }
}

/// The normal form of a term on a value, where both are in normal form: only an abstraction is contracted.
pub(crate) fn applied(
    alloc: Global,
    bank: &mut Bank,
    term: TermId,
    value: TermId,
) -> Result<Formed, TermRefusal> {
    let whole = put_applied(bank, term, value)?;
    if is_abstraction(bank, term) {
        return normal(alloc, bank, whole);
    }
    Ok(Formed {
        term: whole,
        changed: false,
    })
}
