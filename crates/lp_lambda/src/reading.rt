// The bodies of quantifiers.
ghost use Rattle.std.specs.Prelude.{◌≡◌, ◌<◌, length, IfOk};
ghost use Rattle.lp_term.specs.Nodes.{Extends, tree};
ghost use Rattle.lp_standard.specs.Connectives.{body_of};

use lp_base::Memory;
use lp_term::{Bank, TermId, TermNode, put_applied, put_index, shift};
use std::alloc::Global;

/// The bound of the loose indices up to which terms are reduced. A text has no variable beyond it.
pub(crate) const LOOSE: u64 = 4_294_967_296;

/// The body of a quantifier on this term: `pi t` with t no abstraction is read as `pi x\ (t x)`.
pub(crate) fn body(alloc: Global, bank: &mut Bank, term: TermId) -> Result<TermId, Memory>
    requires term { term.0 < length bank.old.terms }
    ensures kept { Extends bank.old bank.new }
    ensures within { IfOk result (λ made. made.0 < length bank.new.terms) }
    ensures tree { IfOk result (λ made. tree bank.new made.0 ≡ body_of (tree bank.old term.0)) }
{
    if let TermNode::Abs(body) = bank.term_node(term) {
        return Ok(body);
    }
    if !bank.is_known_below(term, LOOSE) {
        return Err(Memory);
    }
    let _count = bank.term_count();
    let under = shift(alloc, bank, term, 0, 1)?;
    let variable = put_index(bank, 0)?;
    let made = put_applied(bank, under, variable)?;
    Ok(made)
}
