// The bodies of quantifiers.
ghost use Rattle.std.specs.Prelude.{◌≡◌, ◌<◌, length, None, IfOk, IfSome};
ghost use Rattle.lp_calculus.specs.Term.{index, abs, app, shift};
ghost use Rattle.lp_standard.specs.Connectives.{body_of};
ghost use Rattle.lp_term.specs.Facts.{IsNoAbstraction};
ghost use Rattle.lp_term.specs.Nodes.{Extends, tree};

use lp_base::Memory;
use lp_term::{Bank, TermId, TermNode, put_applied, put_index, shift};
use std::alloc::Global;

/// The bound on loose indices up to which terms are reduced.
pub(crate) const LOOSE: u64 = 4_294_967_296;

// A term that is no abstraction, on the new variable.
fn applied_to_new(alloc: Global, bank: &mut Bank, term: TermId) -> Result<TermId, Memory>
    requires term { term.0 < length bank.old.terms }
    ensures kept { Extends bank.old bank.new }
    ensures within { IfOk result (λ id. id.0 < length bank.new.terms) }
    ensures tree { IfOk result (λ id. tree bank.new id.0 ≡ app (shift 0 1 (tree bank.old term.0)) (index 0)) }
{
    if term.0 >= bank.term_count() || !bank.is_known_below(term, LOOSE) {
        return Err(Memory);
    }
    let raised = shift(alloc, bank, term, 0, 1)?;
    let variable = put_index(bank, 0)?;
    put_applied(bank, raised, variable)
}

// The body of an abstraction.
fn abstracted(bank: &Bank, term: TermId) -> Option<TermId>
    ensures within { IfSome result (λ body. body.0 < length bank.now.terms) }
    ensures tree { IfSome result (λ body. tree bank.now term.0 ≡ abs (tree bank.now body.0)) }
    ensures none { result ≡ None → IsNoAbstraction (tree bank.now term.0) }
{
    match bank.term_node(term) {
        TermNode::Abs(body) => Some(body),
        TermNode::Index(_) => None,
        TermNode::Const(_, _) => None,
        TermNode::Int(_) => None,
        TermNode::Text(_) => None,
        TermNode::Eigen(_) => None,
        TermNode::Logic { .. } => None,
        TermNode::Param(_, _) => None,
        TermNode::App(_, _) => None,
    }
}

/// The body of a quantifier on a term: that of an abstraction; else the term on the new variable.
pub(crate) fn body_of(alloc: Global, bank: &mut Bank, term: TermId) -> Result<TermId, Memory>
    requires term { term.0 < length bank.old.terms }
    ensures kept { Extends bank.old bank.new }
    ensures within { IfOk result (λ id. id.0 < length bank.new.terms) }
    ensures tree { IfOk result (λ id. tree bank.new id.0 ≡ body_of (tree bank.old term.0)) }
{
    if let Some(body) = abstracted(bank, term) {
        return Ok(body);
    }
    let made = applied_to_new(alloc, bank, term)?;
    Ok(made)
}
