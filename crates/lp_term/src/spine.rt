//! A term as a head that is no application, and the arguments of the head.
ghost use Rattle.std.specs.Prelude.{◌≡◌, ◌<◌, length, map, All, IfOk};
ghost use Rattle.lp_calculus.specs.Term.{apply};
ghost use Rattle.lp_term.specs.Nodes.{tree};
ghost use Rattle.lp_term.specs.Within.{AreTermsOf};
ghost use Rattle.lp_term.specs.Spine.{IsNoApplication, head as head_at};

use crate::bank::Bank;
use crate::node::{TermId, TermNode};
use crate::unwind::push_reversed;
use lp_base::Memory;
use std::alloc::Global;

/// A head that is no application, and its arguments in order.
#[derive(Drop)]
pub struct Spine {
    pub head: TermId,
    pub args: Vec<TermId>,
}

/// The term as a head and its arguments.
pub fn spine_of(alloc: Global, bank: &Bank, term: TermId) -> Result<Spine, Memory>
    ensures within { IfOk result (λ s. term.0 < length bank.now.terms → s.head.0 < length bank.now.terms) }
    ensures args { IfOk result (λ s. AreTermsOf bank.now s.args.items) }
    ensures head { IfOk result (λ s. IsNoApplication (tree bank.now s.head.0)) }
    ensures tree { IfOk result (λ s. apply (tree bank.now s.head.0) (map (λ t. tree bank.now t.0) s.args.items) ≡ tree bank.now term.0) }
{
    let mut head = term;
    let mut args = Vec::new(alloc);
    'down: loop {
        let TermNode::App(inner, more) = bank.term_node(head) else {
            args.reverse();
            return Ok(Spine { head, args });
        };
        push_reversed(more, &mut args)?;
        head = inner;
    }
}

/// The head of the term, which is no application.
pub fn head_of(bank: &Bank, term: TermId) -> TermId
    ensures within { term.0 < length bank.now.terms → result.0 < length bank.now.terms }
    ensures tree { tree bank.now result.0 ≡ head_at (tree bank.now term.0) }
{
    let mut top = term;
    'down: loop {
        let TermNode::App(inner, _) = bank.term_node(top) else {
            return top;
        };
        top = inner;
    }
}
