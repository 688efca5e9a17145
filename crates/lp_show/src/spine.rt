ghost use Rattle.std.specs.Prelude.{◌≡◌, ◌<◌, ◌++◌, length, reverse, IfOk, OnOk};
ghost use Rattle.lp_term.specs.Nodes.{tree};
ghost use Rattle.lp_show.specs.Spines.{IsSpine};

use lp_base::Memory;
use lp_term::{Bank, TermId, TermNode};
use std::alloc::Global;

/// A head, which is no application, and its arguments, the last one first.
#[derive(Drop)]
pub(crate) struct Spine {
    pub(crate) head: TermId,
    pub(crate) arguments: Vec<TermId>,
}

/// Puts terms behind others, the last one first.
pub(crate) fn push_reversed(more: &[TermId], terms: &mut Vec<TermId>) -> Result<(), Memory>
    ensures { OnOk result (terms.new.items ≡ terms.old.items ++ reverse more.now) }
{
    let mut left = more.len();
    'terms: while left > 0 {
        left -= 1;
        terms.push(more[left])?;
    }
    Ok(())
}

pub(crate) fn spine_of(alloc: Global, bank: &Bank, term: TermId) -> Result<Spine, Memory>
    requires { term.0 < length bank.now.terms }
    ensures { IfOk result (IsSpine bank.now term.0) }
{
    let mut head = term;
    let mut arguments = Vec::new(alloc);
    'down: loop {
        match bank.term_node(head) {
            TermNode::App(next, more) => {
                push_reversed(more, &mut arguments)?;
                head = next;
            }
            _ => return Ok(Spine { head, arguments }),
        }
    }
}
