ghost use Rattle.std.specs.Prelude.{◌≡◌, ℕ, ◌+◌, ◌<◌, ◌≤◌, ◌^◌, length, List, [], ◌∷◌, ◌++◌, IfOk, OnOk, All, vec_len, MatchOption, IfSome, reverse};
ghost use Rattle.lp_calculus.specs.Term.{Term, abs};
ghost use Rattle.lp_term.specs.Nodes.{Nodes, tree};
ghost use Rattle.lp_term.specs.Spine.{whole, abstractions, IsNoRedexHead};

use crate::bank::Bank;
use crate::node::{TermId, TermNode};
use lp_base::Memory;

/// No term is taken apart below more abstractions than this.
pub(crate) const DEEPEST: u64 = 1 << 62;

/// Moves the head's abstractions, at most so many, and its arguments out of it. The body is told where an abstraction meets an
/// argument.
pub(crate) fn unwind(
    bank: &Bank,
    most: u64,
    depth: &mut u64,
    head: &mut TermId,
    args: &mut Vec<TermId>,
) -> Result<Option<TermId>, Memory>
    requires head { head.old.0 < length bank.now.terms }
    requires args { All (λ t. t.0 < length bank.now.terms) args.old.items }
    requires depth { depth.old ≤ most }
    ensures depth { OnOk result (depth.new ≤ most) }
    ensures same { OnOk result (whole bank.now depth.new head.new args.new.items ≡ whole bank.now depth.old head.old args.old.items) }
    ensures head { OnOk result (head.new.0 < length bank.now.terms) }
    ensures args { OnOk result (All (λ t. t.0 < length bank.now.terms) args.new.items) }
    ensures normal { IfOk result (λ found. MatchOption found (IsNoRedexHead (tree bank.now head.new.0)) (λ body. (tree bank.now head.new.0 ≡ abs (tree bank.now body.0)) × (body.0 < length bank.now.terms) × (0 < vec_len args.new))) }
{
    'down: loop {
        match bank.term_node(*head) {
            TermNode::App(next, more) => {
                push_reversed(more, args)?;
                *head = next;
            }
            TermNode::Abs(body) => {
                if !args.is_empty() {
                    return Ok(Some(body));
                }
                if *depth >= most {
                    return Err(Memory);
                }
                *depth += 1;
                *head = body;
            }
            _ => return Ok(None),
        }
    }
}

/// The body below the first abstractions of the term, of which there may be so many at most, and how many these are.
pub fn body_under(bank: &Bank, term: TermId, most: u64) -> (TermId, u64)
    requires { term.0 < length bank.now.terms }
    ensures count { result.1 ≤ most }
    ensures within { result.0.0 < length bank.now.terms }
    ensures tree { abstractions result.1 (tree bank.now result.0.0) ≡ tree bank.now term.0 }
{
    let mut body = term;
    let mut count = 0;
    'down: while count < most {
        let TermNode::Abs(next) = bank.term_node(body) else {
            break;
        };
        body = next;
        count += 1;
    }
    (body, count)
}

// Puts the terms behind the others, the last one first.
pub(crate) fn push_reversed(more: &[TermId], args: &mut Vec<TermId>) -> Result<(), Memory>
    ensures { OnOk result (args.new.items ≡ args.old.items ++ reverse more.now) }
{
    let mut left = more.len();
    while left > 0 {
        left -= 1;
        args.push(more[left])?;
    }
    Ok(())
}
