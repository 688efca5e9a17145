// Formulas under more variables, and the bodies of quantifiers.
ghost use Rattle.std.specs.Prelude.{◌≡◌, ◌<◌, ◌≤◌, ◌^◌, length, IfOk, true};
ghost use Rattle.lp_calculus.specs.Term.{app, shift};
ghost use Rattle.lp_term.specs.Nodes.{Extends, tree};
ghost use Rattle.lp_term.specs.Spine.{LooseBelow};
ghost use Rattle.lp_standard.specs.Connectives.{body_of};

use lp_base::Memory;
use lp_term::{Bank, TermId, TermNode, shift};
use std::alloc::Global;

// The most that is raised at once, and the bound of the loose indices before.
const MOST: u64 = 4_294_967_296;

// Whether the indices of the term can be raised so far. In a sentence they always can.
fn can_be_raised(bank: &Bank, term: TermId, by: u64) -> bool
    requires { term.0 < length bank.now.terms }
    ensures few { result ≡ true → by ≤ 2 ^ 32 }
    ensures loose { result ≡ true → LooseBelow (2 ^ 32) 0 (tree bank.now term.0) }
{
    by <= MOST && bank.is_known_below(term, MOST)
}

/// The term with its loose indices raised.
pub(crate) fn raised(
    alloc: Global,
    bank: &mut Bank,
    term: TermId,
    by: u64,
) -> Result<TermId, Memory>
    requires term { term.0 < length bank.old.terms }
    ensures kept { Extends bank.old bank.new }
    ensures within { IfOk result (λ made. made.0 < length bank.new.terms) }
    ensures tree { IfOk result (λ made. tree bank.new made.0 ≡ shift 0 by (tree bank.old term.0)) }
{
    if by == 0 {
        return Ok(term);
    }
    if !can_be_raised(bank, term, by) {
        return Err(Memory);
    }
    let _count = bank.term_count();
    shift(alloc, bank, term, 0, by)
}

// The term on one argument more.
fn put_applied(
    alloc: Global,
    bank: &mut Bank,
    term: TermId,
    argument: TermId,
) -> Result<TermId, Memory>
    requires term { term.0 < length bank.old.terms }
    requires argument { argument.0 < length bank.old.terms }
    ensures kept { Extends bank.old bank.new }
    ensures within { IfOk result (λ made. made.0 < length bank.new.terms) }
    ensures tree { IfOk result (λ made. tree bank.new made.0 ≡ app (tree bank.old term.0) (tree bank.old argument.0)) }
{
    match bank.term_node(term) {
        TermNode::App(head, before) => {
            let mut args = Vec::from_slice(alloc, before)?;
            args.push(argument)?;
            let made = bank.put_term(TermNode::App(head, args.as_slice()))?;
            Ok(made)
        }
        _ => {
            let args = [argument];
            let made = bank.put_term(TermNode::App(term, &args))?;
            Ok(made)
        }
    }
}

/// The body of a quantifier on this term: `pi t` with t no abstraction is read as `pi x\ (t x)`.
pub(crate) fn body(alloc: Global, bank: &mut Bank, term: TermId) -> Result<TermId, Memory>
    requires term { term.0 < length bank.old.terms }
    ensures kept { Extends bank.old bank.new }
    ensures within { IfOk result (λ made. made.0 < length bank.new.terms) }
    ensures tree { IfOk result (λ made. tree bank.new made.0 ≡ body_of (tree bank.old term.0)) }
{
    if let TermNode::Abs(body) = bank.term_node(term) {
        return Ok(body);
    }
    let under = raised(alloc, bank, term, 1)?;
    let bound = bank.put_term(TermNode::Index(0))?;
    let made = put_applied(alloc, bank, under, bound)?;
    Ok(made)
}
