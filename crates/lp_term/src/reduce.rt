ghost use Rattle.std.specs.Prelude.{◌≡◌, ℕ, suc, ◌+◌, ◌-◌, ◌<◌, ◌≤◌, ◌^◌, length, List, [], ◌∷◌, ◌++◌, IfOk, OnOk, IfErr, All, vec_len, None, Some, reverse};
ghost use Rattle.lp_calculus.specs.Term.{Term, abs, apply};
ghost use Rattle.lp_calculus.specs.Convert.{head_step, steps};
ghost use Rattle.lp_term.specs.Nodes.{Nodes, tree, Extends};
ghost use Rattle.lp_term.specs.Spine.{whole, abstractions, LooseBelow};
ghost use Rattle.lp_term.specs.Walk.{trees};
ghost use Rattle.lp_term.specs.Answer.{IsDeepOnlyWhere, IsDeepAfter, IsReducedWithin, IsSpine};

use crate::bank::Bank;
use crate::carry::substitute_all;
use crate::node::{TermId, TermNode};
use crate::put::put_abstractions;
use crate::unwind::{DEEPEST, body_under, unwind};
use lp_base::Memory;
use std::alloc::{AllocFailed, Global};

#[derive(Debug, Drop)]
pub enum TermRefusal {
    Deep(u64),
    Memory,
}

impl From<Memory> for TermRefusal {
    ghost use Rattle.std.specs.Prelude.{◌≡◌};
    ghost use Rattle.lp_term.specs.declared.reduce.TermRefusal.TheVariants as refusal;

    ghost from_gives = { λ _ e. e ≡ refusal.Memory };

    fn from(_: Memory) -> TermRefusal {
        TermRefusal::Memory
    }
}

impl<T: Drop> From<AllocFailed<T>> for TermRefusal {
    ghost use Rattle.std.specs.Prelude.{◌≡◌};
    ghost use Rattle.lp_term.specs.declared.reduce.TermRefusal.TheVariants as refusal;

    ghost from_gives = { λ _ e. e ≡ refusal.Memory };

    fn from(_: AllocFailed<T>) -> TermRefusal {
        TermRefusal::Memory
    }
}

// The arguments with the last one first.
fn last_first(alloc: Global, mut args: Vec<TermId>) -> Result<Vec<TermId>, Memory>
    ensures { IfOk result (λ newest. args.items ≡ reverse newest.items) }
{
    let mut newest = Vec::new(alloc);
    'ids: while let Some(id) = args.pop() {
        newest.push(id)?;
    }
    Ok(newest)
}

// The head on the arguments, of which the last comes first.
fn put_application(
    alloc: Global,
    bank: &mut Bank,
    head: TermId,
    args: Vec<TermId>,
) -> Result<TermId, Memory>
    requires head { head.0 < length bank.old.terms }
    requires args { All (λ t. t.0 < length bank.old.terms) args.items }
    ensures kept { Extends bank.old bank.new }
    ensures within { IfOk result (λ id. id.0 < length bank.new.terms) }
    ensures tree { IfOk result (λ id. tree bank.new id.0 ≡ apply (tree bank.old head.0) (trees bank.old args.items)) }
{
    if args.is_empty() {
        return Ok(head);
    }
    let newest = last_first(alloc, args)?;
    let id = bank.put_term(TermNode::App(head, newest.as_slice()))?;
    Ok(id)
}

/// A term as its leading abstractions, its head and the head's arguments, of which the last comes first; and how many
/// contractions are left.
#[derive(Drop)]
pub(crate) struct Spine {
    pub(crate) depth: u64,
    pub(crate) head: TermId,
    pub(crate) args: Vec<TermId>,
    pub(crate) left: u64,
}

/// Head reduction of a term that stands below `base` abstractions, with so many contractions left of the limit.
pub(crate) fn reduce_spine(
    alloc: Global,
    bank: &mut Bank,
    base: u64,
    term: TermId,
    limit: u64,
    mut left: u64,
) -> Result<Spine, TermRefusal>
    requires term { term.0 < length bank.old.terms }
    requires base { base ≤ 2 ^ 62 }
    requires loose { LooseBelow (2 ^ 32 + base) 0 (tree bank.old term.0) }
    ensures kept { Extends bank.old bank.new }
    ensures spine { IfOk result (IsSpine base bank.new) }
    ensures left { IfOk result (λ s. s.left ≤ left) }
    ensures taken { IfOk result (λ s. steps head_step (left - s.left) (tree bank.old term.0) ≡ Some (whole bank.new s.depth s.head s.args.items)) }
    ensures refused { IfErr result (IsDeepAfter limit left (tree bank.old term.0)) }
{
    let mut depth = 0;
    let mut head = term;
    let mut args = Vec::new(alloc);
    'steps: loop {
        let Some(body) = unwind(bank, DEEPEST - base, &mut depth, &mut head, &mut args)? else {
            break;
        };
        if left == 0 {
            return Err(TermRefusal::Deep(limit));
        }
        let most = left.min(args.len() as u64) - 1;
        let (inner, more) = body_under(bank, body, most);
        let kept = args.len() - 1 - more as usize;
        let _count = bank.term_count();
        head = substitute_all(alloc, bank, inner, &args[kept..])?;
        args.truncate(kept);
        left -= more + 1;
    }
    Ok(Spine {
        depth,
        head,
        args,
        left,
    })
}

/// The head-normal form that leftmost head reduction reaches in at most `limit` contractions.
pub fn head_reduce(
    alloc: Global,
    bank: &mut Bank,
    term: TermId,
    limit: u64,
) -> Result<TermId, TermRefusal>
    requires term { term.0 < length bank.old.terms }
    requires loose { LooseBelow (2 ^ 32) 0 (tree bank.old term.0) }
    ensures kept { Extends bank.old bank.new }
    ensures within { IfOk result (λ id. id.0 < length bank.new.terms) }
    ensures reduced { IfOk result (λ id. IsReducedWithin limit (tree bank.old term.0) (tree bank.new id.0)) }
    ensures refused { IfErr result (IsDeepOnlyWhere limit (tree bank.old term.0)) }
{
    let spine = reduce_spine(alloc, bank, 0, term, limit, limit)?;
    if spine.left == limit {
        return Ok(term);
    }
    let top = put_application(alloc, bank, spine.head, spine.args)?;
    let id = put_abstractions(bank, spine.depth, top)?;
    Ok(id)
}
