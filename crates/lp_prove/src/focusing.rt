// The way through a clause to one of its parts.

use crate::walk::{Aim, Task, Walk};
use lp_base::Memory;
use lp_model::{Connective, ProofNode, connective_of};
use lp_plain::Search;
use lp_term::{Bank, TermId, TermNode, TermRefusal, TypeId};
use std::alloc::Global;

// Looks at a part of a formula: those of which it is made wait. Whether it is an atom.
fn opened(bank: &Bank, part: TermId, waiting: &mut Vec<TermId>) -> Result<bool, Memory> {
    match connective_of(bank, part) {
        Connective::And(left, right) => {
            waiting.push(left)?;
            waiting.push(right)?;
            Ok(false)
        }
        Connective::Implies(_, clause) => {
            waiting.push(clause)?;
            Ok(false)
        }
        Connective::ForAll(_, on) => {
            let TermNode::Abs(body) = bank.term_node(on) else {
                return Ok(true);
            };
            waiting.push(body)?;
            Ok(false)
        }
        _ => Ok(true),
    }
}

// How many flattened clauses come of a clause.
fn part_count(alloc: Global, bank: &Bank, clause: TermId) -> Result<usize, Memory> {
    let mut waiting = Vec::new(alloc);
    waiting.push(clause)?;
    let mut count = 0usize;
    'parts: for _ in 0..u64::MAX {
        let Some(part) = waiting.pop() else {
            return Ok(count);
        };
        if opened(bank, part, &mut waiting)? {
            count = count.saturating_add(1);
        }
    }
    Err(Memory)
}

// The side of a conjunction in which the part is.
fn side(walk: &mut Walk, left: TermId, right: TermId, aim: Aim) -> Result<(), Memory> {
    let count = part_count(walk.alloc, &walk.bank, left)?;
    match aim.part.checked_sub(count) {
        None => {
            walk.put(ProofNode::Take(0))?;
            walk.wait_for(Task::Focus(left, aim))
        }
        Some(part) => {
            walk.put(ProofNode::Take(1))?;
            walk.wait_for(Task::Focus(right, Aim { part, ..aim }))
        }
    }
}

// The head of an implication, behind its body.
fn need(walk: &mut Walk, goal: TermId, clause: TermId, aim: Aim) -> Result<(), Memory> {
    walk.put(ProofNode::Need)?;
    walk.wait_for(Task::Focus(clause, aim))?;
    walk.wait_for(Task::Goal(goal))
}

// The body of a `pi` at the value of its variable. The outermost variable comes first.
fn all(
    walk: &mut Walk,
    search: &Search,
    of: TypeId,
    on: TermId,
    aim: Aim,
) -> Result<(), TermRefusal> {
    let Some(left) = aim.left.checked_sub(1) else {
        return Err(TermRefusal::Memory);
    };
    let Some(term) = search.clause_value(aim.tried, left) else {
        return Err(TermRefusal::Memory);
    };
    let value = walk.value(search, term, of)?;
    let clause = walk.applied(on, value)?;
    walk.put(ProofNode::FocusAll(value))?;
    walk.wait_for_clause(clause, Aim { left, ..aim })?;
    Ok(())
}

/// Focuses on a clause by its connective.
pub(crate) fn focus(
    walk: &mut Walk,
    search: &Search,
    clause: TermId,
    aim: Aim,
) -> Result<(), TermRefusal> {
    match connective_of(&walk.bank, clause) {
        Connective::And(left, right) => {
            side(walk, left, right, aim)?;
            Ok(())
        }
        Connective::Implies(goal, inner) => {
            need(walk, goal, inner, aim)?;
            Ok(())
        }
        Connective::ForAll(of, on) => all(walk, search, of, on, aim),
        Connective::Atomic => {
            walk.put(ProofNode::Hit)?;
            Ok(())
        }
        // No clause is built so.
        Connective::True => Err(TermRefusal::Memory),
        Connective::Cut => Err(TermRefusal::Memory),
        Connective::Or(_, _) => Err(TermRefusal::Memory),
        Connective::Exists(_, _) => Err(TermRefusal::Memory),
        Connective::Not(_) => Err(TermRefusal::Memory),
    }
}
