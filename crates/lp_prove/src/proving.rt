// Goals that are proved.

use crate::backing::back;
use crate::forms::Formed;
use crate::walk::{Assumed, Task, Walk};
use lp_base::Memory;
use lp_model::{Connective, ProofNode, connective_of};
use lp_plain::{Act, Search};
use lp_standard::Constant;
use lp_term::{Bank, TermId, TermNode, TermRefusal, TypeId, head_of, put_eigen};

// How an atom is proved.
enum Way {
    Equal,
    Arith,
    Call,
}

fn by_constant(number: u32) -> Way {
    match Constant::from_number(number) {
        Some(Constant::Equal) => Way::Equal,
        Some(Constant::Is) => Way::Arith,
        Some(Constant::Less) => Way::Arith,
        Some(Constant::Greater) => Way::Arith,
        Some(Constant::AtMost) => Way::Arith,
        Some(Constant::AtLeast) => Way::Arith,
        _ => Way::Call,
    }
}

fn way_of(bank: &Bank, goal: TermId) -> Way {
    match bank.term_node(head_of(bank, goal)) {
        TermNode::Const(number, _) => by_constant(number),
        _ => Way::Call,
    }
}

fn both(walk: &mut Walk, left: TermId, right: TermId) -> Result<(), Memory> {
    walk.put(ProofNode::And)?;
    walk.wait_for(Task::Goal(right))?;
    walk.wait_for(Task::Goal(left))
}

fn either(walk: &mut Walk, search: &Search, left: TermId, right: TermId) -> Result<(), Memory> {
    match walk.next_act(search)? {
        Act::Left => {
            walk.put(ProofNode::Left)?;
            walk.wait_for(Task::Goal(left))
        }
        Act::Right => {
            walk.put(ProofNode::Right)?;
            walk.wait_for(Task::Goal(right))
        }
        _ => Err(Memory),
    }
}

fn some(walk: &mut Walk, search: &Search, of: TypeId, on: TermId) -> Result<(), TermRefusal> {
    let Act::Opened(variable) = walk.next_act(search)? else {
        return Err(TermRefusal::Memory);
    };
    let value = walk.value(search, variable, of)?;
    let goal = walk.applied(on, value)?;
    walk.put(ProofNode::Some(value))?;
    walk.wait_for_goal(goal)?;
    Ok(())
}

// The eigenconstant of the next level, of this type.
fn raised(walk: &mut Walk, of: TypeId) -> Result<TermId, Memory> {
    walk.eigens.push(of)?;
    let level = walk.eigens.len() as u64;
    put_eigen(&mut walk.bank, level)
}

fn all(walk: &mut Walk, of: TypeId, on: TermId) -> Result<(), TermRefusal> {
    let eigen = raised(walk, of)?;
    let goal: Formed = walk.applied(on, eigen)?;
    walk.put(ProofNode::All)?;
    walk.wait_for(Task::Leave)?;
    walk.wait_for_goal(goal)?;
    Ok(())
}

fn assume(walk: &mut Walk, search: &Search, clause: TermId, goal: TermId) -> Result<(), Memory> {
    let Act::Assumed(count, first) = walk.next_act(search)? else {
        return Err(Memory);
    };
    walk.assumed.push(Assumed {
        formula: clause,
        first,
        count,
    })?;
    walk.put(ProofNode::Assume)?;
    walk.wait_for(Task::Forget)?;
    walk.wait_for(Task::Goal(goal))
}

fn atom(walk: &mut Walk, search: &Search, goal: TermId) -> Result<(), TermRefusal> {
    match way_of(&walk.bank, goal) {
        Way::Equal => {
            walk.put(ProofNode::Equal)?;
            Ok(())
        }
        Way::Arith => {
            walk.put(ProofNode::Arith)?;
            Ok(())
        }
        Way::Call => back(walk, search),
    }
}

/// Proves a goal by its connective.
pub(crate) fn prove(walk: &mut Walk, search: &Search, goal: TermId) -> Result<(), TermRefusal> {
    match connective_of(&walk.bank, goal) {
        Connective::True | Connective::Cut => {
            walk.put(ProofNode::True)?;
            Ok(())
        }
        Connective::And(left, right) => {
            both(walk, left, right)?;
            Ok(())
        }
        Connective::Or(left, right) => {
            either(walk, search, left, right)?;
            Ok(())
        }
        Connective::Implies(clause, inner) => {
            assume(walk, search, clause, inner)?;
            Ok(())
        }
        Connective::ForAll(of, on) => all(walk, of, on),
        Connective::Exists(of, on) => some(walk, search, of, on),
        // No certificate has a node for it.
        Connective::Not(_) => Err(TermRefusal::Memory),
        Connective::Atomic => atom(walk, search, goal),
    }
}
