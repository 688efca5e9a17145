// The types of logic variables. A variable is made for a variable of the query, of a `sigma` or of a clause, whose type is known; or by unification, as the head of
// the value of a variable whose type is known, on bound variables and eigenconstants.

use lp_base::Memory;
use lp_term::{Bank, Spine, TermId, TermNode, TypeId, TypeNode, put_arrow, spine_of};
use std::alloc::Global;
use std::collections::HashMap;

/// The types of logic variables, by number.
pub(crate) type Sorts = HashMap<u64, TypeId>;

// A term below abstractions: its type there, and the types of the bound variables, the outermost first.
#[derive(Drop)]
struct Below {
    body: TermId,
    of: TypeId,
    bound: Vec<TypeId>,
}

// The term below its leading abstractions.
fn strip(alloc: Global, bank: &Bank, term: TermId, of: TypeId) -> Result<Below, Memory> {
    let mut found = Below {
        body: term,
        of,
        bound: Vec::new(alloc),
    };
    'levels: for _ in 0..u64::MAX {
        let TermNode::Abs(inner) = bank.term_node(found.body) else {
            return Ok(found);
        };
        let TypeNode::Arrow(source, target) = bank.type_node(found.of) else {
            return Ok(found);
        };
        found.bound.push(source)?;
        found.body = inner;
        found.of = target;
    }
    Err(Memory)
}

// The type of a bound variable, counted from the innermost one.
fn type_of_index(bound: &Vec<TypeId>, index: u64) -> Option<TypeId> {
    let outside = index.checked_add(1)?;
    let place = (bound.len() as u64).checked_sub(outside)?;
    bound.get(place as usize).copied()
}

// The type of an eigenconstant.
fn type_of_eigen(eigens: &Vec<TypeId>, level: u64) -> Option<TypeId> {
    let place = level.checked_sub(1)?;
    eigens.get(place as usize).copied()
}

// The type of a bound variable or an eigenconstant.
fn type_of(bank: &Bank, eigens: &Vec<TypeId>, bound: &Vec<TypeId>, term: TermId) -> Option<TypeId> {
    match bank.term_node(term) {
        TermNode::Index(index) => type_of_index(bound, index),
        TermNode::Eigen(level) => type_of_eigen(eigens, level),
        _ => None,
    }
}

// The type of a head that makes a term of this type of these arguments.
fn type_of_head(
    bank: &mut Bank,
    eigens: &Vec<TypeId>,
    bound: &Vec<TypeId>,
    args: &Vec<TermId>,
    of: TypeId,
) -> Result<Option<TypeId>, Memory> {
    let mut whole = of;
    'arguments: for arg in args.iter().rev().copied() {
        let Some(source) = type_of(bank, eigens, bound, arg) else {
            return Ok(None);
        };
        whole = put_arrow(bank, source, whole)?;
    }
    Ok(Some(whole))
}

/// Learns from a value of a type what the type of the variable at its head is.
pub(crate) fn learn(
    alloc: Global,
    bank: &mut Bank,
    eigens: &Vec<TypeId>,
    sorts: &mut Sorts,
    value: TermId,
    of: TypeId,
) -> Result<(), Memory> {
    let Below { body, of, bound } = strip(alloc, bank, value, of)?;
    let Spine { head, args } = spine_of(alloc, bank, body)?;
    let TermNode::Logic { id, level: _ } = bank.term_node(head) else {
        return Ok(());
    };
    if sorts.contains_key(&id) {
        return Ok(());
    }
    let Some(sort) = type_of_head(bank, eigens, &bound, &args, of)? else {
        return Ok(());
    };
    sorts.insert(id, sort)?;
    Ok(())
}
