// Which of a program's clauses is tried, and at which types.

use crate::forms::{Formed, normal};
use crate::instance::Instance;
use crate::walk::{Aim, Assumed, Walk};
use lp_base::Memory;
use lp_model::{ClauseFormula, ProofNode};
use lp_plain::{Act, Origin, Search, Try};
use lp_term::{Changed, Same, TermId, TermRefusal, TypeId};

// The types of the clause's type variables.
fn types_of(
    walk: &mut Walk,
    search: &Search,
    tried: Try,
    count: u32,
) -> Result<Vec<TypeId>, Memory> {
    let mut types = Vec::new(walk.alloc);
    let first = search.first_type(tried);
    'variables: for number in 0..count {
        let Some(variable) = first.checked_add(number as u64) else {
            return Err(Memory);
        };
        types.push(walk.type_at(search, variable)?)?;
    }
    Ok(types)
}

// The formula in normal form, with its type variables. Each formula is looked at once.
fn form_of(
    walk: &mut Walk,
    search: &Search,
    number: usize,
    formula: TermId,
) -> Result<Formed, TermRefusal> {
    if let Some(found) = walk.formulas.get(&number) {
        return Ok(*found);
    }
    let whole = walk
        .copied
        .copy(walk.alloc, &Same, search.bank(), formula, &mut walk.bank)?;
    let form = normal(walk.alloc, &mut walk.bank, whole)?;
    keep(walk, number, form)?;
    Ok(form)
}

fn keep(walk: &mut Walk, number: usize, form: Formed) -> Result<(), Memory> {
    walk.formulas.insert(number, form)?;
    Ok(())
}

// The formula at types. Types change no form.
fn at_types(walk: &mut Walk, form: Formed, types: &Vec<TypeId>) -> Result<Formed, Memory> {
    if types.is_empty() {
        return Ok(form);
    }
    let instance = Instance {
        types: types.as_slice(),
    };
    let term = Changed::new(walk.alloc).change(walk.alloc, &instance, form.term, &mut walk.bank)?;
    Ok(Formed { term, ..form })
}

fn clause_at(search: &Search, number: usize) -> Result<ClauseFormula, Memory> {
    search.clauses().get(number).copied().ok_or(Memory)
}

// The node, where the number of the clause fits it.
fn back_node(number: usize, types: Vec<TypeId>) -> Result<ProofNode, Memory> {
    if number > 4_294_967_295 {
        return Err(Memory);
    }
    Ok(ProofNode::Back(number as u32, types))
}

// How much of the clause is to be gone through.
fn aim_at(search: &Search, tried: Try, part: usize) -> Result<Aim, Memory> {
    let left = search.clause_variables(tried).ok_or(Memory)?;
    Ok(Aim { tried, part, left })
}

// A clause of the program.
fn by_program(
    walk: &mut Walk,
    search: &Search,
    tried: Try,
    number: usize,
    part: usize,
) -> Result<(), TermRefusal> {
    let clause = clause_at(search, number)?;
    let types = types_of(walk, search, tried, clause.type_vars)?;
    let form = form_of(walk, search, number, clause.formula)?;
    let instance = at_types(walk, form, &types)?;
    let aim = aim_at(search, tried, part)?;
    walk.put(back_node(number, types)?)?;
    walk.wait_for_clause(instance, aim)?;
    Ok(())
}

fn is_of(assumed: Assumed, number: usize) -> bool {
    match number.checked_sub(assumed.first) {
        Some(offset) => offset < assumed.count,
        None => false,
    }
}

// The place of the formula of an assumption among those assumed.
fn place_of(walk: &Walk, number: usize) -> Option<usize> {
    'newest: for place in (0..walk.assumed.len()).rev() {
        let assumed = walk.assumed.get(place)?;
        if is_of(*assumed, number) {
            return Some(place);
        }
    }
    None
}

// The part of the formula that has the assumption of this number: the first part has the last one.
fn part_of(assumed: Assumed, number: usize) -> Result<usize, Memory> {
    let Some(offset) = number.checked_sub(assumed.first) else {
        return Err(Memory);
    };
    let Some(behind) = assumed.count.checked_sub(1) else {
        return Err(Memory);
    };
    behind.checked_sub(offset).ok_or(Memory)
}

// An assumed clause. It stands behind those of the program.
fn by_assumption(
    walk: &mut Walk,
    search: &Search,
    tried: Try,
    number: usize,
) -> Result<(), Memory> {
    let place = place_of(walk, number).ok_or(Memory)?;
    let Some(assumed) = walk.assumed.get(place).copied() else {
        return Err(Memory);
    };
    let part = part_of(assumed, number)?;
    let aim = aim_at(search, tried, part)?;
    let index = search.clauses().len().saturating_add(place);
    walk.put(back_node(index, Vec::new(walk.alloc))?)?;
    let clause = Formed {
        term: assumed.formula,
        changed: false,
    };
    walk.wait_for_clause(clause, aim)
}

/// Proves an atom by the clause that met it.
pub(crate) fn back(walk: &mut Walk, search: &Search) -> Result<(), TermRefusal> {
    let Act::Met(tried) = walk.next_act(search)? else {
        return Err(TermRefusal::Memory);
    };
    match search.origin(tried) {
        Some(Origin::Program(number, part)) => by_program(walk, search, tried, number, part),
        Some(Origin::Assumed(number)) => {
            by_assumption(walk, search, tried, number)?;
            Ok(())
        }
        None => Err(TermRefusal::Memory),
    }
}
