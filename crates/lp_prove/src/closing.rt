// Parameters in the place of free variables.
ghost use Rattle.lp_term.specs.Nodes.{Extends};

use crate::free::Free;
use lp_base::Memory;
use lp_term::{
    Bank, Changed, Mapping, TermChange, TermId, TypeChange, TypeId, TypeNode, put_parameter,
};
use std::alloc::Global;
use std::collections::HashMap;

/// What stands for the free variables, in the bank of the certificate. Other variables stay.
#[derive(Drop)]
pub(crate) struct Closing {
    types: HashMap<u64, TypeId>,
    terms: HashMap<u64, TermId>,
}

impl Mapping for Closing {
    ghost use Rattle.lp_prove.specs.Told.{closing_told};

    ghost told = { λ c. closing_told c };

    fn kind(&self, kind: u32) -> u32 {
        kind
    }

    fn constant(&self, constant: u32) -> u32 {
        constant
    }

    fn type_variable(&self, variable: u64) -> TypeChange {
        match self.types.get(&variable) {
            Some(id) => TypeChange::Is(*id),
            None => TypeChange::Var(variable),
        }
    }

    fn logic_variable(&self, variable: u64) -> TermChange {
        match self.terms.get(&variable) {
            Some(id) => TermChange::Is(*id),
            None => TermChange::Stays,
        }
    }
}

// A type parameter for each type variable, numbered in order.
fn closed_types(alloc: Global, free: &Free, to: &mut Bank) -> Result<Closing, Memory>
    ensures { Extends to.old to.new }
{
    let mut types = HashMap::new(alloc);
    let mut number: u64 = 0;
    'types: for variable in free.types.iter().copied() {
        let made = to.put_type(TypeNode::Param(number))?;
        types.insert(variable, made)?;
        number = number.saturating_add(1);
    }
    Ok(Closing {
        types,
        terms: HashMap::new(alloc),
    })
}

/// A type parameter for each free type variable, and a parameter of its type for each free logic variable. Both are numbered in order.
pub(crate) fn closing_of(
    alloc: Global,
    from: &Bank,
    free: &Free,
    to: &mut Bank,
) -> Result<Closing, Memory>
    ensures { Extends to.old to.new }
{
    let mut closing = closed_types(alloc, free, to)?;
    let mut copies = Changed::new(alloc);
    let mut number: u64 = 0;
    'terms: for (variable, of) in free.terms.iter().copied() {
        let sort = copies.copy_type(alloc, &closing, from, of, to)?;
        let made = put_parameter(to, number, sort)?;
        closing.terms.insert(variable, made)?;
        number = number.saturating_add(1);
    }
    Ok(closing)
}
