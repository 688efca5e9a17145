// Which constants can stand at the head of a clause.
ghost use Rattle.std.specs.Prelude.{◌≡◌, IfOk};
ghost use Rattle.lp_term.specs.Nodes.{type_tree};
ghost use Rattle.lp_model.specs.Flatten.{ends_in_o};
ghost use Rattle.lp_module.specs.Schemes.{declared_schemes};
ghost use Rattle.lp_module.specs.inner.Judging.{AreHeads, can_head};

use lp_base::Memory;
use lp_sig::{FIRST_CONSTANT, Signature};
use lp_term::{Bank, TypeId, TypeNode};
use std::alloc::Global;

/// For each declared constant whether its type ends in `o`. Of a query's constants nothing is known, and each may head a clause.
#[derive(Drop)]
pub(crate) enum Heads {
    Known(Vec<bool>),
    Any,
}

// Whether a type ends in `o`.
fn ends_in_goal(bank: &Bank, id: TypeId) -> bool
    ensures { result ≡ ends_in_o (type_tree bank.now id.0) }
{
    let mut at = id;
    'results: loop {
        match bank.type_node(at) {
            TypeNode::Arrow(_, to) => at = to,
            TypeNode::Con(kind, _) => return kind == 0,
            TypeNode::Var(_) => return false,
            TypeNode::Param(_) => return false,
        }
    }
}

impl Heads {
    pub(crate) fn of(alloc: Global, signature: &Signature) -> Result<Heads, Memory>
        ensures { IfOk result (AreHeads (declared_schemes signature.now)) }
    {
        let constants = signature.constants();
        let mut ends = Vec::new(alloc);
        for at in 0..constants.len() {
            let end = ends_in_goal(signature.bank(), constants[at].scheme);
            ends.push(end)?;
        }
        Ok(Heads::Known(ends))
    }

    /// Whether a constant can head a clause.
    pub(crate) fn can_head(&self, constant: u32) -> bool
        ensures { result ≡ can_head self.now constant }
    {
        if constant < FIRST_CONSTANT {
            return false;
        }
        match self {
            Heads::Any => true,
            Heads::Known(ends) => match ends.get((constant - FIRST_CONSTANT) as usize) {
                None => false,
                Some(end) => *end,
            },
        }
    }
}
