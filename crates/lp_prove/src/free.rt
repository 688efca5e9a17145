// The variables that are free in a certificate, in the order of its bytes.

use crate::sorts::Sorts;
use lp_base::Memory;
use lp_model::ProofNode;
use lp_term::{Bank, TermId, TermNode, TypeId, TypeNode};
use std::alloc::Global;
use std::collections::HashMap;

// A term or a type, by its number.
#[derive(Clone, Copy)]
enum Spot {
    Term(TermId),
    Type(TypeId),
}

/// The free type variables, and the free logic variables with their types, each where it stands first.
#[derive(Drop)]
pub(crate) struct Free {
    pub(crate) types: Vec<u64>,
    pub(crate) terms: Vec<(u64, TypeId)>,
}

// The free variables so far, and what was gone through.
#[derive(Drop)]
pub(crate) struct Finding {
    found: Free,
    type_variables: HashMap<u64, bool>,
    logic_variables: HashMap<u64, bool>,
    terms: HashMap<usize, bool>,
    types: HashMap<usize, bool>,
    waiting: Vec<Spot>,
}

impl Finding {
    fn new(alloc: Global) -> Finding {
        Finding {
            found: Free {
                types: Vec::new(alloc),
                terms: Vec::new(alloc),
            },
            type_variables: HashMap::new(alloc),
            logic_variables: HashMap::new(alloc),
            terms: HashMap::new(alloc),
            types: HashMap::new(alloc),
            waiting: Vec::new(alloc),
        }
    }

    fn wait_for_terms(&mut self, ids: &[TermId]) -> Result<(), Memory> {
        for id in ids.iter().rev().copied() {
            self.waiting.push(Spot::Term(id))?;
        }
        Ok(())
    }

    fn wait_for_types(&mut self, ids: &[TypeId]) -> Result<(), Memory> {
        for id in ids.iter().rev().copied() {
            self.waiting.push(Spot::Type(id))?;
        }
        Ok(())
    }

    fn meet_type(&mut self, variable: u64) -> Result<(), Memory> {
        if self.type_variables.contains_key(&variable) {
            return Ok(());
        }
        self.type_variables.insert(variable, true)?;
        self.found.types.push(variable)?;
        Ok(())
    }

    // A parameter's type stands behind its number.
    fn meet(&mut self, sorts: &Sorts, variable: u64) -> Result<(), Memory> {
        if self.logic_variables.contains_key(&variable) {
            return Ok(());
        }
        let Some(of) = sorts.get(&variable).copied() else {
            return Err(Memory);
        };
        self.logic_variables.insert(variable, true)?;
        self.found.terms.push((variable, of))?;
        self.waiting.push(Spot::Type(of))?;
        Ok(())
    }

    fn visit_term(&mut self, bank: &Bank, sorts: &Sorts, id: TermId) -> Result<(), Memory> {
        if self.terms.contains_key(&id.0) {
            return Ok(());
        }
        self.terms.insert(id.0, true)?;
        match bank.term_node(id) {
            TermNode::Logic {
                id: variable,
                level: _,
            } => self.meet(sorts, variable),
            TermNode::Const(_, types) => self.wait_for_types(types),
            TermNode::Param(_, of) => self.wait_for_types(&[of]),
            TermNode::Abs(body) => self.wait_for_terms(&[body]),
            TermNode::App(head, args) => {
                self.wait_for_terms(args)?;
                self.wait_for_terms(&[head])
            }
            TermNode::Index(_) => Ok(()),
            TermNode::Int(_) => Ok(()),
            TermNode::Text(_) => Ok(()),
            TermNode::Eigen(_) => Ok(()),
        }
    }

    fn visit_type(&mut self, bank: &Bank, id: TypeId) -> Result<(), Memory> {
        if self.types.contains_key(&id.0) {
            return Ok(());
        }
        self.types.insert(id.0, true)?;
        match bank.type_node(id) {
            TypeNode::Var(variable) => self.meet_type(variable),
            TypeNode::Con(_, parts) => self.wait_for_types(parts),
            TypeNode::Arrow(source, target) => self.wait_for_types(&[source, target]),
            TypeNode::Param(_) => Ok(()),
        }
    }

    // Goes through all that waits.
    fn go(&mut self, bank: &Bank, sorts: &Sorts) -> Result<(), Memory> {
        'spots: for _ in 0..u64::MAX {
            let Some(spot) = self.waiting.pop() else {
                return Ok(());
            };
            match spot {
                Spot::Term(id) => self.visit_term(bank, sorts, id)?,
                Spot::Type(id) => self.visit_type(bank, id)?,
            }
        }
        Err(Memory)
    }

    fn take_node(&mut self, node: &ProofNode) -> Result<(), Memory> {
        match node {
            ProofNode::Conv(term) => self.wait_for_terms(&[*term]),
            ProofNode::Some(term) => self.wait_for_terms(&[*term]),
            ProofNode::FocusConv(term) => self.wait_for_terms(&[*term]),
            ProofNode::FocusAll(term) => self.wait_for_terms(&[*term]),
            ProofNode::Back(_, types) => self.wait_for_types(types.as_slice()),
            ProofNode::True => Ok(()),
            ProofNode::And => Ok(()),
            ProofNode::Left => Ok(()),
            ProofNode::Right => Ok(()),
            ProofNode::All => Ok(()),
            ProofNode::Assume => Ok(()),
            ProofNode::Equal => Ok(()),
            ProofNode::Arith => Ok(()),
            ProofNode::Take(_) => Ok(()),
            ProofNode::Need => Ok(()),
            ProofNode::Hit => Ok(()),
        }
    }
}

/// The variables that are free in the types, the values and the proof, in this order.
pub(crate) fn free_in(
    alloc: Global,
    bank: &Bank,
    sorts: &Sorts,
    types: &Vec<TypeId>,
    values: &Vec<TermId>,
    nodes: &Vec<ProofNode>,
) -> Result<Free, Memory> {
    let mut finding = Finding::new(alloc);
    finding.wait_for_types(types.as_slice())?;
    finding.go(bank, sorts)?;
    finding.wait_for_terms(values.as_slice())?;
    finding.go(bank, sorts)?;
    'nodes: for node in nodes {
        finding.take_node(node)?;
        finding.go(bank, sorts)?;
    }
    let Finding { found, .. } = finding;
    Ok(found)
}
