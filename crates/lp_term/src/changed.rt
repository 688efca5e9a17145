//! What terms and types have become by a map, by their numbers. A node that is begun stands for itself until its parts are made.
ghost use Rattle.std.specs.Prelude.{◌≡◌, ◌++◌, ℕ, All, IfOk, OnOk, Some, None, map, is_some, if◌then◌else◌};
ghost use Rattle.lp_term.specs.Mapped.{Map};
ghost use Rattle.lp_term.specs.Memo.{AreMade};
ghost use Rattle.lp_term.specs.Nodes.{Nodes};
ghost use Rattle.lp_term.specs.declared.walked.Node.{Node as Spot};
ghost use Rattle.lp_term.specs.inner.Walking.{same_node, made_of, or_own};

use crate::node::{TermId, TypeId};
use crate::walked::Node;
use lp_base::Memory;
use std::alloc::Global;
use std::collections::HashMap;

/// What has been made, which later calls for the same map and banks take up.
#[derive(Drop)]
pub struct Changed {
    terms: HashMap<usize, usize>,
    types: HashMap<usize, usize>,
}

impl Changed {
    /// Nothing has been made.
    pub fn new(alloc: Global) -> Changed
        ensures { (m : Map) → (b d : Nodes) → AreMade m b d result }
    {
        Changed {
            terms: HashMap::new(alloc),
            types: HashMap::new(alloc),
        }
    }

    pub(crate) fn is_begun(&self, node: Node) -> bool
        ensures { result ≡ is_some (made_of self.now node) }
    {
        match node {
            Node::Term(id) => self.terms.contains_key(&id),
            Node::Type(id) => self.types.contains_key(&id),
        }
    }

    // Keeps the number of what the node has become.
    pub(crate) fn note(&mut self, node: Node, made: usize) -> Result<(), Memory>
        ensures { OnOk result ((n : Spot) → made_of self.new n ≡ (if same_node node n then Some made else made_of self.old n)) }
    {
        match node {
            Node::Term(id) => {
                self.terms.insert(id, made)?;
                Ok(())
            }
            Node::Type(id) => {
                self.types.insert(id, made)?;
                Ok(())
            }
        }
    }

    pub(crate) fn term(&self, id: TermId) -> TermId
        ensures { result.0 ≡ or_own (made_of self.now (Spot.Term id.0)) id.0 }
    {
        match self.terms.get(&id.0) {
            Some(made) => TermId(*made),
            None => id,
        }
    }

    pub(crate) fn type_of(&self, id: TypeId) -> TypeId
        ensures { result.0 ≡ or_own (made_of self.now (Spot.Type id.0)) id.0 }
    {
        match self.types.get(&id.0) {
            Some(made) => TypeId(*made),
            None => id,
        }
    }

    pub(crate) fn all_terms(&self, alloc: Global, ids: &[TermId]) -> Result<Vec<TermId>, Memory>
        ensures { IfOk result (λ made. map (λ t. t.0) made.items ≡ map (λ t. or_own (made_of self.now (Spot.Term t.0)) t.0) ids.now) }
    {
        let mut made = Vec::new(alloc);
        for id in ids.iter().copied() {
            made.push(self.term(id))?;
        }
        Ok(made)
    }

    pub(crate) fn all_types(&self, alloc: Global, ids: &[TypeId]) -> Result<Vec<TypeId>, Memory>
        ensures { IfOk result (λ made. map (λ t. t.0) made.items ≡ map (λ t. or_own (made_of self.now (Spot.Type t.0)) t.0) ids.now) }
    {
        let mut made = Vec::new(alloc);
        for id in ids.iter().copied() {
            made.push(self.type_of(id))?;
        }
        Ok(made)
    }
}
