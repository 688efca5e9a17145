//! What the type variables are bound to.
ghost use Rattle.std.specs.Prelude.{◌≡◌, ℕ, ◌<◌, length, List, [], ◌∷◌, ◌++◌, OnOk, OnErr, Some, None, Option, nat_eq, if◌then◌else◌, slice_get};
ghost use Rattle.indexmap.specs.IndexMap.{get};
ghost use Rattle.lp_calculus.specs.Types.{instance};
ghost use Rattle.lp_term.specs.Nodes.{type_tree};
ghost use Rattle.lp_type_unify.specs.Reading.{reads, AreKept};
ghost use Rattle.lp_type_unify.specs.Looking.{IsUnbound};

use indexmap::IndexMap;
use lp_base::Memory;
use lp_term::{Bank, TypeId, TypeNode};
use std::alloc::Global;

/// Two types that are to be one.
#[derive(Clone, Copy)]
pub struct Pair {
    pub left: TypeId,
    pub right: TypeId,
}

/// Types of a bank for type variables, in the order in which they were bound. Each reads under all of them.
#[derive(Drop)]
pub struct Bindings {
    made: IndexMap<u64, TypeId>,
}

impl Bindings {
    /// No bindings. Allocates nothing.
    pub fn new(alloc: Global) -> Bindings
        ensures { result.made.entries ≡ [] }
    {
        Bindings {
            made: IndexMap::new(alloc),
        }
    }

    /// The type that the variable is bound to, if it is bound.
    pub fn get(&self, variable: u64) -> Option<TypeId>
        ensures { result ≡ get nat_eq self.now.made variable }
    {
        self.made.get(&variable).copied()
    }

    /// How many variables are bound.
    pub fn len(&self) -> usize
        ensures { result ≡ length self.now.made.entries }
    {
        self.made.len()
    }

    /// The variable that was bound at this place in the order, with its type.
    pub fn entry(&self, place: usize) -> Option<(u64, TypeId)>
        ensures { result ≡ slice_get self.now.made.entries place }
    {
        match self.made.get_index(place) {
            Some((variable, to)) => Some((*variable, *to)),
            None => None,
        }
    }

    // Binds a variable that is not bound.
    pub(crate) fn bind(&mut self, variable: u64, to: TypeId) -> Result<(), Memory>
        requires { get nat_eq self.old.made variable ≡ None }
        ensures made { OnOk result (self.new.made.entries ≡ self.old.made.entries ++ (variable, to) ∷ []) }
        ensures bound { OnOk result ((y : ℕ) → get nat_eq self.new.made y ≡ (if nat_eq variable y then Some to else get nat_eq self.old.made y)) }
        ensures unchanged { OnErr result (self.new.made.entries ≡ self.old.made.entries) }
    {
        match self.made.insert(variable, to) {
            Ok(_) => Ok(()),
            Err(_) => Err(Memory),
        }
    }

    /// The type past the bindings on its top: no variable that is bound.
    pub fn resolve(&self, bank: &Bank, id: TypeId) -> TypeId
        requires kept { AreKept bank.now self.now.made }
        requires known { id.0 < length bank.now.types }
        ensures same { instance (reads bank.now self.now.made) (type_tree bank.now result.0) ≡ instance (reads bank.now self.now.made) (type_tree bank.now id.0) }
        ensures known { result.0 < length bank.now.types }
        ensures unbound { IsUnbound (get nat_eq self.now.made) (type_tree bank.now result.0) }
    {
        let mut top = id;
        'bound: loop {
            let TypeNode::Var(x) = bank.type_node(top) else {
                return top;
            };
            let Some(to) = self.get(x) else {
                return top;
            };
            top = to;
        }
    }
}
