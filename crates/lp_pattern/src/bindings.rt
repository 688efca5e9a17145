// What variables are bound to.
ghost use Rattle.std.specs.Prelude.{◌≡◌, length, [], ◌∷◌, ◌++◌, OnOk, OnErr, IfOk, nat_eq, take, None};
ghost use Rattle.indexmap.specs.IndexMap.{get};
ghost use Rattle.lp_pattern.specs.Growing.{Grows};

use indexmap::IndexMap;
use lp_base::Memory;
use lp_term::{TermId, TypeId};
use std::alloc::Global;

/// What logic variables and type variables are bound to, in the order in which they were bound. Values may hold bound variables again.
#[derive(Drop)]
pub struct Bindings {
    pub(crate) terms: IndexMap<u64, TermId>,
    pub(crate) types: IndexMap<u64, TypeId>,
}

/// A point in the order of the bindings.
#[derive(Clone, Copy, Debug, PartialEq, Eq)]
pub struct Mark {
    pub(crate) terms: usize,
    pub(crate) types: usize,
}

impl Bindings {
    /// No variable is bound.
    pub fn new(alloc: Global) -> Bindings
        ensures terms { result.terms.entries ≡ [] }
        ensures types { result.types.entries ≡ [] }
    {
        Bindings {
            terms: IndexMap::new(alloc),
            types: IndexMap::new(alloc),
        }
    }

    /// The value of a logic variable, where it is bound.
    pub fn value(&self, variable: u64) -> Option<TermId>
        ensures { result ≡ get nat_eq self.now.terms variable }
    {
        self.terms.get(&variable).copied()
    }

    /// The value of a type variable, where it is bound.
    pub fn type_value(&self, variable: u64) -> Option<TypeId>
        ensures { result ≡ get nat_eq self.now.types variable }
    {
        self.types.get(&variable).copied()
    }

    /// The point that is reached.
    pub fn mark(&self) -> Mark
        ensures terms { result.terms ≡ length self.now.terms.entries }
        ensures types { result.types ≡ length self.now.types.entries }
    {
        Mark {
            terms: self.terms.len(),
            types: self.types.len(),
        }
    }

    /// Takes back all that was bound since the mark.
    pub fn undo(&mut self, mark: Mark)
        ensures terms { self.new.terms.entries ≡ take mark.terms self.old.terms.entries }
        ensures types { self.new.types.entries ≡ take mark.types self.old.types.entries }
    {
        self.terms.truncate(mark.terms);
        self.types.truncate(mark.types);
    }

    // Binds a logic variable that is not bound.
    pub(crate) fn put_term(&mut self, variable: u64, to: TermId) -> Result<(), Memory>
        requires { get nat_eq self.old.terms variable ≡ None }
        ensures made { OnOk result (self.new.terms.entries ≡ self.old.terms.entries ++ (variable, to) ∷ []) }
        ensures types { self.new.types ≡ self.old.types }
        ensures unchanged { OnErr result (self.new.terms.entries ≡ self.old.terms.entries) }
        ensures grown { Grows self.old self.new }
    {
        self.terms.insert(variable, to)?;
        Ok(())
    }

    // Binds a type variable that is not bound.
    fn put_type(&mut self, variable: u64, to: TypeId) -> Result<(), Memory>
        requires { get nat_eq self.old.types variable ≡ None }
        ensures made { OnOk result (self.new.types.entries ≡ self.old.types.entries ++ (variable, to) ∷ []) }
        ensures terms { self.new.terms ≡ self.old.terms }
        ensures unchanged { OnErr result (self.new.types.entries ≡ self.old.types.entries) }
    {
        self.types.insert(variable, to)?;
        Ok(())
    }

    // Binds a logic variable. `Memory` stands for one that is bound already, too.
    pub(crate) fn bind(&mut self, variable: u64, to: TermId) -> Result<(), Memory>
        ensures made { OnOk result (self.new.terms.entries ≡ self.old.terms.entries ++ (variable, to) ∷ []) }
        ensures types { self.new.types ≡ self.old.types }
        ensures unchanged { OnErr result (self.new.terms.entries ≡ self.old.terms.entries) }
        ensures grown { Grows self.old self.new }
    {
        match self.value(variable) {
            Some(_) => Err(Memory),
            None => self.put_term(variable, to),
        }
    }

    // Binds a type variable. `Memory` stands for one that is bound already, too.
    pub(crate) fn bind_type(&mut self, variable: u64, to: TypeId) -> Result<(), Memory>
        ensures made { OnOk result (self.new.types.entries ≡ self.old.types.entries ++ (variable, to) ∷ []) }
        ensures free { OnOk result (get nat_eq self.old.types variable ≡ None) }
        ensures terms { self.new.terms ≡ self.old.terms }
        ensures unchanged { OnErr result (self.new.types.entries ≡ self.old.types.entries) }
        ensures grown { Grows self.old self.new }
    {
        match self.type_value(variable) {
            Some(_) => Err(Memory),
            None => self.put_type(variable, to),
        }
    }

    // The values of logic variables, in the order in which they were bound.
    pub(crate) fn term_entries(&self, alloc: Global) -> Result<Vec<(u64, TermId)>, Memory>
        ensures { IfOk result (λ list. list.items ≡ self.now.terms.entries) }
    {
        let mut list = Vec::new(alloc);
        for (variable, to) in self.terms.iter() {
            list.push((*variable, *to))?;
        }
        Ok(list)
    }

    // The values of type variables, in the order in which they were bound.
    pub(crate) fn type_entries(&self, alloc: Global) -> Result<Vec<(u64, TypeId)>, Memory>
        ensures { IfOk result (λ list. list.items ≡ self.now.types.entries) }
    {
        let mut list = Vec::new(alloc);
        for (variable, to) in self.types.iter() {
            list.push((*variable, *to))?;
        }
        Ok(list)
    }
}
