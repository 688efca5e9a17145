// The types so far, with the bodies of abbreviations at the places of their names.
ghost use Rattle.std.specs.Prelude.{◌≡◌, ◌<◌, ◌++◌, ◌∷◌, ℕ, [], length, map, slice_set, Some, None, true, false, OnOk};
ghost use Rattle.lp_term.specs.Nodes.{type_tree};
ghost use Rattle.lp_term.specs.declared.node.TypeId.{TypeId};
ghost use Rattle.lp_sig.specs.Holding.{body_of, line_at};

use crate::store::Types;
use lp_base::Memory;
use lp_term::{Bank, TypeId};
use std::alloc::Global;

// The body of an abbreviation is missing while it is not settled, or where it has a fault. The line is that of the text at
// work in which it is declared.
#[derive(Drop)]
pub(crate) struct Body {
    pub body: Option<TypeId>,
    pub line: Option<usize>,
}

#[derive(Drop)]
pub(crate) struct Bodies {
    pub alloc: Global,
    pub types: Types,
    pub bodies: Vec<Body>,
}

impl Bodies {
    pub(crate) fn new(alloc: Global) -> Bodies
        ensures { result.bodies.items ≡ [] }
    {
        Bodies {
            alloc,
            types: Types::new(alloc),
            bodies: Vec::new(alloc),
        }
    }

    pub(crate) fn into_bank(self) -> Bank
        ensures { result ≡ self.types.bank }
    {
        self.types.into_bank()
    }

    // One more abbreviation.
    pub(crate) fn add(&mut self, body: Option<TypeId>, line: Option<usize>) -> Result<(), Memory>
        ensures types { self.new.types ≡ self.old.types }
        ensures items { OnOk result (self.new.bodies.items ≡ self.old.bodies.items ++ record { body = body; line = line } ∷ []) }
    {
        self.bodies.push(Body { body, line })?;
        Ok(())
    }

    // The body of an abbreviation that is settled.
    pub(crate) fn body_at(&self, place: usize) -> Option<TypeId>
        ensures { result ≡ body_of self.now.bodies.items place }
    {
        self.bodies.get(place)?.body
    }

    // Whether the body of an abbreviation is another one than this.
    pub(crate) fn has_other_body(&self, place: usize, body: Option<TypeId>) -> bool
        ensures other { result ≡ true → (known : TypeId) × (new : TypeId) × (body_of self.now.bodies.items place ≡ Some known) × (body ≡ Some new) × (known.0 < length self.now.types.bank.types → new.0 < length self.now.types.bank.types → type_tree self.now.types.bank known.0 ≡ type_tree self.now.types.bank new.0 → ⊥) }
        ensures same { result ≡ false → (known new : TypeId) → body_of self.now.bodies.items place ≡ Some known → body ≡ Some new → known.0 < length self.now.types.bank.types → known.0 ≡ new.0 }
    {
        let Some(known) = self.body_at(place) else {
            return false;
        };
        let Some(new) = body else {
            return false;
        };
        !self.types.are_equal(known, new)
    }

    fn leave_at(&mut self, place: usize)
        ensures types { self.new.types ≡ self.old.types }
        ensures bodies { map (λ b. b.body) self.new.bodies.items ≡ map (λ b. b.body) self.old.bodies.items }
        ensures lines { map (λ b. b.line) self.new.bodies.items ≡ slice_set (map (λ b. b.line) self.old.bodies.items) place None }
    {
        if let Some(known) = self.bodies.get_mut(place) {
            known.line = None;
        }
    }

    // Behind a text its lines mean nothing more.
    pub(crate) fn leave(&mut self)
        ensures types { self.new.types ≡ self.old.types }
        ensures bodies { map (λ b. b.body) self.new.bodies.items ≡ map (λ b. b.body) self.old.bodies.items }
        ensures lines { (i : ℕ) → line_at self.new.bodies.items i ≡ None }
    {
        for place in 0..self.bodies.len() {
            self.leave_at(place);
        }
    }
}
