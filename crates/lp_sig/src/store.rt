// Types of which each stands once in a bank, so that equal types have equal numbers.

ghost use Rattle.std.specs.Prelude.{◌≡◌, ◌≢◌, ◌<◌, length, map, true, false, AllPairs, IfOk};
ghost use Rattle.lp_calculus.specs.Types.{var, param, con, arrow, tys};
ghost use Rattle.lp_term.specs.Node.{TypeBelow};
ghost use Rattle.lp_term.specs.Shapes.{type_shape};
ghost use Rattle.lp_term.specs.Nodes.{Nodes, Extends, type_tree, type_node_tree};
ghost use Rattle.lp_sig.specs.Keys.{key_shape};
ghost use Rattle.lp_sig.specs.inner.Inside.{AreSame};

use indexmap::IndexSet;
use lp_base::Memory;
use lp_term::{Bank, TypeId, TypeNode};
use std::alloc::Global;

// A node by the numbers of its parts.
#[derive(PartialEq, Eq, Hash, Drop)]
enum TypeKey {
    Var(u64),
    Param(u64),
    Con(u32, Vec<usize>),
    Arrow(usize, usize),
}

#[derive(Drop)]
pub(crate) struct Types {
    pub alloc: Global,
    pub bank: Bank,
    // The number of a key is that of its node.
    keys: IndexSet<TypeKey>,
    ghost same: { map key_shape keys.keys ≡ bank.types },
    ghost once: { AllPairs (λ s t. s ≢ t) bank.types },
}

impl Types {
    pub(crate) fn new(alloc: Global) -> Types {
        Types {
            alloc,
            bank: Bank::new(alloc),
            keys: IndexSet::new(alloc),
        }
    }

    pub(crate) fn into_bank(self) -> Bank
        ensures { result ≡ self.bank }
    {
        self.bank
    }

    // The type with this node, which is put where there is none.
    fn put(&mut self, key: TypeKey, node: TypeNode<'_>) -> Result<TypeId, Memory>
        requires older { TypeBelow (length self.old.bank.types) (type_shape node) }
        requires key { key_shape key ≡ type_shape node }
        ensures kept { Extends self.old.bank self.new.bank }
        ensures tree { IfOk result (λ id. (id.0 < length self.new.bank.types) × (type_tree self.new.bank id.0 ≡ type_node_tree self.old.bank (type_shape node.entry))) }
    {
        let next = TypeId(self.bank.type_count());
        if let Some(number) = self.keys.get_index_of(&key) {
            return Ok(TypeId(number));
        }
        self.keys.reserve(1)?;
        self.bank.put_type(node)?;
        self.keys.insert(key)?;
        Ok(next)
    }

    pub(crate) fn var(&mut self, number: u64) -> Result<TypeId, Memory>
        ensures kept { Extends self.old.bank self.new.bank }
        ensures tree { IfOk result (λ id. (id.0 < length self.new.bank.types) × (type_tree self.new.bank id.0 ≡ var number)) }
    {
        self.put(TypeKey::Var(number), TypeNode::Var(number))
    }

    pub(crate) fn param(&mut self, number: u64) -> Result<TypeId, Memory>
        ensures kept { Extends self.old.bank self.new.bank }
        ensures tree { IfOk result (λ id. (id.0 < length self.new.bank.types) × (type_tree self.new.bank id.0 ≡ param number)) }
    {
        self.put(TypeKey::Param(number), TypeNode::Param(number))
    }

    // The type in the bank, of which a number past so many stands for the variable of number 0.
    pub(crate) fn inside(&mut self, id: TypeId, count: usize) -> Result<TypeId, Memory>
        ensures kept { Extends self.old.bank self.new.bank }
        ensures tree { IfOk result (λ here. (b : Nodes) → Extends b self.old.bank → count ≡ length b.types → (here.0 < length self.new.bank.types) × (type_tree self.new.bank here.0 ≡ type_tree b id.0)) }
    {
        if id.0 < count {
            return Ok(id);
        }
        self.var(0)
    }

    pub(crate) fn all_inside(&mut self, ids: &[TypeId], count: usize) -> Result<Vec<TypeId>, Memory>
        ensures kept { Extends self.old.bank self.new.bank }
        ensures trees { IfOk result (λ here. (b : Nodes) → Extends b self.old.bank → count ≡ length b.types → AreSame b self.new.bank ids.now here.items) }
    {
        let mut here = Vec::new(self.alloc);
        for id in ids.iter().copied() {
            let one = self.inside(id, count)?;
            here.push(one)?;
        }
        Ok(here)
    }

    pub(crate) fn con(&mut self, kind: u32, parts: &[TypeId]) -> Result<TypeId, Memory>
        ensures kept { Extends self.old.bank self.new.bank }
        ensures tree { IfOk result (λ id. (id.0 < length self.new.bank.types) × (type_tree self.new.bank id.0 ≡ con kind (tys (map (type_tree self.old.bank) (map (λ t. t.0) parts.now))))) }
    {
        let count = self.bank.type_count();
        let inside = self.all_inside(parts, count)?;
        let here = inside.as_slice();
        let numbers = here.iter().map(|part| part.0).collect(self.alloc)?;
        self.put(TypeKey::Con(kind, numbers), TypeNode::Con(kind, here))
    }

    pub(crate) fn arrow(&mut self, from: TypeId, to: TypeId) -> Result<TypeId, Memory>
        ensures kept { Extends self.old.bank self.new.bank }
        ensures tree { IfOk result (λ id. (id.0 < length self.new.bank.types) × (type_tree self.new.bank id.0 ≡ arrow (type_tree self.old.bank from.0) (type_tree self.old.bank to.0))) }
    {
        let count = self.bank.type_count();
        let left = self.inside(from, count)?;
        let right = self.inside(to, count)?;
        self.put(
            TypeKey::Arrow(left.0, right.0),
            TypeNode::Arrow(left, right),
        )
    }

    // Whether two types are the same one.
    pub(crate) fn are_equal(&self, one: TypeId, other: TypeId) -> bool
        ensures same { result ≡ true → one.0 ≡ other.0 }
        ensures distinct { result ≡ false → one.0 < length self.now.bank.types → other.0 < length self.now.bank.types → type_tree self.now.bank one.0 ≡ type_tree self.now.bank other.0 → ⊥ }
    {
        // The count tells that the bank is sound.
        self.bank.type_count() > one.0 && one.0 == other.0
    }
}
