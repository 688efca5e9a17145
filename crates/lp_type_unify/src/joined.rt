//! Nodes that are known to be one type.
ghost use Rattle.std.specs.Prelude.{◌≡◌, ℕ, ◌<◌, length, OnOk, nat_eq, Some, None, if◌then◌else◌, []};
ghost use Rattle.indexmap.specs.IndexMap.{get};
ghost use Rattle.lp_calculus.specs.Types.{Ty, instance};
ghost use Rattle.lp_type_unify.specs.Sharing.{AreJoined, IsLower, IsRoot, IsJoined};

use crate::bindings::Pair;
use indexmap::IndexMap;
use lp_base::Memory;
use lp_term::TypeId;
use std::alloc::Global;

// For a node, an older node of the same type.
#[derive(Drop)]
pub(crate) struct Joined {
    older: IndexMap<usize, usize>,
}

impl Joined {
    pub(crate) fn new(alloc: Global) -> Joined
        ensures { result.older.entries ≡ [] }
    {
        Joined {
            older: IndexMap::new(alloc),
        }
    }

    // The node that it was joined to.
    fn at(&self, node: usize) -> Option<usize>
        ensures { result ≡ get nat_eq self.now.older node }
    {
        self.older.get(&node).copied()
    }

    // The oldest node that it is joined to, in any reading in which joined nodes are one type.
    pub(crate) fn root(&self, id: TypeId) -> TypeId
        requires { (i : ℕ) → IsLower i (get nat_eq self.now.older i) }
        ensures { (τ θ : ℕ → Ty) → (n : ℕ) → AreJoined τ n θ (get nat_eq self.now.older) → IsRoot τ n θ id result }
    {
        let mut top = id;
        'joined: loop {
            let Some(next) = self.at(top.0) else {
                return top;
            };
            top = TypeId(next);
        }
    }

    // Joins two nodes.
    pub(crate) fn join(&mut self, pair: Pair) -> Result<(), Memory>
        ensures { OnOk result ((i : ℕ) → IsJoined pair i (get nat_eq self.old.older i) (get nat_eq self.new.older i)) }
    {
        if pair.left.0 < pair.right.0 {
            self.older.insert(pair.right.0, pair.left.0)?;
        }
        if pair.right.0 < pair.left.0 {
            self.older.insert(pair.left.0, pair.right.0)?;
        }
        Ok(())
    }
}
