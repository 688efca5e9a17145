// Copies of types, and their variables.

ghost use Rattle.std.specs.Prelude.{◌≡◌, ◌⊎◌, ◌<◌, ◌+◌, ◌*◌, List, ◌++◌, [], ◌∷◌, length, map, reverse, true, All, OnOk, IfOk, IfSome, Some, nat_eq, ℕ, if◌then◌else◌};
ghost use Rattle.lp_calculus.specs.Types.{instance};
ghost use Rattle.lp_term.specs.Nodes.{Nodes, Extends, type_tree, type_at};
ghost use Rattle.lp_term.specs.declared.node.TypeId.{TypeId};
ghost use Rattle.lp_sig.specs.Copying.{type_size, total, left, cost, InRange, AreInRange, picked, filled, AreCopies};
ghost use Rattle.lp_sig.specs.Schemes.{first_variables, IsOnWay, IsOpened};
ghost use Rattle.indexmap.specs.IndexMap.{get};
ghost use Rattle.lp_sig.specs.declared.interned.Task.TheVariants.{Visit, Build};
ghost use Rattle.lp_sig.specs.inner.Tasks.{HasCopy, AreParts, AllGo};

use crate::store::Types;
use indexmap::{IndexMap, IndexSet};
use lp_base::Memory;
use lp_term::{TypeId, TypeNode};
use std::alloc::Global;

// The type for a variable, which stays where there is none for it.
fn put_for(number: u64, variable: TypeId, args: &[TypeId]) -> TypeId
    ensures known { (n : ℕ) → variable.0 < n → All (λ i. i < n) (map (λ t. t.0) args.now) → result.0 < n }
    ensures tree { (b : Nodes) → type_tree b result.0 ≡ picked b args.now number (type_tree b variable.0) }
{
    if number < args.len() as u64 {
        args[number as usize]
    } else {
        variable
    }
}

// What is left to do for an instance of a type.
#[derive(Clone, Copy)]
enum Task {
    Visit(TypeId),
    Build(TypeId),
}

impl Types {
    // The type with other types for its variables; a variable without one stays.
    pub(crate) fn instance(&mut self, body: TypeId, args: &[TypeId]) -> Result<TypeId, Memory>
        ensures kept { Extends self.old.bank self.new.bank }
        ensures tree { IfOk result (λ id. (id.0 < length self.new.bank.types) × (type_tree self.new.bank id.0 ≡ instance (filled self.old.bank args.now) (type_tree self.old.bank body.0))) }
    {
        let count = self.bank.type_count();
        let root = self.inside(body, count)?;
        let given = self.all_inside(args, count)?;
        self.copied(root, given.as_slice())
    }

    // The same, of types that stand in the bank.
    fn copied(&mut self, body: TypeId, args: &[TypeId]) -> Result<TypeId, Memory>
        requires body { body.0 < length self.old.bank.types }
        requires args { All (λ i. i < length self.old.bank.types) (map (λ t. t.0) args.now) }
        ensures kept { Extends self.old.bank self.new.bank }
        ensures tree { IfOk result (λ id. (id.0 < length self.new.bank.types) × (type_tree self.new.bank id.0 ≡ instance (filled self.old.bank args.now) (type_tree self.old.bank body.0))) }
    {
        let mut made = IndexMap::new(self.alloc);
        let mut work = Vec::new(self.alloc);
        work.push(Task::Visit(body))?;
        'tasks: while let Some(task) = work.pop() {
            self.take(task, args, &mut made, &mut work)?;
        }
        Ok(copy_of(&made, body))
    }

    // Takes what is next.
    fn take(
        &mut self,
        task: Task,
        args: &[TypeId],
        made: &mut IndexMap<usize, usize>,
        work: &mut Vec<Task>,
    ) -> Result<(), Memory>
        requires { (id : TypeId) → task ≡ Build id → AreParts (HasCopy made.old) (type_at self.old.bank id.0) }
        ensures goes { OnOk result ((b : Nodes) (root : ℕ) → Extends b self.old.bank → InRange b task → AllGo b root (HasCopy made.old) (task ∷ reverse work.old.items) → AllGo b root (HasCopy made.new) (reverse work.new.items)) }
        ensures kept { Extends self.old.bank self.new.bank }
        ensures falls { OnOk result ((b : Nodes) → Extends b self.old.bank → InRange b task → AreInRange b work.old.items → AreInRange b work.new.items × (left b work.new.items < left b work.old.items + cost b task)) }
        ensures copies { OnOk result ((b : Nodes) → Extends b self.old.bank → InRange b task → All (λ i. i < length b.types) (map (λ t. t.0) args.now) → AreCopies b args.now self.old.bank made.old → AreCopies b args.now self.new.bank made.new) }
    {
        match task {
            Task::Visit(id) => self.visit(id, args, made, work),
            Task::Build(id) => self.build(id, made),
        }
    }

    // Looks at a node that has no copy yet; its parts come first.
    fn visit(
        &self,
        id: TypeId,
        args: &[TypeId],
        made: &mut IndexMap<usize, usize>,
        work: &mut Vec<Task>,
    ) -> Result<(), Memory>
        ensures goes { OnOk result ((b : Nodes) (root : ℕ) → Extends b self.now.bank → id.0 < length b.types → AllGo b root (HasCopy made.old) (Visit id ∷ reverse work.old.items) → AllGo b root (HasCopy made.new) (reverse work.new.items)) }
        ensures copies { OnOk result ((b : Nodes) → Extends b self.now.bank → id.0 < length b.types → All (λ i. i < length b.types) (map (λ t. t.0) args.now) → AreCopies b args.now self.now.bank made.old → AreCopies b args.now self.now.bank made.new) }
        ensures falls { OnOk result ((b : Nodes) → Extends b self.now.bank → id.0 < length b.types → AreInRange b work.old.items → AreInRange b work.new.items × (left b work.new.items < left b work.old.items + 2 * type_size (type_tree b id.0))) }
    {
        if made.contains_key(&id.0) {
            return Ok(());
        }
        match self.bank.type_node(id) {
            TypeNode::Var(number) => keep(made, id, put_for(number, id, args)),
            TypeNode::Param(_) => keep(made, id, id),
            TypeNode::Con(_, parts) => {
                work.push(Task::Build(id))?;
                push_visits(parts, work)
            }
            TypeNode::Arrow(from, to) => {
                work.push(Task::Build(id))?;
                work.push(Task::Visit(to))?;
                work.push(Task::Visit(from))?;
                Ok(())
            }
        }
    }

    // Copies a node whose parts have copies.
    fn build(&mut self, id: TypeId, made: &mut IndexMap<usize, usize>) -> Result<(), Memory>
        requires { AreParts (HasCopy made.old) (type_at self.old.bank id.0) }
        ensures goes { OnOk result ((i : ℕ) → HasCopy made.old i ⊎ (i ≡ id.0) → HasCopy made.new i) }
        ensures kept { Extends self.old.bank self.new.bank }
        ensures copies { OnOk result ((b : Nodes) (args : List TypeId) → Extends b self.old.bank → id.0 < length b.types → AreCopies b args self.old.bank made.old → AreCopies b args self.new.bank made.new) }
    {
        match self.bank.type_node(id) {
            TypeNode::Var(_) => Ok(()),
            TypeNode::Param(_) => Ok(()),
            TypeNode::Con(kind, parts) => {
                let copies = copies_of(self.alloc, made, parts)?;
                let copy = self.con(kind, copies.as_slice())?;
                keep(made, id, copy)
            }
            TypeNode::Arrow(from, to) => {
                let left = copy_of(made, from);
                let right = copy_of(made, to);
                let copy = self.arrow(left, right)?;
                keep(made, id, copy)
            }
        }
    }

    // The variables of a type, by first place.
    pub(crate) fn variables(&self, body: TypeId) -> Result<Vec<u64>, Memory>
        ensures { IfOk result (λ found. found.items ≡ first_variables (type_tree self.now.bank body.0)) }
    {
        let mut found = IndexSet::new(self.alloc);
        let mut seen = IndexSet::new(self.alloc);
        let mut work = Vec::new(self.alloc);
        work.push(body)?;
        'types: while let Some(id) = work.pop() {
            self.look(id, &mut seen, &mut found, &mut work)?;
        }
        let list = Vec::from_slice(self.alloc, found.as_slice())?;
        Ok(list)
    }

    // Looks at a type, if this is the first time.
    fn look(
        &self,
        id: TypeId,
        seen: &mut IndexSet<usize>,
        found: &mut IndexSet<u64>,
        work: &mut Vec<TypeId>,
    ) -> Result<(), Memory>
        ensures falls { OnOk result (total self.now.bank work.new.items < total self.now.bank work.old.items + type_size (type_tree self.now.bank id.0)) }
        ensures on_way { OnOk result ((all : List ℕ) → IsOnWay self.now.bank found.old.keys seen.old.keys (id ∷ reverse work.old.items) all → IsOnWay self.now.bank found.new.keys seen.new.keys (reverse work.new.items) all) }
    {
        if !seen.insert(id.0)? {
            return Ok(());
        }
        self.meet(id, found, work)
    }

    // Notes a variable; the parts of any other type come next.
    fn meet(
        &self,
        id: TypeId,
        found: &mut IndexSet<u64>,
        work: &mut Vec<TypeId>,
    ) -> Result<(), Memory>
        ensures falls { OnOk result (total self.now.bank work.new.items < total self.now.bank work.old.items + type_size (type_tree self.now.bank id.0)) }
        ensures opened { OnOk result (IsOpened self.now.bank id.0 found.old.keys found.new.keys (reverse work.old.items) (reverse work.new.items)) }
    {
        match self.bank.type_node(id) {
            TypeNode::Var(number) => {
                found.insert(number)?;
                Ok(())
            }
            TypeNode::Param(_) => Ok(()),
            TypeNode::Con(_, parts) => push_reversed(parts, work),
            TypeNode::Arrow(from, to) => {
                work.push(to)?;
                work.push(from)?;
                Ok(())
            }
        }
    }
}

fn push_reversed(ids: &[TypeId], work: &mut Vec<TypeId>) -> Result<(), Memory>
    ensures { OnOk result (work.new.items ≡ work.old.items ++ reverse ids.now) }
{
    for id in ids.iter().rev().copied() {
        work.push(id)?;
    }
    Ok(())
}

fn push_visits(ids: &[TypeId], work: &mut Vec<Task>) -> Result<(), Memory>
    ensures { OnOk result (work.new.items ≡ work.old.items ++ map (λ t. Visit t) (reverse ids.now)) }
{
    for id in ids.iter().rev().copied() {
        work.push(Task::Visit(id))?;
    }
    Ok(())
}

// Keeps the copy of a node.
fn keep(made: &mut IndexMap<usize, usize>, id: TypeId, copy: TypeId) -> Result<(), Memory>
    ensures { OnOk result ((y : ℕ) → get nat_eq made.new y ≡ (if nat_eq id.0 y then Some copy.0 else get nat_eq made.old y)) }
{
    made.insert(id.0, copy.0)?;
    Ok(())
}

// The copy of a node, which was made before it.
fn copy_of(made: &IndexMap<usize, usize>, id: TypeId) -> TypeId
    requires { HasCopy made.now id.0 }
    ensures { get nat_eq made.now id.0 ≡ Some result.0 }
{
    let Some(copy) = made.get(&id.0) else {
        unreachable!()
    };
    TypeId(*copy)
}

fn copies_of(
    alloc: Global,
    made: &IndexMap<usize, usize>,
    ids: &[TypeId],
) -> Result<Vec<TypeId>, Memory>
    requires { All (HasCopy made.now) (map (λ t. t.0) ids.now) }
    ensures { IfOk result (λ copies. map (λ t. get nat_eq made.now t.0) ids.now ≡ map (λ c. Some c.0) copies.items) }
{
    let mut copies = Vec::new(alloc);
    for at in 0..ids.len() {
        copies.push(copy_of(made, ids[at]))?;
    }
    Ok(copies)
}
