// What types are under bindings, read off into another bank with sharing; the type variables are numbered by first place.
ghost use Rattle.std.specs.Prelude.{◌≡◌, ◌<◌, ℕ, [], ◌∷◌, ◌++◌, map, reverse, length, All, IfOk, OnOk, Some, nat_eq, if◌then◌else◌};
ghost use Rattle.indexmap.specs.IndexMap.{get};
ghost use Rattle.indexmap.specs.IndexSet.{insert_key};
ghost use Rattle.lp_calculus.specs.Types.{Ty, var, param, instance};
ghost use Rattle.lp_term.specs.Nodes.{Nodes, Extends, type_tree, type_at};
ghost use Rattle.lp_term.specs.Within.{AreTypesOf};
ghost use Rattle.lp_type_unify.specs.Reading.{AreKept};
ghost use Rattle.lp_infer.specs.Meeting.{place};
ghost use Rattle.lp_infer.specs.ReadingOff.{bound_type, cost, IsReadAs, IsReadMemo, AreRead, IsTaken, ReadsOne, ReadsAll};
ghost use Rattle.lp_infer.specs.inner.Waiting.{WasRead, PartsRead, IsPut, IsRead, Serves};
ghost use Rattle.lp_infer.specs.declared.reading.Task.{Task};

use indexmap::{IndexMap, IndexSet};
use lp_base::Memory;
use lp_term::{Bank, TypeId, TypeNode, put_arrow, put_constructor, put_type_variable};
use lp_type_unify::Bindings;
use std::alloc::Global;

#[derive(Clone, Copy)]
enum Task {
    Visit(TypeId),
    // A type whose parts are read, and what it is past its bindings.
    Build(TypeId, TypeId),
}

#[derive(Drop)]
pub(crate) struct Reading {
    alloc: Global,
    made: IndexMap<usize, usize>,
    // The type variables in the order in which they were met.
    numbers: IndexSet<u64>,
}

fn push_visits(ids: &[TypeId], work: &mut Vec<Task>) -> Result<(), Memory>
    ensures { OnOk result (work.new.items ≡ work.old.items ++ map Task.Visit (reverse ids.now)) }
{
    for id in ids.iter().rev().copied() {
        work.push(Task::Visit(id))?;
    }
    Ok(())
}

impl Reading {
    pub(crate) fn new(alloc: Global) -> Reading
        ensures memo { (A : ℕ → Ty) → (b : Nodes) → IsReadMemo A b result }
        ensures numbers { result.numbers.keys ≡ [] }
    {
        Reading {
            alloc,
            made: IndexMap::new(alloc),
            numbers: IndexSet::new(alloc),
        }
    }

    // How many type variables were met.
    pub(crate) fn count(&self) -> u64
        ensures { result ≡ length self.now.numbers.keys }
    {
        self.numbers.len() as u64
    }

    fn number(&mut self, variable: u64) -> Result<u64, Memory>
        ensures made { self.new.made ≡ self.old.made }
        ensures numbers { OnOk result (self.new.numbers.keys ≡ insert_key nat_eq self.old.numbers.keys variable) }
        ensures number { IfOk result (λ n. n ≡ place self.new.numbers.keys variable) }
    {
        let (number, _) = self.numbers.insert_full(variable)?;
        Ok(number as u64)
    }

    // What was made of a type.
    fn find(&self, top: TypeId) -> Option<usize>
        ensures { result ≡ get nat_eq self.now.made top.0 }
    {
        self.made.get(&top.0).copied()
    }

    fn put(&mut self, id: TypeId, made: TypeId) -> Result<(), Memory>
        ensures numbers { self.new.numbers ≡ self.old.numbers }
        ensures made { OnOk result ((i : ℕ) → get nat_eq self.new.made i ≡ (if nat_eq id.0 i then Some made.0 else get nat_eq self.old.made i)) }
    {
        self.made.insert(id.0, made.0)?;
        Ok(())
    }

    // Keeps what was made of a type, which is the other one past its bindings.
    fn keep(&mut self, id: TypeId, top: TypeId, made: TypeId) -> Result<(), Memory>
        ensures numbers { self.new.numbers ≡ self.old.numbers }
        ensures made { OnOk result (IsPut id.0 top.0 made.0 self.old self.new) }
    {
        self.put(top, made)?;
        self.put(id, made)
    }

    // What was made of a part.
    fn part(&self, id: TypeId) -> TypeId
        requires { WasRead self.now id.0 }
        ensures { (A : ℕ → Ty) → (b : Nodes) → IsReadMemo A b self.now → IsReadAs b self.now.numbers.keys (A id.0) result.0 }
    {
        let Some(made) = self.find(id) else {
            unreachable!()
        };
        TypeId(made)
    }

    fn parts(&self, ids: &[TypeId]) -> Result<Vec<TypeId>, Memory>
        requires { All (λ t. WasRead self.now t.0) ids.now }
        ensures { IfOk result (λ parts. (A : ℕ → Ty) → (b : Nodes) → IsReadMemo A b self.now → AreRead b self.now.numbers.keys (map A (map (λ t. t.0) ids.now)) parts.items) }
    {
        let mut parts = Vec::new(self.alloc);
        for id in ids {
            parts.push(self.part(*id))?;
        }
        Ok(parts)
    }

    // A type variable that is not bound.
    fn variable(
        &mut self,
        variable: u64,
        id: TypeId,
        top: TypeId,
        to: &mut Bank,
    ) -> Result<(), Memory>
        ensures kept { Extends to.old to.new }
        ensures goes { OnOk result (self.new.numbers.keys ≡ insert_key nat_eq self.old.numbers.keys variable) }
        ensures memo { OnOk result ((A : ℕ → Ty) → A id.0 ≡ A top.0 → A top.0 ≡ var variable → IsReadMemo A to.old self.old → IsReadMemo A to.new self.new) }
        ensures was { OnOk result (IsRead id.0 self.old self.new) }
    {
        let number = self.number(variable)?;
        let made = put_type_variable(to, number)?;
        self.keep(id, top, made)
    }

    fn parameter(
        &mut self,
        number: u64,
        id: TypeId,
        top: TypeId,
        to: &mut Bank,
    ) -> Result<(), Memory>
        ensures kept { Extends to.old to.new }
        ensures numbers { self.new.numbers ≡ self.old.numbers }
        ensures memo { OnOk result ((A : ℕ → Ty) → A id.0 ≡ A top.0 → A top.0 ≡ param number → IsReadMemo A to.old self.old → IsReadMemo A to.new self.new) }
        ensures was { OnOk result (IsRead id.0 self.old self.new) }
    {
        let made = to.put_type(TypeNode::Param(number))?;
        self.keep(id, top, made)
    }

    fn visit(
        &mut self,
        from: &Bank,
        bindings: &Bindings,
        id: TypeId,
        to: &mut Bank,
        work: &mut Vec<Task>,
    ) -> Result<(), Memory>
        requires kept { AreKept from.now bindings.now.made }
        requires known { id.0 < length from.now.types }
        ensures kept { Extends to.old to.new }
        ensures taken { OnOk result (IsTaken (bound_type from.now bindings.now.made) to.old to.new self.old self.new (Task.Visit id ∷ reverse work.old.items) (reverse work.new.items)) }
        ensures fewer { OnOk result (cost (bound_type from.now bindings.now.made) (reverse work.new.items) < cost (bound_type from.now bindings.now.made) (Task.Visit id ∷ reverse work.old.items)) }
        ensures serves { OnOk result ((root : ℕ) → Serves (bound_type from.now bindings.now.made) from.now root (WasRead self.old) (Task.Visit id ∷ reverse work.old.items) → Serves (bound_type from.now bindings.now.made) from.now root (WasRead self.new) (reverse work.new.items)) }
    {
        let top = bindings.resolve(from, id);
        if let Some(made) = self.find(top) {
            return self.keep(id, top, TypeId(made));
        }
        match from.type_node(top) {
            TypeNode::Var(variable) => self.variable(variable, id, top, to),
            TypeNode::Param(number) => self.parameter(number, id, top, to),
            TypeNode::Con(_, ids) => {
                work.push(Task::Build(id, top))?;
                push_visits(ids, work)
            }
            TypeNode::Arrow(left, right) => {
                work.push(Task::Build(id, top))?;
                work.push(Task::Visit(right))?;
                work.push(Task::Visit(left))?;
                Ok(())
            }
        }
    }

    fn build(&mut self, from: &Bank, id: TypeId, top: TypeId, to: &mut Bank) -> Result<(), Memory>
        requires { PartsRead (WasRead self.old) (type_at from.now top.0) }
        ensures kept { Extends to.old to.new }
        ensures numbers { self.new.numbers ≡ self.old.numbers }
        ensures memo { OnOk result ((θ : ℕ → Ty) → instance θ (type_tree from.now id.0) ≡ instance θ (type_tree from.now top.0) → IsReadMemo (λ i. instance θ (type_tree from.now i)) to.old self.old → IsReadMemo (λ i. instance θ (type_tree from.now i)) to.new self.new) }
        ensures was { OnOk result (IsRead id.0 self.old self.new) }
    {
        match from.type_node(top) {
            TypeNode::Var(_) => unreachable!(),
            TypeNode::Param(_) => unreachable!(),
            TypeNode::Con(kind, ids) => {
                let parts = self.parts(ids)?;
                let made = put_constructor(to, kind, parts.as_slice())?;
                self.keep(id, top, made)
            }
            TypeNode::Arrow(left, right) => {
                let one = self.part(left);
                let other = self.part(right);
                let made = put_arrow(to, one, other)?;
                self.keep(id, top, made)
            }
        }
    }

    fn take(
        &mut self,
        from: &Bank,
        bindings: &Bindings,
        task: Task,
        to: &mut Bank,
        work: &mut Vec<Task>,
    ) -> Result<(), Memory>
        requires kept { AreKept from.now bindings.now.made }
        requires serves { (root : ℕ) × Serves (bound_type from.now bindings.now.made) from.now root (WasRead self.old) (task ∷ reverse work.old.items) }
        ensures kept { Extends to.old to.new }
        ensures taken { OnOk result (IsTaken (bound_type from.now bindings.now.made) to.old to.new self.old self.new (task ∷ reverse work.old.items) (reverse work.new.items)) }
        ensures fewer { OnOk result (cost (bound_type from.now bindings.now.made) (reverse work.new.items) < cost (bound_type from.now bindings.now.made) (task ∷ reverse work.old.items)) }
        ensures serves { OnOk result ((root : ℕ) → Serves (bound_type from.now bindings.now.made) from.now root (WasRead self.old) (task ∷ reverse work.old.items) → Serves (bound_type from.now bindings.now.made) from.now root (WasRead self.new) (reverse work.new.items)) }
    {
        match task {
            Task::Visit(id) => self.visit(from, bindings, id, to, work),
            Task::Build(id, top) => self.build(from, id, top, to),
        }
    }

    fn read(
        &mut self,
        from: &Bank,
        bindings: &Bindings,
        id: TypeId,
        to: &mut Bank,
    ) -> Result<TypeId, Memory>
        requires kept { AreKept from.now bindings.now.made }
        requires known { id.0 < length from.now.types }
        ensures kept { Extends to.old to.new }
        ensures read { IfOk result (λ j. IsReadMemo (bound_type from.now bindings.now.made) to.old self.old → ReadsOne (bound_type from.now bindings.now.made) to.new self.old self.new id.0 j) }
    {
        let mut work = Vec::new(self.alloc);
        work.push(Task::Visit(id))?;
        while let Some(task) = work.pop() {
            self.take(from, bindings, task, to, &mut work)?;
        }
        Ok(self.part(id))
    }

    pub(crate) fn read_all(
        &mut self,
        from: &Bank,
        bindings: &Bindings,
        ids: &[TypeId],
        to: &mut Bank,
    ) -> Result<Vec<TypeId>, Memory>
        requires kept { AreKept from.now bindings.now.made }
        requires known { AreTypesOf from.now ids.now }
        ensures kept { Extends to.old to.new }
        ensures read { IfOk result (λ made. IsReadMemo (bound_type from.now bindings.now.made) to.old self.old → ReadsAll (bound_type from.now bindings.now.made) to.new self.old self.new ids.now made.items) }
    {
        let mut types = Vec::new(self.alloc);
        for id in ids {
            types.push(self.read(from, bindings, *id, to)?)?;
        }
        Ok(types)
    }
}
