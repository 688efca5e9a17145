// Types with all bindings put in.
ghost use Rattle.std.specs.Prelude.{◌≡◌, ◌≢◌, ◌<◌, ◌^◌, ◌∷◌, ◌++◌, ℕ, [], length, map, All, true, false, IfOk, OnOk, IfSome, None, Some, nat_eq, if◌then◌else◌};
ghost use Rattle.indexmap.specs.IndexMap.{get};
ghost use Rattle.lp_calculus.specs.Types.{Ty, instance};
ghost use Rattle.lp_term.specs.Nodes.{Nodes, Extends, type_at, type_tree};
ghost use Rattle.lp_pattern.specs.Under.{AreTypes, IsUnbound};
ghost use Rattle.lp_pattern.specs.Comparing.{IsLoose};
ghost use Rattle.lp_pattern.specs.Filling.{part_numbers, AreFilled, HaveBecome};
ghost use Rattle.lp_pattern.specs.inner.Making.{IsFurther, unmade, type_made, types_left};

use crate::bindings::Bindings;
use indexmap::IndexMap;
use lp_base::Memory;
use lp_term::{Bank, TypeId, TypeNode, put_arrow, put_constructor};
use std::alloc::Global;

// What types have become, by their numbers.
#[derive(Drop)]
pub(crate) struct TypesFilled {
    made: IndexMap<usize, TypeId>,
}

impl TypesFilled {
    pub(crate) fn new(alloc: Global) -> TypesFilled
        ensures { (b : Nodes) → (θ : ℕ → Ty) → AreFilled b θ result }
    {
        TypesFilled {
            made: IndexMap::new(alloc),
        }
    }

    fn at(&self, id: TypeId) -> Option<TypeId>
        ensures { result ≡ get nat_eq self.now.made id.0 }
    {
        self.made.get(&id.0).copied()
    }

    fn note(&mut self, id: TypeId, made: TypeId) -> Result<(), Memory>
        ensures types { OnOk result ((i : ℕ) → get nat_eq self.new.made i ≡ (if nat_eq id.0 i then Some made else get nat_eq self.old.made i)) }
        ensures added { OnOk result (get nat_eq self.old.made id.0 ≡ None → self.new.made.entries ≡ self.old.made.entries ++ (id.0, made) ∷ []) }
    {
        self.made.insert(id.0, made)?;
        Ok(())
    }

    fn count(&self) -> usize
        ensures count { result ≡ length self.now.made.entries }
        ensures few { length self.now.made.entries < 2 ^ 64 }
    {
        self.made.len()
    }
}

// The type past the bindings at its top. A value outside the bank is none. More values than there are bindings lead in a circle, which has
// no end: in bindings that were made over another bank.
pub(crate) fn resolved(bank: &Bank, bindings: &Bindings, id: TypeId) -> Result<TypeId, Memory>
    ensures within { IfOk result (λ t. id.0 < length bank.now.types → t.0 < length bank.now.types) }
    ensures same { IfOk result (λ t. (θ : ℕ → Ty) → AreTypes bank.now bindings.now θ → instance θ (type_tree bank.now t.0) ≡ instance θ (type_tree bank.now id.0)) }
    ensures unbound { IfOk result (λ t. (θ : ℕ → Ty) → AreTypes bank.now bindings.now θ → IsUnbound bindings.now (type_tree bank.now t.0)) }
{
    let mut top = id;
    let mut left = bindings.types.len();
    'variables: loop {
        let TypeNode::Var(variable) = bank.type_node(top) else {
            return Ok(top);
        };
        let Some(value) = bindings.type_value(variable) else {
            return Ok(top);
        };
        if value.0 >= bank.type_count() {
            return Ok(top);
        }
        if left == 0 {
            return Err(Memory);
        }
        left -= 1;
        top = value;
    }
}

// The parts of a type.
fn parts_of(alloc: Global, bank: &Bank, id: TypeId) -> Result<Vec<TypeId>, Memory>
    ensures parts { IfOk result (λ parts. map (λ t. t.0) parts.items ≡ part_numbers (type_at bank.now id.0)) }
    ensures within { IfOk result (λ parts. All (λ t. t.0 < length bank.now.types) parts.items) }
{
    let mut parts = Vec::new(alloc);
    match bank.type_node(id) {
        TypeNode::Con(_, ids) => {
            parts.extend_from_slice(ids)?;
            Ok(parts)
        }
        TypeNode::Arrow(from, to) => {
            parts.push(from)?;
            parts.push(to)?;
            Ok(parts)
        }
        TypeNode::Var(_) => Ok(parts),
        TypeNode::Param(_) => Ok(parts),
    }
}

// What the parts have become; those that are not known yet go on the stack, and then there is nothing.
fn known_parts(
    alloc: Global,
    done: &TypesFilled,
    parts: &[TypeId],
    left: &mut Vec<TypeId>,
) -> Result<Option<Vec<TypeId>>, Memory>
    ensures made { IfOk result (λ known. IfSome known (λ made. (b : Nodes) (θ : ℕ → Ty) → AreFilled b θ done.now → HaveBecome b θ parts.now made.items)) }
    ensures within { OnOk result ((n : ℕ) → All (λ t. t.0 < n) parts.now → All (λ t. t.0 < n) left.old.items → All (λ t. t.0 < n) left.new.items) }
    ensures further { IfOk result (λ known. IsFurther known (unmade (type_made done.now) left.old.items) (unmade (type_made done.now) left.new.items)) }
{
    let mut made = Vec::new(alloc);
    let mut is_whole = true;
    for part in parts.iter().copied() {
        let Some(known) = done.at(part) else {
            is_whole = false;
            left.push(part)?;
            continue;
        };
        made.push(known)?;
    }
    if is_whole {
        return Ok(Some(made));
    }
    Ok(None)
}

// The type on these parts in the place of its own.
fn rebuilt(bank: &mut Bank, id: TypeId, parts: &[TypeId], made: &[TypeId]) -> Result<TypeId, Memory>
    requires { id.0 < length bank.old.types }
    ensures kept { Extends bank.old bank.new }
    ensures within { IfOk result (λ t. t.0 < length bank.new.types) }
    ensures filled { IfOk result (λ t. (θ : ℕ → Ty) → IsLoose θ (type_tree bank.old id.0) → map (λ t. t.0) parts.now ≡ part_numbers (type_at bank.old id.0) →
        HaveBecome bank.old θ parts.now made.now → type_tree bank.new t.0 ≡ instance θ (type_tree bank.old id.0)) }
{
    match bank.type_node(id) {
        TypeNode::Con(number, _) => {
            if parts == made {
                return Ok(id);
            }
            put_constructor(bank, number, made)
        }
        TypeNode::Arrow(_, _) => match made {
            [from, to] => {
                if parts == made {
                    return Ok(id);
                }
                put_arrow(bank, *from, *to)
            }
            _ => Ok(id),
        },
        TypeNode::Var(_) => Ok(id),
        TypeNode::Param(_) => Ok(id),
    }
}

// What the type has become, where its parts are known; else they go on the stack.
fn made_of(
    alloc: Global,
    bank: &mut Bank,
    done: &TypesFilled,
    id: TypeId,
    left: &mut Vec<TypeId>,
) -> Result<Option<TypeId>, Memory>
    requires { id.0 < length bank.old.types }
    ensures kept { Extends bank.old bank.new }
    ensures within { IfOk result (λ known. IfSome known (λ t. t.0 < length bank.new.types)) }
    ensures made { IfOk result (λ known. IfSome known (λ t. (θ : ℕ → Ty) → AreFilled bank.old θ done.now → IsLoose θ (type_tree bank.old id.0) → type_tree bank.new t.0 ≡ instance θ (type_tree bank.old id.0))) }
    ensures inside { OnOk result (All (λ t. t.0 < length bank.old.types) left.old.items → All (λ t. t.0 < length bank.new.types) left.new.items) }
    ensures further { IfOk result (λ known. IsFurther known (unmade (type_made done.now) left.old.items) (unmade (type_made done.now) left.new.items)) }
{
    let parts = parts_of(alloc, bank, id)?;
    let Some(made) = known_parts(alloc, done, parts.as_slice(), left)? else {
        return Ok(None);
    };
    let new = rebuilt(bank, id, parts.as_slice(), made.as_slice())?;
    Ok(Some(new))
}

// Whether the type has become something.
fn is_known(done: &TypesFilled, id: TypeId) -> bool
    ensures known { result ≡ true → type_made done.now id ≢ None }
    ensures new { result ≡ false → type_made done.now id ≡ None }
{
    match done.at(id) {
        Some(_) => true,
        None => false,
    }
}

// Takes the type on top of the stack, which stays there while its parts are not known.
fn step(
    alloc: Global,
    bank: &mut Bank,
    bindings: &Bindings,
    done: &mut TypesFilled,
    id: TypeId,
    left: &mut Vec<TypeId>,
) -> Result<(), Memory>
    requires top { id.0 < length bank.old.types }
    requires inside { All (λ t. t.0 < length bank.old.types) left.old.items }
    ensures kept { Extends bank.old bank.new }
    ensures inside { OnOk result (All (λ t. t.0 < length bank.new.types) left.new.items) }
    ensures falls { OnOk result (types_left done.new left.new.items < types_left done.old (left.old.items ++ id ∷ [])) }
    ensures filled { OnOk result ((θ : ℕ → Ty) → AreTypes bank.old bindings.now θ → AreFilled bank.old θ done.old → AreFilled bank.new θ done.new) }
{
    if is_known(done, id) {
        return Ok(());
    }
    let _count = done.count();
    let top = resolved(bank, bindings, id)?;
    left.push(id)?;
    let Some(new) = made_of(alloc, bank, done, top, left)? else {
        return Ok(());
    };
    done.note(id, new)
}

// Whether a type has no parts.
fn is_leaf(bank: &Bank, id: TypeId) -> bool
    ensures { result ≡ true → (θ : ℕ → Ty) → IsLoose θ (type_tree bank.now id.0) → instance θ (type_tree bank.now id.0) ≡ type_tree bank.now id.0 }
{
    match bank.type_node(id) {
        TypeNode::Con(_, ids) => ids.is_empty(),
        TypeNode::Arrow(_, _) => false,
        TypeNode::Var(_) => true,
        TypeNode::Param(_) => true,
    }
}

// The type with all bindings put in, over what was filled before.
pub(crate) fn filled_in(
    alloc: Global,
    bank: &mut Bank,
    bindings: &Bindings,
    done: &mut TypesFilled,
    id: TypeId,
) -> Result<TypeId, Memory>
    ensures kept { Extends bank.old bank.new }
    ensures within { IfOk result (λ of. of.0 < length bank.new.types) }
    ensures filled { IfOk result (λ of. (θ : ℕ → Ty) → AreTypes bank.old bindings.now θ → AreFilled bank.old θ done.old →
        AreFilled bank.new θ done.new × (of.0 < length bank.new.types) × (type_tree bank.new of.0 ≡ instance θ (type_tree bank.old id.0))) }
{
    let inside = bank.inside_type(id)?;
    let root = resolved(bank, bindings, inside)?;
    if is_leaf(bank, root) {
        return Ok(root);
    }
    let mut left = Vec::new(alloc);
    'types: loop {
        let Some(top) = left.pop() else {
            let Some(of) = made_of(alloc, bank, done, root, &mut left)? else {
                continue;
            };
            return Ok(of);
        };
        step(alloc, bank, bindings, done, top, &mut left)?;
    }
}

/// The type with all bindings put in.
pub fn filled_type(
    alloc: Global,
    bank: &mut Bank,
    bindings: &Bindings,
    id: TypeId,
) -> Result<TypeId, Memory>
    ensures kept { Extends bank.old bank.new }
    ensures within { IfOk result (λ of. of.0 < length bank.new.types) }
    ensures filled { IfOk result (λ of. (θ : ℕ → Ty) → AreTypes bank.old bindings.now θ → type_tree bank.new of.0 ≡ instance θ (type_tree bank.old id.0)) }
{
    let mut done = TypesFilled::new(alloc);
    let of = filled_in(alloc, bank, bindings, &mut done, id)?;
    Ok(of)
}
