// Names that the copy above has otherwise.
ghost use Rattle.std.specs.Prelude.{◌≡◌, ◌≢◌, ◌<◌, ◌≤◌, ◌+◌, ◌-◌, ◌*◌, ℕ, nat_eq, nat_lt, false, true, List, Option, Some, None, if◌then◌else◌, length, map, option_map, IfOk, IfErr, IfSome, OnOk};
ghost use Rattle.lp_calculus.specs.Types.{var, tys};
ghost use Rattle.lp_term.specs.Nodes.{type_tree, type_node_tree};
ghost use Rattle.lp_term.specs.Shapes.{type_shape};
ghost use Rattle.lp_term.specs.Nodes.{Nodes};
ghost use Rattle.lp_link.specs.declared.differ.Pair.TheVariants.{Parts};
ghost use Rattle.lp_link.specs.Sizes.{type_size, types_size, pair_weighs, pair_work};
ghost use Rattle.lp_link.specs.Differences.{number_at, is_number, same_type, arity_of, constant_of, HasKinds, IsOtherAbove, IsOtherKind, IsOtherConstant, IsOtherPart, IsSameAbove};
ghost use Rattle.lp_link.specs.inner.Pairs.{kinds_at, same_pair, pair_eq, IsSides, IsParts, IsSamePair, AreSamePairs, Leads, Compares};
ghost use Rattle.lp_link.specs.inner.Members.{AreCompared, AreSameMembers, IsOtherMember};
ghost use Rattle.lp_link.specs.declared.places.Member.{Member};
ghost use Rattle.indexmap.specs.IndexSet.{contains};

use crate::fault::{LinkRefusal, Part};
use crate::places::Member;
use indexmap::IndexSet;
use lp_base::Memory;
use lp_code::{ObjectConstant, ObjectKind};
use lp_standard::{FIRST_CONSTANT, FIRST_KIND};
use lp_term::{Bank, TypeId, TypeNode};
use std::alloc::Global;

/// The number of the name at a place of a table.
pub(crate) fn number_at(first: u32, place: usize) -> u32
    ensures { result ≡ number_at first place }
{
    first.saturating_add(place.min(u32::MAX as usize) as u32)
}

/// The place of a number in a table; a standard one has none.
pub(crate) fn place_of(first: u32, number: u32) -> Option<usize>
    ensures { result ≡ (if nat_lt number first then None else Some (number - first)) }
{
    if number < first {
        return None;
    }
    Some((number - first) as usize)
}

// Whether a number is that of a place.
fn is_at(first: u32, place: usize, number: u32) -> bool
    ensures { result ≡ nat_eq (first + place) number }
{
    let Some(at) = place_of(first, number) else {
        return false;
    };
    at == place
}

// What is still to be compared, the next one last: of each, the one of the object first.
#[derive(Clone, Copy)]
enum Pair<'b> {
    Types(TypeId, TypeId),
    Parts(&'b [TypeId], &'b [TypeId]),
}

// Whether a type is this type variable.
fn is_variable(bank: &Bank, node: TypeNode<'_>, number: u64) -> bool
    ensures { (K : ℕ → Option ℕ) → same_type K (var number) (type_node_tree bank.now (type_shape node.entry)) ≡ result }
{
    match node {
        TypeNode::Var(same) => number == same,
        TypeNode::Param(_) => false,
        TypeNode::Con(_, _) => false,
        TypeNode::Arrow(_, _) => false,
    }
}

// The sides of the type of a function.
fn sides_of(bank: &Bank, node: TypeNode<'_>) -> Option<(TypeId, TypeId)>
    ensures { IsSides (type_node_tree bank.now (type_shape node.entry)) (option_map (λ s. (type_tree bank.now s.0.0, type_tree bank.now s.1.0)) result) }
{
    match node {
        TypeNode::Arrow(from, to) => Some((from, to)),
        TypeNode::Param(_) => None,
        TypeNode::Con(_, _) => None,
        TypeNode::Var(_) => None,
    }
}

// The kind and the parts of a type that a kind makes.
fn parts_of<'b>(bank: &'b Bank, node: TypeNode<'b>) -> Option<(u32, &'b [TypeId])>
    ensures { IsParts (type_node_tree bank.now (type_shape node.entry)) (option_map (λ s. (s.0, map (type_tree bank.now) (map (λ t. t.0) s.1.now))) result) }
{
    match node {
        TypeNode::Con(kind, parts) => Some((kind, parts)),
        TypeNode::Param(_) => None,
        TypeNode::Arrow(_, _) => None,
        TypeNode::Var(_) => None,
    }
}

// The parts of two types one by one.
fn push_parts<'b>(
    bank: &'b Bank,
    ones: &'b [TypeId],
    twos: &'b [TypeId],
    work: &mut Vec<Pair<'b>>,
) -> Result<(), Memory>
    requires { length ones.now ≡ length twos.now }
    ensures work { OnOk result (pair_work bank.now work.new.items ≤ pair_work bank.now work.old.items + 3 * types_size (tys (map (λ t. type_tree bank.now t.0) ones.now))) }
    ensures same { OnOk result ((K : ℕ → Option ℕ) (a : Nodes) → IsSamePair K bank.now a (Parts ones.entry twos.entry) → AreSamePairs K bank.now a work.old.items → AreSamePairs K bank.now a work.new.items) }
    ensures leads { OnOk result ((K : ℕ → Option ℕ) (a : Nodes) → Leads K bank.now a (pair_weighs bank.now (Parts ones.entry twos.entry)) (same_pair K bank.now a (Parts ones.entry twos.entry)) work.old.items work.new.items) }
{
    if let Some((one, more)) = ones.split_first()
        && let Some((two, others)) = twos.split_first()
    {
        work.push(Pair::Parts(more, others))?;
        work.push(Pair::Types(*one, *two))?;
    }
    Ok(())
}

// An object and the one of the copy above, which are compared.
#[derive(Clone, Copy)]
struct Edge<'m, 'a> {
    alloc: Global,
    below: &'m Member<'a>,
    above: &'m Member<'a>,
}

impl<'m, 'a> Edge<'m, 'a> {
    // Whether a kind of the object is this one of the copy above.
    fn is_kind(&self, below: u32, above: u32) -> bool
        ensures { result ≡ is_number (kinds_at self.now below) above }
    {
        let Some(place) = place_of(FIRST_KIND, below) else {
            return below == above;
        };
        match self.below.object.kinds.get(place) {
            Some(kind) if kind.exported => match self.above.kind(kind.name.as_slice()) {
                Some(there) => is_at(FIRST_KIND, there, above),
                None => false,
            },
            _ => false,
        }
    }

    // Whether the tops of two types are alike; then their parts are to be compared.
    fn has_like_top<'b>(
        &self,
        bank: &'b Bank,
        other: &'b Bank,
        types: (TypeId, TypeId),
        work: &mut Vec<Pair<'b>>,
    ) -> Result<bool, Memory>
        ensures work { IfOk result (λ same. pair_work bank.now work.new.items + 1 ≤ pair_work bank.now work.old.items + 3 * type_size (type_tree bank.now types.0.0)) }
        ensures compares { IfOk result (Compares (kinds_at self.now) bank.now other.now (type_tree bank.now types.0.0) (type_tree other.now types.1.0) work.old.items work.new.items) }
    {
        let there = other.type_node(types.1);
        match bank.type_node(types.0) {
            TypeNode::Var(number) => Ok(is_variable(other, there, number)),
            TypeNode::Param(_) => Ok(false),
            TypeNode::Arrow(from, to) => match sides_of(other, there) {
                Some((left, right)) => {
                    work.push(Pair::Types(to, right))?;
                    work.push(Pair::Types(from, left))?;
                    Ok(true)
                }
                None => Ok(false),
            },
            TypeNode::Con(kind, parts) => match parts_of(other, there) {
                Some((same, those)) if self.is_kind(kind, same) => {
                    work.push(Pair::Parts(parts, those))?;
                    Ok(parts.len() == those.len())
                }
                _ => Ok(false),
            },
        }
    }

    // Whether two types are one, kinds by their names. What is shared is compared once.
    fn is_type(&self, below: TypeId, above: TypeId) -> Result<bool, Memory>
        ensures { IfOk result (λ same. same ≡ same_type (kinds_at self.now) (type_tree self.now.below.now.object.now.bank below.0) (type_tree self.now.above.now.object.now.bank above.0)) }
    {
        let bank = &self.below.object.bank;
        let other = &self.above.object.bank;
        let mut seen: IndexSet<(usize, usize)> = IndexSet::new(self.alloc);
        let mut work = Vec::new(self.alloc);
        work.push(Pair::Types(below, above))?;
        'types: while let Some(next) = work.pop() {
            match next {
                Pair::Types(one, two) => {
                    let pair = (one.0, two.0);
                    if seen.contains(&pair) {
                        continue;
                    }
                    let _new = seen.insert(pair)?;
                    if !self.has_like_top(bank, other, (one, two), &mut work)? {
                        return Ok(false);
                    }
                }
                Pair::Parts(ones, twos) => push_parts(bank, ones, twos, &mut work)?,
            }
        }
        Ok(true)
    }

    // Whether the copy above has an exported kind, with its count of arguments.
    fn has_kind(&self, kind: &ObjectKind) -> bool
        ensures other { result ≡ false → arity_of self.now.above.now.object.now.kinds.items kind.now.name.items ≢ Some kind.now.arity }
        ensures same { result ≡ true → arity_of self.now.above.now.object.now.kinds.items kind.now.name.items ≡ Some kind.now.arity }
    {
        let Some(place) = self.above.kind(kind.name.as_slice()) else {
            return false;
        };
        match self.above.object.kinds.get(place) {
            Some(other) => other.arity == kind.arity,
            None => false,
        }
    }

    // The place of the first exported kind that the copy above has not, or with another count of arguments.
    fn kind_that_differs(&self) -> Option<usize>
        ensures other { IfSome result (IsOtherKind self.now.below.now.object.now self.now.above.now.object.now) }
        ensures first { IfSome result (λ i. (j : ℕ) → j < i → IsOtherKind self.now.below.now.object.now self.now.above.now.object.now j → ⊥) }
        ensures none { result ≡ None → HasKinds self.now.below.now.object.now self.now.above.now.object.now }
    {
        let kinds = self.below.object.kinds.as_slice();
        for at in 0..kinds.len() {
            let kind = &kinds[at];
            if kind.exported && !self.has_kind(kind) {
                return Some(at);
            }
        }
        None
    }

    // Whether the copy above has an exported constant, with its type.
    fn has_constant(&self, constant: &ObjectConstant) -> Result<bool, Memory>
        ensures other { IfOk result (λ has. has ≡ false → IsOtherAbove self.now.below.now.object.now self.now.above.now.object.now constant.now (constant_of self.now.above.now.object.now.constants.items constant.now.name.items)) }
        ensures same { IfOk result (λ has. has ≡ true → IsOtherAbove self.now.below.now.object.now self.now.above.now.object.now constant.now (constant_of self.now.above.now.object.now.constants.items constant.now.name.items) → ⊥) }
    {
        let Some(place) = self.above.constant(constant.name.as_slice()) else {
            return Ok(false);
        };
        let Some(other) = self.above.object.constants.get(place) else {
            return Ok(false);
        };
        if other.type_vars != constant.type_vars {
            return Ok(false);
        }
        self.is_type(constant.scheme, other.scheme)
    }

    // The place of the first exported constant that the copy above has not, or with another type.
    fn constant_that_differs(&self) -> Result<Option<usize>, Memory>
        ensures other { IfOk result (λ place. IfSome place (IsOtherConstant self.now.below.now.object.now self.now.above.now.object.now)) }
        ensures first { IfOk result (λ place. IfSome place (λ i. (j : ℕ) → j < i → IsOtherConstant self.now.below.now.object.now self.now.above.now.object.now j → ⊥)) }
        ensures none { IfOk result (λ place. place ≡ None → (j : ℕ) → IsOtherConstant self.now.below.now.object.now self.now.above.now.object.now j → ⊥) }
    {
        let constants = self.below.object.constants.as_slice();
        for at in 0..constants.len() {
            let constant = &constants[at];
            if constant.exported && !self.has_constant(constant)? {
                return Ok(Some(at));
            }
        }
        Ok(None)
    }
}

/// The first exported name of an object that the object of the copy above has not, or has otherwise: kinds before constants.
pub(crate) fn first_that_differs(
    alloc: Global,
    below: &Member<'_>,
    above: &Member<'_>,
) -> Result<Option<Part>, Memory>
    ensures other { IfOk result (λ part. IfSome part (IsOtherPart below.now.object.now above.now.object.now)) }
    ensures same { IfOk result (λ part. part ≡ None → IsSameAbove below.now.object.now above.now.object.now) }
{
    let edge = Edge {
        alloc,
        below,
        above,
    };
    if let Some(place) = edge.kind_that_differs() {
        return Ok(Some(Part::Kind(number_at(FIRST_KIND, place))));
    }
    match edge.constant_that_differs()? {
        Some(place) => Ok(Some(Part::Constant(number_at(FIRST_CONSTANT, place)))),
        None => Ok(None),
    }
}

/// Pairs of an object and the one above it that were compared.
#[derive(Drop)]
pub(crate) struct Compared {
    alloc: Global,
    same: IndexSet<(usize, usize)>,
}

impl Compared {
    pub(crate) fn new(alloc: Global) -> Compared
        ensures { (members : List Member) → AreCompared members (contains pair_eq result.same) }
    {
        Compared {
            alloc,
            same: IndexSet::new(alloc),
        }
    }

    /// Compares a copy with the one above it.
    pub(crate) fn compare(
        &mut self,
        members: &[Member<'_>],
        below: usize,
        above: usize,
    ) -> Result<(), LinkRefusal>
        requires below { below < length members.now }
        requires above { above < length members.now }
        requires compared { AreCompared members.now (contains pair_eq self.old.same) }
        ensures same { OnOk result (AreSameMembers members.now (below, above)) }
        ensures compared { OnOk result (AreCompared members.now (contains pair_eq self.new.same)) }
        ensures refused { IfErr result (IsOtherMember members.now below above) }
    {
        let pair = (below, above);
        if self.same.contains(&pair) {
            return Ok(());
        }
        let part = first_that_differs(self.alloc, &members[below], &members[above])?;
        if let Some(part) = part {
            return Err(LinkRefusal::Differ(number_at(0, below), part));
        }
        let _new = self.same.insert(pair)?;
        Ok(())
    }
}
