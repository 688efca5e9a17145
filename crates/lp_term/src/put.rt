//! New nodes over parts that may be any numbers: one outside the bank stands for `Index(0)`, and for `Var(0)` among types.
ghost use Rattle.std.specs.Prelude.{◌≡◌, ◌≢◌, ◌<◌, ◌≤◌, ℕ, length, map, true, All, IfOk, IfSome, None, List, []};
ghost use Rattle.lp_calculus.specs.Term.{abs, app, apply, atom, constant, eigen, index, integer, logic, param, text};
ghost use Rattle.lp_calculus.specs.Types.{con, arrow, tys, var};
ghost use Rattle.lp_term.specs.Nodes.{Extends, Nodes, tree, type_tree};
ghost use Rattle.lp_term.specs.Spine.{abstractions};
ghost use Rattle.lp_term.specs.Within.{AreInPlaceOf, AreTypesInPlaceOf};

use crate::bank::Bank;
use crate::node::{TermId, TermNode, TypeId, TypeNode};
use lp_base::Memory;
use std::alloc::Global;

// Whether all terms are in the bank.
fn are_terms(bank: &Bank, ids: &[TermId]) -> bool
    ensures { result ≡ true → All (λ i. i < length bank.now.terms) (map (λ t. t.0) ids.now) }
{
    for id in ids.iter().copied() {
        if id.0 >= bank.term_count() {
            return false;
        }
    }
    true
}

// Whether all types are in the bank.
fn are_types(bank: &Bank, ids: &[TypeId]) -> bool
    ensures { result ≡ true → All (λ i. i < length bank.now.types) (map (λ t. t.0) ids.now) }
{
    for id in ids.iter().copied() {
        if id.0 >= bank.type_count() {
            return false;
        }
    }
    true
}

// The term, or another one where it is not below the count.
fn term_below(id: TermId, count: usize, other: TermId) -> TermId
    ensures { (b c : Nodes) → Extends b c → count ≡ length b.terms → other.0 < length c.terms → tree c other.0 ≡ index 0 → (result.0 < length c.terms) × (tree c result.0 ≡ tree b id.0) }
{
    if id.0 < count {
        return id;
    }
    other
}

// The type, or another one where it is not below the count.
fn type_below(id: TypeId, count: usize, other: TypeId) -> TypeId
    ensures { (b c : Nodes) → Extends b c → count ≡ length b.types → other.0 < length c.types → type_tree c other.0 ≡ var 0 → (result.0 < length c.types) × (type_tree c result.0 ≡ type_tree b id.0) }
{
    if id.0 < count {
        return id;
    }
    other
}

// The terms, with another one for each that is not below the count.
fn terms_below(
    alloc: Global,
    ids: &[TermId],
    count: usize,
    other: TermId,
) -> Result<Vec<TermId>, Memory>
    ensures { IfOk result (λ made. (b c : Nodes) → Extends b c → count ≡ length b.terms → other.0 < length c.terms → tree c other.0 ≡ index 0 → AreInPlaceOf b c ids.now made.items) }
{
    let mut made = Vec::new(alloc);
    for id in ids {
        made.push(term_below(*id, count, other))?;
    }
    Ok(made)
}

// The types, with another one for each that is not below the count.
fn types_below(
    alloc: Global,
    ids: &[TypeId],
    count: usize,
    other: TypeId,
) -> Result<Vec<TypeId>, Memory>
    ensures { IfOk result (λ made. (b c : Nodes) → Extends b c → count ≡ length b.types → other.0 < length c.types → type_tree c other.0 ≡ var 0 → AreTypesInPlaceOf b c ids.now made.items) }
{
    let mut made = Vec::new(alloc);
    for id in ids {
        made.push(type_below(*id, count, other))?;
    }
    Ok(made)
}

// Types of the bank with the trees of these.
fn types_inside(bank: &mut Bank, ids: &[TypeId]) -> Result<Vec<TypeId>, Memory>
    ensures kept { Extends bank.old bank.new }
    ensures made { IfOk result (λ made. AreTypesInPlaceOf bank.old bank.new ids.now made.items) }
{
    let count = bank.type_count();
    let other = bank.put_type(TypeNode::Var(0))?;
    let made = types_below(bank.alloc(), ids, count, other)?;
    Ok(made)
}

// The head on the arguments, of which some or the head are outside the bank.
fn put_application_inside(bank: &mut Bank, head: TermId, args: &[TermId]) -> Result<TermId, Memory>
    requires { args.now ≢ [] }
    ensures kept { Extends bank.old bank.new }
    ensures within { IfOk result (λ id. id.0 < length bank.new.terms) }
    ensures tree { IfOk result (λ id. tree bank.new id.0 ≡ apply (tree bank.old head.0) (map (λ t. tree bank.old t.0) args.now)) }
{
    let count = bank.term_count();
    let other = bank.put_term(TermNode::Index(0))?;
    let top = term_below(head, count, other);
    let all = terms_below(bank.alloc(), args, count, other)?;
    let id = bank.put_term(TermNode::App(top, all.as_slice()))?;
    Ok(id)
}

/// The head on the arguments, of which there may be none.
pub fn put_application(bank: &mut Bank, head: TermId, args: &[TermId]) -> Result<TermId, Memory>
    ensures kept { Extends bank.old bank.new }
    ensures within { IfOk result (λ id. id.0 < length bank.new.terms) }
    ensures tree { IfOk result (λ id. tree bank.new id.0 ≡ apply (tree bank.old head.0) (map (λ t. tree bank.old t.0) args.now)) }
{
    if args.is_empty() {
        let id = bank.inside(head)?;
        return Ok(id);
    }
    if head.0 >= bank.term_count() || !are_terms(bank, args) {
        let id = put_application_inside(bank, head, args)?;
        return Ok(id);
    }
    let id = bank.put_term(TermNode::App(head, args))?;
    Ok(id)
}

/// The head on one argument.
pub fn put_applied(bank: &mut Bank, head: TermId, arg: TermId) -> Result<TermId, Memory>
    ensures kept { Extends bank.old bank.new }
    ensures within { IfOk result (λ id. id.0 < length bank.new.terms) }
    ensures tree { IfOk result (λ id. tree bank.new id.0 ≡ app (tree bank.old head.0) (tree bank.old arg.0)) }
{
    let args = [arg];
    put_application(bank, head, &args)
}

pub fn put_abstraction(bank: &mut Bank, body: TermId) -> Result<TermId, Memory>
    ensures kept { Extends bank.old bank.new }
    ensures within { IfOk result (λ id. id.0 < length bank.new.terms) }
    ensures tree { IfOk result (λ id. tree bank.new id.0 ≡ abs (tree bank.old body.0)) }
{
    let inside = bank.inside(body)?;
    let id = bank.put_term(TermNode::Abs(inside))?;
    Ok(id)
}

/// The term below so many abstractions.
pub fn put_abstractions(bank: &mut Bank, count: u64, body: TermId) -> Result<TermId, Memory>
    ensures kept { Extends bank.old bank.new }
    ensures within { IfOk result (λ id. id.0 < length bank.new.terms) }
    ensures tree { IfOk result (λ id. tree bank.new id.0 ≡ abstractions count (tree bank.old body.0)) }
{
    let mut left = count;
    let mut top = bank.inside(body)?;
    'levels: while left > 0 {
        top = bank.put_term(TermNode::Abs(top))?;
        left -= 1;
    }
    Ok(top)
}

pub fn put_constant(bank: &mut Bank, number: u32, types: &[TypeId]) -> Result<TermId, Memory>
    ensures kept { Extends bank.old bank.new }
    ensures within { IfOk result (λ id. id.0 < length bank.new.terms) }
    ensures tree { IfOk result (λ id. tree bank.new id.0 ≡ atom (constant number (map (λ t. type_tree bank.old t.0) types.now))) }
{
    if !are_types(bank, types) {
        let all = types_inside(bank, types)?;
        let id = bank.put_term(TermNode::Const(number, all.as_slice()))?;
        return Ok(id);
    }
    let id = bank.put_term(TermNode::Const(number, types))?;
    Ok(id)
}

pub fn put_parameter(bank: &mut Bank, number: u64, of: TypeId) -> Result<TermId, Memory>
    ensures kept { Extends bank.old bank.new }
    ensures within { IfOk result (λ id. id.0 < length bank.new.terms) }
    ensures tree { IfOk result (λ id. tree bank.new id.0 ≡ atom (param number (type_tree bank.old of.0))) }
{
    let inside = bank.inside_type(of)?;
    let id = bank.put_term(TermNode::Param(number, inside))?;
    Ok(id)
}

pub fn put_eigen(bank: &mut Bank, level: u64) -> Result<TermId, Memory>
    ensures kept { Extends bank.old bank.new }
    ensures within { IfOk result (λ id. id.0 < length bank.new.terms) }
    ensures tree { IfOk result (λ id. tree bank.new id.0 ≡ atom (eigen level)) }
{
    let id = bank.put_term(TermNode::Eigen(level))?;
    Ok(id)
}

pub fn put_index(bank: &mut Bank, place: u64) -> Result<TermId, Memory>
    ensures kept { Extends bank.old bank.new }
    ensures within { IfOk result (λ id. id.0 < length bank.new.terms) }
    ensures tree { IfOk result (λ id. tree bank.new id.0 ≡ index place) }
{
    let id = bank.put_term(TermNode::Index(place))?;
    Ok(id)
}

pub fn put_integer(bank: &mut Bank, value: i64) -> Result<TermId, Memory>
    ensures kept { Extends bank.old bank.new }
    ensures within { IfOk result (λ id. id.0 < length bank.new.terms) }
    ensures tree { IfOk result (λ id. tree bank.new id.0 ≡ atom (integer value)) }
{
    let id = bank.put_term(TermNode::Int(value))?;
    Ok(id)
}

pub fn put_text(bank: &mut Bank, bytes: &[u8]) -> Result<TermId, Memory>
    ensures kept { Extends bank.old bank.new }
    ensures within { IfOk result (λ id. id.0 < length bank.new.terms) }
    ensures tree { IfOk result (λ id. tree bank.new id.0 ≡ atom (text bytes.now)) }
{
    let id = bank.put_term(TermNode::Text(bytes))?;
    Ok(id)
}

pub fn put_logic(bank: &mut Bank, variable: u64, level: u64) -> Result<TermId, Memory>
    ensures kept { Extends bank.old bank.new }
    ensures within { IfOk result (λ id. id.0 < length bank.new.terms) }
    ensures tree { IfOk result (λ id. tree bank.new id.0 ≡ atom (logic variable level)) }
{
    let id = bank.put_term(TermNode::Logic {
        id: variable,
        level,
    })?;
    Ok(id)
}

/// The constructor on types, of which there may be none.
pub fn put_constructor(bank: &mut Bank, kind: u32, parts: &[TypeId]) -> Result<TypeId, Memory>
    ensures kept { Extends bank.old bank.new }
    ensures within { IfOk result (λ id. id.0 < length bank.new.types) }
    ensures tree { IfOk result (λ id. type_tree bank.new id.0 ≡ con kind (tys (map (λ t. type_tree bank.old t.0) parts.now))) }
{
    if !are_types(bank, parts) {
        let all = types_inside(bank, parts)?;
        let id = bank.put_type(TypeNode::Con(kind, all.as_slice()))?;
        return Ok(id);
    }
    let id = bank.put_type(TypeNode::Con(kind, parts))?;
    Ok(id)
}

pub fn put_arrow(bank: &mut Bank, from: TypeId, to: TypeId) -> Result<TypeId, Memory>
    ensures kept { Extends bank.old bank.new }
    ensures within { IfOk result (λ id. id.0 < length bank.new.types) }
    ensures tree { IfOk result (λ id. type_tree bank.new id.0 ≡ arrow (type_tree bank.old from.0) (type_tree bank.old to.0)) }
{
    let count = bank.type_count();
    if from.0 < count && to.0 < count {
        let id = bank.put_type(TypeNode::Arrow(from, to))?;
        return Ok(id);
    }
    let other = bank.put_type(TypeNode::Var(0))?;
    let left = type_below(from, count, other);
    let right = type_below(to, count, other);
    let id = bank.put_type(TypeNode::Arrow(left, right))?;
    Ok(id)
}

pub fn put_type_variable(bank: &mut Bank, number: u64) -> Result<TypeId, Memory>
    ensures kept { Extends bank.old bank.new }
    ensures within { IfOk result (λ id. id.0 < length bank.new.types) }
    ensures tree { IfOk result (λ id. type_tree bank.new id.0 ≡ var number) }
{
    let id = bank.put_type(TypeNode::Var(number))?;
    Ok(id)
}

/// The term, if it is in the bank.
pub fn term_of(bank: &Bank, id: TermId) -> Option<TermId>
    ensures within { IfSome result (λ term. term.0 < length bank.now.terms) }
    ensures same { IfSome result (λ term. term ≡ id) }
    ensures outside { result ≡ None → length bank.now.terms ≤ id.0 }
{
    if id.0 < bank.term_count() {
        return Some(id);
    }
    None
}

/// The type, if it is in the bank.
pub fn type_of(bank: &Bank, id: TypeId) -> Option<TypeId>
    ensures within { IfSome result (λ of. of.0 < length bank.now.types) }
    ensures same { IfSome result (λ of. of ≡ id) }
    ensures outside { result ≡ None → length bank.now.types ≤ id.0 }
{
    if id.0 < bank.type_count() {
        return Some(id);
    }
    None
}
