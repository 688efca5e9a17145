// The declared types of constants, with types for their type variables.
ghost use Rattle.std.specs.Prelude.{◌≡◌, ◌<◌, None, Some, length, map, IfOk, IfSome};
ghost use Rattle.lp_calculus.specs.Types.{arrow, con, instance, tys};
ghost use Rattle.lp_calculus.specs.Typing as typing;
ghost use Rattle.lp_standard.specs.Kinds as kinds;
ghost use Rattle.lp_standard.specs.Schemes.{part_type, scheme, shape_type};
ghost use Rattle.lp_term.specs.Nodes.{Extends, Nodes, type_tree};
ghost use Rattle.lp_model.specs.Readings.{declared_by, scheme_of};
ghost use Rattle.lp_cert.specs.Facts.{AreInside};
ghost use Rattle.lp_cert.specs.Inside.{AreDeclaredInside};
ghost use Rattle.lp_cert.specs.Same.{types_in};

use crate::instance::type_at;
use lp_base::Memory;
use lp_model::Declared;
use lp_standard::{Constant, FIRST_CONSTANT, Kind, Part, Shape};
use lp_term::{Bank, TypeId, put_arrow, put_constructor};
use std::alloc::Global;

fn put_kind(bank: &mut Bank, kind: Kind, parts: &[TypeId]) -> Result<TypeId, Memory>
    ensures kept { Extends bank.old bank.new }
    ensures within { IfOk result (λ made. made.0 < length bank.new.types) }
    ensures tree { IfOk result (λ made. type_tree bank.new made.0 ≡ con (kinds.number kind) (tys (map (λ t. type_tree bank.old t.0) parts.now))) }
{
    put_constructor(bank, kind.number(), parts)
}

// The type for `A`, or `o` where there is none.
fn only(bank: &mut Bank, types: &[TypeId]) -> Result<TypeId, Memory>
    ensures kept { Extends bank.old bank.new }
    ensures within { IfOk result (λ made. AreInside (length bank.old.types) types.now → made.0 < length bank.new.types) }
    ensures later { IfOk result (λ made. AreInside (length bank.old.types) types.now → (b : Nodes) → Extends bank.new b → type_tree b made.0 ≡ typing.type_at (types_in b types.now) 0) }
{
    match types.first() {
        Some(of) => Ok(*of),
        None => put_kind(bank, Kind::Proposition, &[]),
    }
}

fn put_part(bank: &mut Bank, part: Part, types: &[TypeId]) -> Result<TypeId, Memory>
    ensures kept { Extends bank.old bank.new }
    ensures within { IfOk result (λ made. AreInside (length bank.old.types) types.now → made.0 < length bank.new.types) }
    ensures later { IfOk result (λ made. AreInside (length bank.old.types) types.now → (b : Nodes) → Extends bank.new b → type_tree b made.0 ≡ instance (typing.type_at (types_in b types.now)) (part_type part)) }
{
    match part {
        Part::Proposition => put_kind(bank, Kind::Proposition, &[]),
        Part::Integer => put_kind(bank, Kind::Integer, &[]),
        Part::String => put_kind(bank, Kind::String, &[]),
        Part::Any => only(bank, types),
        Part::ListOfAny => {
            let of = only(bank, types)?;
            put_kind(bank, Kind::List, &[of])
        }
        Part::Predicate => {
            let of = only(bank, types)?;
            let to = put_kind(bank, Kind::Proposition, &[])?;
            put_arrow(bank, of, to)
        }
    }
}

fn put_function(bank: &mut Bank, from: Part, to: TypeId, types: &[TypeId]) -> Result<TypeId, Memory>
    ensures kept { Extends bank.old bank.new }
    ensures within { IfOk result (λ made. made.0 < length bank.new.types) }
    ensures later { IfOk result (λ made. AreInside (length bank.old.types) types.now → to.0 < length bank.old.types → (b : Nodes) → Extends bank.new b → type_tree b made.0 ≡ arrow (instance (typing.type_at (types_in b types.now)) (part_type from)) (type_tree b to.0)) }
{
    let from = put_part(bank, from, types)?;
    put_arrow(bank, from, to)
}

// The type of a fixed constant.
fn put_shape(bank: &mut Bank, shape: Shape, types: &[TypeId]) -> Result<TypeId, Memory>
    ensures kept { Extends bank.old bank.new }
    ensures within { IfOk result (λ made. AreInside (length bank.old.types) types.now → made.0 < length bank.new.types) }
    ensures later { IfOk result (λ made. AreInside (length bank.old.types) types.now → (b : Nodes) → Extends bank.new b → type_tree b made.0 ≡ instance (typing.type_at (types_in b types.now)) (shape_type shape)) }
{
    match shape {
        Shape::Value(part) => put_part(bank, part, types),
        Shape::Function(from, to) => {
            let to = put_part(bank, to, types)?;
            put_function(bank, from, to, types)
        }
        Shape::Operation(left, right, to) => {
            let to = put_part(bank, to, types)?;
            let rest = put_function(bank, right, to, types)?;
            put_function(bank, left, rest, types)
        }
    }
}

fn standard_type(
    bank: &mut Bank,
    constant: Constant,
    types: &[TypeId],
) -> Result<Option<TypeId>, Memory>
    ensures kept { Extends bank.old bank.new }
    ensures type_is { IfOk result (λ found. IfSome found (λ made. AreInside (length bank.old.types) types.now → (b : Nodes) → Extends bank.new b → typing.scheme_type (types_in b types.now) (scheme constant) ≡ Some (type_tree b made.0))) }
    ensures none { IfOk result (λ found. found ≡ None → (b : Nodes) → typing.scheme_type (types_in b types.now) (scheme constant) ≡ None) }
{
    let Some(shape) = constant.shape() else {
        return Ok(None);
    };
    if types.len() != usize::from(shape.type_vars()) {
        return Ok(None);
    }
    let made = put_shape(bank, shape, types)?;
    Ok(Some(made))
}

fn declared_type(
    alloc: Global,
    bank: &mut Bank,
    declared: &Declared,
    types: &[TypeId],
) -> Result<Option<TypeId>, Memory>
    ensures kept { Extends bank.old bank.new }
    ensures type_is { IfOk result (λ found. IfSome found (λ made. AreInside (length bank.old.types) types.now → (b : Nodes) → Extends bank.new b → typing.scheme_type (types_in b types.now) (Some (scheme_of b declared.now)) ≡ Some (type_tree b made.0))) }
    ensures none { IfOk result (λ found. found ≡ None → declared.now.scheme.0 < length bank.old.types → (b : Nodes) → typing.scheme_type (types_in b types.now) (Some (scheme_of b declared.now)) ≡ None) }
{
    if types.len() != usize::from(declared.type_vars) {
        return Ok(None);
    }
    if declared.scheme.0 >= bank.type_count() {
        return Ok(None);
    }
    let made = type_at(alloc, bank, types, declared.scheme)?;
    Ok(Some(made))
}

// The type of a constant with these types for its type variables, if they are as many as it has.
pub(crate) fn constant_type(
    alloc: Global,
    bank: &mut Bank,
    constants: &[Declared],
    constant: u32,
    types: &[TypeId],
) -> Result<Option<TypeId>, Memory>
    ensures kept { Extends bank.old bank.new }
    ensures type_is { IfOk result (λ found. IfSome found (λ made. AreInside (length bank.old.types) types.now → (b : Nodes) → Extends bank.new b → typing.scheme_type (types_in b types.now) (declared_by b constants.now constant) ≡ Some (type_tree b made.0))) }
    ensures none { IfOk result (λ found. found ≡ None → AreDeclaredInside (length bank.old.types) constants.now → (b : Nodes) → typing.scheme_type (types_in b types.now) (declared_by b constants.now constant) ≡ None) }
{
    if constant < FIRST_CONSTANT {
        return match Constant::from_number(constant) {
            Some(standard) => standard_type(bank, standard, types),
            None => Ok(None),
        };
    }
    match constants.get((constant - FIRST_CONSTANT) as usize) {
        Some(declared) => declared_type(alloc, bank, declared, types),
        None => Ok(None),
    }
}
