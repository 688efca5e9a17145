// The types of the constants that the language fixes, in the bank in which a text is typed.
ghost use Rattle.std.specs.Prelude.{◌≡◌, ◌<◌, ℕ, [], length, option_map, IfOk};
ghost use Rattle.lp_calculus.specs.Types.{Ty, con, tys, instance as put_in};
ghost use Rattle.lp_calculus.specs.Typing.{type_at, list_type};
ghost use Rattle.lp_term.specs.Nodes.{Extends, type_tree};
ghost use Rattle.lp_term.specs.Within.{AreTypesOf};
ghost use Rattle.lp_standard.specs.Kinds.{number as kind_number};
ghost use Rattle.lp_standard.specs.Schemes.{standard_schemes, entry, part_type, shape_type, shape_scheme};
ghost use Rattle.lp_infer.specs.Postfix.{scheme_or};
ghost use Rattle.lp_infer.specs.Copies.{trees_of, IsType};

use lp_base::Memory;
use lp_standard::{Constant, Kind, Part, RESERVED, Shape};
use lp_term::{Bank, TypeId, put_arrow, put_constructor};

// The type of the fixed constant of a number, if there is one.
fn shape_of(number: u32) -> Option<Shape>
    ensures { option_map shape_scheme result ≡ entry standard_schemes number }
{
    if number >= RESERVED {
        return None;
    }
    Constant::from_number(number)?.shape()
}

// How many type variables the type of a fixed constant has.
pub(crate) fn standard_variables(number: u32) -> u8
    ensures { result ≡ (scheme_or (entry standard_schemes number)).count }
{
    match shape_of(number) {
        Some(shape) => shape.type_vars(),
        None => 0,
    }
}

// A kind without arguments.
fn put_kind(bank: &mut Bank, kind: Kind) -> Result<TypeId, Memory>
    ensures kept { Extends bank.old bank.new }
    ensures within { IfOk result (λ id. id.0 < length bank.new.types) }
    ensures tree { IfOk result (λ id. type_tree bank.new id.0 ≡ con (kind_number kind) (tys [])) }
{
    put_constructor(bank, kind.number(), &[])
}

fn put_list(bank: &mut Bank, of: TypeId) -> Result<TypeId, Memory>
    ensures kept { Extends bank.old bank.new }
    ensures tree { IfOk result (λ id. IsType bank.new id (list_type (type_tree bank.old of.0))) }
{
    put_constructor(bank, Kind::List.number(), &[of])
}

// The type for a type variable; for one that is not declared, `o`.
fn argument(args: &[TypeId], number: u64, bank: &mut Bank) -> Result<TypeId, Memory>
    ensures kept { Extends bank.old bank.new }
    ensures tree { AreTypesOf bank.old args.now → IfOk result (λ id. IsType bank.new id (type_at (trees_of bank.old args.now) number)) }
{
    match args.get(number as usize) {
        Some(id) => Ok(*id),
        None => put_kind(bank, Kind::Proposition),
    }
}

// A part of the type of a fixed constant, with this type for its type variable.
fn part_instance(bank: &mut Bank, part: Part, at: TypeId) -> Result<TypeId, Memory>
    ensures kept { Extends bank.old bank.new }
    ensures tree { (φ : ℕ → Ty) → IsType bank.old at (φ 0) → IfOk result (λ id. IsType bank.new id (put_in φ (part_type part))) }
{
    match part {
        Part::Proposition => put_kind(bank, Kind::Proposition),
        Part::Integer => put_kind(bank, Kind::Integer),
        Part::String => put_kind(bank, Kind::String),
        Part::Any => Ok(at),
        Part::ListOfAny => put_list(bank, at),
        Part::Predicate => {
            let goal = put_kind(bank, Kind::Proposition)?;
            put_arrow(bank, at, goal)
        }
    }
}

fn shape_instance(bank: &mut Bank, shape: Shape, at: TypeId) -> Result<TypeId, Memory>
    ensures kept { Extends bank.old bank.new }
    ensures tree { (φ : ℕ → Ty) → IsType bank.old at (φ 0) → IfOk result (λ id. IsType bank.new id (put_in φ (shape_type shape))) }
{
    match shape {
        Shape::Value(part) => part_instance(bank, part, at),
        Shape::Function(from, to) => {
            let left = part_instance(bank, from, at)?;
            let right = part_instance(bank, to, at)?;
            put_arrow(bank, left, right)
        }
        Shape::Operation(first, second, to) => {
            let left = part_instance(bank, first, at)?;
            let middle = part_instance(bank, second, at)?;
            let right = part_instance(bank, to, at)?;
            let inner = put_arrow(bank, middle, right)?;
            put_arrow(bank, left, inner)
        }
    }
}

// The type of a fixed constant at its type arguments.
pub(crate) fn standard_instance(
    bank: &mut Bank,
    number: u32,
    args: &[TypeId],
) -> Result<TypeId, Memory>
    ensures kept { Extends bank.old bank.new }
    ensures tree { AreTypesOf bank.old args.now → IfOk result (λ id. IsType bank.new id (put_in (type_at (trees_of bank.old args.now)) (scheme_or (entry standard_schemes number)).body)) }
{
    let at = argument(args, 0, bank)?;
    match shape_of(number) {
        Some(shape) => shape_instance(bank, shape, at),
        None => put_kind(bank, Kind::Proposition),
    }
}
