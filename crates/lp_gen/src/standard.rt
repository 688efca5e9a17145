// What is read of the types of heads, for their arguments.
ghost use Rattle.std.specs.Prelude.{◌≡◌};
ghost use Rattle.lp_term.specs.Nodes.{Nodes, tree, type_tree};
ghost use Rattle.lp_standard.specs.Schemes.{part_type, shape_type};
ghost use Rattle.lp_gen.specs.Steps.{from_of, to_of, as_asked, standard_type, constant_function};
ghost use Rattle.lp_gen.specs.inner.Reading.{read};
ghost use Rattle.lp_gen.specs.inner.Listing.{read_function, declared_at, term_function};

use crate::types::TypeView;
use lp_model::Declared;
use lp_standard::{Constant, FIRST_CONSTANT, Part, Shape};
use lp_term::{Bank, TermId, TermNode, TypeId};

/// What is left of the type of a head behind some of its arguments.
#[derive(Clone, Copy)]
pub(crate) enum Function {
    Of(TypeView),
    /// From the first to the second.
    One(TypeView, TypeView),
    /// From the first and the second to the third.
    Two(TypeView, TypeView, TypeView),
}

// A part of the type of a standard constant.
fn part(of: Part, any: TypeId) -> TypeView
    ensures { (b : Nodes) → read b result ≡ as_asked (type_tree b any.0) (part_type of) }
{
    match of {
        Part::Any => TypeView::Of(any, None),
        Part::Predicate => TypeView::Predicate(any),
        Part::Proposition => TypeView::Proposition,
        Part::Integer => TypeView::Proposition,
        Part::String => TypeView::Proposition,
        Part::ListOfAny => TypeView::Proposition,
    }
}

// The type of a standard constant, by its parts.
fn of_shape(shape: Shape, any: TypeId) -> Function
    ensures { (b : Nodes) → read_function b result ≡ as_asked (type_tree b any.0) (shape_type shape) }
{
    match shape {
        Shape::Value(of) => Function::Of(part(of, any)),
        Shape::Function(from, to) => Function::One(part(from, any), part(to, any)),
        Shape::Operation(left, right, to) => Function::Two(
            part(left, any),
            part(right, any),
            part(to, any),
        ),
    }
}

// The type of a standard constant with this type argument.
fn standard_of(number: u32, any: TypeId) -> Function
    ensures { (b : Nodes) → read_function b result ≡ standard_type number (type_tree b any.0) }
{
    let Some(constant) = Constant::from_number(number) else {
        return Function::Of(TypeView::Proposition);
    };
    let Some(shape) = constant.shape() else {
        return Function::Of(TypeView::Proposition);
    };
    of_shape(shape, any)
}

// The type of a declared constant, with the types of its node.
fn declared_of(constants: &[Declared], place: usize, node: TermId) -> Function
    ensures { (b : Nodes) → read_function b result ≡ declared_at b constants.now place (tree b node.0) }
{
    match constants.get(place) {
        Some(declared) => Function::Of(TypeView::Of(declared.scheme, Some(node))),
        None => Function::Of(TypeView::Proposition),
    }
}

/// The type of a constant, by its node.
pub(crate) fn constant_type(bank: &Bank, constants: &[Declared], node: TermId) -> Function
    ensures { read_function bank.now result ≡ term_function (constant_function bank.now constants.now) (tree bank.now node.0) }
{
    let TermNode::Const(number, types) = bank.term_node(node) else {
        return Function::Of(TypeView::Proposition);
    };
    if number >= FIRST_CONSTANT {
        return declared_of(constants, (number - FIRST_CONSTANT) as usize, node);
    }
    match types.first() {
        Some(any) => standard_of(number, *any),
        None => Function::Of(TypeView::Proposition),
    }
}

impl Function {
    /// The type of the next argument, and what is left behind it.
    pub(crate) fn next(self, bank: &Bank) -> (TypeView, Function)
        ensures from { read bank.now result.0 ≡ from_of (read_function bank.now self) }
        ensures to { read_function bank.now result.1 ≡ to_of (read_function bank.now self) }
    {
        match self {
            Function::Of(of) => {
                let (from, to) = of.sides(bank);
                (from, Function::Of(to))
            }
            Function::One(from, to) => (from, Function::Of(to)),
            Function::Two(left, right, to) => (left, Function::One(right, to)),
        }
    }
}
