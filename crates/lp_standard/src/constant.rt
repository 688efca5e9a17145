// The fixed constants.
ghost use Rattle.std.specs.Prelude.{◌≡◌, Some, option_map};
ghost use Rattle.lp_standard.specs.Constants.{number, name, fixity, connectives, relations, operations, numbered, named_in, named};
ghost use Rattle.lp_standard.specs.Schemes.{scheme, shape_scheme};

use crate::fixity::Fixity;
use crate::shape::{Part, Shape};

/// The number of the first declared constant.
pub const FIRST_CONSTANT: u32 = 32;

/// The constants of the language have the numbers below this one. Of this number, and the next, is what is kept for later.
pub const RESERVED: u32 = 25;

/// A constant that the language fixes.
#[derive(Clone, Copy, Debug, PartialEq, Eq)]
pub enum Constant {
    /// `,`.
    And,
    /// `;`.
    Or,
    /// `=>`.
    Implies,
    /// `:-`.
    If,
    /// `pi`.
    ForAll,
    /// `sigma`.
    Exists,
    /// `true`.
    True,
    /// `!`.
    Cut,
    /// `=`.
    Equal,
    /// `is`.
    Is,
    /// `<`.
    Less,
    /// `>`.
    Greater,
    /// `=<`.
    AtMost,
    /// `>=`.
    AtLeast,
    /// `::`.
    Cons,
    /// `nil`.
    Nil,
    /// `+`.
    Add,
    /// `-`.
    Subtract,
    /// `*`.
    Multiply,
    /// `div`, which truncates toward zero.
    Divide,
    /// `mod`, the remainder of `div`.
    Remainder,
    /// `~`.
    Negate,
    /// `^`.
    Concatenate,
    /// `size`.
    Size,
    /// `not`.
    Not,
    /// `print`, kept for later.
    Print,
}

// Each constant at the place of its number.
const CONSTANTS: [Constant; 26] = [
    Constant::And,
    Constant::Or,
    Constant::Implies,
    Constant::If,
    Constant::ForAll,
    Constant::Exists,
    Constant::True,
    Constant::Cut,
    Constant::Equal,
    Constant::Is,
    Constant::Less,
    Constant::Greater,
    Constant::AtMost,
    Constant::AtLeast,
    Constant::Cons,
    Constant::Nil,
    Constant::Add,
    Constant::Subtract,
    Constant::Multiply,
    Constant::Divide,
    Constant::Remainder,
    Constant::Negate,
    Constant::Concatenate,
    Constant::Size,
    Constant::Not,
    Constant::Print,
];

fn connective(name: &[u8]) -> Option<Constant>
    ensures { result ≡ named_in connectives name.now }
{
    if name == b",".as_slice() {
        return Some(Constant::And);
    }
    if name == b";".as_slice() {
        return Some(Constant::Or);
    }
    if name == b"=>".as_slice() {
        return Some(Constant::Implies);
    }
    if name == b":-".as_slice() {
        return Some(Constant::If);
    }
    if name == b"pi".as_slice() {
        return Some(Constant::ForAll);
    }
    if name == b"sigma".as_slice() {
        return Some(Constant::Exists);
    }
    if name == b"true".as_slice() {
        return Some(Constant::True);
    }
    if name == b"!".as_slice() {
        return Some(Constant::Cut);
    }
    None
}

fn relation(name: &[u8]) -> Option<Constant>
    ensures { result ≡ named_in relations name.now }
{
    if name == b"=".as_slice() {
        return Some(Constant::Equal);
    }
    if name == b"is".as_slice() {
        return Some(Constant::Is);
    }
    if name == b"<".as_slice() {
        return Some(Constant::Less);
    }
    if name == b">".as_slice() {
        return Some(Constant::Greater);
    }
    if name == b"=<".as_slice() {
        return Some(Constant::AtMost);
    }
    if name == b">=".as_slice() {
        return Some(Constant::AtLeast);
    }
    if name == b"::".as_slice() {
        return Some(Constant::Cons);
    }
    if name == b"nil".as_slice() {
        return Some(Constant::Nil);
    }
    None
}

fn operation(name: &[u8]) -> Option<Constant>
    ensures { result ≡ named_in operations name.now }
{
    if name == b"+".as_slice() {
        return Some(Constant::Add);
    }
    if name == b"-".as_slice() {
        return Some(Constant::Subtract);
    }
    if name == b"*".as_slice() {
        return Some(Constant::Multiply);
    }
    if name == b"div".as_slice() {
        return Some(Constant::Divide);
    }
    if name == b"mod".as_slice() {
        return Some(Constant::Remainder);
    }
    if name == b"~".as_slice() {
        return Some(Constant::Negate);
    }
    if name == b"^".as_slice() {
        return Some(Constant::Concatenate);
    }
    if name == b"size".as_slice() {
        return Some(Constant::Size);
    }
    if name == b"not".as_slice() {
        return Some(Constant::Not);
    }
    None
}

impl Constant {
    pub fn number(self) -> u32
        ensures number { result ≡ number self }
        ensures back { numbered result ≡ Some self }
    {
        match self {
            Constant::And => 0,
            Constant::Or => 1,
            Constant::Implies => 2,
            Constant::If => 3,
            Constant::ForAll => 4,
            Constant::Exists => 5,
            Constant::True => 6,
            Constant::Cut => 7,
            Constant::Equal => 8,
            Constant::Is => 9,
            Constant::Less => 10,
            Constant::Greater => 11,
            Constant::AtMost => 12,
            Constant::AtLeast => 13,
            Constant::Cons => 14,
            Constant::Nil => 15,
            Constant::Add => 16,
            Constant::Subtract => 17,
            Constant::Multiply => 18,
            Constant::Divide => 19,
            Constant::Remainder => 20,
            Constant::Negate => 21,
            Constant::Concatenate => 22,
            Constant::Size => 23,
            Constant::Not => 24,
            Constant::Print => 25,
        }
    }

    pub fn name(self) -> &'static [u8]
        ensures { result.now ≡ name self }
    {
        match self {
            Constant::And => b",",
            Constant::Or => b";",
            Constant::Implies => b"=>",
            Constant::If => b":-",
            Constant::ForAll => b"pi",
            Constant::Exists => b"sigma",
            Constant::True => b"true",
            Constant::Cut => b"!",
            Constant::Equal => b"=",
            Constant::Is => b"is",
            Constant::Less => b"<",
            Constant::Greater => b">",
            Constant::AtMost => b"=<",
            Constant::AtLeast => b">=",
            Constant::Cons => b"::",
            Constant::Nil => b"nil",
            Constant::Add => b"+",
            Constant::Subtract => b"-",
            Constant::Multiply => b"*",
            Constant::Divide => b"div",
            Constant::Remainder => b"mod",
            Constant::Negate => b"~",
            Constant::Concatenate => b"^",
            Constant::Size => b"size",
            Constant::Not => b"not",
            Constant::Print => b"print",
        }
    }

    /// The constant of this number.
    pub fn from_number(number: u32) -> Option<Constant>
        ensures { result ≡ numbered number }
    {
        if number < 26 {
            return Some(CONSTANTS[number as usize]);
        }
        None
    }

    /// The constant of the language that has this name. `print` is none.
    pub fn from_name(name: &[u8]) -> Option<Constant>
        ensures { result ≡ named name.now }
    {
        connective(name).or(relation(name)).or(operation(name))
    }

    /// How it stands with its operands, with its number, if it is an operator.
    pub fn fixity(self) -> Option<(Fixity, u8)>
        ensures { result ≡ fixity self }
    {
        match self {
            Constant::If => Some((Fixity::Infixl, 1)),
            Constant::Or => Some((Fixity::Infixr, 100)),
            Constant::And => Some((Fixity::Infixr, 110)),
            Constant::Implies => Some((Fixity::Infixr, 130)),
            Constant::Equal
            | Constant::Is
            | Constant::Less
            | Constant::Greater
            | Constant::AtMost
            | Constant::AtLeast => Some((Fixity::Infix, 130)),
            Constant::Cons => Some((Fixity::Infixr, 140)),
            Constant::Add | Constant::Subtract | Constant::Concatenate => Some((
                Fixity::Infixl,
                150,
            )),
            Constant::Multiply | Constant::Divide | Constant::Remainder => Some((
                Fixity::Infixl,
                160,
            )),
            Constant::Negate => Some((Fixity::Prefix, 200)),
            _ => None,
        }
    }

    /// Its type. `print` has none.
    pub fn shape(self) -> Option<Shape>
        ensures { option_map shape_scheme result ≡ scheme self }
    {
        match self {
            Constant::And | Constant::Or | Constant::Implies | Constant::If => Some(
                Shape::Operation(Part::Proposition, Part::Proposition, Part::Proposition),
            ),
            Constant::ForAll | Constant::Exists => Some(Shape::Function(
                Part::Predicate,
                Part::Proposition,
            )),
            Constant::True | Constant::Cut => Some(Shape::Value(Part::Proposition)),
            Constant::Equal | Constant::Is => Some(Shape::Operation(
                Part::Any,
                Part::Any,
                Part::Proposition,
            )),
            Constant::Less | Constant::Greater | Constant::AtMost | Constant::AtLeast => Some(
                Shape::Operation(Part::Integer, Part::Integer, Part::Proposition),
            ),
            Constant::Cons => Some(Shape::Operation(Part::Any, Part::ListOfAny, Part::ListOfAny)),
            Constant::Nil => Some(Shape::Value(Part::ListOfAny)),
            Constant::Add
            | Constant::Subtract
            | Constant::Multiply
            | Constant::Divide
            | Constant::Remainder => Some(Shape::Operation(
                Part::Integer,
                Part::Integer,
                Part::Integer,
            )),
            Constant::Negate => Some(Shape::Function(Part::Integer, Part::Integer)),
            Constant::Concatenate => Some(Shape::Operation(
                Part::String,
                Part::String,
                Part::String,
            )),
            Constant::Size => Some(Shape::Function(Part::String, Part::Integer)),
            Constant::Not => Some(Shape::Function(Part::Proposition, Part::Proposition)),
            _ => None,
        }
    }
}
