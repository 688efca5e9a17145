// Sentences and terms as they were read, before any name means anything. A term or type is a vector of nodes: each `usize`
// in a node is a place in the same vector.

use lp_base::Spot;
use lp_fixity::Fixity;

/// A term as it was written, with the spot of its first token.
#[derive(Drop)]
pub struct RawTerm {
    pub nodes: Vec<RawNode>,
    pub root: usize,
    pub first: Spot,
}

/// A node of a term. An operator form is its operator applied to its left operand, if it has one, then to its right one.
#[derive(Drop)]
pub enum RawNode {
    /// A constant or a variable.
    Name(Spot),
    /// The standard constant of this number: `,` for `&` (0), `::` (14) and `nil` (15) for list notation.
    Known(u32, Spot),
    Number(i64, Spot),
    Text(Spot),
    App(usize, usize),
    /// The bound name, its type if one is written, and the body.
    Abs(Spot, Option<RawType>, usize),
}

#[derive(Drop)]
pub struct RawType {
    pub nodes: Vec<RawTypeNode>,
    pub root: usize,
}

#[derive(Drop)]
pub enum RawTypeNode {
    /// A kind, an abbreviation or a type variable, on arguments.
    Word(Spot, Vec<usize>),
    Arrow(usize, usize),
}

#[derive(Drop)]
pub struct RawQuery {
    pub term: RawTerm,
}

#[derive(Drop)]
pub struct SignatureText {
    /// The name in the header.
    pub header: Spot,
    pub lines: Vec<Declaration>,
}

#[derive(Drop)]
pub struct ModuleText {
    /// The name in the header.
    pub header: Spot,
    pub lines: Vec<Sentence>,
}

#[derive(Drop)]
pub enum Sentence {
    Declares(Declaration),
    Says(RawTerm),
}

/// A declaration. The number of a kind is its count of arguments, u32's greatest value where there are more; so is a number
/// of fixities that is greater.
#[derive(Drop)]
pub enum Declaration {
    Kinds(Vec<Spot>, u32),
    LocalKinds(Vec<Spot>, Option<u32>),
    Constants(Vec<Spot>, RawType),
    Locals(Vec<Spot>, Option<RawType>),
    /// The name, its parameters, its body.
    Abbreviation(Spot, Vec<Spot>, RawType),
    Accumulate(Vec<Spot>),
    AccumSig(Vec<Spot>),
    Fixities(Vec<Spot>, Fixity, u32),
}

/// What a text says of other files and of operators, whatever else it holds.
#[derive(Drop)]
pub struct References {
    pub accumulate: Vec<Spot>,
    pub accum_sig: Vec<Spot>,
    pub fixities: Vec<FixityLine>,
}

#[derive(Clone, Copy, Debug, PartialEq, Eq)]
pub struct FixityLine {
    pub name: Spot,
    pub fixity: Fixity,
    pub number: u32,
}
