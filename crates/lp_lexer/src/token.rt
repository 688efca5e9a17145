// Tokens, the faults of a text, and what the scanner finds at a place.

use lp_base::Place;

/// The class of a token. A number has its value.
#[derive(Clone, Copy, Debug, PartialEq, Eq)]
pub enum TokenKind {
    Lower,
    Upper,
    Symbol,
    Number(i64),
    Real,
    Text,
    Open,
    Close,
    OpenList,
    CloseList,
    Bar,
    Dot,
    Backslash,
}

/// A token: its class, its place, and the bytes `from..to` of the text that it is.
#[derive(Clone, Copy, Debug, PartialEq, Eq)]
pub struct Token {
    pub kind: TokenKind,
    pub at: Place,
    pub from: usize,
    pub to: usize,
}

/// The first fault of a text, with its place: an unclosed string or comment has the place of its opening, of comments that
/// nest the outermost.
#[derive(Clone, Copy, Debug, PartialEq, Eq)]
pub enum LexFault {
    BadByte(Place),
    OpenText(Place),
    OpenComment(Place),
    /// A number past 9223372036854775807.
    BigNumber(Place),
    Memory,
}

/// What stands at the front of the rest of a text, and of how many bytes; a fault is so many bytes on.
#[derive(Clone, Copy)]
pub enum Piece {
    Skip(usize),
    Found(TokenKind, usize),
    Bad(usize),
    OpenText,
    OpenComment,
    BigNumber,
}

/// Where a string ends, behind its opening quote; a bad byte is so many bytes on.
#[derive(Clone, Copy)]
pub enum Ended {
    Closed(usize),
    BadAt(usize),
    Open,
}
