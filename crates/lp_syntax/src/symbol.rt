// What the grammar of terms sees of a token.

use lp_fixity::Fixity;

/// An operator where it stands.
#[derive(Clone, Copy)]
pub struct Oper {
    pub spot: usize,
    pub fixity: Fixity,
    pub number: u8,
    pub comma: bool,
}

/// What the grammar sees of a token.
#[derive(Clone, Copy)]
pub enum Sym {
    /// A name that may be bound.
    Word(usize),
    /// An atom that may not.
    Atom(usize),
    Op(Oper),
    Opens,
    Closes,
    OpensList(usize),
    ClosesList(usize),
    Bar,
    /// The backslash, with the number of the colon of the annotation before it.
    Binds(Option<usize>),
    Other,
}

#[derive(Clone, Copy)]
pub enum Fault {
    Unexpected,
    Ambiguous,
}
