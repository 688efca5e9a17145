// The fixed kinds.
ghost use Rattle.std.specs.Prelude.{◌≡◌, Some};
ghost use Rattle.lp_standard.specs.Kinds.{number, name, arity, numbered, named};

/// The number of the first declared kind.
pub const FIRST_KIND: u32 = 8;

/// A kind that every text sees.
#[derive(Clone, Copy, Debug, PartialEq, Eq)]
pub enum Kind {
    Proposition,
    Integer,
    String,
    List,
}

impl Kind {
    pub fn number(self) -> u32
        ensures number { result ≡ number self }
        ensures back { numbered result ≡ Some self }
    {
        match self {
            Kind::Proposition => 0,
            Kind::Integer => 1,
            Kind::String => 2,
            Kind::List => 3,
        }
    }

    pub fn name(self) -> &'static [u8]
        ensures { result.now ≡ name self }
    {
        match self {
            Kind::Proposition => b"o",
            Kind::Integer => b"int",
            Kind::String => b"string",
            Kind::List => b"list",
        }
    }

    /// How many types it takes.
    pub fn arity(self) -> u8
        ensures { result ≡ arity self }
    {
        match self {
            Kind::List => 1,
            _ => 0,
        }
    }

    /// The kind of this number.
    pub fn from_number(number: u32) -> Option<Kind>
        ensures { result ≡ numbered number }
    {
        match number {
            0 => Some(Kind::Proposition),
            1 => Some(Kind::Integer),
            2 => Some(Kind::String),
            3 => Some(Kind::List),
            _ => None,
        }
    }

    /// The kind of this name.
    pub fn from_name(name: &[u8]) -> Option<Kind>
        ensures { result ≡ named name.now }
    {
        if name == b"o".as_slice() {
            return Some(Kind::Proposition);
        }
        if name == b"int".as_slice() {
            return Some(Kind::Integer);
        }
        if name == b"string".as_slice() {
            return Some(Kind::String);
        }
        if name == b"list".as_slice() {
            return Some(Kind::List);
        }
        None
    }
}
