// Records and their keys.

ghost use Rattle.std.specs.Prelude.{◌≡◌, IfOk};
ghost use Rattle.lp_code.specs.Groups.{plain_key, looked_key};

use crate::instruction::Instr;
use lp_base::Memory;
use std::alloc::Global;

/// The records of an object, an image or a query, by number.
#[derive(Drop)]
pub struct Code {
    pub records: Vec<Record>,
}

/// A compiled clause: of a program, or one that an `Assume` of an earlier record names.
///
/// An assumed record starts with `captured_types` type registers and `captured` registers, from 0, in the order of its `Assume`. There are `types` type
/// registers and `registers` registers. The head is None in the first record of a query's code alone, whose first registers are the query's variables.
/// The key is that of the first argument of a program clause's head; that of an assumed record is `Key::None`.
#[derive(Drop)]
pub struct Record {
    pub program: bool,
    pub head: Option<RecordHead>,
    pub captured_types: u16,
    pub captured: u16,
    pub types: u16,
    pub registers: u16,
    pub key: Key,
    pub code: Vec<Instr>,
}

/// The predicate of a clause: a constant, or the register of an eigenconstant.
#[derive(Clone, Copy, Debug, PartialEq, Eq)]
pub enum RecordHead {
    Const(u32),
    Register(u16),
}

/// The head of a clause's first argument, where it is a constant, an integer or a string: a goal whose first argument has another one does not meet the clause.
#[derive(Drop)]
pub enum Key {
    None,
    Const(u32),
    Int(i64),
    Text(Vec<u8>),
}

/// A key that is only looked at.
#[derive(Clone, Copy, Debug, PartialEq, Eq)]
pub enum KeyRef<'a> {
    None,
    Const(u32),
    Int(i64),
    Text(&'a [u8]),
}

impl Key {
    /// The key, to be looked at.
    pub fn as_key_ref(&self) -> KeyRef<'_>
        ensures key { looked_key result ≡ plain_key self.now }
    {
        match self {
            Key::None => KeyRef::None,
            Key::Const(constant) => KeyRef::Const(*constant),
            Key::Int(integer) => KeyRef::Int(*integer),
            Key::Text(text) => KeyRef::Text(text.as_slice()),
        }
    }
}

impl KeyRef<'_> {
    /// A key of its own.
    pub fn to_key(self, alloc: Global) -> Result<Key, Memory>
        ensures key { IfOk result (λ key. plain_key key ≡ looked_key self.entry) }
    {
        match self {
            KeyRef::None => Ok(Key::None),
            KeyRef::Const(constant) => Ok(Key::Const(constant)),
            KeyRef::Int(integer) => Ok(Key::Int(integer)),
            KeyRef::Text(text) => Ok(Key::Text(Vec::from_slice(alloc, text)?)),
        }
    }
}
