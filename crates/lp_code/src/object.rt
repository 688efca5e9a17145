// The parts of objects that have names.

use crate::record::Code;
use lp_fixity::Fixity;
use lp_term::{Bank, TypeId};

/// A compiled module: its name, its kinds and constants with the numbers from 8 and from 32, the modules that it accumulates, in order and as often as
/// they stand there, and its clauses. The schemes of constants stand in the bank.
#[derive(Drop)]
pub struct Object {
    pub name: Vec<u8>,
    pub bank: Bank,
    pub kinds: Vec<ObjectKind>,
    pub constants: Vec<ObjectConstant>,
    pub uses: Vec<Vec<u8>>,
    pub code: Code,
}

/// A kind: whether the module's signature declares it, its name and its count of arguments.
#[derive(Drop)]
pub struct ObjectKind {
    pub exported: bool,
    pub name: Vec<u8>,
    pub arity: u8,
}

/// A constant: whether the module's signature declares it, its name, its type over `type_vars` type variables, and the fixity that the signature gives it.
#[derive(Drop)]
pub struct ObjectConstant {
    pub exported: bool,
    pub name: Vec<u8>,
    pub type_vars: u8,
    pub scheme: TypeId,
    pub fixity: Option<(Fixity, u8)>,
}
