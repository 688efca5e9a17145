// Images, with the tables of their records.

ghost use Rattle.std.specs.Prelude.{◌≡◌, ◌<◌, ◌^◌, ℕ, IfOk, OnOk, length, map};
ghost use Rattle.std.specs.Map.{keys_of};
ghost use Rattle.lp_code.specs.Groups.{PlainKey, looked_key, group, heads, keys};
ghost use Rattle.lp_code.specs.inner.Told.{Recorded, AreTables, group_in, keys_in};

use crate::groups::Groups;
use crate::record::{Code, KeyRef, Record, RecordHead};
use lp_base::Memory;
use lp_fixity::Fixity;
use lp_term::{Bank, TypeId};
use std::alloc::Global;
use std::collections::BTreeMap;

/// A linked program: its name, its kinds and constants with the numbers from 8 and from 32, and the clauses of all copies of its modules.
#[derive(Drop)]
pub struct Image {
    pub name: Vec<u8>,
    pub bank: Bank,
    pub kinds: Vec<ImageKind>,
    pub constants: Vec<ImageConstant>,
    pub code: Code,
    tables: BTreeMap<u32, Groups>,
    ghost heads_are: { keys_of tables.entries ≡ heads code.records.items },
    ghost group_is: { (c : ℕ) (key : PlainKey) → group_in tables.entries c key ≡ group code.records.items c key },
    ghost keys_are: { (c : ℕ) → keys_in tables.entries c ≡ keys code.records.items c },
}

/// A kind: its name, its hidden number (0 for a global one) and its count of arguments.
#[derive(Drop)]
pub struct ImageKind {
    pub name: Vec<u8>,
    pub hidden: u16,
    pub arity: u8,
}

/// A constant: its name, its hidden number (0 for a global one), its type over `type_vars` type variables and its fixity.
#[derive(Drop)]
pub struct ImageConstant {
    pub name: Vec<u8>,
    pub hidden: u16,
    pub type_vars: u8,
    pub scheme: TypeId,
    pub fixity: Option<(Fixity, u8)>,
}

// The record joins those of the constant that heads it, if it is one of the program.
fn add_record(
    alloc: Global,
    tables: &mut BTreeMap<u32, Groups>,
    of: &Record,
    number: u32,
) -> Result<(), Memory>
    ensures { OnOk result (Recorded of.now number tables.old.entries tables.new.entries) }
{
    if let (true, Some(RecordHead::Const(constant))) = (of.program, of.head) {
        tables
            .entry(constant)?
            .or_insert(Groups::new(alloc))
            .add(alloc, &of.key, number)?;
    }
    Ok(())
}

// The program records of each constant that heads one.
fn tables_of(alloc: Global, records: &[Record]) -> Result<BTreeMap<u32, Groups>, Memory>
    requires few { length records.now < 2 ^ 32 }
    ensures { IfOk result (λ tables. AreTables tables.entries records.now) }
{
    let mut tables = BTreeMap::new(alloc);
    let mut number: u32 = 0;
    for of in records {
        add_record(alloc, &mut tables, of, number)?;
        number = number.saturating_add(1);
    }
    Ok(tables)
}

impl Image {
    /// The image with these parts.
    pub fn new(
        alloc: Global,
        name: Vec<u8>,
        bank: Bank,
        kinds: Vec<ImageKind>,
        constants: Vec<ImageConstant>,
        code: Code,
    ) -> Result<Image, Memory>
        requires few { length code.records.items < 2 ^ 32 }
        ensures name { IfOk result (λ image. image.name ≡ name) }
        ensures bank { IfOk result (λ image. image.bank ≡ bank) }
        ensures kinds { IfOk result (λ image. image.kinds ≡ kinds) }
        ensures constants { IfOk result (λ image. image.constants ≡ constants) }
        ensures code { IfOk result (λ image. image.code ≡ code) }
    {
        let tables = tables_of(alloc, code.records.as_slice())?;
        Ok(Image {
            name,
            bank,
            kinds,
            constants,
            code,
            tables,
        })
    }

    /// The numbers of the program records that the constant heads and whose key is this one, ascending. No memory is taken.
    pub fn group(&self, constant: u32, key: KeyRef<'_>) -> &[u32]
        ensures group { result.now ≡ group self.now.code.records.items constant (looked_key key.entry) }
    {
        match self.tables.get(&constant) {
            Some(groups) => groups.group(key),
            None => &[],
        }
    }

    /// The constants that head program records, ascending.
    pub fn heads(&self, alloc: Global) -> Result<Vec<u32>, Memory>
        ensures heads { IfOk result (λ constants. constants.items ≡ heads self.now.code.records.items) }
    {
        let mut heads = Vec::new(alloc);
        for constant in self.tables.keys() {
            heads.push(*constant)?;
        }
        Ok(heads)
    }

    /// The keys of the program records that the constant heads: none first, then constants by number, integers by value and texts by their bytes.
    pub fn keys(&self, alloc: Global, constant: u32) -> Result<Vec<KeyRef<'_>>, Memory>
        ensures keys { IfOk result (λ told. map looked_key told.items ≡ keys self.now.code.records.items constant) }
    {
        match self.tables.get(&constant) {
            Some(groups) => groups.keys(alloc),
            None => Ok(Vec::new(alloc)),
        }
    }
}
