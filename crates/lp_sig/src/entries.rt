// Entries of a signature.
ghost use Rattle.std.specs.Prelude.{◌≡◌, IfOk, map};
ghost use Rattle.lp_sig.specs.Rows.{kind_row, constant_row, abbreviation_row, fixity_row};

use crate::places::Named;
use lp_base::Memory;
use lp_fixity::Fixity;
use lp_term::TypeId;
use std::alloc::Global;

/// A kind with its count of arguments.
#[derive(Drop)]
pub struct KindEntry {
    pub name: Vec<u8>,
    pub number: u32,
    pub arity: u8,
}

/// A constant with its type, in which the type variables are those below `type_vars`.
#[derive(Drop)]
pub struct ConstantEntry {
    pub name: Vec<u8>,
    pub number: u32,
    pub type_vars: u8,
    pub scheme: TypeId,
}

/// An abbreviation with its body, in which its parameters are the type variables below `type_vars`, in order.
#[derive(Drop)]
pub struct AbbreviationEntry {
    pub name: Vec<u8>,
    pub type_vars: u8,
    pub body: TypeId,
}

/// An operator that is declared.
#[derive(Drop)]
pub struct FixityEntry {
    pub name: Vec<u8>,
    pub fixity: Fixity,
    pub number: u8,
}

impl Named for KindEntry {
    ghost name_of = { λ e. e.name.items };

    fn name(&self) -> &[u8] {
        self.name.as_slice()
    }
}

impl Named for ConstantEntry {
    ghost name_of = { λ e. e.name.items };

    fn name(&self) -> &[u8] {
        self.name.as_slice()
    }
}

impl Named for AbbreviationEntry {
    ghost name_of = { λ e. e.name.items };

    fn name(&self) -> &[u8] {
        self.name.as_slice()
    }
}

impl Named for FixityEntry {
    ghost name_of = { λ e. e.name.items };

    fn name(&self) -> &[u8] {
        self.name.as_slice()
    }
}

pub(crate) fn copies_of_kinds(
    alloc: Global,
    entries: &[KindEntry],
) -> Result<Vec<KindEntry>, Memory>
    ensures { IfOk result (λ copies. map kind_row copies.items ≡ map kind_row entries.now) }
{
    let mut copies = Vec::new(alloc);
    for entry in entries {
        let name = Vec::from_slice(alloc, entry.name.as_slice())?;
        copies.push(KindEntry {
            name,
            number: entry.number,
            arity: entry.arity,
        })?;
    }
    Ok(copies)
}

pub(crate) fn copies_of_constants(
    alloc: Global,
    entries: &[ConstantEntry],
) -> Result<Vec<ConstantEntry>, Memory>
    ensures { IfOk result (λ copies. map constant_row copies.items ≡ map constant_row entries.now) }
{
    let mut copies = Vec::new(alloc);
    for entry in entries {
        let name = Vec::from_slice(alloc, entry.name.as_slice())?;
        copies.push(ConstantEntry {
            name,
            number: entry.number,
            type_vars: entry.type_vars,
            scheme: entry.scheme,
        })?;
    }
    Ok(copies)
}

pub(crate) fn copies_of_abbreviations(
    alloc: Global,
    entries: &[AbbreviationEntry],
) -> Result<Vec<AbbreviationEntry>, Memory>
    ensures { IfOk result (λ copies. map abbreviation_row copies.items ≡ map abbreviation_row entries.now) }
{
    let mut copies = Vec::new(alloc);
    for entry in entries {
        let name = Vec::from_slice(alloc, entry.name.as_slice())?;
        copies.push(AbbreviationEntry {
            name,
            type_vars: entry.type_vars,
            body: entry.body,
        })?;
    }
    Ok(copies)
}

pub(crate) fn copies_of_fixities(
    alloc: Global,
    entries: &[FixityEntry],
) -> Result<Vec<FixityEntry>, Memory>
    ensures { IfOk result (λ copies. map fixity_row copies.items ≡ map fixity_row entries.now) }
{
    let mut copies = Vec::new(alloc);
    for entry in entries {
        let name = Vec::from_slice(alloc, entry.name.as_slice())?;
        copies.push(FixityEntry {
            name,
            fixity: entry.fixity,
            number: entry.number,
        })?;
    }
    Ok(copies)
}
