// What queries see of an image.
ghost use Rattle.std.specs.Prelude.{◌≡◌, IfOk};

use lp_base::Memory;
use lp_code::Image;
use lp_fixity::{FixFault, Table};
use lp_model::Declared;
use lp_show::{Entry, Glossary};
use lp_sig::{ConstantEntry, FixityEntry, KindEntry, Signature};
use lp_standard::{FIRST_CONSTANT, FIRST_KIND};
use lp_term::{Bank, TypeId};
use std::alloc::Global;

/// The global names of an image, its operators, and a bank with the types of all its constants; and all constants as they are shown.
#[derive(Drop)]
pub(crate) struct Seen {
    pub signature: Signature,
    pub table: Table,
    pub bank: Bank,
    pub constants: Vec<Declared>,
    pub glossary: Glossary,
}

// The terms of queries that a bank may have before it is made anew.
const MANY_TERMS: usize = 65_536;

fn kinds_of(alloc: Global, image: &Image) -> Result<Vec<KindEntry>, Memory> {
    let mut kinds = Vec::new(alloc);
    let mut number = FIRST_KIND;
    for kind in image.kinds.iter() {
        if kind.hidden == 0 {
            kinds.push(KindEntry {
                name: Vec::from_slice(alloc, kind.name.as_slice())?,
                number,
                arity: kind.arity,
            })?;
        }
        number = number.saturating_add(1);
    }
    Ok(kinds)
}

fn constants_of(alloc: Global, image: &Image) -> Result<Vec<ConstantEntry>, Memory> {
    let mut constants = Vec::new(alloc);
    let mut number = FIRST_CONSTANT;
    for constant in image.constants.iter() {
        if constant.hidden == 0 {
            constants.push(ConstantEntry {
                name: Vec::from_slice(alloc, constant.name.as_slice())?,
                number,
                type_vars: constant.type_vars,
                scheme: constant.scheme,
            })?;
        }
        number = number.saturating_add(1);
    }
    Ok(constants)
}

// The operators among the global constants. That of `&` stands in the standard table.
fn fixities_of(alloc: Global, image: &Image) -> Result<Vec<FixityEntry>, Memory> {
    let mut fixities = Vec::new(alloc);
    for constant in image.constants.iter() {
        if let (0, Some((fixity, number))) = (constant.hidden, constant.fixity) {
            fixities.push(FixityEntry {
                name: Vec::from_slice(alloc, constant.name.as_slice())?,
                fixity,
                number,
            })?;
        }
    }
    Ok(fixities)
}

// The standard table with these operators. Where a name has a standard entry, that one stands.
fn table_of(alloc: Global, signature: &Signature) -> Result<Table, Memory> {
    let mut table = Table::standard(alloc)?;
    for entry in signature.fixities() {
        let name = entry.name.as_slice();
        if table.of(name).is_none() {
            match table.declare(name, entry.fixity, u32::from(entry.number)) {
                Err(FixFault::Memory) => return Err(Memory),
                _ => {}
            }
        }
    }
    Ok(table)
}

// A bank with the same types, under the same numbers.
fn types_of(alloc: Global, bank: &Bank) -> Result<Bank, Memory>
    ensures { IfOk result (λ copy. copy.types ≡ bank.now.types) }
{
    let mut copy = Bank::new(alloc);
    for number in 0..bank.type_count() {
        copy.put_type(bank.type_node(TypeId(number)))?;
    }
    Ok(copy)
}

// The types of all constants, in order. The generator reads no names.
fn declared_of(alloc: Global, image: &Image) -> Result<Vec<Declared>, Memory> {
    let mut declared = Vec::new(alloc);
    for constant in image.constants.iter() {
        declared.push(Declared {
            shown: Vec::new(alloc),
            type_vars: constant.type_vars,
            scheme: constant.scheme,
        })?;
    }
    Ok(declared)
}

// The constants of an image as they are shown. Global ones are shown as operators.
fn glossary_of(alloc: Global, image: &Image) -> Result<Glossary, Memory> {
    let mut entries = Vec::new(alloc);
    let mut number = FIRST_CONSTANT;
    for constant in image.constants.iter() {
        entries.push(Entry {
            number,
            name: Vec::from_slice(alloc, constant.name.as_slice())?,
            hidden: constant.hidden,
            fixity: if constant.hidden == 0 {
                constant.fixity
            } else {
                None
            },
        })?;
        number = number.saturating_add(1);
    }
    Ok(Glossary { entries })
}

impl Seen {
    pub(crate) fn of(alloc: Global, image: &Image) -> Result<Seen, Memory> {
        let kinds = kinds_of(alloc, image)?;
        let constants = constants_of(alloc, image)?;
        let fixities = fixities_of(alloc, image)?;
        let signature = Signature::from_entries(
            alloc,
            &image.bank,
            kinds.as_slice(),
            constants.as_slice(),
            &[],
            fixities.as_slice(),
        )?;
        Ok(Seen {
            table: table_of(alloc, &signature)?,
            signature,
            bank: types_of(alloc, &image.bank)?,
            constants: declared_of(alloc, image)?,
            glossary: glossary_of(alloc, image)?,
        })
    }

    /// Forgets the terms of earlier queries, where there are many: what a query costs is not more than twice what the queries before it cost.
    pub(crate) fn renew(&mut self, alloc: Global) -> Result<(), Memory>
        ensures glossary { self.new.glossary ≡ self.old.glossary }
        ensures signature { self.new.signature ≡ self.old.signature }
        ensures table { self.new.table ≡ self.old.table }
    {
        let types = self.signature.bank();
        let made = self
            .bank
            .term_count()
            .saturating_add(self.bank.type_count().saturating_sub(types.type_count()));
        if made < types.type_count().saturating_add(MANY_TERMS) {
            return Ok(());
        }
        self.bank = types_of(alloc, types)?;
        Ok(())
    }
}
