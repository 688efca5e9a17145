// The table of operators, a finite map from names.
ghost use Rattle.std.specs.Prelude.{◌≡◌, ◌<◌, ℕ, List, Some, None, Err, Ok, IfOk, ◌≤◌, IfErr, OnOk, OnErr, codes, if◌then◌else◌};
ghost use Rattle.std.specs.Str.{bytes_eq};
ghost use Rattle.lp_fixity.specs.Table.{entry_of, operator, standard, with_entry, with_entries, Extends, HasEntry, HasOther, IsCause};
ghost use Rattle.lp_fixity.specs.declared.fault.FixFault.TheVariants as fault;

use crate::fault::FixFault;
use indexmap::IndexMap;
use lp_base::Memory;
use lp_standard::{Constant, Fixity, RESERVED};
use std::alloc::Global;

/// The operators that a text may use.
#[derive(Drop)]
pub struct Table {
    alloc: Global,
    entries: IndexMap<Vec<u8>, (Fixity, u8)>,
}

impl Table {
    fn empty(alloc: Global) -> Table
        ensures { (name : List ℕ) → entry_of result name ≡ None }
    {
        Table {
            alloc,
            entries: IndexMap::new(alloc),
        }
    }

    // Gives the name this entry, whatever it had.
    fn put(&mut self, name: &[u8], fixity: Fixity, number: u8) -> Result<(), Memory>
        ensures put { OnOk result ((other : List ℕ) → entry_of self.new other ≡ with_entry (name.now, (fixity, number)) (entry_of self.old) other) }
        ensures kept { OnErr result ((other : List ℕ) → entry_of self.new other ≡ entry_of self.old other) }
    {
        let key = Vec::from_slice(self.alloc, name)?;
        self.entries.insert(key, (fixity, number))?;
        Ok(())
    }

    // Gives a constant its entry, if it is an operator.
    fn put_constant(&mut self, constant: Constant) -> Result<(), Memory>
        ensures { OnOk result ((other : List ℕ) → entry_of self.new other ≡ with_entries (operator constant) (entry_of self.old) other) }
    {
        match constant.fixity() {
            Some((fixity, number)) => self.put(constant.name(), fixity, number),
            None => Ok(()),
        }
    }

    /// The table that every text begins with.
    pub fn standard(alloc: Global) -> Result<Table, Memory>
        ensures { IfOk result (λ table. (name : List ℕ) → entry_of table name ≡ standard name) }
    {
        let mut table = Table::empty(alloc);
        let mut left = RESERVED;
        'constants: while left > 0 {
            left -= 1;
            if let Some(constant) = Constant::from_number(left) {
                table.put_constant(constant)?;
            }
        }
        table.put(b"&", Fixity::Infixr, 120)?;
        Ok(table)
    }

    /// Makes a name an operator. The same entry again changes nothing.
    ///
    /// # Errors
    /// `TooHigh` exactly where the number is above 255, `Otherwise` exactly where it is not and the name has another entry.
    pub fn declare(&mut self, name: &[u8], fixity: Fixity, number: u32) -> Result<(), FixFault>
        ensures declared { OnOk result ((other : List ℕ) → entry_of self.new other ≡ with_entry (name.now, (fixity, number)) (entry_of self.old) other) }
        ensures kept { OnErr result ((other : List ℕ) → entry_of self.new other ≡ entry_of self.old other) }
        ensures extends { Extends self.old self.new }
        ensures cause { IfErr result (IsCause self.old name.now (fixity, number)) }
        ensures too_high { 255 < number → result ≡ Err (fault.TooHigh number) }
        ensures otherwise { number ≤ 255 → HasOther self.old name.now (fixity, number) → result ≡ Err fault.Otherwise }
        ensures again { number ≤ 255 → HasEntry self.old name.now (fixity, number) → result ≡ Ok tt }
    {
        if number > 255 {
            return Err(FixFault::TooHigh(number));
        }
        let number = number as u8;
        match self.of(name) {
            None => {
                self.put(name, fixity, number)?;
                Ok(())
            }
            Some((known, value)) => {
                if known == fixity && value == number {
                    return Ok(());
                }
                Err(FixFault::Otherwise)
            }
        }
    }

    /// The entry of a name, if it is an operator.
    pub fn of(&self, name: &[u8]) -> Option<(Fixity, u8)>
        ensures { result ≡ entry_of self.now name.now }
    {
        self.entries.get(name).copied()
    }
}
