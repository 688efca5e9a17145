// The fixities so far, each at its first declaration.
ghost use Rattle.std.specs.Prelude.{◌≡◌, ℕ, List, [], ◌∷◌, ◌++◌, nat_le, if◌then◌else◌, OnOk};
ghost use Rattle.lp_standard.specs.declared.fixity.Fixity.{Fixity as IsFixity};
ghost use Rattle.lp_sig.specs.Rows.{Row};
ghost use Rattle.lp_sig.specs.Said.{each};
ghost use Rattle.lp_sig.specs.Knowing.{KnowsOperators};

use crate::entries::FixityEntry;
use crate::pieces::spelled_at;
use crate::places::Places;
use lp_base::{Memory, Spot};
use lp_fixity::Fixity;
use std::alloc::Global;

#[derive(Drop)]
pub(crate) struct Operators {
    alloc: Global,
    pub fixities: Vec<FixityEntry>,
    places: Places,
}

impl Operators {
    pub(crate) fn new(alloc: Global) -> Operators
        ensures { KnowsOperators result [] }
    {
        Operators {
            alloc,
            fixities: Vec::new(alloc),
            places: Places::new(alloc),
        }
    }

    pub(crate) fn into_entries(self) -> Vec<FixityEntry>
        ensures { result ≡ self.fixities }
    {
        self.fixities
    }

    pub(crate) fn declare(&mut self, word: &[u8], fixity: Fixity, number: u8) -> Result<(), Memory>
        ensures { OnOk result ((said : List (Row (IsFixity × ℕ))) → KnowsOperators self.old said → KnowsOperators self.new (said ++ (word.now, (fixity, number)) ∷ [])) }
    {
        if self.places.of(word).is_some() {
            return Ok(());
        }
        let place = self.fixities.len();
        let name = Vec::from_slice(self.alloc, word)?;
        self.fixities.push(FixityEntry {
            name,
            fixity,
            number,
        })?;
        self.places.add(word, place)
    }

    fn declare_each(
        &mut self,
        source: &[u8],
        names: &[Spot],
        fixity: Fixity,
        number: u8,
    ) -> Result<(), Memory>
        ensures { OnOk result ((said : List (Row (IsFixity × ℕ))) → KnowsOperators self.old said → KnowsOperators self.new (said ++ each source.now (fixity, number) names.now)) }
    {
        for name in names {
            self.declare(spelled_at(source, *name), fixity, number)?;
        }
        Ok(())
    }

    // A number above 255 was refused with the operator table.
    pub(crate) fn declare_all(
        &mut self,
        source: &[u8],
        names: &[Spot],
        fixity: Fixity,
        number: u32,
    ) -> Result<(), Memory>
        ensures { OnOk result ((said : List (Row (IsFixity × ℕ))) → KnowsOperators self.old said → KnowsOperators self.new (said ++ (if nat_le number 255 then each source.now (fixity, number) names.now else []))) }
    {
        if number > 255 {
            return Ok(());
        }
        self.declare_each(source, names, fixity, number as u8)
    }
}
