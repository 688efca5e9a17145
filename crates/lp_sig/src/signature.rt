// Signatures and what they tell.
ghost use Rattle.std.specs.Prelude.{◌≡◌, ◌++◌, map, length, IfOk, option_map, find};
ghost use Rattle.std.specs.Str.{bytes_eq};
ghost use Rattle.lp_sig.specs.Rows.{found, kind_row, constant_row, number_row, abbreviation_row, fixity_row};
ghost use Rattle.lp_sig.specs.Places.{HasPlaces};
ghost use Rattle.lp_sig.specs.Standard.{standard_kinds, standard_constants};

use crate::entries::{
    AbbreviationEntry, ConstantEntry, FixityEntry, KindEntry, copies_of_abbreviations,
    copies_of_constants, copies_of_fixities, copies_of_kinds,
};
use crate::places::{Places, places_of};
use crate::standard::{standard_constant, standard_kind};
use lp_base::Memory;
use lp_fixity::Fixity;
use lp_term::{Bank, TypeId};
use std::alloc::Global;

/// The kinds, constants, abbreviations and fixities that a text sees, in the order of first declaration, with the standard
/// kinds and constants. Their types stand in the bank.
#[derive(Drop)]
pub struct Signature {
    bank: Bank,
    kinds: Vec<KindEntry>,
    constants: Vec<ConstantEntry>,
    abbreviations: Vec<AbbreviationEntry>,
    fixities: Vec<FixityEntry>,
    kind_places: Places,
    constant_places: Places,
    abbreviation_places: Places,
    fixity_places: Places,
    ghost kinds_found: { HasPlaces kind_places (map (λ e. e.name.items) kinds.items) },
    ghost constants_found: { HasPlaces constant_places (map (λ e. e.name.items) constants.items) },
    ghost abbreviations_found: { HasPlaces abbreviation_places (map (λ e. e.name.items) abbreviations.items) },
    ghost fixities_found: { HasPlaces fixity_places (map (λ e. e.name.items) fixities.items) },
}

// A bank with the same types, under the same numbers.
fn types_of(alloc: Global, bank: &Bank) -> Result<Bank, Memory>
    ensures { IfOk result (λ copy. copy.types ≡ bank.now.types) }
{
    let mut copy = Bank::new(alloc);
    for number in 0..bank.type_count() {
        copy.put_type(bank.type_node(TypeId(number)))?;
    }
    Ok(copy)
}

impl Signature {
    // The signature of these entries, whose types stand in the bank.
    pub(crate) fn of(
        alloc: Global,
        bank: Bank,
        kinds: Vec<KindEntry>,
        constants: Vec<ConstantEntry>,
        abbreviations: Vec<AbbreviationEntry>,
        fixities: Vec<FixityEntry>,
    ) -> Result<Signature, Memory>
        ensures bank { IfOk result (λ s. s.bank ≡ bank) }
        ensures kinds { IfOk result (λ s. s.kinds ≡ kinds) }
        ensures constants { IfOk result (λ s. s.constants ≡ constants) }
        ensures abbreviations { IfOk result (λ s. s.abbreviations ≡ abbreviations) }
        ensures fixities { IfOk result (λ s. s.fixities ≡ fixities) }
    {
        let kind_places = places_of(alloc, kinds.as_slice())?;
        let constant_places = places_of(alloc, constants.as_slice())?;
        let abbreviation_places = places_of(alloc, abbreviations.as_slice())?;
        let fixity_places = places_of(alloc, fixities.as_slice())?;
        Ok(Signature {
            bank,
            kinds,
            constants,
            abbreviations,
            fixities,
            kind_places,
            constant_places,
            abbreviation_places,
            fixity_places,
        })
    }

    /// The signature with the standard names and exactly these, under these numbers. Of two entries of one name the first is
    /// found, and a standard name stays standard.
    ///
    /// # Errors
    /// Want of memory alone.
    pub fn from_entries(
        alloc: Global,
        bank: &Bank,
        kinds: &[KindEntry],
        constants: &[ConstantEntry],
        abbreviations: &[AbbreviationEntry],
        fixities: &[FixityEntry],
    ) -> Result<Signature, Memory>
        ensures types { IfOk result (λ s. s.bank.types ≡ bank.now.types) }
        ensures kinds { IfOk result (λ s. map kind_row s.kinds.items ≡ map kind_row kinds.now) }
        ensures constants { IfOk result (λ s. map constant_row s.constants.items ≡ map constant_row constants.now) }
        ensures abbreviations { IfOk result (λ s. map abbreviation_row s.abbreviations.items ≡ map abbreviation_row abbreviations.now) }
        ensures fixities { IfOk result (λ s. map fixity_row s.fixities.items ≡ map fixity_row fixities.now) }
    {
        let types = types_of(alloc, bank)?;
        let kinds = copies_of_kinds(alloc, kinds)?;
        let constants = copies_of_constants(alloc, constants)?;
        let abbreviations = copies_of_abbreviations(alloc, abbreviations)?;
        let fixities = copies_of_fixities(alloc, fixities)?;
        Signature::of(alloc, types, kinds, constants, abbreviations, fixities)
    }

    /// The number of a kind, and its count of arguments.
    pub fn kind(&self, name: &[u8]) -> Option<(u32, u8)>
        ensures { result ≡ found name.now (standard_kinds ++ map kind_row self.now.kinds.items) }
    {
        if let Some(standard) = standard_kind(name) {
            return Some(standard);
        }
        let at = self.kind_places.of(name)?;
        let entry = self.kinds.get(at)?;
        Some((entry.number, entry.arity))
    }

    /// The number of a constant.
    pub fn constant(&self, name: &[u8]) -> Option<u32>
        ensures { result ≡ found name.now (standard_constants ++ map number_row self.now.constants.items) }
    {
        if let Some(standard) = standard_constant(name) {
            return Some(standard);
        }
        let entry = self.declared(name)?;
        Some(entry.number)
    }

    /// The entry of a constant that is not standard.
    pub fn declared(&self, name: &[u8]) -> Option<&ConstantEntry>
        ensures { option_map (λ e. e.now) result ≡ find (λ e. bytes_eq name.now e.name.items) self.now.constants.items }
    {
        let at = self.constant_places.of(name)?;
        self.constants.get(at)
    }

    /// The count of parameters of an abbreviation, and its body.
    pub fn abbreviation(&self, name: &[u8]) -> Option<(u8, TypeId)>
        ensures { option_map (λ a. (a.0, a.1.0)) result ≡ found name.now (map abbreviation_row self.now.abbreviations.items) }
    {
        let at = self.abbreviation_places.of(name)?;
        let entry = self.abbreviations.get(at)?;
        Some((entry.type_vars, entry.body))
    }

    /// The fixity that is declared for a name.
    pub fn fixity(&self, name: &[u8]) -> Option<(Fixity, u8)>
        ensures { result ≡ found name.now (map fixity_row self.now.fixities.items) }
    {
        let at = self.fixity_places.of(name)?;
        let entry = self.fixities.get(at)?;
        Some((entry.fixity, entry.number))
    }

    /// The kinds that are not standard.
    pub fn kinds(&self) -> &[KindEntry]
        ensures { result.now ≡ self.now.kinds.items }
    {
        self.kinds.as_slice()
    }

    /// The constants that are not standard.
    pub fn constants(&self) -> &[ConstantEntry]
        ensures { result.now ≡ self.now.constants.items }
    {
        self.constants.as_slice()
    }

    /// The abbreviations.
    pub fn abbreviations(&self) -> &[AbbreviationEntry]
        ensures { result.now ≡ self.now.abbreviations.items }
    {
        self.abbreviations.as_slice()
    }

    /// The fixities that are declared.
    pub fn fixities(&self) -> &[FixityEntry]
        ensures { result.now ≡ self.now.fixities.items }
    {
        self.fixities.as_slice()
    }

    /// The bank in which the types of the entries stand.
    pub fn bank(&self) -> &Bank
        ensures { result.now ≡ self.now.bank }
    {
        &self.bank
    }
}
