// The names of kinds and abbreviations so far, each at its first declaration.
ghost use Rattle.std.specs.Prelude.{◌≡◌, ◌+◌, min, not, IfOk, ℕ, List, [], ◌∷◌, ◌++◌, map, is_some, option_map, slice_index_or, IfSome, OnOk};
ghost use Rattle.lp_sig.specs.Places.{HasPlaces, first_place};
ghost use Rattle.lp_sig.specs.Abbreviations.{abbreviation_names, place_meant};
ghost use Rattle.lp_sig.specs.Rows.{Row};
ghost use Rattle.lp_sig.specs.Said.{Said, a_kind, an_abbreviation, each};
ghost use Rattle.lp_sig.specs.Words.{meaning_of, number_said};
ghost use Rattle.lp_sig.specs.Types.{kind_number_of};
ghost use Rattle.lp_sig.specs.Holding.{HasNumber};
ghost use Rattle.lp_sig.specs.Knowing.{Knows, is_known, kinded_row, head_row, said_as, IsNumberOf};

use crate::pieces::spelled_at;
use crate::places::Places;
use crate::standard::{FIRST_KIND, standard_kind};
use lp_base::{Memory, Spot};
use std::alloc::Global;

// What a name of a kind or an abbreviation means: the number of the kind and its count of arguments, or the place of the
// abbreviation.
#[derive(Clone, Copy)]
pub(crate) enum Meaning {
    Kind(u32, u32),
    Abbreviation(usize),
}

// A kind with its count of arguments.
#[derive(Drop)]
pub(crate) struct Kinded {
    pub name: Vec<u8>,
    pub arity: u32,
}

// An abbreviation with its count of parameters.
#[derive(Drop)]
pub(crate) struct Head {
    pub name: Vec<u8>,
    pub parameters: usize,
}

#[derive(Drop)]
pub(crate) struct Names {
    alloc: Global,
    pub kinds: Vec<Kinded>,
    pub heads: Vec<Head>,
    kind_places: Places,
    head_places: Places,
}

// The number of the kind at a place.
pub(crate) fn kind_number(place: usize) -> u32
    ensures { result ≡ min (8 + place) 4294967295 }
{
    FIRST_KIND.saturating_add(place.min(u32::MAX as usize) as u32)
}

impl Names {
    pub(crate) fn new(alloc: Global) -> Names
        ensures { Knows result [] }
    {
        Names {
            alloc,
            kinds: Vec::new(alloc),
            heads: Vec::new(alloc),
            kind_places: Places::new(alloc),
            head_places: Places::new(alloc),
        }
    }

    // What a name means.
    pub(crate) fn meaning(&self, name: &[u8]) -> Option<Meaning>
        ensures known { (said : List (Row Said)) → Knows self.now said → is_some result ≡ is_known name.now said }
        ensures means { (said : List (Row Said)) → Knows self.now said → option_map (said_as self.now) result ≡ meaning_of name.now said }
        ensures number { (said : List (Row Said)) → Knows self.now said → IfSome result (IsNumberOf (number_said name.now said)) }
        ensures place { (said : List (Row Said)) → Knows self.now said → place_meant result ≡ first_place name.now (abbreviation_names said) }
        ensures exact { (said : List (Row Said)) → Knows self.now said → IfSome result (HasNumber (kind_number_of name.now said)) }
    {
        if let Some((number, arity)) = standard_kind(name) {
            return Some(Meaning::Kind(number, arity as u32));
        }
        if let Some(place) = self.head_places.of(name) {
            return Some(Meaning::Abbreviation(place));
        }
        let place = self.kind_places.of(name)?;
        let kind = self.kinds.get(place)?;
        Some(Meaning::Kind(kind_number(place), kind.arity))
    }

    // The count of parameters of the abbreviation at a place.
    pub(crate) fn parameters_at(&self, place: usize) -> usize
        ensures { result ≡ (slice_index_or (map head_row self.now.heads.items) place ([], 0)).1 }
    {
        match self.heads.get(place) {
            Some(head) => head.parameters,
            None => 0,
        }
    }

    // A kind behind the others, whatever its name means.
    pub(crate) fn add_kind(&mut self, name: &[u8], arity: u32) -> Result<u32, Memory>
        ensures kinds { OnOk result (map kinded_row self.new.kinds.items ≡ map kinded_row self.old.kinds.items ++ (name.now, arity) ∷ []) }
        ensures heads { self.new.heads ≡ self.old.heads }
        ensures head_places { self.new.head_places ≡ self.old.head_places }
        ensures places { OnOk result (HasPlaces self.old.kind_places (map (λ k. k.name.items) self.old.kinds.items) → HasPlaces self.new.kind_places (map (λ k. k.name.items) self.new.kinds.items)) }
    {
        let place = self.kinds.len();
        let key = Vec::from_slice(self.alloc, name)?;
        self.kinds.push(Kinded { name: key, arity })?;
        self.kind_places.add(name, place)?;
        Ok(kind_number(place))
    }

    // A kind that has no meaning yet gets the next number.
    pub(crate) fn announce_kind(&mut self, name: &[u8], arity: u32) -> Result<(), Memory>
        ensures { OnOk result ((said : List (Row Said)) → Knows self.old said → Knows self.new (said ++ (name.now, a_kind arity) ∷ [])) }
    {
        if self.meaning(name).is_some() {
            return Ok(());
        }
        self.add_kind(name, arity)?;
        Ok(())
    }

    // An abbreviation behind the others.
    pub(crate) fn add_head(&mut self, name: &[u8], parameters: usize) -> Result<(), Memory>
        ensures heads { OnOk result (map head_row self.new.heads.items ≡ map head_row self.old.heads.items ++ (name.now, parameters) ∷ []) }
        ensures kinds { self.new.kinds ≡ self.old.kinds }
        ensures kind_places { self.new.kind_places ≡ self.old.kind_places }
        ensures places { OnOk result (HasPlaces self.old.head_places (map (λ h. h.name.items) self.old.heads.items) → HasPlaces self.new.head_places (map (λ h. h.name.items) self.new.heads.items)) }
    {
        let place = self.heads.len();
        let key = Vec::from_slice(self.alloc, name)?;
        self.heads.push(Head {
            name: key,
            parameters,
        })?;
        self.head_places.add(name, place)
    }

    // An abbreviation that has no meaning yet gets the next place. Says whether it had none.
    pub(crate) fn announce_head(&mut self, name: &[u8], parameters: usize) -> Result<bool, Memory>
        ensures fresh { (said : List (Row Said)) → Knows self.old said → IfOk result (λ new. not new ≡ is_known name.now said) }
        ensures names { OnOk result ((said : List (Row Said)) → Knows self.old said → Knows self.new (said ++ (name.now, an_abbreviation parameters) ∷ [])) }
    {
        if self.meaning(name).is_some() {
            return Ok(false);
        }
        self.add_head(name, parameters)?;
        Ok(true)
    }

    pub(crate) fn announce_kinds(
        &mut self,
        source: &[u8],
        names: &[Spot],
        arity: u32,
    ) -> Result<(), Memory>
        ensures { OnOk result ((said : List (Row Said)) → Knows self.old said → Knows self.new (said ++ each source.now (a_kind arity) names.now)) }
    {
        for name in names {
            self.announce_kind(spelled_at(source, *name), arity)?;
        }
        Ok(())
    }
}
