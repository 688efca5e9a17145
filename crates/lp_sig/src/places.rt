// Names with the place at which each stands first in a list.
ghost use Rattle.std.specs.Prelude.{◌≡◌, ℕ, List, [], ◌∷◌, ◌++◌, length, OnOk, OnErr, IfOk, map, string_bytes};
ghost use Rattle.lp_sig.specs.Places.{HasPlaces, place_of};

use indexmap::IndexMap;
use lp_base::Memory;
use std::alloc::Global;

#[derive(Drop)]
pub(crate) struct Places {
    alloc: Global,
    places: IndexMap<Vec<u8>, usize>,
}

impl Places {
    pub(crate) fn new(alloc: Global) -> Places
        ensures { HasPlaces result [] }
    {
        Places {
            alloc,
            places: IndexMap::new(alloc),
        }
    }

    // The first place of a name.
    pub(crate) fn of(&self, name: &[u8]) -> Option<usize>
        ensures { result ≡ place_of self.now name.now }
    {
        self.places.get(name).copied()
    }

    // One more name behind the others; a name that is there keeps its place.
    pub(crate) fn add(&mut self, name: &[u8], place: usize) -> Result<(), Memory>
        ensures added { OnOk result ((names : List (List ℕ)) → place ≡ length names → HasPlaces self.old names → HasPlaces self.new (names ++ name.now ∷ [])) }
        ensures kept { OnErr result ((names : List (List ℕ)) → HasPlaces self.old names → HasPlaces self.new names) }
    {
        if self.of(name).is_some() {
            return Ok(());
        }
        let key = Vec::from_slice(self.alloc, name)?;
        self.places.insert(key, place)?;
        Ok(())
    }
}

// An entry that is found by its name.
pub(crate) trait Named {
    ghost name_of: { Self → List ℕ };

    fn name(&self) -> &[u8]
        ensures { result.now ≡ name_of self.now };
}

impl Named for String {
    ghost name_of = { λ s. string_bytes s };

    fn name(&self) -> &[u8] {
        self.as_bytes()
    }
}

// The places of the names of these entries.
pub(crate) fn places_of<E: Named>(alloc: Global, entries: &[E]) -> Result<Places, Memory>
    ensures { IfOk result (λ places. HasPlaces places (map E.name_of entries.now)) }
{
    let mut places = Places::new(alloc);
    for (i, entry) in entries.iter().enumerate() {
        places.add(entry.name(), i)?;
    }
    Ok(places)
}
