// Names with the place at which each stands first in a list.
ghost use Rattle.std.specs.Prelude.{◌≡◌, ℕ, List, [], ◌∷◌, ◌++◌, length, map, IfOk, OnOk, OnErr};
ghost use Rattle.lp_places.specs.Places.{HasPlaces, place_of, places_in};

use indexmap::IndexMap;
use lp_base::Memory;
use std::alloc::Global;

/// The first place of each name of a list.
#[derive(Drop)]
pub struct Places {
    alloc: Global,
    places: IndexMap<Vec<u8>, usize>,
}

impl Places {
    /// No name has a place.
    pub fn new(alloc: Global) -> Places
        ensures { HasPlaces result [] }
    {
        Places {
            alloc,
            places: IndexMap::new(alloc),
        }
    }

    /// The first place of a name. It takes no memory.
    pub fn of(&self, name: &[u8]) -> Option<usize>
        ensures { result ≡ place_of self.now name.now }
    {
        self.places.get(name).copied()
    }

    /// One more name behind the others; a name that is there keeps its place.
    pub fn add(&mut self, name: &[u8], place: usize) -> Result<(), Memory>
        ensures added { OnOk result ((names : List (List ℕ)) → place ≡ length names → HasPlaces self.old names → HasPlaces self.new (names ++ name.now ∷ [])) }
        ensures kept { OnErr result ((names : List (List ℕ)) → HasPlaces self.old names → HasPlaces self.new names) }
    {
        if self.of(name).is_some() {
            return Ok(());
        }
        let key = Vec::from_slice(self.alloc, name)?;
        self.places.insert(key, place)?;
        Ok(())
    }

    /// The places of these names, in order; a name without a place has none.
    pub fn all(&self, alloc: Global, names: &[Vec<u8>]) -> Result<Vec<usize>, Memory>
        ensures { (table : List (List ℕ)) → HasPlaces self.now table → IfOk result (λ places. places.items ≡ places_in table (map (λ n. n.items) names.now)) }
    {
        let mut places = Vec::new(alloc);
        for at in 0..names.len() {
            match self.of(names[at].as_slice()) {
                None => continue,
                Some(place) => places.push(place)?,
            }
        }
        Ok(places)
    }
}
