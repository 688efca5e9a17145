// Names in the order of their first places.
ghost use Rattle.std.specs.Prelude.{◌≡◌, ℕ, List, [], ◌∷◌, ◌++◌, length, OnOk, IfOk, map};
ghost use Rattle.lp_sig.specs.Pieces.{spelled};
ghost use Rattle.lp_sig.specs.Places.{first_place};
ghost use Rattle.lp_infer.specs.Firsts.{number_in, AreFirsts};

use indexmap::IndexMap;
use lp_base::{Memory, Spot};
use lp_sig::spelled_at;
use std::alloc::Global;

// Spots in the order in which they were added, and of each name the number of its first spot.
#[derive(Drop)]
pub(crate) struct Firsts {
    alloc: Global,
    pub places: Vec<Spot>,
    numbers: IndexMap<Vec<u8>, usize>,
}

impl Firsts {
    pub(crate) fn new(alloc: Global) -> Firsts
        ensures none { result.places.items ≡ [] }
        ensures firsts { (text : List ℕ) → AreFirsts text result }
    {
        Firsts {
            alloc,
            places: Vec::new(alloc),
            numbers: IndexMap::new(alloc),
        }
    }

    // The number of a name's first spot.
    pub(crate) fn number(&self, name: &[u8]) -> Option<usize>
        ensures { result ≡ number_in self.now name.now }
    {
        self.numbers.get(name).copied()
    }

    // A name that keeps its number, if it has one, and else has this one.
    fn set_number(&mut self, name: &[u8], number: usize) -> Result<(), Memory>
        ensures places { self.new.places ≡ self.old.places }
        ensures numbers { OnOk result ((names : List (List ℕ)) → number ≡ length names → ((other : List ℕ) → number_in self.old other ≡ first_place other names) → (other : List ℕ) → number_in self.new other ≡ first_place other (names ++ name.now ∷ [])) }
    {
        if self.number(name).is_some() {
            return Ok(());
        }
        let key = Vec::from_slice(self.alloc, name)?;
        self.numbers.insert(key, number)?;
        Ok(())
    }

    // One more spot.
    pub(crate) fn add(&mut self, source: &[u8], spot: Spot) -> Result<usize, Memory>
        ensures number { IfOk result (λ n. n ≡ length self.old.places.items) }
        ensures places { OnOk result (self.new.places.items ≡ self.old.places.items ++ spot ∷ []) }
        ensures firsts { OnOk result (AreFirsts source.now self.old → AreFirsts source.now self.new) }
    {
        let number = self.places.len();
        self.set_number(spelled_at(source, spot), number)?;
        self.places.push(spot)?;
        Ok(number)
    }
}
