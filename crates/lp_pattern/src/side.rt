// The side of a pair that is a pattern, and what it allows on the other side.
ghost use Rattle.std.specs.Prelude.{◌≡◌, ◌&&◌, nat_le};
ghost use Rattle.lp_model.specs.Patterns.{member};
ghost use Rattle.lp_model.specs.Scan.{is_side, allows, allow};
ghost use Rattle.lp_pattern.specs.Reading.{side_of};
ghost use Rattle.lp_pattern.specs.Settling.{side_index};

use crate::opened::Opened;

// A variable on distinct eigenconstants above its level, in a pair of a level.
#[derive(Drop)]
pub(crate) struct Side {
    pub id: u64,
    pub level: u64,
    pub eigens: Vec<u64>,
    pub pair: u64,
}

// Whether an eigenconstant is one of these.
fn is_among(k: u64, ks: &[u64]) -> bool
    ensures { result ≡ member k ks.now }
{
    ks.contains(&k)
}

impl Side {
    pub(crate) fn is_variable(&self, id: u64, level: u64) -> bool
        ensures { result ≡ is_side (side_of self.now) id level }
    {
        id == self.id && level == self.level
    }

    // Eigenconstants above the pair's level are local.
    pub(crate) fn allows(&self, eigen: u64) -> bool
        ensures { result ≡ allows (side_of self.now) eigen }
    {
        if eigen > self.pair {
            return true;
        }
        if eigen <= self.level {
            return true;
        }
        is_among(eigen, self.eigens.as_slice())
    }

    pub(crate) fn allows_all(&self, eigens: &[u64]) -> bool
        ensures { result ≡ allow (side_of self.now) eigens.now }
    {
        for place in 0..eigens.len() {
            if !self.allows(eigens[place]) {
                return false;
            }
        }
        true
    }

    // Whether a variable of this level may stand on these eigenconstants.
    pub(crate) fn fits(&self, level: u64, eigens: &[u64]) -> bool
        ensures { result ≡ (nat_le level self.now.level && allow (side_of self.now) eigens.now) }
    {
        level <= self.level && self.allows_all(eigens)
    }

    // The abstraction that stands for an eigenconstant, counted from the innermost one.
    pub(crate) fn abstraction_of(&self, eigen: u64) -> Option<u64>
        ensures { result ≡ side_index self.now.eigens.items eigen }
    {
        let count = self.eigens.len();
        for place in 0..count {
            if self.eigens[place] == eigen {
                return Some((count - 1 - place) as u64);
            }
        }
        None
    }

    // No abstraction of the other side is open.
    pub(crate) fn closed(&self) -> Opened
        ensures level { result.level ≡ self.now.pair }
        ensures depth { result.depth ≡ 0 }
    {
        Opened::none(self.pair)
    }
}
