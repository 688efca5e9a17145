// The side of a pair that is a pattern, and what it allows on the other side.

use crate::opened::Opened;
use lp_store::CellId;

// A variable of a level on distinct eigenconstants above it, in a pair of a level.
#[derive(Drop)]
pub(crate) struct Side {
    pub variable: CellId,
    pub level: u64,
    pub eigens: Vec<u64>,
    pub pair: u64,
}

impl Side {
    pub(crate) fn is_variable(&self, cell: CellId) -> bool {
        cell.0 == self.variable.0
    }

    // Eigenconstants above the pair's level are local.
    pub(crate) fn allows(&self, eigen: u64) -> bool {
        if eigen > self.pair {
            return true;
        }
        if eigen <= self.level {
            return true;
        }
        self.place_of(eigen).is_some()
    }

    // Where an eigenconstant stands among them. Mostly they are of one level after the other.
    fn place_of(&self, eigen: u64) -> Option<usize> {
        let eigens = self.eigens.as_slice();
        let first = eigens.first().copied()?;
        let near = eigen.saturating_sub(first) as usize;
        if eigens.get(near).copied() == Some(eigen) {
            return Some(near);
        }
        for place in 0..eigens.len() {
            if eigens[place] == eigen {
                return Some(place);
            }
        }
        None
    }

    pub(crate) fn allows_all(&self, eigens: &[u64]) -> bool {
        for place in 0..eigens.len() {
            if !self.allows(eigens[place]) {
                return false;
            }
        }
        true
    }

    // Whether a variable of this level may stand on these eigenconstants.
    pub(crate) fn fits(&self, level: u64, eigens: &[u64]) -> bool {
        level <= self.level && self.allows_all(eigens)
    }

    // The abstraction that stands for an eigenconstant, counted from the innermost one.
    pub(crate) fn abstraction_of(&self, eigen: u64) -> Option<u64> {
        let place = self.place_of(eigen)?;
        let behind = self.eigens.len().saturating_sub(place);
        Some(behind.saturating_sub(1) as u64)
    }

    // No abstraction of the other side is open.
    pub(crate) fn closed(&self) -> Opened {
        Opened::none(self.pair)
    }
}
