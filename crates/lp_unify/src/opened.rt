// Abstractions that are open.

use lp_base::Memory;

// Levels and depths are below this.
pub(crate) const LEVELS: u64 = 4_611_686_018_427_387_904;

// Abstractions that were opened: the outermost stands for the eigenconstant of the level plus one, and so on.
#[derive(Clone, Copy)]
pub(crate) struct Opened {
    pub level: u64,
    pub depth: u64,
}

impl Opened {
    // None is open.
    pub(crate) fn none(level: u64) -> Opened {
        Opened { level, depth: 0 }
    }

    // One more is open.
    pub(crate) fn one_more(self) -> Result<Opened, Memory> {
        if self.depth >= LEVELS {
            return Err(Memory);
        }
        Ok(Opened {
            level: self.level,
            depth: self.depth + 1,
        })
    }

    // The eigenconstant that an index stands for.
    pub(crate) fn eigen(self, place: u64) -> Result<Option<u64>, Memory> {
        if place >= self.depth {
            return Ok(None);
        }
        let above = self.depth - place;
        if self.level > u64::MAX - above {
            return Err(Memory);
        }
        Ok(Some(self.level + above))
    }

    // The index that stands for an eigenconstant.
    pub(crate) fn index(self, eigen: u64) -> Option<u64> {
        if eigen <= self.level {
            return None;
        }
        let above = eigen - self.level;
        if above > self.depth {
            return None;
        }
        Some(self.depth - above)
    }
}
