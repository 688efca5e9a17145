// The abstractions that are open.
ghost use Rattle.std.specs.Prelude.{◌≤◌};

use lp_base::Memory;

// Levels and depths are below this.
pub(crate) const LEVELS: u64 = 4_611_686_018_427_387_904;

// Abstractions that were opened: the outermost stands for the eigenconstant of the level plus one, and so on.
#[derive(Clone, Copy)]
pub(crate) struct Opened {
    pub level: u64,
    pub depth: u64,
    ghost few: { depth ≤ 4611686018427387904 },
}

impl Opened {
    ghost use Rattle.std.specs.Prelude.{◌≡◌, ◌<◌, suc, IfOk};
    ghost use Rattle.lp_model.specs.Eigens.{eigen_of};
    ghost use Rattle.lp_pattern.specs.Settling.{open_index};
    ghost use Rattle.lp_pattern.specs.Stripping.{opens};

    // None is open.
    pub(crate) fn none(level: u64) -> Opened
        ensures level { result.level ≡ level }
        ensures depth { result.depth ≡ 0 }
    {
        Opened { level, depth: 0 }
    }

    // One more is open.
    pub(crate) fn one_more(self) -> Result<Opened, Memory>
        ensures { IfOk result (λ o. (o.level ≡ self.level) × (o.depth ≡ suc self.depth) × (self.depth < 4611686018427387904)) }
    {
        if self.depth >= LEVELS {
            return Err(Memory);
        }
        Ok(Opened {
            level: self.level,
            depth: self.depth + 1,
        })
    }

    // The eigenconstant that an index stands for.
    pub(crate) fn eigen(self, place: u64) -> Result<Option<u64>, Memory>
        ensures { IfOk result (λ o. o ≡ eigen_of (opens self.level self.depth place)) }
    {
        if place >= self.depth {
            return Ok(None);
        }
        let above = self.depth - place;
        if self.level > u64::MAX - above {
            return Err(Memory);
        }
        Ok(Some(self.level + above))
    }

    // The index that stands for an eigenconstant.
    pub(crate) fn index(self, eigen: u64) -> Option<u64>
        ensures { result ≡ open_index self.level self.depth eigen }
    {
        if eigen <= self.level {
            return None;
        }
        let above = eigen - self.level;
        if above > self.depth {
            return None;
        }
        Some(self.depth - above)
    }
}
