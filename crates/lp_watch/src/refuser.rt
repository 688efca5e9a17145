// The watcher for tests that has no memory.
ghost use Rattle.std.specs.Prelude.{◌≡◌, ◌↔◌, [], None, Some, IfOk, OnErr, false, map};
ghost use Rattle.lp_watch.specs.Kept.{counts_of, kept_event};
ghost use Rattle.lp_watch.specs.Notes.{event_of};
ghost use Rattle.lp_watch.specs.Reports.{report_of, shows_notes};
ghost use Rattle.lp_watch.specs.Seen.{Seen, no_counts, seen_after, stays};

use crate::tally::Tally;
use crate::tracer::{Kept, keep, lines};
use crate::{Go, Note, Watch};
use lp_base::Memory;
use std::alloc::Global;

/// A watcher for tests: it keeps its notes as `Tracer` does, until it answers that memory is wanting, at a given note and at each later one.
#[derive(Drop)]
pub struct Refuser {
    alloc: Global,
    before: u64,
    tally: Tally,
    notes: Vec<Kept>,
}

impl Refuser {
    /// Wants memory at its `n`-th note and at each later one.
    pub fn at(alloc: Global, n: u64) -> Refuser
        ensures { ⟦<Refuser as Watch>⟧.seen result ≡ record { tally = no_counts; told = Some []; left = None; shows = shows_notes } }
    {
        Refuser {
            alloc,
            before: n.saturating_sub(1),
            tally: Tally::new(),
            notes: Vec::new(alloc),
        }
    }
}

impl Watch for Refuser {
    ghost seen = { λ r. record { tally = counts_of r.tally; told = Some (map kept_event r.notes.items); left = None; shows = shows_notes } };

    fn note(&mut self, note: Note<'_>) -> Result<Go, Memory> {
        if self.before == 0 {
            return Err(Memory);
        }
        self.notes.push(keep(self.alloc, note)?)?;
        self.tally.count(note);
        self.before -= 1;
        Ok(Go::On)
    }

    fn text(&self, alloc: Global) -> Result<Vec<u8>, Memory> {
        lines(alloc, self.notes.as_slice())
    }
}
