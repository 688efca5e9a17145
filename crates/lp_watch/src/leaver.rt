// The watcher for tests that leaves.
ghost use Rattle.std.specs.Prelude.{◌≡◌, ◌<◌, ◌↔◌, [], Some, IfOk, OnErr, false};
ghost use Rattle.lp_watch.specs.Kept.{counts_of, kept_event};
ghost use Rattle.lp_watch.specs.Notes.{event_of};
ghost use Rattle.lp_watch.specs.Reports.{report_of, shows_notes};
ghost use Rattle.lp_watch.specs.Seen.{Seen, no_counts, seen_after, stays};

use crate::{Go, Note, Tracer, Watch};
use lp_base::Memory;
use std::alloc::Global;

/// A watcher for tests: it keeps its notes as `Tracer` does, and leaves at a given one.
#[derive(Drop)]
pub struct Leaver {
    tracer: Tracer,
}

impl Leaver {
    /// Leaves at its `n`-th note.
    pub fn at(alloc: Global, n: u64) -> Leaver
        requires { 0 < n }
        ensures { ⟦<Leaver as Watch>⟧.seen result ≡ record { tally = no_counts; told = Some []; left = Some n; shows = shows_notes } }
    {
        Leaver {
            tracer: Tracer::first(alloc, n),
        }
    }
}

impl Watch for Leaver {
    ghost seen = { λ l. ⟦<Tracer as Watch>⟧.seen l.tracer };

    fn note(&mut self, note: Note<'_>) -> Result<Go, Memory> {
        self.tracer.note(note)
    }

    fn text(&self, alloc: Global) -> Result<Vec<u8>, Memory> {
        self.tracer.text(alloc)
    }
}
