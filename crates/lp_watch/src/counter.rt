// The watcher that counts.
ghost use Rattle.std.specs.Prelude.{◌≡◌, ◌++◌, ◌↔◌, None, IfOk, OnErr, false, codes, decimal};
ghost use Rattle.lp_watch.specs.Kept.{counts_of};
ghost use Rattle.lp_watch.specs.Notes.{event_of};
ghost use Rattle.lp_watch.specs.Reports.{report_of, shows_counts};
ghost use Rattle.lp_watch.specs.Seen.{Seen, count, no_counts, seen_after, stays};

use crate::tally::{Tally, add_count};
use crate::{Go, Note, Watch};
use lp_base::Memory;
use std::alloc::Global;

/// Counts the notes of each kind, and takes all. Its report is the line
/// `goals G, backs B, answers A, cuts C`.
#[derive(Drop)]
pub struct Counter {
    tally: Tally,
}

impl Counter {
    /// A counter without notes.
    pub fn new() -> Counter
        ensures { ⟦<Counter as Watch>⟧.seen result ≡ record { tally = no_counts; told = None; left = None; shows = shows_counts } }
    {
        Counter {
            tally: Tally::new(),
        }
    }
}

impl Watch for Counter {
    ghost seen = { λ c. record { tally = counts_of c.tally; told = None; left = None; shows = shows_counts } };

    fn note(&mut self, note: Note<'_>) -> Result<Go, Memory> {
        self.tally.count(note);
        Ok(Go::On)
    }

    fn text(&self, alloc: Global) -> Result<Vec<u8>, Memory> {
        let mut out = Vec::new(alloc);
        add_count(&mut out, "goals ", self.tally.goals)?;
        add_count(&mut out, ", backs ", self.tally.backs)?;
        add_count(&mut out, ", answers ", self.tally.answers)?;
        add_count(&mut out, ", cuts ", self.tally.cuts)?;
        out.push(b'\n')?;
        Ok(out)
    }
}
