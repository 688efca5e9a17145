// A watcher as the search sees it.
ghost use Rattle.std.specs.Prelude.{◌≡◌, ◌↔◌, IfOk, OnErr, false};
ghost use Rattle.lp_watch.specs.Notes.{event_of};
ghost use Rattle.lp_watch.specs.Reports.{report_of};
ghost use Rattle.lp_watch.specs.Seen.{Seen, seen_after, stays};

use crate::{Go, Note};
use lp_base::Memory;
use std::alloc::Global;

/// A watcher of a search. It takes notes until it has enough, and gives a report of them.
pub trait Watch: Drop {
    /// Its tally, the notes where it tells them, how many it still takes, and how its report is made of tally and notes.
    ghost seen: { Self → Seen };

    /// Takes a note. `Done` comes exactly where it was to take at most one more.
    fn note(&mut self, note: Note<'_>) -> Result<Go, Memory>
        ensures noted { IfOk result (λ _. seen self.new ≡ seen_after (event_of note.entry) (seen self.old)) }
        ensures done { IfOk result (λ go. (go ≡ Go.Done) ↔ (stays (seen self.old).left ≡ false)) }
        ensures memory { OnErr result (seen self.new ≡ seen self.old) };

    /// Its report, whole lines.
    fn text(&self, alloc: Global) -> Result<Vec<u8>, Memory>
        ensures { IfOk result (λ bytes. bytes.items ≡ report_of (seen self.now)) };
}

/// A box of a watcher is a watcher. The boxes are made by the program or a test and handed in.
impl Watch for Box<dyn Watch> {
    ghost seen = { λ b. (Watch-box b).seen b.value };

    fn note(&mut self, note: Note<'_>) -> Result<Go, Memory> {
        (**self).note(note)
    }

    fn text(&self, alloc: Global) -> Result<Vec<u8>, Memory> {
        (**self).text(alloc)
    }
}
