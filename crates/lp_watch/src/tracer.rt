// The watcher that keeps its notes.
ghost use Rattle.std.specs.Prelude.{◌≡◌, ◌<◌, ◌++◌, ◌↔◌, [], Some, IfOk, OnOk, OnErr, false, map, codes, decimal};
ghost use Rattle.std.specs.List.{flat_map};
ghost use Rattle.lp_watch.specs.Kept.{counts_of, kept_event};
ghost use Rattle.lp_watch.specs.Notes.{event_of};
ghost use Rattle.lp_watch.specs.Reports.{line_of, report_of, shows_notes};
ghost use Rattle.lp_watch.specs.Seen.{Seen, count, no_counts, seen_after, stays};

use crate::tally::{Tally, add_count};
use crate::{Go, Note, Watch};
use lp_base::Memory;
use std::alloc::Global;

// A note with its own bytes.
#[derive(Drop)]
pub enum Kept {
    Goal(Vec<u8>),
    Back,
    Answer(u64),
    Cut,
}

pub(crate) fn keep(alloc: Global, note: Note<'_>) -> Result<Kept, Memory>
    ensures { IfOk result (λ kept. kept_event kept ≡ event_of note.entry) }
{
    Ok(match note {
        Note::Goal(name) => Kept::Goal(name.to_vec(alloc)?),
        Note::Back => Kept::Back,
        Note::Answer(k) => Kept::Answer(k),
        Note::Cut => Kept::Cut,
    })
}

fn add_line(out: &mut Vec<u8>, kept: &Kept) -> Result<(), Memory>
    ensures { OnOk result (out.new.items ≡ out.old.items ++ line_of (kept_event kept.now)) }
{
    match kept {
        Kept::Goal(name) => {
            out.extend_from_slice(b"goal ")?;
            out.extend_from_slice(name)?;
            out.extend_from_slice(b"\n")?;
        }
        Kept::Back => out.extend_from_slice(b"back\n")?,
        Kept::Answer(k) => {
            add_count(out, "answer ", *k)?;
            out.extend_from_slice(b"\n")?;
        }
        Kept::Cut => out.extend_from_slice(b"cut\n")?,
    }
    Ok(())
}

// A line for each note.
pub(crate) fn lines(alloc: Global, notes: &[Kept]) -> Result<Vec<u8>, Memory>
    ensures { IfOk result (λ out. out.items ≡ flat_map line_of (map kept_event notes.now)) }
{
    let mut out = Vec::new(alloc);
    for kept in notes {
        add_line(&mut out, kept)?;
    }
    Ok(out)
}

/// Keeps its notes, and takes a given number of them. Its report has a line for each note:
/// `goal NAME`, `back`, `answer K` or `cut`.
#[derive(Drop)]
pub struct Tracer {
    alloc: Global,
    left: u64,
    tally: Tally,
    notes: Vec<Kept>,
}

impl Tracer {
    /// A tracer of the first `n` notes.
    pub fn first(alloc: Global, n: u64) -> Tracer
        requires { 0 < n }
        ensures { ⟦<Tracer as Watch>⟧.seen result ≡ record { tally = no_counts; told = Some []; left = Some n; shows = shows_notes } }
    {
        Tracer {
            alloc,
            left: n,
            tally: Tally::new(),
            notes: Vec::new(alloc),
        }
    }
}

impl Watch for Tracer {
    ghost seen = { λ t. record { tally = counts_of t.tally; told = Some (map kept_event t.notes.items); left = Some t.left; shows = shows_notes } };

    fn note(&mut self, note: Note<'_>) -> Result<Go, Memory> {
        self.notes.push(keep(self.alloc, note)?)?;
        self.tally.count(note);
        let last = self.left <= 1;
        self.left = self.left.saturating_sub(1);
        Ok(if last { Go::Done } else { Go::On })
    }

    fn text(&self, alloc: Global) -> Result<Vec<u8>, Memory> {
        lines(alloc, self.notes.as_slice())
    }
}
