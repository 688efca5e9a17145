// How many notes of each kind came, and text with numbers in it.
ghost use Rattle.std.specs.Prelude.{◌≡◌, ◌++◌, OnOk, decimal};
ghost use Rattle.lp_watch.specs.Kept.{counts_of};
ghost use Rattle.lp_watch.specs.Notes.{event_of};
ghost use Rattle.lp_watch.specs.Seen.{count, no_counts};

use crate::Note;
use itoa::Buffer;
use lp_base::Memory;

/// How many notes of each kind. Each count stays at the greatest `u64`.
#[derive(Clone, Copy)]
pub struct Tally {
    pub goals: u64,
    pub backs: u64,
    pub answers: u64,
    pub cuts: u64,
}

impl Tally {
    pub fn new() -> Tally
        ensures { counts_of result ≡ no_counts }
    {
        Tally {
            goals: 0,
            backs: 0,
            answers: 0,
            cuts: 0,
        }
    }

    pub fn count(&mut self, note: Note<'_>)
        ensures { counts_of self.new ≡ count (counts_of self.old) (event_of note.entry) }
    {
        match note {
            Note::Goal(_) => self.goals = self.goals.saturating_add(1),
            Note::Back => self.backs = self.backs.saturating_add(1),
            Note::Answer(_) => self.answers = self.answers.saturating_add(1),
            Note::Cut => self.cuts = self.cuts.saturating_add(1),
        }
    }
}

/// Appends a word and a number.
pub fn add_count(out: &mut Vec<u8>, word: &str, n: u64) -> Result<(), Memory>
    ensures { OnOk result (out.new.items ≡ out.old.items ++ word.now ++ decimal n) }
{
    let mut buffer = Buffer::new();
    out.extend_from_slice(word.as_bytes())?;
    out.extend_from_slice(buffer.format(n).as_bytes())?;
    Ok(())
}
