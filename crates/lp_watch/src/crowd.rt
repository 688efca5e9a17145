// All watchers of a run, over a list that was lent.
ghost use Rattle.std.specs.Prelude.{◌≡◌, ◌≤◌, ◌<◌, ◌++◌, ℕ, [], None, Some, set, remove, IfOk, OnOk, OnErr, map, length, replicate};
ghost use Rattle.std.specs.List.{flat_map};
ghost use Rattle.lp_watch.specs.Crowd.{crowd_after, ReachesPart, places, open_places, reports};
ghost use Rattle.lp_watch.specs.Notes.{event_of};
ghost use Rattle.lp_watch.specs.Reports.{report_of};

use crate::{Go, Note, Watch};
use lp_base::Memory;
use std::alloc::Global;

/// Watchers over a lent list, and what is kept of those that are gone.
pub struct Lent<'a, W, T> {
    watchers: &'a mut Vec<W>,
    texts: T,
    alloc: Global,
}

/// All watchers of a run. Each note goes to each watcher in list order. One that answers `Done`
/// is removed from the lent list and dropped at once; its text is kept and stands in its place in
/// the reports.
pub type Crowd<'a, W> = Lent<'a, W, Vec<Option<Vec<u8>>>>;

// How many places have a watcher by the kept texts.
fn count_open(texts: &[Option<Vec<u8>>]) -> usize
    ensures { result ≡ open_places texts.now }
{
    let mut open = 0;
    for text in texts {
        if text.is_some() {
            continue;
        }
        open += 1;
    }
    open
}

// Makes a place for each of so many watchers.
fn make_places(texts: &mut Vec<Option<Vec<u8>>>, watchers: usize) -> Result<(), Memory>
    ensures more { (n : ℕ) × (texts.new.items ≡ texts.old.items ++ replicate n None) }
    ensures enough { OnOk result (watchers ≤ open_places texts.new.items) }
{
    let open = count_open(texts);
    for _ in open..watchers {
        texts.push(None)?;
    }
    Ok(())
}

// Drops a watcher that is done, and puts its text into its place.
fn dismiss<W: Drop>(
    watchers: &mut Vec<W>,
    i: usize,
    texts: &mut Vec<Option<Vec<u8>>>,
    place: usize,
    text: Vec<u8>,
)
    requires watcher { i < length watchers.old.items }
    requires place { place < length texts.old.items }
    ensures watchers { watchers.new.items ≡ remove watchers.old.items i }
    ensures texts { texts.new.items ≡ set texts.old.items place (Some text) }
{
    watchers.remove(i);
    texts[place] = Some(text);
}

// One note to each watcher, by the places of the watchers.
fn tell_places<W: Watch>(
    alloc: Global,
    watchers: &mut Vec<W>,
    texts: &mut Vec<Option<Vec<u8>>>,
    note: Note<'_>,
) -> Result<(), Memory>
    requires { length watchers.old.items ≤ open_places texts.old.items }
    ensures told { OnOk result (places texts.new.items (map W.seen watchers.new.items) ≡ crowd_after (event_of note.entry) (places texts.old.items (map W.seen watchers.old.items))) }
    ensures memory { OnErr result (ReachesPart (event_of note.entry) (places texts.old.items (map W.seen watchers.old.items)) (places texts.new.items (map W.seen watchers.new.items))) }
{
    let mut i = 0;
    for place in 0..texts.len() {
        if texts[place].is_some() {
            continue;
        }
        if i == watchers.len() {
            return Ok(());
        }
        if watchers[i].note(note)? == Go::On {
            i += 1;
            continue;
        }
        let text = watchers[i].text(alloc)?;
        dismiss(watchers, i, texts, place, text);
    }
    Ok(())
}

// Appends the reports of these watchers.
fn add_reports<W: Watch>(alloc: Global, out: &mut Vec<u8>, watchers: &[W]) -> Result<(), Memory>
    ensures { OnOk result (out.new.items ≡ out.old.items ++ flat_map (λ w. report_of (W.seen w)) watchers.now) }
{
    for watcher in watchers {
        out.extend_from_slice(watcher.text(alloc)?.as_slice())?;
    }
    Ok(())
}

// Appends what stands at all places.
fn add_places<W: Watch>(
    alloc: Global,
    out: &mut Vec<u8>,
    texts: &[Option<Vec<u8>>],
    watchers: &[W],
) -> Result<(), Memory>
    ensures { OnOk result (out.new.items ≡ out.old.items ++ reports (places texts.now (map W.seen watchers.now))) }
{
    let mut i = 0;
    for text in texts {
        match text {
            Some(text) => out.extend_from_slice(text)?,
            None if i < watchers.len() => {
                out.extend_from_slice(watchers[i].text(alloc)?.as_slice())?;
                i += 1;
            }
            None => {}
        }
    }
    add_reports(alloc, out, &watchers[i..])
}

impl<'a, W: Watch> Lent<'a, W, Vec<Option<Vec<u8>>>> {
    /// A crowd of these watchers. It takes no memory.
    pub fn new(alloc: Global, watchers: &'a mut Vec<W>) -> Crowd<'a, W>
        ensures same_reference { result.watchers.ghost_name ≡ watchers.entry.ghost_name }
        ensures same { result.watchers.now ≡ watchers.old }
        ensures texts { result.texts.items ≡ [] }
    {
        Lent {
            watchers,
            texts: Vec::new(alloc),
            alloc,
        }
    }

    /// A crowd without watchers, over an empty list. Nobody hears what it is told.
    pub fn silent(alloc: Global, nobody: &'a mut Vec<W>) -> Crowd<'a, W>
        requires { nobody.old.items ≡ [] }
        ensures same_reference { result.watchers.ghost_name ≡ nobody.entry.ghost_name }
        ensures same { result.watchers.now ≡ nobody.old }
        ensures texts { result.texts.items ≡ [] }
    {
        Crowd::new(alloc, nobody)
    }

    /// Gives a note to each watcher.
    pub fn tell(&mut self, note: Note<'_>) -> Result<(), Memory>
        ensures same_reference { self.new.watchers.ghost_name ≡ self.old.watchers.ghost_name }
        ensures told { OnOk result (places self.new.texts.items (map W.seen self.new.watchers.now.items) ≡ crowd_after (event_of note.entry) (places self.old.texts.items (map W.seen self.old.watchers.now.items))) }
        ensures memory { OnErr result (ReachesPart (event_of note.entry) (places self.old.texts.items (map W.seen self.old.watchers.now.items)) (places self.new.texts.items (map W.seen self.new.watchers.now.items))) }
    {
        make_places(&mut self.texts, self.watchers.len())?;
        tell_places(self.alloc, self.watchers, &mut self.texts, note)
    }

    /// The reports in list order. Where a watcher is gone, the text that it left stands.
    pub fn reports(&self) -> Result<Vec<u8>, Memory>
        ensures { IfOk result (λ bytes. bytes.items ≡ reports (places self.now.texts.items (map W.seen self.now.watchers.now.items))) }
    {
        let mut out = Vec::new(self.alloc);
        add_places(self.alloc, &mut out, &self.texts, self.watchers)?;
        Ok(out)
    }
}

impl<W, T: Drop> Drop for Lent<'_, W, T> {
    fn drop(self)
        ensures { self.exit.0.now ≡ self.entry.watchers.now }
    {
        let Lent {
            watchers: _watchers,
            texts: _texts,
            alloc: _alloc,
        } = self;
    }
}
