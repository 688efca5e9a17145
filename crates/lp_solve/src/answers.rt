// The search of a query, and the writing of its answers.
ghost use Rattle.std.specs.Prelude.{◌≡◌, ◌≢◌, ◌++◌, ℕ, List, length, map, true, IfOk};
ghost use Rattle.lp_base.specs.Counts.{Counts};
ghost use Rattle.lp_watch.specs.Crowd.{Place, places};
ghost use Rattle.lp_lines.specs.Ends.{KeepsFiles, Ran};
ghost use Rattle.lp_lines.specs.Lines.{ending_line, is_of_search};
ghost use Rattle.lp_model.specs.declared.ending.Ending.TheVariants.{Deep};
ghost use Rattle.lp_load.specs.Placed.{WritesPlaced};
ghost use Rattle.lp_plain.specs.Held.{variables_of};
ghost use Rattle.lp_solve.specs.Prepared.{IsPrepared};
ghost use Rattle.lp_solve.specs.Shown.{constants_in, names_in};
ghost use Rattle.lp_solve.specs.Reported.{watching};
ghost use Rattle.lp_solve.specs.Solved.{BeginsSolved, WritesSolved};
ghost use Rattle.lp_solve.specs.Watched.{Watches, ended_itself};
ghost use Rattle.lp_solve.specs.inner.Events.{Ends, IsPiece};
ghost use Rattle.lp_solve.specs.inner.Heard.{ComesTo, HeardPiece, HearsSoFar, IsNext, IsReport, IsReported, IsWatched, IsWatchedSoFar};
ghost use Rattle.lp_solve.specs.inner.Searched.{BeginsLast, BeginsSearch, IsRun, WritesLast, WritesSearch};

use crate::piece::Piece;
use crate::prepare::{Prepared, Question, prepare};
use crate::shown::Shown;
use lp_base::{Folder, Memory, Sink, Status};
use lp_lines::{Refusal, ending, refuse, status, tell};
use lp_model::{Ending, Event};
use lp_plain::Search;
use lp_term::TermRefusal;
use lp_watch::{Crowd, Watch};
use std::alloc::Global;

// The next event of a search.
fn next_event<W: Watch>(search: &mut Search, crowd: &mut Crowd<'_, W>) -> Result<Event, Memory>
    ensures part { HearsSoFar search.old (places crowd.old.texts.items (map W.seen crowd.old.watchers.now.items)) (places crowd.new.texts.items (map W.seen crowd.new.watchers.now.items)) }
    ensures next { IfOk result (λ event. IsNext search.old event search.new (places crowd.old.texts.items (map W.seen crowd.old.watchers.now.items)) (places crowd.new.texts.items (map W.seen crowd.new.watchers.now.items))) }
    ensures same { crowd.new.watchers.ghost_name ≡ crowd.old.watchers.ghost_name }
{
    search.next(crowd)
}

// What the search tells next, which is the answer of this number where it is one.
fn next_piece<W: Watch>(
    alloc: Global,
    shown: &Shown,
    search: &mut Search,
    crowd: &mut Crowd<'_, W>,
    number: u64,
) -> Result<Piece, Memory>
    requires { variables_of search.old ≡ length shown.now.names.items }
    ensures piece { IfOk result (λ piece. IsPiece (constants_in shown.now) (names_in shown.now) number search.old piece search.new) }
    ensures part { HearsSoFar search.old (places crowd.old.texts.items (map W.seen crowd.old.watchers.now.items)) (places crowd.new.texts.items (map W.seen crowd.new.watchers.now.items)) }
    ensures heard { IfOk result (λ piece. HeardPiece search.old piece search.new (places crowd.old.texts.items (map W.seen crowd.old.watchers.now.items)) (places crowd.new.texts.items (map W.seen crowd.new.watchers.now.items))) }
    ensures same { crowd.new.watchers.ghost_name ≡ crowd.old.watchers.ghost_name }
{
    match next_event(search, crowd)? {
        Event::Ended(why) => Ok(Piece::Over(why)),
        Event::Answer(mut answer) => match shown.answer(alloc, number, &mut answer) {
            Ok(lines) => Ok(Piece::Answer(lines)),
            Err(TermRefusal::Deep(_)) => Ok(Piece::Over(Ending::Deep)),
            Err(TermRefusal::Memory) => Err(Memory),
        },
    }
}

// The reports of those who watch.
fn reports_of<W: Watch>(
    alloc: Global,
    watched: bool,
    crowd: &Crowd<'_, W>,
) -> Result<Vec<u8>, Memory>
    ensures { IfOk result (λ text. IsReport watched (places crowd.now.texts.items (map W.seen crowd.now.watchers.now.items)) text.items) }
{
    if watched {
        crowd.reports()
    } else {
        Ok(Vec::new(alloc))
    }
}

// The last line, and behind it the reports.
fn last_text<W: Watch>(
    alloc: Global,
    why: Ending,
    watched: bool,
    crowd: &Crowd<'_, W>,
) -> Result<Vec<u8>, Memory>
    ensures { IfOk result (λ text. (reports : List ℕ) × IsReport watched (places crowd.now.texts.items (map W.seen crowd.now.watchers.now.items)) reports × (text.items ≡ ending_line why ++ reports)) }
{
    let mut text = ending(why).as_bytes().to_vec(alloc)?;
    let reports = reports_of(alloc, watched, crowd)?;
    text.extend_from_slice(&reports)?;
    Ok(text)
}

// Writes how a search ended.
fn write_end<K: Sink, W: Watch>(
    alloc: Global,
    why: Ending,
    watched: bool,
    crowd: &Crowd<'_, W>,
    out: &mut K,
) -> Status
    ensures writes { (ns : List (List ℕ)) (s first : Search) (before : List Place) → Ends ns s why → ComesTo first before (places crowd.now.texts.items (map W.seen crowd.now.watchers.now.items)) why → result ≢ Status.WriteFault → WritesLast ns (IsReported watched first before (places crowd.now.texts.items (map W.seen crowd.now.watchers.now.items))) s result (K.written out.old) (K.written out.new) }
    ensures begins { (ns : List (List ℕ)) (s first : Search) (before : List Place) → Ends ns s why → ComesTo first before (places crowd.now.texts.items (map W.seen crowd.now.watchers.now.items)) why → result ≡ Status.WriteFault → BeginsLast ns (IsReported watched first before (places crowd.now.texts.items (map W.seen crowd.now.watchers.now.items))) s (K.written out.old) (K.written out.new) }
    ensures of_search { result ≢ Status.WriteFault → is_of_search result ≡ true }
    ensures other { ended_itself result ≡ true → why ≢ Deep }
    ensures write_faults { Counts (result ≡ Status.WriteFault) (K.faults out.old) (K.faults out.new) }
{
    match last_text(alloc, why, watched, crowd) {
        Ok(text) => refuse(out, text, status(why)),
        Err(Memory) => tell(out, Refusal::Memory),
    }
}

// Writes each answer as it is found, and then the last line.
fn write_answers<K: Sink, W: Watch>(
    alloc: Global,
    prepared: Prepared,
    watched: bool,
    crowd: &mut Crowd<'_, W>,
    out: &mut K,
) -> Status
    requires { IsPrepared prepared }
    ensures writes { result ≢ Status.WriteFault → WritesSearch (constants_in prepared.shown) (names_in prepared.shown) (IsReported watched prepared.search (places crowd.old.texts.items (map W.seen crowd.old.watchers.now.items)) (places crowd.new.texts.items (map W.seen crowd.new.watchers.now.items))) prepared.search result (K.written out.old) (K.written out.new) }
    ensures begins { result ≡ Status.WriteFault → BeginsSearch (constants_in prepared.shown) (names_in prepared.shown) (IsReported watched prepared.search (places crowd.old.texts.items (map W.seen crowd.old.watchers.now.items)) (places crowd.new.texts.items (map W.seen crowd.new.watchers.now.items))) prepared.search (K.written out.old) (K.written out.new) }
    ensures of_search { result ≢ Status.WriteFault → is_of_search result ≡ true }
    ensures part { IsWatchedSoFar prepared.search (places crowd.old.texts.items (map W.seen crowd.old.watchers.now.items)) (places crowd.new.texts.items (map W.seen crowd.new.watchers.now.items)) }
    ensures watched { ended_itself result ≡ true → IsWatched prepared.search (places crowd.old.texts.items (map W.seen crowd.old.watchers.now.items)) (places crowd.new.texts.items (map W.seen crowd.new.watchers.now.items)) }
    ensures same { crowd.new.watchers.ghost_name ≡ crowd.old.watchers.ghost_name }
    ensures write_faults { Counts (result ≡ Status.WriteFault) (K.faults out.old) (K.faults out.new) }
{
    let mut search = prepared.search;
    for before in 0..u64::MAX {
        match next_piece(alloc, &prepared.shown, &mut search, crowd, before + 1) {
            Err(Memory) => return tell(out, Refusal::Memory),
            Ok(Piece::Over(why)) => return write_end(alloc, why, watched, crowd, out),
            Ok(Piece::Answer(lines)) => match out.put(&lines) {
                Ok(()) => {}
                Err(_) => return Status::WriteFault,
            },
        }
    }
    tell(out, Refusal::Memory)
}

// The same, where these watch.
fn write_watched<K: Sink, W: Watch>(
    alloc: Global,
    prepared: Prepared,
    watched: bool,
    out: &mut K,
    watchers: &mut Vec<W>,
) -> Status
    requires { IsPrepared prepared }
    ensures run { IsRun (constants_in prepared.shown) (names_in prepared.shown) watched prepared.search result (map W.seen watchers.old.items) (map W.seen watchers.new.items) (K.written out.old) (K.written out.new) }
    ensures of_search { result ≢ Status.WriteFault → is_of_search result ≡ true }
    ensures write_faults { Counts (result ≡ Status.WriteFault) (K.faults out.old) (K.faults out.new) }
{
    let mut crowd = Crowd::new(alloc, watchers);
    write_answers(alloc, prepared, watched, &mut crowd, out)
}

/// Loads a module, searches for the answers of a query on it, and writes them, each as it is found. Behind the last line stand the reports of the
/// watchers, where they watch, who have each note of the search; one that is done is taken out of the list. Of a refusal its line is written.
pub fn solve<F: Folder, K: Sink, W: Watch>(
    alloc: Global,
    question: Question<'_>,
    watched: bool,
    folder: &mut F,
    out: &mut K,
    watchers: &mut Vec<W>,
) -> Status
    ensures writes { result ≢ Status.WriteFault → WritesSolved (F.held folder.old) question.entry.name.now question.entry.query.now (watching watched (map W.seen watchers.old.items)) question.entry.steps question.entry.answers result (K.written out.old) (K.written out.new) }
    ensures begins { result ≡ Status.WriteFault → BeginsSolved (F.held folder.old) question.entry.name.now question.entry.query.now (watching watched (map W.seen watchers.old.items)) question.entry.steps question.entry.answers (K.written out.old) (K.written out.new) }
    ensures ran { Ran F.read_faults F.misses F.overs K.written folder.old folder.new out.old out.new result }
    ensures keeps { KeepsFiles F.write_faults F.held K.faults folder.old folder.new out.old out.new result }
    ensures placed { result ≡ Status.Source → WritesPlaced (F.held folder.old) question.entry.query.now (K.written out.old) (K.written out.new) }
    ensures watched { Watches (F.held folder.old) question.entry.name.now question.entry.query.now question.entry.steps question.entry.answers result (map W.seen watchers.old.items) (map W.seen watchers.new.items) }
{
    let unknown = Vec::new(alloc);
    match prepare(alloc, question, unknown, folder) {
        Ok(prepared) => write_watched(alloc, prepared, watched, out, watchers),
        Err(refusal) => tell(out, refusal),
    }
}
