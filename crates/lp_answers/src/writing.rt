// The writing of answers.
ghost use Rattle.std.specs.Prelude.{◌≡◌, ℕ, suc, ◌<◌, ◌^◌, List, length, map, flat_map, Err, IfOk, IfErr, IsErr, IsErrOf, OnOk, OnErr};
ghost use Rattle.lp_base.specs.Counts.{Counts};
ghost use Rattle.lp_base.specs.Written.{Appends, AppendsPrefix};
ghost use Rattle.lp_watch.specs.Crowd.{places, reports};
ghost use Rattle.lp_show.specs.Glossary.{entries_of};
ghost use Rattle.lp_answers.specs.Pieces.{IsPiece};
ghost use Rattle.lp_answers.specs.Texts.{names_in, last_text, WroteAll, MayReport, reports_in, Stopping};

use crate::searching::Searching;
use crate::shown::Shown;
use crate::stopped::{Stopped, Written};
use lp_base::{Memory, Sink};
use lp_model::{Ending, Event};
use lp_show::ending;
use lp_term::TermRefusal;
use lp_watch::{Crowd, Watch};
use std::alloc::Global;

// The lines of the next answer, or how the search ended.
#[derive(Drop)]
enum Piece {
    Answer(Vec<u8>),
    Over(Ending),
}

// What the search tells next. An answer with a term that is too deep to be shown ends it.
fn next_piece<W: Watch, S: Searching<W>>(
    alloc: Global,
    search: &mut S,
    shown: &Shown<'_>,
    crowd: &mut Crowd<'_, W>,
    number: u64,
) -> Result<Piece, Memory>
    requires { S.variables search.old ≡ length shown.now.names.items }
    ensures variables { S.variables search.new ≡ S.variables search.old }
    ensures piece { IfOk result (IsPiece (entries_of shown.now.glossary.now.entries.items) (names_in shown.now.names.items) number) }
{
    match search.next(crowd)? {
        Event::Ended(why) => Ok(Piece::Over(why)),
        Event::Answer(mut answer) => match shown.answer(alloc, number, &mut answer) {
            Ok(lines) => Ok(Piece::Answer(lines)),
            Err(TermRefusal::Deep(_)) => Ok(Piece::Over(Ending::Deep)),
            Err(TermRefusal::Memory) => Err(Memory),
        },
    }
}

// The reports of those who watch.
fn reports_of<W: Watch>(
    alloc: Global,
    watched: bool,
    crowd: &Crowd<'_, W>,
) -> Result<Vec<u8>, Memory>
    ensures { IfOk result (λ text. text.items ≡ reports_in watched (reports (places crowd.now.texts.items (map W.seen crowd.now.watchers.now.items)))) }
{
    if watched {
        crowd.reports()
    } else {
        Ok(Vec::new(alloc))
    }
}

// The last line, and behind it the reports.
fn text_of_end<W: Watch>(
    alloc: Global,
    why: Ending,
    watched: bool,
    crowd: &Crowd<'_, W>,
) -> Result<Vec<u8>, Memory>
    ensures { IfOk result (λ text. text.items ≡ last_text why (reports_in watched (reports (places crowd.now.texts.items (map W.seen crowd.now.watchers.now.items))))) }
{
    let mut text = ending(why).as_bytes().to_vec(alloc)?;
    text.extend_from_slice(b"\n")?;
    text.extend_from_slice(&reports_of(alloc, watched, crowd)?)?;
    Ok(text)
}

fn put<K: Sink>(out: &mut K, piece: &[u8]) -> Result<(), Stopped>
    ensures appended { OnOk result (Appends (K.written out.old) (K.written out.new) piece.now) }
    ensures prefix { OnErr result (AppendsPrefix (K.written out.old) (K.written out.new) piece.now) }
    ensures refused { IfErr result (λ e. e ≡ Stopped.Write) }
    ensures faults { Counts (IsErr result) (K.faults out.old) (K.faults out.new) }
{
    match out.put(piece) {
        Ok(()) => Ok(()),
        Err(_) => Err(Stopped::Write),
    }
}

// Writes how the search ended, behind so many answers.
fn write_end<K: Sink, W: Watch>(
    alloc: Global,
    why: Ending,
    answers: u64,
    watched: bool,
    crowd: &Crowd<'_, W>,
    out: &mut K,
) -> Result<Written, Stopped>
    ensures written { IfOk result (λ w. (w.answers ≡ answers) × Appends (K.written out.old) (K.written out.new) (last_text w.ending (reports_in watched (reports (places crowd.now.texts.items (map W.seen crowd.now.watchers.now.items)))))) }
    ensures memory { IsErrOf result Stopped.Memory → out.new ≡ out.old }
    ensures cut { IsErrOf result Stopped.Write → AppendsPrefix (K.written out.old) (K.written out.new) (last_text why (reports_in watched (reports (places crowd.now.texts.items (map W.seen crowd.now.watchers.now.items))))) }
    ensures faults { Counts (result ≡ Err Stopped.Write) (K.faults out.old) (K.faults out.new) }
{
    let text = text_of_end(alloc, why, watched, crowd)?;
    put(out, &text)?;
    Ok(Written {
        ending: why,
        answers,
    })
}

/// Writes each answer of a search as it is found, in one piece, and at the end its last line, where it is watched with the reports of the watchers.
/// The search gives at most so many answers.
///
/// # Errors
/// `Write` where a piece could not be written, and what is written is a prefix of what would have been; `Memory`, and whole answers are written.
pub fn write_answers<K: Sink, W: Watch, S: Searching<W>>(
    alloc: Global,
    search: &mut S,
    answers: u64,
    shown: &Shown<'_>,
    watched: bool,
    crowd: &mut Crowd<'_, W>,
    out: &mut K,
) -> Result<Written, Stopped>
    requires { S.variables search.old ≡ length shown.now.names.items }
    ensures written { IfOk result (WroteAll (entries_of shown.now.glossary.now.entries.items) (names_in shown.now.names.items) answers (reports_in watched (reports (places crowd.new.texts.items (map W.seen crowd.new.watchers.now.items)))) (K.written out.old) (K.written out.new)) }
    ensures stopped { IfErr result (Stopping (entries_of shown.now.glossary.now.entries.items) (names_in shown.now.names.items) (MayReport watched) answers (K.written out.old) (K.written out.new)) }
    ensures faults { Counts (result ≡ Err Stopped.Write) (K.faults out.old) (K.faults out.new) }
{
    'answers: for before in 0..answers {
        match next_piece(alloc, search, shown, crowd, before + 1)? {
            Piece::Over(why) => return write_end(alloc, why, before, watched, crowd, out),
            Piece::Answer(lines) => put(out, &lines)?,
        }
    }
    write_end(alloc, Ending::Enough, answers, watched, crowd, out)
}
