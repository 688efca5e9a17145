// The session.
ghost use Rattle.std.specs.Prelude.{◌≡◌, ◌+◌, ◌^◌, ◌<◌, ◌≤◌, suc, length, List, map, Err, IfOk, IfErr, IsErrOf};
ghost use Rattle.lp_base.specs.Counts.{Counts};
ghost use Rattle.lp_base.specs.Written.{Appends, AppendsPrefix};
ghost use Rattle.lp_session.specs.Form.{piece};
ghost use Rattle.lp_session.specs.Replies.{Same};
ghost use Rattle.lp_session.specs.declared.form.Form.TheVariants.{Printed};
ghost use Rattle.lp_session.specs.Served.{HasForm, IsPlain, column_at, refused, Says, Replied, Turned, names_at, IsSession, IsBrokenOff};

use crate::form::{Form, form_of, names_of, piece, query_of};
use crate::lines::{first_line, is_blank};
use crate::replies::{Replies, Reply, ReplyRefusal};
use crate::said::{query_line, summary_line, undeclared_line, unexpected_line};
use lp_base::{Memory, Sink};
use lp_lexer::{LexFault, Token, end_place, tokens};
use std::alloc::Global;

/// What a session came to: how many queries there were, and how many answers were written.
#[derive(Clone, Copy, Debug, PartialEq, Eq)]
pub struct Summary {
    pub queries: u64,
    /// At most the greatest number of 64 bits.
    pub answers: u64,
}

/// Why a session ended before its last line.
#[derive(Clone, Copy, Debug, PartialEq, Eq)]
pub enum SessionRefusal {
    /// A piece could not be written. What was written is a prefix of the session.
    Write,
    /// What was written is a prefix of the session that ends with a whole line.
    Memory,
}

impl From<Memory> for SessionRefusal {
    ghost use Rattle.std.specs.Prelude.{◌≡◌};
    ghost use Rattle.lp_session.specs.declared.serving.SessionRefusal.TheVariants.{Memory};

    ghost from_gives = { λ _ e. e ≡ Memory };

    fn from(_: Memory) -> SessionRefusal {
        SessionRefusal::Memory
    }
}

// The refusal of a reply is that of the session.
fn refused(refusal: ReplyRefusal) -> SessionRefusal
    ensures { result ≡ refused refusal }
{
    match refusal {
        ReplyRefusal::Write => SessionRefusal::Write,
        ReplyRefusal::Memory => SessionRefusal::Memory,
    }
}

fn put<K: Sink>(out: &mut K, piece: &[u8]) -> Result<(), SessionRefusal>
    ensures appended { IfOk result (λ _. Appends (K.written out.old) (K.written out.new) piece.now) }
    ensures prefix { IfErr result (λ e. (e ≡ SessionRefusal.Write) × AppendsPrefix (K.written out.old) (K.written out.new) piece.now) }
    ensures faults { Counts (result ≡ Err SessionRefusal.Write) (K.faults out.old) (K.faults out.new) }
{
    match out.put(piece) {
        Ok(()) => Ok(()),
        Err(_) => Err(SessionRefusal::Write),
    }
}

// Writes a reply that has no answers.
fn put_refusal<K: Sink>(out: &mut K, piece: &[u8]) -> Result<u64, SessionRefusal>
    ensures said { Says piece.now (K.written out.old) (K.written out.new) result }
    ensures faults { Counts (result ≡ Err SessionRefusal.Write) (K.faults out.old) (K.faults out.new) }
{
    match out.put(piece) {
        Ok(()) => Ok(0),
        Err(_) => Err(SessionRefusal::Write),
    }
}

// The column of a byte, from 1.
fn column_at(line: &[u8], at: usize) -> u64
    ensures { result ≡ column_at line.now at }
{
    end_place(piece(line, 0, at)).column
}

// The reply to a line that is a query as it stands.
fn reply_plain<R: Replies, K: Sink>(
    alloc: Global,
    replies: &mut R,
    line: &[u8],
    out: &mut K,
) -> Result<u64, SessionRefusal>
    requires { IsPlain line.now }
    ensures replied { Replied (R.meaning replies.old) line.now (K.written out.old) (K.written out.new) result }
    ensures faults { Counts (result ≡ Err SessionRefusal.Write) (K.faults out.old) (K.faults out.new) }
    ensures same { Same (R.meaning replies.old) (R.meaning replies.new) }
{
    match replies.reply(alloc, line, None, out) {
        Ok(Reply::Written(answers)) => Ok(answers),
        Ok(Reply::NotThere(_)) => unreachable!(),
        Err(refusal) => Err(refused(refusal)),
    }
}

// The reply to a line that shows some variables.
fn reply_printed<R: Replies, K: Sink>(
    alloc: Global,
    replies: &mut R,
    line: &[u8],
    tokens: &[Token],
    dot: usize,
    to: usize,
    out: &mut K,
) -> Result<u64, SessionRefusal>
    requires form { HasForm line.now (Printed dot to) tokens.now }
    requires dot { 1 < dot }
    requires within { dot < length tokens.now }
    ensures replied { Replied (R.meaning replies.old) line.now (K.written out.old) (K.written out.new) result }
    ensures faults { Counts (result ≡ Err SessionRefusal.Write) (K.faults out.old) (K.faults out.new) }
    ensures same { Same (R.meaning replies.old) (R.meaning replies.new) }
{
    let names = &tokens[1..dot];
    let shown = names_of(alloc, line, names)?;
    let query = query_of(alloc, line, to)?;
    match replies.reply(alloc, query.as_slice(), Some(shown.as_slice()), out) {
        Ok(Reply::Written(answers)) => Ok(answers),
        Ok(Reply::NotThere(number)) => {
            let name = names[number as usize];
            let text = undeclared_line(
                alloc,
                column_at(line, name.from),
                piece(line, name.from, name.to),
            )?;
            put_refusal(out, text.as_slice())
        }
        Err(refusal) => Err(refused(refusal)),
    }
}

// The reply to a line.
fn reply<R: Replies, K: Sink>(
    alloc: Global,
    replies: &mut R,
    line: &[u8],
    out: &mut K,
) -> Result<u64, SessionRefusal>
    ensures replied { Replied (R.meaning replies.old) line.now (K.written out.old) (K.written out.new) result }
    ensures faults { Counts (result ≡ Err SessionRefusal.Write) (K.faults out.old) (K.faults out.new) }
    ensures same { Same (R.meaning replies.old) (R.meaning replies.new) }
{
    let tokens = match tokens(alloc, line) {
        Ok(tokens) => tokens,
        Err(LexFault::Memory) => return Err(SessionRefusal::Memory),
        Err(_) => return reply_plain(alloc, replies, line, out),
    };
    match form_of(line, tokens.as_slice()) {
        Form::Plain => reply_plain(alloc, replies, line, out),
        Form::Printed(dot, to) => reply_printed(
            alloc,
            replies,
            line,
            tokens.as_slice(),
            dot,
            to,
            out,
        ),
        Form::Unfit(at) => {
            let text = unexpected_line(alloc, column_at(line, at))?;
            put_refusal(out, text.as_slice())
        }
    }
}

// What is written for a line.
fn turn<R: Replies, K: Sink>(
    alloc: Global,
    replies: &mut R,
    line: &[u8],
    summary: &mut Summary,
    out: &mut K,
) -> Result<(), SessionRefusal>
    requires queries { summary.old.queries + 1 < 2 ^ 64 }
    requires answers { summary.old.answers < 2 ^ 64 }
    ensures turned { Turned (R.meaning replies.old) line.now summary.old summary.new (K.written out.old) (K.written out.new) result }
    ensures queries { summary.new.queries ≤ summary.old.queries + 1 }
    ensures answers { summary.new.answers < 2 ^ 64 }
    ensures faults { Counts (result ≡ Err SessionRefusal.Write) (K.faults out.old) (K.faults out.new) }
    ensures same { Same (R.meaning replies.old) (R.meaning replies.new) }
{
    if is_blank(line) {
        return Ok(());
    }
    let text = query_line(alloc, summary.queries + 1)?;
    put(out, text.as_slice())?;
    let answers = reply(alloc, replies, line, out)?;
    summary.queries += 1;
    summary.answers = summary.answers.saturating_add(answers);
    Ok(())
}

/// Writes `query K` and the reply for each line of a text that is not blank, and at the end how many queries and answers there were. A line
/// `print`, names, a dot and a query shows these variables of the query alone.
///
/// # Errors
/// `Write` where a piece could not be written, and what is written is a prefix of what would have been; `Memory`, and whole lines are written.
pub fn serve<R: Replies, K: Sink>(
    alloc: Global,
    replies: &mut R,
    lines: &[u8],
    out: &mut K,
) -> Result<Summary, SessionRefusal>
    ensures served { IfOk result (IsSession (R.meaning replies.old) lines.now (K.written out.old) (K.written out.new)) }
    ensures refused { IfErr result (IsBrokenOff (R.meaning replies.old) lines.now (K.written out.old) (K.written out.new)) }
    ensures faults { Counts (result ≡ Err SessionRefusal.Write) (K.faults out.old) (K.faults out.new) }
    ensures same { Same (R.meaning replies.old) (R.meaning replies.new) }
{
    let mut summary = Summary {
        queries: 0,
        answers: 0,
    };
    let mut rest = Some(lines);
    'lines: while let Some(text) = rest {
        let (line, behind) = first_line(text);
        turn(alloc, replies, line, &mut summary, out)?;
        rest = behind;
    }
    let text = summary_line(alloc, summary.queries, summary.answers)?;
    put(out, text.as_slice())?;
    Ok(summary)
}
