// The replies to the queries of a session.
ghost use Rattle.std.specs.Prelude.{◌≡◌, ℕ, List, map, None, Some, Err};
ghost use Rattle.lp_base.specs.Counts.{Counts};
ghost use Rattle.lp_query.specs.Faults.{IsAskRefusal};
ghost use Rattle.lp_query.specs.Outcomes.{entries_in, reader};
ghost use Rattle.lp_ask.specs.Allowed.{meaning_of, IsKind, PutsLine, PutRefused, Comes};

use crate::causes::cause_of;
use lp_base::Sink;
use lp_lines::{Refusal, query_refused};
use lp_query::{AskRefusal, Asker};
use lp_session::{Replies, Reply, ReplyRefusal};
use lp_watch::Counter;
use std::alloc::Global;

/// Answers queries on one image, each within these limits.
#[derive(Drop)]
pub(crate) struct Answering<'i> {
    pub asker: Asker<'i>,
    pub steps: u64,
    pub answers: u64,
}

/// Why a query has no whole reply: for its text, or for another cause.
#[derive(Clone, Copy)]
pub(crate) enum Broken {
    Write,
    Memory,
    Missing(u32),
    Text,
}

pub(crate) fn kind_of(refusal: AskRefusal) -> Broken
    ensures { IsKind refusal result }
{
    match refusal {
        AskRefusal::Lex(_) => Broken::Text,
        AskRefusal::Syntax(_) => Broken::Text,
        AskRefusal::Infer(_) => Broken::Text,
        AskRefusal::Form(_) => Broken::Text,
        AskRefusal::Limit(_) => Broken::Text,
        AskRefusal::Write => Broken::Write,
        AskRefusal::Memory => Broken::Memory,
        AskRefusal::NotThere(number) => Broken::Missing(number),
    }
}

// Writes a line of a refusal.
fn put_line<K: Sink>(line: &[u8], out: &mut K) -> Result<Reply, ReplyRefusal>
    ensures put { PutsLine line.now (K.written out.old) (K.written out.new) result }
    ensures faults { Counts (result ≡ Err ReplyRefusal.Write) (K.faults out.old) (K.faults out.new) }
{
    match out.put(line) {
        Ok(()) => Ok(Reply::Written(0)),
        Err(_) => Err(ReplyRefusal::Write),
    }
}

// Writes why a query is refused.
fn refuse<K: Sink>(
    alloc: Global,
    query: &[u8],
    refusal: AskRefusal,
    out: &mut K,
) -> Result<Reply, ReplyRefusal>
    requires { IsAskRefusal query.now refusal }
    ensures put { PutRefused query.now (K.written out.old) (K.written out.new) result }
    ensures faults { Counts (result ≡ Err ReplyRefusal.Write) (K.faults out.old) (K.faults out.new) }
{
    match query_refused(alloc, query, cause_of(refusal)) {
        Refusal::Line(_, line) => put_line(line.as_slice(), out),
        Refusal::Memory => Err(ReplyRefusal::Memory),
    }
}

impl<'i> Answering<'i> {
    // The reply to a query of which all variables are shown.
    fn reply_all<K: Sink>(
        &mut self,
        alloc: Global,
        query: &[u8],
        out: &mut K,
    ) -> Result<Reply, ReplyRefusal>
        ensures comes { Comes (meaning_of self.old) query.now None (K.written out.old) (K.written out.new) result }
        ensures faults { Counts (result ≡ Err ReplyRefusal.Write) (K.faults out.old) (K.faults out.new) }
        ensures entries { entries_in self.new.asker ≡ entries_in self.old.asker }
        ensures reader { reader self.new.asker ≡ reader self.old.asker }
    {
        let nobody: Option<&mut Vec<Counter>> = None;
        match self.asker.ask(query, self.steps, self.answers, nobody, out) {
            Ok(written) => Ok(Reply::Written(written.answers)),
            Err(refusal) => match kind_of(refusal) {
                Broken::Write => Err(ReplyRefusal::Write),
                Broken::Memory => Err(ReplyRefusal::Memory),
                Broken::Missing(_) => unreachable!(),
                Broken::Text => refuse(alloc, query, refusal, out),
            },
        }
    }

    // The reply to a query of which these variables are shown.
    fn reply_some<K: Sink>(
        &mut self,
        alloc: Global,
        query: &[u8],
        names: &[Vec<u8>],
        out: &mut K,
    ) -> Result<Reply, ReplyRefusal>
        ensures comes { Comes (meaning_of self.old) query.now (Some (map (λ n. n.items) names.now)) (K.written out.old) (K.written out.new) result }
        ensures faults { Counts (result ≡ Err ReplyRefusal.Write) (K.faults out.old) (K.faults out.new) }
        ensures entries { entries_in self.new.asker ≡ entries_in self.old.asker }
        ensures reader { reader self.new.asker ≡ reader self.old.asker }
    {
        match self
            .asker
            .ask_shown(query, names, self.steps, self.answers, out)
        {
            Ok(written) => Ok(Reply::Written(written.answers)),
            Err(refusal) => match kind_of(refusal) {
                Broken::Write => Err(ReplyRefusal::Write),
                Broken::Memory => Err(ReplyRefusal::Memory),
                Broken::Missing(number) => Ok(Reply::NotThere(number)),
                Broken::Text => refuse(alloc, query, refusal, out),
            },
        }
    }
}

impl<'i> Replies for Answering<'i> {
    ghost meaning = { meaning_of };

    fn reply<K: Sink>(
        &mut self,
        alloc: Global,
        query: &[u8],
        shown: Option<&[Vec<u8>]>,
        out: &mut K,
    ) -> Result<Reply, ReplyRefusal> {
        match shown {
            None => self.reply_all(alloc, query, out),
            Some(names) => self.reply_some(alloc, query, names, out),
        }
    }
}
