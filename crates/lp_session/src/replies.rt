// What replies to a query.
ghost use Rattle.std.specs.Prelude.{◌≡◌, map, option_map, Err, IfOk, IfErr};
ghost use Rattle.lp_base.specs.Counts.{Counts};
ghost use Rattle.lp_session.specs.Replies.{Meaning, IsReplied, IsBroken, Same};

use lp_base::Sink;
use std::alloc::Global;

/// How a query was replied to.
#[derive(Clone, Copy, Debug, PartialEq, Eq)]
pub enum Reply {
    /// The reply was written. It has so many answers.
    Written(u64),
    /// The name of this number, from 0, among those to be shown is no variable of the query, and nothing was written.
    NotThere(u32),
}

/// Why a reply was not written whole.
#[derive(Clone, Copy, Debug, PartialEq, Eq)]
pub enum ReplyRefusal {
    /// A piece could not be written. What was written is a prefix of a reply.
    Write,
    /// What was written are whole lines at the beginning of a reply.
    Memory,
}

/// What replies to queries, each by itself: no query changes the replies to others.
pub trait Replies {
    /// Which replies a query text may have, with how many answers, where these names of its variables are shown, or all of them where there are no names;
    /// which of them say why it is refused; and which of the names is no variable of it.
    ghost meaning: { Self → Meaning };

    /// Writes the reply to a query. Of its variables these names alone are shown, where there are names; `NotThere` comes exactly where one of them lacks, behind
    /// what the query itself is refused for.
    fn reply<K: Sink>(
        &mut self,
        alloc: Global,
        query: &[u8],
        shown: Option<&[Vec<u8>]>,
        out: &mut K,
    ) -> Result<Reply, ReplyRefusal>
        ensures replied { IfOk result (IsReplied (meaning self.old) query.now (option_map (λ names. map (λ n. n.items) names.now) shown.entry) (K.written out.old) (K.written out.new)) }
        ensures broken { IfErr result (IsBroken (meaning self.old) query.now (option_map (λ names. map (λ n. n.items) names.now) shown.entry) (K.written out.old) (K.written out.new)) }
        ensures faults { Counts (result ≡ Err ReplyRefusal.Write) (K.faults out.old) (K.faults out.new) }
        ensures same { Same (meaning self.old) (meaning self.new) };
}
