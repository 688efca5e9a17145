// The answers of a query within its limits, watched or not.
ghost use Rattle.std.specs.Prelude.{◌≡◌, ◌≢◌, None, false, map, true};
ghost use Rattle.lp_lines.specs.Ends.{KeepsFiles, Ran};
ghost use Rattle.lp_load.specs.Placed.{WritesPlaced};
ghost use Rattle.lp_solve.specs.Reported.{watching};
ghost use Rattle.lp_solve.specs.Solved.{BeginsSolved, WritesSolved};
ghost use Rattle.lp_solve.specs.Watched.{Watches};

use crate::answers::solve;
use crate::prepare::Question;
use lp_base::{Folder, Sink, Status};
use lp_watch::{Counter, Watch};
use std::alloc::Global;

// Answers a query that nobody watches.
fn solve_unwatched<F: Folder, K: Sink>(
    alloc: Global,
    question: Question<'_>,
    folder: &mut F,
    out: &mut K,
) -> Status
    ensures writes { result ≢ Status.WriteFault → WritesSolved (F.held folder.old) question.entry.name.now question.entry.query.now None question.entry.steps question.entry.answers result (K.written out.old) (K.written out.new) }
    ensures begins { result ≡ Status.WriteFault → BeginsSolved (F.held folder.old) question.entry.name.now question.entry.query.now None question.entry.steps question.entry.answers (K.written out.old) (K.written out.new) }
    ensures ran { Ran F.read_faults F.misses F.overs K.written folder.old folder.new out.old out.new result }
    ensures keeps { KeepsFiles F.write_faults F.held K.faults folder.old folder.new out.old out.new result }
    ensures placed { result ≡ Status.Source → WritesPlaced (F.held folder.old) question.entry.query.now (K.written out.old) (K.written out.new) }
{
    let mut nobody: Vec<Counter> = Vec::new(alloc);
    solve(alloc, question, false, folder, out, &mut nobody)
}

/// Answers a query within its limits. The watchers have the notes of the search where `watch` says so, and else nobody has.
pub fn solve_within<F: Folder, K: Sink, W: Watch>(
    alloc: Global,
    question: Question<'_>,
    watch: bool,
    folder: &mut F,
    out: &mut K,
    watchers: &mut Vec<W>,
) -> Status
    ensures writes { result ≢ Status.WriteFault → WritesSolved (F.held folder.old) question.entry.name.now question.entry.query.now (watching watch (map W.seen watchers.old.items)) question.entry.steps question.entry.answers result (K.written out.old) (K.written out.new) }
    ensures begins { result ≡ Status.WriteFault → BeginsSolved (F.held folder.old) question.entry.name.now question.entry.query.now (watching watch (map W.seen watchers.old.items)) question.entry.steps question.entry.answers (K.written out.old) (K.written out.new) }
    ensures ran { Ran F.read_faults F.misses F.overs K.written folder.old folder.new out.old out.new result }
    ensures keeps { KeepsFiles F.write_faults F.held K.faults folder.old folder.new out.old out.new result }
    ensures placed { result ≡ Status.Source → WritesPlaced (F.held folder.old) question.entry.query.now (K.written out.old) (K.written out.new) }
    ensures watched { watch ≡ true → Watches (F.held folder.old) question.entry.name.now question.entry.query.now question.entry.steps question.entry.answers result (map W.seen watchers.old.items) (map W.seen watchers.new.items) }
    ensures silent { watch ≡ false → watchers.new ≡ watchers.old }
{
    if watch {
        solve(alloc, question, true, folder, out, watchers)
    } else {
        solve_unwatched(alloc, question, folder, out)
    }
}
