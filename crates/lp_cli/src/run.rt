// The top call.
ghost use Rattle.std.specs.Prelude.{◌≡◌, ◌≢◌, ◌+◌, ◌^◌, ◌<◌, ◌≤◌, ◌⊎◌, ◌++◌, ℕ, List, map, string_bytes, Some, true};
ghost use Rattle.std.specs.Option.{option_and_then};
ghost use Rattle.lp_base.specs.Counts.{HasRisen, Counts};
ghost use Rattle.lp_base.specs.Written.{Appends};
ghost use Rattle.lp_words.specs.Asked.{Asked as Asking, IsCommand, IsWatched, WritesNone, asked, asked_of, files as OnFiles, prove as Proving, query_on_texts, watches};
ghost use Rattle.lp_words.specs.declared.asked.FileCommand.{FileCommand};
ghost use Rattle.lp_words.specs.declared.asked.Options.{Options};
ghost use Rattle.lp_lines.specs.Ends.{Caused, CausedLong, Grows, IsFault};
ghost use Rattle.lp_judge.specs.Proved.{Proves};
ghost use Rattle.lp_lines.specs.Left.{Leaves};
ghost use Rattle.lp_load.specs.Placed.{WritesPlaced};
ghost use Rattle.lp_files.specs.Target.{done_line, ending_of};
ghost use Rattle.lp_cli.specs.Usage.{BeginsUsage, WritesUsage};
ghost use Rattle.lp_cli.specs.Does.{Does};
ghost use Rattle.lp_cli.specs.Fulfils.{Fulfils, answer_limit as answers_asked, step_limit as steps_asked};
ghost use Rattle.lp_cli.specs.Hears.{Hears};

use lp_ask::{query, session};
use lp_base::{DEFAULT_ANSWERS, DEFAULT_STEPS, Folder, Sink, Status};
use lp_files::write_file;
use lp_judge::{Claim, check_certificates, lambda, prove};
use lp_lines::{memory, say};
use lp_solve::{Question, solve_within, trial};
use lp_watch::Watch;
use lp_words::{Asked, Options, WordsFault, read_words, usage};
use std::alloc::Global;

// The most steps of a search: those that an option gives, and else the usual ones.
fn step_limit(options: Options) -> u64
    ensures { result ≡ steps_asked options }
{
    match options.steps {
        Some(steps) => steps as u64,
        None => DEFAULT_STEPS,
    }
}

// So its most answers.
fn answer_limit(options: Options) -> u64
    ensures { result ≡ answers_asked options }
{
    match options.answers {
        Some(answers) => answers as u64,
        None => DEFAULT_ANSWERS,
    }
}

// The question of a module and a query, within these limits.
fn question<'a>(name: &'a str, query: &'a str, options: Options) -> Question<'a>
    ensures name { result.name.now ≡ name.now }
    ensures query { result.query.now ≡ query.now }
    ensures steps { result.steps ≡ steps_asked options }
    ensures answers { result.answers ≡ answers_asked options }
{
    Question {
        name,
        query,
        steps: step_limit(options),
        answers: answer_limit(options),
    }
}

// What is to be proved, within these limits.
fn claim<'a>(name: &'a str, query: &'a str, options: Options) -> Claim<'a>
    ensures name { result.name.now ≡ name.now }
    ensures query { result.query.now ≡ query.now }
{
    Claim {
        name,
        query,
        steps: options.step_limit(),
        answers: options.answer_limit(),
    }
}

// Carries out what is asked for.
fn perform<F: Folder, K: Sink, W: Watch>(
    alloc: Global,
    asked: Asked<'_>,
    folder: &mut F,
    out: &mut K,
    watchers: &mut Vec<W>,
) -> Status
    ensures does { Does F.read_faults F.misses F.overs F.write_faults F.held K.faults K.written (map W.seen watchers.old.items) (asked_of asked.entry) folder.old folder.new out.old out.new result }
    ensures hears { Hears (F.held folder.old) (asked_of asked.entry) result (map W.seen watchers.old.items) (map W.seen watchers.new.items) }
    ensures silent { (watches (asked_of asked.entry) ≡ true) ⊎ (watchers.new ≡ watchers.old) }
{
    match asked {
        Asked::Trial(size) => trial(alloc, size, folder, out),
        Asked::Query(name, text, options) => query(
            alloc,
            name,
            text,
            options.step_limit(),
            options.answer_limit(),
            options.watch,
            folder,
            out,
            watchers,
        ),
        Asked::Session(name, options) => session(
            alloc,
            name,
            options.step_limit(),
            options.answer_limit(),
            folder,
            out,
        ),
        Asked::Lambda(name, text) => lambda(alloc, name, text, folder, out),
        Asked::Check(name, text) => check_certificates(alloc, name, text, folder, out),
        Asked::Prove(name, text, options) => prove(alloc, claim(name, text, options), folder, out),
        Asked::Files(command, name) => write_file(alloc, command, name, folder, out),
        Asked::Solve(name, query, options) => solve_within(
            alloc,
            question(name, query, options),
            options.watch,
            folder,
            out,
            watchers,
        ),
    }
}

/// Does what the words say: reads a module's files, searches for the answers of a query, and writes them to the sink, or does another of the commands;
/// with `--watch` the watchers have the notes of the search. The status says how the run ended.
pub fn run<F: Folder, K: Sink>(
    alloc: Global,
    words: &[String],
    folder: &mut F,
    out: &mut K,
    watchers: &mut Vec<Box<dyn Watch>>,
) -> Status
    // What a command says of texts, certificates and files is true of them; of a query on texts a refusal is written, or the answers of the definition's search, which are right,
    // and behind them with `--watch` the reports of the watchers, of the notes of that search.
    ensures fulfils { (a : Asking) → asked (map string_bytes words.now) ≡ Some a → Fulfils (F.held folder.old) (F.held folder.new) (map (λ b. (Watch-box b).seen b.value) watchers.old.items) (K.written out.old) (K.written out.new) a result }
    // Where the words are no command, the usage line is all that is written; where the output failed, a beginning of it.
    ensures told { (IsCommand (map string_bytes words.now) → ⊥) → result ≢ Status.WriteFault → WritesUsage result (K.written out.old) (K.written out.new) }
    ensures prefix { (IsCommand (map string_bytes words.now) → ⊥) → result ≡ Status.WriteFault → BeginsUsage (K.written out.old) (K.written out.new) }
    // Whatever is done, what was written before stays, and a file that could not be read has its line.
    ensures grows { Grows (K.written out.old) (K.written out.new) }
    ensures read_fault { result ≡ Status.ReadFault → (text : List ℕ) × (IsFault text × Appends (K.written out.old) (K.written out.new) text) }
    // Where texts are refused, the line tells of a byte of a file that the folder holds, or of the query, and is all that is written.
    ensures placed { result ≡ Status.Source → (query : List ℕ) → option_and_then query_on_texts (asked (map string_bytes words.now)) ≡ Some query
        → WritesPlaced (F.held folder.old) query (K.written out.old) (K.written out.new) }
    ensures usage { result ≡ Status.Usage → IsCommand (map string_bytes words.now) → ⊥ }
    ensures no_command { (IsCommand (map string_bytes words.now) → ⊥) → (result ≡ Status.Usage) ⊎ (result ≡ Status.Memory) ⊎ (result ≡ Status.WriteFault) }
    // Whoever watches a query on texts has heard each note of the definition's search, once and in order, and whoever was done at one of them is gone.
    ensures hears { (a : Asking) → asked (map string_bytes words.now) ≡ Some a → Hears (F.held folder.old) a result (map (λ b. (Watch-box b).seen b.value) watchers.old.items) (map (λ b. (Watch-box b).seen b.value) watchers.new.items) }
    ensures silent { IsWatched (map string_bytes words.now) ⊎ (watchers.new ≡ watchers.old) }
    // A command that writes no file fails to write where the output failed alone.
    ensures write_faults { WritesNone (map string_bytes words.now) → Counts (result ≡ Status.WriteFault) (K.faults out.old) (K.faults out.new) }
    ensures read_faults { Caused result Status.ReadFault (F.read_faults folder.old) (F.read_faults folder.new) }
    ensures misses { Caused result Status.Missing (F.misses folder.old) (F.misses folder.new) }
    ensures overs { CausedLong result (K.written out.old) (K.written out.new) (F.overs folder.old) (F.overs folder.new) }
    ensures no_file_written { WritesNone (map string_bytes words.now) → F.write_faults folder.new ≡ F.write_faults folder.old }
    ensures held { WritesNone (map string_bytes words.now) → F.held folder.new ≡ F.held folder.old }
    // A command that writes a file leaves all others as they are, and after a refusal this one too.
    ensures leaves { (command : FileCommand) (name : List ℕ) → asked (map string_bytes words.now) ≡ Some (OnFiles command name)
        → Leaves F.write_faults F.held K.faults K.written folder.old folder.new out.old out.new (name ++ ending_of command) (done_line command (name ++ ending_of command)) result }
    ensures certifies { (name query : List ℕ) (options : Options) → asked (map string_bytes words.now) ≡ Some (Proving name query options)
        → Proves F.write_faults F.held K.faults K.written folder.old folder.new out.old out.new name result }
{
    match read_words(alloc, words) {
        Err(WordsFault::Usage) => say(out, usage().as_bytes(), Status::Usage),
        Err(WordsFault::Memory) => say(out, memory().as_bytes(), Status::Memory),
        Ok(asked) => perform(alloc, asked, folder, out, watchers),
    }
}
