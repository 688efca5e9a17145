// What the words ask for.
ghost use Rattle.std.specs.Prelude.{◌≡◌, ◌≢◌, Bool, Some, None, IfOk, IsErrOf, map, option_map, string_bytes};
ghost use Rattle.std.specs.Option.{option_and_then};
ghost use Rattle.clap.specs.Words.{subcommand_rows_of, kind_of, first_of, rows_of, found_of};
ghost use Rattle.lp_words.specs.Words.{has_lone_dash};
ghost use Rattle.lp_words.specs.Asked.{asked, asked_at, asked_of, is_plain, is_watched, limit_in, named_module, command_of, files_in, options_in, queried, query_command_of, query_in, query_told, session_in, session_told, trial_in, word_at};

use crate::numbers::{is_module_name, number_between};
use crate::words::parse;
use clap::error::ErrorKind;
use clap::{ArgMatches, Error};
use std::alloc::Global;

/// The limits that are asked for, each where an option gives it, and whether the watchers are to watch.
#[derive(Clone, Copy, Debug, PartialEq, Eq)]
pub struct Options {
    /// The most steps, from 0 to 100,000,000.
    pub steps: Option<u32>,
    /// The most answers, from 1 to 100,000.
    pub answers: Option<u32>,
    pub watch: bool,
}

/// What is made of a module's files.
#[derive(Clone, Copy, Debug, PartialEq, Eq)]
pub enum FileCommand {
    /// Its object, from its texts.
    Compile,
    /// Its image, from its object and those that it uses.
    Link,
    /// Its image, as it is written today.
    Migrate,
}

/// What is done with a query on a module.
#[derive(Clone, Copy, Debug, PartialEq, Eq)]
pub enum QueryCommand {
    /// It is answered, on the module's texts.
    Solve,
    /// It is answered, on the module's image.
    Query,
    /// Whether it and the texts are of the pattern fragment.
    Lambda,
    /// Certificates of its answers are made.
    Prove,
    /// Its certificates are tested.
    Check,
}

/// What the words ask for. A module is told by its name.
#[derive(Clone, Copy)]
pub enum Asked<'a> {
    /// The answers of a query on the texts of a module.
    Solve(&'a str, &'a str, Options),
    /// The answers of a query on the image of a module.
    Query(&'a str, &'a str, Options),
    /// Whether the texts of a module and a query are of the pattern fragment.
    Lambda(&'a str, &'a str),
    /// The certificates of the answers of a query on the texts of a module.
    Prove(&'a str, &'a str, Options),
    /// The test of these certificates.
    Check(&'a str, &'a str),
    /// Many queries on the image of a module.
    Session(&'a str, Options),
    /// A file of the module of this name.
    Files(FileCommand, &'a str),
    /// The generated query of this size, from 1 to 400.
    Trial(u32),
}

/// Why words ask for nothing.
#[derive(Clone, Copy, Debug, PartialEq, Eq)]
pub enum WordsFault {
    /// They are no command.
    Usage,
    /// Memory ran out.
    Memory,
}

impl Options {
    /// Whether no option is given.
    pub fn are_none(self) -> bool
        ensures { result ≡ is_plain self }
    {
        self.steps.is_none() && self.answers.is_none() && !self.watch
    }

    /// The most steps that a search takes: 1,000,000 where no option says otherwise.
    pub fn step_limit(self) -> u64 {
        match self.steps {
            Some(steps) => steps as u64,
            None => 1_000_000,
        }
    }

    /// The most answers that a search gives: 1,000 where no option says otherwise.
    pub fn answer_limit(self) -> u64 {
        match self.answers {
            Some(answers) => answers as u64,
            None => 1_000,
        }
    }
}

fn text<'a>(matches: &ArgMatches<'a>, id: &str) -> Option<&'a str>
    ensures { option_map (λ s. s.now) result ≡ first_of id.now (rows_of (found_of matches.now)) }
{
    matches.get_str(id)
}

// A number that an option may give; none where the option's text is no number of this range.
#[tactic(auto, unfolding(crate::specs::Asked::limit_in))]
fn limit_in(matches: &ArgMatches<'_>, id: &str, least: u32, most: u32) -> Option<Option<u32>>
    ensures { result ≡ limit_in id.now least most (rows_of (found_of matches.now)) }
{
    match text(matches, id) {
        None => Some(None),
        Some(text) => match number_between(text, least, most) {
            None => None,
            Some(number) => Some(Some(number)),
        },
    }
}

#[tactic(auto, unfolding(crate::specs::Asked::is_watched))]
fn is_watched(matches: &ArgMatches<'_>) -> bool
    ensures { result ≡ is_watched (rows_of (found_of matches.now)) }
{
    match text(matches, "watch") {
        None => false,
        Some(text) => text == "true",
    }
}

#[tactic(auto, unfolding(crate::specs::Asked::options_in))]
fn options_in(matches: &ArgMatches<'_>) -> Option<Options>
    ensures { result ≡ options_in (rows_of (found_of matches.now)) }
{
    match limit_in(matches, "steps", 0, 100_000_000) {
        None => None,
        Some(steps) => match limit_in(matches, "answers", 1, 100_000) {
            None => None,
            Some(answers) => Some(Options {
                steps,
                answers,
                watch: is_watched(matches),
            }),
        },
    }
}

fn query_command_of(word: &str) -> Option<QueryCommand>
    ensures { result ≡ query_command_of word.now }
{
    if word == "solve" {
        Some(QueryCommand::Solve)
    } else if word == "query" {
        Some(QueryCommand::Query)
    } else if word == "lambda" {
        Some(QueryCommand::Lambda)
    } else if word == "prove" {
        Some(QueryCommand::Prove)
    } else if word == "check" {
        Some(QueryCommand::Check)
    } else {
        None
    }
}

fn queried<'a>(command: QueryCommand, name: &'a str, query: &'a str, options: Options) -> Asked<'a>
    ensures { asked_of result ≡ queried command name.entry.now query.entry.now options }
{
    match command {
        QueryCommand::Solve => Asked::Solve(name, query, options),
        QueryCommand::Query => Asked::Query(name, query, options),
        QueryCommand::Lambda => Asked::Lambda(name, query),
        QueryCommand::Prove => Asked::Prove(name, query, options),
        QueryCommand::Check => Asked::Check(name, query),
    }
}

// A query on a module.
fn query_told<'a>(
    command: QueryCommand,
    name: &'a str,
    query: &'a str,
    matches: &ArgMatches<'a>,
) -> Option<Asked<'a>>
    ensures { option_map asked_of result ≡ query_told command name.now query.now (rows_of (found_of matches.now)) }
{
    if is_module_name(name.as_bytes()) {
        match options_in(matches) {
            None => None,
            Some(options) => Some(queried(command, name, query, options)),
        }
    } else {
        None
    }
}

#[tactic(auto, unfolding(crate::specs::Asked::query_in))]
fn query_in<'a>(command: QueryCommand, matches: &ArgMatches<'a>) -> Option<Asked<'a>>
    ensures { option_map asked_of result ≡ query_in command (rows_of (found_of matches.now)) }
{
    match text(matches, "module") {
        None => None,
        Some(name) => match text(matches, "query") {
            None => None,
            Some(query) => query_told(command, name, query, matches),
        },
    }
}

// Many queries on a module.
fn session_told<'a>(name: &'a str, matches: &ArgMatches<'a>) -> Option<Asked<'a>>
    ensures { option_map asked_of result ≡ session_told name.now (rows_of (found_of matches.now)) }
{
    if is_module_name(name.as_bytes()) {
        match options_in(matches) {
            None => None,
            Some(options) => Some(Asked::Session(name, options)),
        }
    } else {
        None
    }
}

#[tactic(auto, unfolding(crate::specs::Asked::session_in))]
fn session_in<'a>(matches: &ArgMatches<'a>) -> Option<Asked<'a>>
    ensures { option_map asked_of result ≡ session_in (rows_of (found_of matches.now)) }
{
    match text(matches, "module") {
        None => None,
        Some(name) => session_told(name, matches),
    }
}

#[tactic(auto, unfolding(crate::specs::Asked::trial_in))]
fn trial_in<'a>(matches: &ArgMatches<'a>) -> Option<Asked<'a>>
    ensures { option_map asked_of result ≡ trial_in (rows_of (found_of matches.now)) }
{
    match text(matches, "size") {
        None => None,
        Some(size) => match number_between(size, 1, 400) {
            None => None,
            Some(size) => Some(Asked::Trial(size)),
        },
    }
}

// A command on the files of the module of this name.
fn named_module<'a>(command: FileCommand, name: &'a str) -> Option<Asked<'a>>
    ensures { option_map asked_of result ≡ named_module command name.now }
{
    if is_module_name(name.as_bytes()) {
        Some(Asked::Files(command, name))
    } else {
        None
    }
}

fn command_of(word: &str) -> Option<FileCommand>
    ensures { result ≡ command_of word.now }
{
    if word == "compile" {
        Some(FileCommand::Compile)
    } else if word == "link" {
        Some(FileCommand::Link)
    } else if word == "migrate" {
        Some(FileCommand::Migrate)
    } else {
        None
    }
}

#[tactic(auto, unfolding(crate::specs::Asked::files_in))]
fn files_in<'a>(word: &str, matches: &ArgMatches<'a>) -> Option<Asked<'a>>
    ensures { option_map asked_of result ≡ files_in word.now (rows_of (found_of matches.now)) }
{
    match command_of(word) {
        None => None,
        Some(command) => match text(matches, "module") {
            None => None,
            Some(name) => named_module(command, name),
        },
    }
}

// A command with one word: a size, or a module's name.
fn word_in<'a>(word: &str, matches: &ArgMatches<'a>) -> Option<Asked<'a>>
    ensures { option_map asked_of result ≡ word_at (word.now, rows_of (found_of matches.now)) }
{
    if word == "trial" {
        trial_in(matches)
    } else if word == "session" {
        session_in(matches)
    } else {
        files_in(word, matches)
    }
}

fn command_in<'a>(word: &str, matches: &ArgMatches<'a>) -> Option<Asked<'a>>
    ensures { option_map asked_of result ≡ asked_at (word.now, rows_of (found_of matches.now)) }
{
    match query_command_of(word) {
        None => word_in(word, matches),
        Some(command) => query_in(command, matches),
    }
}

fn asked_in<'a>(matches: &ArgMatches<'a>) -> Option<Asked<'a>>
    ensures { option_map asked_of result ≡ option_and_then asked_at (subcommand_rows_of matches.now) }
{
    match matches.subcommand() {
        None => None,
        Some((word, inner)) => command_in(word, inner),
    }
}

fn fault_in(error: &Error) -> WordsFault
    ensures { result ≡ WordsFault.Usage → kind_of error.now ≢ ErrorKind.OutOfMemory }
{
    if error.kind() == ErrorKind::OutOfMemory {
        WordsFault::Memory
    } else {
        WordsFault::Usage
    }
}

// Whether a `-` stands alone before a `--`. The command set would take it for a place.
#[tactic(auto, unfolding(crate::specs::Words::has_lone_dash))]
fn has_lone_dash(words: &[String]) -> bool
    ensures { result ≡ has_lone_dash (map string_bytes words.now) }
{
    for word in words {
        if word.as_str() == "--" {
            return false;
        }
        if word.as_str() == "-" {
            return true;
        }
    }
    false
}

/// What the words behind the program's name ask for. `Usage` comes exactly of words that are no command.
#[tactic(auto, unfolding(crate::specs::Asked::asked))]
pub fn read_words<'a>(alloc: Global, words: &'a [String]) -> Result<Asked<'a>, WordsFault>
    ensures ok { IfOk result (λ o. asked (map string_bytes words.entry.now) ≡ Some (asked_of o)) }
    ensures usage { IsErrOf result WordsFault.Usage → asked (map string_bytes words.entry.now) ≡ None }
{
    if has_lone_dash(words) {
        return Err(WordsFault::Usage);
    }
    match parse(alloc, words) {
        Err(error) => Err(fault_in(&error)),
        Ok(matches) => match asked_in(&matches) {
            Some(asked) => Ok(asked),
            None => Err(WordsFault::Usage),
        },
    }
}
