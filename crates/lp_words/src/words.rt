// The command set, and the words as it reads them.
ghost use Rattle.std.specs.Prelude.{◌≡◌, false, IfOk, map, codes, string_bytes};
ghost use Rattle.clap.specs.Words.{app_of, rule_of, with_rule, with_subcommand, new_app, subcommand_rows_of, subcommand_of};
ghost use Rattle.clap.specs.Kinds.{FailsBy};
ghost use Rattle.clap.specs.declared.builder.command.Command.TheViews.{out-Command};
ghost use Rattle.clap.specs.Faults.{fault_of};
ghost use Rattle.lp_words.specs.Commands.{Reads, place, number, watch, bounded, taking, judging, proving, asking, serving, strict, with_searches, with_files, with_judgements, lprolog, usage_line};

use clap::{Arg, ArgAction, ArgMatches, Command, Error};
use std::alloc::{AllocError, Global};

fn place<'a>(alloc: Global, id: &'a str) -> Arg<'a>
    ensures rule { rule_of result ≡ place id.entry.now }
    ensures local { result.global ≡ false }
{
    Arg::new(alloc, id).required(true)
}

fn number<'a>(alloc: Global, id: &'a str) -> Arg<'a>
    ensures rule { rule_of result ≡ number id.entry.now }
    ensures local { result.global ≡ false }
{
    Arg::new(alloc, id).long(id)
}

fn watch<'a>(alloc: Global) -> Arg<'a>
    ensures rule { rule_of result ≡ watch }
    ensures local { result.global ≡ false }
{
    Arg::new(alloc, "watch")
        .long("watch")
        .action(ArgAction::SetTrue)
}

fn with<'a>(command: Command<'a>, arg: Arg<'a>) -> Result<Command<'a>, AllocError>
    requires local { arg.global ≡ false }
    requires none { (out-Command command).has_globals ≡ false }
    ensures { IfOk result (Reads (with_rule (app_of command.entry) (rule_of arg.entry))) }
{
    command.arg(arg)
}

fn under<'a>(above: Command<'a>, below: Command<'a>) -> Result<Command<'a>, AllocError>
    requires above { (out-Command above).has_globals ≡ false }
    requires below { (out-Command below).has_globals ≡ false }
    ensures { IfOk result (Reads (with_subcommand (app_of above.entry) (app_of below.entry).top)) }
{
    above.subcommand(below)
}

fn bounded<'a>(alloc: Global, command: Command<'a>) -> Result<Command<'a>, AllocError>
    requires { (out-Command command).has_globals ≡ false }
    ensures { IfOk result (Reads (bounded (app_of command.entry))) }
{
    let command = with(command, number(alloc, "steps"))?;
    let command = with(command, number(alloc, "answers"))?;
    Ok(command)
}

fn taking<'a>(alloc: Global, name: &'a str, id: &'a str) -> Result<Command<'a>, AllocError>
    ensures { IfOk result (Reads (taking name.entry.now id.entry.now)) }
{
    with(Command::new(alloc, name), place(alloc, id))
}

fn judging<'a>(alloc: Global, name: &'a str) -> Result<Command<'a>, AllocError>
    ensures { IfOk result (Reads (judging name.entry.now)) }
{
    with(taking(alloc, name, "module")?, place(alloc, "query"))
}

fn proving<'a>(alloc: Global, name: &'a str) -> Result<Command<'a>, AllocError>
    ensures { IfOk result (Reads (proving name.entry.now)) }
{
    bounded(alloc, judging(alloc, name)?)
}

fn asking<'a>(alloc: Global, name: &'a str) -> Result<Command<'a>, AllocError>
    ensures { IfOk result (Reads (asking name.entry.now)) }
{
    with(proving(alloc, name)?, watch(alloc))
}

fn serving<'a>(alloc: Global, name: &'a str) -> Result<Command<'a>, AllocError>
    ensures { IfOk result (Reads (serving name.entry.now)) }
{
    bounded(alloc, taking(alloc, name, "module")?)
}

fn strict<'a>(alloc: Global) -> Command<'a>
    ensures { Reads (strict (new_app (codes "lprolog"))) result }
{
    Command::new(alloc, "lprolog")
        .no_binary_name(true)
        .disable_help_flag(true)
        .disable_help_subcommand(true)
        .subcommand_required(true)
}

fn with_searches<'a>(alloc: Global, command: Command<'a>) -> Result<Command<'a>, AllocError>
    requires { (out-Command command).has_globals ≡ false }
    ensures { IfOk result (Reads (with_searches (app_of command.entry))) }
{
    let command = under(command, asking(alloc, "solve")?)?;
    let command = under(command, asking(alloc, "query")?)?;
    let command = under(command, taking(alloc, "trial", "size")?)?;
    Ok(command)
}

fn with_files<'a>(alloc: Global, command: Command<'a>) -> Result<Command<'a>, AllocError>
    requires { (out-Command command).has_globals ≡ false }
    ensures { IfOk result (Reads (with_files (app_of command.entry))) }
{
    let command = under(command, taking(alloc, "compile", "module")?)?;
    let command = under(command, taking(alloc, "link", "module")?)?;
    let command = under(command, taking(alloc, "migrate", "module")?)?;
    Ok(command)
}

fn with_judgements<'a>(alloc: Global, command: Command<'a>) -> Result<Command<'a>, AllocError>
    requires { (out-Command command).has_globals ≡ false }
    ensures { IfOk result (Reads (with_judgements (app_of command.entry))) }
{
    let command = under(command, judging(alloc, "lambda")?)?;
    let command = under(command, proving(alloc, "prove")?)?;
    let command = under(command, judging(alloc, "check")?)?;
    Ok(command)
}

fn lprolog<'a>(alloc: Global) -> Result<Command<'a>, AllocError>
    ensures { IfOk result (Reads lprolog) }
{
    let command = with_searches(alloc, strict(alloc))?;
    let command = with_files(alloc, command)?;
    let command = with_judgements(alloc, command)?;
    under(command, serving(alloc, "session")?)
}

/// The line that names the commands, with its line feed. It is what is written of words that are none.
#[tactic(auto, unfolding(crate::specs::Commands::usage_line))]
pub fn usage() -> &'static str
    ensures { result.now ≡ usage_line }
{
    "usage: solve M Q | compile M | link M | query M Q | trial N | migrate M | lambda M Q | prove M Q | check M Q | session M\n"
}

/// The words as the command set reads them.
pub fn parse<'a>(alloc: Global, words: &'a [String]) -> Result<ArgMatches<'a>, Error>
    ensures usage { FailsBy (fault_of lprolog (map string_bytes words.entry.now)) result }
    ensures matches { IfOk result (λ m. subcommand_rows_of m ≡ subcommand_of lprolog (map string_bytes words.entry.now)) }
{
    lprolog(alloc)?.try_get_matches_from(words)
}
