//! The program: its words, its folder and its output.
#![tactic(auto)]

// The current directory and the standard output.
mod outside;
// The top call.
mod run;

use lp_base::{Memory, Status};
use lp_watch::{Counter, Tracer, Watch};
use outside::{DirFolder, StdSink};
use run::run;
use std::env;
use std::io::ErrorKind;
use std::process::ExitCode;
use std::rt::Env;

// The words after the program's name. Words that are no text are no command.
fn words_of<R: Env + AllocGlobal>(rt: &R) -> Result<Vec<String>, Status> {
    let args = match env::args(rt) {
        Ok(args) => args,
        Err(error) => {
            return Err(if error.kind() == ErrorKind::OutOfMemory {
                Status::Memory
            } else {
                Status::Usage
            });
        }
    };
    let mut words = Vec::new(rt.alloc());
    for word in args.skip(1) {
        if words.push(word).is_err() {
            return Err(Status::Memory);
        }
    }
    Ok(words)
}

// Runs the words with the watchers of the program: one that keeps the first 20 notes, and one that counts all.
fn run_watched(
    rt: &HostRuntime,
    words: &[String],
    out: &mut StdSink<'_, HostRuntime>,
) -> Result<Status, Memory> {
    let alloc = rt.alloc();
    let mut watchers: Vec<Box<dyn Watch>> = Vec::new(alloc);
    watchers.push(Box::new(alloc, Tracer::first(alloc, 20))?)?;
    watchers.push(Box::new(alloc, Counter::new())?)?;
    let mut folder = DirFolder::new(rt);
    Ok(run(alloc, words, &mut folder, out, &mut watchers))
}

fn main(rt: HostRuntime) -> ExitCode {
    let mut out = StdSink::new(&rt);
    let words = match words_of(&rt) {
        Ok(words) => words,
        Err(status) => return ExitCode::from(status.number()),
    };
    let status = match run_watched(&rt, words.as_slice(), &mut out) {
        Ok(status) => status,
        Err(Memory) => Status::Memory,
    };
    ExitCode::from(status.number())
}

#[cfg(test)]
mod tests;
