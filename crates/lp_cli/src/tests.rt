// What the top call writes and answers, over folders and sinks in memory. The rows of `solve` are those of lp_solve_rows.

// Objects and images as files.
mod files;
// Queries on images, one by one and in sessions.
mod images;
// Programs and queries that are pattern text.
mod patterns;
// Certificates of answers.
mod certificates;
// Faults of the outside.
mod outside;
// Watchers.
mod watched;
// Words.
mod words;

use crate::run::run;
use lp_base::{MemFolder, MemSink, Memory, Status};
use lp_given::{FILES, folder};
use lp_watch::{Counter, Watch};
use std::alloc::Global;
use std::process::Abort;

fn word_list(alloc: Global, given: &[&str]) -> Result<Vec<String>, Memory> {
    let mut all = Vec::new(alloc);
    for word in given {
        all.push(String::from_str(alloc, word)?)?;
    }
    Ok(all)
}

// Runs the words with these watchers, and compares the status and what was written.
fn run_on(
    rt: &impl Abort,
    alloc: Global,
    folder: &mut MemFolder,
    given: &[&str],
    watchers: &mut Vec<Box<dyn Watch>>,
    status: Status,
    written: &str,
) -> Result<(), Memory> {
    let mut out = MemSink::new(Vec::with_capacity(alloc, 8192)?, Vec::new(alloc));
    let got = run(alloc, &word_list(alloc, given)?, folder, &mut out, watchers);
    assert_eq!(rt; out.bytes(), written.as_bytes());
    assert_eq!(rt; got, status);
    Ok(())
}

// The same on these files, where nobody watches.
fn with_files(
    rt: &impl Abort,
    alloc: Global,
    files: &[(&str, &str)],
    given: &[&str],
    status: Status,
    written: &str,
) -> Result<(), Memory> {
    let mut folder = folder(alloc, files, &[])?;
    let mut nobody: Vec<Box<dyn Watch>> = Vec::new(alloc);
    run_on(rt, alloc, &mut folder, given, &mut nobody, status, written)
}

// The same on the modules of the worked rows.
fn check(
    rt: &impl Abort,
    alloc: Global,
    given: &[&str],
    status: Status,
    written: &str,
) -> Result<(), Memory> {
    with_files(rt, alloc, &FILES, given, status, written)
}

// The commands in turn on one folder, where a counter watches, each with what it says.
fn run_all(
    rt: &impl Abort,
    alloc: Global,
    held: &mut MemFolder,
    steps: &[(&[&str], Status, &str)],
) -> Result<(), Memory> {
    let mut watchers: Vec<Box<dyn Watch>> = Vec::new(alloc);
    watchers.push(Box::new(alloc, Counter::new())?)?;
    for (words, status, written) in steps {
        run_on(rt, alloc, held, words, &mut watchers, *status, written)?;
    }
    Ok(())
}
