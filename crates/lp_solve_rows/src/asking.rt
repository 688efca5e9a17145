// Queries on files in memory, each with its status and what it writes.

use lp_base::{DEFAULT_ANSWERS, DEFAULT_STEPS, MemFolder, MemSink, Memory, Status};
use lp_given::{FILES, folder};
use lp_solve::{Question, solve_within, trial};
use lp_watch::Counter;
use std::alloc::Global;
use std::process::Abort;

fn sink(alloc: Global) -> Result<MemSink, Memory> {
    Ok(MemSink::new(Vec::with_capacity(alloc, 8192)?, Vec::new(alloc)))
}

// Asks a query of a module of the folder within these limits, with nobody who watches.
fn asked(
    rt: &impl Abort,
    alloc: Global,
    folder: &mut MemFolder,
    question: Question<'_>,
    status: Status,
    written: &str,
) -> Result<(), Memory> {
    let mut out = sink(alloc)?;
    let mut nobody: Vec<Counter> = Vec::new(alloc);
    let got = solve_within(alloc, question, false, folder, &mut out, &mut nobody);
    assert_eq!(rt; out.bytes(), written.as_bytes());
    assert_eq!(rt; got, status);
    Ok(())
}

/// Asks a query of a module of the folder.
pub(crate) fn ask(
    rt: &impl Abort,
    alloc: Global,
    folder: &mut MemFolder,
    module: &str,
    query: &str,
    status: Status,
    written: &str,
) -> Result<(), Memory> {
    let question = Question {
        name: module,
        query,
        steps: DEFAULT_STEPS,
        answers: DEFAULT_ANSWERS,
    };
    asked(rt, alloc, folder, question, status, written)
}

/// The same of these files.
pub(crate) fn with_files(
    rt: &impl Abort,
    alloc: Global,
    files: &[(&str, &str)],
    module: &str,
    query: &str,
    status: Status,
    written: &str,
) -> Result<(), Memory> {
    let mut folder = folder(alloc, files, &[])?;
    ask(rt, alloc, &mut folder, module, query, status, written)
}

/// The same of the modules of the worked rows.
pub(crate) fn check(
    rt: &impl Abort,
    alloc: Global,
    module: &str,
    query: &str,
    status: Status,
    written: &str,
) -> Result<(), Memory> {
    with_files(rt, alloc, &FILES, module, query, status, written)
}

/// Asks a query of a module of these files within so many steps.
pub(crate) fn within(
    rt: &impl Abort,
    alloc: Global,
    files: &[(&str, &str)],
    asks: (&str, &str, u64),
    status: Status,
    written: &str,
) -> Result<(), Memory> {
    let (name, query, steps) = asks;
    let question = Question {
        name,
        query,
        steps,
        answers: 1000,
    };
    let mut folder = folder(alloc, files, &[])?;
    asked(rt, alloc, &mut folder, question, status, written)
}

/// Searches for the copies of a generated term of this size.
pub(crate) fn generated(
    rt: &impl Abort,
    alloc: Global,
    size: u32,
    written: &str,
) -> Result<(), Memory> {
    let mut folder = folder(alloc, &[], &[])?;
    let mut out = sink(alloc)?;
    let got = trial(alloc, size, &mut folder, &mut out);
    assert_eq!(rt; out.bytes(), written.as_bytes());
    assert_eq!(rt; got, Status::Done);
    Ok(())
}
