// Watchers.
ghost use Rattle.std.specs.Prelude.{◌<◌};

use super::{run_all, run_on};
use lp_base::{MemFolder, Memory, Status};
use lp_given::{FILES, folder};
use lp_watch::{Counter, Leaver, Refuser, Tracer, Watch};
use std::alloc::Global;
use std::process::Abort;

const SPLIT: &str = "append X Y (1 :: nil)";

const ANSWERED: &str =
    "answer 1\n  X = nil\n  Y = 1 :: nil\nanswer 2\n  X = 1 :: nil\n  Y = nil\nno more answers\n";

const BOTH: &str =
    "answer 1\n  X = nil\n  Y = 1 :: nil\nanswer 2\n  X = 1 :: nil\n  Y = nil\nno more answers\ngoal append\nanswer 1\nback\ngoal append\nanswer 2\nback\ngoals 2, backs 2, answers 2, cuts 0\n";

const FIRST_TWO: &str =
    "answer 1\n  X = nil\n  Y = 1 :: nil\nanswer 2\n  X = 1 :: nil\n  Y = nil\nno more answers\ngoal append\nanswer 1\n";

#[test]
fn all_watch(rt: HostRuntime) -> Result<(), Memory> {
    let alloc = rt.alloc();
    let mut folder = folder(alloc, &FILES, &[])?;
    let mut watchers: Vec<Box<dyn Watch>> = Vec::new(alloc);
    watchers.push(Box::new(alloc, Tracer::first(alloc, 20))?)?;
    watchers.push(Box::new(alloc, Counter::new())?)?;
    run_on(
        &rt,
        alloc,
        &mut folder,
        &["solve", "lists", "append X Y (1 :: nil)", "--watch"],
        &mut watchers,
        Status::Done,
        BOTH,
    )?;
    assert_eq!(rt; watchers.len(), 2);
    Ok(())
}

#[test]
fn one_has_enough(rt: HostRuntime) -> Result<(), Memory> {
    let alloc = rt.alloc();
    let mut folder = folder(alloc, &FILES, &[])?;
    let mut watchers: Vec<Box<dyn Watch>> = Vec::new(alloc);
    watchers.push(Box::new(alloc, Tracer::first(alloc, 2))?)?;
    run_on(
        &rt,
        alloc,
        &mut folder,
        &["solve", "lists", "append X Y (1 :: nil)", "--watch"],
        &mut watchers,
        Status::Done,
        FIRST_TWO,
    )?;
    assert_eq!(rt; watchers.len(), 0);
    Ok(())
}

#[test]
fn copies_are_counted(rt: HostRuntime) -> Result<(), Memory> {
    let alloc = rt.alloc();
    for (query, written) in [
        (
            "copy (abs (x1\\ abs (x2\\ x2))) X",
            "answer 1\n  X = abs (x1\\ abs (x2\\ x2))\nno more answers\ngoals 3, backs 2, answers 1, cuts 0\n",
        ),
        (
            "copy (abs (x1\\ app x1 (abs (x2\\ x2)))) X",
            "answer 1\n  X = abs (x1\\ app x1 (abs (x2\\ x2)))\nno more answers\ngoals 5, backs 3, answers 1, cuts 0\n",
        ),
    ] {
        let mut folder = folder(alloc, &FILES, &[])?;
        let mut watchers: Vec<Box<dyn Watch>> = Vec::new(alloc);
        watchers.push(Box::new(alloc, Counter::new())?)?;
        run_on(
            &rt,
            alloc,
            &mut folder,
            &["solve", "trial", query, "--watch"],
            &mut watchers,
            Status::Done,
            written,
        )?;
    }
    Ok(())
}

// The image of `lists`.
fn linked(rt: &impl Abort, alloc: Global) -> Result<MemFolder, Memory> {
    let mut held = folder(alloc, &FILES, &[])?;
    run_all(
        rt,
        alloc,
        &mut held,
        &[
            (&["compile", "lists"], Status::Done, "wrote lists.lpo\n"),
            (&["link", "lists"], Status::Done, "wrote lists.lp\n"),
        ],
    )?;
    Ok(held)
}

// One watcher leaves at a note, with these notes, and the other one stays.
fn leaves(
    rt: &impl Abort,
    alloc: Global,
    held: &mut MemFolder,
    at: u64,
    notes: &str,
) -> Result<(), Memory>
    requires { 0 < at }
{
    let mut watchers: Vec<Box<dyn Watch>> = Vec::new(alloc);
    watchers.push(Box::new(alloc, Leaver::at(alloc, at))?)?;
    watchers.push(Box::new(alloc, Counter::new())?)?;
    let mut written = String::from_str(alloc, ANSWERED)?;
    written.push_str(notes)?;
    written.push_str("goals 2, backs 2, answers 2, cuts 0\n")?;
    run_on(
        rt,
        alloc,
        held,
        &["query", "lists", SPLIT, "--watch"],
        &mut watchers,
        Status::Done,
        written.as_str(),
    )?;
    assert_eq!(rt; watchers.len(), 1);
    Ok(())
}

#[test]
fn some_leave(rt: HostRuntime) -> Result<(), Memory> {
    let alloc = rt.alloc();
    let mut held = linked(&rt, alloc)?;
    leaves(&rt, alloc, &mut held, 1, "goal append\n")?;
    leaves(&rt, alloc, &mut held, 2, "goal append\nanswer 1\n")?;
    leaves(&rt, alloc, &mut held, 3, "goal append\nanswer 1\nback\n")?;
    leaves(
        &rt,
        alloc,
        &mut held,
        6,
        "goal append\nanswer 1\nback\ngoal append\nanswer 2\nback\n",
    )
}

#[test]
fn one_has_no_memory(rt: HostRuntime) -> Result<(), Memory> {
    let alloc = rt.alloc();
    let mut held = linked(&rt, alloc)?;
    let mut watchers: Vec<Box<dyn Watch>> = Vec::new(alloc);
    watchers.push(Box::new(alloc, Refuser::at(alloc, 4))?)?;
    run_on(
        &rt,
        alloc,
        &mut held,
        &["query", "lists", SPLIT, "--watch"],
        &mut watchers,
        Status::Memory,
        "answer 1\n  X = nil\n  Y = 1 :: nil\nstopped: memory\n",
    )
}
