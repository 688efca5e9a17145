// Faults of the outside end a run.

use super::{check, word_list};
use crate::run::run;
use lp_base::{MemSink, Memory, Status};
use lp_given::{FILES, folder};
use lp_watch::Watch;
use std::alloc::Global;
use std::process::Abort;

// Runs the words where calls of these numbers fail, of the folder and of the sink.
fn check_faults(
    rt: &impl Abort,
    alloc: Global,
    given: &[&str],
    fail: (&[u64], &[u64]),
    status: Status,
    written: &str,
) -> Result<(), Memory> {
    let mut folder = folder(alloc, &FILES, fail.0)?;
    let mut out = MemSink::new(Vec::with_capacity(alloc, 4096)?, fail.1.to_vec(alloc)?);
    let mut nobody: Vec<Box<dyn Watch>> = Vec::new(alloc);
    let got = run(
        alloc,
        &word_list(alloc, given)?,
        &mut folder,
        &mut out,
        &mut nobody,
    );
    assert_eq!(rt; out.bytes(), written.as_bytes());
    assert_eq!(rt; got, status);
    Ok(())
}

#[test]
fn faults_end_the_run(rt: HostRuntime) -> Result<(), Memory> {
    let alloc = rt.alloc();
    for (module, query, reads, puts, status, written) in [
        (
            "fam",
            "anc ann X",
            0,
            9,
            Status::ReadFault,
            "read fault: fam.sig\n",
        ),
        (
            "fam",
            "anc ann X",
            1,
            9,
            Status::ReadFault,
            "read fault: fam.mod\n",
        ),
        (
            "fam",
            "anc ann X",
            9,
            1,
            Status::WriteFault,
            "answer 1\n  X = bob\n",
        ),
        (
            "lists",
            "append (1 :: nil) (2 :: nil) X",
            0,
            9,
            Status::ReadFault,
            "read fault: lists.sig\n",
        ),
        (
            "m",
            "geta X",
            3,
            9,
            Status::ReadFault,
            "read fault: a.mod\n",
        ),
        (
            "lists",
            "append X Y (1 :: nil)",
            9,
            1,
            Status::WriteFault,
            "answer 1\n  X = nil\n  Y = 1 :: nil\n",
        ),
    ] {
        check_faults(
            &rt,
            alloc,
            &["solve", module, query],
            (&[reads], &[puts]),
            status,
            written,
        )?;
    }
    Ok(())
}

#[test]
fn files_may_be_missing(rt: HostRuntime) -> Result<(), Memory> {
    let alloc = rt.alloc();
    check(
        &rt,
        alloc,
        &["solve", "nope", "true"],
        Status::Missing,
        "missing: nope.sig\n",
    )
}
