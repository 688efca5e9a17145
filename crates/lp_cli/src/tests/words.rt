// Words and options.

use super::check;
use lp_base::{Memory, Status};
use std::alloc::Global;
use std::process::Abort;

const USAGE: &str =
    "usage: solve M Q | compile M | link M | query M Q | trial N | migrate M | lambda M Q | prove M Q | check M Q | session M\n";

const FIRST: &str = "answer 1\nno more answers\n";

#[test]
fn options_stand_anywhere(rt: HostRuntime) -> Result<(), Memory> {
    let alloc = rt.alloc();
    let ten = "q, q, q, q, q, q, q, q, q, q";
    for (given, status, written) in [
        (
            ["solve", "loop", "r", "--steps", "10"],
            Status::Steps,
            "stopped: steps\n",
        ),
        (["solve", "loop", ten, "--steps", "10"], Status::Done, FIRST),
        (
            ["solve", "--steps=9", "--", "loop", ten],
            Status::Steps,
            "stopped: steps\n",
        ),
        (
            ["solve", "--answers", "000000001", "loop", "q"],
            Status::Done,
            "answer 1\nstopped: answers\n",
        ),
        (
            ["solve", "--steps=0", "e", "true", "--answers=9"],
            Status::Done,
            FIRST,
        ),
    ] {
        check(&rt, alloc, &given, status, written)?;
    }
    Ok(())
}

fn are_refused(rt: &impl Abort, alloc: Global, rows: &[&[&str]]) -> Result<(), Memory> {
    for words in rows {
        check(rt, alloc, words, Status::Usage, USAGE)?;
    }
    Ok(())
}

#[test]
fn other_words_are_refused(rt: HostRuntime) -> Result<(), Memory> {
    are_refused(
        &rt,
        rt.alloc(),
        &[
            &[],
            &["--help"],
            &["trial", "0"],
            &["trial", "401"],
            &["trial", "+1"],
            &["solve", "", "q"],
            &["solve", "1m", "q"],
            &["solve", "_m", "q"],
            &["solve", "m.sig", "q"],
            &["solve", "e", "-"],
            &["solve", "e", "-q"],
            &["solve", "e", "--help"],
            &["solve", "e", "true", "more"],
            &["compile", "e", "e"],
            &["session", "e", "true"],
            &["session", "1m"],
            &["query", "e"],
        ],
    )
}

#[test]
fn other_options_are_refused(rt: HostRuntime) -> Result<(), Memory> {
    are_refused(
        &rt,
        rt.alloc(),
        &[
            &["solve", "e", "true", "--steps"],
            &["solve", "e", "true", "--steps="],
            &["solve", "e", "true", "--steps=100000001"],
            &["solve", "e", "true", "--steps=0000000001"],
            &["solve", "e", "true", "--answers=0"],
            &["solve", "e", "true", "--answers=100001"],
            &["solve", "e", "true", "--watch=true"],
            &["solve", "e", "true", "--step=3"],
            &["query", "e", "true", "--answers=0"],
            &["lambda", "e", "true", "--steps=1"],
            &["check", "e", "true", "--answers=1"],
            &["prove", "e", "true", "--watch"],
            &["session", "e", "--watch"],
            &["session", "e", "--steps=100000001"],
            &["link", "e", "--steps=1"],
        ],
    )
}
