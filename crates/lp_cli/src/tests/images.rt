// Queries on images, one by one and in sessions.

use super::run_all;
use lp_base::{Memory, Status};
use lp_given::folder;

const FILES: [(&str, &str); 8] = [
    (
        "lists.sig",
        "sig lists. type append list A -> list A -> list A -> o.",
    ),
    (
        "lists.mod",
        "module lists. append nil L L. append (X :: L1) L2 (X :: L3) :- append L1 L2 L3.",
    ),
    (
        "lists.qry",
        "append X Y (1 :: nil)\nappend 1 nil X\n\n \t\nprint Y. append X Y (1 :: nil)\nprint Z. true\nprint X Y\nprint _. true\n  print X. X = \"a\nprint Y X. (X = 1, Y = 2).",
    ),
    ("loop.sig", "sig loop. type r, q o."),
    ("loop.mod", "module loop. r :- r. q."),
    ("loop.qry", "r\nq, q\n"),
    ("e.sig", "sig e."),
    ("e.mod", "module e."),
];

const SPLIT: &str = "append X Y (1 :: nil)";

const SAID: &str =
    "query 1\nanswer 1\n  X = nil\n  Y = 1 :: nil\nanswer 2\n  X = 1 :: nil\n  Y = nil\nno more answers\nquery 2\nsource: query:1:1: no typing\nquery 3\nanswer 1\n  Y = 1 :: nil\nanswer 2\n  Y = nil\nno more answers\nquery 4\nsource: query:1:7: undeclared name Z\nquery 5\nsource: query:1:10: unexpected token\nquery 6\nsource: query:1:7: unexpected token\nquery 7\nsource: query:1:16: unclosed string\nquery 8\nanswer 1\n  Y = 2\n  X = 1\nno more answers\nqueries 8, answers 5\n";

const COUNTED: &str =
    "answer 1\n  X = nil\n  Y = 1 :: nil\nanswer 2\n  X = 1 :: nil\n  Y = nil\nno more answers\ngoals 2, backs 2, answers 2, cuts 0\n";

#[test]
fn images_are_asked(rt: HostRuntime) -> Result<(), Memory> {
    let alloc = rt.alloc();
    let mut held = folder(alloc, &FILES, &[])?;
    run_all(
        &rt,
        alloc,
        &mut held,
        &[
            (
                &["query", "lists", SPLIT],
                Status::Missing,
                "missing: lists.lp\n",
            ),
            (
                &["session", "lists"],
                Status::Missing,
                "missing: lists.lp\n",
            ),
            (&["compile", "lists"], Status::Done, "wrote lists.lpo\n"),
            (&["link", "lists"], Status::Done, "wrote lists.lp\n"),
            (&["query", "lists", SPLIT, "--watch"], Status::Done, COUNTED),
            (
                &["query", "lists", SPLIT, "--answers=1"],
                Status::Done,
                "answer 1\n  X = nil\n  Y = 1 :: nil\nstopped: answers\n",
            ),
            (
                &["query", "lists", "append 1 nil X"],
                Status::Source,
                "source: query:1:1: no typing\n",
            ),
            (&["session", "lists"], Status::Done, SAID),
            (&["compile", "loop"], Status::Done, "wrote loop.lpo\n"),
            (&["link", "loop"], Status::Done, "wrote loop.lp\n"),
            (
                &["query", "loop", "r", "--steps=10"],
                Status::Steps,
                "stopped: steps\n",
            ),
            (
                &["session", "loop", "--steps=10"],
                Status::Done,
                "query 1\nstopped: steps\nquery 2\nanswer 1\nno more answers\nqueries 2, answers 1\n",
            ),
            (&["compile", "e"], Status::Done, "wrote e.lpo\n"),
            (&["link", "e"], Status::Done, "wrote e.lp\n"),
            (&["session", "e"], Status::Missing, "missing: e.qry\n"),
        ],
    )
}
