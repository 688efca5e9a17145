// Negated goals.

use crate::asking::within;
use lp_base::{Memory, Status};

const FILES: [(&str, &str); 2] = [
    (
        "neg.sig",
        "sig neg. kind i type. type a, b i. type p, q, lone, some i -> o. type r o. type has list A -> o. type wrap A -> i. type ints list int -> o.",
    ),
    (
        "neg.mod",
        "module neg. p a. p b. q a. lone X :- p X, not (q X). r :- r. has L. ints nil. some (wrap L) :- ints L.",
    ),
];

const OPEN: &str = "stopped: open negation\n";

const FAILS: &str = "no more answers\n";

const HOLDS: &str = "answer 1\nno more answers\n";

const IN_TERM: &str = "source: query:1:1: implication or cut in a term\n";

#[test]
fn what_has_no_proof_is_denied(rt: HostRuntime) -> Result<(), Memory> {
    let alloc = rt.alloc();
    for (query, status, written) in [
        (
            "lone X",
            Status::Done,
            "answer 1\n  X = b\nno more answers\n",
        ),
        ("not (sigma X\\ q X)", Status::Done, FAILS),
        ("pi x\\ not (q x)", Status::Done, HOLDS),
        ("pi x\\ (q x => not (q x))", Status::Done, FAILS),
        ("not (not (q a))", Status::Done, HOLDS),
        (
            "p X, not (q b, !)",
            Status::Done,
            "answer 1\n  X = a\nanswer 2\n  X = b\nno more answers\n",
        ),
        // What is free makes it open, also in an assumption and in a type.
        ("not (q X)", Status::OpenNot, OPEN),
        ("not (not (q X))", Status::OpenNot, OPEN),
        ("q Y => not (q b)", Status::OpenNot, OPEN),
        ("not (has nil)", Status::OpenNot, OPEN),
        ("has [1] => not (has [a])", Status::Done, FAILS),
        // The list in `X` may be one of texts, of which `some` does not hold.
        ("X = wrap nil, not (some X)", Status::OpenNot, OPEN),
        // Neither an answer with a pair nor a search that was cut says anything.
        ("not (sigma F\\ F a = a)", Status::OpenNot, OPEN),
        ("not (sigma X\\ p X, !, q b)", Status::OpenNot, OPEN),
        // An end inside is that of the run.
        ("not r", Status::Steps, "stopped: steps\n"),
        (
            "not (sigma P\\ P)",
            Status::Flexible,
            "stopped: flexible goal\n",
        ),
        (
            "not (sigma N\\ N is 1 div 0)",
            Status::Arithmetic,
            "stopped: arithmetic: zero divisor\n",
        ),
        ("X = (not (q a))", Status::Source, IN_TERM),
        ("X = not", Status::Source, IN_TERM),
    ] {
        within(&rt, alloc, &FILES, ("neg", query, 20), status, written)?;
    }
    Ok(())
}
