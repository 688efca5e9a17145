// Certificates of answers: what `prove` writes, and what `check` says of them and of others.

use super::{run_all, with_files};
use lp_base::{Memory, Status};
use lp_given::{FILES, folder};

// The certificate of the answer to `q X` on module `u`.
const ONE: &str =
    "LPCT\x01\x00\x01\x00\x00\x00\x00\x00\x00\x00\x01\x00\x00\x00\x01 \x00\x00\x00\x0a\x00\x00\x00\x00\x00\x00\x14";

const MORE: [(&str, &str); 2] = [
    (
        "s.sig",
        "sig s. kind i type. type a, b, c i. type f i -> i -> i. type g i -> i. type p, q, r, t i -> o. type e, e2 i -> i -> o. type deep, one i -> o. type len list A -> int -> o. type maps (A -> B -> o) -> list A -> list B -> o. type hp (i -> i) -> o. type cj i -> i -> o.",
    ),
    (
        "s.mod",
        "module s. p a. p b. q a. (r X, t X) :- q X. len nil 0. len (X :: L) N :- len L M, N is M + 1. maps P nil nil. maps P (X :: L) (Y :: K) :- P X Y, maps P L K. e X Y :- sigma Z\\ (p Z, e2 X Z), p Y. e2 X Y :- X = Y ; X = (g Y). deep X :- pi x\\ (p x => sigma y\\ (p y, (q x => q y))). hp F :- pi x\\ F x = f x (G x). pi x\\ (cj x a, pi y\\ (cj y b :- q y, p x)). one X :- p X, !.",
    ),
];

const NO_MORE: &str = "\nno more answers\n";

#[test]
fn certificates_are_accepted(rt: HostRuntime) -> Result<(), Memory> {
    let alloc = rt.alloc();
    let mut held = folder(alloc, &MORE, &[])?;
    for (query, proved, last, checked) in [
        ("r X, t Y", "proved 1 of 1", NO_MORE, "accepted 1\n"),
        ("F a = g a", "proved 0 of 1", NO_MORE, "accepted 0\n"),
        ("len [a, b, c] N", "proved 1 of 1", NO_MORE, "accepted 1\n"),
        (
            "maps (x\\ y\\ sigma w\\ (y = f x w)) [a, b] L",
            "proved 1 of 1",
            NO_MORE,
            "accepted 1\n",
        ),
        ("e X Y", "proved 8 of 8", NO_MORE, "accepted 8\n"),
        ("deep X", "proved 2 of 2", NO_MORE, "accepted 2\n"),
        ("hp F", "proved 1 of 1", NO_MORE, "accepted 1\n"),
        ("cj X Y", "proved 3 of 3", NO_MORE, "accepted 3\n"),
        (
            "one X",
            "proved 1 of 1",
            "\nno more answers; some were cut away\n",
            "accepted 1\n",
        ),
        (
            "(pi x\\ (p x, q x)) => q c",
            "proved 1 of 1",
            NO_MORE,
            "accepted 1\n",
        ),
        (
            "(F a = a ; F = (x\\ b))",
            "proved 1 of 2",
            NO_MORE,
            "accepted 1\n",
        ),
        (
            "X is \"a\" ^ \"b\", Y is size X, Y =< 2",
            "proved 1 of 1",
            NO_MORE,
            "accepted 1\n",
        ),
    ] {
        let mut line = String::from_str(alloc, proved)?;
        line.push_str(last)?;
        run_all(
            &rt,
            alloc,
            &mut held,
            &[
                (&["prove", "s", query], Status::Done, line.as_str()),
                (&["check", "s", query], Status::Done, checked),
            ],
        )?;
    }
    Ok(())
}

#[test]
fn a_certificate_has_its_bytes(rt: HostRuntime) -> Result<(), Memory> {
    let alloc = rt.alloc();
    let mut held = folder(alloc, &FILES, &[])?;
    run_all(
        &rt,
        alloc,
        &mut held,
        &[
            (&["check", "u", "q X"], Status::Missing, "missing: u.cert\n"),
            (
                &["prove", "loop", "r", "--steps=10"],
                Status::Steps,
                "proved 0 of 0\nstopped: steps\n",
            ),
            (
                &["prove", "e", "not true"],
                Status::Source,
                "source: query:1:1: unsupported not\n",
            ),
            (
                &["prove", "u", "q X", "--answers=1"],
                Status::Done,
                "proved 1 of 1\nstopped: answers\n",
            ),
            (&["check", "u", "q X"], Status::Done, "accepted 1\n"),
        ],
    )?;
    assert_eq!(rt; held.get("u.cert"), Some(ONE.as_bytes()));
    Ok(())
}

const SIGNATURE: &str = "sig m. kind i type. type a i. type q i -> o.";

// Queries on the module whose one clause is `q a`, certificates, and what is said of them.
const ROWS: [(&str, &str, Status, &str); 14] = [
    ("q X", ONE, Status::Done, "accepted 1\n"),
    ("q X", "", Status::Image, "image: m.cert: truncated at 0\n"),
    (
        "q X",
        "LPCT\x01\x00\x01\x00\x00\x00\x00\x00\x00\x00\x01\x00\x00\x00\x01!\x00\x00\x00\x0a\x00\x00\x00\x00\x00\x00\x14",
        Status::No,
        "no: certificate 1\n",
    ),
    (
        "q X",
        "LPCT\x01\x00\x01\x00\x00\x00\x00\x00\x00\x00\x01\x00\x00\x00\x01 \x00\x00\x00\x0a\x00\x00\x00\x00\x00\x00",
        Status::Image,
        "image: m.cert: truncated at 30\n",
    ),
    (
        "q X",
        "LPCT\x01\x00\x01\x00\x00\x00\x00\x00\x00\x00\x01\x00\x00\x00\x01 \x00\x00\x00\x0a\x00\x00\x00\x00\x00\x00\x14\x00",
        Status::Image,
        "image: m.cert: trailing bytes at 31\n",
    ),
    (
        "q X",
        "MPCT\x01\x00\x00\x00\x00\x00",
        Status::Image,
        "image: m.cert: bad magic\n",
    ),
    (
        "q X",
        "LPCT\x02\x00\x00\x00\x00\x00",
        Status::Image,
        "image: m.cert: bad version 2\n",
    ),
    (
        "q X",
        "LPCT\x01\x00\x01\x00\x00\x00\x00\x00\x00\x00\x01\x00\x00\x00\x01\x22\x00\x00\x00\x0a\x00\x00\x00\x00\x00\x00\x14",
        Status::Image,
        "image: m.cert: bad field at 19\n",
    ),
    (
        "q X",
        "LPCT\x01\x00\x00\x00\x00\x00",
        Status::Done,
        "accepted 0\n",
    ),
    (
        "pi x\\ (q x => q x)",
        "LPCT\x01\x00\x01\x00\x00\x00\x00\x00\x00\x00\x00\x00\x00\x00\x06\x00\x07\x07\x01\x02\x00\x00\x00\x07\x01!\x00\x00\x00\x04\x01\x00\x00\x00\x07\x01!\x00\x00\x00\x04\x01\x00\x00\x00\x07\x0a\x01\x00\x00\x00\x00\x00\x14",
        Status::Done,
        "accepted 1\n",
    ),
    (
        "(q a, q a) => q a",
        "LPCT\x01\x00\x01\x00\x00\x00\x00\x00\x00\x00\x00\x00\x00\x00\x07\x0a\x01\x00\x00\x00\x00\x00\x12\x02\x14",
        Status::Image,
        "image: m.cert: bad field at 27\n",
    ),
    (
        "X = 2",
        "LPCT\x01\x00\x01\x00\x00\x00\x00\x00\x00\x00\x01\x00\x00\x00\x02\x01\x00\x00\x00\x00\x00\x00\x00\x08",
        Status::No,
        "no: certificate 1\n",
    ),
    (
        "4 is 1 + 2",
        "LPCT\x01\x00\x01\x00\x00\x00\x00\x00\x00\x00\x00\x00\x00\x00\x09",
        Status::No,
        "no: certificate 1\n",
    ),
    (
        "not (q a)",
        ONE,
        Status::Source,
        "source: query:1:1: unsupported not\n",
    ),
];

#[test]
fn certificates_are_judged(rt: HostRuntime) -> Result<(), Memory> {
    let alloc = rt.alloc();
    for (query, bytes, status, line) in ROWS {
        let files = [
            ("m.sig", SIGNATURE),
            ("m.mod", "module m. q a."),
            ("m.cert", bytes),
        ];
        with_files(&rt, alloc, &files, &["check", "m", query], status, line)?;
    }
    Ok(())
}
