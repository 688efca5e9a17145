// What files of a set come to, in the order in which they are read.

use crate::asking::with_files;
use lp_base::{Memory, Status};
use std::alloc::Global;
use std::process::Abort;

// Asks `true` of the module `m` of these files.
fn check_set(
    rt: &impl Abort,
    alloc: Global,
    files: &[(&str, &str)],
    status: Status,
    written: &str,
) -> Result<(), Memory> {
    with_files(rt, alloc, files, "m", "true", status, written)
}

#[test]
fn files_are_not_there(rt: HostRuntime) -> Result<(), Memory> {
    let alloc = rt.alloc();
    let rows: [(&[(&str, &str)], &str); 4] = [
        (&[], "missing: m.sig\n"),
        (&[("m.sig", "sig m.")], "missing: m.mod\n"),
        (
            &[("m.sig", "sig m."), ("m.mod", "foo ( . accumulate y.")],
            "missing: y.sig\n",
        ),
        (
            &[
                ("m.sig", "sig m."),
                ("m.mod", "accumulate M. accum_sig y, z."),
            ],
            "missing: y.sig\n",
        ),
    ];
    for (files, written) in rows {
        check_set(&rt, alloc, files, Status::Missing, written)?;
    }
    Ok(())
}

#[test]
fn the_first_fault_is_told(rt: HostRuntime) -> Result<(), Memory> {
    let alloc = rt.alloc();
    let rows: [(&[(&str, &str)], &str); 19] = [
        (
            &[("m.sig", "sig m. {. accum_sig y.")],
            "source: m.sig:1:8: bad byte\n",
        ),
        (
            &[("m.sig", "sig m. accum_sig y, z."), ("y.sig", "sig y. {")],
            "source: y.sig:1:8: bad byte\n",
        ),
        (
            &[("m.sig", "sig m. kind k k."), ("m.mod", "module n. (")],
            "source: m.sig:1:15: unexpected token\n",
        ),
        (
            &[("m.sig", "sig m. infixl o 256."), ("m.mod", "module (")],
            "source: m.sig:1:15: operator number above 255\n",
        ),
        (
            &[
                ("m.sig", "sig m. infixl o 10."),
                ("m.mod", "module m. accum_sig s."),
                ("s.sig", "sig s. infixl p, o 11."),
            ],
            "source: s.sig:1:18: operator declared otherwise o\n",
        ),
        (
            &[
                ("m.sig", "sig m. infixl o 10."),
                ("m.mod", "module m. accumulate s. infixl q 7. infixr q 7."),
                ("s.sig", "sig s. infixl p 11."),
                ("s.mod", "module s."),
            ],
            "source: m.mod:1:44: operator declared otherwise q\n",
        ),
        (
            &[
                ("m.sig", "sig m. type a k."),
                ("m.mod", "module m. accum_sig s."),
                ("s.sig", "sig s. accum_sig s."),
            ],
            "source: s.sig:1:18: cyclic accum_sig s\n",
        ),
        (
            &[
                ("m.sig", "sig m. accum_sig t."),
                ("m.mod", "module m."),
                ("t.sig", "sig t. accum_sig m."),
            ],
            "source: m.sig:1:18: cyclic accum_sig t\n",
        ),
        (
            &[
                ("m.sig", "sig n."),
                ("m.mod", "module m. accum_sig s."),
                ("s.sig", "sig s. type a k."),
            ],
            "source: m.sig:1:5: header name differs\n",
        ),
        (
            &[
                ("m.sig", "sig m. type a k. accum_sig t."),
                ("m.mod", "module m."),
                ("t.sig", "sig t. type bc j."),
            ],
            "source: t.sig:1:16: unknown kind j\n",
        ),
        (
            &[("m.sig", "sig m."), ("m.mod", "module n. accumulate m. a.")],
            "source: m.mod:1:22: cyclic accumulate m\n",
        ),
        (
            &[
                ("m.sig", "sig m."),
                ("m.mod", "module n. accumulate s."),
                ("s.sig", "sig s."),
                ("s.mod", "module s. type a k."),
            ],
            "source: s.mod:1:18: unknown kind k\n",
        ),
        (
            &[
                ("m.sig", "sig m."),
                ("m.mod", "module n. accumulate s."),
                ("s.sig", "sig s."),
                ("s.mod", "module s."),
            ],
            "source: m.mod:1:8: header name differs\n",
        ),
        (
            &[
                ("m.sig", "sig m."),
                ("m.mod", "module m. accumulate t. type c int."),
                ("t.sig", "sig t. kind k type. type c k."),
                ("t.mod", "module t."),
            ],
            "source: m.mod:1:30: declared otherwise c\n",
        ),
        (
            &[
                ("m.sig", "sig m. type c int."),
                ("m.mod", "module m. accumulate t."),
                ("t.sig", "sig t. kind k type. type c k."),
                ("t.mod", "module t."),
            ],
            "source: m.mod:1:22: declared otherwise t\n",
        ),
        (
            &[
                ("m.sig", "sig m."),
                ("m.mod", "module m. accumulate t, u."),
                ("t.sig", "sig t."),
                ("t.mod", "module t. accumulate u."),
                ("u.sig", "sig u."),
                ("u.mod", "module u. accumulate t."),
            ],
            "source: t.mod:1:22: cyclic accumulate u\n",
        ),
        (
            &[
                ("m.sig", "sig m."),
                ("m.mod", "module m. accumulate u, t."),
                ("t.sig", "sig t."),
                ("t.mod", "module t. accumulate m."),
                ("u.sig", "sig u."),
                ("u.mod", "module u."),
            ],
            "source: m.mod:1:25: cyclic accumulate t\n",
        ),
        (
            &[
                ("m.sig", "sig m."),
                ("m.mod", "module m. accumulate u. p 1."),
                ("u.sig", "sig u."),
                ("u.mod", "module u. accumulate u."),
            ],
            "source: u.mod:1:22: cyclic accumulate u\n",
        ),
        (
            &[("m.sig", "sig m. type p o."), ("m.mod", "module m. p. q.")],
            "source: m.mod:1:14: undeclared name q\n",
        ),
    ];
    for (files, written) in rows {
        check_set(&rt, alloc, files, Status::Source, written)?;
    }
    Ok(())
}

// A set whose declarations are read in many ways: one name declared twice alike, abbreviations before their kinds, names of accumulated
// signatures and modules, and one module accumulated twice.
const SET: [(&str, &str); 7] = [
    (
        "m.sig",
        "sig m. accum_sig s, t. type c b. typeabbrev b i. kind i type. type f A -> B. type f B -> A. type pi (A -> o) -> o. typeabbrev (l A) list A. typeabbrev (l B) list B. infix likes, = 130.",
    ),
    (
        "s.sig",
        "sig s. accum_sig t. type g _ -> _. type g A -> B. prefix deep 9.",
    ),
    (
        "t.sig",
        "sig t. accum_sig u. kind u type. type deep u -> u. type likes A -> A -> o.",
    ),
    ("u.sig", "sig u. kind u type."),
    (
        "m.mod",
        "module m. accumulate v, v. accum_sig s. local d b. localkind k type. type e k. X likes X. c likes d.",
    ),
    ("v.sig", "sig v. kind k type. type e k."),
    ("v.mod", "module v. typeabbrev b c. typeabbrev c int."),
];

#[test]
fn sets_are_read(rt: HostRuntime) -> Result<(), Memory> {
    let alloc = rt.alloc();
    for (query, status, written) in [
        (
            "c likes X",
            Status::Done,
            "answer 1\n  X = c\nanswer 2\n  X = d$1\nno more answers\n",
        ),
        (
            "X = (likes), pi y : u\\ (deep y) = F y",
            Status::Done,
            "answer 1\n  X = (likes)\n  F = (deep)\nno more answers\n",
        ),
        (
            "d likes c",
            Status::Source,
            "source: query:1:1: undeclared name d\n",
        ),
        (
            "X = e",
            Status::Source,
            "source: query:1:5: undeclared name e\n",
        ),
    ] {
        with_files(&rt, alloc, &SET, "m", query, status, written)?;
    }
    Ok(())
}
