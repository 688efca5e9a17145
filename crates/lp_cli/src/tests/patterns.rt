// Programs and queries that are pattern text, and others.

use super::{check, with_files};
use lp_base::{Memory, Status};

// A module of which the second clause is none: its variable R stands on another variable.
const BETA: [(&str, &str); 2] = [
    (
        "beta.sig",
        "sig beta. kind tm type. type abs (tm -> tm) -> tm. type app tm -> tm -> tm. type ev tm -> tm -> o.",
    ),
    (
        "beta.mod",
        "module beta. ev (abs R) (abs R). ev (app M N) V :- ev M (abs R), ev N U, ev (R U) V.",
    ),
];

// A module whose only clause is pattern text, and that accumulates one of which the second is none.
const SET: [(&str, &str); 4] = [
    ("low.sig", "sig low. kind i type. type p i -> o. type a i."),
    ("low.mod", "module low. p a. p (F a) :- p a. p (F a)."),
    ("top.sig", "sig top. accum_sig low. type q i -> o."),
    ("top.mod", "module top. accumulate low. q X :- p X."),
];

#[test]
fn queries_are_judged(rt: HostRuntime) -> Result<(), Memory> {
    let alloc = rt.alloc();
    let yes = (Status::Done, "yes\n");
    let no = (Status::No, "no: query\n");
    for (module, query, (status, line)) in [
        ("stlc", "pi x\\ of x A => of (M x) B", yes),
        ("stlc", "of (abs M) T, of (M N) T", no),
        ("fun", "F a = a", no),
        ("fun", "pi x\\ (F x = f x x)", yes),
        ("fun", "pi x\\ (F x x = x)", no),
        ("fun", "pi x\\ sigma H\\ (H x = x)", no),
        ("fun", "sigma H\\ pi x\\ (H x = x)", yes),
        ("fun", "not (sigma H\\ (H a = a))", no),
        ("fun", "not (pi x\\ (F x = x))", yes),
        ("poly", "ints X, tag X S", yes),
        ("e", "sigma P\\ P", yes),
        ("e", "sigma P", no),
        (
            "e",
            "(1",
            (Status::Source, "source: query:1:1: unclosed bracket\n"),
        ),
        ("none", "true", (Status::Missing, "missing: none.sig\n")),
    ] {
        check(&rt, alloc, &["lambda", module, query], status, line)?;
    }
    Ok(())
}

// The accumulated module goes first, and clauses go before the query.
#[test]
fn clauses_are_judged(rt: HostRuntime) -> Result<(), Memory> {
    let alloc = rt.alloc();
    let given = ["lambda", "beta", "true"];
    with_files(&rt, alloc, &BETA, &given, Status::No, "no: beta clause 2\n")?;
    let given = ["lambda", "top", "q (F a)"];
    with_files(&rt, alloc, &SET, &given, Status::No, "no: low clause 2\n")
}
