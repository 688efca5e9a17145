// Limits of texts and of sets, each at its number and one past it.

use crate::asking::{ask, with_files};
use lp_base::{MemFolder, Memory, Status};
use std::alloc::Global;

fn push_times(text: &mut String, piece: &str, count: u64) -> Result<(), Memory> {
    for _ in 0..count {
        text.push_str(piece)?;
    }
    Ok(())
}

// A text with a piece in it so many times, and another piece as many times behind what stands between them.
fn repeated(alloc: Global, parts: [&str; 5], count: u64) -> Result<String, Memory> {
    let [front, piece, between, other, back] = parts;
    let mut text = String::from_str(alloc, front)?;
    push_times(&mut text, piece, count)?;
    text.push_str(between)?;
    push_times(&mut text, other, count)?;
    text.push_str(back)?;
    Ok(text)
}

const SIGNATURE: &str =
    "sig m. kind i type. type a i. type g i -> i. type p i -> o. type q o. type f A -> B.";

const ONE: &str = "answer 1\nno more answers\n";

#[test]
fn sentences_have_limits(rt: HostRuntime) -> Result<(), Memory> {
    let alloc = rt.alloc();
    // `p` on a function that is doubled so many times, on `a`; a head on so many arguments; so many abstractions; a list of so many items.
    let doubled = ["module m. p (", "(h\\ y\\ h (h y)) (", "g", ")", " a)."];
    let applied = ["module m. q :- f", " 1", " = 1", "", "."];
    let bound = ["module m. q :- f (", "x\\", "1", "", ") = 1."];
    let listed = ["module m. q :- f [1", ",1", "", "", "] = 1."];
    for (parts, count, status, written) in [
        (doubled, 10, Status::Done, ONE),
        (doubled, 11, Status::Limit, "limit: nesting\n"),
        (applied, 255, Status::Done, ONE),
        (applied, 256, Status::Limit, "limit: arguments\n"),
        (bound, 2000, Status::Limit, "limit: nesting\n"),
        (listed, 1990, Status::Done, ONE),
        (listed, 2000, Status::Limit, "limit: nesting\n"),
    ] {
        let text = repeated(alloc, parts, count)?;
        let files = [("m.sig", SIGNATURE), ("m.mod", text.as_str())];
        with_files(&rt, alloc, &files, "m", "true", status, written)?;
    }
    Ok(())
}

// A chain of modules in which each accumulates the one before it twice, and `m`, which accumulates these: 4,095 copies lie below `l`, itself
// one of them.
fn doubled_modules(alloc: Global, root: &str) -> Result<MemFolder, Memory> {
    let names = ["a", "b", "c", "d", "e", "f", "g", "h", "i", "j", "k", "l"];
    let mut held = Vec::new(alloc);
    let mut rest = String::new(alloc);
    for name in names {
        let signature = format!(in alloc; "sig {name}.")?;
        held.push((format!(in alloc; "{name}.sig")?, signature.into_bytes()))?;
        let module = format!(in alloc; "module {name}.{rest}")?;
        held.push((format!(in alloc; "{name}.mod")?, module.into_bytes()))?;
        rest = format!(in alloc; " accumulate {name}, {name}.")?;
    }
    held.push((String::from_str(alloc, "m.sig")?, b"sig m.".to_vec(alloc)?))?;
    held.push((
        String::from_str(alloc, "m.mod")?,
        format!(in alloc; "module m. accumulate {root}.")?.into_bytes(),
    ))?;
    Ok(MemFolder::new(held, Vec::new(alloc)))
}

// A folder with `m.mod` and a signature `m` that names so many signatures, and these.
fn many_files(alloc: Global, count: u32) -> Result<MemFolder, Memory> {
    let mut held = Vec::new(alloc);
    let mut text = String::from_str(alloc, "sig m. accum_sig m0")?;
    for i in 0..count {
        if i > 0 {
            text.push_str(format!(in alloc; ",m{i}")?.as_str())?;
        }
        held.push((
            format!(in alloc; "m{i}.sig")?,
            format!(in alloc; "sig m{i}.")?.into_bytes(),
        ))?;
    }
    text.push_str(".")?;
    held.push((String::from_str(alloc, "m.sig")?, text.into_bytes()))?;
    held.push((
        String::from_str(alloc, "m.mod")?,
        b"module m.".to_vec(alloc)?,
    ))?;
    Ok(MemFolder::new(held, Vec::new(alloc)))
}

#[test]
fn sets_have_limits(rt: HostRuntime) -> Result<(), Memory> {
    let alloc = rt.alloc();
    for (root, status, written) in [
        ("l", Status::Done, ONE),
        ("l, a", Status::Limit, "limit: copies\n"),
    ] {
        let mut held = doubled_modules(alloc, root)?;
        ask(&rt, alloc, &mut held, "m", "true", status, written)?;
    }
    for (count, status, written) in [
        (254, Status::Done, ONE),
        (255, Status::Limit, "limit: modules\n"),
    ] {
        let mut held = many_files(alloc, count)?;
        ask(&rt, alloc, &mut held, "m", "true", status, written)?;
    }
    Ok(())
}

// X1 = p X0 X0, X2 = p X1 X1 and so on: the types share their parts, so that they are small, but a record has a register for each occurrence of a part.
#[test]
fn types_are_shared(rt: HostRuntime) -> Result<(), Memory> {
    let alloc = rt.alloc();
    let files = [
        (
            "m.sig",
            "sig m. kind pr type -> type -> type. type p A -> B -> pr A B.",
        ),
        ("m.mod", "module m."),
    ];
    for (count, status, written) in [
        (13u32, Status::Done, "no more answers\n"),
        (14, Status::Limit, "limit: registers\n"),
        (300, Status::Limit, "limit: registers\n"),
    ] {
        let mut query = String::from_str(alloc, "1 < 0")?;
        for at in 0..count {
            let next = at + 1;
            let goal = format!(in alloc; ", X{next} = p X{at} X{at}")?;
            query.push_str(goal.as_str())?;
        }
        with_files(&rt, alloc, &files, "m", query.as_str(), status, written)?;
    }
    Ok(())
}
