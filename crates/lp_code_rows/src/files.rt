// Files: a module as an object, objects as an image, and their code, which is judged at each step.

use lp_base::{MemFolder, Memory};
use lp_build::{Sources, build_image, build_object, gather};
use lp_code::{Image, Object};
use lp_link::link;
use lp_object::{read_image, read_object, write_image, write_object};
use lp_verify::{verify, verify_object};
use std::alloc::Global;

// One kind, a constant of it and a fact.
const FACT: [(&str, &[u8]); 2] = [
    ("u.sig", b"sig u. kind i type. type a i. type q i -> o."),
    ("u.mod", b"module u. q a."),
];

// Assumptions under a `pi`, an `=>` and a `;`, and a module that is accumulated twice.
const TYPED: [(&str, &[u8]); 4] = [
    (
        "stlc.sig",
        b"sig stlc. kind tm, ty type. type abs (tm -> tm) -> tm. type app tm -> tm -> tm. type arr ty -> ty -> ty. type of tm -> ty -> o.",
    ),
    (
        "stlc.mod",
        b"module stlc. accumulate c, c. of (app M N) B :- of M (arr A B), of N A. of (abs M) (arr A B) :- pi x\\ (of x A => (of (M x) B ; sigma y\\ of (M x) y, !)).",
    ),
    ("c.sig", b"sig c. type r list A -> A -> o."),
    (
        "c.mod",
        b"module c. type k int -> o. r (X :: nil) X. r (X :: L) Y :- k 3, r L Y. k 3.",
    ),
];

fn loaded(
    alloc: Global,
    files: &[(&str, &[u8])],
    root: &str,
    all: bool,
) -> Result<Option<Sources>, Memory> {
    let mut held = Vec::new(alloc);
    for (name, bytes) in files {
        held.push((
            String::from_str(alloc, *name)?,
            Vec::from_slice(alloc, *bytes)?,
        ))?;
    }
    let mut folder = MemFolder::new(held, Vec::new(alloc));
    Ok(gather(alloc, &mut folder, root, all).ok())
}

// The bytes of the image of one object, which is written, read and judged on the way.
fn linked(alloc: Global, object: &Object) -> Option<Vec<u8>> {
    let bytes = write_object(alloc, object).ok()?;
    let object = read_object(alloc, bytes.as_slice()).ok()?;
    verify_object(alloc, &object).ok()?;
    let mut objects = Vec::new(alloc);
    objects.push(object).ok()?;
    let image = link(alloc, objects.as_slice(), 0).ok()?;
    judged(alloc, &image)
}

// The bytes of an image, if the code that they hold is fine and they are written again as they are.
fn judged(alloc: Global, image: &Image) -> Option<Vec<u8>> {
    let bytes = write_image(alloc, image).ok()?;
    let read = read_image(alloc, bytes.as_slice()).ok()?;
    let verified = verify(alloc, read).ok()?;
    let again = write_image(alloc, verified.image()).ok()?;
    if again.as_slice() == bytes.as_slice() {
        return Some(bytes);
    }
    None
}

fn image_bytes(alloc: Global, files: &[(&str, &[u8])], root: &str) -> Option<Vec<u8>> {
    let sources = loaded(alloc, files, root, true).ok()??;
    let image = build_image(alloc, &sources).ok()?;
    judged(alloc, &image)
}

#[test]
fn a_fact(rt: HostRuntime) {
    let alloc = rt.alloc();
    let sources = loaded(alloc, &FACT, "u", false).ok().flatten();
    let object = sources.and_then(|sources| build_object(alloc, &sources, 1).ok());
    let bytes = object.and_then(|object| linked(alloc, &object));
    let length = bytes.as_ref().map(|bytes| bytes.len());
    assert_eq!(rt; length, Some(116), "length");
    let whole = image_bytes(alloc, &FACT, "u");
    let same = match (&bytes, &whole) {
        (Some(bytes), Some(whole)) => bytes.as_slice() == whole.as_slice(),
        _ => false,
    };
    assert!(rt; same, "the same by both ways");
}

#[test]
fn assumptions(rt: HostRuntime) {
    let alloc = rt.alloc();
    assert!(rt; image_bytes(alloc, &TYPED, "stlc").is_some());
}
