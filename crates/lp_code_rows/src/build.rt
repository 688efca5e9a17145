// Files in the order in which they are loaded.

use lp_base::{MemFolder, Memory};
use lp_build::gather;
use std::alloc::Global;

// A folder of these files.
fn folder_of(alloc: Global, files: &[(&str, &[u8])]) -> Result<MemFolder, Memory> {
    let mut held = Vec::new(alloc);
    for (name, bytes) in files {
        held.push((
            String::from_str(alloc, *name)?,
            Vec::from_slice(alloc, *bytes)?,
        ))?;
    }
    Ok(MemFolder::new(held, Vec::new(alloc)))
}

// Files that name each other.
const SET: [(&str, &[u8]); 12] = [
    ("m.sig", b"sig m. accum_sig s, t."),
    ("s.sig", b"sig s. accum_sig u."),
    ("t.sig", b"sig t. accum_sig s, t."),
    ("u.sig", b"sig u."),
    ("m.mod", b"module m. accum_sig v, s. accumulate b, c, m."),
    ("v.sig", b"sig v."),
    ("b.sig", b"sig b."),
    ("b.mod", b"module b. accumulate c."),
    ("c.sig", b"sig c."),
    ("c.mod", b"module c. accum_sig w."),
    ("w.sig", b"sig w. accum_sig m."),
    ("x.sig", b"sig x."),
];

// The names of what is loaded for `m`, each with a space behind it.
fn loaded(alloc: Global, all: bool) -> Result<String, Memory> {
    let mut folder = folder_of(alloc, &SET)?;
    let mut names = String::new(alloc);
    if let Ok(sources) = gather(alloc, &mut folder, "m", all) {
        for number in 0..SET.len() {
            if let Some((name, _bytes)) = sources.file(number as u32) {
                names.push_str(name)?;
                names.push_str(" ")?;
            }
        }
    }
    Ok(names)
}

#[test]
fn files_in_load_order(rt: HostRuntime) -> Result<(), Memory> {
    for (all, want) in [
        (
            true,
            "m.sig s.sig u.sig t.sig m.mod v.sig b.sig b.mod c.sig c.mod w.sig ",
        ),
        (false, "m.sig s.sig u.sig t.sig m.mod v.sig b.sig c.sig "),
    ] {
        assert_eq!(rt; loaded(rt.alloc(), all)?.as_str(), want);
    }
    Ok(())
}
