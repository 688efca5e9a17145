// Objects and images as files.

use super::{run_all, run_on};
use lp_base::{Folder, MemFolder, Memory, Status};
use lp_given::{FILES, folder};
use lp_watch::Watch;
use std::alloc::Global;
use std::process::Abort;

// The image of module `u` in the first version, and as it is written today.
const FIRST: &[u8] =
    b"LPIM\x01\x00\x01\x00u\x01\x00\x01\x00i\x00\x00\x00\x02\x00\x01\x00a\x00\x00\x00\x01\x08\x00\x00\x00\x01\x00q\x00\x00\x00\x02\x01\x08\x00\x01\x00\x00\x00\x00\x01\x00\x00\x00\x01\x00\x21\x00\x00\x00\x00\x00\x00\x00\x00\x00\x01\x20\x00\x07\x00\x00\x00\x0e\x00\x20\x00\x00\x11\x22";

const TODAY: &[u8] =
    b"LPIM\x02\x00\x01\x00u\x01\x00\x00\x00\x01\x00i\x00\x00\x00\x02\x00\x00\x00\x01\x00a\x00\x00\x00\x01\x08\x00\x00\x00\x00\x00\x01\x00q\x00\x00\x00\x02\x01\x08\x00\x00\x00\x01\x00\x00\x00\x00\x00\x00\x01\x00\x00\x00\x01\x00\x21\x00\x00\x00\x00\x00\x00\x00\x00\x00\x00\x00\x01\x20\x00\x00\x00\x09\x00\x00\x00\x0e\x00\x20\x00\x00\x00\x00\x11\x22\x01\x00\x00\x00\x21\x00\x00\x00\x01\x00\x00\x00\x01\x20\x00\x00\x00\x01\x00\x00\x00\x00\x00\x00\x00";

// The object of a module `h` that uses `../h`.
const HOSTILE: &[u8] = b"LPOB\x01\x00\x01\x00h\x00\x00\x00\x00\x01\x00\x04\x00../h\x00\x00\x00\x00";

fn put(rt: &impl Abort, alloc: Global, held: &mut MemFolder, files: &[(&str, &[u8])]) {
    for (name, bytes) in files {
        assert!(rt; held.write(alloc, name, bytes).is_ok());
    }
}

#[test]
fn objects_and_images(rt: HostRuntime) -> Result<(), Memory> {
    let alloc = rt.alloc();
    let mut held = folder(alloc, &FILES, &[])?;
    put(
        &rt,
        alloc,
        &mut held,
        &[
            ("u.lp", FIRST),
            ("v.lp", FIRST),
            ("h.lpo", HOSTILE),
            ("x.sig", b"sig x."),
            ("x.mod", b"module x. accumulate y."),
            ("y.sig", b"sig y."),
            ("y.mod", b"module y. accumulate x."),
        ],
    );
    run_all(
        &rt,
        alloc,
        &mut held,
        &[
            (&["migrate", "u"], Status::Done, "migrated u.lp\n"),
            (
                &["migrate", "v"],
                Status::Image,
                "image: v.lp: name differs\n",
            ),
            (&["link", "u"], Status::Missing, "missing: u.lpo\n"),
            (&["link", "h"], Status::Missing, "missing: ../h.lpo\n"),
            (&["compile", "m"], Status::Done, "wrote m.lpo\n"),
            (&["link", "m"], Status::Missing, "missing: a.lpo\n"),
            (&["compile", "a"], Status::Done, "wrote a.lpo\n"),
            (&["compile", "b"], Status::Done, "wrote b.lpo\n"),
            (&["compile", "c"], Status::Done, "wrote c.lpo\n"),
            (&["link", "m"], Status::Done, "wrote m.lp\n"),
            (&["compile", "x"], Status::Done, "wrote x.lpo\n"),
            (&["compile", "y"], Status::Done, "wrote y.lpo\n"),
            (&["link", "x"], Status::Limit, "limit: copies\n"),
        ],
    )?;
    assert_eq!(rt; held.get("u.lp"), Some(TODAY));
    assert_eq!(rt; held.get("x.lp"), None);
    put(
        &rt,
        alloc,
        &mut held,
        &[
            ("a.sig", b"sig a. kind t type. type geta t -> t -> o."),
            ("a.mod", b"module a. accumulate c. geta X X :- get X."),
            ("u.lp", &[]),
        ],
    );
    run_all(
        &rt,
        alloc,
        &mut held,
        &[
            (&["compile", "a"], Status::Done, "wrote a.lpo\n"),
            (
                &["link", "m"],
                Status::Image,
                "image: a.lpo: signatures differ geta\n",
            ),
            (
                &["migrate", "u"],
                Status::Image,
                "image: u.lp: truncated at 0\n",
            ),
            (&["compile", "u"], Status::Done, "wrote u.lpo\n"),
            (&["link", "u"], Status::Done, "wrote u.lp\n"),
        ],
    )?;
    assert_eq!(rt; held.get("u.lp"), Some(TODAY));
    Ok(())
}

// The folder's calls fail one after the other, the last of which writes the file.
fn fail_each(
    rt: &impl Abort,
    alloc: Global,
    held: &MemFolder,
    words: [&str; 2],
    names: &[&str],
    lines: &[&str],
) -> Result<(), Memory> {
    let mut nobody: Vec<Box<dyn Watch>> = Vec::new(alloc);
    for (call, line) in lines.iter().enumerate() {
        let mut files = Vec::new(alloc);
        for name in names {
            let bytes = held.get(name).unwrap_or(b"").to_vec(alloc)?;
            files.push((String::from_str(alloc, name)?, bytes))?;
        }
        let mut failing = MemFolder::new(files, [call as u64].to_vec(alloc)?);
        let status = if line.starts_with("read") {
            Status::ReadFault
        } else {
            Status::WriteFault
        };
        run_on(rt, alloc, &mut failing, &words, &mut nobody, status, line)?;
    }
    Ok(())
}

#[test]
fn faults_of_the_folder(rt: HostRuntime) -> Result<(), Memory> {
    let alloc = rt.alloc();
    let mut held = folder(alloc, &FILES, &[])?;
    run_all(
        &rt,
        alloc,
        &mut held,
        &[
            (&["compile", "m"], Status::Done, "wrote m.lpo\n"),
            (&["compile", "a"], Status::Done, "wrote a.lpo\n"),
            (&["compile", "b"], Status::Done, "wrote b.lpo\n"),
            (&["compile", "c"], Status::Done, "wrote c.lpo\n"),
        ],
    )?;
    fail_each(
        &rt,
        alloc,
        &held,
        ["compile", "m"],
        &["m.sig", "m.mod", "a.sig", "b.sig"],
        &[
            "read fault: m.sig\n",
            "read fault: m.mod\n",
            "read fault: a.sig\n",
            "read fault: b.sig\n",
            "write fault: m.lpo\n",
        ],
    )?;
    fail_each(
        &rt,
        alloc,
        &held,
        ["link", "m"],
        &["m.lpo", "a.lpo", "b.lpo", "c.lpo"],
        &[
            "read fault: m.lpo\n",
            "read fault: a.lpo\n",
            "read fault: c.lpo\n",
            "read fault: b.lpo\n",
            "write fault: m.lp\n",
        ],
    )
}
