// What is printed and exited with, and the folders and sinks in memory at work.

use lp_base::{
    Failed, Folder, Limit, MemFolder, MemSink, Memory, ReadErr, Sink, Status, SureFolder, SureSink,
    WriteErr,
};
use std::alloc::Global;
use std::process::Abort;

#[test]
fn statuses_have_their_numbers_and_limits_their_names(rt: HostRuntime) {
    let statuses = [
        Status::Done,
        Status::Usage,
        Status::Source,
        Status::Image,
        Status::Steps,
        Status::Flexible,
        Status::Arithmetic,
        Status::Deep,
        Status::ReadFault,
        Status::WriteFault,
        Status::Memory,
        Status::Limit,
        Status::Missing,
        Status::OpenNot,
    ];
    for (number, status) in statuses.iter().enumerate() {
        assert_eq!(rt; status.number() as usize, number);
    }
    for (limit, name) in [
        (Limit::File, "file"),
        (Limit::Image, "image"),
        (Limit::Modules, "modules"),
        (Limit::Copies, "copies"),
        (Limit::Names, "names"),
        (Limit::NameLength, "name length"),
        (Limit::Arguments, "arguments"),
        (Limit::Nesting, "nesting"),
        (Limit::NormalForm, "normal form"),
        (Limit::Clauses, "clauses"),
        (Limit::Registers, "registers"),
        (Limit::Text, "string"),
    ] {
        assert_eq!(rt; limit.name(), name);
    }
}

// A list of one file, `a` with the bytes `xyz`.
fn one_file(alloc: Global) -> Result<Vec<(String, Vec<u8>)>, Memory> {
    let mut files = Vec::new(alloc);
    files.push((String::from_str(alloc, "a")?, b"xyz".to_vec(alloc)?))?;
    Ok(files)
}

// Reads and writes a folder that holds the one file and does not fail.
fn use_folder<F: Folder>(rt: &impl Abort, alloc: Global, folder: &mut F) {
    for (name, limit, want) in [
        ("a", 3, Ok(b"xyz".as_slice())),
        ("a", 2, Err(ReadErr::TooLong(3))),
        ("b", 9, Err(ReadErr::Missing)),
    ] {
        let got = folder.read(alloc, name, limit);
        match (&got, want) {
            (Ok(bytes), Ok(wanted)) => assert_eq!(rt; bytes.as_slice(), wanted),
            (Err(got), Err(want)) => assert_eq!(rt; *got, want),
            _ => assert!(rt; false, "{name}"),
        }
    }
    assert_eq!(rt; folder.write(alloc, "b", b"new"), Ok(()));
    assert_eq!(rt; folder.write(alloc, "a", b""), Ok(()));
}

#[test]
fn folders_hold_what_is_written(rt: HostRuntime) -> Result<(), Memory> {
    let alloc = rt.alloc();
    let mut sure = SureFolder::new(one_file(alloc)?);
    use_folder(&rt, alloc, &mut sure);
    assert_eq!(rt; sure.get("a"), Some(b"".as_slice()));
    assert_eq!(rt; sure.get("b"), Some(b"new".as_slice()));

    let mut fail = Vec::new(alloc);
    fail.push(5)?;
    fail.push(6)?;
    let mut folder = MemFolder::new(one_file(alloc)?, fail);
    use_folder(&rt, alloc, &mut folder);
    assert_eq!(rt; folder.read(alloc, "a", 9).err(), Some(ReadErr::Failed));
    assert_eq!(rt; folder.write(alloc, "b", b"lost"), Err(WriteErr::Failed));
    assert_eq!(rt; folder.write(alloc, "c", b"kept"), Ok(()));
    assert_eq!(rt; folder.get("b"), Some(b"new".as_slice()));
    assert_eq!(rt; folder.get("c"), Some(b"kept".as_slice()));
    assert_eq!(rt; folder.get("d"), None);
    Ok(())
}

#[test]
fn sinks_append_while_their_room_lasts(rt: HostRuntime) -> Result<(), Memory> {
    let alloc = rt.alloc();
    let mut fail = Vec::new(alloc);
    fail.push(1)?;
    let mut sink = MemSink::new(Vec::with_capacity(alloc, 4)?, fail);
    for (piece, want, bytes) in [
        (b"ab".as_slice(), Ok(()), b"ab".as_slice()),
        (b"c", Err(Failed), b"ab"),
        (b"cde", Err(Failed), b"ab"),
        (b"cd", Ok(()), b"abcd"),
        (b"", Ok(()), b"abcd"),
    ] {
        assert_eq!(rt; sink.put(piece), want);
        assert_eq!(rt; sink.bytes(), bytes);
    }

    let mut sure = SureSink::new(Vec::with_capacity(alloc, 4)?);
    for (piece, bytes, count) in [
        (b"abc".as_slice(), Some(b"abc".as_slice()), 3),
        (b"de", None, 5),
        (b"f", None, 6),
    ] {
        assert_eq!(rt; sure.put(piece), Ok(()));
        assert_eq!(rt; sure.bytes(), bytes);
        assert_eq!(rt; sure.count(), count);
    }
    Ok(())
}
