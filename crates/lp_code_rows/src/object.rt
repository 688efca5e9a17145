// Two small images in both versions, and bytes that are refused.

use lp_object::{FormatFault, read_image, read_object, write_image, write_object};
use std::alloc::Global;

const EMPTY: &[u8] = b"LPIM\x01\x00\x01\x00e\x00\x00\x00\x00\x00\x00\x00\x00";

const EMPTY_SECOND: &[u8] =
    b"LPIM\x02\x00\x01\x00e\x00\x00\x00\x00\x00\x00\x00\x00\x00\x00\x00\x00\x00\x00\x00\x00";

// One kind, `a` of it, and `q a` as the one clause.
pub(crate) const FACT: &[u8] =
    b"LPIM\x01\x00\x01\x00u\x01\x00\x01\x00i\x00\x00\x00\x02\x00\x01\x00a\x00\x00\x00\x01\x08\x00\x00\x00\x01\x00q\x00\x00\x00\x02\x01\x08\x00\x01\x00\x00\x00\x00\x01\x00\x00\x00\x01\x00\x21\x00\x00\x00\x00\x00\x00\x00\x00\x00\x01\x20\x00\x07\x00\x00\x00\x0e\x00\x20\x00\x00\x11\x22";

const FACT_SECOND: &[u8] =
    b"LPIM\x02\x00\x01\x00u\x01\x00\x00\x00\x01\x00i\x00\x00\x00\x02\x00\x00\x00\x01\x00a\x00\x00\x00\x01\x08\x00\x00\x00\x00\x00\x01\x00q\x00\x00\x00\x02\x01\x08\x00\x00\x00\x01\x00\x00\x00\x00\x00\x00\x01\x00\x00\x00\x01\x00\x21\x00\x00\x00\x00\x00\x00\x00\x00\x00\x00\x00\x01\x20\x00\x00\x00\x09\x00\x00\x00\x0e\x00\x20\x00\x00\x00\x00\x11\x22\x01\x00\x00\x00\x21\x00\x00\x00\x01\x00\x00\x00\x01\x20\x00\x00\x00\x01\x00\x00\x00\x00\x00\x00\x00";

// Where the fields of FACT begin.
const FIELDS: &[usize] = &[
    0, 4, 6, 8, 9, 11, 13, 14, 16, 17, 19, 21, 22, 24, 25, 26, 28, 29, 30, 32, 33, 35, 36, 37, 38,
    40, 41, 43, 44, 45, 49, 50, 51, 53, 55, 57, 59, 61, 62, 64, 68,
];

// The first fault of bytes that are no image.
fn fault_of(alloc: Global, bytes: &[u8]) -> Option<FormatFault> {
    read_image(alloc, bytes).err()
}

// The bytes are an image, and these spell it in the second version.
fn is_written_as(alloc: Global, bytes: &[u8], second: &[u8]) -> bool {
    let Ok(image) = read_image(alloc, bytes) else {
        return false;
    };
    let Ok(written) = write_image(alloc, &image) else {
        return false;
    };
    written.as_slice() == second
}

// The first bytes of a file, and others behind them.
fn ending(alloc: Global, file: &[u8], kept: usize, end: &[u8]) -> Option<Vec<u8>> {
    let mut bytes = Vec::from_slice(alloc, file.get(..kept)?).ok()?;
    bytes.extend_from_slice(end).ok()?;
    Some(bytes)
}

// The start of the field that holds the byte at a place, or would.
fn field_at(place: usize) -> u64 {
    let mut field = 0;
    for from in FIELDS {
        if *from <= place {
            field = *from;
        }
    }
    field as u64
}

#[test]
fn images_in_both_versions(rt: HostRuntime) {
    let alloc = rt.alloc();
    assert!(rt; is_written_as(alloc, EMPTY, EMPTY_SECOND), "empty");
    assert!(rt;
        is_written_as(alloc, EMPTY_SECOND, EMPTY_SECOND),
        "empty, second version"
    );
    assert!(rt; is_written_as(alloc, FACT, FACT_SECOND), "fact");
    assert!(rt;
        is_written_as(alloc, FACT_SECOND, FACT_SECOND),
        "fact, second version"
    );
}

#[test]
fn cut_at_each_length(rt: HostRuntime) {
    let alloc = rt.alloc();
    for length in 0..FACT.len() {
        let fault = fault_of(alloc, FACT.get(..length).unwrap_or(FACT));
        assert_eq!(rt;
            fault,
            Some(FormatFault::Truncated(field_at(length))),
            "{length} bytes"
        );
    }
}

// One hidden kind and a use that stands twice.
const OBJECT: &[u8] =
    b"LPOB\x01\x00\x01\x00m\x01\x00\x02\x01\x00i\x03\x00\x00\x02\x00\x01\x00a\x01\x00a\x00\x00\x00\x00";

#[test]
fn an_object(rt: HostRuntime) {
    let alloc = rt.alloc();
    let written = match read_object(alloc, OBJECT) {
        Ok(object) => write_object(alloc, &object).ok(),
        Err(_) => None,
    };
    assert!(rt;
        written.is_some_and(|bytes| bytes.as_slice() == OBJECT),
        "written as it was read"
    );
}

#[test]
fn refused_bytes(rt: HostRuntime) {
    let alloc = rt.alloc();
    let longer = ending(alloc, FACT, 75, b"\x00");
    let unset = ending(alloc, FACT, 64, b"\x06\x00\x00\x00\x0d\x00\x00\x00\x11\x22");
    let bare = ending(alloc, FACT, 64, b"\x06\x00\x00\x00\x0a\x00\x00\x00\x00\x00");
    let cases = [
        (longer, Some(FormatFault::Trailing(75))),
        (unset, None),
        (bare, Some(FormatFault::BadField(68))),
        (
            ending(alloc, FACT, 4, b"\x03\x00"),
            Some(FormatFault::BadVersion(3)),
        ),
        (ending(alloc, FACT, 2, b"OB"), Some(FormatFault::BadMagic)),
        (
            ending(alloc, FACT, 6, b"\x00\x00"),
            Some(FormatFault::BadField(6)),
        ),
        (
            ending(alloc, FACT, 26, b"\x05\x00"),
            Some(FormatFault::BadField(26)),
        ),
        (
            ending(alloc, FACT_SECOND, 112, b"\x01\x00\x00\x00"),
            Some(FormatFault::BadField(112)),
        ),
    ];
    for (number, (bytes, fault)) in cases.into_iter().enumerate() {
        let bytes = bytes.unwrap_or(Vec::new(alloc));
        assert_eq!(rt; fault_of(alloc, bytes.as_slice()), fault, "case {number}");
    }
}
