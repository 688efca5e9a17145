// Each byte of a small image, changed: what is told first of what it is then.

use crate::object::FACT;
use lp_object::{FormatFault, read_image};
use lp_verify::{Rule, VerifyRefusal, verify};
use std::alloc::Global;

// What is told of bytes: a fault of the format, with the place of its field, or the rule that the one record breaks.
#[derive(Clone, Copy, Debug, PartialEq, Eq)]
enum Told {
    Good,
    Magic,
    Version(u16),
    Truncated(u64),
    Field(u64),
    Breaks(Rule),
}

// For each byte of FACT: what is told where it is ff, and where it is one more.
const FIRST_TOLD: &[(Told, Told)] = &[
    (Told::Magic, Told::Magic),
    (Told::Magic, Told::Magic),
    (Told::Magic, Told::Magic),
    (Told::Magic, Told::Magic),
    (Told::Version(255), Told::Truncated(15)),
    (Told::Version(65281), Told::Version(257)),
    (Told::Truncated(8), Told::Field(12)),
    (Told::Field(6), Told::Field(6)),
    (Told::Good, Told::Good),
    (Told::Field(24), Told::Field(43)),
    (Told::Field(24), Told::Field(24)),
    (Told::Truncated(13), Told::Field(20)),
    (Told::Field(11), Told::Field(11)),
    (Told::Good, Told::Good),
    (Told::Good, Told::Good),
    (Told::Good, Told::Good),
    (Told::Field(29), Told::Field(29)),
    (Told::Field(51), Told::Field(51)),
    (Told::Field(51), Told::Field(51)),
    (Told::Truncated(21), Told::Field(26)),
    (Told::Field(19), Told::Field(19)),
    (Told::Good, Told::Good),
    (Told::Good, Told::Good),
    (Told::Good, Told::Good),
    (Told::Breaks(Rule::Constant), Told::Breaks(Rule::Constant)),
    (Told::Field(25), Told::Field(26)),
    (Told::Field(26), Told::Field(26)),
    (Told::Field(26), Told::Field(26)),
    (Told::Field(28), Told::Good),
    (Told::Field(29), Told::Field(29)),
    (Told::Truncated(32), Told::Truncated(63)),
    (Told::Field(30), Told::Field(30)),
    (Told::Good, Told::Good),
    (Told::Good, Told::Good),
    (Told::Good, Told::Good),
    (Told::Breaks(Rule::Typing), Told::Breaks(Rule::Typing)),
    (Told::Field(36), Told::Field(36)),
    (Told::Field(37), Told::Field(38)),
    (Told::Field(38), Told::Field(38)),
    (Told::Field(38), Told::Field(38)),
    (Told::Field(40), Told::Field(42)),
    (Told::Field(41), Told::Breaks(Rule::Head)),
    (Told::Field(41), Told::Field(41)),
    (Told::Field(43), Told::Good),
    (Told::Field(44), Told::Field(44)),
    (Told::Truncated(75), Told::Truncated(75)),
    (Told::Truncated(75), Told::Truncated(75)),
    (Told::Truncated(75), Told::Truncated(75)),
    (Told::Truncated(75), Told::Truncated(75)),
    (Told::Field(49), Told::Field(49)),
    (Told::Field(50), Told::Breaks(Rule::Typing)),
    (Told::Breaks(Rule::Constant), Told::Breaks(Rule::Constant)),
    (Told::Breaks(Rule::Constant), Told::Breaks(Rule::Constant)),
    (Told::Breaks(Rule::Register), Told::Breaks(Rule::Register)),
    (Told::Breaks(Rule::Register), Told::Breaks(Rule::Register)),
    (Told::Breaks(Rule::Register), Told::Breaks(Rule::Register)),
    (Told::Breaks(Rule::Register), Told::Breaks(Rule::Register)),
    (Told::Good, Told::Good),
    (Told::Good, Told::Good),
    (Told::Good, Told::Good),
    (Told::Good, Told::Good),
    (Told::Field(61), Told::Truncated(74)),
    (Told::Breaks(Rule::Key), Told::Breaks(Rule::Key)),
    (Told::Breaks(Rule::Key), Told::Breaks(Rule::Key)),
    (Told::Truncated(68), Told::Truncated(68)),
    (Told::Truncated(68), Told::Truncated(68)),
    (Told::Truncated(68), Told::Truncated(68)),
    (Told::Truncated(68), Told::Truncated(68)),
    (Told::Field(68), Told::Field(68)),
    (Told::Breaks(Rule::Typing), Told::Breaks(Rule::Typing)),
    (Told::Breaks(Rule::Constant), Told::Breaks(Rule::Typing)),
    (Told::Breaks(Rule::Constant), Told::Breaks(Rule::Constant)),
    (Told::Field(68), Told::Breaks(Rule::Register)),
    (Told::Field(73), Told::Field(73)),
    (Told::Field(74), Told::Breaks(Rule::Block)),
];

fn of_format(fault: FormatFault) -> Option<Told> {
    match fault {
        FormatFault::BadMagic => Some(Told::Magic),
        FormatFault::BadVersion(version) => Some(Told::Version(version)),
        FormatFault::Truncated(at) => Some(Told::Truncated(at)),
        FormatFault::BadField(at) => Some(Told::Field(at)),
        FormatFault::Trailing(_) | FormatFault::Limit(_) | FormatFault::Memory => None,
    }
}

fn seen_of(alloc: Global, bytes: &[u8]) -> Option<Told> {
    let image = match read_image(alloc, bytes) {
        Ok(image) => image,
        Err(fault) => return of_format(fault),
    };
    match verify(alloc, image) {
        Ok(_) => Some(Told::Good),
        Err(VerifyRefusal::Invalid { rule, .. }) => Some(Told::Breaks(rule)),
        Err(VerifyRefusal::Memory) => None,
    }
}

// FACT with another byte at a place.
fn seen_with(alloc: Global, place: usize, byte: u8) -> Option<Told> {
    let mut bytes = Vec::from_slice(alloc, FACT).ok()?;
    *bytes.get_mut(place)? = byte;
    seen_of(alloc, bytes.as_slice())
}

#[test]
fn each_byte_changed(rt: HostRuntime) {
    let alloc = rt.alloc();
    assert_eq!(rt; FIRST_TOLD.len(), FACT.len());
    for (place, (ones, more)) in FIRST_TOLD.iter().copied().enumerate() {
        let byte = FACT.get(place).copied().unwrap_or(0);
        assert_eq!(rt; seen_with(alloc, place, 255), Some(ones), "byte {place}");
        assert_eq!(rt;
            seen_with(alloc, place, byte.wrapping_add(1)),
            Some(more),
            "byte {place}, one more"
        );
    }
}
