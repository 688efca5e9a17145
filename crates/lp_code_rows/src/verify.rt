// Records over one kind, a constant of it and a predicate on it: some that denote clauses, and one that breaks each rule.

ghost use Rattle.std.specs.Prelude.{◌<◌, ◌^◌, length};

use lp_base::Memory;
use lp_code::{Code, Image, ImageConstant, ImageKind, Instr, Key, Record, RecordHead};
use lp_object::{read_image, write_image};
use lp_term::{Bank, put_arrow, put_constructor};
use lp_verify::{Rule, VerifyRefusal, verify};
use std::alloc::Global;

const A: u32 = 32;

const Q: u32 = 33;

fn constant(alloc: Global, name: &[u8], scheme: lp_term::TypeId) -> Result<ImageConstant, Memory> {
    Ok(ImageConstant {
        name: Vec::from_slice(alloc, name)?,
        hidden: 0,
        type_vars: 0,
        scheme,
        fixity: None,
    })
}

// The image with `a : i`, `q : i -> o` and these records.
fn image_of(alloc: Global, records: Vec<Record>) -> Result<Image, Memory>
    requires { length records.items < 2 ^ 32 }
{
    let mut bank = Bank::new(alloc);
    let kind = put_constructor(&mut bank, 8, &[])?;
    let goal = put_constructor(&mut bank, 0, &[])?;
    let predicate = put_arrow(&mut bank, kind, goal)?;
    let mut kinds = Vec::new(alloc);
    kinds.push(ImageKind {
        name: Vec::from_slice(alloc, b"i")?,
        hidden: 0,
        arity: 0,
    })?;
    let mut constants = Vec::new(alloc);
    constants.push(constant(alloc, b"a", kind)?)?;
    constants.push(constant(alloc, b"q", predicate)?)?;
    let name = Vec::from_slice(alloc, b"u")?;
    Image::new(alloc, name, bank, kinds, constants, Code { records })
}

// A program record of `q` with two registers of each kind.
fn record_of<const N: usize>(alloc: Global, key: Key, code: [Instr; N]) -> Result<Record, Memory> {
    let instructions = Vec::from_array(alloc, code)?;
    Ok(Record {
        program: true,
        head: Some(RecordHead::Const(Q)),
        captured_types: 0,
        captured: 0,
        types: 2,
        registers: 2,
        key,
        code: instructions,
    })
}

// What is said of an image, which is written and read on the way; None for want of memory.
fn said_of(alloc: Global, image: &Image) -> Option<Option<(u32, u32, Rule)>> {
    let bytes = write_image(alloc, image).ok()?;
    let read = read_image(alloc, bytes.as_slice()).ok()?;
    match verify(alloc, read) {
        Ok(_) => Some(None),
        Err(VerifyRefusal::Invalid { clause, at, rule }) => Some(Some((clause, at, rule))),
        Err(VerifyRefusal::Memory) => None,
    }
}

// The same of a record alone, without its number.
fn judged<const N: usize>(
    alloc: Global,
    key: Key,
    code: [Instr; N],
) -> Option<Option<(u32, Rule)>> {
    let record = record_of(alloc, key, code).ok()?;
    let records = vec![in alloc; record].ok()?;
    let image = image_of(alloc, records).ok()?;
    let said = said_of(alloc, &image)?;
    Some(said.map(|(_, at, rule)| (at, rule)))
}

fn none(alloc: Global) -> Vec<u16> {
    Vec::new(alloc)
}

fn got(alloc: Global, constant: u32) -> Instr {
    Instr::GetConst(0, constant, none(alloc))
}

fn put(alloc: Global, register: u16, constant: u32) -> Instr {
    Instr::PutConst(register, constant, none(alloc))
}

#[test]
fn a_fact(rt: HostRuntime) {
    let alloc = rt.alloc();
    let fact = judged(
        alloc,
        Key::Const(A),
        [got(alloc, A), Instr::Neck, Instr::Proceed],
    );
    assert_eq!(rt; fact, Some(None));
}

#[test]
fn broken_rules(rt: HostRuntime) {
    let alloc = rt.alloc();
    let cases = [
        (
            "register",
            judged(
                alloc,
                Key::Const(A),
                [Instr::Get(0, 2), Instr::Neck, Instr::Proceed],
            ),
            (0, Rule::Register),
        ),
        (
            "unset",
            judged(
                alloc,
                Key::None,
                [Instr::Get(0, 0), Instr::Neck, Instr::Proceed],
            ),
            (0, Rule::Unset),
        ),
        (
            "set",
            judged(
                alloc,
                Key::None,
                [
                    Instr::PutInt(0, 1),
                    Instr::PutInt(0, 1),
                    Instr::Neck,
                    Instr::Proceed,
                ],
            ),
            (11, Rule::Set),
        ),
        (
            "constant",
            judged(
                alloc,
                Key::None,
                [got(alloc, 34), Instr::Neck, Instr::Proceed],
            ),
            (0, Rule::Constant),
        ),
        (
            "type",
            judged(
                alloc,
                Key::Const(Q),
                [got(alloc, Q), Instr::Neck, Instr::Proceed],
            ),
            (0, Rule::Typing),
        ),
        (
            "index",
            judged(
                alloc,
                Key::None,
                [
                    Instr::TyCon(0, 8, none(alloc)),
                    Instr::PutIndex(0, 0, 0),
                    Instr::Get(0, 0),
                    Instr::Neck,
                    Instr::Proceed,
                ],
            ),
            (13, Rule::Index),
        ),
        (
            "term",
            judged(
                alloc,
                Key::Const(A),
                [
                    got(alloc, A),
                    put(alloc, 0, 24),
                    Instr::Neck,
                    Instr::Proceed,
                ],
            ),
            (5, Rule::Term),
        ),
        (
            "order",
            judged(
                alloc,
                Key::Const(A),
                [got(alloc, A), Instr::Cut, Instr::Neck, Instr::Proceed],
            ),
            (5, Rule::Order),
        ),
        (
            "no neck",
            judged(alloc, Key::None, [Instr::Proceed]),
            (0, Rule::Order),
        ),
        (
            "head",
            judged(alloc, Key::None, [Instr::Neck, Instr::Proceed]),
            (0, Rule::Head),
        ),
        (
            "a new variable",
            judged(
                alloc,
                Key::None,
                [
                    Instr::TyCon(0, 8, none(alloc)),
                    Instr::New(0, 0),
                    Instr::Get(0, 0),
                    Instr::Neck,
                    Instr::Proceed,
                ],
            ),
            (11, Rule::Head),
        ),
        (
            "block",
            judged(
                alloc,
                Key::Const(A),
                [
                    got(alloc, A),
                    Instr::Neck,
                    Instr::Not,
                    Instr::EndAll,
                    Instr::Proceed,
                ],
            ),
            (7, Rule::Block),
        ),
        (
            "no end",
            judged(alloc, Key::Const(A), [got(alloc, A), Instr::Neck]),
            (0, Rule::Block),
        ),
        (
            "sides",
            judged(
                alloc,
                Key::Const(A),
                [
                    got(alloc, A),
                    Instr::Neck,
                    Instr::Either(6),
                    Instr::Cut,
                    Instr::Jump(2),
                    Instr::Cut,
                    Instr::Proceed,
                ],
            ),
            (12, Rule::Block),
        ),
        (
            "key",
            judged(
                alloc,
                Key::None,
                [got(alloc, A), Instr::Neck, Instr::Proceed],
            ),
            (0, Rule::Key),
        ),
    ];
    for (name, found, wanted) in cases {
        assert_eq!(rt; found, Some(Some(wanted)), "{name}");
    }
}

// A fact `q a` whose body assumes the record behind it.
fn assuming(alloc: Global, records: &[u32]) -> Result<Record, Memory> {
    let named = Vec::from_slice(alloc, records)?;
    record_of(
        alloc,
        Key::Const(A),
        [
            got(alloc, A),
            Instr::Neck,
            Instr::Assume(named, none(alloc), none(alloc)),
            Instr::EndAssume,
            Instr::Proceed,
        ],
    )
}

// What is said of such a record and a fact that it may assume.
fn judged_two(alloc: Global, names: &[u32]) -> Option<Option<(u32, u32, Rule)>> {
    let first = assuming(alloc, names).ok()?;
    let fact = record_of(
        alloc,
        Key::None,
        [got(alloc, A), Instr::Neck, Instr::Proceed],
    )
    .ok()?;
    let assumed = Record {
        program: false,
        ..fact
    };
    let records = vec![in alloc; first, assumed].ok()?;
    let image = image_of(alloc, records).ok()?;
    said_of(alloc, &image)
}

#[test]
fn assumed_records(rt: HostRuntime) {
    let alloc = rt.alloc();
    assert_eq!(rt; judged_two(alloc, &[1]), Some(None), "one");
    assert_eq!(rt;
        judged_two(alloc, &[]),
        Some(Some((1, 0, Rule::Clause))),
        "by none"
    );
    assert_eq!(rt;
        judged_two(alloc, &[1, 1]),
        Some(Some((0, 6, Rule::Clause))),
        "twice"
    );
    assert_eq!(rt;
        judged_two(alloc, &[0]),
        Some(Some((0, 6, Rule::Clause))),
        "itself"
    );
}
