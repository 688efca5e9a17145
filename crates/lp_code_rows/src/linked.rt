// Images of small sets of objects.
ghost use Rattle.std.specs.Prelude.{◌<◌, length};

use lp_base::{Limit, Memory};
use lp_code::{Code, Image, Instr, Key, Object, ObjectConstant, ObjectKind, Record, RecordHead};
use lp_link::{LinkRefusal, Part, link};
use lp_term::{Bank, TypeId, TypeNode};
use std::alloc::Global;

// An object with a kind `t`, in the making. Types are 0 for `t` and 2 for `t -> o`.
fn object(alloc: Global, name: &[u8], arity: u8) -> Result<Object, Memory> {
    let mut bank = Bank::new(alloc);
    let of = bank.put_type(TypeNode::Con(8, &[]))?;
    let truth = bank.put_type(TypeNode::Con(0, &[]))?;
    if of.0 < bank.type_count() && truth.0 < bank.type_count() {
        let _arrow = bank.put_type(TypeNode::Arrow(of, truth))?;
    }
    let kind = ObjectKind {
        exported: true,
        name: Vec::from_slice(alloc, b"t")?,
        arity,
    };
    Ok(Object {
        name: Vec::from_slice(alloc, name)?,
        bank,
        kinds: vec![in alloc; kind]?,
        constants: Vec::new(alloc),
        uses: Vec::new(alloc),
        code: Code {
            records: Vec::new(alloc),
        },
    })
}

fn declare(
    alloc: Global,
    object: &mut Object,
    name: &[u8],
    exported: bool,
    scheme: usize,
) -> Result<(), Memory> {
    object.constants.push(ObjectConstant {
        exported,
        name: Vec::from_slice(alloc, name)?,
        type_vars: 0,
        scheme: TypeId(scheme),
        fixity: None,
    })?;
    Ok(())
}

fn using(alloc: Global, object: &mut Object, name: &[u8]) -> Result<(), Memory> {
    object.uses.push(Vec::from_slice(alloc, name)?)?;
    Ok(())
}

fn say(alloc: Global, object: &mut Object, key: Key, code: Vec<Instr>) -> Result<(), Memory> {
    object.code.records.push(Record {
        program: true,
        head: Some(RecordHead::Const(32)),
        captured_types: 0,
        captured: 0,
        types: 0,
        registers: 1,
        key,
        code,
    })?;
    let _alloc = alloc;
    Ok(())
}

// k is hidden; get k.
fn get(alloc: Global) -> Result<Object, Memory> {
    let mut made = object(alloc, b"c", 0)?;
    declare(alloc, &mut made, b"get", true, 2)?;
    declare(alloc, &mut made, b"k", false, 0)?;
    let code = vec![in alloc;
        Instr::GetConst(0, 33, Vec::new(alloc)),
        Instr::Neck,
        Instr::Proceed,
    ]?;
    say(alloc, &mut made, Key::Const(33), code)?;
    Ok(made)
}

// get is hidden; name X :- get X.
fn outer(alloc: Global, name: &[u8], head: &[u8]) -> Result<Object, Memory> {
    let mut made = object(alloc, name, 0)?;
    declare(alloc, &mut made, head, true, 2)?;
    declare(alloc, &mut made, b"get", false, 2)?;
    using(alloc, &mut made, b"c")?;
    let call = Instr::Call(33, Vec::new(alloc), vec![in alloc; 0]?);
    let code = vec![in alloc; Instr::GetVar(0, 0), Instr::Neck, call, Instr::Proceed]?;
    say(alloc, &mut made, Key::None, code)?;
    Ok(made)
}

fn set(alloc: Global, arity: u8, scheme: usize) -> Result<Vec<Object>, Memory> {
    let mut root = object(alloc, b"m", arity)?;
    declare(alloc, &mut root, b"geta", true, scheme)?;
    declare(alloc, &mut root, b"getb", true, 2)?;
    using(alloc, &mut root, b"a")?;
    using(alloc, &mut root, b"b")?;
    let first = outer(alloc, b"a", b"geta")?;
    let second = outer(alloc, b"b", b"getb")?;
    Ok(vec![in alloc; root, first, get(alloc)?, second]?)
}

// Names with their hidden numbers, then the heads of records with the constants of their code.
fn shown(alloc: Global, image: &Image) -> Result<Vec<u8>, Memory> {
    let mut text = Vec::new(alloc);
    for constant in image.constants.iter() {
        text.extend_from_slice(constant.name.as_slice())?;
        text.push(b'0' + (constant.hidden % 10) as u8)?;
    }
    for record in image.code.records.iter() {
        text.push(b' ')?;
        if let Some(RecordHead::Const(number)) = record.head {
            text.push(b'a' + (number % 26) as u8)?;
        }
        for instr in record.code.iter() {
            match instr {
                Instr::GetConst(_, number, _) => text.push(b'a' + (*number % 26) as u8)?,
                Instr::Call(number, _, _) => text.push(b'a' + (*number % 26) as u8)?,
                _ => {}
            }
        }
    }
    Ok(text)
}

fn linked(alloc: Global, objects: Vec<Object>) -> Result<Image, LinkRefusal> {
    if objects.is_empty() {
        return Err(LinkRefusal::Memory);
    }
    link(alloc, objects.as_slice(), 0)
}

fn is_shown(alloc: Global, objects: Result<Vec<Object>, Memory>, want: &[u8]) -> bool {
    let Ok(objects) = objects else {
        return false;
    };
    match linked(alloc, objects) {
        Ok(image) => match shown(alloc, &image) {
            Ok(text) => text.as_slice() == want,
            Err(_) => false,
        },
        Err(_) => false,
    }
}

fn is_refused(alloc: Global, objects: Result<Vec<Object>, Memory>, want: LinkRefusal) -> bool {
    let Ok(objects) = objects else {
        return false;
    };
    match linked(alloc, objects) {
        Ok(_) => false,
        Err(refusal) => refusal == want,
    }
}

// A module that accumulates another one so often, which has thirty hidden constants.
fn many(alloc: Global, count: usize, back: bool) -> Result<Vec<Object>, Memory> {
    let mut root = object(alloc, b"m", 0)?;
    for _ in 0..count {
        using(alloc, &mut root, b"t")?;
    }
    let mut inner = object(alloc, b"t", 0)?;
    for at in 0..30_u8 {
        let name = [b'a', b'0' + at % 10, b'0' + at / 10];
        declare(alloc, &mut inner, &name, false, 2)?;
    }
    if back {
        using(alloc, &mut inner, b"m")?;
    }
    Ok(vec![in alloc; root, inner]?)
}

#[test]
fn images(rt: HostRuntime) {
    let alloc = rt.alloc();
    let want = b"geta0getb0k1get1k2get2 ji gj lk hl";
    assert!(rt; is_shown(alloc, set(alloc, 0, 2), want));
    let kind = LinkRefusal::Differ(1, Part::Kind(8));
    assert!(rt; is_refused(alloc, set(alloc, 1, 2), kind));
    let constant = LinkRefusal::Differ(1, Part::Constant(32));
    assert!(rt; is_refused(alloc, set(alloc, 0, 0), constant));
    let copies = LinkRefusal::Limit(Limit::Copies);
    assert!(rt; is_refused(alloc, many(alloc, 4096, false), copies));
    assert!(rt; is_refused(alloc, many(alloc, 1, true), copies));
    assert!(rt; many(alloc, 4000, false).is_ok());
    let Ok(objects) = many(alloc, 4000, false) else {
        return;
    };
    match linked(alloc, objects) {
        Ok(image) => assert!(rt; image.constants.len() == 120_000),
        Err(_) => assert!(rt; false),
    }
}
