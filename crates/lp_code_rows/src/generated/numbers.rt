// Records as numbers: an instruction as its number in a file and its operands, a list as its length and its items.

use lp_base::Memory;
use lp_code::{Code, Instr, Key, Record, RecordHead};

fn list(numbers: &mut Vec<u32>, items: &[u16]) -> Result<(), Memory> {
    numbers.push(items.len().min(99) as u32)?;
    for item in items.iter().copied() {
        numbers.push(item as u32)?;
    }
    Ok(())
}

fn listed(numbers: &mut Vec<u32>, lead: &[u32], items: &[u16]) -> Result<(), Memory> {
    numbers.extend_from_slice(lead)?;
    list(numbers, items)
}

fn put(numbers: &mut Vec<u32>, some: &[u32]) -> Result<(), Memory> {
    numbers.extend_from_slice(some)?;
    Ok(())
}

fn integer(value: i64) -> u32 {
    if value >= 0 && value < 1000 {
        value as u32
    } else {
        1000
    }
}

fn put_head(numbers: &mut Vec<u32>, instr: &Instr) -> Result<(), Memory> {
    match instr {
        Instr::TyCon(d, k, types) => listed(numbers, &[1, *d as u32, *k], types.as_slice()),
        Instr::TyArr(d, a, b) => put(numbers, &[2, *d as u32, *a as u32, *b as u32]),
        Instr::TyNew(d) => put(numbers, &[3, *d as u32]),
        Instr::New(d, t) => put(numbers, &[4, *d as u32, *t as u32]),
        Instr::PutConst(d, c, types) => listed(numbers, &[5, *d as u32, *c], types.as_slice()),
        Instr::PutInt(d, value) => put(numbers, &[6, *d as u32, integer(*value)]),
        Instr::PutStr(d, _) => put(numbers, &[7, *d as u32]),
        Instr::PutIndex(d, i, t) => put(numbers, &[8, *d as u32, *i as u32, *t as u32]),
        Instr::PutAbs(d, s, t) => put(numbers, &[9, *d as u32, *s as u32, *t as u32]),
        Instr::PutApp(d, s, terms) => {
            listed(numbers, &[10, *d as u32, *s as u32], terms.as_slice())
        }
        Instr::GetType(j, t) => put(numbers, &[11, *j as u32, *t as u32]),
        Instr::GetVar(i, d) => put(numbers, &[12, *i as u32, *d as u32]),
        Instr::Get(i, s) => put(numbers, &[13, *i as u32, *s as u32]),
        Instr::GetConst(i, c, types) => listed(numbers, &[14, *i as u32, *c], types.as_slice()),
        Instr::GetInt(i, value) => put(numbers, &[15, *i as u32, integer(*value)]),
        Instr::GetStr(i, _) => put(numbers, &[16, *i as u32]),
        Instr::Neck => put(numbers, &[17]),
        _ => Ok(()),
    }
}

fn put_body(numbers: &mut Vec<u32>, instr: &Instr) -> Result<(), Memory> {
    match instr {
        Instr::Call(c, types, terms) => {
            listed(numbers, &[18, *c], types.as_slice())?;
            list(numbers, terms.as_slice())
        }
        Instr::CallTerm(s) => put(numbers, &[19, *s as u32]),
        Instr::Equal(t, l, r) => put(numbers, &[20, *t as u32, *l as u32, *r as u32]),
        Instr::Is(t, l, r) => put(numbers, &[21, *t as u32, *l as u32, *r as u32]),
        Instr::Less(l, r) => put(numbers, &[22, *l as u32, *r as u32]),
        Instr::Greater(l, r) => put(numbers, &[23, *l as u32, *r as u32]),
        Instr::AtMost(l, r) => put(numbers, &[24, *l as u32, *r as u32]),
        Instr::AtLeast(l, r) => put(numbers, &[25, *l as u32, *r as u32]),
        Instr::Cut => put(numbers, &[26]),
        Instr::Sigma(d, t) => put(numbers, &[27, *d as u32, *t as u32]),
        Instr::All(d, t) => put(numbers, &[28, *d as u32, *t as u32]),
        Instr::EndAll => put(numbers, &[29]),
        Instr::Assume(records, types, terms) => {
            put(numbers, &[30])?;
            put(numbers, records.as_slice())?;
            list(numbers, types.as_slice())?;
            list(numbers, terms.as_slice())
        }
        Instr::EndAssume => put(numbers, &[31]),
        Instr::Either(bytes) => put(numbers, &[32, *bytes]),
        Instr::Jump(bytes) => put(numbers, &[33, *bytes]),
        Instr::Proceed => put(numbers, &[34]),
        Instr::Not => put(numbers, &[35]),
        Instr::EndNot => put(numbers, &[36]),
        _ => Ok(()),
    }
}

fn key(key: &Key) -> u32 {
    match key {
        Key::None => 0,
        Key::Const(number) => *number,
        Key::Int(value) => integer(*value),
        Key::Text(_) => 2000,
    }
}

// A record: 1 for one of the program, its head, its counts and its key, and then its code.
fn put_record(numbers: &mut Vec<u32>, record: &Record) -> Result<(), Memory> {
    let head = match record.head {
        Some(RecordHead::Const(number)) => number,
        Some(RecordHead::Register(register)) => register as u32,
        None => 0,
    };
    let counts = [
        if record.program { 1 } else { 0 },
        head,
        record.captured_types as u32,
        record.captured as u32,
        record.types as u32,
        record.registers as u32,
        key(&record.key),
    ];
    put(numbers, &counts)?;
    for instr in record.code.iter() {
        put_head(numbers, instr)?;
        put_body(numbers, instr)?;
    }
    Ok(())
}

pub(crate) fn numbers_of(numbers: &mut Vec<u32>, code: &Code) -> Result<(), Memory> {
    for record in code.records.iter() {
        put_record(numbers, record)?;
    }
    Ok(())
}
