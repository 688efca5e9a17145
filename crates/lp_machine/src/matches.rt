// Which terms of heads are matched in place: an application of a constant to variables that stand nowhere before, or to what is built, which is the term of the next
// instruction, a GET. Against an application of this constant nothing of it is built.

use lp_base::Memory;
use lp_code::{Instr, Record};
use std::alloc::Global;

/// What is done at an instruction.
#[derive(Clone, Copy)]
pub(crate) enum Act {
    /// It builds a type or a term.
    Build,
    /// It matches the head.
    Head,
    /// It begins or ends a block, or is a goal.
    Goal,
    /// Nothing: it builds what is not read, or what is matched in place.
    Skip,
    /// A GET of a term that is matched in place: where the constant and the term are built.
    Match(u32, u32),
    /// A GET_TYPE of a type variable that stands nowhere before.
    Name,
}

/// What is done at an instruction that stands by itself.
pub(crate) fn act_of(instr: &Instr) -> Act {
    match instr {
        Instr::TyCon(_, _, _)
        | Instr::TyArr(_, _, _)
        | Instr::TyNew(_)
        | Instr::New(_, _)
        | Instr::PutConst(_, _, _)
        | Instr::PutInt(_, _)
        | Instr::PutStr(_, _)
        | Instr::PutIndex(_, _, _)
        | Instr::PutAbs(_, _, _)
        | Instr::PutApp(_, _, _) => Act::Build,
        Instr::GetType(_, _)
        | Instr::GetVar(_, _)
        | Instr::Get(_, _)
        | Instr::GetConst(_, _, _)
        | Instr::GetInt(_, _)
        | Instr::GetStr(_, _)
        | Instr::Neck => Act::Head,
        _ => Act::Goal,
    }
}

// The registers of a head, as far as the instructions before a place have set and read them.
#[derive(Drop)]
struct Heads {
    // Where each was set, and 0 where none was: the place behind the instruction.
    made: Vec<usize>,
    // Whether an instruction read it since.
    read: Vec<bool>,
}

impl Heads {
    fn of(alloc: Global, record: &Record) -> Result<Heads, Memory> {
        let count = usize::from(record.registers);
        Ok(Heads {
            made: vec![in alloc; 0; count]?,
            read: vec![in alloc; false; count]?,
        })
    }

    fn make(&mut self, register: u16, place: usize) {
        let at = usize::from(register);
        if let Some(made) = self.made.get_mut(at) {
            *made = place.saturating_add(1);
        }
        if let Some(read) = self.read.get_mut(at) {
            *read = false;
        }
    }

    fn read(&mut self, register: u16) {
        if let Some(read) = self.read.get_mut(usize::from(register)) {
            *read = true;
        }
    }

    fn read_each(&mut self, registers: &[u16]) {
        for register in registers.iter().copied() {
            self.read(register);
        }
    }

    // Where a register was set that was not read since.
    fn unread(&self, register: u16) -> Option<usize> {
        let at = usize::from(register);
        match self.read.get(at) {
            Some(false) => {}
            _ => return None,
        }
        match self.made.get(at) {
            Some(made) => made.checked_sub(1),
            None => None,
        }
    }

    // Takes note of an instruction.
    fn pass(&mut self, instr: &Instr, place: usize) {
        match instr {
            Instr::New(made, _)
            | Instr::PutConst(made, _, _)
            | Instr::PutInt(made, _)
            | Instr::PutStr(made, _)
            | Instr::PutIndex(made, _, _)
            | Instr::GetVar(_, made) => self.make(*made, place),
            Instr::PutAbs(made, body, _) => {
                self.read(*body);
                self.make(*made, place);
            }
            Instr::PutApp(made, head, arguments) => {
                self.read(*head);
                self.read_each(arguments.as_slice());
                self.make(*made, place);
            }
            Instr::Get(_, register) => self.read(*register),
            _ => {}
        }
    }
}

// Whether the instruction is a GET of the register.
fn is_get_of(instr: Option<&Instr>, register: u16) -> bool {
    match instr {
        Some(Instr::Get(_, wanted)) => *wanted == register,
        _ => false,
    }
}

// Where the constant is built that stands in a register which was not read since.
fn constant_at(code: &[Instr], heads: &Heads, register: u16) -> Option<usize> {
    let at = heads.unread(register)?;
    match code.get(at) {
        Some(Instr::PutConst(_, _, _)) => Some(at),
        _ => None,
    }
}

fn put(acts: &mut Vec<Act>, place: usize, act: Act) {
    if let Some(slot) = acts.get_mut(place) {
        *slot = act;
    }
}

// The variable of a register that was not read since is made where the term is matched.
fn defer(code: &[Instr], heads: &Heads, register: u16, acts: &mut Vec<Act>) {
    let Some(at) = heads.unread(register) else {
        return;
    };
    if let Some(Instr::New(_, _)) = code.get(at) {
        put(acts, at, Act::Skip);
    }
}

// The application at a place is matched, where it can be.
fn put_match(code: &[Instr], heads: &Heads, place: usize, acts: &mut Vec<Act>) {
    let Some(Instr::PutApp(made, head, arguments)) = code.get(place) else {
        return;
    };
    let behind = place.saturating_add(1);
    if !is_get_of(code.get(behind), *made) {
        return;
    }
    let Some(at) = constant_at(code, heads, *head) else {
        return;
    };
    let (Ok(first), Ok(second)) = (u32::try_from(at), u32::try_from(place)) else {
        return;
    };
    put(acts, at, Act::Skip);
    for register in arguments.as_slice().iter().copied() {
        defer(code, heads, register, acts);
    }
    put(acts, place, Act::Skip);
    put(acts, behind, Act::Match(first, second));
}

// A type variable that the next instruction gets is the goal's type.
fn put_name(code: &[Instr], place: usize, acts: &mut Vec<Act>) {
    let behind = place.saturating_add(1);
    if let (Some(Instr::TyNew(made)), Some(Instr::GetType(_, wanted))) = (
        code.get(place),
        code.get(behind),
    )
        && made == wanted
    {
        put(acts, place, Act::Skip);
        put(acts, behind, Act::Name);
    }
}

/// Lets the terms of a record's head that can be matched in place be matched.
pub(crate) fn put_matches(
    alloc: Global,
    record: &Record,
    acts: &mut Vec<Act>,
) -> Result<(), Memory> {
    let code = record.code.as_slice();
    let mut heads = Heads::of(alloc, record)?;
    for (place, instr) in code.iter().enumerate() {
        if let Instr::Neck = instr {
            return Ok(());
        }
        put_match(code, &heads, place, acts);
        put_name(code, place, acts);
        heads.pass(instr, place);
    }
    Ok(())
}
