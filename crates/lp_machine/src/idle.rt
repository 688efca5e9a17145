// Which instructions build types that are not read: the types of variables are kept by no machine.

use lp_base::Memory;
use lp_code::{Instr, Record};
use std::alloc::Global;

fn want(wanted: &mut [bool], register: u16) {
    if let Some(flag) = wanted.get_mut(usize::from(register)) {
        *flag = true;
    }
}

fn want_each(wanted: &mut [bool], registers: &[u16]) {
    for register in registers.iter().copied() {
        want(wanted, register);
    }
}

fn is_wanted(wanted: &[bool], register: u16) -> bool {
    match wanted.get(usize::from(register)) {
        Some(flag) => *flag,
        None => false,
    }
}

// Whether the instruction builds a type that none of those behind it reads; what it reads itself is wanted from then on.
fn is_idle(instr: &Instr, wanted: &mut [bool]) -> bool {
    match instr {
        Instr::TyCon(made, _, types) => {
            if !is_wanted(wanted, *made) {
                return true;
            }
            want_each(wanted, types.as_slice());
        }
        Instr::TyArr(made, from, to) => {
            if !is_wanted(wanted, *made) {
                return true;
            }
            want(wanted, *from);
            want(wanted, *to);
        }
        Instr::PutConst(_, _, types) => want_each(wanted, types.as_slice()),
        Instr::GetConst(_, _, types) => want_each(wanted, types.as_slice()),
        Instr::Call(_, types, _) => want_each(wanted, types.as_slice()),
        Instr::Assume(_, types, _) => want_each(wanted, types.as_slice()),
        Instr::GetType(_, register) => want(wanted, *register),
        _ => {}
    }
    false
}

/// For each instruction of a record whether it builds a type that none behind it reads.
pub(crate) fn idle_in(alloc: Global, record: &Record) -> Result<Vec<bool>, Memory> {
    let mut wanted = vec![in alloc; false; usize::from(record.types)]?;
    let mut idle = Vec::new(alloc);
    for instr in record.code.iter().rev() {
        idle.push(is_idle(instr, wanted.as_mut_slice()))?;
    }
    idle.reverse();
    Ok(idle)
}
