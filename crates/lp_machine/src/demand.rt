// What the head of a clause asks of the goal's first argument before anything is unified, so that a clause which cannot meet is seen to.

use lp_code::{Instr, Record};

/// The head that the first argument is to have: it is known from the text, or it is that of a register with which the clause starts.
#[derive(Clone, Copy)]
pub(crate) enum Demand {
    None,
    Const(u32),
    Int(i64),
    Register(u16),
}

// The instruction that makes the term of a register.
fn maker(code: &[Instr], register: u16) -> Option<&Instr> {
    for instr in code {
        match instr {
            Instr::New(made, _)
            | Instr::PutConst(made, _, _)
            | Instr::PutInt(made, _)
            | Instr::PutStr(made, _)
            | Instr::PutIndex(made, _, _)
            | Instr::PutAbs(made, _, _)
            | Instr::PutApp(made, _, _)
            | Instr::GetVar(_, made) => {
                if *made == register {
                    return Some(instr);
                }
            }
            _ => {}
        }
    }
    None
}

// What is asked by a register that is no application's: one that no instruction makes is one with which the clause starts.
fn by_head(code: &[Instr], register: u16, captured: u16) -> Demand {
    match maker(code, register) {
        None if register < captured => Demand::Register(register),
        Some(Instr::PutConst(_, constant, _)) => Demand::Const(*constant),
        Some(Instr::PutInt(_, integer)) => Demand::Int(*integer),
        _ => Demand::None,
    }
}

// What is asked by the term of a register, made by this code.
fn by_register(code: &[Instr], register: u16, captured: u16) -> Demand {
    match maker(code, register) {
        Some(Instr::PutApp(_, head, _)) => by_head(code, *head, captured),
        _ => by_head(code, register, captured),
    }
}

/// What a record asks, where its first unification is that of the first argument.
pub(crate) fn demand_of(record: &Record) -> Demand {
    let code = record.code.as_slice();
    for (place, instr) in code.iter().enumerate() {
        match instr {
            Instr::TyCon(_, _, _)
            | Instr::TyArr(_, _, _)
            | Instr::TyNew(_)
            | Instr::New(_, _)
            | Instr::PutConst(_, _, _)
            | Instr::PutInt(_, _)
            | Instr::PutStr(_, _)
            | Instr::PutIndex(_, _, _)
            | Instr::PutAbs(_, _, _)
            | Instr::PutApp(_, _, _)
            | Instr::GetVar(_, _) => {}
            Instr::Get(0, register) => {
                return by_register(&code[..place], *register, record.captured);
            }
            Instr::GetConst(0, constant, _) => return Demand::Const(*constant),
            Instr::GetInt(0, integer) => return Demand::Int(*integer),
            _ => return Demand::None,
        }
    }
    Demand::None
}
