// Marks on the registers of a record, and how they pass from an instruction to what it reads.

use crate::instruction::Instr;
use lp_base::Memory;
use std::alloc::Global;
use std::collections::BTreeMap;

/// Registers, ascending: of type variables, and of variables.
#[derive(Drop)]
pub struct Standing {
    pub types: Vec<u16>,
    pub registers: Vec<u16>,
}

// Which type registers and which registers are marked, by number.
#[derive(Drop)]
pub(crate) struct Marks {
    pub(crate) types: Vec<bool>,
    pub(crate) registers: Vec<bool>,
}

fn is_marked(flags: &[bool], register: u16) -> bool {
    match flags.get(usize::from(register)) {
        Some(flag) => *flag,
        None => false,
    }
}

fn mark(flags: &mut [bool], register: u16) {
    if let Some(flag) = flags.get_mut(usize::from(register)) {
        *flag = true;
    }
}

fn mark_each(flags: &mut [bool], registers: &[u16]) {
    for register in registers {
        mark(flags, *register);
    }
}

// Marks those that stand where the other list is marked.
fn mark_where(flags: &mut [bool], registers: &[u16], other: &[bool]) {
    for (register, is_read) in registers.iter().zip(other) {
        if *is_read {
            mark(flags, *register);
        }
    }
}

impl Marks {
    pub(crate) fn none(alloc: Global, types: u16, registers: u16) -> Result<Marks, Memory> {
        Ok(Marks {
            types: vec![in alloc; false; usize::from(types)]?,
            registers: vec![in alloc; false; usize::from(registers)]?,
        })
    }

    pub(crate) fn has_type(&self, register: u16) -> bool {
        is_marked(self.types.as_slice(), register)
    }

    pub(crate) fn has_register(&self, register: u16) -> bool {
        is_marked(self.registers.as_slice(), register)
    }

    pub(crate) fn mark_register(&mut self, register: u16) {
        mark(self.registers.as_mut_slice(), register);
    }

    fn mark_types(&mut self, registers: &[u16]) {
        mark_each(self.types.as_mut_slice(), registers);
    }

    fn mark_registers(&mut self, registers: &[u16]) {
        mark_each(self.registers.as_mut_slice(), registers);
    }

    // What stands in an assumed clause, by the marks of its record on what it starts with.
    fn mark_captured(&mut self, of: &Marks, types: &[u16], registers: &[u16]) {
        mark_where(self.types.as_mut_slice(), types, of.types.as_slice());
        mark_where(
            self.registers.as_mut_slice(),
            registers,
            of.registers.as_slice(),
        );
    }

    // What a goal, or an instruction of the head, says by itself.
    pub(crate) fn mark_said(&mut self, instr: &Instr, assumed: &BTreeMap<u32, Marks>) {
        match instr {
            Instr::GetType(_, register) => self.mark_types(&[*register]),
            Instr::GetConst(_, _, types) => self.mark_types(types.as_slice()),
            Instr::Get(_, register) | Instr::CallTerm(register) => self.mark_register(*register),
            Instr::Call(_, types, registers) => {
                self.mark_types(types.as_slice());
                self.mark_registers(registers.as_slice());
            }
            Instr::Equal(register, left, right) | Instr::Is(register, left, right) => {
                self.mark_types(&[*register]);
                self.mark_registers(&[*left, *right]);
            }
            Instr::Less(left, right)
            | Instr::Greater(left, right)
            | Instr::AtMost(left, right)
            | Instr::AtLeast(left, right) => self.mark_registers(&[*left, *right]),
            Instr::Assume(records, types, registers) => {
                for record in records {
                    if let Some(marks) = assumed.get(record) {
                        self.mark_captured(marks, types.as_slice(), registers.as_slice());
                    }
                }
            }
            _ => {}
        }
    }

    // What the instruction reads for the register that it sets, if that is marked.
    pub(crate) fn mark_read(&mut self, instr: &Instr) {
        match instr {
            Instr::TyCon(made, _, types) if self.has_type(*made) => self.mark_types(
                types.as_slice(),
            ),
            Instr::TyArr(made, from, to) if self.has_type(*made) => self.mark_types(&[*from, *to]),
            Instr::PutConst(made, _, types) if self.has_register(*made) => {
                self.mark_types(types.as_slice());
            }
            Instr::PutAbs(made, body, _) if self.has_register(*made) => self.mark_register(*body),
            Instr::PutApp(made, head, arguments) if self.has_register(*made) => {
                self.mark_register(*head);
                self.mark_registers(arguments.as_slice());
            }
            _ => {}
        }
    }

    // The first ones of each.
    pub(crate) fn mark_start(&mut self, types: u16, registers: u16) {
        for register in 0..types {
            mark(self.types.as_mut_slice(), register);
        }
        for register in 0..registers {
            mark(self.registers.as_mut_slice(), register);
        }
    }

    // The variable that the instruction makes: a type variable, or one in a register, where those are wanted.
    pub(crate) fn mark_made(&mut self, instr: &Instr, wants_registers: bool) {
        match instr {
            Instr::TyNew(made) => self.mark_types(&[*made]),
            Instr::New(made, _)
            | Instr::GetVar(_, made)
            | Instr::Sigma(made, _)
            | Instr::All(made, _)
                if wants_registers => {
                self.mark_register(*made);
            }
            _ => {}
        }
    }
}
