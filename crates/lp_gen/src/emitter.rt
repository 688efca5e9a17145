// The code of a record in the making.
ghost use Rattle.std.specs.Prelude.{◌≡◌, ◌⊎◌, ℕ, ◌<◌, ◌≤◌, ◌+◌, ◌-◌, List, [], ◌∷◌, ◌++◌, true, All, length as length_of_list, sum_by, OnOk, IfOk, IfErr};
ghost use Rattle.lp_code.specs.declared.instruction.Instr.{Instr};
ghost use Rattle.lp_code.specs.declared.instruction.Instr.TheVariants as on;
ghost use Rattle.lp_code.specs.Length.{length_of};
ghost use Rattle.lp_gen.specs.Registers.{past};
ghost use Rattle.lp_gen.specs.inner.Fitting.{is_fitting, is_short, misfits_of, IsRefused};

use crate::fault::RecordRefusal;
use lp_base::{MAX_ARGUMENTS, MAX_CODE_BYTES, MAX_REGISTERS};
use lp_code::{Instr, length};
use std::alloc::Global;

/// The instructions so far with their bytes, and the counts of registers.
#[derive(Drop)]
pub(crate) struct Emitter {
    pub code: Vec<Instr>,
    pub place: u64,
    pub types: u16,
    pub registers: u16,
    ghost fit: { All (λ i. is_fitting i ≡ true) code.items },
    ghost bytes: { sum_by length_of code.items ≡ place },
    ghost few: { place ≤ 4294967295 },
}

// Refuses what is more than is allowed.
fn within(count: usize, most: usize) -> Result<(), RecordRefusal>
    ensures fit { OnOk result (count ≤ most) }
    ensures room { OnOk result (past most count ≡ 0) }
    ensures cause { IfErr result (IsRefused (0 < past most count)) }
{
    if count > most {
        return Err(RecordRefusal::Registers);
    }
    Ok(())
}

// Whether lists fit their counts.
fn fits(instr: &Instr) -> Result<(), RecordRefusal>
    requires { is_short instr.now ≡ true }
    ensures fit { OnOk result (is_fitting instr.now ≡ true) }
    ensures room { OnOk result (misfits_of instr.now ≡ 0) }
    ensures cause { IfErr result (IsRefused (0 < misfits_of instr.now)) }
{
    match instr {
        Instr::TyCon(_, _, types) => within(types.len(), MAX_ARGUMENTS),
        Instr::PutConst(_, _, types) => within(types.len(), MAX_ARGUMENTS),
        Instr::GetConst(_, _, types) => within(types.len(), MAX_ARGUMENTS),
        Instr::PutApp(_, _, terms) => within(terms.len(), MAX_ARGUMENTS),
        Instr::Call(_, types, terms) => {
            within(types.len(), MAX_ARGUMENTS)?;
            within(terms.len(), MAX_ARGUMENTS)
        }
        Instr::Assume(_, types, terms) => {
            within(types.len(), MAX_REGISTERS)?;
            within(terms.len(), MAX_REGISTERS)
        }
        Instr::PutStr(_, _) => Ok(()),
        Instr::GetStr(_, _) => Ok(()),
        _ => Ok(()),
    }
}

// One register more of a kind.
fn next(count: u16) -> Result<u16, RecordRefusal>
    ensures more { IfOk result (λ more. more ≡ count + 1) }
    ensures cause { IfErr result (IsRefused (65535 < count + 1)) }
{
    match count.checked_add(1) {
        Some(more) => Ok(more),
        None => Err(RecordRefusal::Registers),
    }
}

impl Emitter {
    /// No code, behind the registers that the record starts with.
    pub(crate) fn new(alloc: Global, types: u16, registers: u16) -> Emitter
        ensures code { result.code.items ≡ [] }
        ensures types { result.types ≡ types }
        ensures registers { result.registers ≡ registers }
        ensures place { result.place ≡ 0 }
    {
        Emitter {
            code: Vec::new(alloc),
            place: 0,
            types,
            registers,
        }
    }

    /// How many type registers there are.
    pub(crate) fn count_types(&self) -> u16
        ensures count { result ≡ self.now.types }
        ensures few { self.now.types ≤ 65535 }
    {
        self.types
    }

    /// How many registers there are.
    pub(crate) fn count_terms(&self) -> u16
        ensures count { result ≡ self.now.registers }
        ensures few { self.now.registers ≤ 65535 }
    {
        self.registers
    }

    /// The next type register.
    pub(crate) fn new_type(&mut self) -> Result<u16, RecordRefusal>
        ensures register { IfOk result (λ register. register ≡ self.old.types) }
        ensures code { OnOk result (self.new.code.items ≡ self.old.code.items) }
        ensures types { OnOk result (self.new.types ≡ self.old.types + 1) }
        ensures registers { OnOk result (self.new.registers ≡ self.old.registers) }
        ensures place { OnOk result (self.new.place ≡ self.old.place) }
        ensures cause { IfErr result (IsRefused (65535 < self.old.types + 1)) }
    {
        let register = self.types;
        self.types = next(register)?;
        Ok(register)
    }

    /// The next register.
    pub(crate) fn new_register(&mut self) -> Result<u16, RecordRefusal>
        ensures register { IfOk result (λ register. register ≡ self.old.registers) }
        ensures code { OnOk result (self.new.code.items ≡ self.old.code.items) }
        ensures types { OnOk result (self.new.types ≡ self.old.types) }
        ensures registers { OnOk result (self.new.registers ≡ self.old.registers + 1) }
        ensures place { OnOk result (self.new.place ≡ self.old.place) }
        ensures cause { IfErr result (IsRefused (65535 < self.old.registers + 1)) }
    {
        let register = self.registers;
        self.registers = next(register)?;
        Ok(register)
    }

    /// One instruction more, with a string and records that fit.
    pub(crate) fn emit(&mut self, instr: Instr) -> Result<(), RecordRefusal>
        requires { is_short instr ≡ true }
        ensures code { OnOk result (self.new.code.items ≡ self.old.code.items ++ instr ∷ []) }
        ensures types { OnOk result (self.new.types ≡ self.old.types) }
        ensures registers { OnOk result (self.new.registers ≡ self.old.registers) }
        ensures place { OnOk result (self.new.place ≡ self.old.place + length_of instr) }
        ensures room { OnOk result (misfits_of instr ≡ 0) }
        ensures cause { IfErr result (IsRefused ((4294967295 < self.old.place + length_of instr) ⊎ (0 < misfits_of instr))) }
    {
        fits(&instr)?;
        let place = self.place.saturating_add(length(&instr) as u64);
        if place > MAX_CODE_BYTES {
            return Err(RecordRefusal::Registers);
        }
        self.code.push(instr)?;
        self.place = place;
        Ok(())
    }

    /// Gives the instruction at a place, an `Either` or a `Jump`, its count of bytes.
    pub(crate) fn set_bytes(&mut self, at: usize, bytes: u32)
        ensures either { (xs ys : List Instr) (n : ℕ) → self.old.code.items ≡ xs ++ on.Either n ∷ ys → at ≡ length_of_list xs → self.new.code.items ≡ xs ++ on.Either bytes ∷ ys }
        ensures jump { (xs ys : List Instr) (n : ℕ) → self.old.code.items ≡ xs ++ on.Jump n ∷ ys → at ≡ length_of_list xs → self.new.code.items ≡ xs ++ on.Jump bytes ∷ ys }
        ensures types { self.new.types ≡ self.old.types }
        ensures registers { self.new.registers ≡ self.old.registers }
        ensures place { self.new.place ≡ self.old.place }
    {
        if at < self.code.len() {
            let instr = match &self.code[at] {
                Instr::Either(_) => Instr::Either(bytes),
                Instr::Jump(_) => Instr::Jump(bytes),
                _ => return,
            };
            self.code[at] = instr;
        }
    }

    /// The bytes behind an offset and so many more.
    pub(crate) fn bytes_behind(&self, from: u64, more: u64) -> u32
        ensures { from + more ≤ sum_by length_of self.now.code.items → result ≡ sum_by length_of self.now.code.items - (from + more) }
    {
        let bytes = self.place.saturating_sub(from.saturating_add(more));
        bytes.min(MAX_CODE_BYTES) as u32
    }
}
