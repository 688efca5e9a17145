// Records with their numbers changed.
ghost use Rattle.std.specs.Prelude.{◌≡◌, false, map, option_map, IfOk, MatchOption};
ghost use Rattle.lp_link.specs.inner.Parts.{builds, matches, calls, raised_to, map_in, BecomesMoved, BecomesMovedRecord};
ghost use Rattle.lp_link.specs.Renumbering.{moved_head, moved_key};
ghost use Rattle.lp_code.specs.Groups.{plain_key};

use crate::names::Names;
use lp_base::Memory;
use lp_code::{Instr, Key, Record, RecordHead};
use lp_term::Mapping;
use std::alloc::Global;

/// What becomes of numbers: those of kinds and constants by the names of a copy, and those of records from the copy's first one on.
#[derive(Clone, Copy)]
pub(crate) struct Numbers<'a> {
    pub alloc: Global,
    pub names: &'a Names,
    pub first: u32,
}

impl<'a> Numbers<'a> {
    fn registers(&self, registers: &Vec<u16>) -> Result<Vec<u16>, Memory>
        ensures { IfOk result (λ v. v.items ≡ registers.now.items) }
    {
        Ok(Vec::from_slice(self.alloc, registers.as_slice())?)
    }

    fn text(&self, text: &Vec<u8>) -> Result<Vec<u8>, Memory>
        ensures { IfOk result (λ v. v.items ≡ text.now.items) }
    {
        Ok(Vec::from_slice(self.alloc, text.as_slice())?)
    }

    fn records(&self, numbers: &Vec<u32>) -> Result<Vec<u32>, Memory>
        ensures { IfOk result (λ v. v.items ≡ map (raised_to self.now.first) numbers.now.items) }
    {
        let mut records = Vec::new(self.alloc);
        for at in 0..numbers.len() {
            records.push(self.first.saturating_add(numbers[at]))?;
        }
        Ok(records)
    }

    // An instruction that builds a type or a term.
    fn building(&self, instr: &Instr) -> Result<Option<Instr>, Memory>
        ensures { IfOk result (λ made. MatchOption made (builds instr.now ≡ false) (BecomesMoved self.now instr.now)) }
    {
        Ok(match instr {
            Instr::TyCon(d, kind, types) => Some(Instr::TyCon(
                *d,
                self.names.kind(*kind),
                self.registers(types)?,
            )),
            Instr::TyArr(d, from, to) => Some(Instr::TyArr(*d, *from, *to)),
            Instr::TyNew(d) => Some(Instr::TyNew(*d)),
            Instr::New(d, of) => Some(Instr::New(*d, *of)),
            Instr::PutConst(d, constant, types) => Some(Instr::PutConst(
                *d,
                self.names.constant(*constant),
                self.registers(types)?,
            )),
            Instr::PutInt(d, value) => Some(Instr::PutInt(*d, *value)),
            Instr::PutStr(d, text) => Some(Instr::PutStr(*d, self.text(text)?)),
            Instr::PutIndex(d, index, of) => Some(Instr::PutIndex(*d, *index, *of)),
            Instr::PutAbs(d, body, of) => Some(Instr::PutAbs(*d, *body, *of)),
            Instr::PutApp(d, head, args) => {
                Some(Instr::PutApp(*d, *head, self.registers(args)?))
            }
            _ => None,
        })
    }

    // An instruction of a head.
    fn matching(&self, instr: &Instr) -> Result<Option<Instr>, Memory>
        ensures { IfOk result (λ made. MatchOption made (matches instr.now ≡ false) (BecomesMoved self.now instr.now)) }
    {
        Ok(match instr {
            Instr::GetType(at, of) => Some(Instr::GetType(*at, *of)),
            Instr::GetVar(at, d) => Some(Instr::GetVar(*at, *d)),
            Instr::Get(at, register) => Some(Instr::Get(*at, *register)),
            Instr::GetConst(at, constant, types) => Some(Instr::GetConst(
                *at,
                self.names.constant(*constant),
                self.registers(types)?,
            )),
            Instr::GetInt(at, value) => Some(Instr::GetInt(*at, *value)),
            Instr::GetStr(at, text) => Some(Instr::GetStr(*at, self.text(text)?)),
            Instr::Neck => Some(Instr::Neck),
            _ => None,
        })
    }

    // An instruction of an atom, or a cut.
    fn calling(&self, instr: &Instr) -> Result<Option<Instr>, Memory>
        ensures { IfOk result (λ made. MatchOption made (calls instr.now ≡ false) (BecomesMoved self.now instr.now)) }
    {
        Ok(match instr {
            Instr::Call(constant, types, args) => {
                let types = self.registers(types)?;
                Some(Instr::Call(self.names.constant(*constant), types, self.registers(args)?))
            }
            Instr::CallTerm(register) => Some(Instr::CallTerm(*register)),
            Instr::Equal(of, left, right) => Some(Instr::Equal(*of, *left, *right)),
            Instr::Is(of, left, right) => Some(Instr::Is(*of, *left, *right)),
            Instr::Less(left, right) => Some(Instr::Less(*left, *right)),
            Instr::Greater(left, right) => Some(Instr::Greater(*left, *right)),
            Instr::AtMost(left, right) => Some(Instr::AtMost(*left, *right)),
            Instr::AtLeast(left, right) => Some(Instr::AtLeast(*left, *right)),
            Instr::Cut => Some(Instr::Cut),
            _ => None,
        })
    }

    // One that opens or ends a block, which are all others.
    fn of_blocks(&self, instr: &Instr) -> Result<Instr, Memory>
        requires building { builds instr.now ≡ false }
        requires matching { matches instr.now ≡ false }
        requires calling { calls instr.now ≡ false }
        ensures { IfOk result (BecomesMoved self.now instr.now) }
    {
        Ok(match instr {
            Instr::Sigma(d, of) => Instr::Sigma(*d, *of),
            Instr::All(d, of) => Instr::All(*d, *of),
            Instr::EndAll => Instr::EndAll,
            Instr::Assume(records, types, terms) => {
                let records = self.records(records)?;
                let types = self.registers(types)?;
                Instr::Assume(records, types, self.registers(terms)?)
            }
            Instr::EndAssume => Instr::EndAssume,
            Instr::Either(bytes) => Instr::Either(*bytes),
            Instr::Jump(bytes) => Instr::Jump(*bytes),
            Instr::Not => Instr::Not,
            Instr::EndNot => Instr::EndNot,
            _ => Instr::Proceed,
        })
    }

    fn instruction(&self, instr: &Instr) -> Result<Instr, Memory>
        ensures { IfOk result (BecomesMoved self.now instr.now) }
    {
        if let Some(made) = self.building(instr)? {
            return Ok(made);
        }
        if let Some(made) = self.matching(instr)? {
            return Ok(made);
        }
        if let Some(made) = self.calling(instr)? {
            return Ok(made);
        }
        self.of_blocks(instr)
    }

    fn head(&self, head: Option<RecordHead>) -> Option<RecordHead>
        ensures { result ≡ option_map (moved_head (map_in self.now)) head }
    {
        match head? {
            RecordHead::Const(constant) => {
                Some(RecordHead::Const(self.names.constant(constant)))
            }
            RecordHead::Register(register) => Some(RecordHead::Register(register)),
        }
    }

    fn key(&self, key: &Key) -> Result<Key, Memory>
        ensures { IfOk result (λ made. plain_key made ≡ moved_key (map_in self.now) (plain_key key.now)) }
    {
        match key {
            Key::None => Ok(Key::None),
            Key::Const(constant) => Ok(Key::Const(self.names.constant(*constant))),
            Key::Int(value) => Ok(Key::Int(*value)),
            Key::Text(text) => Ok(Key::Text(self.text(text)?)),
        }
    }

    /// The record in the image.
    pub(crate) fn record(&self, of: &Record) -> Result<Record, Memory>
        ensures { IfOk result (BecomesMovedRecord self.now of.now) }
    {
        let mut code = Vec::new(self.alloc);
        for at in 0..of.code.len() {
            code.push(self.instruction(&of.code[at])?)?;
        }
        Ok(Record {
            program: of.program,
            head: self.head(of.head),
            captured_types: of.captured_types,
            captured: of.captured,
            types: of.types,
            registers: of.registers,
            key: self.key(&of.key)?,
            code,
        })
    }
}
