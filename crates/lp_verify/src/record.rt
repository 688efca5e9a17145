// One record at work: its instructions are run once each, in order.
ghost use Rattle.std.specs.Prelude.{◌≡◌, ◌<◌, ◌^◌, ℕ, List, IfOk, OnOk, Some, None, false, if◌then◌else◌, slice_get, option_copied, nat_lt, length};
ghost use Rattle.lp_verify.specs.Named.{was_named, HasNamed};
ghost use Rattle.std.specs.List.{All};
ghost use Rattle.lp_code.specs.Length.{Fits};
ghost use Rattle.lp_code.specs.Rules.{names_in};
ghost use Rattle.lp_code.specs.States.{Captured as Start};
ghost use Rattle.lp_verify.specs.Held.{was_set};
ghost use Rattle.lp_verify.specs.inner.Stack.{IsFilled};
ghost use Rattle.std.specs.Prelude.{[], ◌||◌, is_some};
ghost use Rattle.std.specs.Ordering.{nat_cmp, eq_by_cmp};
ghost use Rattle.std.specs.List.{list_any};
ghost use Rattle.std.specs.BTreeMap.{get, keys};
ghost use Rattle.lp_code.specs.Steps.{is_made};
ghost use Rattle.lp_code.specs.Symbolic.{Tables as Codes};
ghost use Rattle.lp_code.specs.States.{State, member};
ghost use Rattle.lp_code.specs.States as States;
ghost use Rattle.lp_code.specs.Rules.{breaks_type, breaks_head};
ghost use Rattle.lp_verify.specs.Scheme.{tables_in};
ghost use Rattle.lp_verify.specs.inner.FirstNumbers.{TypesGrow};
ghost use Rattle.lp_verify.specs.inner.Language.{HasLanguage};
ghost use Rattle.lp_verify.specs.inner.Known.{type_made_in, AreAbove, AreNumbered, given_in, HasOwnTypes, KnowsHead, Knows};
ghost use Rattle.lp_verify.specs.inner.Indices.{StoreGrows};
ghost use Rattle.lp_verify.specs.inner.Handed.{SameTerm, IsSame, captured_in, types_captured, terms_captured};
ghost use Rattle.lp_code.specs.Denote.{run, any_clause, first_state, captured_of, first_key, key_is, has_right_key};
ghost use Rattle.lp_code.specs.Groups.{looked_key};
ghost use Rattle.lp_verify.specs.inner.Keys.{IsKeyOf};
ghost use Rattle.lp_verify.specs.Judged.{bytes_of};
ghost use Rattle.lp_verify.specs.inner.Low.{HandedLow};
ghost use Rattle.lp_verify.specs.inner.Alls.{AllsAre};
ghost use Rattle.lp_verify.specs.inner.Told.{told, IsFirst};
ghost use Rattle.lp_verify.specs.inner.At.{home_in, IsStarted, AreNamedBefore, HandedIn, KeepsTypes, kept_in, IsRan, IsStepped};

use crate::alls::Alls;
use crate::arguments::Takings;
use crate::blocks::{Blocks, Places};
use crate::built::Built;
use crate::effect::settle;
use crate::head::HeadSoFar;
use crate::keys::{first_key, is_key};
use crate::loose::Lists;
use crate::registers::Registers;
use crate::tables::Tables;
use crate::types::Types;
use crate::whole::Whole;
use lp_base::Memory;
use lp_code::{Instr, KeyRef, Record, RecordHead, Rule, length};
use lp_term::TypeId;
use std::alloc::Global;
use std::collections::BTreeMap;

// What an ASSUME hands to its records.
#[derive(Drop)]
pub(crate) struct Captured {
    pub(crate) types: Vec<TypeId>,
    pub(crate) terms: Vec<Built>,
}

// What all records share: types and loose indices, what was handed on, and by number which of it a record starts with.
#[derive(Drop)]
pub(crate) struct Shared {
    pub(crate) alloc: Global,
    pub(crate) types: Types,
    pub(crate) lists: Lists,
    pub(crate) handed: Vec<Captured>,
    pub(crate) named: BTreeMap<u32, usize>,
}

// A record, its number, and what its instructions may name.
#[derive(Clone, Copy)]
pub(crate) struct Home<'a> {
    pub(crate) tables: &'a Tables<'a>,
    pub(crate) records: &'a [Record],
    pub(crate) number: u32,
    pub(crate) record: &'a Record,
}

// A record at work.
#[derive(Drop)]
pub(crate) struct Work<'a> {
    pub(crate) home: Home<'a>,
    pub(crate) places: Places,
    pub(crate) takings: Takings,
    // The type variables that the record makes, by register: their numbers.
    pub(crate) own_types: BTreeMap<u16, u64>,
    // The next instruction: its offset and its number.
    pub(crate) place: u64,
    pub(crate) number: usize,
    pub(crate) types: Registers<TypeId>,
    pub(crate) terms: Registers<Built>,
    // Behind the head.
    pub(crate) in_body: bool,
    pub(crate) head: HeadSoFar,
    pub(crate) blocks: Blocks,
}

impl Shared {
    pub(crate) fn new(alloc: Global) -> Result<Shared, Memory>
        ensures { IfOk result (λ shared. ((n : ℕ) → was_named shared.named n ≡ false) × ((t : Codes) → KeepsTypes t shared)) }
    {
        Ok(Shared {
            alloc,
            types: Types::new(alloc)?,
            lists: Lists::new(alloc),
            handed: Vec::new(alloc),
            named: BTreeMap::new(alloc),
        })
    }

    // What the record of this number starts with.
    fn captured(&self, number: u32) -> Option<&Captured>
        ensures { option_copied result ≡ captured_in self.now.handed.items self.now.named number }
    {
        match self.named.get(&number) {
            Some(place) => self.handed.as_slice().get(*place),
            None => None,
        }
    }

    // The registers of the record of this number before its first instruction, of which so many are set.
    fn filled_types(&self, number: u32, started: u16) -> Result<Registers<TypeId>, Memory>
        ensures ever { IfOk result (λ filled. (r : ℕ) → was_set filled r ≡ nat_lt r started) }
        ensures filled { IfOk result (λ filled. length (types_captured (captured_in self.now.handed.items self.now.named number)) < 2 ^ 16 → IsFilled (types_captured (captured_in self.now.handed.items self.now.named number)) filled) }
    {
        match self.captured(number) {
            Some(captured) => Registers::filled(self.alloc, started, captured.types.as_slice()),
            None => Registers::filled(self.alloc, started, &[]),
        }
    }

    fn filled_terms(&self, number: u32, started: u16) -> Result<Registers<Built>, Memory>
        ensures ever { IfOk result (λ filled. (r : ℕ) → was_set filled r ≡ nat_lt r started) }
        ensures filled { IfOk result (λ filled. length (terms_captured (captured_in self.now.handed.items self.now.named number)) < 2 ^ 16 → IsFilled (terms_captured (captured_in self.now.handed.items self.now.named number)) filled) }
    {
        match self.captured(number) {
            Some(captured) => Registers::filled(self.alloc, started, captured.terms.as_slice()),
            None => Registers::filled(self.alloc, started, &[]),
        }
    }
}

// Notes the register of a type variable that the instruction makes.
fn note_type(made: &mut BTreeMap<u16, u64>, instr: &Instr) -> Result<(), Memory>
    ensures { OnOk result ((d : ℕ) → is_some (get nat_cmp made.new d) ≡ (member d (type_made_in instr.now) || is_some (get nat_cmp made.old d))) }
{
    match instr {
        Instr::TyNew(register) => {
            made.insert(*register, 0)?;
            Ok(())
        }
        _ => Ok(()),
    }
}

// The registers of the type variables that the code makes.
fn types_made(alloc: Global, code: &[Instr]) -> Result<BTreeMap<u16, u64>, Memory>
    ensures { IfOk result (λ made. (d : ℕ) → is_some (get nat_cmp made d) ≡ is_made type_made_in code.now d) }
{
    let mut made = BTreeMap::new(alloc);
    for instr in code {
        note_type(&mut made, instr)?;
    }
    Ok(made)
}

// The same as a list, which has so many.
fn listed(alloc: Global, made: &BTreeMap<u16, u64>, count: usize) -> Result<Vec<u16>, Memory>
    ensures list { IfOk result (λ list. list.items ≡ keys made.now) }
    ensures has { IfOk result (λ list. (q : ℕ) → is_some (get nat_cmp made.now q) ≡ list_any (eq_by_cmp nat_cmp q) (keys made.now)) }
{
    let mut list = Vec::with_capacity(alloc, count)?;
    for register in made.keys() {
        list.push(*register)?;
    }
    Ok(list)
}

// The same, ascending.
fn ascending(alloc: Global, made: &BTreeMap<u16, u64>) -> Result<Vec<u16>, Memory>
    ensures above { IfOk result (λ list. AreAbove 0 list.items) }
    ensures has { IfOk result (λ list. (q : ℕ) → is_some (get nat_cmp made.now q) ≡ member q list.items) }
{
    let count = made.len();
    let list = listed(alloc, made, count)?;
    Ok(list)
}

// Each register with its place.
fn numbered(alloc: Global, registers: &[u16]) -> Result<BTreeMap<u16, u64>, Memory>
    ensures { IfOk result (λ numbers. AreAbove 0 registers.now → AreNumbered registers.now (length registers.now) numbers) }
{
    let mut numbers = BTreeMap::new(alloc);
    let mut number: u64 = 0;
    for register in registers {
        numbers.insert(*register, number)?;
        number = number.saturating_add(1);
    }
    Ok(numbers)
}

// The numbers of the type variables that the record makes, ascending by register.
fn own_types_of(alloc: Global, of: &Record) -> Result<BTreeMap<u16, u64>, Memory>
    ensures { IfOk result (HasOwnTypes of.now) }
{
    let made = types_made(alloc, of.code.as_slice())?;
    let registers = ascending(alloc, &made)?;
    let numbers = numbered(alloc, registers.as_slice())?;
    Ok(numbers)
}

// The type of a head that is a register.
fn given_type(terms: &Registers<Built>, head: Option<RecordHead>) -> Option<TypeId>
    ensures { result ≡ given_in terms.now head }
{
    match head {
        Some(RecordHead::Register(register)) => match terms.get(register) {
            Some(built) => Some(built.of),
            None => None,
        },
        Some(RecordHead::Const(_)) => None,
        None => None,
    }
}

impl<'a> Work<'a> {
    // The key that the record is found by: that of an assumed clause is not kept.
    fn found_key(&self, alloc: Global) -> Result<KeyRef<'a>, Memory>
        ensures { IfOk result (λ key. IsKeyOf (looked_key key) (if self.now.home.record.now.program then first_key (λ r. None) self.now.home.record.now.code.items else None)) }
    {
        if self.home.record.program {
            return first_key(alloc, &self.home.record.code);
        }
        Ok(KeyRef::None)
    }

    fn has_wanted_key(&self, alloc: Global) -> Result<bool, Memory>
        ensures { IfOk result (λ is. is ≡ key_is self.now.home.record.now.key (if self.now.home.record.now.program then first_key (λ r. None) self.now.home.record.now.code.items else None)) }
    {
        let key = self.found_key(alloc)?;
        Ok(is_key(&self.home.record.key, key))
    }

    // Whether the record has the key of its head; one without a head has none.
    pub(crate) fn has_right_key(&self, alloc: Global) -> Result<bool, Memory>
        ensures { IfOk result (λ is. is ≡ has_right_key (home_in self.now.home)) }
    {
        match self.home.record.head {
            None => Ok(true),
            Some(_) => self.has_wanted_key(alloc),
        }
    }

    // The record before its first instruction.
    fn start(shared: &mut Shared, home: Home<'a>) -> Result<Work<'a>, Memory>
        requires { All Fits home.record.now.code.items }
        ensures home { IfOk result (λ work. work.home ≡ home.entry) }
        ensures named { shared.new.named ≡ shared.old.named }
        ensures handed { shared.new.handed ≡ shared.old.handed }
        ensures lists { shared.new.lists ≡ shared.old.lists }
        ensures started { IfOk result (λ work. IsStarted shared.old.handed.items shared.old.named work) }
        ensures grow { OnOk result (TypesGrow shared.old.types shared.new.types) }
        ensures head { IfOk result (λ work. HasLanguage home.entry.tables.now → KeepsTypes (tables_in home.entry.tables.now) shared.old → (s : State) → s.head_types ≡ [] → s.head_arguments ≡ [] → IsSame (SameTerm (kept_in shared.old)) work.terms s.now.terms → KnowsHead (kept_in shared.new) work (home_in home.entry) s) }
    {
        let alloc = shared.alloc;
        let record = home.record;
        let code = record.code.as_slice();
        let types = shared.filled_types(home.number, record.captured_types)?;
        let terms = shared.filled_terms(home.number, record.captured)?;
        let of = given_type(&terms, record.head);
        let head = HeadSoFar::new(alloc, home.tables, &mut shared.types, record.head, of)?;
        Ok(Work {
            home,
            places: Places::of(alloc, code)?,
            takings: Takings::of(alloc, code)?,
            own_types: own_types_of(alloc, record)?,
            place: 0,
            number: 0,
            types,
            terms,
            in_body: false,
            head,
            blocks: Blocks::new(alloc),
        })
    }

    // Judges the next instruction, and runs it where no rule is broken.
    fn step(
        &mut self,
        shared: &mut Shared,
        whole: Whole,
        instr: &Instr,
    ) -> Result<Option<Rule>, Memory>
        requires { Fits instr.now }
        ensures { IfOk result (λ found. (self.old.place < 2 ^ 63 → self.old.number < 2 ^ 63 → (h : States.Home) (s : State) → Knows (kept_in shared.old) self.old h s → IsFirst (told self.old shared.new.lists (was_named shared.old.named) whole (breaks_type h s instr.now) (breaks_head h s instr.now) instr.now) found) × StoreGrows (kept_in shared.old) (kept_in shared.new) × IsStepped instr.now shared.old shared.new self.old self.new found) }
    {
        let typed = match self.judge(shared, whole, instr)? {
            Ok(typed) => typed,
            Err(rule) => return Ok(Some(rule)),
        };
        self.act(shared, instr, typed)?;
        self.place = self.place.saturating_add(u64::from(length(instr)));
        self.number = self.number.saturating_add(1);
        settle(
            &mut self.blocks,
            &mut self.types,
            &mut self.terms,
            self.place,
        );
        Ok(None)
    }
}

// The first rule that the record breaks, with its offset.
pub(crate) fn judge_record<'a>(
    shared: &mut Shared,
    alls: &Alls,
    home: Home<'a>,
) -> Result<Option<(u64, Rule)>, Memory>
    requires fit { All Fits home.record.now.code.items }
    requires language { HasLanguage home.tables.now }
    ensures { IfOk result (λ found. ((before : List (ℕ × Start)) → slice_get home.entry.records.now home.entry.number ≡ Some home.entry.record.now → HandedIn shared.old home.entry.records.now before → HandedLow before → AllsAre home.entry.records.now home.entry.number alls.now.records.items → KeepsTypes (tables_in home.entry.tables.now) shared.old → AreNamedBefore home.entry.number home.entry.records.now shared.old.named → bytes_of home.entry.record.now.code.items < 2 ^ 32
        → IsRan (tables_in home.entry.tables.now) home.entry.records.now shared.new before (run (home_in home.entry) any_clause (first_state home.entry.record.now (captured_of before home.entry.number)) home.entry.record.now.code.items) found)
        × (found ≡ None → HasNamed (names_in home.entry.record.now.code.items) shared.old.named shared.new.named)) }
{
    let mut work = Work::start(shared, home)?;
    let mut whole = work.broken_as_a_whole(shared, alls)?;
    for instr in &home.record.code {
        if let Some(rule) = work.step(shared, whole, instr)? {
            return Ok(Some((work.place, rule)));
        }
        whole = Whole::none();
    }
    match whole.first() {
        Some(rule) => Ok(Some((work.place, rule))),
        None => Ok(None),
    }
}
