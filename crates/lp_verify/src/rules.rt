// The rules, each for the next instruction: whether it breaks it, or the record as a whole does where it is the first one.

ghost use Rattle.std.specs.Ordering.{nat_cmp};
ghost use Rattle.std.specs.BTreeMap.{get};
ghost use Rattle.lp_verify.specs.inner.Sides.{sides_in, nests_badly};
ghost use Rattle.std.specs.Prelude.{◌≡◌, ◌<◌, ◌^◌, ◌+◌, ◌||◌, ◌∷◌, [], ◌++◌, IfOk, OnOk, MatchOption, Some, None, true, false, length, nat_le, nat_lt, nat_eq, ◌&&◌, not, is_some, slice_get, ℕ, Bool};
ghost use Rattle.std.specs.List.{list_any};
ghost use Rattle.lp_code.specs.Operands.{types_read, terms_read, type_set, term_set};
ghost use Rattle.lp_code.specs.Rules.{breaks_term, is_count, is_no_term, starts_with_as_many, is_assumed_record, names_of};
ghost use Rattle.lp_verify.specs.Listed.{listed};
ghost use Rattle.lp_verify.specs.Held.{was_set, is_lacking};
ghost use Rattle.lp_verify.specs.Named.{was_named};
ghost use Rattle.lp_verify.specs.inner.Handed.{IsNamed};
ghost use Rattle.lp_verify.specs.inner.Indices.{StoreGrows};
ghost use Rattle.lp_verify.specs.inner.Made.{IsJudged};
ghost use Rattle.lp_verify.specs.Scheme.{tables_in};
ghost use Rattle.lp_verify.specs.inner.Told.{reaches_past, is_loose, reads_loose, sets_again, has_wrong_count, is_off, is_out_of_order, is_fine, are_fine, names_badly, breaks_blocks, told, AreKept, ArePassed, IsFirst, rule_of};
ghost use Rattle.lp_code.specs.Rules.{is_new_variable, breaks_type, breaks_head};
ghost use Rattle.lp_code.specs.States.{State, Home};
ghost use Rattle.lp_verify.specs.inner.Known.{Knows};
ghost use Rattle.lp_verify.specs.inner.At.{kept_in};
ghost use Rattle.lp_verify.specs.declared.loose.Lists.{Lists};
ghost use Rattle.lp_verify.specs.inner.Indices.{store};
ghost use Rattle.lp_verify.specs.inner.Taken.{is_before};

use crate::blocks::{is_all, is_assumption, is_left_to, is_negation};
use crate::built::Head;
use crate::operands::{term_set, terms_read, type_set, types_read};
use crate::record::{Shared, Work};
use crate::types::Types;
use crate::typing::{Typed, both};
use crate::whole::Whole;
use lp_base::Memory;
use lp_code::{Instr, Record, Rule};
use lp_standard::Constant;
use std::collections::BTreeMap;

// Whether a constant stands for a connective that no term has.
fn is_no_term(constant: u32) -> bool
    ensures { result ≡ is_no_term constant }
{
    constant == Constant::Implies.number()
        || constant == Constant::If.number()
        || constant == Constant::Cut.number()
        || constant == Constant::Not.number()
}

// Whether it names a constant that no term has.
fn breaks_term(instr: &Instr) -> bool
    ensures { result ≡ breaks_term instr.now }
{
    match instr {
        Instr::PutConst(_, constant, _) => is_no_term(*constant),
        Instr::GetConst(_, constant, _) => is_no_term(*constant),
        Instr::Call(constant, _, _) => is_no_term(*constant),
        _ => false,
    }
}

// Whether the record is one that an ASSUME with so many types and terms may name.
fn starts_with(of: &Record, types: usize, terms: usize) -> bool
    ensures { result ≡ starts_with_as_many of.now types terms }
{
    !of.program && usize::from(of.captured_types) == types && usize::from(of.captured) == terms
}

// Whether one of the registers is not among the first ones.
fn are_past(registers: &[u16], count: u16) -> bool
    ensures { result ≡ list_any (nat_le count) registers.now }
{
    for register in registers {
        if *register >= count {
            return true;
        }
    }
    false
}

// Whether the register that an instruction sets is not among the first ones.
fn is_past(made: Option<u16>, count: u16) -> bool
    ensures { result ≡ list_any (nat_le count) (listed made) }
{
    match made {
        Some(register) => register >= count,
        None => false,
    }
}

// Whether there are so many.
fn is_count(count: Option<u8>, length: usize) -> bool
    ensures { result ≡ is_count count length }
{
    match count {
        Some(count) => usize::from(count) == length,
        None => false,
    }
}

impl<'a> Work<'a> {
    fn reaches_past(&self, instr: &Instr, types: &[u16], terms: &[u16]) -> bool
        ensures { types.now ≡ types_read instr.now → terms.now ≡ terms_read instr.now → result ≡ reaches_past self.now.home.record.now.types self.now.home.record.now.registers instr.now }
    {
        let record = self.home.record;
        are_past(types, record.types)
            || is_past(type_set(instr), record.types)
            || are_past(terms, record.registers)
            || is_past(term_set(instr), record.registers)
    }

    fn breaks_register(&self, whole: Whole, instr: &Instr, types: &[u16], terms: &[u16]) -> bool
        ensures { types.now ≡ types_read instr.now → terms.now ≡ terms_read instr.now → result ≡ (whole.register || reaches_past self.now.home.record.now.types self.now.home.record.now.registers instr.now) }
    {
        whole.register || self.reaches_past(instr, types, terms)
    }

    fn breaks_unset(&self, types: &[u16], terms: &[u16]) -> bool
        ensures { result ≡ (list_any (is_lacking self.now.types) types.now || list_any (is_lacking self.now.terms) terms.now) }
    {
        self.types.lacks(types) || self.terms.lacks(terms)
    }

    fn breaks_set(&self, instr: &Instr) -> bool
        ensures { result ≡ sets_again (was_set self.now.types) (was_set self.now.terms) instr.now }
    {
        self.types.was_made(type_set(instr)) || self.terms.was_made(term_set(instr))
    }

    fn has_wrong_count(&self, instr: &Instr) -> bool
        ensures { result ≡ has_wrong_count (tables_in self.now.home.tables.now) instr.now }
    {
        let tables = self.home.tables;
        match instr {
            Instr::TyCon(_, kind, types) => !is_count(tables.arity(*kind), types.len()),
            Instr::PutConst(_, constant, types) => {
                !is_count(tables.type_vars(*constant), types.len())
            }
            Instr::GetConst(_, constant, types) => {
                !is_count(tables.type_vars(*constant), types.len())
            }
            Instr::Call(constant, types, _) => !is_count(tables.type_vars(*constant), types.len()),
            _ => false,
        }
    }

    fn breaks_constant(&self, whole: Whole, instr: &Instr) -> bool
        ensures { result ≡ (whole.constant || has_wrong_count (tables_in self.now.home.tables.now) instr.now) }
    {
        whole.constant || self.has_wrong_count(instr)
    }

    fn is_loose(&self, shared: &Shared, register: u16) -> bool
        ensures { result ≡ is_loose shared.now.lists self.now.terms register }
    {
        let term = self.term_in(&shared.types, register);
        !shared.lists.is_closed(term.loose)
    }

    // Whether an index is loose in one of the registers.
    fn are_loose(&self, shared: &Shared, registers: &[u16]) -> bool
        ensures { result ≡ list_any (is_loose shared.now.lists self.now.terms) registers.now }
    {
        for register in registers {
            if self.is_loose(shared, *register) {
                return true;
            }
        }
        false
    }

    fn breaks_index(&self, shared: &Shared, instr: &Instr, terms: &[u16]) -> bool
        ensures { terms.now ≡ terms_read instr.now → result ≡ reads_loose shared.now.lists self.now.terms instr.now }
    {
        match instr {
            Instr::PutAbs(_, _, _) | Instr::PutApp(_, _, _) | Instr::Assume(_, _, _) => false,
            _ => self.are_loose(shared, terms),
        }
    }

    fn is_out_of_turn(&self, number: u8) -> bool
        ensures { result ≡ is_off self.now.in_body self.now.head.arguments number }
    {
        self.in_body || usize::from(number) != self.head.argument_count()
    }

    fn is_out_of_order(&self, instr: &Instr) -> bool
        ensures { result ≡ is_out_of_order self.now.in_body (length self.now.head.types.items) self.now.head.arguments instr.now }
    {
        match instr {
            Instr::TyNew(_) | Instr::New(_, _) | Instr::Neck => self.in_body,
            Instr::GetType(number, _) => {
                self.in_body
                    || usize::from(*number) != self.head.type_count()
                    || self.head.argument_count() != 0
            }
            Instr::GetVar(number, _)
            | Instr::Get(number, _)
            | Instr::GetConst(number, _, _)
            | Instr::GetInt(number, _)
            | Instr::GetStr(number, _) => self.is_out_of_turn(*number),
            Instr::Call(_, _, _)
            | Instr::CallTerm(_)
            | Instr::Equal(_, _, _)
            | Instr::Is(_, _, _)
            | Instr::Less(_, _)
            | Instr::Greater(_, _)
            | Instr::AtMost(_, _)
            | Instr::AtLeast(_, _)
            | Instr::Cut
            | Instr::Sigma(_, _)
            | Instr::All(_, _)
            | Instr::Assume(_, _, _)
            | Instr::Either(_)
            | Instr::Not => !self.in_body,
            _ => false,
        }
    }

    fn breaks_order(&self, whole: Whole, instr: &Instr) -> bool
        ensures { result ≡ (whole.order || is_out_of_order self.now.in_body (length self.now.head.types.items) self.now.head.arguments instr.now) }
    {
        whole.order || self.is_out_of_order(instr)
    }

    // Whether the variable of this record that was made in the register stands in no earlier argument.
    fn is_new(&self, register: u16, home: u32) -> bool
        ensures { result ≡ (nat_eq home self.now.home.number && not (is_before self.now.number (get nat_cmp self.now.takings.first register))) }
    {
        let taken = self.takings.is_taken_before(register, self.number);
        both(home == self.home.number, !taken)
    }

    // Whether the register has a variable of the clause that stands in no earlier argument.
    fn is_new_variable(&self, types: &Types, register: u16) -> bool
        ensures { (l : Lists) (h : Home) (s : State) → Knows (store types.now l) self.now h s → self.now.in_body ≡ false → result ≡ is_new_variable h s register }
    {
        match self.term_in(types, register).head {
            Head::Variable(made, home) => self.is_new(made, home),
            Head::Other => false,
        }
    }

    // The same where there is a head.
    fn breaks_its_head(&self, types: &Types, instr: &Instr) -> bool
        ensures { (l : Lists) (h : Home) (s : State) → Knows (store types.now l) self.now h s → is_out_of_order self.now.in_body (length self.now.head.types.items) self.now.head.arguments instr.now ≡ false → (is_some h.self.head && result) ≡ breaks_head h s instr.now }
    {
        match instr {
            Instr::Neck => !self.head.is_complete(types),
            Instr::GetType(number, _) => !self.head.has_type(usize::from(*number)),
            Instr::Get(_, register) => self.is_new_variable(types, *register),
            _ => false,
        }
    }

    fn breaks_head(&self, types: &Types, instr: &Instr) -> bool
        ensures { (l : Lists) (h : Home) (s : State) → Knows (store types.now l) self.now h s → is_out_of_order self.now.in_body (length self.now.head.types.items) self.now.head.arguments instr.now ≡ false → result ≡ breaks_head h s instr.now }
    {
        both(self.head.is_there(), self.breaks_its_head(types, instr))
    }

    fn breaks_nesting(&self, instr: &Instr) -> bool
        ensures { self.now.place < 2 ^ 63 → self.now.number < 2 ^ 63 → result ≡ nests_badly self.now.place (get nat_cmp self.now.places.jumps) (nat_eq (self.now.number + 1) (length self.now.home.record.now.code.items)) (sides_in self.now.blocks.frames.items) instr.now }
    {
        let behind = self.place.saturating_add(5);
        match instr {
            Instr::Either(bytes) => {
                let jump = self.place.saturating_add(u64::from(*bytes));
                self.blocks.is_full() || !self.places.jumps(jump)
            }
            Instr::Jump(bytes) => {
                !is_left_to(self.blocks.innermost(), behind)
                    || !self.places.begins(behind.saturating_add(u64::from(*bytes)))
            }
            Instr::All(_, _) | Instr::Assume(_, _, _) | Instr::Not => self.blocks.is_full(),
            Instr::EndAll => !is_all(self.blocks.innermost()),
            Instr::EndAssume => !is_assumption(self.blocks.innermost()),
            Instr::EndNot => !is_negation(self.blocks.innermost()),
            Instr::Proceed => {
                let behind = self.number.saturating_add(1);
                !self.blocks.is_empty() || behind != self.home.record.code.len()
            }
            _ => false,
        }
    }

    fn breaks_blocks(&self, instr: &Instr) -> bool
        ensures { self.now.place < 2 ^ 63 → self.now.number < 2 ^ 63 → result ≡ breaks_blocks self.now instr.now }
    {
        self.blocks.has_passed(self.place) || self.breaks_nesting(instr)
    }

    fn breaks_block(&self, whole: Whole, instr: &Instr) -> bool
        ensures { self.now.place < 2 ^ 63 → self.now.number < 2 ^ 63 → result ≡ (whole.block || breaks_blocks self.now instr.now) }
    {
        whole.block || self.breaks_blocks(instr)
    }

    // Whether the record of this number is a later one that an ASSUME with so many types and terms may name.
    fn may_be_assumed(&self, number: u32, types: usize, terms: usize) -> bool
        ensures { result ≡ (nat_lt self.now.home.number number && is_assumed_record (slice_get self.now.home.records.now number) types terms) }
    {
        match self.home.records.get(number as usize) {
            Some(record) => number > self.home.number && starts_with(record, types, terms),
            None => false,
        }
    }

    // Whether an ASSUME may name the record; it is named from here on, by this place.
    fn name_one(
        &self,
        named: &mut BTreeMap<u32, usize>,
        place: usize,
        number: u32,
        types: usize,
        terms: usize,
    ) -> Result<bool, Memory>
        ensures fine { IfOk result (λ fine. fine ≡ is_fine self.now.home.number self.now.home.records.now (was_named named.old) types terms number) }
        ensures named { IfOk result (λ fine. fine ≡ true → IsNamed (number ∷ []) place named.old named.new) }
    {
        if !self.may_be_assumed(number, types, terms) {
            return Ok(false);
        }
        let before = named.insert(number, place)?;
        Ok(before.is_none())
    }

    // Whether an ASSUME may name the records; those that it may are named from here on, by this place.
    fn name(
        &self,
        named: &mut BTreeMap<u32, usize>,
        place: usize,
        records: &[u32],
        types: usize,
        terms: usize,
    ) -> Result<bool, Memory>
        ensures fine { IfOk result (λ fine. fine ≡ are_fine self.now.home.number self.now.home.records.now (was_named named.old) types terms records.now) }
        ensures named { IfOk result (λ fine. fine ≡ true → IsNamed records.now place named.old named.new) }
    {
        for number in records {
            let fine = self.name_one(named, place, *number, types, terms)?;
            if !fine {
                return Ok(false);
            }
        }
        Ok(true)
    }

    fn names_badly(
        &self,
        named: &mut BTreeMap<u32, usize>,
        place: usize,
        instr: &Instr,
    ) -> Result<bool, Memory>
        ensures clause { IfOk result (λ broken. broken ≡ names_badly self.now.home.number self.now.home.records.now self.now.home.record.now.program (was_named named.old) instr.now) }
        ensures named { IfOk result (λ broken. broken ≡ false → IsNamed (names_of instr.now) place named.old named.new) }
    {
        match instr {
            Instr::Assume(records, types, terms) => {
                let fine = self.name(named, place, records.as_slice(), types.len(), terms.len())?;
                Ok(!fine)
            }
            Instr::TyNew(_) => Ok(!self.home.record.program),
            _ => Ok(false),
        }
    }

    fn breaks_clause(
        &self,
        named: &mut BTreeMap<u32, usize>,
        place: usize,
        whole: Whole,
        instr: &Instr,
    ) -> Result<bool, Memory>
        ensures clause { IfOk result (λ broken. broken ≡ (whole.clause || names_badly self.now.home.number self.now.home.records.now self.now.home.record.now.program (was_named named.old) instr.now)) }
        ensures named { IfOk result (λ broken. broken ≡ false → IsNamed (names_of instr.now) place named.old named.new) }
    {
        if whole.clause {
            return Ok(true);
        }
        self.names_badly(named, place, instr)
    }

    // The rules behind those on types.
    fn broken_behind(
        &self,
        shared: &mut Shared,
        whole: Whole,
        instr: &Instr,
        terms: &[u16],
    ) -> Result<Option<Rule>, Memory>
        ensures first { self.now.place < 2 ^ 63 → self.now.number < 2 ^ 63 → terms.now ≡ terms_read instr.now → (t : Bool) (h : Home) (s : State) → Knows (kept_in shared.old) self.now h s → ArePassed (told self.now shared.old.lists (was_named shared.old.named) whole t (breaks_head h s instr.now) instr.now) → IfOk result (λ found. IsFirst (told self.now shared.old.lists (was_named shared.old.named) whole t (breaks_head h s instr.now) instr.now) found) }
        ensures named { IfOk result (λ found. found ≡ None → IsNamed (names_of instr.now) (length shared.old.handed.items) shared.old.named shared.new.named) }
        ensures handed { shared.new.handed ≡ shared.old.handed }
        ensures lists { shared.new.lists ≡ shared.old.lists }
        ensures types { shared.new.types ≡ shared.old.types }
    {
        let index = self.breaks_index(shared, instr, terms);
        if index {
            return Ok(Some(Rule::Index));
        }
        let term = breaks_term(instr);
        if term {
            return Ok(Some(Rule::Term));
        }
        let order = self.breaks_order(whole, instr);
        if order {
            return Ok(Some(Rule::Order));
        }
        if whole.head {
            return Ok(Some(Rule::Head));
        }
        let head = self.breaks_head(&shared.types, instr);
        if head {
            return Ok(Some(Rule::Head));
        }
        let block = self.breaks_block(whole, instr);
        if block {
            return Ok(Some(Rule::Block));
        }
        let place = shared.handed.len();
        let clause = self.breaks_clause(&mut shared.named, place, whole, instr)?;
        if clause {
            return Ok(Some(Rule::Clause));
        }
        if whole.key {
            return Ok(Some(Rule::Key));
        }
        Ok(None)
    }

    // The rules before those on types.
    fn broken_before(
        &self,
        shared: &Shared,
        whole: Whole,
        instr: &Instr,
        types: &[u16],
        terms: &[u16],
    ) -> Option<Rule>
        ensures { types.now ≡ types_read instr.now → terms.now ≡ terms_read instr.now → (t b : Bool) → MatchOption result (AreKept (told self.now shared.now.lists (was_named shared.now.named) whole t b instr.now)) (λ rule. IsFirst (told self.now shared.now.lists (was_named shared.now.named) whole t b instr.now) (Some rule)) }
    {
        let register = self.breaks_register(whole, instr, types, terms);
        if register {
            return Some(Rule::Register);
        }
        let unset = self.breaks_unset(types, terms);
        if unset {
            return Some(Rule::Unset);
        }
        let set = self.breaks_set(instr);
        if set {
            return Some(Rule::Set);
        }
        let constant = self.breaks_constant(whole, instr);
        if constant {
            return Some(Rule::Constant);
        }
        None
    }

    // What the next instruction builds, or the first rule that is broken.
    pub(crate) fn judge(
        &self,
        shared: &mut Shared,
        whole: Whole,
        instr: &Instr,
    ) -> Result<Result<Typed, Rule>, Memory>
        ensures first { IfOk result (λ found. self.now.place < 2 ^ 63 → self.now.number < 2 ^ 63 → (h : Home) (s : State) → Knows (kept_in shared.old) self.now h s → IsFirst (told self.now shared.new.lists (was_named shared.old.named) whole (breaks_type h s instr.now) (breaks_head h s instr.now) instr.now) (rule_of found)) }
        ensures named { IfOk result (λ found. rule_of found ≡ None → IsNamed (names_of instr.now) (length shared.old.handed.items) shared.old.named shared.new.named) }
        ensures handed { shared.new.handed ≡ shared.old.handed }
        ensures made { IfOk result (λ found. IfOk found (IsJudged (kept_in shared.old) (kept_in shared.new) self.now instr.now)) }
        ensures grow { OnOk result (StoreGrows (kept_in shared.old) (kept_in shared.new)) }
    {
        let types = types_read(shared.alloc, instr)?;
        let terms = terms_read(shared.alloc, instr)?;
        let before = self.broken_before(shared, whole, instr, types.as_slice(), terms.as_slice());
        if let Some(rule) = before {
            return Ok(Err(rule));
        }
        let typed = self.typed(&mut shared.types, &mut shared.lists, instr)?;
        let ill = typed.is_ill();
        if ill {
            return Ok(Err(Rule::Typing));
        }
        match self.broken_behind(shared, whole, instr, terms.as_slice())? {
            Some(rule) => Ok(Err(rule)),
            None => Ok(Ok(typed)),
        }
    }
}
