// The rules of a record as a whole.

ghost use Rattle.std.specs.Prelude.{◌≡◌, ◌||◌, ◌&&◌, ℕ, List, IfOk, Some, true, nat_lt, not};
ghost use Rattle.lp_verify.specs.Named.{was_named};
ghost use Rattle.lp_calculus.specs.Term.{Term};
ghost use Rattle.lp_model.specs.Flatten.{ends_in_o, heads_clauses};
ghost use Rattle.lp_standard.specs.Constants.{is_declared};
ghost use Rattle.lp_code.specs.declared.record.Record.{Record as Coded};
ghost use Rattle.lp_code.specs.declared.record.RecordHead.TheVariants.{Register};
ghost use Rattle.lp_code.specs.declared.rule.Rule.TheVariants as rule;
ghost use Rattle.lp_code.specs.Symbolic.{term_in};
ghost use Rattle.lp_code.specs.States.{State};
ghost use Rattle.lp_code.specs.Denote.{has_neck, ends_with_proceed, is_all_variable, heads, head_passes, is_known_head, broken_by_record};
ghost use Rattle.lp_verify.specs.Scheme.{tables_in};
ghost use Rattle.lp_verify.specs.declared.loose.Lists.{Lists};
ghost use Rattle.lp_verify.specs.inner.FirstNumbers.{HasBasics};
ghost use Rattle.lp_verify.specs.inner.Language.{HasLanguage};
ghost use Rattle.lp_verify.specs.inner.Indices.{store};
ghost use Rattle.lp_verify.specs.inner.Handed.{variable_of, variable_in, SameTerm, IsSame};
ghost use Rattle.lp_verify.specs.inner.Low.{IsLow, HoldsLow};
ghost use Rattle.lp_verify.specs.inner.Alls.{AllsAre};
ghost use Rattle.lp_verify.specs.inner.Told.{IsFirst, broken_whole};
ghost use Rattle.lp_verify.specs.inner.At.{kept_in, IsNoWhole, IsJudgedWhole, home_in, starts_badly};
ghost use Rattle.lp_verify.specs.inner.Known.{HeadIsLow};
ghost use Rattle.lp_verify.specs.inner.Sides.{is_proceed};

use crate::alls::Alls;
use crate::built::Head;
use crate::record::{Shared, Work};
use crate::types::{Types, ends_in_o};
use crate::typing::both;
use lp_base::Memory;
use lp_code::{Instr, Record, RecordHead, Rule};
use lp_standard::FIRST_CONSTANT;

// Which rules a record breaks as a whole.
#[derive(Clone, Copy)]
pub(crate) struct Whole {
    pub(crate) register: bool,
    pub(crate) constant: bool,
    pub(crate) order: bool,
    pub(crate) head: bool,
    pub(crate) block: bool,
    pub(crate) clause: bool,
    pub(crate) key: bool,
}

impl Whole {
    // None: behind the first instruction the record is not judged again.
    pub(crate) fn none() -> Whole
        ensures { IsNoWhole result }
    {
        Whole {
            register: false,
            constant: false,
            order: false,
            head: false,
            block: false,
            clause: false,
            key: false,
        }
    }

    // The first one.
    pub(crate) fn first(self) -> Option<Rule>
        ensures { IsFirst (broken_whole self) result }
    {
        if self.register {
            return Some(Rule::Register);
        }
        if self.constant {
            return Some(Rule::Constant);
        }
        if self.order {
            return Some(Rule::Order);
        }
        if self.head {
            return Some(Rule::Head);
        }
        if self.block {
            return Some(Rule::Block);
        }
        if self.clause {
            return Some(Rule::Clause);
        }
        if self.key {
            return Some(Rule::Key);
        }
        None
    }
}

// Whether the record starts with more registers than it has.
fn starts_with_too_many(of: &Record) -> bool
    ensures { result ≡ (nat_lt of.now.types of.now.captured_types || nat_lt of.now.registers of.now.captured) }
{
    of.types < of.captured_types || of.registers < of.captured
}

// Whether there is a NECK.
fn has_neck(code: &[Instr]) -> bool
    ensures { result ≡ has_neck code.now }
{
    for instr in code {
        if matches!(instr, Instr::Neck) {
            return true;
        }
    }
    false
}

fn is_proceed(instr: &Instr) -> bool
    ensures { result ≡ is_proceed (Some instr.now) }
{
    match instr {
        Instr::Proceed => true,
        _ => false,
    }
}

// Whether the last instruction is PROCEED.
fn ends_with_proceed(code: &[Instr]) -> bool
    ensures { result ≡ ends_with_proceed code.now }
{
    match code.last() {
        Some(instr) => is_proceed(instr),
        None => false,
    }
}

// Whether the term is the variable of an ALL.
fn is_all(alls: &Alls, head: Head) -> bool
    ensures { (rs : List Coded) (n : ℕ) (t : Term) → AllsAre rs n alls.now.records.items → variable_in head ≡ variable_of t → IsLow n t → result ≡ is_all_variable rs t }
{
    match head {
        Head::Variable(register, home) => alls.has(home, register),
        Head::Other => false,
    }
}

impl<'a> Work<'a> {
    fn has_known_head(&self) -> bool
        ensures { result ≡ head_passes (is_known_head (home_in self.now.home)) self.now.home.record.now.head }
    {
        match self.home.record.head {
            Some(RecordHead::Const(constant)) => self.home.tables.type_vars(constant).is_some(),
            _ => true,
        }
    }

    // Whether the constant is a predicate that clauses may have.
    fn heads_clauses(&self, constant: u32) -> bool
        ensures { HasLanguage self.now.home.tables.now → result ≡ (is_declared constant && heads_clauses ((tables_in self.now.home.tables.now).constants constant)) }
    {
        match self.home.tables.scheme(constant) {
            Some((bank, scheme)) => both(constant >= FIRST_CONSTANT, ends_in_o(bank, scheme.body)),
            None => false,
        }
    }

    // Whether the term is the variable of an ALL, of a type that ends in `o`.
    fn is_predicate(&self, types: &Types, alls: &Alls, register: u16) -> bool
        ensures { (l : Lists) (s : State) → HasBasics types.now → IsSame (SameTerm (store types.now l)) self.now.terms s.now.terms → HoldsLow self.now.home.number s.now.terms → AllsAre self.now.home.records.now self.now.home.number alls.now.records.items → result ≡ (is_all_variable self.now.home.records.now (term_in s.now register).term && ends_in_o (term_in s.now register).type) }
    {
        let built = self.term_in(types, register);
        both(is_all(alls, built.head), types.ends_in_o(built.of))
    }

    // Whether a head is a predicate that clauses may have.
    fn is_fine_head(&self, types: &Types, alls: &Alls, of: RecordHead) -> bool
        ensures low { result ≡ true → (r : ℕ) → of ≡ Register r → nat_lt r self.now.home.record.now.captured ≡ true }
        ensures fine { (l : Lists) (s : State) → HasLanguage self.now.home.tables.now → HasBasics types.now → IsSame (SameTerm (store types.now l)) self.now.terms s.now.terms → HoldsLow self.now.home.number s.now.terms → AllsAre self.now.home.records.now self.now.home.number alls.now.records.items
            → result ≡ heads (home_in self.now.home) s of }
    {
        match of {
            RecordHead::Const(constant) => self.heads_clauses(constant),
            RecordHead::Register(register) => both(
                register < self.home.record.captured,
                self.is_predicate(types, alls, register),
            ),
        }
    }

    // Whether the record has such a head, or none.
    fn has_fine_head(&self, types: &Types, alls: &Alls) -> bool
        ensures low { result ≡ true → HeadIsLow (home_in self.now.home) }
        ensures fine { (l : Lists) (s : State) → HasLanguage self.now.home.tables.now → HasBasics types.now → IsSame (SameTerm (store types.now l)) self.now.terms s.now.terms → HoldsLow self.now.home.number s.now.terms → AllsAre self.now.home.records.now self.now.home.number alls.now.records.items
            → result ≡ head_passes (heads (home_in self.now.home) s) self.now.home.record.now.head }
    {
        match self.home.record.head {
            None => true,
            Some(of) => self.is_fine_head(types, alls, of),
        }
    }

    fn breaks_start(&self, shared: &Shared) -> bool
        ensures { result ≡ starts_badly (home_in self.now.home) (was_named shared.now.named) }
    {
        let record = self.home.record;
        if record.program {
            return record.captured_types != 0 || record.captured != 0;
        }
        !shared.named.contains_key(&self.home.number)
    }

    // What the record breaks as a whole.
    pub(crate) fn broken_as_a_whole(&self, shared: &Shared, alls: &Alls) -> Result<Whole, Memory>
        ensures whole { IfOk result (λ whole. IsJudgedWhole (home_in self.now.home) (was_named shared.now.named) whole) }
        ensures head { IfOk result (λ whole. (s : State) → HasLanguage self.now.home.tables.now → HasBasics shared.now.types → IsSame (SameTerm (kept_in shared.now)) self.now.terms s.now.terms → HoldsLow self.now.home.number s.now.terms → AllsAre self.now.home.records.now self.now.home.number alls.now.records.items → whole.head ≡ broken_by_record (home_in self.now.home) s rule.Head) }
    {
        let record = self.home.record;
        let has_right_key = self.has_right_key(shared.alloc)?;
        let fine = self.has_fine_head(&shared.types, alls);
        Ok(Whole {
            register: starts_with_too_many(record),
            constant: !self.has_known_head(),
            order: !has_neck(record.code.as_slice()),
            head: !fine,
            block: !ends_with_proceed(record.code.as_slice()),
            clause: self.breaks_start(shared),
            key: !has_right_key,
        })
    }
}
