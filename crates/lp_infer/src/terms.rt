// The formula of a text, from its parts and the type arguments of its constants.
ghost use Rattle.std.specs.Prelude.{◌≡◌, ◌+◌, ◌^◌, ◌<◌, ◌≤◌, ℕ, List, [], length, map, drop, All, IfOk, OnOk};
ghost use Rattle.lp_calculus.specs.Types.{Ty};
ghost use Rattle.lp_calculus.specs.Typing.{Scheme};
ghost use Rattle.lp_term.specs.Nodes.{Nodes, Extends};
ghost use Rattle.lp_infer.specs.Typing.{Raw};
ghost use Rattle.lp_infer.specs.Texts.{escaped as escaped_byte, string_bytes};
ghost use Rattle.lp_infer.specs.Postfix.{is_index, is_constant, is_integer, is_text, closes, applies, mark, postfix};
ghost use Rattle.lp_term.specs.Within.{AreTypesOf};
ghost use Rattle.lp_infer.specs.Copies.{trees_of};
ghost use Rattle.lp_infer.specs.inner.Parts.{takes, arguments_of, all_arguments, HaveParts, IsShallow};
ghost use Rattle.lp_infer.specs.Filling.{fills, IsTerm, form, IsPushed, IsPopped, IsTaken, Forms};

use crate::generate::index_of;
use crate::lookup::Step;
use crate::standard::standard_variables;
use lp_base::{Memory, Spot};
use lp_sig::spelled_at;
use lp_term::{
    Bank, TermId, TypeId, put_abstraction, put_application, put_constant, put_index, put_integer,
    put_text,
};
use std::alloc::Global;

// The byte that a letter stands for behind `\`.
fn escaped(letter: u8) -> u8
    ensures { result ≡ escaped_byte letter }
{
    match letter {
        b'n' => 10,
        b't' => 9,
        other => other,
    }
}

// The bytes of a string, from its token.
fn bytes_of(alloc: Global, token: &[u8]) -> Result<Vec<u8>, Memory>
    ensures { IfOk result (λ bytes. bytes.items ≡ string_bytes token.now) }
{
    let mut bytes = Vec::new(alloc);
    let Some(inner) = token.get(1..token.len().saturating_sub(1)) else {
        return Ok(bytes);
    };
    let mut behind = false;
    for b in inner.iter().copied() {
        if behind {
            bytes.push(escaped(b))?;
            behind = false;
        } else if b == b'\\' {
            behind = true;
        } else {
            bytes.push(b)?;
        }
    }
    Ok(bytes)
}

// A head with the arguments that it has so far.
#[derive(Drop)]
struct Spine {
    head: TermId,
    arguments: Vec<TermId>,
}

#[derive(Drop)]
pub(crate) struct Terms {
    alloc: Global,
    stack: Vec<Spine>,
    // How many types were used.
    used: usize,
}

impl Terms {
    // The type arguments stand behind so many others.
    pub(crate) fn new(alloc: Global, used: usize) -> Terms
        ensures stack { result.stack.items ≡ [] }
        ensures used { result.used ≡ used }
    {
        Terms {
            alloc,
            stack: Vec::new(alloc),
            used,
        }
    }

    fn push(&mut self, head: TermId) -> Result<(), Memory>
        ensures { OnOk result (IsPushed head self.old self.new) }
    {
        let arguments = Vec::new(self.alloc);
        self.stack.push(Spine { head, arguments })?;
        Ok(())
    }

    fn pop(&mut self) -> Spine
        requires { 0 < length self.old.stack.items }
        ensures { IsPopped self.old self.new result }
    {
        let Some(spine) = self.stack.pop() else {
            unreachable!()
        };
        spine
    }

    // The term of the part before.
    fn term(&mut self, bank: &mut Bank) -> Result<TermId, Memory>
        requires { 0 < length self.old.stack.items }
        ensures kept { Extends bank.old bank.new }
        ensures within { IfOk result (λ id. id.0 < length bank.new.terms) }
        ensures term { IfOk result (IsTaken bank.old bank.new self.old self.new) }
    {
        let spine = self.pop();
        put_application(bank, spine.head, spine.arguments.as_slice())
    }

    // A constant on the next type arguments.
    fn constant(
        &mut self,
        number: u32,
        count: u8,
        types: &[TypeId],
        bank: &mut Bank,
    ) -> Result<(), Memory>
        requires { self.old.used + count ≤ length types.now }
        ensures kept { Extends bank.old bank.new }
        ensures used { OnOk result (self.new.used ≡ self.old.used + count) }
        ensures formed { OnOk result ((scheme : Scheme) → scheme.count ≡ count → Forms bank.old bank.new types.now self.old self.new (form (is_constant number scheme))) }
    {
        let end = self.used + count as usize;
        let arguments = &types[self.used..end];
        let head = put_constant(bank, number, arguments)?;
        self.used = end;
        self.push(head)
    }

    fn text(&mut self, token: &[u8], bank: &mut Bank) -> Result<(), Memory>
        ensures kept { Extends bank.old bank.new }
        ensures used { OnOk result (self.new.used ≡ self.old.used) }
        ensures formed { OnOk result ((types : List TypeId) → Forms bank.old bank.new types self.old self.new (form (is_text (string_bytes token.now)))) }
    {
        let bytes = bytes_of(self.alloc, token)?;
        let head = put_text(bank, bytes.as_slice())?;
        self.push(head)
    }

    fn index(&mut self, index: u64, bank: &mut Bank) -> Result<(), Memory>
        ensures kept { Extends bank.old bank.new }
        ensures used { OnOk result (self.new.used ≡ self.old.used) }
        ensures formed { OnOk result ((types : List TypeId) → Forms bank.old bank.new types self.old self.new (form (is_index index))) }
    {
        let head = put_index(bank, index)?;
        self.push(head)
    }

    fn integer(&mut self, value: i64, bank: &mut Bank) -> Result<(), Memory>
        ensures kept { Extends bank.old bank.new }
        ensures used { OnOk result (self.new.used ≡ self.old.used) }
        ensures formed { OnOk result ((types : List TypeId) → Forms bank.old bank.new types self.old self.new (form (is_integer value))) }
    {
        let head = put_integer(bank, value)?;
        self.push(head)
    }

    fn close(&mut self, bank: &mut Bank) -> Result<(), Memory>
        requires { 0 < length self.old.stack.items }
        ensures kept { Extends bank.old bank.new }
        ensures used { OnOk result (self.new.used ≡ self.old.used) }
        ensures formed { OnOk result ((types : List TypeId) → Forms bank.old bank.new types self.old self.new (form closes)) }
    {
        let body = self.term(bank)?;
        let head = put_abstraction(bank, body)?;
        self.push(head)
    }

    #[tactic(auto, using(lp_term::proofs::Within::kept_then))]
    fn apply(&mut self, bank: &mut Bank) -> Result<(), Memory>
        requires { 1 < length self.old.stack.items }
        ensures kept { Extends bank.old bank.new }
        ensures used { OnOk result (self.new.used ≡ self.old.used) }
        ensures formed { OnOk result ((types : List TypeId) → Forms bank.old bank.new types self.old self.new (form applies)) }
    {
        let argument = self.term(bank)?;
        let mut spine = self.pop();
        spine.arguments.push(argument)?;
        self.stack.push(spine)?;
        Ok(())
    }

    #[tactic(auto, using(lp_term::proofs::Within::kept_then))]
    fn step(
        &mut self,
        source: &[u8],
        count: u64,
        types: &[TypeId],
        step: Step,
        bank: &mut Bank,
    ) -> Result<(), Memory>
        requires count { count < 2 ^ 63 }
        requires shallow { IsShallow step }
        requires parts { takes step ≤ length self.old.stack.items }
        requires arguments { self.old.used + arguments_of step ≤ length types.now }
        ensures kept { Extends bank.old bank.new }
        ensures used { OnOk result (self.new.used ≡ self.old.used + arguments_of step) }
        ensures formed { OnOk result ((b : Nodes) → (τ : ℕ → Ty) → Forms bank.old bank.new types.now self.old self.new (form (mark source.now b count τ step))) }
    {
        match step {
            Step::Bound(out) => self.index(out, bank),
            Step::Variable(depth, number) => self.index(index_of(count, depth, number), bank),
            Step::Standard(number) => {
                self.constant(number, standard_variables(number), types, bank)
            }
            Step::Declared(number, vars, _) => self.constant(number, vars, types, bank),
            Step::Integer(value) => self.integer(value, bank),
            Step::Text(spot) => self.text(spelled_at(source, spot), bank),
            Step::Open(_) => Ok(()),
            Step::Close => self.close(bank),
            Step::Apply => self.apply(bank),
        }
    }

    // The formula of a text with so many variables, whose constants have these type arguments.
    #[tactic(auto, using(lp_term::proofs::Within::kept_then))]
    pub(crate) fn formula(
        &mut self,
        source: &[u8],
        count: u64,
        types: &[TypeId],
        steps: &[Step],
        bank: &mut Bank,
    ) -> Result<TermId, Memory>
        requires count { count < 2 ^ 63 }
        requires shallow { All IsShallow steps.now }
        requires empty { self.old.stack.items ≡ [] }
        requires known { AreTypesOf bank.old types.now }
        requires parts { HaveParts steps.now 0 }
        requires arguments { self.old.used + all_arguments steps.now ≤ length types.now }
        ensures kept { Extends bank.old bank.new }
        ensures within { IfOk result (λ id. id.0 < length bank.new.terms) }
        ensures term { self.old.stack.items ≡ [] → AreTypesOf bank.old types.now → IfOk result (λ id. (R : Raw) → (b : Nodes) → (τ : ℕ → Ty) → postfix R ≡ map (mark source.now b count τ) steps.now → IsTerm bank.new id (fills R (drop self.old.used (trees_of bank.old types.now))).0) }
    {
        for step in steps {
            self.step(source, count, types, *step, bank)?;
        }
        self.term(bank)
    }
}
