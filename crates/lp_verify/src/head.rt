// The head of a record at work: its type arguments, and what type is left behind the arguments so far.

ghost use Rattle.std.specs.Prelude.{◌≡◌, ◌+◌, ◌<◌, ◌^◌, ◌∷◌, [], ◌++◌, ◌&&◌, ℕ, suc, List, false, is_some, nat_eq, nat_lt, unwrap_or, IfOk, OnOk, length};
ghost use Rattle.lp_code.specs.States.{State, Home};
ghost use Rattle.lp_code.specs.Steps.{constant_type, head_built};
ghost use Rattle.lp_calculus.specs.Typing.{o_type};
ghost use Rattle.lp_code.specs.Rules.{head_count, breaks_order};
ghost use Rattle.lp_verify.specs.Scheme.{tables_in};
ghost use Rattle.lp_verify.specs.inner.Outline.{taken_by, types_behind, arguments_behind};
ghost use Rattle.lp_verify.specs.inner.Known.{constant_in, IsNoConstant, KnowsTables, IsHead, TakesType, TakesArgument, FollowsHead};
ghost use Rattle.lp_calculus.specs.Types.{Ty};
ghost use Rattle.lp_code.specs.Symbolic.{equal_types, argument_type, result_type};
ghost use Rattle.lp_verify.specs.inner.Stack.{Agree};
ghost use Rattle.lp_verify.specs.inner.FirstNumbers.{IsType, AreTypes, HasBasics, TypesGrow, UsesAre, IsLeftAt};

use crate::tables::Tables;
use crate::types::Types;
use crate::typing::both;
use lp_base::Memory;
use lp_code::{Instr, RecordHead};
use lp_term::TypeId;
use std::alloc::Global;

#[derive(Drop)]
pub(crate) struct HeadSoFar {
    predicate: Option<RecordHead>,
    // How many type arguments the predicate has.
    count: usize,
    types: Vec<TypeId>,
    arguments: usize,
    // The type of the predicate, `o` where a type argument is missing.
    whole: TypeId,
    left: TypeId,
}

// What a function of this type takes.
fn argument_of(types: &Types, of: TypeId) -> Option<TypeId>
    ensures { (T : Ty) → IsType types.now of T → Agree (IsType types.now) result (argument_type T 0) }
{
    match types.as_arrow(of) {
        Some((from, _)) => Some(from),
        None => None,
    }
}

// The constant that the predicate is, where it is one.
fn constant_of(predicate: Option<RecordHead>) -> Option<u32>
    ensures { result ≡ constant_in predicate }
{
    match predicate {
        Some(RecordHead::Const(constant)) => Some(constant),
        Some(RecordHead::Register(_)) => None,
        None => None,
    }
}

// How many type arguments the predicate has.
fn count_of(tables: &Tables<'_>, predicate: Option<RecordHead>) -> usize
    ensures { (h : Home) → h.tables ≡ tables_in tables.now → predicate ≡ h.self.head → result ≡ head_count h }
{
    match constant_of(predicate) {
        Some(constant) => match tables.type_vars(constant) {
            Some(count) => usize::from(count),
            None => 0,
        },
        None => 0,
    }
}

// The type of a constant on types; `o` where there is none.
fn constant_on(
    tables: &Tables<'_>,
    types: &mut Types,
    constant: u32,
    arguments: &[TypeId],
) -> Result<TypeId, Memory>
    ensures grow { OnOk result (TypesGrow types.old types.new) }
    ensures made { IfOk result (λ t. (h : Home) (Ts : List Ty) → KnowsTables tables.now types.old h → AreTypes types.old arguments.now Ts → IsType types.new t (constant_type h.tables constant Ts) × UsesAre h.tables types.new) }
{
    match tables.scheme(constant) {
        Some((bank, scheme)) => {
            let of = types.of_counted(constant, bank, scheme, arguments)?;
            Ok(of)
        }
        None => Ok(types.proposition),
    }
}

impl HeadSoFar {
    // Of a head that is a register the type is given.
    pub(crate) fn new(
        alloc: Global,
        tables: &Tables<'_>,
        types: &mut Types,
        predicate: Option<RecordHead>,
        of: Option<TypeId>,
    ) -> Result<HeadSoFar, Memory>
        ensures types { IfOk result (λ head. length head.types.items ≡ 0) }
        ensures arguments { IfOk result (λ head. head.arguments ≡ 0) }
        ensures grow { OnOk result (TypesGrow types.old types.new) }
        ensures head { IfOk result (λ head. (h : Home) (s : State) → KnowsTables tables.now types.old h → predicate ≡ h.self.head → s.head_types ≡ [] → s.head_arguments ≡ [] → (IsNoConstant predicate → IsType types.old (unwrap_or of types.old.proposition) (head_built h s).type) → UsesAre h.tables types.new × IsHead types.new head h s) }
    {
        let count = count_of(tables, predicate);
        let whole = of.unwrap_or(types.proposition);
        let mut head = HeadSoFar {
            predicate,
            count,
            types: Vec::new(alloc),
            arguments: 0,
            whole,
            left: whole,
        };
        let whole = head.type_so_far(tables, types)?;
        head.whole = whole;
        head.left = whole;
        Ok(head)
    }

    // The type of the predicate on the type arguments so far; of a register it is the one that was given.
    fn type_so_far(&self, tables: &Tables<'_>, types: &mut Types) -> Result<TypeId, Memory>
        ensures grow { OnOk result (TypesGrow types.old types.new) }
        ensures made { IfOk result (λ t. (h : Home) (s : State) → KnowsTables tables.now types.old h → self.now.predicate ≡ h.self.head → AreTypes types.old self.now.types.items s.head_types → (IsNoConstant self.now.predicate → IsType types.old self.now.whole (head_built h s).type) → UsesAre h.tables types.new × IsType types.new t (head_built h s).type) }
    {
        match constant_of(self.predicate) {
            Some(constant) => {
                let of = constant_on(tables, types, constant, self.types.as_slice())?;
                Ok(of)
            }
            None => Ok(self.whole),
        }
    }

    pub(crate) fn is_there(&self) -> bool
        ensures { result ≡ is_some self.now.predicate }
    {
        self.predicate.is_some()
    }

    pub(crate) fn type_count(&self) -> usize
        ensures { result ≡ length self.now.types.items }
    {
        self.types.len()
    }

    pub(crate) fn argument_count(&self) -> usize
        ensures { result ≡ self.now.arguments }
    {
        self.arguments
    }

    // Whether the predicate has a type argument of this number.
    pub(crate) fn has_type(&self, number: usize) -> bool
        ensures { result ≡ nat_lt number self.now.count }
    {
        number < self.count
    }

    // What is left of the predicate's type behind so many arguments, where it takes as many.
    fn left_at(&self, types: &Types, number: usize) -> Option<TypeId>
        ensures { (T : Ty) → IsType types.now self.now.whole T → IsLeftAt types.now T number result }
    {
        let mut rest = self.whole;
        for _ in 0..number {
            match types.as_arrow(rest) {
                Some((_, to)) => rest = to,
                None => return None,
            }
        }
        Some(rest)
    }

    // The type of an argument by its number.
    pub(crate) fn argument_type(&self, types: &Types, number: u8) -> Option<TypeId>
        ensures { (T : Ty) → IsType types.now self.now.whole T → IsType types.now self.now.left (result_type T self.now.arguments) → Agree (IsType types.now) result (argument_type T number) }
    {
        let number = usize::from(number);
        if number == self.arguments {
            return argument_of(types, self.left);
        }
        match self.left_at(types, number) {
            Some(left) => argument_of(types, left),
            None => None,
        }
    }

    // Whether all type arguments and all arguments are there.
    pub(crate) fn is_complete(&self, types: &Types) -> bool
        ensures { (h : Home) (s : State) → HasBasics types.now → IsHead types.now self.now h s → result ≡ (nat_eq (length s.head_types) (head_count h) && equal_types (result_type (head_built h s).type (length s.head_arguments)) o_type) }
    {
        both(
            self.type_count() == self.count,
            self.left.0 == types.proposition.0,
        )
    }

    fn add_type(&mut self, tables: &Tables<'_>, types: &mut Types, of: TypeId) -> Result<(), Memory>
        ensures types { OnOk result (length self.new.types.items ≡ length self.old.types.items + 1) }
        ensures arguments { self.new.arguments ≡ self.old.arguments }
        ensures grow { OnOk result (TypesGrow types.old types.new) }
        ensures head { OnOk result ((h : Home) (s t : State) (T : Ty) → KnowsTables tables.now types.old h → IsHead types.old self.old h s → IsType types.old of T → TakesType h s T t → UsesAre h.tables types.new × IsHead types.new self.new h t) }
    {
        self.types.push(of)?;
        let whole = self.type_so_far(tables, types)?;
        self.whole = whole;
        self.left = whole;
        Ok(())
    }

    // What the type becomes behind one argument more.
    fn left_behind(&self, types: &Types) -> TypeId
        ensures { (T : Ty) (n : ℕ) → IsType types.now self.now.left (result_type T n) → IsType types.now result (result_type T (suc n)) }
    {
        match types.as_arrow(self.left) {
            Some((_, to)) => to,
            None => self.left,
        }
    }

    fn add_argument(&mut self, types: &Types)
        ensures types { self.new.types ≡ self.old.types }
        ensures arguments { self.old.arguments + 1 < 2 ^ 64 → self.new.arguments ≡ self.old.arguments + 1 }
        ensures head { (h : Home) (s t : State) → self.old.arguments + 1 < 2 ^ 64 → IsHead types.now self.old h s → TakesArgument h s t → IsHead types.now self.new h t }
    {
        self.left = self.left_behind(types);
        self.arguments = self.arguments.saturating_add(1);
    }

    // Takes an instruction of the head: a type argument, which is this type, or an argument.
    pub(crate) fn take(
        &mut self,
        tables: &Tables<'_>,
        types: &mut Types,
        instr: &Instr,
        of: TypeId,
    ) -> Result<(), Memory>
        ensures types { OnOk result (length self.new.types.items ≡ types_behind instr.now (length self.old.types.items)) }
        ensures arguments { OnOk result (self.old.arguments + 1 < 2 ^ 64 → self.new.arguments ≡ arguments_behind instr.now self.old.arguments) }
        ensures grow { OnOk result (TypesGrow types.old types.new) }
        ensures head { OnOk result ((h : Home) (s t : State) → self.old.arguments + 1 < 2 ^ 64 → KnowsTables tables.now types.old h → IsHead types.old self.old h s → ((T : Ty) → taken_by s instr.now ≡ T ∷ [] → IsType types.old of T) → breaks_order s instr.now ≡ false → FollowsHead h s instr.now t → UsesAre h.tables types.new × IsHead types.new self.new h t) }
    {
        match instr {
            Instr::GetType(_, _) => self.add_type(tables, types, of),
            Instr::GetVar(_, _)
            | Instr::Get(_, _)
            | Instr::GetConst(_, _, _)
            | Instr::GetInt(_, _)
            | Instr::GetStr(_, _) => {
                self.add_argument(types);
                Ok(())
            }
            _ => Ok(()),
        }
    }
}
