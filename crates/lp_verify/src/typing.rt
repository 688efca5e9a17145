// What an instruction builds, where it is well typed.

ghost use Rattle.std.specs.Prelude.{◌≡◌, ◌∷◌, [], ◌&&◌, List, map, IfOk, OnOk, Option, Some, None, false, not, is_none, unwrap_or};
ghost use Rattle.std.specs.List.{list_any};
ghost use Rattle.lp_calculus.specs.Types.{Ty};
ghost use Rattle.lp_calculus.specs.Typing.{o_type};
ghost use Rattle.lp_code.specs.Symbolic.{Built as Put, variable, whole, type_in, types_in, term_in, terms_in, applied_type, argument_type, agree_at, innermost, abstraction_of, application_of};
ghost use Rattle.lp_code.specs.States.{State, Home};
ghost use Rattle.lp_code.specs.Steps.{constant_type, head_built, argument_at};
ghost use Rattle.lp_code.specs.Rules.{has_type, built_types, applies, is_argument, have_type};
ghost use Rattle.lp_verify.specs.declared.types.Types.{Types};
ghost use Rattle.lp_verify.specs.declared.loose.Lists.{Lists};
ghost use Rattle.lp_verify.specs.Held.{value_in, is_lacking};
ghost use Rattle.lp_verify.specs.inner.FirstNumbers.{IsType, AreTypes, TypesGrow, UsesAre, UsesStay, HasBasics};
ghost use Rattle.lp_verify.specs.inner.Stack.{Agree};
ghost use Rattle.lp_verify.specs.inner.Indices.{ListsGrow, Store, store, StandFor};
ghost use Rattle.lp_verify.specs.inner.Handed.{variable_of, SameTerm, Alike, IsSame, closed_built};
ghost use Rattle.lp_verify.specs.inner.Known.{IsHead, KnowsHead, Knows};
ghost use Rattle.lp_verify.specs.inner.Made.{AreAllJoined, type_taken, MakesTerm, IsMadeBy, is_goal_typed, is_argument_typed, is_ill, built_or};

use crate::built::{Built, Head};
use crate::loose::{Lists, Loose};
use crate::record::Work;
use crate::types::Types;
use lp_base::Memory;
use lp_code::Instr;
use lp_term::TypeId;

// What comes of an instruction's types.
#[derive(Clone, Copy)]
pub(crate) enum Typed {
    Ill,
    Fine,
    // The term for the register that the instruction sets.
    Built(Built),
}

impl Typed {
    pub(crate) fn is_ill(self) -> bool
        ensures { result ≡ is_ill self }
    {
        match self {
            Typed::Ill => true,
            _ => false,
        }
    }

    fn fine_where(holds: bool) -> Typed
        ensures { (m : Store) (b : Put) → b.loose ≡ [] → b.type ≡ o_type → variable_of b.term ≡ None → MakesTerm m (not holds) b result }
    {
        if holds { Typed::Fine } else { Typed::Ill }
    }

    // The term, or another one where there is none.
    pub(crate) fn built(self, other: Built) -> Built
        ensures { result ≡ built_or self other }
    {
        match self {
            Typed::Built(built) => built,
            _ => other,
        }
    }
}

// What a function of this type gives on terms.
fn applied_type(types: &Types, function: TypeId, arguments: &[Built]) -> Option<TypeId>
    ensures { (T : Ty) (Us : List Ty) → IsType types.now function T → AreTypes types.now (map (λ b. b.of) arguments.now) Us → Agree (IsType types.now) result (applied_type T Us) }
{
    let mut rest = function;
    for argument in arguments {
        match types.as_arrow(rest) {
            Some((from, to)) => {
                if from.0 != argument.of.0 {
                    return None;
                }
                rest = to;
            }
            None => return None,
        }
    }
    Some(rest)
}

// What is loose in a term and in others; None where an index has two types.
fn all_joined(lists: &mut Lists, first: Loose, others: &[Built]) -> Result<Option<Loose>, Memory>
    ensures grow { OnOk result (ListsGrow lists.old lists.new) }
    ensures joined { IfOk result (λ found. (x : Types) (ts : List (Option Ty)) (bs : List Put) → StandFor (store x lists.old) first ts → Alike (SameTerm (store x lists.old)) others.now bs → AreAllJoined (store x lists.new) ts bs found) }
{
    let mut loose = first;
    for other in others {
        match lists.joined(loose, other.loose)? {
            Some(joined) => loose = joined,
            None => return Ok(None),
        }
    }
    Ok(Some(loose))
}

// Whether there is a type, and it is another one.
fn is_other(found: Option<TypeId>, of: TypeId) -> bool
    ensures { (x : Types) (o : Option Ty) (T : Ty) → Agree (IsType x) found o → IsType x of T → result ≡ not (agree_at o (Some T)) }
{
    match found {
        Some(found) => found.0 != of.0,
        None => false,
    }
}

// Whether there is a type, and it is this one.
fn has_type(found: Option<TypeId>, of: TypeId) -> bool
    ensures { (x : Types) (o : Option Ty) (T : Ty) → Agree (IsType x) found o → IsType x of T → result ≡ has_type o T }
{
    match found {
        Some(found) => found.0 == of.0,
        None => false,
    }
}

pub(crate) fn both(one: bool, other: bool) -> bool
    ensures { result ≡ (one && other) }
{
    one && other
}

impl<'a> Work<'a> {
    pub(crate) fn type_in(&self, types: &Types, register: u16) -> TypeId
        ensures { result ≡ unwrap_or (value_in self.now.types register) types.now.proposition }
    {
        self.types.get(register).unwrap_or(types.proposition)
    }

    // The type that a GET_TYPE takes, or `o`.
    pub(crate) fn taken_type(&self, types: &Types, instr: &Instr) -> TypeId
        ensures { result ≡ type_taken instr.now self.now.types types.now.proposition }
    {
        match instr {
            Instr::GetType(_, of) => self.type_in(types, *of),
            _ => types.proposition,
        }
    }

    pub(crate) fn term_in(&self, types: &Types, register: u16) -> Built
        ensures { result ≡ unwrap_or (value_in self.now.terms register) (closed_built types.now.proposition) }
    {
        match self.terms.get(register) {
            Some(built) => built,
            None => Built::closed(types.proposition, Head::Other),
        }
    }

    // The type of a constant with the types of these registers; `o` where there is none.
    fn constant_type(
        &self,
        types: &mut Types,
        constant: u32,
        registers: &[u16],
    ) -> Result<TypeId, Memory>
        ensures grow { OnOk result (TypesGrow types.old types.new) }
        ensures made { IfOk result (λ t. (l : Lists) (h : Home) (s : State) → Knows (store types.old l) self.now h s → list_any (is_lacking self.now.types) registers.now ≡ false → IsType types.new t (constant_type h.tables constant (types_in s.now registers.now)) × UsesAre h.tables types.new) }
    {
        let arguments = self.types.all(types.alloc, registers)?;
        match self.home.tables.scheme(constant) {
            Some((bank, scheme)) => {
                let of = types.of_counted(constant, bank, scheme, arguments.as_slice())?;
                Ok(of)
            }
            None => Ok(types.proposition),
        }
    }

    // An abstraction over index 0 of the body, which is of this type.
    fn abstraction(
        &self,
        types: &mut Types,
        lists: &Lists,
        body: u16,
        of: u16,
    ) -> Result<Typed, Memory>
        ensures grow { OnOk result (TypesGrow types.old types.new × UsesStay types.old types.new) }
        ensures made { IfOk result (λ typed. (h : Home) (s : State) → Knows (store types.old lists.now) self.now h s → MakesTerm (store types.new lists.now) (not (agree_at (innermost (term_in s.now body).loose) (Some (type_in s.now of)))) (abstraction_of (term_in s.now body) (type_in s.now of)) typed) }
    {
        let body = self.term_in(types, body);
        let from = self.type_in(types, of);
        let other = is_other(lists.innermost(body.loose), from);
        if other {
            return Ok(Typed::Ill);
        }
        let of = types.arrow(from, body.of)?;
        let loose = lists.outer(body.loose);
        Ok(Typed::Built(Built {
            of,
            loose,
            head: Head::Other,
        }))
    }

    fn application(
        &self,
        types: &Types,
        lists: &mut Lists,
        function: u16,
        arguments: &[u16],
    ) -> Result<Typed, Memory>
        ensures grow { OnOk result (ListsGrow lists.old lists.new) }
        ensures made { IfOk result (λ typed. (h : Home) (s : State) → Knows (store types.now lists.old) self.now h s → list_any (is_lacking self.now.terms) arguments.now ≡ false → MakesTerm (store types.now lists.new) (not (applies (term_in s.now function) (terms_in s.now arguments.now))) (application_of (term_in s.now function) (terms_in s.now arguments.now)) typed) }
    {
        let function = self.term_in(types, function);
        let arguments = self.terms.all(types.alloc, arguments)?;
        let Some(of) = applied_type(types, function.of, arguments.as_slice()) else {
            return Ok(Typed::Ill);
        };
        let Some(loose) = all_joined(lists, function.loose, arguments.as_slice())? else {
            return Ok(Typed::Ill);
        };
        let empty = arguments.is_empty();
        if empty {
            return Ok(Typed::Ill);
        }
        Ok(Typed::Built(Built {
            of,
            loose,
            head: Head::Other,
        }))
    }

    // The variable that is made in this register, of the type in a register.
    fn variable(&self, types: &Types, made: u16, of: u16) -> Typed
        ensures { (l : Lists) (h : Home) (s : State) → Knows (store types.now l) self.now h s → MakesTerm (store types.now l) false (whole (variable made h.number) (type_in s.now of)) result }
    {
        let head = Head::Variable(made, self.home.number);
        Typed::Built(Built::closed(self.type_in(types, of), head))
    }

    // What the instruction puts into a register.
    fn put(&self, types: &mut Types, lists: &mut Lists, instr: &Instr) -> Result<Typed, Memory>
        ensures grow { OnOk result (ListsGrow lists.old lists.new) }
        ensures types { OnOk result (TypesGrow types.old types.new) }
        ensures made { IfOk result (λ typed. is_goal_typed instr.now ≡ false → is_argument_typed instr.now ≡ false → IsMadeBy (store types.old lists.old) (store types.new lists.new) self.now instr.now typed) }
    {
        match instr {
            Instr::New(made, of) => Ok(self.variable(types, *made, *of)),
            Instr::Sigma(made, of) => Ok(self.variable(types, *made, *of)),
            Instr::All(made, of) => Ok(self.variable(types, *made, *of)),
            Instr::PutConst(_, constant, arguments) => {
                let of = self.constant_type(types, *constant, arguments.as_slice())?;
                Ok(Typed::Built(Built::closed(of, Head::Other)))
            }
            Instr::PutInt(_, _) => Ok(Typed::Built(Built::closed(types.integer, Head::Other))),
            Instr::PutStr(_, _) => Ok(Typed::Built(Built::closed(types.text, Head::Other))),
            Instr::PutIndex(_, index, of) => {
                let of = self.type_in(types, *of);
                let loose = lists.one(*index, of)?;
                Ok(Typed::Built(Built {
                    of,
                    loose,
                    head: Head::Other,
                }))
            }
            Instr::PutAbs(_, body, of) => self.abstraction(types, lists, *body, *of),
            Instr::PutApp(_, function, arguments) => {
                self.application(types, lists, *function, arguments.as_slice())
            }
            _ => Ok(Typed::Fine),
        }
    }

    // The variable of the head's argument of this number, which is made in this register.
    fn own_argument(&self, types: &Types, number: u8, made: u16) -> Typed
        ensures { (l : Lists) (h : Home) (s : State) → KnowsHead (store types.now l) self.now h s → MakesTerm (store types.now l) (is_none (argument_type (head_built h s).type number)) (whole (variable made h.number) (argument_at h s number)) result }
    {
        let head = Head::Variable(made, self.home.number);
        match self.head.argument_type(types, number) {
            Some(of) => Typed::Built(Built::closed(of, head)),
            None => Typed::Ill,
        }
    }

    // Whether the head's argument of this number has the type.
    fn is_argument(&self, types: &Types, number: u8, of: TypeId) -> Typed
        ensures { (l : Lists) (h : Home) (s : State) (T : Ty) (b : Put) → IsHead types.now self.now.head h s → IsType types.now of T → b.loose ≡ [] → b.type ≡ o_type → variable_of b.term ≡ None → MakesTerm (store types.now l) (not (is_argument h s number T)) b result }
    {
        let found = self.head.argument_type(types, number);
        let holds = has_type(found, of);
        Typed::fine_where(holds)
    }

    // Whether both registers have the type.
    fn have_type(&self, types: &Types, left: u16, right: u16, of: TypeId) -> Typed
        ensures { (l : Lists) (h : Home) (s : State) (T : Ty) (b : Put) → Knows (store types.now l) self.now h s → IsType types.now of T → b.loose ≡ [] → b.type ≡ o_type → variable_of b.term ≡ None → MakesTerm (store types.now l) (not (have_type s (left ∷ right ∷ []) T)) b result }
    {
        let one = self.term_in(types, left).of.0 == of.0;
        let other = self.term_in(types, right).of.0 == of.0;
        Typed::fine_where(both(one, other))
    }

    // Whether the goal has type `o`.
    fn is_goal(&self, types: &Types, goal: u16) -> Typed
        ensures { (l : Lists) (h : Home) (s : State) (b : Put) → Knows (store types.now l) self.now h s → b.loose ≡ [] → b.type ≡ o_type → variable_of b.term ≡ None → MakesTerm (store types.now l) (not (have_type s (goal ∷ []) o_type)) b result }
    {
        let holds = self.term_in(types, goal).of.0 == types.proposition.0;
        Typed::fine_where(holds)
    }

    // Whether a constant of this type on terms is of type `o`.
    fn is_call(&self, types: &Types, of: TypeId, terms: &[u16]) -> Result<Typed, Memory>
        ensures { IfOk result (λ typed. (l : Lists) (h : Home) (s : State) (T : Ty) (b : Put) → IsSame (SameTerm (store types.now l)) self.now.terms s.now.terms → HasBasics types.now → list_any (is_lacking self.now.terms) terms.now ≡ false → IsType types.now of T → b.loose ≡ [] → b.type ≡ o_type → variable_of b.term ≡ None
            → MakesTerm (store types.now l) (not (has_type (applied_type T (built_types (terms_in s.now terms.now))) o_type)) b typed) }
    {
        let terms = self.terms.all(types.alloc, terms)?;
        let goal = applied_type(types, of, terms.as_slice());
        let holds = has_type(goal, types.proposition);
        Ok(Typed::fine_where(holds))
    }

    // What comes of the types of an argument of the head.
    fn got(&self, types: &mut Types, lists: &mut Lists, instr: &Instr) -> Result<Typed, Memory>
        ensures grow { OnOk result (ListsGrow lists.old lists.new) }
        ensures types { OnOk result (TypesGrow types.old types.new) }
        ensures made { IfOk result (λ typed. is_goal_typed instr.now ≡ false → IsMadeBy (store types.old lists.old) (store types.new lists.new) self.now instr.now typed) }
    {
        match instr {
            Instr::GetVar(number, made) => Ok(self.own_argument(types, *number, *made)),
            Instr::Get(number, register) => {
                let of = self.term_in(types, *register).of;
                Ok(self.is_argument(types, *number, of))
            }
            Instr::GetConst(number, constant, arguments) => {
                let of = self.constant_type(types, *constant, arguments.as_slice())?;
                Ok(self.is_argument(types, *number, of))
            }
            Instr::GetInt(number, _) => Ok(self.is_argument(types, *number, types.integer)),
            Instr::GetStr(number, _) => Ok(self.is_argument(types, *number, types.text)),
            _ => self.put(types, lists, instr),
        }
    }

    // What comes of the types of an instruction.
    pub(crate) fn typed(
        &self,
        types: &mut Types,
        lists: &mut Lists,
        instr: &Instr,
    ) -> Result<Typed, Memory>
        ensures grow { OnOk result (ListsGrow lists.old lists.new) }
        ensures types { OnOk result (TypesGrow types.old types.new) }
        ensures made { IfOk result (IsMadeBy (store types.old lists.old) (store types.new lists.new) self.now instr.now) }
    {
        match instr {
            Instr::Call(constant, arguments, terms) => {
                let of = self.constant_type(types, *constant, arguments.as_slice())?;
                let call = self.is_call(types, of, terms.as_slice())?;
                Ok(call)
            }
            Instr::CallTerm(goal) => Ok(self.is_goal(types, *goal)),
            Instr::Equal(of, left, right) | Instr::Is(of, left, right) => {
                let of = self.type_in(types, *of);
                Ok(self.have_type(types, *left, *right, of))
            }
            Instr::Less(left, right)
            | Instr::Greater(left, right)
            | Instr::AtMost(left, right)
            | Instr::AtLeast(left, right) => {
                Ok(self.have_type(types, *left, *right, types.integer))
            }
            _ => self.got(types, lists, instr),
        }
    }
}
