// Terms with all bindings put in.
ghost use Rattle.std.specs.Prelude.{◌≡◌, ◌≢◌, ◌<◌, ◌^◌, true, false, ◌∷◌, ◌++◌, ℕ, [], length, map, All, IfOk, OnOk, IfSome, None, Some, nat_eq, if◌then◌else◌};
ghost use Rattle.indexmap.specs.IndexMap.{get};
ghost use Rattle.lp_calculus.specs.Term.{abs, apply, atom, constant, param};
ghost use Rattle.lp_term.specs.Nodes.{Extends, Nodes, tree, type_tree};
ghost use Rattle.lp_term.specs.Within.{AreTypesOf};
ghost use Rattle.lp_model.specs.Pair.{Closing, closed};
ghost use Rattle.lp_pattern.specs.FillingTerms.{IsFilledTerm, AreAllFilled, TermsBecome, HasShape, AreIn, IsMade};
ghost use Rattle.lp_pattern.specs.inner.Making.{IsFurther, unmade, term_made, terms_left};
ghost use Rattle.lp_pattern.specs.Stripping.{IsShut};
ghost use Rattle.lp_pattern.specs.Under.{IsReading};

use crate::bindings::Bindings;
use crate::fill_types::{TypesFilled, filled_in};
use indexmap::IndexMap;
use lp_base::Memory;
use lp_term::{
    Bank, TermId, TermNode, TypeId, put_abstraction, put_application, put_constant, put_parameter,
};
use std::alloc::Global;

// What terms and their types have become, by their numbers.
#[derive(Drop)]
struct TermsFilled {
    terms: IndexMap<usize, TermId>,
    types: TypesFilled,
}

impl TermsFilled {
    fn new(alloc: Global) -> TermsFilled
        ensures { (b : Nodes) → (c : Closing) → AreAllFilled b c result }
    {
        TermsFilled {
            terms: IndexMap::new(alloc),
            types: TypesFilled::new(alloc),
        }
    }

    fn at(&self, id: TermId) -> Option<TermId>
        ensures { result ≡ get nat_eq self.now.terms id.0 }
    {
        self.terms.get(&id.0).copied()
    }

    fn note(&mut self, id: TermId, made: TermId) -> Result<(), Memory>
        ensures types { self.new.types ≡ self.old.types }
        ensures terms { OnOk result ((i : ℕ) → get nat_eq self.new.terms i ≡ (if nat_eq id.0 i then Some made else get nat_eq self.old.terms i)) }
        ensures added { OnOk result (get nat_eq self.old.terms id.0 ≡ None → self.new.terms.entries ≡ self.old.terms.entries ++ (id.0, made) ∷ []) }
    {
        self.terms.insert(id.0, made)?;
        Ok(())
    }

    fn count(&self) -> usize
        ensures count { result ≡ length self.now.terms.entries }
        ensures few { length self.now.terms.entries < 2 ^ 64 }
    {
        self.terms.len()
    }
}

// A node by what has to be done with it.
#[derive(Drop)]
enum Shape {
    Leaf,
    // The value of a bound variable.
    Bound(TermId),
    Typed(u32, Vec<TypeId>),
    Parameter(u64, TypeId),
    Abstraction(TermId),
    Application(TermId, Vec<TermId>),
}

// A value outside the bank is none.
fn shape_of(alloc: Global, bank: &Bank, bindings: &Bindings, id: TermId) -> Result<Shape, Memory>
    ensures shape { IfOk result (HasShape bank.now bindings.now id.0) }
    ensures within { IfOk result (AreIn bank.now) }
{
    match bank.term_node(id) {
        TermNode::Logic { id, level: _ } => match bindings.value(id) {
            Some(value) => {
                if value.0 >= bank.term_count() {
                    return Ok(Shape::Leaf);
                }
                Ok(Shape::Bound(value))
            }
            None => Ok(Shape::Leaf),
        },
        TermNode::Const(number, types) => {
            let types = Vec::from_slice(alloc, types)?;
            Ok(Shape::Typed(number, types))
        }
        TermNode::Param(number, of) => Ok(Shape::Parameter(number, of)),
        TermNode::Abs(body) => Ok(Shape::Abstraction(body)),
        TermNode::App(head, arguments) => {
            let arguments = Vec::from_slice(alloc, arguments)?;
            Ok(Shape::Application(head, arguments))
        }
        TermNode::Index(_) => Ok(Shape::Leaf),
        TermNode::Int(_) => Ok(Shape::Leaf),
        TermNode::Text(_) => Ok(Shape::Leaf),
        TermNode::Eigen(_) => Ok(Shape::Leaf),
    }
}

// What the terms have become; those that are not known yet go on the stack, and then there is nothing.
fn known_parts(
    alloc: Global,
    done: &TermsFilled,
    parts: &[TermId],
    left: &mut Vec<TermId>,
) -> Result<Option<Vec<TermId>>, Memory>
    ensures made { IfOk result (λ known. IfSome known (λ made. (b : Nodes) → (c : Closing) → AreAllFilled b c done.now → TermsBecome b c parts.now made.items)) }
    ensures within { OnOk result ((n : ℕ) → All (λ t. t.0 < n) parts.now → All (λ t. t.0 < n) left.old.items → All (λ t. t.0 < n) left.new.items) }
    ensures further { IfOk result (λ known. IsFurther known (unmade (term_made done.now) left.old.items) (unmade (term_made done.now) left.new.items)) }
{
    let mut made = Vec::new(alloc);
    let mut is_whole = true;
    for part in parts.iter().copied() {
        let Some(known) = done.at(part) else {
            is_whole = false;
            left.push(part)?;
            continue;
        };
        made.push(known)?;
    }
    if is_whole {
        return Ok(Some(made));
    }
    Ok(None)
}

// What a term has become; where it is not known yet it goes on the stack.
fn known_part(
    done: &TermsFilled,
    part: TermId,
    left: &mut Vec<TermId>,
) -> Result<Option<TermId>, Memory>
    ensures made { IfOk result (λ known. IfSome known (λ made. (b : Nodes) → (c : Closing) → AreAllFilled b c done.now → IsFilledTerm b c part.0 made.0)) }
    ensures within { OnOk result ((n : ℕ) → part.0 < n → All (λ t. t.0 < n) left.old.items → All (λ t. t.0 < n) left.new.items) }
    ensures further { IfOk result (λ known. IsFurther known (unmade (term_made done.now) left.old.items) (unmade (term_made done.now) left.new.items)) }
{
    let Some(made) = done.at(part) else {
        left.push(part)?;
        return Ok(None);
    };
    Ok(Some(made))
}

// A constant at its types.
fn typed(
    alloc: Global,
    bank: &mut Bank,
    bindings: &Bindings,
    done: &mut TermsFilled,
    id: TermId,
    number: u32,
    types: &[TypeId],
) -> Result<TermId, Memory>
    requires { id.0 < length bank.old.terms }
    ensures kept { Extends bank.old bank.new }
    ensures terms { done.new.terms ≡ done.old.terms }
    ensures made { IfOk result (λ t. (c : Closing) → IsReading bank.old bindings.now c → IsShut c → AreAllFilled bank.old c done.old → AreTypesOf bank.old types.now →
        tree bank.old id.0 ≡ atom (constant number (map (λ t. type_tree bank.old t.0) types.now)) → AreAllFilled bank.new c done.new × IsMade bank.old bank.new c id.0 t) }
{
    let mut made = Vec::new(alloc);
    for of in types.iter().copied() {
        let new = filled_in(alloc, bank, bindings, &mut done.types, of)?;
        made.push(new)?;
    }
    if made.as_slice() == types {
        return Ok(id);
    }
    let new = put_constant(bank, number, made.as_slice())?;
    Ok(new)
}

fn parameter(
    alloc: Global,
    bank: &mut Bank,
    bindings: &Bindings,
    done: &mut TermsFilled,
    id: TermId,
    number: u64,
    of: TypeId,
) -> Result<TermId, Memory>
    requires { id.0 < length bank.old.terms }
    ensures kept { Extends bank.old bank.new }
    ensures terms { done.new.terms ≡ done.old.terms }
    ensures made { IfOk result (λ t. (c : Closing) → IsReading bank.old bindings.now c → IsShut c → AreAllFilled bank.old c done.old → of.0 < length bank.old.types →
        tree bank.old id.0 ≡ atom (param number (type_tree bank.old of.0)) → AreAllFilled bank.new c done.new × IsMade bank.old bank.new c id.0 t) }
{
    let made = filled_in(alloc, bank, bindings, &mut done.types, of)?;
    if made == of {
        return Ok(id);
    }
    let new = put_parameter(bank, number, made)?;
    Ok(new)
}

fn abstraction(
    bank: &mut Bank,
    done: &TermsFilled,
    id: TermId,
    body: TermId,
    left: &mut Vec<TermId>,
) -> Result<Option<TermId>, Memory>
    requires { id.0 < length bank.old.terms }
    ensures kept { Extends bank.old bank.new }
    ensures within { OnOk result ((n : ℕ) → body.0 < n → All (λ t. t.0 < n) left.old.items → All (λ t. t.0 < n) left.new.items) }
    ensures further { IfOk result (λ known. IsFurther known (unmade (term_made done.now) left.old.items) (unmade (term_made done.now) left.new.items)) }
    ensures made { IfOk result (λ known. IfSome known (λ t. (c : Closing) → IsShut c → AreAllFilled bank.old c done.now →
        tree bank.old id.0 ≡ abs (tree bank.old body.0) → IsMade bank.old bank.new c id.0 t)) }
{
    let Some(made) = known_part(done, body, left)? else {
        return Ok(None);
    };
    if made == body {
        return Ok(Some(id));
    }
    let new = put_abstraction(bank, made)?;
    Ok(Some(new))
}

fn application(
    alloc: Global,
    bank: &mut Bank,
    done: &TermsFilled,
    id: TermId,
    head: TermId,
    arguments: &[TermId],
    left: &mut Vec<TermId>,
) -> Result<Option<TermId>, Memory>
    requires { id.0 < length bank.old.terms }
    ensures kept { Extends bank.old bank.new }
    ensures within { OnOk result ((n : ℕ) → head.0 < n → All (λ t. t.0 < n) arguments.now → All (λ t. t.0 < n) left.old.items → All (λ t. t.0 < n) left.new.items) }
    ensures further { IfOk result (λ known. IsFurther known (unmade (term_made done.now) left.old.items) (unmade (term_made done.now) left.new.items)) }
    ensures made { IfOk result (λ known. IfSome known (λ t. (c : Closing) → AreAllFilled bank.old c done.now →
        tree bank.old id.0 ≡ apply (tree bank.old head.0) (map (λ t. tree bank.old t.0) arguments.now) → IsMade bank.old bank.new c id.0 t)) }
{
    let made = known_parts(alloc, done, arguments, left)?;
    let Some(top) = known_part(done, head, left)? else {
        return Ok(None);
    };
    let Some(made) = made else {
        return Ok(None);
    };
    if top == head && made.as_slice() == arguments {
        return Ok(Some(id));
    }
    let new = put_application(bank, top, made.as_slice())?;
    Ok(Some(new))
}

// What the term has become, where its parts are known; else they go on the stack.
fn made_of(
    alloc: Global,
    bank: &mut Bank,
    bindings: &Bindings,
    done: &mut TermsFilled,
    id: TermId,
    left: &mut Vec<TermId>,
) -> Result<Option<TermId>, Memory>
    requires { id.0 < length bank.old.terms }
    ensures kept { Extends bank.old bank.new }
    ensures terms { done.new.terms ≡ done.old.terms }
    ensures within { OnOk result (All (λ t. t.0 < length bank.old.terms) left.old.items → All (λ t. t.0 < length bank.new.terms) left.new.items) }
    ensures further { IfOk result (λ known. IsFurther known (unmade (term_made done.old) left.old.items) (unmade (term_made done.old) left.new.items)) }
    ensures filled { OnOk result ((c : Closing) → IsReading bank.old bindings.now c → IsShut c → AreAllFilled bank.old c done.old → AreAllFilled bank.new c done.new) }
    ensures made { IfOk result (λ known. IfSome known (λ t. (c : Closing) → IsReading bank.old bindings.now c → IsShut c → AreAllFilled bank.old c done.old → IsMade bank.old bank.new c id.0 t)) }
{
    match shape_of(alloc, bank, bindings, id)? {
        Shape::Leaf => Ok(Some(id)),
        Shape::Bound(value) => known_part(done, value, left),
        Shape::Typed(number, types) => {
            let new = typed(alloc, bank, bindings, done, id, number, types.as_slice())?;
            Ok(Some(new))
        }
        Shape::Parameter(number, of) => {
            let new = parameter(alloc, bank, bindings, done, id, number, of)?;
            Ok(Some(new))
        }
        Shape::Abstraction(body) => abstraction(bank, done, id, body, left),
        Shape::Application(head, arguments) => {
            application(alloc, bank, done, id, head, arguments.as_slice(), left)
        }
    }
}

// Whether the term has become something.
fn is_known(done: &TermsFilled, id: TermId) -> bool
    ensures known { result ≡ true → term_made done.now id ≢ None }
    ensures new { result ≡ false → term_made done.now id ≡ None }
{
    match done.at(id) {
        Some(_) => true,
        None => false,
    }
}

// Takes the term on top of the stack, which stays there while its parts are not known.
fn step(
    alloc: Global,
    bank: &mut Bank,
    bindings: &Bindings,
    done: &mut TermsFilled,
    id: TermId,
    left: &mut Vec<TermId>,
) -> Result<(), Memory>
    requires top { id.0 < length bank.old.terms }
    requires within { All (λ t. t.0 < length bank.old.terms) left.old.items }
    ensures kept { Extends bank.old bank.new }
    ensures within { OnOk result (All (λ t. t.0 < length bank.new.terms) left.new.items) }
    ensures falls { OnOk result (terms_left done.new left.new.items < terms_left done.old (left.old.items ++ id ∷ [])) }
    ensures filled { OnOk result ((c : Closing) → IsReading bank.old bindings.now c → IsShut c → AreAllFilled bank.old c done.old → AreAllFilled bank.new c done.new) }
{
    if is_known(done, id) {
        return Ok(());
    }
    let _count = done.count();
    left.push(id)?;
    let Some(made) = made_of(alloc, bank, bindings, done, id, left)? else {
        return Ok(());
    };
    done.note(id, made)
}

/// The term with all bindings put in. Shared parts are gone through once.
pub fn filled(
    alloc: Global,
    bank: &mut Bank,
    bindings: &Bindings,
    term: TermId,
) -> Result<TermId, Memory>
    ensures kept { Extends bank.old bank.new }
    ensures within { IfOk result (λ id. id.0 < length bank.new.terms) }
    ensures filled { IfOk result (λ id. (c : Closing) → IsReading bank.old bindings.now c → IsShut c → tree bank.new id.0 ≡ closed c (tree bank.old term.0)) }
{
    let root = bank.inside(term)?;
    let mut done = TermsFilled::new(alloc);
    let mut left = Vec::new(alloc);
    'terms: loop {
        let Some(top) = left.pop() else {
            let Some(made) = made_of(alloc, bank, bindings, &mut done, root, &mut left)? else {
                continue;
            };
            let made = bank.inside(made)?;
            return Ok(made);
        };
        step(alloc, bank, bindings, &mut done, top, &mut left)?;
    }
}
