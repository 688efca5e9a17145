// A text with its names looked up.
ghost use Rattle.std.specs.Prelude.{◌≡◌, ◌^◌, ◌<◌, ℕ, List, [], ◌∷◌, ◌++◌, map, reverse, IfOk, OnOk, Option, Some, length, true};
ghost use Rattle.lp_calculus.specs.Typing.{Scheme};
ghost use Rattle.lp_standard.specs.Schemes.{standard_schemes, entry};
ghost use Rattle.lp_sig.specs.Pieces.{spelled, begins_variable};
ghost use Rattle.lp_sig.specs.Places.{first_place};
ghost use Rattle.lp_infer.specs.Typing.{raw_integer};
ghost use Rattle.lp_infer.specs.Texts.{variable_index, read_constant, read_number, constant_scheme, read_variable, read_free, read_name, read_leaf};
ghost use Rattle.lp_infer.specs.Levels.{HasScope};
ghost use Rattle.lp_infer.specs.Firsts.{AreFirsts};
ghost use Rattle.lp_infer.specs.Visits.{IsBegun, IsLeafRead, LeafRead, Opened, Looked, TaskDone, LookedUp};
ghost use Rattle.lp_infer.specs.inner.Turns.{turns};
ghost use Rattle.lp_infer.specs.declared.lookup.Task.TheVariants.{Visit};

use crate::firsts::Firsts;
use crate::scope::Scope;
use lp_base::{Memory, Spot};
use lp_sig::{Signature, is_variable, spelled_at};
use lp_standard::RESERVED;
use lp_syntax::{RawNode, RawTerm, RawType};
use lp_term::{Bank, TypeId};
use std::alloc::Global;

// A part of a text. Each part stands behind those that it is made of.
#[derive(Clone, Copy)]
pub(crate) enum Step {
    // A name that is bound so many abstractions out.
    Bound(u64),
    // A variable: how many abstractions are open, and its number.
    Variable(u64, u64),
    // A standard constant.
    Standard(u32),
    // A declared constant: its number, the number of its type variables, and its type.
    Declared(u32, u8, TypeId),
    Integer(i64),
    Text(Spot),
    // An abstraction begins, whose bound name may have a type.
    Open(Option<TypeId>),
    // The innermost abstraction ends: what stands before is its body.
    Close,
    // The part before is the argument of the one before that.
    Apply,
}

#[derive(Clone, Copy)]
enum Task {
    // A node.
    Visit(usize),
    // The end of the abstraction that binds the name here, with the level that the name has outside.
    Leave(Spot, Option<u64>),
    Apply,
}

#[derive(Drop)]
pub(crate) struct Lookup {
    pub alloc: Global,
    pub steps: Vec<Step>,
    pub variables: Firsts,
    // The types of annotations, whose type variables have the numbers of `notes` behind those of all places.
    pub types: Bank,
    pub notes: Firsts,
    scope: Scope,
}

impl Lookup {
    fn new(alloc: Global) -> Lookup
        ensures { (sig : Signature) → (text : List ℕ) → (nodes : List RawNode) → (root : ℕ) → Looked sig text nodes root result (Visit root ∷ []) }
    {
        Lookup {
            alloc,
            steps: Vec::new(alloc),
            variables: Firsts::new(alloc),
            types: Bank::new(alloc),
            notes: Firsts::new(alloc),
            scope: Scope::new(alloc),
        }
    }

    fn push_variable(&mut self, number: usize) -> Result<(), Memory>
        requires { self.old.scope.depth < 2 ^ 63 }
        ensures { OnOk result ((names : List (List ℕ)) → HasScope names self.old.scope → (sig : Signature) → (text : List ℕ) → IsLeafRead sig text (λ count. Some (variable_index count names number, self.old.variables.places.items)) self.old self.new) }
    {
        self.steps
            .push(Step::Variable(self.scope.depth(), number as u64))?;
        Ok(())
    }

    // A variable, a new one where it has no number.
    fn variable(&mut self, source: &[u8], spot: Spot, number: Option<usize>) -> Result<(), Memory>
        requires { self.old.scope.depth < 2 ^ 63 }
        ensures { OnOk result ((names : List (List ℕ)) → HasScope names self.old.scope → (sig : Signature) → IsLeafRead sig source.now (λ count. read_variable count names spot number self.old.variables.places.items) self.old self.new) }
    {
        match number {
            Some(known) => self.push_variable(known),
            None => {
                let new = self.variables.add(source, spot)?;
                self.push_variable(new)
            }
        }
    }

    // A constant of this number. False where it has no type.
    fn constant(&mut self, signature: &Signature, name: &[u8], number: u32) -> Result<bool, Memory>
        ensures { IfOk result (λ ok. (text : List ℕ) → LeafRead ok signature.now text (λ count. read_constant number (constant_scheme signature.now name.now number) self.old.variables.places.items) self.old self.new) }
    {
        if number < 32 {
            return self.standard(number);
        }
        let Some(entry) = signature.declared(name) else {
            return Ok(false);
        };
        self.steps
            .push(Step::Declared(number, entry.type_vars, entry.scheme))?;
        Ok(true)
    }

    // A standard constant. False where there is none of this number.
    fn standard(&mut self, number: u32) -> Result<bool, Memory>
        ensures { IfOk result (λ ok. (sig : Signature) → (text : List ℕ) → LeafRead ok sig text (λ count. read_constant number (entry standard_schemes number) self.old.variables.places.items) self.old self.new) }
    {
        if number >= RESERVED {
            return Ok(false);
        }
        self.steps.push(Step::Standard(number))?;
        Ok(true)
    }

    fn integer(&mut self, value: i64) -> Result<(), Memory>
        ensures { OnOk result ((sig : Signature) → (text : List ℕ) → IsLeafRead sig text (λ count. Some (raw_integer value, self.old.variables.places.items)) self.old self.new) }
    {
        self.steps.push(Step::Integer(value))?;
        Ok(())
    }

    // A name that no abstraction binds. False where it is not declared.
    fn free(&mut self, signature: &Signature, source: &[u8], spot: Spot) -> Result<bool, Memory>
        requires { self.old.scope.depth < 2 ^ 63 }
        ensures { IfOk result (λ ok. (names : List (List ℕ)) → HasScope names self.old.scope → AreFirsts source.now self.old.variables → LeafRead ok signature.now source.now (λ count. read_free signature.now source.now count names spot self.old.variables.places.items) self.old self.new) }
    {
        let name = spelled_at(source, spot);
        if is_variable(name) {
            let number = self.variables.number(name);
            self.variable(source, spot, number)?;
            return Ok(true);
        }
        let Some(number) = signature.constant(name) else {
            return Ok(false);
        };
        self.constant(signature, name, number)
    }

    fn name(&mut self, signature: &Signature, source: &[u8], spot: Spot) -> Result<bool, Memory>
        requires { self.old.scope.depth < 2 ^ 63 }
        ensures { IfOk result (λ ok. (names : List (List ℕ)) → HasScope names self.old.scope → AreFirsts source.now self.old.variables → LeafRead ok signature.now source.now (λ count. read_name signature.now source.now count names spot self.old.variables.places.items) self.old self.new) }
    {
        let name = spelled_at(source, spot);
        if name == b"_".as_slice() {
            self.variable(source, spot, None)?;
            return Ok(true);
        }
        if let Some(out) = self.scope.out(name) {
            self.steps.push(Step::Bound(out))?;
            return Ok(true);
        }
        self.free(signature, source, spot)
    }

    // Opens an abstraction of a name, which may have a type. Gives the level that the name had outside.
    fn begin(&mut self, name: &[u8], given: Option<TypeId>) -> Result<Option<u64>, Memory>
        requires { self.old.scope.depth < 2 ^ 63 }
        ensures { IfOk result (IsBegun name.now given self.old self.new) }
    {
        self.steps.push(Step::Open(given))?;
        self.scope.enter(name)
    }

    // The beginning of an abstraction. None where its annotation is no type.
    fn open(
        &mut self,
        signature: &Signature,
        source: &[u8],
        spot: Spot,
        note: &Option<RawType>,
    ) -> Result<Option<Option<u64>>, Memory>
        requires depth { self.old.scope.depth < 2 ^ 63 }
        requires notes { AreFirsts source.now self.old.notes }
        ensures { IfOk result (λ o. AreFirsts source.now self.old.notes → Opened signature.now source.now (spelled source.now spot) note.now self.old self.new o) }
    {
        match note {
            None => {
                let outside = self.begin(spelled_at(source, spot), None)?;
                Ok(Some(outside))
            }
            Some(raw) => {
                let Some(id) = self.annotation(signature, source, raw)? else {
                    return Ok(None);
                };
                let outside = self.begin(spelled_at(source, spot), Some(id))?;
                Ok(Some(outside))
            }
        }
    }

    // A node. False where it has no reading.
    fn visit(
        &mut self,
        signature: &Signature,
        source: &[u8],
        raw: &RawTerm,
        node: usize,
        work: &mut Vec<Task>,
    ) -> Result<bool, Memory>
        requires depth { self.old.scope.depth < 2 ^ 63 }
        requires notes { AreFirsts source.now self.old.notes }
        ensures fewer { IfOk result (λ ok. ok ≡ true → turns (reverse work.new.items) < turns (Visit node ∷ reverse work.old.items)) }
        ensures looked { IfOk result (λ ok. (root : ℕ) → Looked signature.now source.now raw.now.nodes.items root self.old (Visit node ∷ reverse work.old.items) → TaskDone ok signature.now source.now raw.now.nodes.items root self.new (reverse work.new.items)) }
    {
        let Some(found) = raw.nodes.get(node) else {
            return Ok(false);
        };
        match found {
            RawNode::Name(spot) => self.name(signature, source, *spot),
            RawNode::Known(number, _) => self.standard(*number),
            RawNode::Number(value, _) => {
                self.integer(*value)?;
                Ok(true)
            }
            RawNode::Text(spot) => {
                self.steps.push(Step::Text(*spot))?;
                Ok(true)
            }
            RawNode::App(head, argument) => {
                if *head >= node {
                    return Ok(false);
                }
                if *argument >= node {
                    return Ok(false);
                }
                work.push(Task::Apply)?;
                work.push(Task::Visit(*argument))?;
                work.push(Task::Visit(*head))?;
                Ok(true)
            }
            RawNode::Abs(spot, note, body) => {
                if *body >= node {
                    return Ok(false);
                }
                let Some(outside) = self.open(signature, source, *spot, note)? else {
                    return Ok(false);
                };
                work.push(Task::Leave(*spot, outside))?;
                work.push(Task::Visit(*body))?;
                Ok(true)
            }
        }
    }

    fn take(
        &mut self,
        signature: &Signature,
        source: &[u8],
        raw: &RawTerm,
        task: Task,
        work: &mut Vec<Task>,
    ) -> Result<bool, Memory>
        requires depth { self.old.scope.depth < 2 ^ 63 }
        requires notes { AreFirsts source.now self.old.notes }
        ensures fewer { IfOk result (λ ok. ok ≡ true → turns (reverse work.new.items) < turns (task ∷ reverse work.old.items)) }
        ensures looked { IfOk result (λ ok. (root : ℕ) → Looked signature.now source.now raw.now.nodes.items root self.old (task ∷ reverse work.old.items) → TaskDone ok signature.now source.now raw.now.nodes.items root self.new (reverse work.new.items)) }
    {
        match task {
            Task::Visit(node) => self.visit(signature, source, raw, node, work),
            Task::Leave(spot, outside) => {
                self.scope.leave(spelled_at(source, spot), outside)?;
                self.steps.push(Step::Close)?;
                Ok(true)
            }
            Task::Apply => {
                self.steps.push(Step::Apply)?;
                Ok(true)
            }
        }
    }
}

// The text with its names looked up; none where it has no reading.
pub(crate) fn looked_up(
    alloc: Global,
    signature: &Signature,
    source: &[u8],
    raw: &RawTerm,
) -> Result<Option<Lookup>, Memory>
    ensures { IfOk result (LookedUp signature.now source.now raw.now.nodes.items raw.now.root) }
{
    let mut lookup = Lookup::new(alloc);
    let mut work = Vec::new(alloc);
    work.push(Task::Visit(raw.root))?;
    while let Some(task) = work.pop() {
        if !lookup.take(signature, source, raw, task, &mut work)? {
            return Ok(None);
        }
    }
    Ok(Some(lookup))
}
