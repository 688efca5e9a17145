// The first name of a text that is not declared.
ghost use Rattle.std.specs.Prelude.{◌≡◌, ◌<◌, ◌∷◌, ℕ, List, None, Some, IfOk, OnOk, Contains, false, reverse};
ghost use Rattle.lp_sig.specs.Pieces.{spelled, begins_variable};
ghost use Rattle.lp_infer.specs.Names.{IsNoConstant, IsNoKind, note_words, words_of};
ghost use Rattle.lp_infer.specs.Scope.{IsFirstUndeclared};
ghost use Rattle.lp_infer.specs.Scanning.{Finds, HasLevel, IsEntered, Scanned, level_in};
ghost use Rattle.lp_infer.specs.inner.Rooms.{turns};
ghost use Rattle.lp_infer.specs.declared.names.Task.TheVariants.{Visit};

use indexmap::IndexMap;
use lp_base::{Memory, Spot};
use lp_sig::{Signature, is_variable, spelled_at};
use lp_syntax::{RawNode, RawTerm, RawType, RawTypeNode};
use std::alloc::Global;

#[derive(Clone, Copy)]
enum Task {
    // A node, of which no part is looked at that is so many nodes away or more.
    Visit(usize, usize),
    // The end of the abstraction that binds the name here, with the level that the name has outside.
    Leave(Spot, Option<u64>),
}

// The names of a text: those that are bound, and the first undeclared one.
#[derive(Drop)]
pub(crate) struct Names {
    alloc: Global,
    pub fault: Option<Spot>,
    // The level of the innermost abstraction that binds each name.
    bound: IndexMap<Vec<u8>, Option<u64>>,
    depth: u64,
}

// The earlier of two spots.
fn earlier(first: Option<Spot>, other: Spot) -> Option<Spot>
    ensures { Finds (λ s. s ≡ other) first result }
{
    match first {
        Some(known) => {
            if known.from <= other.from {
                return Some(known);
            }
            Some(other)
        }
        None => Some(other),
    }
}

impl Names {
    fn new(alloc: Global) -> Names
        ensures fault { result.fault ≡ None }
        ensures level { (name : List ℕ) → level_in result name ≡ None }
    {
        Names {
            alloc,
            fault: None,
            bound: IndexMap::new(alloc),
            depth: 0,
        }
    }

    // The level of the innermost abstraction that binds a name.
    fn level(&self, name: &[u8]) -> Option<u64>
        ensures { result ≡ level_in self.now name.now }
    {
        match self.bound.get(name) {
            Some(level) => *level,
            None => None,
        }
    }

    fn set_level(&mut self, name: &[u8], level: Option<u64>) -> Result<(), Memory>
        ensures fault { self.new.fault ≡ self.old.fault }
        ensures level { OnOk result (HasLevel name.now level self.old self.new) }
    {
        let key = Vec::from_slice(self.alloc, name)?;
        self.bound.insert(key, level)?;
        Ok(())
    }

    // A name that no abstraction binds and that is no variable.
    fn constant(&mut self, signature: &Signature, source: &[u8], spot: Spot)
        requires { begins_variable (spelled source.now spot) ≡ false }
        ensures fault { Finds (λ s. (s ≡ spot) × IsNoConstant signature.now (spelled source.now s)) self.old.fault self.new.fault }
        ensures bound { self.new.bound ≡ self.old.bound }
    {
        if signature.constant(spelled_at(source, spot)).is_some() {
            return;
        }
        self.fault = earlier(self.fault, spot);
    }

    fn name(&mut self, signature: &Signature, source: &[u8], spot: Spot)
        ensures fault { Finds (λ s. (s ≡ spot) × (level_in self.old (spelled source.now s) ≡ None) × IsNoConstant signature.now (spelled source.now s)) self.old.fault self.new.fault }
        ensures bound { self.new.bound ≡ self.old.bound }
    {
        let name = spelled_at(source, spot);
        if self.level(name).is_some() {
            return;
        }
        if is_variable(name) {
            return;
        }
        self.constant(signature, source, spot);
    }

    // A word of an annotation.
    fn check_word(&mut self, signature: &Signature, source: &[u8], spot: Spot)
        ensures fault { Finds (λ s. (s ≡ spot) × IsNoKind signature.now (spelled source.now s)) self.old.fault self.new.fault }
        ensures bound { self.new.bound ≡ self.old.bound }
    {
        let word = spelled_at(source, spot);
        if is_variable(word) {
            return;
        }
        if signature.kind(word).is_some() {
            return;
        }
        if signature.abbreviation(word).is_some() {
            return;
        }
        self.fault = earlier(self.fault, spot);
    }

    // The words of an annotation that are not declared.
    fn check_note(&mut self, signature: &Signature, source: &[u8], note: &RawType)
        ensures fault { Finds (λ s. Contains (words_of note.now.nodes.items) s × IsNoKind signature.now (spelled source.now s)) self.old.fault self.new.fault }
        ensures bound { self.new.bound ≡ self.old.bound }
    {
        for node in &note.nodes {
            let RawTypeNode::Word(spot, _) = node else {
                continue;
            };
            self.check_word(signature, source, *spot);
        }
    }

    // Opens an abstraction that binds a name. Gives the level that the name had outside.
    fn enter(&mut self, name: &[u8]) -> Result<Option<u64>, Memory>
        ensures fault { self.new.fault ≡ self.old.fault }
        ensures level { IfOk result (IsEntered name.now self.old self.new) }
    {
        let outside = self.level(name);
        let level = self.depth;
        self.depth = self.depth.saturating_add(1);
        self.set_level(name, Some(level))?;
        Ok(outside)
    }

    // Closes an abstraction whose name had this level outside.
    fn leave(&mut self, name: &[u8], outside: Option<u64>) -> Result<(), Memory>
        ensures fault { self.new.fault ≡ self.old.fault }
        ensures level { OnOk result (HasLevel name.now outside self.old self.new) }
    {
        self.depth = self.depth.saturating_sub(1);
        self.set_level(name, outside)
    }

    // An abstraction: its annotation, and the name that it binds.
    fn abstraction(
        &mut self,
        signature: &Signature,
        source: &[u8],
        spot: Spot,
        note: &Option<RawType>,
    ) -> Result<Option<u64>, Memory>
        ensures fault { Finds (λ s. Contains (note_words note.now) s × IsNoKind signature.now (spelled source.now s)) self.old.fault self.new.fault }
        ensures level { IfOk result (IsEntered (spelled source.now spot) self.old self.new) }
    {
        match note {
            None => self.enter(spelled_at(source, spot)),
            Some(given) => {
                self.check_note(signature, source, given);
                self.enter(spelled_at(source, spot))
            }
        }
    }

    fn visit(
        &mut self,
        signature: &Signature,
        source: &[u8],
        raw: &RawTerm,
        node: usize,
        room: usize,
        work: &mut Vec<Task>,
    ) -> Result<(), Memory>
        ensures fewer { OnOk result (turns (reverse work.new.items) < turns (Visit node room ∷ reverse work.old.items)) }
        ensures scanned { OnOk result ((root : ℕ) → Scanned signature.now source.now raw.now.nodes.items root self.old (Visit node room ∷ reverse work.old.items) → Scanned signature.now source.now raw.now.nodes.items root self.new (reverse work.new.items)) }
    {
        if room == 0 {
            return Ok(());
        }
        let Some(found) = raw.nodes.get(node) else {
            return Ok(());
        };
        match found {
            RawNode::Name(spot) => {
                self.name(signature, source, *spot);
                Ok(())
            }
            RawNode::App(head, argument) => {
                work.push(Task::Visit(*argument, room - 1))?;
                work.push(Task::Visit(*head, room - 1))?;
                Ok(())
            }
            RawNode::Abs(spot, note, body) => {
                let outside = self.abstraction(signature, source, *spot, note)?;
                work.push(Task::Leave(*spot, outside))?;
                work.push(Task::Visit(*body, room - 1))?;
                Ok(())
            }
            _ => Ok(()),
        }
    }

    fn take(
        &mut self,
        signature: &Signature,
        source: &[u8],
        raw: &RawTerm,
        task: Task,
        work: &mut Vec<Task>,
    ) -> Result<(), Memory>
        ensures fewer { OnOk result (turns (reverse work.new.items) < turns (task ∷ reverse work.old.items)) }
        ensures scanned { OnOk result ((root : ℕ) → Scanned signature.now source.now raw.now.nodes.items root self.old (task ∷ reverse work.old.items) → Scanned signature.now source.now raw.now.nodes.items root self.new (reverse work.new.items)) }
    {
        match task {
            Task::Leave(spot, outside) => self.leave(spelled_at(source, spot), outside),
            Task::Visit(node, room) => self.visit(signature, source, raw, node, room, work),
        }
    }
}

// The first name of a text that is not declared, if there is one.
pub(crate) fn first_undeclared(
    alloc: Global,
    signature: &Signature,
    source: &[u8],
    raw: &RawTerm,
) -> Result<Option<Spot>, Memory>
    ensures { IfOk result (IsFirstUndeclared signature.now source.now raw.now.nodes.items raw.now.root) }
{
    let mut names = Names::new(alloc);
    let mut work = Vec::new(alloc);
    work.push(Task::Visit(raw.root, raw.nodes.len()))?;
    while let Some(task) = work.pop() {
        names.take(signature, source, raw, task, &mut work)?;
    }
    Ok(names.fault)
}
