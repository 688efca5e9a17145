// Types of annotations. Their capitalised names are type variables of the whole sentence; `_` is new at each place.
ghost use Rattle.std.specs.Prelude.{◌≡◌, ℕ, ◌<◌, List, [], map, length, All, IfOk, OnOk, Option, Some, None, slice_get, Vec, if◌then◌else◌};
ghost use Rattle.std.specs.Global.{Global};
ghost use Rattle.lp_calculus.specs.Types.{Ty};
ghost use Rattle.lp_sig.specs.Pieces.{spelled};
ghost use Rattle.lp_sig.specs.Places.{first_place};
ghost use Rattle.lp_syntax.specs.declared.text.RawTypeNode.{RawTypeNode};
ghost use Rattle.lp_syntax.specs.declared.text.RawTypeNode.TheVariants as raw_node;
ghost use Rattle.lp_infer.specs.Texts.{Notes, is_blank};
ghost use Rattle.lp_infer.specs.Firsts.{AreFirsts};
ghost use Rattle.lp_term.specs.Within.{AreTypesOf};
ghost use Rattle.lp_infer.specs.Visits.{Agrees, noted_types, NotesGrow, HasNoNote, IsNoteRead};
ghost use Rattle.lp_infer.specs.Noted.{known_at, TypesAt, NodeNoted, AreNoted, KindNoted, NoteRead};

use crate::instance::instance;
use crate::lookup::Lookup;
use lp_base::{Memory, Spot};
use lp_sig::{Signature, is_variable, spelled_at};
use lp_syntax::{RawType, RawTypeNode};
use lp_term::{TypeId, put_arrow, put_constructor, put_type_variable};
use std::alloc::Global;

// The type at a place, if it is known.
fn type_at(done: &[Option<TypeId>], place: usize) -> Option<TypeId>
    ensures { result ≡ known_at done.now place }
{
    match done.get(place) {
        Some(id) => *id,
        None => None,
    }
}

// The types at these places, if all are known.
fn types_at(
    alloc: Global,
    done: &[Option<TypeId>],
    places: &[usize],
) -> Result<Option<Vec<TypeId>>, Memory>
    ensures { IfOk result (TypesAt done.now places.now) }
{
    let mut types = Vec::new(alloc);
    for place in places {
        let Some(id) = type_at(done, *place) else {
            return Ok(None);
        };
        types.push(id)?;
    }
    Ok(Some(types))
}

impl Lookup {
    // The number of a type variable among the names, a new one at its first place.
    fn note_number(&mut self, source: &[u8], spot: Spot) -> Result<usize, Memory>
        ensures grows { OnOk result (AreFirsts source.now self.old.notes → NotesGrow source.now self.old self.new) }
        ensures types { self.new.types ≡ self.old.types }
        ensures number { IfOk result (λ k. AreFirsts source.now self.old.notes → first_place (spelled source.now spot) (map (spelled source.now) self.new.notes.places.items) ≡ Some k) }
    {
        match self.notes.number(spelled_at(source, spot)) {
            Some(known) => Ok(known),
            None => self.notes.add(source, spot),
        }
    }

    // A type variable: `_` has the number of its place, a name one behind all places.
    fn note_variable(&mut self, source: &[u8], spot: Spot) -> Result<TypeId, Memory>
        ensures grows { OnOk result (AreFirsts source.now self.old.notes → NotesGrow source.now self.old self.new) }
        ensures known { IfOk result (λ id. id.0 < length self.new.types.types) }
        ensures variable { IfOk result (λ id. AreFirsts source.now self.old.notes → (κ : Notes) → (ρ : ℕ → Ty) → Agrees source.now self.new.notes.places.items κ ρ →
            noted_types self.new.types ρ id.0 ≡ (if is_blank (spelled source.now spot) then κ.blank spot.from else κ.named (spelled source.now spot))) }
    {
        if spelled_at(source, spot) == b"_".as_slice() {
            return put_type_variable(&mut self.types, spot.from as u64);
        }
        let number = self.note_number(source, spot)?;
        let at = (source.len() as u64).saturating_add(number as u64);
        put_type_variable(&mut self.types, at)
    }

    // A kind or an abbreviation on arguments, none where it takes another number of them.
    fn note_kind(
        &mut self,
        signature: &Signature,
        name: &[u8],
        parts: &[TypeId],
    ) -> Result<Option<TypeId>, Memory>
        ensures grows { OnOk result ((text : List ℕ) → NotesGrow text self.old self.new) }
        ensures kind { AreTypesOf self.old.types parts.now → IfOk result (KindNoted signature.now name.now parts.now self.new) }
    {
        if let Some((number, arity)) = signature.kind(name) {
            if parts.len() != arity as usize {
                return Ok(None);
            }
            let id = put_constructor(&mut self.types, number, parts)?;
            return Ok(Some(id));
        }
        let Some((count, body)) = signature.abbreviation(name) else {
            return Ok(None);
        };
        if parts.len() != count as usize {
            return Ok(None);
        }
        let id = instance(self.alloc, signature.bank(), body, parts, &mut self.types)?;
        Ok(Some(id))
    }

    // A word with its arguments, none where it is no type.
    fn note_word(
        &mut self,
        signature: &Signature,
        source: &[u8],
        spot: Spot,
        arguments: &[usize],
        done: &[Option<TypeId>],
    ) -> Result<Option<TypeId>, Memory>
        ensures grows { OnOk result (AreFirsts source.now self.old.notes → NotesGrow source.now self.old self.new) }
        ensures node { IfOk result (λ o. AreFirsts source.now self.old.notes → (nodes : List RawTypeNode) → (parts : Vec ℕ Global) → parts.items ≡ arguments.now → slice_get nodes (length done.now) ≡ Some (raw_node.Word spot parts) →
            AreNoted signature.now source.now nodes self.old done.now → NodeNoted signature.now source.now nodes self.new (length done.now) o) }
    {
        let Some(parts) = types_at(self.alloc, done, arguments)? else {
            return Ok(None);
        };
        if !is_variable(spelled_at(source, spot)) {
            return self.note_kind(signature, spelled_at(source, spot), parts.as_slice());
        }
        if !parts.is_empty() {
            return Ok(None);
        }
        let id = self.note_variable(source, spot)?;
        Ok(Some(id))
    }

    // A function type between the types at two places.
    fn note_arrow(
        &mut self,
        from: usize,
        to: usize,
        done: &[Option<TypeId>],
    ) -> Result<Option<TypeId>, Memory>
        ensures grows { OnOk result ((text : List ℕ) → NotesGrow text self.old self.new) }
        ensures node { IfOk result (λ o. (sig : Signature) → (text : List ℕ) → (nodes : List RawTypeNode) → slice_get nodes (length done.now) ≡ Some (raw_node.Arrow from to) →
            AreNoted sig text nodes self.old done.now → NodeNoted sig text nodes self.new (length done.now) o) }
    {
        let Some(left) = type_at(done, from) else {
            return Ok(None);
        };
        let Some(right) = type_at(done, to) else {
            return Ok(None);
        };
        let id = put_arrow(&mut self.types, left, right)?;
        Ok(Some(id))
    }

    // The type of a node whose parts have theirs, none where it is no type.
    fn note_node(
        &mut self,
        signature: &Signature,
        source: &[u8],
        node: &RawTypeNode,
        done: &[Option<TypeId>],
    ) -> Result<Option<TypeId>, Memory>
        ensures grows { OnOk result (AreFirsts source.now self.old.notes → NotesGrow source.now self.old self.new) }
        ensures node { IfOk result (λ o. AreFirsts source.now self.old.notes → (nodes : List RawTypeNode) → slice_get nodes (length done.now) ≡ Some node.now →
            AreNoted signature.now source.now nodes self.old done.now → NodeNoted signature.now source.now nodes self.new (length done.now) o) }
    {
        match node {
            RawTypeNode::Arrow(from, to) => self.note_arrow(*from, *to, done),
            RawTypeNode::Word(spot, arguments) => {
                self.note_word(signature, source, *spot, arguments.as_slice(), done)
            }
        }
    }

    // The type of an annotation, none where it is no type.
    pub(crate) fn annotation(
        &mut self,
        signature: &Signature,
        source: &[u8],
        raw: &RawType,
    ) -> Result<Option<TypeId>, Memory>
        ensures grows { OnOk result (AreFirsts source.now self.old.notes → NotesGrow source.now self.old self.new) }
        ensures note { IfOk result (λ o. AreFirsts source.now self.old.notes → NoteRead signature.now source.now (Some raw.now) self.old self.new o) }
    {
        let mut done = Vec::new(self.alloc);
        for node in raw.nodes.iter() {
            let made = self.note_node(signature, source, node, done.as_slice())?;
            done.push(made)?;
        }
        Ok(type_at(done.as_slice(), raw.root))
    }
}
