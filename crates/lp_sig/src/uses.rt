// Which abbreviations the body of each names.
ghost use Rattle.std.specs.Prelude.{◌≡◌, ◌++◌, ℕ, List, [], ◌∷◌, map, OnOk, IfOk, if◌then◌else◌};
ghost use Rattle.lp_sig.specs.Pieces.{spelled, begins_variable};
ghost use Rattle.lp_sig.specs.Places.{first_place};
ghost use Rattle.lp_sig.specs.Rows.{Row};
ghost use Rattle.lp_sig.specs.Said.{Said, an_abbreviation, said_by, said_in};
ghost use Rattle.lp_sig.specs.Knowing.{Knows};
ghost use Rattle.lp_sig.specs.Loading.{ways_in};
ghost use Rattle.lp_sig.specs.Abbreviations.{abbreviation_names, uses_in, Seen, one_body, seen_line, seen_text, KnowsUses};
ghost use Rattle.lp_sig.specs.Modules.{declarations};
ghost use Rattle.lp_sig.specs.inner.Noting.{seen_lines};

use crate::names::{Meaning, Names};
use crate::pieces::{is_variable, spelled_at};
use crate::walk::Ways;
use lp_base::{Memory, Spot};
use lp_syntax::{Declaration, ModuleText, RawType, RawTypeNode, Sentence, SignatureText};
use std::alloc::Global;

impl Names {
    // The place of the abbreviation that a name means.
    fn abbreviation(&self, name: &[u8]) -> Option<usize>
        ensures { (said : List (Row Said)) → Knows self.now said → result ≡ first_place name.now (abbreviation_names said) }
    {
        match self.meaning(name) {
            Some(Meaning::Abbreviation(place)) => Some(place),
            Some(Meaning::Kind(_, _)) => None,
            None => None,
        }
    }
}

// Adds a word, where it names an abbreviation.
fn add_word(
    names: &Names,
    source: &[u8],
    word: Spot,
    uses: &mut Vec<(Spot, usize)>,
) -> Result<(), Memory>
    ensures { OnOk result ((said : List (Row Said)) → Knows names.now said → uses.new.items ≡ uses.old.items ++ ways_in (abbreviation_names said) source.now (if begins_variable (spelled source.now word) then [] else word ∷ [])) }
{
    let name = spelled_at(source, word);
    if is_variable(name) {
        return Ok(());
    }
    let Some(place) = names.abbreviation(name) else {
        return Ok(());
    };
    uses.push((word, place))?;
    Ok(())
}

fn add_node(
    names: &Names,
    source: &[u8],
    node: &RawTypeNode,
    uses: &mut Vec<(Spot, usize)>,
) -> Result<(), Memory>
    ensures { OnOk result ((said : List (Row Said)) → Knows names.now said → uses.new.items ≡ uses.old.items ++ uses_in (abbreviation_names said) source.now (node.now ∷ [])) }
{
    match node {
        RawTypeNode::Arrow(_, _) => Ok(()),
        RawTypeNode::Word(word, _) => add_word(names, source, *word, uses),
    }
}

// The words of a body that name abbreviations, with their places.
pub(crate) fn uses_of(
    alloc: Global,
    names: &Names,
    source: &[u8],
    raw: &RawType,
) -> Result<Vec<(Spot, usize)>, Memory>
    ensures { IfOk result (λ uses. (said : List (Row Said)) → Knows names.now said → uses.items ≡ uses_in (abbreviation_names said) source.now raw.now.nodes.items) }
{
    let mut uses = Vec::new(alloc);
    for node in &raw.nodes {
        add_node(names, source, node, &mut uses)?;
    }
    Ok(uses)
}

impl Ways {
    // The uses of an abbreviation, where it is declared for the first time: then its place is behind the others.
    fn note_body(
        &mut self,
        alloc: Global,
        names: &Names,
        source: &[u8],
        name: Spot,
        raw: &RawType,
    ) -> Result<(), Memory>
        ensures { OnOk result ((z : Seen) (p : ℕ) (more : List (Row Said)) → Knows names.now ((z.said ++ (spelled source.now name, an_abbreviation p) ∷ []) ++ more) → KnowsUses (map (λ out. out.items) self.old.ways.items) z → KnowsUses (map (λ out. out.items) self.new.ways.items) (one_body z (spelled source.now name) p (uses_in (abbreviation_names ((z.said ++ (spelled source.now name, an_abbreviation p) ∷ []) ++ more)) source.now raw.now.nodes.items))) }
    {
        let Some(place) = names.abbreviation(spelled_at(source, name)) else {
            return Ok(());
        };
        if place < self.ways.len() {
            return Ok(());
        }
        let uses = uses_of(alloc, names, source, raw)?;
        self.push(uses)
    }

    fn note_line(
        &mut self,
        alloc: Global,
        names: &Names,
        source: &[u8],
        line: &Declaration,
    ) -> Result<(), Memory>
        ensures { OnOk result ((z : Seen) (more : List (Row Said)) → Knows names.now ((z.said ++ said_by source.now line.now) ++ more) → KnowsUses (map (λ out. out.items) self.old.ways.items) z → KnowsUses (map (λ out. out.items) self.new.ways.items) (seen_line (abbreviation_names ((z.said ++ said_by source.now line.now) ++ more)) z source.now line.now)) }
    {
        match line {
            Declaration::Kinds(_, _) => Ok(()),
            Declaration::LocalKinds(_, _) => Ok(()),
            Declaration::Constants(_, _) => Ok(()),
            Declaration::Locals(_, _) => Ok(()),
            Declaration::Abbreviation(name, _, raw) => {
                self.note_body(alloc, names, source, *name, raw)
            }
            Declaration::Accumulate(_) => Ok(()),
            Declaration::AccumSig(_) => Ok(()),
            Declaration::Fixities(_, _, _) => Ok(()),
        }
    }

    // The uses of the abbreviations of a signature's text, whose names are announced.
    pub(crate) fn note(
        &mut self,
        alloc: Global,
        names: &Names,
        source: &[u8],
        text: &SignatureText,
    ) -> Result<(), Memory>
        ensures { OnOk result ((z : Seen) → Knows names.now (z.said ++ said_in source.now text.now.lines.items) → KnowsUses (map (λ out. out.items) self.old.ways.items) z → KnowsUses (map (λ out. out.items) self.new.ways.items) (seen_text z source.now text.now.lines.items)) }
    {
        for line in &text.lines {
            self.note_line(alloc, names, source, line)?;
        }
        Ok(())
    }

    fn note_sentence(
        &mut self,
        alloc: Global,
        names: &Names,
        source: &[u8],
        sentence: &Sentence,
    ) -> Result<(), Memory>
        ensures { OnOk result ((z : Seen) (more : List (Row Said)) → Knows names.now ((z.said ++ said_in source.now (declarations (sentence.now ∷ []))) ++ more) → KnowsUses (map (λ out. out.items) self.old.ways.items) z →
            KnowsUses (map (λ out. out.items) self.new.ways.items) (seen_lines (abbreviation_names ((z.said ++ said_in source.now (declarations (sentence.now ∷ []))) ++ more)) z source.now (declarations (sentence.now ∷ [])))) }
    {
        match sentence {
            Sentence::Declares(line) => self.note_line(alloc, names, source, line),
            Sentence::Says(_) => Ok(()),
        }
    }

    // The same for a module's text.
    pub(crate) fn note_module(
        &mut self,
        alloc: Global,
        names: &Names,
        source: &[u8],
        text: &ModuleText,
    ) -> Result<(), Memory>
        ensures { OnOk result ((z : Seen) → Knows names.now (z.said ++ said_in source.now (declarations text.now.lines.items)) → KnowsUses (map (λ out. out.items) self.old.ways.items) z → KnowsUses (map (λ out. out.items) self.new.ways.items) (seen_text z source.now (declarations text.now.lines.items))) }
    {
        for at in 0..text.lines.len() {
            self.note_sentence(alloc, names, source, &text.lines[at])?;
        }
        Ok(())
    }
}
