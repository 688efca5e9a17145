// What a module's text says of names and words.
ghost use Rattle.std.specs.Prelude.{◌≡◌, ◌++◌, ℕ, List, [], ◌∷◌, length, map, Some, IfOk, IfSome, OnOk, if◌then◌else◌};
ghost use Rattle.lp_sig.specs.Pieces.{spelled};
ghost use Rattle.lp_sig.specs.Modules.{declarations, constant_names_by, constant_names_in, first_names};
ghost use Rattle.lp_sig.specs.ModuleFaults.{kind_names_by, kind_names_in};
ghost use Rattle.lp_sig.specs.Sights.{HasKeys, HasNumbers, IsAlike, IsSightOf, signature_words, module_words};
ghost use Rattle.lp_sig.specs.declared.see.Sight.TheVariants.{Alike};

use crate::pieces::spelled_at;
use crate::see::Sight;
use indexmap::{IndexMap, IndexSet};
use lp_base::{Memory, Spot};
use lp_syntax::{Declaration, ModuleText, Sentence};
use std::alloc::Global;

// The names that a module's text declares with a kind or a type, and its words of accum_sig and accumulate with the numbers of the
// signatures that they name.
#[derive(Drop)]
pub(crate) struct Said {
    alloc: Global,
    pub kinds: IndexSet<Vec<u8>>,
    pub constants: IndexSet<Vec<u8>>,
    accum_sigs: IndexMap<Vec<u8>, usize>,
    accumulates: IndexMap<Vec<u8>, usize>,
}

// Notes names.
fn note(
    alloc: Global,
    source: &[u8],
    names: &[Spot],
    set: &mut IndexSet<Vec<u8>>,
) -> Result<(), Memory>
    ensures { OnOk result ((before : List (List ℕ)) → HasKeys set.old before → HasKeys set.new (before ++ map (λ s. spelled source.now s) names.now)) }
{
    for name in names {
        let key = Vec::from_slice(alloc, spelled_at(source, *name))?;
        set.insert(key)?;
    }
    Ok(())
}

// Numbers a word, if it is new.
fn number_word(
    alloc: Global,
    name: &[u8],
    numbers: &mut IndexMap<Vec<u8>, usize>,
) -> Result<(), Memory>
    ensures { OnOk result ((before : List (List ℕ)) → HasNumbers numbers.old before → HasNumbers numbers.new (before ++ name.now ∷ [])) }
{
    if numbers.contains_key(name) {
        return Ok(());
    }
    let key = Vec::from_slice(alloc, name)?;
    let next = numbers.len();
    numbers.insert(key, next)?;
    Ok(())
}

// Numbers words by first place.
fn number(
    alloc: Global,
    source: &[u8],
    words: &[Spot],
    numbers: &mut IndexMap<Vec<u8>, usize>,
) -> Result<(), Memory>
    ensures { OnOk result ((before : List (List ℕ)) → HasNumbers numbers.old before → HasNumbers numbers.new (before ++ map (λ s. spelled source.now s) words.now)) }
{
    for word in words {
        number_word(alloc, spelled_at(source, *word), numbers)?;
    }
    Ok(())
}

// A table with no words.
fn no_words(alloc: Global) -> IndexMap<Vec<u8>, usize>
    ensures { HasNumbers result [] }
{
    IndexMap::new(alloc)
}

// A set with no names.
fn no_names(alloc: Global) -> IndexSet<Vec<u8>>
    ensures { HasKeys result [] }
{
    IndexSet::new(alloc)
}

// Notes names that are declared with a kind or a type.
fn note_if(
    alloc: Global,
    source: &[u8],
    names: &[Spot],
    is_declared: bool,
    set: &mut IndexSet<Vec<u8>>,
) -> Result<(), Memory>
    ensures { OnOk result ((before : List (List ℕ)) → HasKeys set.old before → HasKeys set.new (before ++ (if is_declared then map (λ s. spelled source.now s) names.now else []))) }
{
    if !is_declared {
        return Ok(());
    }
    note(alloc, source, names, set)
}

impl Said {
    fn new(alloc: Global) -> Said
        ensures signatures { HasNumbers result.accum_sigs [] }
        ensures modules { HasNumbers result.accumulates [] }
        ensures kinds { HasKeys result.kinds [] }
        ensures constants { HasKeys result.constants [] }
    {
        Said {
            alloc,
            kinds: no_names(alloc),
            constants: no_names(alloc),
            accum_sigs: no_words(alloc),
            accumulates: no_words(alloc),
        }
    }

    fn hear(&mut self, source: &[u8], declaration: &Declaration) -> Result<(), Memory>
        ensures signatures { OnOk result ((before : List (List ℕ)) → HasNumbers self.old.accum_sigs before → HasNumbers self.new.accum_sigs (before ++ signature_words source.now (declaration.now ∷ []))) }
        ensures modules { OnOk result ((before : List (List ℕ)) → HasNumbers self.old.accumulates before → HasNumbers self.new.accumulates (before ++ module_words source.now (declaration.now ∷ []))) }
        ensures kinds { OnOk result ((before : List (List ℕ)) → HasKeys self.old.kinds before → HasKeys self.new.kinds (before ++ kind_names_by source.now declaration.now)) }
        ensures constants { OnOk result ((before : List (List ℕ)) → HasKeys self.old.constants before → HasKeys self.new.constants (before ++ constant_names_by source.now declaration.now)) }
    {
        match declaration {
            Declaration::Kinds(names, _) => {
                note(self.alloc, source, names.as_slice(), &mut self.kinds)
            }
            Declaration::LocalKinds(names, count) => {
                let is_declared = count.is_some();
                note_if(
                    self.alloc,
                    source,
                    names.as_slice(),
                    is_declared,
                    &mut self.kinds,
                )
            }
            Declaration::Constants(names, _) => {
                note(self.alloc, source, names.as_slice(), &mut self.constants)
            }
            Declaration::Locals(names, raw) => {
                let is_declared = raw.is_some();
                note_if(
                    self.alloc,
                    source,
                    names.as_slice(),
                    is_declared,
                    &mut self.constants,
                )
            }
            Declaration::Abbreviation(_, _, _) => Ok(()),
            Declaration::Accumulate(words) => {
                number(self.alloc, source, words.as_slice(), &mut self.accumulates)
            }
            Declaration::AccumSig(words) => {
                number(self.alloc, source, words.as_slice(), &mut self.accum_sigs)
            }
            Declaration::Fixities(_, _, _) => Ok(()),
        }
    }

    fn hear_sentence(&mut self, source: &[u8], sentence: &Sentence) -> Result<(), Memory>
        ensures signatures { OnOk result ((before : List (List ℕ)) → HasNumbers self.old.accum_sigs before → HasNumbers self.new.accum_sigs (before ++ signature_words source.now (declarations (sentence.now ∷ [])))) }
        ensures modules { OnOk result ((before : List (List ℕ)) → HasNumbers self.old.accumulates before → HasNumbers self.new.accumulates (before ++ module_words source.now (declarations (sentence.now ∷ [])))) }
        ensures kinds { OnOk result ((before : List (List ℕ)) → HasKeys self.old.kinds before → HasKeys self.new.kinds (before ++ kind_names_in source.now (declarations (sentence.now ∷ [])))) }
        ensures constants { OnOk result ((before : List (List ℕ)) → HasKeys self.old.constants before → HasKeys self.new.constants (before ++ constant_names_in source.now (declarations (sentence.now ∷ [])))) }
    {
        match sentence {
            Sentence::Declares(declaration) => self.hear(source, declaration),
            Sentence::Says(_) => Ok(()),
        }
    }

    pub(crate) fn of(alloc: Global, source: &[u8], text: &ModuleText) -> Result<Said, Memory>
        ensures signatures { IfOk result (λ s. HasNumbers s.accum_sigs (signature_words source.now (declarations text.now.lines.items))) }
        ensures modules { IfOk result (λ s. HasNumbers s.accumulates (module_words source.now (declarations text.now.lines.items))) }
        ensures kinds { IfOk result (λ s. HasKeys s.kinds (kind_names_in source.now (declarations text.now.lines.items))) }
        ensures constants { IfOk result (λ s. HasKeys s.constants (constant_names_in source.now (declarations text.now.lines.items))) }
    {
        let mut said = Said::new(alloc);
        for at in 0..text.lines.len() {
            said.hear_sentence(source, &text.lines[at])?;
        }
        Ok(said)
    }

    // How the signature that a word of accum_sig names goes with those before it.
    pub(crate) fn sight_of_accum_sig(&self, sights: &[Sight], word: &[u8]) -> Option<Sight>
        ensures alike { (signatures : List (List ℕ)) → HasNumbers self.now.accum_sigs signatures → result ≡ Some Alike → IsAlike sights.now 0 signatures word.now }
        ensures place { (signatures : List (List ℕ)) → HasNumbers self.now.accum_sigs signatures → IfSome result (IsSightOf sights.now 0 signatures word.now) }
    {
        let number = self.accum_sigs.get(word)?;
        sights.get(*number).copied()
    }

    // How the signature that a word of accumulate names goes with those before it.
    pub(crate) fn sight_of_accumulate(&self, sights: &[Sight], word: &[u8]) -> Option<Sight>
        ensures alike { (signatures modules : List (List ℕ)) → HasNumbers self.now.accum_sigs signatures → HasNumbers self.now.accumulates modules → result ≡ Some Alike → IsAlike sights.now (length (first_names [] signatures)) modules word.now }
        ensures place { (signatures modules : List (List ℕ)) → HasNumbers self.now.accum_sigs signatures → HasNumbers self.now.accumulates modules → IfSome result (IsSightOf sights.now (length (first_names [] signatures)) modules word.now) }
    {
        let number = self.accumulates.get(word)?;
        let place = number.checked_add(self.accum_sigs.len())?;
        sights.get(place).copied()
    }
}
