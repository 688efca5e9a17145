// Which files the texts name.
ghost use Rattle.std.specs.Prelude.{◌≡◌, ℕ, List, [], ◌∷◌, ◌++◌, length, map, get_or, nat_eq, option_map, Option, Some, None, IfOk, OnOk, Contains, string_bytes, if◌then◌else◌};
ghost use Rattle.std.specs.Option.{option_or, option_to_list};
ghost use Rattle.std.specs.Str.{bytes_eq};
ghost use Rattle.indexmap.specs.IndexSet.{insert_key};
ghost use Rattle.lp_build.specs.Sights.{is_signature, named_by, signature_of, accum_sig_at, accumulate_at, Sees};
ghost use Rattle.lp_build.specs.declared.sources.File.{File};
ghost use Rattle.lp_build.specs.inner.Linked.{number_of, HasSignatures, AreLinks, IsPutBack, lists_of};

use crate::sources::{File, Part, Sources};
use indexmap::{IndexMap, IndexSet};
use lp_base::{Memory, Spot};
use lp_sig::spelled_at;
use std::alloc::Global;

// The numbers of the signatures, by the names of their modules; of two of one name that of the first.
#[derive(Drop)]
pub(crate) struct Numbers {
    alloc: Global,
    numbers: IndexMap<Vec<u8>, usize>,
}

// For each file, by its number, the numbers of the signatures that its words name, each once, by first place: by accum_sig, and as those of the
// modules that it accumulates.
#[derive(Drop)]
pub(crate) struct Links {
    signatures: Numbers,
    named: Vec<Vec<usize>>,
    accumulated: Vec<Vec<usize>>,
}

impl Numbers {
    pub(crate) fn new(alloc: Global) -> Numbers
        ensures { HasSignatures result [] }
    {
        Numbers {
            alloc,
            numbers: IndexMap::new(alloc),
        }
    }

    // The number of a name.
    pub(crate) fn number(&self, name: &[u8]) -> Option<usize>
        ensures { result ≡ number_of self.now name.now }
    {
        self.numbers.get(name).copied()
    }

    // One more name; a name that is there keeps its number.
    pub(crate) fn add_name(&mut self, name: &[u8], number: usize) -> Result<(), Memory>
        ensures { OnOk result ((other : List ℕ) → number_of self.new other ≡ option_or (number_of self.old other) (if bytes_eq other name.now then Some number else None)) }
    {
        if self.number(name).is_some() {
            return Ok(());
        }
        let key = Vec::from_slice(self.alloc, name)?;
        self.numbers.insert(key, number)?;
        Ok(())
    }

    // One more file.
    fn add(&mut self, file: &File, number: usize) -> Result<(), Memory>
        ensures { OnOk result ((files : List File) → number ≡ length files → HasSignatures self.old files → HasSignatures self.new (files ++ file.now ∷ [])) }
    {
        match file.part {
            Part::Signature => self.add_name(file.module.as_bytes(), number),
            Part::Module => Ok(()),
        }
    }

    // The numbers of the signatures among files.
    fn of(alloc: Global, files: &[File]) -> Result<Numbers, Memory>
        ensures { IfOk result (λ numbers. HasSignatures numbers files.now) }
    {
        let mut numbers = Numbers::new(alloc);
        for at in 0..files.len() {
            numbers.add(&files[at], at)?;
        }
        Ok(numbers)
    }

    // The numbers of the signatures that words name, each once, by first place.
    fn named(&self, alloc: Global, source: &[u8], words: &Vec<Spot>) -> Result<Vec<usize>, Memory>
        ensures { (files : List File) → HasSignatures self.now files → IfOk result (λ found. found.items ≡ named_by files source.now words.now.items) }
    {
        let mut seen = IndexSet::new(alloc);
        let mut found = Vec::new(alloc);
        for at in 0..words.len() {
            let word = words[at];
            match self.number(spelled_at(source, word)) {
                None => continue,
                Some(number) => note(&mut seen, &mut found, number)?,
            }
        }
        Ok(found)
    }
}

// One more number, unless it is there.
fn note(seen: &mut IndexSet<usize>, found: &mut Vec<usize>, number: usize) -> Result<(), Memory>
    ensures seen { OnOk result (seen.new.keys ≡ insert_key nat_eq seen.old.keys number) }
    ensures found { found.old.items ≡ seen.old.keys → OnOk result (found.new.items ≡ seen.new.keys) }
{
    if seen.insert(number)? {
        found.push(number)?;
        return Ok(());
    }
    Ok(())
}

// The list of a number; none behind the last one.
fn list_at(lists: &Vec<Vec<usize>>, number: usize) -> &[usize]
    ensures { result.now ≡ get_or (lists_of lists.now.items) number [] }
{
    if number < lists.len() {
        lists[number].as_slice()
    } else {
        &[]
    }
}

// One more list behind each of two.
fn push_both(
    named: &mut Vec<Vec<usize>>,
    accumulated: &mut Vec<Vec<usize>>,
    more: Vec<usize>,
    used: Vec<usize>,
) -> Result<(), Memory>
    ensures named { OnOk result (named.new.items ≡ named.old.items ++ more ∷ []) }
    ensures accumulated { OnOk result (accumulated.new.items ≡ accumulated.old.items ++ used ∷ []) }
{
    named.push(more)?;
    accumulated.push(used)?;
    Ok(())
}

impl Links {
    pub(crate) fn of(alloc: Global, sources: &Sources) -> Result<Links, Memory>
        ensures { IfOk result (AreLinks sources.now.files.items) }
    {
        let files = sources.files.as_slice();
        let signatures = Numbers::of(alloc, files)?;
        let mut named = Vec::new(alloc);
        let mut accumulated = Vec::new(alloc);
        for at in 0..sources.files.len() {
            let file = &sources.files[at];
            let source = file.text.bytes.as_slice();
            let more = signatures.named(alloc, source, &file.text.references.accum_sig)?;
            let used = signatures.named(alloc, source, &file.text.references.accumulate)?;
            push_both(&mut named, &mut accumulated, more, used)?;
        }
        Ok(Links {
            signatures,
            named,
            accumulated,
        })
    }

    // The number of a module's own signature.
    pub(crate) fn own(&self, name: &str) -> Option<usize>
        ensures { (files : List File) → AreLinks files self.now → result ≡ signature_of files name.now }
    {
        self.signatures.number(name.as_bytes())
    }

    // The numbers of the signatures that a file names by accum_sig.
    pub(crate) fn named(&self, file: usize) -> &[usize]
        ensures { (files : List File) → AreLinks files self.now → result.now ≡ accum_sig_at files file }
    {
        list_at(&self.named, file)
    }

    // The numbers of the signatures of the modules that a file accumulates.
    pub(crate) fn accumulated(&self, file: usize) -> &[usize]
        ensures { (files : List File) → AreLinks files self.now → result.now ≡ accumulate_at files file }
    {
        list_at(&self.accumulated, file)
    }

    // The signatures that a module file sees: its own, those that it names by accum_sig and those of the modules that it accumulates, each with its
    // own accum_sigs.
    pub(crate) fn seen(
        &self,
        alloc: Global,
        file: usize,
        name: &str,
    ) -> Result<IndexSet<usize>, Memory>
        ensures seen { (files : List File) → AreLinks files self.now → IfOk result (λ seen. (k : ℕ) → Contains seen.keys k → Sees files file name.now k) }
        ensures all { (files : List File) → AreLinks files self.now → IfOk result (λ seen. (k : ℕ) → Sees files file name.now k → Contains seen.keys k) }
    {
        let mut seen = IndexSet::new(alloc);
        let mut work = self.first(alloc, file, name)?;
        for _ in 0..u64::MAX {
            match work.pop() {
                None => return Ok(seen),
                Some(number) => self.take(&mut seen, &mut work, number)?,
            }
        }
        Err(Memory)
    }

    // The signatures that a module file sees first.
    fn first(&self, alloc: Global, file: usize, name: &str) -> Result<Vec<usize>, Memory>
        ensures { (files : List File) → AreLinks files self.now → IfOk result (λ work. work.items ≡ accum_sig_at files file ++ accumulate_at files file ++ option_to_list (signature_of files name.now)) }
    {
        let mut work = Vec::new(alloc);
        work.extend_from_slice(self.named(file))?;
        work.extend_from_slice(self.accumulated(file))?;
        match self.own(name) {
            None => Ok(work),
            Some(own) => {
                work.push(own)?;
                Ok(work)
            }
        }
    }

    // One more signature that is seen; those that it names are to be seen too.
    fn take(
        &self,
        seen: &mut IndexSet<usize>,
        work: &mut Vec<usize>,
        number: usize,
    ) -> Result<(), Memory>
        ensures seen { OnOk result (seen.new.keys ≡ insert_key nat_eq seen.old.keys number) }
        ensures work { (files : List File) → AreLinks files self.now → OnOk result (IsPutBack files number seen.old.keys work.old.items work.new.items) }
    {
        if seen.insert(number)? {
            work.extend_from_slice(self.named(number))?;
            return Ok(());
        }
        Ok(())
    }
}
