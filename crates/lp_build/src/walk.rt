// The order in which files are loaded.
ghost use Rattle.std.specs.Prelude.{◌≡◌, ◌++◌, ◌∷◌, [], ◌≤◌, ℕ, Bool, List, length, not, None, IfErr, IfOk, OnOk, string_bytes};
ghost use Rattle.lp_base.specs.declared.limits.TheConstants.{MAX_NAME_BYTES};
ghost use Rattle.std.specs.Global.{Global};
ghost use Rattle.lp_build.specs.Loads.{Outside, fault_of, IsOfName, IsOfWord, ending};
ghost use Rattle.lp_build.specs.Reads.{AreRead};
ghost use Rattle.lp_sig.specs.Pieces.{spelled};
ghost use Rattle.lp_sig.specs.Refusals.{IsAt};
ghost use Rattle.lp_sig.specs.Said.{is_among};
ghost use Rattle.lp_sig.specs.Sights.{HasKeys};
ghost use Rattle.lp_build.specs.Told.{HoldsTold};
ghost use Rattle.lp_build.specs.Ordered.{Need, asked, needed, both, named_by, AreInOrder, AreInOrderSoFar, IsTooLong};
ghost use Rattle.lp_build.specs.declared.sources.File.{File as IsFile};
ghost use Rattle.lp_build.specs.declared.sources.Part.TheVariants as part_of;
ghost use Rattle.lp_build.specs.declared.walk.Work.TheVariants as work;
ghost use Rattle.lp_build.specs.inner.Walking.{AreOwed, IsNoName, IsOwed, IsWalk, IsWordAt};

use crate::fault::BuildFault;
use crate::read::{file_name, load_file};
use crate::sources::{Part, Sources};
use indexmap::IndexSet;
use lp_base::{Folder, Limit, MAX_NAME_BYTES, Memory, Spot};
use lp_sig::spelled_at;
use std::alloc::Global;

// What is still to be loaded.
#[derive(Drop)]
enum Work {
    // The signatures that a file names by accum_sig, from that word on.
    Signatures(usize, usize),
    // The module file of this name, and what it names.
    Module(String),
    // What a module file accumulates, from that word on.
    Accumulated(usize, usize),
}

// What is loaded so far, and what is still to be loaded, the next on top.
#[derive(Drop)]
pub(crate) struct Loading {
    alloc: Global,
    all: bool,
    known: Vec<(String, Vec<u8>)>,
    pub sources: Sources,
    names: IndexSet<Vec<u8>>,
    work: Vec<Work>,
}

impl Loading {
    pub(crate) fn new(alloc: Global, all: bool, known: Vec<(String, Vec<u8>)>) -> Loading
        ensures all { result.all ≡ all }
        ensures files { result.sources.files.items ≡ [] }
        ensures known { result.known ≡ known }
        ensures work { result.work.items ≡ [] }
        ensures names { HasKeys result.names [] }
        ensures refused { result.sources.refused ≡ None }
    {
        Loading {
            alloc,
            all,
            known,
            sources: Sources {
                files: Vec::new(alloc),
                refused: None,
            },
            names: IndexSet::new(alloc),
            work: Vec::new(alloc),
        }
    }

    // Whether a file is not there yet. Its name is noted.
    fn is_new(&mut self, name: &str, part: Part) -> Result<bool, Memory>
        ensures all { self.new.all ≡ self.old.all }
        ensures sources { self.new.sources ≡ self.old.sources }
        ensures known { self.new.known ≡ self.old.known }
        ensures work { self.new.work ≡ self.old.work }
        ensures new { (names : List (List ℕ)) → HasKeys self.old.names names → IfOk result (λ fresh. is_among (name.now ++ ending part) names ≡ not fresh) }
        ensures noted { (names : List (List ℕ)) → HasKeys self.old.names names → OnOk result (HasKeys self.new.names (names ++ (name.now ++ ending part) ∷ [])) }
    {
        let name = file_name(self.alloc, name, part)?;
        Ok(self.names.insert(name.into_bytes())?)
    }

    // What a file names comes right behind it: its signatures, and then what it accumulates.
    fn await_named(&mut self, file: usize, part: Part) -> Result<(), Memory>
        ensures all { self.new.all ≡ self.old.all }
        ensures sources { self.new.sources ≡ self.old.sources }
        ensures known { self.new.known ≡ self.old.known }
        ensures names { self.new.names ≡ self.old.names }
        ensures owed { (all : Bool) (f : IsFile) (left : List Need) → IsAt self.old.sources.files.items file f → f.part ≡ part → AreOwed all self.old.sources.files.items self.old.work.items left → OnOk result (AreOwed all self.old.sources.files.items self.new.work.items (named_by all f.part f.text ++ left)) }
    {
        match part {
            Part::Signature => {
                self.work.push(Work::Signatures(file, 0))?;
                Ok(())
            }
            Part::Module => {
                self.work.push(Work::Accumulated(file, 0))?;
                self.work.push(Work::Signatures(file, 0))?;
                Ok(())
            }
        }
    }

    // A module's own file comes behind its signature.
    fn await_module(&mut self, name: &str) -> Result<(), Memory>
        ensures all { self.new.all ≡ self.old.all }
        ensures sources { self.new.sources ≡ self.old.sources }
        ensures known { self.new.known ≡ self.old.known }
        ensures names { self.new.names ≡ self.old.names }
        ensures owed { (all : Bool) (left : List Need) → AreOwed all self.old.sources.files.items self.old.work.items left → OnOk result (AreOwed all self.old.sources.files.items self.new.work.items (needed part_of.Module name.now ∷ left)) }
    {
        let module = String::from_str(self.alloc, name)?;
        self.work.push(Work::Module(module))?;
        Ok(())
    }

    // Loads a text of a module, unless it is there already.
    fn want<F: Folder>(&mut self, folder: &mut F, name: &str, part: Part) -> Result<(), BuildFault>
        ensures outside { Outside F.read_faults F.misses F.overs F.write_faults F.held folder.old folder.new (fault_of result) }
        ensures read { AreRead self.old.sources → AreRead self.new.sources }
        ensures told { HoldsTold (F.held folder.old) self.old.known.items self.old.sources None → HoldsTold (F.held folder.old) self.new.known.items self.new.sources (fault_of result) }
        ensures walked { (all : Bool) (root : List ℕ) (word : Bool) → (IsTooLong (asked word part name.now) → ⊥) → IsWalk all root (asked word part name.now ∷ []) self.old → OnOk result (IsWalk all root [] self.new) }
        ensures so_far { (all : Bool) (root : List ℕ) (word : Bool) → (IsTooLong (asked word part name.now) → ⊥) → IsWalk all root (asked word part name.now ∷ []) self.old → IfErr result (AreInOrderSoFar all root self.new.sources) }
    {
        if !self.is_new(name, part)? {
            return Ok(());
        }
        let file = load_file(
            self.alloc,
            folder,
            &mut self.known,
            &mut self.sources,
            name,
            part,
        )?;
        self.await_named(file, part)?;
        Ok(())
    }

    // Loads a module's signature, and behind it the module's own file.
    fn want_module<F: Folder>(&mut self, folder: &mut F, name: &str) -> Result<(), BuildFault>
        ensures outside { Outside F.read_faults F.misses F.overs F.write_faults F.held folder.old folder.new (fault_of result) }
        ensures read { AreRead self.old.sources → AreRead self.new.sources }
        ensures told { HoldsTold (F.held folder.old) self.old.known.items self.old.sources None → HoldsTold (F.held folder.old) self.new.known.items self.new.sources (fault_of result) }
        ensures walked { (all : Bool) (root : List ℕ) (word : Bool) → (IsTooLong (asked word part_of.Signature name.now) → ⊥) → IsWalk all root (asked word part_of.Signature name.now ∷ needed part_of.Module name.now ∷ []) self.old → OnOk result (IsWalk all root [] self.new) }
        ensures so_far { (all : Bool) (root : List ℕ) (word : Bool) → (IsTooLong (asked word part_of.Signature name.now) → ⊥) → IsWalk all root (asked word part_of.Signature name.now ∷ needed part_of.Module name.now ∷ []) self.old → IfErr result (AreInOrderSoFar all root self.new.sources) }
    {
        self.await_module(name)?;
        self.want(folder, name, Part::Signature)
    }

    // Loads what the words of accum_sig from one on say.
    fn next_signature<F: Folder>(
        &mut self,
        folder: &mut F,
        file: usize,
        at: usize,
    ) -> Result<(), BuildFault>
        ensures outside { Outside F.read_faults F.misses F.overs F.write_faults F.held folder.old folder.new (fault_of result) }
        ensures read { AreRead self.old.sources → AreRead self.new.sources }
        ensures told { HoldsTold (F.held folder.old) self.old.known.items self.old.sources None → HoldsTold (F.held folder.old) self.new.known.items self.new.sources (fault_of result) }
        ensures walked { (all : Bool) (root : List ℕ) (needs : List Need) → IsOwed all self.old.sources.files.items (work.Signatures file at) needs → IsWalk all root needs self.old → OnOk result (IsWalk all root [] self.new) }
        ensures so_far { (all : Bool) (root : List ℕ) (needs : List Need) → IsOwed all self.old.sources.files.items (work.Signatures file at) needs → IsWalk all root needs self.old → IfErr result (AreInOrderSoFar all root self.new.sources) }
    {
        let Some(name) = self.named(file, at)? else {
            return Ok(());
        };
        self.work
            .push(Work::Signatures(file, at.saturating_add(1)))?;
        self.want(folder, name.as_str(), Part::Signature)
    }

    // Loads what the words of accumulate from one on say.
    fn next_module<F: Folder>(
        &mut self,
        folder: &mut F,
        file: usize,
        at: usize,
    ) -> Result<(), BuildFault>
        ensures outside { Outside F.read_faults F.misses F.overs F.write_faults F.held folder.old folder.new (fault_of result) }
        ensures read { AreRead self.old.sources → AreRead self.new.sources }
        ensures told { HoldsTold (F.held folder.old) self.old.known.items self.old.sources None → HoldsTold (F.held folder.old) self.new.known.items self.new.sources (fault_of result) }
        ensures walked { (all : Bool) (root : List ℕ) (needs : List Need) → IsOwed all self.old.sources.files.items (work.Accumulated file at) needs → IsWalk all root needs self.old → OnOk result (IsWalk all root [] self.new) }
        ensures so_far { (all : Bool) (root : List ℕ) (needs : List Need) → IsOwed all self.old.sources.files.items (work.Accumulated file at) needs → IsWalk all root needs self.old → IfErr result (AreInOrderSoFar all root self.new.sources) }
    {
        let Some(name) = self.accumulated(file, at)? else {
            return Ok(());
        };
        self.work
            .push(Work::Accumulated(file, at.saturating_add(1)))?;
        if self.all {
            self.want_module(folder, name.as_str())
        } else {
            self.want(folder, name.as_str(), Part::Signature)
        }
    }

    fn step<F: Folder>(&mut self, folder: &mut F, work: Work) -> Result<(), BuildFault>
        ensures outside { Outside F.read_faults F.misses F.overs F.write_faults F.held folder.old folder.new (fault_of result) }
        ensures read { AreRead self.old.sources → AreRead self.new.sources }
        ensures told { HoldsTold (F.held folder.old) self.old.known.items self.old.sources None → HoldsTold (F.held folder.old) self.new.known.items self.new.sources (fault_of result) }
        ensures walked { (all : Bool) (root : List ℕ) (needs : List Need) → IsOwed all self.old.sources.files.items work needs → IsWalk all root needs self.old → OnOk result (IsWalk all root [] self.new) }
        ensures so_far { (all : Bool) (root : List ℕ) (needs : List Need) → IsOwed all self.old.sources.files.items work needs → IsWalk all root needs self.old → IfErr result (AreInOrderSoFar all root self.new.sources) }
    {
        match work {
            Work::Signatures(file, at) => self.next_signature(folder, file, at),
            Work::Module(name) => self.want(folder, name.as_str(), Part::Module),
            Work::Accumulated(file, at) => self.next_module(folder, file, at),
        }
    }

    // Loads a module with all that it needs.
    pub(crate) fn run<F: Folder>(&mut self, folder: &mut F, root: &str) -> Result<(), BuildFault>
        ensures outside { Outside F.read_faults F.misses F.overs F.write_faults F.held folder.old folder.new (fault_of result) }
        ensures read { AreRead self.old.sources → AreRead self.new.sources }
        ensures told { HoldsTold (F.held folder.old) self.old.known.items self.old.sources None → HoldsTold (F.held folder.old) self.new.known.items self.new.sources (fault_of result) }
        ensures walked { (all : Bool) → IsWalk all root.now (both root.now) self.old → OnOk result (AreInOrder all root.now self.new.sources) }
        ensures so_far { (all : Bool) → IsWalk all root.now (both root.now) self.old → IfErr result (AreInOrderSoFar all root.now self.new.sources) }
    {
        self.want_module(folder, root)?;
        for _ in 0..u64::MAX {
            match self.work.pop() {
                Some(work) => self.step(folder, work)?,
                None => return Ok(()),
            }
        }
        Err(BuildFault::Memory)
    }

    // The word of a file's accum_sig sentences at a place.
    fn named(&self, file: usize, at: usize) -> Result<Option<String>, BuildFault>
        ensures refused { (f : IsFile) → IsAt self.now.sources.files.items file f → IfErr result (IsNoName f.text.bytes.items f.text.references.accum_sig.items at) }
        ensures kind { IfErr result IsOfName }
        ensures found { (f : IsFile) → IsAt self.now.sources.files.items file f → IfOk result (IsWordAt f.text.bytes.items f.text.references.accum_sig.items at) }
    {
        let Some(found) = self.sources.files.get(file) else {
            return Ok(None);
        };
        let Some(word) = found.text.references.accum_sig.get(at) else {
            return Ok(None);
        };
        Ok(Some(name_of(self.alloc, &found.text.bytes, *word)?))
    }

    // The word of a file's accumulate sentences at a place.
    fn accumulated(&self, file: usize, at: usize) -> Result<Option<String>, BuildFault>
        ensures refused { (f : IsFile) → IsAt self.now.sources.files.items file f → IfErr result (IsNoName f.text.bytes.items f.text.references.accumulate.items at) }
        ensures kind { IfErr result IsOfName }
        ensures found { (f : IsFile) → IsAt self.now.sources.files.items file f → IfOk result (IsWordAt f.text.bytes.items f.text.references.accumulate.items at) }
    {
        let Some(found) = self.sources.files.get(file) else {
            return Ok(None);
        };
        let Some(word) = found.text.references.accumulate.get(at) else {
            return Ok(None);
        };
        Ok(Some(name_of(self.alloc, &found.text.bytes, *word)?))
    }
}

// A word as a name of a file.
fn name_of(alloc: Global, source: &[u8], word: Spot) -> Result<String, BuildFault>
    ensures refused { IfErr result (IsOfWord source.now word) }
    ensures kind { IfErr result IsOfName }
    ensures spelled { IfOk result (λ name. string_bytes name ≡ spelled source.now word) }
    ensures short { IfOk result (λ name. length (string_bytes name) ≤ MAX_NAME_BYTES) }
{
    let spelled = spelled_at(source, word);
    if spelled.len() > MAX_NAME_BYTES {
        return Err(BuildFault::Limit(Limit::NameLength));
    }
    match str::from_utf8(spelled) {
        Ok(name) => Ok(String::from_str(alloc, name)?),
        Err(_) => Err(BuildFault::Memory),
    }
}
