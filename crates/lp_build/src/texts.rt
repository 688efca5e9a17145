// The syntax of all files.
ghost use Rattle.std.specs.Prelude.{◌≡◌, ◌⊎◌, ◌+◌, ◌<◌, ◌≤◌, ◌^◌, ℕ, List, [], length, IfErr, IfOk, IfSome, OnOk, Contains};
ghost use Rattle.lp_base.specs.declared.limits.TheConstants.{MAX_MODULES};
ghost use Rattle.lp_fixity.specs.Table.{entry_of, standard};
ghost use Rattle.lp_syntax.specs.Modules.{DeclaresOne};
ghost use Rattle.lp_sig.specs.Pieces.{spelled};
ghost use Rattle.lp_sig.specs.Refusals.{IsAt};
ghost use Rattle.lp_build.specs.Faults.{IsOfTexts};
ghost use Rattle.lp_build.specs.Refused.{IsFileFault, IsFirstText, IsLineFault, IsTextRefused, IsUndeclarable, of_syntax};
ghost use Rattle.lp_build.specs.Sights.{DeclareAll, InForce, Sees};
ghost use Rattle.lp_build.specs.declared.fault.BuildFault.TheVariants as fault;
ghost use Rattle.lp_build.specs.inner.Linked.{AreLinks, AreTextsSoFar, IsOneMore};
ghost use Rattle.lp_build.specs.inner.Refusing.{IsTold};

use crate::fault::BuildFault;
use crate::links::Links;
use crate::sources::{File, Part, Sources, as_number};
use indexmap::IndexSet;
use lp_base::Memory;
use lp_fixity::{FixFault, Table};
use lp_sig::spelled_at;
use lp_syntax::{FixityLine, ModuleText, SignatureText, SyntaxFault, module_text, signature_text};
use std::alloc::Global;

// Texts of one kind, with the names and sources of their files, in load order.
#[derive(Drop)]
pub(crate) struct Group<T: Drop> {
    pub names: Vec<String>,
    pub sources: Vec<Vec<u8>>,
    pub texts: Vec<T>,
    // The number of each file.
    pub numbers: Vec<usize>,
}

impl<T: Drop> Group<T> {
    fn new(alloc: Global) -> Group<T>
        ensures names { result.names.items ≡ [] }
        ensures sources { result.sources.items ≡ [] }
        ensures texts { result.texts.items ≡ [] }
        ensures numbers { result.numbers.items ≡ [] }
    {
        Group {
            names: Vec::new(alloc),
            sources: Vec::new(alloc),
            texts: Vec::new(alloc),
            numbers: Vec::new(alloc),
        }
    }

    fn add(&mut self, alloc: Global, place: usize, file: &File, text: T) -> Result<(), Memory>
        ensures { OnOk result (IsOneMore place file.now text self.old self.new) }
    {
        let name = String::from_str(alloc, file.module.as_str())?;
        let source = Vec::from_slice(alloc, file.text.bytes.as_slice())?;
        self.names.push(name)?;
        self.sources.push(source)?;
        self.numbers.push(place)?;
        self.texts.push(text)?;
        Ok(())
    }
}

// What stands at a place, if something does.
pub(crate) fn found_at<T>(list: &Vec<T>, place: usize) -> Option<&T>
    ensures { IfSome result (λ found. IsAt list.now.items place found.now) }
{
    if place >= list.len() {
        return None;
    }
    Some(&list[place])
}

// The texts of all files.
#[derive(Drop)]
pub(crate) struct Texts {
    pub signatures: Group<SignatureText>,
    pub modules: Group<ModuleText>,
}

// A fault of syntax as it is told.
fn syntax_fault(fault: SyntaxFault) -> BuildFault
    ensures same { result ≡ of_syntax fault }
    ensures texts { IsOfTexts result }
{
    match fault {
        SyntaxFault::Unexpected(spot) => BuildFault::Syntax(SyntaxFault::Unexpected(spot)),
        SyntaxFault::Ambiguous(spot) => BuildFault::Syntax(SyntaxFault::Ambiguous(spot)),
        SyntaxFault::Unclosed(spot) => BuildFault::Syntax(SyntaxFault::Unclosed(spot)),
        SyntaxFault::Unsupported(spot) => BuildFault::Syntax(SyntaxFault::Unsupported(spot)),
        SyntaxFault::Operator(FixFault::TooHigh(number), spot) => {
            BuildFault::Syntax(SyntaxFault::Operator(FixFault::TooHigh(number), spot))
        }
        SyntaxFault::Operator(FixFault::Otherwise, spot) => {
            BuildFault::Syntax(SyntaxFault::Operator(FixFault::Otherwise, spot))
        }
        SyntaxFault::Operator(FixFault::Memory, _) => BuildFault::Memory,
        SyntaxFault::Memory => BuildFault::Memory,
        SyntaxFault::Limit(limit) => BuildFault::Limit(limit),
    }
}

fn declare_one(table: &mut Table, source: &[u8], line: FixityLine) -> Result<(), BuildFault>
    ensures refused { IfErr result IsOfTexts }
    ensures cause { IfErr result (IsTold (IsLineFault (entry_of table.old) source.now line)) }
    ensures declared { OnOk result (DeclaresOne (spelled source.now line.name) (line.fixity, line.number) (entry_of table.old) (entry_of table.new)) }
{
    match table.declare(spelled_at(source, line.name), line.fixity, line.number) {
        Ok(()) => {
            return Ok(());
        }
        Err(fault) => {
            return Err(syntax_fault(SyntaxFault::Operator(fault, line.name)));
        }
    }
}

// Adds the fixities of a file to a table.
fn declare_all(table: &mut Table, file: &File) -> Result<(), BuildFault>
    ensures refused { IfErr result IsOfTexts }
    ensures cause { IfErr result (IsTold (IsFileFault (entry_of table.old) file.now)) }
    ensures declared { OnOk result (DeclareAll file.now.text.bytes.items (entry_of table.old) file.now.text.references.fixities.items (entry_of table.new)) }
{
    for at in 0..file.text.references.fixities.len() {
        let line = file.text.references.fixities[at];
        declare_one(table, file.text.bytes.as_slice(), line)?;
    }
    Ok(())
}

// Adds the fixities of the files that are seen to the standard table, in load order.
fn declare_seen(
    table: &mut Table,
    sources: &Sources,
    seen: &IndexSet<usize>,
) -> Result<(), BuildFault>
    ensures refused { IfErr result IsOfTexts }
    ensures cause { ((name : List ℕ) → entry_of table.old name ≡ standard name) → IfErr result (IsTold (IsUndeclarable sources.now.files.items (Contains seen.now.keys))) }
    ensures force { ((name : List ℕ) → entry_of table.old name ≡ standard name) → OnOk result (InForce sources.now.files.items (Contains seen.now.keys) (length sources.now.files.items) (entry_of table.new)) }
{
    for other in 0..sources.files.len() {
        let number = other;
        if !seen.contains(&number) {
            continue;
        }
        let file = &sources.files[other];
        declare_all(table, file)?;
    }
    Ok(())
}

// The table that a module begins with: the standard one, with the fixities of the signatures that it sees, in load order.
fn table_for(
    alloc: Global,
    sources: &Sources,
    links: &Links,
    place: usize,
    name: &str,
) -> Result<Table, BuildFault>
    ensures refused { IfErr result IsOfTexts }
    ensures cause { AreLinks sources.now.files.items links.now → IfErr result (IsTold (IsUndeclarable sources.now.files.items (Sees sources.now.files.items place name.now))) }
    ensures force { AreLinks sources.now.files.items links.now → IfOk result (λ table. InForce sources.now.files.items (Sees sources.now.files.items place name.now) (length sources.now.files.items) (entry_of table)) }
{
    let mut table = Table::standard(alloc)?;
    let seen = links.seen(alloc, place, name)?;
    declare_seen(&mut table, sources, &seen)?;
    Ok(table)
}

impl Texts {
    fn new(alloc: Global) -> Texts
        ensures { (files : List File) → AreTextsSoFar files 0 result }
    {
        Texts {
            signatures: Group::new(alloc),
            modules: Group::new(alloc),
        }
    }

    // Reads the text of a signature.
    fn add_signature(&mut self, alloc: Global, place: usize, file: &File) -> Result<(), BuildFault>
        ensures refused { IfErr result IsOfTexts }
        ensures cause { (files : List File) → file.now.part ≡ Part.Signature → place < 2 ^ 32 → IfErr result (IsTold (IsTextRefused files place file.now)) }
        ensures texts { (files : List File) → IsAt files place file.now → file.now.part ≡ Part.Signature → place < 2 ^ 32 → AreTextsSoFar files place self.old → OnOk result (AreTextsSoFar files (place + 1) self.new) }
    {
        let source = file.text.bytes.as_slice();
        let tokens = file.text.tokens.as_slice();
        let text = match signature_text(alloc, source, tokens, as_number(place)) {
            Ok(text) => text,
            Err(fault) => return Err(syntax_fault(fault)),
        };
        self.signatures.add(alloc, place, file, text)?;
        Ok(())
    }

    // Reads the text of a module.
    fn add_module(
        &mut self,
        alloc: Global,
        sources: &Sources,
        links: &Links,
        place: usize,
        file: &File,
    ) -> Result<(), BuildFault>
        ensures refused { IfErr result IsOfTexts }
        ensures cause { file.now.part ≡ Part.Module → place < 2 ^ 32 → AreLinks sources.now.files.items links.now → IfErr result (IsTold (IsTextRefused sources.now.files.items place file.now)) }
        ensures texts { IsAt sources.now.files.items place file.now → file.now.part ≡ Part.Module → place < 2 ^ 32 → AreLinks sources.now.files.items links.now → AreTextsSoFar sources.now.files.items place self.old → OnOk result (AreTextsSoFar sources.now.files.items (place + 1) self.new) }
    {
        let source = file.text.bytes.as_slice();
        let tokens = file.text.tokens.as_slice();
        let mut table = table_for(alloc, sources, links, place, file.module.as_str())?;
        let text = match module_text(alloc, source, tokens, as_number(place), &mut table) {
            Ok(text) => text,
            Err(fault) => return Err(syntax_fault(fault)),
        };
        self.modules.add(alloc, place, file, text)?;
        Ok(())
    }

    // Reads the text of one file.
    fn add(
        &mut self,
        alloc: Global,
        sources: &Sources,
        links: &Links,
        place: usize,
        file: &File,
    ) -> Result<(), BuildFault>
        ensures refused { IfErr result IsOfTexts }
        ensures cause { place < 2 ^ 32 → AreLinks sources.now.files.items links.now → IfErr result (IsTold (IsTextRefused sources.now.files.items place file.now)) }
        ensures texts { IsAt sources.now.files.items place file.now → place < 2 ^ 32 → AreLinks sources.now.files.items links.now → AreTextsSoFar sources.now.files.items place self.old → OnOk result (AreTextsSoFar sources.now.files.items (place + 1) self.new) }
    {
        match file.part {
            Part::Signature => self.add_signature(alloc, place, file),
            Part::Module => self.add_module(alloc, sources, links, place, file),
        }
    }
}

// The texts of all files, or the first fault in load order.
pub(crate) fn texts_of(alloc: Global, sources: &Sources, links: &Links) -> Result<Texts, BuildFault>
    ensures refused { IfErr result IsOfTexts }
    ensures cause { length sources.now.files.items ≤ MAX_MODULES → AreLinks sources.now.files.items links.now → IfErr result (λ e. (e ≡ fault.Memory) ⊎ IsFirstText sources.now.files.items e) }
    ensures texts { length sources.now.files.items ≤ MAX_MODULES → AreLinks sources.now.files.items links.now → IfOk result (AreTextsSoFar sources.now.files.items (length sources.now.files.items)) }
{
    let mut texts = Texts::new(alloc);
    for place in 0..sources.files.len() {
        let file = &sources.files[place];
        texts.add(alloc, sources, links, place, file)?;
    }
    Ok(texts)
}
