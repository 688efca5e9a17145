// The program of the files.
ghost use Rattle.std.specs.Prelude.{◌≡◌, ◌+◌, ◌<◌, ◌≤◌, ◌^◌, List, All, length, IfErr, IfOk, IfSome, OnOk};
ghost use Rattle.lp_base.specs.declared.limits.TheConstants.{MAX_MODULES};
ghost use Rattle.lp_sig.specs.Refusals.{IsAt};
ghost use Rattle.lp_module.specs.Sentences.{AreWithin};
ghost use Rattle.lp_build.specs.Compiled.{IsCompiled, IsModuleOfFile, IsObjectOf};
ghost use Rattle.lp_build.specs.Faults.{IsOfTexts};
ghost use Rattle.lp_build.specs.Images.{IsImage};
ghost use Rattle.lp_build.specs.Limits.{IsUnmade, IsWithinObject};
ghost use Rattle.lp_build.specs.Meant.{AreModules, AreModulesOf};
ghost use Rattle.lp_build.specs.Programs.{IsBuilt, IsProgramOf};
ghost use Rattle.lp_build.specs.Reads.{AreRead};
ghost use Rattle.lp_build.specs.Refused.{IsRefusedModules, IsRefusedProgram, IsRefusedWhole};
ghost use Rattle.lp_build.specs.Unmade.{IsRefusedImage, IsRefusedObject};
ghost use Rattle.lp_build.specs.declared.sources.File.{File};
ghost use Rattle.lp_build.specs.inner.Refusing.{IsRefusedAmong, IsRefusedOf, IsRefusedOfFile};
ghost use Rattle.lp_build.specs.inner.Wholes.{IsRootSignature, IsSeenOf, IsWhole};

use crate::fault::BuildFault;
use crate::images::image_of;
use crate::links::Links;
use crate::meanings::{module_at, module_fault, modules_of, own_of};
use crate::objects::{check_codes, check_names, names_of, with_code};
use crate::queries::{query_signature, query_table};
use crate::signatures::Signatures;
use crate::sources::{Sources, as_number};
use crate::texts::{Group, Texts, found_at, texts_of};
use lp_base::{Limit, MAX_COPIES, MAX_MODULES, Memory};
use lp_code::{Image, Object};
use lp_fixity::Table;
use lp_module::{Assembled, Module, assemble};
use lp_sig::Signature;
use lp_syntax::ModuleText;
use std::alloc::Global;

/// The program of a set of modules, with what its queries see: the kinds and constants of the root's signature, under the numbers of the program, and
/// the table of operators.
#[derive(Drop)]
pub struct Built {
    pub assembled: Assembled,
    pub signature: Signature,
    pub table: Table,
}

// The texts of files, and what their signatures mean.
#[derive(Drop)]
struct Whole {
    links: Links,
    texts: Texts,
    signatures: Signatures,
}

fn whole_of(alloc: Global, sources: &Sources) -> Result<Whole, BuildFault>
    ensures refused { IfErr result IsOfTexts }
    ensures cause { AreRead sources.now → IfErr result (IsRefusedWhole sources.now) }
    ensures whole { AreRead sources.now → IfOk result (IsWhole sources.now.files.items) }
{
    let links = Links::of(alloc, sources)?;
    let texts = texts_of(alloc, sources, &links)?;
    let signatures = Signatures::of(alloc, &texts.signatures)?;
    Ok(Whole {
        links,
        texts,
        signatures,
    })
}

// The modules of texts, the accumulated ones first, the root last.
fn modules_in(alloc: Global, whole: &Whole) -> Result<Vec<Module>, BuildFault>
    ensures refused { IfErr result IsOfTexts }
    ensures cause { (files : List File) → IsWhole files whole.now → IfErr result (IsRefusedAmong files whole.now.texts.signatures whole.now.texts.modules) }
    ensures meanings { (files : List File) → IsWhole files whole.now → IfOk result (λ modules. AreModulesOf files whole.now.texts.signatures whole.now.texts.modules modules.items) }
{
    modules_of(alloc, &whole.links, &whole.signatures, &whole.texts.modules)
}

// The own signature of the first module.
fn root_signature(whole: &Whole) -> Option<&Signature>
    ensures { (files : List File) → IsWhole files whole.now → IfSome result (λ own. IsRootSignature files whole.now own.now) }
{
    let Some(root) = found_at(&whole.texts.modules.names, 0) else {
        return None;
    };
    own_of(&whole.links, &whole.signatures, root.as_str())
}

// A program with what its queries see of the root's own signature.
fn seen_of(alloc: Global, own: &Signature, assembled: Assembled) -> Result<Built, Memory>
    ensures { IfOk result (IsSeenOf own.now assembled) }
{
    let kinds = assembled.kinds.as_slice();
    let constants = assembled.constants.as_slice();
    let signature = query_signature(alloc, own, kinds, constants)?;
    let table = query_table(alloc, &signature)?;
    Ok(Built {
        assembled,
        signature,
        table,
    })
}

// The number of the last module. There are no more modules than files.
fn root_of(modules: &Vec<Module>) -> Option<u32>
    ensures { IfSome result (λ root. root + 1 ≡ length modules.now.items) }
{
    let count = modules.len();
    if count == 0 || count > MAX_MODULES {
        return None;
    }
    Some((count - 1) as u32)
}

// The program of modules, the root last.
fn program_of(alloc: Global, modules: &Vec<Module>, own: &Signature) -> Result<Built, BuildFault>
    ensures refused { IfErr result IsOfTexts }
    ensures cause { IfErr result (IsRefusedOf modules.now.items) }
    ensures program { IfOk result (IsProgramOf modules.now.items own.now) }
{
    let Some(root) = root_of(modules) else {
        return Err(BuildFault::Memory);
    };
    let list = modules.as_slice();
    let assembled = match assemble(alloc, list, root) {
        Ok(assembled) => assembled,
        Err(fault) => return Err(module_fault(fault)),
    };
    match seen_of(alloc, own, assembled) {
        Ok(built) => Ok(built),
        Err(Memory) => Err(BuildFault::Memory),
    }
}

/// The program of the files: syntax, signatures, modules, and the program of all. The files are those that `gather` gave with `all`.
///
/// # Errors
/// The first fault of syntax in load order; then the first circle of accum_sig, then the first fault of a signature in load order; then a circle of
/// accumulate, then the first fault of a module, accumulated ones first; then the limits of the program, and then those of the code of its modules, in
/// the same order.
pub fn build_program(alloc: Global, sources: &Sources) -> Result<Built, BuildFault>
    ensures refused { IfErr result IsOfTexts }
    ensures cause { AreRead sources.now → IfErr result (IsRefusedProgram sources.now) }
    ensures program { AreRead sources.now → IfOk result (IsBuilt sources.now) }
{
    let whole = whole_of(alloc, sources)?;
    let modules = modules_in(alloc, &whole)?;
    let Some(own) = root_signature(&whole) else {
        return Err(BuildFault::Memory);
    };
    let built = program_of(alloc, &modules, own)?;
    check_codes(alloc, modules)?;
    Ok(built)
}

// The place in a group at which the text of a file stands.
fn place_of(group: &Group<ModuleText>, module: u32) -> Option<usize>
    ensures { All (λ n. n < 2 ^ 32) group.now.numbers.items → IfSome result (λ place. IsAt group.now.numbers.items place «module») }
{
    for place in 0..group.numbers.len() {
        if as_number(group.numbers[place]) == module {
            return Some(place);
        }
    }
    None
}

// What the module means whose text is a file of this number.
fn module_in(alloc: Global, whole: &Whole, number: u32) -> Result<Module, BuildFault>
    ensures refused { IfErr result IsOfTexts }
    ensures cause { (files : List File) → length files ≤ MAX_MODULES → IsWhole files whole.now → IfErr result (IsRefusedOfFile files whole.now.texts.signatures whole.now.texts.modules number) }
    ensures meant { (files : List File) → length files ≤ MAX_MODULES → IsWhole files whole.now → IfOk result (IsModuleOfFile files whole.now.texts.signatures whole.now.texts.modules number) }
{
    let group = &whole.texts.modules;
    let Some(place) = place_of(group, number) else {
        return Err(BuildFault::Memory);
    };
    module_at(alloc, &whole.links, &whole.signatures, group, place)
}

// The object of a module, within its limits.
fn object_of(alloc: Global, module: Module) -> Result<Object, BuildFault>
    ensures refused { IfErr result IsOfTexts }
    ensures cause { AreWithin «module».bank «module».clauses.items → IfErr result (IsUnmade «module») }
    ensures object { AreWithin «module».bank «module».clauses.items → IfOk result (IsObjectOf «module») }
    ensures within { AreWithin «module».bank «module».clauses.items → OnOk result (IsWithinObject «module») }
{
    if module.uses.len() >= MAX_COPIES {
        return Err(BuildFault::Limit(Limit::Copies));
    }
    let names = names_of(alloc, &module)?;
    let object = with_code(alloc, module, names)?;
    check_names(&object)?;
    Ok(object)
}

/// The object of a module whose text is a file of this number. Of the modules that it accumulates the signatures alone are wanted.
///
/// # Errors
/// The first fault of syntax in load order; then the first circle of accum_sig, then the first fault of a signature in load order; then the first fault
/// of the module; then the limits of its object, `copies` first, of which the module itself and the words of its accumulate lists are counted.
pub fn build_object(alloc: Global, sources: &Sources, module: u32) -> Result<Object, BuildFault>
    ensures refused { IfErr result IsOfTexts }
    ensures cause { AreRead sources.now → IfErr result (IsRefusedObject sources.now «module») }
    ensures compiled { AreRead sources.now → IfOk result (IsCompiled sources.now «module») }
{
    let whole = whole_of(alloc, sources)?;
    let module = module_in(alloc, &whole, module)?;
    object_of(alloc, module)
}

/// The modules of the files, which are those that `gather` gave with `all`: the accumulated ones first, the root last.
///
/// # Errors
/// The first fault of syntax in load order; then the first circle of accum_sig, then the first fault of a signature in load order; then a circle of
/// accumulate, then the first fault of a module, accumulated ones first.
pub fn modules(alloc: Global, sources: &Sources) -> Result<Vec<Module>, BuildFault>
    ensures refused { IfErr result IsOfTexts }
    ensures cause { AreRead sources.now → IfErr result (IsRefusedModules sources.now) }
    ensures meanings { AreRead sources.now → IfOk result (λ modules. AreModules sources.now modules.items) }
{
    let whole = whole_of(alloc, sources)?;
    modules_in(alloc, &whole)
}

/// The image of the files, which are those that `gather` gave with `all`. The root is the last module.
///
/// # Errors
/// The first fault of syntax in load order; then the first circle of accum_sig, then the first fault of a signature in load order; then a circle of
/// accumulate, then the first fault of a module, accumulated ones first; then the limit `copies`, those of each module's object, and `names`.
pub fn build_image(alloc: Global, sources: &Sources) -> Result<Image, BuildFault>
    ensures refused { IfErr result IsOfTexts }
    ensures cause { AreRead sources.now → IfErr result (IsRefusedImage sources.now) }
    ensures image { AreRead sources.now → IfOk result (IsImage sources.now) }
{
    let modules = modules(alloc, sources)?;
    image_of(alloc, modules)
}
