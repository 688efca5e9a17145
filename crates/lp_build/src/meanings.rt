// What all modules mean.
ghost use Rattle.std.specs.Prelude.{◌≡◌, ℕ, ◌++◌, List, IfErr, IfOk, IfSome};
ghost use Rattle.lp_syntax.specs.declared.text.SignatureText.{SignatureText};
ghost use Rattle.lp_build.specs.Faults.{IsOfTexts};
ghost use Rattle.lp_build.specs.Meant.{AreModulesOf, AreSignaturesOf, IsModuleAt, IsOwnSignature};
ghost use Rattle.lp_build.specs.Refused.{IsModuleFault, of_module};
ghost use Rattle.lp_module.specs.declared.fault.ModuleFault.{ModuleFault};
ghost use Rattle.lp_module.specs.declared.fault.ModuleFault.TheVariants as modules;
ghost use Rattle.lp_build.specs.Sights.{accum_sig_at, accumulate_at};
ghost use Rattle.lp_build.specs.declared.sources.File.{File};
ghost use Rattle.lp_build.specs.inner.Linked.{AreDeclared, AreLinks};
ghost use Rattle.lp_build.specs.inner.Refusing.{IsRefusedAmong, IsToldOf};

use crate::fault::BuildFault;
use crate::links::Links;
use crate::signatures::Signatures;
use crate::texts::{Group, found_at};
use lp_base::Memory;
use lp_infer::InferFault;
use lp_module::{Module, ModuleFault, elaborate, order};
use lp_sig::{SigFault, Signature};
use lp_syntax::ModuleText;
use std::alloc::Global;

// A fault of a module's declarations as it is told.
fn declared_fault(fault: SigFault) -> BuildFault
    ensures same { result ≡ of_module (modules.Sig fault) }
    ensures texts { IsOfTexts result }
{
    match fault {
        SigFault::Limit(limit) => BuildFault::Limit(limit),
        SigFault::Memory => BuildFault::Memory,
        SigFault::UnknownKind(spot) => {
            BuildFault::Module(ModuleFault::Sig(SigFault::UnknownKind(spot)))
        }
        SigFault::Arity(spot) => BuildFault::Module(ModuleFault::Sig(SigFault::Arity(spot))),
        SigFault::Differ(spot) => BuildFault::Module(ModuleFault::Sig(SigFault::Differ(spot))),
        SigFault::CyclicAbbreviation(spot) => {
            BuildFault::Module(ModuleFault::Sig(SigFault::CyclicAbbreviation(spot)))
        }
        SigFault::CyclicSignature(spot) => {
            BuildFault::Module(ModuleFault::Sig(SigFault::CyclicSignature(spot)))
        }
        SigFault::Header(spot) => BuildFault::Module(ModuleFault::Sig(SigFault::Header(spot))),
    }
}

// A fault of a module as it is told.
pub(crate) fn module_fault(fault: ModuleFault) -> BuildFault
    ensures same { result ≡ of_module fault }
    ensures texts { IsOfTexts result }
{
    match fault {
        ModuleFault::Memory => BuildFault::Memory,
        ModuleFault::Limit(limit) => BuildFault::Limit(limit),
        ModuleFault::Infer(InferFault::Memory) => BuildFault::Memory,
        ModuleFault::Infer(InferFault::Undeclared(spot)) => {
            BuildFault::Module(ModuleFault::Infer(InferFault::Undeclared(spot)))
        }
        ModuleFault::Infer(InferFault::NoTyping(spot)) => {
            BuildFault::Module(ModuleFault::Infer(InferFault::NoTyping(spot)))
        }
        ModuleFault::Sig(fault) => declared_fault(fault),
        ModuleFault::Cyclic(spot) => BuildFault::Module(ModuleFault::Cyclic(spot)),
        ModuleFault::Header(spot) => BuildFault::Module(ModuleFault::Header(spot)),
        ModuleFault::Otherwise(spot) => BuildFault::Module(ModuleFault::Otherwise(spot)),
        ModuleFault::NotClause(spot) => BuildFault::Module(ModuleFault::NotClause(spot)),
        ModuleFault::InTerm(spot) => BuildFault::Module(ModuleFault::InTerm(spot)),
    }
}

// The signatures that a module sees beside its own: those that it names by accum_sig, then those of the modules that it accumulates, each once by
// first place.
fn used_by(
    alloc: Global,
    links: &Links,
    signatures: &Signatures,
    number: usize,
) -> Result<Vec<Signature>, Memory>
    ensures { (files : List File) (g : Group SignatureText) → AreLinks files links.now → AreDeclared g signatures.now → IfOk result (λ used. AreSignaturesOf g (accum_sig_at files number ++ accumulate_at files number) used.items) }
{
    let mut used = Vec::new(alloc);
    signatures.copy_into(alloc, links.named(number), &mut used)?;
    signatures.copy_into(alloc, links.accumulated(number), &mut used)?;
    Ok(used)
}

// What the module at a place means.
pub(crate) fn module_at(
    alloc: Global,
    links: &Links,
    signatures: &Signatures,
    group: &Group<ModuleText>,
    place: usize,
) -> Result<Module, BuildFault>
    ensures refused { IfErr result IsOfTexts }
    ensures cause { (files : List File) (g : Group SignatureText) → AreLinks files links.now → AreDeclared g signatures.now → IfErr result (IsToldOf (IsModuleFault files g group.now place)) }
    ensures meaning { (files : List File) (g : Group SignatureText) → AreLinks files links.now → AreDeclared g signatures.now → IfOk result (IsModuleAt files g group.now place) }
{
    let Some(name) = found_at(&group.names, place) else {
        return Err(BuildFault::Memory);
    };
    let Some(source) = found_at(&group.sources, place) else {
        return Err(BuildFault::Memory);
    };
    let Some(text) = found_at(&group.texts, place) else {
        return Err(BuildFault::Memory);
    };
    let Some(number) = found_at(&group.numbers, place) else {
        return Err(BuildFault::Memory);
    };
    let Some(own) = own_of(links, signatures, name.as_str()) else {
        return Err(BuildFault::Memory);
    };
    let used = used_by(alloc, links, signatures, *number)?;
    let bytes = source.as_slice();
    let seen = used.as_slice();
    match elaborate(alloc, bytes, text, name.as_str(), own, seen) {
        Ok(module) => Ok(module),
        Err(fault) => Err(module_fault(fault)),
    }
}

// A module's own signature.
pub(crate) fn own_of<'a>(
    links: &Links,
    signatures: &'a Signatures,
    name: &str,
) -> Option<&'a Signature>
    ensures { (files : List File) (g : Group SignatureText) → AreLinks files links.now → AreDeclared g signatures.now → IfSome result (λ own. IsOwnSignature files g name.now own.now) }
{
    let Some(number) = links.own(name) else {
        return None;
    };
    signatures.get(number)
}

// What the modules mean, the accumulated ones first and the root last.
pub(crate) fn modules_of(
    alloc: Global,
    links: &Links,
    signatures: &Signatures,
    group: &Group<ModuleText>,
) -> Result<Vec<Module>, BuildFault>
    ensures refused { IfErr result IsOfTexts }
    ensures cause { (files : List File) (g : Group SignatureText) → AreLinks files links.now → AreDeclared g signatures.now → IfErr result (IsRefusedAmong files g group.now) }
    ensures meanings { (files : List File) (g : Group SignatureText) → AreLinks files links.now → AreDeclared g signatures.now → IfOk result (λ modules. AreModulesOf files g group.now modules.items) }
{
    let names = group.names.as_slice();
    let sources = group.sources.as_slice();
    let texts = group.texts.as_slice();
    let places = match order(alloc, names, sources, texts, 0) {
        Ok(places) => places,
        Err(fault) => return Err(module_fault(fault)),
    };
    let mut modules = Vec::new(alloc);
    for at in 0..places.len() {
        let place = places[at];
        let module = module_at(alloc, links, signatures, group, place as usize)?;
        modules.push(module)?;
    }
    Ok(modules)
}
