// The image of modules.
ghost use Rattle.std.specs.Prelude.{◌≡◌, ◌⊎◌, ◌+◌, ◌<◌, ℕ, All, length, IfErr, IfOk, OnOk};
ghost use Rattle.lp_sig.specs.Refusals.{IsAt};
ghost use Rattle.lp_module.specs.Sentences.{AreWithin};
ghost use Rattle.lp_link.specs.Linked.{IsLinked};
ghost use Rattle.lp_link.specs.Names.{IsNamed};
ghost use Rattle.lp_link.specs.Refusals.{CanBeLinked, HasManyCopies, IsLinkRefusal};
ghost use Rattle.lp_link.specs.declared.fault.LinkRefusal.{LinkRefusal};
ghost use Rattle.lp_code.specs.declared.object.Object.{Object as IsObject};
ghost use Rattle.lp_build.specs.Compiled.{ArePaired, HasNamesOf, IsObjectOf};
ghost use Rattle.lp_build.specs.Faults.{IsOfTexts};
ghost use Rattle.lp_build.specs.Images.{IsImageOf};
ghost use Rattle.lp_build.specs.Limits.{HasFewNames, HasManyNames};
ghost use Rattle.lp_build.specs.Uncoded.{IsWithinCode};
ghost use Rattle.lp_build.specs.Unmade.{AreUnlinked, IsFirstUnmade};
ghost use Rattle.lp_build.specs.inner.Refusing.{NeverDiffer, of_link};
ghost use Rattle.lp_base.specs.declared.limit.Limit.TheVariants as limit;
ghost use Rattle.lp_build.specs.declared.fault.BuildFault.TheVariants as fault;

use crate::fault::BuildFault;
use crate::objects::{check_names, names_of, with_code};
use lp_base::{MAX_MODULES, Memory};
use lp_code::{Image, Object};
use lp_link::{check_copies, link};
use lp_module::Module;
use std::alloc::Global;

// The number of the last of these objects. There are no more of them than files.
fn last_of(objects: &[Object]) -> Result<u32, Memory>
    ensures below { IfOk result (λ last. last < length objects.now) }
    ensures last { IfOk result (λ last. last + 1 ≡ length objects.now) }
{
    let count = objects.len();
    if count == 0 || count > MAX_MODULES {
        return Err(Memory);
    }
    Ok((count - 1) as u32)
}

// The objects of the modules, without their code.
fn all_names(alloc: Global, modules: &Vec<Module>) -> Result<Vec<Object>, Memory>
    ensures { IfOk result (λ objects. ArePaired HasNamesOf modules.now.items (length modules.now.items) objects.items) }
{
    let mut objects = Vec::new(alloc);
    for at in 0..modules.len() {
        let object = names_of(alloc, &modules[at])?;
        objects.push(object)?;
    }
    Ok(objects)
}

// The objects of modules, from those without code, one for each.
fn all_objects(
    alloc: Global,
    modules: Vec<Module>,
    named: Vec<Object>,
) -> Result<Vec<Object>, BuildFault>
    ensures refused { IfErr result IsOfTexts }
    ensures cause { All (λ m. AreWithin m.bank m.clauses.items) modules.items → length named.items ≡ length modules.items → IfErr result (λ e. (e ≡ fault.Memory) ⊎ IsFirstUnmade modules.items e) }
    ensures within { All (λ m. AreWithin m.bank m.clauses.items) modules.items → length named.items ≡ length modules.items → OnOk result (All IsWithinCode modules.items) }
    ensures objects { ArePaired HasNamesOf modules.items (length modules.items) named.items → All (λ m. AreWithin m.bank m.clauses.items) modules.items →
        IfOk result (λ objects. ArePaired IsObjectOf modules.items (length modules.items) objects.items) }
{
    let mut objects = Vec::new(alloc);
    for (module, names) in modules.into_iter().zip(named) {
        let object = with_code(alloc, module, names)?;
        objects.push(object)?;
    }
    Ok(objects)
}

// The numbers of names are within their limit in each object.
fn check_all_names(objects: &Vec<Object>) -> Result<(), BuildFault>
    ensures refused { IfErr result IsOfTexts }
    ensures cause { IfErr result (λ e. (e ≡ fault.Limit limit.Names) × ((k : ℕ) × (o : IsObject) × IsAt objects.now.items k o × HasManyNames (length o.kinds.items) (length o.constants.items))) }
    ensures within { OnOk result (All (λ o. HasFewNames (length o.kinds.items) (length o.constants.items)) objects.now.items) }
{
    for at in 0..objects.len() {
        check_names(&objects[at])?;
    }
    Ok(())
}

fn linked(alloc: Global, objects: &Vec<Object>) -> Result<Image, BuildFault>
    ensures refused { IfErr result IsOfTexts }
    ensures cause { IfErr result (λ e. (e ≡ fault.Memory) ⊎ ((root : ℕ) × (f : LinkRefusal) × (root + 1 ≡ length objects.now.items) × IsLinkRefusal objects.now.items root f × (e ≡ of_link f))) }
    ensures linked { IfOk result (λ image. (root : ℕ) × (root + 1 ≡ length objects.now.items) × CanBeLinked objects.now.items root × IsLinked objects.now.items root image × IsNamed objects.now.items root image) }
{
    let last = last_of(objects.as_slice())?;
    let image = link(alloc, objects.as_slice(), last)?;
    Ok(image)
}

// The copies of the last object are within their limit.
fn within_copies(alloc: Global, objects: &Vec<Object>) -> Result<(), BuildFault>
    ensures refused { IfErr result IsOfTexts }
    ensures cause { IfErr result (λ e. (e ≡ fault.Memory) ⊎ ((root : ℕ) × (root + 1 ≡ length objects.now.items) × HasManyCopies objects.now.items root × (e ≡ fault.Limit limit.Copies))) }
{
    let last = last_of(objects.as_slice())?;
    check_copies(alloc, objects.as_slice(), last)?;
    Ok(())
}

// The image of modules, the root last.
pub(crate) fn image_of(alloc: Global, modules: Vec<Module>) -> Result<Image, BuildFault>
    ensures refused { IfErr result IsOfTexts }
    ensures cause { All (λ m. AreWithin m.bank m.clauses.items) modules.items → NeverDiffer modules.items → IfErr result (AreUnlinked modules.items) }
    ensures image { All (λ m. AreWithin m.bank m.clauses.items) modules.items → IfOk result (IsImageOf modules.items) }
{
    let named = all_names(alloc, &modules)?;
    within_copies(alloc, &named)?;
    let objects = all_objects(alloc, modules, named)?;
    check_all_names(&objects)?;
    linked(alloc, &objects)
}
