// The order of modules.
ghost use Rattle.std.specs.Prelude.{◌≡◌, ℕ, List, [], ◌∷◌, ◌++◌, map, All, IfOk, IfErr, string_bytes};
ghost use Rattle.lp_module.specs.Order.{Visits, HasNoCircle, Leads, Ordered};
ghost use Rattle.lp_module.specs.Refusals.{IsOrderRefusal};
ghost use Rattle.lp_module.specs.Words.{all_ways};

use crate::circles::first_circle;
use crate::fault::ModuleFault;
use crate::visits::visit;
use crate::ways::all_ways;
use lp_syntax::ModuleText;
use std::alloc::Global;

/// The modules by a walk from the root, depth first along the accumulate lists in order, each once and after all that it accumulates.
/// `names` are the names of the files without `.mod`; a word that is no such name is passed over.
///
/// # Errors
/// `Cyclic` at the first word of accumulate, in the order of the texts, that leads back to the module in which it stands.
pub fn order(
    alloc: Global,
    names: &[String],
    sources: &[Vec<u8>],
    texts: &[ModuleText],
    root: u32,
) -> Result<Vec<u32>, ModuleFault>
    ensures order { IfOk result (λ order. Visits (all_ways (map string_bytes names.now) sources.now texts.now) [] (root ∷ []) order.items) }
    ensures ordered { IfOk result (λ order. Ordered (all_ways (map string_bytes names.now) sources.now texts.now) order.items) }
    ensures reached { IfOk result (λ order. All (Leads (all_ways (map string_bytes names.now) sources.now texts.now) root) order.items) }
    ensures last { IfOk result (λ order. (front : List ℕ) × (order.items ≡ front ++ root ∷ [])) }
    ensures free { IfOk result (λ _. HasNoCircle (all_ways (map string_bytes names.now) sources.now texts.now)) }
    ensures refused { IfErr result (IsOrderRefusal (all_ways (map string_bytes names.now) sources.now texts.now)) }
{
    let ways = all_ways(alloc, names, sources, texts)?;
    let circle = first_circle(alloc, &ways)?;
    if let Some(word) = circle {
        return Err(ModuleFault::Cyclic(word));
    }
    if root as usize >= ways.len() || ways.len() > u32::MAX as usize {
        return Err(ModuleFault::Memory);
    }
    let order = visit(alloc, &ways, root as usize)?;
    Ok(order)
}
