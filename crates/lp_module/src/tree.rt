// The tree of copies: how its modules stand in order, and whether there are too many copies or names.
ghost use Rattle.std.specs.Prelude.{◌≡◌, ℕ, ◌+◌, ◌-◌, ◌<◌, ◌≤◌, List, [], ◌∷◌, length, map, sum_by, All, IfOk, IfErr};
ghost use Rattle.lp_copies.specs.Copies.{Copies};
ghost use Rattle.lp_copies.specs.Trees.{lists_in};
ghost use Rattle.lp_module.specs.Copies.{IsTooMany, names_of, numbers_of, uses_of, kinds_end, constants_end};
ghost use Rattle.lp_module.specs.Files.{HasNames};
ghost use Rattle.lp_module.specs.Program.{behind};
ghost use Rattle.lp_module.specs.inner.Assembling.{counted, in_all, AreTotals, AreBehind, SetsTotal, next_of, own_kinds, own_constants};
ghost use Rattle.lp_module.specs.declared.fault.ModuleFault.TheVariants as fault;
ghost use Rattle.lp_base.specs.declared.limit.Limit.TheVariants as limit;
ghost use Rattle.lp_base.specs.declared.limits.TheConstants.{MAX_COPIES};
ghost use Rattle.lp_copies.specs.declared.names.TheConstants.{END_OF_IMAGE_NUMBERS};

use crate::fault::ModuleFault;
use crate::files::Files;
use crate::module::Module;
use lp_base::{Limit, Memory};
use lp_copies::{Copying, END_OF_IMAGE_NUMBERS, Turn};
use lp_sig::{FIRST_CONSTANT, FIRST_KIND};
use std::alloc::Global;

/// How many hidden kinds and constants there are.
#[derive(Clone, Copy)]
pub(crate) struct Hidden {
    pub kinds: usize,
    pub constants: usize,
}

impl Hidden {
    /// Those of a module by itself.
    pub(crate) fn of(member: &Module) -> Hidden
        ensures kinds { result.kinds ≡ length member.now.hidden_kinds.items }
        ensures constants { result.constants ≡ length member.now.hidden_constants.items }
    {
        Hidden {
            kinds: member.hidden_kinds.len(),
            constants: member.hidden_constants.len(),
        }
    }

    /// The numbers behind those of a module.
    pub(crate) fn behind(self, member: &Module) -> Hidden
        requires kinds { self.kinds + length member.now.hidden_kinds.items ≤ 1048576 }
        requires constants { self.constants + length member.now.hidden_constants.items ≤ 1048576 }
        ensures { next_of result ≡ behind member.now (next_of self) }
    {
        Hidden {
            kinds: self.kinds + member.hidden_kinds.len(),
            constants: self.constants + member.hidden_constants.len(),
        }
    }

    // Both together.
    fn with(self, more: Hidden) -> Hidden
        ensures kinds { result.kinds ≡ counted (self.kinds + more.kinds) }
        ensures constants { result.constants ≡ counted (self.constants + more.constants) }
    {
        Hidden {
            kinds: self.kinds.saturating_add(more.kinds),
            constants: self.constants.saturating_add(more.constants),
        }
    }
}

// The numbers of the modules that one accumulates.
fn numbers_of(alloc: Global, files: &Files, member: &Module) -> Result<Vec<usize>, Memory>
    ensures { (names : List (List ℕ)) → HasNames files.now names → IfOk result (λ numbers. numbers.items ≡ numbers_of names (map (λ u. u.items) member.now.uses.items)) }
{
    let mut numbers = Vec::new(alloc);
    for at in 0..member.uses.len() {
        match files.number(member.uses[at].as_slice()) {
            None => return Err(Memory),
            Some(number) => numbers.push(number)?,
        }
    }
    Ok(numbers)
}

/// The numbers of the modules that each accumulates.
pub(crate) fn uses_of(alloc: Global, modules: &[Module]) -> Result<Vec<Vec<usize>>, Memory>
    ensures uses { IfOk result (λ uses. lists_in uses.items ≡ uses_of modules.now) }
    ensures within { IfOk result (λ uses. All (λ out. All (λ m. m < length uses.items) out) (lists_in uses.items)) }
{
    let files = Files::of_modules(alloc, modules)?;
    let mut uses = Vec::new(alloc);
    for at in 0..modules.len() {
        let numbers = numbers_of(alloc, &files, &modules[at])?;
        uses.push(numbers)?;
    }
    Ok(uses)
}

/// The modules of the copies, in order.
pub(crate) fn order_of(
    alloc: Global,
    uses: &Vec<Vec<usize>>,
    root: usize,
) -> Result<Vec<usize>, ModuleFault>
    requires root { root < length uses.now.items }
    requires within { All (λ out. All (λ m. m < length uses.now.items) out) (lists_in uses.now.items) }
    ensures copies { IfOk result (λ order. Copies (lists_in uses.now.items) (root ∷ []) order.items) }
    ensures few { IfOk result (λ order. length order.items ≤ MAX_COPIES) }
    ensures only { IfOk result (λ order. (all : List ℕ) → Copies (lists_in uses.now.items) (root ∷ []) all → all ≡ order.items) }
    ensures refused { IfErr result (IsTooMany (lists_in uses.now.items) root) }
{
    let mut copying = Copying::new(alloc, uses, root);
    'copies: loop {
        match copying.go_on(uses)? {
            Turn::Ended(_) => return Ok(copying.left),
            Turn::Entered(_) => continue,
            Turn::Left(_) => continue,
        }
    }
}

// So many more names, if the numbers do not end before.
fn more_names(names: usize, more: usize) -> Result<usize, ModuleFault>
    ensures sum { IfOk result (λ all. (all ≡ names + more) × (all ≤ END_OF_IMAGE_NUMBERS)) }
    ensures refused { IfErr result (λ e. (e ≡ fault.Limit limit.Names) × (END_OF_IMAGE_NUMBERS < names + more)) }
{
    let all = names.saturating_add(more);
    if all > END_OF_IMAGE_NUMBERS as usize {
        return Err(ModuleFault::Limit(Limit::Names));
    }
    Ok(all)
}

// How many names of a module are exported.
fn exported(all: usize, hidden: usize) -> usize
    ensures { result ≡ all - hidden }
{
    all.saturating_sub(hidden)
}

/// Where the numbers of kinds end: behind the standard ones, those that the root exports and the hidden ones of each copy.
pub(crate) fn end_of_kinds(
    modules: &[Module],
    order: &Vec<usize>,
    root: usize,
) -> Result<usize, ModuleFault>
    requires root { root < length modules.now }
    requires order { All (λ m. m < length modules.now) order.now.items }
    ensures sum { IfOk result (λ all. (all ≡ kinds_end modules.now root order.now.items) × (all ≤ END_OF_IMAGE_NUMBERS)) }
    ensures refused { IfErr result (λ e. (e ≡ fault.Limit limit.Names) × (END_OF_IMAGE_NUMBERS < kinds_end modules.now root order.now.items)) }
{
    let top = &modules[root];
    let exported = exported(top.signature.kinds().len(), top.hidden_kinds.len());
    let mut all = more_names(FIRST_KIND as usize, exported)?;
    for at in 0..order.len() {
        all = more_names(all, modules[order[at]].hidden_kinds.len())?;
    }
    Ok(all)
}

/// The same for constants.
pub(crate) fn end_of_constants(
    modules: &[Module],
    order: &Vec<usize>,
    root: usize,
) -> Result<usize, ModuleFault>
    requires root { root < length modules.now }
    requires order { All (λ m. m < length modules.now) order.now.items }
    ensures sum { IfOk result (λ all. (all ≡ constants_end modules.now root order.now.items) × (all ≤ END_OF_IMAGE_NUMBERS)) }
    ensures refused { IfErr result (λ e. (e ≡ fault.Limit limit.Names) × (END_OF_IMAGE_NUMBERS < constants_end modules.now root order.now.items)) }
{
    let top = &modules[root];
    let exported = exported(top.signature.constants().len(), top.hidden_constants.len());
    let mut all = more_names(FIRST_CONSTANT as usize, exported)?;
    for at in 0..order.len() {
        all = more_names(all, modules[order[at]].hidden_constants.len())?;
    }
    Ok(all)
}

/// The hidden names of all copies of these modules and below them.
pub(crate) fn below_of(totals: &Vec<Hidden>, out: &Vec<usize>) -> Hidden
    requires { All (λ m. m < length totals.now.items) out.now.items }
    ensures kinds { result.kinds ≡ counted (sum_by (in_all (λ h. h.kinds) totals.now.items) out.now.items) }
    ensures constants { result.constants ≡ counted (sum_by (in_all (λ h. h.constants) totals.now.items) out.now.items) }
{
    let mut all = Hidden {
        kinds: 0,
        constants: 0,
    };
    for at in 0..out.len() {
        all = all.with(totals[out[at]]);
    }
    all
}

// Keeps the total of a module.
fn set_total(totals: &mut Vec<Hidden>, at: usize, total: Hidden)
    requires { at < length totals.old.items }
    ensures { SetsTotal totals.old.items totals.new.items at total }
{
    totals[at] = total;
}

/// For each module of a copy the hidden names of a copy of it and of all that stands below it.
pub(crate) fn totals_of(
    alloc: Global,
    modules: &[Module],
    uses: &Vec<Vec<usize>>,
    order: &Vec<usize>,
) -> Result<Vec<Hidden>, Memory>
    requires modules { length modules.now ≡ length uses.now.items }
    requires order { All (λ m. m < length modules.now) order.now.items }
    requires behind { AreBehind (lists_in uses.now.items) [] order.now.items }
    requires within { All (λ out. All (λ m. m < length uses.now.items) out) (lists_in uses.now.items) }
    ensures count { IfOk result (λ t. length t.items ≡ length modules.now) }
    ensures kinds { IfOk result (λ t. AreTotals (lists_in uses.now.items) (own_kinds modules.now) (in_all (λ h. h.kinds) t.items) order.now.items) }
    ensures constants { IfOk result (λ t. AreTotals (lists_in uses.now.items) (own_constants modules.now) (in_all (λ h. h.constants) t.items) order.now.items) }
{
    let none = Hidden {
        kinds: 0,
        constants: 0,
    };
    let mut totals = Vec::from_elem(alloc, none, modules.len())?;
    for at in 0..order.len() {
        let place = order[at];
        let below = below_of(&totals, &uses[place]);
        let total = Hidden::of(&modules[place]).with(below);
        set_total(&mut totals, place, total);
    }
    Ok(totals)
}
