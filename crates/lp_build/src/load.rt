// The loading of files.
ghost use Rattle.std.specs.Prelude.{IfOk, IfErr};
ghost use Rattle.lp_build.specs.Loads.{Outside, fault_beside};
ghost use Rattle.lp_build.specs.Reads.{AreRead};
ghost use Rattle.lp_build.specs.Told.{AreKnown, AreLoaded, IsFaultIn};
ghost use Rattle.lp_build.specs.Ordered.{AreInOrder, AreInOrderSoFar};

use crate::fault::BuildFault;
use crate::sources::Sources;
use crate::walk::Loading;
use lp_base::Folder;
use std::alloc::Global;

/// Loads a module with all that it needs, in load order, each file once. Where `all` is false accumulated modules are loaded by signature alone. A
/// refusal gives back what was loaded so far, the name of the file at fault with it.
pub fn gather<F: Folder>(
    alloc: Global,
    folder: &mut F,
    root: &str,
    all: bool,
) -> Result<Sources, (Sources, BuildFault)>
    ensures ordered { IfOk result (AreInOrder all root.now) }
    ensures ordered_so_far { IfErr result (λ r. AreInOrderSoFar all root.now r.0 r.1) }
    ensures read { IfOk result AreRead }
    ensures read_so_far { IfErr result (λ r. AreRead r.0) }
    ensures outside { Outside F.read_faults F.misses F.overs F.write_faults F.held folder.old folder.new (fault_beside result) }
    ensures files { IfOk result (AreLoaded (F.held folder.old)) }
    ensures fault { IfErr result (λ r. IsFaultIn (F.held folder.old) r.0 r.1) }
    ensures files_so_far { IfErr result (λ r. AreLoaded (F.held folder.old) r.0) }
{
    gather_with(alloc, folder, root, all, Vec::new(alloc))
}

/// As `gather`, where files whose names and bytes are given are not read again.
pub fn gather_with<F: Folder>(
    alloc: Global,
    folder: &mut F,
    root: &str,
    all: bool,
    known: Vec<(String, Vec<u8>)>,
) -> Result<Sources, (Sources, BuildFault)>
    ensures ordered { IfOk result (AreInOrder all root.now) }
    ensures ordered_so_far { IfErr result (λ r. AreInOrderSoFar all root.now r.0 r.1) }
    ensures read { IfOk result AreRead }
    ensures read_so_far { IfErr result (λ r. AreRead r.0) }
    ensures outside { Outside F.read_faults F.misses F.overs F.write_faults F.held folder.old folder.new (fault_beside result) }
    ensures files { AreKnown (F.held folder.old) known.items → IfOk result (AreLoaded (F.held folder.old)) }
    ensures fault { AreKnown (F.held folder.old) known.items → IfErr result (λ r. IsFaultIn (F.held folder.old) r.0 r.1) }
    ensures files_so_far { AreKnown (F.held folder.old) known.items → IfErr result (λ r. AreLoaded (F.held folder.old) r.0) }
{
    let mut loading = Loading::new(alloc, all, known);
    match loading.run(folder, root) {
        Ok(()) => Ok(loading.sources),
        Err(fault) => Err((loading.sources, fault)),
    }
}
