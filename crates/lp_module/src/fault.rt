// Why a module is refused.

use lp_base::{Limit, Memory, Spot};
use lp_copies::TreeRefusal;
use lp_infer::InferFault;
use lp_sig::SigFault;
use std::alloc::{AllocError, AllocFailed};

/// Why a module is refused, with the spot of the name at fault. The two faults of form carry the spot of the sentence's first token.
#[derive(Clone, Copy, Debug, PartialEq, Eq)]
pub enum ModuleFault {
    /// A word of accumulate that leads back to its module.
    Cyclic(Spot),
    /// A header with another name than its file.
    Header(Spot),
    /// A name that is local and exported, or exported and declared with another type in the module.
    Otherwise(Spot),
    /// A sentence or query that is no clause or goal.
    NotClause(Spot),
    /// An implication or a cut in a term.
    InTerm(Spot),
    Limit(Limit),
    Memory,
    /// A fault of the module's declarations, never `Memory` or `Limit`.
    Sig(SigFault),
    /// A fault of typing, never `Memory`.
    Infer(InferFault),
}

impl From<Memory> for ModuleFault {
    ghost use Rattle.std.specs.Prelude.{◌≡◌};
    ghost use Rattle.lp_module.specs.declared.fault.ModuleFault.TheVariants.{Memory};

    ghost from_gives = { λ _ e. e ≡ Memory };

    fn from(_: Memory) -> ModuleFault {
        ModuleFault::Memory
    }
}

impl From<TreeRefusal> for ModuleFault {
    ghost use Rattle.std.specs.Prelude.{◌≡◌};
    ghost use Rattle.lp_module.specs.Trees.{fault_of};

    ghost from_gives = { λ r e. e ≡ fault_of r };

    fn from(refusal: TreeRefusal) -> ModuleFault {
        match refusal {
            TreeRefusal::TooMany => ModuleFault::Limit(Limit::Copies),
            TreeRefusal::Memory => ModuleFault::Memory,
        }
    }
}

impl From<AllocError> for ModuleFault {
    ghost use Rattle.std.specs.Prelude.{◌≡◌};
    ghost use Rattle.lp_module.specs.declared.fault.ModuleFault.TheVariants.{Memory};

    ghost from_gives = { λ _ e. e ≡ Memory };

    fn from(_: AllocError) -> ModuleFault {
        ModuleFault::Memory
    }
}

impl<T: Drop> From<AllocFailed<T>> for ModuleFault {
    ghost use Rattle.std.specs.Prelude.{◌≡◌};
    ghost use Rattle.lp_module.specs.declared.fault.ModuleFault.TheVariants.{Memory};

    ghost from_gives = { λ _ e. e ≡ Memory };

    fn from(_: AllocFailed<T>) -> ModuleFault {
        ModuleFault::Memory
    }
}
