// Why a module's declarations are refused.

use crate::fault::SigFault;
use lp_base::{Memory, Spot};
use std::alloc::{AllocError, AllocFailed};

/// Why a module's declarations are refused.
#[derive(Clone, Copy, Debug, PartialEq, Eq)]
pub enum ModuleSigFault {
    /// As a signature is refused. What is declared otherwise may be a word of accum_sig or accumulate too, and an unknown kind may be a
    /// local one.
    Sig(SigFault),
    /// A name that is local and exported, or exported and declared otherwise in the module.
    Exported(Spot),
    /// A local constant without a type.
    Undeclared(Spot),
}

impl From<SigFault> for ModuleSigFault {
    ghost use Rattle.std.specs.Prelude.{◌≡◌};
    ghost use Rattle.lp_sig.specs.declared.module_fault.ModuleSigFault.TheVariants.{Sig};

    ghost from_gives = { λ f e. e ≡ Sig f };

    fn from(fault: SigFault) -> ModuleSigFault {
        ModuleSigFault::Sig(fault)
    }
}

impl From<Memory> for ModuleSigFault {
    ghost use Rattle.std.specs.Prelude.{◌≡◌};
    ghost use Rattle.lp_sig.specs.declared.fault.SigFault.TheVariants.{Memory};
    ghost use Rattle.lp_sig.specs.declared.module_fault.ModuleSigFault.TheVariants.{Sig};

    ghost from_gives = { λ _ e. e ≡ Sig Memory };

    fn from(_: Memory) -> ModuleSigFault {
        ModuleSigFault::Sig(SigFault::Memory)
    }
}

impl From<AllocError> for ModuleSigFault {
    ghost use Rattle.std.specs.Prelude.{◌≡◌};
    ghost use Rattle.lp_sig.specs.declared.fault.SigFault.TheVariants.{Memory};
    ghost use Rattle.lp_sig.specs.declared.module_fault.ModuleSigFault.TheVariants.{Sig};

    ghost from_gives = { λ _ e. e ≡ Sig Memory };

    fn from(_: AllocError) -> ModuleSigFault {
        ModuleSigFault::Sig(SigFault::Memory)
    }
}

impl<T: Drop> From<AllocFailed<T>> for ModuleSigFault {
    ghost use Rattle.std.specs.Prelude.{◌≡◌};
    ghost use Rattle.lp_sig.specs.declared.fault.SigFault.TheVariants.{Memory};
    ghost use Rattle.lp_sig.specs.declared.module_fault.ModuleSigFault.TheVariants.{Sig};

    ghost from_gives = { λ _ e. e ≡ Sig Memory };

    fn from(_: AllocFailed<T>) -> ModuleSigFault {
        ModuleSigFault::Sig(SigFault::Memory)
    }
}
