// Why files have no program.
ghost use Rattle.std.specs.Prelude.{◌≡◌};
ghost use Rattle.lp_normal.specs.Counted.{IsOver};
ghost use Rattle.lp_module.specs.declared.module.Module.{Module};
ghost use Rattle.lp_build.specs.Faults.{IsOfTexts};
ghost use Rattle.lp_build.specs.Uncoded.{HasManyIn, IsUncoded, of_code};

use lp_base::{Limit, Memory};
use lp_gen::GenRefusal;
use lp_lexer::LexFault;
use lp_link::LinkRefusal;
use lp_module::ModuleFault;
use lp_normal::NormalRefusal;
use lp_sig::SigFault;
use lp_syntax::SyntaxFault;
use std::alloc::{AllocError, AllocFailed};

/// Why files have no program. Numbers of files are those of the load order.
#[derive(Clone, Copy, Debug, PartialEq, Eq)]
pub enum BuildFault {
    /// The folder could not read the file.
    Read(u32),
    /// The folder does not have the file.
    Missing(u32),
    /// A fault of tokens, never `Memory`.
    Lex(u32, LexFault),
    /// A fault of syntax, never `Memory` or `Limit`.
    Syntax(SyntaxFault),
    /// A fault of a signature, never `Memory` or `Limit`.
    Sig(SigFault),
    /// A fault of a module, never `Memory` or `Limit`.
    Module(ModuleFault),
    Limit(Limit),
    Memory,
}

impl From<Memory> for BuildFault {
    ghost use Rattle.std.specs.Prelude.{◌≡◌};
    ghost use Rattle.lp_build.specs.declared.fault.BuildFault.TheVariants.{Memory};

    ghost from_gives = { λ _ e. e ≡ Memory };

    fn from(_: Memory) -> BuildFault {
        BuildFault::Memory
    }
}

impl From<AllocError> for BuildFault {
    ghost use Rattle.std.specs.Prelude.{◌≡◌};
    ghost use Rattle.lp_build.specs.declared.fault.BuildFault.TheVariants.{Memory};

    ghost from_gives = { λ _ e. e ≡ Memory };

    fn from(_: AllocError) -> BuildFault {
        BuildFault::Memory
    }
}

impl<T: Drop> From<AllocFailed<T>> for BuildFault {
    ghost use Rattle.std.specs.Prelude.{◌≡◌};
    ghost use Rattle.lp_build.specs.declared.fault.BuildFault.TheVariants.{Memory};

    ghost from_gives = { λ _ e. e ≡ Memory };

    fn from(_: AllocFailed<T>) -> BuildFault {
        BuildFault::Memory
    }
}

// How the refusal of flattening is told.
pub(crate) fn of_flattening(refusal: NormalRefusal) -> BuildFault
    ensures texts { IsOfTexts result }
    ensures cause { («module» : Module) → IsOver (HasManyIn «module».bank «module».clauses.items) refusal → IsUncoded «module» result }
{
    match refusal {
        NormalRefusal::Limit(passed) => BuildFault::Limit(passed),
        NormalRefusal::Memory => BuildFault::Memory,
    }
}

// How the refusal of code is told.
pub(crate) fn of_generator(refusal: GenRefusal) -> BuildFault
    ensures texts { IsOfTexts result }
    ensures same { result ≡ of_code refusal }
{
    match refusal {
        GenRefusal::Limit(passed) => BuildFault::Limit(passed),
        GenRefusal::Memory => BuildFault::Memory,
    }
}

// The objects of one set of texts never differ in a name.
impl From<LinkRefusal> for BuildFault {
    ghost use Rattle.std.specs.Prelude.{◌≡◌};
    ghost use Rattle.lp_build.specs.inner.Refusing.{of_link};

    ghost from_gives = { λ r e. e ≡ of_link r };

    fn from(refusal: LinkRefusal) -> BuildFault {
        match refusal {
            LinkRefusal::Limit(limit) => BuildFault::Limit(limit),
            LinkRefusal::Differ(_, _) => BuildFault::Memory,
            LinkRefusal::Memory => BuildFault::Memory,
        }
    }
}
