// Why a query is refused.

use lp_answers::Stopped;
use lp_base::{Limit, Memory};
use lp_fixity::FixFault;
use lp_gen::GenRefusal;
use lp_infer::InferFault;
use lp_lexer::LexFault;
use lp_module::ModuleFault;
use lp_normal::NormalRefusal;
use lp_syntax::SyntaxFault;
use std::alloc::{AllocError, AllocFailed};

/// Why a query has no answers, or why their writing stopped.
#[derive(Clone, Copy, Debug, PartialEq, Eq)]
pub enum AskRefusal {
    /// A fault of tokens, never `Memory`.
    Lex(LexFault),
    /// A fault of syntax, never `Memory` or `Limit`.
    Syntax(SyntaxFault),
    /// A fault of typing, never `Memory`.
    Infer(InferFault),
    /// A fault of the form, never `Memory` or `Limit`.
    Form(ModuleFault),
    Limit(Limit),
    /// A piece could not be written. What is written is a prefix of the output.
    Write,
    /// What is written are whole answers.
    Memory,
    /// The first of the names to be shown that is no variable of the query.
    NotThere(u32),
}

impl From<Memory> for AskRefusal {
    ghost use Rattle.std.specs.Prelude.{◌≡◌};
    ghost use Rattle.lp_query.specs.declared.fault.AskRefusal.TheVariants.{Memory};

    ghost from_gives = { λ _ e. e ≡ Memory };

    fn from(_: Memory) -> AskRefusal {
        AskRefusal::Memory
    }
}

impl From<AllocError> for AskRefusal {
    ghost use Rattle.std.specs.Prelude.{◌≡◌};
    ghost use Rattle.lp_query.specs.declared.fault.AskRefusal.TheVariants.{Memory};

    ghost from_gives = { λ _ e. e ≡ Memory };

    fn from(_: AllocError) -> AskRefusal {
        AskRefusal::Memory
    }
}

impl<T: Drop> From<AllocFailed<T>> for AskRefusal {
    ghost use Rattle.std.specs.Prelude.{◌≡◌};
    ghost use Rattle.lp_query.specs.declared.fault.AskRefusal.TheVariants.{Memory};

    ghost from_gives = { λ _ e. e ≡ Memory };

    fn from(_: AllocFailed<T>) -> AskRefusal {
        AskRefusal::Memory
    }
}

impl From<LexFault> for AskRefusal {
    ghost use Rattle.std.specs.Prelude.{◌≡◌};
    ghost use Rattle.lp_query.specs.Refusals.{of_tokens};

    ghost from_gives = { λ f e. e ≡ of_tokens f };

    fn from(fault: LexFault) -> AskRefusal {
        match fault {
            LexFault::Memory => AskRefusal::Memory,
            _ => AskRefusal::Lex(fault),
        }
    }
}

impl From<SyntaxFault> for AskRefusal {
    ghost use Rattle.std.specs.Prelude.{◌≡◌};
    ghost use Rattle.lp_query.specs.Refusals.{of_syntax};

    ghost from_gives = { λ f e. e ≡ of_syntax f };

    fn from(fault: SyntaxFault) -> AskRefusal {
        match fault {
            SyntaxFault::Limit(limit) => AskRefusal::Limit(limit),
            SyntaxFault::Operator(FixFault::Memory, _) => AskRefusal::Memory,
            SyntaxFault::Memory => AskRefusal::Memory,
            _ => AskRefusal::Syntax(fault),
        }
    }
}

impl From<InferFault> for AskRefusal {
    ghost use Rattle.std.specs.Prelude.{◌≡◌};
    ghost use Rattle.lp_query.specs.Refusals.{of_typing};

    ghost from_gives = { λ f e. e ≡ of_typing f };

    fn from(fault: InferFault) -> AskRefusal {
        match fault {
            InferFault::Memory => AskRefusal::Memory,
            _ => AskRefusal::Infer(fault),
        }
    }
}

impl From<ModuleFault> for AskRefusal {
    ghost use Rattle.std.specs.Prelude.{◌≡◌};
    ghost use Rattle.lp_query.specs.Refusals.{of_form};

    ghost from_gives = { λ f e. e ≡ of_form f };

    fn from(fault: ModuleFault) -> AskRefusal {
        match fault {
            ModuleFault::Limit(limit) => AskRefusal::Limit(limit),
            ModuleFault::Memory => AskRefusal::Memory,
            _ => AskRefusal::Form(fault),
        }
    }
}

impl From<NormalRefusal> for AskRefusal {
    ghost use Rattle.std.specs.Prelude.{◌≡◌};
    ghost use Rattle.lp_query.specs.Refusals.{of_goals};

    ghost from_gives = { λ f e. e ≡ of_goals f };

    fn from(refusal: NormalRefusal) -> AskRefusal {
        match refusal {
            NormalRefusal::Limit(limit) => AskRefusal::Limit(limit),
            NormalRefusal::Memory => AskRefusal::Memory,
        }
    }
}

impl From<GenRefusal> for AskRefusal {
    ghost use Rattle.std.specs.Prelude.{◌≡◌};
    ghost use Rattle.lp_query.specs.Refusals.{of_code};

    ghost from_gives = { λ f e. e ≡ of_code f };

    fn from(refusal: GenRefusal) -> AskRefusal {
        match refusal {
            GenRefusal::Limit(limit) => AskRefusal::Limit(limit),
            GenRefusal::Memory => AskRefusal::Memory,
        }
    }
}

impl From<Stopped> for AskRefusal {
    ghost use Rattle.std.specs.Prelude.{◌≡◌};
    ghost use Rattle.lp_query.specs.Refusals.{of_stop};

    ghost from_gives = { λ f e. e ≡ of_stop f };

    fn from(stopped: Stopped) -> AskRefusal {
        match stopped {
            Stopped::Write => AskRefusal::Write,
            Stopped::Memory => AskRefusal::Memory,
        }
    }
}
