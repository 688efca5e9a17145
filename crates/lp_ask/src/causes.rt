// What is said of a refused query.
ghost use Rattle.std.specs.Prelude.{ℕ, List};
ghost use Rattle.lp_lines.specs.Placed.{IsCauseOf};
ghost use Rattle.lp_query.specs.Faults.{IsAskRefusal};

use lp_lines::{Cause, of_module, of_syntax, of_typing};
use lp_query::AskRefusal;

/// The cause of a refusal that was told before anything was written; the others are want of memory here.
pub(crate) fn cause_of(refusal: AskRefusal) -> Cause
    ensures { (text : List ℕ) → IsAskRefusal text refusal → IsCauseOf text result }
{
    match refusal {
        AskRefusal::Lex(fault) => Cause::Tokens(fault),
        AskRefusal::Syntax(fault) => of_syntax(fault),
        AskRefusal::Infer(fault) => of_typing(fault),
        AskRefusal::Form(fault) => of_module(fault),
        AskRefusal::Limit(passed) => Cause::Limit(passed),
        AskRefusal::Write | AskRefusal::Memory | AskRefusal::NotThere(_) => Cause::Memory,
    }
}
