// What is said of each fault of a text.
ghost use Rattle.std.specs.Prelude.{List, ℕ};
ghost use Rattle.lp_lines.specs.Causes.{TellsDeclarations, TellsModule, TellsOperator, TellsSyntax, TellsTyping};
ghost use Rattle.lp_lines.specs.Placed.{IsCauseOf};

use crate::cause::{Cause, at, named};
use lp_base::Spot;
use lp_fixity::FixFault;
use lp_infer::InferFault;
use lp_module::ModuleFault;
use lp_sig::SigFault;
use lp_syntax::SyntaxFault;

fn of_operator(fault: FixFault, spot: Spot) -> Cause
    ensures cause { (text : List ℕ) → IsCauseOf text result }
    ensures tells { TellsOperator fault spot result }
{
    match fault {
        FixFault::TooHigh(_) => at("operator number above 255", spot),
        FixFault::Otherwise => named("operator declared otherwise", spot),
        FixFault::Memory => Cause::Memory,
    }
}

/// A fault of syntax.
pub fn of_syntax(fault: SyntaxFault) -> Cause
    ensures cause { (text : List ℕ) → IsCauseOf text result }
    ensures tells { TellsSyntax fault result }
{
    match fault {
        SyntaxFault::Unexpected(spot) => at("unexpected token", spot),
        SyntaxFault::Ambiguous(spot) => named("ambiguous operator", spot),
        SyntaxFault::Unclosed(spot) => at("unclosed bracket", spot),
        SyntaxFault::Unsupported(spot) => named("unsupported", spot),
        SyntaxFault::Operator(fault, spot) => of_operator(fault, spot),
        SyntaxFault::Limit(limit) => Cause::Limit(limit),
        SyntaxFault::Memory => Cause::Memory,
    }
}

/// A fault of declarations.
pub fn of_declarations(fault: SigFault) -> Cause
    ensures cause { (text : List ℕ) → IsCauseOf text result }
    ensures tells { TellsDeclarations fault result }
{
    match fault {
        SigFault::UnknownKind(spot) => named("unknown kind", spot),
        SigFault::Arity(spot) => named("wrong number of type arguments", spot),
        SigFault::Differ(spot) => named("declared otherwise", spot),
        SigFault::CyclicAbbreviation(spot) => named("cyclic abbreviation", spot),
        SigFault::CyclicSignature(spot) => named("cyclic accum_sig", spot),
        SigFault::Header(spot) => at("header name differs", spot),
        SigFault::Limit(limit) => Cause::Limit(limit),
        SigFault::Memory => Cause::Memory,
    }
}

/// A fault of typing.
pub fn of_typing(fault: InferFault) -> Cause
    ensures cause { (text : List ℕ) → IsCauseOf text result }
    ensures tells { TellsTyping fault result }
{
    match fault {
        InferFault::Undeclared(spot) => named("undeclared name", spot),
        InferFault::NoTyping(spot) => at("no typing", spot),
        InferFault::Memory => Cause::Memory,
    }
}

/// A fault of a module, or of the form of a query.
pub fn of_module(fault: ModuleFault) -> Cause
    ensures cause { (text : List ℕ) → IsCauseOf text result }
    ensures tells { TellsModule fault result }
{
    match fault {
        ModuleFault::Cyclic(spot) => named("cyclic accumulate", spot),
        ModuleFault::Header(spot) => at("header name differs", spot),
        ModuleFault::Otherwise(spot) => named("signature name declared otherwise", spot),
        ModuleFault::NotClause(spot) => at("not a clause", spot),
        ModuleFault::InTerm(spot) => at("implication or cut in a term", spot),
        ModuleFault::Sig(fault) => of_declarations(fault),
        ModuleFault::Infer(fault) => of_typing(fault),
        ModuleFault::Limit(limit) => Cause::Limit(limit),
        ModuleFault::Memory => Cause::Memory,
    }
}
