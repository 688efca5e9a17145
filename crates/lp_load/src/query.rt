// A query, from its text to its typed formula.
ghost use Rattle.std.specs.Prelude.{◌≡◌, ◌≤◌, ◌<◌, ◌⊎◌, ℕ, List, IfOk, IfErr, OnOk, codes, length, true};
ghost use Rattle.lp_base.specs.declared.limits.TheConstants.{MAX_ARGUMENTS};
ghost use Rattle.lp_calculus.specs.Term.{Term};
ghost use Rattle.lp_term.specs.Nodes.{Extends, tree};
ghost use Rattle.lp_module.specs.Arguments.{HasManyArguments};
ghost use Rattle.lp_module.specs.Clauses.{IsFormed};
ghost use Rattle.lp_module.specs.Refusals.{IsShort};
ghost use Rattle.lp_module.specs.Schemes.{declared_schemes};
ghost use Rattle.lp_gen.specs.Limits.{QueryWithin};
ghost use Rattle.lp_normal.specs.Counted.{AssumesFewClauses, AssumesManyClauses, IsOver};
ghost use Rattle.lp_load.specs.Asked.{AreGoalsOf, HasCode, IsAsked, IsRead};
ghost use Rattle.lp_load.specs.Refused.{IsOverArguments, IsOverClauses, IsOverCode, IsRefusedFor, IsRefusedQuery, IsUnformed, IsUnread, TellsCode};
ghost use Rattle.lp_lines.specs.Placed.{IsCauseOf, IsOfText, IfSource};
ghost use Rattle.lp_lines.specs.Refusals.{IsTextRefusal};

use lp_base::{Limit, Memory, Spot};
use lp_build::Built;
use lp_gen::{GenRefusal, generate_query};
use lp_infer::type_query;
use lp_lexer::tokens;
use lp_lines::{Cause, Refusal, of_module, of_syntax, of_typing, query_refused};
use lp_model::{Declared, Goal, Typed};
use lp_module::{has_many_arguments, query_form_under};
use lp_normal::{NormalRefusal, query_body};
use lp_sig::Signature;
use lp_syntax::{RawQuery, query_text};
use lp_term::Bank;
use std::alloc::Global;

// The query as it is written.
fn read(alloc: Global, text: &[u8], built: &Built) -> Result<RawQuery, Cause>
    ensures refused { IfErr result (IsCauseOf text.now) }
    ensures read { IfOk result (IsRead built.now.table text.now) }
    ensures cause { IfErr result (IsUnread built.now.table text.now) }
{
    let tokens = match tokens(alloc, text) {
        Ok(tokens) => tokens,
        Err(fault) => return Err(Cause::Tokens(fault)),
    };
    match query_text(alloc, text, &tokens, &built.table) {
        Ok(raw) => Ok(raw),
        Err(fault) => Err(of_syntax(fault)),
    }
}

fn within_arguments(alloc: Global, raw: &RawQuery) -> Result<(), Cause>
    ensures refused { (text : List ℕ) → IfErr result (IsCauseOf text) }
    ensures few { OnOk result (HasManyArguments raw.now.term → ⊥) }
    ensures cause { IfErr result (IsOverArguments raw.now.term) }
{
    match has_many_arguments(alloc, &raw.term) {
        Ok(false) => Ok(()),
        Ok(true) => Err(Cause::Limit(Limit::Arguments)),
        Err(Memory) => Err(Cause::Memory),
    }
}

fn within_form(
    alloc: Global,
    bank: &mut Bank,
    names: &Signature,
    typed: &Typed,
    first: Spot,
) -> Result<(), Cause>
    ensures refused { (text : List ℕ) → IfErr result (IsCauseOf text) }
    ensures kept { Extends bank.old bank.new }
    ensures short { OnOk result (IsShort (tree bank.old typed.now.formula.0)) }
    ensures variables { OnOk result (typed.now.type_vars ≤ MAX_ARGUMENTS) }
    ensures formed { OnOk result (IsFormed (declared_schemes names.now) true typed.now.type_vars (tree bank.old typed.now.formula.0)) }
    ensures cause { IfErr result (IsUnformed names.now bank.old typed.now first) }
{
    match query_form_under(alloc, bank, names, typed, first) {
        Ok(()) => Ok(()),
        Err(fault) => Err(of_module(fault)),
    }
}

// What is said where the flattened goals are refused.
fn of_flattening(refusal: NormalRefusal) -> Cause
    ensures refused { (text : List ℕ) → IsCauseOf text result }
    ensures cause { (t : Term) → IsOver (AssumesManyClauses t) refusal → IsOverClauses t result }
{
    match refusal {
        NormalRefusal::Limit(limit) => Cause::Limit(limit),
        NormalRefusal::Memory => Cause::Memory,
    }
}

// The flattened goals of a query, which assume no more clauses than the limit allows.
fn within_clauses(alloc: Global, bank: &mut Bank, typed: &Typed) -> Result<Vec<Goal>, Cause>
    ensures refused { (text : List ℕ) → IfErr result (IsCauseOf text) }
    ensures cause { IfErr result (IsOverClauses (tree bank.old typed.now.formula.0)) }
    ensures few { OnOk result (AssumesFewClauses (tree bank.old typed.now.formula.0)) }
    ensures goals { typed.now.formula.0 < length bank.old.terms → IfOk result (λ goals. AreGoalsOf bank.new typed.now goals.items) }
    ensures kept { Extends bank.old bank.new }
{
    match query_body(alloc, bank, typed) {
        Ok(goals) => Ok(goals),
        Err(refusal) => Err(of_flattening(refusal)),
    }
}

// What is said where a query has no code.
fn of_generator(refusal: GenRefusal) -> Cause
    ensures refused { (text : List ℕ) → IsCauseOf text result }
    ensures tells { TellsCode refusal result }
{
    match refusal {
        GenRefusal::Limit(limit) => Cause::Limit(limit),
        GenRefusal::Memory => Cause::Memory,
    }
}

// The code of a query is within its limits.
fn within_code(
    alloc: Global,
    bank: &Bank,
    constants: &[Declared],
    typed: &Typed,
    goals: &[Goal],
) -> Result<(), Cause>
    ensures refused { (text : List ℕ) → IfErr result (IsCauseOf text) }
    ensures cause { IfErr result (IsOverCode bank.now constants.now typed.now goals.now) }
    ensures within { OnOk result (QueryWithin bank.now constants.now typed.now goals.now) }
{
    match generate_query(alloc, bank, constants, typed, goals) {
        Ok(_) => Ok(()),
        Err(refusal) => Err(of_generator(refusal)),
    }
}

// The typed query, in the program's bank.
fn type_of(alloc: Global, text: &[u8], built: &mut Built) -> Result<Typed, Cause>
    ensures refused { IfErr result (IsCauseOf text.now) }
    ensures cause { IfErr result (IsRefusedFor built.old text.now) }
    ensures asked { IfOk result (IsAsked built.old.table built.old.signature text.now built.new.assembled.program.bank) }
    ensures few { IfOk result (λ q. AssumesFewClauses (tree built.new.assembled.program.bank q.formula.0)) }
    ensures coded { IfOk result (HasCode built.new.assembled.program.bank built.old.assembled.program.constants.items) }
    ensures kept { Extends built.old.assembled.program.bank built.new.assembled.program.bank }
    ensures table { built.new.table ≡ built.old.table }
    ensures signature { built.new.signature ≡ built.old.signature }
    ensures constants { built.new.assembled.program.constants ≡ built.old.assembled.program.constants }
    ensures clauses { built.new.assembled.program.clauses ≡ built.old.assembled.program.clauses }
    ensures kinds { built.new.assembled.kinds ≡ built.old.assembled.kinds }
    ensures names { built.new.assembled.constants ≡ built.old.assembled.constants }
{
    let raw = read(alloc, text, built)?;
    within_arguments(alloc, &raw)?;
    let bank = &mut built.assembled.program.bank;
    let typed = match type_query(alloc, &built.signature, text, &raw, bank) {
        Ok(typed) => typed,
        Err(fault) => return Err(of_typing(fault)),
    };
    within_form(alloc, bank, &built.signature, &typed, raw.term.first)?;
    let goals = within_clauses(alloc, bank, &typed)?;
    let constants = built.assembled.program.constants.as_slice();
    within_code(alloc, bank, constants, &typed, goals.as_slice())?;
    Ok(typed)
}

/// The typed query of a text on a program: the principal typing of what the text is read as. Its terms stand in the program's bank, behind those that
/// stood there; nothing else of the program changes. The refusal is the first one of the text, in the order of tokens,
/// syntax, limits, typing, form and code, as the line that tells of it.
pub fn ask(alloc: Global, text: &[u8], built: &mut Built) -> Result<Typed, Refusal>
    ensures refused { IfErr result IsTextRefusal }
    ensures placed { IfErr result (IfSource (IsOfText (codes "query") text.now)) }
    ensures cause { IfErr result (IsRefusedQuery built.old text.now) }
    ensures asked { IfOk result (IsAsked built.old.table built.old.signature text.now built.new.assembled.program.bank) }
    ensures few { IfOk result (λ q. AssumesFewClauses (tree built.new.assembled.program.bank q.formula.0)) }
    ensures coded { IfOk result (HasCode built.new.assembled.program.bank built.old.assembled.program.constants.items) }
    ensures kept { Extends built.old.assembled.program.bank built.new.assembled.program.bank }
    ensures table { built.new.table ≡ built.old.table }
    ensures signature { built.new.signature ≡ built.old.signature }
    ensures constants { built.new.assembled.program.constants ≡ built.old.assembled.program.constants }
    ensures clauses { built.new.assembled.program.clauses ≡ built.old.assembled.program.clauses }
    ensures kinds { built.new.assembled.kinds ≡ built.old.assembled.kinds }
    ensures names { built.new.assembled.constants ≡ built.old.assembled.constants }
{
    match type_of(alloc, text, built) {
        Ok(typed) => Ok(typed),
        Err(cause) => Err(query_refused(alloc, text, cause)),
    }
}
