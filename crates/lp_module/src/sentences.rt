// The sentences of a module: their typing, and the closed formulas.
ghost use Rattle.std.specs.Prelude.{◌≡◌, ◌≤◌, ◌<◌, ◌⊎◌, [], ◌∷◌, length, get_or, All, true, false, IfOk, IfErr};
ghost use Rattle.lp_base.specs.declared.limits.TheConstants.{MAX_ARGUMENTS};
ghost use Rattle.lp_calculus.specs.Term.{abs};
ghost use Rattle.lp_standard.specs.Connectives.{pi_of};
ghost use Rattle.lp_infer.specs.Refusals.{Stands};
ghost use Rattle.lp_term.specs.Nodes.{Extends, tree, type_tree};
ghost use Rattle.lp_module.specs.Arguments.{own_count, HasManyArguments};
ghost use Rattle.lp_module.specs.Refusals.{IsTypingFault, IsUntyped};
ghost use Rattle.lp_module.specs.Sentences.{said};
ghost use Rattle.lp_module.specs.inner.Typed.{IsSentence, AreSentences, IsClosed, AreClosed, AreStanding};
ghost use Rattle.lp_module.specs.declared.fault.ModuleFault.TheVariants as fault;

use crate::fault::ModuleFault;
use lp_base::{Limit, MAX_ARGUMENTS, Memory, Spot};
use lp_infer::{InferFault, type_formula};
use lp_model::{ClauseFormula, Typed};
use lp_sig::Signature;
use lp_syntax::{ModuleText, RawNode, RawTerm, Sentence};
use lp_term::{Bank, TermId, TypeId, put_abstraction, put_applied, put_constant};
use std::alloc::Global;

// The standard constant `pi`.
const PI: u32 = 4;

/// A typed sentence with the spot of its first token.
#[derive(Drop)]
pub(crate) struct TypedSentence {
    pub first: Spot,
    pub typed: Typed,
}

// How many arguments the head at a place has.
fn count_at(counts: &Vec<u64>, place: usize) -> u64
    ensures { result ≡ get_or counts.now.items place 0 }
{
    match counts.get(place) {
        None => 0,
        Some(count) => *count,
    }
}

// How many arguments the head of a node has, behind the nodes before it.
fn own_count(counts: &Vec<u64>, node: &RawNode) -> u64
    requires { All (λ k. k ≤ MAX_ARGUMENTS) counts.now.items }
    ensures { result ≡ own_count counts.now.items node.now }
{
    match node {
        RawNode::App(head, _) => count_at(counts, *head) + 1,
        RawNode::Name(_) => 0,
        RawNode::Known(_, _) => 0,
        RawNode::Number(_, _) => 0,
        RawNode::Text(_) => 0,
        RawNode::Abs(_, _, _) => 0,
    }
}

/// Whether a term as written has more than 255 arguments on one head.
pub fn has_many_arguments(alloc: Global, raw: &RawTerm) -> Result<bool, Memory>
    ensures many { IfOk result (λ many. many ≡ true → HasManyArguments raw.now) }
    ensures few { IfOk result (λ many. many ≡ false → HasManyArguments raw.now → ⊥) }
{
    let mut counts = Vec::new(alloc);
    for at in 0..raw.nodes.len() {
        let count = own_count(&counts, &raw.nodes[at]);
        if count > MAX_ARGUMENTS as u64 {
            return Ok(true);
        }
        counts.push(count)?;
    }
    Ok(false)
}

fn typed_sentence(
    alloc: Global,
    signature: &Signature,
    source: &[u8],
    raw: &RawTerm,
    bank: &mut Bank,
) -> Result<TypedSentence, ModuleFault>
    ensures kept { Extends bank.old bank.new }
    ensures sentence { IfOk result (IsSentence signature.now source.now raw.now bank.new) }
    ensures refused { IfErr result (IsTypingFault signature.now source.now raw.now) }
{
    if has_many_arguments(alloc, raw)? {
        return Err(ModuleFault::Limit(Limit::Arguments));
    }
    match type_formula(alloc, signature, source, raw, bank) {
        Ok(typed) => Ok(TypedSentence {
            first: raw.first,
            typed,
        }),
        Err(InferFault::Memory) => Err(ModuleFault::Memory),
        Err(InferFault::Undeclared(spot)) => Err(ModuleFault::Infer(InferFault::Undeclared(spot))),
        Err(InferFault::NoTyping(spot)) => Err(ModuleFault::Infer(InferFault::NoTyping(spot))),
    }
}

/// The typed sentences of a module, in text order.
pub(crate) fn typed_sentences(
    alloc: Global,
    signature: &Signature,
    source: &[u8],
    text: &ModuleText,
    bank: &mut Bank,
) -> Result<Vec<TypedSentence>, ModuleFault>
    ensures kept { Extends bank.old bank.new }
    ensures sentences { IfOk result (λ sentences. AreSentences signature.now source.now bank.new (said text.now.lines.items) sentences.items) }
    ensures refused { IfErr result (λ e. (e ≡ fault.Memory) ⊎ IsUntyped signature.now source.now text.now.lines.items e) }
{
    let mut sentences = Vec::new(alloc);
    for at in 0..text.lines.len() {
        let line = &text.lines[at];
        match line {
            Sentence::Declares(_) => continue,
            Sentence::Says(raw) => {
                let sentence = typed_sentence(alloc, signature, source, raw, bank)?;
                sentences.push(sentence)?;
            }
        }
    }
    Ok(sentences)
}

// `pi x\ body` at a type.
fn put_pi(bank: &mut Bank, at: TypeId, body: TermId) -> Result<TermId, Memory>
    requires at { at.0 < length bank.old.types }
    ensures kept { Extends bank.old bank.new }
    ensures within { IfOk result (λ id. id.0 < length bank.new.terms) }
    ensures tree { IfOk result (λ id. tree bank.new id.0 ≡ pi_of (type_tree bank.old at.0) (abs (tree bank.old body.0))) }
{
    let inner = put_abstraction(bank, body)?;
    let head = put_constant(bank, PI, &[at])?;
    let made = put_applied(bank, head, inner)?;
    Ok(made)
}

// The formula of a sentence, its variables closed by `pi`, the first outermost.
fn closed(bank: &mut Bank, typed: &Typed) -> Result<ClauseFormula, Memory>
    requires { Stands bank.old typed.now }
    ensures kept { Extends bank.old bank.new }
    ensures closed { IfOk result (IsClosed bank.new typed.now) }
{
    let count = typed.vars.len();
    let mut formula = typed.formula;
    for at in 0..count {
        let variable = typed.vars[count - 1 - at];
        formula = put_pi(bank, variable.1, formula)?;
    }
    Ok(ClauseFormula {
        type_vars: typed.type_vars.min(u32::MAX as u64) as u32,
        formula,
    })
}

/// The closed formulas of sentences, in order.
pub(crate) fn closed_sentences(
    alloc: Global,
    bank: &mut Bank,
    sentences: &[TypedSentence],
) -> Result<Vec<ClauseFormula>, Memory>
    requires { AreStanding bank.old sentences.now }
    ensures kept { Extends bank.old bank.new }
    ensures closed { IfOk result (λ clauses. AreClosed bank.new sentences.now clauses.items) }
{
    let mut clauses = Vec::new(alloc);
    for at in 0..sentences.len() {
        let clause = closed(bank, &sentences[at].typed)?;
        clauses.push(clause)?;
    }
    Ok(clauses)
}
