// What a module means.
ghost use Rattle.std.specs.Prelude.{◌≡◌, ◌≢◌, ◌+◌, ◌-◌, ◌<◌, ◌≤◌, ◌⊎◌, ℕ, Option, length, map, All, IfOk, IfErr, OnOk};
ghost use Rattle.std.specs.List.{range_with_len};
ghost use Rattle.lp_calculus.specs.Typing.{Scheme};
ghost use Rattle.lp_sig.specs.Pieces.{spelled};
ghost use Rattle.lp_module.specs.Meaning.{IsMeaning};
ghost use Rattle.lp_module.specs.Refusals.{IsRefusal, declaration_fault};
ghost use Rattle.lp_module.specs.Schemes.{declared_schemes};
ghost use Rattle.lp_module.specs.Sentences.{said, AreWithin};
ghost use Rattle.lp_module.specs.Words.{accumulate_words};
ghost use Rattle.lp_module.specs.inner.Judging.{AreHeads};
ghost use Rattle.lp_module.specs.inner.Numbered.{AreNumberedKinds, AreNumberedConstants};
ghost use Rattle.lp_module.specs.inner.Typed.{IsFormedIn, IsFirstUnformed};
ghost use Rattle.lp_module.specs.declared.fault.ModuleFault.TheVariants as fault;

use crate::fault::ModuleFault;
use crate::form::check_form;
use crate::heads::Heads;
use crate::measure::Measures;
use crate::module::Module;
use crate::sentences::{TypedSentence, closed_sentences, typed_sentences};
use crate::words::accumulated;
use lp_base::Memory;
use lp_infer::InferFault;
use lp_sig::{
    ConstantEntry, KindEntry, ModuleSigFault, SigFault, Signature, module_signature, spelled_at,
};
use lp_syntax::ModuleText;
use lp_term::{Bank, Changed, Same};
use std::alloc::Global;

// A header has the name of its file.
fn check_header(source: &[u8], text: &ModuleText, expected: &str) -> Result<(), ModuleFault>
    ensures same { OnOk result (spelled source.now text.now.header ≡ expected.now) }
    ensures refused { IfErr result (λ e. (spelled source.now text.now.header ≢ expected.now) × (e ≡ fault.Header text.now.header)) }
{
    if spelled_at(source, text.header) != expected.as_bytes() {
        return Err(ModuleFault::Header(text.header));
    }
    Ok(())
}

// A refusal of a module's declarations.
fn declaration_fault(fault: ModuleSigFault) -> ModuleFault
    ensures { result ≡ declaration_fault fault }
{
    match fault {
        ModuleSigFault::Sig(SigFault::Memory) => ModuleFault::Memory,
        ModuleSigFault::Sig(SigFault::Limit(limit)) => ModuleFault::Limit(limit),
        ModuleSigFault::Sig(SigFault::UnknownKind(spot)) => {
            ModuleFault::Sig(SigFault::UnknownKind(spot))
        }
        ModuleSigFault::Sig(SigFault::Arity(spot)) => ModuleFault::Sig(SigFault::Arity(spot)),
        ModuleSigFault::Sig(SigFault::Differ(spot)) => ModuleFault::Sig(SigFault::Differ(spot)),
        ModuleSigFault::Sig(SigFault::CyclicAbbreviation(spot)) => {
            ModuleFault::Sig(SigFault::CyclicAbbreviation(spot))
        }
        ModuleSigFault::Sig(SigFault::CyclicSignature(spot)) => {
            ModuleFault::Sig(SigFault::CyclicSignature(spot))
        }
        ModuleSigFault::Sig(SigFault::Header(spot)) => ModuleFault::Sig(SigFault::Header(spot)),
        ModuleSigFault::Exported(spot) => ModuleFault::Otherwise(spot),
        ModuleSigFault::Undeclared(spot) => ModuleFault::Infer(InferFault::Undeclared(spot)),
    }
}

// The number of a kind by its place.
fn kind_number(kinds: &[KindEntry], at: usize) -> u32
    requires at { at < length kinds.now }
    requires numbered { AreNumberedKinds kinds.now }
    ensures { result ≡ 8 + at }
{
    kinds[at].number
}

// The numbers of the kinds behind the exported ones.
fn kinds_behind(alloc: Global, exported: usize, kinds: &[KindEntry]) -> Result<Vec<u32>, Memory>
    requires { AreNumberedKinds kinds.now }
    ensures { IfOk result (λ numbers. numbers.items ≡ range_with_len (8 + exported) (length kinds.now - exported)) }
{
    let count = kinds.len().saturating_sub(exported);
    let mut numbers = Vec::new(alloc);
    for at in 0..count {
        let number = kind_number(kinds, exported + at);
        numbers.push(number)?;
    }
    Ok(numbers)
}

// The number of a constant by its place.
fn constant_number(constants: &[ConstantEntry], at: usize) -> u32
    requires at { at < length constants.now }
    requires numbered { AreNumberedConstants constants.now }
    ensures { result ≡ 32 + at }
{
    constants[at].number
}

// The numbers of the constants behind the exported ones.
fn constants_behind(
    alloc: Global,
    exported: usize,
    constants: &[ConstantEntry],
) -> Result<Vec<u32>, Memory>
    requires { AreNumberedConstants constants.now }
    ensures { IfOk result (λ numbers. numbers.items ≡ range_with_len (32 + exported) (length constants.now - exported)) }
{
    let count = constants.len().saturating_sub(exported);
    let mut numbers = Vec::new(alloc);
    for at in 0..count {
        let number = constant_number(constants, exported + at);
        numbers.push(number)?;
    }
    Ok(numbers)
}

// The words of accumulate, a repeated one as often as it stands.
fn uses_of(alloc: Global, source: &[u8], text: &ModuleText) -> Result<Vec<Vec<u8>>, Memory>
    ensures { IfOk result (λ uses. map (λ name. name.items) uses.items ≡ map (spelled source.now) (accumulate_words text.now.lines.items)) }
{
    let words = accumulated(alloc, text)?;
    let mut uses = Vec::new(alloc);
    for at in 0..words.len() {
        let name = Vec::from_slice(alloc, spelled_at(source, words[at]))?;
        uses.push(name)?;
    }
    Ok(uses)
}

// The limits and the form of each sentence. They are judged in a bank that is left behind, so that the module keeps no normal forms.
fn check_each(
    alloc: Global,
    heads: &Heads,
    bank: &Bank,
    sentences: &[TypedSentence],
) -> Result<(), ModuleFault>
    ensures formed { OnOk result ((d : ℕ → Option Scheme) → AreHeads d heads.now → All (IsFormedIn d bank.now) sentences.now) }
    ensures refused { IfErr result (λ e. (d : ℕ → Option Scheme) → AreHeads d heads.now → (e ≡ fault.Memory) ⊎ IsFirstUnformed d bank.now sentences.now e) }
{
    let mut copied = Changed::new(alloc);
    let mut scratch = Bank::new(alloc);
    let mut measures = Measures::new(alloc);
    for at in 0..sentences.len() {
        let sentence = &sentences[at];
        let formula = copied.copy(alloc, &Same, bank, sentence.typed.formula, &mut scratch)?;
        check_form(
            alloc,
            &mut scratch,
            heads,
            &mut measures,
            false,
            sentence.typed.type_vars,
            formula,
            sentence.first,
        )?;
    }
    Ok(())
}

fn check_clauses(
    alloc: Global,
    signature: &Signature,
    bank: &Bank,
    sentences: &[TypedSentence],
) -> Result<(), ModuleFault>
    ensures formed { OnOk result (All (IsFormedIn (declared_schemes signature.now) bank.now) sentences.now) }
    ensures refused { IfErr result (λ e. (e ≡ fault.Memory) ⊎ IsFirstUnformed (declared_schemes signature.now) bank.now sentences.now e) }
{
    let heads = Heads::of(alloc, signature)?;
    check_each(alloc, &heads, bank, sentences)?;
    Ok(())
}

/// What a module means. `used` has one signature for each different word of the text's accum_sig sentences, by first place, then one for each
/// different word of its accumulate sentences, by first place; `own` is the module's own signature. `expected` is the name of its file.
///
/// # Errors
/// The header goes first, then the first fault of the declarations in text order; then the sentences: more than 255 arguments as
/// written and the faults of typing, sentence by sentence; then the limits on the beta-normal form and the form of clauses, sentence by
/// sentence.
pub fn elaborate(
    alloc: Global,
    source: &[u8],
    text: &ModuleText,
    expected: &str,
    own: &Signature,
    used: &[Signature],
) -> Result<Module, ModuleFault>
    ensures meaning { IfOk result (IsMeaning source.now text.now expected.now own.now used.now) }
    ensures header { OnOk result (spelled source.now text.now.header ≡ expected.now) }
    ensures name { IfOk result (λ m. m.name.items ≡ expected.now) }
    ensures uses { IfOk result (λ m. map (λ name. name.items) m.uses.items ≡ map (spelled source.now) (accumulate_words text.now.lines.items)) }
    ensures hidden_kinds { IfOk result (λ m. m.hidden_kinds.items ≡ range_with_len (8 + length own.now.kinds.items) (length m.signature.kinds.items - length own.now.kinds.items)) }
    ensures hidden_constants { IfOk result (λ m. m.hidden_constants.items ≡ range_with_len (32 + length own.now.constants.items) (length m.signature.constants.items - length own.now.constants.items)) }
    ensures count { IfOk result (λ m. length m.clauses.items ≡ length (said text.now.lines.items)) }
    ensures clauses { IfOk result (λ m. AreWithin m.bank m.clauses.items) }
    ensures refused { IfErr result (IsRefusal source.now text.now expected.now own.now used.now) }
{
    check_header(source, text, expected)?;
    let signature = match module_signature(alloc, source, text, own, used) {
        Ok(signature) => signature,
        Err(fault) => return Err(declaration_fault(fault)),
    };
    let mut bank = Bank::new(alloc);
    let sentences = typed_sentences(alloc, &signature, source, text, &mut bank)?;
    let clauses = closed_sentences(alloc, &mut bank, sentences.as_slice())?;
    check_clauses(alloc, &signature, &bank, sentences.as_slice())?;
    let name = Vec::from_slice(alloc, expected.as_bytes())?;
    let uses = uses_of(alloc, source, text)?;
    let hidden_kinds = kinds_behind(alloc, own.kinds().len(), signature.kinds())?;
    let hidden_constants = constants_behind(alloc, own.constants().len(), signature.constants())?;
    Ok(Module {
        name,
        signature,
        hidden_kinds,
        hidden_constants,
        uses,
        bank,
        clauses,
    })
}
