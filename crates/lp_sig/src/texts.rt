// From texts to a signature.
ghost use Rattle.std.specs.Prelude.{◌≡◌, ◌≢◌, ◌<◌, ◌⊎◌, ◌++◌, ℕ, List, length, IfOk, IfErr, OnOk, map, string_bytes};
ghost use Rattle.lp_sig.specs.Pieces.{spelled};
ghost use Rattle.lp_standard.specs.declared.fixity.Fixity.{Fixity};
ghost use Rattle.lp_sig.specs.Rows.{Row, kind_row, fixity_row};
ghost use Rattle.lp_sig.specs.Said.{fixities_in, of_text, of_step};
ghost use Rattle.lp_sig.specs.Knowing.{KnowsOperators};
ghost use Rattle.lp_sig.specs.Walking.{HasText};
ghost use Rattle.lp_sig.specs.Refusals.{HasItsHeader, HasOtherHeader, IsAtFault, AreTaken, IsStepTaken, IsStepRefused, IsRefusal, IsAccepted};
ghost use Rattle.lp_sig.specs.declared.fault.SigFault.TheVariants as fault;
ghost use Rattle.lp_sig.specs.Abbreviations.{Seen, one_text};
ghost use Rattle.lp_sig.specs.Constants.{Written, KnowsConstants};
ghost use Rattle.lp_sig.specs.Holding.{KnowsSeen, Follows};
ghost use Rattle.lp_sig.specs.Declares.{AreAllTyped, Declares};

use crate::fault::SigFault;
use crate::making::Making;
use crate::pieces::spelled_at;
use crate::signature::Signature;
use crate::walk::{Step, Ways};
use lp_base::Memory;
use lp_syntax::SignatureText;
use std::alloc::Global;

// A header has the name of its file.
fn check_header(name: &String, source: &[u8], text: &SignatureText) -> Result<(), SigFault>
    ensures other { IfErr result (λ e. (e ≡ fault.Header text.now.header) × (spelled source.now text.now.header ≢ string_bytes name.now)) }
    ensures same { IfOk result (λ done. spelled source.now text.now.header ≡ string_bytes name.now) }
{
    if spelled_at(source, text.header) != name.as_bytes() {
        return Err(SigFault::Header(text.header));
    }
    Ok(())
}

// The header of a signature.
fn enter(
    names: &[String],
    sources: &[Vec<u8>],
    texts: &[SignatureText],
    at: usize,
) -> Result<(), SigFault>
    requires source { at < length sources.now }
    requires text { at < length texts.now }
    ensures refused { IfErr result (λ e. (e ≡ fault.Memory) ⊎ HasOtherHeader names.now sources.now texts.now at e) }
    ensures taken { IfOk result (λ done. HasItsHeader names.now sources.now texts.now at) }
{
    let Some(name) = names.get(at) else {
        return Err(SigFault::Memory);
    };
    check_header(name, sources[at].as_slice(), &texts[at])
}

// The declarations of a signature.
fn declare(
    making: &mut Making,
    sources: &[Vec<u8>],
    texts: &[SignatureText],
    at: usize,
) -> Result<(), SigFault>
    requires source { at < length sources.now }
    requires text { at < length texts.now }
    ensures refused { (z : Seen) (rows : List (Row Written)) → KnowsSeen making.old z → KnowsConstants making.old.bodies.types.bank making.old.constants z.said z.definitions rows → AreAllTyped making.old z rows → IfErr result (λ e. (e ≡ fault.Memory) ⊎ IsAtFault sources.now texts.now z rows at e) }
    ensures constants { OnOk result (Declares making.old making.new (of_text one_text sources.now texts.now at)) }
    ensures taken { (z : Seen) (rows : List (Row Written)) → KnowsSeen making.old z → KnowsConstants making.old.bodies.types.bank making.old.constants z.said z.definitions rows → AreAllTyped making.old z rows → IfOk result (λ done. AreTaken sources.now texts.now z rows at) }
    ensures seen { OnOk result (Follows making.old making.new (of_text one_text sources.now texts.now at)) }
    ensures operators { OnOk result ((said : List (Row (Fixity × ℕ))) → KnowsOperators making.old.operators said → KnowsOperators making.new.operators (said ++ of_text fixities_in sources.now texts.now at)) }
{
    making.declare(sources[at].as_slice(), &texts[at])
}

// Takes a step.
fn take(
    making: &mut Making,
    names: &[String],
    sources: &[Vec<u8>],
    texts: &[SignatureText],
    step: Step,
) -> Result<(), SigFault>
    requires { HasText sources.now texts.now step }
    ensures refused { (z : Seen) (rows : List (Row Written)) → KnowsSeen making.old z → KnowsConstants making.old.bodies.types.bank making.old.constants z.said z.definitions rows → AreAllTyped making.old z rows → IfErr result (λ e. (e ≡ fault.Memory) ⊎ IsStepRefused names.now sources.now texts.now z rows step e) }
    ensures constants { OnOk result (Declares making.old making.new (of_step one_text sources.now texts.now step)) }
    ensures taken { (z : Seen) (rows : List (Row Written)) → KnowsSeen making.old z → KnowsConstants making.old.bodies.types.bank making.old.constants z.said z.definitions rows → AreAllTyped making.old z rows → IfOk result (λ done. IsStepTaken names.now sources.now texts.now z rows step) }
    ensures seen { OnOk result (Follows making.old making.new (of_step one_text sources.now texts.now step)) }
    ensures operators { OnOk result ((said : List (Row (Fixity × ℕ))) → KnowsOperators making.old.operators said → KnowsOperators making.new.operators (said ++ of_step fixities_in sources.now texts.now step)) }
{
    match step {
        Step::Enter(at) => enter(names, sources, texts, at),
        Step::Declare(at) => declare(making, sources, texts, at),
    }
}

/// The signature of the text of number `root`: its declarations are those of the signatures that it names by accum_sig, in
/// order, then its own. A signature is found by its name in `names`; a word that is no such name is passed over.
///
/// # Errors
/// `CyclicSignature` at the first word of accum_sig that leads back to the signature in which it stands goes first. Else the
/// first fault in text order: of each signature its header, then the signatures that it names, then its own declarations.
pub fn elaborate(
    alloc: Global,
    names: &[String],
    sources: &[Vec<u8>],
    texts: &[SignatureText],
    root: u32,
) -> Result<Signature, SigFault>
    ensures refused { IfErr result (IsRefusal names.now sources.now texts.now root) }
    ensures accepted { IfOk result (λ s. IsAccepted names.now sources.now texts.now root (map kind_row s.kinds.items) (map fixity_row s.fixities.items) s.bank s.abbreviations.items s.constants.items) }
{
    let ways = Ways::of(alloc, names, sources, texts)?;
    let steps = ways.steps(alloc, root as usize)?;
    ways.check_circles(alloc, steps.as_slice())?;
    let mut making = Making::new(alloc);
    for step in &steps {
        take(&mut making, names, sources, texts, *step)?;
    }
    let signature = making.finish()?;
    Ok(signature)
}
