// What all signatures mean.
ghost use Rattle.std.specs.Prelude.{◌≡◌, ◌⊎◌, ◌<◌, ◌≤◌, ◌^◌, ◌++◌, ◌∷◌, [], ℕ, List, length, nat_eq, Some, Err, true, false, IfErr, IfOk, IfSome, OnOk, if◌then◌else◌};
ghost use Rattle.indexmap.specs.IndexMap.{get};
ghost use Rattle.lp_syntax.specs.declared.text.SignatureText.{SignatureText};
ghost use Rattle.lp_sig.specs.Refusals.{IsAt};
ghost use Rattle.lp_base.specs.declared.place.Spot.{Spot};
ghost use Rattle.lp_sig.specs.declared.fault.SigFault.TheVariants as sig;
ghost use Rattle.lp_build.specs.Faults.{IsOfTexts};
ghost use Rattle.lp_build.specs.Refused.{AreAllDeclared, IsSignaturesFault, of_signature};
ghost use Rattle.lp_build.specs.declared.fault.BuildFault.TheVariants as fault;
ghost use Rattle.lp_build.specs.Meant.{AreSignaturesOf, IsSignatureOf};
ghost use Rattle.lp_build.specs.declared.texts.Group.{Group};
ghost use Rattle.lp_build.specs.inner.Linked.{AreDeclared, AreMade, IsCopy, IsNoted};
ghost use Rattle.lp_build.specs.inner.Refusing.{IsOther, IsTaken};

use crate::fault::BuildFault;
use crate::sources::as_number;
use crate::texts::{Group, found_at};
use indexmap::IndexMap;
use lp_base::Memory;
use lp_sig::{SigFault, Signature, elaborate};
use lp_syntax::SignatureText;
use std::alloc::Global;

// What the signatures mean, with the numbers of their files.
#[derive(Drop)]
pub(crate) struct Signatures {
    made: Vec<Signature>,
    places: IndexMap<usize, usize>,
}

// One more place.
fn put_place(places: &mut IndexMap<usize, usize>, number: usize, place: usize) -> Result<(), Memory>
    ensures { OnOk result ((n : ℕ) → get nat_eq places.new n ≡ (if nat_eq number n then Some place else get nat_eq places.old n)) }
{
    places.insert(number, place)?;
    Ok(())
}

// The places of files in a group, by number.
fn places_of(alloc: Global, numbers: &Vec<usize>) -> Result<IndexMap<usize, usize>, Memory>
    ensures { IfOk result (λ places. (number place : ℕ) → get nat_eq places number ≡ Some place → IsAt numbers.now.items place number) }
{
    let mut places = IndexMap::new(alloc);
    for place in 0..numbers.len() {
        let number = numbers[place];
        put_place(&mut places, number, place)?;
    }
    Ok(places)
}

// Whether a fault is neither a circle nor want of memory.
fn is_other(fault: SigFault) -> bool
    ensures other { result ≡ true → IsOther fault }
    ensures circle { result ≡ false → (fault ≡ sig.Memory) ⊎ ((w : Spot) × (fault ≡ sig.CyclicSignature w)) }
{
    match fault {
        SigFault::Memory | SigFault::CyclicSignature(_) => false,
        SigFault::UnknownKind(_)
        | SigFault::Arity(_)
        | SigFault::Differ(_)
        | SigFault::CyclicAbbreviation(_)
        | SigFault::Limit(_)
        | SigFault::Header(_) => true,
    }
}

// A fault of a signature as it is told.
fn signature_fault(fault: SigFault) -> BuildFault
    ensures same { result ≡ of_signature fault }
    ensures texts { IsOfTexts result }
{
    match fault {
        SigFault::Limit(limit) => BuildFault::Limit(limit),
        SigFault::Memory => BuildFault::Memory,
        SigFault::UnknownKind(spot) => BuildFault::Sig(SigFault::UnknownKind(spot)),
        SigFault::Arity(spot) => BuildFault::Sig(SigFault::Arity(spot)),
        SigFault::Differ(spot) => BuildFault::Sig(SigFault::Differ(spot)),
        SigFault::CyclicAbbreviation(spot) => {
            BuildFault::Sig(SigFault::CyclicAbbreviation(spot))
        }
        SigFault::CyclicSignature(spot) => BuildFault::Sig(SigFault::CyclicSignature(spot)),
        SigFault::Header(spot) => BuildFault::Sig(SigFault::Header(spot)),
    }
}

// Takes what was answered of a signature. A circle of accum_sig is refused at once, of the other faults the first one at the end.
fn note(
    made: &mut Vec<Signature>,
    refused: &mut Option<SigFault>,
    answer: Result<Signature, SigFault>,
) -> Result<(), BuildFault>
    ensures refused { IfErr result IsOfTexts }
    ensures told { IfErr result (λ e. (e ≡ fault.Memory) ⊎ ((w : Spot) × (answer ≡ Err (sig.CyclicSignature w)) × (e ≡ fault.Sig (sig.CyclicSignature w)))) }
    ensures taken { OnOk result (IsTaken answer refused.old refused.new) }
    ensures noted { OnOk result (IsNoted answer made.old.items made.new.items refused.old refused.new) }
{
    match answer {
        Ok(signature) => {
            made.push(signature)?;
            Ok(())
        }
        Err(fault) => {
            if !is_other(fault) {
                return Err(signature_fault(fault));
            }
            if refused.is_some() {
                return Ok(());
            }
            *refused = Some(fault);
            Ok(())
        }
    }
}

// What the signatures mean, in load order. A circle of accum_sig goes before all other faults; else the first fault is refused.
fn elaborate_all(alloc: Global, group: &Group<SignatureText>) -> Result<Vec<Signature>, BuildFault>
    ensures refused { IfErr result IsOfTexts }
    ensures cause { length group.now.texts.items ≤ 2 ^ 32 → IfErr result (IsSignaturesFault group.now) }
    ensures made { length group.now.texts.items ≤ 2 ^ 32 → IfOk result (λ made. AreMade group.now made.items (length group.now.texts.items)) }
{
    let names = group.names.as_slice();
    let sources = group.sources.as_slice();
    let texts = group.texts.as_slice();
    let mut made = Vec::new(alloc);
    let mut refused = None;
    for root in 0..group.texts.len() {
        let answer = elaborate(alloc, names, sources, texts, as_number(root));
        note(&mut made, &mut refused, answer)?;
    }
    match refused {
        Some(fault) => Err(signature_fault(fault)),
        None => Ok(made),
    }
}

// A signature with the same entries.
fn copy_of(alloc: Global, signature: &Signature) -> Result<Signature, Memory>
    ensures { IfOk result (IsCopy signature.now) }
{
    let copy = Signature::from_entries(
        alloc,
        signature.bank(),
        signature.kinds(),
        signature.constants(),
        signature.abbreviations(),
        signature.fixities(),
    )?;
    Ok(copy)
}

impl Signatures {
    pub(crate) fn of(alloc: Global, group: &Group<SignatureText>) -> Result<Signatures, BuildFault>
        ensures refused { IfErr result IsOfTexts }
        ensures cause { length group.now.texts.items ≤ 2 ^ 32 → IfErr result (IsSignaturesFault group.now) }
        ensures declared { length group.now.texts.items ≤ 2 ^ 32 → IfOk result (AreDeclared group.now) }
        ensures every { length group.now.texts.items ≤ 2 ^ 32 → IfOk result (λ _. AreAllDeclared group.now) }
    {
        let made = elaborate_all(alloc, group)?;
        let places = places_of(alloc, &group.numbers)?;
        Ok(Signatures { made, places })
    }

    // The signature whose file has this number.
    pub(crate) fn get(&self, number: usize) -> Option<&Signature>
        ensures { (g : Group SignatureText) → AreDeclared g self.now → IfSome result (λ s. IsSignatureOf g number s.now) }
    {
        let Some(place) = self.places.get(&number) else {
            return None;
        };
        found_at(&self.made, *place)
    }

    // Adds a copy of the signature of this number.
    fn copy_one(
        &self,
        alloc: Global,
        number: usize,
        copies: &mut Vec<Signature>,
    ) -> Result<(), Memory>
        ensures { (g : Group SignatureText) → AreDeclared g self.now → OnOk result ((s : Signature) × IsSignatureOf g number s × (copies.new.items ≡ copies.old.items ++ s ∷ [])) }
    {
        let Some(signature) = self.get(number) else {
            return Err(Memory);
        };
        copies.push(copy_of(alloc, signature)?)?;
        Ok(())
    }

    // Adds copies of the signatures of these numbers.
    pub(crate) fn copy_into(
        &self,
        alloc: Global,
        numbers: &[usize],
        copies: &mut Vec<Signature>,
    ) -> Result<(), Memory>
        ensures { (g : Group SignatureText) (ns : List ℕ) → AreDeclared g self.now → AreSignaturesOf g ns copies.old.items → OnOk result (AreSignaturesOf g (ns ++ numbers.now) copies.new.items) }
    {
        for at in 0..numbers.len() {
            self.copy_one(alloc, numbers[at], copies)?;
        }
        Ok(())
    }
}
