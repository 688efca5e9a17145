// What the declarations of a text say, line by line.
ghost use Rattle.std.specs.Prelude.{◌<◌, ◌≤◌, ◌≡◌, ◌⊎◌, ◌++◌, ℕ, List, length, Contains, IfErr, IfOk, OnOk, Some, map};
ghost use Rattle.lp_base.specs.declared.limit.Limit.TheVariants as limit;
ghost use Rattle.lp_sig.specs.declared.fault.SigFault.TheVariants as fault;
ghost use Rattle.lp_sig.specs.Pieces.{spelled};
ghost use Rattle.lp_sig.specs.Refusals.{IsFaultIn};
ghost use Rattle.lp_standard.specs.declared.fixity.Fixity.{Fixity as IsFixity};
ghost use Rattle.lp_sig.specs.Rows.{Row};
ghost use Rattle.lp_sig.specs.Said.{Said, a_kind, an_abbreviation, each, fixities_by, fixities_in};
ghost use Rattle.lp_sig.specs.Words.{IsNameFault, IsMeant, AreMeant, IsNumbered, AreNumbered, IsKindsFault, IsSoundType};
ghost use Rattle.lp_sig.specs.Standing.{seen_count, AllStand, TypeStands};
ghost use Rattle.lp_sig.specs.Faults.{IsAbbreviationFault, IsSoundAbbreviation, HasFirstBody, IsSentenceFault, IsSound, AreSound};
ghost use Rattle.lp_sig.specs.Declares.{AreAllTyped};
ghost use Rattle.lp_sig.specs.Knowing.{Knows, KnowsOperators};
ghost use Rattle.lp_sig.specs.Limits.{IsShort, AreShort, AreApart, IsWithin, AreWithin};
ghost use Rattle.lp_base.specs.declared.place.Spot.{Spot};
ghost use Rattle.lp_base.specs.declared.limits.TheConstants.{MAX_ARGUMENTS, MAX_NAME_BYTES};
ghost use Rattle.lp_term.specs.Nodes.{Extends};
ghost use Rattle.lp_sig.specs.Places.{first_place};
ghost use Rattle.lp_sig.specs.Abbreviations.{abbreviation_names, Seen, KnowsUses, seen_text};
ghost use Rattle.lp_sig.specs.Holding.{Sees, KnowsSeen, HoldsBodies};
ghost use Rattle.lp_sig.specs.Types.{Definition};
ghost use Rattle.lp_sig.specs.Sighted.{GrowsBehind};
ghost use Rattle.lp_sig.specs.ModuleFaults.{AreConstantsWrong, IsAbbreviationWrong};
ghost use Rattle.lp_sig.specs.Worded.{HasWords};
ghost use Rattle.lp_calculus.specs.Types.{Ty};
ghost use Rattle.lp_sig.specs.Differing.{HasNameCause, HasTypeCause, IsOtherBodyIf};
ghost use Rattle.lp_sig.specs.inner.Reading.{Reads};
ghost use Rattle.lp_sig.specs.inner.Taking.{IsTaking, Takes};
ghost use Rattle.lp_sig.specs.Constants.{Written, written_in, constants_by, constants_in, KnowsConstants, AreSettledIf, AreTypedIf, AreTakenConstants, HasFewVariables, IsConstantsFault};

use crate::bodies::Bodies;
use crate::constants::Constants;
use crate::expand::Variables;
use crate::fault::SigFault;
use crate::making::Making;
use crate::names::{Meaning, Names};
use crate::pieces::spelled_at;
use crate::uses::uses_of;
use crate::walk::Ways;
use lp_base::{END_OF_NUMBERS, Limit, MAX_ARGUMENTS, MAX_NAME_BYTES, Spot};
use lp_syntax::{Declaration, RawType, SignatureText};

// A declared name has at most 255 bytes.
pub(crate) fn check_length(source: &[u8], name: Spot) -> Result<(), SigFault>
    ensures long { IfErr result (λ e. (e ≡ fault.Limit limit.NameLength) × (MAX_NAME_BYTES < length (spelled source.now name))) }
    ensures taken { IfOk result (λ done. IsShort source.now name) }
{
    if spelled_at(source, name).len() > MAX_NAME_BYTES {
        return Err(SigFault::Limit(Limit::NameLength));
    }
    Ok(())
}

pub(crate) fn check_lengths(source: &[u8], names: &[Spot]) -> Result<(), SigFault>
    ensures long { IfErr result (λ e. (e ≡ fault.Limit limit.NameLength) × ((s : Spot) × Contains names.now s × (MAX_NAME_BYTES < length (spelled source.now s)))) }
    ensures taken { IfOk result (λ done. AreShort source.now names.now) }
{
    for name in names {
        check_length(source, *name)?;
    }
    Ok(())
}

impl Names {
    // A kind has the count of arguments with which it was announced first.
    pub(crate) fn declare_kind(&self, source: &[u8], name: Spot, arity: u32) -> Result<(), SigFault>
        ensures why { (said : List (Row Said)) → Knows self.now said → IfErr result (IsNameFault source.now said (a_kind arity) name) }
        ensures taken { IfOk result (λ done. IsShort source.now name) }
        ensures meant { (said : List (Row Said)) → Knows self.now said → IfOk result (λ done. IsMeant source.now said (a_kind arity) name × IsNumbered source.now said name) }
    {
        check_length(source, name)?;
        match self.meaning(spelled_at(source, name)) {
            Some(Meaning::Kind(number, known)) => {
                if known != arity {
                    return Err(SigFault::Differ(name));
                }
                if number >= END_OF_NUMBERS {
                    return Err(SigFault::Limit(Limit::Names));
                }
                Ok(())
            }
            Some(Meaning::Abbreviation(_)) => Err(SigFault::Differ(name)),
            None => Err(SigFault::Differ(name)),
        }
    }

    pub(crate) fn declare_kinds(
        &self,
        source: &[u8],
        names: &[Spot],
        arity: u32,
    ) -> Result<(), SigFault>
        ensures why { (said : List (Row Said)) → Knows self.now said → IfErr result (IsKindsFault source.now said names.now arity) }
        ensures meant { (said : List (Row Said)) → Knows self.now said → IfOk result (λ done. AreMeant source.now said (a_kind arity) names.now × AreNumbered source.now said names.now) }
        ensures taken { IfOk result (λ done. AreShort source.now names.now × (arity ≤ MAX_ARGUMENTS)) }
    {
        for name in names {
            self.declare_kind(source, *name, arity)?;
        }
        if arity > MAX_ARGUMENTS as u32 {
            return Err(SigFault::Limit(Limit::Arguments));
        }
        Ok(())
    }

    // An abbreviation that was declared before has as many parameters.
    fn check_abbreviation(
        &self,
        source: &[u8],
        name: Spot,
        parameters: usize,
    ) -> Result<usize, SigFault>
        ensures why { (said : List (Row Said)) → Knows self.now said → IfErr result (IsNameFault source.now said (an_abbreviation parameters) name) }
        ensures taken { IfOk result (λ done. IsShort source.now name) }
        ensures meant { (said : List (Row Said)) → Knows self.now said → IfOk result (λ place. IsMeant source.now said (an_abbreviation parameters) name) }
        ensures place { IfOk result (λ place. (said : List (Row Said)) → Knows self.now said → first_place (spelled source.now name) (abbreviation_names said) ≡ Some place) }
    {
        check_length(source, name)?;
        match self.meaning(spelled_at(source, name)) {
            Some(Meaning::Abbreviation(place)) => match self.heads.get(place) {
                Some(known) => {
                    if known.parameters != parameters {
                        return Err(SigFault::Differ(name));
                    }
                    Ok(place)
                }
                None => Err(SigFault::Differ(name)),
            },
            Some(Meaning::Kind(_, _)) => Err(SigFault::Differ(name)),
            None => Err(SigFault::Differ(name)),
        }
    }
}

// A long name goes first, then a fault of the type, since without it there is no type to compare.
pub(crate) fn declare_constants(
    names: &Names,
    bodies: &mut Bodies,
    constants: &mut Constants,
    source: &[u8],
    spots: &[Spot],
    raw: &RawType,
) -> Result<(), SigFault>
    ensures taken { IfOk result (λ done. AreShort source.now spots.now) }
    ensures reason { (said : List (Row Said)) → Knows names.now said → IfErr result (λ e. (e ≡ fault.Memory) ⊎ AreConstantsWrong source.now said spots.now raw.now e) }
    ensures stand { (said : List (Row Said)) → Knows names.now said → IfOk result (λ done. IsSoundType source.now said raw.now) }
    ensures kept { Extends bodies.old.types.bank bodies.new.types.bank }
    ensures grown { OnOk result (GrowsBehind constants.old constants.new) }
    ensures bodies { bodies.new.bodies ≡ bodies.old.bodies }
    ensures constants { OnOk result ((said : List (Row Said)) (defs : List (Row Definition)) (rows : List (Row Written)) → Knows names.now said → HoldsBodies bodies.old.types.bank bodies.old.bodies.items said defs → KnowsConstants bodies.old.types.bank constants.old said defs rows → KnowsConstants bodies.new.types.bank constants.new said defs (rows ++ each source.now (written_in source.now raw.now) spots.now)) }
    ensures exact { (from : ℕ) (z : Seen) (rows : List (Row Written)) → Knows names.now z.said → HoldsBodies bodies.old.types.bank bodies.old.bodies.items z.said z.definitions → AreSettledIf from z bodies.old.bodies.items → KnowsConstants bodies.old.types.bank constants.old z.said z.definitions rows → AreTypedIf from z rows constants.old → IfErr result (IsConstantsFault from source.now z rows spots.now raw.now) }
    ensures few { (from : ℕ) (z : Seen) → Knows names.now z.said → HoldsBodies bodies.old.types.bank bodies.old.bodies.items z.said z.definitions → AreSettledIf from z bodies.old.bodies.items → IfOk result (λ done. TypeStands from z source.now raw.now → HasFewVariables z.said z.definitions (written_in source.now raw.now)) }
    ensures declared { (from : ℕ) (z : Seen) (rows : List (Row Written)) → Knows names.now z.said → HoldsBodies bodies.old.types.bank bodies.old.bodies.items z.said z.definitions → AreSettledIf from z bodies.old.bodies.items → KnowsConstants bodies.old.types.bank constants.old z.said z.definitions rows → AreTypedIf from z rows constants.old → IfOk result (λ done. AreTypedIf from z (rows ++ each source.now (written_in source.now raw.now) spots.now) constants.new × AreTakenConstants from z rows (each source.now (written_in source.now raw.now) spots.now)) }
    ensures words { OnOk result ((words : List (List ℕ)) → HasWords constants.old words → HasWords constants.new (words ++ map (λ s. spelled source.now s) spots.now)) }
    ensures reads { OnOk result (Reads names.now bodies.old constants.old bodies.new constants.new (each source.now (written_in source.now raw.now) spots.now) (map (λ s. spelled source.now s) spots.now)) }
    ensures full { (said : List (Row Said)) (words : List (List ℕ)) → Knows names.now said → HasWords constants.old words → IfErr result (HasNameCause source.now words spots.now) }
    ensures other { (said : List (Row Said)) (defs : List (Row Definition)) (given : List (Row Ty)) (rows : List (Row Written)) (words : List (List ℕ)) → IsTaking names.now bodies.old constants.old said defs given rows words → IfErr result (HasTypeCause source.now said defs given rows spots.now raw.now) }
    ensures takes { OnOk result (Takes names.now bodies.old constants.old bodies.new constants.new (each source.now (written_in source.now raw.now) spots.now) (map (λ s. spelled source.now s) spots.now)) }
{
    check_lengths(source, spots)?;
    let declared = bodies.scheme(names, source, raw)?;
    constants.declare_all(&mut bodies.types, source, spots, declared)
}

impl Bodies {
    // A sentence of typeabbrev. Its body is compared with the first one of its name, unless an abbreviation that they use has a
    // fault: then one of them has no type.
    pub(crate) fn declare_abbreviation(
        &mut self,
        names: &Names,
        uses: &Ways,
        source: &[u8],
        name: Spot,
        parameters: &[Spot],
        raw: &RawType,
    ) -> Result<(), SigFault>
        ensures why { (z : Seen) → Sees names.now (map (λ out. out.items) uses.now.ways.items) self.old.types.bank self.old.bodies.items z → IfErr result (IsAbbreviationFault source.now z name parameters.now raw.now) }
        ensures reason { (z : Seen) → Knows names.now z.said → KnowsUses (map (λ out. out.items) uses.now.ways.items) z → IfErr result (λ e. (e ≡ fault.Memory) ⊎ IsAbbreviationWrong source.now z name parameters.now raw.now e) }
        ensures other { (said : List (Row Said)) (defs : List (Row Definition)) → Knows names.now said → HoldsBodies self.old.types.bank self.old.bodies.items said defs → IfErr result (IsOtherBodyIf source.now said defs name parameters.now raw.now) }
        ensures taken { IfOk result (λ done. IsShort source.now name × AreApart source.now parameters.now × (length parameters.now ≤ MAX_ARGUMENTS)) }
        ensures stand { (z : Seen) → Knows names.now z.said → KnowsUses (map (λ out. out.items) uses.now.ways.items) z → IfOk result (λ done. IsSoundAbbreviation source.now z name parameters.now raw.now) }
        ensures same { (from : ℕ) (z : Seen) → Sees names.now (map (λ out. out.items) uses.now.ways.items) self.old.types.bank self.old.bodies.items z → AreSettledIf from z self.old.bodies.items → IfOk result (λ done. HasFirstBody from source.now z name parameters.now raw.now) }
        ensures kept { Extends self.old.types.bank self.new.types.bank }
        ensures bodies { self.new.bodies ≡ self.old.bodies }
    {
        let place = names.check_abbreviation(source, name, parameters.len())?;
        let words = uses_of(self.alloc, names, source, raw)?;
        if uses.lead_to(self.alloc, words.as_slice(), place)? {
            return Err(SigFault::CyclicAbbreviation(name));
        }
        let mut variables = Variables::parameters(self.alloc, source, parameters)?;
        if parameters.len() > MAX_ARGUMENTS {
            return Err(SigFault::Limit(Limit::Arguments));
        }
        let body = self.expand(names, source, raw, &mut variables)?;
        if self.has_other_body(place, body) {
            return Err(SigFault::Differ(name));
        }
        Ok(())
    }
}

impl Making {
    pub(crate) fn declare_abbreviation(
        &mut self,
        source: &[u8],
        name: Spot,
        parameters: &[Spot],
        raw: &RawType,
    ) -> Result<(), SigFault>
        ensures why { (z : Seen) → Sees self.old.names (map (λ out. out.items) self.old.uses.ways.items) self.old.bodies.types.bank self.old.bodies.bodies.items z → IfErr result (IsAbbreviationFault source.now z name parameters.now raw.now) }
        ensures reason { (z : Seen) → Knows self.old.names z.said → KnowsUses (map (λ out. out.items) self.old.uses.ways.items) z → IfErr result (λ e. (e ≡ fault.Memory) ⊎ IsAbbreviationWrong source.now z name parameters.now raw.now e) }
        ensures other { (said : List (Row Said)) (defs : List (Row Definition)) → Knows self.old.names said → HoldsBodies self.old.bodies.types.bank self.old.bodies.bodies.items said defs → IfErr result (IsOtherBodyIf source.now said defs name parameters.now raw.now) }
        ensures taken { IfOk result (λ done. IsShort source.now name × AreApart source.now parameters.now × (length parameters.now ≤ MAX_ARGUMENTS)) }
        ensures stand { (z : Seen) → Knows self.old.names z.said → KnowsUses (map (λ out. out.items) self.old.uses.ways.items) z → IfOk result (λ done. IsSoundAbbreviation source.now z name parameters.now raw.now) }
        ensures same { (from : ℕ) (z : Seen) → Sees self.old.names (map (λ out. out.items) self.old.uses.ways.items) self.old.bodies.types.bank self.old.bodies.bodies.items z → AreSettledIf from z self.old.bodies.bodies.items → IfOk result (λ done. HasFirstBody from source.now z name parameters.now raw.now) }
        ensures names { self.new.names ≡ self.old.names }
        ensures uses { self.new.uses ≡ self.old.uses }
        ensures constants { self.new.constants ≡ self.old.constants }
        ensures operators { self.new.operators ≡ self.old.operators }
        ensures kept { Extends self.old.bodies.types.bank self.new.bodies.types.bank }
        ensures bodies { self.new.bodies.bodies ≡ self.old.bodies.bodies }
    {
        self.bodies
            .declare_abbreviation(&self.names, &self.uses, source, name, parameters, raw)
    }

    fn declare_line(&mut self, source: &[u8], declaration: &Declaration) -> Result<(), SigFault>
        ensures why { (from : ℕ) (z : Seen) (rows : List (Row Written)) → Sees self.old.names (map (λ out. out.items) self.old.uses.ways.items) self.old.bodies.types.bank self.old.bodies.bodies.items z → AreSettledIf from z self.old.bodies.bodies.items → KnowsConstants self.old.bodies.types.bank self.old.constants z.said z.definitions rows → AreTypedIf from z rows self.old.constants → IfErr result (IsSentenceFault from source.now z rows declaration.now) }
        ensures constants { OnOk result ((z : Seen) (rows : List (Row Written)) → Sees self.old.names (map (λ out. out.items) self.old.uses.ways.items) self.old.bodies.types.bank self.old.bodies.bodies.items z → KnowsConstants self.old.bodies.types.bank self.old.constants z.said z.definitions rows → KnowsConstants self.new.bodies.types.bank self.new.constants z.said z.definitions (rows ++ constants_by source.now declaration.now)) }
        ensures declared { (from : ℕ) (z : Seen) (rows : List (Row Written)) → Sees self.old.names (map (λ out. out.items) self.old.uses.ways.items) self.old.bodies.types.bank self.old.bodies.bodies.items z → AreSettledIf from z self.old.bodies.bodies.items → KnowsConstants self.old.bodies.types.bank self.old.constants z.said z.definitions rows → AreTypedIf from z rows self.old.constants → IfOk result (λ done. AreTypedIf from z (rows ++ constants_by source.now declaration.now) self.new.constants × AreTakenConstants from z rows (constants_by source.now declaration.now)) }
        ensures taken { IfOk result (λ done. IsWithin source.now declaration.now) }
        ensures sound { (from : ℕ) (z : Seen) → Sees self.old.names (map (λ out. out.items) self.old.uses.ways.items) self.old.bodies.types.bank self.old.bodies.bodies.items z → AreSettledIf from z self.old.bodies.bodies.items → IfOk result (λ done. IsSound from source.now z declaration.now) }
        ensures names { self.new.names ≡ self.old.names }
        ensures uses { self.new.uses ≡ self.old.uses }
        ensures kept { Extends self.old.bodies.types.bank self.new.bodies.types.bank }
        ensures bodies { self.new.bodies.bodies ≡ self.old.bodies.bodies }
        ensures operators { OnOk result ((said : List (Row (IsFixity × ℕ))) → KnowsOperators self.old.operators said → KnowsOperators self.new.operators (said ++ fixities_by source.now declaration.now)) }
    {
        match declaration {
            Declaration::Kinds(names, arity) => self
                .names
                .declare_kinds(source, names.as_slice(), *arity),
            Declaration::Constants(names, raw) => declare_constants(
                &self.names,
                &mut self.bodies,
                &mut self.constants,
                source,
                names.as_slice(),
                raw,
            ),
            Declaration::Abbreviation(name, parameters, raw) => {
                self.declare_abbreviation(source, *name, parameters.as_slice(), raw)
            }
            Declaration::Fixities(names, fixity, number) => {
                self.operators
                    .declare_all(source, names.as_slice(), *fixity, *number)?;
                Ok(())
            }
            Declaration::LocalKinds(_, _) => Ok(()),
            Declaration::Locals(_, _) => Ok(()),
            Declaration::Accumulate(_) => Ok(()),
            Declaration::AccumSig(_) => Ok(()),
        }
    }

    // The declarations of a signature's own text, or the first fault in text order.
    pub(crate) fn declare(&mut self, source: &[u8], text: &SignatureText) -> Result<(), SigFault>
        ensures refused { (z : Seen) (rows : List (Row Written)) → KnowsSeen self.old z → KnowsConstants self.old.bodies.types.bank self.old.constants z.said z.definitions rows → AreAllTyped self.old z rows → IfErr result (IsFaultIn source.now (seen_count z) (seen_text z source.now text.now.lines.items) rows text.now.lines.items) }
        ensures constants { OnOk result ((z : Seen) (rows : List (Row Written)) → KnowsSeen self.old z → KnowsConstants self.old.bodies.types.bank self.old.constants z.said z.definitions rows → KnowsConstants self.new.bodies.types.bank self.new.constants (seen_text z source.now text.now.lines.items).said (seen_text z source.now text.now.lines.items).definitions (rows ++ constants_in source.now text.now.lines.items) × (AreAllTyped self.old z rows → AreAllTyped self.new (seen_text z source.now text.now.lines.items) (rows ++ constants_in source.now text.now.lines.items))) }
        ensures taken { IfOk result (λ done. AreWithin source.now text.now.lines.items) }
        ensures declared { (z : Seen) (rows : List (Row Written)) → KnowsSeen self.old z → KnowsConstants self.old.bodies.types.bank self.old.constants z.said z.definitions rows → AreAllTyped self.old z rows → IfOk result (λ done. AreTakenConstants (seen_count z) (seen_text z source.now text.now.lines.items) rows (constants_in source.now text.now.lines.items)) }
        ensures sound { (z : Seen) → KnowsSeen self.old z → IfOk result (λ done. AreSound (seen_count z) source.now (seen_text z source.now text.now.lines.items) text.now.lines.items) }
        ensures stand { (z : Seen) → KnowsSeen self.old z → IfOk result (λ done. AllStand (seen_count z) (seen_text z source.now text.now.lines.items)) }
        ensures seen { OnOk result ((z : Seen) → KnowsSeen self.old z → KnowsSeen self.new (seen_text z source.now text.now.lines.items)) }
        ensures operators { OnOk result ((said : List (Row (IsFixity × ℕ))) → KnowsOperators self.old.operators said → KnowsOperators self.new.operators (said ++ fixities_in source.now text.now.lines.items)) }
    {
        let from = self.names.heads.len();
        self.announce(source, text)?;
        self.uses.note(self.alloc, &self.names, source, text)?;
        self.bodies
            .settle(&self.names, &self.uses, source, text, from)?;
        for declaration in &text.lines {
            self.declare_line(source, declaration)?;
        }
        self.bodies.leave();
        Ok(())
    }
}
