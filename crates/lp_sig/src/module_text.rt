// From a module's declarations to the signature of what it sees.
ghost use Rattle.std.specs.Prelude.{◌≡◌, ◌⊎◌, ◌++◌, ◌<◌, ◌≤◌, ℕ, List, [], ◌∷◌, length, map, take, Some, All, slice_get, IfOk, IfErr, OnOk};
ghost use Rattle.lp_standard.specs.declared.fixity.Fixity.{Fixity as IsFixity};
ghost use Rattle.lp_sig.specs.Rows.{Row, fixity_row};
ghost use Rattle.lp_sig.specs.Said.{Said as IsSaid, said_in};
ghost use Rattle.lp_sig.specs.Knowing.{Knows, KnowsOperators};
ghost use Rattle.lp_sig.specs.Abbreviations.{Seen as IsSeen, KnowsUses, seen_text};
ghost use Rattle.lp_sig.specs.SeenByModules.{seen_signature, seen_signatures};
ghost use Rattle.lp_sig.specs.Modules.{declarations, of_each, said_of, constants_of, constant_names_in, HasSeen};
ghost use Rattle.lp_sig.specs.Named.{NamedTy, IsOrdered, SeesTheirs, kind_names};
ghost use Rattle.lp_sig.specs.Sighted.{Grows, AreCounted, AreKinds, AreNew, SeenSo};
ghost use Rattle.lp_sig.specs.Sights.{HasKeys, HasNumbers, AreAlike, AreWordsAlike};
ghost use Rattle.lp_sig.specs.ModuleFaults.{kind_names_in, IsLineFault, IsLineTaken, IsFaultAmong, HasLineCause, HasLineTypeCause, IsDeclarationRefusal};
ghost use Rattle.lp_sig.specs.declared.fault.SigFault.TheVariants as fault;
ghost use Rattle.lp_sig.specs.declared.module_fault.ModuleSigFault.TheVariants as wrong;
ghost use Rattle.lp_syntax.specs.declared.text.Declaration.{Declaration as IsDeclaration};
ghost use Rattle.lp_syntax.specs.declared.text.Sentence.TheVariants.{Declares};
ghost use Rattle.lp_sig.specs.declared.signature.Signature.{Signature as IsSignature};
ghost use Rattle.lp_sig.specs.Worded.{HasWords};
ghost use Rattle.lp_sig.specs.Types.{Definition, definitions_in};
ghost use Rattle.lp_sig.specs.Holding.{KnowsBodies, HoldsBodies, line_of_module};
ghost use Rattle.lp_sig.specs.AsWritten.{bodies_of, HasWholeBodies, typed_in, DeclaresTypes};
ghost use Rattle.lp_sig.specs.inner.Given.{GivesBodies, GivesMore};
ghost use Rattle.lp_sig.specs.inner.Reading.{ReadsOn};
ghost use Rattle.lp_sig.specs.inner.Taking.{IsTaking, TakesOn, IsCausedFrom};
ghost use Rattle.lp_calculus.specs.Types.{Ty};
ghost use Rattle.lp_sig.specs.Constants.{Written};
ghost use Rattle.lp_sig.specs.inner.Telling.{KnowsBefore, AreTold, AreSights};

use crate::hearing::Said;
use crate::making::Making;
use crate::module_fault::ModuleSigFault;
use crate::module_lines::ModuleLines;
use crate::see::Sight;
use crate::signature::Signature;
use lp_base::Memory;
use lp_syntax::{ModuleText, Sentence};
use std::alloc::Global;

// Takes up the names of the signatures that the text names, and tells how these go with one another.
fn see_used(making: &mut Making, used: &[Signature]) -> Result<Vec<Sight>, Memory>
    ensures names { OnOk result ((said : List (Row IsSaid)) → Knows making.old.names said → Knows making.new.names (said ++ of_each said_of used.now)) }
    ensures uses { OnOk result ((z : IsSeen) → Knows making.old.names z.said → KnowsUses (map (λ out. out.items) making.old.uses.ways.items) z → KnowsUses (map (λ out. out.items) making.new.uses.ways.items) (seen_signatures z used.now)) }
    ensures words { OnOk result ((words : List (List ℕ)) → HasWords making.old.constants words → HasWords making.new.constants (words ++ of_each constants_of used.now)) }
    ensures operators { making.new.operators ≡ making.old.operators }
    ensures grown { OnOk result (Grows making.old making.new) }
    ensures seen { IfOk result (λ sights. (said : List (Row IsSaid)) (words : List (List ℕ)) → Knows making.old.names said → HasWords making.old.constants words → AreCounted making.old.bodies.types.bank making.old.constants → All IsOrdered used.now →
        (n : ℕ) → n ≤ length used.now → AreAlike sights.items n → (i : ℕ) → i < n → (u : IsSignature) → slice_get used.now i ≡ Some u → SeenSo making.new (said ++ of_each said_of used.now) u) }
    ensures counted { IfOk result (λ sights. (said : List (Row IsSaid)) (words : List (List ℕ)) → Knows making.old.names said → HasWords making.old.constants words → AreCounted making.old.bodies.types.bank making.old.constants → All IsOrdered used.now →
        AreAlike sights.items (length used.now) → AreCounted making.new.bodies.types.bank making.new.constants) }
    ensures given { IfOk result (λ sights. All IsOrdered used.now → All HasWholeBodies used.now → AreAlike sights.items (length used.now) → GivesMore making.old making.new (of_each said_of used.now) (of_each bodies_of used.now)) }
    ensures told { IfOk result (λ sights. (before : List IsSignature) → KnowsBefore making.old before → AreTold before used.now sights.items) }
    ensures stays { OnOk result ((before : List IsSignature) → KnowsBefore making.old before → KnowsBefore making.new (before ++ used.now)) }
{
    let mut sights = Vec::new(making.alloc);
    for at in 0..used.len() {
        let sight = making.see(&used[at])?;
        sights.push(sight)?;
    }
    Ok(sights)
}

// The same behind those of the module's own signature, whose fixities are taken up too.
fn see_all(making: &mut Making, own: &Signature, used: &[Signature]) -> Result<Vec<Sight>, Memory>
    ensures names { OnOk result ((said : List (Row IsSaid)) → Knows making.old.names said → Knows making.new.names ((said ++ said_of own.now) ++ of_each said_of used.now)) }
    ensures uses { OnOk result ((z : IsSeen) → Knows making.old.names z.said → KnowsUses (map (λ out. out.items) making.old.uses.ways.items) z → KnowsUses (map (λ out. out.items) making.new.uses.ways.items) (seen_signatures (seen_signature z own.now) used.now)) }
    ensures words { OnOk result ((words : List (List ℕ)) → HasWords making.old.constants words → HasWords making.new.constants ((words ++ constants_of own.now) ++ of_each constants_of used.now)) }
    ensures operators { OnOk result ((said : List (Row (IsFixity × ℕ))) → KnowsOperators making.old.operators said → KnowsOperators making.new.operators (said ++ map fixity_row own.now.fixities.items)) }
    ensures grown { OnOk result (Grows making.old making.new) }
    ensures own { OnOk result ((said : List (Row IsSaid)) (words : List (List ℕ)) → Knows making.old.names said → HasWords making.old.constants words → AreCounted making.old.bodies.types.bank making.old.constants → IsOrdered own.now →
        AreKinds (said ++ said_of own.now) (kind_names own.now) → AreNew words own.now.constants.items → SeenSo making.new ((said ++ said_of own.now) ++ of_each said_of used.now) own.now) }
    ensures seen { IfOk result (λ sights. (said : List (Row IsSaid)) (words : List (List ℕ)) → Knows making.old.names said → HasWords making.old.constants words → AreCounted making.old.bodies.types.bank making.old.constants → IsOrdered own.now →
        AreKinds (said ++ said_of own.now) (kind_names own.now) → AreNew words own.now.constants.items → All IsOrdered used.now →
        (n : ℕ) → n ≤ length used.now → AreAlike sights.items n → (i : ℕ) → i < n → (u : IsSignature) → slice_get used.now i ≡ Some u → SeenSo making.new ((said ++ said_of own.now) ++ of_each said_of used.now) u) }
    ensures counted { IfOk result (λ sights. (said : List (Row IsSaid)) (words : List (List ℕ)) → Knows making.old.names said → HasWords making.old.constants words → AreCounted making.old.bodies.types.bank making.old.constants → IsOrdered own.now →
        AreKinds (said ++ said_of own.now) (kind_names own.now) → AreNew words own.now.constants.items → All IsOrdered used.now → AreAlike sights.items (length used.now) → AreCounted making.new.bodies.types.bank making.new.constants) }
    ensures given { IfOk result (λ sights. (said : List (Row IsSaid)) (rows : List (Row NamedTy)) → Knows making.old.names said → GivesBodies making.old.bodies.types.bank making.old.bodies.bodies.items said rows → IsOrdered own.now → HasWholeBodies own.now →
        AreKinds (said ++ said_of own.now) (kind_names own.now) → All IsOrdered used.now → All HasWholeBodies used.now → AreAlike sights.items (length used.now) →
        GivesBodies making.new.bodies.types.bank making.new.bodies.bodies.items ((said ++ said_of own.now) ++ of_each said_of used.now) ((rows ++ bodies_of own.now) ++ of_each bodies_of used.now)) }
    ensures told { IfOk result (λ sights. KnowsBefore making.old [] → AreTold (own.now ∷ []) used.now sights.items) }
    ensures stays { OnOk result (KnowsBefore making.old [] → KnowsBefore making.new (own.now ∷ used.now)) }
{
    making.see(own)?;
    making.see_fixities(own)?;
    let sights = see_used(making, used)?;
    Ok(sights)
}

// Takes up the kinds and abbreviations of the text, which may be used before they are declared.
fn announce_all(making: &mut Making, source: &[u8], text: &ModuleText) -> Result<(), Memory>
    ensures names { OnOk result ((said : List (Row IsSaid)) → Knows making.old.names said → Knows making.new.names (said ++ said_in source.now (declarations text.now.lines.items))) }
    ensures uses { OnOk result ((z : IsSeen) → Knows making.old.names z.said → KnowsUses (map (λ out. out.items) making.old.uses.ways.items) z → KnowsUses (map (λ out. out.items) making.new.uses.ways.items) (seen_text z source.now (declarations text.now.lines.items))) }
    ensures constants { making.new.constants ≡ making.old.constants }
    ensures operators { making.new.operators ≡ making.old.operators }
    ensures grown { OnOk result (Grows making.old making.new) }
    ensures bodies { OnOk result ((said : List (Row IsSaid)) (defs : List (Row Definition)) → Knows making.old.names said → KnowsBodies making.old.bodies.types.bank making.old.bodies.bodies.items said defs source.now (line_of_module text.now.lines.items) →
        HoldsBodies making.new.bodies.types.bank making.new.bodies.bodies.items (said ++ said_in source.now (declarations text.now.lines.items)) (defs ++ definitions_in source.now (declarations text.now.lines.items))) }
{
    let from = making.names.heads.len();
    making.announce_module(source, text)?;
    making
        .uses
        .note_module(making.alloc, &making.names, source, text)?;
    making
        .bodies
        .settle(&making.names, &making.uses, source, text, from)
}

fn declare_sentence(
    making: &mut Making,
    lines: &ModuleLines<'_>,
    sentence: &Sentence,
) -> Result<(), ModuleSigFault>
    ensures names { making.new.names ≡ making.old.names }
    ensures operators { making.new.operators ≡ making.old.operators }
    ensures uses { making.new.uses ≡ making.old.uses }
    ensures grown { OnOk result (Grows making.old making.new) }
    ensures kept { making.new.bodies.bodies ≡ making.old.bodies.bodies }
    ensures reads { OnOk result (ReadsOn making.old making.new (typed_in lines.now.source.now (declarations (sentence.now ∷ []))) (constant_names_in lines.now.source.now (declarations (sentence.now ∷ [])))) }
    ensures full { (said : List (Row IsSaid)) (words : List (List ℕ)) → Knows making.old.names said → HasWords making.old.constants words → (d : IsDeclaration) → sentence.now ≡ Declares d → IfErr result (HasLineCause lines.now.own.now lines.now.source.now words d) }
    ensures other { (said : List (Row IsSaid)) (defs : List (Row Definition)) (given : List (Row Ty)) (rows : List (Row Written)) (words : List (List ℕ)) → IsTaking making.old.names making.old.bodies making.old.constants said defs given rows words → (d : IsDeclaration) → sentence.now ≡ Declares d → IfErr result (HasLineTypeCause lines.now.own.now lines.now.source.now said defs given rows d) }
    ensures takes { OnOk result (TakesOn making.old making.new (typed_in lines.now.source.now (declarations (sentence.now ∷ []))) (constant_names_in lines.now.source.now (declarations (sentence.now ∷ [])))) }
    ensures words { OnOk result ((words : List (List ℕ)) → HasWords making.old.constants words → HasWords making.new.constants (words ++ constant_names_in lines.now.source.now (declarations (sentence.now ∷ [])))) }
    ensures alike { OnOk result ((signatures modules : List (List ℕ)) → HasNumbers lines.now.said.now.accum_sigs signatures → HasNumbers lines.now.said.now.accumulates modules → AreWordsAlike lines.now.sights.now lines.now.source.now signatures modules (declarations (sentence.now ∷ []))) }
    ensures refused { (used : List IsSignature) (z : IsSeen) (ds : List IsDeclaration) → AreSights lines.now.own.now used lines.now.source.now lines.now.said.now lines.now.sights.now ds → Knows making.old.names z.said → KnowsUses (map (λ out. out.items) making.old.uses.ways.items) z → HasKeys lines.now.said.now.kinds (kind_names_in lines.now.source.now ds) → HasKeys lines.now.said.now.constants (constant_names_in lines.now.source.now ds) → IfErr result (λ e. (e ≡ wrong.Sig fault.Memory) ⊎ ((d : IsDeclaration) × (sentence.now ≡ Declares d) × IsLineFault lines.now.own.now used lines.now.source.now z ds d e)) }
    ensures taken { (used : List IsSignature) (z : IsSeen) (ds : List IsDeclaration) → AreSights lines.now.own.now used lines.now.source.now lines.now.said.now lines.now.sights.now ds → Knows making.old.names z.said → KnowsUses (map (λ out. out.items) making.old.uses.ways.items) z → HasKeys lines.now.said.now.kinds (kind_names_in lines.now.source.now ds) → HasKeys lines.now.said.now.constants (constant_names_in lines.now.source.now ds) → IfOk result (λ done. All (IsLineTaken lines.now.own.now used lines.now.source.now z ds) (declarations (sentence.now ∷ []))) }
{
    match sentence {
        Sentence::Declares(declaration) => lines.declare(making, declaration),
        Sentence::Says(_) => Ok(()),
    }
}

// Takes up the declarations of the text, in order.
fn declare_all(
    making: &mut Making,
    lines: &ModuleLines<'_>,
    text: &ModuleText,
) -> Result<(), ModuleSigFault>
    ensures names { making.new.names ≡ making.old.names }
    ensures operators { making.new.operators ≡ making.old.operators }
    ensures uses { making.new.uses ≡ making.old.uses }
    ensures grown { OnOk result (Grows making.old making.new) }
    ensures kept { making.new.bodies.bodies ≡ making.old.bodies.bodies }
    ensures reads { OnOk result (ReadsOn making.old making.new (typed_in lines.now.source.now (declarations text.now.lines.items)) (constant_names_in lines.now.source.now (declarations text.now.lines.items))) }
    ensures takes { OnOk result (TakesOn making.old making.new (typed_in lines.now.source.now (declarations text.now.lines.items)) (constant_names_in lines.now.source.now (declarations text.now.lines.items))) }
    ensures words { OnOk result ((words : List (List ℕ)) → HasWords making.old.constants words → HasWords making.new.constants (words ++ constant_names_in lines.now.source.now (declarations text.now.lines.items))) }
    ensures alike { OnOk result ((signatures modules : List (List ℕ)) → HasNumbers lines.now.said.now.accum_sigs signatures → HasNumbers lines.now.said.now.accumulates modules → AreWordsAlike lines.now.sights.now lines.now.source.now signatures modules (declarations text.now.lines.items)) }
    ensures refused { (used : List IsSignature) (z : IsSeen) (words : List (List ℕ)) → AreSights lines.now.own.now used lines.now.source.now lines.now.said.now lines.now.sights.now (declarations text.now.lines.items) → Knows making.old.names z.said → KnowsUses (map (λ out. out.items) making.old.uses.ways.items) z → HasKeys lines.now.said.now.kinds (kind_names_in lines.now.source.now (declarations text.now.lines.items)) → HasKeys lines.now.said.now.constants (constant_names_in lines.now.source.now (declarations text.now.lines.items)) → HasWords making.old.constants words → IfErr result (λ e. (e ≡ wrong.Sig fault.Memory) ⊎ ((f : IsFaultAmong lines.now.own.now used lines.now.source.now z (declarations text.now.lines.items) e) × IsCausedFrom making.old lines.now.own.now lines.now.source.now z.said words (take f.k (declarations text.now.lines.items)) f.line e)) }
{
    for at in 0..text.lines.len() {
        declare_sentence(making, lines, &text.lines[at])?;
    }
    Ok(())
}

/// The signature of all names that a module sees: those of its own signature, of the signatures that it names by accum_sig, of the
/// signatures of the modules that it accumulates, and its own, each at its first declaration. Its fixities are those of the own
/// signature. `used` has one signature for each different word of accum_sig, by first place, then one for each different word of
/// accumulate.
///
/// # Errors
/// The first fault in text order. A signature that declares a name otherwise than one before it is blamed at the first word that names it.
pub fn module_signature(
    alloc: Global,
    source: &[u8],
    text: &ModuleText,
    own: &Signature,
    used: &[Signature],
) -> Result<Signature, ModuleSigFault>
    ensures seen { IfOk result (HasSeen own.now used.now source.now text.now.lines.items) }
    ensures theirs { IfOk result (SeesTheirs own.now used.now source.now text.now.lines.items) }
    ensures declared { IfOk result (DeclaresTypes own.now used.now source.now text.now.lines.items) }
    ensures refused { IfErr result (IsDeclarationRefusal own.now used.now source.now text.now.lines.items) }
{
    let mut making = Making::new(alloc);
    let sights = see_all(&mut making, own, used)?;
    announce_all(&mut making, source, text)?;
    let said = Said::of(alloc, source, text)?;
    let lines = ModuleLines {
        source,
        own,
        said: &said,
        sights: sights.as_slice(),
    };
    declare_all(&mut making, &lines, text)?;
    let signature = making.finish()?;
    Ok(signature)
}
