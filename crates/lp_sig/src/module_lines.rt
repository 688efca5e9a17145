// What the declarations of a module say, line by line.
ghost use Rattle.std.specs.Prelude.{◌≡◌, ◌⊎◌, ◌≤◌, ◌++◌, ℕ, List, [], ◌∷◌, length, map, true, false, Some, All, IfOk, IfErr, OnOk};
ghost use Rattle.lp_sig.specs.Pieces.{spelled};
ghost use Rattle.lp_base.specs.declared.limit.Limit.TheVariants as limit;
ghost use Rattle.lp_base.specs.declared.place.Spot.{Spot as IsSpot};
ghost use Rattle.lp_base.specs.declared.limits.TheConstants.{MAX_ARGUMENTS};
ghost use Rattle.lp_syntax.specs.declared.text.Declaration.{Declaration as IsDeclaration};
ghost use Rattle.lp_sig.specs.Rows.{Row};
ghost use Rattle.lp_sig.specs.Said.{Said as IsSaid, a_kind, each, is_among};
ghost use Rattle.lp_sig.specs.Knowing.{Knows};
ghost use Rattle.lp_sig.specs.Abbreviations.{Seen as IsSeen, KnowsUses};
ghost use Rattle.lp_sig.specs.Faults.{IsSoundAbbreviation};
ghost use Rattle.lp_syntax.specs.declared.text.RawType.{RawType as IsRawType};
ghost use Rattle.lp_sig.specs.Limits.{IsShort, AreShort};
ghost use Rattle.lp_sig.specs.Words.{IsMeant, AreMeant, IsNumbered, AreNumbered, IsKindsFault, IsSoundType, IsNameFault};
ghost use Rattle.lp_sig.specs.Modules.{constant_names_by, constant_names_in, first_names, local_names};
ghost use Rattle.lp_sig.specs.ModuleFaults.{exports_kind, exports_constant, differs_at, blamed_by, kind_names_in, IsFirstOf, IsLocalFault, IsLocal, IsLocalKindsFault, IsKnownFault, IsNewFault, AreConstantsWrong, AreLocalsWrong, IsAbbreviationWrong, AreModulesRefused, AreModulesTaken, AreSignaturesRefused, AreSignaturesTaken, IsLineFault, IsLineTaken, IsNewLocal, IsTypeFault, AreLocalKindsRefused, AreLocalKindsTaken, AreLocalsRefused, AreLocalsTaken};
ghost use Rattle.lp_sig.specs.declared.fault.SigFault.{SigFault as IsFault};
ghost use Rattle.lp_sig.specs.declared.fault.SigFault.TheVariants as reason;
ghost use Rattle.lp_sig.specs.declared.module_fault.ModuleSigFault.TheVariants as wrong;
ghost use Rattle.lp_sig.specs.Sighted.{Grows};
ghost use Rattle.lp_sig.specs.Sights.{HasKeys, HasNumbers, IsAlike, AreWordsAlike};
ghost use Rattle.lp_sig.specs.declared.see.Sight.TheVariants.{Alike};
ghost use Rattle.lp_sig.specs.declared.see.Sight.{Sight as IsSight};
ghost use Rattle.lp_sig.specs.declared.signature.Signature.{Signature as IsSignature};
ghost use Rattle.lp_sig.specs.inner.Telling.{IsBlamed, AreSights};
ghost use Rattle.lp_sig.specs.Worded.{HasWords};
ghost use Rattle.lp_calculus.specs.Types.{Ty};
ghost use Rattle.lp_term.specs.Nodes.{Extends};
ghost use Rattle.lp_sig.specs.Types.{Definition};
ghost use Rattle.lp_sig.specs.Constants.{Written, written_in};
ghost use Rattle.lp_sig.specs.Differing.{HasNameCause, HasTypeCause, IsOtherBodyIf};
ghost use Rattle.lp_sig.specs.Holding.{HoldsBodies};
ghost use Rattle.lp_sig.specs.ModuleFaults.{HaveLocalsCause, HaveLocalsTypeCause, HasLineCause, HasLineTypeCause};
ghost use Rattle.lp_sig.specs.inner.Taking.{IsInside, AreOtherIds, AddsNames, IsTaking, TakesOn};
ghost use Rattle.lp_sig.specs.AsWritten.{typed_locals, typed_by};
ghost use Rattle.lp_sig.specs.inner.Reading.{CanDeclare, AreDeclaredAs, ReadsOn};

use crate::constants::DeclaredType;
use crate::declare::{check_length, check_lengths, declare_constants};
use crate::fault::SigFault;
use crate::hearing::Said;
use crate::making::Making;
use crate::module_fault::ModuleSigFault;
use crate::pieces::spelled_at;
use crate::see::Sight;
use crate::signature::Signature;
use crate::standard::{standard_constant, standard_kind};
use lp_base::{Limit, MAX_ARGUMENTS, Spot};
use lp_syntax::{Declaration, RawType};

// A word that names a signature.
fn check_word(word: Spot, sight: Option<Sight>) -> Result<(), ModuleSigFault>
    ensures alike { OnOk result (sight ≡ Some Alike) }
    ensures refused { IfErr result (λ e. (e ≡ wrong.Sig reason.Memory) ⊎ ((s : IsSight) × (sight ≡ Some s) × IsBlamed word s e)) }
{
    match sight {
        Some(Sight::Alike) => Ok(()),
        Some(Sight::Otherwise) => Err(ModuleSigFault::Sig(SigFault::Differ(word))),
        Some(Sight::TooMany) => Err(ModuleSigFault::Sig(SigFault::Limit(Limit::Names))),
        None => Err(ModuleSigFault::Sig(SigFault::Memory)),
    }
}

// The name that a fault calls declared otherwise.
fn differing(fault: SigFault) -> Option<Spot>
    ensures { result ≡ differs_at fault }
{
    match fault {
        SigFault::Differ(name) => Some(name),
        SigFault::UnknownKind(_) => None,
        SigFault::Arity(_) => None,
        SigFault::CyclicAbbreviation(_) => None,
        SigFault::CyclicSignature(_) => None,
        SigFault::Limit(_) => None,
        SigFault::Memory => None,
        SigFault::Header(_) => None,
    }
}

fn is_memory(fault: SigFault) -> bool
    ensures memory { result ≡ true → fault ≡ reason.Memory }
    ensures another { result ≡ false → fault ≡ reason.Memory → ⊥ }
{
    match fault {
        SigFault::Memory => true,
        SigFault::Differ(_) => false,
        SigFault::UnknownKind(_) => false,
        SigFault::Arity(_) => false,
        SigFault::CyclicAbbreviation(_) => false,
        SigFault::CyclicSignature(_) => false,
        SigFault::Limit(_) => false,
        SigFault::Header(_) => false,
    }
}

// The lines of a module: its text, its own signature, what the text says of names and words, and how the signatures that it sees go with
// one another.
#[derive(Drop)]
pub(crate) struct ModuleLines<'a> {
    pub source: &'a [u8],
    pub own: &'a Signature,
    pub said: &'a Said,
    pub sights: &'a [Sight],
}

impl<'a> ModuleLines<'a> {
    // Whether the own signature declares a kind or an abbreviation.
    fn exports_kind(&self, name: Spot) -> bool
        ensures { result ≡ exports_kind self.now.own.now (spelled self.now.source.now name) }
    {
        let word = spelled_at(self.source, name);
        if standard_kind(word).is_some() {
            return false;
        }
        if self.own.kind(word).is_some() {
            return true;
        }
        self.own.abbreviation(word).is_some()
    }

    // Whether the own signature declares a constant.
    fn exports_constant(&self, name: Spot) -> bool
        ensures { result ≡ exports_constant self.now.own.now (spelled self.now.source.now name) }
    {
        let word = spelled_at(self.source, name);
        if standard_constant(word).is_some() {
            return false;
        }
        self.own.declared(word).is_some()
    }

    // An exported name that is declared otherwise is blamed as such.
    fn kinds_blamed(&self, fault: SigFault) -> ModuleSigFault
        ensures { result ≡ blamed_by (exports_kind self.now.own.now) self.now.source.now fault }
    {
        let Some(name) = differing(fault) else {
            return ModuleSigFault::Sig(fault);
        };
        if self.exports_kind(name) {
            return ModuleSigFault::Exported(name);
        }
        ModuleSigFault::Sig(fault)
    }

    fn constants_blamed(&self, fault: SigFault) -> ModuleSigFault
        ensures { result ≡ blamed_by (exports_constant self.now.own.now) self.now.source.now fault }
    {
        let Some(name) = differing(fault) else {
            return ModuleSigFault::Sig(fault);
        };
        if self.exports_constant(name) {
            return ModuleSigFault::Exported(name);
        }
        ModuleSigFault::Sig(fault)
    }

    fn kinds(&self, making: &Making, names: &[Spot], arity: u32) -> Result<(), ModuleSigFault>
        ensures refused { (said : List (Row IsSaid)) → Knows making.now.names said → IfErr result (λ e. (f : IsFault) × IsKindsFault self.now.source.now said names.now arity f × (e ≡ blamed_by (exports_kind self.now.own.now) self.now.source.now f)) }
        ensures taken { (said : List (Row IsSaid)) → Knows making.now.names said → IfOk result (λ done. AreMeant self.now.source.now said (a_kind arity) names.now × AreNumbered self.now.source.now said names.now × (arity ≤ MAX_ARGUMENTS)) }
    {
        match making.names.declare_kinds(self.source, names, arity) {
            Ok(()) => Ok(()),
            Err(fault) => Err(self.kinds_blamed(fault)),
        }
    }

    // A local kind is not exported.
    fn local_kind(&self, making: &Making, name: Spot, arity: u32) -> Result<(), ModuleSigFault>
        ensures refused { (said : List (Row IsSaid)) → Knows making.now.names said → IfErr result (IsLocalFault (exports_kind self.now.own.now) self.now.source.now (λ s e. (f : IsFault) × IsNameFault self.now.source.now said (a_kind arity) s f × (e ≡ wrong.Sig f)) name) }
        ensures taken { (said : List (Row IsSaid)) → Knows making.now.names said → IfOk result (λ done. IsLocal (exports_kind self.now.own.now) self.now.source.now (λ s. IsMeant self.now.source.now said (a_kind arity) s × IsNumbered self.now.source.now said s) name) }
    {
        if self.exports_kind(name) {
            return Err(ModuleSigFault::Exported(name));
        }
        match making.names.declare_kind(self.source, name, arity) {
            Ok(()) => Ok(()),
            Err(fault) => Err(ModuleSigFault::Sig(fault)),
        }
    }

    fn local_kinds(&self, making: &Making, names: &[Spot], arity: u32) -> Result<(), ModuleSigFault>
        ensures refused { (said : List (Row IsSaid)) → Knows making.now.names said → IfErr result (IsLocalKindsFault self.now.own.now self.now.source.now said names.now arity) }
        ensures taken { (said : List (Row IsSaid)) → Knows making.now.names said → IfOk result (λ done. All (IsLocal (exports_kind self.now.own.now) self.now.source.now (λ s. IsMeant self.now.source.now said (a_kind arity) s × IsNumbered self.now.source.now said s)) names.now × (arity ≤ MAX_ARGUMENTS)) }
    {
        for name in names {
            self.local_kind(making, *name, arity)?;
        }
        if arity > MAX_ARGUMENTS as u32 {
            return Err(ModuleSigFault::Sig(SigFault::Limit(Limit::Arguments)));
        }
        Ok(())
    }

    fn known_kind(&self, name: Spot) -> Result<(), ModuleSigFault>
        ensures refused { (known : List (List ℕ)) → HasKeys self.now.said.now.kinds known → IfErr result (IsLocalFault (exports_kind self.now.own.now) self.now.source.now (λ s e. (is_among (spelled self.now.source.now s) known ≡ false) × (e ≡ wrong.Sig (reason.UnknownKind s))) name) }
        ensures taken { (known : List (List ℕ)) → HasKeys self.now.said.now.kinds known → IfOk result (λ done. IsLocal (exports_kind self.now.own.now) self.now.source.now (λ s. is_among (spelled self.now.source.now s) known ≡ true) name) }
    {
        if self.exports_kind(name) {
            return Err(ModuleSigFault::Exported(name));
        }
        if !self.said.kinds.contains(spelled_at(self.source, name)) {
            return Err(ModuleSigFault::Sig(SigFault::UnknownKind(name)));
        }
        Ok(())
    }

    // Local kinds without a count of arguments are declared elsewhere in the text.
    fn known_kinds(&self, names: &[Spot]) -> Result<(), ModuleSigFault>
        ensures refused { (known : List (List ℕ)) → HasKeys self.now.said.now.kinds known → IfErr result (IsKnownFault (exports_kind self.now.own.now) (λ s. wrong.Sig (reason.UnknownKind s)) self.now.source.now known names.now) }
        ensures taken { (known : List (List ℕ)) → HasKeys self.now.said.now.kinds known → IfOk result (λ done. All (IsLocal (exports_kind self.now.own.now) self.now.source.now (λ s. is_among (spelled self.now.source.now s) known ≡ true)) names.now) }
    {
        for name in names {
            self.known_kind(*name)?;
        }
        Ok(())
    }

    // Local kinds, with a count of arguments or without.
    fn local_kinds_of(
        &self,
        making: &Making,
        names: &[Spot],
        count: &Option<u32>,
    ) -> Result<(), ModuleSigFault>
        ensures refused { (said : List (Row IsSaid)) (known : List (List ℕ)) → Knows making.now.names said → HasKeys self.now.said.now.kinds known → IfErr result (AreLocalKindsRefused self.now.own.now self.now.source.now said known names.now count.now) }
        ensures taken { (said : List (Row IsSaid)) (known : List (List ℕ)) → Knows making.now.names said → HasKeys self.now.said.now.kinds known → IfOk result (λ done. AreLocalKindsTaken self.now.own.now self.now.source.now said known names.now count.now) }
    {
        match count {
            Some(arity) => self.local_kinds(making, names, *arity),
            None => self.known_kinds(names),
        }
    }

    fn constants(
        &self,
        making: &mut Making,
        names: &[Spot],
        raw: &RawType,
    ) -> Result<(), ModuleSigFault>
        ensures names { making.new.names ≡ making.old.names }
        ensures operators { making.new.operators ≡ making.old.operators }
        ensures uses { making.new.uses ≡ making.old.uses }
        ensures grown { OnOk result (Grows making.old making.new) }
        ensures words { OnOk result ((words : List (List ℕ)) → HasWords making.old.constants words → HasWords making.new.constants (words ++ map (λ s. spelled self.now.source.now s) names.now)) }
        ensures kept { making.new.bodies.bodies ≡ making.old.bodies.bodies }
        ensures reads { OnOk result (ReadsOn making.old making.new (each self.now.source.now (written_in self.now.source.now raw.now) names.now) (map (λ s. spelled self.now.source.now s) names.now)) }
        ensures full { (said : List (Row IsSaid)) (words : List (List ℕ)) → Knows making.old.names said → HasWords making.old.constants words → IfErr result (λ e. (f : IsFault) × (e ≡ blamed_by (exports_constant self.now.own.now) self.now.source.now f) × HasNameCause self.now.source.now words names.now f) }
        ensures other { (said : List (Row IsSaid)) (defs : List (Row Definition)) (given : List (Row Ty)) (rows : List (Row Written)) (words : List (List ℕ)) → IsTaking making.old.names making.old.bodies making.old.constants said defs given rows words → IfErr result (λ e. (f : IsFault) × (e ≡ blamed_by (exports_constant self.now.own.now) self.now.source.now f) × HasTypeCause self.now.source.now said defs given rows names.now raw.now f) }
        ensures takes { OnOk result (TakesOn making.old making.new (each self.now.source.now (written_in self.now.source.now raw.now) names.now) (map (λ s. spelled self.now.source.now s) names.now)) }
        ensures refused { (said : List (Row IsSaid)) → Knows making.old.names said → IfErr result (λ e. (e ≡ wrong.Sig reason.Memory) ⊎ ((f : IsFault) × AreConstantsWrong self.now.source.now said names.now raw.now f × (e ≡ blamed_by (exports_constant self.now.own.now) self.now.source.now f))) }
        ensures taken { (said : List (Row IsSaid)) → Knows making.old.names said → IfOk result (λ done. AreShort self.now.source.now names.now × IsSoundType self.now.source.now said raw.now) }
    {
        let outcome = declare_constants(
            &making.names,
            &mut making.bodies,
            &mut making.constants,
            self.source,
            names,
            raw,
        );
        match outcome {
            Ok(()) => Ok(()),
            Err(fault) => Err(self.constants_blamed(fault)),
        }
    }

    // No local constant is exported.
    fn check_locals(&self, names: &[Spot]) -> Result<(), ModuleSigFault>
        ensures refused { IfErr result (IsFirstOf (λ s e. (exports_constant self.now.own.now (spelled self.now.source.now s) ≡ true) × (e ≡ wrong.Exported s)) (λ s. exports_constant self.now.own.now (spelled self.now.source.now s) ≡ false) names.now) }
        ensures taken { IfOk result (λ done. All (λ s. exports_constant self.now.own.now (spelled self.now.source.now s) ≡ false) names.now) }
    {
        for name in names {
            if self.exports_constant(*name) {
                return Err(ModuleSigFault::Exported(*name));
            }
        }
        Ok(())
    }

    // A local constant of a type.
    fn local(
        &self,
        making: &mut Making,
        name: Spot,
        declared: Option<DeclaredType>,
    ) -> Result<(), ModuleSigFault>
        ensures names { making.new.names ≡ making.old.names }
        ensures operators { making.new.operators ≡ making.old.operators }
        ensures uses { making.new.uses ≡ making.old.uses }
        ensures grown { OnOk result (Grows making.old making.new) }
        ensures words { OnOk result ((words : List (List ℕ)) → HasWords making.old.constants words → HasWords making.new.constants (words ++ spelled self.now.source.now name ∷ [])) }
        ensures kept { making.new.bodies.bodies ≡ making.old.bodies.bodies }
        ensures tree { OnOk result ((words : List (List ℕ)) (d : DeclaredType) → declared ≡ Some d → CanDeclare making.old.bodies.types.bank making.old.constants words d → AreDeclaredAs making.new.bodies.types.bank making.new.constants self.now.source.now (name ∷ []) d) }
        ensures adds { OnOk result (AddsNames making.old.constants making.new.constants self.now.source.now (name ∷ []) declared) }
        ensures full { (words : List (List ℕ)) → HasWords making.old.constants words → IfErr result (λ e. (f : IsFault) → e ≡ wrong.Sig f → HasNameCause self.now.source.now words (name ∷ []) f) }
        ensures other { (words : List (List ℕ)) → HasWords making.old.constants words → IfErr result (λ e. (f : IsFault) → e ≡ wrong.Sig f → AreOtherIds self.now.source.now making.new.bodies.types.bank making.old.constants (name ∷ []) declared f) }
        ensures bank { Extends making.old.bodies.types.bank making.new.bodies.types.bank }
        ensures refused { IfErr result (λ e. (e ≡ wrong.Sig reason.Memory) ⊎ IsLocalFault (exports_constant self.now.own.now) self.now.source.now (IsNewLocal self.now.source.now) name e) }
        ensures taken { IfOk result (λ done. IsLocal (exports_constant self.now.own.now) self.now.source.now (IsShort self.now.source.now) name) }
    {
        if self.exports_constant(name) {
            return Err(ModuleSigFault::Exported(name));
        }
        check_length(self.source, name)?;
        making
            .constants
            .declare(&mut making.bodies.types, self.source, name, declared)?;
        Ok(())
    }

    // Local constants of a type that has no fault.
    fn locals_of(
        &self,
        making: &mut Making,
        names: &[Spot],
        declared: Option<DeclaredType>,
    ) -> Result<(), ModuleSigFault>
        ensures names { making.new.names ≡ making.old.names }
        ensures operators { making.new.operators ≡ making.old.operators }
        ensures uses { making.new.uses ≡ making.old.uses }
        ensures grown { OnOk result (Grows making.old making.new) }
        ensures words { OnOk result ((words : List (List ℕ)) → HasWords making.old.constants words → HasWords making.new.constants (words ++ map (λ s. spelled self.now.source.now s) names.now)) }
        ensures kept { making.new.bodies.bodies ≡ making.old.bodies.bodies }
        ensures trees { OnOk result ((words : List (List ℕ)) (d : DeclaredType) → declared ≡ Some d → CanDeclare making.old.bodies.types.bank making.old.constants words d → AreDeclaredAs making.new.bodies.types.bank making.new.constants self.now.source.now names.now d) }
        ensures adds { OnOk result (AddsNames making.old.constants making.new.constants self.now.source.now names.now declared) }
        ensures full { (words : List (List ℕ)) → HasWords making.old.constants words → IfErr result (λ e. (f : IsFault) → e ≡ wrong.Sig f → HasNameCause self.now.source.now words names.now f) }
        ensures other { (words : List (List ℕ)) → IsInside making.old.bodies.types.bank declared → HasWords making.old.constants words → IfErr result (λ e. (f : IsFault) → e ≡ wrong.Sig f → AreOtherIds self.now.source.now making.new.bodies.types.bank making.old.constants names.now declared f) }
        ensures bank { Extends making.old.bodies.types.bank making.new.bodies.types.bank }
        ensures refused { IfErr result (λ e. (e ≡ wrong.Sig reason.Memory) ⊎ IsFirstOf (IsLocalFault (exports_constant self.now.own.now) self.now.source.now (IsNewLocal self.now.source.now)) (IsLocal (exports_constant self.now.own.now) self.now.source.now (IsShort self.now.source.now)) names.now e) }
        ensures taken { IfOk result (λ done. All (IsLocal (exports_constant self.now.own.now) self.now.source.now (IsShort self.now.source.now)) names.now) }
    {
        for name in names {
            self.local(making, *name, declared)?;
        }
        Ok(())
    }

    // A fault of the type of local constants, none of which is exported: a long name goes first.
    fn wrong_type(&self, names: &[Spot], fault: SigFault) -> ModuleSigFault
        ensures wrong { (said : List (Row IsSaid)) (raw : IsRawType) → IsTypeFault self.now.source.now said raw fault → All (λ s. exports_constant self.now.own.now (spelled self.now.source.now s) ≡ false) names.now → AreLocalsWrong self.now.own.now self.now.source.now said names.now raw result }
        ensures told { (f : IsFault) → result ≡ wrong.Sig f → (f ≡ reason.Memory) ⊎ ((f ≡ reason.Limit limit.NameLength) ⊎ (f ≡ fault)) }
    {
        match check_lengths(self.source, names) {
            Err(long) => ModuleSigFault::Sig(long),
            Ok(()) => ModuleSigFault::Sig(fault),
        }
    }

    // A fault of the type of local constants: that one is exported goes first.
    fn wrong_locals(&self, names: &[Spot], fault: SigFault) -> ModuleSigFault
        ensures wrong { (said : List (Row IsSaid)) (raw : IsRawType) → (fault ≡ reason.Memory) ⊎ IsTypeFault self.now.source.now said raw fault → (result ≡ wrong.Sig reason.Memory) ⊎ AreLocalsWrong self.now.own.now self.now.source.now said names.now raw result }
        ensures told { (f : IsFault) → result ≡ wrong.Sig f → (f ≡ reason.Memory) ⊎ ((f ≡ reason.Limit limit.NameLength) ⊎ (f ≡ fault)) }
    {
        if is_memory(fault) {
            return ModuleSigFault::Sig(fault);
        }
        match self.check_locals(names) {
            Err(exported) => exported,
            Ok(()) => self.wrong_type(names, fault),
        }
    }

    // Local constants of a type. That one is exported goes before a fault of the type.
    fn locals(
        &self,
        making: &mut Making,
        names: &[Spot],
        raw: &RawType,
    ) -> Result<(), ModuleSigFault>
        ensures names { making.new.names ≡ making.old.names }
        ensures operators { making.new.operators ≡ making.old.operators }
        ensures uses { making.new.uses ≡ making.old.uses }
        ensures grown { OnOk result (Grows making.old making.new) }
        ensures words { OnOk result ((words : List (List ℕ)) → HasWords making.old.constants words → HasWords making.new.constants (words ++ map (λ s. spelled self.now.source.now s) names.now)) }
        ensures kept { making.new.bodies.bodies ≡ making.old.bodies.bodies }
        ensures reads { OnOk result (ReadsOn making.old making.new (each self.now.source.now (written_in self.now.source.now raw.now) names.now) (map (λ s. spelled self.now.source.now s) names.now)) }
        ensures full { (said : List (Row IsSaid)) (words : List (List ℕ)) → Knows making.old.names said → HasWords making.old.constants words → IfErr result (λ e. (f : IsFault) → e ≡ wrong.Sig f → HasNameCause self.now.source.now words names.now f) }
        ensures other { (said : List (Row IsSaid)) (defs : List (Row Definition)) (given : List (Row Ty)) (rows : List (Row Written)) (words : List (List ℕ)) → IsTaking making.old.names making.old.bodies making.old.constants said defs given rows words → IfErr result (λ e. (f : IsFault) → e ≡ wrong.Sig f → HasTypeCause self.now.source.now said defs given rows names.now raw.now f) }
        ensures takes { OnOk result (TakesOn making.old making.new (each self.now.source.now (written_in self.now.source.now raw.now) names.now) (map (λ s. spelled self.now.source.now s) names.now)) }
        ensures refused { (said : List (Row IsSaid)) → Knows making.old.names said → IfErr result (λ e. (e ≡ wrong.Sig reason.Memory) ⊎ AreLocalsWrong self.now.own.now self.now.source.now said names.now raw.now e) }
        ensures taken { (said : List (Row IsSaid)) → Knows making.old.names said → IfOk result (λ done. All (IsLocal (exports_constant self.now.own.now) self.now.source.now (IsShort self.now.source.now)) names.now × IsSoundType self.now.source.now said raw.now) }
    {
        match making.bodies.scheme(&making.names, self.source, raw) {
            Err(fault) => Err(self.wrong_locals(names, fault)),
            Ok(declared) => self.locals_of(making, names, declared),
        }
    }

    fn known_constant(&self, name: Spot) -> Result<(), ModuleSigFault>
        ensures refused { (known : List (List ℕ)) → HasKeys self.now.said.now.constants known → IfErr result (IsLocalFault (exports_constant self.now.own.now) self.now.source.now (λ s e. (is_among (spelled self.now.source.now s) known ≡ false) × (e ≡ wrong.Undeclared s)) name) }
        ensures taken { (known : List (List ℕ)) → HasKeys self.now.said.now.constants known → IfOk result (λ done. IsLocal (exports_constant self.now.own.now) self.now.source.now (λ s. is_among (spelled self.now.source.now s) known ≡ true) name) }
    {
        if self.exports_constant(name) {
            return Err(ModuleSigFault::Exported(name));
        }
        if !self.said.constants.contains(spelled_at(self.source, name)) {
            return Err(ModuleSigFault::Undeclared(name));
        }
        Ok(())
    }

    // Local constants without a type are declared elsewhere in the text.
    fn known_constants(&self, names: &[Spot]) -> Result<(), ModuleSigFault>
        ensures refused { (known : List (List ℕ)) → HasKeys self.now.said.now.constants known → IfErr result (IsKnownFault (exports_constant self.now.own.now) (λ s. wrong.Undeclared s) self.now.source.now known names.now) }
        ensures taken { (known : List (List ℕ)) → HasKeys self.now.said.now.constants known → IfOk result (λ done. All (IsLocal (exports_constant self.now.own.now) self.now.source.now (λ s. is_among (spelled self.now.source.now s) known ≡ true)) names.now) }
    {
        for name in names {
            self.known_constant(*name)?;
        }
        Ok(())
    }

    // Local constants, with a type or without.
    fn locals_typed(
        &self,
        making: &mut Making,
        names: &[Spot],
        raw: &Option<RawType>,
    ) -> Result<(), ModuleSigFault>
        ensures names { making.new.names ≡ making.old.names }
        ensures operators { making.new.operators ≡ making.old.operators }
        ensures uses { making.new.uses ≡ making.old.uses }
        ensures grown { OnOk result (Grows making.old making.new) }
        ensures words { OnOk result ((words : List (List ℕ)) → HasWords making.old.constants words → HasWords making.new.constants (words ++ local_names self.now.source.now names.now raw.now)) }
        ensures kept { making.new.bodies.bodies ≡ making.old.bodies.bodies }
        ensures reads { OnOk result (ReadsOn making.old making.new (typed_locals self.now.source.now names.now raw.now) (local_names self.now.source.now names.now raw.now)) }
        ensures full { (said : List (Row IsSaid)) (words : List (List ℕ)) → Knows making.old.names said → HasWords making.old.constants words → IfErr result (HaveLocalsCause self.now.source.now words names.now raw.now) }
        ensures other { (said : List (Row IsSaid)) (defs : List (Row Definition)) (given : List (Row Ty)) (rows : List (Row Written)) (words : List (List ℕ)) → IsTaking making.old.names making.old.bodies making.old.constants said defs given rows words → IfErr result (HaveLocalsTypeCause self.now.source.now said defs given rows names.now raw.now) }
        ensures takes { OnOk result (TakesOn making.old making.new (typed_locals self.now.source.now names.now raw.now) (local_names self.now.source.now names.now raw.now)) }
        ensures refused { (said : List (Row IsSaid)) (known : List (List ℕ)) → Knows making.old.names said → HasKeys self.now.said.now.constants known → IfErr result (λ e. (e ≡ wrong.Sig reason.Memory) ⊎ AreLocalsRefused self.now.own.now self.now.source.now said known names.now raw.now e) }
        ensures taken { (said : List (Row IsSaid)) (known : List (List ℕ)) → Knows making.old.names said → HasKeys self.now.said.now.constants known → IfOk result (λ done. AreLocalsTaken self.now.own.now self.now.source.now said known names.now raw.now) }
    {
        match raw {
            Some(raw) => self.locals(making, names, raw),
            None => self.known_constants(names),
        }
    }

    fn abbreviation(
        &self,
        making: &mut Making,
        name: Spot,
        parameters: &[Spot],
        raw: &RawType,
    ) -> Result<(), ModuleSigFault>
        ensures names { making.new.names ≡ making.old.names }
        ensures operators { making.new.operators ≡ making.old.operators }
        ensures grown { OnOk result (Grows making.old making.new) }
        ensures constants { making.new.constants ≡ making.old.constants }
        ensures kept { making.new.bodies.bodies ≡ making.old.bodies.bodies }
        ensures uses { making.new.uses ≡ making.old.uses }
        ensures refused { (z : IsSeen) → Knows making.old.names z.said → KnowsUses (map (λ out. out.items) making.old.uses.ways.items) z → IfErr result (λ e. (e ≡ wrong.Sig reason.Memory) ⊎ ((f : IsFault) × IsAbbreviationWrong self.now.source.now z name parameters.now raw.now f × (e ≡ blamed_by (exports_kind self.now.own.now) self.now.source.now f))) }
        ensures taken { (z : IsSeen) → Knows making.old.names z.said → KnowsUses (map (λ out. out.items) making.old.uses.ways.items) z → IfOk result (λ done. IsSoundAbbreviation self.now.source.now z name parameters.now raw.now) }
        ensures other { (said : List (Row IsSaid)) (defs : List (Row Definition)) → Knows making.old.names said → HoldsBodies making.old.bodies.types.bank making.old.bodies.bodies.items said defs → IfErr result (λ e. (f : IsFault) × (e ≡ blamed_by (exports_kind self.now.own.now) self.now.source.now f) × IsOtherBodyIf self.now.source.now said defs name parameters.now raw.now f) }
    {
        match making.declare_abbreviation(self.source, name, parameters, raw) {
            Ok(()) => Ok(()),
            Err(fault) => Err(self.kinds_blamed(fault)),
        }
    }

    fn accumulate(&self, words: &[Spot]) -> Result<(), ModuleSigFault>
        ensures alike { OnOk result ((signatures modules : List (List ℕ)) → HasNumbers self.now.said.now.accum_sigs signatures → HasNumbers self.now.said.now.accumulates modules → All (IsAlike self.now.sights.now (length (first_names [] signatures)) modules) (map (λ s. spelled self.now.source.now s) words.now)) }
        ensures refused { (used : List IsSignature) (ds : List IsDeclaration) → AreSights self.now.own.now used self.now.source.now self.now.said.now self.now.sights.now ds → IfErr result (λ e. (e ≡ wrong.Sig reason.Memory) ⊎ AreModulesRefused self.now.own.now used self.now.source.now ds words.now e) }
        ensures taken { (used : List IsSignature) (ds : List IsDeclaration) → AreSights self.now.own.now used self.now.source.now self.now.said.now self.now.sights.now ds → IfOk result (λ done. AreModulesTaken self.now.own.now used self.now.source.now ds words.now) }
    {
        for word in words {
            let sight = self
                .said
                .sight_of_accumulate(self.sights, spelled_at(self.source, *word));
            check_word(*word, sight)?;
        }
        Ok(())
    }

    fn accum_sig(&self, words: &[Spot]) -> Result<(), ModuleSigFault>
        ensures alike { OnOk result ((signatures : List (List ℕ)) → HasNumbers self.now.said.now.accum_sigs signatures → All (IsAlike self.now.sights.now 0 signatures) (map (λ s. spelled self.now.source.now s) words.now)) }
        ensures refused { (used : List IsSignature) (ds : List IsDeclaration) → AreSights self.now.own.now used self.now.source.now self.now.said.now self.now.sights.now ds → IfErr result (λ e. (e ≡ wrong.Sig reason.Memory) ⊎ AreSignaturesRefused self.now.own.now used self.now.source.now ds words.now e) }
        ensures taken { (used : List IsSignature) (ds : List IsDeclaration) → AreSights self.now.own.now used self.now.source.now self.now.said.now self.now.sights.now ds → IfOk result (λ done. AreSignaturesTaken self.now.own.now used self.now.source.now ds words.now) }
    {
        for word in words {
            let sight = self
                .said
                .sight_of_accum_sig(self.sights, spelled_at(self.source, *word));
            check_word(*word, sight)?;
        }
        Ok(())
    }

    // Takes up a declaration.
    pub(crate) fn declare(
        &self,
        making: &mut Making,
        declaration: &Declaration,
    ) -> Result<(), ModuleSigFault>
        ensures names { making.new.names ≡ making.old.names }
        ensures operators { making.new.operators ≡ making.old.operators }
        ensures grown { OnOk result (Grows making.old making.new) }
        ensures words { OnOk result ((words : List (List ℕ)) → HasWords making.old.constants words → HasWords making.new.constants (words ++ constant_names_by self.now.source.now declaration.now)) }
        ensures uses { making.new.uses ≡ making.old.uses }
        ensures kept { making.new.bodies.bodies ≡ making.old.bodies.bodies }
        ensures reads { OnOk result (ReadsOn making.old making.new (typed_by self.now.source.now declaration.now) (constant_names_by self.now.source.now declaration.now)) }
        ensures full { (said : List (Row IsSaid)) (words : List (List ℕ)) → Knows making.old.names said → HasWords making.old.constants words → IfErr result (HasLineCause self.now.own.now self.now.source.now words declaration.now) }
        ensures other { (said : List (Row IsSaid)) (defs : List (Row Definition)) (given : List (Row Ty)) (rows : List (Row Written)) (words : List (List ℕ)) → IsTaking making.old.names making.old.bodies making.old.constants said defs given rows words → IfErr result (HasLineTypeCause self.now.own.now self.now.source.now said defs given rows declaration.now) }
        ensures takes { OnOk result (TakesOn making.old making.new (typed_by self.now.source.now declaration.now) (constant_names_by self.now.source.now declaration.now)) }
        ensures alike { OnOk result ((signatures modules : List (List ℕ)) → HasNumbers self.now.said.now.accum_sigs signatures → HasNumbers self.now.said.now.accumulates modules → AreWordsAlike self.now.sights.now self.now.source.now signatures modules (declaration.now ∷ [])) }
        ensures refused { (used : List IsSignature) (z : IsSeen) (ds : List IsDeclaration) → AreSights self.now.own.now used self.now.source.now self.now.said.now self.now.sights.now ds → Knows making.old.names z.said → KnowsUses (map (λ out. out.items) making.old.uses.ways.items) z → HasKeys self.now.said.now.kinds (kind_names_in self.now.source.now ds) → HasKeys self.now.said.now.constants (constant_names_in self.now.source.now ds) → IfErr result (λ e. (e ≡ wrong.Sig reason.Memory) ⊎ IsLineFault self.now.own.now used self.now.source.now z ds declaration.now e) }
        ensures taken { (used : List IsSignature) (z : IsSeen) (ds : List IsDeclaration) → AreSights self.now.own.now used self.now.source.now self.now.said.now self.now.sights.now ds → Knows making.old.names z.said → KnowsUses (map (λ out. out.items) making.old.uses.ways.items) z → HasKeys self.now.said.now.kinds (kind_names_in self.now.source.now ds) → HasKeys self.now.said.now.constants (constant_names_in self.now.source.now ds) → IfOk result (λ done. IsLineTaken self.now.own.now used self.now.source.now z ds declaration.now) }
    {
        match declaration {
            Declaration::Kinds(names, arity) => self.kinds(making, names.as_slice(), *arity),
            Declaration::LocalKinds(names, count) => {
                self.local_kinds_of(making, names.as_slice(), count)
            }
            Declaration::Constants(names, raw) => self.constants(making, names.as_slice(), raw),
            Declaration::Locals(names, raw) => self.locals_typed(making, names.as_slice(), raw),
            Declaration::Abbreviation(name, parameters, raw) => {
                self.abbreviation(making, *name, parameters.as_slice(), raw)
            }
            Declaration::Accumulate(words) => self.accumulate(words.as_slice()),
            Declaration::AccumSig(words) => self.accum_sig(words.as_slice()),
            Declaration::Fixities(_, _, _) => Ok(()),
        }
    }
}
