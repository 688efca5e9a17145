// The constants so far, each with the type of its first declaration.
ghost use Rattle.std.specs.Prelude.{◌≡◌, ◌<◌, ◌≤◌, ◌+◌, ◌++◌, ◌⊎◌, ℕ, List, [], ◌∷◌, length, map, Some, None, true, false, is_some, Contains, IfErr, IfOk, IfSome, OnOk};
ghost use Rattle.lp_base.specs.declared.limit.Limit.TheVariants as limit;
ghost use Rattle.lp_base.specs.declared.limits.TheConstants.{END_OF_NUMBERS};
ghost use Rattle.lp_term.specs.Nodes.{Nodes, Extends, type_tree};
ghost use Rattle.lp_term.specs.declared.node.TypeId.{TypeId as IsTypeId};
ghost use Rattle.lp_sig.specs.declared.fault.SigFault.TheVariants as fault;
ghost use Rattle.lp_sig.specs.Pieces.{spelled};
ghost use Rattle.lp_sig.specs.Rows.{Row, found, number_row};
ghost use Rattle.lp_sig.specs.Standard.{standard_constants};
ghost use Rattle.lp_sig.specs.Said.{Said, each};
ghost use Rattle.lp_sig.specs.Types.{Definition};
ghost use Rattle.lp_sig.specs.Abbreviations.{Seen};
ghost use Rattle.lp_sig.specs.Standing.{TypeStands};
ghost use Rattle.lp_sig.specs.Constants.{Written, IsNoted, IsConstant, IsTyped, IfTyped, KnowsConstants, AreTyped, AreTypedIf, FirstStands, IsTakenConstant, AreTakenConstants, IsKnownAs, AreConstants, HaveNumbers, IsConstantFault, IsFirstConstant};
ghost use Rattle.lp_sig.specs.Modules.{numbered_names};
ghost use Rattle.lp_sig.specs.Worded.{HasWords, is_met_word, is_met, names_so_far};
ghost use Rattle.lp_sig.specs.ModuleFaults.{IsNewFault};
ghost use Rattle.lp_sig.specs.Sighted.{AreCounted, GrowsBehind, PutsBehind, IsTreeOf};
ghost use Rattle.lp_sig.specs.Sights.{AreTheirEntries};
ghost use Rattle.lp_sig.specs.Differing.{HasNameCause};
ghost use Rattle.lp_sig.specs.inner.Reading.{CanDeclare, AreDeclaredAs};
ghost use Rattle.lp_sig.specs.inner.Taking.{IsKnownId, IsInside, AreOtherIds, AddsNames};
ghost use Rattle.lp_sig.specs.declared.constants.Constant.{Constant as IsNamed};
ghost use Rattle.lp_sig.specs.inner.Telling.{IsRoom, IsKnownType};
ghost use Rattle.lp_sig.specs.declared.constants.DeclaredType.{DeclaredType as IsDeclaredType};
ghost use Rattle.lp_sig.specs.declared.constants.Known.TheVariants as known;

use crate::entries::ConstantEntry;
use crate::fault::SigFault;
use crate::pieces::spelled_at;
use crate::places::Places;
use crate::standard::{FIRST_CONSTANT, standard_constant, standard_type};
use crate::store::Types;
use lp_base::{END_OF_NUMBERS, Limit, Memory, Spot};
use lp_term::TypeId;
use std::alloc::Global;

/// A declared type, in which the type variables are those below `type_vars`.
#[derive(Clone, Copy)]
pub(crate) struct DeclaredType {
    pub type_vars: u8,
    pub scheme: TypeId,
}

// A constant with the type of its first declaration, which is missing where an abbreviation in it has a fault.
#[derive(Drop)]
pub(crate) struct Constant {
    pub name: Vec<u8>,
    pub declared: Option<DeclaredType>,
}

#[derive(Drop)]
pub(crate) struct Constants {
    alloc: Global,
    constants: Vec<Constant>,
    places: Places,
}

// What is known of a name.
#[derive(Clone, Copy)]
pub(crate) enum Known {
    New,
    // Its type has a fault.
    Untyped,
    Typed(TypeId),
}

// The number of the constant at a place, if it has one.
fn constant_number(place: usize) -> Option<u32>
    ensures some { IfSome result (λ n. (n ≡ 32 + place) × (32 + place < END_OF_NUMBERS)) }
    ensures none { result ≡ None → END_OF_NUMBERS ≤ 32 + place }
{
    let number = FIRST_CONSTANT.saturating_add(place.min(u32::MAX as usize) as u32);
    if number >= END_OF_NUMBERS {
        return None;
    }
    Some(number)
}

// A constant with a type wants a number.
fn check_number(declared: Option<DeclaredType>, place: usize) -> Result<(), SigFault>
    ensures refused { IfErr result (λ e. (e ≡ fault.Limit limit.Names) × ((d : DeclaredType) × (declared ≡ Some d)) × (END_OF_NUMBERS ≤ 32 + place)) }
    ensures taken { IfOk result (λ done. IfTyped declared (λ d. 32 + place < END_OF_NUMBERS)) }
{
    match declared {
        None => Ok(()),
        Some(_) => match constant_number(place) {
            Some(_) => Ok(()),
            None => Err(SigFault::Limit(Limit::Names)),
        },
    }
}

// The entry of the constant at a place. One without a type or a number was refused where it is declared.
fn entry_of(alloc: Global, constant: &Constant, place: usize) -> Result<ConstantEntry, Memory>
    ensures is { IfOk result (λ e. (b : Nodes) (said : List (Row Said)) (defs : List (Row Definition)) (row : Row Written) → IsNoted b said defs (32 + place) row constant.now → IsConstant b said defs (32 + place) row e) }
    ensures number { IfOk result (λ e. 32 + place < END_OF_NUMBERS) }
    ensures row { IfOk result (λ e. number_row e ≡ (constant.now.name.items, 32 + place)) }
    ensures typed { IfOk result (λ e. (d : IsDeclaredType) → constant.now.declared ≡ Some d → (e.type_vars ≡ d.type_vars) × (e.scheme ≡ d.scheme)) }
    ensures full { IfOk result (λ e. is_some constant.now.declared ≡ true) }
{
    let Some(declared) = constant.declared else {
        return Err(Memory);
    };
    let Some(number) = constant_number(place) else {
        return Err(Memory);
    };
    let name = Vec::from_slice(alloc, constant.name.as_slice())?;
    Ok(ConstantEntry {
        name,
        number,
        type_vars: declared.type_vars,
        scheme: declared.scheme,
    })
}

impl Constants {
    pub(crate) fn new(alloc: Global) -> Constants
        ensures typed { AreTyped result }
        ensures known { (b : Nodes) (said : List (Row Said)) (defs : List (Row Definition)) → KnowsConstants b result said defs [] }
        ensures words { HasWords result [] }
        ensures empty { result.constants.items ≡ [] }
    {
        Constants {
            alloc,
            constants: Vec::new(alloc),
            places: Places::new(alloc),
        }
    }

    // The entries of a signature.
    pub(crate) fn entries(&self) -> Result<Vec<ConstantEntry>, Memory>
        ensures are { IfOk result (λ entries. (b : Nodes) (said : List (Row Said)) (defs : List (Row Definition)) (rows : List (Row Written)) → KnowsConstants b self.now said defs rows → AreConstants b said defs rows entries.items) }
        ensures numbers { IfOk result (λ entries. (b : Nodes) (said : List (Row Said)) (defs : List (Row Definition)) (rows : List (Row Written)) → KnowsConstants b self.now said defs rows → HaveNumbers rows) }
        ensures rows { IfOk result (λ entries. map number_row entries.items ≡ numbered_names 32 (names_so_far self.now)) }
        ensures typed { IfOk result (λ entries. AreTheirEntries self.now.constants.items entries.items) }
        ensures full { IfOk result (λ entries. AreTyped self.now) }
    {
        let mut entries = Vec::new(self.alloc);
        for (place, constant) in self.constants.iter().enumerate() {
            let entry = entry_of(self.alloc, constant, place)?;
            entries.push(entry)?;
        }
        Ok(entries)
    }

    // A constant behind the others. One with a type wants a number.
    pub(crate) fn add(
        &mut self,
        word: &[u8],
        declared: Option<DeclaredType>,
    ) -> Result<(), SigFault>
        ensures full { IfErr result (λ e. (e ≡ fault.Memory) ⊎ ((e ≡ fault.Limit limit.Names) × ((d : DeclaredType) × (declared ≡ Some d)) × (END_OF_NUMBERS ≤ 32 + length self.old.constants.items))) }
        ensures added { OnOk result ((b : Nodes) (said : List (Row Said)) (defs : List (Row Definition)) (rows : List (Row Written)) (w : Written) → KnowsConstants b self.old said defs rows → (found word.now standard_constants ≡ None) × (found word.now rows ≡ None) → IfTyped declared (IsTyped b said defs w) → KnowsConstants b self.new said defs (rows ++ (word.now, w) ∷ [])) }
        ensures typed { OnOk result ((from : ℕ) (z : Seen) (rows : List (Row Written)) (w : Written) → (found word.now standard_constants ≡ None) × (found word.now rows ≡ None) → AreTypedIf from z rows self.old → (TypeStands from z w.text w.raw → is_some declared ≡ true) → AreTypedIf from z (rows ++ (word.now, w) ∷ []) self.new) }
        ensures grown { OnOk result (GrowsBehind self.old self.new) }
        ensures room { OnOk result (IfTyped declared (λ d. 32 + length self.old.constants.items < END_OF_NUMBERS)) }
        ensures put { OnOk result ((d : DeclaredType) → declared ≡ Some d → PutsBehind self.old self.new word.now d) }
        ensures adds { OnOk result ((k : IsNamed) → Contains self.new.constants.items k → Contains self.old.constants.items k ⊎ ((k.name.items ≡ word.now) × (k.declared ≡ declared))) }
        ensures words { OnOk result ((words : List (List ℕ)) → is_met_word word.now words ≡ false → HasWords self.old words → HasWords self.new (words ++ word.now ∷ [])) }
    {
        let place = self.constants.len();
        check_number(declared, place)?;
        let name = Vec::from_slice(self.alloc, word)?;
        self.constants.push(Constant { name, declared })?;
        self.places.add(word, place)?;
        Ok(())
    }

    // A constant of a signature behind the others. Says whether there is a number for it.
    pub(crate) fn put(&mut self, word: &[u8], declared: DeclaredType) -> Result<bool, Memory>
        ensures words { OnOk result ((words : List (List ℕ)) → is_met_word word.now words ≡ false → HasWords self.old words → HasWords self.new (words ++ word.now ∷ [])) }
        ensures put { OnOk result (PutsBehind self.old self.new word.now declared) }
        ensures room { IfOk result (IsRoom (length self.old.constants.items)) }
    {
        let place = self.constants.len();
        let name = Vec::from_slice(self.alloc, word)?;
        self.constants.push(Constant {
            name,
            declared: Some(declared),
        })?;
        self.places.add(word, place)?;
        Ok(constant_number(place).is_some())
    }

    // The type with which a name was declared before.
    pub(crate) fn known_as(&self, types: &mut Types, word: &[u8]) -> Result<Known, Memory>
        ensures kept { Extends types.old.bank types.new.bank }
        ensures is { IfOk result (λ k. (said : List (Row Said)) (defs : List (Row Definition)) (rows : List (Row Written)) → KnowsConstants types.old.bank self.now said defs rows → IsKnownAs types.new.bank said defs rows word.now k) }
        ensures untyped { IfOk result (λ k. k ≡ known.Untyped → (from : ℕ) (z : Seen) (rows : List (Row Written)) → KnowsConstants types.old.bank self.now z.said z.definitions rows → AreTypedIf from z rows self.now → FirstStands from z rows word.now → ⊥) }
        ensures met { IfOk result (λ k. (words : List (List ℕ)) → HasWords self.now words → is_met_word word.now words ≡ is_met k) }
        ensures tree { IfOk result (λ k. (words : List (List ℕ)) → HasWords self.now words → AreCounted types.old.bank self.now → IsTreeOf types.new.bank self.now word.now k) }
        ensures never { IfOk result (λ k. k ≡ known.Untyped → AreTyped self.now → ⊥) }
        ensures known { IfOk result (λ k. (words : List (List ℕ)) → HasWords self.now words → (t : IsTypeId) → k ≡ known.Typed t → IsKnownId types.new.bank self.now word.now t) }
        ensures known_type { IfOk result (λ k. (words : List (List ℕ)) → HasWords self.now words → IsKnownType types.new.bank self.now word.now k) }
    {
        if let Some(number) = standard_constant(word) {
            let known = standard_type(types, number)?;
            return Ok(Known::Typed(known));
        }
        let Some(place) = self.places.of(word) else {
            return Ok(Known::New);
        };
        let Some(constant) = self.constants.get(place) else {
            return Ok(Known::New);
        };
        match constant.declared {
            Some(declared) => Ok(Known::Typed(declared.scheme)),
            None => Ok(Known::Untyped),
        }
    }

    // A name that was declared before has the same type; a new one gets the next number.
    pub(crate) fn declare(
        &mut self,
        types: &mut Types,
        source: &[u8],
        name: Spot,
        declared: Option<DeclaredType>,
    ) -> Result<(), SigFault>
        ensures kept { Extends types.old.bank types.new.bank }
        ensures reason { IfErr result (λ e. (e ≡ fault.Memory) ⊎ IsNewFault (name ∷ []) e) }
        ensures grown { OnOk result (GrowsBehind self.old self.new) }
        ensures why { IfErr result (λ e. (e ≡ fault.Memory) ⊎ ((d : DeclaredType) × (declared ≡ Some d) × ((said : List (Row Said)) (defs : List (Row Definition)) (rows : List (Row Written)) → KnowsConstants types.old.bank self.old said defs rows → d.scheme.0 < length types.old.bank.types → IsConstantFault said defs rows (spelled source.now name) (type_tree types.old.bank d.scheme.0) name e))) }
        ensures known { OnOk result ((said : List (Row Said)) (defs : List (Row Definition)) (rows : List (Row Written)) (w : Written) → KnowsConstants types.old.bank self.old said defs rows → IfTyped declared (IsTyped types.old.bank said defs w) → KnowsConstants types.new.bank self.new said defs (rows ++ (spelled source.now name, w) ∷ [])) }
        ensures typed { OnOk result ((from : ℕ) (z : Seen) (rows : List (Row Written)) (w : Written) → KnowsConstants types.old.bank self.old z.said z.definitions rows → AreTypedIf from z rows self.old → (TypeStands from z w.text w.raw → is_some declared ≡ true) → AreTypedIf from z (rows ++ (spelled source.now name, w) ∷ []) self.new) }
        ensures taken { OnOk result ((from : ℕ) (z : Seen) (rows : List (Row Written)) (w : Written) → KnowsConstants types.old.bank self.old z.said z.definitions rows → IfTyped declared (IsTyped types.old.bank z.said z.definitions w) → AreTypedIf from z rows self.old → (TypeStands from z w.text w.raw → is_some declared ≡ true) → IsTakenConstant from z rows (spelled source.now name, w)) }
        ensures words { OnOk result ((words : List (List ℕ)) → HasWords self.old words → HasWords self.new (words ++ spelled source.now name ∷ [])) }
        ensures tree { OnOk result ((words : List (List ℕ)) (d : DeclaredType) → declared ≡ Some d → CanDeclare types.old.bank self.old words d → AreDeclaredAs types.new.bank self.new source.now (name ∷ []) d) }
        ensures adds { OnOk result (AddsNames self.old self.new source.now (name ∷ []) declared) }
        ensures full { (words : List (List ℕ)) → HasWords self.old words → IfErr result (HasNameCause source.now words (name ∷ [])) }
        ensures other { (words : List (List ℕ)) → HasWords self.old words → IfErr result (AreOtherIds source.now types.new.bank self.old (name ∷ []) declared) }
    {
        let word = spelled_at(source, name);
        match self.known_as(types, word)? {
            Known::New => self.add(word, declared),
            Known::Untyped => Ok(()),
            Known::Typed(known) => {
                let Some(new) = declared else {
                    return Ok(());
                };
                if !types.are_equal(known, new.scheme) {
                    return Err(SigFault::Differ(name));
                }
                Ok(())
            }
        }
    }

    pub(crate) fn declare_all(
        &mut self,
        types: &mut Types,
        source: &[u8],
        names: &[Spot],
        declared: Option<DeclaredType>,
    ) -> Result<(), SigFault>
        ensures kept { Extends types.old.bank types.new.bank }
        ensures reason { IfErr result (λ e. (e ≡ fault.Memory) ⊎ IsNewFault names.now e) }
        ensures grown { OnOk result (GrowsBehind self.old self.new) }
        ensures why { IfErr result (λ e. (e ≡ fault.Memory) ⊎ ((d : DeclaredType) × (declared ≡ Some d) × ((from : ℕ) (z : Seen) (rows : List (Row Written)) (w : Written) → KnowsConstants types.old.bank self.old z.said z.definitions rows → IsTyped types.old.bank z.said z.definitions w d → d.type_vars ≤ 255 → AreTypedIf from z rows self.old → IsFirstConstant from source.now z rows names.now w e))) }
        ensures known { OnOk result ((said : List (Row Said)) (defs : List (Row Definition)) (rows : List (Row Written)) (w : Written) → KnowsConstants types.old.bank self.old said defs rows → IfTyped declared (IsTyped types.old.bank said defs w) → KnowsConstants types.new.bank self.new said defs (rows ++ each source.now w names.now)) }
        ensures typed { OnOk result ((from : ℕ) (z : Seen) (rows : List (Row Written)) (w : Written) → KnowsConstants types.old.bank self.old z.said z.definitions rows → IfTyped declared (IsTyped types.old.bank z.said z.definitions w) → AreTypedIf from z rows self.old → (TypeStands from z w.text w.raw → is_some declared ≡ true) → AreTypedIf from z (rows ++ each source.now w names.now) self.new) }
        ensures taken { OnOk result ((from : ℕ) (z : Seen) (rows : List (Row Written)) (w : Written) → KnowsConstants types.old.bank self.old z.said z.definitions rows → IfTyped declared (IsTyped types.old.bank z.said z.definitions w) → AreTypedIf from z rows self.old → (TypeStands from z w.text w.raw → is_some declared ≡ true) → AreTakenConstants from z rows (each source.now w names.now)) }
        ensures words { OnOk result ((words : List (List ℕ)) → HasWords self.old words → HasWords self.new (words ++ map (λ s. spelled source.now s) names.now)) }
        ensures trees { OnOk result ((words : List (List ℕ)) (d : DeclaredType) → declared ≡ Some d → CanDeclare types.old.bank self.old words d → AreDeclaredAs types.new.bank self.new source.now names.now d) }
        ensures adds { OnOk result (AddsNames self.old self.new source.now names.now declared) }
        ensures full { (words : List (List ℕ)) → HasWords self.old words → IfErr result (HasNameCause source.now words names.now) }
        ensures other { (words : List (List ℕ)) → IsInside types.old.bank declared → HasWords self.old words → IfErr result (AreOtherIds source.now types.new.bank self.old names.now declared) }
    {
        for name in names {
            self.declare(types, source, *name, declared)?;
        }
        Ok(())
    }
}
