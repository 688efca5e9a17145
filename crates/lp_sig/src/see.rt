// What a text sees of other signatures. A name that is seen again otherwise keeps its first declaration.
ghost use Rattle.std.specs.Prelude.{◌≡◌, ◌<◌, ◌⊎◌, ◌++◌, ℕ, List, [], ◌∷◌, map, length, true, false, nat_eq, Some, None, OnOk, IfOk, All, slice_get, if◌then◌else◌};
ghost use Rattle.std.specs.List.{range_with_len};
ghost use Rattle.indexmap.specs.IndexMap.{get};
ghost use Rattle.lp_term.specs.Nodes.{Nodes, Extends, type_tree};
ghost use Rattle.lp_term.specs.declared.node.TypeId.{TypeId};
ghost use Rattle.lp_standard.specs.declared.fixity.Fixity.{Fixity as IsFixity};
ghost use Rattle.lp_sig.specs.Rows.{Row, fixity_row};
ghost use Rattle.lp_sig.specs.Said.{Said};
ghost use Rattle.lp_sig.specs.Abbreviations.{Seen, KnowsUses, one_body};
ghost use Rattle.lp_sig.specs.SeenByModules.{seen_signature};
ghost use Rattle.lp_sig.specs.inner.Noting.{with_unused};
ghost use Rattle.lp_sig.specs.Knowing.{Knows, KnowsOperators};
ghost use Rattle.lp_sig.specs.Modules.{kind_said, abbreviation_said, said_of, constants_of};
ghost use Rattle.lp_sig.specs.Worded.{HasWords, is_met_word};
ghost use Rattle.lp_sig.specs.Named.{NamedTy, named, named_in, kind_name, kind_names, IsWhole, IsOrdered};
ghost use Rattle.lp_sig.specs.Sighted.{said_kinds, HasItsNumber, AreKinds, AreKindsHere, AreSeenTypes, AreCounted, GrowsBehind, PutsBehind, IsCountedEntry, IsSeenEntry, AreNew, SeenSo};
ghost use Rattle.lp_sig.specs.AsWritten.{bodies_of, named_body, HasWholeBodies};
ghost use Rattle.lp_sig.specs.inner.Given.{GivesBodies};
ghost use Rattle.lp_sig.specs.Holding.{IsTree};
ghost use Rattle.lp_sig.specs.Said.{names_in};
ghost use Rattle.lp_sig.specs.Words.{meaning_of};
ghost use Rattle.lp_sig.specs.GoingTogether.{named_constant};
ghost use Rattle.lp_sig.specs.inner.Telling.{first_sight, KindTells, KindsTell, AbbreviationTells, AbbreviationsTell, ConstantTells, ConstantsTell, SightTells, IsNumberHere, AreNumberedHere, IsTypeHere, IsMadeHere, AreTypesHere, EachKind, FitsHere, CanSee, CanSeeAll, CanSeeBodies, AreTypedHere, AreBodiesHere, IsRoomSight, KnowsBefore};
ghost use Rattle.lp_sig.specs.declared.signature.Signature.{Signature as IsSignature};
ghost use Rattle.lp_sig.specs.declared.see.Sight.TheVariants.{Alike, Otherwise};

use crate::constants::{Constants, DeclaredType, Known};
use crate::entries::{AbbreviationEntry, ConstantEntry, FixityEntry, KindEntry};
use crate::making::Making;
use crate::names::{Meaning, Names};
use crate::operators::Operators;
use crate::signature::Signature;
use crate::standard::FIRST_KIND;
use crate::store::Types;
use indexmap::IndexMap;
use lp_base::{END_OF_NUMBERS, Memory};
use lp_term::{Bank, TypeId, TypeNode};
use std::alloc::Global;

/// How a signature goes with what was seen before it.
#[derive(Clone, Copy, PartialEq, Eq)]
pub(crate) enum Sight {
    Alike,
    // It declares a name otherwise.
    Otherwise,
    // There are too many names.
    TooMany,
}

impl Sight {
    // The first thing that is wrong.
    fn and(self, other: Sight) -> Sight
        ensures alike { result ≡ Alike → (self ≡ Alike) × (other ≡ Alike) }
        ensures first { result ≡ first_sight self other }
    {
        match self {
            Sight::Alike => other,
            _ => self,
        }
    }

    fn if_alike(alike: bool) -> Sight
        ensures alike { result ≡ Alike → alike ≡ true }
        ensures first { result ≡ (if alike then Alike else Otherwise) }
    {
        if alike {
            Sight::Alike
        } else {
            Sight::Otherwise
        }
    }
}

// The number here of a kind that is seen.
fn kind_here(kinds: &IndexMap<u32, u32>, number: u32) -> Result<u32, Memory>
    ensures { IfOk result (λ here. ((number < 8) × (here ≡ number)) ⊎ (get nat_eq kinds.now number ≡ Some here)) }
{
    if number < FIRST_KIND {
        return Ok(number);
    }
    match kinds.get(&number) {
        Some(here) => Ok(*here),
        None => Err(Memory),
    }
}

// A type here, which was made before.
fn type_here(made: &[TypeId], id: TypeId) -> Result<TypeId, Memory>
    ensures { IfOk result (λ here. slice_get made.now id.0 ≡ Some here) }
{
    match made.get(id.0) {
        Some(here) => Ok(*here),
        None => Err(Memory),
    }
}

fn note_kind(kinds: &mut IndexMap<u32, u32>, there: u32, here: u32) -> Result<(), Memory>
    ensures { OnOk result ((k : ℕ) → get nat_eq kinds.new k ≡ (if nat_eq there k then Some here else get nat_eq kinds.old k)) }
{
    kinds.insert(there, here)?;
    Ok(())
}

fn types_here(alloc: Global, made: &[TypeId], ids: &[TypeId]) -> Result<Vec<TypeId>, Memory>
    ensures { IfOk result (λ here. map (λ t. slice_get made.now t.0) ids.now ≡ map (λ t. Some t) here.items) }
{
    let mut here = Vec::new(alloc);
    for id in ids.iter().copied() {
        let made = type_here(made, id)?;
        here.push(made)?;
    }
    Ok(here)
}

// The number of a kind whose name means an abbreviation here, which no kind has.
const NO_KIND: u32 = u32::MAX;

impl Names {
    // A kind that was announced, with its number here.
    fn kind_seen(&self, name: &[u8], arity: u32) -> (u32, Sight)
        ensures number { (said : List (Row Said)) → Knows self.now said → HasItsNumber said name.now result }
        ensures here { (said : List (Row Said)) → Knows self.now said → IsNumberHere said name.now result.0 ⊎ (meaning_of name.now said ≡ None) }
        ensures told { (said : List (Row Said)) → Knows self.now said → KindTells said name.now arity result.1 }
    {
        match self.meaning(name) {
            Some(Meaning::Kind(number, known)) => {
                let sight = Sight::if_alike(known == arity);
                if number >= END_OF_NUMBERS {
                    return (number, sight.and(Sight::TooMany));
                }
                (number, sight)
            }
            Some(Meaning::Abbreviation(_)) => (NO_KIND, Sight::Otherwise),
            None => (NO_KIND, Sight::Otherwise),
        }
    }

    // A kind that is seen, with its number here.
    fn see_kind(&mut self, entry: &KindEntry) -> Result<(u32, Sight), Memory>
        ensures names { OnOk result ((said : List (Row Said)) → Knows self.old said → Knows self.new (said ++ kind_said entry.now ∷ [])) }
        ensures number { IfOk result (λ r. (said : List (Row Said)) → Knows self.old said → HasItsNumber (said ++ kind_said entry.now ∷ []) entry.now.name.items r) }
        ensures here { IfOk result (λ r. (said : List (Row Said)) → Knows self.old said → IsNumberHere (said ++ kind_said entry.now ∷ []) entry.now.name.items r.0) }
        ensures told { IfOk result (λ r. (said : List (Row Said)) → Knows self.old said → KindTells (said ++ kind_said entry.now ∷ []) entry.now.name.items entry.now.arity r.1) }
    {
        self.announce_kind(entry.name.as_slice(), entry.arity as u32)?;
        Ok(self.kind_seen(entry.name.as_slice(), entry.arity as u32))
    }

    fn see_kinds(
        &mut self,
        entries: &[KindEntry],
        kinds: &mut IndexMap<u32, u32>,
    ) -> Result<Sight, Memory>
        ensures names { OnOk result ((said : List (Row Said)) → Knows self.old said → Knows self.new (said ++ map kind_said entries.now)) }
        ensures here { IfOk result (λ s. (said : List (Row Said)) → Knows self.old said → map (λ e. e.number) entries.now ≡ range_with_len 8 (length entries.now) → ((k n : ℕ) → get nat_eq kinds.old k ≡ Some n → ⊥) → (s ≡ Alike) ⊎ AreKinds (said ++ map kind_said entries.now) (map (λ e. e.name.items) entries.now) → AreKindsHere (said ++ map kind_said entries.now) (map (λ e. e.name.items) entries.now) kinds.new) }
        ensures numbers { OnOk result ((said : List (Row Said)) → Knows self.old said → map (λ e. e.number) entries.now ≡ range_with_len 8 (length entries.now) → ((k n : ℕ) → get nat_eq kinds.old k ≡ Some n → ⊥) → AreNumberedHere (said ++ map kind_said entries.now) (map (λ e. e.name.items) entries.now) kinds.new) }
        ensures told { IfOk result (λ s. (said more : List (Row Said)) → Knows self.old said → KindsTell ((said ++ map kind_said entries.now) ++ more) entries.now s) }
    {
        let mut all = Sight::Alike;
        for at in 0..entries.len() {
            let entry = &entries[at];
            let (number, sight) = self.see_kind(entry)?;
            note_kind(kinds, entry.number, number)?;
            all = all.and(sight);
        }
        Ok(all)
    }
}

impl Types {
    // A type that is seen, whose parts were made before.
    fn see_type(
        &mut self,
        bank: &Bank,
        id: TypeId,
        kinds: &IndexMap<u32, u32>,
        made: &[TypeId],
    ) -> Result<TypeId, Memory>
        ensures kept { Extends self.old.bank self.new.bank }
        ensures seen { IfOk result (λ t. (names here : List (List ℕ)) → ((k n : ℕ) → get nat_eq kinds.now k ≡ Some n → kind_name here n ≡ kind_name names k) → AreSeenTypes bank.now self.old.bank names here made.now → (t.0 < length self.new.bank.types) × (named (kind_name here) (type_tree self.new.bank t.0) ≡ named (kind_name names) (type_tree bank.now id.0))) }
        ensures told { IfOk result (λ t. (said : List (Row Said)) (names : List (List ℕ)) → AreNumberedHere said names kinds.now → AreTypesHere bank.now self.old.bank names said made.now →
            (t.0 < length self.new.bank.types) × (IsWhole (named (kind_name names) (type_tree bank.now id.0)) → IsTypeHere said (type_tree self.new.bank t.0) (named (kind_name names) (type_tree bank.now id.0)))) }
    {
        match bank.type_node(id) {
            TypeNode::Var(number) => self.var(number),
            TypeNode::Param(number) => self.param(number),
            TypeNode::Con(kind, ids) => {
                let number = kind_here(kinds, kind)?;
                let parts = types_here(self.alloc, made, ids)?;
                self.con(number, parts.as_slice())
            }
            TypeNode::Arrow(from, to) => {
                let left = type_here(made, from)?;
                let right = type_here(made, to)?;
                self.arrow(left, right)
            }
        }
    }

    // The types of a bank, in order.
    fn see_types(&mut self, bank: &Bank, kinds: &IndexMap<u32, u32>) -> Result<Vec<TypeId>, Memory>
        ensures kept { Extends self.old.bank self.new.bank }
        ensures count { IfOk result (λ made. length made.items ≡ length bank.now.types) }
        ensures seen { IfOk result (λ made. (names here : List (List ℕ)) → ((k n : ℕ) → get nat_eq kinds.now k ≡ Some n → kind_name here n ≡ kind_name names k) → AreSeenTypes bank.now self.new.bank names here made.items) }
        ensures told { IfOk result (λ made. (said : List (Row Said)) (names : List (List ℕ)) → AreNumberedHere said names kinds.now → AreTypesHere bank.now self.new.bank names said made.items) }
    {
        let mut made = Vec::new(self.alloc);
        for number in 0..bank.type_count() {
            let here = self.see_type(bank, TypeId(number), kinds, made.as_slice())?;
            made.push(here)?;
        }
        Ok(made)
    }
}

impl Constants {
    fn see_new(&mut self, name: &[u8], type_vars: u8, scheme: TypeId) -> Result<Sight, Memory>
        ensures words { OnOk result ((words : List (List ℕ)) → is_met_word name.now words ≡ false → HasWords self.old words → HasWords self.new (words ++ name.now ∷ [])) }
        ensures put { OnOk result (PutsBehind self.old self.new name.now (record { type_vars = type_vars; scheme = scheme })) }
        ensures room { IfOk result (IsRoomSight (length self.old.constants.items)) }
    {
        if self.put(name, DeclaredType { type_vars, scheme })? {
            return Ok(Sight::Alike);
        }
        Ok(Sight::TooMany)
    }

    fn see(
        &mut self,
        types: &mut Types,
        entry: &ConstantEntry,
        made: &[TypeId],
    ) -> Result<Sight, Memory>
        ensures words { OnOk result ((words : List (List ℕ)) → HasWords self.old words → HasWords self.new (words ++ entry.now.name.items ∷ [])) }
        ensures kept { Extends types.old.bank types.new.bank }
        ensures grown { OnOk result (GrowsBehind self.old self.new) }
        ensures seen { IfOk result (λ s. (words : List (List ℕ)) → HasWords self.old words → AreCounted types.old.bank self.old → IsCountedEntry types.old.bank made.now entry.now → AreCounted types.new.bank self.new × ((s ≡ Alike) ⊎ (is_met_word entry.now.name.items words ≡ false) → IsSeenEntry types.new.bank self.new made.now entry.now)) }
        ensures here { OnOk result ((said : List (Row Said)) (rows : List (Row NamedTy)) (t : NamedTy) → CanSee types.old.bank self.old said rows made.now entry.now t → AreTypedHere types.new.bank self.new said (rows ++ (entry.now.name.items, t) ∷ [])) }
        ensures told { IfOk result (λ s. (said : List (Row Said)) (rows : List (Row NamedTy)) (t : NamedTy) → CanSee types.old.bank self.old said rows made.now entry.now t → EachKind (FitsHere said) t → ConstantTells rows entry.now.name.items t s) }
    {
        let name = entry.name.as_slice();
        let scheme = type_here(made, entry.scheme)?;
        match self.known_as(types, name)? {
            Known::New => self.see_new(name, entry.type_vars, scheme),
            Known::Untyped => Ok(Sight::Otherwise),
            Known::Typed(known) => Ok(Sight::if_alike(types.are_equal(known, scheme))),
        }
    }

    fn see_all(
        &mut self,
        types: &mut Types,
        entries: &[ConstantEntry],
        made: &[TypeId],
    ) -> Result<Sight, Memory>
        ensures words { OnOk result ((words : List (List ℕ)) → HasWords self.old words → HasWords self.new (words ++ map (λ e. e.name.items) entries.now)) }
        ensures kept { Extends types.old.bank types.new.bank }
        ensures grown { OnOk result (GrowsBehind self.old self.new) }
        ensures seen { IfOk result (λ s. (words : List (List ℕ)) → HasWords self.old words → AreCounted types.old.bank self.old → All (IsCountedEntry types.old.bank made.now) entries.now → AreCounted types.new.bank self.new × ((s ≡ Alike) ⊎ AreNew words entries.now → All (IsSeenEntry types.new.bank self.new made.now) entries.now)) }
        ensures here { OnOk result ((u : IsSignature) (said : List (Row Said)) (rows : List (Row NamedTy)) → CanSeeAll types.old.bank self.old u said rows made.now entries.now → AreTypedHere types.new.bank self.new said (rows ++ map (named_constant u) entries.now)) }
        ensures told { IfOk result (λ s. (u : IsSignature) (said : List (Row Said)) (rows : List (Row NamedTy)) → CanSeeAll types.old.bank self.old u said rows made.now entries.now → All (λ e. EachKind (FitsHere said) (named_in u e.scheme)) entries.now →
            ConstantsTell (names_in rows) (rows ++ map (named_constant u) entries.now) u entries.now s) }
    {
        let mut all = Sight::Alike;
        for at in 0..entries.len() {
            let sight = self.see(types, &entries[at], made)?;
            all = all.and(sight);
        }
        Ok(all)
    }
}

impl Operators {
    // Takes up the fixities of a signature.
    fn see(&mut self, entries: &[FixityEntry]) -> Result<(), Memory>
        ensures { OnOk result ((said : List (Row (IsFixity × ℕ))) → KnowsOperators self.old said → KnowsOperators self.new (said ++ map fixity_row entries.now)) }
    {
        for at in 0..entries.len() {
            let entry = &entries[at];
            self.declare(entry.name.as_slice(), entry.fixity, entry.number)?;
        }
        Ok(())
    }
}

impl Making {
    // How an abbreviation that is known goes with this one.
    fn sight_of_abbreviation(&self, name: &[u8], parameters: usize, body: TypeId) -> Sight
        ensures told { (said : List (Row Said)) (rows : List (Row NamedTy)) (t : NamedTy) → Knows self.now.names said → AreBodiesHere self.now.bodies.types.bank self.now.bodies.bodies.items said rows →
            IsTree self.now.bodies.types.bank (λ T. IsTypeHere said T t) body → EachKind (FitsHere said) t → AbbreviationTells said rows name.now parameters t result }
    {
        match self.names.meaning(name) {
            None => Sight::Otherwise,
            Some(Meaning::Kind(_, _)) => Sight::Otherwise,
            Some(Meaning::Abbreviation(place)) => {
                if self.names.parameters_at(place) != parameters {
                    return Sight::Otherwise;
                }
                let is_other = self.bodies.has_other_body(place, Some(body));
                Sight::if_alike(!is_other)
            }
        }
    }

    fn see_abbreviation(
        &mut self,
        entry: &AbbreviationEntry,
        made: &[TypeId],
    ) -> Result<Sight, Memory>
        ensures names { OnOk result ((said : List (Row Said)) → Knows self.old.names said → Knows self.new.names (said ++ abbreviation_said entry.now ∷ [])) }
        ensures uses { OnOk result ((z : Seen) → Knows self.old.names z.said → KnowsUses (map (λ out. out.items) self.old.uses.ways.items) z → KnowsUses (map (λ out. out.items) self.new.uses.ways.items) (one_body z entry.now.name.items entry.now.type_vars [])) }
        ensures given { OnOk result ((there : Nodes) (names : List (List ℕ)) (said : List (Row Said)) (rows : List (Row NamedTy)) → Knows self.old.names said → GivesBodies self.old.bodies.types.bank self.old.bodies.bodies.items said rows →
            AreSeenTypes there self.old.bodies.types.bank names (said_kinds said) made.now → IsWhole (named (kind_name names) (type_tree there entry.now.body.0)) →
            GivesBodies self.new.bodies.types.bank self.new.bodies.bodies.items (said ++ abbreviation_said entry.now ∷ []) (rows ++ (entry.now.name.items, named (kind_name names) (type_tree there entry.now.body.0)) ∷ [])) }
        ensures here { OnOk result ((said : List (Row Said)) (rows : List (Row NamedTy)) (t : NamedTy) → Knows self.old.names said → AreBodiesHere self.old.bodies.types.bank self.old.bodies.bodies.items said rows → IsMadeHere self.old.bodies.types.bank said made.now entry.now.body t →
            AreBodiesHere self.new.bodies.types.bank self.new.bodies.bodies.items (said ++ abbreviation_said entry.now ∷ []) (rows ++ (entry.now.name.items, t) ∷ [])) }
        ensures told { IfOk result (λ s. (said : List (Row Said)) (rows : List (Row NamedTy)) (t : NamedTy) → Knows self.old.names said → AreBodiesHere self.old.bodies.types.bank self.old.bodies.bodies.items said rows → IsMadeHere self.old.bodies.types.bank said made.now entry.now.body t →
            EachKind (FitsHere said) t → AbbreviationTells (said ++ abbreviation_said entry.now ∷ []) (rows ++ (entry.now.name.items, t) ∷ []) entry.now.name.items entry.now.type_vars t s) }
        ensures constants { self.new.constants ≡ self.old.constants }
        ensures types { self.new.bodies.types ≡ self.old.bodies.types }
        ensures operators { self.new.operators ≡ self.old.operators }
    {
        let parameters = entry.type_vars as usize;
        let body = type_here(made, entry.body)?;
        let fresh = self.names.announce_head(entry.name.as_slice(), parameters)?;
        if fresh {
            self.uses.push(Vec::new(self.alloc))?;
            self.bodies.add(Some(body), None)?;
            return Ok(Sight::Alike);
        }
        Ok(self.sight_of_abbreviation(entry.name.as_slice(), parameters, body))
    }

    fn see_abbreviations(
        &mut self,
        entries: &[AbbreviationEntry],
        made: &[TypeId],
    ) -> Result<Sight, Memory>
        ensures names { OnOk result ((said : List (Row Said)) → Knows self.old.names said → Knows self.new.names (said ++ map abbreviation_said entries.now)) }
        ensures uses { OnOk result ((z : Seen) → Knows self.old.names z.said → KnowsUses (map (λ out. out.items) self.old.uses.ways.items) z → KnowsUses (map (λ out. out.items) self.new.uses.ways.items) (with_unused z entries.now)) }
        ensures given { OnOk result ((there : Nodes) (names : List (List ℕ)) (said : List (Row Said)) (rows : List (Row NamedTy)) → Knows self.old.names said → GivesBodies self.old.bodies.types.bank self.old.bodies.bodies.items said rows →
            AreSeenTypes there self.old.bodies.types.bank names (said_kinds said) made.now → All (λ e. IsWhole (named (kind_name names) (type_tree there e.body.0))) entries.now →
            GivesBodies self.new.bodies.types.bank self.new.bodies.bodies.items (said ++ map abbreviation_said entries.now) (rows ++ map (λ e. (e.name.items, named (kind_name names) (type_tree there e.body.0))) entries.now)) }
        ensures here { OnOk result ((u : IsSignature) (said : List (Row Said)) (rows : List (Row NamedTy)) → Knows self.old.names said → CanSeeBodies self.old.bodies.types.bank self.old.bodies.bodies.items u said rows made.now entries.now →
            AreBodiesHere self.new.bodies.types.bank self.new.bodies.bodies.items (said ++ map abbreviation_said entries.now) (rows ++ map (named_body u) entries.now)) }
        ensures told { IfOk result (λ s. (u : IsSignature) (said : List (Row Said)) (rows : List (Row NamedTy)) → Knows self.old.names said → CanSeeBodies self.old.bodies.types.bank self.old.bodies.bodies.items u said rows made.now entries.now →
            All (λ e. EachKind (FitsHere said) (named_in u e.body)) entries.now → AbbreviationsTell (said ++ map abbreviation_said entries.now) (rows ++ map (named_body u) entries.now) u entries.now s) }
        ensures constants { self.new.constants ≡ self.old.constants }
        ensures types { self.new.bodies.types ≡ self.old.bodies.types }
        ensures operators { self.new.operators ≡ self.old.operators }
    {
        let mut all = Sight::Alike;
        for at in 0..entries.len() {
            let sight = self.see_abbreviation(&entries[at], made)?;
            all = all.and(sight);
        }
        Ok(all)
    }

    // Takes up the names of a signature.
    pub(crate) fn see(&mut self, signature: &Signature) -> Result<Sight, Memory>
        ensures names { OnOk result ((said : List (Row Said)) → Knows self.old.names said → Knows self.new.names (said ++ said_of signature.now)) }
        ensures uses { OnOk result ((z : Seen) → Knows self.old.names z.said → KnowsUses (map (λ out. out.items) self.old.uses.ways.items) z → KnowsUses (map (λ out. out.items) self.new.uses.ways.items) (seen_signature z signature.now)) }
        ensures words { OnOk result ((words : List (List ℕ)) → HasWords self.old.constants words → HasWords self.new.constants (words ++ constants_of signature.now)) }
        ensures operators { self.new.operators ≡ self.old.operators }
        ensures kept { Extends self.old.bodies.types.bank self.new.bodies.types.bank }
        ensures grown { OnOk result (GrowsBehind self.old.constants self.new.constants) }
        ensures seen { IfOk result (λ s. (said : List (Row Said)) (words : List (List ℕ)) → Knows self.old.names said → HasWords self.old.constants words → AreCounted self.old.bodies.types.bank self.old.constants → IsOrdered signature.now →
            (s ≡ Alike) ⊎ (AreKinds (said ++ said_of signature.now) (kind_names signature.now) × AreNew words signature.now.constants.items) → AreCounted self.new.bodies.types.bank self.new.constants × SeenSo self.new (said ++ said_of signature.now) signature.now) }
        ensures given { IfOk result (λ s. (said : List (Row Said)) (rows : List (Row NamedTy)) → Knows self.old.names said → GivesBodies self.old.bodies.types.bank self.old.bodies.bodies.items said rows → IsOrdered signature.now → HasWholeBodies signature.now →
            (s ≡ Alike) ⊎ AreKinds (said ++ said_of signature.now) (kind_names signature.now) → GivesBodies self.new.bodies.types.bank self.new.bodies.bodies.items (said ++ said_of signature.now) (rows ++ bodies_of signature.now)) }
        ensures stays { OnOk result ((before : List IsSignature) → KnowsBefore self.old before → KnowsBefore self.new (before ++ signature.now ∷ [])) }
        ensures told { IfOk result (λ s. (before : List IsSignature) → KnowsBefore self.old before → SightTells before signature.now s) }
    {
        let mut numbers = IndexMap::new(self.alloc);
        let of_kinds = self.names.see_kinds(signature.kinds(), &mut numbers)?;
        let made = self.bodies.types.see_types(signature.bank(), &numbers)?;
        let of_abbreviations = self.see_abbreviations(signature.abbreviations(), made.as_slice())?;
        let of_constants = self.constants.see_all(
            &mut self.bodies.types,
            signature.constants(),
            made.as_slice(),
        )?;
        Ok(of_kinds.and(of_abbreviations).and(of_constants))
    }

    // Takes up the fixities of a signature.
    pub(crate) fn see_fixities(&mut self, signature: &Signature) -> Result<(), Memory>
        ensures names { self.new.names ≡ self.old.names }
        ensures uses { self.new.uses ≡ self.old.uses }
        ensures bodies { self.new.bodies ≡ self.old.bodies }
        ensures constants { self.new.constants ≡ self.old.constants }
        ensures operators { OnOk result ((said : List (Row (IsFixity × ℕ))) → KnowsOperators self.old.operators said → KnowsOperators self.new.operators (said ++ map fixity_row signature.now.fixities.items)) }
    {
        self.operators.see(signature.fixities())
    }
}
