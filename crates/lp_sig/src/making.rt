// The declarations so far.
ghost use Rattle.std.specs.Prelude.{◌≡◌, ◌+◌, ◌<◌, ◌≤◌, List, [], length, map, IfOk, Some, All};
ghost use Rattle.lp_base.specs.declared.limits.TheConstants.{END_OF_NUMBERS};
ghost use Rattle.lp_sig.specs.Rows.{kind_row, number_row};
ghost use Rattle.lp_sig.specs.Knowing.{Knows, kinded_row, head_row, KnowsOperators};
ghost use Rattle.lp_sig.specs.Abbreviations.{Seen};
ghost use Rattle.lp_sig.specs.Entries.{parameters_row, HaveBodies, AreAbbreviations};
ghost use Rattle.lp_sig.specs.Holding.{KnowsSeen};
ghost use Rattle.lp_sig.specs.Constants.{Written, KnowsConstants, AreTyped, AreConstants, HaveNumbers};
ghost use Rattle.lp_sig.specs.Rows.{Row};
ghost use Rattle.lp_sig.specs.Modules.{numbered_names};
ghost use Rattle.lp_sig.specs.Worded.{HasWords, names_so_far};
ghost use Rattle.lp_sig.specs.Sights.{AreTheirEntries};
ghost use Rattle.lp_sig.specs.AsWritten.{HasWrittenBody};
ghost use Rattle.lp_sig.specs.Holding.{HoldsBodies};
ghost use Rattle.lp_sig.specs.Said.{Said, numbered};
ghost use Rattle.lp_sig.specs.Types.{Definition};
ghost use Rattle.lp_sig.specs.inner.Reading.{AreSettled};

use crate::bodies::Bodies;
use crate::constants::Constants;
use crate::entries::{AbbreviationEntry, KindEntry};
use crate::names::{Head, Kinded, Names, kind_number};
use crate::operators::Operators;
use crate::signature::Signature;
use crate::walk::Ways;
use lp_base::{END_OF_NUMBERS, MAX_ARGUMENTS, Memory};
use lp_term::TypeId;
use std::alloc::Global;

#[derive(Drop)]
pub(crate) struct Making {
    pub alloc: Global,
    pub names: Names,
    // The words of each abbreviation's body that name abbreviations.
    pub uses: Ways,
    pub bodies: Bodies,
    pub constants: Constants,
    pub operators: Operators,
}

// The entry of the kind at a place. One that passes a limit was refused where it is declared.
fn entry_of(alloc: Global, kind: &Kinded, place: usize) -> Result<KindEntry, Memory>
    ensures row { IfOk result (λ e. kind_row e ≡ (kind.now.name.items, (8 + place, kind.now.arity))) }
    ensures room { IfOk result (λ e. 8 + place < END_OF_NUMBERS) }
{
    let number = kind_number(place);
    if number >= END_OF_NUMBERS {
        return Err(Memory);
    }
    if kind.arity > MAX_ARGUMENTS as u32 {
        return Err(Memory);
    }
    let name = Vec::from_slice(alloc, kind.name.as_slice())?;
    Ok(KindEntry {
        name,
        number,
        arity: kind.arity as u8,
    })
}

// The entry of an abbreviation. One without a body, or with more than 255 parameters, was refused where it is declared.
fn abbreviation_of(
    alloc: Global,
    head: &Head,
    body: Option<TypeId>,
) -> Result<AbbreviationEntry, Memory>
    ensures row { IfOk result (λ e. parameters_row e ≡ head_row head.now) }
    ensures body { IfOk result (λ e. body ≡ Some e.body) }
{
    let Some(body) = body else {
        return Err(Memory);
    };
    if head.parameters > MAX_ARGUMENTS {
        return Err(Memory);
    }
    let name = Vec::from_slice(alloc, head.name.as_slice())?;
    Ok(AbbreviationEntry {
        name,
        type_vars: head.parameters as u8,
        body,
    })
}

// The kinds with their numbers.
fn entries_of(alloc: Global, kinds: &[Kinded]) -> Result<Vec<KindEntry>, Memory>
    ensures rows { IfOk result (λ entries. map kind_row entries.items ≡ numbered 8 (map kinded_row kinds.now)) }
    ensures room { IfOk result (λ entries. 8 + length kinds.now ≤ END_OF_NUMBERS) }
{
    let mut entries = Vec::new(alloc);
    for (place, kind) in kinds.iter().enumerate() {
        let entry = entry_of(alloc, kind, place)?;
        entries.push(entry)?;
    }
    Ok(entries)
}

impl Making {
    pub(crate) fn new(alloc: Global) -> Making
        ensures names { Knows result.names [] }
        ensures operators { KnowsOperators result.operators [] }
        ensures uses { map (λ out. out.items) result.uses.ways.items ≡ [] }
        ensures bodies { result.bodies.bodies.items ≡ [] }
        ensures constants { KnowsConstants result.bodies.types.bank result.constants [] [] [] }
        ensures typed { AreTyped result.constants }
        ensures words { HasWords result.constants [] }
        ensures empty { result.constants.constants.items ≡ [] }
    {
        Making {
            alloc,
            names: Names::new(alloc),
            uses: Ways::none(alloc),
            bodies: Bodies::new(alloc),
            constants: Constants::new(alloc),
            operators: Operators::new(alloc),
        }
    }

    // The abbreviations with their bodies.
    fn abbreviations(&self) -> Result<Vec<AbbreviationEntry>, Memory>
        ensures rows { IfOk result (λ entries. map parameters_row entries.items ≡ map head_row self.now.names.heads.items) }
        ensures bodies { IfOk result (λ entries. HaveBodies self.now.bodies.bodies.items 0 entries.items) }
    {
        let mut entries = Vec::new(self.alloc);
        for (place, head) in self.names.heads.iter().enumerate() {
            let entry = abbreviation_of(self.alloc, head, self.bodies.body_at(place))?;
            entries.push(entry)?;
        }
        Ok(entries)
    }

    // The signature of what was declared.
    pub(crate) fn finish(self) -> Result<Signature, Memory>
        ensures kinds { IfOk result (λ s. map kind_row s.kinds.items ≡ numbered 8 (map kinded_row self.names.kinds.items)) }
        ensures fixities { IfOk result (λ s. s.fixities ≡ self.operators.fixities) }
        ensures heads { IfOk result (λ s. map parameters_row s.abbreviations.items ≡ map head_row self.names.heads.items) }
        ensures words { IfOk result (λ s. map number_row s.constants.items ≡ numbered_names 32 (names_so_far self.constants)) }
        ensures bank { IfOk result (λ s. s.bank ≡ self.bodies.types.bank) }
        ensures room { IfOk result (λ s. 8 + length self.names.kinds.items ≤ END_OF_NUMBERS) }
        ensures typed { IfOk result (λ s. AreTheirEntries self.constants.constants.items s.constants.items) }
        ensures full { IfOk result (λ s. AreTyped self.constants) }
        ensures settled { IfOk result (λ s. (said : List (Row Said)) → Knows self.names said → AreSettled self.bodies.bodies.items said) }
        ensures bodies { IfOk result (λ s. (said : List (Row Said)) (defs : List (Row Definition)) → Knows self.names said → HoldsBodies self.bodies.types.bank self.bodies.bodies.items said defs → All (HasWrittenBody s said defs) s.abbreviations.items) }
        ensures abbreviations { IfOk result (λ s. (z : Seen) → KnowsSeen self z → AreAbbreviations s.bank z s.abbreviations.items) }
        ensures constants { IfOk result (λ s. (z : Seen) (rows : List (Row Written)) → KnowsConstants self.bodies.types.bank self.constants z.said z.definitions rows → AreConstants s.bank z.said z.definitions rows s.constants.items × HaveNumbers rows) }
    {
        let kinds = entries_of(self.alloc, self.names.kinds.as_slice())?;
        let abbreviations = self.abbreviations()?;
        let constants = self.constants.entries()?;
        Signature::of(
            self.alloc,
            self.bodies.into_bank(),
            kinds,
            constants,
            abbreviations,
            self.operators.into_entries(),
        )
    }
}
