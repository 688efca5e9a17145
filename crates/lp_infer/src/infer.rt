// The typing of a text.
ghost use Rattle.std.specs.Prelude.{◌≡◌, ◌+◌, ◌<◌, ◌≤◌, length, map, take, All, IfOk, IfErr, IfSome, MatchOption};
ghost use Rattle.lp_syntax.specs.declared.text.RawTerm.{RawTerm};
ghost use Rattle.lp_infer.specs.Refusals.{IsDeclared, IsRefusal, Stands};
ghost use Rattle.lp_infer.specs.Texts.{HasNoTextTyping};
ghost use Rattle.lp_infer.specs.Numbering.{IsTyped};
ghost use Rattle.lp_infer.specs.Visits.{IsLookedUp};
ghost use Rattle.lp_infer.specs.inner.Parts.{all_arguments, HaveParts, IsShallow};
ghost use Rattle.lp_infer.specs.Formulas.{HasTypes, wanted_types};
ghost use Rattle.lp_term.specs.Nodes.{Extends};
ghost use Rattle.lp_term.specs.Within.{AreTypesOf};
ghost use Rattle.lp_type_unify.specs.Reading.{AreKept};

use crate::fault::InferFault;
use crate::generate::{Typing, equations_of};
use crate::lookup::{Lookup, Step, looked_up};
use crate::names::first_undeclared;
use crate::reading::Reading;
use crate::terms::Terms;
use lp_base::{Memory, Spot};
use lp_model::program::Typed;
use lp_sig::Signature;
use lp_syntax::{RawQuery, RawTerm};
use lp_term::{Bank, TypeId};
use lp_type_unify::{Bindings, unify};
use std::alloc::Global;

// The variables with their places and types.
fn variables(
    alloc: Global,
    bank: &Bank,
    places: &[Spot],
    types: &[TypeId],
) -> Result<Vec<(Spot, TypeId)>, Memory>
    requires known { AreTypesOf bank.now types.now }
    requires enough { length places.now ≤ length types.now }
    ensures known { IfOk result (λ variables. All (λ v. v.1.0 < length bank.now.types) variables.items) }
    ensures are { IfOk result (λ variables. (map (λ v. v.0) variables.items ≡ places.now) × (map (λ v. v.1) variables.items ≡ take (length places.now) types.now)) }
{
    let mut variables = Vec::new(alloc);
    for (at, place) in places.iter().enumerate() {
        let Some(id) = types.get(at).copied() else {
            unreachable!()
        };
        variables.push((*place, id))?;
    }
    Ok(variables)
}

// The typed formula, under what its type variables are bound to.
#[tactic(auto, using(lp_term::proofs::Within::kept_then))]
fn read_off(
    source: &[u8],
    steps: &[Step],
    places: &[Spot],
    typing: &Typing,
    bindings: &Bindings,
    bank: &mut Bank,
) -> Result<Typed, Memory>
    requires bound { AreKept typing.now.types bindings.now.made }
    requires shallow { All IsShallow steps.now }
    requires parts { HaveParts steps.now 0 }
    requires known { AreTypesOf typing.now.types typing.now.wanted.items }
    requires wanted { length typing.now.wanted.items ≡ length places.now + all_arguments steps.now }
    ensures kept { Extends bank.old bank.new }
    ensures stands { IfOk result (Stands bank.new) }
    ensures types { IfOk result (HasTypes source.now steps.now places.now (wanted_types typing.now bindings.now.made) bank.new) }
{
    let alloc = typing.alloc;
    let mut reading = Reading::new(alloc);
    let types = reading.read_all(&typing.types, bindings, typing.wanted.as_slice(), bank)?;
    let mut terms = Terms::new(alloc, places.len());
    let formula = terms.formula(source, places.len() as u64, types.as_slice(), steps, bank)?;
    let vars = variables(alloc, bank, places, types.as_slice())?;
    Ok(Typed {
        type_vars: reading.count(),
        vars,
        formula,
    })
}

// The typing of a text with its names looked up, if it has one.
#[tactic(auto, using(lp_term::proofs::Within::kept_then))]
fn typed(
    alloc: Global,
    signature: &Signature,
    source: &[u8],
    text: Lookup,
    bank: &mut Bank,
) -> Result<Option<Typed>, Memory>
    requires { (raw : RawTerm) × IsLookedUp signature.now source.now raw.nodes.items raw.root text }
    ensures kept { Extends bank.old bank.new }
    ensures stands { IfOk result (λ found. IfSome found (Stands bank.new)) }
    ensures typed { IfOk result (λ found. (raw : RawTerm) → IsLookedUp signature.now source.now raw.nodes.items raw.root text → MatchOption found (HasNoTextTyping signature.now source.now raw) (IsTyped signature.now source.now raw bank.new)) }
{
    let next = source.len() as u64 + text.notes.places.len() as u64;
    let Lookup {
        steps,
        variables,
        types,
        ..
    } = text;
    let typing = equations_of(
        alloc,
        signature,
        steps.as_slice(),
        variables.places.len(),
        types,
        next,
    )?;
    match unify(alloc, &typing.types, typing.pairs.as_slice())? {
        None => Ok(None),
        Some(bindings) => {
            let formula = read_off(
                source,
                steps.as_slice(),
                variables.places.as_slice(),
                &typing,
                &bindings,
                bank,
            )?;
            Ok(Some(formula))
        }
    }
}

// The typing of a text, if it has one.
fn typing_of_text(
    alloc: Global,
    signature: &Signature,
    source: &[u8],
    raw: &RawTerm,
    bank: &mut Bank,
) -> Result<Option<Typed>, Memory>
    ensures kept { Extends bank.old bank.new }
    ensures stands { IfOk result (λ found. IfSome found (Stands bank.new)) }
    ensures typed { IfOk result (λ found. MatchOption found (HasNoTextTyping signature.now source.now raw.now) (IsTyped signature.now source.now raw.now bank.new)) }
{
    let Some(text) = looked_up(alloc, signature, source, raw)? else {
        return Ok(None);
    };
    typed(alloc, signature, source, text, bank)
}

/// The principal typing of a sentence: of its variables the first in the text is the outermost index of the formula, and the
/// type variables are numbered by first place in the variables' types and then in the formula.
///
/// # Errors
/// `Undeclared` at the first name that is not declared; else `NoTyping` where no well-typed formula leaves the text.
pub fn type_formula(
    alloc: Global,
    signature: &Signature,
    source: &[u8],
    raw: &RawTerm,
    bank: &mut Bank,
) -> Result<Typed, InferFault>
    ensures kept { Extends bank.old bank.new }
    ensures stands { IfOk result (Stands bank.new) }
    ensures declared { IfOk result (λ _. IsDeclared signature.now source.now raw.now) }
    ensures typed { IfOk result (IsTyped signature.now source.now raw.now bank.new) }
    ensures refused { IfErr result (IsRefusal signature.now source.now raw.now) }
{
    if let Some(spot) = first_undeclared(alloc, signature, source, raw)? {
        return Err(InferFault::Undeclared(spot));
    }
    match typing_of_text(alloc, signature, source, raw, bank)? {
        None => Err(InferFault::NoTyping(raw.first)),
        Some(formula) => Ok(formula),
    }
}

/// The principal typing of a query, as that of a sentence.
///
/// # Errors
/// As for a sentence.
pub fn type_query(
    alloc: Global,
    signature: &Signature,
    source: &[u8],
    raw: &RawQuery,
    bank: &mut Bank,
) -> Result<Typed, InferFault>
    ensures kept { Extends bank.old bank.new }
    ensures stands { IfOk result (Stands bank.new) }
    ensures declared { IfOk result (λ _. IsDeclared signature.now source.now raw.now.term) }
    ensures typed { IfOk result (IsTyped signature.now source.now raw.now.term bank.new) }
    ensures refused { IfErr result (IsRefusal signature.now source.now raw.now.term) }
{
    type_formula(alloc, signature, source, &raw.term, bank)
}
