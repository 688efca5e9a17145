// Types put in for type variables, and values for the variables of a query.
ghost use Rattle.std.specs.Prelude.{◌≡◌, ◌<◌, ◌-◌, suc, length, All, IfOk, IfSome, None, OnOk};
ghost use Rattle.lp_calculus.specs.Types.{instance};
ghost use Rattle.lp_calculus.specs.Typing.{o_type};
ghost use Rattle.lp_calculus.specs.Typing as typing;
ghost use Rattle.lp_calculus.specs.Instance.{instance_term};
ghost use Rattle.lp_term.specs.Nodes.{Extends, Nodes, tree, type_tree};
ghost use Rattle.lp_term.specs.Spine.{LooseBelow};
ghost use Rattle.lp_model.specs.Index.{at, instantiate};
ghost use Rattle.lp_cert.specs.Facts.{AreInside, IsKnown};
ghost use Rattle.lp_cert.specs.Same.{terms_in, types_in};
ghost use Rattle.lp_cert.specs.inner.Put.{IsPut};

use crate::form::is_inside;
use crate::known::Known;
use lp_base::Memory;
use lp_standard::Kind;
use lp_term::{
    Bank, Changed, Mapping, TermChange, TermId, TypeChange, TypeId, put_constructor, substitute,
};
use std::alloc::Global;

// A type for each type variable, by number, and another one for those that are too many.
#[derive(Clone, Copy)]
pub(crate) struct Filling<'a> {
    pub(crate) types: &'a [TypeId],
    pub(crate) other: TypeId,
}

impl Mapping for Filling<'_> {
    ghost use Rattle.lp_cert.specs.Filling.{told_by};

    ghost told = { λ f. told_by f };

    fn kind(&self, kind: u32) -> u32 {
        kind
    }

    fn constant(&self, constant: u32) -> u32 {
        constant
    }

    fn type_variable(&self, variable: u64) -> TypeChange {
        match self.types.get(variable as usize) {
            Some(of) => TypeChange::Is(*of),
            None => TypeChange::Is(self.other),
        }
    }

    fn logic_variable(&self, _variable: u64) -> TermChange {
        TermChange::Stays
    }
}

// `o`, which stands for the type variables that are too many.
pub(crate) fn put_proposition(bank: &mut Bank) -> Result<TypeId, Memory>
    ensures kept { Extends bank.old bank.new }
    ensures within { IfOk result (λ made. made.0 < length bank.new.types) }
    ensures tree { IfOk result (λ made. type_tree bank.new made.0 ≡ o_type) }
{
    put_constructor(bank, Kind::Proposition.number(), &[])
}

// The term with the types for its type variables.
pub(crate) fn term_at(
    alloc: Global,
    bank: &mut Bank,
    types: &[TypeId],
    term: TermId,
) -> Result<TermId, Memory>
    ensures kept { Extends bank.old bank.new }
    ensures within { IfOk result (λ made. made.0 < length bank.new.terms) }
    ensures tree { IfOk result (λ made. AreInside (length bank.old.types) types.now → term.0 < length bank.old.terms → (b : Nodes) → Extends bank.new b → tree b made.0 ≡ instance_term (typing.type_at (types_in b types.now)) (tree b term.0)) }
{
    let other = put_proposition(bank)?;
    let filling = Filling { types, other };
    let mut changed = Changed::new(alloc);
    let made = changed.change(alloc, &filling, term, bank)?;
    Ok(made)
}

// The type with the types for its type variables.
pub(crate) fn type_at(
    alloc: Global,
    bank: &mut Bank,
    types: &[TypeId],
    of: TypeId,
) -> Result<TypeId, Memory>
    ensures kept { Extends bank.old bank.new }
    ensures within { IfOk result (λ made. made.0 < length bank.new.types) }
    ensures tree { IfOk result (λ made. AreInside (length bank.old.types) types.now → of.0 < length bank.old.types → (b : Nodes) → Extends bank.new b → type_tree b made.0 ≡ instance (typing.type_at (types_in b types.now)) (type_tree b of.0)) }
{
    let other = put_proposition(bank)?;
    let filling = Filling { types, other };
    let mut changed = Changed::new(alloc);
    let made = changed.change_type(alloc, &filling, of, bank)?;
    Ok(made)
}

// The term with the closed value for its index 0, if both stand in the bank and the value is closed.
fn put_value(
    alloc: Global,
    bank: &mut Bank,
    known: &mut Known,
    term: TermId,
    value: TermId,
) -> Result<Option<TermId>, Memory>
    requires known { IsKnown bank.old known.old }
    ensures kept { Extends bank.old bank.new }
    ensures known { OnOk result (IsKnown bank.new known.new) }
    ensures within { IfOk result (λ found. IfSome found (λ made. made.0 < length bank.new.terms)) }
    ensures none { IfOk result (λ found. found ≡ None → term.0 < length bank.old.terms → value.0 < length bank.old.terms → LooseBelow 0 0 (tree bank.old value.0) → ⊥) }
    ensures put { IfOk result (λ found. IfSome found (λ made. (b : Nodes) → Extends bank.new b → IsPut (tree b value.0) (tree b term.0) (tree b made.0))) }
{
    if !is_inside(bank, term) {
        return Ok(None);
    }
    if !is_inside(bank, value) {
        return Ok(None);
    }
    if !known.is_loose_below(bank, 0, value)? {
        return Ok(None);
    }
    let made = substitute(alloc, bank, term, value)?;
    Ok(Some(made))
}

// The term with the closed values for its loose indices, of which the first is the greatest.
pub(crate) fn put_values(
    alloc: Global,
    bank: &mut Bank,
    known: &mut Known,
    term: TermId,
    values: &[TermId],
) -> Result<Option<TermId>, Memory>
    requires known { IsKnown bank.old known.old }
    ensures kept { Extends bank.old bank.new }
    ensures known { OnOk result (IsKnown bank.new known.new) }
    ensures within { IfOk result (λ found. IfSome found (λ made. term.0 < length bank.old.terms → made.0 < length bank.new.terms)) }
    ensures none { IfOk result (λ found. found ≡ None → term.0 < length bank.old.terms → All (λ v. (v.0 < length bank.old.terms) × LooseBelow 0 0 (tree bank.old v.0)) values.now → ⊥) }
    ensures put { IfOk result (λ found. IfSome found (λ made. (b : Nodes) → Extends bank.new b → LooseBelow (length values.now) 0 (tree b term.0) →
        tree b made.0 ≡ instantiate (λ k. at (terms_in b values.now) (length (terms_in b values.now) - suc k)) (tree b term.0))) }
{
    let mut made = term;
    for done in 0..values.len() {
        let value = values[values.len() - 1 - done];
        let Some(next) = put_value(alloc, bank, known, made, value)? else {
            return Ok(None);
        };
        made = next;
    }
    Ok(Some(made))
}
