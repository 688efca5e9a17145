ghost use Rattle.std.specs.Prelude.{◌≡◌, ◌<◌, All, IfSome, length, ℕ, List, Option, option_map, option_and_then, nat_eq, None, if◌then◌else◌};
ghost use Rattle.lp_term.specs.Walk.{sizes};
ghost use Rattle.lp_model.specs.Shown.{Entry, operated};
ghost use Rattle.lp_show.specs.Scene.{Scene, pieces};
ghost use Rattle.lp_show.specs.Named.{IsKnown};
ghost use Rattle.lp_show.specs.Operators.{operands_piece, operands_size, operation, of_entry, within_bank};

use crate::names::Known;
use lp_standard::Fixity;
use lp_term::TermId;

/// The operands of an operator: one behind it, one before it, or both, the one before it first.
#[derive(Clone, Copy)]
pub(crate) enum Operands {
    Behind(TermId),
    Before(TermId),
    Both(TermId, TermId),
}

/// An operator with exactly its operands.
#[derive(Clone, Copy)]
pub(crate) struct Operator<'a> {
    pub(crate) name: &'a [u8],
    pub(crate) fixity: Fixity,
    pub(crate) number: u8,
    pub(crate) operands: Operands,
}

// The operands, if these arguments, of which the last comes first, are exactly as many.
fn operands_of(fixity: Fixity, arguments: &[TermId]) -> Option<Operands>
    ensures form { (scene : Scene) (d n : ℕ) (name : List ℕ) → operated fixity n name (pieces scene d arguments.now) ≡ option_map (operands_piece scene d fixity n name) result }
    ensures size { (scene : Scene) → IfSome result (λ o. operands_size scene o ≡ sizes scene.nodes arguments.now) }
    ensures some { IfSome result (λ o. 0 < length arguments.now) }
    ensures within { (scene : Scene) → All (λ t. t.0 < length scene.nodes.terms) arguments.now → IfSome result (within_bank scene) }
{
    if arguments.len() == 1 {
        if fixity.is_prefix() {
            return Some(Operands::Behind(arguments[0]));
        }
        if fixity.is_postfix() {
            return Some(Operands::Before(arguments[0]));
        }
        return None;
    }
    if arguments.len() != 2 {
        return None;
    }
    if fixity.is_prefix() {
        return None;
    }
    if fixity.is_postfix() {
        return None;
    }
    Some(Operands::Both(arguments[1], arguments[0]))
}

/// The operator that a constant is, if it is not hidden, and these arguments are exactly its operands.
pub(crate) fn operator_in<'a>(known: Known<'a>, arguments: &[TermId]) -> Option<Operator<'a>>
    ensures form { (e : Entry) (scene : Scene) (d : ℕ) → IsKnown known.entry e → of_entry e (pieces scene d arguments.now) ≡ option_map (operation scene d) result }
    ensures size { (scene : Scene) → IfSome result (λ o. operands_size scene o.operands ≡ sizes scene.nodes arguments.now) }
    ensures some { IfSome result (λ o. 0 < length arguments.now) }
    ensures within { (scene : Scene) → All (λ t. t.0 < length scene.nodes.terms) arguments.now → IfSome result (λ o. within_bank scene o.operands) }
{
    if known.hidden != 0 {
        return None;
    }
    let Some((fixity, number)) = known.fixity else {
        return None;
    };
    let Some(operands) = operands_of(fixity, arguments) else {
        return None;
    };
    Some(Operator {
        name: known.name,
        fixity,
        number,
        operands,
    })
}
