ghost use Rattle.std.specs.Prelude.{◌≡◌, ◌<◌, ◌++◌, ℕ, List, true, length, map, All, IfOk, IfErr};
ghost use Rattle.lp_calculus.specs.Term.{Term};
ghost use Rattle.lp_term.specs.Frame.{in_order};
ghost use Rattle.lp_term.specs.Nodes.{Extends, tree};
ghost use Rattle.lp_term.specs.declared.reduce.TermRefusal.{TermRefusal};
ghost use Rattle.lp_model.specs.Shown.{is_shown};
ghost use Rattle.lp_model.specs.Whole.{CanBeShown, CanPairBeShown};
ghost use Rattle.lp_show.specs.Forms.{AreForms, AreSides, IsDeep, IsFirstDeep, IsShownForm, pair_trees, sides_of, values_of};
ghost use Rattle.lp_show.specs.Sides.{IsDeepPair, IsDeepValue, side_trees, IsSidesIn};

use lp_model::Pair;
use lp_term::{Bank, TermId, TermRefusal, normal_form};
use std::alloc::Global;

const LIMIT: u64 = 1_000_000;

/// The forms of the sides of a residual pair.
#[derive(Clone, Copy)]
pub(crate) struct Sides {
    pub(crate) left: TermId,
    pub(crate) right: TermId,
}

/// The beta-eta normal form, within the limits.
pub(crate) fn form_of(alloc: Global, bank: &mut Bank, term: TermId) -> Result<TermId, TermRefusal>
    requires { CanBeShown bank.old term }
    ensures kept { Extends bank.old bank.new }
    ensures within { IfOk result (λ id. id.0 < length bank.new.terms) }
    ensures form { IfOk result (λ id. IsShownForm (tree bank.old term.0) (tree bank.new id.0)) }
    ensures refused { IfErr result (IsDeep (tree bank.old term.0)) }
{
    normal_form(alloc, bank, term, LIMIT, LIMIT)
}

/// Whether the value of a variable of this name is shown.
pub(crate) fn is_shown(name: &[u8]) -> bool
    ensures { result ≡ is_shown name.now }
{
    name != b"_".as_slice()
}

// The form of a value that is shown; another value stands for itself.
fn value_form(
    alloc: Global,
    name: &[u8],
    bank: &mut Bank,
    value: TermId,
) -> Result<TermId, TermRefusal>
    requires { CanBeShown bank.old value }
    ensures kept { Extends bank.old bank.new }
    ensures within { IfOk result (λ id. id.0 < length bank.new.terms) }
    ensures form { IfOk result (λ id. is_shown name.now ≡ true → IsShownForm (tree bank.old value.0) (tree bank.new id.0)) }
    ensures refused { IfErr result (IsDeepValue name.now (tree bank.old value.0)) }
{
    if !is_shown(name) {
        return Ok(value);
    }
    match form_of(alloc, bank, value) {
        Ok(form) => Ok(form),
        Err(refusal) => Err(refusal),
    }
}

/// The forms of the values, in order.
pub(crate) fn value_forms(
    alloc: Global,
    names: &[Vec<u8>],
    bank: &mut Bank,
    values: &Vec<TermId>,
) -> Result<Vec<TermId>, TermRefusal>
    requires names { length names.now ≡ length values.now.items }
    requires values { All (CanBeShown bank.old) values.now.items }
    ensures kept { Extends bank.old bank.new }
    ensures within { IfOk result (λ forms. All (λ t. t.0 < length bank.new.terms) forms.items) }
    ensures forms { IfOk result (λ forms. AreForms (map (λ n. n.items) names.now) (in_order bank.old values.now.items) (in_order bank.new forms.items)) }
    ensures passed { IfOk result (λ forms. (ts : List Term) (e : TermRefusal) → IsFirstDeep ts e → IsFirstDeep (values_of (map (λ n. n.items) names.now) (in_order bank.old values.now.items) ++ ts) e) }
    ensures refused { IfErr result (λ e. (ts : List Term) → IsFirstDeep (values_of (map (λ n. n.items) names.now) (in_order bank.old values.now.items) ++ ts) e) }
{
    let mut forms = Vec::new(alloc);
    let mut at = 0;
    'values: while at < names.len() {
        let form = match value_form(alloc, names[at].as_slice(), bank, values[at]) {
            Ok(form) => form,
            Err(refusal) => return Err(refusal),
        };
        forms.push(form)?;
        at += 1;
    }
    Ok(forms)
}

// The forms of both sides of a pair.
fn pair_form(alloc: Global, bank: &mut Bank, pair: Pair) -> Result<Sides, TermRefusal>
    requires { CanPairBeShown bank.old pair }
    ensures kept { Extends bank.old bank.new }
    ensures within { IfOk result (IsSidesIn bank.new) }
    ensures left { IfOk result (λ sides. IsShownForm (tree bank.old pair.left.0) (tree bank.new sides.left.0)) }
    ensures right { IfOk result (λ sides. IsShownForm (tree bank.old pair.right.0) (tree bank.new sides.right.0)) }
    ensures refused { IfErr result (IsDeepPair (tree bank.old pair.left.0) (tree bank.old pair.right.0)) }
{
    let left = match form_of(alloc, bank, pair.left) {
        Ok(form) => form,
        Err(refusal) => return Err(refusal),
    };
    let right = match form_of(alloc, bank, pair.right) {
        Ok(form) => form,
        Err(refusal) => return Err(refusal),
    };
    Ok(Sides { left, right })
}

/// The forms of the sides of the pairs, in order.
pub(crate) fn pair_forms(
    alloc: Global,
    bank: &mut Bank,
    pairs: &Vec<Pair>,
) -> Result<Vec<Sides>, TermRefusal>
    requires { All (CanPairBeShown bank.old) pairs.now.items }
    ensures kept { Extends bank.old bank.new }
    ensures within { IfOk result (λ sides. All (IsSidesIn bank.new) sides.items) }
    ensures forms { IfOk result (λ sides. AreSides (pair_trees bank.old pairs.now.items) (side_trees bank.new sides.items)) }
    ensures refused { IfErr result (IsFirstDeep (sides_of (pair_trees bank.old pairs.now.items))) }
{
    let mut forms = Vec::new(alloc);
    let mut at = 0;
    'pairs: while at < pairs.len() {
        let sides = match pair_form(alloc, bank, pairs[at]) {
            Ok(sides) => sides,
            Err(refusal) => return Err(refusal),
        };
        forms.push(sides)?;
        at += 1;
    }
    Ok(forms)
}
