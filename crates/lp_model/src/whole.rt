// Answers that can be shown.
ghost use Rattle.std.specs.Prelude.{◌≡◌, true, All, IfSome};
ghost use Rattle.lp_model.specs.Whole.{CanBeShown, CanPairBeShown, IsWhole};

use crate::answer::{Answer, Pair};
use lp_term::{Bank, TermId};

fn can_be_shown(bank: &Bank, id: TermId) -> bool
    ensures { result ≡ true → CanBeShown bank.now id }
{
    id.0 < bank.term_count() && bank.is_known_below(id, 4_294_967_296)
}

fn can_all_be_shown(bank: &Bank, ids: &[TermId]) -> bool
    ensures { result ≡ true → All (CanBeShown bank.now) ids.now }
{
    for id in ids.iter().copied() {
        if !can_be_shown(bank, id) {
            return false;
        }
    }
    true
}

fn can_pair_be_shown(bank: &Bank, pair: Pair) -> bool
    ensures { result ≡ true → CanPairBeShown bank.now pair }
{
    can_be_shown(bank, pair.left) && can_be_shown(bank, pair.right)
}

fn can_pairs_be_shown(bank: &Bank, pairs: &[Pair]) -> bool
    ensures { result ≡ true → All (CanPairBeShown bank.now) pairs.now }
{
    for pair in pairs.iter().copied() {
        if !can_pair_be_shown(bank, pair) {
            return false;
        }
    }
    true
}

/// The answer with so many values, if its terms stand in the bank and can be shown.
pub fn whole_answer(
    bank: Bank,
    values: Vec<TermId>,
    pairs: Vec<Pair>,
    count: usize,
) -> Option<Answer>
    ensures { IfSome result (IsWhole count) }
{
    if values.len() != count {
        return None;
    }
    if !can_all_be_shown(&bank, values.as_slice()) {
        return None;
    }
    if !can_pairs_be_shown(&bank, pairs.as_slice()) {
        return None;
    }
    Some(Answer {
        bank,
        values,
        pairs,
    })
}
