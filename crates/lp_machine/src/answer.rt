// The answer that a branch without goals is, in a bank of its own.
ghost use Rattle.std.specs.Prelude.{length, IfOk};
ghost use Rattle.lp_model.specs.Whole.{IsWhole};

use crate::search::Search;
use lp_base::Memory;
use lp_model::{Answer, Ending, Pair, whole_answer};
use lp_store::CellId;
use lp_term::{Bank, TermId};
use lp_unify::Waiting;

// The values of these cells, or how the search ends.
fn values_of(
    state: &mut Search<'_>,
    cells: &Vec<CellId>,
    bank: &mut Bank,
) -> Result<Result<Vec<TermId>, Ending>, Memory> {
    let mut values = Vec::new(state.alloc);
    for cell in cells {
        match state.heap.read_back(*cell, bank)? {
            Ok(value) => values.push(value)?,
            Err(ending) => return Ok(Err(ending)),
        }
    }
    Ok(Ok(values))
}

// The pairs that wait, or how the search ends.
fn pairs_of(state: &mut Search<'_>, bank: &mut Bank) -> Result<Result<Vec<Pair>, Ending>, Memory> {
    let mut waiting: Vec<Waiting> = Vec::new(state.alloc);
    waiting.extend_from_slice(state.heap.waiting())?;
    let mut pairs = Vec::new(state.alloc);
    for pair in waiting.iter().copied() {
        let left = match state.heap.read_back(pair.left, bank)? {
            Ok(term) => term,
            Err(ending) => return Ok(Err(ending)),
        };
        let right = match state.heap.read_back(pair.right, bank)? {
            Ok(term) => term,
            Err(ending) => return Ok(Err(ending)),
        };
        pairs.push(Pair {
            left,
            right,
            level: pair.level,
        })?;
    }
    Ok(Ok(pairs))
}

/// The values of the query's variables and the residual pairs, or how the search ends where one is too large.
pub(crate) fn answer_of(
    state: &mut Search<'_>,
    variables: &Vec<CellId>,
) -> Result<Result<Answer, Ending>, Memory>
    ensures { IfOk result (λ answer. IfOk answer (IsWhole (length variables.now.items))) }
{
    let mut bank = Bank::new(state.alloc);
    let values = match values_of(state, variables, &mut bank)? {
        Ok(values) => values,
        Err(ending) => return Ok(Err(ending)),
    };
    let pairs = match pairs_of(state, &mut bank)? {
        Ok(pairs) => pairs,
        Err(ending) => return Ok(Err(ending)),
    };
    // They can be shown where the code is verified.
    match whole_answer(bank, values, pairs, variables.len()) {
        Some(answer) => Ok(Ok(answer)),
        None => Ok(Err(Ending::Deep)),
    }
}
