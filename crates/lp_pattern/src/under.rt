// Heads of terms under bindings.
ghost use Rattle.std.specs.Prelude.{◌<◌, length, IfOk, IfErr};
ghost use Rattle.lp_term.specs.Nodes.{Extends, tree};
ghost use Rattle.lp_model.specs.Pair.{Closing};
ghost use Rattle.lp_pattern.specs.Under.{IsReading, under};
ghost use Rattle.lp_pattern.specs.Seen.{IsReachedWithin, IsEnded, IsDeepAt};

use crate::bindings::Bindings;
use crate::look::look;
use lp_term::{Bank, TermId, TermRefusal};
use std::alloc::Global;

/// The head-normal form of a term, with each bound variable read as its value where it comes to the head. What stands below an
/// abstraction is left as it is. `Deep` tells the limit, and comes only where more contractions than that lead to the head.
pub fn head_under(
    alloc: Global,
    bank: &mut Bank,
    bindings: &Bindings,
    term: TermId,
    limit: u64,
) -> Result<TermId, TermRefusal>
    ensures kept { Extends bank.old bank.new }
    ensures within { IfOk result (λ id. id.0 < length bank.new.terms) }
    ensures reached { IfOk result (λ id. (c : Closing) → IsReading bank.old bindings.now c → IsReachedWithin limit (under bank.old c term) (under bank.new c id)) }
    ensures ended { IfOk result (λ id. IsEnded bindings.now (tree bank.new id.0)) }
    ensures refused { IfErr result (λ e. (c : Closing) → IsReading bank.old bindings.now c → IsDeepAt limit (under bank.old c term) e) }
{
    match look(alloc, bank, bindings, term, limit) {
        Ok(looked) => Ok(looked.whole),
        Err(TermRefusal::Deep(_)) => Err(TermRefusal::Deep(limit)),
        Err(TermRefusal::Memory) => Err(TermRefusal::Memory),
    }
}
