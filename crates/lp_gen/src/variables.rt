// Variables that do not stand in the head, and the end of the head.
ghost use Rattle.std.specs.Prelude.{◌≡◌, OnOk, IfErr};
ghost use Rattle.lp_gen.specs.Registers.{plain_code, made_takes, unset_take};
ghost use Rattle.lp_gen.specs.inner.Using.{Uses, UsesUnset, Lacks};
ghost use Rattle.lp_gen.specs.Steps.{set_level};
ghost use Rattle.lp_gen.specs.inner.Listing.{around_of, seen};
ghost use Rattle.lp_gen.specs.inner.Bodies.{IsShort};
ghost use Rattle.lp_gen.specs.inner.Beginning.{VariableMade, PlaceMade, OwnMade, NeckPut};

use crate::emitter::Emitter;
use crate::environment::{Environment, Variable};
use crate::fault::RecordRefusal;
use crate::types::TypeView;
use crate::written_types::put_type;
use lp_code::Instr;
use lp_term::Bank;
use std::alloc::Global;

// Makes a variable of the clause.
fn put_variable(
    alloc: Global,
    bank: &Bank,
    emitter: &mut Emitter,
    environment: &mut Environment<'_>,
    level: u64,
    variable: Variable,
) -> Result<(), RecordRefusal>
    ensures made { OnOk result (VariableMade emitter.old emitter.new (around_of bank.now environment.old) level (seen bank.now variable)) }
    ensures set { OnOk result (around_of bank.now environment.new ≡ set_level (around_of bank.now environment.old) level) }
    ensures uses { OnOk result (Uses emitter.old emitter.new (made_takes (seen bank.now variable))) }
    ensures lacks { IfErr result (Lacks emitter.old (made_takes (seen bank.now variable))) }
{
    let of = TypeView::Of(variable.of, None);
    let register = put_type(alloc, bank, emitter, of)?;
    emitter.emit(Instr::New(variable.register, register))?;
    environment.set(level);
    Ok(())
}

// Makes the own variable of a place, where it is not set.
fn make_place(
    alloc: Global,
    bank: &Bank,
    emitter: &mut Emitter,
    environment: &mut Environment<'_>,
    place: usize,
) -> Result<(), RecordRefusal>
    ensures code { OnOk result (PlaceMade emitter.old emitter.new (around_of bank.now environment.old) (around_of bank.now environment.new) place) }
    ensures uses { OnOk result (UsesUnset emitter.old emitter.new (around_of bank.now environment.old) (around_of bank.now environment.new)) }
    ensures lacks { IfErr result (Lacks emitter.old (unset_take (around_of bank.now environment.old).own)) }
{
    let level = environment.base.saturating_add(place as u64);
    let Some(variable) = environment.at(level) else {
        return Ok(());
    };
    if variable.is_set {
        return Ok(());
    }
    put_variable(alloc, bank, emitter, environment, level, variable)?;
    Ok(())
}

/// The variables that do not stand in the head, by their registers: those of a clause from the last one on.
pub(crate) fn make_variables(
    alloc: Global,
    bank: &Bank,
    emitter: &mut Emitter,
    environment: &mut Environment<'_>,
    is_clause: bool,
) -> Result<(), RecordRefusal>
    ensures code { OnOk result (OwnMade emitter.old emitter.new (around_of bank.now environment.old) (around_of bank.now environment.new)) }
    ensures uses { IsShort (around_of bank.now environment.old) → OnOk result (Uses emitter.old emitter.new (unset_take (around_of bank.now environment.old).own)) }
    ensures lacks { IfErr result (Lacks emitter.old (unset_take (around_of bank.now environment.old).own)) }
{
    let count = environment.own.len();
    for at in 0..count {
        let place = if is_clause { count - 1 - at } else { at };
        make_place(alloc, bank, emitter, environment, place)?;
    }
    Ok(())
}

/// The end of the head.
pub(crate) fn put_neck(emitter: &mut Emitter) -> Result<(), RecordRefusal>
    ensures code { OnOk result (NeckPut emitter.old emitter.new) }
    ensures uses { OnOk result (Uses emitter.old emitter.new (plain_code 1 0)) }
    ensures lacks { IfErr result (Lacks emitter.old (plain_code 1 0)) }
{
    emitter.emit(Instr::Neck)?;
    Ok(())
}
