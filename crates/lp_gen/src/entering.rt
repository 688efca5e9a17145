// The variables that a record begins with.
ghost use Rattle.std.specs.Prelude.{◌≡◌, ◌+◌, ◌<◌, length, OnOk, IfOk, IfErr};
ghost use Rattle.lp_gen.specs.Registers.{own_types_take, variables_take};
ghost use Rattle.lp_gen.specs.inner.Fitting.{IsRefused};
ghost use Rattle.lp_gen.specs.inner.Using.{Uses, Lacks};
ghost use Rattle.lp_gen.specs.inner.Entering.{ClauseEntered, QueryEntered, TypesMade};

use crate::emitter::Emitter;
use crate::environment::{Environment, Variable};
use crate::fault::RecordRefusal;
use lp_code::Instr;
use lp_term::TypeId;

/// The type variables of the record itself.
pub(crate) fn make_types(emitter: &mut Emitter, count: u16) -> Result<(), RecordRefusal>
    ensures code { OnOk result (TypesMade emitter.old emitter.new count) }
    ensures uses { OnOk result (Uses emitter.old emitter.new (own_types_take count)) }
    ensures lacks { IfErr result (Lacks emitter.old (own_types_take count)) }
{
    for _ in 0..count {
        let register = emitter.new_type()?;
        emitter.emit(Instr::TyNew(register))?;
    }
    Ok(())
}

// So many registers.
fn take_registers(emitter: &mut Emitter, count: usize) -> Result<(), RecordRefusal>
    ensures code { OnOk result (emitter.new.code.items ≡ emitter.old.code.items) }
    ensures types { OnOk result (emitter.new.types ≡ emitter.old.types) }
    ensures registers { OnOk result (emitter.new.registers ≡ emitter.old.registers + count) }
    ensures place { OnOk result (emitter.new.place ≡ emitter.old.place) }
    ensures lacks { IfErr result (Lacks emitter.old (variables_take count)) }
{
    for _ in 0..count {
        let _register = emitter.new_register()?;
    }
    Ok(())
}

// The register so many places behind one.
fn register_behind(first: u16, place: usize) -> Result<u16, RecordRefusal>
    ensures register { IfOk result (λ register. register ≡ first + place) }
    ensures cause { IfErr result (IsRefused (65535 < first + place)) }
{
    let Ok(offset) = u16::try_from(place) else {
        return Err(RecordRefusal::Registers);
    };
    match first.checked_add(offset) {
        Some(register) => Ok(register),
        None => Err(RecordRefusal::Registers),
    }
}

/// The variables of a clause have the next registers, index 0 the first of them.
pub(crate) fn enter_clause(
    emitter: &mut Emitter,
    environment: &mut Environment<'_>,
    vars: &[TypeId],
) -> Result<(), RecordRefusal>
    ensures code { OnOk result (ClauseEntered emitter.old emitter.new environment.old environment.new vars.now) }
    ensures uses { OnOk result (Uses emitter.old emitter.new (variables_take (length vars.now))) }
    ensures lacks { IfErr result (Lacks emitter.old (variables_take (length vars.now))) }
{
    let first = emitter.registers;
    let count = vars.len();
    take_registers(emitter, count)?;
    for at in 0..count {
        let place = count - 1 - at;
        let of = vars[place];
        let register = register_behind(first, place)?;
        environment.push(Variable {
            register,
            of,
            is_set: false,
        })?;
    }
    Ok(())
}

/// Those of a query, the outermost index the first of them.
pub(crate) fn enter_query(
    emitter: &mut Emitter,
    environment: &mut Environment<'_>,
    vars: &[TypeId],
) -> Result<(), RecordRefusal>
    ensures code { OnOk result (QueryEntered emitter.old emitter.new environment.old environment.new vars.now) }
    ensures uses { OnOk result (Uses emitter.old emitter.new (variables_take (length vars.now))) }
    ensures lacks { IfErr result (Lacks emitter.old (variables_take (length vars.now))) }
{
    for of in vars.iter().copied() {
        let register = emitter.new_register()?;
        environment.push(Variable {
            register,
            of,
            is_set: false,
        })?;
    }
    Ok(())
}
