// The parts of a head as they are matched, where they stand in registers or have no parts.
ghost use Rattle.std.specs.Prelude.{◌≡◌, ◌+◌, ◌*◌, true, length, nat_lt, OnOk, IfErr};
ghost use Rattle.lp_gen.specs.Registers.{past, plain_code};
ghost use Rattle.lp_gen.specs.inner.Using.{Uses, Lacks};
ghost use Rattle.lp_gen.specs.inner.Heading.{VariableGot};
ghost use Rattle.lp_gen.specs.inner.Saying.{ConstantGot, IntegerGot, TextGot, TermGot, TypeGot};

use crate::emitter::Emitter;
use crate::fault::RecordRefusal;
use lp_code::Instr;

/// A type argument.
pub(crate) fn get_type(emitter: &mut Emitter, at: u8, register: u16) -> Result<(), RecordRefusal>
    ensures code { OnOk result (TypeGot emitter.old emitter.new at register) }
    ensures uses { OnOk result (Uses emitter.old emitter.new (plain_code 4 0)) }
    ensures lacks { IfErr result (Lacks emitter.old (plain_code 4 0)) }
{
    emitter.emit(Instr::GetType(at, register))?;
    Ok(())
}

/// An argument that is a variable of the clause, at its first place.
pub(crate) fn get_variable(
    emitter: &mut Emitter,
    at: u8,
    register: u16,
) -> Result<(), RecordRefusal>
    ensures code { OnOk result (VariableGot emitter.old emitter.new at register) }
    ensures uses { OnOk result (Uses emitter.old emitter.new (plain_code 4 0)) }
    ensures lacks { IfErr result (Lacks emitter.old (plain_code 4 0)) }
{
    emitter.emit(Instr::GetVar(at, register))?;
    Ok(())
}

/// An argument that is a constant on these types.
pub(crate) fn get_constant(
    emitter: &mut Emitter,
    at: u8,
    number: u32,
    types: Vec<u16>,
) -> Result<(), RecordRefusal>
    ensures code { OnOk result (ConstantGot emitter.old emitter.new at number types.items) }
    ensures uses { OnOk result (Uses emitter.old emitter.new (plain_code (5 + 2 * length types.items) (past 255 (length types.items)))) }
    ensures lacks { IfErr result (Lacks emitter.old (plain_code (5 + 2 * length types.items) (past 255 (length types.items)))) }
{
    emitter.emit(Instr::GetConst(at, number, types))?;
    Ok(())
}

/// An argument that is an integer.
pub(crate) fn get_integer(emitter: &mut Emitter, at: u8, value: i64) -> Result<(), RecordRefusal>
    ensures code { OnOk result (IntegerGot emitter.old emitter.new at value) }
    ensures uses { OnOk result (Uses emitter.old emitter.new (plain_code 10 0)) }
    ensures lacks { IfErr result (Lacks emitter.old (plain_code 10 0)) }
{
    emitter.emit(Instr::GetInt(at, value))?;
    Ok(())
}

/// An argument that is a string.
pub(crate) fn get_text(emitter: &mut Emitter, at: u8, text: Vec<u8>) -> Result<(), RecordRefusal>
    requires { nat_lt (length text.items) 65536 ≡ true }
    ensures code { OnOk result (TextGot emitter.old emitter.new at text.items) }
    ensures uses { OnOk result (Uses emitter.old emitter.new (plain_code (4 + length text.items) (0))) }
    ensures lacks { IfErr result (Lacks emitter.old (plain_code (4 + length text.items) (0))) }
{
    emitter.emit(Instr::GetStr(at, text))?;
    Ok(())
}

/// An argument as it stands in a register.
pub(crate) fn get_term(emitter: &mut Emitter, at: u8, register: u16) -> Result<(), RecordRefusal>
    ensures code { OnOk result (TermGot emitter.old emitter.new at register) }
    ensures uses { OnOk result (Uses emitter.old emitter.new (plain_code 4 0)) }
    ensures lacks { IfErr result (Lacks emitter.old (plain_code 4 0)) }
{
    emitter.emit(Instr::Get(at, register))?;
    Ok(())
}
