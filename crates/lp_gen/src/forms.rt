// Terms in registers, each in the next one, by their forms: the parts stand in registers already.
ghost use Rattle.std.specs.Prelude.{length, map, IfOk, OnOk, IfErr};
ghost use Rattle.lp_term.specs.Nodes.{type_tree};
ghost use Rattle.lp_gen.specs.inner.Reading.{read};
ghost use Rattle.lp_gen.specs.Registers.{step_takes};
ghost use Rattle.lp_gen.specs.Steps.{make_constant, make_integer, make_text, make_index, apply_last, abstract_last};
ghost use Rattle.lp_gen.specs.inner.Using.{Uses, Lacks};
ghost use Rattle.lp_gen.specs.inner.Running.{ConstantPut, IntegerPut, TextPut, IndexPut, ApplicationPut, AbstractionPut};

use crate::emitter::Emitter;
use crate::fault::RecordRefusal;
use crate::strings::string_of;
use crate::types::TypeView;
use crate::written_types::{put_type, put_types};
use lp_code::Instr;
use lp_term::{Bank, TypeId};
use std::alloc::Global;

/// A constant with types of the clause.
pub(crate) fn put_constant(
    alloc: Global,
    bank: &Bank,
    emitter: &mut Emitter,
    number: u32,
    types: &[TypeId],
) -> Result<u16, RecordRefusal>
    ensures code { IfOk result (λ register. ConstantPut emitter.old emitter.new register number (map (λ t. type_tree bank.now t.0) types.now)) }
    ensures uses { OnOk result (Uses emitter.old emitter.new (step_takes (make_constant number (map (λ t. type_tree bank.now t.0) types.now)))) }
    ensures lacks { IfErr result (Lacks emitter.old (step_takes (make_constant number (map (λ t. type_tree bank.now t.0) types.now)))) }
{
    let registers = put_types(alloc, bank, emitter, types)?;
    let made = emitter.new_register()?;
    emitter.emit(Instr::PutConst(made, number, registers))?;
    Ok(made)
}

/// An integer.
pub(crate) fn put_integer(emitter: &mut Emitter, value: i64) -> Result<u16, RecordRefusal>
    ensures code { IfOk result (λ register. IntegerPut emitter.old emitter.new register value) }
    ensures uses { OnOk result (Uses emitter.old emitter.new (step_takes (make_integer value))) }
    ensures lacks { IfErr result (Lacks emitter.old (step_takes (make_integer value))) }
{
    let made = emitter.new_register()?;
    emitter.emit(Instr::PutInt(made, value))?;
    Ok(made)
}

/// A string.
pub(crate) fn put_text(
    alloc: Global,
    emitter: &mut Emitter,
    bytes: &[u8],
) -> Result<u16, RecordRefusal>
    ensures code { IfOk result (λ register. TextPut emitter.old emitter.new register bytes.now) }
    ensures uses { OnOk result (Uses emitter.old emitter.new (step_takes (make_text bytes.now))) }
    ensures lacks { IfErr result (Lacks emitter.old (step_takes (make_text bytes.now))) }
{
    let text = string_of(alloc, bytes)?;
    let made = emitter.new_register()?;
    emitter.emit(Instr::PutStr(made, text))?;
    Ok(made)
}

/// An index that is bound in the term, of this type.
pub(crate) fn put_index(
    alloc: Global,
    bank: &Bank,
    emitter: &mut Emitter,
    index: u64,
    of: TypeView,
) -> Result<u16, RecordRefusal>
    ensures code { IfOk result (λ register. IndexPut emitter.old emitter.new register index (read bank.now of)) }
    ensures uses { OnOk result (Uses emitter.old emitter.new (step_takes (make_index index (read bank.now of)))) }
    ensures lacks { IfErr result (Lacks emitter.old (step_takes (make_index index (read bank.now of)))) }
{
    let Ok(number) = u16::try_from(index) else {
        return Err(RecordRefusal::Registers);
    };
    let register = put_type(alloc, bank, emitter, of)?;
    let made = emitter.new_register()?;
    emitter.emit(Instr::PutIndex(made, number, register))?;
    Ok(made)
}

/// A head on arguments.
pub(crate) fn put_application(
    emitter: &mut Emitter,
    head: u16,
    args: Vec<u16>,
) -> Result<u16, RecordRefusal>
    ensures code { IfOk result (λ register. ApplicationPut emitter.old emitter.new register head args.items) }
    ensures uses { OnOk result (Uses emitter.old emitter.new (step_takes (apply_last (length args.items)))) }
    ensures lacks { IfErr result (Lacks emitter.old (step_takes (apply_last (length args.items)))) }
{
    let made = emitter.new_register()?;
    emitter.emit(Instr::PutApp(made, head, args))?;
    Ok(made)
}

/// An abstraction over index 0 of a body, with the type of the index.
pub(crate) fn put_abstraction(
    alloc: Global,
    bank: &Bank,
    emitter: &mut Emitter,
    body: u16,
    of: TypeView,
) -> Result<u16, RecordRefusal>
    ensures code { IfOk result (λ register. AbstractionPut emitter.old emitter.new register body (read bank.now of)) }
    ensures uses { OnOk result (Uses emitter.old emitter.new (step_takes (abstract_last (read bank.now of)))) }
    ensures lacks { IfErr result (Lacks emitter.old (step_takes (abstract_last (read bank.now of)))) }
{
    let register = put_type(alloc, bank, emitter, of)?;
    let made = emitter.new_register()?;
    emitter.emit(Instr::PutAbs(made, body, register))?;
    Ok(made)
}
