// Goals whose parts stand in registers. Equations and orders have instructions of their own.
ghost use Rattle.std.specs.Prelude.{◌≡◌, length, OnOk, IfErr};
ghost use Rattle.lp_gen.specs.Registers.{plain_code, call_takes};
ghost use Rattle.lp_gen.specs.inner.Using.{Uses, Lacks};
ghost use Rattle.lp_standard.specs.Constants.{numbered};
ghost use Rattle.lp_gen.specs.inner.Saying.{equation_by, order_by, on_two_by, own_by, own_numbered, CallPut, TermCallPut};

use crate::emitter::Emitter;
use crate::fault::RecordRefusal;
use lp_code::Instr;
use lp_standard::Constant;

fn equation(constant: Constant, of: u16, left: u16, right: u16) -> Option<Instr>
    ensures { result ≡ equation_by constant of left right }
{
    match constant {
        Constant::Equal => Some(Instr::Equal(of, left, right)),
        Constant::Is => Some(Instr::Is(of, left, right)),
        _ => None,
    }
}

fn order(constant: Constant, left: u16, right: u16) -> Option<Instr>
    ensures { result ≡ order_by constant left right }
{
    match constant {
        Constant::Less => Some(Instr::Less(left, right)),
        Constant::Greater => Some(Instr::Greater(left, right)),
        Constant::AtMost => Some(Instr::AtMost(left, right)),
        Constant::AtLeast => Some(Instr::AtLeast(left, right)),
        _ => None,
    }
}

fn on_two(constant: Constant, types: &[u16], left: u16, right: u16) -> Option<Instr>
    ensures { result ≡ on_two_by constant types.now left right }
{
    match types {
        [] => order(constant, left, right),
        [of] => equation(constant, *of, left, right),
        _ => None,
    }
}

fn own_of(constant: Constant, types: &[u16], terms: &[u16]) -> Option<Instr>
    ensures { result ≡ own_by constant types.now terms.now }
{
    match terms {
        [left, right] => on_two(constant, types, *left, *right),
        _ => None,
    }
}

// The instruction that a constant of the language has of its own.
fn own_instruction(number: u32, types: &[u16], terms: &[u16]) -> Option<Instr>
    ensures { result ≡ own_numbered (numbered number) types.now terms.now }
{
    match Constant::from_number(number) {
        Some(constant) => own_of(constant, types, terms),
        None => None,
    }
}

/// A goal whose head is a constant, on these types and terms.
pub(crate) fn put_call(
    emitter: &mut Emitter,
    number: u32,
    types: Vec<u16>,
    terms: Vec<u16>,
) -> Result<(), RecordRefusal>
    ensures code { OnOk result (CallPut emitter.old emitter.new number types.items terms.items) }
    ensures uses { OnOk result (Uses emitter.old emitter.new (call_takes number (length types.items) (length terms.items))) }
    ensures lacks { IfErr result (Lacks emitter.old (call_takes number (length types.items) (length terms.items))) }
{
    match own_instruction(number, types.as_slice(), terms.as_slice()) {
        Some(instr) => {
            emitter.emit(instr)?;
            Ok(())
        }
        None => {
            emitter.emit(Instr::Call(number, types, terms))?;
            Ok(())
        }
    }
}

/// A goal that stands in a register as a term.
pub(crate) fn put_term_call(emitter: &mut Emitter, register: u16) -> Result<(), RecordRefusal>
    ensures code { OnOk result (TermCallPut emitter.old emitter.new register) }
    ensures uses { OnOk result (Uses emitter.old emitter.new (plain_code 3 0)) }
    ensures lacks { IfErr result (Lacks emitter.old (plain_code 3 0)) }
{
    emitter.emit(Instr::CallTerm(register))?;
    Ok(())
}
