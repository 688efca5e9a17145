// Terms in registers, by steps in the order of their code: those of a term's parts come before its own.
ghost use Rattle.std.specs.Prelude.{◌≡◌, ℕ, suc, [], ◌∷◌, ◌++◌, ◌-◌, ◌≤◌, List, length, map, OnOk, IfOk, IfErr};
ghost use Rattle.lp_term.specs.Nodes.{type_tree};
ghost use Rattle.lp_gen.specs.Registers.{step_takes, steps_take};
ghost use Rattle.lp_gen.specs.inner.Reading.{read};
ghost use Rattle.lp_gen.specs.Steps.{make_variable, apply_last, abstract_last};
ghost use Rattle.lp_gen.specs.inner.Listing.{plain_step};
ghost use Rattle.lp_gen.specs.inner.Stacked.{IsStacked, stack_behind, AreStacked};
ghost use Rattle.lp_gen.specs.inner.Using.{Uses, Lacks};
ghost use Rattle.lp_gen.specs.inner.TermSteps.{StepsPut, TermOfSteps};
ghost use Rattle.lp_gen.specs.declared.emitter.Emitter as so_far;
ghost use Rattle.lp_gen.specs.declared.term_steps.TermStep as any_step;
ghost use Rattle.lp_gen.specs.declared.term_steps.TermStep.TheVariants as on;

use crate::emitter::Emitter;
use crate::fault::RecordRefusal;
use crate::forms::{
    put_abstraction, put_application, put_constant, put_index, put_integer, put_text,
};
use crate::types::TypeView;
use crate::written_types::{put_type, register_at, take};
use lp_code::Instr;
use lp_term::{Bank, TypeId};
use std::alloc::Global;

/// A step. Those of applications and abstractions take the last registers that were made.
#[derive(Clone, Copy)]
pub(crate) enum TermStep<'b> {
    Constant(u32, &'b [TypeId]),
    Integer(i64),
    Text(&'b [u8]),
    /// An index that is bound in the term, of this type.
    Index(u64, TypeView),
    /// Makes a variable of the clause in this register.
    New(u16, TypeId),
    /// What stands in a register.
    Register(u16),
    /// A head on so many arguments.
    Apply(usize),
    Abstract(TypeView),
}

// A head on the last registers that were made.
fn apply(
    emitter: &mut Emitter,
    bank: &Bank,
    count: usize,
    made: &mut Vec<u16>,
) -> Result<(), RecordRefusal>
    requires { suc count ≤ length made.old.items }
    ensures code { OnOk result ((start : so_far.Emitter) (steps : List any_step.TermStep) → StepsPut bank.now start emitter.old steps made.old.items → StepsPut bank.now start emitter.new (steps ++ on.Apply count ∷ []) made.new.items) }
    ensures count { OnOk result (length made.new.items ≡ length made.old.items - count) }
    ensures uses { OnOk result (Uses emitter.old emitter.new (step_takes (apply_last count))) }
    ensures lacks { IfErr result (Lacks emitter.old (step_takes (apply_last count))) }
{
    let args = take(made, count)?;
    let heads = take(made, 1)?;
    let head = register_at(heads.as_slice(), 0);
    let register = put_application(emitter, head, args)?;
    made.push(register)?;
    Ok(())
}

// An abstraction over the last one.
fn abstraction(
    alloc: Global,
    bank: &Bank,
    emitter: &mut Emitter,
    of: TypeView,
    made: &mut Vec<u16>,
) -> Result<(), RecordRefusal>
    requires { 1 ≤ length made.old.items }
    ensures code { OnOk result ((start : so_far.Emitter) (steps : List any_step.TermStep) → StepsPut bank.now start emitter.old steps made.old.items → StepsPut bank.now start emitter.new (steps ++ on.Abstract of ∷ []) made.new.items) }
    ensures count { OnOk result (length made.new.items ≡ length made.old.items) }
    ensures uses { OnOk result (Uses emitter.old emitter.new (step_takes (abstract_last (read bank.now of)))) }
    ensures lacks { IfErr result (Lacks emitter.old (step_takes (abstract_last (read bank.now of)))) }
{
    let bodies = take(made, 1)?;
    let body = register_at(bodies.as_slice(), 0);
    let register = put_abstraction(alloc, bank, emitter, body, of)?;
    made.push(register)?;
    Ok(())
}

// Makes a variable of the clause.
fn new_variable(
    alloc: Global,
    bank: &Bank,
    emitter: &mut Emitter,
    register: u16,
    of: TypeId,
) -> Result<(), RecordRefusal>
    ensures code { OnOk result ((start : so_far.Emitter) (steps : List any_step.TermStep) (made : List ℕ) → StepsPut bank.now start emitter.old steps made → StepsPut bank.now start emitter.new (steps ++ on.New register of ∷ []) made) }
    ensures uses { OnOk result (Uses emitter.old emitter.new (step_takes (make_variable register (type_tree bank.now of.0)))) }
    ensures lacks { IfErr result (Lacks emitter.old (step_takes (make_variable register (type_tree bank.now of.0)))) }
{
    let kind = put_type(alloc, bank, emitter, TypeView::Of(of, None))?;
    emitter.emit(Instr::New(register, kind))?;
    Ok(())
}

// One step.
fn put_step<'b>(
    alloc: Global,
    bank: &Bank,
    emitter: &mut Emitter,
    step: TermStep<'b>,
    made: &mut Vec<u16>,
) -> Result<(), RecordRefusal>
    requires { IsStacked (length made.old.items) (plain_step bank.now step) }
    ensures code { OnOk result ((start : so_far.Emitter) (steps : List any_step.TermStep) → StepsPut bank.now start emitter.old steps made.old.items → StepsPut bank.now start emitter.new (steps ++ step.entry ∷ []) made.new.items) }
    ensures count { OnOk result (length made.new.items ≡ stack_behind (length made.old.items) (plain_step bank.now step.entry)) }
    ensures uses { OnOk result (Uses emitter.old emitter.new (step_takes (plain_step bank.now step.entry))) }
    ensures lacks { IfErr result (Lacks emitter.old (step_takes (plain_step bank.now step.entry))) }
{
    match step {
        TermStep::Constant(number, types) => {
            let register = put_constant(alloc, bank, emitter, number, types)?;
            made.push(register)?;
            Ok(())
        }
        TermStep::Integer(value) => {
            let register = put_integer(emitter, value)?;
            made.push(register)?;
            Ok(())
        }
        TermStep::Text(bytes) => {
            let register = put_text(alloc, emitter, bytes)?;
            made.push(register)?;
            Ok(())
        }
        TermStep::Index(index, of) => {
            let register = put_index(alloc, bank, emitter, index, of)?;
            made.push(register)?;
            Ok(())
        }
        TermStep::New(register, of) => {
            new_variable(alloc, bank, emitter, register, of)?;
            Ok(())
        }
        TermStep::Register(register) => {
            made.push(register)?;
            Ok(())
        }
        TermStep::Apply(count) => {
            apply(emitter, bank, count, made)?;
            Ok(())
        }
        TermStep::Abstract(of) => {
            abstraction(alloc, bank, emitter, of, made)?;
            Ok(())
        }
    }
}

/// The term of these steps in a register.
pub(crate) fn put_steps(
    alloc: Global,
    bank: &Bank,
    emitter: &mut Emitter,
    steps: &[TermStep<'_>],
) -> Result<u16, RecordRefusal>
    requires { AreStacked 0 (map (plain_step bank.now) steps.now) }
    ensures code { IfOk result (λ register. TermOfSteps bank.now emitter.old emitter.new register steps.now) }
    ensures uses { OnOk result (Uses emitter.old emitter.new (steps_take (map (plain_step bank.now) steps.now))) }
    ensures lacks { IfErr result (Lacks emitter.old (steps_take (map (plain_step bank.now) steps.now))) }
{
    let mut made = Vec::new(alloc);
    for step in steps.iter().copied() {
        put_step(alloc, bank, emitter, step, &mut made)?;
    }
    Ok(register_at(made.as_slice(), 0))
}
