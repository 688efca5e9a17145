// The goals of a record.
ghost use Rattle.std.specs.Prelude.{◌≡◌, [], ◌∷◌, ◌++◌, length, true, sum_by, IfOk, IfErr, OnOk, IfSome, MatchOption};
ghost use Rattle.lp_term.specs.Nodes.{Nodes, type_tree};
ghost use Rattle.lp_code.specs.Length.{length_of};
ghost use Rattle.lp_gen.specs.Registers.{nothing, both, plain_code, term_code, type_takes, variable_takes};
ghost use Rattle.lp_gen.specs.inner.Using.{Uses, Lacks};
ghost use Rattle.lp_gen.specs.inner.TermLaw.{AreSet};
ghost use Rattle.lp_gen.specs.inner.Fitting.{is_short};
ghost use Rattle.lp_gen.specs.Steps.{constant_function};
ghost use Rattle.lp_gen.specs.inner.Listing.{around_of};
ghost use Rattle.lp_gen.specs.inner.OpenGoals.{cut_to};
ghost use Rattle.lp_gen.specs.inner.OpenGoals as plain;
ghost use Rattle.lp_gen.specs.inner.BodyUsing.{instr_takes, block_step_takes, block_steps_take, body_code_takes, around_left, blocks_left, block_counts, IsStepped, IsPatched};
ghost use Rattle.lp_gen.specs.inner.BodyCode.{VariableOpened, SomeOpened, AllOpened, BlockOpened, BlockEnded, Takes, IsDone, AreDone, BodyWritten};

use crate::atoms::put_atom;
use crate::emitter::Emitter;
use crate::environment::{Environment, Variable};
use crate::fault::RecordRefusal;
use crate::plan::Step;
use crate::record::{Starts, assumption};
use crate::tables::Tables;
use crate::types::TypeView;
use crate::variables::put_neck;
use crate::written_types::put_type;
use lp_code::Instr;
use lp_term::{Bank, TypeId};
use std::alloc::Global;

// An open block: how many variables the record had before it, and where its instruction stands.
#[derive(Clone, Copy)]
struct Block {
    variables: usize,
    at: usize,
    from: u64,
}

// The bytes of `EITHER`, and of `JUMP`.
const JUMP_BYTES: u64 = 5;

// A new variable, in the next register; says that and the register of its type.
fn open_variable(
    alloc: Global,
    bank: &Bank,
    emitter: &mut Emitter,
    environment: &mut Environment<'_>,
    of: TypeId,
) -> Result<(u16, u16), RecordRefusal>
    ensures code { IfOk result (λ made. VariableOpened emitter.old emitter.new (around_of bank.now environment.old) (around_of bank.now environment.new) made.0 made.1 (type_tree bank.now of.0)) }
    ensures uses { OnOk result (Uses emitter.old emitter.new (both (type_takes (type_tree bank.now of.0)) (term_code 0 0))) }
    ensures lacks { IfErr result (Lacks emitter.old (both (type_takes (type_tree bank.now of.0)) (term_code 0 0))) }
{
    let kind = put_type(alloc, bank, emitter, TypeView::Of(of, None))?;
    let register = emitter.new_register()?;
    environment.push(Variable {
        register,
        of,
        is_set: true,
    })?;
    Ok((register, kind))
}

// A block opens with the next instruction.
fn block_here(emitter: &Emitter, environment: &Environment<'_>) -> Block
    ensures variables { result.variables ≡ length environment.now.own.items }
    ensures at { result.at ≡ length emitter.now.code.items }
    ensures from { result.from ≡ sum_by length_of emitter.now.code.items }
{
    Block {
        variables: environment.own.len(),
        at: emitter.code.len(),
        from: emitter.place,
    }
}

// The innermost block ends; its variables are gone.
fn leave(environment: &mut Environment<'_>, blocks: &mut Vec<Block>) -> Option<Block>
    ensures last { MatchOption result (blocks.old.items ≡ []) (λ block. blocks.old.items ≡ blocks.new.items ++ block ∷ []) }
    ensures left { IfSome result (λ block. (b : Nodes) → around_of b environment.new ≡ cut_to block.variables (around_of b environment.old)) }
    ensures around { (b : Nodes) → around_of b environment.new ≡ around_left (block_counts blocks.old.items) (around_of b environment.old) }
    ensures counts { block_counts blocks.new.items ≡ blocks_left (block_counts blocks.old.items) }
{
    let block = blocks.pop()?;
    environment.own.truncate(block.variables);
    Some(block)
}

// A block opens with this instruction.
fn open(
    emitter: &mut Emitter,
    environment: &Environment<'_>,
    blocks: &mut Vec<Block>,
    instr: Instr,
) -> Result<(), RecordRefusal>
    requires { is_short instr ≡ true }
    ensures code { OnOk result (BlockOpened emitter.old emitter.new environment.now blocks.old.items blocks.new.items instr) }
    ensures uses { OnOk result (Uses emitter.old emitter.new (instr_takes instr)) }
    ensures lacks { IfErr result (Lacks emitter.old (instr_takes instr)) }
{
    let block = block_here(emitter, environment);
    blocks.push(block)?;
    emitter.emit(instr)?;
    Ok(())
}

// A block ends with this instruction.
fn end(
    emitter: &mut Emitter,
    environment: &mut Environment<'_>,
    blocks: &mut Vec<Block>,
    instr: Instr,
) -> Result<(), RecordRefusal>
    requires { is_short instr ≡ true }
    ensures code { OnOk result (BlockEnded emitter.old emitter.new environment.old environment.new blocks.old.items blocks.new.items instr) }
    ensures uses { OnOk result (Uses emitter.old emitter.new (instr_takes instr)) }
    ensures lacks { IfErr result (Lacks emitter.old (instr_takes instr)) }
    ensures around { OnOk result ((b : Nodes) → around_of b environment.new ≡ around_left (block_counts blocks.old.items) (around_of b environment.old)) }
    ensures counts { OnOk result (block_counts blocks.new.items ≡ blocks_left (block_counts blocks.old.items)) }
{
    let _block = leave(environment, blocks);
    emitter.emit(instr)?;
    Ok(())
}

// Goals below `sigma`.
fn open_some(
    alloc: Global,
    bank: &Bank,
    emitter: &mut Emitter,
    environment: &mut Environment<'_>,
    of: TypeId,
) -> Result<(), RecordRefusal>
    ensures code { OnOk result (SomeOpened emitter.old emitter.new (around_of bank.now environment.old) (around_of bank.now environment.new) (type_tree bank.now of.0)) }
    ensures uses { OnOk result (Uses emitter.old emitter.new (variable_takes (type_tree bank.now of.0))) }
    ensures lacks { IfErr result (Lacks emitter.old (variable_takes (type_tree bank.now of.0))) }
{
    let made = open_variable(alloc, bank, emitter, environment, of)?;
    emitter.emit(Instr::Sigma(made.0, made.1))?;
    Ok(())
}

// Goals below `pi`.
fn open_all(
    alloc: Global,
    bank: &Bank,
    emitter: &mut Emitter,
    environment: &mut Environment<'_>,
    blocks: &mut Vec<Block>,
    of: TypeId,
) -> Result<(), RecordRefusal>
    ensures code { OnOk result (AllOpened emitter.old emitter.new (around_of bank.now environment.old) (around_of bank.now environment.new) blocks.old.items blocks.new.items (type_tree bank.now of.0)) }
    ensures uses { OnOk result (Uses emitter.old emitter.new (variable_takes (type_tree bank.now of.0))) }
    ensures lacks { IfErr result (Lacks emitter.old (variable_takes (type_tree bank.now of.0))) }
{
    let block = block_here(emitter, environment);
    let made = open_variable(alloc, bank, emitter, environment, of)?;
    blocks.push(block)?;
    emitter.emit(Instr::All(made.0, made.1))?;
    Ok(())
}

// The instruction that opened a side gets the count of bytes behind it.
fn close_side(emitter: &mut Emitter, side: Option<Block>)
    ensures patched { IfSome side (IsPatched emitter.old emitter.new) }
    ensures types { emitter.new.types ≡ emitter.old.types }
    ensures registers { emitter.new.registers ≡ emitter.old.registers }
    ensures place { emitter.new.place ≡ emitter.old.place }
{
    let Some(side) = side else {
        return;
    };
    let bytes = emitter.bytes_behind(side.from, JUMP_BYTES);
    emitter.set_bytes(side.at, bytes);
}

// The left side gives way to the right one.
fn turn(
    emitter: &mut Emitter,
    environment: &mut Environment<'_>,
    blocks: &mut Vec<Block>,
) -> Result<(), RecordRefusal>
    ensures code { OnOk result (Takes emitter.old emitter.new environment.old environment.new blocks.old.items blocks.new.items plain.turn) }
    ensures uses { OnOk result (Uses emitter.old emitter.new (plain_code 5 0)) }
    ensures lacks { IfErr result (Lacks emitter.old (plain_code 5 0)) }
    ensures around { OnOk result ((b : Nodes) → around_of b environment.new ≡ around_left (block_counts blocks.old.items) (around_of b environment.old)) }
    ensures counts { OnOk result ((b : Nodes) → block_counts blocks.new.items ≡ length (around_left (block_counts blocks.old.items) (around_of b environment.old)).own ∷ blocks_left (block_counts blocks.old.items)) }
{
    let left = leave(environment, blocks);
    let right = block_here(emitter, environment);
    emitter.emit(Instr::Jump(0))?;
    close_side(emitter, left);
    blocks.push(right)?;
    Ok(())
}

// The right side ends.
fn end_either(emitter: &mut Emitter, environment: &mut Environment<'_>, blocks: &mut Vec<Block>)
    ensures code { Takes emitter.old emitter.new environment.old environment.new blocks.old.items blocks.new.items plain.end_either }
    ensures uses { Uses emitter.old emitter.new nothing }
    ensures around { (b : Nodes) → around_of b environment.new ≡ around_left (block_counts blocks.old.items) (around_of b environment.old) }
    ensures counts { block_counts blocks.new.items ≡ blocks_left (block_counts blocks.old.items) }
{
    let right = leave(environment, blocks);
    close_side(emitter, right);
}

fn write_step(
    alloc: Global,
    tables: Tables<'_>,
    emitter: &mut Emitter,
    environment: &mut Environment<'_>,
    starts: &mut Vec<Starts>,
    blocks: &mut Vec<Block>,
    step: Step,
) -> Result<(), RecordRefusal>
    ensures code { OnOk result (IsDone tables.entry (constant_function tables.entry.bank.now tables.entry.constants.now) emitter.old emitter.new environment.old environment.new blocks.old.items blocks.new.items starts.old.items starts.new.items step) }
    ensures uses { OnOk result (Uses emitter.old emitter.new (block_step_takes tables.entry.bank.now tables.entry.type_vars tables.entry.assumptions.now (constant_function tables.entry.bank.now tables.entry.constants.now) (around_of tables.entry.bank.now environment.old) step)) }
    ensures lacks { IfErr result (Lacks emitter.old (block_step_takes tables.entry.bank.now tables.entry.type_vars tables.entry.assumptions.now (constant_function tables.entry.bank.now tables.entry.constants.now) (around_of tables.entry.bank.now environment.old) step)) }
    ensures stepped { OnOk result (IsStepped tables.entry.bank.now environment.old environment.new blocks.old.items blocks.new.items step) }
{
    match step {
        Step::Atom(term) => {
            put_atom(alloc, tables, emitter, environment, term)?;
            Ok(())
        }
        Step::Cut => {
            emitter.emit(Instr::Cut)?;
            Ok(())
        }
        Step::Either => {
            open(emitter, environment, blocks, Instr::Either(0))?;
            Ok(())
        }
        Step::Turn => {
            turn(emitter, environment, blocks)?;
            Ok(())
        }
        Step::EndEither => {
            end_either(emitter, environment, blocks);
            Ok(())
        }
        Step::Some(of) => {
            open_some(alloc, tables.bank, emitter, environment, of)?;
            Ok(())
        }
        Step::All(of) => {
            open_all(alloc, tables.bank, emitter, environment, blocks, of)?;
            Ok(())
        }
        Step::EndAll => {
            end(emitter, environment, blocks, Instr::EndAll)?;
            Ok(())
        }
        Step::Assume(number) => {
            let instr = assumption(alloc, tables, environment, starts, number)?;
            open(emitter, environment, blocks, instr)?;
            Ok(())
        }
        Step::EndAssume => {
            end(emitter, environment, blocks, Instr::EndAssume)?;
            Ok(())
        }
        Step::Not => {
            open(emitter, environment, blocks, Instr::Not)?;
            Ok(())
        }
        Step::EndNot => {
            end(emitter, environment, blocks, Instr::EndNot)?;
            Ok(())
        }
    }
}

// The code of steps.
fn write_steps(
    alloc: Global,
    tables: Tables<'_>,
    emitter: &mut Emitter,
    environment: &mut Environment<'_>,
    starts: &mut Vec<Starts>,
    steps: &[Step],
) -> Result<(), RecordRefusal>
    ensures code { OnOk result (AreDone tables.entry (constant_function tables.entry.bank.now tables.entry.constants.now) emitter.old emitter.new environment.old environment.new starts.old.items starts.new.items steps.now) }
    ensures uses { AreSet (around_of tables.entry.bank.now environment.old) → OnOk result (Uses emitter.old emitter.new (block_steps_take tables.entry.bank.now tables.entry.type_vars tables.entry.assumptions.now (constant_function tables.entry.bank.now tables.entry.constants.now) (around_of tables.entry.bank.now environment.old) [] steps.now)) }
    ensures lacks { AreSet (around_of tables.entry.bank.now environment.old) → IfErr result (Lacks emitter.old (block_steps_take tables.entry.bank.now tables.entry.type_vars tables.entry.assumptions.now (constant_function tables.entry.bank.now tables.entry.constants.now) (around_of tables.entry.bank.now environment.old) [] steps.now)) }
{
    let mut blocks = Vec::new(alloc);
    for step in steps.iter().copied() {
        write_step(
            alloc,
            tables,
            emitter,
            environment,
            starts,
            &mut blocks,
            step,
        )?;
    }
    Ok(())
}

/// The code behind the head.
pub(crate) fn write_body(
    alloc: Global,
    tables: Tables<'_>,
    emitter: &mut Emitter,
    environment: &mut Environment<'_>,
    starts: &mut Vec<Starts>,
    steps: &[Step],
) -> Result<(), RecordRefusal>
    ensures code { OnOk result (BodyWritten tables.entry (constant_function tables.entry.bank.now tables.entry.constants.now) emitter.old emitter.new environment.old environment.new starts.old.items starts.new.items steps.now) }
    ensures uses { AreSet (around_of tables.entry.bank.now environment.old) → OnOk result (Uses emitter.old emitter.new (body_code_takes tables.entry.bank.now tables.entry.type_vars tables.entry.assumptions.now (constant_function tables.entry.bank.now tables.entry.constants.now) (around_of tables.entry.bank.now environment.old) steps.now)) }
    ensures lacks { AreSet (around_of tables.entry.bank.now environment.old) → IfErr result (Lacks emitter.old (body_code_takes tables.entry.bank.now tables.entry.type_vars tables.entry.assumptions.now (constant_function tables.entry.bank.now tables.entry.constants.now) (around_of tables.entry.bank.now environment.old) steps.now)) }
{
    put_neck(emitter)?;
    write_steps(alloc, tables, emitter, environment, starts, steps)?;
    emitter.emit(Instr::Proceed)?;
    Ok(())
}
