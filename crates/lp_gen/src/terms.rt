// Terms in registers.
ghost use Rattle.std.specs.Prelude.{◌≡◌, [], length, map, IfOk, OnOk, IfErr};
ghost use Rattle.lp_gen.specs.Registers.{term_takes, behind_term, terms_take, behind_terms};
ghost use Rattle.lp_gen.specs.inner.Using.{Uses, Lacks};
ghost use Rattle.lp_term.specs.Nodes.{tree};
ghost use Rattle.lp_gen.specs.inner.Reading.{read};
ghost use Rattle.lp_gen.specs.Steps.{constant_function, head_type};
ghost use Rattle.lp_gen.specs.inner.Listing.{around_of};
ghost use Rattle.lp_gen.specs.inner.Written.{TermWritten, ArgumentsWritten};

use crate::emitter::Emitter;
use crate::environment::Environment;
use crate::fault::RecordRefusal;
use crate::listing::{list_steps, type_of_head};
use crate::tables::Tables;
use crate::term_steps::put_steps;
use crate::types::TypeView;
use lp_term::TermId;
use std::alloc::Global;

/// The term of this type in a register.
pub(crate) fn put_term(
    alloc: Global,
    tables: Tables<'_>,
    emitter: &mut Emitter,
    environment: &mut Environment<'_>,
    term: TermId,
    of: TypeView,
) -> Result<u16, RecordRefusal>
    ensures code { IfOk result (λ register. TermWritten (constant_function tables.entry.bank.now tables.entry.constants.now) emitter.old emitter.new (around_of tables.entry.bank.now environment.old) (around_of tables.entry.bank.now environment.new) register (read tables.entry.bank.now of) (tree tables.entry.bank.now term.0)) }
    ensures around { OnOk result (around_of tables.entry.bank.now environment.new ≡ behind_term (constant_function tables.entry.bank.now tables.entry.constants.now) (around_of tables.entry.bank.now environment.old) (read tables.entry.bank.now of) (tree tables.entry.bank.now term.0)) }
    ensures uses { OnOk result (Uses emitter.old emitter.new (term_takes (constant_function tables.entry.bank.now tables.entry.constants.now) (around_of tables.entry.bank.now environment.old) (read tables.entry.bank.now of) (tree tables.entry.bank.now term.0))) }
    ensures lacks { IfErr result (Lacks emitter.old (term_takes (constant_function tables.entry.bank.now tables.entry.constants.now) (around_of tables.entry.bank.now environment.old) (read tables.entry.bank.now of) (tree tables.entry.bank.now term.0))) }
{
    let steps = list_steps(alloc, tables, environment, term, of)?;
    let register = put_steps(alloc, tables.bank, emitter, steps.as_slice())?;
    Ok(register)
}

/// The arguments of a head in registers.
pub(crate) fn put_arguments(
    alloc: Global,
    tables: Tables<'_>,
    emitter: &mut Emitter,
    environment: &mut Environment<'_>,
    head: TermId,
    args: &[TermId],
) -> Result<Vec<u16>, RecordRefusal>
    ensures code { IfOk result (λ registers. ArgumentsWritten (constant_function tables.entry.bank.now tables.entry.constants.now) emitter.old emitter.new (around_of tables.entry.bank.now environment.old) (around_of tables.entry.bank.now environment.new) registers.items (head_type (constant_function tables.entry.bank.now tables.entry.constants.now) [] (around_of tables.entry.bank.now environment.old) (tree tables.entry.bank.now head.0)) (map (λ t. tree tables.entry.bank.now t.0) args.now)) }
    ensures count { IfOk result (λ registers. length registers.items ≡ length args.now) }
    ensures around { OnOk result (around_of tables.entry.bank.now environment.new ≡ behind_terms (constant_function tables.entry.bank.now tables.entry.constants.now) (around_of tables.entry.bank.now environment.old) (head_type (constant_function tables.entry.bank.now tables.entry.constants.now) [] (around_of tables.entry.bank.now environment.old) (tree tables.entry.bank.now head.0)) (map (λ t. tree tables.entry.bank.now t.0) args.now)) }
    ensures uses { OnOk result (Uses emitter.old emitter.new (terms_take (constant_function tables.entry.bank.now tables.entry.constants.now) (around_of tables.entry.bank.now environment.old) (head_type (constant_function tables.entry.bank.now tables.entry.constants.now) [] (around_of tables.entry.bank.now environment.old) (tree tables.entry.bank.now head.0)) (map (λ t. tree tables.entry.bank.now t.0) args.now))) }
    ensures lacks { IfErr result (Lacks emitter.old (terms_take (constant_function tables.entry.bank.now tables.entry.constants.now) (around_of tables.entry.bank.now environment.old) (head_type (constant_function tables.entry.bank.now tables.entry.constants.now) [] (around_of tables.entry.bank.now environment.old) (tree tables.entry.bank.now head.0)) (map (λ t. tree tables.entry.bank.now t.0) args.now))) }
{
    let mut function = type_of_head(tables, environment, &[], head);
    let mut registers = Vec::new(alloc);
    for arg in args.iter().copied() {
        let (of, left) = function.next(tables.bank);
        let register = put_term(alloc, tables, emitter, environment, arg, of)?;
        registers.push(register)?;
        function = left;
    }
    Ok(registers)
}
