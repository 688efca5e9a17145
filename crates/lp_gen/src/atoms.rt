// Atoms as goals.
ghost use Rattle.std.specs.Prelude.{OnOk, IfErr};
ghost use Rattle.lp_gen.specs.Registers.{atom_takes};
ghost use Rattle.lp_gen.specs.inner.Using.{Uses, Lacks};
ghost use Rattle.lp_term.specs.Nodes.{tree};
ghost use Rattle.lp_gen.specs.Steps.{constant_function};
ghost use Rattle.lp_gen.specs.inner.Listing.{around_of};
ghost use Rattle.lp_gen.specs.inner.Doing.{AtomWritten};

use crate::calls::{put_call, put_term_call};
use crate::emitter::Emitter;
use crate::environment::Environment;
use crate::fault::RecordRefusal;
use crate::tables::Tables;
use crate::terms::{put_arguments, put_term};
use crate::types::TypeView;
use crate::written_types::put_types;
use lp_term::{TermId, TermNode, spine_of};
use std::alloc::Global;

/// The goal of an atom.
pub(crate) fn put_atom(
    alloc: Global,
    tables: Tables<'_>,
    emitter: &mut Emitter,
    environment: &mut Environment<'_>,
    atom: TermId,
) -> Result<(), RecordRefusal>
    ensures code { OnOk result (AtomWritten (constant_function tables.entry.bank.now tables.entry.constants.now) emitter.old emitter.new (around_of tables.entry.bank.now environment.old) (around_of tables.entry.bank.now environment.new) (tree tables.entry.bank.now atom.0)) }
    ensures uses { OnOk result (Uses emitter.old emitter.new (atom_takes (constant_function tables.entry.bank.now tables.entry.constants.now) (around_of tables.entry.bank.now environment.old) (tree tables.entry.bank.now atom.0))) }
    ensures lacks { IfErr result (Lacks emitter.old (atom_takes (constant_function tables.entry.bank.now tables.entry.constants.now) (around_of tables.entry.bank.now environment.old) (tree tables.entry.bank.now atom.0))) }
{
    let spine = spine_of(alloc, tables.bank, atom)?;
    match tables.bank.term_node(spine.head) {
        TermNode::Const(number, types) => {
            let types = put_types(alloc, tables.bank, emitter, types)?;
            let args = spine.args.as_slice();
            let terms = put_arguments(alloc, tables, emitter, environment, spine.head, args)?;
            put_call(emitter, number, types, terms)?;
            Ok(())
        }
        _ => {
            let of = TypeView::Proposition;
            let register = put_term(alloc, tables, emitter, environment, atom, of)?;
            put_term_call(emitter, register)?;
            Ok(())
        }
    }
}
