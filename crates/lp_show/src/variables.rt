ghost use Rattle.std.specs.Prelude.{◌≡◌, ◌<◌, length, OnOk};
ghost use Rattle.lp_term.specs.Nodes.{tree};
ghost use Rattle.lp_model.specs.Shown.{with_variables, with_variable};

use crate::spine::push_reversed;
use indexmap::IndexSet;
use lp_base::Memory;
use lp_term::{Bank, TermId, TermNode};
use std::alloc::Global;

fn add_variable(id: u64, seen: &mut IndexSet<u64>) -> Result<(), Memory>
    ensures { OnOk result (seen.new.keys ≡ with_variable id seen.old.keys) }
{
    seen.insert_full(id)?;
    Ok(())
}

/// Adds the variables of a term, in the order of their first places.
pub(crate) fn add_variables(
    alloc: Global,
    bank: &Bank,
    term: TermId,
    seen: &mut IndexSet<u64>,
) -> Result<(), Memory>
    requires { term.0 < length bank.now.terms }
    ensures { OnOk result (seen.new.keys ≡ with_variables seen.old.keys (tree bank.now term.0)) }
{
    let mut left = Vec::new(alloc);
    left.push(term)?;
    'terms: while let Some(next) = left.pop() {
        match bank.term_node(next) {
            TermNode::Logic { id, level: _ } => {
                add_variable(id, seen)?;
                continue;
            }
            TermNode::Abs(body) => {
                left.push(body)?;
                continue;
            }
            TermNode::App(head, arguments) => {
                push_reversed(arguments, &mut left)?;
                left.push(head)?;
                continue;
            }
            TermNode::Index(_) => continue,
            TermNode::Const(_, _) => continue,
            TermNode::Int(_) => continue,
            TermNode::Text(_) => continue,
            TermNode::Eigen(_) => continue,
            TermNode::Param(_, _) => continue,
        }
    }
    Ok(())
}
