// Whether a variable stands in a type or in a term. Shared parts are looked at once.
ghost use Rattle.std.specs.Prelude.{◌≡◌, List, ◌++◌, map, nat_eq, true, false, IfOk};
ghost use Rattle.std.specs.List.{list_any};
ghost use Rattle.indexmap.specs.IndexSet.{contains};
ghost use Rattle.lp_term.specs.Nodes.{type_tree, tree};
ghost use Rattle.lp_term.specs.declared.node.TypeId.{TypeId};
ghost use Rattle.lp_term.specs.declared.node.TermId.{TermId};
ghost use Rattle.lp_model.specs.Search.{has_type_variable as is_open_type, has_variable as is_open};
ghost use Rattle.lp_plain.specs.inner.Looking.{AreParts, IsClean, open_types, open_terms, type_weight, term_weight};

use indexmap::IndexSet;
use lp_base::Memory;
use lp_term::{Bank, TermId, TermNode, TypeId, TypeNode};
use std::alloc::Global;

// Looks at a type: false where it is a variable, else its parts are left.
fn open_type(bank: &Bank, of: TypeId, left: &mut Vec<TypeId>) -> Result<bool, Memory>
    ensures variable { IfOk result (λ on. on ≡ false → is_open_type (type_tree bank.now of.0) ≡ true) }
    ensures parts { IfOk result (λ on. on ≡ true → (ps : List TypeId) × (left.new.items ≡ left.old.items ++ ps) × AreParts (open_types bank.now) (type_weight bank.now) of.0 (map (λ t. t.0) ps)) }
{
    match bank.type_node(of) {
        TypeNode::Var(_) => return Ok(false),
        TypeNode::Param(_) => {}
        TypeNode::Con(_, parts) => left.extend_from_slice(parts)?,
        TypeNode::Arrow(from, to) => {
            left.push(from)?;
            left.push(to)?;
        }
    }
    Ok(true)
}

/// Whether a type variable stands in one of the types. Those that were seen have none.
pub(crate) fn has_type_variable(
    alloc: Global,
    bank: &Bank,
    seen: &mut IndexSet<usize>,
    types: &[TypeId],
) -> Result<bool, Memory>
    requires clean { IsClean (open_types bank.now) (contains nat_eq seen.old) }
    ensures found { IfOk result (λ found. found ≡ list_any (open_types bank.now) (map (λ t. t.0) types.now)) }
    ensures clean { IfOk result (λ found. found ≡ false → IsClean (open_types bank.now) (contains nat_eq seen.new)) }
{
    let mut left = Vec::from_slice(alloc, types)?;
    'types: while let Some(next) = left.pop() {
        if !seen.insert(next.0)? {
            continue;
        }
        if !open_type(bank, next, &mut left)? {
            return Ok(true);
        }
    }
    Ok(false)
}

// Looks at a term: false where it is a variable or has a type variable in its own types, else its parts are left.
fn open_term(
    alloc: Global,
    bank: &Bank,
    seen: &mut IndexSet<usize>,
    term: TermId,
    left: &mut Vec<TermId>,
) -> Result<bool, Memory>
    requires clean { IsClean (open_types bank.now) (contains nat_eq seen.old) }
    ensures clean { IfOk result (λ on. on ≡ true → IsClean (open_types bank.now) (contains nat_eq seen.new)) }
    ensures variable { IfOk result (λ on. on ≡ false → is_open (tree bank.now term.0) ≡ true) }
    ensures parts { IfOk result (λ on. on ≡ true → (ps : List TermId) × (left.new.items ≡ left.old.items ++ ps) × AreParts (open_terms bank.now) (term_weight bank.now) term.0 (map (λ t. t.0) ps)) }
{
    match bank.term_node(term) {
        TermNode::Logic { .. } => Ok(false),
        TermNode::Const(_, of) => {
            let found = has_type_variable(alloc, bank, seen, of)?;
            Ok(!found)
        }
        TermNode::Param(_, of) => {
            let found = has_type_variable(alloc, bank, seen, &[of])?;
            Ok(!found)
        }
        TermNode::Abs(body) => {
            left.push(body)?;
            Ok(true)
        }
        TermNode::App(head, args) => {
            left.push(head)?;
            left.extend_from_slice(args)?;
            Ok(true)
        }
        _ => Ok(true),
    }
}

/// Whether a logic variable stands in the term, or a type variable in the types of its constants.
pub(crate) fn has_variable(alloc: Global, bank: &Bank, term: TermId) -> Result<bool, Memory>
    ensures { IfOk result (λ found. found ≡ is_open (tree bank.now term.0)) }
{
    let mut types = IndexSet::new(alloc);
    let mut seen = IndexSet::new(alloc);
    let mut left = Vec::new(alloc);
    left.push(term)?;
    'terms: while let Some(next) = left.pop() {
        if !seen.insert(next.0)? {
            continue;
        }
        if !open_term(alloc, bank, &mut types, next, &mut left)? {
            return Ok(true);
        }
    }
    Ok(false)
}
