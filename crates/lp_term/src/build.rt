//! A node with what its parts have become. In the bank that is read, a node that stays as it is keeps its number.
ghost use Rattle.std.specs.Prelude.{◌≡◌, ◌<◌, ℕ, All, IfOk, length, map, true};
ghost use Rattle.lp_term.specs.Nodes.{Nodes, Extends, IsSound, tree, type_tree, node_tree, term_at, type_at};
ghost use Rattle.lp_term.specs.Shapes.{term_shape, type_shape};
ghost use Rattle.lp_term.specs.Mapped.{Map, IsMap};
ghost use Rattle.lp_term.specs.declared.becomes.TermChange.{TermChange};
ghost use Rattle.lp_term.specs.declared.becomes.TypeChange.{TypeChange};
ghost use Rattle.lp_term.specs.inner.Reading.{read_of};
ghost use Rattle.lp_term.specs.inner.Rebuilt.{IsLeaf, rebuilt, rebuilt_type, rebuilt_variable, rebuilt_logic};
ghost use Rattle.lp_term.specs.inner.Walking.{made_of, parts, IsIn, IsRight, IsRightAt};

use crate::bank::Bank;
use crate::becomes::{TermChange, TypeChange};
use crate::changed::Changed;
use crate::mapping::Mapping;
use crate::node::{TermId, TermNode, TypeId, TypeNode};
use crate::put::{
    put_abstraction, put_application, put_arrow, put_constant, put_constructor, put_eigen,
    put_index, put_integer, put_logic, put_parameter, put_text, put_type_variable,
};
use crate::read::read;
use crate::walked::Node;
use lp_base::Memory;
use std::alloc::Global;

fn stays(change: TermChange) -> bool
    ensures { result ≡ true → change ≡ TermChange.Stays }
{
    match change {
        TermChange::Stays => true,
        TermChange::Is(_) => false,
        TermChange::As(_) => false,
    }
}

fn is_variable(change: TypeChange, number: u64) -> bool
    ensures { result ≡ true → change ≡ TypeChange.Var number }
{
    match change {
        TypeChange::Var(new) => new == number,
        TypeChange::Is(_) => false,
        TypeChange::As(_) => false,
    }
}

// What a type variable becomes.
pub(crate) fn put_variable(
    to: &mut Bank,
    done: &Changed,
    change: TypeChange,
) -> Result<TypeId, Memory>
    ensures kept { Extends to.old to.new }
    ensures within { IfOk result (λ made. made.0 < length to.new.types) }
    ensures tree { IfOk result (λ made. type_tree to.new made.0 ≡ rebuilt_variable done.now to.old change) }
{
    match change {
        TypeChange::Var(number) => put_type_variable(to, number),
        TypeChange::Is(id) => to.inside_type(id),
        TypeChange::As(id) => to.inside_type(done.type_of(id)),
    }
}

fn put_logic_changed(
    to: &mut Bank,
    done: &Changed,
    variable: u64,
    level: u64,
    change: TermChange,
) -> Result<TermId, Memory>
    ensures kept { Extends to.old to.new }
    ensures within { IfOk result (λ made. made.0 < length to.new.terms) }
    ensures tree { IfOk result (λ made. tree to.new made.0 ≡ rebuilt_logic done.now to.old variable level change) }
{
    match change {
        TermChange::Stays => put_logic(to, variable, level),
        TermChange::Is(id) => to.inside(id),
        TermChange::As(id) => to.inside(done.term(id)),
    }
}

// The type with what its parts have become.
fn type_rebuilt<M: Mapping>(
    alloc: Global,
    map: &M,
    done: &Changed,
    here: bool,
    from: &Bank,
    to: &mut Bank,
    id: TypeId,
) -> Result<TypeId, Memory>
    ensures kept { Extends to.old to.new }
    ensures within { IfOk result (λ made. id.0 < length (read_of here from.now to.old).types → made.0 < length to.new.types) }
    ensures tree { IfOk result (λ made. type_tree to.new made.0 ≡ rebuilt_type (M.told map.now) done.now to.old (type_at (read_of here from.now to.old) id.0)) }
{
    match read(here, from, to).type_node(id) {
        TypeNode::Var(number) => {
            let change = map.type_variable(number);
            if here && is_variable(change, number) {
                return Ok(id);
            }
            let made = put_variable(to, done, change)?;
            Ok(made)
        }
        TypeNode::Param(number) => {
            if here {
                return Ok(id);
            }
            let made = to.put_type(TypeNode::Param(number))?;
            Ok(made)
        }
        TypeNode::Con(kind, ids) => {
            let parts = done.all_types(alloc, ids)?;
            let new = map.kind(kind);
            if here && new == kind && parts.as_slice() == ids {
                return Ok(id);
            }
            let made = put_constructor(to, new, parts.as_slice())?;
            Ok(made)
        }
        TypeNode::Arrow(source, target) => {
            let left = done.type_of(source);
            let right = done.type_of(target);
            if here && left == source && right == target {
                return Ok(id);
            }
            let made = put_arrow(to, left, right)?;
            Ok(made)
        }
    }
}

// A term without parts.
fn leaf_rebuilt(here: bool, from: &Bank, to: &mut Bank, id: TermId) -> Result<TermId, Memory>
    ensures kept { Extends to.old to.new }
    ensures within { IfOk result (λ made. id.0 < length (read_of here from.now to.old).terms → made.0 < length to.new.terms) }
    ensures tree { IsLeaf (term_at (read_of here from.now to.old) id.0) → IfOk result (λ made. (b : Nodes) → tree to.new made.0 ≡ node_tree b (term_at (read_of here from.now to.old) id.0)) }
{
    if here {
        let _node = to.term_node(id);
        return Ok(id);
    }
    match from.term_node(id) {
        TermNode::Index(at) => {
            let made = put_index(to, at)?;
            Ok(made)
        }
        TermNode::Int(value) => {
            let made = put_integer(to, value)?;
            Ok(made)
        }
        TermNode::Text(bytes) => {
            let made = put_text(to, bytes)?;
            Ok(made)
        }
        TermNode::Eigen(level) => {
            let made = put_eigen(to, level)?;
            Ok(made)
        }
        _ => {
            let made = to.inside(id)?;
            Ok(made)
        }
    }
}

// The term with what its parts have become.
fn term_rebuilt<M: Mapping>(
    alloc: Global,
    map: &M,
    done: &Changed,
    here: bool,
    from: &Bank,
    to: &mut Bank,
    id: TermId,
) -> Result<TermId, Memory>
    ensures kept { Extends to.old to.new }
    ensures within { IfOk result (λ made. id.0 < length (read_of here from.now to.old).terms → made.0 < length to.new.terms) }
    ensures tree { IfOk result (λ made. tree to.new made.0 ≡ rebuilt (M.told map.now) done.now to.old (term_at (read_of here from.now to.old) id.0)) }
{
    match read(here, from, to).term_node(id) {
        TermNode::Const(number, ids) => {
            let types = done.all_types(alloc, ids)?;
            let new = map.constant(number);
            if here && new == number && types.as_slice() == ids {
                return Ok(id);
            }
            let made = put_constant(to, new, types.as_slice())?;
            Ok(made)
        }
        TermNode::App(head, ids) => {
            let top = done.term(head);
            let args = done.all_terms(alloc, ids)?;
            if here && top == head && args.as_slice() == ids {
                return Ok(id);
            }
            let made = put_application(to, top, args.as_slice())?;
            Ok(made)
        }
        TermNode::Abs(body) => {
            let inner = done.term(body);
            if here && inner == body {
                return Ok(id);
            }
            let made = put_abstraction(to, inner)?;
            Ok(made)
        }
        TermNode::Param(number, of) => {
            let new = done.type_of(of);
            if here && new == of {
                return Ok(id);
            }
            let made = put_parameter(to, number, new)?;
            Ok(made)
        }
        TermNode::Logic {
            id: variable,
            level,
        } => {
            let change = map.logic_variable(variable);
            if here && stays(change) {
                return Ok(id);
            }
            let made = put_logic_changed(to, done, variable, level, change)?;
            Ok(made)
        }
        _ => {
            let made = leaf_rebuilt(here, from, to, id)?;
            Ok(made)
        }
    }
}

/// The number of what the node becomes, whose parts are made.
pub(crate) fn made<M: Mapping>(
    alloc: Global,
    map: &M,
    done: &Changed,
    here: bool,
    from: &Bank,
    to: &mut Bank,
    node: Node,
) -> Result<usize, Memory>
    ensures kept { Extends to.old to.new }
    ensures right { IfOk result (λ made. (m : Map) → (b : Nodes) → Extends b (read_of here from.now to.old) → IsSound b → IsIn b node → IsMap (M.told map.now) m b to.old →
        All (λ p. IsRightAt m b to.old p (made_of done.now p)) (parts (M.told map.now) b node) → IsRight m b to.new node made) }
{
    match node {
        Node::Term(id) => {
            let made = term_rebuilt(alloc, map, done, here, from, to, TermId(id))?;
            Ok(made.0)
        }
        Node::Type(id) => {
            let made = type_rebuilt(alloc, map, done, here, from, to, TypeId(id))?;
            Ok(made.0)
        }
    }
}
