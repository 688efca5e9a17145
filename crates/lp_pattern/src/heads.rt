// Rigid heads: whether they are the same but for their types, and the pairs of their types.
ghost use Rattle.std.specs.Prelude.{◌≡◌, ◌<◌, length, List, [], ◌∷◌, map, ℕ, All, IfOk};
ghost use Rattle.lp_term.specs.Within.{AreTypesOf, IsTypeOf};
ghost use Rattle.lp_calculus.specs.Types.{Ty, instance};
ghost use Rattle.lp_calculus.specs.Term.{index, atom, constant, integer, text, eigen, logic, param};
ghost use Rattle.lp_calculus.specs.Instance.{instance_term};
ghost use Rattle.lp_term.specs.Nodes.{tree, type_tree};
ghost use Rattle.lp_model.specs.Same.{same_name};
ghost use Rattle.lp_model.specs.Rule.{type_pairs};
ghost use Rattle.lp_pattern.specs.Inside.{IsTypePairOf};
ghost use Rattle.lp_pattern.specs.Reading.{paired, type_pairs_of};

use lp_base::Memory;
use lp_term::{Bank, TermId, TermNode, TypeId};
use std::alloc::Global;

fn is_index(bank: &Bank, id: TermId, i: u64) -> bool
    ensures { result ≡ same_name (index i) (tree bank.now id.0) }
{
    match bank.term_node(id) {
        TermNode::Index(j) => i == j,
        _ => false,
    }
}

fn is_constant(bank: &Bank, id: TermId, c: u32, count: usize) -> bool
    ensures { (ts : List Ty) → count ≡ length ts → result ≡ same_name (atom (constant c ts)) (tree bank.now id.0) }
{
    match bank.term_node(id) {
        TermNode::Const(d, types) => c == d && count == types.len(),
        _ => false,
    }
}

fn is_integer(bank: &Bank, id: TermId, i: i64) -> bool
    ensures { result ≡ same_name (atom (integer i)) (tree bank.now id.0) }
{
    match bank.term_node(id) {
        TermNode::Int(j) => i == j,
        _ => false,
    }
}

fn is_text(bank: &Bank, id: TermId, bytes: &[u8]) -> bool
    ensures { result ≡ same_name (atom (text bytes.now)) (tree bank.now id.0) }
{
    match bank.term_node(id) {
        TermNode::Text(others) => bytes == others,
        _ => false,
    }
}

fn is_eigen(bank: &Bank, id: TermId, k: u64) -> bool
    ensures { result ≡ same_name (atom (eigen k)) (tree bank.now id.0) }
{
    match bank.term_node(id) {
        TermNode::Eigen(l) => k == l,
        _ => false,
    }
}

fn is_logic(bank: &Bank, id: TermId, x: u64, l: u64) -> bool
    ensures { result ≡ same_name (atom (logic x l)) (tree bank.now id.0) }
{
    match bank.term_node(id) {
        TermNode::Logic { id: y, level: m } => x == y && l == m,
        _ => false,
    }
}

fn is_parameter(bank: &Bank, id: TermId, k: u64) -> bool
    ensures { (t : Ty) → result ≡ same_name (atom (param k t)) (tree bank.now id.0) }
{
    match bank.term_node(id) {
        TermNode::Param(l, _) => k == l,
        _ => false,
    }
}

// Whether two terms are the same name.
pub(crate) fn have_same_name(bank: &Bank, one: TermId, other: TermId) -> bool
    ensures { result ≡ same_name (tree bank.now one.0) (tree bank.now other.0) }
{
    match bank.term_node(one) {
        TermNode::Index(i) => is_index(bank, other, i),
        TermNode::Const(c, types) => is_constant(bank, other, c, types.len()),
        TermNode::Int(i) => is_integer(bank, other, i),
        TermNode::Text(bytes) => is_text(bank, other, bytes),
        TermNode::Eigen(k) => is_eigen(bank, other, k),
        TermNode::Logic { id, level } => is_logic(bank, other, id, level),
        TermNode::Param(k, _) => is_parameter(bank, other, k),
        TermNode::Abs(_) => false,
        TermNode::App(_, _) => false,
    }
}

// The elements of two lists, place by place.
fn places(
    alloc: Global,
    ones: &[TypeId],
    others: &[TypeId],
) -> Result<Vec<(TypeId, TypeId)>, Memory>
    ensures { IfOk result (λ pairs. pairs.items ≡ paired ones.now others.now) }
{
    let mut pairs = Vec::new(alloc);
    for (one, other) in ones.iter().zip(others.iter()) {
        pairs.push((*one, *other))?;
    }
    Ok(pairs)
}

// The one pair.
fn alone(alloc: Global, one: TypeId, other: TypeId) -> Result<Vec<(TypeId, TypeId)>, Memory>
    ensures { IfOk result (λ pairs. pairs.items ≡ (one, other) ∷ []) }
{
    let mut pairs = Vec::new(alloc);
    pairs.push((one, other))?;
    Ok(pairs)
}

// The types of a constant beside those of a head, if that is one.
fn beside_constant(
    alloc: Global,
    bank: &Bank,
    types: &[TypeId],
    id: TermId,
) -> Result<Vec<(TypeId, TypeId)>, Memory>
    requires { AreTypesOf bank.now types.now }
    ensures within { IfOk result (λ pairs. All (IsTypePairOf (length bank.now.types)) pairs.items) }
    ensures pairs { IfOk result (λ pairs. (θ : ℕ → Ty) → (c : ℕ) →
        type_pairs_of bank.now θ pairs.items ≡ type_pairs (atom (constant c (map (λ t. instance θ (type_tree bank.now t.0)) types.now))) (instance_term θ (tree bank.now id.0))) }
{
    match bank.term_node(id) {
        TermNode::Const(_, others) => places(alloc, types, others),
        _ => Ok(Vec::new(alloc)),
    }
}

// The type of a parameter beside that of a head, if that is one.
fn beside_parameter(
    alloc: Global,
    bank: &Bank,
    of: TypeId,
    id: TermId,
) -> Result<Vec<(TypeId, TypeId)>, Memory>
    requires { IsTypeOf bank.now of }
    ensures within { IfOk result (λ pairs. All (IsTypePairOf (length bank.now.types)) pairs.items) }
    ensures pairs { IfOk result (λ pairs. (θ : ℕ → Ty) → (k : ℕ) →
        type_pairs_of bank.now θ pairs.items ≡ type_pairs (atom (param k (instance θ (type_tree bank.now of.0)))) (instance_term θ (tree bank.now id.0))) }
{
    match bank.term_node(id) {
        TermNode::Param(_, to) => alone(alloc, of, to),
        _ => Ok(Vec::new(alloc)),
    }
}

// The types of two heads of the same name.
pub(crate) fn type_pairs(
    alloc: Global,
    bank: &Bank,
    one: TermId,
    other: TermId,
) -> Result<Vec<(TypeId, TypeId)>, Memory>
    ensures within { IfOk result (λ pairs. All (IsTypePairOf (length bank.now.types)) pairs.items) }
    ensures pairs { IfOk result (λ pairs. (θ : ℕ → Ty) →
        type_pairs_of bank.now θ pairs.items ≡ type_pairs (instance_term θ (tree bank.now one.0)) (instance_term θ (tree bank.now other.0))) }
{
    match bank.term_node(one) {
        TermNode::Const(_, types) => beside_constant(alloc, bank, types, other),
        TermNode::Param(_, of) => beside_parameter(alloc, bank, of, other),
        _ => Ok(Vec::new(alloc)),
    }
}
