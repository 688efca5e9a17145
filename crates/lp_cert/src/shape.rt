// How a formula begins: a constant with types, on one or two terms.
ghost use Rattle.std.specs.Prelude.{◌≡◌, ◌<◌, ℕ, List, None, IfSome, length};
ghost use Rattle.lp_calculus.specs.Term.{Term, app, atom, constant};
ghost use Rattle.lp_calculus.specs.Types.{Ty};
ghost use Rattle.lp_standard.specs.Connectives.{two};
ghost use Rattle.lp_term.specs.Nodes.{Nodes, Extends, tree};
ghost use Rattle.lp_cert.specs.Shape.{IsOne, IsOneOn, IsTwo, IsTwoOn, IsTwoWith};

use lp_term::{Bank, TermId, TermNode, TypeId};

// A constant on one term.
#[derive(Clone, Copy)]
pub(crate) struct One<'a> {
    pub(crate) constant: u32,
    pub(crate) types: &'a [TypeId],
    pub(crate) on: TermId,
}

// A constant on two terms.
#[derive(Clone, Copy)]
pub(crate) struct Two<'a> {
    pub(crate) constant: u32,
    pub(crate) types: &'a [TypeId],
    pub(crate) left: TermId,
    pub(crate) right: TermId,
}

// The head on the term as a constant on it, if it is one.
fn one_applied<'a>(bank: &'a Bank, head: TermId, on: TermId) -> Option<One<'a>>
    ensures now { IfSome result (IsOneOn bank.now (tree bank.now head.0) on) }
    ensures later { IfSome result (λ o. (b : Nodes) → Extends bank.now b → IsOneOn b (tree b head.0) on o) }
    ensures none { result ≡ None → (n : ℕ) (ts : List Ty) → tree bank.now head.0 ≡ atom (constant n ts) → ⊥ }
{
    match bank.term_node(head) {
        TermNode::Const(constant, types) => Some(One {
            constant,
            types,
            on,
        }),
        TermNode::Index(_) => None,
        TermNode::Int(_) => None,
        TermNode::Text(_) => None,
        TermNode::Eigen(_) => None,
        TermNode::Logic { .. } => None,
        TermNode::Param(_, _) => None,
        TermNode::Abs(_) => None,
        TermNode::App(_, _) => None,
    }
}

// The term as a constant on one term, if it is one.
pub(crate) fn one_of(bank: &Bank, term: TermId) -> Option<One<'_>>
    ensures now { IfSome result (IsOne bank.now (tree bank.now term.0)) }
    ensures later { IfSome result (λ o. (b : Nodes) → Extends bank.now b → IsOne b (tree b term.0) o) }
    ensures inside { IfSome result (λ o. o.on.0 < length bank.now.terms) }
    ensures none { result ≡ None → (n : ℕ) (ts : List Ty) (u : Term) → tree bank.now term.0 ≡ app (atom (constant n ts)) u → ⊥ }
{
    match bank.term_node(term) {
        TermNode::App(head, arguments) => {
            if arguments.len() != 1 {
                return None;
            }
            one_applied(bank, head, arguments[0])
        }
        TermNode::Index(_) => None,
        TermNode::Const(_, _) => None,
        TermNode::Int(_) => None,
        TermNode::Text(_) => None,
        TermNode::Eigen(_) => None,
        TermNode::Logic { .. } => None,
        TermNode::Param(_, _) => None,
        TermNode::Abs(_) => None,
    }
}

// The head on the two terms as a constant on them, if it is one.
fn two_applied<'a>(bank: &'a Bank, head: TermId, left: TermId, right: TermId) -> Option<Two<'a>>
    ensures now { IfSome result (IsTwoOn bank.now (tree bank.now head.0) left right) }
    ensures later { IfSome result (λ o. (b : Nodes) → Extends bank.now b → IsTwoOn b (tree b head.0) left right o) }
    ensures none { result ≡ None → (n : ℕ) (ts : List Ty) → tree bank.now head.0 ≡ atom (constant n ts) → ⊥ }
{
    match bank.term_node(head) {
        TermNode::Const(constant, types) => Some(Two {
            constant,
            types,
            left,
            right,
        }),
        TermNode::Index(_) => None,
        TermNode::Int(_) => None,
        TermNode::Text(_) => None,
        TermNode::Eigen(_) => None,
        TermNode::Logic { .. } => None,
        TermNode::Param(_, _) => None,
        TermNode::Abs(_) => None,
        TermNode::App(_, _) => None,
    }
}

// The head on one more term as a constant on two terms, if it is one.
fn two_with<'a>(bank: &'a Bank, head: TermId, right: TermId) -> Option<Two<'a>>
    ensures now { IfSome result (IsTwoWith bank.now (tree bank.now head.0) right) }
    ensures later { IfSome result (λ o. (b : Nodes) → Extends bank.now b → IsTwoWith b (tree b head.0) right o) }
    ensures inside { IfSome result (λ o. (o.left.0 < length bank.now.terms) × (o.right ≡ right)) }
    ensures none { result ≡ None → (n : ℕ) (ts : List Ty) (u : Term) → tree bank.now head.0 ≡ app (atom (constant n ts)) u → ⊥ }
{
    match one_of(bank, head) {
        Some(one) => Some(Two {
            constant: one.constant,
            types: one.types,
            left: one.on,
            right,
        }),
        None => None,
    }
}

// The term as a constant on two terms, if it is one.
pub(crate) fn two_of(bank: &Bank, term: TermId) -> Option<Two<'_>>
    ensures now { IfSome result (IsTwo bank.now (tree bank.now term.0)) }
    ensures later { IfSome result (λ o. (b : Nodes) → Extends bank.now b → IsTwo b (tree b term.0) o) }
    ensures inside { IfSome result (λ o. (o.left.0 < length bank.now.terms) × (o.right.0 < length bank.now.terms)) }
    ensures none { result ≡ None → (n : ℕ) (ts : List Ty) (u v : Term) → tree bank.now term.0 ≡ two n ts u v → ⊥ }
{
    match bank.term_node(term) {
        TermNode::App(head, arguments) => {
            if arguments.len() == 1 {
                return two_with(bank, head, arguments[0]);
            }
            if arguments.len() != 2 {
                return None;
            }
            two_applied(bank, head, arguments[0], arguments[1])
        }
        TermNode::Index(_) => None,
        TermNode::Const(_, _) => None,
        TermNode::Int(_) => None,
        TermNode::Text(_) => None,
        TermNode::Eigen(_) => None,
        TermNode::Logic { .. } => None,
        TermNode::Param(_, _) => None,
        TermNode::Abs(_) => None,
    }
}
