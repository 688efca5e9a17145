// The connective at the top of a formula of a bank.
ghost use Rattle.std.specs.Prelude.{◌≡◌, ◌<◌, length, [], ◌∷◌, true, false};
ghost use Rattle.lp_calculus.specs.Term.{app};
ghost use Rattle.lp_term.specs.Nodes.{tree};
ghost use Rattle.lp_term.specs.Spine.{IsNoApplication};
ghost use Rattle.lp_standard.specs.Connectives.{connective_at, connective_of as connective_of_term};
ghost use Rattle.lp_model.specs.Connected.{connective_in, IsConnectiveIn};
ghost use Rattle.lp_model.specs.inner.Connected.{alone_by, negated_by, quantified_by, joined_by, spine_connective, IsSpineIn, IsApplication};

use lp_standard::Constant;
use lp_term::{Bank, TermId, TermNode, TypeId};

/// How a formula is built. A quantifier comes with its type and the term that it stands on, an abstraction or none.
#[derive(Clone, Copy, Debug, PartialEq, Eq)]
pub enum Connective {
    True,
    Cut,
    And(TermId, TermId),
    Or(TermId, TermId),
    /// Of `D => G` the clause and the goal, and of `G :- D` too.
    Implies(TermId, TermId),
    ForAll(TypeId, TermId),
    Exists(TypeId, TermId),
    Not(TermId),
    /// No connective.
    Atomic,
}

// A term as its head and up to two arguments.
#[derive(Clone, Copy)]
enum Spine {
    Alone(TermId),
    One(TermId, TermId),
    Two(TermId, TermId, TermId),
    More,
}

fn is_application(bank: &Bank, term: TermId) -> bool
    ensures other { result ≡ false → IsNoApplication (tree bank.now term.0) }
    ensures application { result ≡ true → IsApplication (tree bank.now term.0) }
{
    match bank.term_node(term) {
        TermNode::App(_, _) => true,
        _ => false,
    }
}

// The spine of a term whose last argument is taken off.
fn before_last(bank: &Bank, term: TermId, last: TermId) -> Spine
    requires last { last.0 < length bank.now.terms }
    ensures within { IsSpineIn bank.now result }
    ensures tree { connective_of_term (app (tree bank.now term.0) (tree bank.now last.0)) ≡ spine_connective bank.now result }
{
    match bank.term_node(term) {
        TermNode::App(head, args) => {
            if args.len() != 1 {
                return Spine::More;
            }
            if is_application(bank, head) {
                return Spine::More;
            }
            Spine::Two(head, args[0], last)
        }
        _ => Spine::One(term, last),
    }
}

fn taken_apart(bank: &Bank, term: TermId) -> Spine
    ensures within { IsSpineIn bank.now result }
    ensures tree { connective_of_term (tree bank.now term.0) ≡ spine_connective bank.now result }
{
    match bank.term_node(term) {
        TermNode::App(head, args) => {
            if args.len() == 1 {
                return before_last(bank, head, args[0]);
            }
            if args.len() != 2 {
                return Spine::More;
            }
            if is_application(bank, head) {
                return Spine::More;
            }
            Spine::Two(head, args[0], args[1])
        }
        _ => Spine::Alone(term),
    }
}

// What a fixed constant makes of its arguments.

fn alone(constant: Constant) -> Connective
    ensures { result ≡ alone_by constant }
{
    match constant {
        Constant::True => Connective::True,
        Constant::Cut => Connective::Cut,
        _ => Connective::Atomic,
    }
}

fn negated(constant: Constant, on: TermId) -> Connective
    ensures { result ≡ negated_by constant on }
{
    match constant {
        Constant::Not => Connective::Not(on),
        _ => Connective::Atomic,
    }
}

fn quantified(constant: Constant, bound: TypeId, on: TermId) -> Connective
    ensures { result ≡ quantified_by constant bound on }
{
    match constant {
        Constant::ForAll => Connective::ForAll(bound, on),
        Constant::Exists => Connective::Exists(bound, on),
        _ => Connective::Atomic,
    }
}

fn joined(constant: Constant, left: TermId, right: TermId) -> Connective
    ensures { result ≡ joined_by constant left right }
{
    match constant {
        Constant::And => Connective::And(left, right),
        Constant::Or => Connective::Or(left, right),
        Constant::Implies => Connective::Implies(left, right),
        Constant::If => Connective::Implies(right, left),
        _ => Connective::Atomic,
    }
}

fn of_alone(bank: &Bank, head: TermId) -> Connective
    ensures within { IsConnectiveIn bank.now result }
    ensures tree { connective_at (tree bank.now head.0) [] ≡ connective_in bank.now result }
{
    let TermNode::Const(number, _) = bank.term_node(head) else {
        return Connective::Atomic;
    };
    match Constant::from_number(number) {
        Some(constant) => alone(constant),
        None => Connective::Atomic,
    }
}

fn of_one(bank: &Bank, head: TermId, on: TermId) -> Connective
    requires on { on.0 < length bank.now.terms }
    ensures within { IsConnectiveIn bank.now result }
    ensures tree { connective_at (tree bank.now head.0) (tree bank.now on.0 ∷ []) ≡ connective_in bank.now result }
{
    let TermNode::Const(number, types) = bank.term_node(head) else {
        return Connective::Atomic;
    };
    let Some(constant) = Constant::from_number(number) else {
        return Connective::Atomic;
    };
    match types {
        [] => negated(constant, on),
        [bound] => quantified(constant, *bound, on),
        _ => Connective::Atomic,
    }
}

fn of_two(bank: &Bank, head: TermId, left: TermId, right: TermId) -> Connective
    requires left { left.0 < length bank.now.terms }
    requires right { right.0 < length bank.now.terms }
    ensures within { IsConnectiveIn bank.now result }
    ensures tree { connective_at (tree bank.now head.0) (tree bank.now left.0 ∷ tree bank.now right.0 ∷ []) ≡ connective_in bank.now result }
{
    let TermNode::Const(number, types) = bank.term_node(head) else {
        return Connective::Atomic;
    };
    if !types.is_empty() {
        return Connective::Atomic;
    }
    match Constant::from_number(number) {
        Some(constant) => joined(constant, left, right),
        None => Connective::Atomic,
    }
}

/// The connective at the top of a formula.
pub fn connective_of(bank: &Bank, formula: TermId) -> Connective
    ensures within { IsConnectiveIn bank.now result }
    ensures tree { connective_of_term (tree bank.now formula.0) ≡ connective_in bank.now result }
{
    match taken_apart(bank, formula) {
        Spine::Alone(head) => of_alone(bank, head),
        Spine::One(head, on) => of_one(bank, head, on),
        Spine::Two(head, left, right) => of_two(bank, head, left, right),
        Spine::More => Connective::Atomic,
    }
}
