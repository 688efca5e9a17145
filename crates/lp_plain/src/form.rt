// What an atomic goal is by its head-normal form.
ghost use Rattle.std.specs.Prelude.{◌≡◌, length, IfOk};
ghost use Rattle.lp_term.specs.Nodes.{tree};
ghost use Rattle.lp_plain.specs.Calling.{IsFirstIn};
ghost use Rattle.lp_plain.specs.Forms.{relation_by, by_two, by_constant, IsForm, StandsForm};

use crate::head::Head;
use lp_base::{Compare, Memory};
use lp_standard::Constant;
use lp_term::{Bank, Spine, TermId, TermNode, spine_of};
use std::alloc::Global;

/// An atomic goal by its head-normal form.
#[derive(Clone, Copy)]
pub(crate) enum Form {
    Equal(TermId, TermId),
    Is(TermId, TermId),
    Order(Compare, TermId, TermId),
    /// An atom that clauses may meet, with its first argument.
    Call(Head, Option<TermId>),
    /// A logic variable as head.
    Flexible,
    /// What no well-typed goal is.
    Other,
}

// What a constant makes of two terms, where no clauses define it.
fn relation(constant: Constant, left: TermId, right: TermId) -> Option<Form>
    ensures { result ≡ relation_by constant left right }
{
    match constant {
        Constant::Equal => Some(Form::Equal(left, right)),
        Constant::Is => Some(Form::Is(left, right)),
        Constant::Less => Some(Form::Order(Compare::Less, left, right)),
        Constant::Greater => Some(Form::Order(Compare::Greater, left, right)),
        Constant::AtMost => Some(Form::Order(Compare::AtMost, left, right)),
        Constant::AtLeast => Some(Form::Order(Compare::AtLeast, left, right)),
        _ => None,
    }
}

fn of_two(number: u32, left: TermId, right: TermId) -> Form
    ensures { result ≡ by_two number left right }
{
    let call = Form::Call(Head::Constant(number), Some(left));
    match Constant::from_number(number) {
        Some(constant) => relation(constant, left, right).unwrap_or(call),
        None => call,
    }
}

fn of_constant(number: u32, args: &[TermId]) -> Form
    ensures { result ≡ by_constant number args.now }
{
    match args {
        [left, right] => of_two(number, *left, *right),
        [] => Form::Call(Head::Constant(number), None),
        [first, ..] => Form::Call(Head::Constant(number), Some(*first)),
    }
}

/// What a head-normal atomic goal is.
pub(crate) fn form_of(alloc: Global, bank: &Bank, goal: TermId) -> Result<Form, Memory>
    ensures form { IfOk result (IsForm bank.now (tree bank.now goal.0)) }
    ensures within { IfOk result (IsFirstIn (length bank.now.terms)) }
    ensures stands { IfOk result (StandsForm (length bank.now.terms)) }
{
    let Spine { head, args } = spine_of(alloc, bank, goal)?;
    match bank.term_node(head) {
        TermNode::Const(number, _) => Ok(of_constant(number, args.as_slice())),
        TermNode::Eigen(level) => Ok(Form::Call(Head::Eigen(level), args.first().copied())),
        TermNode::Logic { .. } => Ok(Form::Flexible),
        _ => Ok(Form::Other),
    }
}
