// Types as they are read: those of clauses, and declared ones with types for their type variables.
ghost use Rattle.std.specs.Prelude.{◌≡◌, Some};
ghost use Rattle.lp_calculus.specs.Typing.{type_at};
ghost use Rattle.lp_term.specs.Nodes.{tree, type_tree};
ghost use Rattle.lp_gen.specs.Steps.{from_of, to_of};
ghost use Rattle.lp_gen.specs.inner.Reading.{read, read_at, read_top, read_argument, types_of};

use lp_term::{Bank, TermId, TermNode, TypeId, TypeNode};

/// A type.
#[derive(Clone, Copy)]
pub(crate) enum TypeView {
    /// `o`, which also stands for each other type of no functions where it is known that no abstraction has it.
    Proposition,
    /// From this type to `o`.
    Predicate(TypeId),
    /// A type of the bank. Its type variables are those of the clause, or stand for the types of this constant's node.
    Of(TypeId, Option<TermId>),
}

/// The top of a type.
#[derive(Clone, Copy)]
pub(crate) enum Top<'a> {
    /// A type variable of the clause.
    Variable(u64),
    Parameter(u64),
    /// A kind on types, which are read as the type itself is.
    Constructor(u32, &'a [TypeId], Option<TermId>),
    Arrow(TypeView, TypeView),
}

// A type of a constant's node, for its type variable of this number.
fn type_argument(bank: &Bank, constant: TermId, number: u64) -> Option<TypeId>
    ensures { read_argument bank.now result ≡ type_at (types_of (tree bank.now constant.0)) number }
{
    let TermNode::Const(_, types) = bank.term_node(constant) else {
        return None;
    };
    if number >= types.len() as u64 {
        return None;
    }
    Some(types[number as usize])
}

// The top of a type of the clause.
fn plain_top(bank: &Bank, id: TypeId) -> Top<'_>
    ensures { read_top bank.now result ≡ type_tree bank.now id.0 }
{
    match bank.type_node(id) {
        TypeNode::Var(number) => Top::Variable(number),
        TypeNode::Param(number) => Top::Parameter(number),
        TypeNode::Con(kind, parts) => Top::Constructor(kind, parts, None),
        TypeNode::Arrow(from, to) => Top::Arrow(TypeView::Of(from, None), TypeView::Of(to, None)),
    }
}

// The top of a declared type, with the types of a constant's node for its type variables.
fn instance_top(bank: &Bank, id: TypeId, constant: TermId) -> Top<'_>
    ensures { read_top bank.now result ≡ read_at bank.now (Some constant) (type_tree bank.now id.0) }
{
    let at = Some(constant);
    match bank.type_node(id) {
        TypeNode::Var(number) => match type_argument(bank, constant, number) {
            Some(of) => plain_top(bank, of),
            None => Top::Constructor(0, &[], None),
        },
        TypeNode::Param(number) => Top::Parameter(number),
        TypeNode::Con(kind, parts) => Top::Constructor(kind, parts, at),
        TypeNode::Arrow(from, to) => Top::Arrow(TypeView::Of(from, at), TypeView::Of(to, at)),
    }
}

impl TypeView {
    /// The top of the type.
    pub(crate) fn top(self, bank: &Bank) -> Top<'_>
        ensures { read_top bank.now result ≡ read bank.now self }
    {
        match self {
            TypeView::Proposition => Top::Constructor(0, &[], None),
            TypeView::Predicate(from) => Top::Arrow(
                TypeView::Of(from, None),
                TypeView::Proposition,
            ),
            TypeView::Of(id, None) => plain_top(bank, id),
            TypeView::Of(id, Some(constant)) => instance_top(bank, id, constant),
        }
    }

    /// The two sides of a function's type.
    pub(crate) fn sides(self, bank: &Bank) -> (TypeView, TypeView)
        ensures from { read bank.now result.0 ≡ from_of (read bank.now self) }
        ensures to { read bank.now result.1 ≡ to_of (read bank.now self) }
    {
        match self.top(bank) {
            Top::Arrow(from, to) => (from, to),
            _ => (TypeView::Proposition, TypeView::Proposition),
        }
    }
}
