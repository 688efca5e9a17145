// Goals that are to be proved, and assumed clauses: lists whose cells are named by numbers and shared by branches.

use crate::instance::Values;
use crate::table::Span;
use lp_term::TermId;

/// Where a goal stands: the values of its variables, the tree of its newest assumptions, what is written in those that it has, its
/// level, and how many of the oldest alternatives a cut in it keeps.
#[derive(Clone, Copy)]
pub(crate) struct Place {
    pub(crate) values: Values,
    pub(crate) assumed: Option<usize>,
    pub(crate) standing: Option<usize>,
    pub(crate) level: u64,
    pub(crate) mark: usize,
}

/// Flattened goals by their numbers, or a goal that is known at run time.
#[derive(Clone, Copy)]
pub(crate) enum Todo {
    Goals(Span),
    Term(TermId),
}

/// Goals that are to be proved in a place, and the frame behind them.
#[derive(Clone, Copy)]
pub(crate) struct Frame {
    pub(crate) todo: Todo,
    pub(crate) place: Place,
    pub(crate) behind: Option<usize>,
}

/// An assumed clause by its number, with the values of the variables around it, and the assumption of the same head
/// before it. A clause whose head is neither a constant nor an eigenconstant meets no goal and is not among them.
#[derive(Clone, Copy)]
pub(crate) struct Assumption {
    pub(crate) rule: usize,
    pub(crate) values: Values,
    pub(crate) older: Option<usize>,
}
