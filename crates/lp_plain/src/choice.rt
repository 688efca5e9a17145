// What is left to try: the alternatives of a search.

use crate::candidates::Candidate;
use crate::frame::Place;
use crate::head::{Head, Key};
use crate::scope::ScopeMark;
use lp_model::Pair;
use lp_pattern::Mark;
use lp_term::TermId;

/// The lengths of the lists that only grow on the way forward.
#[derive(Clone, Copy)]
pub(crate) struct Lengths {
    pub(crate) frames: usize,
    pub(crate) assumptions: usize,
    pub(crate) newest: usize,
    pub(crate) standings: usize,
    pub(crate) acts: usize,
    pub(crate) scopes: ScopeMark,
}

/// An atomic goal in head-normal form, for which clauses are tried.
#[derive(Clone, Copy)]
pub(crate) struct Call {
    pub(crate) goal: TermId,
    pub(crate) head: Head,
    /// The goal's first argument as it was looked at, and the key of its head.
    pub(crate) first: Option<TermId>,
    pub(crate) key: Option<Key>,
    pub(crate) place: Place,
    /// The goals behind it.
    pub(crate) behind: Option<usize>,
}

/// What the search of a negated goal returns to: the goals behind it, the number of the alternative of the negated goal around it, and
/// whether a cut had removed an alternative of the search around it.
#[derive(Clone, Copy)]
pub(crate) struct Denial {
    pub(crate) behind: Option<usize>,
    pub(crate) around: Option<usize>,
    pub(crate) lost: bool,
}

#[derive(Clone, Copy)]
pub(crate) enum Untried {
    /// The right side of a `;`, with the goals behind it.
    Goals(Option<usize>),
    /// The candidates from one on.
    Clauses(Call, Candidate),
    /// None is left in the search of a negated goal.
    Denied(Denial),
}

/// An alternative, and the branch in which it stands.
#[derive(Drop)]
pub(crate) struct Choice {
    pub(crate) bindings: Mark,
    pub(crate) lengths: Lengths,
    pub(crate) next: u64,
    pub(crate) next_type: u64,
    pub(crate) pairs: Vec<Pair>,
    pub(crate) untried: Untried,
}
