// Answers and the events of a search.

use crate::ending::Ending;
use lp_term::{Bank, TermId};

/// Two terms to be made one, with the level up to which their eigenconstants go.
#[derive(Clone, Copy, Debug, PartialEq, Eq)]
pub struct Pair {
    pub left: TermId,
    pub right: TermId,
    pub level: u64,
}

/// A value for each variable of the query, and the residual pairs. The numbers stand in the answer's own bank.
#[derive(Drop)]
pub struct Answer {
    pub bank: Bank,
    pub values: Vec<TermId>,
    pub pairs: Vec<Pair>,
}

/// What a search tells next.
#[derive(Drop)]
pub enum Event {
    Answer(Answer),
    Ended(Ending),
}
