// The machine as its callers see it.

use crate::search::Search;
use lp_choice::Choices;
use lp_model::Ending;
use lp_store::{CellId, Store};

/// A search of a query over the clauses of an image, between its events.
#[derive(Drop)]
pub struct Machine<'i> {
    pub(crate) state: Search<'i>,
    // The cells of the query's variables, in order.
    pub(crate) variables: Vec<CellId>,
    // How many answers are wanted, and how many were given.
    pub(crate) answers: u64,
    pub(crate) given: u64,
    pub(crate) ended: Option<Ending>,
    // Memory ran out.
    pub(crate) failed: bool,
}

impl<'i> Machine<'i> {
    /// The steps taken.
    pub fn steps(&self) -> u64 {
        self.state.counts.steps
    }

    /// The machine's own store.
    pub fn store(&self) -> &Store {
        self.state.heap.store()
    }

    /// The machine's choice points.
    pub fn choices(&self) -> &Choices {
        self.state.heap.choices()
    }

    /// A cell of the store for each variable of the query, in order.
    pub fn variables(&self) -> &[CellId] {
        self.variables.as_slice()
    }
}
