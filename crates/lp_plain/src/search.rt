// A search, between its events.

use crate::machine::Machine;
use crate::start::Source;
use lp_model::{Declared, Ending};
use lp_term::TermId;

/// A search of a query, between its events.
#[derive(Drop)]
pub struct Search {
    pub(crate) machine: Machine,
    // The constants that the program declares, by which a note names a goal.
    pub(crate) constants: Vec<Declared>,
    pub(crate) source: Source,
    // The query's variables, in order.
    pub(crate) variables: Vec<TermId>,
    // How many answers are wanted, and how many were given.
    pub(crate) answers: u64,
    pub(crate) given: u64,
    pub(crate) ended: Option<Ending>,
    // Memory ran out.
    pub(crate) failed: bool,
}
