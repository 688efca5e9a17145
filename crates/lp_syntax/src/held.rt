use crate::symbol::{Fault, Oper};
use lp_fixity::Fixity;

/// What waits on the stack.
#[derive(Drop)]
pub enum Held {
    Waits(Oper, Option<usize>),
    /// The binder, its annotation, the function before it.
    Under(usize, Option<usize>, Option<usize>),
    Inside(Option<usize>),
    /// The spot of the [ or comma before this item, the function before, the items before, oldest first.
    Item(usize, Option<usize>, Vec<(usize, usize)>),
    Tail(Option<usize>, Vec<(usize, usize)>),
}

/// What is due.
#[derive(Clone, Copy)]
pub enum Doing {
    Wants,
    Fresh,
    FreshList,
    Named(Oper),
    Has(Option<usize>, usize, Option<usize>),
    Formed(Fixity, u8, usize),
}

#[derive(Clone, Copy)]
pub enum Step {
    Goes(Doing),
    Stops(Fault),
}
