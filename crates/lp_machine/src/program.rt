// The records of an image and of a query, by one number.

use lp_code::{Image, Record};

/// The records of an image, and behind them those of a query.
#[derive(Clone, Copy)]
pub(crate) struct Program<'i> {
    pub(crate) image: &'i Image,
    pub(crate) clauses: &'i [Record],
    pub(crate) query: &'i [Record],
}

impl<'i> Program<'i> {
    /// How many records the image has.
    pub(crate) fn clause_count(self) -> u32 {
        u32::try_from(self.clauses.len()).unwrap_or(u32::MAX)
    }

    /// The record of a number.
    pub(crate) fn record(self, number: u32) -> Option<&'i Record> {
        let at = number as usize;
        match self.clauses.get(at) {
            Some(record) => Some(record),
            None => self.query.get(at.saturating_sub(self.clauses.len())),
        }
    }

    /// The number of a record that the code of another one names.
    pub(crate) fn number_in(self, named: u32, within: u32) -> u32 {
        let count = self.clause_count();
        if within < count {
            named
        } else {
            named.saturating_add(count)
        }
    }
}
