// What is known of an image and a query before the query runs.
ghost use Rattle.lp_code.specs.Length.{AllFit};

use crate::demand::Demand;
use crate::plan::{Plan, Predicate};
use crate::rows::{Rows, Step};
use crate::standings::{Standings, has_negation};
use lp_base::Memory;
use lp_code::{Code, Image, Standing};
use std::alloc::Global;

#[derive(Drop)]
pub(crate) struct Layout<'i> {
    plan: &'i Plan,
    // How many records the image has: those of the query have the numbers behind them.
    count: u32,
    rows: Rows,
    standings: Standings,
    // What the image's assumed clauses speak of, where a goal of the query is negated and none of the image is.
    late: Standings,
}

impl<'i> Layout<'i> {
    /// Where the block of the instruction before a place goes on.
    pub(crate) fn target(&self, record: u32, place: usize) -> usize {
        match record.checked_sub(self.count) {
            None => self.plan.rows.target(record, place),
            Some(own) => self.rows.target(own, place),
        }
    }

    /// What is done at the instruction at a place, if there is one.
    pub(crate) fn step(&self, record: u32, place: usize) -> Option<Step> {
        match record.checked_sub(self.count) {
            None => self.plan.rows.step(record, place),
            Some(own) => self.rows.step(own, place),
        }
    }

    /// What the head of a record asks of the goal's first argument.
    pub(crate) fn demand(&self, record: u32) -> Demand {
        match record.checked_sub(self.count) {
            None => self.plan.rows.demand(record),
            Some(own) => self.rows.demand(own),
        }
    }

    pub(crate) fn predicate(&self, constant: u32) -> Option<Predicate> {
        self.plan.predicate(constant)
    }

    /// The next program record of the same constant.
    pub(crate) fn next(&self, record: u32) -> Option<u32> {
        self.plan.next(record)
    }

    /// The name of a hidden constant by its place among the declared ones; empty for a global one.
    pub(crate) fn hidden_name(&self, place: usize) -> &[u8] {
        self.plan.hidden_name(place)
    }

    // What is said of the image's records.
    fn of_image(&self) -> &Standings {
        match &self.plan.standings {
            Some(standings) => standings,
            None => &self.late,
        }
    }

    /// What an assumed record speaks of.
    pub(crate) fn assumed(&self, record: u32) -> Option<&Standing> {
        match record.checked_sub(self.count) {
            None => self.of_image().assumed(record),
            Some(own) => self.standings.assumed(own),
        }
    }

    /// What the negated block speaks of whose first instruction stands at a place.
    pub(crate) fn block(&self, record: u32, place: usize) -> Option<&Standing> {
        match record.checked_sub(self.count) {
            None => self.of_image().block(record, place),
            Some(own) => self.standings.block(own, place),
        }
    }
}

// What the records of code speak of, where that is asked for.
fn standings_if(alloc: Global, wanted: bool, code: &Code) -> Result<Standings, Memory>
    requires { AllFit code.now.records.items }
{
    if !wanted {
        return Ok(Standings::none(alloc));
    }
    Standings::of(alloc, code)
}

/// What is known of an image and a query before it runs.
pub(crate) fn layout_of<'i>(
    alloc: Global,
    plan: &'i Plan,
    image: &Image,
    count: u32,
    query: &Code,
) -> Result<Layout<'i>, Memory>
    requires image { AllFit image.now.code.records.items }
    requires query { AllFit query.now.records.items }
{
    let within = plan.standings.is_some();
    let negates = has_negation(query.records.as_slice());
    Ok(Layout {
        plan,
        count,
        rows: Rows::of(alloc, query.records.as_slice())?,
        standings: standings_if(alloc, within || negates, query)?,
        late: standings_if(alloc, negates && !within, &image.code)?,
    })
}
