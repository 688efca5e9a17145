// The search of a query.
ghost use Rattle.std.specs.Prelude.{◌≡◌, ◌<◌, length, All, IfOk};
ghost use Rattle.lp_term.specs.Nodes.{Nodes};
ghost use Rattle.lp_model.specs.Whole.{CanBeShown};
ghost use Rattle.lp_machine.specs.Held.{variables_of};

use lp_answers::Searching;
use lp_base::Memory;
use lp_machine::Machine;
use lp_model::{Answer, Event};
use lp_term::TermId;
use lp_watch::{Crowd, Watch};
use std::alloc::Global;

/// A search of which some of the query's variables are shown, by their places.
#[derive(Drop)]
pub(crate) struct Running<'i> {
    pub alloc: Global,
    pub machine: Machine<'i>,
    pub places: Vec<usize>,
    ghost within: { All (λ p. p < variables_of machine) places.items },
}

// The values at these places.
fn values_at(alloc: Global, values: &[TermId], places: &[usize]) -> Result<Vec<TermId>, Memory>
    requires { All (λ p. p < length values.now) places.now }
    ensures count { IfOk result (λ chosen. length chosen.items ≡ length places.now) }
    ensures shown { (b : Nodes) → All (CanBeShown b) values.now → IfOk result (λ chosen. All (CanBeShown b) chosen.items) }
{
    let mut chosen = Vec::new(alloc);
    for at in 0..places.len() {
        chosen.push(values[places[at]])?;
    }
    Ok(chosen)
}

impl<'i, W: Watch> Searching<W> for Running<'i> {
    ghost use Rattle.std.specs.Prelude.{length};

    ghost variables = { λ r. length r.places.items };

    fn next(&mut self, crowd: &mut Crowd<'_, W>) -> Result<Event, Memory> {
        match self.machine.next(crowd)? {
            Event::Ended(why) => Ok(Event::Ended(why)),
            Event::Answer(answer) => {
                let Answer {
                    bank,
                    values,
                    pairs,
                } = answer;
                let values = values_at(self.alloc, values.as_slice(), self.places.as_slice())?;
                Ok(Event::Answer(Answer {
                    bank,
                    values,
                    pairs,
                }))
            }
        }
    }
}
