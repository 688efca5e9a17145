// The machine, from one event to the next.
ghost use Rattle.std.specs.Prelude.{◌≡◌, true, false, Ok, None, Some, IfOk, OnOk, OnErr, IsErr};
ghost use Rattle.lp_code.specs.Length.{AllFit};
ghost use Rattle.lp_model.specs.declared.ending.Ending.{Ending};
ghost use Rattle.lp_model.specs.declared.answer.Event.TheVariants as told;
ghost use Rattle.lp_model.specs.Whole.{IsTold, Keeps};
ghost use Rattle.lp_machine.specs.Held.{variables_of, ended, failed};

use crate::answer::answer_of;
use crate::machine::Machine;
use crate::outcome::Turn;
use crate::plan::Plan;
use crate::search::Search;
use crate::start::begin;
use lp_base::Memory;
use lp_code::Code;
use lp_model::{Ending, Event};
use lp_verify::Verified;
use lp_watch::{Crowd, Note, Watch};
use std::alloc::Global;

#[derive(Clone, Copy)]
enum Told {
    Answered,
    Ended(Ending),
}

// Goes on until something is to be told.
fn run<W: Watch>(
    state: &mut Search<'_>,
    crowd: &mut Crowd<'_, W>,
    first: Turn,
) -> Result<Told, Memory> {
    let mut turn = first;
    for _ in 0..u64::MAX {
        turn = match turn {
            Turn::On => state.advance(crowd)?,
            Turn::Back => state.go_back(crowd)?,
            Turn::Answered => return Ok(Told::Answered),
            Turn::Ended(ending) => return Ok(Told::Ended(ending)),
        };
        if let Turn::Back = turn {
            state.tell_back(crowd)?;
        }
    }
    Err(Memory)
}

impl<'i> Machine<'i> {
    #[tactic(auto, unfolding(crate::specs::Held::variables_of, crate::specs::Held::ended, crate::specs::Held::failed))]
    /// The search of a query over an image, of which this is known, with these limits of steps and of answers. The query's first record makes its variables, in as many registers from 0.
    pub fn start(
        alloc: Global,
        image: &'i Verified,
        plan: &'i Plan,
        query: &'i Code,
        variables: u32,
        steps: u64,
        answers: u64,
    ) -> Result<Machine<'i>, Memory>
        requires image { AllFit image.now.image.code.records.items }
        requires query { AllFit query.now.records.items }
        ensures variables { IfOk result (λ m. variables_of m ≡ variables) }
    {
        let (state, made) = begin(alloc, image, plan, query, variables, steps)?;
        Ok(Machine {
            state,
            variables: made,
            answers,
            given: 0,
            ended: None,
            failed: false,
        })
    }

    #[tactic(auto, unfolding(crate::specs::Held::variables_of, crate::specs::Held::ended, crate::specs::Held::failed))]
    fn end(&mut self, ending: Ending) -> Event
        ensures variables { variables_of self.new ≡ variables_of self.old }
        ensures told { IsTold (variables_of self.old) result }
        ensures ended { Keeps result (ended self.new) }
        ensures failed { failed self.new ≡ failed self.old }
    {
        self.ended = Some(ending);
        Event::Ended(ending)
    }

    // Tells of an answer. That the search goes back from it is told by the next event's search.
    #[tactic(auto, unfolding(crate::specs::Held::variables_of, crate::specs::Held::ended, crate::specs::Held::failed))]
    fn tell_answer<W: Watch>(&mut self, crowd: &mut Crowd<'_, W>) -> Result<(), Memory>
        ensures variables { variables_of self.new ≡ variables_of self.old }
        ensures ended { ended self.new ≡ ended self.old }
        ensures failed { failed self.new ≡ failed self.old }
    {
        self.given = self.given.saturating_add(1);
        self.state.counts.row = 0;
        crowd.tell(Note::Answer(self.given))
    }

    // Goes on to the next event from this turn on.
    #[tactic(auto, unfolding(crate::specs::Held::variables_of, crate::specs::Held::ended, crate::specs::Held::failed))]
    fn go_on<W: Watch>(&mut self, crowd: &mut Crowd<'_, W>, first: Turn) -> Result<Event, Memory>
        ensures variables { variables_of self.new ≡ variables_of self.old }
        ensures told { IfOk result (IsTold (variables_of self.old)) }
        ensures ended { ended self.old ≡ None → IfOk result (λ event. Keeps event (ended self.new)) }
        ensures failed { failed self.new ≡ failed self.old }
    {
        match run(&mut self.state, crowd, first)? {
            Told::Ended(ending) => Ok(self.end(ending)),
            Told::Answered => {
                self.tell_answer(crowd)?;
                match answer_of(&mut self.state, &self.variables)? {
                    Ok(answer) => Ok(Event::Answer(answer)),
                    Err(ending) => Ok(self.end(ending)),
                }
            }
        }
    }

    // The next event, where more answers are wanted: from the beginning on, or behind an answer from the newest alternative on.
    #[tactic(auto, unfolding(crate::specs::Held::variables_of, crate::specs::Held::ended, crate::specs::Held::failed))]
    fn advance<W: Watch>(&mut self, crowd: &mut Crowd<'_, W>) -> Result<Event, Memory>
        ensures variables { variables_of self.new ≡ variables_of self.old }
        ensures told { IfOk result (IsTold (variables_of self.old)) }
        ensures ended { ended self.old ≡ None → IfOk result (λ event. Keeps event (ended self.new)) }
        ensures failed { failed self.new ≡ failed self.old }
    {
        if self.given >= self.answers {
            return Ok(self.end(Ending::Enough));
        }
        if self.given == 0 {
            return self.go_on(crowd, Turn::On);
        }
        self.state.tell_back(crowd)?;
        self.go_on(crowd, Turn::Back)
    }

    #[tactic(auto, unfolding(crate::specs::Held::variables_of, crate::specs::Held::ended, crate::specs::Held::failed))]
    /// The next answer, or how the search ended. After an end the same end, after `Memory` always `Memory`.
    pub fn next<W: Watch>(&mut self, crowd: &mut Crowd<'_, W>) -> Result<Event, Memory>
        ensures variables { variables_of self.new ≡ variables_of self.old }
        ensures told { IfOk result (IsTold (variables_of self.old)) }
        ensures fails { OnErr result (failed self.new ≡ true) }
        ensures failed { failed self.old ≡ true → IsErr result }
        ensures going { OnOk result (failed self.new ≡ false) }
        ensures ended { IfOk result (λ event. Keeps event (ended self.new)) }
        ensures stays { failed self.old ≡ false → (e : Ending) → ended self.old ≡ Some e → result ≡ Ok (told.Ended e) }
    {
        if self.failed {
            return Err(Memory);
        }
        if let Some(ending) = self.ended {
            return Ok(Event::Ended(ending));
        }
        self.failed = true;
        let event = self.advance(crowd)?;
        self.failed = false;
        Ok(event)
    }
}
