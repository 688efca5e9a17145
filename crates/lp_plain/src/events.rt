// A search, from one event to the next.
ghost use Rattle.std.specs.Prelude.{◌≡◌, ◌+◌, ◌-◌, ◌^◌, ◌<◌, ◌≤◌, ◌∷◌, [], suc, ℕ, List, map, true, false, length, Ok, None, Some, IfOk, OnOk, OnErr, IsErr};
ghost use Rattle.lp_watch.specs.Crowd.{places};
ghost use Rattle.lp_model.specs.Branch.{Answer, Task};
ghost use Rattle.lp_model.specs.Events.{Advances, Event as Happens};
ghost use Rattle.lp_model.specs.Flat.{Clause, Goals};
ghost use Rattle.lp_model.specs.Proofs.{Declared as Types};
ghost use Rattle.lp_model.specs.declared.program.Declared.{Declared as Named};
ghost use Rattle.lp_plain.specs.Hearing.{Hears, HeardBy, HearsPart, back_behind};
ghost use Rattle.lp_model.specs.Search.{look, start as first_state};
ghost use Rattle.lp_model.specs.Skeleton.{AnswerNote, State};
ghost use Rattle.lp_model.specs.Unify.{unit_limit};
ghost use Rattle.lp_model.specs.declared.ending.Ending.{Ending};
ghost use Rattle.lp_model.specs.declared.answer.Event.TheVariants as told;
ghost use Rattle.lp_model.specs.Whole.{IsTold, Keeps};
ghost use Rattle.lp_plain.specs.Held.{variables_of, query_of, ended, failed, constants_of, steps_of};
ghost use Rattle.lp_plain.specs.Begun.{Begins};
ghost use Rattle.lp_plain.specs.Between.{AreEnough, IsBetween};
ghost use Rattle.lp_plain.specs.Moving.{Tally};
ghost use Rattle.lp_plain.specs.Stepping.{notes_told, steps_until};
ghost use Rattle.lp_plain.specs.Telling.{IsEventOf};
ghost use Rattle.lp_plain.specs.inner.Between.{IsNoted, IsToTell};
ghost use Rattle.lp_plain.specs.inner.Following.{Course, Passes, Stands, tally_told, turn_told};
ghost use Rattle.lp_plain.specs.inner.Remaining.{left_behind};

use crate::answer::answer_of;
use crate::machine::Machine;
use crate::outcome::Turn;
use crate::search::Search;
use crate::start::{Started, begin};
use crate::turn::{go_back, take_goal, tell_back};
use lp_base::Memory;
use lp_model::{Declared, Ending, Event, Program, Typed};
use lp_watch::{Crowd, Note, Watch};
use std::alloc::Global;

#[derive(Clone, Copy)]
enum Told {
    Answered,
    Ended(Ending),
}

// Tells that the search goes back, where it does.
fn tell_turn<W: Watch>(
    machine: &Machine,
    crowd: &mut Crowd<'_, W>,
    turn: Turn,
) -> Result<(), Memory>
    ensures told { OnOk result ((cs : List Named) → Hears cs (back_behind turn machine.now) (places crowd.old.texts.items (map W.seen crowd.old.watchers.now.items)) (places crowd.new.texts.items (map W.seen crowd.new.watchers.now.items))) }
    ensures part { (cs : List Named) → HearsPart cs (back_behind turn machine.now) (places crowd.old.texts.items (map W.seen crowd.old.watchers.now.items)) (places crowd.new.texts.items (map W.seen crowd.new.watchers.now.items)) }
    ensures same { crowd.new.watchers.ghost_name ≡ crowd.old.watchers.ghost_name }
{
    match turn {
        Turn::Back => tell_back(machine, crowd),
        _ => Ok(()),
    }
}

// One turn: the first goal of the branch at work, or the newest alternative.
fn take_turn<W: Watch>(
    machine: &mut Machine,
    crowd: &mut Crowd<'_, W>,
    constants: &[Declared],
    turn: Turn,
) -> Result<Turn, Memory>
    ensures stands { IfOk result (λ next. (c : Course) (x : Tally) → Stands c x turn machine.old → Passes c constants.now x machine.old machine.new (places crowd.old.texts.items (map W.seen crowd.old.watchers.now.items)) (places crowd.new.texts.items (map W.seen crowd.new.watchers.now.items)) next) }
    ensures begins { (c : Course) (x : Tally) → Stands c x turn machine.old → HearsPart constants.now x.notes (places crowd.old.texts.items (map W.seen crowd.old.watchers.now.items)) (places crowd.new.texts.items (map W.seen crowd.new.watchers.now.items)) }
    ensures within { OnOk result ((c : Course) (x : Tally) → Stands c x turn machine.old → machine.new.counts.steps ≤ machine.old.counts.steps + x.steps) }
    ensures same { crowd.new.watchers.ghost_name ≡ crowd.old.watchers.ghost_name }
    ensures less { IfOk result (λ next. 0 < left_behind turn machine.old → left_behind next machine.new < left_behind turn machine.old) }
{
    match turn {
        Turn::On => {
            let next = take_goal(machine, crowd, constants)?;
            tell_turn(machine, crowd, next)?;
            Ok(next)
        }
        Turn::Back => {
            let next = go_back(machine)?;
            tell_turn(machine, crowd, next)?;
            Ok(next)
        }
        Turn::Answered => Ok(Turn::Answered),
        Turn::Ended(ending) => Ok(Turn::Ended(ending)),
    }
}

// Goes on until something is to be told.
fn run<W: Watch>(
    machine: &mut Machine,
    crowd: &mut Crowd<'_, W>,
    constants: &[Declared],
    first: Turn,
) -> Result<Told, Memory>
    ensures stands { IfOk result (λ told. (c : Course) (x : Tally) → Stands c x first machine.old → Passes c constants.now x machine.old machine.new (places crowd.old.texts.items (map W.seen crowd.old.watchers.now.items)) (places crowd.new.texts.items (map W.seen crowd.new.watchers.now.items)) (turn_told told)) }
    ensures begins { (c : Course) (x : Tally) → Stands c x first machine.old → HearsPart constants.now x.notes (places crowd.old.texts.items (map W.seen crowd.old.watchers.now.items)) (places crowd.new.texts.items (map W.seen crowd.new.watchers.now.items)) }
    ensures within { OnOk result ((c : Course) (x : Tally) → Stands c x first machine.old → machine.new.counts.steps ≤ machine.old.counts.steps + x.steps) }
    ensures same { crowd.new.watchers.ghost_name ≡ crowd.old.watchers.ghost_name }
{
    let mut turn = first;
    'turns: loop {
        match turn {
            Turn::Answered => return Ok(Told::Answered),
            Turn::Ended(ending) => return Ok(Told::Ended(ending)),
            Turn::On => {
                turn = take_turn(machine, crowd, constants, Turn::On)?;
                continue;
            }
            Turn::Back => {
                turn = take_turn(machine, crowd, constants, Turn::Back)?;
                continue;
            }
        }
    }
}

impl Search {
    /// The search of a query over a program, with these limits of steps and of answers. Program and query are dropped on a refusal.
    #[tactic(auto, unfolding(crate::specs::Held::variables_of, crate::specs::Held::query_of, crate::specs::Held::constants_of, crate::specs::Held::steps_of, crate::specs::Held::ended))]
    pub fn start(
        alloc: Global,
        program: Program,
        query: Typed,
        steps: u64,
        answers: u64,
    ) -> Result<Search, Memory>
        ensures variables { IfOk result (λ s. variables_of s ≡ length query.vars.items) }
        ensures query { IfOk result (λ s. query_of s ≡ query) }
        ensures constants { IfOk result (λ s. constants_of s ≡ program.constants.items) }
        ensures steps { IfOk result (λ s. steps_of s ≡ 0) }
        ensures going { IfOk result (λ s. ended s ≡ None) }
        ensures begins { IfOk result (λ s. (d : Types) (P : List Clause) (gs : Goals) → Begins d program query P gs → (n : ℕ) → IsBetween P n s (first_state query.type_vars (length query.vars.items) gs steps answers)) }
    {
        let Started {
            machine,
            constants,
            source,
            variables,
        } = begin(alloc, program, query, steps)?;
        Ok(Search {
            machine,
            constants,
            source,
            variables,
            answers,
            given: 0,
            ended: None,
            failed: false,
        })
    }

    #[tactic(auto, unfolding(crate::specs::Held::variables_of, crate::specs::Held::query_of, crate::specs::Held::ended, crate::specs::Held::failed, crate::specs::Held::constants_of, crate::specs::Held::steps_of))]
    fn end(&mut self, ending: Ending) -> Event
        ensures variables { variables_of self.new ≡ variables_of self.old }
        ensures query { query_of self.new ≡ query_of self.old }
        ensures told { IsTold (variables_of self.old) result }
        ensures ended { Keeps result (ended self.new) }
        ensures failed { failed self.new ≡ failed self.old }
        ensures is { result ≡ told.Ended ending }
        ensures steps { steps_of self.new ≡ steps_of self.old }
        ensures constants { constants_of self.new ≡ constants_of self.old }
        ensures now { ended self.new ≡ Some ending }
    {
        self.ended = Some(ending);
        Event::Ended(ending)
    }

    // Tells of an answer.
    #[tactic(auto, unfolding(crate::specs::Held::variables_of, crate::specs::Held::query_of, crate::specs::Held::ended, crate::specs::Held::failed, crate::specs::Held::constants_of, crate::specs::Held::steps_of))]
    fn tell_answer<W: Watch>(&mut self, crowd: &mut Crowd<'_, W>) -> Result<(), Memory>
        ensures variables { variables_of self.new ≡ variables_of self.old }
        ensures query { query_of self.new ≡ query_of self.old }
        ensures ended { ended self.new ≡ ended self.old }
        ensures failed { failed self.new ≡ failed self.old }
        ensures rests { OnOk result (IsNoted self.old self.new) }
        ensures constants { constants_of self.new ≡ constants_of self.old }
        ensures heard { OnOk result ((cs : List Named) → self.old.given < self.old.answers → self.old.answers ≤ 2 ^ 64 - 1 → Hears cs (AnswerNote (suc self.old.given) ∷ []) (places crowd.old.texts.items (map W.seen crowd.old.watchers.now.items)) (places crowd.new.texts.items (map W.seen crowd.new.watchers.now.items))) }
        ensures part { (cs : List Named) → self.old.given < self.old.answers → self.old.answers ≤ 2 ^ 64 - 1 → HearsPart cs (AnswerNote (suc self.old.given) ∷ []) (places crowd.old.texts.items (map W.seen crowd.old.watchers.now.items)) (places crowd.new.texts.items (map W.seen crowd.new.watchers.now.items)) }
        ensures same { crowd.new.watchers.ghost_name ≡ crowd.old.watchers.ghost_name }
    {
        self.given = self.given.saturating_add(1);
        self.machine.counts.row = 0;
        crowd.tell(Note::Answer(self.given))
    }

    // Goes on to the next event, where answers are wanted.
    #[tactic(auto, unfolding(crate::specs::Held::variables_of, crate::specs::Held::query_of, crate::specs::Held::ended, crate::specs::Held::failed, crate::specs::Held::constants_of, crate::specs::Held::steps_of))]
    fn go_on<W: Watch>(&mut self, crowd: &mut Crowd<'_, W>, first: Turn) -> Result<Event, Memory>
        ensures variables { variables_of self.new ≡ variables_of self.old }
        ensures query { query_of self.new ≡ query_of self.old }
        ensures told { IfOk result (IsTold (variables_of self.old)) }
        ensures ended { ended self.old ≡ None → IfOk result (λ event. Keeps event (ended self.new)) }
        ensures failed { failed self.new ≡ failed self.old }
        ensures search { IfOk result (λ event. (c : Course) (x : Tally) → IsToTell self.old c → Stands c x first self.old.machine → AreEnough c.program c.enough c.begin event → IsEventOf c.event event × IsBetween c.program c.enough self.new c.after × HeardBy (constants_of self.old) self.old.machine self.new.machine (places crowd.old.texts.items (map W.seen crowd.old.watchers.now.items)) (places crowd.new.texts.items (map W.seen crowd.new.watchers.now.items)) x) }
        ensures begins { (c : Course) (x : Tally) → IsToTell self.old c → Stands c x first self.old.machine → HearsPart (constants_of self.old) x.notes (places crowd.old.texts.items (map W.seen crowd.old.watchers.now.items)) (places crowd.new.texts.items (map W.seen crowd.new.watchers.now.items)) }
        ensures within { OnOk result ((c : Course) (x : Tally) → IsToTell self.old c → Stands c x first self.old.machine → steps_of self.new ≤ steps_of self.old + x.steps) }
        ensures constants { constants_of self.new ≡ constants_of self.old }
        ensures same { crowd.new.watchers.ghost_name ≡ crowd.old.watchers.ghost_name }
    {
        let found = run(&mut self.machine, crowd, self.constants.as_slice(), first)?;
        match found {
            Told::Ended(ending) => Ok(self.end(ending)),
            Told::Answered => {
                self.tell_answer(crowd)?;
                let count = self.variables.len();
                let made = answer_of(&mut self.machine, count)?;
                let Some(answer) = made else {
                    return Ok(self.end(Ending::Deep));
                };
                Ok(Event::Answer(answer))
            }
        }
    }

    #[tactic(auto, unfolding(crate::specs::Held::variables_of, crate::specs::Held::query_of, crate::specs::Held::ended, crate::specs::Held::failed, crate::specs::Held::constants_of, crate::specs::Held::steps_of))]
    fn advance<W: Watch>(&mut self, crowd: &mut Crowd<'_, W>) -> Result<Event, Memory>
        ensures variables { variables_of self.new ≡ variables_of self.old }
        ensures query { query_of self.new ≡ query_of self.old }
        ensures told { IfOk result (IsTold (variables_of self.old)) }
        ensures ended { ended self.old ≡ None → IfOk result (λ event. Keeps event (ended self.new)) }
        ensures failed { failed self.new ≡ failed self.old }
        ensures search { IfOk result (λ event. ended self.old ≡ None → (P : List Clause) (n : ℕ) (s : State Task) → IsBetween P n self.old s → AreEnough P n s event → (x : Happens Answer) (t : State Task) (d : Advances (look unit_limit n P) s x t) → IsEventOf x event × IsBetween P n self.new t × HeardBy (constants_of self.old) self.old.machine self.new.machine (places crowd.old.texts.items (map W.seen crowd.old.watchers.now.items)) (places crowd.new.texts.items (map W.seen crowd.new.watchers.now.items)) (tally_told (look unit_limit n P) d.inner_moves d.moves s)) }
        ensures begins { ended self.old ≡ None → (P : List Clause) (n : ℕ) (s : State Task) → IsBetween P n self.old s → (x : Happens Answer) (t : State Task) (d : Advances (look unit_limit n P) s x t) → HearsPart (constants_of self.old) (notes_told (look unit_limit n P) d.inner_moves d.moves s) (places crowd.old.texts.items (map W.seen crowd.old.watchers.now.items)) (places crowd.new.texts.items (map W.seen crowd.new.watchers.now.items)) }
        ensures within { OnOk result (ended self.old ≡ None → (P : List Clause) (n : ℕ) (s : State Task) → IsBetween P n self.old s → (x : Happens Answer) (t : State Task) (d : Advances (look unit_limit n P) s x t) → steps_of self.new ≤ steps_of self.old + steps_until (look unit_limit n P) d.inner_moves d.moves s) }
        ensures constants { constants_of self.new ≡ constants_of self.old }
        ensures same { crowd.new.watchers.ghost_name ≡ crowd.old.watchers.ghost_name }
    {
        if self.given >= self.answers {
            return Ok(self.end(Ending::Enough));
        }
        if self.given == 0 {
            let event = self.go_on(crowd, Turn::On)?;
            return Ok(event);
        }
        tell_back(&self.machine, crowd)?;
        let event = self.go_on(crowd, Turn::Back)?;
        Ok(event)
    }

    /// The next answer, or how the search ended. After an end the same end, after `Memory` always `Memory`.
    #[tactic(auto, unfolding(crate::specs::Held::variables_of, crate::specs::Held::query_of, crate::specs::Held::ended, crate::specs::Held::failed, crate::specs::Held::constants_of, crate::specs::Held::steps_of))]
    pub fn next<W: Watch>(&mut self, crowd: &mut Crowd<'_, W>) -> Result<Event, Memory>
        ensures variables { variables_of self.new ≡ variables_of self.old }
        ensures query { query_of self.new ≡ query_of self.old }
        ensures told { IfOk result (IsTold (variables_of self.old)) }
        ensures fails { OnErr result (failed self.new ≡ true) }
        ensures failed { failed self.old ≡ true → IsErr result }
        ensures going { OnOk result (failed self.new ≡ false) }
        ensures ended { IfOk result (λ event. Keeps event (ended self.new)) }
        ensures search { IfOk result (λ event. (P : List Clause) (n : ℕ) (s : State Task) → IsBetween P n self.old s → AreEnough P n s event → (x : Happens Answer) (t : State Task) → Advances (look unit_limit n P) s x t → IsEventOf x event × IsBetween P n self.new t) }
        ensures steps { IfOk result (λ event. ended self.old ≡ None → (P : List Clause) (n : ℕ) (s : State Task) → IsBetween P n self.old s → AreEnough P n s event → (x : Happens Answer) (t : State Task) (d : Advances (look unit_limit n P) s x t) → steps_of self.new ≡ steps_of self.old + steps_until (look unit_limit n P) d.inner_moves d.moves s) }
        ensures notes { IfOk result (λ event. ended self.old ≡ None → (P : List Clause) (n : ℕ) (s : State Task) → IsBetween P n self.old s → AreEnough P n s event → (x : Happens Answer) (t : State Task) (d : Advances (look unit_limit n P) s x t) →
            Hears (constants_of self.old) (notes_told (look unit_limit n P) d.inner_moves d.moves s) (places crowd.old.texts.items (map W.seen crowd.old.watchers.now.items)) (places crowd.new.texts.items (map W.seen crowd.new.watchers.now.items))) }
        ensures begins { (P : List Clause) (n : ℕ) (s : State Task) → IsBetween P n self.old s → (x : Happens Answer) (t : State Task) (d : Advances (look unit_limit n P) s x t) → HearsPart (constants_of self.old) (notes_told (look unit_limit n P) d.inner_moves d.moves s) (places crowd.old.texts.items (map W.seen crowd.old.watchers.now.items)) (places crowd.new.texts.items (map W.seen crowd.new.watchers.now.items)) }
        ensures within { OnOk result ((P : List Clause) (n : ℕ) (s : State Task) → IsBetween P n self.old s → (x : Happens Answer) (t : State Task) (d : Advances (look unit_limit n P) s x t) → steps_of self.new ≤ steps_of self.old + steps_until (look unit_limit n P) d.inner_moves d.moves s) }
        ensures rest { (e : Ending) → ended self.old ≡ Some e → (steps_of self.new ≡ steps_of self.old) × (places crowd.new.texts.items (map W.seen crowd.new.watchers.now.items) ≡ places crowd.old.texts.items (map W.seen crowd.old.watchers.now.items)) }
        ensures constants { constants_of self.new ≡ constants_of self.old }
        ensures same { crowd.new.watchers.ghost_name ≡ crowd.old.watchers.ghost_name }
        ensures stays { failed self.old ≡ false → (e : Ending) → ended self.old ≡ Some e → result ≡ Ok (told.Ended e) }
    {
        if self.failed {
            return Err(Memory);
        }
        if let Some(ending) = self.ended {
            return Ok(Event::Ended(ending));
        }
        self.failed = true;
        let event = self.advance(crowd)?;
        self.failed = false;
        Ok(event)
    }

    /// The steps taken.
    #[tactic(auto, unfolding(crate::specs::Held::steps_of))]
    pub fn steps(&self) -> u64
        ensures { result ≡ steps_of self.now }
    {
        self.machine.counts.steps
    }
}
