// The next instruction of the branch at work.

use crate::frame::{Todo, Work};
use crate::matches::Act;
use crate::outcome::Turn;
use crate::search::Search;
use lp_base::{Compare, Memory};
use lp_code::Instr;
use lp_impl::Head;
use lp_model::Ending;
use lp_standard::FIRST_CONSTANT;
use lp_watch::{Crowd, Note, Watch};

impl<'i> Search<'i> {
    // A goal with a constant as head. Of a constant of the language the goal is known by its term.
    fn call_constant<W: Watch>(
        &mut self,
        crowd: &mut Crowd<'_, W>,
        constant: u32,
        types: &[u16],
        arguments: &[u16],
    ) -> Result<Turn, Memory> {
        let work = self.work;
        self.heap
            .load_goal(work.from, types, work.registers, arguments)?;
        let head = Head::Const(constant);
        if constant >= FIRST_CONSTANT {
            return self.take_call(crowd, head);
        }
        let goal = self.heap.put_goal(head)?;
        self.take_goal(crowd, goal)
    }

    // A `!`: one step.
    fn take_cut<W: Watch>(&mut self, crowd: &mut Crowd<'_, W>) -> Result<Turn, Memory> {
        if !self.counts.take_step() {
            return Ok(Turn::Ended(Ending::Steps));
        }
        crowd.tell(Note::Cut)?;
        if self.cut(self.work.mark) {
            self.counts.lost = true;
        }
        Ok(Turn::On)
    }

    fn order<W: Watch>(
        &mut self,
        crowd: &mut Crowd<'_, W>,
        order: Compare,
        left: u16,
        right: u16,
    ) -> Result<Turn, Memory> {
        self.take_order(crowd, order, self.term_in(left), self.term_in(right))
    }

    // A goal.
    fn take_atom<W: Watch>(
        &mut self,
        crowd: &mut Crowd<'_, W>,
        instr: &Instr,
    ) -> Result<Turn, Memory> {
        match instr {
            Instr::Call(constant, types, arguments) => {
                self.call_constant(crowd, *constant, types.as_slice(), arguments.as_slice())
            }
            Instr::CallTerm(goal) => self.take_goal(crowd, self.term_in(*goal)),
            Instr::Equal(_, left, right) => {
                self.take_equation(crowd, self.term_in(*left), self.term_in(*right))
            }
            Instr::Is(_, left, right) => {
                self.take_assignment(crowd, self.term_in(*left), self.term_in(*right))
            }
            Instr::Less(left, right) => self.order(crowd, Compare::Less, *left, *right),
            Instr::Greater(left, right) => self.order(crowd, Compare::Greater, *left, *right),
            Instr::AtMost(left, right) => self.order(crowd, Compare::AtMost, *left, *right),
            Instr::AtLeast(left, right) => self.order(crowd, Compare::AtLeast, *left, *right),
            Instr::Cut => self.take_cut(crowd),
            Instr::Not => self.take_negation(crowd),
            Instr::EndNot => Ok(self.hold()),
            _ => Ok(Turn::On),
        }
    }

    // Begins or ends a block, if the instruction at a place does.
    fn take_block(&mut self, instr: &Instr, place: usize) -> Result<Option<Turn>, Memory> {
        let turn = match instr {
            Instr::Sigma(made, _) => self.open_variable(*made)?,
            Instr::All(made, _) => self.open_level(*made)?,
            Instr::EndAll => {
                self.close_level();
                Turn::On
            }
            Instr::Assume(records, types, terms) => {
                self.open_assumption(records.as_slice(), types.as_slice(), terms.as_slice())?
            }
            Instr::EndAssume => {
                self.close_assumption();
                Turn::On
            }
            Instr::Either(_) => self.open_either(place)?,
            Instr::Jump(_) => {
                self.work.place = self.layout.target(self.work.record, place);
                Turn::On
            }
            _ => return Ok(None),
        };
        Ok(Some(turn))
    }

    // Takes a goal, or begins or ends a block.
    fn take_part<W: Watch>(
        &mut self,
        crowd: &mut Crowd<'_, W>,
        instr: &Instr,
        place: usize,
    ) -> Result<Turn, Memory> {
        if let Some(turn) = self.take_block(instr, place)? {
            return Ok(turn);
        }
        self.take_atom(crowd, instr)
    }

    // Takes the instruction at a place.
    fn take_instruction<W: Watch>(
        &mut self,
        crowd: &mut Crowd<'_, W>,
        instr: &Instr,
        place: usize,
        act: Act,
    ) -> Result<Turn, Memory> {
        match act {
            Act::Build => {
                let _built = self.build(instr)?;
                Ok(Turn::On)
            }
            Act::Head => self.match_head(instr),
            Act::Goal => self.take_part(crowd, instr, place),
            Act::Skip => Ok(Turn::On),
            Act::Match(head, term) => self.match_term(instr, head, term),
            Act::Name => self.name_type(instr),
        }
    }

    // Takes the instruction at a place, which is left behind.
    fn take_place<W: Watch>(
        &mut self,
        crowd: &mut Crowd<'_, W>,
        instr: &Instr,
        place: usize,
    ) -> Result<Turn, Memory> {
        let Some(step) = self.layout.step(self.work.record, place) else {
            return Ok(Turn::Back);
        };
        self.work.place = step.behind;
        self.take_instruction(crowd, instr, place, step.act)
    }

    // Goes on with the goals behind a record that is done.
    fn proceed<W: Watch>(&mut self, crowd: &mut Crowd<'_, W>) -> Result<Turn, Memory> {
        let Some(number) = self.work.behind else {
            return Ok(Turn::Answered);
        };
        let Some(frame) = self.frames.get(number).copied() else {
            return Ok(Turn::Back);
        };
        match frame.todo {
            Todo::Code {
                record,
                place,
                from,
            } => {
                self.shrink(frame.behind, frame.top);
                self.enter(frame, record, place, from);
                Ok(Turn::On)
            }
            Todo::Goal(goal) => {
                self.shrink(frame.behind, frame.top);
                self.work = Work::behind_all(frame.behind, frame.mark, frame.level);
                self.take_goal(crowd, goal)
            }
        }
    }

    /// Takes the next instruction of the branch at work.
    pub(crate) fn advance<W: Watch>(&mut self, crowd: &mut Crowd<'_, W>) -> Result<Turn, Memory> {
        let place = self.work.place;
        match self.work.code.get(place) {
            None => self.proceed(crowd),
            Some(Instr::Proceed) => self.proceed(crowd),
            Some(instr) => self.take_place(crowd, instr, place),
        }
    }
}
