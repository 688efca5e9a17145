// Terms of heads that are matched in place: against an application of their constant nothing is built, and a variable that stands nowhere before is the argument itself.

use crate::heap::{Looked, Nodes, Wanted};
use crate::outcome::Turn;
use crate::search::Search;
use lp_base::Memory;
use lp_code::Instr;
use lp_store::CellId;

impl<'i> Search<'i> {
    // The types that are matched are those in these registers.
    fn match_types(&mut self, types: &[u16]) -> Result<Turn, Memory> {
        for (place, register) in types.iter().copied().enumerate() {
            let left = self.heap.matched_type(place);
            let right = self.type_in(register);
            let turn = self.heap.match_types(left, right)?;
            let Turn::On = turn else {
                return Ok(turn);
            };
        }
        Ok(Turn::On)
    }

    /// Takes a GET_TYPE of a type variable that stands nowhere before.
    pub(crate) fn name_type(&mut self, instr: &Instr) -> Result<Turn, Memory> {
        let Instr::GetType(number, register) = instr else {
            return Ok(Turn::On);
        };
        let left = self.heap.type_argument(*number);
        if self.heap.is_plain(left) {
            self.set_type(*register, left);
            return self.heap.name(1);
        }
        let variable = self.heap.put_type_variable()?;
        self.set_type(*register, variable);
        self.heap.pair_types(left, variable)
    }

    // A new variable in a register.
    fn make_variable(&mut self, register: u16) -> Result<CellId, Memory> {
        let variable = self.heap.put_variable(self.work.level)?;
        self.set_term(register, variable);
        Ok(variable)
    }

    // The variable of a register that is not set is the argument. Where the argument has to be looked at as a term, the two are unified.
    fn name(&mut self, argument: CellId, register: u16) -> Result<Turn, Memory> {
        match self.heap.nodes_of(argument, self.work.level)? {
            Nodes::Many(nodes) => {
                self.set_term(register, argument);
                self.heap.name(nodes)
            }
            Nodes::Unknown => {
                let variable = self.make_variable(register)?;
                self.heap.pair(argument, variable, self.work.level)
            }
            Nodes::Ended(ending) => Ok(Turn::Ended(ending)),
        }
    }

    fn match_argument(&mut self, argument: CellId, register: u16) -> Result<Turn, Memory> {
        if !self.heap.is_set(self.work.registers, register) {
            return self.name(argument, register);
        }
        let term = self.term_in(register);
        self.heap.pair(argument, term, self.work.level)
    }

    // The arguments that are matched are what stands in these registers, from left to right.
    fn match_arguments(&mut self, registers: &[u16]) -> Result<Turn, Memory> {
        for (place, register) in registers.iter().copied().enumerate() {
            let argument = self.heap.matched_argument(place);
            let turn = self.match_argument(argument, register)?;
            let Turn::On = turn else {
                return Ok(turn);
            };
        }
        Ok(Turn::On)
    }

    // A constant with the types in these registers, and what it stands on, against what was looked at.
    fn match_parts(&mut self, types: &[u16], registers: &[u16]) -> Result<Turn, Memory> {
        let turn = self.heap.take_pair()?;
        let Turn::On = turn else {
            return Ok(turn);
        };
        let turn = self.match_types(types)?;
        let Turn::On = turn else {
            return Ok(turn);
        };
        self.match_arguments(registers)
    }

    // The parts of a term differ: as the unification of the two would, this takes a unit.
    fn differ(&mut self) -> Result<Turn, Memory> {
        match self.heap.take_pair()? {
            Turn::On => Ok(Turn::Back),
            turn => Ok(turn),
        }
    }

    // Builds the term after all, and unifies it with the argument.
    fn get_built(
        &mut self,
        number: u8,
        constant: &Instr,
        term: &Instr,
        made: u16,
        registers: &[u16],
    ) -> Result<Turn, Memory> {
        for register in registers.iter().copied() {
            if !self.heap.is_set(self.work.registers, register) {
                let _variable = self.make_variable(register)?;
            }
        }
        let _constant = self.build(constant)?;
        let _term = self.build(term)?;
        let built = self.term_in(made);
        self.get(number, built)
    }

    // An argument of the goal at hand against an application of a constant, of which these instructions are.
    fn match_application(
        &mut self,
        number: u8,
        constant: &Instr,
        term: &Instr,
    ) -> Result<Turn, Memory> {
        let Instr::PutConst(top, name, types) = constant else {
            return Ok(Turn::On);
        };
        let Instr::PutApp(made, _, registers) = term else {
            return Ok(Turn::On);
        };
        let wanted = Wanted {
            constant: *name,
            types: types.len(),
            arguments: registers.len(),
        };
        match self.heap.look_at_argument(number, wanted)? {
            Looked::Same(head) => {
                let argument = self.heap.argument(number);
                self.set_term(*top, head);
                self.set_term(*made, argument);
                self.match_parts(types.as_slice(), registers.as_slice())
            }
            Looked::Differs => self.differ(),
            Looked::Other => self.get_built(number, constant, term, *made, registers.as_slice()),
            Looked::Ended(ending) => Ok(Turn::Ended(ending)),
        }
    }

    /// Takes a GET of a term that is matched in place, which is built at these places.
    pub(crate) fn match_term(
        &mut self,
        instr: &Instr,
        head: u32,
        term: u32,
    ) -> Result<Turn, Memory> {
        let code = self.work.code;
        match (instr, code.get(head as usize), code.get(term as usize)) {
            (Instr::Get(number, _), Some(constant), Some(application)) => {
                self.match_application(*number, constant, application)
            }
            _ => Ok(Turn::On),
        }
    }

    /// An argument of the goal at hand against a constant with the types in these registers.
    pub(crate) fn match_constant(
        &mut self,
        number: u8,
        constant: u32,
        types: &[u16],
    ) -> Result<Turn, Memory> {
        let wanted = Wanted {
            constant,
            types: types.len(),
            arguments: 0,
        };
        match self.heap.look_at_argument(number, wanted)? {
            Looked::Same(_) => self.match_parts(types, &[]),
            Looked::Differs => self.differ(),
            Looked::Other => {
                let term = self.heap.put_constant(constant, self.work.from, types)?;
                self.get(number, term)
            }
            Looked::Ended(ending) => Ok(Turn::Ended(ending)),
        }
    }

    /// An argument of the goal at hand against an integer.
    pub(crate) fn match_integer(&mut self, number: u8, integer: i64) -> Result<Turn, Memory> {
        match self.heap.integer_at(number) {
            Some(other) => {
                if other == integer {
                    self.heap.take_pair()
                } else {
                    self.differ()
                }
            }
            None => {
                let term = self.heap.put_integer(integer)?;
                self.get(number, term)
            }
        }
    }
}
