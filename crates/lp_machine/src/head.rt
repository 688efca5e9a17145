// The instructions of a clause's head: they match the goal at hand, as one unification.

use crate::outcome::Turn;
use crate::search::Search;
use lp_base::Memory;
use lp_code::Instr;
use lp_store::CellId;

impl<'i> Search<'i> {
    /// An argument of the goal at hand against a term.
    pub(crate) fn get(&mut self, number: u8, term: CellId) -> Result<Turn, Memory> {
        let argument = self.heap.argument(number);
        self.heap.pair(argument, term, self.work.level)
    }

    fn get_type(&mut self, number: u8, register: u16) -> Result<Turn, Memory> {
        let left = self.heap.type_argument(number);
        let right = self.type_in(register);
        self.heap.pair_types(left, right)
    }

    fn get_variable(&mut self, number: u8, made: u16) -> Turn {
        let argument = self.heap.argument(number);
        self.set_term(made, argument);
        Turn::On
    }

    fn get_text(&mut self, number: u8, text: &[u8]) -> Result<Turn, Memory> {
        let term = self.heap.put_text(text)?;
        self.get(number, term)
    }

    /// Takes an instruction of the head.
    pub(crate) fn match_head(&mut self, instr: &Instr) -> Result<Turn, Memory> {
        match instr {
            Instr::GetType(number, register) => self.get_type(*number, *register),
            Instr::GetVar(number, made) => Ok(self.get_variable(*number, *made)),
            Instr::Get(number, register) => {
                let term = self.term_in(*register);
                self.get(*number, term)
            }
            Instr::GetConst(number, constant, types) => {
                self.match_constant(*number, *constant, types.as_slice())
            }
            Instr::GetInt(number, integer) => self.match_integer(*number, *integer),
            Instr::GetStr(number, text) => self.get_text(*number, text.as_slice()),
            Instr::Neck => self.heap.wake(),
            _ => Ok(Turn::On),
        }
    }
}
