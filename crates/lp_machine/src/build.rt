// The instructions that build types and terms in registers.

use crate::search::Search;
use lp_base::Memory;
use lp_code::Instr;
use lp_store::CellId;

impl<'i> Search<'i> {
    /// A type is in its register.
    pub(crate) fn set_type(&mut self, made: u16, cell: CellId) {
        self.heap.set(self.work.from, made, cell);
    }

    // A term is in its register.
    pub(crate) fn set_term(&mut self, made: u16, cell: CellId) {
        self.heap.set(self.work.registers, made, cell);
    }

    // The type in a register.
    pub(crate) fn type_in(&self, number: u16) -> CellId {
        self.heap.register(self.work.from, number)
    }

    // The term in a register.
    pub(crate) fn term_in(&self, number: u16) -> CellId {
        self.heap.register(self.work.registers, number)
    }

    // Builds a type. Whether the instruction is one that does.
    fn build_type(&mut self, instr: &Instr) -> Result<bool, Memory> {
        let (made, cell) = match instr {
            Instr::TyCon(made, kind, types) => {
                let cell = self
                    .heap
                    .put_constructor(*kind, self.work.from, types.as_slice())?;
                (*made, cell)
            }
            Instr::TyArr(made, from, to) => {
                let (left, right) = (self.type_in(*from), self.type_in(*to));
                (*made, self.heap.put_arrow(left, right)?)
            }
            Instr::TyNew(made) => (*made, self.heap.put_type_variable()?),
            _ => return Ok(false),
        };
        self.set_type(made, cell);
        Ok(true)
    }

    // Builds a term. Whether the instruction is one that does.
    fn build_term(&mut self, instr: &Instr) -> Result<bool, Memory> {
        let work = self.work;
        let (made, cell) = match instr {
            Instr::New(made, _) => (*made, self.heap.put_variable(work.level)?),
            Instr::PutConst(made, constant, types) => {
                let cell = self
                    .heap
                    .put_constant(*constant, work.from, types.as_slice())?;
                (*made, cell)
            }
            Instr::PutInt(made, integer) => (*made, self.heap.put_integer(*integer)?),
            Instr::PutStr(made, text) => (*made, self.heap.put_text(text.as_slice())?),
            Instr::PutIndex(made, index, _) => (*made, self.heap.put_index(*index)?),
            Instr::PutAbs(made, body, _) => {
                let inside = self.term_in(*body);
                (*made, self.heap.put_abstraction(inside)?)
            }
            Instr::PutApp(made, head, arguments) => {
                let top = self.term_in(*head);
                let cell = self
                    .heap
                    .put_application(top, work.registers, arguments.as_slice())?;
                (*made, cell)
            }
            _ => return Ok(false),
        };
        self.set_term(made, cell);
        Ok(true)
    }

    /// Builds what the instruction builds. Whether it is one that builds.
    pub(crate) fn build(&mut self, instr: &Instr) -> Result<bool, Memory> {
        if self.build_term(instr)? {
            return Ok(true);
        }
        self.build_type(instr)
    }
}
