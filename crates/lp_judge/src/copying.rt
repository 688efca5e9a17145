// A program and a query in a bank of their own.

use lp_base::Memory;
use lp_model::{ClauseFormula, Declared, Program, Typed};
use lp_term::{Bank, Changed, Same};
use std::alloc::Global;

/// A program with a query on it, which stands in its bank.
#[derive(Drop)]
pub(crate) struct Copied {
    pub(crate) program: Program,
    pub(crate) query: Typed,
}

// What has been copied, and where to.
#[derive(Drop)]
struct Copies {
    alloc: Global,
    done: Changed,
    to: Bank,
}

impl Copies {
    fn constant(&mut self, from: &Bank, constant: &Declared) -> Result<Declared, Memory> {
        Ok(Declared {
            shown: constant.shown.to_vec(self.alloc)?,
            type_vars: constant.type_vars,
            scheme: self
                .done
                .copy_type(self.alloc, &Same, from, constant.scheme, &mut self.to)?,
        })
    }

    fn constants(&mut self, from: &Bank, constants: &[Declared]) -> Result<Vec<Declared>, Memory> {
        let mut copied = Vec::new(self.alloc);
        'constants: for constant in constants {
            copied.push(self.constant(from, constant)?)?;
        }
        Ok(copied)
    }

    fn clauses(
        &mut self,
        from: &Bank,
        clauses: &[ClauseFormula],
    ) -> Result<Vec<ClauseFormula>, Memory> {
        let mut copied = Vec::new(self.alloc);
        'clauses: for clause in clauses.iter().copied() {
            let formula = self
                .done
                .copy(self.alloc, &Same, from, clause.formula, &mut self.to)?;
            copied.push(ClauseFormula { formula, ..clause })?;
        }
        Ok(copied)
    }

    fn query(&mut self, from: &Bank, query: &Typed) -> Result<Typed, Memory> {
        let mut vars = Vec::new(self.alloc);
        'variables: for (spot, of) in query.vars.iter().copied() {
            let sort = self
                .done
                .copy_type(self.alloc, &Same, from, of, &mut self.to)?;
            vars.push((spot, sort))?;
        }
        Ok(Typed {
            type_vars: query.type_vars,
            vars,
            formula: self
                .done
                .copy(self.alloc, &Same, from, query.formula, &mut self.to)?,
        })
    }
}

/// The same program and query in a new bank.
pub(crate) fn copy_of(alloc: Global, program: &Program, query: &Typed) -> Result<Copied, Memory> {
    let mut copies = Copies {
        alloc,
        done: Changed::new(alloc),
        to: Bank::new(alloc),
    };
    let from = &program.bank;
    let constants = copies.constants(from, program.constants.as_slice())?;
    let clauses = copies.clauses(from, program.clauses.as_slice())?;
    let query = copies.query(from, query)?;
    let Copies { to, .. } = copies;
    Ok(Copied {
        program: Program {
            bank: to,
            constants,
            clauses,
        },
        query,
    })
}
