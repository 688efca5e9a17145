// Arithmetic goals, whose steps are taken.

use crate::outcome::Turn;
use crate::search::Search;
use lp_arith::{Value, compare};
use lp_base::{Compare, Memory};
use lp_model::{Ending, Fault};
use lp_store::CellId;

impl<'i> Search<'i> {
    /// Makes a term one with the value of an expression.
    pub(crate) fn assign(&mut self, left: CellId, expression: CellId) -> Result<Turn, Memory> {
        let value = match self.heap.value_of(expression)? {
            Ok(value) => value,
            Err(ending) => return Ok(Turn::Ended(ending)),
        };
        let right = match value {
            Value::Text(text) => text,
            Value::Int(integer) => self.heap.put_integer(integer)?,
        };
        self.heap.equate(left, right, self.work.level)
    }

    // The integer that an expression is, or how the search ends.
    fn integer_of(&mut self, expression: CellId) -> Result<Result<i64, Ending>, Memory> {
        match self.heap.value_of(expression)? {
            Err(ending) => Ok(Err(ending)),
            Ok(Value::Int(integer)) => Ok(Ok(integer)),
            Ok(Value::Text(_)) => Ok(Err(Ending::Arithmetic(Fault::NotClosed))),
        }
    }

    /// Compares the integers that two expressions are.
    pub(crate) fn compare(
        &mut self,
        order: Compare,
        left: CellId,
        right: CellId,
    ) -> Result<Turn, Memory> {
        let one = match self.integer_of(left)? {
            Ok(integer) => integer,
            Err(ending) => return Ok(Turn::Ended(ending)),
        };
        let other = match self.integer_of(right)? {
            Ok(integer) => integer,
            Err(ending) => return Ok(Turn::Ended(ending)),
        };
        if compare(order, one, other) {
            Ok(Turn::On)
        } else {
            Ok(Turn::Back)
        }
    }
}
