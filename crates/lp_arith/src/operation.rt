// What the operations on integers give, and the orders.
ghost use Rattle.std.specs.Prelude.{◌≡◌, List, ℕ, length};
ghost use Rattle.lp_goal.specs.Kinds.{order_constant};
ghost use Rattle.lp_standard.specs.Constants.{number};
ghost use Rattle.lp_model.specs.Values.{Number, Bytes, binary, unary, divided, remainder, ordered};
ghost use Rattle.lp_arith.specs.Meaning.{GivesNumber};
ghost use Rattle.lp_arith.specs.inner.Numbers.{IsFitting};

use crate::value::ArithRefusal;
use lp_base::Compare;
use lp_standard::Constant;

// A number that fits 64 bits.
fn fitting(exact: Option<i64>) -> Result<i64, ArithRefusal>
    ensures { IsFitting exact result }
{
    match exact {
        Some(fits) => Ok(fits),
        None => Err(ArithRefusal::Overflow),
    }
}

fn quotient_of(left: i64, right: i64) -> Result<i64, ArithRefusal>
    ensures { GivesNumber result (divided left right) }
{
    if right == 0 {
        return Err(ArithRefusal::ZeroDivisor);
    }
    fitting(left.checked_div(right))
}

fn remainder_of(left: i64, right: i64) -> Result<i64, ArithRefusal>
    ensures { GivesNumber result (remainder left right) }
{
    if right == 0 {
        return Err(ArithRefusal::ZeroDivisor);
    }
    fitting(left.checked_rem(right))
}

/// What an operation gives on two integers.
pub(crate) fn on_integers(operation: Constant, left: i64, right: i64) -> Result<i64, ArithRefusal>
    ensures { GivesNumber result (binary (number operation) (Number left) (Number right)) }
{
    match operation {
        Constant::Add => fitting(left.checked_add(right)),
        Constant::Subtract => fitting(left.checked_sub(right)),
        Constant::Multiply => fitting(left.checked_mul(right)),
        Constant::Divide => quotient_of(left, right),
        Constant::Remainder => remainder_of(left, right),
        _ => Err(ArithRefusal::NotClosed),
    }
}

/// What an operation gives on an integer.
pub(crate) fn on_integer(operation: Constant, operand: i64) -> Result<i64, ArithRefusal>
    ensures { GivesNumber result (unary (number operation) (Number operand)) }
{
    match operation {
        Constant::Negate => fitting(operand.checked_neg()),
        _ => Err(ArithRefusal::NotClosed),
    }
}

/// What an operation gives on a string of so many bytes.
pub(crate) fn on_length(operation: Constant, count: usize) -> Result<i64, ArithRefusal>
    ensures { (s : List ℕ) → length s ≡ count → GivesNumber result (unary (number operation) (Bytes s)) }
{
    match operation {
        Constant::Size => match i64::try_from(count) {
            Ok(size) => Ok(size),
            Err(_) => Err(ArithRefusal::Overflow),
        },
        _ => Err(ArithRefusal::NotClosed),
    }
}

/// Whether the order holds of two integers.
pub fn compare(order: Compare, left: i64, right: i64) -> bool
    ensures { result ≡ ordered (order_constant order) left right }
{
    match order {
        Compare::Less => left < right,
        Compare::Greater => left > right,
        Compare::AtMost => left <= right,
        Compare::AtLeast => left >= right,
    }
}
