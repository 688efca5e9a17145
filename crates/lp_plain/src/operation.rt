// What the operations give on integers.
ghost use Rattle.std.specs.Prelude.{◌≡◌, List, ℕ, length};
ghost use Rattle.lp_standard.specs.Constants.{number};
ghost use Rattle.lp_model.specs.Values.{Number, Bytes, binary, unary, divided, remainder};
ghost use Rattle.lp_plain.specs.Evaluated.{GivesNumber};
ghost use Rattle.lp_plain.specs.inner.Fitting.{IsFitting};

use lp_model::Fault;
use lp_standard::Constant;

// A number that fits 64 bits.
fn fitting(exact: Option<i64>) -> Result<i64, Fault>
    ensures { IsFitting exact result }
{
    match exact {
        Some(fits) => Ok(fits),
        None => Err(Fault::Overflow),
    }
}

fn quotient_of(left: i64, right: i64) -> Result<i64, Fault>
    ensures { GivesNumber result (divided left right) }
{
    if right == 0 {
        return Err(Fault::ZeroDivisor);
    }
    fitting(left.checked_div(right))
}

fn remainder_of(left: i64, right: i64) -> Result<i64, Fault>
    ensures { GivesNumber result (remainder left right) }
{
    if right == 0 {
        return Err(Fault::ZeroDivisor);
    }
    fitting(left.checked_rem(right))
}

/// What an operation gives on two integers.
pub(crate) fn on_integers(operation: Constant, left: i64, right: i64) -> Result<i64, Fault>
    ensures { GivesNumber result (binary (number operation) (Number left) (Number right)) }
{
    match operation {
        Constant::Add => fitting(left.checked_add(right)),
        Constant::Subtract => fitting(left.checked_sub(right)),
        Constant::Multiply => fitting(left.checked_mul(right)),
        Constant::Divide => quotient_of(left, right),
        Constant::Remainder => remainder_of(left, right),
        _ => Err(Fault::NotClosed),
    }
}

/// What an operation gives on an integer.
pub(crate) fn on_integer(operation: Constant, operand: i64) -> Result<i64, Fault>
    ensures { GivesNumber result (unary (number operation) (Number operand)) }
{
    match operation {
        Constant::Negate => fitting(operand.checked_neg()),
        _ => Err(Fault::NotClosed),
    }
}

/// What an operation gives on a string of so many bytes.
pub(crate) fn on_length(operation: Constant, count: usize) -> Result<i64, Fault>
    ensures { (s : List ℕ) → length s ≡ count → GivesNumber result (unary (number operation) (Bytes s)) }
{
    match operation {
        Constant::Size => match i64::try_from(count) {
            Ok(size) => Ok(size),
            Err(_) => Err(Fault::Overflow),
        },
        _ => Err(Fault::NotClosed),
    }
}
