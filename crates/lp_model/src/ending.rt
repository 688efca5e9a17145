// How a search ends.

/// Why the value of an expression is not there.
#[derive(Clone, Copy, PartialEq, Eq, Debug)]
pub enum Fault {
    /// A result does not fit 64 bits.
    Overflow,
    /// A division by zero.
    ZeroDivisor,
    /// A variable, or anything else that is no operation, integer or string.
    NotClosed,
}

/// How a search ends.
#[derive(Clone, Copy, PartialEq, Eq, Debug)]
pub enum Ending {
    /// No alternative is left.
    NoMore,
    /// No alternative is left, and some were cut away.
    NoMoreCut,
    /// As many answers as were asked for.
    Enough,
    /// As many steps as were allowed, and one more to take.
    Steps,
    /// A goal whose head is a logic variable.
    Flexible,
    /// An expression without a value.
    Arithmetic(Fault),
    /// A negated goal with a variable in it, or whose search left open whether the goal holds: it was cut, or its answer has residual pairs.
    OpenNot,
    /// Unification or the taking apart of goals went on too long.
    Deep,
}
