// Fixities.

/// How an operator takes its operands. An operator of number n has operands of numbers above n; on the side that the
/// last letter names, `Infixl`, `Infixr`, `Prefixr` and `Postfixl` take operands of number n too.
#[derive(Clone, Copy, Debug, PartialEq, Eq)]
pub enum Fixity {
    Infix,
    Infixl,
    Infixr,
    Prefix,
    Prefixr,
    Postfix,
    Postfixl,
}
