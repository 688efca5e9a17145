// The rules of code.

/// A rule of code that is broken. They are judged in this order; specs/Rules says when an instruction breaks each, and specs/Denote when a record as a whole does.
#[derive(Clone, Copy, Debug, PartialEq, Eq)]
pub enum Rule {
    /// A register's number is not below the record's count.
    Register,
    /// A register is read before it is set.
    Unset,
    /// A register is set twice.
    Set,
    /// A number is unknown, or its count of types is wrong.
    Constant,
    /// Something is ill typed.
    Typing,
    /// A goal or head has a loose index.
    Index,
    /// A term has a constant of implication, cut or negation.
    Term,
    /// An instruction of the head stands behind it or out of turn, or a goal before its end.
    Order,
    /// An argument or type argument of the head is missing, a variable has its first place in another way, or the predicate heads no clause.
    Head,
    /// Blocks do not nest, their lengths do not fit, or the record does not end.
    Block,
    /// An assumed record is not one, or was assumed before, or by none.
    Clause,
    /// The key is not that of the first argument.
    Key,
}
