// The filter by the first argument.

use lp_store::CellId;

/// The head of a goal's first argument, where it is a constant, an integer, a string or an eigenconstant.
#[derive(Clone, Copy)]
pub(crate) enum GoalKey {
    None,
    Const(u32),
    Int(i64),
    Text(CellId),
    Eigen,
}

impl GoalKey {
    /// Whether it may be that of a constant.
    pub(crate) fn is_constant(self, constant: u32) -> bool {
        match self {
            GoalKey::None => true,
            GoalKey::Const(other) => constant == other,
            _ => false,
        }
    }

    /// Whether it may be that of an integer.
    pub(crate) fn is_integer(self, integer: i64) -> bool {
        match self {
            GoalKey::None => true,
            GoalKey::Int(other) => integer == other,
            _ => false,
        }
    }
}
