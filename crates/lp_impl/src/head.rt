// The predicate of a goal or of a clause.
ghost use Rattle.std.specs.Prelude.{◌≡◌};
ghost use Rattle.lp_impl.specs.Heads.{is_head};

/// The predicate of a goal or of a clause: a constant, or the eigenconstant of a level.
#[derive(Clone, Copy, Debug, PartialEq, Eq)]
pub enum Head {
    Const(u32),
    Eigen(u64),
}

/// Whether the two are one.
pub(crate) fn same_head(one: Head, other: Head) -> bool
    ensures { result ≡ is_head one other }
{
    match one {
        Head::Const(number) => match other {
            Head::Const(second) => number == second,
            Head::Eigen(_) => false,
        },
        Head::Eigen(level) => match other {
            Head::Const(_) => false,
            Head::Eigen(second) => level == second,
        },
    }
}
