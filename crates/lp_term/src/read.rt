//! The bank that is read: another one, or the one that is built.
ghost use Rattle.std.specs.Prelude.{◌≡◌};
ghost use Rattle.lp_term.specs.inner.Reading.{read_of};

use crate::bank::Bank;

pub(crate) fn read<'a>(here: bool, from: &'a Bank, to: &'a Bank) -> &'a Bank
    ensures { result.now ≡ read_of here from.now to.now }
{
    if here {
        return to;
    }
    from
}
