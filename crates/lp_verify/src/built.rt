// What is looked at in a term that stands in a register.
ghost use Rattle.std.specs.Prelude.{◌≡◌};
ghost use Rattle.lp_verify.specs.inner.Handed.{bare_built};

use crate::loose::Loose;
use lp_term::TypeId;

// What a term is, as far as a rule asks.
#[derive(Clone, Copy)]
pub(crate) enum Head {
    // The variable that was made in this register of the record of this number.
    Variable(u16, u32),
    // Something else.
    Other,
}

// A term's type, by its first number, its loose indices and what it is.
#[derive(Clone, Copy)]
pub(crate) struct Built {
    pub(crate) of: TypeId,
    pub(crate) loose: Loose,
    pub(crate) head: Head,
}

impl Built {
    // A term without loose indices.
    pub(crate) fn closed(of: TypeId, head: Head) -> Built
        ensures { result ≡ bare_built of head }
    {
        Built {
            of,
            loose: Loose::NONE,
            head,
        }
    }
}
