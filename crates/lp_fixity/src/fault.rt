// The refusals of a declaration.

use lp_base::Memory;

/// Why an operator was not declared.
#[derive(Clone, Copy, Debug, PartialEq, Eq)]
pub enum FixFault {
    /// The number, which is above 255.
    TooHigh(u32),
    /// The name has another fixity or number.
    Otherwise,
    Memory,
}

impl From<Memory> for FixFault {
    ghost use Rattle.std.specs.Prelude.{◌≡◌};
    ghost use Rattle.lp_fixity.specs.declared.fault.FixFault.TheVariants as fault;

    ghost from_gives = { λ _ e. e ≡ fault.Memory };

    fn from(_: Memory) -> FixFault {
        FixFault::Memory
    }
}
