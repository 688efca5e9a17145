// Why code is refused.

use lp_base::Memory;
use lp_code::Rule;

/// Why code is refused: the first instruction that breaks a rule, by the number of its record and its offset there, with the first rule that it breaks. A rule
/// that the record as a whole breaks is told at offset 0.
#[derive(Clone, Copy, Debug, PartialEq, Eq)]
pub enum VerifyRefusal {
    Invalid { clause: u32, at: u32, rule: Rule },
    Memory,
}

impl From<Memory> for VerifyRefusal {
    ghost use Rattle.std.specs.Prelude.{◌≡◌};
    ghost use Rattle.lp_verify.specs.declared.refusal.VerifyRefusal.TheVariants as refusal;

    ghost from_gives = { λ _ e. e ≡ refusal.Memory };

    fn from(_: Memory) -> VerifyRefusal {
        VerifyRefusal::Memory
    }
}
