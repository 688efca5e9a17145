// Why there is no query to answer.

use lp_base::{Memory, Status};

/// Why there is no query to answer.
#[derive(Drop)]
pub enum Refusal {
    /// It ends with this status, and this line is written.
    Line(Status, Vec<u8>),
    /// Memory ran out.
    Memory,
}

impl From<Memory> for Refusal {
    ghost use Rattle.std.specs.Prelude.{◌≡◌};
    ghost use Rattle.lp_lines.specs.declared.refusal.Refusal.TheVariants.{Memory as Want};

    ghost from_gives = { λ _ e. e ≡ Want };

    fn from(_: Memory) -> Self {
        Refusal::Memory
    }
}
