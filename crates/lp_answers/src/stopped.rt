// How the writing of answers ended.

use lp_base::Memory;
use lp_model::Ending;

/// What was written whole: so many answers, and how the search ended.
#[derive(Clone, Copy, Debug, PartialEq, Eq)]
pub struct Written {
    pub ending: Ending,
    pub answers: u64,
}

/// Why the writing of answers stopped before their last line.
#[derive(Clone, Copy, Debug, PartialEq, Eq)]
pub enum Stopped {
    /// A piece could not be written.
    Write,
    Memory,
}

impl From<Memory> for Stopped {
    ghost use Rattle.std.specs.Prelude.{◌≡◌};
    ghost use Rattle.lp_answers.specs.declared.stopped.Stopped.TheVariants.{Memory};

    ghost from_gives = { λ _ e. e ≡ Memory };

    fn from(_: Memory) -> Stopped {
        Stopped::Memory
    }
}
