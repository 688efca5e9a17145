// A search as its answers are written.
ghost use Rattle.std.specs.Prelude.{◌≡◌, ℕ, IfOk};
ghost use Rattle.lp_answers.specs.Told.{IsTold};

use lp_base::Memory;
use lp_model::Event;
use lp_watch::{Crowd, Watch};

/// What searches for the answers of one query.
pub trait Searching<W: Watch> {
    /// The number of the query's variables.
    ghost variables: { Self → ℕ };

    /// The next answer, or how the search ended. The notes up to it go to the crowd.
    fn next(&mut self, crowd: &mut Crowd<'_, W>) -> Result<Event, Memory>
        ensures variables { variables self.new ≡ variables self.old }
        ensures told { IfOk result (IsTold (variables self.old)) };
}
