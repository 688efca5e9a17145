// Which calls of an object are to fail.
ghost use Rattle.std.specs.Prelude.{◌≡◌, ◌↔◌, IsTrue};
ghost use Rattle.lp_base.specs.Schedule.{IsDue, CalledOnce, IsNew};

/// The numbers of the calls that are to fail, and how many calls were made.
#[derive(Drop)]
pub struct Schedule {
    fail: Vec<u64>,
    calls: u64,
}

impl Schedule {
    /// The calls of these numbers are to fail, counted from 0.
    pub fn new(fail: Vec<u64>) -> Schedule
        ensures { IsNew result fail.items }
    {
        Schedule { fail, calls: 0 }
    }

    /// Counts a call, and says whether it is to fail.
    pub fn is_due(&mut self) -> bool
        ensures due { IsTrue result ↔ IsDue self.old }
        ensures called { CalledOnce self.old self.new }
    {
        let due = self.fail.contains(&self.calls);
        self.calls = self.calls.saturating_add(1);
        due
    }
}
