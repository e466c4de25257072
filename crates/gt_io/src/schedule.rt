// Which calls of a store or a sink in memory are to fail.
ghost use Rattle.std.specs.Prelude.{◌≡◌, ◌≤◌, true, false};
ghost use Rattle.gt_io.specs.Counts.{Rose};
ghost use Rattle.gt_io.specs.Schedules.{after_call, fails_at, next_fails};

/// The numbers of the calls that are to fail, counted from 1, with the calls and the failures so far.
#[derive(Debug, Drop)]
pub struct Schedule {
    fails: Vec<u64>,
    calls: u64,
    faults: u64,
}

impl Schedule {
    pub fn new(fails: Vec<u64>) -> Schedule
        ensures fails { result.fails ≡ fails }
        ensures calls { result.calls ≡ 0 }
        ensures faults { result.faults ≡ 0 }
    {
        Schedule {
            fails,
            calls: 0,
            faults: 0,
        }
    }

    /// Counts one call, and says whether it is to fail.
    pub fn next_fails(&mut self) -> bool
        ensures scheduled { result ≡ next_fails self.old }
        ensures counted { self.new ≡ after_call self.old }
        ensures later { self.old.faults ≤ self.new.faults }
        ensures rose { result ≡ true → Rose self.old.faults self.new.faults }
        ensures stood { result ≡ false → self.new.faults ≡ self.old.faults }
    {
        self.calls = self.calls.saturating_add(1);
        let fails = self.fails_at(self.calls);
        if fails {
            self.faults = self.faults.saturating_add(1);
        }
        fails
    }

    // Whether the call of this number is to fail.
    fn fails_at(&self, call: u64) -> bool
        ensures { result ≡ fails_at self.now call }
    {
        self.fails.iter().any(|n| *n == call)
    }
}
