//! Which calls of a disk in memory are to fail.

ghost use Rattle.std.specs.Prelude.{◌≡◌, ◌+◌, ◌-◌, ◌^◌, min, None, Some};
ghost use Rattle.rpc_record.specs.Stream.{fails_next, one_more};
ghost use Rattle.store_disk.specs.MemoryDisks.{has_stopped, is_to_fail};

/// Which calls are to fail, and how many were made and have failed.
#[derive(Drop)]
pub struct Schedule {
    /// The numbers of calls that are to fail, from 1.
    pub failing: Vec<u64>,
    /// Every call behind so many is to fail.
    pub stop: Option<u64>,
    /// How many calls were made. It stands still at `u64::MAX`.
    pub calls: u64,
    /// How many have failed. It stands still at `u64::MAX`.
    pub faults: u64,
}

impl Schedule {
    /// No call was made yet.
    pub fn new(failing: Vec<u64>) -> Schedule
        ensures { result ≡ record { failing = failing; stop = None; calls = 0; faults = 0 } }
    {
        Schedule {
            failing,
            stop: None,
            calls: 0,
            faults: 0,
        }
    }

    /// Counts the next call, and says whether it is to fail.
    pub fn begin_call(&mut self) -> bool
        ensures fails { result ≡ is_to_fail self.old.failing.items self.old.stop self.old.calls }
        ensures counts { self.new ≡ record self.old { calls = one_more self.old.calls } }
    {
        let fails = self.fails_next();
        self.calls = self.calls.saturating_add(1);
        fails
    }

    /// Counts a fault.
    pub fn count_fault(&mut self)
        ensures { self.new ≡ record self.old { faults = one_more self.old.faults } }
    {
        self.faults = self.faults.saturating_add(1);
    }

    /// Behind so many further calls every call is to fail.
    pub fn stop_after(&mut self, calls: u64)
        ensures { self.new ≡ record self.old { stop = Some (min (self.old.calls + calls) (2 ^ 64 - 1)) } }
    {
        self.stop = Some(self.calls.saturating_add(calls));
    }

    /// Whether the next call is to fail.
    fn fails_next(&self) -> bool
        ensures { result ≡ is_to_fail self.now.failing.items self.now.stop self.now.calls }
    {
        if self.has_stopped() {
            return true;
        }
        self.calls < u64::MAX && self.failing.contains(&(self.calls + 1))
    }

    /// Whether every further call is to fail.
    fn has_stopped(&self) -> bool
        ensures { result ≡ has_stopped self.now.stop self.now.calls }
    {
        match self.stop {
            None => false,
            Some(stop) => stop <= self.calls,
        }
    }
}
