//! What gives a node its moments.

ghost use Rattle.std.specs.Prelude.{◌≡◌, ◌≤◌, ℕ, List, Option, None, Some};
ghost use Rattle.node_link.specs.Clock.{GivesMoment};

use std::collections::VecDeque;
use std::time::{self, SystemTime, UNIX_EPOCH};

/// What gives moments, in seconds. They never fall, and asking for one cannot fail.
pub trait Clock {
    /// The last moment that it gave.
    ghost moment: { Self → ℕ };

    /// The moments that it will give, where it tells them.
    ghost coming: { Self → Option (List ℕ) };

    /// The moment.
    fn now(&mut self) -> u64
        ensures rises { moment self.old ≤ result }
        ensures kept { moment self.new ≡ result }
        ensures told { GivesMoment (coming self.old) (moment self.old) result (coming self.new) };
}

/// A clock over memory, which gives the moments of a `Vec` in order, and behind them the last again. One that
/// is below the one before it is given as that.
#[derive(Drop)]
pub struct MemoryClock {
    moments: VecDeque<u64>,
    last: u64,
}

impl MemoryClock {
    /// A clock that gives these.
    pub fn new(moments: Vec<u64>) -> MemoryClock
        ensures moments { result.moments.items ≡ moments.items }
        ensures last { result.last ≡ 0 }
    {
        MemoryClock {
            moments: VecDeque::from_vec(moments),
            last: 0,
        }
    }
}

impl Clock for MemoryClock {
    ghost moment = { λ clock. clock.last };

    ghost coming = { λ clock. Some clock.moments.items };

    fn now(&mut self) -> u64 {
        if let Some(moment) = self.moments.pop_front() {
            self.last = self.last.max(moment);
        }
        self.last
    }
}

/// The system's clock: seconds since 1970. A moment at which it is set back, or cannot be read, is given as
/// the one before it.
#[derive(Drop)]
pub struct SystemClock<'r, R: time::Clock> {
    rt: &'r R,
    last: u64,
}

impl<'r, R: time::Clock> SystemClock<'r, R> {
    /// The system's clock.
    pub fn new(rt: &'r R) -> SystemClock<'r, R> {
        SystemClock { rt, last: 0 }
    }
}

/// The seconds since 1970.
fn seconds<R: time::Clock>(rt: &R) -> Option<u64> {
    let now = SystemTime::now(rt).ok()?;
    Some(now.duration_since(UNIX_EPOCH).ok()?.as_secs())
}

impl<R: time::Clock> Clock for SystemClock<'_, R> {
    ghost moment = { λ clock. clock.last };

    ghost coming = { λ _. None };

    fn now(&mut self) -> u64 {
        if let Some(moment) = seconds(self.rt) {
            self.last = self.last.max(moment);
        }
        self.last
    }
}
