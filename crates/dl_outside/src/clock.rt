// What tells the time.
ghost use Rattle.std.specs.Prelude.{◌≡◌, ℕ, Option, List};
ghost use Rattle.dl_outside.specs.Moments.{GivesMoment, ListClockView, moment_at, told_moments};

use std::marker::Model;
use std::time::{self, SystemTime, UNIX_EPOCH};

/// Gives moments, in seconds.
pub trait Clock {
    // The moments that it has given, oldest first, where it tells them. It may stop telling at any call.
    ghost given: { Self → Option (List ℕ) };

    /// The moment now, in seconds.
    fn now(&mut self) -> u64
        ensures gives { GivesMoment (given self.old) (given self.new) result };
}

/// A clock in memory: gives the moments of a list one by one, and then its last one again and again.
#[derive(Drop)]
pub struct ListClock {
    moments: Vec<u64>,
    calls: u64,
}

impl Model for ListClock {
    ghost use Rattle.dl_outside.specs.Moments.{ListClockView};

    ghost Value = { ListClockView };

    ghost view = { λ c. record { moments = c.moments.items; calls = c.calls } };
}

impl ListClock {
    /// A clock that has given no moment yet. Of an empty list each moment is 0.
    pub fn new(moments: Vec<u64>) -> ListClock
        ensures { result ≡ record { moments = moments.items; calls = 0 } }
    {
        ListClock { moments, calls: 0 }
    }
}

impl Clock for ListClock {
    ghost given = { told_moments };

    fn now(&mut self) -> u64
        ensures gives { GivesMoment (told_moments self.old) (told_moments self.new) result }
        ensures moment { result ≡ moment_at self.old.moments self.old.calls }
    {
        let last = self.moments.len().saturating_sub(1);
        let place = self.calls.min(last as u64) as usize;
        self.calls = self.calls.saturating_add(1);
        self.moments.get(place).copied().unwrap_or(0)
    }
}

/// The clock of the system, in seconds since 1970. It tells no moments.
#[derive(Drop)]
pub struct SystemClock<R> {
    system: R,
    last: u64,
}

impl<R: time::Clock> SystemClock<R> {
    /// The clock of this runtime.
    pub fn new(system: R) -> SystemClock<R> {
        SystemClock { system, last: 0 }
    }
}

impl<R: time::Clock> Clock for SystemClock<R> {
    ghost use Rattle.std.specs.Prelude.{None};

    ghost given = { λ _. None };

    // A clock that cannot be read gives the moment that it gave before, at first 0.
    fn now(&mut self) -> u64 {
        if let Ok(now) = SystemTime::now(&self.system) {
            if let Ok(since) = now.duration_since(UNIX_EPOCH) {
                self.last = since.as_secs();
            }
        }
        self.last
    }
}
