ghost use Rattle.std.specs.Prelude.{◌≡◌, ◌≤◌, ℕ, min};
ghost use Rattle.rd_base.specs.Clock.{latest};

/// The last moment that a clock tells.
pub const LATEST: u64 = 9223372036854775807;

/// What tells the time.
pub trait Clock {
    /// Its last answer.
    ghost last: { Self → ℕ };

    /// The moment, in nanoseconds since 1970-01-01T00:00:00Z.
    fn now(&mut self) -> u64
        ensures value { result ≡ last self.new }
        ensures bound { result ≤ latest };
}

/// A clock that stands still at this moment, or at the last one where this is later.
#[derive(Clone, Copy, Debug, PartialEq, Eq)]
pub struct FixedClock(pub u64);

impl Clock for FixedClock {
    ghost last = { λ c. min c.0 latest };

    fn now(&mut self) -> u64
        ensures value { result ≡ min self.new.0 latest }
        ensures bound { result ≤ latest }
        ensures stays { self.new ≡ self.old }
    {
        self.0.min(LATEST)
    }
}
