ghost use Rattle.std.specs.Prelude.{◌≡◌, ◌+◌, ◌^◌, ◌<◌, Some, SomeIff};
ghost use Rattle.lsv_base.specs.Time.{nanos_of, time_of};

use crate::TimeSpec;
use std::marker::Model;

/// A point of a log: nanoseconds since its start, below 2^63. Contracts see the number.
#[derive(Clone, Copy, Debug, PartialEq, Eq, PartialOrd, Ord)]
pub struct Point {
    nanos: u64,
}

impl Model for Point {
    ghost use Rattle.std.specs.Prelude.{ℕ, ◌^◌, ◌<◌};

    ghost Value = { ℕ };

    ghost view = { λ p. p.nanos };

    ghost invariant = { λ p. p.nanos < 2 ^ 63 };

    ghost inverse = { λ n. record { nanos = n } };
}

impl Point {
    pub fn new(nanos: u64) -> Option<Self>
        ensures { SomeIff result (nanos < 2 ^ 63) nanos }
    {
        if nanos < 1 << 63 {
            Some(Point { nanos })
        } else {
            None
        }
    }

    /// Its nanoseconds.
    pub fn nanos(self) -> u64
        ensures value { result ≡ self }
        ensures small { result < 2 ^ 63 }
    {
        self.nanos
    }

    /// The valid time of this value.
    pub fn spec(self) -> TimeSpec
        ensures value { nanos_of result ≡ Some self }
        ensures parts { result ≡ time_of self }
    {
        TimeSpec {
            sec: (self.nanos / 1_000_000_000) as i64,
            nsec: (self.nanos % 1_000_000_000) as i32,
        }
    }

    /// The point this many nanoseconds later, where there is one.
    pub fn plus(self, nanos: u64) -> Option<Self>
        ensures { SomeIff result (self + nanos < 2 ^ 63) (self + nanos) }
    {
        Point::new(self.nanos.checked_add(nanos)?)
    }
}
