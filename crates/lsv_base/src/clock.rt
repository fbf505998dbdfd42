ghost use Rattle.std.specs.Prelude.{IsSome};
ghost use Rattle.lsv_base.specs.Time.{nanos_of};

use crate::TimeSpec;

/// What tells the time.
pub trait Clock {
    /// The time since 1970 began, in UTC. It is always valid.
    fn now(&mut self) -> TimeSpec
        ensures { IsSome (nanos_of result) };
}
