ghost use Rattle.std.specs.Prelude.{◌≡◌, ◌<◌, Some, length, All, IsSome, slice_get};
ghost use Rattle.lsv_base.specs.Moments.{IsValid, moments_left};
ghost use Rattle.lsv_base.specs.Time.{nanos_of};

use crate::{Clock, List, TimeSpec};
use std::marker::Model;

/// A clock in memory, which tells its moments in order and then the last one for good. Contracts see the moments
/// that it has still to tell.
#[derive(Debug, Drop)]
pub struct MemClock {
    moments: List<TimeSpec>,
    place: usize,
}

impl Model for MemClock {
    ghost use Rattle.std.specs.Prelude.{◌<◌, List, length, drop, All};
    ghost use Rattle.lsv_base.specs.declared.time.TimeSpec.{TimeSpec};
    ghost use Rattle.lsv_base.specs.Moments.{IsValid};

    ghost Value = { List TimeSpec };

    ghost view = { λ c. drop c.place c.moments };

    ghost invariant = { λ c. (c.place < length c.moments) × All IsValid c.moments };
}

impl MemClock {
    /// A clock that tells these moments, all of them valid.
    pub fn new(moments: List<TimeSpec>) -> Self
        requires some { 0 < length moments }
        requires valid { All IsValid moments }
        ensures { result ≡ moments }
    {
        MemClock { moments, place: 0 }
    }
}

impl Clock for MemClock {
    /// Tells the first of the moments that are left.
    fn now(&mut self) -> TimeSpec
        ensures valid { IsSome (nanos_of result) }
        ensures told { slice_get self.old 0 ≡ Some result }
        ensures left { self.new ≡ moments_left self.old }
    {
        let moments = self.moments.as_slice();
        let moment = moments[self.place];
        if self.place + 1 < moments.len() {
            self.place += 1;
        }
        moment
    }
}
