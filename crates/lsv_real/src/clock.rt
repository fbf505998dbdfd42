// The system's clock.
ghost use Rattle.std.specs.Prelude.{IsSome};
ghost use Rattle.lsv_base.specs.Time.{nanos_of};

use lsv_base::{Clock, TimeSpec};
use std::time::SystemTime;

/// The system's clock. One that stands before 1970, or can't be read, tells 0.
#[derive(Drop)]
pub struct WallClock {
    rt: HostRuntime,
}

impl WallClock {
    pub fn new(rt: HostRuntime) -> Self {
        WallClock { rt }
    }
}

impl Clock for WallClock {
    fn now(&mut self) -> TimeSpec {
        let zero = TimeSpec { sec: 0, nsec: 0 };
        let Ok(now) = SystemTime::now(&self.rt) else {
            return zero;
        };
        let Ok(since) = now.duration_since(SystemTime::UNIX_EPOCH) else {
            return zero;
        };
        time_of(since.as_secs(), since.subsec_nanos())
    }
}

/// The time of this many seconds and nanoseconds, or 0 where it isn't valid.
fn time_of(secs: u64, nanos: u32) -> TimeSpec
    ensures { IsSome (nanos_of result) }
{
    let zero = TimeSpec { sec: 0, nsec: 0 };
    let (Ok(sec), Ok(nsec)) = (i64::try_from(secs), i32::try_from(nanos)) else {
        return zero;
    };
    let time = TimeSpec { sec, nsec };
    match time.delay() {
        Some(_) => time,
        None => zero,
    }
}
