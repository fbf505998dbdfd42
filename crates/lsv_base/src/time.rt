ghost use Rattle.std.specs.Prelude.{◌≡◌, ℕ, ◌^◌, ◌<◌, Some};
ghost use Rattle.lsv_base.specs.Time.{nanos_of, time_of};
ghost use Rattle.lsv_base.specs.declared.time.TimeSpec.{TimeSpec};

use crate::Point;

const NANOS_PER_SEC: u64 = 1_000_000_000;

/// A time of sudo_logsrv.proto(5): seconds and nanoseconds. It may be invalid.
#[derive(Clone, Copy, Debug, PartialEq, Eq)]
pub struct TimeSpec {
    pub sec: i64,
    pub nsec: i32,
}

impl TimeSpec {
    /// Its value in nanoseconds, where it is valid: neither part is negative, `nsec` is below 10^9, and the
    /// value is below 2^63.
    pub fn delay(self) -> Option<u64>
        ensures { result ≡ nanos_of self }
    {
        let sec = u64::try_from(self.sec).ok()?;
        let nsec = u64::try_from(self.nsec).ok()?;
        if nsec >= NANOS_PER_SEC {
            return None;
        }
        let nanos = sec.checked_mul(NANOS_PER_SEC)?.checked_add(nsec)?;
        if nanos < 1 << 63 { Some(nanos) } else { None }
    }

    /// The same as a point.
    pub fn point(self) -> Option<Point>
        ensures { result ≡ nanos_of self }
    {
        Point::new(self.delay()?)
    }
}

/// A number of nanoseconds below 2^63 is one time's value, and that of no other time. It does nothing when it runs.
pub fn nanoseconds_are_one_time()
    ensures value { (n : ℕ) → n < 2 ^ 63 → nanos_of (time_of n) ≡ Some n }
    ensures time { (time : TimeSpec) (n : ℕ) → nanos_of time ≡ Some n → time_of n ≡ time }
    ensures below { (time : TimeSpec) (n : ℕ) → nanos_of time ≡ Some n → n < 2 ^ 63 }
{}
