ghost use Rattle.std.specs.Prelude.{◌≡◌, max, unwrap_or};
ghost use Rattle.lsv_base.specs.Time.{time_of};
ghost use Rattle.lsv_machine.specs.Turns.{raised};
ghost use Rattle.lsv_record.specs.Points.{first};

use lsv_base::TimeSpec;
use lsv_record::Record;

/// Nanoseconds a second.
const NANOS_PER_SEC: u64 = 1_000_000_000;

/// How many records there are through the first that ends at this point, if one ends there.
pub fn first(records: &[Record], point: u64) -> Option<usize>
    ensures { result ≡ first records.now point }
{
    let mut left = point;
    for (before, r) in records.iter().enumerate() {
        let delay = r.delay();
        if delay == left {
            return Some(before + 1);
        }
        if left < delay {
            return None;
        }
        left -= delay;
    }
    None
}

/// The larger of what is promised and the records through the first that ends at this point.
pub fn raised(promised: usize, records: &[Record], point: u64) -> usize
    ensures { result ≡ raised promised records.now point }
{
    promised.max(first(records, point).unwrap_or(promised))
}

/// This many nanoseconds as a time.
pub fn time_of(nanos: u64) -> TimeSpec
    ensures { result ≡ time_of nanos }
{
    TimeSpec {
        sec: (nanos / NANOS_PER_SEC) as i64,
        nsec: (nanos % NANOS_PER_SEC) as i32,
    }
}
