ghost use Rattle.std.specs.Prelude.{◌≡◌};
ghost use Rattle.lsv_play.specs.Schedule.{wait_of};

use crate::Options;

/// The longest wait in nanoseconds.
const LONGEST: u128 = (1 << 63) - 1;

/// The nanoseconds that are waited for a delay: the delay at the options' speed, rounded down, and then at most the
/// longest wait, and at most 2^63 - 1. It is 0 if the record resumes a suspended command, unless that time is asked for.
pub fn wait_of(o: &Options, delay: u64, resumes: bool) -> u64
    ensures { result ≡ wait_of o.now delay resumes }
{
    if resumes && !o.suspended {
        return 0;
    }
    let scaled = u128::from(delay) * 1_000_000_000 / u128::from(o.speed);
    let capped = match o.longest {
        Some(longest) => scaled.min(u128::from(longest)),
        None => scaled,
    };
    capped.min(LONGEST) as u64
}
