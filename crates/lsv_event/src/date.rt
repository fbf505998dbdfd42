ghost use Rattle.std.specs.Prelude.{◌≡◌, ◌++◌, IsSome, OnOk};
ghost use Rattle.lsv_base.specs.Time.{nanos_of};
ghost use Rattle.lsv_event.specs.Dates.{date_of};

use jiff::Timestamp;
use jiff::fmt::temporal::DateTimePrinter;
use lsv_base::{NoMem, TimeSpec};

/// Puts the date of a time at the end, without the fraction of its second.
pub fn put_date(out: &mut Vec<u8>, time: TimeSpec) -> Result<(), NoMem>
    requires { IsSome (nanos_of time) }
    ensures { OnOk result (out.new.items ≡ out.old.items ++ date_of time) }
{
    // Never an error: a valid time ends in 2262, and the calendar of jiff in 9999.
    let Ok(instant) = Timestamp::from_second(time.sec) else {
        return Err(NoMem);
    };
    let text = DateTimePrinter::new().timestamp_text(instant.to_plain());
    out.extend_from_slice(text.as_bytes())?;
    Ok(())
}
