//! All records of a log are read.
ghost use Rattle.std.specs.Prelude.{◌≡◌, [], Err, IfOk};
ghost use Rattle.lsv_disk.specs.Throughout.{OnlyReads};
ghost use Rattle.lsv_disk.specs.View.{HasOwnCause};
ghost use Rattle.lsv_iolog.specs.Reading.{IsBehind};
ghost use Rattle.lsv_iolog.specs.Recovered.{IsOfLog};
ghost use Rattle.lsv_play.specs.Playing.{laid_at};
ghost use Rattle.lsv_iolog.specs.Faults.{IsNextFault};
ghost use Rattle.lsv_finding.specs.Checked.{RunsTo, stopped};
ghost use Rattle.lsv_finding.specs.declared.checked.CheckFault.TheVariants as faults;

use crate::CheckFault;
use lsv_disk::{Disk, Part};
use lsv_iolog::{LogView, ViewFault};

/// What the records of a log come to.
#[derive(Clone, Copy, Debug, PartialEq, Eq)]
pub(crate) struct Run {
    /// The count of the records.
    pub count: u64,
    /// Their elapsed time in nanoseconds.
    pub elapsed: u64,
    /// The part at fault after them, if one is.
    pub part: Option<Part>,
}

/// Reads the records of a log that was just opened, to their end or to the first fault. It holds one record at a time.
pub(crate) fn read_records<D: Disk>(disk: &mut D, log: &mut LogView) -> Result<Run, CheckFault>
    ensures runs { D.tells → IsBehind log.old [] (D.view disk.old) → IfOk result (RunsTo (laid_at log.old.number log.old.body (D.view disk.old).reads) log.old.body) }
    ensures same { (log.new.number ≡ log.old.number) × (log.new.head ≡ log.old.head) × (log.new.body ≡ log.old.body) }
    ensures reads { D.tells → OnlyReads (D.view disk.old) (D.view disk.new) }
    ensures cause { HasOwnCause (IsOfLog log.old.number) (result ≡ Err faults.Disk) (D.view disk.old) (D.view disk.new) }
{
    let mut elapsed = 0u64;
    'records: for count in 0..u64::MAX {
        match log.next(disk) {
            Ok(Some(record)) => elapsed = elapsed.saturating_add(record.delay()),
            Ok(None) => {
                return Ok(Run {
                    count,
                    elapsed,
                    part: None,
                });
            }
            Err(fault) => return stopped(count, elapsed, fault),
        }
    }
    // Never reached: a log has fewer than 2^40 records.
    Err(CheckFault::NoMem)
}

/// What records come to after which a log gave no further one.
fn stopped(count: u64, elapsed: u64, fault: ViewFault) -> Result<Run, CheckFault>
    requires { IsNextFault fault }
    ensures { result ≡ stopped count elapsed fault }
{
    match fault {
        ViewFault::Damaged(part) => Ok(Run {
            count,
            elapsed,
            part: Some(part),
        }),
        ViewFault::Disk => Err(CheckFault::Disk),
        ViewFault::NoMem => Err(CheckFault::NoMem),
        ViewFault::Absent => unreachable!(),
    }
}
