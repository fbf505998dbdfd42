//! Records are passed over.
ghost use Rattle.std.specs.Prelude.{◌≡◌, [], IfOk, IfErr, IsErrOf};
ghost use Rattle.lsv_disk.specs.Throughout.{OnlyReads};
ghost use Rattle.lsv_disk.specs.View.{HasOwnCause};
ghost use Rattle.lsv_iolog.specs.Faults.{IsNextFault};
ghost use Rattle.lsv_disk.specs.declared.file.Part.{Part};
ghost use Rattle.lsv_iolog.specs.Reading.{IsBehind, committed_laid};
ghost use Rattle.lsv_iolog.specs.Recovered.{IsOfLog};
ghost use Rattle.lsv_iolog.specs.declared.fault.ViewFault.{ViewFault};
ghost use Rattle.lsv_transcript.specs.Reading.{HasFaultAfter, HasPassed};

use lsv_disk::Disk;
use lsv_iolog::{LogView, ViewFault};

/// Reads the records of a log, of which none was given yet, through the first that ends at this point, in nanoseconds.
/// True exactly if one ends there. The faults are those of `LogView::next`. It holds one record at a time.
pub fn pass_over<D: Disk>(disk: &mut D, log: &mut LogView, point: u64) -> Result<bool, ViewFault>
    ensures passed { D.tells → IfOk result (λ found. IsBehind log.old [] (D.view disk.old) → HasPassed found log.new (D.view disk.new) point) }
    ensures damaged { D.tells → (part : Part) → IsErrOf result (ViewFault.Damaged part) → IsBehind log.old [] (D.view disk.old)
        → HasFaultAfter (committed_laid log.old.number log.old.body (D.view disk.old)) log.old.body part }
    ensures same { (log.new.number ≡ log.old.number) × (log.new.head ≡ log.old.head) × (log.new.body ≡ log.old.body) }
    ensures reads { D.tells → OnlyReads (D.view disk.old) (D.view disk.new) }
    ensures fault { IfErr result IsNextFault }
    ensures cause { HasOwnCause (IsOfLog log.old.number) (IsErrOf result ViewFault.Disk) (D.view disk.old) (D.view disk.new) }
{
    let mut rest = point;
    'records: for _ in 0..u64::MAX {
        let Some(record) = log.next(disk)? else {
            return Ok(false);
        };
        let delay = record.delay();
        if delay == rest {
            return Ok(true);
        }
        if rest < delay {
            return Ok(false);
        }
        rest -= delay;
    }
    // Never reached: a log has fewer than 2^40 records.
    Err(ViewFault::NoMem)
}
