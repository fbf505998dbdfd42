//! One log of a load: its records are added to sums, one by one.

ghost use Rattle.std.specs.Prelude.{◌≡◌, ◌++◌, ◌∷◌, [], List, Some, IfErr, OnOk, IsErrOf};
ghost use Rattle.lsv_disk.specs.Throughout.{OnlyReads};
ghost use Rattle.lsv_disk.specs.View.{HasOwnCause};
ghost use Rattle.lsv_gen.specs.Summary.{totals_of};
ghost use Rattle.lsv_iolog.specs.Faults.{IsNextFault};
ghost use Rattle.lsv_iolog.specs.Reading.{IsBehind};
ghost use Rattle.lsv_iolog.specs.Recovered.{IsOfLog, Replays};
ghost use Rattle.lsv_play.specs.Playing.{IsOpened};
ghost use Rattle.lsv_record.specs.Points.{Stored};
ghost use Rattle.lsv_load.specs.Faults.{IsFitting};
ghost use Rattle.lsv_load.specs.InnerSums.{AddsAll, IsMisfitFault, IsUnread};

use lsv_base::LogNo;
use lsv_bundle::Body;
use lsv_disk::{Disk, Part};
use lsv_gen::Totals;
use lsv_iolog::{LogView, ViewFault};
use std::alloc::Global;

/// The kind of the last entry of a complete log.
const COMPLETE: u8 = 3;

/// The most bytes of timing that a log has.
const MOST_TIMING: u64 = 1 << 40;

/// The entry tells of the bytes of an exit exactly where the log is complete, and of no more timing than a log has.
fn check_entry(body: &Body) -> Result<(), ViewFault>
    ensures ok { OnOk result (IsFitting body.now) }
    ensures fault { IfErr result (IsMisfitFault body.now) }
{
    let [_, exit, timing, _, _, _, _, _] = body.lens;
    if (body.kind == COMPLETE) != (exit > 0) {
        return Err(ViewFault::Damaged(Part::Exit));
    }
    if timing > MOST_TIMING {
        return Err(ViewFault::Damaged(Part::Timing));
    }
    Ok(())
}

/// Adds the records of a log of which none was given yet.
fn add_records<D: Disk>(
    disk: &mut D,
    log: &mut LogView,
    totals: &mut Totals,
) -> Result<(), ViewFault>
    ensures added { D.tells → IsBehind log.old [] (D.view disk.old) → OnOk result (AddsAll log.old.number log.old.body (D.view disk.old).reads totals.old totals.new) }
    ensures body { log.new.body ≡ log.old.body }
    ensures unread { D.tells → IsFitting log.old.body → IsBehind log.old [] (D.view disk.old) → IsOpened log.old.number log.old.body log.old.head (D.view disk.old).reads → IfErr result (IsUnread (D.view disk.old).reads log.old.number) }
    ensures fault { IfErr result IsNextFault }
    ensures reads { D.tells → OnlyReads (D.view disk.old) (D.view disk.new) }
    ensures cause { HasOwnCause (IsOfLog log.old.number) (IsErrOf result ViewFault.Disk) (D.view disk.old) (D.view disk.new) }
{
    'records: for _ in 0..u64::MAX {
        let Some(record) = log.next(disk)? else {
            return Ok(());
        };
        totals.add_record(&record);
    }
    // Never reached: a log has fewer than 2^40 records.
    Err(ViewFault::NoMem)
}

/// Adds the log of this number, as its files read.
pub(crate) fn add_log<D: Disk>(
    alloc: Global,
    disk: &mut D,
    number: LogNo,
    totals: &mut Totals,
) -> Result<(), ViewFault>
    ensures added { D.tells → OnOk result ((logs : List Stored) → totals.old ≡ totals_of logs → (log : Stored) × Replays (D.view disk.old).reads number (Some log) × (totals.new ≡ totals_of (logs ++ log ∷ []))) }
    ensures unread { D.tells → IfErr result (IsUnread (D.view disk.old).reads number) }
    ensures reads { D.tells → OnlyReads (D.view disk.old) (D.view disk.new) }
    ensures cause { HasOwnCause (IsOfLog number) (IsErrOf result ViewFault.Disk) (D.view disk.old) (D.view disk.new) }
{
    let mut log = LogView::open(alloc, disk, number)?;
    let body = log.body();
    check_entry(&body)?;
    add_records(disk, &mut log, totals)?;
    totals.add_log(body.kind == COMPLETE);
    Ok(())
}
