//! Logs that are opened and cut, to be gone on with.

ghost use Rattle.std.specs.Prelude.{◌≡◌, ◌⊎◌, ℕ, List, [], Some, None, OnOk, IfOk, IfErr, IsErrOf};
ghost use Rattle.lsv_disk.specs.Throughout.{OnlyReads};
ghost use Rattle.lsv_disk.specs.View.{HasOwnCause};
ghost use Rattle.lsv_disk.specs.declared.file.Part.{Part};
ghost use Rattle.lsv_iolog.specs.Faults.{IsOpenFault};
ghost use Rattle.lsv_iolog.specs.Reading.{IsBehind};
ghost use Rattle.lsv_iolog.specs.Recovered.{IsOfLog, Replays};
ghost use Rattle.lsv_iolog.specs.declared.fault.LogFault.{LogFault};
ghost use Rattle.lsv_mask.specs.Masking.{seen};
ghost use Rattle.lsv_record.specs.Points.{Stored, cut, first};
ghost use Rattle.lsv_keeper.specs.Represents.{Masks};
ghost use Rattle.lsv_keeper.specs.Calls.{Resumes};
ghost use Rattle.lsv_keeper.specs.Resuming.{IsViewOf, restart_refusal};

use crate::logs::OpenLog;
use lsv_base::{Bytes, List, LogNo, Point};
use lsv_disk::Disk;
use lsv_iolog::{IoLog, LogFault, LogView};
use lsv_mask::{Mask, Prompt, Search};
use lsv_request::Refusal;
use std::alloc::Global;

/// Why a log isn't gone on with, as the connection is answered.
pub(crate) fn restart_refusal(fault: LogFault) -> Refusal
    ensures { result ≡ restart_refusal fault }
{
    match fault {
        LogFault::Absent => Refusal::NoSuchLog,
        LogFault::Damaged(_) => Refusal::LogDamaged,
        LogFault::Complete => Refusal::LogComplete,
        LogFault::NoPoint(_) => Refusal::NoSuchResumePoint,
        LogFault::Full(_) | LogFault::TooLong(_) => Refusal::LogFull,
        LogFault::Disk | LogFault::Broken => Refusal::DeviceFault,
        LogFault::NoMem => Refusal::OutOfMemory,
    }
}

/// A mask takes in the records of a log through the first that ends at a point. No such record, or the log's fault.
fn see_through<D: Disk, H: Search>(
    disk: &mut D,
    prompt: &Prompt<H>,
    view: &mut LogView,
    mask: &mut Mask,
    point: Point,
) -> Result<(), LogFault>
    ensures seen { D.tells → OnOk result ((texts : List (List ℕ)) (stored : Stored) → mask.old ≡ seen texts [] → IsViewOf view.old stored (D.view disk.old) → IsBehind view.old [] (D.view disk.old)
        → mask.new ≡ seen texts (cut stored.records point)) }
    ensures none { D.tells → IsErrOf result (LogFault.NoPoint point) → (stored : Stored) → IsViewOf view.old stored (D.view disk.old) → IsBehind view.old [] (D.view disk.old) → first stored.records point ≡ None }
    ensures damaged { D.tells → (part : Part) → IsErrOf result (LogFault.Damaged part) → (stored : Stored) → IsViewOf view.old stored (D.view disk.old) → IsBehind view.old [] (D.view disk.old) → ⊥ }
    ensures reads { D.tells → OnlyReads (D.view disk.old) (D.view disk.new) }
    ensures fault { IfErr result (λ e. (e ≡ LogFault.NoPoint point) ⊎ IsOpenFault e) }
    ensures present { IsErrOf result LogFault.Absent → ⊥ }
    ensures cause { HasOwnCause (IsOfLog view.old.number) (IsErrOf result LogFault.Disk) (D.view disk.old) (D.view disk.new) }
{
    let mut left = point.nanos();
    for _ in 0..view.body().count {
        let Some(r) = view.next(disk)? else {
            return Err(LogFault::NoPoint(point));
        };
        mask.see(prompt, &r);
        let delay = r.delay();
        if delay == left {
            return Ok(());
        }
        if left < delay {
            return Err(LogFault::NoPoint(point));
        }
        left -= delay;
    }
    Err(LogFault::NoPoint(point))
}

/// The mask after the records that a log is to keep. Without texts it covers nothing, and no record is read.
fn mask_behind<D: Disk, H: Search>(
    alloc: Global,
    disk: &mut D,
    prompt: &Prompt<H>,
    texts: &List<Bytes>,
    number: LogNo,
    point: Point,
) -> Result<Mask, LogFault>
    ensures masks { D.tells → IfOk result (λ mask. (stored : Stored) → Replays (D.view disk.old).reads number (Some stored) → Masks texts.now mask (cut stored.records point)) }
    ensures none { D.tells → IsErrOf result (LogFault.NoPoint point) → (stored : Stored) → Replays (D.view disk.old).reads number (Some stored) → first stored.records point ≡ None }
    ensures damaged { D.tells → (part : Part) → IsErrOf result (LogFault.Damaged part) → (stored : Stored) → Replays (D.view disk.old).reads number (Some stored) → ⊥ }
    ensures absent { D.tells → IsErrOf result LogFault.Absent → (stored : Stored) → Replays (D.view disk.old).reads number (Some stored) → ⊥ }
    ensures reads { D.tells → OnlyReads (D.view disk.old) (D.view disk.new) }
    ensures fault { IfErr result (λ e. (e ≡ LogFault.NoPoint point) ⊎ IsOpenFault e) }
    ensures cause { HasOwnCause (IsOfLog number) (IsErrOf result LogFault.Disk) (D.view disk.old) (D.view disk.new) }
{
    let Ok(mut mask) = Mask::new(alloc, texts) else {
        return Err(LogFault::NoMem);
    };
    if texts.as_slice().is_empty() {
        return Ok(mask);
    }
    let mut view = LogView::open(alloc, disk, number)?;
    see_through(disk, prompt, &mut view, &mut mask, point)?;
    Ok(mask)
}

/// Opens a log that isn't complete, and cuts it at a point.
pub(crate) fn resume_log<D: Disk, H: Search>(
    alloc: Global,
    disk: &mut D,
    prompt: &Prompt<H>,
    texts: &List<Bytes>,
    number: LogNo,
    point: Point,
) -> Result<OpenLog, LogFault>
    ensures { Resumes D.tells number point texts.now result (D.view disk.old) (D.view disk.new) }
{
    let mut log = IoLog::open(alloc, disk, number)?;
    if log.is_complete() {
        return Err(LogFault::Complete);
    }
    match mask_behind(alloc, disk, prompt, texts, number, point) {
        Ok(mask) => {
            log.cut_at(disk, point)?;
            Ok(OpenLog { log, mask })
        }
        Err(fault) => Err(fault),
    }
}
