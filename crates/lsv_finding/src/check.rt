//! A log is checked, also while a server writes it.
ghost use Rattle.std.specs.Prelude.{◌≡◌, Err, IfErr, IfOk, IsErr};
ghost use Rattle.lsv_disk.specs.Throughout.{OnlyReads};
ghost use Rattle.lsv_disk.specs.View.{HasOwnCause};
ghost use Rattle.lsv_iolog.specs.Recovered.{IsOfLog};
ghost use Rattle.lsv_finding.specs.Checked.{IsFoundAs};
ghost use Rattle.lsv_finding.specs.declared.checked.CheckFault.TheVariants as faults;

use crate::look::{COMPLETE, look};
use crate::{CheckFault, Checked};
use lsv_base::LogNo;
use lsv_bundle::Body;
use lsv_disk::{Disk, FileId, Owner, Part};
use lsv_journal::Journal;
use std::alloc::Global;

/// How often a log that changes is looked at anew.
const LOOKS: u32 = 20;

/// What is found of a log, as its files read. It holds one record at a time. A server may write the log meanwhile, or
/// somebody remove it: unless a look is sure, the log is looked at again, until its entry is the same before and after a
/// look, at most 20 times. `Disk` comes only if a device call on a file of this log failed.
pub fn check_log<D: Disk>(alloc: Global, disk: &mut D, number: LogNo) -> Result<Checked, CheckFault>
    ensures found { D.tells → IfOk result (IsFoundAs (D.view disk.old).reads number) }
    ensures reads { D.tells → OnlyReads (D.view disk.old) (D.view disk.new) }
    ensures cause { HasOwnCause (IsOfLog number) (result ≡ Err faults.Disk) (D.view disk.old) (D.view disk.new) }
{
    let found = look(alloc, disk, number)?;
    if is_sure(disk, number, &found)? {
        return Ok(found);
    }
    look_again(alloc, disk, number)
}

/// Looks at a log of which a look wasn't sure.
fn look_again<D: Disk>(alloc: Global, disk: &mut D, number: LogNo) -> Result<Checked, CheckFault>
    ensures found { D.tells → IfOk result (IsFoundAs (D.view disk.old).reads number) }
    ensures reads { D.tells → OnlyReads (D.view disk.old) (D.view disk.new) }
    ensures cause { HasOwnCause (IsOfLog number) (result ≡ Err faults.Disk) (D.view disk.old) (D.view disk.new) }
{
    'looks: for _ in 0..LOOKS {
        let before = last_entry(disk, number)?;
        let found = look(alloc, disk, number)?;
        let after = last_entry(disk, number)?;
        if after == before || is_sure(disk, number, &found)? {
            return Ok(found);
        }
    }
    look(alloc, disk, number)
}

/// Whether what was found needs no further look: there is no log, or a complete one whose exit reads, or an incomplete one
/// that wasn't cut meanwhile.
fn is_sure<D: Disk>(disk: &mut D, number: LogNo, found: &Checked) -> Result<bool, CheckFault>
    ensures reads { D.tells → OnlyReads (D.view disk.old) (D.view disk.new) }
    ensures fault { IfErr result (λ e. e ≡ faults.Disk) }
    ensures cause { HasOwnCause (IsOfLog number) (IsErr result) (D.view disk.old) (D.view disk.new) }
{
    match found {
        Checked::Nowhere => Ok(true),
        Checked::Unlisted(_) | Checked::Closed(_) | Checked::Broken { .. } => Ok(false),
        Checked::Sound { body, exit, .. } => {
            if body.kind == COMPLETE {
                return Ok(exit.is_some());
            }
            Ok(is_uncut(last_entry(disk, number)?, body.extra))
        }
    }
}

/// Whether an entry has this count of cuts.
fn is_uncut(entry: Option<[u8; 89]>, cuts: u64) -> bool {
    match entry {
        Some(bytes) => Body::decode(bytes).extra == cuts,
        None => false,
    }
}

/// The bytes of the last entry of a log's journal, if it has one.
fn last_entry<D: Disk>(disk: &mut D, number: LogNo) -> Result<Option<[u8; 89]>, CheckFault>
    ensures reads { D.tells → OnlyReads (D.view disk.old) (D.view disk.new) }
    ensures fault { IfErr result (λ e. e ≡ faults.Disk) }
    ensures cause { HasOwnCause (IsOfLog number) (IsErr result) (D.view disk.old) (D.view disk.new) }
{
    match Journal::<89>::view(disk, FileId::new(Owner::Log(number.get()), Part::Slots)) {
        Ok(entry) => Ok(entry),
        Err(_) => Err(CheckFault::Disk),
    }
}
