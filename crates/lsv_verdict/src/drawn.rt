//! Whether a number was drawn.
ghost use Rattle.std.specs.Prelude.{◌≡◌, IfOk, IsErr};
ghost use Rattle.lsv_disk.specs.Throughout.{OnlyReads};
ghost use Rattle.lsv_disk.specs.View.{HasOwnCause};
ghost use Rattle.lsv_seq.specs.Drawn.{IsNumbersFile};
ghost use Rattle.lsv_verdict.specs.Verdicts.{IsOfNumbers, is_drawn, lanes_of, last_of};

use lsv_base::LogNo;
use lsv_disk::{Disk, DiskFault};
use lsv_seq::{SeqFault, last_drawn};

/// Whether a number is at most the last one of its lane.
pub(crate) fn is_drawn<D: Disk>(disk: &mut D, number: LogNo) -> Result<bool, DiskFault>
    ensures drawn { D.tells → IfOk result (λ b. b ≡ is_drawn (D.view disk.old).reads number) }
    ensures reads { D.tells → OnlyReads (D.view disk.old) (D.view disk.new) }
    ensures cause { HasOwnCause IsOfNumbers (IsErr result) (D.view disk.old) (D.view disk.new) }
{
    let (_, lanes) = last_of(disk, 0)?;
    if lanes == 0 {
        return Ok(false);
    }
    let (last, _) = last_of(disk, (number.get() - 1) % lanes)?;
    Ok(number.get() <= last)
}

/// How many lanes the store has, by lane 0's number file: at least one, also if that file has no entry or is damaged.
pub fn lanes_of<D: Disk>(disk: &mut D) -> Result<u32, DiskFault>
    ensures lanes { D.tells → IfOk result (λ n. n ≡ lanes_of (D.view disk.old).reads) }
    ensures reads { D.tells → OnlyReads (D.view disk.old) (D.view disk.new) }
    ensures cause { HasOwnCause (IsNumbersFile 0) (IsErr result) (D.view disk.old) (D.view disk.new) }
{
    let (_, lanes) = last_of(disk, 0)?;
    Ok(lanes.max(1))
}

/// The last number that a lane drew, and the count of lanes. Both are 0 if its number file has no entry or is damaged.
fn last_of<D: Disk>(disk: &mut D, lane: u32) -> Result<(u32, u32), DiskFault>
    ensures last { D.tells → IfOk result (λ d. d ≡ last_of (D.view disk.old).reads lane) }
    ensures reads { D.tells → OnlyReads (D.view disk.old) (D.view disk.new) }
    ensures cause { HasOwnCause (IsNumbersFile lane) (IsErr result) (D.view disk.old) (D.view disk.new) }
{
    match last_drawn(disk, lane) {
        Ok(Some(drawn)) => Ok(drawn),
        Ok(None) => Ok((0, 0)),
        Err(SeqFault::Disk) => Err(DiskFault),
        Err(SeqFault::Damaged | SeqFault::LanesDiffer { .. }) => Ok((0, 0)),
    }
}
