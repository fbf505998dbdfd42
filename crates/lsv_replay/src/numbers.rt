//! The numbers that a listing goes through.
ghost use Rattle.std.specs.Prelude.{◌≡◌, ◌≢◌, Some, None, Err, IfOk, IfErr};
ghost use Rattle.lsv_disk.specs.Throughout.{OnlyReads};
ghost use Rattle.lsv_disk.specs.View.{HasOwnCause};
ghost use Rattle.lsv_replay.specs.Faults.{IsNumbersFault};
ghost use Rattle.lsv_replay.specs.Numbers.{IsOfNumbers, drawn, greatest, last_number};
ghost use Rattle.lsv_replay.specs.declared.fault.ListFault.TheVariants as faults;

use crate::ListFault;
use lsv_disk::Disk;
use lsv_seq::last_drawn;

/// The greatest number that any lane drew; lane 0's number file says how many lanes there are. `Damaged` comes if a
/// number file is damaged, `Disk` if a device call on one failed.
pub fn last_number<D: Disk>(disk: &mut D) -> Result<u32, ListFault>
    ensures last { D.tells → IfOk result (λ n. last_number (D.view disk.old).reads ≡ Some n) }
    ensures refused { D.tells → IfErr result (λ e. e ≢ faults.Disk → last_number (D.view disk.old).reads ≡ None) }
    ensures fault { IfErr result IsNumbersFault }
    ensures reads { D.tells → OnlyReads (D.view disk.old) (D.view disk.new) }
    ensures cause { HasOwnCause IsOfNumbers (result ≡ Err faults.Disk) (D.view disk.old) (D.view disk.new) }
{
    let (_, lanes) = drawn(disk, 0)?;
    greatest(disk, lanes)
}

/// The greatest number that the first `lanes` lanes drew.
fn greatest<D: Disk>(disk: &mut D, lanes: u32) -> Result<u32, ListFault>
    ensures last { D.tells → IfOk result (λ n. greatest lanes (D.view disk.old).reads ≡ Some n) }
    ensures refused { D.tells → IfErr result (λ e. e ≢ faults.Disk → greatest lanes (D.view disk.old).reads ≡ None) }
    ensures fault { IfErr result IsNumbersFault }
    ensures reads { D.tells → OnlyReads (D.view disk.old) (D.view disk.new) }
    ensures cause { HasOwnCause IsOfNumbers (result ≡ Err faults.Disk) (D.view disk.old) (D.view disk.new) }
{
    let mut most = 0;
    for lane in 0..lanes {
        let (last, _) = drawn(disk, lane)?;
        most = most.max(last);
    }
    Ok(most)
}

/// The last number that a lane drew, and the count of lanes. Both are 0 if its number file has no entry.
fn drawn<D: Disk>(disk: &mut D, lane: u32) -> Result<(u32, u32), ListFault>
    ensures found { D.tells → IfOk result (λ d. drawn lane (D.view disk.old).reads ≡ Some d) }
    ensures refused { D.tells → IfErr result (λ e. e ≢ faults.Disk → drawn lane (D.view disk.old).reads ≡ None) }
    ensures fault { IfErr result IsNumbersFault }
    ensures reads { D.tells → OnlyReads (D.view disk.old) (D.view disk.new) }
    ensures cause { HasOwnCause IsOfNumbers (result ≡ Err faults.Disk) (D.view disk.old) (D.view disk.new) }
{
    match last_drawn(disk, lane)? {
        Some(drawn) => Ok(drawn),
        None => Ok((0, 0)),
    }
}
