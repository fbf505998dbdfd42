//! The numbers of a store.
ghost use Rattle.std.specs.Prelude.{◌≡◌, ◌≤◌, ◌<◌, Some, IfOk, IfErr};
ghost use Rattle.lsv_disk.specs.declared.file.FileId.{FileId};
ghost use Rattle.lsv_disk.specs.Throughout.{OnlyReads};
ghost use Rattle.lsv_forward.specs.Numbers.{HasLaneCause, HasNumbersCause, drawn, greatest, lane_of, last_number};

use crate::NumbersFault;
use lsv_disk::Disk;
use lsv_seq::{SeqFault, last_drawn};

/// The greatest number that any lane drew, 0 if none was drawn. Lane 0's number file says how many lanes there are. It takes
/// no memory, and writes nothing.
pub fn last_number<D: Disk>(disk: &mut D) -> Result<u32, NumbersFault>
    ensures last { D.tells → IfOk result (λ n. last_number (D.view disk.old).reads ≡ Some n) }
    ensures cause { IfErr result (λ fault. HasNumbersCause D.tells (D.view disk.old) (D.view disk.new) fault) }
    ensures reads { D.tells → OnlyReads (D.view disk.old) (D.view disk.new) }
    ensures monotone { (file : FileId) → (D.view disk.old).faults file ≤ (D.view disk.new).faults file }
{
    let (_, lanes) = drawn(disk, 0)?;
    greatest(disk, lanes)
}

/// The greatest number that the first `lanes` lanes drew.
fn greatest<D: Disk>(disk: &mut D, lanes: u32) -> Result<u32, NumbersFault>
    ensures last { D.tells → IfOk result (λ n. greatest lanes (D.view disk.old).reads ≡ Some n) }
    ensures cause { IfErr result (λ fault. HasLaneCause D.tells (D.view disk.old) (D.view disk.new) fault) }
    ensures lane { IfErr result (λ fault. lane_of fault < lanes) }
    ensures reads { D.tells → OnlyReads (D.view disk.old) (D.view disk.new) }
    ensures monotone { (file : FileId) → (D.view disk.old).faults file ≤ (D.view disk.new).faults file }
{
    let mut most = 0;
    for lane in 0..lanes {
        let (last, _) = drawn(disk, lane)?;
        most = most.max(last);
    }
    Ok(most)
}

/// The last number that a lane drew, and the number of lanes; 0 and 0 if its number file has no entry.
fn drawn<D: Disk>(disk: &mut D, lane: u32) -> Result<(u32, u32), NumbersFault>
    ensures found { D.tells → IfOk result (λ d. drawn lane (D.view disk.old).reads ≡ Some d) }
    ensures cause { IfErr result (λ fault. HasLaneCause D.tells (D.view disk.old) (D.view disk.new) fault) }
    ensures lane { IfErr result (λ fault. lane_of fault ≡ lane) }
    ensures reads { D.tells → OnlyReads (D.view disk.old) (D.view disk.new) }
    ensures monotone { (file : FileId) → (D.view disk.old).faults file ≤ (D.view disk.new).faults file }
{
    match last_drawn(disk, lane) {
        Ok(Some(drawn)) => Ok(drawn),
        Ok(None) => Ok((0, 0)),
        Err(SeqFault::Disk) => Err(NumbersFault::Disk(lane)),
        Err(_) => Err(NumbersFault::Damaged(lane)),
    }
}
