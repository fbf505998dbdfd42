ghost use Rattle.std.specs.Prelude.{◌≡◌, ◌≢◌, ◌<◌, Ok, Err, IfOk, IfErr};
ghost use Rattle.lsv_disk.specs.View.{HasOwnCause};
ghost use Rattle.lsv_disk.specs.Throughout.{OnlyReads};
ghost use Rattle.lsv_seq.specs.declared.fault.SeqFault.TheVariants as faults;
ghost use Rattle.lsv_seq.specs.Drawn.{IsNumbersFile, entry_at, viewed, viewed_entry};

use crate::SeqFault;
use crate::entry::Entry;
use crate::numbers::numbers_file;
use lsv_disk::Disk;
use lsv_journal::Journal;

/// The last number that was drawn of a lane, 0 where none was, and how many lanes there are, as the files read; None
/// exactly where there is no entry. It takes no memory, writes nothing and syncs nothing. `Damaged` exactly where the last
/// entry isn't one of this lane, of more lanes than its number and of at most eight; `Disk` only where a device call on a
/// file of the numbers failed; `LanesDiffer` never.
pub fn last_drawn<D: Disk>(disk: &mut D, lane: u32) -> Result<Option<(u32, u32)>, SeqFault>
    ensures seen { D.tells → IfOk result (λ o. viewed lane (entry_at lane (D.view disk.old).reads) ≡ Ok o) }
    ensures refused { D.tells → IfErr result (λ e. e ≢ faults.Disk → viewed lane (entry_at lane (D.view disk.old).reads) ≡ Err e) }
    ensures same_lanes { (kept : _) (asked : _) → result ≢ Err (SeqFault.LanesDiffer kept asked) }
    ensures reads { D.tells → OnlyReads (D.view disk.old) (D.view disk.new) }
    ensures cause { HasOwnCause (IsNumbersFile lane) (result ≡ Err faults.Disk) (D.view disk.old) (D.view disk.new) }
{
    match Journal::<12>::view(disk, numbers_file(lane))? {
        None => Ok(None),
        Some(body) => viewed_entry(lane, Entry::decode(body)),
    }
}

fn viewed_entry(lane: u32, entry: Entry) -> Result<Option<(u32, u32)>, SeqFault>
    ensures { result ≡ viewed_entry lane entry }
{
    if entry.lane == lane && entry.is_entry() {
        Ok(Some((entry.last, entry.lanes)))
    } else {
        Err(SeqFault::Damaged)
    }
}
