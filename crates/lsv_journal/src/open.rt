ghost use Rattle.std.specs.Prelude.{◌≡◌, ℕ, ◌+◌, ◌≤◌, ◌<◌, true, ◌↔◌, Option, Some, None, length, IsErr, IfOk, OnOk};
ghost use Rattle.lsv_disk.specs.declared.file.FileId.{FileId};
ghost use Rattle.lsv_disk.specs.declared.file.Part.{Part};
ghost use Rattle.lsv_disk.specs.Bytes.{bytes_of};
ghost use Rattle.lsv_disk.specs.View.{IsSynced, HasOwnCause, HasCause};
ghost use Rattle.lsv_disk.specs.Throughout.{Throughout, Unchanged, OnlyReads, CallsAtMost};
ghost use Rattle.lsv_journal.specs.Slots.{entry_of};
ghost use Rattle.lsv_journal.specs.Last.{IsOwn, IsAbsent, LastAt, JournalHolds, HasSlotsEntry, IsNoLonger, old_file};
ghost use Rattle.lsv_journal.specs.Represents.{Stands};
ghost use Rattle.lsv_journal.specs.Writing.{IsFound};

use crate::append::add_first;
use crate::create::make;
use crate::gates::last_gated;
use crate::slot::{CLOSED, OPEN, Slot};
use lsv_disk::{Disk, DiskFault, FileId, Part};

/// The slot with the last entry, and that entry's body.
#[derive(Drop)]
pub(crate) struct Found<const N: usize> {
    pub(crate) selected: Option<Slot>,
    pub(crate) last: Option<[u8; N]>,
}

/// The file of an older store, of the same owner.
pub(crate) fn old_file(f: FileId) -> FileId
    ensures { result ≡ old_file f }
{
    FileId::new(f.owner, Part::Commit)
}

/// Whether neither file is there.
pub(crate) fn is_absent<D: Disk>(disk: &mut D, f: FileId) -> Result<bool, DiskFault>
    ensures absent { D.tells → IfOk result (λ absent. (absent ≡ true) ↔ IsAbsent f (D.view disk.old).reads) }
    ensures reads { D.tells → OnlyReads (D.view disk.old) (D.view disk.new) }
    ensures cause { HasOwnCause (IsOwn f) (IsErr result) (D.view disk.old) (D.view disk.new) }
{
    let slots = disk.length(f)?;
    let old = disk.length(old_file(f))?;
    Ok(slots.is_none() && old.is_none())
}

/// Syncs both files.
pub(crate) fn sync_both<D: Disk>(disk: &mut D, f: FileId) -> Result<(), DiskFault>
    ensures slots { D.tells → OnOk result (IsSynced (D.view disk.new) f) }
    ensures old { D.tells → OnOk result (IsSynced (D.view disk.new) (old_file f)) }
    ensures unchanged { D.tells → Unchanged (D.view disk.old) (D.view disk.new) }
    ensures calls { D.tells → f.part ≡ Part.Slots → CallsAtMost 0 1 (IsOwn f) (D.view disk.old) (D.view disk.new) }
    ensures cause { HasOwnCause (IsOwn f) (IsErr result) (D.view disk.old) (D.view disk.new) }
{
    disk.sync(f)?;
    disk.sync(old_file(f))
}

/// The entry of a file of slots, as it reads.
pub(crate) fn find<D: Disk, const N: usize>(disk: &mut D, f: FileId) -> Result<Found<N>, DiskFault>
    requires size { (0 < N) × (N ≤ 120) }
    ensures last { D.tells → IfOk result (λ found. found.last ≡ entry_of N (bytes_of ((D.view disk.old).reads f))) }
    ensures stands { D.tells → IfOk result (λ found. IsFound N (bytes_of ((D.view disk.old).reads f)) found.selected found.last) }
    ensures reads { D.tells → OnlyReads (D.view disk.old) (D.view disk.new) }
    ensures cause { HasCause f (IsErr result) (D.view disk.old) (D.view disk.new) }
{
    let mut head = [CLOSED; 2];
    disk.read_at(f, 0, &mut head)?;
    let slot = Slot::of(head[1]);
    let mut body = [0; N];
    let count = disk.read_at(f, slot.begin(N), &mut body)?;
    if head[0] != OPEN || count < N {
        return Ok(Found {
            selected: None,
            last: None,
        });
    }
    Ok(Found {
        selected: Some(slot),
        last: Some(body),
    })
}

/// Makes the file of slots, which has no entry, and adds the last body of the old file, where that one has an entry.
/// Both were synced.
fn take_over<D: Disk, const N: usize>(disk: &mut D, f: FileId) -> Result<Found<N>, DiskFault>
    requires size { (0 < N) × (N ≤ 120) }
    requires slots { f.part ≡ Part.Slots }
    requires none { D.tells → entry_of N (bytes_of ((D.view disk.old).reads f)) ≡ None }
    requires synced_before { D.tells → IsSynced (D.view disk.old) f }
    requires old_synced { D.tells → IsSynced (D.view disk.old) (old_file f) }
    ensures last { D.tells → IfOk result (λ found. found.last ≡ LastAt N f (D.view disk.old).reads) }
    ensures entry { D.tells → IfOk result (λ found. entry_of N (bytes_of ((D.view disk.new).reads f)) ≡ found.last) }
    ensures stands { D.tells → IfOk result (λ found. Stands N (bytes_of ((D.view disk.new).reads f)) found.selected) }
    ensures durable { D.tells → OnOk result (IsSynced (D.view disk.new) f) }
    ensures any_moment { D.tells → Throughout (λ g. g ≡ f) (JournalHolds N f (LastAt N f (D.view disk.old).reads)) (D.view disk.old) (D.view disk.new) }
    ensures length { D.tells → Throughout (λ g. g ≡ f) (IsNoLonger N f (D.view disk.old).reads) (D.view disk.old) (D.view disk.new) }
    ensures calls { D.tells → CallsAtMost 3 4 (λ g. g ≡ f) (D.view disk.old) (D.view disk.new) }
    ensures cause { HasOwnCause (IsOwn f) (IsErr result) (D.view disk.old) (D.view disk.new) }
{
    let last: Option<[u8; N]> = last_gated(disk, old_file(f))?;
    make(disk, f)?;
    let Some(body) = last else {
        return Ok(Found {
            selected: None,
            last: None,
        });
    };
    add_first(disk, f, &body)?;
    Ok(Found {
        selected: Some(Slot::First),
        last: Some(body),
    })
}

/// The last entry of files that were synced, which stands in the slots from then on.
pub(crate) fn settle<D: Disk, const N: usize>(
    disk: &mut D,
    f: FileId,
) -> Result<Found<N>, DiskFault>
    requires size { (0 < N) × (N ≤ 120) }
    requires slots { f.part ≡ Part.Slots }
    requires synced_before { D.tells → IsSynced (D.view disk.old) f }
    requires old_synced { D.tells → IsSynced (D.view disk.old) (old_file f) }
    ensures last { D.tells → IfOk result (λ found. found.last ≡ LastAt N f (D.view disk.old).reads) }
    ensures entry { D.tells → IfOk result (λ found. entry_of N (bytes_of ((D.view disk.new).reads f)) ≡ found.last) }
    ensures stands { D.tells → IfOk result (λ found. Stands N (bytes_of ((D.view disk.new).reads f)) found.selected) }
    ensures durable { D.tells → OnOk result (IsSynced (D.view disk.new) f) }
    ensures any_moment { D.tells → Throughout (λ g. g ≡ f) (JournalHolds N f (LastAt N f (D.view disk.old).reads)) (D.view disk.old) (D.view disk.new) }
    ensures length { D.tells → Throughout (λ g. g ≡ f) (IsNoLonger N f (D.view disk.old).reads) (D.view disk.old) (D.view disk.new) }
    ensures calls { D.tells → CallsAtMost 3 4 (λ g. g ≡ f) (D.view disk.old) (D.view disk.new) }
    ensures unwritten { D.tells → HasSlotsEntry N f (D.view disk.old).reads → (g : FileId) → (D.view disk.new).writes g ≡ (D.view disk.old).writes g }
    ensures cause { HasOwnCause (IsOwn f) (IsErr result) (D.view disk.old) (D.view disk.new) }
{
    let found = find(disk, f)?;
    if found.last.is_some() {
        return Ok(found);
    }
    take_over(disk, f)
}
