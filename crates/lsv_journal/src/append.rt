ghost use Rattle.std.specs.Prelude.{◌≡◌, ◌⊎◌, ℕ, ◌+◌, ◌≤◌, ◌<◌, ◌∷◌, Option, Some, None, length, take, IsErr, OnOk};
ghost use Rattle.lsv_defs.specs.Pieces.{piece};
ghost use Rattle.lsv_disk.specs.declared.file.FileId.{FileId};
ghost use Rattle.lsv_disk.specs.Bytes.{bytes_of};
ghost use Rattle.lsv_disk.specs.View.{IsSynced, HasCause};
ghost use Rattle.lsv_disk.specs.Throughout.{Throughout, CallsAtMost};
ghost use Rattle.lsv_journal.specs.Slots.{entry_of, StaysWithin};
ghost use Rattle.lsv_journal.specs.Represents.{free, free_slot, Stands, IsReady, IsPrepared, Keeps, LeavesEntry};
ghost use Rattle.lsv_journal.specs.Writing.{Selects};

use crate::slot::{FIRST, OPEN, Slot};
use lsv_disk::{Disk, DiskFault, FileId, write_synced};

/// The selector of the first slot, and a body for it.
fn with_selector(body: &[u8]) -> [u8; 121]
    requires { length body.now ≤ 120 }
    ensures { take (length body.now + 1) result ≡ 0 ∷ body.now }
{
    let mut bytes = [FIRST; 121];
    bytes[1..body.len() + 1].copy_from_slice(body);
    bytes
}

/// Writes the selector of the first slot and a body there.
fn put_first<D: Disk>(disk: &mut D, f: FileId, body: &[u8]) -> Result<(), DiskFault>
    requires size { (0 < length body.now) × (length body.now ≤ 120) }
    requires stands { D.tells → Stands (length body.now) (bytes_of ((D.view disk.old).reads f)) None }
    requires leaves { D.tells → LeavesEntry (length body.now) None (D.view disk.old) f }
    ensures prepared { D.tells → OnOk result (IsPrepared (length body.now) (bytes_of ((D.view disk.new).reads f)) None (Some body.now)) }
    ensures leaves { D.tells → LeavesEntry (length body.now) None (D.view disk.new) f }
    ensures any_moment { D.tells → Throughout (λ g. g ≡ f) (λ image. Keeps (length body.now) None (bytes_of ((D.view disk.old).reads f)) (bytes_of (image f))) (D.view disk.old) (D.view disk.new) }
    ensures calls { D.tells → CallsAtMost 1 0 (λ g. g ≡ f) (D.view disk.old) (D.view disk.new) }
    ensures cause { HasCause f (IsErr result) (D.view disk.old) (D.view disk.new) }
{
    let bytes = with_selector(body);
    disk.write_at(f, 1, &bytes[..body.len() + 1])
}

/// Writes the selector of the first slot and a body there, and syncs.
fn write_first<D: Disk>(disk: &mut D, f: FileId, body: &[u8]) -> Result<(), DiskFault>
    requires size { (0 < length body.now) × (length body.now ≤ 120) }
    requires synced_before { D.tells → IsSynced (D.view disk.old) f }
    requires stands { D.tells → Stands (length body.now) (bytes_of ((D.view disk.old).reads f)) None }
    ensures prepared { D.tells → OnOk result (IsPrepared (length body.now) (bytes_of ((D.view disk.new).reads f)) None (Some body.now)) }
    ensures durable { D.tells → OnOk result (IsSynced (D.view disk.new) f) }
    ensures any_moment { D.tells → Throughout (λ g. g ≡ f) (λ image. Keeps (length body.now) None (bytes_of ((D.view disk.old).reads f)) (bytes_of (image f))) (D.view disk.old) (D.view disk.new) }
    ensures calls { D.tells → CallsAtMost 1 1 (λ g. g ≡ f) (D.view disk.old) (D.view disk.new) }
    ensures cause { HasCause f (IsErr result) (D.view disk.old) (D.view disk.new) }
{
    put_first(disk, f, body)?;
    disk.sync(f)
}

/// Writes a body into the slot that isn't selected.
fn put_other<D: Disk>(disk: &mut D, f: FileId, selected: Slot, body: &[u8]) -> Result<(), DiskFault>
    requires size { (0 < length body.now) × (length body.now ≤ 120) }
    requires stands { D.tells → Stands (length body.now) (bytes_of ((D.view disk.old).reads f)) (Some selected) }
    requires leaves { D.tells → LeavesEntry (length body.now) (Some selected) (D.view disk.old) f }
    ensures prepared { D.tells → OnOk result (IsPrepared (length body.now) (bytes_of ((D.view disk.new).reads f)) (Some selected) (Some body.now)) }
    ensures leaves { D.tells → LeavesEntry (length body.now) (Some selected) (D.view disk.new) f }
    ensures any_moment { D.tells → Throughout (λ g. g ≡ f) (λ image. Keeps (length body.now) (Some selected) (bytes_of ((D.view disk.old).reads f)) (bytes_of (image f))) (D.view disk.old) (D.view disk.new) }
    ensures calls { D.tells → CallsAtMost 1 0 (λ g. g ≡ f) (D.view disk.old) (D.view disk.new) }
    ensures cause { HasCause f (IsErr result) (D.view disk.old) (D.view disk.new) }
{
    let at = Slot::free(Some(selected)).begin(body.len());
    disk.write_at(f, at, body)
}

/// Writes a body into the free slot, without a sync. A body that stands there already, also one that isn't synced, is
/// written over.
pub(crate) fn put_free<D: Disk>(
    disk: &mut D,
    f: FileId,
    selected: Option<Slot>,
    body: &[u8],
) -> Result<(), DiskFault>
    requires size { (0 < length body.now) × (length body.now ≤ 120) }
    requires stands { D.tells → Stands (length body.now) (bytes_of ((D.view disk.old).reads f)) selected }
    requires leaves { D.tells → LeavesEntry (length body.now) selected (D.view disk.old) f }
    ensures prepared { D.tells → OnOk result (IsPrepared (length body.now) (bytes_of ((D.view disk.new).reads f)) selected (Some body.now)) }
    ensures leaves { D.tells → LeavesEntry (length body.now) selected (D.view disk.new) f }
    ensures any_moment { D.tells → Throughout (λ g. g ≡ f) (λ image. Keeps (length body.now) selected (bytes_of ((D.view disk.old).reads f)) (bytes_of (image f))) (D.view disk.old) (D.view disk.new) }
    ensures calls { D.tells → CallsAtMost 1 0 (λ g. g ≡ f) (D.view disk.old) (D.view disk.new) }
    ensures cause { HasCause f (IsErr result) (D.view disk.old) (D.view disk.new) }
{
    match selected {
        None => put_first(disk, f, body),
        Some(slot) => put_other(disk, f, slot, body),
    }
}

/// Opens the gate, or writes the selector of the slot that isn't selected, and syncs: a file without an entry needs
/// the gate alone, one with an entry the selector.
pub(crate) fn select_free<D: Disk>(
    disk: &mut D,
    f: FileId,
    selected: Option<Slot>,
) -> Result<(), DiskFault>
    requires there { D.tells → 2 ≤ length (bytes_of ((D.view disk.old).reads f)) }
    requires synced_before { D.tells → IsSynced (D.view disk.old) f }
    ensures selected { D.tells → OnOk result ((n : ℕ) → Stands n (bytes_of ((D.view disk.old).reads f)) selected → IsReady n (bytes_of ((D.view disk.old).reads f)) selected
        → Stands n (bytes_of ((D.view disk.new).reads f)) (Some (free_slot selected)) × (entry_of n (bytes_of ((D.view disk.new).reads f)) ≡ Some (piece (bytes_of ((D.view disk.old).reads f)) (free n selected) n))) }
    ensures durable { D.tells → OnOk result (IsSynced (D.view disk.new) f) }
    ensures any_moment { D.tells → (n : ℕ) → Stands n (bytes_of ((D.view disk.old).reads f)) selected → IsReady n (bytes_of ((D.view disk.old).reads f)) selected
        → Throughout (λ g. g ≡ f) (λ image. Selects n selected (bytes_of ((D.view disk.old).reads f)) (bytes_of (image f))) (D.view disk.old) (D.view disk.new) }
    ensures calls { D.tells → CallsAtMost 1 1 (λ g. g ≡ f) (D.view disk.old) (D.view disk.new) }
    ensures synced { D.tells → OnOk result ((D.view disk.new).syncs f ≡ (D.view disk.old).syncs f + 1) }
    ensures cause { HasCause f (IsErr result) (D.view disk.old) (D.view disk.new) }
{
    match selected {
        None => write_synced(disk, f, 0, &[OPEN]),
        Some(_) => write_synced(disk, f, 1, &[Slot::free(selected).selector()]),
    }
}

/// Adds the first entry of a file that has none, by both steps.
pub(crate) fn add_first<D: Disk>(disk: &mut D, f: FileId, body: &[u8]) -> Result<(), DiskFault>
    requires size { (0 < length body.now) × (length body.now ≤ 120) }
    requires synced_before { D.tells → IsSynced (D.view disk.old) f }
    requires stands { D.tells → Stands (length body.now) (bytes_of ((D.view disk.old).reads f)) None }
    ensures added { D.tells → OnOk result (Stands (length body.now) (bytes_of ((D.view disk.new).reads f)) (Some Slot.First) × (entry_of (length body.now) (bytes_of ((D.view disk.new).reads f)) ≡ Some body.now)) }
    ensures durable { D.tells → OnOk result (IsSynced (D.view disk.new) f) }
    ensures any_moment { D.tells → Throughout (λ g. g ≡ f) (λ image. (entry_of (length body.now) (bytes_of (image f)) ≡ None) ⊎ (entry_of (length body.now) (bytes_of (image f)) ≡ Some body.now)) (D.view disk.old) (D.view disk.new) }
    ensures length { D.tells → Throughout (λ g. g ≡ f) (λ image. StaysWithin (length body.now) (bytes_of ((D.view disk.old).reads f)) (bytes_of (image f))) (D.view disk.old) (D.view disk.new) }
    ensures calls { D.tells → CallsAtMost 2 2 (λ g. g ≡ f) (D.view disk.old) (D.view disk.new) }
    ensures cause { HasCause f (IsErr result) (D.view disk.old) (D.view disk.new) }
{
    write_first(disk, f, body)?;
    select_free(disk, f, None)
}
