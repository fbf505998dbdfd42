ghost use Rattle.std.specs.Prelude.{◌≡◌, ◌≢◌, ◌⊎◌, ◌↔◌, ℕ, true, Some, None, length, slice_index, IsErr, IfOk, OnOk};
ghost use Rattle.lsv_disk.specs.declared.file.FileId.{FileId};
ghost use Rattle.lsv_disk.specs.Bytes.{bytes_of};
ghost use Rattle.lsv_disk.specs.View.{IsSynced, OneRead, HasCause};
ghost use Rattle.lsv_disk.specs.Throughout.{Throughout, CallsAtMost};
ghost use Rattle.lsv_journal.specs.Slots.{entry_of};
ghost use Rattle.lsv_journal.specs.Represents.{Stands};
ghost use Rattle.lsv_journal.specs.Reading.{IsEmptyOrAsBefore, EndsAtGate, IsShortOrAsBefore};

use crate::slot::{CLOSED, OPEN};
use lsv_disk::{Disk, DiskFault, FileId, write_synced};

/// Whether the gate byte is missing or open.
fn lacks_closed_gate<D: Disk>(disk: &mut D, f: FileId) -> Result<bool, DiskFault>
    ensures lacks { D.tells → IfOk result (λ lacks. (lacks ≡ true) ↔ ((length (bytes_of ((D.view disk.old).reads f)) ≡ 0) ⊎ (slice_index (bytes_of ((D.view disk.old).reads f)) 0 ≡ 1))) }
    ensures frame { D.tells → OneRead (D.view disk.old) (D.view disk.new) }
    ensures cause { HasCause f (IsErr result) (D.view disk.old) (D.view disk.new) }
{
    let mut gate = [CLOSED];
    let count = disk.read_at(f, 0, &mut gate)?;
    Ok(count == 0 || gate[0] == OPEN)
}

/// Makes the file, with its gate closed.
fn make_new<D: Disk>(disk: &mut D, f: FileId) -> Result<(), DiskFault>
    requires absent { D.tells → (D.view disk.old).reads f ≡ None }
    ensures durable { D.tells → OnOk result (IsSynced (D.view disk.new) f) }
    ensures stands { D.tells → OnOk result ((n : ℕ) → Stands n (bytes_of ((D.view disk.new).reads f)) None) }
    ensures none { D.tells → (n : ℕ) → entry_of n (bytes_of ((D.view disk.new).reads f)) ≡ None }
    ensures any_moment { D.tells → (n : ℕ) → Throughout (λ g. g ≡ f) (IsEmptyOrAsBefore n f (D.view disk.old)) (D.view disk.old) (D.view disk.new) }
    ensures length { D.tells → Throughout (λ g. g ≡ f) (IsShortOrAsBefore f (D.view disk.old)) (D.view disk.old) (D.view disk.new) }
    ensures ends { D.tells → EndsAtGate (bytes_of ((D.view disk.old).reads f)) (bytes_of ((D.view disk.new).reads f)) }
    ensures calls { D.tells → CallsAtMost 1 1 (λ g. g ≡ f) (D.view disk.old) (D.view disk.new) }
    ensures cause { HasCause f (IsErr result) (D.view disk.old) (D.view disk.new) }
{
    disk.create(f)?;
    write_synced(disk, f, 0, &[CLOSED])
}

/// Closes the gate of a file that is there and was synced, where that byte is missing or open.
pub(crate) fn close_gate<D: Disk>(disk: &mut D, f: FileId) -> Result<(), DiskFault>
    requires there { D.tells → (D.view disk.old).reads f ≢ None }
    requires synced_before { D.tells → IsSynced (D.view disk.old) f }
    ensures durable { D.tells → OnOk result (IsSynced (D.view disk.new) f) }
    ensures stands { D.tells → OnOk result ((n : ℕ) → entry_of n (bytes_of ((D.view disk.old).reads f)) ≡ None → Stands n (bytes_of ((D.view disk.new).reads f)) None) }
    ensures none { D.tells → (n : ℕ) → entry_of n (bytes_of ((D.view disk.old).reads f)) ≡ None → entry_of n (bytes_of ((D.view disk.new).reads f)) ≡ None }
    ensures any_moment { D.tells → (n : ℕ) → entry_of n (bytes_of ((D.view disk.old).reads f)) ≡ None → Throughout (λ g. g ≡ f) (IsEmptyOrAsBefore n f (D.view disk.old)) (D.view disk.old) (D.view disk.new) }
    ensures length { D.tells → Throughout (λ g. g ≡ f) (IsShortOrAsBefore f (D.view disk.old)) (D.view disk.old) (D.view disk.new) }
    ensures ends { D.tells → EndsAtGate (bytes_of ((D.view disk.old).reads f)) (bytes_of ((D.view disk.new).reads f)) }
    ensures calls { D.tells → CallsAtMost 1 1 (λ g. g ≡ f) (D.view disk.old) (D.view disk.new) }
    ensures cause { HasCause f (IsErr result) (D.view disk.old) (D.view disk.new) }
{
    if lacks_closed_gate(disk, f)? {
        return write_synced(disk, f, 0, &[CLOSED]);
    }
    Ok(())
}

/// Syncs a file that is there, and closes its gate where that byte is missing or open.
fn make_again<D: Disk>(disk: &mut D, f: FileId) -> Result<(), DiskFault>
    requires there { D.tells → (D.view disk.old).reads f ≢ None }
    ensures durable { D.tells → OnOk result (IsSynced (D.view disk.new) f) }
    ensures stands { D.tells → OnOk result ((n : ℕ) → entry_of n (bytes_of ((D.view disk.old).reads f)) ≡ None → Stands n (bytes_of ((D.view disk.new).reads f)) None) }
    ensures none { D.tells → (n : ℕ) → entry_of n (bytes_of ((D.view disk.old).reads f)) ≡ None → entry_of n (bytes_of ((D.view disk.new).reads f)) ≡ None }
    ensures any_moment { D.tells → (n : ℕ) → entry_of n (bytes_of ((D.view disk.old).reads f)) ≡ None → Throughout (λ g. g ≡ f) (IsEmptyOrAsBefore n f (D.view disk.old)) (D.view disk.old) (D.view disk.new) }
    ensures length { D.tells → Throughout (λ g. g ≡ f) (IsShortOrAsBefore f (D.view disk.old)) (D.view disk.old) (D.view disk.new) }
    ensures ends { D.tells → EndsAtGate (bytes_of ((D.view disk.old).reads f)) (bytes_of ((D.view disk.new).reads f)) }
    ensures calls { D.tells → CallsAtMost 1 2 (λ g. g ≡ f) (D.view disk.old) (D.view disk.new) }
    ensures cause { HasCause f (IsErr result) (D.view disk.old) (D.view disk.new) }
{
    disk.sync(f)?;
    close_gate(disk, f)
}

/// Makes the file where it is lacking, and closes its gate where that byte is missing or open. What a crash may leave
/// of a file without an entry gains none.
pub(crate) fn make<D: Disk>(disk: &mut D, f: FileId) -> Result<(), DiskFault>
    ensures durable { D.tells → OnOk result (IsSynced (D.view disk.new) f) }
    ensures stands { D.tells → OnOk result ((n : ℕ) → entry_of n (bytes_of ((D.view disk.old).reads f)) ≡ None → Stands n (bytes_of ((D.view disk.new).reads f)) None) }
    ensures none { D.tells → (n : ℕ) → entry_of n (bytes_of ((D.view disk.old).reads f)) ≡ None → entry_of n (bytes_of ((D.view disk.new).reads f)) ≡ None }
    ensures any_moment { D.tells → (n : ℕ) → entry_of n (bytes_of ((D.view disk.old).reads f)) ≡ None → Throughout (λ g. g ≡ f) (IsEmptyOrAsBefore n f (D.view disk.old)) (D.view disk.old) (D.view disk.new) }
    ensures length { D.tells → Throughout (λ g. g ≡ f) (IsShortOrAsBefore f (D.view disk.old)) (D.view disk.old) (D.view disk.new) }
    ensures ends { D.tells → EndsAtGate (bytes_of ((D.view disk.old).reads f)) (bytes_of ((D.view disk.new).reads f)) }
    ensures calls { D.tells → CallsAtMost 1 2 (λ g. g ≡ f) (D.view disk.old) (D.view disk.new) }
    ensures cause { HasCause f (IsErr result) (D.view disk.old) (D.view disk.new) }
{
    match disk.length(f)? {
        None => make_new(disk, f),
        Some(_) => make_again(disk, f),
    }
}
