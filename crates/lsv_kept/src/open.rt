//! What is kept of a relaying is read.
ghost use Rattle.std.specs.Prelude.{◌≡◌, ◌≢◌, ◌⊎◌, ◌↔◌, ◌+◌, ◌==◌, true, None, length, take, IfOk, IfErr, IfSome, IsErrOf};
ghost use Rattle.std.specs.Str.{bytes_eq};
ghost use Rattle.lsv_bundle.specs.Calls.{IsOpenFault, IsViewFault};
ghost use Rattle.lsv_bundle.specs.Body.{length_of};
ghost use Rattle.lsv_bundle.specs.Committed.{HasEntry, IsDamaged, IsShort, prefix_at};
ghost use Rattle.lsv_bundle.specs.Represents.{Represents};
ghost use Rattle.lsv_bundle.specs.Shape.{journal_of};
ghost use Rattle.lsv_bundle.specs.Value.{IsFresh};
ghost use Rattle.lsv_bundle.specs.declared.fault.BundleFault.{BundleFault};
ghost use Rattle.lsv_bundle.specs.declared.shape.Shape.TheVariants as shapes;
ghost use Rattle.lsv_disk.specs.Files.{file_of};
ghost use Rattle.lsv_disk.specs.Throughout.{OnlyReads, Throughout};
ghost use Rattle.lsv_disk.specs.View.{HasOwnCause, Image, IsCrashImage};
ghost use Rattle.lsv_disk.specs.declared.file.Part.{Part};
ghost use Rattle.lsv_journal.specs.Last.{IsSomeCrashOf, LastAt, MayBeMade, SameJournal};
ghost use Rattle.lsv_kept.specs.Inner.{IsLongIn, kept_after};
ghost use Rattle.lsv_kept.specs.Kept.{IsMarked, IsMarkedAt, IsOfRelay, IsStateDamage, Keeps, kept_for, marked_for, owner_of, state_of};

use crate::commit::DONE;
use crate::{Aim, Kept, State};
use lsv_base::{Bytes, LogNo};
use lsv_bundle::{Bundle, BundleFault, Shape, View};
use lsv_disk::{Disk, Owner, Part};
use std::alloc::Global;

/// The kind of an entry that keeps nothing.
const CUT: u8 = 2;

/// No identifier that is kept has more bytes.
const LONGEST_ID: u64 = 4096;

/// Whether a log is marked as relayed, as the files of the relaying read: nothing is synced or written. `Damaged(Id)` only
/// if the identifier's file is absent or shorter than the last entry says, or the identifier has more than 4,096 bytes.
pub fn is_marked<D: Disk>(disk: &mut D, number: LogNo) -> Result<bool, BundleFault>
    ensures marked { D.tells → IfOk result (λ b. (b ≡ true) ↔ IsMarked number (D.view disk.old).reads) }
    ensures reads { D.tells → OnlyReads (D.view disk.old) (D.view disk.new) }
    ensures damaged { D.tells → (part : Part) → IsErrOf result (BundleFault.Damaged part) → IsStateDamage number part (D.view disk.old).reads }
    ensures fault { IfErr result IsViewFault }
    ensures cause { HasOwnCause (IsOfRelay number) (IsErrOf result BundleFault.Disk) (D.view disk.old) (D.view disk.new) }
{
    let Some(view) = view_files(disk, number)? else {
        return Ok(false);
    };
    Ok(view.body().kind == DONE)
}

/// Whether a log of this elapsed time, in nanoseconds, is marked as relayed. The mark of a log of another time doesn't
/// count: the log was put back from a copy, or went on since. The faults are those of `is_marked`.
pub fn is_marked_at<D: Disk>(disk: &mut D, number: LogNo, total: u64) -> Result<bool, BundleFault>
    ensures marked { D.tells → IfOk result (λ b. (b ≡ true) ↔ IsMarkedAt number total (D.view disk.old).reads) }
    ensures reads { D.tells → OnlyReads (D.view disk.old) (D.view disk.new) }
    ensures damaged { D.tells → (part : Part) → IsErrOf result (BundleFault.Damaged part) → IsStateDamage number part (D.view disk.old).reads }
    ensures fault { IfErr result IsViewFault }
    ensures cause { HasOwnCause (IsOfRelay number) (IsErrOf result BundleFault.Disk) (D.view disk.old) (D.view disk.new) }
{
    let Some(view) = view_files(disk, number)? else {
        return Ok(false);
    };
    let body = view.body();
    Ok(body.kind == DONE && is_time(body.extra, total))
}

/// Whether the extra number of a mark stands for this elapsed time.
fn is_time(extra: u64, total: u64) -> bool
    ensures { result ≡ (extra == total + 1) }
{
    match extra.checked_sub(1) {
        Some(time) => time == total,
        None => false,
    }
}

/// What is kept of the relaying of a log with this aim, as its files read: nothing is synced or written.
pub(crate) fn read_state<D: Disk>(
    alloc: Global,
    disk: &mut D,
    number: LogNo,
    aim: &Aim,
) -> Result<State, BundleFault>
    ensures kept { D.tells → IfOk result (Keeps number aim.now (D.view disk.old).reads) }
    ensures reads { D.tells → OnlyReads (D.view disk.old) (D.view disk.new) }
    ensures damaged { D.tells → (part : Part) → IsErrOf result (BundleFault.Damaged part) → IsStateDamage number part (D.view disk.old).reads }
    ensures fault { IfErr result IsOpenFault }
    ensures cause { HasOwnCause (IsOfRelay number) (IsErrOf result BundleFault.Disk) (D.view disk.old) (D.view disk.new) }
{
    let Some(view) = view_files(disk, number)? else {
        return Ok(State::Nothing);
    };
    state_in(alloc, disk, &view, aim)
}

/// What an entry says to a relaying with this aim.
fn state_in<D: Disk>(
    alloc: Global,
    disk: &mut D,
    view: &View,
    aim: &Aim,
) -> Result<State, BundleFault>
    requires shape { view.now.shape ≡ shapes.Relay }
    ensures state { D.tells → IfOk result (λ s. s ≡ state_of aim.now view.now.body.kind view.now.body.count view.now.body.extra (prefix_at (D.view disk.old) (file_of view.now.owner Part.Id) (length_of view.now.body Part.Id))) }
    ensures reads { D.tells → OnlyReads (D.view disk.old) (D.view disk.new) }
    ensures damaged { (part : Part) → IsErrOf result (BundleFault.Damaged part) → IsLongIn view.now.body part }
    ensures fault { IfErr result IsOpenFault }
    ensures cause { HasOwnCause (λ g. g ≡ file_of view.now.owner Part.Id) (IsErrOf result BundleFault.Disk) (D.view disk.old) (D.view disk.new) }
{
    let body = view.body();
    if body.kind == CUT {
        return Ok(State::Nothing);
    }
    if body.kind == DONE {
        return Ok(marked_for(aim, body.extra));
    }
    kept_in(alloc, disk, view, aim)
}

/// What a mark says to a relaying with this aim.
fn marked_for(aim: &Aim, extra: u64) -> State
    ensures { result ≡ marked_for aim.now.total extra }
{
    if is_time(extra, aim.total()) {
        return State::Done;
    }
    State::Nothing
}

/// What an entry that keeps an identifier says to a relaying with this aim: nothing if it is of another host.
fn kept_in<D: Disk>(
    alloc: Global,
    disk: &mut D,
    view: &View,
    aim: &Aim,
) -> Result<State, BundleFault>
    requires shape { view.now.shape ≡ shapes.Relay }
    requires keeps { (view.now.body.kind ≢ 2) × (view.now.body.kind ≢ 3) }
    ensures state { D.tells → IfOk result (λ s. s ≡ kept_for aim.now.host view.now.body.count view.now.body.extra (prefix_at (D.view disk.old) (file_of view.now.owner Part.Id) (length_of view.now.body Part.Id))) }
    ensures reads { D.tells → OnlyReads (D.view disk.old) (D.view disk.new) }
    ensures damaged { (part : Part) → IsErrOf result (BundleFault.Damaged part) → IsLongIn view.now.body part }
    ensures fault { IfErr result IsOpenFault }
    ensures cause { HasOwnCause (λ g. g ≡ file_of view.now.owner Part.Id) (IsErrOf result BundleFault.Disk) (D.view disk.old) (D.view disk.new) }
{
    let body = view.body();
    let [length, ..] = body.lens;
    if length > body.count.saturating_add(LONGEST_ID) {
        return Err(BundleFault::Damaged(Part::Id));
    }
    let Ok(line) = aim.line(alloc) else {
        return Err(BundleFault::NoMem);
    };
    if body.count != line.as_slice().len() as u64 {
        return Ok(State::Nothing);
    }
    let bytes = read_bytes(alloc, disk, view, length)?;
    Ok(id_after(bytes, &line, body.extra))
}

/// What these bytes keep, if they begin with this line: nothing if they don't.
fn id_after(bytes: Bytes, line: &Bytes, extra: u64) -> State
    ensures { result ≡ kept_after line.now extra bytes }
{
    if !begins_with(bytes.as_slice(), line.as_slice()) {
        return State::Nothing;
    }
    let mut id = bytes;
    id.drop_front(line.as_slice().len());
    State::Kept(Kept {
        id,
        point: extra.checked_sub(1),
    })
}

/// Whether bytes begin with a line.
fn begins_with(bytes: &[u8], line: &[u8]) -> bool
    ensures { result ≡ bytes_eq (take (length line.now) bytes.now) line.now }
{
    let front = &bytes[..line.len().min(bytes.len())];
    front == line
}

/// All committed bytes of the data file, of which there are this many.
fn read_bytes<D: Disk>(
    alloc: Global,
    disk: &mut D,
    view: &View,
    length: u64,
) -> Result<Bytes, BundleFault>
    requires shape { view.now.shape ≡ shapes.Relay }
    requires length { length ≡ length_of view.now.body Part.Id }
    ensures bytes { D.tells → IfOk result (λ bytes. bytes ≡ prefix_at (D.view disk.old) (file_of view.now.owner Part.Id) (length_of view.now.body Part.Id)) }
    ensures reads { D.tells → OnlyReads (D.view disk.old) (D.view disk.new) }
    ensures fault { IfErr result (λ e. (e ≡ BundleFault.Disk) ⊎ (e ≡ BundleFault.NoMem)) }
    ensures cause { HasOwnCause (λ g. g ≡ file_of view.now.owner Part.Id) (IsErrOf result BundleFault.Disk) (D.view disk.old) (D.view disk.new) }
{
    let mut bytes = vec![in alloc; 0; length as usize]?;
    let count = view.read(disk, Part::Id, 0, &mut bytes)?;
    bytes.truncate(count);
    Ok(Bytes::from_vec(bytes))
}

/// The files of a relaying, as they read.
fn view_files<D: Disk>(disk: &mut D, number: LogNo) -> Result<Option<View>, BundleFault>
    ensures none { D.tells → IfOk result (λ o. o ≡ None → LastAt 89 (journal_of (owner_of number)) (D.view disk.old).reads ≡ None) }
    ensures named { IfOk result (λ o. IfSome o (λ v. (v.owner ≡ owner_of number) × (v.shape ≡ shapes.Relay))) }
    ensures entry { D.tells → IfOk result (λ o. IfSome o (λ v. HasEntry (owner_of number) v.body (D.view disk.old).reads)) }
    ensures enough { D.tells → IfOk result (λ o. IfSome o (λ v. IsShort ((D.view disk.old).reads (file_of (owner_of number) Part.Id)) (length_of v.body Part.Id) → ⊥)) }
    ensures reads { D.tells → OnlyReads (D.view disk.old) (D.view disk.new) }
    ensures damaged { D.tells → (part : Part) → IsErrOf result (BundleFault.Damaged part) → IsDamaged (owner_of number) shapes.Relay (D.view disk.old).reads part }
    ensures fault { IfErr result IsViewFault }
    ensures cause { HasOwnCause (IsOfRelay number) (IsErrOf result BundleFault.Disk) (D.view disk.old) (D.view disk.new) }
{
    Bundle::view(disk, Owner::Relay(number.get()), Shape::Relay)
}

/// The files of a relaying, opened: a crash leaves what they commit.
pub(crate) fn open_files<D: Disk>(
    alloc: Global,
    disk: &mut D,
    number: LogNo,
) -> Result<Option<Bundle>, BundleFault>
    ensures none { D.tells → IfOk result (λ o. o ≡ None → LastAt 89 (journal_of (owner_of number)) (D.view disk.old).reads ≡ None) }
    ensures no_entry { D.tells → IfOk result (λ o. o ≡ None → (image : Image) → IsCrashImage (D.view disk.new) image → LastAt 89 (journal_of (owner_of number)) image ≡ None) }
    ensures may_be_made { D.tells → IfOk result (λ o. o ≡ None → MayBeMade 89 (journal_of (owner_of number)) (D.view disk.new)) }
    ensures fresh { IfOk result (λ o. IfSome o (λ b. IsFresh (owner_of number) shapes.Relay b)) }
    ensures represents { D.tells → IfOk result (λ o. IfSome o (λ b. Represents b (D.view disk.new))) }
    ensures reads { D.tells → SameJournal 89 (journal_of (owner_of number)) (D.view disk.old).reads (D.view disk.new).reads }
    ensures any_moment { D.tells → Throughout (λ g. g ≡ journal_of (owner_of number)) (IsSomeCrashOf 89 (journal_of (owner_of number)) (D.view disk.old)) (D.view disk.old) (D.view disk.new) }
    ensures damaged { D.tells → (part : Part) → IsErrOf result (BundleFault.Damaged part) → IsDamaged (owner_of number) shapes.Relay (D.view disk.old).reads part }
    ensures fault { IfErr result IsOpenFault }
    ensures cause { HasOwnCause (IsOfRelay number) (IsErrOf result BundleFault.Disk) (D.view disk.old) (D.view disk.new) }
{
    Bundle::open(alloc, disk, Owner::Relay(number.get()), Shape::Relay)
}
