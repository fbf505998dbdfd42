ghost use Rattle.std.specs.Prelude.{◌≡◌, ◌≢◌, ◌⊎◌, ℕ, ◌≤◌, false, Option, Some, None, length, take, slice_index, IsErr, IfOk, IfErr, IfSome, OnOk, IsErrOf};
ghost use Rattle.lsv_disk.specs.declared.file.FileId.{FileId};
ghost use Rattle.lsv_disk.specs.declared.file.Part.{Part};
ghost use Rattle.lsv_disk.specs.Files.{file_of, IsOneOf, AreDistinct, IsNew};
ghost use Rattle.lsv_disk.specs.View.{Image, IsCrashImage, HasOwnCause};
ghost use Rattle.lsv_disk.specs.Throughout.{Throughout, Unchanged, OnlyReads, CallsAtMost};
ghost use Rattle.lsv_journal.specs.Last.{IsOwn, LastAt, SameJournal, IsSomeCrashOf, OpeningCalls, MayBeMade};
ghost use Rattle.lsv_journal.specs.Value as journals;
ghost use Rattle.lsv_journal.specs.Represents as represents;
ghost use Rattle.lsv_bundle.specs.declared.body.Body.{Body};
ghost use Rattle.lsv_bundle.specs.declared.fault.BundleFault.{BundleFault};
ghost use Rattle.lsv_bundle.specs.Shape.{IsPart, index_of, journal_of, IsOwnFile};
ghost use Rattle.lsv_bundle.specs.Body.{encoded, length_of, IsBody};
ghost use Rattle.lsv_bundle.specs.Value.{committed_length, IsFresh};
ghost use Rattle.lsv_bundle.specs.Committed.{BundleHolds, HasEntry, IsShort, IsFirstShort, IsDamaged, committed};
ghost use Rattle.lsv_bundle.specs.Represents.{IsDurable, Represents};
ghost use Rattle.lsv_bundle.specs.Calls.{IsOpenFault, IsViewFault};
ghost use Rattle.lsv_bundle.specs.InnerFiles.{EachPart, AreSomeOf};

use crate::data_file::data_files;
use crate::shape::index_of;
use crate::{Body, Bundle, BundleFault, Shape};
use lsv_disk::{Disk, DiskFault, FileId, Owner, Part};
use lsv_journal::Journal;
use std::alloc::Global;

/// Syncs those of an owner's files that are there, and puts the parts of the others first into `absent`. It
/// answers how many those are.
fn sync_present<D: Disk>(
    disk: &mut D,
    owner: Owner,
    parts: &[Part],
    absent: &mut [Part],
) -> Result<usize, DiskFault>
    requires room { length parts.now ≤ length absent.old }
    requires distinct { AreDistinct owner parts.now }
    ensures within { IfOk result (λ n. n ≤ length absent.new) }
    ensures some { IfOk result (λ n. AreSomeOf owner (take n absent.new) parts.now) }
    ensures there { D.tells → IfOk result (λ n. EachPart (λ part. IsOneOf owner (take n absent.new) (file_of owner part) ⊎ IsDurable (D.view disk.new) (file_of owner part) 0) parts.now) }
    ensures absent { D.tells → IfOk result (λ n. (f : FileId) → IsOneOf owner (take n absent.new) f → (D.view disk.new).reads f ≡ None) }
    ensures unchanged { D.tells → Unchanged (D.view disk.old) (D.view disk.new) }
    ensures calls { D.tells → CallsAtMost 0 1 (IsOneOf owner parts.now) (D.view disk.old) (D.view disk.new) }
    ensures cause { HasOwnCause (IsOneOf owner parts.now) (IsErr result) (D.view disk.old) (D.view disk.new) }
{
    let [first, rest @ ..] = parts else {
        return Ok(0);
    };
    let file = FileId::new(owner, *first);
    if disk.length(file)?.is_some() {
        disk.sync(file)?;
        return sync_present(disk, owner, rest, absent);
    }
    let (place, later) = absent.split_at_mut(1);
    place[0] = *first;
    let others = sync_present(disk, owner, rest, later)?;
    Ok(1 + others)
}

/// Makes those of an owner's files that are absent, by one call, and syncs the others.
pub(crate) fn make_files<D: Disk>(
    disk: &mut D,
    owner: Owner,
    parts: &[Part],
) -> Result<(), DiskFault>
    requires few { length parts.now ≤ 9 }
    requires distinct { AreDistinct owner parts.now }
    ensures there { D.tells → OnOk result (EachPart (λ part. IsDurable (D.view disk.new) (file_of owner part) 0) parts.now) }
    ensures reads { D.tells → (f : FileId) → IsOneOf owner parts.now f → ((D.view disk.new).reads f ≡ (D.view disk.old).reads f) ⊎ IsNew f ((D.view disk.new).reads f) }
    ensures any_moment { D.tells → Throughout (IsOneOf owner parts.now)
        (λ image. (f : FileId) → IsOneOf owner parts.now f → (D.view disk.old).crash_states f (image f) ⊎ IsNew f (image f)) (D.view disk.old) (D.view disk.new) }
    ensures calls { D.tells → CallsAtMost 0 1 (IsOneOf owner parts.now) (D.view disk.old) (D.view disk.new) }
    ensures cause { HasOwnCause (IsOneOf owner parts.now) (IsErr result) (D.view disk.old) (D.view disk.new) }
{
    let mut absent = [Part::Head; 9];
    let count = sync_present(disk, owner, parts, &mut absent)?;
    disk.create_all(owner, &absent[..count])
}

/// Each of an owner's files has this many bytes; else the first that hasn't is damaged.
pub(crate) fn check_lengths<D: Disk>(
    disk: &mut D,
    owner: Owner,
    parts: &[Part],
    lens: &[u64; 8],
) -> Result<(), BundleFault>
    ensures enough { D.tells → OnOk result (EachPart (λ part. IsShort ((D.view disk.old).reads (file_of owner part)) (slice_index lens.now (index_of part)) → ⊥) parts.now) }
    ensures damaged { D.tells → (part : Part) → IsErrOf result (BundleFault.Damaged part) → IsFirstShort owner (D.view disk.old).reads lens.now parts.now part }
    ensures reads { D.tells → OnlyReads (D.view disk.old) (D.view disk.new) }
    ensures fault { IfErr result IsViewFault }
    ensures cause { HasOwnCause (IsOneOf owner parts.now) (IsErrOf result BundleFault.Disk) (D.view disk.old) (D.view disk.new) }
{
    let [first, rest @ ..] = parts else {
        return Ok(());
    };
    match disk.length(FileId::new(owner, *first))? {
        Some(length) if length >= lens[index_of(*first)] => check_lengths(disk, owner, rest, lens),
        _ => Err(BundleFault::Damaged(*first)),
    }
}

/// Opens the journal of an owner, and reads its last entry, where it has one.
fn open_journal<D: Disk>(
    disk: &mut D,
    owner: Owner,
) -> Result<Option<(Journal<89>, Body)>, BundleFault>
    ensures file { IfOk result (λ o. IfSome o (λ opened. journals.file opened.0 ≡ journal_of owner)) }
    ensures whole { IfOk result (λ o. IfSome o (λ opened. journals.is_broken opened.0 ≡ false)) }
    ensures prepared { IfOk result (λ o. IfSome o (λ opened. journals.prepared opened.0 ≡ None)) }
    ensures is_body { IfOk result (λ o. IfSome o (λ opened. IsBody opened.1)) }
    ensures entry { IfOk result (λ o. IfSome o (λ opened. journals.last opened.0 ≡ Some (encoded opened.1))) }
    ensures last { D.tells → IfOk result (λ o. IfSome o (λ opened. LastAt 89 (journal_of owner) (D.view disk.old).reads ≡ Some (encoded opened.1))) }
    ensures none { D.tells → IfOk result (λ o. o ≡ None → LastAt 89 (journal_of owner) (D.view disk.old).reads ≡ None) }
    ensures no_entry { D.tells → IfOk result (λ o. o ≡ None → (image : Image) → IsCrashImage (D.view disk.new) image → LastAt 89 (journal_of owner) image ≡ None) }
    ensures may_be_made { D.tells → IfOk result (λ o. o ≡ None → MayBeMade 89 (journal_of owner) (D.view disk.new)) }
    ensures represents { D.tells → IfOk result (λ o. IfSome o (λ opened. represents.Represents opened.0 (D.view disk.new))) }
    ensures reads { D.tells → SameJournal 89 (journal_of owner) (D.view disk.old).reads (D.view disk.new).reads }
    ensures any_moment { D.tells → Throughout (λ g. g ≡ journal_of owner) (IsSomeCrashOf 89 (journal_of owner) (D.view disk.old)) (D.view disk.old) (D.view disk.new) }
    ensures calls { D.tells → OpeningCalls 89 (journal_of owner) (IsOwn (journal_of owner)) (D.view disk.old) (D.view disk.new) }
    ensures fault { IfErr result (λ e. e ≡ BundleFault.Disk) }
    ensures cause { HasOwnCause (IsOwn (journal_of owner)) (IsErr result) (D.view disk.old) (D.view disk.new) }
{
    let Ok(opened) = Journal::open(disk, FileId::new(owner, Part::Slots)) else {
        return Err(BundleFault::Disk);
    };
    let Some(journal) = opened else {
        return Ok(None);
    };
    let Some(bytes) = journal.last() else {
        return Ok(None);
    };
    let body = Body::decode(bytes);
    Ok(Some((journal, body)))
}

impl Bundle {
    /// Syncs each of its files, and reads the last entry: a crash leaves that one, with the bytes that it commits.
    /// None exactly where the journal is absent or has no entry; then it has none in any crash image, and may be made. `Damaged(part)` exactly where that data file is
    /// absent or shorter than the last entry says, and it is the first such one. It writes no data file; the journal
    /// of an older store is taken over. `Disk` only where a device call on a file of this bundle failed.
    pub fn open<D: Disk>(
        alloc: Global,
        disk: &mut D,
        owner: Owner,
        shape: Shape,
    ) -> Result<Option<Bundle>, BundleFault>
        ensures none { D.tells → IfOk result (λ o. o ≡ None → LastAt 89 (journal_of owner) (D.view disk.old).reads ≡ None) }
        ensures no_entry { D.tells → IfOk result (λ o. o ≡ None → (image : Image) → IsCrashImage (D.view disk.new) image → LastAt 89 (journal_of owner) image ≡ None) }
        ensures may_be_made { D.tells → IfOk result (λ o. o ≡ None → MayBeMade 89 (journal_of owner) (D.view disk.new)) }
        ensures fresh { IfOk result (λ o. IfSome o (λ b. IsFresh owner shape b)) }
        ensures entry { IfOk result (λ o. IfSome o (λ b. b.last ≢ None)) }
        ensures last { D.tells → IfOk result (λ o. IfSome o (λ b. (body : Body) × (b.last ≡ Some body) × HasEntry owner body (D.view disk.old).reads)) }
        ensures lengths { IfOk result (λ o. IfSome o (λ b. (body : Body) → b.last ≡ Some body → (part : Part) → IsPart shape part → committed_length b part ≡ length_of body part)) }
        ensures enough { D.tells → IfOk result (λ o. IfSome o (λ b. (part : Part) → IsPart shape part → IsShort ((D.view disk.old).reads (file_of owner part)) (committed_length b part) → ⊥)) }
        ensures durable { D.tells → IfOk result (λ o. IfSome o (λ b. (image : Image) → IsCrashImage (D.view disk.new) image → BundleHolds owner shape (committed b (D.view disk.old)) image)) }
        ensures represents { D.tells → IfOk result (λ o. IfSome o (λ b. Represents b (D.view disk.new))) }
        ensures reads { D.tells → SameJournal 89 (journal_of owner) (D.view disk.old).reads (D.view disk.new).reads }
        ensures any_moment { D.tells → Throughout (λ g. g ≡ journal_of owner) (IsSomeCrashOf 89 (journal_of owner) (D.view disk.old)) (D.view disk.old) (D.view disk.new) }
        ensures calls { D.tells → OpeningCalls 89 (journal_of owner) (IsOwnFile owner shape) (D.view disk.old) (D.view disk.new) }
        ensures damaged { D.tells → (part : Part) → IsErrOf result (BundleFault.Damaged part) → IsDamaged owner shape (D.view disk.old).reads part }
        ensures fault { IfErr result IsOpenFault }
        ensures cause { HasOwnCause (IsOwnFile owner shape) (IsErrOf result BundleFault.Disk) (D.view disk.old) (D.view disk.new) }
    {
        let Some((journal, body)) = open_journal(disk, owner)? else {
            return Ok(None);
        };
        let files = data_files(alloc, shape, &body.lens)?;
        sync_present(disk, owner, shape.parts(), &mut [Part::Head; 8])?;
        check_lengths(disk, owner, shape.parts(), &body.lens)?;
        Ok(Some(Bundle {
            owner,
            shape,
            last: Some(body),
            prepared: None,
            files,
            is_broken: false,
            journal,
        }))
    }
}
