ghost use Rattle.std.specs.Prelude.{◌≡◌, ◌⊎◌, ◌↔◌, ℕ, ◌+◌, ◌≤◌, true, false, Some, IsErr, IfErr, OnOk, IsErrOf, length, map, slice_index};
ghost use Rattle.lsv_disk.specs.declared.file.FileId.{FileId};
ghost use Rattle.lsv_disk.specs.declared.file.Part.{Part};
ghost use Rattle.lsv_disk.specs.View.{Image, HasCause, HasOwnCause};
ghost use Rattle.lsv_disk.specs.Throughout.{Throughout, CallsAtMost};
ghost use Rattle.lsv_journal.specs.declared.fault.JournalFault.{JournalFault};
ghost use Rattle.lsv_journal.specs.Last.{IsOwn, JournalHolds};
ghost use Rattle.lsv_journal.specs.Value as journals;
ghost use Rattle.lsv_journal.specs.Represents as represents;
ghost use Rattle.lsv_bundle.specs.declared.body.Body.{Body};
ghost use Rattle.lsv_bundle.specs.declared.fault.BundleFault.{BundleFault};
ghost use Rattle.lsv_bundle.specs.Shape.{IsPart, index_of, journal_of, IsWritable, IsOwnFile};
ghost use Rattle.lsv_bundle.specs.Value.{next_length, next_body, lengths_of, cut_body, IsStagedFile, NoneStaged, KeptAtError, IsEntryWritten, IsCommitted, IsPrepared};
ghost use Rattle.lsv_bundle.specs.Committed.{KeepsBytes, IsOwnImage, HoldsEntry, IsBeforeOrAfter, KeepsCommitted, committed_bytes, committed, committed_as, committed_next, committed_cut};
ghost use Rattle.lsv_bundle.specs.Represents.{Each, IsDurableFile, IsWritten, Represents, DataIsWritten};
ghost use Rattle.lsv_bundle.specs.Calls.{SyncsStaged, CallsOfFlush};
ghost use Rattle.lsv_bundle.specs.InnerFiles.{IsAmong, IsStagedAmong, Differ, KeepsPrefix, IsSyncedOnce, commit_file, cut_to, with_files};

use crate::data_file::{DataFile, commit, cut, sync_all, write_all};
use crate::{Body, Bundle, BundleFault};
use lsv_disk::{Disk, Owner};
use lsv_journal::{Journal, JournalFault};

/// The kind of an entry by which the data files are cut.
const CUT: u8 = 2;

/// Writes of each file what is staged, and a body into the journal's free slot; then syncs each file of which something
/// is staged, and the file of slots. All is written before the first sync, so that a file system with a journal takes
/// the new lengths of all these files in one transaction.
fn write_then_sync<D: Disk>(
    disk: &mut D,
    owner: Owner,
    files: &[DataFile],
    journal: &mut Journal<89>,
    body: [u8; 89],
) -> Result<(), JournalFault>
    requires durable { D.tells → Each (IsDurableFile owner (D.view disk.old)) files.now }
    requires differ { Differ files.now }
    requires whole { journals.is_broken journal.old ≡ false }
    requires represents { D.tells → represents.Represents journal.old (D.view disk.old) }
    requires apart { (g : FileId) → IsAmong owner files.now g → IsOwn (journals.file journal.old) g → ⊥ }
    ensures any_moment { D.tells → Throughout (λ g. IsAmong owner files.now g ⊎ (g ≡ journals.file journal.old))
        (λ image. Each (KeepsPrefix owner (D.view disk.old) image) files.now × JournalHolds 89 (journals.file journal.old) (journals.last journal.old) image)
        (D.view disk.old) (D.view disk.new) }
    ensures written { D.tells → OnOk result (Each (IsWritten owner (D.view disk.new)) files.now) }
    ensures once { D.tells → OnOk result (Each (IsSyncedOnce owner (D.view disk.old) (D.view disk.new)) files.now) }
    ensures slots_once { D.tells → OnOk result ((D.view disk.new).syncs (journals.file journal.old) ≡ (D.view disk.old).syncs (journals.file journal.old) + 1) }
    ensures calls { D.tells → CallsAtMost 1 1 (λ g. IsStagedAmong owner files.now g ⊎ (g ≡ journals.file journal.old)) (D.view disk.old) (D.view disk.new) }
    ensures fault { IfErr result (λ e. e ≡ JournalFault.Disk) }
    ensures cause { HasOwnCause (λ g. IsStagedAmong owner files.now g ⊎ (g ≡ journals.file journal.old)) (IsErr result) (D.view disk.old) (D.view disk.new) }
    ensures file { journals.file journal.new ≡ journals.file journal.old }
    ensures last { journals.last journal.new ≡ journals.last journal.old }
    ensures prepared { OnOk result (journals.prepared journal.new ≡ Some body) }
    ensures still_whole { OnOk result (journals.is_broken journal.new ≡ false) }
    ensures still_represented { D.tells → OnOk result (represents.Represents journal.new (D.view disk.new)) }
{
    write_all(disk, owner, files)?;
    journal.put_slot(disk, body)?;
    sync_all(disk, owner, files)?;
    journal.sync_slot(disk)
}

impl Bundle {
    /// It didn't answer `Disk`.
    fn check_whole(&self) -> Result<(), BundleFault>
        ensures whole { OnOk result (self.now.is_broken ≡ false) }
        ensures cause { IfErr result (λ e. (e ≡ BundleFault.Broken) × (self.now.is_broken ≡ true)) }
    {
        if self.is_broken {
            return Err(BundleFault::Broken);
        }
        Ok(())
    }

    /// What is staged is committed.
    fn commit_files(&mut self)
        ensures { self.new ≡ with_files self.old (map commit_file self.old.files) }
    {
        commit(&mut self.files);
    }

    /// This many bytes of each data file are committed.
    fn cut_files(&mut self, lengths: &[u64])
        requires { length lengths.now ≡ 8 }
        ensures { self.new ≡ with_files self.old (cut_to self.old.files lengths.now) }
    {
        cut(&mut self.files, lengths);
    }

    /// The last step of a flush: selects the entry that was written, and syncs. Its lengths are those of what is
    /// staged, and that is written. Each crash image holds what was committed before or what is committed with it,
    /// and after Ok the latter alone.
    fn select_entry<D: Disk>(&mut self, disk: &mut D) -> Result<(), BundleFault>
        requires represents { D.tells → self.old.is_broken ≡ false → Represents self.old (D.view disk.old) }
        requires prepared { self.old.is_broken ≡ false → IsPrepared self.old }
        requires written { D.tells → self.old.is_broken ≡ false → DataIsWritten self.old (D.view disk.old) }
        ensures value { OnOk result ((body : Body) → self.old.prepared ≡ Some body → IsCommitted body (next_length self.old) self.old self.new) }
        ensures committed { D.tells → OnOk result ((body : Body) → self.old.prepared ≡ Some body → committed self.new (D.view disk.new) ≡ Some (committed_as self.old (D.view disk.old) body)) }
        ensures any_moment { D.tells → self.old.is_broken ≡ false → (body : Body) → self.old.prepared ≡ Some body → Throughout (λ g. g ≡ journal_of self.old.owner)
            (IsBeforeOrAfter self.old.owner self.old.shape (committed self.old (D.view disk.old)) (Some (committed_as self.old (D.view disk.old) body)))
            (D.view disk.old) (D.view disk.new) }
        ensures keeps { D.tells → self.old.is_broken ≡ false → Throughout (λ g. g ≡ journal_of self.old.owner)
            (KeepsBytes self.old.owner self.old.shape (committed_bytes self.old (D.view disk.old))) (D.view disk.old) (D.view disk.new) }
        ensures represents { D.tells → self.new.is_broken ≡ false → Represents self.new (D.view disk.new) }
        ensures synced { D.tells → OnOk result ((D.view disk.new).syncs (journal_of self.old.owner) ≡ (D.view disk.old).syncs (journal_of self.old.owner) + 1) }
        ensures calls { D.tells → CallsAtMost 1 1 (λ g. g ≡ journal_of self.old.owner) (D.view disk.old) (D.view disk.new) }
        ensures disk { IsErrOf result BundleFault.Disk → self.new.is_broken ≡ true }
        ensures fault { IfErr result (λ e. (e ≡ BundleFault.Disk) ⊎ (e ≡ BundleFault.Broken)) }
        ensures cause { HasOwnCause (IsOwn (journal_of self.old.owner)) (IsErrOf result BundleFault.Disk) (D.view disk.old) (D.view disk.new) }
        ensures blame { HasCause (journal_of self.old.owner) (IsErrOf result BundleFault.Disk) (D.view disk.old) (D.view disk.new) }
        ensures broken { IsErrOf result BundleFault.Broken ↔ (self.old.is_broken ≡ true) }
        ensures kept { KeptAtError (IsErr result) (IsErrOf result BundleFault.Broken) self.old self.new disk.old disk.new }
    {
        self.check_whole()?;
        if self.journal.select(disk).is_err() {
            self.is_broken = true;
            return Err(BundleFault::Disk);
        }
        self.last = self.prepared;
        self.prepared = None;
        self.commit_files();
        Ok(())
    }

    /// Writes of each data file what is staged, and the next entry into the journal's free slot; then syncs each data
    /// file of which something is staged, and the journal. Each crash image holds what was committed before. The faults
    /// are those of `flush`.
    fn write_next<D: Disk>(
        &mut self,
        disk: &mut D,
        kind: u8,
        count: u64,
        elapsed: u64,
        extra: u64,
    ) -> Result<(), BundleFault>
        requires represents { D.tells → self.old.is_broken ≡ false → Represents self.old (D.view disk.old) }
        ensures value { OnOk result (IsEntryWritten (next_body self.old kind count elapsed extra) self.old self.new) }
        ensures any_moment { D.tells → self.old.is_broken ≡ false → Throughout (IsWritable self.old.owner self.old.shape) (KeepsCommitted self.old (D.view disk.old)) (D.view disk.old) (D.view disk.new) }
        ensures written { D.tells → OnOk result (DataIsWritten self.new (D.view disk.new)) }
        ensures below { D.tells → self.old.is_broken ≡ false → (part : Part) → IsPart self.old.shape part
            → committed_bytes self.old (D.view disk.new) part ≡ committed_bytes self.old (D.view disk.old) part }
        ensures represents { D.tells → self.new.is_broken ≡ false → Represents self.new (D.view disk.new) }
        ensures synced { D.tells → OnOk result (SyncsStaged self.old (D.view disk.old) (D.view disk.new)) }
        ensures journal_synced { D.tells → OnOk result ((D.view disk.new).syncs (journal_of self.old.owner) ≡ (D.view disk.old).syncs (journal_of self.old.owner) + 1) }
        ensures calls { D.tells → CallsAtMost 1 1 (λ g. IsStagedFile self.old g ⊎ (g ≡ journal_of self.old.owner)) (D.view disk.old) (D.view disk.new) }
        ensures disk { IsErrOf result BundleFault.Disk → self.new.is_broken ≡ true }
        ensures fault { IfErr result (λ e. (e ≡ BundleFault.Disk) ⊎ (e ≡ BundleFault.Broken)) }
        ensures cause { HasOwnCause (IsOwnFile self.old.owner self.old.shape) (IsErrOf result BundleFault.Disk) (D.view disk.old) (D.view disk.new) }
        ensures blame { HasOwnCause (λ g. IsStagedFile self.old g ⊎ (g ≡ journal_of self.old.owner)) (IsErrOf result BundleFault.Disk) (D.view disk.old) (D.view disk.new) }
        ensures broken { IsErrOf result BundleFault.Broken ↔ (self.old.is_broken ≡ true) }
        ensures kept { KeptAtError (IsErr result) (IsErrOf result BundleFault.Broken) self.old self.new disk.old disk.new }
    {
        self.check_whole()?;
        let body = self.next_body(kind, count, elapsed, extra);
        let bytes = body.encode();
        if write_then_sync(disk, self.owner, &self.files, &mut self.journal, bytes).is_err() {
            self.is_broken = true;
            return Err(BundleFault::Disk);
        }
        self.prepared = Some(body);
        Ok(())
    }

    /// Commits what is staged, and adds one entry, also where nothing is staged: all data and the entry are written,
    /// then all of that is synced, and only then is the entry selected, since a crash may leave any bytes of what isn't
    /// synced. All is written before the first sync, so that a file system with a journal takes it in one transaction.
    /// At every moment a crash leaves what was committed before or what is committed now, and after Ok the latter
    /// alone. `Disk` only where a device call on a data file of which something is staged, or on the journal's file of
    /// slots, failed; from then on `Broken`, until it is opened again. It takes no memory.
    pub fn flush<D: Disk>(
        &mut self,
        disk: &mut D,
        kind: u8,
        count: u64,
        elapsed: u64,
        extra: u64,
    ) -> Result<(), BundleFault>
        requires represents { D.tells → self.old.is_broken ≡ false → Represents self.old (D.view disk.old) }
        ensures value { OnOk result (IsCommitted (next_body self.old kind count elapsed extra) (next_length self.old) self.old self.new) }
        ensures committed { D.tells → OnOk result (committed self.new (D.view disk.new) ≡ Some (committed_next self.old (D.view disk.old) kind count elapsed extra)) }
        ensures acknowledged { D.tells → OnOk result ((image : Image) → IsOwnImage self.old.owner self.old.shape (D.view disk.new) image
            → HoldsEntry self.old.owner self.old.shape (committed_next self.old (D.view disk.old) kind count elapsed extra) image) }
        ensures any_moment { D.tells → self.old.is_broken ≡ false → Throughout (IsWritable self.old.owner self.old.shape)
            (IsBeforeOrAfter self.old.owner self.old.shape (committed self.old (D.view disk.old)) (Some (committed_next self.old (D.view disk.old) kind count elapsed extra)))
            (D.view disk.old) (D.view disk.new) }
        ensures keeps { D.tells → self.old.is_broken ≡ false → Throughout (IsWritable self.old.owner self.old.shape)
            (KeepsBytes self.old.owner self.old.shape (committed_bytes self.old (D.view disk.old))) (D.view disk.old) (D.view disk.new) }
        ensures below { D.tells → self.old.is_broken ≡ false → (part : Part) → IsPart self.old.shape part
            → committed_bytes self.old (D.view disk.new) part ≡ committed_bytes self.old (D.view disk.old) part }
        ensures represents { D.tells → self.new.is_broken ≡ false → Represents self.new (D.view disk.new) }
        ensures synced { D.tells → OnOk result (SyncsStaged self.old (D.view disk.old) (D.view disk.new)) }
        ensures journal_synced { D.tells → OnOk result ((D.view disk.new).syncs (journal_of self.old.owner) ≡ (D.view disk.old).syncs (journal_of self.old.owner) + 2) }
        ensures calls { D.tells → CallsOfFlush self.old (D.view disk.old) (D.view disk.new) }
        ensures disk { IsErrOf result BundleFault.Disk → self.new.is_broken ≡ true }
        ensures fault { IfErr result (λ e. (e ≡ BundleFault.Disk) ⊎ (e ≡ BundleFault.Broken)) }
        ensures cause { HasOwnCause (IsOwnFile self.old.owner self.old.shape) (IsErrOf result BundleFault.Disk) (D.view disk.old) (D.view disk.new) }
        ensures blame { HasOwnCause (λ g. IsStagedFile self.old g ⊎ (g ≡ journal_of self.old.owner)) (IsErrOf result BundleFault.Disk) (D.view disk.old) (D.view disk.new) }
        ensures broken { IsErrOf result BundleFault.Broken ↔ (self.old.is_broken ≡ true) }
        ensures kept { KeptAtError (IsErr result) (IsErrOf result BundleFault.Broken) self.old self.new disk.old disk.new }
    {
        self.write_next(disk, kind, count, elapsed, extra)?;
        self.select_entry(disk)
    }

    /// Adds one entry, of kind 2, that commits this many bytes of each data file, none more than before, and writes to
    /// no data file. Nothing is staged. At every moment a crash leaves what was committed before or what is now, and
    /// after Ok the latter alone. The faults are those of `flush`, `Disk` only where a device call on the journal's
    /// file of slots failed. It takes no memory.
    pub fn cut<D: Disk>(
        &mut self,
        disk: &mut D,
        lens: [u64; 8],
        count: u64,
        elapsed: u64,
        extra: u64,
    ) -> Result<(), BundleFault>
        requires represents { D.tells → self.old.is_broken ≡ false → Represents self.old (D.view disk.old) }
        requires none_staged { NoneStaged self.old }
        requires none_grows { (index : ℕ) → slice_index lens index ≤ slice_index (lengths_of self.old) index }
        ensures value { OnOk result (IsCommitted (cut_body lens count elapsed extra) (λ part. slice_index lens (index_of part)) self.old self.new) }
        ensures committed { D.tells → OnOk result (committed self.new (D.view disk.new) ≡ Some (committed_cut self.old (D.view disk.old) lens count elapsed extra)) }
        ensures acknowledged { D.tells → OnOk result ((image : Image) → IsOwnImage self.old.owner self.old.shape (D.view disk.new) image
            → HoldsEntry self.old.owner self.old.shape (committed_cut self.old (D.view disk.old) lens count elapsed extra) image) }
        ensures any_moment { D.tells → self.old.is_broken ≡ false → Throughout (λ g. g ≡ journal_of self.old.owner)
            (IsBeforeOrAfter self.old.owner self.old.shape (committed self.old (D.view disk.old)) (Some (committed_cut self.old (D.view disk.old) lens count elapsed extra)))
            (D.view disk.old) (D.view disk.new) }
        ensures keeps { D.tells → self.old.is_broken ≡ false → Throughout (λ g. g ≡ journal_of self.old.owner)
            (KeepsBytes self.old.owner self.old.shape (committed_bytes self.old (D.view disk.old))) (D.view disk.old) (D.view disk.new) }
        ensures represents { D.tells → self.new.is_broken ≡ false → Represents self.new (D.view disk.new) }
        ensures synced { D.tells → OnOk result ((D.view disk.new).syncs (journal_of self.old.owner) ≡ (D.view disk.old).syncs (journal_of self.old.owner) + 2) }
        ensures calls { D.tells → CallsAtMost 2 2 (λ g. g ≡ journal_of self.old.owner) (D.view disk.old) (D.view disk.new) }
        ensures disk { IsErrOf result BundleFault.Disk → self.new.is_broken ≡ true }
        ensures fault { IfErr result (λ e. (e ≡ BundleFault.Disk) ⊎ (e ≡ BundleFault.Broken)) }
        ensures cause { HasOwnCause (IsOwn (journal_of self.old.owner)) (IsErrOf result BundleFault.Disk) (D.view disk.old) (D.view disk.new) }
        ensures blame { HasCause (journal_of self.old.owner) (IsErrOf result BundleFault.Disk) (D.view disk.old) (D.view disk.new) }
        ensures broken { IsErrOf result BundleFault.Broken ↔ (self.old.is_broken ≡ true) }
        ensures kept { KeptAtError (IsErr result) (IsErrOf result BundleFault.Broken) self.old self.new disk.old disk.new }
    {
        self.check_whole()?;
        let body = Body::new(CUT, count, elapsed, lens, extra);
        if self.journal.append(disk, body.encode()).is_err() {
            self.is_broken = true;
            return Err(BundleFault::Disk);
        }
        self.last = Some(body);
        self.prepared = None;
        self.cut_files(&lens);
        Ok(())
    }
}
