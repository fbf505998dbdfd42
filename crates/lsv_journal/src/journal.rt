ghost use Rattle.std.specs.Prelude.{◌≡◌, ◌≢◌, ◌⊎◌, ◌↔◌, ℕ, ◌+◌, ◌≤◌, ◌<◌, true, false, Option, Some, None, IfOk, IfErr, IfSome, IsErr, OnOk, IsErrOf};

use crate::JournalFault;
use crate::append::{put_free, select_free};
use crate::create::{close_gate, make};
use crate::gates::last_gated;
use crate::open::{find, is_absent, old_file, settle, sync_both};
use crate::slot::Slot;
use lsv_disk::{Disk, DiskFault, FileId, Part};

/// A file of two slots of N bytes, of which a selector byte chooses one: its last entry. Of N from 1 to 120. No call
/// takes memory. Each call is handed the disk that the journal was made or opened over, and nothing else changes its
/// files.
#[derive(Drop)]
pub struct Journal<const N: usize> {
    file: FileId,
    last: Option<[u8; N]>,
    /// The body that was written into the free slot and isn't synced.
    written: Option<[u8; N]>,
    /// The synced body in the free slot, which one byte more selects.
    prepared: Option<[u8; N]>,
    /// The slot with the last entry, none where there is no entry.
    selected: Option<Slot>,
    broken: bool,
}

impl<const N: usize> Journal<N> {
    ghost use Rattle.lsv_disk.specs.declared.file.FileId.{FileId};
    ghost use Rattle.lsv_disk.specs.declared.file.Part.{Part};
    ghost use Rattle.lsv_disk.specs.View.{HasCause, Image, IsCrashImage, IsSynced, HasOwnCause};
    ghost use Rattle.lsv_disk.specs.Throughout.{Throughout, Unchanged, OnlyReads, CallsAtMost};
    ghost use Rattle.lsv_journal.specs.Last.{IsOwn, IsAbsent, LastAt, JournalHolds, IsBeforeOrAfter, SameJournal, IsSomeCrashOf, OpeningCalls, MayBeMade, KeepsSelected, SelectsSame, IsNoLonger, IsNoLongerThanSome};
    ghost use Rattle.lsv_journal.specs.Value.{file, last, written, prepared, is_broken, KeptAtError};
    ghost use Rattle.lsv_journal.specs.Represents.{Represents};

    /// Makes a journal without an entry, at a file that is absent or has no entry: what a making that a crash or a
    /// fault ended has left is made again. `Disk` only where a device call on its file of slots failed; then too it has
    /// no entry. The file ends then at the end of the second slot at most, or where it ended before.
    pub fn create<D: Disk>(disk: &mut D, f: FileId) -> Result<Journal<N>, JournalFault>
        requires size { (0 < N) × (N ≤ 120) }
        requires slots { f.part ≡ Part.Slots }
        requires may_be_made { D.tells → MayBeMade N f (D.view disk.old) }
        ensures file { IfOk result (λ j. file j ≡ f) }
        ensures last { IfOk result (λ j. last j ≡ None) }
        ensures prepared { IfOk result (λ j. prepared j ≡ None) }
        ensures whole { IfOk result (λ j. is_broken j ≡ false) }
        ensures represents { D.tells → IfOk result (λ j. Represents j (D.view disk.new)) }
        ensures again { D.tells → MayBeMade N f (D.view disk.new) }
        ensures any_moment { D.tells → Throughout (λ g. g ≡ f) (λ image. IsSomeCrashOf N f (D.view disk.old) image ⊎ JournalHolds N f None image) (D.view disk.old) (D.view disk.new) }
        ensures length { D.tells → Throughout (λ g. g ≡ f) (IsNoLongerThanSome N f (D.view disk.old)) (D.view disk.old) (D.view disk.new) }
        ensures ends { D.tells → IsNoLonger N f (D.view disk.old).reads (D.view disk.new).reads }
        ensures calls { D.tells → CallsAtMost 1 2 (λ g. g ≡ f) (D.view disk.old) (D.view disk.new) }
        ensures fault { IfErr result (λ e. e ≡ JournalFault.Disk) }
        ensures cause { HasOwnCause (IsOwn f) (IsErr result) (D.view disk.old) (D.view disk.new) }
        ensures blame { HasCause f (IsErr result) (D.view disk.old) (D.view disk.new) }
    {
        make(disk, f)?;
        Ok(Journal::without_entry(f))
    }

    /// Makes a journal without an entry at a file that is there and was synced, and may be made: as `create`, with one
    /// sync fewer. So a file that was made with others isn't synced again.
    pub fn begin<D: Disk>(disk: &mut D, f: FileId) -> Result<Journal<N>, JournalFault>
        requires size { (0 < N) × (N ≤ 120) }
        requires slots { f.part ≡ Part.Slots }
        requires may_be_made { D.tells → MayBeMade N f (D.view disk.old) }
        requires there { D.tells → (D.view disk.old).reads f ≢ None }
        requires synced_before { D.tells → IsSynced (D.view disk.old) f }
        ensures file { IfOk result (λ j. file j ≡ f) }
        ensures last { IfOk result (λ j. last j ≡ None) }
        ensures prepared { IfOk result (λ j. prepared j ≡ None) }
        ensures whole { IfOk result (λ j. is_broken j ≡ false) }
        ensures represents { D.tells → IfOk result (λ j. Represents j (D.view disk.new)) }
        ensures again { D.tells → MayBeMade N f (D.view disk.new) }
        ensures any_moment { D.tells → Throughout (λ g. g ≡ f) (λ image. IsSomeCrashOf N f (D.view disk.old) image ⊎ JournalHolds N f None image) (D.view disk.old) (D.view disk.new) }
        ensures length { D.tells → Throughout (λ g. g ≡ f) (IsNoLongerThanSome N f (D.view disk.old)) (D.view disk.old) (D.view disk.new) }
        ensures ends { D.tells → IsNoLonger N f (D.view disk.old).reads (D.view disk.new).reads }
        ensures calls { D.tells → CallsAtMost 1 1 (λ g. g ≡ f) (D.view disk.old) (D.view disk.new) }
        ensures fault { IfErr result (λ e. e ≡ JournalFault.Disk) }
        ensures cause { HasOwnCause (IsOwn f) (IsErr result) (D.view disk.old) (D.view disk.new) }
        ensures blame { HasCause f (IsErr result) (D.view disk.old) (D.view disk.new) }
    {
        close_gate(disk, f)?;
        Ok(Journal::without_entry(f))
    }

    /// The value of a journal without an entry.
    fn without_entry(f: FileId) -> Journal<N>
        ensures { result ≡ record { file = f; last = None; written = None; prepared = None; selected = None; broken = false } }
    {
        Journal {
            file: f,
            last: None,
            written: None,
            prepared: None,
            selected: None,
            broken: false,
        }
    }

    /// Syncs both files, and reads the last entry: a crash leaves that one. None exactly where both are absent. Where
    /// the slots have no entry their file is made again, and the last body of the old file is taken over into it;
    /// the old file is never written. The file of slots ends then at the end of the second slot at most, or where it
    /// ended before. `Disk` only where a device call on its files failed.
    pub fn open<D: Disk>(disk: &mut D, f: FileId) -> Result<Option<Journal<N>>, JournalFault>
        requires size { (0 < N) × (N ≤ 120) }
        requires slots { f.part ≡ Part.Slots }
        ensures absent { D.tells → IfOk result (λ o. o ≡ None ↔ IsAbsent f (D.view disk.old).reads) }
        ensures file { IfOk result (λ o. IfSome o (λ j. file j ≡ f)) }
        ensures last { D.tells → IfOk result (λ o. IfSome o (λ j. last j ≡ LastAt N f (D.view disk.old).reads)) }
        ensures prepared { IfOk result (λ o. IfSome o (λ j. prepared j ≡ None)) }
        ensures whole { IfOk result (λ o. IfSome o (λ j. is_broken j ≡ false)) }
        ensures durable { D.tells → IfOk result (λ o. IfSome o (λ j. (image : Image) → IsCrashImage (D.view disk.new) image → SameJournal N f (D.view disk.old).reads image)) }
        ensures represents { D.tells → IfOk result (λ o. IfSome o (λ j. Represents j (D.view disk.new))) }
        ensures may_be_made { D.tells → IfOk result (λ o. IfSome o (λ j. last j ≡ None → MayBeMade N f (D.view disk.new))) }
        ensures absent_may_be_made { D.tells → IfOk result (λ o. o ≡ None → MayBeMade N f (D.view disk.new)) }
        ensures reads { D.tells → SameJournal N f (D.view disk.old).reads (D.view disk.new).reads }
        ensures any_moment { D.tells → Throughout (λ g. g ≡ f) (IsSomeCrashOf N f (D.view disk.old)) (D.view disk.old) (D.view disk.new) }
        ensures length { D.tells → Throughout (λ g. g ≡ f) (IsNoLongerThanSome N f (D.view disk.old)) (D.view disk.old) (D.view disk.new) }
        ensures ends { D.tells → IsNoLonger N f (D.view disk.old).reads (D.view disk.new).reads }
        ensures calls { D.tells → OpeningCalls N f (IsOwn f) (D.view disk.old) (D.view disk.new) }
        ensures fault { IfErr result (λ e. e ≡ JournalFault.Disk) }
        ensures cause { HasOwnCause (IsOwn f) (IsErr result) (D.view disk.old) (D.view disk.new) }
    {
        if is_absent(disk, f)? {
            return Ok(None);
        }
        sync_both(disk, f)?;
        let found = settle(disk, f)?;
        Ok(Some(Journal {
            file: f,
            last: found.last,
            written: None,
            prepared: None,
            selected: found.selected,
            broken: false,
        }))
    }

    /// The last body, as the files read, without a sync or a write. `Disk` only where a device call on its files
    /// failed.
    pub fn view<D: Disk>(disk: &mut D, f: FileId) -> Result<Option<[u8; N]>, JournalFault>
        requires size { (0 < N) × (N ≤ 120) }
        requires slots { f.part ≡ Part.Slots }
        ensures last { D.tells → IfOk result (λ body. body ≡ LastAt N f (D.view disk.old).reads) }
        ensures reads { D.tells → OnlyReads (D.view disk.old) (D.view disk.new) }
        ensures fault { IfErr result (λ e. e ≡ JournalFault.Disk) }
        ensures cause { HasOwnCause (IsOwn f) (IsErr result) (D.view disk.old) (D.view disk.new) }
    {
        let found = find(disk, f)?;
        if found.last.is_some() {
            return Ok(found.last);
        }
        Ok(last_gated(disk, old_file(f))?)
    }

    /// The body of the last entry.
    pub fn last(&self) -> Option<[u8; N]>
        ensures { result ≡ last self.now }
    {
        self.last
    }

    /// The file that it was made or opened at.
    pub fn file(&self) -> FileId
        ensures { result ≡ file self.now }
    {
        self.file
    }

    /// Writes a body into the free slot, without a sync, so that other files can be written before one is synced: no
    /// crash leaves it as the last entry, and the one before stays. What was written or prepared before isn't any more.
    /// `Disk` only where a device call on its file failed; from then on `Broken`, until it is opened again.
    pub fn put_slot<D: Disk>(&mut self, disk: &mut D, body: [u8; N]) -> Result<(), JournalFault>
        requires size { (0 < N) × (N ≤ 120) }
        requires represents { D.tells → is_broken self.old ≡ false → Represents self.old (D.view disk.old) }
        ensures last { last self.new ≡ last self.old }
        ensures written { OnOk result (written self.new ≡ Some body.entry) }
        ensures prepared { OnOk result (prepared self.new ≡ None) }
        ensures whole { OnOk result (is_broken self.new ≡ false) }
        ensures represents { D.tells → is_broken self.new ≡ false → Represents self.new (D.view disk.new) }
        ensures any_moment { D.tells → is_broken self.old ≡ false → Throughout (λ g. g ≡ file self.old) (JournalHolds N (file self.old) (last self.old)) (D.view disk.old) (D.view disk.new) }
        ensures keeps { D.tells → is_broken self.old ≡ false → Throughout (λ g. g ≡ file self.old) (KeepsSelected N (file self.old) (D.view disk.old).reads) (D.view disk.old) (D.view disk.new) }
        ensures slot { D.tells → is_broken self.old ≡ false → SelectsSame N (file self.old) (D.view disk.old).reads (D.view disk.new).reads }
        ensures length { D.tells → is_broken self.old ≡ false → Throughout (λ g. g ≡ file self.old) (IsNoLonger N (file self.old) (D.view disk.old).reads) (D.view disk.old) (D.view disk.new) }
        ensures calls { D.tells → CallsAtMost 1 0 (λ g. g ≡ file self.old) (D.view disk.old) (D.view disk.new) }
        ensures fault { IsErrOf result JournalFault.Disk → is_broken self.new ≡ true }
        ensures cause { HasOwnCause (IsOwn (file self.old)) (IsErrOf result JournalFault.Disk) (D.view disk.old) (D.view disk.new) }
        ensures blame { HasCause (file self.old) (IsErrOf result JournalFault.Disk) (D.view disk.old) (D.view disk.new) }
        ensures broken { IsErrOf result JournalFault.Broken ↔ (is_broken self.old ≡ true) }
        ensures kept { KeptAtError (IsErr result) (IsErrOf result JournalFault.Broken) self.old self.new disk.old disk.new }
    {
        if self.broken {
            return Err(JournalFault::Broken);
        }
        if put_free(disk, self.file, self.selected, &body).is_err() {
            self.broken = true;
            return Err(JournalFault::Disk);
        }
        self.written = Some(body);
        self.prepared = None;
        Ok(())
    }

    /// Syncs the body that `put_slot` wrote, so that it may be selected; nothing reads otherwise than before. `Disk`
    /// only where a device call on its file failed; from then on `Broken`, until it is opened again.
    pub fn sync_slot<D: Disk>(&mut self, disk: &mut D) -> Result<(), JournalFault>
        requires represents { D.tells → is_broken self.old ≡ false → Represents self.old (D.view disk.old) }
        requires written { is_broken self.old ≡ false → written self.old ≢ None }
        ensures last { last self.new ≡ last self.old }
        ensures written { OnOk result (written self.new ≡ None) }
        ensures prepared { OnOk result (prepared self.new ≡ written self.old) }
        ensures whole { OnOk result (is_broken self.new ≡ false) }
        ensures represents { D.tells → is_broken self.new ≡ false → Represents self.new (D.view disk.new) }
        ensures unchanged { D.tells → is_broken self.old ≡ false → Unchanged (D.view disk.old) (D.view disk.new) }
        ensures any_moment { D.tells → is_broken self.old ≡ false → Throughout (λ g. g ≡ file self.old) (JournalHolds N (file self.old) (last self.old)) (D.view disk.old) (D.view disk.new) }
        ensures keeps { D.tells → is_broken self.old ≡ false → Throughout (λ g. g ≡ file self.old) (KeepsSelected N (file self.old) (D.view disk.old).reads) (D.view disk.old) (D.view disk.new) }
        ensures slot { D.tells → is_broken self.old ≡ false → SelectsSame N (file self.old) (D.view disk.old).reads (D.view disk.new).reads }
        ensures length { D.tells → is_broken self.old ≡ false → Throughout (λ g. g ≡ file self.old) (IsNoLonger N (file self.old) (D.view disk.old).reads) (D.view disk.old) (D.view disk.new) }
        ensures synced { D.tells → OnOk result ((D.view disk.new).syncs (file self.old) ≡ (D.view disk.old).syncs (file self.old) + 1) }
        ensures calls { D.tells → CallsAtMost 0 1 (λ g. g ≡ file self.old) (D.view disk.old) (D.view disk.new) }
        ensures fault { IsErrOf result JournalFault.Disk → is_broken self.new ≡ true }
        ensures cause { HasOwnCause (IsOwn (file self.old)) (IsErrOf result JournalFault.Disk) (D.view disk.old) (D.view disk.new) }
        ensures blame { HasCause (file self.old) (IsErrOf result JournalFault.Disk) (D.view disk.old) (D.view disk.new) }
        ensures broken { IsErrOf result JournalFault.Broken ↔ (is_broken self.old ≡ true) }
        ensures kept { KeptAtError (IsErr result) (IsErrOf result JournalFault.Broken) self.old self.new disk.old disk.new }
    {
        if self.broken {
            return Err(JournalFault::Broken);
        }
        if disk.sync(self.file).is_err() {
            self.broken = true;
            return Err(JournalFault::Disk);
        }
        self.prepared = self.written;
        self.written = None;
        Ok(())
    }

    /// Writes a body into the free slot, and syncs: no crash leaves it as the last entry yet, and the one before
    /// stays. `Disk` only where a device call on its file failed; from then on `Broken`, until it is opened again.
    pub fn write_slot<D: Disk>(&mut self, disk: &mut D, body: [u8; N]) -> Result<(), JournalFault>
        requires size { (0 < N) × (N ≤ 120) }
        requires represents { D.tells → is_broken self.old ≡ false → Represents self.old (D.view disk.old) }
        ensures last { last self.new ≡ last self.old }
        ensures prepared { OnOk result (prepared self.new ≡ Some body.entry) }
        ensures whole { OnOk result (is_broken self.new ≡ false) }
        ensures represents { D.tells → is_broken self.new ≡ false → Represents self.new (D.view disk.new) }
        ensures any_moment { D.tells → is_broken self.old ≡ false → Throughout (λ g. g ≡ file self.old) (JournalHolds N (file self.old) (last self.old)) (D.view disk.old) (D.view disk.new) }
        ensures keeps { D.tells → is_broken self.old ≡ false → Throughout (λ g. g ≡ file self.old) (KeepsSelected N (file self.old) (D.view disk.old).reads) (D.view disk.old) (D.view disk.new) }
        ensures slot { D.tells → is_broken self.old ≡ false → SelectsSame N (file self.old) (D.view disk.old).reads (D.view disk.new).reads }
        ensures length { D.tells → is_broken self.old ≡ false → Throughout (λ g. g ≡ file self.old) (IsNoLonger N (file self.old) (D.view disk.old).reads) (D.view disk.old) (D.view disk.new) }
        ensures synced { D.tells → OnOk result ((D.view disk.new).syncs (file self.old) ≡ (D.view disk.old).syncs (file self.old) + 1) }
        ensures calls { D.tells → CallsAtMost 1 1 (λ g. g ≡ file self.old) (D.view disk.old) (D.view disk.new) }
        ensures fault { IsErrOf result JournalFault.Disk → is_broken self.new ≡ true }
        ensures cause { HasOwnCause (IsOwn (file self.old)) (IsErrOf result JournalFault.Disk) (D.view disk.old) (D.view disk.new) }
        ensures blame { HasCause (file self.old) (IsErrOf result JournalFault.Disk) (D.view disk.old) (D.view disk.new) }
        ensures broken { IsErrOf result JournalFault.Broken ↔ (is_broken self.old ≡ true) }
        ensures kept { KeptAtError (IsErr result) (IsErrOf result JournalFault.Broken) self.old self.new disk.old disk.new }
    {
        self.put_slot(disk, body)?;
        self.sync_slot(disk)
    }

    /// Selects the slot with the prepared body, and syncs: from then on that one is the last entry. `Disk` only where
    /// a device call on its file failed; from then on `Broken`, until it is opened again.
    pub fn select<D: Disk>(&mut self, disk: &mut D) -> Result<(), JournalFault>
        requires size { (0 < N) × (N ≤ 120) }
        requires represents { D.tells → is_broken self.old ≡ false → Represents self.old (D.view disk.old) }
        requires prepared { is_broken self.old ≡ false → prepared self.old ≢ None }
        ensures last { OnOk result (last self.new ≡ prepared self.old) }
        ensures prepared { OnOk result (prepared self.new ≡ None) }
        ensures whole { OnOk result (is_broken self.new ≡ false) }
        ensures represents { D.tells → is_broken self.new ≡ false → Represents self.new (D.view disk.new) }
        ensures any_moment { D.tells → is_broken self.old ≡ false → Throughout (λ g. g ≡ file self.old) (IsBeforeOrAfter N (file self.old) (last self.old) (prepared self.old)) (D.view disk.old) (D.view disk.new) }
        ensures keeps { D.tells → is_broken self.old ≡ false → Throughout (λ g. g ≡ file self.old) (KeepsSelected N (file self.old) (D.view disk.old).reads) (D.view disk.old) (D.view disk.new) }
        ensures length { D.tells → is_broken self.old ≡ false → Throughout (λ g. g ≡ file self.old) (IsNoLonger N (file self.old) (D.view disk.old).reads) (D.view disk.old) (D.view disk.new) }
        ensures synced { D.tells → OnOk result ((D.view disk.new).syncs (file self.old) ≡ (D.view disk.old).syncs (file self.old) + 1) }
        ensures calls { D.tells → CallsAtMost 1 1 (λ g. g ≡ file self.old) (D.view disk.old) (D.view disk.new) }
        ensures fault { IsErrOf result JournalFault.Disk → is_broken self.new ≡ true }
        ensures cause { HasOwnCause (IsOwn (file self.old)) (IsErrOf result JournalFault.Disk) (D.view disk.old) (D.view disk.new) }
        ensures blame { HasCause (file self.old) (IsErrOf result JournalFault.Disk) (D.view disk.old) (D.view disk.new) }
        ensures broken { IsErrOf result JournalFault.Broken ↔ (is_broken self.old ≡ true) }
        ensures kept { KeptAtError (IsErr result) (IsErrOf result JournalFault.Broken) self.old self.new disk.old disk.new }
    {
        if self.broken {
            return Err(JournalFault::Broken);
        }
        if select_free(disk, self.file, self.selected).is_err() {
            self.broken = true;
            return Err(JournalFault::Disk);
        }
        self.selected = Some(Slot::free(self.selected));
        self.last = self.prepared;
        self.prepared = None;
        Ok(())
    }

    /// Adds an entry, by both steps: at every moment a crash leaves the last entry before or this one, and after Ok
    /// this one alone. `Disk` only where a device call on its file failed; from then on `Broken`, until it is opened
    /// again.
    pub fn append<D: Disk>(&mut self, disk: &mut D, body: [u8; N]) -> Result<(), JournalFault>
        requires size { (0 < N) × (N ≤ 120) }
        requires represents { D.tells → is_broken self.old ≡ false → Represents self.old (D.view disk.old) }
        ensures last { OnOk result (last self.new ≡ Some body.entry) }
        ensures prepared { OnOk result (prepared self.new ≡ None) }
        ensures whole { OnOk result (is_broken self.new ≡ false) }
        ensures represents { D.tells → is_broken self.new ≡ false → Represents self.new (D.view disk.new) }
        ensures any_moment { D.tells → is_broken self.old ≡ false → Throughout (λ g. g ≡ file self.old) (IsBeforeOrAfter N (file self.old) (last self.old) (Some body.entry)) (D.view disk.old) (D.view disk.new) }
        ensures keeps { D.tells → is_broken self.old ≡ false → Throughout (λ g. g ≡ file self.old) (KeepsSelected N (file self.old) (D.view disk.old).reads) (D.view disk.old) (D.view disk.new) }
        ensures length { D.tells → is_broken self.old ≡ false → Throughout (λ g. g ≡ file self.old) (IsNoLonger N (file self.old) (D.view disk.old).reads) (D.view disk.old) (D.view disk.new) }
        ensures synced { D.tells → OnOk result ((D.view disk.new).syncs (file self.old) ≡ (D.view disk.old).syncs (file self.old) + 2) }
        ensures calls { D.tells → CallsAtMost 2 2 (λ g. g ≡ file self.old) (D.view disk.old) (D.view disk.new) }
        ensures fault { IsErrOf result JournalFault.Disk → is_broken self.new ≡ true }
        ensures cause { HasOwnCause (IsOwn (file self.old)) (IsErrOf result JournalFault.Disk) (D.view disk.old) (D.view disk.new) }
        ensures blame { HasCause (file self.old) (IsErrOf result JournalFault.Disk) (D.view disk.old) (D.view disk.new) }
        ensures broken { IsErrOf result JournalFault.Broken ↔ (is_broken self.old ≡ true) }
        ensures kept { KeptAtError (IsErr result) (IsErrOf result JournalFault.Broken) self.old self.new disk.old disk.new }
    {
        self.write_slot(disk, body)?;
        self.select(disk)
    }
}
