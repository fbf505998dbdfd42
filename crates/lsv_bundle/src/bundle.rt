ghost use Rattle.std.specs.Prelude.{◌≡◌, ◌≢◌, ◌⊎◌, ℕ, ◌+◌, ◌-◌, ◌≤◌, ◌<◌, true, false, Option, Some, None, [], ◌++◌, length, take, drop, map, replicate, IsErr, IsOk, IfOk, IfErr, OnOk, OnErr, IsErrOf, ◌↔◌};
ghost use Rattle.lsv_defs.specs.Pieces.{piece};
ghost use Rattle.lsv_disk.specs.declared.file.FileId.{FileId};
ghost use Rattle.lsv_disk.specs.declared.file.Part.{Part};
ghost use Rattle.lsv_disk.specs.Files.{file_of};
ghost use Rattle.lsv_disk.specs.View.{IsSynced, HasCause, HasOwnCause};
ghost use Rattle.lsv_disk.specs.Throughout.{Throughout, OnlyReads, CallsAtMost, WritesOneOf};
ghost use Rattle.lsv_journal.specs.Last.{IsSomeCrashOf, JournalHolds, MayBeMade};
ghost use Rattle.lsv_journal.specs.Value as journals;
ghost use Rattle.lsv_journal.specs.Represents as represents;
ghost use Rattle.lsv_bundle.specs.declared.fault.BundleFault.{BundleFault};
ghost use Rattle.lsv_bundle.specs.Shape.{IsPart, journal_of, IsWritable, IsOwnFile};
ghost use Rattle.lsv_bundle.specs.Body.{IsBody};
ghost use Rattle.lsv_bundle.specs.Value.{BundleView, committed_length, staged, unstaged, next_body, IsStaged, IsFresh, KeptBy};
ghost use Rattle.lsv_bundle.specs.Committed.{IsBeingMade, committed_bytes};
ghost use Rattle.lsv_bundle.specs.Represents.{Represents};
ghost use Rattle.lsv_bundle.specs.Calls.{IsFull};

use crate::data_file::{DataFile, FILE_LIMIT, data_files, put_lengths};
use crate::open::make_files;
use crate::shape::index_of;
use crate::{Body, BundleFault, Shape};
use lsv_disk::{Disk, FileId, Owner, Part};
use lsv_journal::Journal;
use std::alloc::Global;
use std::marker::Model;

/// A journal and up to eight data files. Its last entry says how many bytes of each data file are committed; what
/// is staged stands after them only once the next entry is there.
#[derive(Drop)]
pub struct Bundle {
    pub(crate) owner: Owner,
    pub(crate) shape: Shape,
    pub(crate) last: Option<Body>,
    pub(crate) prepared: Option<Body>,
    pub(crate) files: Vec<DataFile>,
    pub(crate) is_broken: bool,
    pub(crate) journal: Journal<89>,
}

impl Model for Bundle {
    ghost use Rattle.lsv_bundle.specs.Value.{BundleView};
    ghost use Rattle.lsv_bundle.specs.Represents.{WellFormed};

    ghost Value = { BundleView };

    ghost view = { λ b. record { owner = b.owner; shape = b.shape; last = b.last; prepared = b.prepared; files = b.files.items; is_broken = b.is_broken; journal = b.journal } };

    ghost invariant = { λ b. WellFormed (record { owner = b.owner; shape = b.shape; last = b.last; prepared = b.prepared; files = b.files.items; is_broken = b.is_broken; journal = b.journal }) };
}

/// In place of the body of an entry, where there is none.
const NO_BODY: Body = Body {
    kind: 0,
    count: 0,
    elapsed: 0,
    lens: [0; 8],
    extra: 0,
};

/// The eight lengths of the next entry.
fn next_lengths(files: &[DataFile]) -> [u64; 8]
    requires { length files.now ≤ 8 }
    ensures { result ≡ map (λ file. file.committed + length file.staged) files.now ++ replicate (8 - length files.now) 0 }
{
    let mut lengths = [0; 8];
    put_lengths(&mut lengths[..files.len()], files);
    lengths
}

/// Begins the journal of an owner, whose file was made.
fn begin_journal<D: Disk>(disk: &mut D, owner: Owner) -> Result<Journal<89>, BundleFault>
    requires may_be_made { D.tells → MayBeMade 89 (journal_of owner) (D.view disk.old) }
    requires there { D.tells → (D.view disk.old).reads (journal_of owner) ≢ None }
    requires synced_before { D.tells → IsSynced (D.view disk.old) (journal_of owner) }
    ensures file { IfOk result (λ j. journals.file j ≡ journal_of owner) }
    ensures last { IfOk result (λ j. journals.last j ≡ None) }
    ensures prepared { IfOk result (λ j. journals.prepared j ≡ None) }
    ensures whole { IfOk result (λ j. journals.is_broken j ≡ false) }
    ensures represents { D.tells → IfOk result (λ j. represents.Represents j (D.view disk.new)) }
    ensures again { D.tells → MayBeMade 89 (journal_of owner) (D.view disk.new) }
    ensures any_moment { D.tells → Throughout (λ g. g ≡ journal_of owner) (λ image. IsSomeCrashOf 89 (journal_of owner) (D.view disk.old) image ⊎ JournalHolds 89 (journal_of owner) None image) (D.view disk.old) (D.view disk.new) }
    ensures calls { D.tells → CallsAtMost 1 1 (λ g. g ≡ journal_of owner) (D.view disk.old) (D.view disk.new) }
    ensures fault { IfErr result (λ e. e ≡ BundleFault.Disk) }
    ensures cause { HasCause (journal_of owner) (IsErr result) (D.view disk.old) (D.view disk.new) }
{
    let Ok(journal) = Journal::begin(disk, FileId::new(owner, Part::Slots)) else {
        return Err(BundleFault::Disk);
    };
    Ok(journal)
}

impl Bundle {
    /// Makes a bundle without an entry, where its journal may be made: what a making that a crash or a fault ended has
    /// left is made again, and whatever its data files have then isn't committed. `Disk` only where a device call on one
    /// of its data files or on its journal's file of slots failed; then too it has no entry.
    pub fn create<D: Disk>(
        alloc: Global,
        disk: &mut D,
        owner: Owner,
        shape: Shape,
    ) -> Result<Bundle, BundleFault>
        requires may_be_made { D.tells → MayBeMade 89 (journal_of owner) (D.view disk.old) }
        ensures fresh { IfOk result (λ b. IsFresh owner shape b) }
        ensures last { IfOk result (λ b. b.last ≡ None) }
        ensures lengths { IfOk result (λ b. (part : Part) → IsPart shape part → committed_length b part ≡ 0) }
        ensures represents { D.tells → IfOk result (λ b. Represents b (D.view disk.new)) }
        ensures again { D.tells → MayBeMade 89 (journal_of owner) (D.view disk.new) }
        ensures any_moment { D.tells → Throughout (IsWritable owner shape) (IsBeingMade owner shape (D.view disk.old)) (D.view disk.old) (D.view disk.new) }
        ensures calls { D.tells → WritesOneOf (journal_of owner) 1 2 (IsWritable owner shape) (D.view disk.old) (D.view disk.new) }
        ensures fault { IfErr result (λ e. (e ≡ BundleFault.Disk) ⊎ (e ≡ BundleFault.NoMem)) }
        ensures cause { HasOwnCause (IsOwnFile owner shape) (IsErrOf result BundleFault.Disk) (D.view disk.old) (D.view disk.new) }
        ensures blame { HasOwnCause (IsWritable owner shape) (IsErrOf result BundleFault.Disk) (D.view disk.old) (D.view disk.new) }
    {
        let files = data_files(alloc, shape, &NO_BODY.lens)?;
        make_files(disk, owner, shape.all_parts())?;
        let journal = begin_journal(disk, owner)?;
        Ok(Bundle {
            owner,
            shape,
            last: None,
            prepared: None,
            files,
            is_broken: false,
            journal,
        })
    }

    /// What the last entry says. There is one.
    pub fn last(&self) -> Body
        requires { self.now.last ≢ None }
        ensures last { self.now.last ≡ Some result }
        ensures is_body { IsBody result }
    {
        self.last.unwrap_or(NO_BODY)
    }

    /// What the next entry says, where it is written with these numbers.
    pub fn next_body(&self, kind: u8, count: u64, elapsed: u64, extra: u64) -> Body
        ensures next { result ≡ next_body self.now kind count elapsed extra }
        ensures is_body { IsBody result }
    {
        Body::new(kind, count, elapsed, next_lengths(&self.files), extra)
    }

    /// Stages these bytes of a part after what is staged. `Full(part)` exactly where the file would pass 2^40
    /// bytes with them, `Broken` exactly where the bundle is: where it fails, it is unchanged.
    pub fn stage(&mut self, part: Part, bytes: &[u8]) -> Result<(), BundleFault>
        requires part { IsPart self.old.shape part }
        ensures value { OnOk result (IsStaged part (staged self.old part ++ bytes.now) self.old self.new) }
        ensures refused { OnErr result (self.new ≡ self.old) }
        ensures room { OnOk result ((self.old.is_broken ≡ false) × (IsFull self.old part (length bytes.now) → ⊥)) }
        ensures broken { IsErrOf result BundleFault.Broken ↔ (self.old.is_broken ≡ true) }
        ensures full { IsErrOf result (BundleFault.Full part) → (self.old.is_broken ≡ false) × IsFull self.old part (length bytes.now) }
        ensures fault { IfErr result (λ e. (e ≡ BundleFault.Broken) ⊎ (e ≡ BundleFault.Full part) ⊎ (e ≡ BundleFault.NoMem)) }
    {
        if self.is_broken {
            return Err(BundleFault::Broken);
        }
        let file = &mut self.files[index_of(part)];
        if file.next_length().saturating_add(bytes.len() as u64) > FILE_LIMIT {
            return Err(BundleFault::Full(part));
        }
        file.stage(bytes)?;
        Ok(())
    }

    /// Keeps of a part this many of the staged bytes, and forgets those after them. Where they were all that was staged
    /// since, the bundle is as it was before. It takes no memory.
    pub fn unstage(&mut self, part: Part, keep: usize)
        requires part { IsPart self.old.shape part }
        ensures value { IsStaged part (take keep (staged self.old part)) self.old self.new }
        ensures undone { (before : BundleView) → unstaged self.old ≡ unstaged before → ((p : Part) → IsPart self.old.shape p → staged self.new p ≡ staged before p) → self.new ≡ before }
    {
        self.files[index_of(part)].unstage(keep);
    }

    /// Reads committed bytes of a part from an offset on, as many as there are and as the buffer takes. `Disk` only
    /// where a device call on its file failed: then the bundle is broken, and else as it was. It takes no memory.
    pub fn read<D: Disk>(
        &mut self,
        disk: &mut D,
        part: Part,
        at: u64,
        buf: &mut [u8],
    ) -> Result<usize, BundleFault>
        requires part { IsPart self.old.shape part }
        requires represents { D.tells → self.old.is_broken ≡ false → Represents self.old (D.view disk.old) }
        ensures within { IfOk result (λ n. n ≤ length buf.old) }
        ensures count { D.tells → IfOk result (λ n. n ≡ length (piece (committed_bytes self.old (D.view disk.old) part) at (length buf.old))) }
        ensures bytes { D.tells → IfOk result (λ n. buf.new ≡ piece (committed_bytes self.old (D.view disk.old) part) at (length buf.old) ++ drop n buf.old) }
        ensures kept { KeptBy (IsOk result) self.old self.new }
        ensures reads { D.tells → OnlyReads (D.view disk.old) (D.view disk.new) }
        ensures represents { D.tells → self.new.is_broken ≡ false → Represents self.new (D.view disk.new) }
        ensures fault { IfErr result (λ e. (e ≡ BundleFault.Disk) × (self.new.is_broken ≡ true)) }
        ensures cause { HasCause (file_of self.old.owner part) (IsErr result) (D.view disk.old) (D.view disk.new) }
    {
        let left = self.files[index_of(part)].committed_from(at);
        let room = left.min(buf.len() as u64) as usize;
        let file = FileId::new(self.owner, part);
        let Ok(count) = disk.read_at(file, at, &mut buf[..room]) else {
            self.is_broken = true;
            return Err(BundleFault::Disk);
        };
        Ok(count)
    }
}
