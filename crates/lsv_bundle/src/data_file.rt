ghost use Rattle.std.specs.Prelude.{◌≡◌, ◌≢◌, ◌↔◌, ◌⊎◌, ℕ, ◌+◌, ◌-◌, ◌≤◌, ◌<◌, ◌^◌, List, [], ◌++◌, Option, length, take, map, slice_index, IsErr, IfOk, IfErr, OnOk, OnErr};
ghost use Rattle.lsv_disk.specs.declared.file.FileId.{FileId};
ghost use Rattle.lsv_disk.specs.Files.{file_of};
ghost use Rattle.lsv_disk.specs.View.{HasOwnCause};
ghost use Rattle.lsv_disk.specs.Throughout.{Throughout, Unchanged, CallsAtMost};
ghost use Rattle.lsv_bundle.specs.declared.fault.BundleFault.{BundleFault};
ghost use Rattle.lsv_bundle.specs.Shape.{parts_of, index_of};
ghost use Rattle.lsv_bundle.specs.Committed.{HasPrefix, prefix_at};
ghost use Rattle.lsv_bundle.specs.Represents.{Each, IsDurableFile, IsWritten};
ghost use Rattle.lsv_bundle.specs.InnerFiles.{IsAmong, IsStagedAmong, Differ, KeepsPrefix, IsAppended, IsSyncedFile, IsSyncedOnce, commit_file, cut_to};

use crate::shape::index_of;
use crate::{BundleFault, Shape};
use lsv_disk::{Disk, DiskFault, FileId, Owner, Part};
use std::alloc::{AllocError, Global};
use std::marker::Model;

/// The most bytes that a data file may have.
pub(crate) const FILE_LIMIT: u64 = 1 << 40;

/// A buffer of more bytes is let go once what is staged in it is committed.
const KEPT_CAPACITY: usize = 1 << 17;

/// A data file of a bundle: how many of its bytes are committed, and what is staged after them.
#[derive(Debug, Drop)]
pub(crate) struct DataFile {
    part: Part,
    committed: u64,
    staged: Vec<u8>,
}

impl Model for DataFile {
    ghost use Rattle.std.specs.Prelude.{◌+◌, ◌<◌, ◌^◌, length};
    ghost use Rattle.lsv_bundle.specs.Value.{FileView};

    ghost Value = { FileView };

    ghost view = { λ file. record { part = file.part; committed = file.committed; staged = file.staged.items } };

    ghost invariant = { λ file. file.committed + length file.staged.items < 2 ^ 64 };
}

impl DataFile {
    pub(crate) fn new(alloc: Global, part: Part, committed: u64) -> Self
        ensures { result ≡ record { part = part; committed = committed; staged = [] } }
    {
        DataFile {
            part,
            committed,
            staged: Vec::new(alloc),
        }
    }

    /// How many bytes are committed with the next entry.
    pub(crate) fn next_length(&self) -> u64
        ensures next { result ≡ self.now.committed + length self.now.staged }
    {
        self.committed + self.staged.len() as u64
    }

    /// How many of its bytes are committed from that offset on.
    pub(crate) fn committed_from(&self, at: u64) -> u64
        ensures { result ≡ self.now.committed - at }
    {
        self.committed.saturating_sub(at)
    }

    /// Stages these bytes after what is staged, which all together are fewer than 2^64.
    pub(crate) fn stage(&mut self, bytes: &[u8]) -> Result<(), AllocError>
        requires fits { self.old.committed + length self.old.staged + length bytes.now < 2 ^ 64 }
        ensures ok { OnOk result (self.new ≡ record { part = self.old.part; committed = self.old.committed; staged = self.old.staged ++ bytes.now }) }
        ensures err { OnErr result (self.new ≡ self.old) }
    {
        self.staged.extend_from_slice(bytes)
    }

    /// Keeps this many of the staged bytes, and forgets those after them.
    pub(crate) fn unstage(&mut self, keep: usize)
        ensures { self.new ≡ record { part = self.old.part; committed = self.old.committed; staged = take keep self.old.staged } }
    {
        self.staged.truncate(keep);
    }

    /// What is staged is committed.
    fn commit(&mut self)
        ensures { self.new ≡ commit_file self.old }
    {
        self.committed += self.staged.len() as u64;
        empty(&mut self.staged);
    }

    /// This many bytes are committed from now on, and nothing is staged.
    fn cut(&mut self, committed: u64)
        ensures { self.new ≡ record { part = self.old.part; committed = committed; staged = [] } }
    {
        self.committed = committed;
        self.staged.clear();
    }

    fn file(&self, owner: Owner) -> FileId
        ensures { result ≡ file_of owner self.now.part }
    {
        FileId::new(owner, self.part)
    }

    /// Writes what is staged after the committed bytes.
    fn write<D: Disk>(&self, disk: &mut D, owner: Owner) -> Result<(), DiskFault>
        requires durable { D.tells → IsDurableFile owner (D.view disk.old) self.now }
        ensures any_moment { D.tells → Throughout (λ g. g ≡ file_of owner self.now.part) (λ image. KeepsPrefix owner (D.view disk.old) image self.now) (D.view disk.old) (D.view disk.new) }
        ensures crash { D.tells → (c : Option (List ℕ)) → (D.view disk.new).crash_states (file_of owner self.now.part) c → HasPrefix (prefix_at (D.view disk.old) (file_of owner self.now.part) self.now.committed) c }
        ensures appended { D.tells → OnOk result (IsAppended owner (D.view disk.old) (D.view disk.new) self.now) }
        ensures calls { D.tells → CallsAtMost 1 0 (λ g. (g ≡ file_of owner self.now.part) × (self.now.staged ≢ [])) (D.view disk.old) (D.view disk.new) }
        ensures cause { HasOwnCause (λ g. (g ≡ file_of owner self.now.part) × (self.now.staged ≢ [])) (IsErr result) (D.view disk.old) (D.view disk.new) }
    {
        if self.staged.is_empty() {
            return Ok(());
        }
        disk.write_at(self.file(owner), self.committed, &self.staged)
    }

    /// Syncs the file, where something is staged of it.
    fn sync<D: Disk>(&self, disk: &mut D, owner: Owner) -> Result<(), DiskFault>
        ensures durable { D.tells → OnOk result (IsSyncedFile owner (D.view disk.new) self.now) }
        ensures unchanged { D.tells → Unchanged (D.view disk.old) (D.view disk.new) }
        ensures once { D.tells → OnOk result (IsSyncedOnce owner (D.view disk.old) (D.view disk.new) self.now) }
        ensures calls { D.tells → CallsAtMost 0 1 (λ g. (g ≡ file_of owner self.now.part) × (self.now.staged ≢ [])) (D.view disk.old) (D.view disk.new) }
        ensures cause { HasOwnCause (λ g. (g ≡ file_of owner self.now.part) × (self.now.staged ≢ [])) (IsErr result) (D.view disk.old) (D.view disk.new) }
    {
        if self.staged.is_empty() {
            return Ok(());
        }
        disk.sync(self.file(owner))
    }
}

/// Empties a buffer. A large one is let go, so that one large turn doesn't hold its memory for good.
fn empty(buffer: &mut Vec<u8>)
    ensures { buffer.new.items ≡ [] }
{
    if buffer.capacity() > KEPT_CAPACITY {
        let alloc = *buffer.allocator();
        *buffer = Vec::new(alloc);
    } else {
        buffer.clear();
    }
}

/// Writes of each of the files what is staged.
pub(crate) fn write_all<D: Disk>(
    disk: &mut D,
    owner: Owner,
    files: &[DataFile],
) -> Result<(), DiskFault>
    requires durable { D.tells → Each (IsDurableFile owner (D.view disk.old)) files.now }
    requires differ { Differ files.now }
    ensures any_moment { D.tells → Throughout (IsAmong owner files.now) (λ image. Each (KeepsPrefix owner (D.view disk.old) image) files.now) (D.view disk.old) (D.view disk.new) }
    ensures appended { D.tells → OnOk result (Each (IsAppended owner (D.view disk.old) (D.view disk.new)) files.now) }
    ensures calls { D.tells → CallsAtMost 1 0 (IsStagedAmong owner files.now) (D.view disk.old) (D.view disk.new) }
    ensures cause { HasOwnCause (IsStagedAmong owner files.now) (IsErr result) (D.view disk.old) (D.view disk.new) }
{
    let [first, rest @ ..] = files else {
        return Ok(());
    };
    first.write(disk, owner)?;
    write_all(disk, owner, rest)
}

/// Syncs each of the files of which something is staged.
pub(crate) fn sync_all<D: Disk>(
    disk: &mut D,
    owner: Owner,
    files: &[DataFile],
) -> Result<(), DiskFault>
    requires differ { Differ files.now }
    ensures durable { D.tells → OnOk result (Each (IsSyncedFile owner (D.view disk.new)) files.now) }
    ensures unchanged { D.tells → Unchanged (D.view disk.old) (D.view disk.new) }
    ensures once { D.tells → OnOk result (Each (IsSyncedOnce owner (D.view disk.old) (D.view disk.new)) files.now) }
    ensures calls { D.tells → CallsAtMost 0 1 (IsStagedAmong owner files.now) (D.view disk.old) (D.view disk.new) }
    ensures cause { HasOwnCause (IsStagedAmong owner files.now) (IsErr result) (D.view disk.old) (D.view disk.new) }
{
    let [first, rest @ ..] = files else {
        return Ok(());
    };
    first.sync(disk, owner)?;
    sync_all(disk, owner, rest)
}

/// What is staged of each file is committed.
pub(crate) fn commit(files: &mut [DataFile])
    ensures { files.new ≡ map commit_file files.old }
{
    if files.is_empty() {
        return;
    }
    let (first, rest) = files.split_at_mut(1);
    first[0].commit();
    commit(rest);
}

/// This many bytes of each file are committed from now on, and nothing is staged.
pub(crate) fn cut(files: &mut [DataFile], lengths: &[u64])
    requires { length files.old ≤ length lengths.now }
    ensures { files.new ≡ cut_to files.old lengths.now }
{
    if files.is_empty() {
        return;
    }
    let (first, rest) = files.split_at_mut(1);
    first[0].cut(lengths[0]);
    cut(rest, &lengths[1..]);
}

/// How many bytes of each file are committed with the next entry.
pub(crate) fn put_lengths(lengths: &mut [u64], files: &[DataFile])
    requires { length lengths.old ≡ length files.now }
    ensures { lengths.new ≡ map (λ file. file.committed + length file.staged) files.now }
{
    let [first, rest @ ..] = files else {
        return;
    };
    let (place, later) = lengths.split_at_mut(1);
    place[0] = first.next_length();
    put_lengths(later, rest);
}

/// The data files of a shape, of which this many bytes are committed.
pub(crate) fn data_files(
    alloc: Global,
    shape: Shape,
    lengths: &[u64; 8],
) -> Result<Vec<DataFile>, BundleFault>
    ensures refused { IfErr result (λ e. e ≡ BundleFault.NoMem) }
    ensures items { IfOk result (λ files. files.items ≡ map (λ part. record { part = part; committed = slice_index lengths.now (index_of part); staged = [] }) (parts_of shape)) }
{
    let mut files = Vec::new(alloc);
    for part in shape.parts() {
        files.push(DataFile::new(alloc, *part, lengths[index_of(*part)]))?;
    }
    Ok(files)
}
