// Which of the files that are made together are synced, so that all of them are on the disk.
ghost use Rattle.std.specs.Prelude.{◌≡◌, ◌≤◌, ◌<◌, ◌-◌, ◌||◌, [], ℕ, true, not, length, if◌then◌else◌, IfOk, OnOk, OnErr};
ghost use Rattle.std.specs.List.Sorted.{IsPermutation};
ghost use Rattle.lsv_real_disk.specs.Made.{block_of, brings, brings_inode, in_block, syncs, with_synced};

use lsv_disk::{FileId, Part};
use std::alloc::{AllocError, Global};
use std::marker::Model;

/// The bytes of an inode where a file system was made with no other size.
const INODE: u64 = 256;

/// The longest block that is reckoned with: a file may tell of a longer one than the table of inodes is written by, and
/// where fewer inodes are taken for a block, files are synced that needn't be, and none is left out.
const LONGEST: u64 = 4096;

/// The table of inodes of a file system, by the length of its blocks in bytes, as the system tells it.
#[derive(Clone, Copy)]
pub struct InodeTable {
    pub block_length: u64,
}

impl InodeTable {
    /// The block in which the inode of this number stands; the first one has 1.
    fn block_of(self, number: u64) -> u64
        ensures { result ≡ block_of self.block_length number }
    {
        number.saturating_sub(1) / self.in_block()
    }

    /// How many inodes stand after this one in its block.
    fn behind(self, number: u64) -> usize {
        let count = self.in_block();
        (count - 1 - number.saturating_sub(1) % count) as usize
    }

    /// How many inodes a block is taken to have.
    fn in_block(self) -> u64
        ensures count { result ≡ in_block self.block_length }
        ensures some { 1 ≤ result }
    {
        (self.block_length.min(LONGEST) / INODE).max(1)
    }
}

/// A file that was just made, and the number of its inode.
#[derive(Clone, Copy)]
pub struct NewFile {
    pub id: FileId,
    pub inode: u64,
}

/// The files that are made together in one folder, and those of them that are to be synced. A file system without a
/// journal brings names to the disk by a sync of their folder, and an inode by a sync of any file whose inode stands in
/// the same block of the table. So the first file of each block is synced; the folder's own sync brings its block.
#[derive(Drop)]
pub struct Made {
    table: InodeTable,
    folder: u64,
    to_sync: Vec<NewFile>,
}

impl Model for Made {
    ghost use Rattle.lsv_real_disk.specs.Made.{MadeView};

    ghost Value = { MadeView };

    ghost view = { λ made. record { table = made.table; folder = made.folder; to_sync = made.to_sync.items } };
}

impl Made {
    /// No file yet, in a folder whose inode has this number.
    pub fn new(alloc: Global, table: InodeTable, folder: u64) -> Self
        ensures { result ≡ record { table = table; folder = folder; to_sync = [] } }
    {
        Made {
            table,
            folder,
            to_sync: Vec::new(alloc),
        }
    }

    /// The order in which files are made: mostly their inodes follow on the folder's. That of slots is synced for its
    /// gate. Where all have room in the folder's block it is made first, so that its gate sets out while the others are
    /// made; else it is made as the first of the next block, whose sync is its own then. The first of the parts, which is
    /// the head where all of a log are made, is made last of the others, mostly in that block too, which the first flush of
    /// both then writes once.
    pub fn in_order(&self, alloc: Global, parts: &[Part]) -> Result<Vec<Part>, AllocError>
        ensures { IfOk result (λ order. IsPermutation parts.now order.items) }
    {
        let mut order = Vec::with_capacity(alloc, parts.len())?;
        order.extend_from_slice(parts)?;
        order.reverse();
        match order.iter().position(|part| *part == Part::Slots) {
            Some(i) => Ok(moved(order, i, self.place_of_slots(parts.len()))?),
            None => Ok(order),
        }
    }

    /// After how many of this many files that of slots is made.
    fn place_of_slots(&self, count: usize) -> usize {
        let beside = self.table.behind(self.folder);
        if count <= beside { 0 } else { beside }
    }

    /// Notes a file that was made. It is to be synced if it was written to, or if no sync brings its block yet. Where that
    /// fails nothing was noted.
    pub fn note(&mut self, file: NewFile, is_written: bool) -> Result<(), AllocError>
        ensures brought { OnOk result (brings_inode self.new file.inode ≡ true) }
        ensures stays { (inode : ℕ) → brings_inode self.old inode ≡ true → brings_inode self.new inode ≡ true }
        ensures noted { OnOk result (self.new ≡ (if is_written || not (brings_inode self.old file.inode) then with_synced self.old file else self.old)) }
        ensures err { OnErr result (self.new ≡ self.old) }
    {
        if is_written || !self.brings(self.table.block_of(file.inode)) {
            self.to_sync.push(file)?;
        }
        Ok(())
    }

    /// Whether a sync brings a block: the folder's own, or that of a file that is to be synced.
    fn brings(&self, block: u64) -> bool
        ensures { result ≡ brings self.now block }
    {
        self.table.block_of(self.folder) == block || self.syncs(block)
    }

    /// Whether a file that is to be synced stands in a block.
    fn syncs(&self, block: u64) -> bool
        ensures { result ≡ syncs self.now block }
    {
        let table = self.table;
        self.to_sync
            .iter()
            .any(|file| table.block_of(file.inode) == block)
    }

    /// The files to sync, in the order in which they were noted; each once where each was noted once.
    pub fn to_sync(&self) -> &[NewFile]
        ensures { result.now ≡ self.now.to_sync }
    {
        self.to_sync.as_slice()
    }
}

/// The parts with one of them moved to another place, or to the end where there are fewer.
fn moved(mut order: Vec<Part>, from: usize, to: usize) -> Result<Vec<Part>, AllocError>
    requires { from < length order.items }
    ensures { IfOk result (λ moved. IsPermutation order.items moved.items) }
{
    let part = order.remove(from);
    order.insert(to.min(order.len()), part)?;
    Ok(order)
}
