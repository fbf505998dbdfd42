//! The files of a store, from which a disk in memory is made anew for each run.

use anyhow::{Result, anyhow};
use lsv_disk::{Disk, DiskFault, FileId, MemDisk, Owner, Part};
use std::alloc::Global;

/// The files that a log may have, by name.
const PARTS: [(&str, Part); 10] = [
    ("log.json", Part::Head),
    ("exit.json", Part::Exit),
    ("timing", Part::Timing),
    ("stdin", Part::Stdin),
    ("stdout", Part::Stdout),
    ("stderr", Part::Stderr),
    ("ttyin", Part::Ttyin),
    ("ttyout", Part::Ttyout),
    ("slots", Part::Slots),
    ("commit", Part::Commit),
];

/// The calls by which a file is made that may fail.
const CALLS: u64 = 2;

/// A file of a log, and its bytes.
#[derive(Drop)]
pub struct File {
    id: FileId,
    bytes: Vec<u8>,
}

/// The part of this name.
fn part_of(name: &str) -> Option<Part> {
    for (known, part) in PARTS {
        if name == known {
            return Some(part);
        }
    }
    None
}

/// A file of three words: the number of its log, the name of its part, and the digits of its bytes.
pub fn file_of(alloc: Global, words: &str) -> Result<File> {
    let (number, rest) = words.split_once(' ').ok_or(anyhow!("a file"))?;
    let (part, digits) = rest.split_once(' ').unwrap_or((rest, ""));
    let part = part_of(part).ok_or(anyhow!("a part"))?;
    let id = FileId::new(Owner::Log(number.parse::<u32>()?), part);
    let bytes = hex::decode(alloc, digits)?;
    Ok(File { id, bytes })
}

/// Makes a file, which isn't there.
fn make(disk: &mut MemDisk, file: &File) -> Result<(), DiskFault> {
    match disk.length(file.id) {
        Ok(None) => (),
        _ => return Err(DiskFault),
    }
    disk.create(file.id)?;
    disk.write_at(file.id, 0, &file.bytes)
}

/// A disk with these files, whose call of this number fails; 0 for none.
pub fn disk_of(alloc: Global, files: &[File], fail: u64) -> Result<MemDisk> {
    let made = (files.len() as u64).saturating_mul(CALLS);
    let fail = if fail == 0 {
        0
    } else {
        made.saturating_add(fail)
    };
    let mut disk = MemDisk::new(alloc, &[fail]).map_err(|_| anyhow!("out of memory"))?;
    for file in files {
        make(&mut disk, file).map_err(|_| anyhow!("the file is there"))?;
    }
    Ok(disk)
}
