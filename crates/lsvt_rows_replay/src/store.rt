//! Stores in memory, made file by file.

use anyhow::{Result, anyhow};
use lsv_disk::{Disk, DiskFault, FileId, MemDisk, Owner, Part};
use lsvt_doubles::{Hostile, Plan};
use std::alloc::Global;

/// The files that a log, or an event log, may have, by name.
pub const PARTS: [(&str, Part); 11] = [
    ("log.json", Part::Head),
    ("exit.json", Part::Exit),
    ("timing", Part::Timing),
    ("stdin", Part::Stdin),
    ("stdout", Part::Stdout),
    ("stderr", Part::Stderr),
    ("ttyin", Part::Ttyin),
    ("ttyout", Part::Ttyout),
    ("slots", Part::Slots),
    ("commit", Part::Commit),
    ("lines", Part::Lines),
];

/// A store has at most this many lanes.
const LANES: u32 = 4;

/// A disk without files.
pub fn empty(alloc: Global) -> Result<MemDisk> {
    MemDisk::new(alloc, &[]).map_err(|_| anyhow!("out of memory"))
}

/// The part of this name.
fn part_of(name: &str) -> Option<Part> {
    for (known, part) in PARTS {
        if name == known {
            return Some(part);
        }
    }
    None
}

/// The file that two words name: a log's number, or `lane` or `events` and a lane after a point, and the name of a part.
pub fn file_of(owner: &str, part: &str) -> Option<FileId> {
    let part = part_of(part)?;
    let owner = match owner.split_once('.') {
        Some(("lane", lane)) => Owner::Numbers(lane.parse::<u32>().ok()?),
        Some(("events", lane)) => Owner::Events(lane.parse::<u32>().ok()?),
        Some(_) => return None,
        None => Owner::Log(owner.parse::<u32>().ok()?),
    };
    Some(FileId::new(owner, part))
}

/// Makes a file with these bytes, which isn't there.
fn make(disk: &mut MemDisk, f: FileId, bytes: &[u8]) -> Result<(), DiskFault> {
    match disk.length(f) {
        Ok(None) => (),
        _ => return Err(DiskFault),
    }
    disk.create(f)?;
    disk.write_at(f, 0, bytes)
}

/// Makes a file: its owner, its part, and the digits of its bytes.
pub fn put(alloc: Global, disk: &mut MemDisk, words: &str) -> Result<()> {
    let (owner, rest) = words.split_once(' ').ok_or(anyhow!("a file"))?;
    let (part, digits) = rest.split_once(' ').unwrap_or((rest, ""));
    let f = file_of(owner, part).ok_or(anyhow!("a file"))?;
    let bytes = hex::decode(alloc, digits)?;
    make(disk, f, &bytes).map_err(|_| anyhow!("the file is there"))
}

/// Makes the files of a log as those of log 1, if they don't exist.
fn copy_one(alloc: Global, disk: &mut MemDisk, number: u32) -> Result<()> {
    for (_, part) in PARTS {
        let Some(bytes) = disk.bytes(FileId::new(Owner::Log(1), part)) else {
            continue;
        };
        let bytes = bytes.to_vec(alloc)?;
        let f = FileId::new(Owner::Log(number), part);
        if disk.bytes(f).is_none() {
            make(disk, f, &bytes).map_err(|_| anyhow!("out of memory"))?;
        }
    }
    Ok(())
}

/// Makes the logs from one number to another as log 1 is.
pub fn copy(alloc: Global, disk: &mut MemDisk, words: &str) -> Result<()> {
    let (first, last) = words.split_once(' ').ok_or(anyhow!("two numbers"))?;
    let first = first.parse::<u32>()?;
    let last = last.parse::<u32>()?;
    for number in first..last {
        copy_one(alloc, disk, number)?;
    }
    copy_one(alloc, disk, last)
}

/// The files of the logs up to a number, and those of the numbers and the event logs.
fn files_up_to(alloc: Global, disk: &MemDisk, last: u32) -> Result<Vec<FileId>> {
    let mut files = Vec::new(alloc);
    for lane in 0..LANES {
        for f in [
            FileId::new(Owner::Numbers(lane), Part::Slots),
            FileId::new(Owner::Events(lane), Part::Slots),
            FileId::new(Owner::Events(lane), Part::Lines),
        ] {
            if disk.bytes(f).is_some() {
                files.push(f)?;
            }
        }
    }
    for before in 0..last {
        for (_, part) in PARTS {
            let f = FileId::new(Owner::Log(before + 1), part);
            if disk.bytes(f).is_some() {
                files.push(f)?;
            }
        }
    }
    Ok(files)
}

/// A copy of a store whose call of this number fails: one that asks for a length, or one that reads. How many calls made it.
pub fn hostile_copy(
    alloc: Global,
    disk: &MemDisk,
    last: u32,
    number: u64,
    is_length: bool,
) -> Result<(Hostile, u64)> {
    let files = files_up_to(alloc, disk, last)?;
    let made = (files.len() as u64).saturating_mul(2);
    let plan = if is_length {
        Plan::Length(number)
    } else {
        Plan::Call(made.saturating_add(number))
    };
    let mut copy = Hostile::new(alloc, plan)?;
    for f in &files {
        let bytes = disk.bytes(*f).ok_or(anyhow!("a file"))?;
        copy.create(*f).map_err(|_| anyhow!("a file isn't made"))?;
        copy.write_at(*f, 0, bytes)
            .map_err(|_| anyhow!("a file isn't written"))?;
    }
    Ok((copy, made))
}

/// Copies the files of an owner.
fn copy_files(disk: &MemDisk, other: &mut Hostile, owner: Owner) -> Result<(), DiskFault> {
    for (_, part) in PARTS {
        let f = FileId::new(owner, part);
        if let Some(bytes) = disk.bytes(f) {
            other.create(f)?;
            other.write_at(f, 0, bytes)?;
        }
    }
    Ok(())
}

/// A disk that tells nothing, with the number files, logs 1 to 9, and the two logs after a number.
pub fn copy_for(alloc: Global, disk: &MemDisk, after: u32) -> Result<Hostile> {
    let mut other = Hostile::new(alloc, Plan::Whole)?;
    for lane in 0..8 {
        let _ = copy_files(disk, &mut other, Owner::Numbers(lane));
    }
    for log in 1..10 {
        let _ = copy_files(disk, &mut other, Owner::Log(log));
    }
    if after >= 9 {
        let _ = copy_files(disk, &mut other, Owner::Log(after.saturating_add(1)));
        let _ = copy_files(disk, &mut other, Owner::Log(after.saturating_add(2)));
    }
    Ok(other)
}
