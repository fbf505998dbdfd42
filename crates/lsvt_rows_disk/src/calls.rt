//! The calls of a disk, by words.

use crate::names::{file_of, owner_of};
use anyhow::{Error, Result, anyhow};
use lsv_disk::{Disk, DiskFault, FileId, Part, write_synced};
use lsvt_doubles::Hostile;
use std::alloc::Global;

/// The most bytes that are read or written by one call.
const MOST: usize = 65_536;

/// A call of the disk failed.
fn fault(_: DiskFault) -> Error {
    anyhow!("the call failed")
}

/// What a call says that answers nothing.
fn done(alloc: Global, answer: Result<(), DiskFault>) -> Result<String> {
    answer.map_err(fault)?;
    Ok(String::new(alloc))
}

/// The bytes of hexadecimal digits.
pub fn bytes_of(alloc: Global, digits: &str) -> Result<Vec<u8>> {
    let bytes = hex::decode(alloc, digits)?;
    if bytes.len() > MOST {
        return Err(anyhow!("few bytes"));
    }
    Ok(bytes)
}

/// Makes a call of the disk. Returns what it answers, as a text.
pub fn call(alloc: Global, disk: &mut Hostile, words: &str) -> Result<String> {
    let (word, rest) = words.split_once(' ').ok_or(anyhow!("a call"))?;
    let (of, rest) = rest.split_once(' ').unwrap_or((rest, ""));
    match word {
        "file" => done(alloc, put(disk, file_of(of)?, &bytes_of(alloc, rest)?)),
        "create" => done(alloc, disk.create(file_of(of)?)),
        "make" => make(alloc, disk, of, rest),
        "length" => length(alloc, disk, of),
        "read" => read(alloc, disk, of, rest),
        "write" => write(alloc, disk, of, rest),
        "append" => append(alloc, disk, of, rest),
        "sync" => done(alloc, disk.sync(file_of(of)?)),
        "synced" => synced(alloc, disk, of, rest),
        "show" => show(alloc, disk, of),
        "failures" => failures(alloc, disk, of),
        _ => Err(anyhow!("a call of the disk")),
    }
}

/// Makes a file with these bytes, and syncs it.
fn put(disk: &mut Hostile, f: FileId, bytes: &[u8]) -> Result<(), DiskFault> {
    disk.create(f)?;
    disk.write_at(f, 0, bytes)?;
    disk.sync(f)
}

/// Makes files of one owner together.
fn make(alloc: Global, disk: &mut Hostile, owner: &str, names: &str) -> Result<String> {
    let owner = owner_of(owner)?;
    let made = match names {
        "log.json timing stdout" => {
            disk.create_all(owner, &[Part::Head, Part::Timing, Part::Stdout])
        }
        _ => return Err(anyhow!("files that are made together")),
    };
    done(alloc, made)
}

/// How many bytes a file has.
fn length(alloc: Global, disk: &mut Hostile, of: &str) -> Result<String> {
    match disk.length(file_of(of)?).map_err(fault)? {
        Some(length) => Ok(format!(in alloc; "{length} bytes")?),
        None => Ok(format!(in alloc; "absent")?),
    }
}

/// Reads from an offset into a buffer whose bytes were all FF. Says how many bytes were read, and the buffer.
fn read(alloc: Global, disk: &mut Hostile, of: &str, words: &str) -> Result<String> {
    let (at, room) = words.split_once(' ').ok_or(anyhow!("a buffer"))?;
    let mut all = [0xFF; 64];
    let room = room.parse::<usize>()?.min(all.len());
    let buf = &mut all[..room];
    let count = disk.read_at(file_of(of)?, at.parse::<u64>()?, buf);
    let count = count.map_err(fault)?;
    Ok(format!(in alloc; "{count} of {}", hex::encode(alloc, buf)?)?)
}

/// Writes at an offset.
fn write(alloc: Global, disk: &mut Hostile, of: &str, words: &str) -> Result<String> {
    let (at, digits) = words.split_once(' ').ok_or(anyhow!("bytes"))?;
    let at = u64::from(at.parse::<u32>()?);
    let bytes = bytes_of(alloc, digits)?;
    done(alloc, disk.write_at(file_of(of)?, at, &bytes))
}

/// Writes at an offset, and syncs, by one call.
fn synced(alloc: Global, disk: &mut Hostile, of: &str, words: &str) -> Result<String> {
    let (at, digits) = words.split_once(' ').ok_or(anyhow!("bytes"))?;
    let at = u64::from(at.parse::<u32>()?);
    let bytes = bytes_of(alloc, digits)?;
    done(alloc, write_synced(disk, file_of(of)?, at, &bytes))
}

/// Writes at a file's end.
fn append(alloc: Global, disk: &mut Hostile, of: &str, digits: &str) -> Result<String> {
    let f = file_of(of)?;
    let end = disk.length(f).map_err(fault)?.unwrap_or(0);
    let bytes = bytes_of(alloc, digits)?;
    done(alloc, disk.write_at(f, end.min(1 << 32), &bytes))
}

/// The bytes of a file.
fn show(alloc: Global, disk: &mut Hostile, of: &str) -> Result<String> {
    match disk.bytes(file_of(of)?) {
        Some(bytes) => Ok(format!(in alloc;
            "{} bytes {}",
            bytes.len(),
            hex::encode(alloc, bytes)?
        )?),
        None => Ok(format!(in alloc; "absent")?),
    }
}

/// How often a call on a file failed, and how often memory ran out.
fn failures(alloc: Global, disk: &mut Hostile, of: &str) -> Result<String> {
    let failures = disk.failures(file_of(of)?);
    Ok(format!(in alloc; "{failures} failures, {} refused", disk.refused())?)
}
