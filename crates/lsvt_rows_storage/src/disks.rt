//! The calls of real disks, and what stands in the file system after them.

use crate::names::{file_of, owner_of};
use anyhow::{Result, anyhow};
use lsv_disk::{Disk, DiskFault, Owner, Part};
use lsv_real_disk::FileDisk;
use std::os::unix::fs::PermissionsExt;
use std::sync::Wait;
use std::thread::Threads;
use std::{fs, thread};

/// The most bytes that are read or written at a time.
const MOST: usize = 64;

/// The permission bits of a file's mode.
const ALL_BITS: u32 = 0o777;

/// Each lane's thread takes its disk along.
fn may_move<D: Send>(_disk: &D) {}

/// Two disks of programs of their own, and one that may be another lane's in the program of the first.
#[derive(Drop)]
pub struct Disks<R: Wait + Threads + Copy + Send + Sync> {
    threads: R,
    first: FileDisk<R>,
    second: FileDisk<R>,
    third: FileDisk<R>,
}

/// Prints whether a call succeeded.
fn show_done(rt: &HostRuntime, answer: Result<(), DiskFault>) -> Result<()> {
    match answer {
        Ok(()) => println!(rt; "ok")?,
        Err(DiskFault) => println!(rt; "fault")?,
    }
    Ok(())
}

impl<R: Wait + Threads + Copy + Send + Sync> Disks<R> {
    /// None has a store.
    pub fn new(rt: HostRuntime, threads: R) -> Result<Self> {
        let Ok(first) = FileDisk::new(rt, threads, "first") else {
            return Err(anyhow!("memory"));
        };
        may_move(&first);
        let Ok(third) = first.beside() else {
            return Err(anyhow!("memory"));
        };
        let Ok(second) = FileDisk::new(rt, threads, "second") else {
            return Err(anyhow!("memory"));
        };
        Ok(Disks {
            threads,
            first,
            second,
            third,
        })
    }

    /// Makes a call of a disk: which disk, and the call's words. By `beside` the third becomes one of the first's program, and by
    /// `both` the first and the third make logs at once.
    pub fn answer(&mut self, rt: &HostRuntime, words: &str) -> Result<()> {
        let (which, call) = words.split_once(' ').ok_or(anyhow!("a call"))?;
        let threads = self.threads;
        match which {
            "first" => answer_by(rt, threads, &mut self.first, call),
            "second" => answer_by(rt, threads, &mut self.second, call),
            "third" if call == "beside" => {
                let Ok(third) = self.first.beside() else {
                    return Err(anyhow!("memory"));
                };
                self.third = third;
                Ok(())
            }
            "third" => answer_by(rt, threads, &mut self.third, call),
            "both" => {
                let (first, third) = (&mut self.first, &mut self.third);
                let count = call.parse::<u32>()?;
                let (odd, even) = thread::join(
                    &threads,
                    || make_logs(first, 1, count),
                    || make_logs(third, 2, count),
                );
                println!(rt; "{odd} and {even} logs")?;
                Ok(())
            }
            _ => Err(anyhow!("a disk")),
        }
    }
}

/// Makes each second log from this number on, this many. How many were made.
fn make_logs<R: Wait + Copy>(disk: &mut FileDisk<R>, from: u32, count: u32) -> u32 {
    let mut made = 0u32;
    for i in 0..count {
        let owner = Owner::Log(i.saturating_mul(2).saturating_add(from));
        if disk
            .create_all(owner, &[Part::Head, Part::Timing, Part::Slots])
            .is_ok()
        {
            made = made.saturating_add(1);
        }
    }
    made
}

/// Makes a call of a disk, or, by `drop`, puts one without a store in its place.
fn answer_by<R: Wait + Copy>(
    rt: &HostRuntime,
    waits: R,
    disk: &mut FileDisk<R>,
    call: &str,
) -> Result<()> {
    if call == "drop" {
        let Ok(fresh) = FileDisk::new(*rt, waits, "test") else {
            return Err(anyhow!("memory"));
        };
        *disk = fresh;
        return Ok(());
    }
    make_call(rt, disk, call)
}

/// Opens the store at these places with this many lanes, and lets the disk take it.
fn open_store<R: Wait + Copy>(disk: &mut FileDisk<R>, lanes: u32, dir: &str, events: &str) {
    disk.open_store(dir, events, lanes);
    disk.root(dir, events);
}

/// The same with the number of lanes as it was written, and both places.
fn open_lanes<R: Wait + Copy>(disk: &mut FileDisk<R>, lanes: &str, places: &str) -> Result<()> {
    let (dir, events) = places.split_once(' ').ok_or(anyhow!("two places"))?;
    open_store(disk, lanes.parse::<u32>()?, dir, events);
    Ok(())
}

/// Makes a call of a disk.
fn make_call<R: Wait + Copy>(rt: &HostRuntime, disk: &mut FileDisk<R>, call: &str) -> Result<()> {
    let (word, rest) = call.split_once(' ').ok_or(anyhow!("a call"))?;
    let (of, rest) = rest.split_once(' ').unwrap_or((rest, ""));
    match word {
        "root" => {
            open_store(disk, 1, of, rest);
            Ok(())
        }
        "lanes" => open_lanes(disk, of, rest),
        "create" => show_done(rt, disk.create(file_of(of)?)),
        "create_all" => create_all(rt, disk, of, rest),
        "length" => show_length(rt, disk, of),
        "read" => show_read(rt, disk, of, rest),
        "write" => write(rt, disk, of, rest),
        "sync" => show_done(rt, disk.sync(file_of(of)?)),
        _ => Err(anyhow!("a call of a disk")),
    }
}

/// Makes files of one owner together.
fn create_all<R: Wait + Copy>(
    rt: &HostRuntime,
    disk: &mut FileDisk<R>,
    owner: &str,
    parts: &str,
) -> Result<()> {
    let owner = owner_of(owner)?;
    let answer = match parts {
        "head" => disk.create_all(owner, &[Part::Head]),
        "head timing" => disk.create_all(owner, &[Part::Head, Part::Timing]),
        "stdout slots" => disk.create_all(owner, &[Part::Stdout, Part::Slots]),
        "lines slots" => disk.create_all(owner, &[Part::Lines, Part::Slots]),
        _ => return Err(anyhow!("parts that are made together")),
    };
    show_done(rt, answer)
}

/// Prints the length of a file in bytes.
fn show_length<R: Wait + Copy>(rt: &HostRuntime, disk: &mut FileDisk<R>, of: &str) -> Result<()> {
    match disk.length(file_of(of)?) {
        Ok(Some(length)) => println!(rt; "{length} bytes")?,
        Ok(None) => println!(rt; "absent")?,
        Err(DiskFault) => println!(rt; "fault")?,
    }
    Ok(())
}

/// Reads from an offset into a buffer whose bytes were all FF. Prints the count of bytes that were read, and the buffer.
fn show_read<R: Wait + Copy>(
    rt: &HostRuntime,
    disk: &mut FileDisk<R>,
    of: &str,
    words: &str,
) -> Result<()> {
    let (at, count) = words.split_once(' ').ok_or(anyhow!("a count"))?;
    let mut all = [0xFF; MOST];
    let most = count.parse::<usize>()?.min(MOST);
    let buf = &mut all[..most];
    match disk.read_at(file_of(of)?, at.parse::<u64>()?, buf) {
        Ok(count) => println!(rt; "{count} of {}", hex::encode(rt.alloc(), buf)?)?,
        Err(DiskFault) => println!(rt; "fault")?,
    }
    Ok(())
}

/// Writes these bytes at an offset.
fn write<R: Wait + Copy>(
    rt: &HostRuntime,
    disk: &mut FileDisk<R>,
    of: &str,
    words: &str,
) -> Result<()> {
    let (at, digits) = words.split_once(' ').ok_or(anyhow!("bytes"))?;
    let bytes = hex::decode(rt.alloc(), digits)?;
    if bytes.len() > MOST {
        return Err(anyhow!("few bytes"));
    }
    let at = u64::from(at.parse::<u32>()?);
    show_done(rt, disk.write_at(file_of(of)?, at, &bytes))
}

/// Prints the bytes of the file at a path.
pub fn show_stored(rt: &HostRuntime, path: &str) -> Result<()> {
    if !fs::exists(rt, path)? {
        return Ok(println!(rt; "absent")?);
    }
    let bytes = fs::read(rt, path)?;
    println!(rt; "bytes {}", hex::encode(rt.alloc(), &bytes)?)?;
    Ok(())
}

/// Prints the mode of the file or folder at a path.
pub fn show_mode(rt: &HostRuntime, path: &str) -> Result<()> {
    let mode = fs::metadata(rt, path)?.permissions().mode() & ALL_BITS;
    println!(rt; "mode {mode:o}")?;
    Ok(())
}

/// Removes a folder and all in it.
pub fn remove(rt: &HostRuntime, path: &str) -> Result<()> {
    Ok(fs::remove_dir_all(rt, path)?)
}
