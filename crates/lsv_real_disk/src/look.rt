//! What stands in a folder, for who reads it as a store.
use crate::path::{Places, joined};
use crate::read_only::ReadOnlyDisk;
use lsv_base::LogNo;
use lsv_disk::{FileId, Owner, Part};
use lsv_journal::Journal;
use std::alloc::AllocError;
use std::fmt::Display;
use std::fs::{self, File};
use std::io::ErrorKind;
use std::{fmt, io};

/// Why a folder is no store.
#[derive(Clone, Copy, PartialEq, Eq)]
pub enum NoStore {
    /// Nothing has this name.
    Absent,
    /// A file of another kind has this name.
    NoFolder,
    /// The folder has neither a number file nor folders of logs.
    Foreign,
}

impl Display for NoStore {
    fn fmt<W: fmt::Write>(&self, f: &mut fmt::Formatter<W>) -> fmt::Result {
        f.write_str(match self {
            NoStore::Absent => "no such folder",
            NoStore::NoFolder => "no folder",
            NoStore::Foreign => "no store of this server (it has no seq2)",
        })
    }
}

/// Why a folder is no store of this server; None if it is one. Nothing is changed.
pub fn no_store_in(rt: &HostRuntime, dir: &str) -> io::Result<Option<NoStore>> {
    match fs::metadata(rt, dir) {
        Err(e) if e.kind() == ErrorKind::NotFound => return Ok(Some(NoStore::Absent)),
        Err(e) => return Err(e),
        Ok(metadata) if !metadata.is_dir() => return Ok(Some(NoStore::NoFolder)),
        Ok(_) => {}
    }
    if has_numbers(rt, dir)? || has_logs(rt, dir)? {
        Ok(None)
    } else {
        Ok(Some(NoStore::Foreign))
    }
}

/// Whether a folder has a number file, of this or of an older form.
pub fn has_numbers(rt: &HostRuntime, dir: &str) -> io::Result<bool> {
    Ok(has_file(rt, dir, "seq2")? || has_file(rt, dir, "seq")?)
}

/// Whether a folder has one whose name is of two digits of log numbers.
fn has_logs(rt: &HostRuntime, dir: &str) -> io::Result<bool> {
    for entry in fs::read_dir(rt, dir)? {
        if is_pair(entry?.file_name().as_bytes()) {
            return Ok(true);
        }
    }
    Ok(false)
}

/// Whether a name is two digits of log numbers.
fn is_pair(name: &[u8]) -> bool {
    match name {
        [a, b] => [*a, *b].iter().all(|digit| digit.is_ascii_digit() || digit.is_ascii_uppercase()),
        _ => false,
    }
}

/// Whether this process may not read a folder or its number file.
pub fn is_denied(rt: &HostRuntime, dir: &str) -> bool {
    if let Err(e) = fs::read_dir(rt, dir) {
        return e.kind() == ErrorKind::PermissionDenied;
    }
    let Ok(path) = joined(rt.alloc(), dir, "seq2") else {
        return false;
    };
    match File::open(rt, path.as_str()) {
        Ok(_) => false,
        Err(e) => e.kind() == ErrorKind::PermissionDenied,
    }
}

/// What a log lacks that counts as absent, though its files are there.
#[derive(Clone, Copy, PartialEq, Eq)]
pub enum Lack {
    /// Its journal.
    Journal,
    /// An entry of its journal: that was emptied or garbled, or its making was ended before its first entry.
    Entry,
}

/// What a log lacks that has bytes of its head or, with a journal, of its timing. The disk has been given the folder as its place.
pub fn lack_of(
    rt: &HostRuntime,
    disk: &mut ReadOnlyDisk,
    dir: &str,
    number: LogNo,
) -> io::Result<Option<Lack>> {
    let folder = folder_of_log(rt, dir, number)?;
    let folder = folder.as_str();
    if !has_file(rt, folder, "slots")? && !has_file(rt, folder, "commit")? {
        let has_head = has_bytes(rt, folder, "log.json")?;
        return Ok(has_head.then_some(Lack::Journal));
    }
    if !has_bytes(rt, folder, "timing")? {
        return Ok(None);
    }
    let journal = FileId::new(Owner::Log(number.get()), Part::Slots);
    match Journal::<89>::view(disk, journal) {
        Ok(None) => Ok(Some(Lack::Entry)),
        Ok(Some(_)) | Err(_) => Ok(None),
    }
}

/// The folder of a log.
pub fn folder_of_log(rt: &HostRuntime, dir: &str, number: LogNo) -> Result<String, AllocError> {
    let alloc = rt.alloc();
    match Places::new(alloc, dir, "")?.log_folder(alloc, number.get())? {
        Some(folder) => Ok(folder),
        None => String::from_str(alloc, dir),
    }
}

/// Whether a folder has a file of this name.
fn has_file(rt: &HostRuntime, folder: &str, name: &str) -> io::Result<bool> {
    Ok(length_of(rt, folder, name)?.is_some())
}

/// Whether a folder has a file of this name that isn't empty.
fn has_bytes(rt: &HostRuntime, folder: &str, name: &str) -> io::Result<bool> {
    Ok(length_of(rt, folder, name)?.is_some_and(|length| length > 0))
}

/// How many bytes a file has, None if it is absent.
fn length_of(rt: &HostRuntime, folder: &str, name: &str) -> io::Result<Option<u64>> {
    match fs::metadata(rt, joined(rt.alloc(), folder, name)?.as_str()) {
        Ok(metadata) => Ok(Some(metadata.len())),
        Err(e) if e.kind() == ErrorKind::NotFound => Ok(None),
        Err(e) => Err(e),
    }
}
