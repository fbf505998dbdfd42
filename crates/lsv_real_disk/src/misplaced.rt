// Whether the event log, or the folder of the logs, has a place that it can't have.
ghost use Rattle.std.specs.Prelude.{◌≡◌, ◌<◌, ◌+◌, drop, length};
ghost use Rattle.lsv_real_disk.specs.Misplaced.{begins_folder, begins_own, is_below, is_in_store, is_own_name};

use crate::drawn::{folder_name, is_digit};
use crate::path::{folder_of, joined};
use std::alloc::{AllocError, Global};
use std::io::ErrorKind;
use std::{fs, io};

/// A path is looked at through this many of the folders above it, from its end on, for one that exists.
const MOST_FOLDERS: u32 = 256;

/// Why the event log, or the folder of the logs, can't have its place.
#[derive(Clone, Copy, Debug, PartialEq, Eq)]
pub enum Misplaced {
    /// The place is that of the folder of the logs, of one above it, or of a file of the store in it.
    InStore,
    /// A folder has the name.
    Folder,
    /// What has the name is neither a file nor a folder.
    NoFile,
    /// A link has the name, and leads to nothing.
    LinkToNothing,
    /// The folder of the logs is a link that leads to nothing.
    LogsLinkToNothing,
}

/// A place in the folder of another store of this server, by that folder.
#[derive(Drop)]
pub enum InOther {
    /// The folder of the logs is below it.
    Logs(String),
    /// The event log has a name that it keeps for itself.
    Events(String),
}

/// Whether one of the places is in another store. Nothing is changed.
pub fn look_for_other(
    rt: &HostRuntime,
    alloc: Global,
    dir: &str,
    events: &str,
) -> io::Result<Option<InOther>> {
    let logs = settled(rt, alloc, dir)?;
    if let Some((store, _)) = store_above(rt, alloc, logs.as_str())? {
        return Ok(Some(InOther::Logs(store)));
    }
    let lines = settled(rt, alloc, events)?;
    match store_above(rt, alloc, lines.as_str())? {
        Some((store, true)) => Ok(Some(InOther::Events(store))),
        _ => Ok(None),
    }
}

/// The nearest folder above a whole path that is a store, and whether the path leads through a name that it keeps for itself.
fn store_above(rt: &HostRuntime, alloc: Global, path: &str) -> io::Result<Option<(String, bool)>> {
    let mut below = path;
    for _ in 0..MOST_FOLDERS {
        let Some((folder, name)) = below.rsplit_once('/') else {
            return Ok(None);
        };
        if fs::exists(rt, joined(alloc, folder, "seq2")?.as_str())? {
            return Ok(Some((
                String::from_str(alloc, folder)?,
                is_own_name(name.as_bytes()),
            )));
        }
        below = folder;
    }
    Ok(None)
}

/// Why the event log can't have this place, or the logs can't have theirs. Nothing is changed.
pub fn look_at_place(
    rt: &HostRuntime,
    alloc: Global,
    dir: &str,
    events: &str,
) -> io::Result<Option<Misplaced>> {
    let logs = settled(rt, alloc, dir)?;
    let lines = settled(rt, alloc, events)?;
    if is_in_store(logs.as_str(), lines.as_str()) {
        return Ok(Some(Misplaced::InStore));
    }
    if !fs::exists(rt, dir)? && is_link(rt, dir) {
        return Ok(Some(Misplaced::LogsLinkToNothing));
    }
    match fs::metadata(rt, events) {
        Ok(metadata) if metadata.is_dir() => Ok(Some(Misplaced::Folder)),
        Ok(metadata) if metadata.is_file() => Ok(None),
        Ok(_) => Ok(Some(Misplaced::NoFile)),
        Err(e) if e.kind() == ErrorKind::NotFound => {
            Ok(is_link(rt, events).then_some(Misplaced::LinkToNothing))
        }
        Err(e) => Err(e),
    }
}

/// Whether a link has the name of something that doesn't exist.
fn is_link(rt: &HostRuntime, path: &str) -> bool {
    fs::symlink_metadata(rt, path).is_ok()
}

/// The whole path of a file, without links and dots, as far as its folders exist.
fn settled(rt: &HostRuntime, alloc: Global, path: &str) -> io::Result<String> {
    let mut above = String::from_str(alloc, path)?;
    let mut names = String::new(alloc);
    for _ in 0..MOST_FOLDERS {
        match fs::canonicalize(rt, above.as_str()) {
            Ok(folder) => return Ok(put_together(alloc, folder.as_path().to_str(), names)?),
            Err(e) if e.kind() == ErrorKind::NotFound => {}
            Err(e) => return Err(e),
        }
        names = with_name(alloc, above.as_str(), names)?;
        above = String::from_str(alloc, folder_of(above.as_str()))?;
    }
    Err(ErrorKind::InvalidInput.into())
}

/// The names below a folder, with the name of that folder before them.
fn with_name(alloc: Global, folder: &str, names: String) -> Result<String, AllocError> {
    let name = match folder.rsplit_once('/') {
        Some((_, name)) => name,
        None => folder,
    };
    if name.is_empty() {
        return Ok(names);
    }
    if names.is_empty() {
        return String::from_str(alloc, name);
    }
    joined(alloc, name, names.as_str())
}

/// The path of names below a folder. One that isn't UTF-8 is left out.
fn put_together(alloc: Global, folder: Option<&str>, names: String) -> Result<String, AllocError> {
    match folder {
        Some("/") | None => joined(alloc, "", names.as_str()),
        Some(folder) if names.is_empty() => String::from_str(alloc, folder),
        Some(folder) => joined(alloc, folder, names.as_str()),
    }
}

/// Whether the file of a path is the folder of the logs, one above it, or a file of the store in it. Both are whole paths
/// without links and dots.
pub fn is_in_store(logs: &str, path: &str) -> bool
    ensures { result ≡ is_in_store logs.now path.now }
{
    let (logs, path) = (logs.as_bytes(), path.as_bytes());
    path == logs || is_below(path, logs) || is_below(logs, path) && is_own_below(logs, path)
}

/// Whether a path leads through a folder.
fn is_below(folder: &[u8], path: &[u8]) -> bool
    ensures { result ≡ is_below folder.now path.now }
{
    path.starts_with(folder) && path.len() > folder.len() && path[folder.len()] == b'/'
}

/// Whether a path below a folder leads through a name there that the store keeps for itself.
fn is_own_below(folder: &[u8], path: &[u8]) -> bool
    requires { length folder.now < length path.now }
    ensures { result ≡ begins_own (drop (length folder.now + 1) path.now) }
{
    begins_own(&path[folder.len() + 1..])
}

/// Whether names with slashes between them begin with one that the store keeps for itself.
fn begins_own(names: &[u8]) -> bool
    ensures { result ≡ begins_own names.now }
{
    is_own_name(names)
        || names.starts_with(b"lock/")
        || names.starts_with(b"relay.lock/")
        || begins_folder(names)
}

/// Whether names begin with that of a folder of logs, and a slash.
fn begins_folder(names: &[u8]) -> bool
    ensures { result ≡ begins_folder names.now }
{
    match names {
        [a, b, c, ..] => is_digit(*a) && is_digit(*b) && *c == b'/',
        _ => false,
    }
}

/// Whether the store keeps a name in the folder of the logs for itself: one that begins with `seq`, `lock`, `relay.lock`, or
/// that of a folder of logs.
fn is_own_name(name: &[u8]) -> bool
    ensures { result ≡ is_own_name name.now }
{
    name.starts_with(b"seq")
        || name == b"lock".as_slice()
        || name == b"relay.lock".as_slice()
        || folder_name(name).is_some()
}
