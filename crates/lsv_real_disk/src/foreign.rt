// Places that another program filled, or cut.
use crate::path::Places;
use crate::tail::committed_length;
use lsv_base::LogNo;
use std::alloc::Global;
use std::fs::{self, File};
use std::io;
use std::io::{ErrorKind, Read};

/// Whose files stand where the store is to be.
#[derive(Clone, Copy, PartialEq, Eq)]
pub enum Foreign {
    /// The folder of the logs has the number file of sudo's own programs.
    Logs,
    /// The event log has lines, and no journal beside it.
    Events,
}

/// Whose files stand at these places, where they aren't this server's. Nothing is changed.
pub fn foreign_at(
    rt: &HostRuntime,
    alloc: Global,
    dir: &str,
    events: &str,
) -> io::Result<Option<Foreign>> {
    let numbers = format!(in alloc; "{dir}/seq")?;
    if is_text_of_a_number(&first_bytes(rt, numbers.as_str())?) {
        return Ok(Some(Foreign::Logs));
    }
    if length_of(rt, events)?.is_none_or(|length| length == 0) {
        return Ok(None);
    }
    let slots = format!(in alloc; "{events}.slots")?;
    let commit = format!(in alloc; "{events}.commit")?;
    match (
        length_of(rt, slots.as_str())?,
        length_of(rt, commit.as_str())?,
    ) {
        (None, None) => Ok(Some(Foreign::Events)),
        _ => Ok(None),
    }
}

/// Whether the event log begins with a byte of 0, and its journal says that it has lines: none begins so. Another program
/// has cut it while a server ran, which wrote its next line at the place where it would have stood. Nothing is changed.
pub fn was_cut(
    rt: HostRuntime,
    program: &'static str,
    dir: &str,
    events: &str,
) -> io::Result<bool> {
    if length_of(&rt, events)?.is_none_or(|length| length == 0)
        || first_bytes(&rt, events)?.first() != Some(&0)
    {
        return Ok(false);
    }
    let places = Places::new(rt.alloc(), dir, events)?;
    let counted = committed_length(rt, program, &places)?;
    Ok(counted.is_some_and(|length| length > 0))
}

/// Whether a file is what sudo's own programs keep as the last number: its six digits, and a line feed. The number file
/// of an older store is longer.
fn is_text_of_a_number(bytes: &[u8]) -> bool {
    match bytes {
        [digits @ .., b'\n'] => LogNo::read(digits).is_some(),
        digits => LogNo::read(digits).is_some(),
    }
}

/// The first bytes of a file, at most eight; an absent file has none.
fn first_bytes(rt: &HostRuntime, path: &str) -> io::Result<Vec<u8>> {
    let mut bytes = Vec::new(rt.alloc());
    match File::open(rt, path) {
        Ok(file) => {
            file.take(8).read_to_end(&mut bytes)?;
            Ok(bytes)
        }
        Err(e) if e.kind() == ErrorKind::NotFound => Ok(bytes),
        Err(e) => Err(e),
    }
}

/// How many bytes a file has, None where there is none.
fn length_of(rt: &HostRuntime, path: &str) -> io::Result<Option<u64>> {
    match fs::metadata(rt, path) {
        Ok(metadata) => Ok(Some(metadata.len())),
        Err(e) if e.kind() == ErrorKind::NotFound => Ok(None),
        Err(e) => Err(e),
    }
}
