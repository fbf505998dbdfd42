// What an event log has after the lines that its journal counts.
ghost use Rattle.std.specs.Prelude.{◌≤◌};

use crate::handle::read_from;
use crate::lock::{make_file, open_file, set_mode};
use crate::path::{Places, folder_of};
use crate::read_only::ReadOnlyDisk;
use lsv_bundle::Body;
use lsv_disk::{FileId, Owner, Part};
use lsv_journal::Journal;
use std::alloc::{AllocError, Global};
use std::fs::File;
use std::io;
use std::io::ErrorKind;
use std::os::unix::fs::FileExt;

/// This many bytes are copied at a time.
const PIECE: usize = 4096;

/// At most this many files are kept of what stood after one place.
const MOST_KEPT: u32 = 100;

/// What became of the bytes that an event log had after the lines that its journal counts.
#[derive(Drop)]
pub enum Tail {
    /// There were none.
    Empty,
    /// There were this many. They are in a file of this name now, and the log ends where they began.
    Kept { count: u64, path: String },
    /// The same, and the file had them before: what was cut off once was there again.
    KeptBefore,
}

/// Why an event log doesn't fit its journal.
#[derive(Clone, Copy)]
pub enum Unfit {
    /// It is absent, or shorter than its journal says.
    Short,
    /// No line ends after this many bytes, which the journal counts: it is that of another log.
    Strange(u64),
}

/// Why the event log doesn't fit its journal, if it doesn't. Nothing is changed.
pub fn unfit_events(
    rt: &HostRuntime,
    program: &'static str,
    places: &Places,
) -> io::Result<Option<Unfit>> {
    let Some(counted) = committed_length(*rt, program, places)? else {
        return Ok(None);
    };
    let log = match File::open(rt, places.events.as_str()) {
        Ok(log) => log,
        Err(e) if e.kind() == ErrorKind::NotFound => return Ok(Some(Unfit::Short)),
        Err(e) => return Err(e),
    };
    if log.metadata()?.len() < counted {
        return Ok(Some(Unfit::Short));
    }
    if ends_line(&log, counted)? {
        Ok(None)
    } else {
        Ok(Some(Unfit::Strange(counted)))
    }
}

/// Keeps what the event log has after the lines that its journal counts in a file of its own, and cuts it off, so that the next
/// line is written over none. A crash leaves such bytes, of a turn that wasn't committed. So do a call that failed, and a log or a
/// journal that was put back. The caller has the locks of the event log, which fits its journal.
pub fn keep_tail(rt: &HostRuntime, program: &'static str, places: &Places) -> io::Result<Tail> {
    let log = match open_file(rt, places.events.as_str()) {
        Ok(log) => log,
        Err(e) if e.kind() == ErrorKind::NotFound => return Ok(Tail::Empty),
        Err(e) => return Err(e),
    };
    let length = log.metadata()?.len();
    let counted = committed_length(*rt, program, places)?.unwrap_or(0);
    if length <= counted {
        return Ok(Tail::Empty);
    }
    if !ends_line(&log, counted)? {
        return Err(ErrorKind::InvalidData.into());
    }
    let kept = keep(rt, places.events.as_str(), &log, counted, length)?;
    cut(&log, counted)?;
    Ok(kept)
}

/// How many bytes of the event log its journal counts. None if the journal has no entry.
pub fn committed_length(
    rt: HostRuntime,
    program: &'static str,
    places: &Places,
) -> io::Result<Option<u64>> {
    let mut disk = ReadOnlyDisk::at(rt, program, places)?;
    let journal = FileId::new(Owner::Events(0), Part::Slots);
    match Journal::<89>::view(&mut disk, journal) {
        Ok(Some(body)) => {
            let [length, ..] = Body::decode(body).lens;
            Ok(Some(length))
        }
        Ok(None) => Ok(None),
        Err(_) => Err(ErrorKind::Other.into()),
    }
}

/// Whether no line is cut after this many bytes: there are none, or the last one is a line feed.
fn ends_line(log: &File, counted: u64) -> io::Result<bool> {
    let Some(last) = counted.checked_sub(1) else {
        return Ok(true);
    };
    let mut byte = [0];
    let count = read_from(log, last, &mut byte)?;
    Ok(count == 1 && byte == [b'\n'])
}

/// Copies what stands from a place to the end into a file beside the log, or finds it in one that is there.
fn keep(rt: &HostRuntime, events: &str, log: &File, from: u64, to: u64) -> io::Result<Tail> {
    let alloc = rt.alloc();
    for number in 1..=MOST_KEPT {
        let path = name_of(alloc, events, from, number)?;
        let copy = match make_file(rt, path.as_str()) {
            Ok(copy) => copy,
            Err(e) if e.kind() == ErrorKind::AlreadyExists => open_file(rt, path.as_str())?,
            Err(e) => return Err(e),
        };
        let metadata = copy.metadata()?;
        let has = metadata.len();
        if !is_start(&copy, has, log, from, to)? {
            continue;
        }
        set_mode(&copy, &metadata)?;
        copy_bytes(log, from, to, &copy)?;
        copy.sync_all()?;
        File::open(rt, folder_of(events))?.sync_all()?;
        let count = to.saturating_sub(from);
        return Ok(if has == count {
            Tail::KeptBefore
        } else {
            Tail::Kept { count, path }
        });
    }
    Err(ErrorKind::AlreadyExists.into())
}

/// The name of a file for what stood after a place: a number stands at its end from the second one on.
fn name_of(alloc: Global, events: &str, from: u64, number: u32) -> Result<String, AllocError> {
    if number == 1 {
        format!(in alloc; "{events}.after-{from}")
    } else {
        format!(in alloc; "{events}.after-{from}.{number}")
    }
}

/// Whether a file has the first of the bytes that are to be copied, and no others: it is empty, was left by a run that failed,
/// or has all of them.
fn is_start(copy: &File, has: u64, log: &File, from: u64, to: u64) -> io::Result<bool> {
    if has > to.saturating_sub(from) {
        return Ok(false);
    }
    let mut mine = [0; PIECE];
    let mut theirs = [0; PIECE];
    for piece in 0..pieces_of(has) {
        let at = offset_of(piece);
        let most = length_at(at, has);
        let count = read_from(copy, at, &mut mine[..most])?;
        let same = read_from(log, from.saturating_add(at), &mut theirs[..most])?;
        if count != most || same != most || mine[..most] != theirs[..most] {
            return Ok(false);
        }
    }
    Ok(true)
}

/// How many pieces this many bytes come to.
fn pieces_of(count: u64) -> u64 {
    count.div_ceil(PIECE as u64)
}

/// Where a piece begins.
fn offset_of(piece: u64) -> u64 {
    piece.saturating_mul(PIECE as u64)
}

/// The length of the piece that begins here, of this many bytes.
fn length_at(at: u64, count: u64) -> usize
    ensures { result ≤ 4096 }
{
    count.saturating_sub(at).min(PIECE as u64) as usize
}

/// Copies the bytes of a file from one place to another to the start of a file.
fn copy_bytes(log: &File, from: u64, to: u64, copy: &File) -> io::Result<()> {
    let count = to.saturating_sub(from);
    let mut bytes = [0; PIECE];
    for piece in 0..pieces_of(count) {
        let at = offset_of(piece);
        let most = length_at(at, count);
        if read_from(log, from.saturating_add(at), &mut bytes[..most])? != most {
            return Err(ErrorKind::UnexpectedEof.into());
        }
        copy.write_all_at(&bytes[..most], at)?;
    }
    Ok(())
}

/// Ends a file after this many bytes, and waits until it is so on the disk.
fn cut(log: &File, length: u64) -> io::Result<()> {
    log.set_len(length)?;
    log.sync_all()
}
