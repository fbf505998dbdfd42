ghost use Rattle.std.specs.Prelude.{◌≡◌, ◌↔◌, ℕ, ◌+◌, ◌-◌, ◌≤◌, ◌<◌, ◌^◌, IsTrue, Option, Some, None, length, drop, slice_index, IsErr, IfOk};
ghost use Rattle.lsv_disk.specs.declared.file.FileId.{FileId};
ghost use Rattle.lsv_disk.specs.Bytes.{bytes_of, size_of};
ghost use Rattle.lsv_disk.specs.View.{OneRead, HasCause};
ghost use Rattle.lsv_disk.specs.Throughout.{OnlyReads};
ghost use Rattle.lsv_journal.specs.Gates.{place, count, last_of};
ghost use Rattle.lsv_journal.specs.Last.{last_gated};
ghost use Rattle.lsv_journal.specs.Reading.{IsMore};

use crate::slot::OPEN;
use lsv_disk::{Disk, DiskFault, FileId};

/// How many bytes are read at once.
const PIECE: usize = 4096;

/// Whether an entry stands whole at this place: its gate is open, and its body and the next gate byte are there.
fn is_entry(bytes: &[u8], at: usize, size: usize) -> bool
    requires size { size ≤ 120 }
    requires within { at ≤ length bytes.now }
    ensures { IsTrue result ↔ ((slice_index bytes.now at ≡ 1) × (at + (size + 1) < length bytes.now)) }
{
    bytes.len() - at > size + 1 && bytes[at] == OPEN
}

/// How many bytes the whole entries at the front take.
fn front(bytes: &[u8], size: usize) -> usize
    requires { size ≤ 120 }
    ensures takes { result ≡ place size (count size bytes.now) }
    ensures within { result ≤ length bytes.now }
{
    let mut end = 0;
    while is_entry(bytes, end, size) {
        end += size + 1;
    }
    end
}

/// How many bytes the whole entries take that stand at this place of the file, as far as one piece shows them: none
/// only where none stands there.
fn more_entries<D: Disk>(
    disk: &mut D,
    f: FileId,
    at: u64,
    total: u64,
    size: usize,
) -> Result<u64, DiskFault>
    requires size { size ≤ 120 }
    requires rest { at < total }
    requires total { D.tells → size_of ((D.view disk.old).reads f) ≡ Some total }
    ensures within { IfOk result (λ more. at + more ≤ total) }
    ensures more { D.tells → IfOk result (λ more. IsMore size (drop at (bytes_of ((D.view disk.old).reads f))) more) }
    ensures frame { D.tells → OneRead (D.view disk.old) (D.view disk.new) }
    ensures cause { HasCause f (IsErr result) (D.view disk.old) (D.view disk.new) }
{
    let mut piece = [0; PIECE];
    let count = disk.read_at(f, at, &mut piece)? as u64;
    let seen = count.min(total - at) as usize;
    Ok(front(&piece[..seen], size) as u64)
}

/// Where the entries of the file end, whose length in bytes is known: the place of the first gate that isn't open, or
/// whose body or next gate byte lies past the end.
fn end_of_entries<D: Disk>(
    disk: &mut D,
    f: FileId,
    total: u64,
    size: usize,
) -> Result<u64, DiskFault>
    requires size { size ≤ 120 }
    requires total { D.tells → size_of ((D.view disk.old).reads f) ≡ Some total }
    ensures end { D.tells → IfOk result (λ end. end ≡ place size (count size (bytes_of ((D.view disk.old).reads f)))) }
    ensures reads { D.tells → OnlyReads (D.view disk.old) (D.view disk.new) }
    ensures cause { HasCause f (IsErr result) (D.view disk.old) (D.view disk.new) }
{
    let mut end = 0;
    while end < total {
        let more = more_entries(disk, f, end, total, size)?;
        if more == 0 {
            return Ok(end);
        }
        end += more;
    }
    Ok(end)
}

/// The body of the entry that ends at this place, none where none does.
fn body_before<D: Disk, const N: usize>(
    disk: &mut D,
    f: FileId,
    end: u64,
) -> Result<Option<[u8; N]>, DiskFault>
    requires size { (0 < N) × (N ≤ 120) }
    requires end { D.tells → end ≡ place N (count N (bytes_of ((D.view disk.old).reads f))) }
    ensures body { D.tells → IfOk result (λ body. body ≡ last_of N (bytes_of ((D.view disk.old).reads f)) (count N (bytes_of ((D.view disk.old).reads f)))) }
    ensures reads { D.tells → OnlyReads (D.view disk.old) (D.view disk.new) }
    ensures cause { HasCause f (IsErr result) (D.view disk.old) (D.view disk.new) }
{
    if end < N as u64 {
        return Ok(None);
    }
    let mut body = [0; N];
    disk.read_at(f, end - N as u64, &mut body)?;
    Ok(Some(body))
}

/// The body of the last entry of a file, none where it has none or is absent.
pub(crate) fn last_gated<D: Disk, const N: usize>(
    disk: &mut D,
    f: FileId,
) -> Result<Option<[u8; N]>, DiskFault>
    requires size { (0 < N) × (N ≤ 120) }
    ensures last { D.tells → IfOk result (λ body. body ≡ last_gated N ((D.view disk.old).reads f)) }
    ensures reads { D.tells → OnlyReads (D.view disk.old) (D.view disk.new) }
    ensures cause { HasCause f (IsErr result) (D.view disk.old) (D.view disk.new) }
{
    let Some(total) = disk.length(f)? else {
        return Ok(None);
    };
    let end = end_of_entries(disk, f, total, N)?;
    body_before(disk, f, end)
}
