ghost use Rattle.std.specs.Prelude.{◌≡◌, ◌+◌, ◌≤◌, ◌++◌, length, drop, vec_len, option_map, IsOk};
ghost use Rattle.std.specs.Vec.{vec_capacity};
ghost use Rattle.lsv_defs.specs.Pieces.{piece};
ghost use Rattle.lsv_disk.specs.Bytes.{overwritten};
ghost use Rattle.lsv_disk.specs.Memory.Stored.{content_of};

use crate::FileId;
use std::alloc::AllocError;
use std::collections::HashMap;

/// The bytes of each file that is there.
pub(crate) type Files = HashMap<FileId, Vec<u8>>;

/// The bytes of the file, where it is there.
pub(crate) fn content(files: &Files, file: FileId) -> Option<&[u8]>
    ensures { option_map (λ b. b.now) result ≡ content_of files.now file }
{
    let bytes = files.get(&file)?;
    Some(bytes)
}

/// As many bytes as there are from that place on, into the front of the buffer.
pub(crate) fn copy_piece(bytes: &[u8], at: u64, buf: &mut [u8]) -> usize
    ensures count { result ≡ length (piece bytes.now at (length buf.old)) }
    ensures bytes { buf.new ≡ piece bytes.now at (length buf.old) ++ drop result buf.old }
{
    if at >= bytes.len() as u64 {
        return 0;
    }
    let rest = &bytes[at as usize..];
    let count = rest.len().min(buf.len());
    buf[..count].copy_from_slice(&rest[..count]);
    count
}

/// Writes over what is there, and past the end, into room that was reserved.
pub(crate) fn overwrite(content: &mut Vec<u8>, at: usize, bytes: &[u8]) -> Result<(), AllocError>
    requires place { at ≤ vec_len content.old }
    requires room { vec_len content.old + length bytes.now ≤ vec_capacity content.old }
    ensures ok { IsOk result }
    ensures items { content.new.items ≡ overwritten at bytes.now content.old.items }
{
    let inside = bytes.len().min(content.len() - at);
    content[at..at + inside].copy_from_slice(&bytes[..inside]);
    content.extend_from_slice(&bytes[inside..])
}
