//! What was put on a link, without what depends on how its messages came together in turns.

ghost use Rattle.std.specs.Prelude.{◌<◌, length, IfSome};

use anyhow::Result;
use std::alloc::Global;

/// The first byte of a server's commit point, as the protobuf encoding has it (field 2).
const COMMIT_POINT: u8 = 0x12;

/// The first byte of a client's exit (field 3).
const EXIT: u8 = 0x1a;

/// The bytes of a frame's length.
const LENGTH: usize = 4;

/// The first frame of these bytes, with its length, and what comes after it. None if there is no whole one.
fn first_frame(bytes: &[u8]) -> Option<(&[u8], &[u8])>
    ensures shorter { IfSome result (λ parts. length parts.1.now < length bytes.now) }
{
    let [a, b, c, d, ..] = bytes else {
        return None;
    };
    let length = u32::from_be_bytes([*a, *b, *c, *d]) as usize;
    let end = length.checked_add(LENGTH)?;
    Some((bytes.get(..end)?, bytes.get(end..)?))
}

/// Whether a frame is a commit point.
fn is_point(frame: &[u8]) -> bool {
    frame.get(LENGTH) == Some(&COMMIT_POINT)
}

/// Whether an exit is among the frames of these bytes.
fn has_exit(read: &[u8]) -> bool {
    let mut rest = read;
    while let Some((frame, later)) = first_frame(rest) {
        if frame.get(LENGTH) == Some(&EXIT) {
            return true;
        }
        rest = later;
    }
    false
}

/// The frames that were put on a link of which these bytes were read. Of commit points one after the other only the last is
/// there, and none if no exit was read: the last turn of the lane may have no one to tell it then.
pub fn settled(alloc: Global, read: &[u8], put: &[u8]) -> Result<Vec<u8>> {
    let is_told = has_exit(read);
    let mut settled = Vec::new(alloc);
    let mut rest = put;
    while let Some((frame, later)) = first_frame(rest) {
        let next = first_frame(later).map(|(next, _)| next);
        if !is_point(frame) || is_told && !next.is_some_and(is_point) {
            settled.extend_from_slice(frame)?;
        }
        rest = later;
    }
    settled.extend_from_slice(rest)?;
    Ok(settled)
}
