ghost use Rattle.std.specs.Prelude.{◌≡◌, ◌<◌, ◌≤◌, ◌-◌, ◌^◌, ◌↔◌, ◌⊎◌, [], ◌++◌, ◌+◌, min, length, drop, MatchOption, IfOk, IfErr, IsErrOf};
ghost use Rattle.lsv_wire.specs.Frame.{frame_of, stated_length, IsCutShort, IsMessage, IsPartial, IsTooLong};
ghost use Rattle.lsv_wire.specs.declared.framing.FrameFault.TheVariants as faults;

use lsv_base::{Bytes, NoMem};
use std::alloc::{AllocError, Global};
use thiserror::Error;

/// The longest message, in bytes.
pub const FRAME_LIMIT: usize = 2_097_152;

/// Why there is no frame.
#[derive(Clone, Copy, Debug, PartialEq, Eq, Error)]
pub enum FrameFault {
    /// A length above the limit: the one that is stated, or at `frame` the body's, at most 2^32 - 1.
    #[error("a message of {0} bytes is longer than {limit}", limit = FRAME_LIMIT)]
    TooLarge(u32),
    #[error("out of memory")]
    NoMem,
}

impl From<NoMem> for FrameFault {
    ghost from_gives = { λ _ e. e ≡ faults.NoMem };

    fn from(_: NoMem) -> Self {
        FrameFault::NoMem
    }
}

impl From<AllocError> for FrameFault {
    ghost from_gives = { λ _ e. e ≡ faults.NoMem };

    fn from(_: AllocError) -> Self {
        FrameFault::NoMem
    }
}

/// The message in the frame that bytes begin with, in place, None where they are no whole frame. An error is the stated
/// length.
#[inline(always)]
pub fn first_message(bytes: &[u8]) -> Result<Option<&[u8]>, u32>
    ensures message { IfOk result (λ m. MatchOption m (IsPartial bytes.now)
        (λ m. IsMessage m.now × (bytes.now ≡ frame_of m.now ++ drop (4 + length m.now) bytes.now))) }
    ensures too_large { IfErr result (IsTooLong bytes.now) }
{
    if bytes.len() < 4 {
        return Ok(None);
    }
    let (stated, behind) = bytes.split_at(4);
    let stated = u32::from_be_bytes([stated[0], stated[1], stated[2], stated[3]]);
    if stated as usize > FRAME_LIMIT {
        return Err(stated);
    }
    if behind.len() < stated as usize {
        return Ok(None);
    }
    Ok(Some(behind.split_at(stated as usize).0))
}

/// How many bytes the frame lacks that bytes begin with, as far as they say it: of its length, or where that is there of
/// its message.
pub fn lacking(bytes: &[u8]) -> usize
    ensures length { 0 < length bytes.now → length bytes.now < 4 → length bytes.now + result ≡ 4 }
    ensures message { IsCutShort bytes.now → length bytes.now + result ≡ 4 + stated_length bytes.now }
    ensures nothing { bytes.now ≡ [] → result ≡ 0 }
    ensures whole { IsTooLong bytes.now (stated_length bytes.now) ⊎ ((4 ≤ length bytes.now) × (4 + stated_length bytes.now ≤ length bytes.now)) → result ≡ 0 }
{
    if bytes.is_empty() {
        return 0;
    }
    let Some(stated) = bytes.first_chunk::<4>() else {
        return 4 - bytes.len();
    };
    let stated = u32::from_be_bytes(*stated) as usize;
    if stated > FRAME_LIMIT {
        return 0;
    }
    (4 + stated).saturating_sub(bytes.len())
}

/// The frame of one message: its length in four bytes, the most significant first, and its bytes.
pub fn frame(alloc: Global, body: &[u8]) -> Result<Bytes, FrameFault>
    ensures framed { IfOk result (λ bytes. bytes ≡ frame_of body.now) }
    ensures too_large { (n : _) → IsErrOf result (FrameFault.TooLarge n) ↔ ((FRAME_LIMIT < length body.now) × (n ≡ min (length body.now) (2 ^ 32 - 1))) }
{
    if body.len() > FRAME_LIMIT {
        let stated = body.len().min(u32::MAX as usize) as u32;
        return Err(FrameFault::TooLarge(stated));
    }
    let mut bytes = Vec::with_capacity(alloc, 4 + body.len())?;
    bytes.extend_from_slice(&(body.len() as u32).to_be_bytes())?;
    bytes.extend_from_slice(body)?;
    Ok(Bytes::from_vec(bytes))
}
