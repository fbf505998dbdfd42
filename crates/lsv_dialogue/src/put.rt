//! The messages of a step are put together in one piece, and written.

ghost use Rattle.std.specs.Prelude.{◌≡◌, ◌≢◌, ◌≤◌, ◌++◌, ◌∷◌, [], ℕ, List, None, Some, IfOk, IfSome, OnOk, OnErr};
ghost use Rattle.lsv_link.specs.Link.{IsConnected};
ghost use Rattle.lsv_msg.specs.declared.messages.ClientMessage.{ClientMessage};
ghost use Rattle.lsv_dialogue.specs.Stands.{HasPut, IsBatch, IsHaltedBy, PutsMore, RenewsFew, WritesFront};

use crate::MOST_PUT;
use crate::talk::Halt;
use lsv_base::{Bytes, NoMem};
use lsv_link::Link;
use lsv_msg::{ClientMessage, EncodeFault, encode_client};
use lsv_port::Gave;
use lsv_wire::frame;
use std::alloc::Global;

/// The frames of messages, up to one that is longer than a frame may be.
#[derive(Drop)]
pub(crate) struct Batch {
    pub(crate) bytes: Bytes,
    /// How many bytes that message has.
    pub(crate) too_long: Option<u64>,
}

/// Whether one of the frames that these bytes are ends after the first `from` of them, and within the first `upto`.
fn ends_between(bytes: &[u8], from: usize, upto: usize) -> bool {
    let mut rest = bytes;
    for _ in 0..MOST_PUT {
        let Some((head, behind)) = rest.split_first_chunk::<4>() else {
            return false;
        };
        let length = u32::from_be_bytes(*head) as usize;
        let left = behind.len().saturating_sub(length);
        let end = bytes.len().saturating_sub(left);
        if from < end {
            return end <= upto;
        }
        let (_, next) = behind.split_at(behind.len() - left);
        rest = next;
    }
    false
}

/// Renews the connection if it may, and a frame ends among the bytes that were written last: `before` bytes of all were
/// left before them, and `after` are left now. How often it did.
fn renew_past<L: Link>(
    link: &mut L,
    bytes: &[u8],
    before: usize,
    after: usize,
    most: usize,
) -> usize
    requires connected { L.tells → IsConnected (L.state link.old) }
    ensures few { result ≤ most }
    ensures renews { L.tells → RenewsFew result (L.state link.old) (L.state link.new) }
    ensures same { L.counts link.new ≡ L.counts link.old }
{
    let all = bytes.len();
    if after == 0 || most == 0 {
        return 0;
    }
    if !ends_between(bytes, all.saturating_sub(before), all.saturating_sub(after)) {
        return 0;
    }
    link.renew();
    1
}

/// Writes all of these bytes, which are frames. None if they were all put, else why the link took no more. After a write
/// that took a part, the connection is renewed if a frame ended in it, at most this often.
fn write_all<L: Link>(link: &mut L, bytes: &[u8], most: usize) -> Option<Halt>
    requires connected { L.tells → IsConnected (L.state link.old) }
    ensures wrote { WritesFront L.tells (result ≡ None) most bytes.now (L.state link.old) (L.state link.new) }
    ensures link { (n : ℕ) → result ≡ Some (Halt.TooLong n) → ⊥ }
    ensures cause { IfSome result (IsHaltedBy (L.counts link.old) (L.counts link.new)) }
    ensures counts { HasPut (result ≢ Some Halt.Failed) (result ≢ Some Halt.NotYet) (L.counts link.old) (L.counts link.new) }
{
    let mut rest = bytes;
    let mut left = most;
    'writes: while !rest.is_empty() {
        match link.write(rest) {
            Gave::Bytes(count) => {
                let (_, unsent) = rest.split_at(count);
                left -= renew_past(link, bytes, rest.len(), unsent.len(), left);
                rest = unsent;
            }
            Gave::NotYet => return Some(Halt::NotYet),
            Gave::Failed => return Some(Halt::Failed),
        }
    }
    None
}

/// Puts the frame of a message at the end of a batch. An error is that it is too long.
fn add_frame(alloc: Global, batch: &mut Batch, message: &ClientMessage) -> Result<(), NoMem>
    requires going { batch.old.too_long ≡ None }
    ensures { OnOk result ((messages : List ClientMessage) → IsBatch messages batch.old → IsBatch (messages ++ message.now ∷ []) batch.new) }
{
    let body = match encode_client(alloc, message) {
        Ok(body) => body,
        Err(EncodeFault::TooLong(length)) => {
            batch.too_long = Some(length);
            return Ok(());
        }
        Err(EncodeFault::NoMem) => return Err(NoMem),
    };
    let Ok(framed) = frame(alloc, body.as_slice()) else {
        return Err(NoMem);
    };
    batch.bytes.add(framed.as_slice())
}

/// The frames of these messages.
fn batch_of(alloc: Global, messages: &[ClientMessage]) -> Result<Batch, NoMem>
    ensures { IfOk result (IsBatch messages.now) }
{
    let mut batch = Batch {
        bytes: Bytes::new(alloc),
        too_long: None,
    };
    'messages: for message in messages {
        add_frame(alloc, &mut batch, message)?;
        if batch.too_long.is_some() {
            return Ok(batch);
        }
    }
    Ok(batch)
}

/// Puts the frames of these messages. None if all were put, else why not.
pub(crate) fn put_all<L: Link>(
    alloc: Global,
    link: &mut L,
    messages: &[ClientMessage],
) -> Result<Option<Halt>, NoMem>
    requires connected { L.tells → IsConnected (L.state link.old) }
    ensures puts { IfOk result (λ halt. PutsMore halt L.tells messages.now (L.state link.old) (L.state link.new)) }
    ensures same { OnErr result ((L.state link.new ≡ L.state link.old) × (L.counts link.new ≡ L.counts link.old)) }
    ensures cause { IfOk result (λ halt. IfSome halt (IsHaltedBy (L.counts link.old) (L.counts link.new))) }
    ensures counts { IfOk result (λ halt. HasPut (halt ≢ Some Halt.Failed) (halt ≢ Some Halt.NotYet) (L.counts link.old) (L.counts link.new)) }
{
    let batch = batch_of(alloc, messages)?;
    if let Some(halt) = write_all(
        link,
        batch.bytes.as_slice(),
        messages.len().saturating_sub(1),
    ) {
        return Ok(Some(halt));
    }
    match batch.too_long {
        Some(length) => Ok(Some(Halt::TooLong(length))),
        None => Ok(None),
    }
}
