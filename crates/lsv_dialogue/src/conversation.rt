ghost use Rattle.std.specs.Prelude.{◌≡◌, [], IfOk, IfErr};
ghost use Rattle.lsv_dialogue.specs.Ends.{Broke, Ended, IsFresh, StaysOpen};
ghost use Rattle.lsv_link.specs.Link.{open_of};

use crate::talk::Talk;
use crate::{End, Speaker, TalkFault, Wants};
use lsv_link::Link;
use std::alloc::Global;

/// One conversation over the open connection, on which nothing was read or written: until the speaker has what it
/// wanted, or something stops it.
///
/// It goes in rounds. All that was read is heard. Then the speaker says what it may, up to 16 messages, which are written.
/// Then it is looked whether something came; it waits for that only if nothing more may be said. The connection is renewed
/// at each progress. If a write stops, what has come is read and taken, without waiting: a server may have said why.
pub fn converse<W, S: Speaker<W>, L: Link>(
    alloc: Global,
    speaker: &mut S,
    world: &mut W,
    link: &mut L,
) -> Result<End, TalkFault<S::Fault>>
    requires begun { (start : S.Start) × (S.manner start).talks speaker.old world.old [] }
    requires wants { (start : S.Start) → (S.manner start).wants speaker.old ≡ Wants.More }
    requires fresh { L.tells → IsFresh (L.state link.old) }
    ensures ended { IfOk result (λ end. (start : S.Start) → (S.manner start).talks speaker.old world.old [] → Ended (S.manner start) L.tells speaker.new world.new (L.counts link.old) (L.counts link.new) (open_of (L.state link.new)) end) }
    ensures broke { IfErr result (λ fault. (start : S.Start) → (S.manner start).talks speaker.old world.old [] → Broke (S.manner start) L.tells speaker.new world.new (L.counts link.old) (L.counts link.new) (open_of (L.state link.new)) fault) }
    ensures stays { L.tells → StaysOpen (L.state link.old) (L.state link.new) }
{
    let Ok(mut talk) = Talk::new(alloc) else {
        return Err(TalkFault::NoMem);
    };
    if let Some(end) = talk.open(speaker, world, link)? {
        return Ok(end);
    }
    'rounds: for _ in 0..u64::MAX {
        if let Some(end) = talk.round(speaker, world, link)? {
            return Ok(end);
        }
    }
    Err(TalkFault::NoMem)
}
