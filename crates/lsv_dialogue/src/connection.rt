ghost use Rattle.std.specs.Prelude.{◌≡◌, [], IfOk, IfErr};
ghost use Rattle.lsv_dialogue.specs.Ends.{Broke, Ended, Ran};

use crate::{Cause, End, Speaker, TalkFault, Wants, converse};
use lsv_link::Link;
use std::alloc::Global;

/// Connects to a host, `host:port` or `[address]:port`, converses, and closes the connection. If the connection can't be
/// made, the speaker isn't asked for anything, and the end is `Unreached`. A speaker that doesn't want to go on isn't run.
pub fn run<W, S: Speaker<W>, L: Link>(
    alloc: Global,
    speaker: &mut S,
    world: &mut W,
    link: &mut L,
    host: &str,
) -> Result<End, TalkFault<S::Fault>>
    requires begun { (start : S.Start) × (S.manner start).talks speaker.old world.old [] }
    requires wants { (start : S.Start) → (S.manner start).wants speaker.old ≡ Wants.More }
    ensures ended { IfOk result (λ end. (start : S.Start) → (S.manner start).talks speaker.old world.old [] → Ran L.tells host.now (L.state link.old) (L.state link.new)
        (λ conn. Ended (S.manner start) L.tells speaker.new world.new (L.counts link.old) (L.counts link.new) conn end)) }
    ensures broke { IfErr result (λ fault. (start : S.Start) → (S.manner start).talks speaker.old world.old [] → Ran L.tells host.now (L.state link.old) (L.state link.new)
        (λ conn. Broke (S.manner start) L.tells speaker.new world.new (L.counts link.old) (L.counts link.new) conn fault)) }
{
    if link.connect(host).is_err() {
        return Ok(End::Stopped(Cause::Unreached));
    }
    let ended = converse(alloc, speaker, world, link);
    link.close();
    ended
}
