//! When writing has stopped: what has come is read and taken, without waiting, since a server may have said why.

ghost use Rattle.std.specs.Prelude.{◌≡◌, ◌<◌, ◌∷◌, [], true, is_some, IfErr, IfOk};
ghost use Rattle.lsv_dialogue.specs.Events.{text_of};
ghost use Rattle.lsv_dialogue.specs.declared.ends.Judged.TheVariants as judged;
ghost use Rattle.lsv_dialogue.specs.Stands.{Breaks, Finishes, GoesStopped, Stopped, View, cause_of};

use crate::read::{Came, Next};
use crate::talk::{Halt, Talk};
use crate::text::{has_text, into_text};
use crate::{Cause, End, Judged, MOST_HEARD, Speaker, TalkFault, Wants};
use lsv_link::Link;
use lsv_msg::ServerMessage;

/// Why a conversation stops that is halted so.
fn cause_of(halt: Halt) -> Cause
    ensures { result ≡ cause_of halt }
{
    match halt {
        Halt::NotYet => Cause::NotYet,
        Halt::Failed => Cause::Failed,
        Halt::TooLong(length) => Cause::TooLong(length),
    }
}

impl Talk {
    /// Hands a message to the speaker, which says nothing more. What ends the conversation, if anything.
    fn take_late<W, S: Speaker<W>, L: Link>(
        &mut self,
        speaker: &mut S,
        world: &mut W,
        link: &L,
        halt: Halt,
        message: ServerMessage,
    ) -> Result<Option<End>, TalkFault<S::Fault>>
        requires stopped { (start : S.Start) × (begun : View) × Stopped (S.manner start) L.tells begun (message ∷ []) halt self.old speaker.old world.old (L.counts link.now, L.state link.now) }
        requires wants { (start : S.Start) → (S.manner start).wants speaker.old ≡ Wants.More }
        requires more { self.old.heard < MOST_HEARD }
        ensures goes { IfOk result (λ end. (start : S.Start) (begun : View) → Stopped (S.manner start) L.tells begun (message ∷ []) halt self.old speaker.old world.old (L.counts link.now, L.state link.now) → GoesStopped (S.manner start) L.tells begun halt end self.new speaker.new world.new (L.counts link.now, L.state link.now)) }
        ensures wants { IfOk result (λ _. (start : S.Start) → (S.manner start).wants speaker.new ≡ Wants.More) }
        ensures broke { IfErr result (λ fault. (start : S.Start) (begun : View) → Stopped (S.manner start) L.tells begun (message ∷ []) halt self.old speaker.old world.old (L.counts link.now, L.state link.now) → Breaks (S.manner start) L.tells begun speaker.new world.new (L.counts link.now, L.state link.now) fault) }
    {
        let Judged::Takes = speaker.judge(&message) else {
            return Ok(Some(End::Stopped(cause_of(halt))));
        };
        match speaker.hear_late(world, &message) {
            Ok(()) => {}
            Err(fault) => return Err(TalkFault::Speaker(fault)),
        }
        self.heard += 1;
        match into_text(message) {
            Some(text) => Ok(Some(End::Stopped(Cause::Said(text)))),
            None => Ok(None),
        }
    }

    /// Takes what was read, or reads what is there. What ends the conversation, if anything.
    fn drain_on<W, S: Speaker<W>, L: Link>(
        &mut self,
        speaker: &mut S,
        world: &mut W,
        link: &mut L,
        halt: Halt,
    ) -> Result<Option<End>, TalkFault<S::Fault>>
        requires stopped { (start : S.Start) × (begun : View) × Stopped (S.manner start) L.tells begun [] halt self.old speaker.old world.old (L.counts link.old, L.state link.old) }
        requires wants { (start : S.Start) → (S.manner start).wants speaker.old ≡ Wants.More }
        ensures goes { IfOk result (λ end. (start : S.Start) (begun : View) → Stopped (S.manner start) L.tells begun [] halt self.old speaker.old world.old (L.counts link.old, L.state link.old) → GoesStopped (S.manner start) L.tells begun halt end self.new speaker.new world.new (L.counts link.new, L.state link.new)) }
        ensures wants { IfOk result (λ _. (start : S.Start) → (S.manner start).wants speaker.new ≡ Wants.More) }
        ensures broke { IfErr result (λ fault. (start : S.Start) (begun : View) → Stopped (S.manner start) L.tells begun [] halt self.old speaker.old world.old (L.counts link.old, L.state link.old) → Breaks (S.manner start) L.tells begun speaker.new world.new (L.counts link.new, L.state link.new) fault) }
    {
        if self.heard >= MOST_HEARD {
            return Ok(Some(End::Stopped(cause_of(halt))));
        }
        let Ok(next) = self.next_message() else {
            return Err(TalkFault::NoMem);
        };
        match next {
            Next::Message(message) => return self.take_late(speaker, world, link, halt, message),
            Next::Malformed(_) => return Ok(Some(End::Stopped(cause_of(halt)))),
            Next::TooLarge(_) => return Ok(Some(End::Stopped(cause_of(halt)))),
            Next::Nothing => {}
        }
        let Ok(came) = self.read_more(link, false) else {
            return Err(TalkFault::NoMem);
        };
        let Came::More = came else {
            return Ok(Some(End::Stopped(cause_of(halt))));
        };
        Ok(None)
    }

    /// Ends a conversation whose writing stopped. What has come is taken first.
    pub(crate) fn drain<W, S: Speaker<W>, L: Link>(
        &mut self,
        speaker: &mut S,
        world: &mut W,
        link: &mut L,
        halt: Halt,
    ) -> Result<End, TalkFault<S::Fault>>
        requires stopped { (start : S.Start) × (begun : View) × Stopped (S.manner start) L.tells begun [] halt self.old speaker.old world.old (L.counts link.old, L.state link.old) }
        requires wants { (start : S.Start) → (S.manner start).wants speaker.old ≡ Wants.More }
        ensures ended { IfOk result (λ end. (start : S.Start) (begun : View) → Stopped (S.manner start) L.tells begun [] halt self.old speaker.old world.old (L.counts link.old, L.state link.old) → Finishes (S.manner start) L.tells begun speaker.new world.new (L.counts link.new, L.state link.new) end) }
        ensures broke { IfErr result (λ fault. (start : S.Start) (begun : View) → Stopped (S.manner start) L.tells begun [] halt self.old speaker.old world.old (L.counts link.old, L.state link.old) → Breaks (S.manner start) L.tells begun speaker.new world.new (L.counts link.new, L.state link.new) fault) }
    {
        'rounds: for _ in 0..u64::MAX {
            if let Some(end) = self.drain_on(speaker, world, link, halt)? {
                return Ok(end);
            }
        }
        Err(TalkFault::NoMem)
    }
}
