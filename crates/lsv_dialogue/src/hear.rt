//! What a conversation does with a message that was read, and with each round.

ghost use Rattle.std.specs.Prelude.{◌≡◌, ◌≢◌, ◌⊎◌, ◌<◌, ◌≤◌, ◌∷◌, ℕ, [], true, false, is_some, IfErr, IfOk};
ghost use Rattle.lsv_link.specs.Link.{IsConnected};
ghost use Rattle.lsv_wire.specs.Frame.{IsPartial};
ghost use Rattle.lsv_dialogue.specs.Events.{text_of};
ghost use Rattle.lsv_dialogue.specs.declared.ends.Judged.TheVariants as judged;
ghost use Rattle.lsv_dialogue.specs.Stands.{Breaks, EndsSo, Finishes, Goes, Paused, Renews, Speaks, View, noted};

use crate::read::{Came, Next};
use crate::talk::{Spoken, Talk};
use crate::text::{has_text, into_text};
use crate::{Cause, End, Judged, MOST_HEARD, MOST_PUT, Speaker, TalkFault, Wants};
use lsv_link::Link;
use lsv_msg::ServerMessage;

impl Talk {
    /// Notes that a message was heard, and how far the server is by it.
    fn note(&mut self, message: &ServerMessage)
        requires { self.old.heard < MOST_HEARD }
        ensures { self.new ≡ noted message.now self.old }
    {
        self.heard += 1;
        match message {
            ServerMessage::LogId(_) => {
                self.came = self.came || !self.known;
                self.known = true;
            }
            ServerMessage::CommitPoint(time) => {
                if let Some(point) = time.point() {
                    self.came = self.came || self.top <= point.nanos();
                    self.top = self.top.max(point.nanos() + 1);
                }
            }
            _ => {}
        }
    }

    /// Hands an error or an abort to the speaker. It is the last message, and nothing is said after it.
    fn take_last<W, S: Speaker<W>, L: Link>(
        &mut self,
        speaker: &mut S,
        world: &mut W,
        link: &L,
        message: ServerMessage,
    ) -> Result<End, TalkFault<S::Fault>>
        requires speaks { (start : S.Start) × (begun : View) × Speaks (S.manner start) L.tells begun (message ∷ []) 0 self.old speaker.old world.old (L.counts link.now, L.state link.now) }
        requires wants { (start : S.Start) → (S.manner start).wants speaker.old ≢ Wants.Nothing }
        requires takes { (start : S.Start) → (S.manner start).judges speaker.old message ≡ judged.Takes }
        requires text { is_some (text_of message) ≡ true }
        ensures ended { IfOk result (λ end. (start : S.Start) (begun : View) → Speaks (S.manner start) L.tells begun (message ∷ []) 0 self.old speaker.old world.old (L.counts link.now, L.state link.now) → Finishes (S.manner start) L.tells begun speaker.new world.new (L.counts link.now, L.state link.now) end) }
        ensures broke { IfErr result (λ fault. (start : S.Start) (begun : View) → Speaks (S.manner start) L.tells begun (message ∷ []) 0 self.old speaker.old world.old (L.counts link.now, L.state link.now) → Breaks (S.manner start) L.tells begun speaker.new world.new (L.counts link.now, L.state link.now) fault) }
    {
        match speaker.hear(world, &message) {
            Ok(()) => {}
            Err(fault) => return Err(TalkFault::Speaker(fault)),
        }
        match into_text(message) {
            Some(text) => Ok(End::Stopped(Cause::Said(text))),
            None => unreachable!(),
        }
    }

    /// Judges a message, and hands it to the speaker, or ends.
    fn hear<W, S: Speaker<W>, L: Link>(
        &mut self,
        speaker: &mut S,
        world: &mut W,
        link: &L,
        message: ServerMessage,
    ) -> Result<Option<End>, TalkFault<S::Fault>>
        requires speaks { (start : S.Start) × (begun : View) × Speaks (S.manner start) L.tells begun (message ∷ []) 0 self.old speaker.old world.old (L.counts link.now, L.state link.now) }
        requires wants { (start : S.Start) → (S.manner start).wants speaker.old ≢ Wants.Nothing }
        requires more { self.old.heard < MOST_HEARD }
        ensures goes { IfOk result (λ end. (start : S.Start) (begun : View) → Speaks (S.manner start) L.tells begun (message ∷ []) 0 self.old speaker.old world.old (L.counts link.now, L.state link.now) → Goes (S.manner start) L.tells begun end self.new speaker.new world.new (L.counts link.now, L.state link.now)) }
        ensures broke { IfErr result (λ fault. (start : S.Start) (begun : View) → Speaks (S.manner start) L.tells begun (message ∷ []) 0 self.old speaker.old world.old (L.counts link.now, L.state link.now) → Breaks (S.manner start) L.tells begun speaker.new world.new (L.counts link.now, L.state link.now) fault) }
    {
        match speaker.judge(&message) {
            Judged::Takes => {}
            Judged::Strange(point) => return Ok(Some(End::Stopped(Cause::Strange(point)))),
            Judged::LongId(length) => return Ok(Some(End::Stopped(Cause::LongId(length)))),
        }
        if has_text(&message) {
            return Ok(Some(self.take_last(speaker, world, link, message)?));
        }
        match speaker.hear(world, &message) {
            Ok(()) => {}
            Err(fault) => return Err(TalkFault::Speaker(fault)),
        }
        self.note(&message);
        Ok(None)
    }

    /// Renews the connection if what was heard since the last read was progress. Whether it did.
    fn refresh<L: Link>(&mut self, link: &mut L) -> bool
        requires connected { L.tells → IsConnected (L.state link.old) }
        ensures fresh { result ≡ self.old.came }
        ensures talk { self.new ≡ record self.old { came = false } }
        ensures not { result ≡ false → L.state link.new ≡ L.state link.old }
        ensures renewed { result ≡ true → L.tells → Renews (L.state link.old) (L.state link.new) }
        ensures counts { L.counts link.new ≡ L.counts link.old }
    {
        if !self.came {
            return false;
        }
        self.came = false;
        link.renew();
        true
    }

    /// How a conversation ends if nothing more comes: `full` says that the input ended, or that it was waited for all of
    /// the connection's time; `cause` says which.
    fn end_of(&self, wants: Wants, full: bool, cause: Cause) -> End
        ensures { EndsSo wants full cause self.now.framer result }
    {
        if let Wants::End = wants {
            if full && self.framer.held().is_empty() {
                return End::Over;
            }
        }
        End::Stopped(cause)
    }

    /// Looks whether something came, and waits for it if nothing more may be said.
    fn look<W, S: Speaker<W>, L: Link>(
        &mut self,
        speaker: &S,
        world: &W,
        link: &mut L,
        quiet: bool,
    ) -> Result<Option<End>, TalkFault<S::Fault>>
        requires speaks { (start : S.Start) × (begun : View) × (put : ℕ) × Speaks (S.manner start) L.tells begun [] put self.old speaker.now world.now (L.counts link.old, L.state link.old) × Paused (S.manner start) quiet put speaker.now }
        requires partial { IsPartial self.old.framer }
        requires more { self.old.heard < MOST_HEARD }
        ensures goes { IfOk result (λ end. (start : S.Start) (begun : View) (put : ℕ) → Speaks (S.manner start) L.tells begun [] put self.old speaker.now world.now (L.counts link.old, L.state link.old) → Paused (S.manner start) quiet put speaker.now → Goes (S.manner start) L.tells begun end self.new speaker.now world.now (L.counts link.new, L.state link.new)) }
        ensures broke { IfErr result (λ fault. (start : S.Start) (begun : View) (put : ℕ) → Speaks (S.manner start) L.tells begun [] put self.old speaker.now world.now (L.counts link.old, L.state link.old) → Paused (S.manner start) quiet put speaker.now → Breaks (S.manner start) L.tells begun speaker.now world.now (L.counts link.new, L.state link.new) fault) }
    {
        let fresh = self.refresh(link);
        let Ok(came) = self.read_more(link, quiet) else {
            return Err(TalkFault::NoMem);
        };
        match came {
            Came::More => Ok(None),
            Came::Nothing => {
                if !quiet {
                    return Ok(None);
                }
                Ok(Some(self.end_of(speaker.wants(), fresh, Cause::NotYet)))
            }
            Came::End => Ok(Some(self.end_of(speaker.wants(), true, Cause::Ended))),
            Came::Failed => Ok(Some(End::Stopped(Cause::Failed))),
        }
    }

    /// Says on, after this many messages in this round, and looks whether something came.
    pub(crate) fn go_on<W, S: Speaker<W>, L: Link>(
        &mut self,
        speaker: &mut S,
        world: &mut W,
        link: &mut L,
        put: usize,
    ) -> Result<Option<End>, TalkFault<S::Fault>>
        requires speaks { (start : S.Start) × (begun : View) × Speaks (S.manner start) L.tells begun [] put self.old speaker.old world.old (L.counts link.old, L.state link.old) }
        requires wants { (start : S.Start) → (S.manner start).wants speaker.old ≡ Wants.More ⊎ ((put ≡ 0) × ((S.manner start).wants speaker.old ≢ Wants.Nothing)) }
        requires partial { IsPartial self.old.framer }
        requires few { put ≤ MOST_PUT }
        requires more { self.old.heard < MOST_HEARD }
        ensures goes { IfOk result (λ end. (start : S.Start) (begun : View) → Speaks (S.manner start) L.tells begun [] put self.old speaker.old world.old (L.counts link.old, L.state link.old) → Goes (S.manner start) L.tells begun end self.new speaker.new world.new (L.counts link.new, L.state link.new)) }
        ensures broke { IfErr result (λ fault. (start : S.Start) (begun : View) → Speaks (S.manner start) L.tells begun [] put self.old speaker.old world.old (L.counts link.old, L.state link.old) → Breaks (S.manner start) L.tells begun speaker.new world.new (L.counts link.new, L.state link.new) fault) }
    {
        let spoken = self.say_on(speaker, world, link, put)?;
        match spoken {
            Spoken::Halted(halt) => Ok(Some(self.drain(speaker, world, link, halt)?)),
            Spoken::Said(_) => self.look(speaker, world, link, false),
            Spoken::Quiet => {
                if let Wants::Nothing = speaker.wants() {
                    return Ok(Some(End::Over));
                }
                self.look(speaker, world, link, true)
            }
        }
    }

    /// One round, or a message of it: a message that was read is heard, or more is said, and it is looked what came. What
    /// ends the conversation, if anything.
    pub(crate) fn round<W, S: Speaker<W>, L: Link>(
        &mut self,
        speaker: &mut S,
        world: &mut W,
        link: &mut L,
    ) -> Result<Option<End>, TalkFault<S::Fault>>
        requires speaks { (start : S.Start) × (begun : View) × Speaks (S.manner start) L.tells begun [] 0 self.old speaker.old world.old (L.counts link.old, L.state link.old) }
        ensures goes { IfOk result (λ end. (start : S.Start) (begun : View) → Speaks (S.manner start) L.tells begun [] 0 self.old speaker.old world.old (L.counts link.old, L.state link.old) → Goes (S.manner start) L.tells begun end self.new speaker.new world.new (L.counts link.new, L.state link.new)) }
        ensures broke { IfErr result (λ fault. (start : S.Start) (begun : View) → Speaks (S.manner start) L.tells begun [] 0 self.old speaker.old world.old (L.counts link.old, L.state link.old) → Breaks (S.manner start) L.tells begun speaker.new world.new (L.counts link.new, L.state link.new) fault) }
    {
        if let Wants::Nothing = speaker.wants() {
            return Ok(Some(End::Over));
        }
        if self.heard >= MOST_HEARD {
            return Ok(Some(End::Stopped(Cause::Chatter)));
        }
        let Ok(next) = self.next_message() else {
            return Err(TalkFault::NoMem);
        };
        match next {
            Next::Message(message) => self.hear(speaker, world, link, message),
            Next::Malformed(fault) => Ok(Some(End::Stopped(Cause::Malformed(fault)))),
            Next::TooLarge(stated) => Ok(Some(End::Stopped(Cause::TooLarge(stated)))),
            Next::Nothing => self.go_on(speaker, world, link, 0),
        }
    }
}
