ghost use Rattle.std.specs.Prelude.{◌≡◌, ◌≢◌, ◌≤◌, ◌<◌, ◌++◌, [], length, true, is_some, List, IfOk, IfErr, OnOk};
ghost use Rattle.lsv_dialogue.specs.Events.{Event, all_said, as_heard, as_late, text_of};
ghost use Rattle.lsv_dialogue.specs.declared.ends.TheConstants.{MOST_PUT};

use crate::{Judged, Wants};
use lsv_base::List;
use lsv_msg::{ClientMessage, ServerMessage};

/// What speaks over a link. It takes the server's messages one by one, and says what to send next. `W` is what its calls
/// work on: a disk, or a disk and a sink.
///
/// First `open` is called, then `step` and `hear` in turns: all that was read is heard before more is said. A message is
/// judged first, and only one that is taken is heard. If a write stopped, `hear_late` takes what had come, and nothing
/// more is said.
pub trait Speaker<W> {
    ghost use Rattle.lsv_dialogue.specs.Manner.{Manner};

    /// Why a call fails.
    type Fault;

    /// From what a conversation may have begun.
    ghost Start: { Type 0 };

    /// How it speaks, from this start on.
    ghost manner: { Start → Manner Self W Self.Fault };

    /// Judges a message that was read. One that it doesn't take ends the conversation.
    fn judge(&self, message: &ServerMessage) -> Judged
        ensures { (start : Start) → result ≡ (manner start).judges self.now message.now };

    /// What it wants now. It is asked once all that it said was put.
    fn wants(&self) -> Wants
        ensures { (start : Start) → result ≡ (manner start).wants self.now };

    /// Says what opens the conversation: at most 16 messages.
    fn open(&mut self, world: &mut W) -> Result<List<ClientMessage>, Self::Fault>
        requires begun { (start : Start) × (manner start).talks self.old world.old [] }
        requires wants { (start : Start) → (manner start).wants self.old ≡ Wants.More }
        ensures talks { IfOk result (λ messages. (start : Start) → (manner start).talks self.old world.old [] → (manner start).talks self.new world.new (all_said messages)) }
        ensures few { IfOk result (λ messages. length messages ≤ MOST_PUT) }
        ensures opens { OnOk result ((start : Start) → (manner start).opened self.new) }
        ensures wants { OnOk result ((start : Start) → (manner start).wants self.new ≡ Wants.More) }
        ensures fails { IfErr result (λ fault. (start : Start) → (manner start).talks self.old world.old [] → (manner start).fails self.new world.new [] fault) };

    /// Says what to send next: at most `most` messages. An empty list says that nothing more may be sent before a further
    /// message. What one step says is kept in memory together. One that says something wants to go on.
    fn step(&mut self, world: &mut W, most: usize) -> Result<List<ClientMessage>, Self::Fault>
        requires begun { (start : Start) × (events : List Event) × (manner start).talks self.old world.old events × (manner start).opened self.old }
        requires wants { (start : Start) → (manner start).wants self.old ≢ Wants.Nothing }
        requires some { 0 < most }
        requires most { most ≤ MOST_PUT }
        ensures talks { IfOk result (λ messages. (start : Start) (events : List Event) → (manner start).talks self.old world.old events → (manner start).talks self.new world.new (events ++ all_said messages)) }
        ensures few { IfOk result (λ messages. length messages ≤ most) }
        ensures quiet { IfOk result (λ messages. messages ≡ [] → (start : Start) → (manner start).quiet self.new) }
        ensures busy { IfOk result (λ messages. messages ≢ [] → (start : Start) → (manner start).wants self.new ≡ Wants.More) }
        ensures opens { OnOk result ((start : Start) → (manner start).opened self.new) }
        ensures fails { IfErr result (λ fault. (start : Start) (events : List Event) → (manner start).talks self.old world.old events → (manner start).fails self.new world.new events fault) };

    /// Takes a message that was read after all that was said had been put. An error or an abort is the last one, and
    /// changes nothing of what it wants.
    fn hear(&mut self, world: &mut W, message: &ServerMessage) -> Result<(), Self::Fault>
        requires begun { (start : Start) × (events : List Event) × (manner start).talks self.old world.old events × (manner start).opened self.old }
        requires wants { (start : Start) → (manner start).wants self.old ≢ Wants.Nothing }
        requires takes { (start : Start) → (manner start).judges self.old message.now ≡ Judged.Takes }
        ensures talks { OnOk result ((start : Start) (events : List Event) → (manner start).talks self.old world.old events → (manner start).talks self.new world.new (events ++ as_heard message.now)) }
        ensures opens { OnOk result ((start : Start) → (manner start).opened self.new) }
        ensures last { OnOk result (is_some (text_of message.now) ≡ true → (start : Start) → (manner start).wants self.new ≡ (manner start).wants self.old) }
        ensures fails { IfErr result (λ fault. (start : Start) (events : List Event) → (manner start).talks self.old world.old events → (manner start).fails self.new world.new (events ++ as_heard message.now) fault) };

    /// Takes a message that came when a write had stopped: not all that was said was put. Nothing more is said. So it
    /// doesn't get what it wants by such a message.
    fn hear_late(&mut self, world: &mut W, message: &ServerMessage) -> Result<(), Self::Fault>
        requires begun { (start : Start) × (events : List Event) × (manner start).talks self.old world.old events × (manner start).opened self.old }
        requires wants { (start : Start) → (manner start).wants self.old ≡ Wants.More }
        requires takes { (start : Start) → (manner start).judges self.old message.now ≡ Judged.Takes }
        ensures talks { OnOk result ((start : Start) (events : List Event) → (manner start).talks self.old world.old events → (manner start).talks self.new world.new (events ++ as_late message.now)) }
        ensures opens { OnOk result ((start : Start) → (manner start).opened self.new) }
        ensures wants { OnOk result ((start : Start) → (manner start).wants self.new ≡ Wants.More) }
        ensures fails { IfErr result (λ fault. (start : Start) (events : List Event) → (manner start).talks self.old world.old events → (manner start).fails self.new world.new (events ++ as_late message.now) fault) };
}
