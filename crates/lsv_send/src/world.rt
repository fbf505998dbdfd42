//! A sender as what speaks over a link: it reads a disk and prints on a sink.
ghost use Rattle.std.specs.Prelude.{◌≡◌};

use crate::fault::SendFault;
use crate::sender::Sender;
use lsv_base::{List, Sink};
use lsv_dialogue::{Judged, Speaker, Wants};
use lsv_disk::Disk;
use lsv_msg::{ClientMessage, ServerMessage};

/// What a sender works on.
pub struct World<'a, D, K> {
    pub disk: &'a mut D,
    pub sink: &'a mut K,
}

impl<'a, D: Disk, K: Sink> Speaker<World<'a, D, K>> for Sender {
    ghost use Rattle.std.specs.Prelude.{◌≡◌, ◌≢◌};
    ghost use Rattle.lsv_dialogue.specs.Judging.{judged_at};
    ghost use Rattle.lsv_send.specs.Begun.{Begun};
    ghost use Rattle.lsv_send.specs.Handing.{IsQuiet, wants_at};
    ghost use Rattle.lsv_send.specs.Talks.{Fails, Talks, far_of};
    ghost use Rattle.lsv_send.specs.declared.sender.Place.TheVariants.{Opening};

    type Fault = SendFault;

    ghost Start = { Begun D D.tells };

    ghost manner = { λ begun. record {
      talks = λ s w events. Talks D.tells K.tells (record { number = begun.number; source = begun.source; disk = D.view begun.disk; printed = begun.printed; faults = begun.faults }) s (D.view w.disk.now) (K.put w.sink.now) (K.faults w.sink.now)
          ((w.disk.ghost_name ≡ begun.disk_name) × (w.sink.ghost_name ≡ begun.sink_name)) events;
      fails = λ s w events fault. Fails D.tells K.tells (record { number = begun.number; source = begun.source; disk = D.view begun.disk; printed = begun.printed; faults = begun.faults }) (D.view w.disk.now) (K.put w.sink.now) (K.faults w.sink.now)
          ((w.disk.ghost_name ≡ begun.disk_name) × (w.sink.ghost_name ≡ begun.sink_name)) events fault;
      judges = λ s m. judged_at s.sent m;
      opened = λ s. s.place ≢ Opening;
      quiet = λ s. IsQuiet (far_of s);
      wants = λ s. wants_at (far_of s);
    } };

    fn judge(&self, message: &ServerMessage) -> Judged {
        Sender::judge(self, message)
    }

    fn wants(&self) -> Wants {
        Sender::wants(self)
    }

    fn open(&mut self, _world: &mut World<'a, D, K>) -> Result<List<ClientMessage>, SendFault> {
        Ok(self.say_opening())
    }

    fn step(
        &mut self,
        world: &mut World<'a, D, K>,
        most: usize,
    ) -> Result<List<ClientMessage>, SendFault> {
        let messages = self.say(world.disk, most)?;
        Ok(messages)
    }

    fn hear(
        &mut self,
        world: &mut World<'a, D, K>,
        message: &ServerMessage,
    ) -> Result<(), SendFault> {
        Sender::hear(self, world.sink, message)
    }

    fn hear_late(
        &mut self,
        world: &mut World<'a, D, K>,
        message: &ServerMessage,
    ) -> Result<(), SendFault> {
        Sender::hear_late(self, world.sink, message)
    }
}
