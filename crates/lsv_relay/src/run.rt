//! One connection of a relay.
ghost use Rattle.std.specs.Prelude.{◌≡◌, ◌≢◌, ◌↔◌, true, false, Ok, Err, IfOk, IfErr, IsErrOf};
ghost use Rattle.lsv_bundle.specs.declared.fault.BundleFault.{BundleFault};
ghost use Rattle.lsv_dialogue.specs.Ends.{Ran};
ghost use Rattle.lsv_disk.specs.Throughout.{Throughout};
ghost use Rattle.lsv_disk.specs.View.{HasOwnCause};
ghost use Rattle.lsv_iolog.specs.Recovered.{IsOfLog};
ghost use Rattle.lsv_iolog.specs.declared.fault.ViewFault.{ViewFault};
ghost use Rattle.lsv_kept.specs.Kept.{IsMarkedAt, IsOfRelay};
ghost use Rattle.lsv_kept.specs.Value.{is_done};
ghost use Rattle.lsv_link.specs.Link.{Continues};
ghost use Rattle.lsv_relay.specs.Ends.{Closes, IsPlain, Went};
ghost use Rattle.lsv_relay.specs.Talks.{Stands};
ghost use Rattle.lsv_relay.specs.Value.{IsUnbegun, aim_of, is_broken, state_of};
ghost use Rattle.lsv_relay.specs.declared.fault.RelayFault.{RelayFault};

use crate::{Relay, RelayFault};
use lsv_base::List;
use lsv_bundle::BundleFault;
use lsv_dialogue::{Cause, End, Judged, Speaker, TalkFault, Wants, judge, run};
use lsv_disk::Disk;
use lsv_iolog::ViewFault;
use lsv_kept::{a_crash_leaves_what_stands, what_is_kept_is_one};
use lsv_link::Link;
use lsv_msg::{ClientMessage, ServerMessage};

/// How one connection of a relay ended.
#[derive(Debug, Drop)]
pub enum RelayEnd {
    /// The log is relayed.
    Done,
    /// It isn't yet.
    Pending(Cause),
}

impl<D: Disk> Speaker<D> for Relay {
    ghost use Rattle.lsv_relay.specs.Ends.{manner_of};
    ghost use Rattle.lsv_relay.specs.Value.{RelayView};

    type Fault = RelayFault;

    ghost Start = { D × RelayView };

    ghost manner = { λ start. manner_of D.tells D.view start };

    fn judge(&self, message: &ServerMessage) -> Judged {
        judge(self.core.meter.sent, message)
    }

    fn wants(&self) -> Wants {
        if self.core.meter.whole {
            Wants::End
        } else {
            Wants::More
        }
    }

    fn open(&mut self, world: &mut D) -> Result<List<ClientMessage>, RelayFault> {
        self.begin(world)
    }

    fn step(&mut self, world: &mut D, most: usize) -> Result<List<ClientMessage>, RelayFault> {
        Relay::step(self, world, most)
    }

    fn hear(&mut self, world: &mut D, message: &ServerMessage) -> Result<(), RelayFault> {
        Relay::hear(self, world, message)
    }

    fn hear_late(&mut self, world: &mut D, message: &ServerMessage) -> Result<(), RelayFault> {
        Relay::hear_late(self, world, message)
    }
}

impl Relay {
    /// The connection to its host, `host:port` or `[address]:port`. The log is relayed exactly if the end is `Done`: then
    /// the whole exit was put on this connection, after that the upstream sent a commit point at the log's elapsed time,
    /// and then the connection ended, or nothing came for 30 s. If the connection fails before that, the commit point is
    /// kept, and the log isn't marked. `Pending` has its cause. If the log is relayed already, nobody is connected to.
    ///
    /// The faults are those of `begin`, `step` and `hear`, by their causes. `State(Disk)` leaves the relay broken until it
    /// is opened again; a broken relay connects to nobody and answers `State(Broken)`.
    pub fn run_one<D: Disk, L: Link>(
        &mut self,
        disk: &mut D,
        link: &mut L,
        host: &str,
    ) -> Result<RelayEnd, RelayFault>
        requires host { host.now ≡ (aim_of self.old).host }
        requires unbegun { is_done (state_of self.old) ≡ false → is_broken self.old ≡ false → IsUnbegun self.old.at }
        requires stands { D.tells → is_broken self.old ≡ false → Stands self.old (D.view disk.old) }
        ensures done { IfOk result (λ end. (end ≡ RelayEnd.Done) ↔ (is_done (state_of self.new) ≡ true)) }
        ensures already { is_done (state_of self.old) ≡ true → (result ≡ Ok RelayEnd.Done) × (self.new ≡ self.old) × (disk.new ≡ disk.old) × (link.new ≡ link.old) }
        ensures broken { is_done (state_of self.old) ≡ false → is_broken self.old ≡ true → (result ≡ Err (RelayFault.State BundleFault.Broken)) × (self.new ≡ self.old) × (disk.new ≡ disk.old) × (link.new ≡ link.old) }
        ensures went { is_done (state_of self.old) ≡ false → is_broken self.old ≡ false → Ran L.tells host.now (L.state link.old) (L.state link.new)
            (Went D.tells L.tells D.view disk.old self.old result self.new disk.new (L.counts link.old) (L.counts link.new)) }
        ensures marked { D.tells → is_done (state_of self.old) ≡ false → IfOk result (λ end. (end ≡ RelayEnd.Done) ↔ IsMarkedAt self.old.number (aim_of self.old).total (D.view disk.new).reads) }
        ensures unmarked { D.tells → is_done (state_of self.old) ≡ false → is_broken self.old ≡ false → IfErr result (λ fault. IsPlain fault → IsMarkedAt self.old.number (aim_of self.old).total (D.view disk.new).reads → ⊥) }
        ensures touches { D.tells → is_done (state_of self.old) ≡ false → is_broken self.old ≡ false → Throughout (IsOfRelay self.old.number) (λ image. Unit {0}) (D.view disk.old) (D.view disk.new) }
        ensures log { HasOwnCause (IsOfLog self.old.number) (IsErrOf result (RelayFault.Log ViewFault.Disk)) (D.view disk.old) (D.view disk.new) }
        ensures state { HasOwnCause (IsOfRelay self.old.number) (IsErrOf result (RelayFault.State BundleFault.Disk)) (D.view disk.old) (D.view disk.new) }
        ensures continues { Continues (L.counts link.old) (L.counts link.new) }
    {
        if self.is_done() {
            return Ok(RelayEnd::Done);
        }
        if self.core.keeping.is_broken() {
            return Err(RelayFault::State(BundleFault::Broken));
        }
        what_is_kept_is_one();
        a_crash_leaves_what_stands(&self.core.keeping, disk);
        let alloc = self.core.alloc;
        let end = run(alloc, self, disk, link, host);
        a_crash_leaves_what_stands(&self.core.keeping, disk);
        self.close(disk, end)
    }

    /// Marks the log as relayed if the conversation ended so that the other server has it, and says what is answered.
    fn close<D: Disk>(
        &mut self,
        disk: &mut D,
        end: Result<End, TalkFault<RelayFault>>,
    ) -> Result<RelayEnd, RelayFault>
        requires over { end ≡ Ok End.Over → (is_broken self.old ≡ false) × (self.old.meter.whole ≡ true) }
        requires stands { D.tells → end ≡ Ok End.Over → Stands self.old (D.view disk.old) }
        ensures closes { Closes D.tells D.view self.old.number end self.old disk.old result self.new disk.new }
        ensures cause { HasOwnCause (IsOfRelay self.old.number) (IsErrOf result (RelayFault.State BundleFault.Disk) × (end ≡ Ok End.Over)) (D.view disk.old) (D.view disk.new) }
    {
        match end {
            Ok(End::Over) => {
                self.core.keeping.mark(disk)?;
                self.core.meter.whole = false;
                Ok(RelayEnd::Done)
            }
            Ok(End::Stopped(cause)) => Ok(RelayEnd::Pending(cause)),
            Err(TalkFault::NoMem) => Err(RelayFault::NoMem),
            Err(TalkFault::Speaker(fault)) => Err(fault),
        }
    }
}
