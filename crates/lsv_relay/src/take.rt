//! A message of the upstream is taken: what it makes of what is kept is kept before the next one.
ghost use Rattle.std.specs.Prelude.{◌≡◌, ◌<◌, ◌^◌, not, nat_lt, ◌==◌, ◌&&◌, ◌||◌, ◌++◌, length, true, false, List, Some, IsSome, IfErr, OnOk, OnErr, IsErrOf};
ghost use Rattle.lsv_base.specs.Time.{nanos_of};
ghost use Rattle.lsv_bundle.specs.declared.fault.BundleFault.{BundleFault};
ghost use Rattle.lsv_disk.specs.Throughout.{Throughout};
ghost use Rattle.lsv_disk.specs.View.{HasOwnCause};
ghost use Rattle.lsv_kept.specs.Kept.{IsOfRelay};
ghost use Rattle.lsv_kept.specs.Value as kept;
ghost use Rattle.lsv_kept.specs.Value.{is_done, keeps_id};
ghost use Rattle.lsv_relay.specs.Faults.{IsStateFault};
ghost use Rattle.lsv_relay.specs.Inner.{HasTaken, IsRelay, IsSamePlace};
ghost use Rattle.lsv_relay.specs.Talk.{Talk, hears, hears_error, hears_id, hears_point, kept_at};
ghost use Rattle.lsv_relay.specs.Talks.{IsDurable, KeepsOneOf, unended};
ghost use Rattle.lsv_relay.specs.Value.{aim_of, is_broken, state_of, talk_of};
ghost use Rattle.lsv_relay.specs.declared.fault.RelayFault.{RelayFault};
ghost use Rattle.lsv_transcript.specs.Transcript.{is_id};

use crate::RelayFault;
use crate::relay::Core;
use lsv_base::{Bytes, TimeSpec};
use lsv_dialogue::LONGEST_ID;
use lsv_disk::Disk;
use lsv_msg::ServerMessage;

impl Core {
    /// Takes this message.
    pub(crate) fn take<D: Disk>(
        &mut self,
        disk: &mut D,
        message: &ServerMessage,
    ) -> Result<(), RelayFault>
        requires sound { IsRelay self.old }
        requires whole { is_broken self.old ≡ false }
        requires stands { D.tells → kept.Stands self.old.keeping (D.view disk.old) }
        ensures taken { OnOk result (HasTaken self.old self.new (hears (aim_of self.old).total message.now (talk_of self.old)) (self.old.meter.waits && not (is_id message.now))) }
        ensures same { IsSamePlace self.old self.new }
        ensures sound { IsRelay self.new }
        ensures stands { D.tells → OnOk result (kept.Stands self.new.keeping (D.view disk.new)) }
        ensures any_moment { D.tells → Throughout (IsOfRelay self.old.number) (KeepsOneOf self.old.number (aim_of self.old) (state_of self.old) (hears (aim_of self.old).total message.now (talk_of self.old)).state (D.view disk.old)) (D.view disk.old) (D.view disk.new) }
        ensures durable { D.tells → IsDurable self.old.number (aim_of self.old) (state_of self.old) (D.view disk.old) → OnOk result (IsDurable self.old.number (aim_of self.old) (state_of self.new) (D.view disk.new)) }
        ensures fails { OnErr result (is_broken self.new ≡ true) }
        ensures fault { IfErr result IsStateFault }
        ensures cause { HasOwnCause (IsOfRelay self.old.number) (IsErrOf result (RelayFault.State BundleFault.Disk)) (D.view disk.old) (D.view disk.new) }
    {
        match message {
            ServerMessage::LogId(id) => self.take_id(disk, id),
            ServerMessage::CommitPoint(time) => self.take_point(disk, *time),
            ServerMessage::Error(_) => self.take_error(disk),
            ServerMessage::Hello(_) | ServerMessage::Abort(_) => Ok(()),
        }
    }

    /// Takes a message that comes too late for an answer: the exit counts as not handed out.
    pub(crate) fn take_late<D: Disk>(
        &mut self,
        disk: &mut D,
        message: &ServerMessage,
    ) -> Result<(), RelayFault>
        requires sound { IsRelay self.old }
        requires whole { is_broken self.old ≡ false }
        requires stands { D.tells → kept.Stands self.old.keeping (D.view disk.old) }
        ensures taken { OnOk result (HasTaken self.old self.new (hears (aim_of self.old).total message.now (talk_of (unended self.old))) (self.old.meter.waits && not (is_id message.now))) }
        ensures same { IsSamePlace self.old self.new }
        ensures sound { IsRelay self.new }
        ensures stands { D.tells → OnOk result (kept.Stands self.new.keeping (D.view disk.new)) }
        ensures any_moment { D.tells → Throughout (IsOfRelay self.old.number) (KeepsOneOf self.old.number (aim_of self.old) (state_of self.old) (hears (aim_of self.old).total message.now (talk_of (unended self.old))).state (D.view disk.old)) (D.view disk.old) (D.view disk.new) }
        ensures durable { D.tells → IsDurable self.old.number (aim_of self.old) (state_of self.old) (D.view disk.old) → OnOk result (IsDurable self.old.number (aim_of self.old) (state_of self.new) (D.view disk.new)) }
        ensures fails { OnErr result (is_broken self.new ≡ true) }
        ensures fault { IfErr result IsStateFault }
        ensures cause { HasOwnCause (IsOfRelay self.old.number) (IsErrOf result (RelayFault.State BundleFault.Disk)) (D.view disk.old) (D.view disk.new) }
    {
        self.meter.ended = false;
        self.meter.whole = false;
        self.take(disk, message)
    }

    /// Keeps the first identifier of a connection that didn't ask for one.
    fn take_id<D: Disk>(&mut self, disk: &mut D, id: &Bytes) -> Result<(), RelayFault>
        requires sound { IsRelay self.old }
        requires whole { is_broken self.old ≡ false }
        requires stands { D.tells → kept.Stands self.old.keeping (D.view disk.old) }
        ensures taken { OnOk result (HasTaken self.old self.new (hears_id id.now (talk_of self.old)) (false)) }
        ensures same { IsSamePlace self.old self.new }
        ensures sound { IsRelay self.new }
        ensures stands { D.tells → OnOk result (kept.Stands self.new.keeping (D.view disk.new)) }
        ensures any_moment { D.tells → Throughout (IsOfRelay self.old.number) (KeepsOneOf self.old.number (aim_of self.old) (state_of self.old) (hears_id id.now (talk_of self.old)).state (D.view disk.old)) (D.view disk.old) (D.view disk.new) }
        ensures durable { D.tells → IsDurable self.old.number (aim_of self.old) (state_of self.old) (D.view disk.old) → OnOk result (IsDurable self.old.number (aim_of self.old) (state_of self.new) (D.view disk.new)) }
        ensures fails { OnErr result (is_broken self.new ≡ true) }
        ensures fault { IfErr result IsStateFault }
        ensures cause { HasOwnCause (IsOfRelay self.old.number) (IsErrOf result (RelayFault.State BundleFault.Disk)) (D.view disk.old) (D.view disk.new) }
    {
        self.meter.waits = false;
        if self.ignores_id(id) {
            return Ok(());
        }
        self.keeping.keep_id(disk, id)?;
        self.meter.known = true;
        Ok(())
    }

    /// Keeps a commit point with its identifier.
    fn take_point<D: Disk>(&mut self, disk: &mut D, time: TimeSpec) -> Result<(), RelayFault>
        requires sound { IsRelay self.old }
        requires whole { is_broken self.old ≡ false }
        requires stands { D.tells → kept.Stands self.old.keeping (D.view disk.old) }
        ensures taken { OnOk result (HasTaken self.old self.new (hears_point (aim_of self.old).total (nanos_of time) (talk_of self.old)) (self.old.meter.waits)) }
        ensures same { IsSamePlace self.old self.new }
        ensures sound { IsRelay self.new }
        ensures stands { D.tells → OnOk result (kept.Stands self.new.keeping (D.view disk.new)) }
        ensures any_moment { D.tells → Throughout (IsOfRelay self.old.number) (KeepsOneOf self.old.number (aim_of self.old) (state_of self.old) (hears_point (aim_of self.old).total (nanos_of time) (talk_of self.old)).state (D.view disk.old)) (D.view disk.old) (D.view disk.new) }
        ensures durable { D.tells → IsDurable self.old.number (aim_of self.old) (state_of self.old) (D.view disk.old) → OnOk result (IsDurable self.old.number (aim_of self.old) (state_of self.new) (D.view disk.new)) }
        ensures fails { OnErr result (is_broken self.new ≡ true) }
        ensures fault { IfErr result IsStateFault }
        ensures cause { HasOwnCause (IsOfRelay self.old.number) (IsErrOf result (RelayFault.State BundleFault.Disk)) (D.view disk.old) (D.view disk.new) }
    {
        let Some(point) = time.point() else {
            return Ok(());
        };
        let point = point.nanos();
        if self.ignores_point(point) {
            return Ok(());
        }
        self.keep(disk, point)?;
        self.meter.asked = false;
        self.meter.whole = self.is_all(point);
        Ok(())
    }

    /// Keeps this point, unless it is 0, which fits any log.
    fn keep<D: Disk>(&mut self, disk: &mut D, point: u64) -> Result<(), RelayFault>
        requires kept { keeps_id (state_of self.old) ≡ true }
        requires small { point < 2 ^ 63 }
        requires sound { IsRelay self.old }
        requires whole { is_broken self.old ≡ false }
        requires stands { D.tells → kept.Stands self.old.keeping (D.view disk.old) }
        ensures state { OnOk result (state_of self.new ≡ kept_at point (state_of self.old)) }
        ensures whole { OnOk result (is_broken self.new ≡ false) }
        ensures meter { self.new.meter ≡ self.old.meter }
        ensures same { IsSamePlace self.old self.new }
        ensures sound { IsRelay self.new }
        ensures stands { D.tells → OnOk result (kept.Stands self.new.keeping (D.view disk.new)) }
        ensures any_moment { D.tells → Throughout (IsOfRelay self.old.number) (KeepsOneOf self.old.number (aim_of self.old) (state_of self.old) (kept_at point (state_of self.old)) (D.view disk.old)) (D.view disk.old) (D.view disk.new) }
        ensures durable { D.tells → IsDurable self.old.number (aim_of self.old) (state_of self.old) (D.view disk.old) → OnOk result (IsDurable self.old.number (aim_of self.old) (state_of self.new) (D.view disk.new)) }
        ensures fails { OnErr result (is_broken self.new ≡ true) }
        ensures fault { IfErr result IsStateFault }
        ensures cause { HasOwnCause (IsOfRelay self.old.number) (IsErrOf result (RelayFault.State BundleFault.Disk)) (D.view disk.old) (D.view disk.new) }
    {
        if point == 0 {
            return Ok(());
        }
        self.keeping.keep_point(disk, point)?;
        Ok(())
    }

    /// Drops what is kept if an error refuses to go on with it.
    fn take_error<D: Disk>(&mut self, disk: &mut D) -> Result<(), RelayFault>
        requires sound { IsRelay self.old }
        requires whole { is_broken self.old ≡ false }
        requires stands { D.tells → kept.Stands self.old.keeping (D.view disk.old) }
        ensures taken { OnOk result (HasTaken self.old self.new (hears_error (talk_of self.old)) (self.old.meter.waits)) }
        ensures same { IsSamePlace self.old self.new }
        ensures sound { IsRelay self.new }
        ensures stands { D.tells → OnOk result (kept.Stands self.new.keeping (D.view disk.new)) }
        ensures any_moment { D.tells → Throughout (IsOfRelay self.old.number) (KeepsOneOf self.old.number (aim_of self.old) (state_of self.old) (hears_error (talk_of self.old)).state (D.view disk.old)) (D.view disk.old) (D.view disk.new) }
        ensures durable { D.tells → IsDurable self.old.number (aim_of self.old) (state_of self.old) (D.view disk.old) → OnOk result (IsDurable self.old.number (aim_of self.old) (state_of self.new) (D.view disk.new)) }
        ensures fails { OnErr result (is_broken self.new ≡ true) }
        ensures fault { IfErr result IsStateFault }
        ensures cause { HasOwnCause (IsOfRelay self.old.number) (IsErrOf result (RelayFault.State BundleFault.Disk)) (D.view disk.old) (D.view disk.new) }
    {
        if self.is_refused() {
            self.keeping.forget(disk)?;
            self.meter.asked = false;
            return Ok(());
        }
        Ok(())
    }

    /// Whether an identifier changes nothing: the upstream has the log already, or it is too long, or all is done.
    fn ignores_id(&self, id: &Bytes) -> bool
        ensures { result ≡ (self.now.meter.known || nat_lt 4096 (length id.now) || is_done (state_of self.now)) }
    {
        self.meter.known || LONGEST_ID < id.as_slice().len() || self.keeping.is_done()
    }

    /// Whether a commit point changes nothing: it is above what was sent, there is no identifier that it is for, or the
    /// upstream has all of the log already.
    fn ignores_point(&self, point: u64) -> bool
        ensures { result ≡ (nat_lt self.now.meter.sent point || not self.now.meter.known || not (keeps_id (state_of self.now)) || self.now.meter.whole) }
    {
        self.meter.sent < point || !self.meter.known || !self.keeping.keeps_id() || self.meter.whole
    }

    /// Whether a commit point says that the upstream has all of the log.
    fn is_all(&self, point: u64) -> bool
        ensures { result ≡ (self.now.meter.ended && point == (aim_of self.now).total) }
    {
        self.meter.ended && point == self.keeping.aim().total()
    }

    /// Whether an error refuses to go on with the identifier that is kept.
    fn is_refused(&self) -> bool
        ensures { result ≡ (self.now.meter.asked && keeps_id (state_of self.now)) }
    {
        self.meter.asked && self.keeping.keeps_id()
    }
}
