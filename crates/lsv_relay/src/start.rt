//! A connection begins: records are passed over to a kept commit point, and the opening is made.
ghost use Rattle.std.specs.Prelude.{◌≡◌, ◌≢◌, ◌≤◌, ℕ, true, false, Some, None, OnOk, [], ◌++◌, ◌∷◌, List, length, IfOk, IfErr, OnErr, IsErrOf};
ghost use Rattle.lsv_disk.specs.Throughout.{OnlyReads};
ghost use Rattle.lsv_disk.specs.View.{HasOwnCause};
ghost use Rattle.lsv_info.specs.declared.times.Head.{Head};
ghost use Rattle.lsv_iolog.specs.Recovered as logs;
ghost use Rattle.lsv_iolog.specs.declared.fault.ViewFault.{ViewFault};
ghost use Rattle.lsv_record.specs.Points.{first};
ghost use Rattle.lsv_record.specs.declared.records.Record.{Record};
ghost use Rattle.lsv_relay.specs.Complete.{IsTimed};
ghost use Rattle.lsv_relay.specs.Faults.{IsLogCause, IsLogFault};
ghost use Rattle.lsv_relay.specs.Inner.{HasStarted, IsRelay, IsSending};
ghost use Rattle.lsv_relay.specs.Talks.{AreAllOf, HasLog, IsOpened, Way, opening_of};
ghost use Rattle.lsv_relay.specs.Value.{IsUnbegun, aim_of};
ghost use Rattle.lsv_relay.specs.declared.fault.RelayFault.{RelayFault};
ghost use Rattle.lsv_relay.specs.declared.relay.Place.TheVariants as places;

use crate::RelayFault;
use crate::open::open_complete;
use crate::relay::{Core, Meter, Place};
use lsv_base::{Bytes, List, LogNo, NoMem};
use lsv_disk::{Disk, Part};
use lsv_info::Head;
use lsv_iolog::{LogView, ViewFault};
use lsv_kept::State;
use lsv_msg::ClientMessage;
use lsv_request::head_message;
use lsv_transcript::{hello_message, pass_over, restart_message};
use std::alloc::Global;
use std::mem;

impl Core {
    /// Begins the connection, and answers its opening.
    pub(crate) fn start<D: Disk>(&mut self, disk: &mut D) -> Result<List<ClientMessage>, RelayFault>
        requires sound { IsRelay self.old }
        requires unbegun { IsUnbegun self.old.at }
        ensures sound { IsRelay self.new }
        ensures started { D.tells → IsOpened self.old.number self.old.at (D.view disk.old) → IfOk result (λ opening. HasStarted self.old self.new opening (D.view disk.new)) }
        ensures few { IfOk result (λ opening. (length opening ≤ 2) × (opening ≢ [])) }
        ensures sends { OnOk result (IsSending self.new.at × (self.new.meter.whole ≡ false)) }
        ensures fails { OnErr result (self.new.at ≡ places.Idle) }
        ensures same { (self.new.number ≡ self.old.number) × (self.new.keeping ≡ self.old.keeping) }
        ensures reads { D.tells → OnlyReads (D.view disk.old) (D.view disk.new) }
        ensures fault { IfErr result IsLogFault }
        ensures why { D.tells → IsOpened self.old.number self.old.at (D.view disk.old) → IfErr result (IsLogCause self.old.number (D.view disk.old)) }
        ensures cause { HasOwnCause (logs.IsOfLog self.old.number) (IsErrOf result (RelayFault.Log ViewFault.Disk)) (D.view disk.old) (D.view disk.new) }
    {
        let Place::Starts(log) = mem::replace(&mut self.at, Place::Idle) else {
            unreachable!();
        };
        let State::Kept(kept) = self.keeping.state() else {
            return self.start_anew(log);
        };
        let Some(point) = kept.point else {
            return self.start_anew(log);
        };
        let (found, log) = at_point(self.alloc, disk, log, self.number, point)?;
        if !found {
            return self.start_anew(log);
        }
        let opening = resuming(self.alloc, &kept.id, point)?;
        self.meter = Meter::resumed(point);
        self.at = Place::Sends(log);
        Ok(opening)
    }

    /// Begins a connection that sends a log whole, of which no record was read.
    fn start_anew(&mut self, log: LogView) -> Result<List<ClientMessage>, RelayFault>
        requires number { log.number ≡ self.old.number }
        ensures place { OnOk result (self.new.at ≡ places.Sends log) }
        ensures meter { OnOk result (self.new.meter ≡ record { waits = true; known = false; asked = false; sent = 0; ended = false; whole = false }) }
        ensures opening { IfOk result (λ opening. opening ≡ opening_of Way.Anew log.head) }
        ensures failed { OnErr result (self.new ≡ self.old) }
        ensures same { (self.new.number ≡ self.old.number) × (self.new.keeping ≡ self.old.keeping) }
        ensures fault { IfErr result (λ e. e ≡ RelayFault.NoMem) }
    {
        let opening = anew(self.alloc, log.head())?;
        self.meter = Meter::anew();
        self.at = Place::Sends(log);
        Ok(opening)
    }
}

/// Reads the records of a log through the first that ends at this point; or says that none ends there, and gives the log
/// anew, with no record read.
fn at_point<D: Disk>(
    alloc: Global,
    disk: &mut D,
    log: LogView,
    number: LogNo,
    point: u64,
) -> Result<(bool, LogView), RelayFault>
    requires number { log.number ≡ number }
    ensures same { IfOk result (λ found. (found.1.number ≡ number) × (found.1.body.elapsed ≡ log.body.elapsed)) }
    ensures found { D.tells → HasLog number log [] (D.view disk.old) → IfOk result (λ found. found.0 ≡ true → (records : List Record) × HasLog number found.1 records (D.view disk.new) × (first records point ≡ Some (length records))) }
    ensures none { D.tells → HasLog number log [] (D.view disk.old) → IfOk result (λ found. found.0 ≡ false → HasLog number found.1 [] (D.view disk.new) × ((records : List Record) → AreAllOf number (D.view disk.new) records → first records point ≡ None)) }
    ensures reads { D.tells → OnlyReads (D.view disk.old) (D.view disk.new) }
    ensures fault { IfErr result IsLogFault }
    ensures why { D.tells → HasLog number log [] (D.view disk.old) → IfErr result (IsLogCause number (D.view disk.old)) }
    ensures cause { HasOwnCause (logs.IsOfLog number) (IsErrOf result (RelayFault.Log ViewFault.Disk)) (D.view disk.old) (D.view disk.new) }
{
    let mut passed = log;
    let time = passed.body().elapsed;
    if pass_over(disk, &mut passed, point)? {
        return Ok((true, passed));
    }
    Ok((false, open_again(alloc, disk, number, time)?))
}

/// Opens a complete log again, which had this elapsed time.
fn open_again<D: Disk>(
    alloc: Global,
    disk: &mut D,
    number: LogNo,
    time: u64,
) -> Result<LogView, RelayFault>
    ensures same { IfOk result (λ log. (log.number ≡ number) × (log.body.elapsed ≡ time)) }
    ensures log { D.tells → IfOk result (λ log. HasLog number log [] (D.view disk.new)) }
    ensures reads { D.tells → OnlyReads (D.view disk.old) (D.view disk.new) }
    ensures fault { IfErr result IsLogFault }
    ensures why { D.tells → IsTimed number time (D.view disk.old).reads → IfErr result (IsLogCause number (D.view disk.old)) }
    ensures cause { HasOwnCause (logs.IsOfLog number) (IsErrOf result (RelayFault.Log ViewFault.Disk)) (D.view disk.old) (D.view disk.new) }
{
    let log = open_complete(alloc, disk, number)?;
    if log.body().elapsed != time {
        // Never reached if the disk tells: a complete log doesn't change.
        return Err(RelayFault::Log(ViewFault::Damaged(Part::Slots)));
    }
    Ok(log)
}

/// The messages that ask the upstream to go on with a log.
fn resuming(alloc: Global, id: &Bytes, point: u64) -> Result<List<ClientMessage>, NoMem>
    ensures { IfOk result (λ opening. (n : ℕ) (head : Head) → opening ≡ opening_of (Way.Resumes id.now point n) head) }
{
    let hello = hello_message(alloc)?;
    let restart = restart_message(alloc, id.as_slice(), point)?;
    let mut opening = List::new(alloc);
    push(&mut opening, hello)?;
    push(&mut opening, restart)?;
    Ok(opening)
}

/// The messages that begin a log anew.
fn anew(alloc: Global, head: &Head) -> Result<List<ClientMessage>, NoMem>
    ensures { IfOk result (λ opening. opening ≡ opening_of Way.Anew head.now) }
{
    let hello = hello_message(alloc)?;
    let accept = head_message(alloc, head.copy(alloc)?)?;
    let mut opening = List::new(alloc);
    push(&mut opening, hello)?;
    push(&mut opening, accept)?;
    Ok(opening)
}

/// Adds a message.
pub(crate) fn push(messages: &mut List<ClientMessage>, message: ClientMessage) -> Result<(), NoMem>
    ensures { OnOk result (messages.new ≡ messages.old ++ message ∷ []) }
{
    match messages.push(message) {
        Ok(()) => Ok(()),
        Err(_) => Err(NoMem),
    }
}

impl Meter {
    /// A connection that goes on with a log after this point.
    fn resumed(point: u64) -> Meter
        ensures { result ≡ record { waits = false; known = true; asked = true; sent = point; ended = false; whole = false } }
    {
        Meter {
            waits: false,
            known: true,
            asked: true,
            sent: point,
            ended: false,
            whole: false,
        }
    }

    /// A connection that begins a log anew.
    pub(crate) fn anew() -> Meter
        ensures { result ≡ record { waits = true; known = false; asked = false; sent = 0; ended = false; whole = false } }
    {
        Meter {
            waits: true,
            known: false,
            asked: false,
            sent: 0,
            ended: false,
            whole: false,
        }
    }
}
