ghost use Rattle.std.specs.Prelude.{◌≡◌, ◌≢◌, ◌≤◌, ◌<◌, ◌++◌, [], List, true, false, length, is_some, Err, IfOk, IfErr, OnOk, OnErr, IsErrOf};
ghost use Rattle.lsv_dialogue.specs.Events.{Event, all_said, as_heard, as_late, text_of};
ghost use Rattle.lsv_bundle.specs.declared.fault.BundleFault.{BundleFault};
ghost use Rattle.lsv_disk.specs.Throughout.{OnlyReads, Throughout};
ghost use Rattle.lsv_disk.specs.View.{HasOwnCause};
ghost use Rattle.lsv_iolog.specs.Recovered as logs;
ghost use Rattle.lsv_iolog.specs.declared.fault.ViewFault.{ViewFault};
ghost use Rattle.lsv_kept.specs.Aim.{AimView};
ghost use Rattle.lsv_kept.specs.Kept.{IsAsBefore, IsOfRelay, Keeps};
ghost use Rattle.lsv_kept.specs.Value.{is_done};
ghost use Rattle.lsv_kept.specs.declared.state.State.{State};
ghost use Rattle.lsv_kept.specs.declared.state.State.TheVariants as states;
ghost use Rattle.lsv_relay.specs.Complete.{IsReadable};
ghost use Rattle.lsv_relay.specs.Faults.{IsCauseAt, IsKeepFault, IsLogFault, IsOpenCause, IsOpenFault, IsStepFault};
ghost use Rattle.lsv_relay.specs.Inner.{IsOpenedAs, IsSending};
ghost use Rattle.lsv_relay.specs.Talks.{IsPiece, KeptThrough, Stands, Talks, unended};
ghost use Rattle.lsv_relay.specs.Value.{IsQuiet, IsStarted, IsUnbegun, aim_of, is_broken, state_of};
ghost use Rattle.lsv_relay.specs.declared.fault.RelayFault.{RelayFault};
ghost use Rattle.lsv_relay.specs.declared.relay.Place.TheVariants as places;

use crate::RelayFault;
use crate::open::{check_complete, open_undone};
use lsv_base::{List, LogNo};
use lsv_bundle::BundleFault;
use lsv_disk::Disk;
use lsv_iolog::LogView;
use lsv_kept::{Aim, Keeping, is_marked_at};
use lsv_msg::{ClientMessage, ServerMessage};
use std::alloc::Global;
use std::marker::Model;

/// How far a connection is.
#[derive(Clone, Copy, Debug, PartialEq, Eq)]
pub(crate) struct Meter {
    /// What follows the opening waits for the upstream's identifier.
    pub(crate) waits: bool,
    /// The upstream has the log: it sent an identifier, or it was asked to go on with one.
    pub(crate) known: bool,
    /// It was asked to go on with a log, and no commit point came since.
    pub(crate) asked: bool,
    /// The elapsed time of the records that were handed out or passed over, in nanoseconds.
    pub(crate) sent: u64,
    /// The exit was handed out.
    pub(crate) ended: bool,
    /// A commit point was the log's elapsed time, and came after the exit was handed out.
    pub(crate) whole: bool,
}

/// Where the transcript of a connection stands.
#[derive(Drop)]
pub(crate) enum Place {
    /// There is no connection: the log is relayed, or its beginning failed.
    Idle,
    /// The log was opened, and nothing was handed out.
    Starts(LogView),
    /// The opening was handed out, and records of this log are.
    Sends(LogView),
    /// All was handed out.
    Over,
}

/// What a relay consists of.
#[derive(Drop)]
pub(crate) struct Core {
    pub(crate) alloc: Global,
    pub(crate) number: LogNo,
    pub(crate) keeping: Keeping,
    pub(crate) meter: Meter,
    pub(crate) at: Place,
}

/// The relaying of one finished log to one host, on one connection. It holds one record, 64 KiB of messages and one head at
/// a time.
#[derive(Drop)]
pub struct Relay {
    pub(crate) core: Core,
}

impl Model for Relay {
    ghost use Rattle.lsv_relay.specs.Inner.{IsRelay};
    ghost use Rattle.lsv_relay.specs.Value.{RelayView};

    ghost Value = { RelayView };

    ghost view = { λ r. r.core };

    ghost invariant = { λ r. IsRelay r.core };
}

impl Relay {
    /// Opens the relaying of a log to a host, `host:port` or `[address]:port`, as the settings spell it. What is kept of
    /// another host counts as nothing. A log that is marked as relayed is `is_done`, and nothing of it is read but its
    /// last entry and the mark. Else the files of the relaying are made, with room for an identifier: what is sent later
    /// can be kept.
    ///
    /// `Incomplete` comes exactly if the log's last entry isn't that of a complete log. `Log` has the fault of the log:
    /// `Absent` exactly if it has no entry, `Damaged(part)` exactly if `LogView::open` says so. `State` has the fault of
    /// what is kept, and comes only of a complete log: `Damaged(Id)` as `Keeping::open` says. A `Disk` fault comes only
    /// if a device call on these files failed. After a fault of the log nothing was written or synced. After any fault
    /// the files read as keeping what they kept before.
    pub fn open<D: Disk>(
        alloc: Global,
        disk: &mut D,
        number: LogNo,
        host: &str,
    ) -> Result<Relay, RelayFault>
        ensures opened { IfOk result (IsOpenedAs number host.now) }
        ensures stands { D.tells → IfOk result (λ r. Stands r (D.view disk.new)) }
        ensures kept { D.tells → IfOk result (λ r. Keeps number (aim_of r) (D.view disk.old).reads (state_of r) × Keeps number (aim_of r) (D.view disk.new).reads (state_of r)) }
        ensures complete { D.tells → IfOk result (λ r. IsReadable number (aim_of r).total (state_of r) (D.view disk.old).reads) }
        ensures why { D.tells → IfErr result (IsOpenCause number (D.view disk.old).reads) }
        ensures reads { D.tells → IfErr result (λ fault. IsLogFault fault → fault ≢ RelayFault.NoMem → OnlyReads (D.view disk.old) (D.view disk.new)) }
        ensures same { D.tells → (aim : AimView) (state : State) → Keeps number aim (D.view disk.old).reads state → Keeps number aim (D.view disk.new).reads state }
        ensures any_moment { D.tells → Throughout (IsOfRelay number) (IsAsBefore number (D.view disk.old)) (D.view disk.old) (D.view disk.new) }
        ensures fault { IfErr result IsOpenFault }
        ensures log { HasOwnCause (logs.IsOfLog number) (IsErrOf result (RelayFault.Log ViewFault.Disk)) (D.view disk.old) (D.view disk.new) }
        ensures state { HasOwnCause (IsOfRelay number) (IsErrOf result (RelayFault.State BundleFault.Disk)) (D.view disk.old) (D.view disk.new) }
    {
        let total = check_complete(disk, number)?;
        if is_marked_at(disk, number, total)? {
            return Ok(Relay::relayed(alloc, number, Aim::new(alloc, host, total)?));
        }
        open_undone(alloc, disk, number, host)
    }

    /// Of a log that is marked.
    fn relayed(alloc: Global, number: LogNo, aim: Aim) -> Relay
        ensures number { (result.number ≡ number) × (result.keeping.number ≡ number) }
        ensures done { state_of result ≡ states.Done }
        ensures bare { result.keeping.files ≡ None }
        ensures rest { (aim_of result ≡ aim) × (is_broken result ≡ false) × (result.at ≡ places.Idle) }
    {
        Relay {
            core: Core {
                alloc,
                number,
                keeping: Keeping::relayed(alloc, number, aim),
                meter: Meter::anew(),
                at: Place::Idle,
            },
        }
    }

    /// Whether the log is relayed.
    pub fn is_done(&self) -> bool
        ensures { result ≡ is_done (state_of self.now) }
    {
        self.core.keeping.is_done()
    }

    /// The connection begins: these messages open it. If a record ends at the kept commit point, the upstream is asked to
    /// go on there, else the log is sent whole. The faults of the log are those of `LogView::next`, and after one the
    /// connection is given up.
    pub fn begin<D: Disk>(&mut self, disk: &mut D) -> Result<List<ClientMessage>, RelayFault>
        requires unbegun { IsUnbegun self.old.at }
        ensures talks { D.tells → IfOk result (λ messages. (began : D) (state : State) → Talks (D.view began) state self.old (D.view disk.old) [] → Talks (D.view began) state self.new (D.view disk.new) (all_said messages)) }
        ensures opened { IfOk result (λ messages. (length messages ≤ 2) × (messages ≢ []) × IsStarted self.new.at) }
        ensures meter { OnOk result (self.new.meter.whole ≡ false) }
        ensures fails { OnErr result (self.new.at ≡ places.Idle) }
        ensures same { (self.new.number ≡ self.old.number) × (self.new.keeping ≡ self.old.keeping) }
        ensures reads { D.tells → OnlyReads (D.view disk.old) (D.view disk.new) }
        ensures fault { IfErr result IsLogFault }
        ensures why { D.tells → IfErr result (λ fault. (began : D) (state : State) → Talks (D.view began) state self.old (D.view disk.old) [] → IsCauseAt self.old.number self.old.at (D.view disk.old) fault) }
        ensures log { HasOwnCause (logs.IsOfLog self.old.number) (IsErrOf result (RelayFault.Log ViewFault.Disk)) (D.view disk.old) (D.view disk.new) }
    {
        self.core.start(disk)
    }

    /// Says what to send next: at most `most` messages and 16, and none after their data pass 64 KiB together. The list is
    /// empty only if nothing more may be sent before a further message, or if `most` is 0.
    ///
    /// `Log(Damaged)` comes if the records that follow or the exit are damaged, once all before were handed out. A fault of
    /// the log leaves the relay whole. After any fault the connection is given up.
    pub fn step<D: Disk>(
        &mut self,
        disk: &mut D,
        most: usize,
    ) -> Result<List<ClientMessage>, RelayFault>
        requires started { IsStarted self.old.at }
        ensures talks { D.tells → IfOk result (λ messages. (began : D) (state : State) (events : List Event) → Talks (D.view began) state self.old (D.view disk.old) events
            → Talks (D.view began) state self.new (D.view disk.new) (events ++ all_said messages)) }
        ensures piece { D.tells → IfOk result (λ messages. (began : D) (state : State) (events : List Event) → Talks (D.view began) state self.old (D.view disk.old) events → IsPiece messages) }
        ensures few { IfOk result (λ messages. (length messages ≤ most) × (length messages ≤ 16)) }
        ensures quiet { 0 < most → IfOk result (λ messages. messages ≡ [] → IsQuiet self.new) }
        ensures busy { is_broken self.old ≡ false → IfOk result (λ messages. messages ≢ [] → self.new.meter.whole ≡ false) }
        ensures same { (self.new.number ≡ self.old.number) × (self.new.keeping ≡ self.old.keeping) × IsStarted self.new.at }
        ensures reads { D.tells → OnlyReads (D.view disk.old) (D.view disk.new) }
        ensures fault { IfErr result (λ fault. IsLogFault fault × IsSending self.old.at) }
        ensures why { D.tells → IfErr result (IsCauseAt self.old.number self.old.at (D.view disk.old)) }
        ensures log { HasOwnCause (logs.IsOfLog self.old.number) (IsErrOf result (RelayFault.Log ViewFault.Disk)) (D.view disk.old) (D.view disk.new) }
    {
        self.core.answer(disk, most)
    }

    /// Takes this message, which came after all that was handed out had been put. What it makes of what is kept is on the
    /// disk before the answer. An identifier of more than 4,096 bytes isn't kept, but ends the wait for one: `run_one` ends
    /// the connection instead. After `State(Disk)` the relay is broken until it is opened again, and answers
    /// `State(Broken)`.
    pub fn hear<D: Disk>(&mut self, disk: &mut D, message: &ServerMessage) -> Result<(), RelayFault>
        requires started { IsStarted self.old.at }
        requires stands { D.tells → is_broken self.old ≡ false → Stands self.old (D.view disk.old) }
        ensures talks { D.tells → OnOk result ((began : D) (state : State) (events : List Event) → Talks (D.view began) state self.old (D.view disk.old) events
            → Talks (D.view began) state self.new (D.view disk.new) (events ++ as_heard message.now)) }
        ensures last { OnOk result (is_some (text_of message.now) ≡ true → self.new.meter.whole ≡ self.old.meter.whole) }
        ensures whole { OnOk result ((is_broken self.new ≡ false) × (is_done (state_of self.old) ≡ false → is_done (state_of self.new) ≡ false)) }
        ensures any_moment { D.tells → is_broken self.old ≡ false → KeptThrough self.old self.new message.now (D.view disk.old) (D.view disk.new) }
        ensures untouched { is_broken self.old ≡ true → (result ≡ Err (RelayFault.State BundleFault.Broken)) × (self.new ≡ self.old) × (disk.new ≡ disk.old) }
        ensures stands { D.tells → is_broken self.new ≡ false → Stands self.new (D.view disk.new) }
        ensures same { (self.new.number ≡ self.old.number) × (aim_of self.new ≡ aim_of self.old) × (self.new.at ≡ self.old.at) }
        ensures fault { IfErr result (λ fault. IsStepFault self.old self.new fault × IsKeepFault fault) }
        ensures cause { HasOwnCause (IsOfRelay self.old.number) (IsErrOf result (RelayFault.State BundleFault.Disk)) (D.view disk.old) (D.view disk.new) }
    {
        if self.core.keeping.is_broken() {
            return Err(RelayFault::State(BundleFault::Broken));
        }
        self.core.take(disk, message)
    }

    /// Takes a message that comes too late for an answer: a write had stopped, and the exit may not have been put. So it
    /// can't say that the other server has all. A commit point is kept as one, and the log goes on there on the next
    /// connection. The faults are those of `hear`.
    pub fn hear_late<D: Disk>(
        &mut self,
        disk: &mut D,
        message: &ServerMessage,
    ) -> Result<(), RelayFault>
        requires started { IsStarted self.old.at }
        requires stands { D.tells → is_broken self.old ≡ false → Stands self.old (D.view disk.old) }
        ensures talks { D.tells → OnOk result ((began : D) (state : State) (events : List Event) → Talks (D.view began) state self.old (D.view disk.old) events
            → Talks (D.view began) state self.new (D.view disk.new) (events ++ as_late message.now)) }
        ensures never { OnOk result (self.new.meter.whole ≡ false) }
        ensures whole { OnOk result ((is_broken self.new ≡ false) × (is_done (state_of self.old) ≡ false → is_done (state_of self.new) ≡ false)) }
        ensures any_moment { D.tells → is_broken self.old ≡ false → KeptThrough (unended self.old) self.new message.now (D.view disk.old) (D.view disk.new) }
        ensures stands { D.tells → is_broken self.new ≡ false → Stands self.new (D.view disk.new) }
        ensures same { (self.new.number ≡ self.old.number) × (aim_of self.new ≡ aim_of self.old) × (self.new.at ≡ self.old.at) }
        ensures fault { IfErr result (λ fault. IsStepFault (unended self.old) self.new fault × IsKeepFault fault) }
        ensures cause { HasOwnCause (IsOfRelay self.old.number) (IsErrOf result (RelayFault.State BundleFault.Disk)) (D.view disk.old) (D.view disk.new) }
    {
        if self.core.keeping.is_broken() {
            return Err(RelayFault::State(BundleFault::Broken));
        }
        self.core.take_late(disk, message)
    }
}
