//! Opening a store.

ghost use Rattle.std.specs.Prelude.{◌≡◌, ◌≢◌, ◌<◌, ◌≤◌, ℕ, false, None, IfOk, IfErr, IsErrOf};
ghost use Rattle.lsv_disk.specs.Throughout.{Throughout};
ghost use Rattle.lsv_disk.specs.View.{HasOwnCause, IsCrashImage};
ghost use Rattle.lsv_disk.specs.declared.file.Owner.{Owner};
ghost use Rattle.lsv_seq.specs.Drawn.{entry_at, judged, numbers_file};
ghost use Rattle.lsv_seq.specs.Value.{last_of, pending_of};
ghost use Rattle.lsv_eventlog.specs.Recovered.{HoldsLines, IsOfEventLog};
ghost use Rattle.lsv_eventlog.specs.Value.{committed_text, is_broken};
ghost use Rattle.lsv_machine.specs.Disks.{NumbersFit};
ghost use Rattle.lsv_machine.specs.Keeping.{OpensStore};
ghost use Rattle.lsv_keeper.specs.Calls.{OpensPart};
ghost use Rattle.lsv_keeper.specs.Causes.{HasFailed};
ghost use Rattle.lsv_keeper.specs.Opening.{IsEventsFault, IsNumbersFault, IsSetTo, IsStoreFault, KeepsEntry, OpensAs, OpensEvents, OpensNumbers, events_fault, number_fault};
ghost use Rattle.lsv_keeper.specs.Reading.{reading_of};
ghost use Rattle.lsv_keeper.specs.Rows.{IsOfJob};
ghost use Rattle.lsv_keeper.specs.Syncing.{NoLogUsed};
ghost use Rattle.lsv_keeper.specs.Value.{IsResting};
ghost use Rattle.lsv_keeper.specs.Views.{view_of};

use crate::logs::OpenLogs;
use crate::{Keeper, LaneId, Policy, StoreFault};
use lsv_bundle::BundleFault;
use lsv_disk::{Disk, FileId, Owner, Part};
use lsv_eventlog::EventLog;
use lsv_hook::LineWriter;
use lsv_mask::Search;
use lsv_seq::{Numbers, SeqFault};
use lsv_session::Table;
use std::alloc::Global;

/// Opens the numbers of a lane.
fn open_numbers<D: Disk>(disk: &mut D, lane: u32, lanes: u32) -> Result<Numbers, StoreFault>
    requires lane { lane < lanes }
    requires lanes { lanes ≤ 8 }
    ensures opened { D.tells → IfOk result (OpensNumbers lane lanes (D.view disk.old) (D.view disk.new)) }
    ensures fault { D.tells → IfErr result (IsNumbersFault lane lanes (D.view disk.old).reads) }
    ensures store { OpensPart D.tells (λ g. g ≡ numbers_file lane) lane lanes (D.view disk.old) (D.view disk.new) }
    ensures kept { D.tells → entry_at lane (D.view disk.old).reads ≢ None → KeepsEntry lane (D.view disk.old) (D.view disk.new) }
    ensures sound { IfOk result (λ n. pending_of n ≡ None) }
    ensures cause { (o : Owner) → HasOwnCause (λ f. f.owner ≡ o) (IsErrOf result (StoreFault.Device o)) (D.view disk.old) (D.view disk.new) }
{
    match Numbers::open(disk, lane, lanes) {
        Ok(numbers) => Ok(numbers),
        Err(fault) => Err(number_fault(lane, fault)),
    }
}

/// A fault of the numbers, as one of the store.
fn number_fault(lane: u32, fault: SeqFault) -> StoreFault
    ensures { result ≡ number_fault lane fault }
{
    match fault {
        SeqFault::Disk => StoreFault::Device(Owner::Numbers(lane)),
        SeqFault::LanesDiffer { kept, asked } => StoreFault::LanesDiffer { kept, asked },
        SeqFault::Damaged => { StoreFault::Damaged(FileId::new(Owner::Numbers(lane), Part::Slots)) }
    }
}

/// Opens the event log of a lane, and makes it where it has no entry.
fn open_events<D: Disk>(alloc: Global, disk: &mut D, lane: u32) -> Result<EventLog, StoreFault>
    ensures opened { D.tells → IfOk result (OpensEvents lane (D.view disk.old) (D.view disk.new)) }
    ensures fault { D.tells → IfErr result (IsEventsFault lane (D.view disk.old).reads) }
    ensures store { (lanes : ℕ) → OpensPart D.tells (IsOfEventLog lane) lane lanes (D.view disk.old) (D.view disk.new) }
    ensures sound { IfOk result (λ l. is_broken l ≡ false) }
    ensures cause { (o : Owner) → HasOwnCause (λ f. f.owner ≡ o) (IsErrOf result (StoreFault.Device o)) (D.view disk.old) (D.view disk.new) }
{
    match EventLog::open(alloc, disk, lane) {
        Ok(events) => Ok(events),
        Err(fault) => Err(events_fault(lane, fault)),
    }
}

/// A fault of the event log, as one of the store.
fn events_fault(lane: u32, fault: BundleFault) -> StoreFault
    ensures { result ≡ events_fault lane fault }
{
    match fault {
        BundleFault::Disk | BundleFault::Broken | BundleFault::Full(_) => {
            StoreFault::Device(Owner::Events(lane))
        }
        BundleFault::Damaged(part) => StoreFault::Damaged(FileId::new(Owner::Events(lane), part)),
        BundleFault::NoMem => StoreFault::NoMem,
    }
}

impl<F: LineWriter + Drop, H: Search + Drop> Keeper<F, H> {
    /// Opens the store of a lane, one of at most eight: its numbers, and then its event log; what is absent or
    /// has no entry is made. `Device` only where a device call on a file of that owner failed; `LanesDiffer` where the
    /// number file is of another number of lanes; `Damaged` of the number file where its last entry isn't one of the
    /// lane's, and of the event log's lines where these are absent or fewer than its last entry says. Whatever fails, no
    /// log is touched, the event log reads as before, and so does the last entry of the numbers if there was one.
    pub fn open<D: Disk>(
        alloc: Global,
        disk: &mut D,
        lane: LaneId,
        policy: Policy<F, H>,
    ) -> Result<Self, StoreFault>
        requires lane { lane.number < lane.of }
        requires lanes { lane.of ≤ 8 }
        ensures set { IfOk result (λ k. IsSetTo lane.number lane.of policy.formatter.kind policy.log_exit policy.texts (view_of k)) }
        ensures rests { IfOk result (λ k. IsResting (view_of k)) }
        ensures sound { IfOk result (λ k. HasFailed (view_of k) → ⊥) }
        ensures read { D.tells → IfOk result (λ k. judged lane.number lane.of (entry_at lane.number (D.view disk.old).reads) ≡ Ok (last_of (view_of k).numbers)) }
        ensures held { D.tells → IfOk result (λ k. HoldsLines (D.view disk.old).reads lane.number (committed_text (view_of k).events (D.view disk.new))) }
        ensures fault { D.tells → IfErr result (IsStoreFault lane.number lane.of (D.view disk.old).reads) }
        ensures store { D.tells → OpensStore (reading_of lane.number lane.of) lane.number lane.of (D.view disk.old) (D.view disk.new) }
        ensures touched { D.tells → Throughout (IsOfJob lane.number None) (λ _. Unit {0}) (D.view disk.old) (D.view disk.new) }
        ensures unused { D.tells → NoLogUsed (D.view disk.old) (D.view disk.new) }
        ensures kept { D.tells → entry_at lane.number (D.view disk.old).reads ≢ None → KeepsEntry lane.number (D.view disk.old) (D.view disk.new) }
        ensures opened { D.tells → NumbersFit (reading_of lane.number lane.of) lane.number lane.of (IsCrashImage (D.view disk.old)) → IfOk result (λ k. OpensAs lane.number lane.of policy.texts (D.view disk.old) (D.view disk.new) (view_of k)) }
        ensures cause { (o : Owner) → HasOwnCause (λ f. f.owner ≡ o) (IsErrOf result (StoreFault.Device o)) (D.view disk.old) (D.view disk.new) }
    {
        let LaneId { number, of } = lane;
        let numbers = open_numbers(disk, number, of)?;
        let events = open_events(alloc, disk, number)?;
        let Policy {
            formatter,
            log_exit,
            texts,
            prompt,
        } = policy;
        let table = Table::new(alloc);
        let logs = OpenLogs::new(alloc);
        let waiting = Vec::new(alloc);
        let noting = Vec::new(alloc);
        Ok(Keeper {
            alloc,
            lane: number,
            lanes: of,
            log_exit,
            texts,
            formatter,
            prompt,
            table,
            logs,
            numbers,
            events,
            waiting,
            noting,
        })
    }
}
