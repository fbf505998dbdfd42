//! Event lines.

ghost use Rattle.std.specs.Prelude.{◌≡◌, ◌++◌, true, false, IfErr, OnOk, [], ◌∷◌, IsErrOf};
ghost use Rattle.lsv_event.specs.Events.{IsTimed};
ghost use Rattle.lsv_event.specs.Lines.{line_of};
ghost use Rattle.lsv_eventlog.specs.Value.{is_broken};
ghost use Rattle.lsv_machine.specs.Machine.{Machine};
ghost use Rattle.lsv_machine.specs.Work.{adds_line, line_fits};
ghost use Rattle.lsv_keeper.specs.Frames.{LineKeeps, StageKeeps};
ghost use Rattle.lsv_keeper.specs.Represents.{Represents};
ghost use Rattle.lsv_keeper.specs.Views.{view_of};
ghost use Rattle.lsv_keeper.specs.Rows.{LineFault};
ghost use Rattle.lsv_keeper.specs.Accepting.{failed_before, line_refusal};
ghost use Rattle.lsv_keeper.specs.Value.{KeeperView};

use crate::Keeper;
use lsv_bundle::BundleFault;
use lsv_disk::Disk;
use lsv_event::Event;
use lsv_eventlog::EventLog;
use lsv_hook::LineWriter;
use lsv_machine::note;
use lsv_mask::Search;
use lsv_request::Refusal;
use lsv_session::ConnId;
use std::alloc::Global;

impl<F: LineWriter, H: Search> Keeper<F, H> {
    /// Adds the line of an event to those of the turn; an event log that failed is opened again. Else the refusal: the
    /// event log is full, it failed, or memory runs out.
    pub(crate) fn add_line<D: Disk>(
        &mut self,
        disk: &mut D,
        conn: ConnId,
        event: &Event,
    ) -> Result<(), Refusal>
        requires timed { IsTimed event.now }
        ensures frame { LineKeeps D.tells (conn ∷ []) (Unit {0}) result (IsErrOf result Refusal.DeviceFault) (view_of self.old) (view_of self.new) (D.view disk.old) (D.view disk.new) }
        ensures added { D.tells → OnOk result ((m : Machine) → Represents (view_of self.old) (D.view disk.old) m →
            (line_fits (line_of (view_of self.old).kind event.now) m ≡ true) × Represents (view_of self.new) (D.view disk.new) (adds_line conn (line_of (view_of self.old).kind event.now) m)) }
        ensures refused { D.tells → IfErr result (λ why. (m : Machine) → Represents (view_of self.old) (D.view disk.old) m →
            LineFault (view_of self.old).lane (line_of (view_of self.old).kind event.now) m why (D.view disk.old) (D.view disk.new) × Represents (view_of self.new) (D.view disk.new) m) }
    {
        let Ok(line) = self.formatter.write(self.alloc, event) else {
            return Err(Refusal::OutOfMemory);
        };
        if self.noting.reserve(1).is_err() {
            return Err(Refusal::OutOfMemory);
        }
        stage_line(
            self.alloc,
            disk,
            self.lane,
            &mut self.events,
            line.as_slice(),
        )?;
        let _ = note(&mut self.noting, conn);
        Ok(())
    }
}

/// Why a line wasn't added, as the connection is answered.
fn line_refusal(fault: BundleFault) -> Refusal
    ensures { result ≡ line_refusal fault }
{
    match fault {
        BundleFault::Full(_) => Refusal::LogFull,
        BundleFault::NoMem => Refusal::OutOfMemory,
        BundleFault::Disk | BundleFault::Broken | BundleFault::Damaged(_) => Refusal::DeviceFault,
    }
}

/// Whether the event log failed before.
fn failed_before(fault: BundleFault) -> bool
    ensures { result ≡ failed_before fault }
{
    matches!(fault, BundleFault::Broken)
}

/// Adds a line to the event log of a lane, which is opened again where it failed.
fn stage_line<D: Disk>(
    alloc: Global,
    disk: &mut D,
    lane: u32,
    events: &mut EventLog,
    line: &[u8],
) -> Result<(), Refusal>
    ensures whole { OnOk result (is_broken events.new ≡ false) }
    ensures added { D.tells → OnOk result ((v : KeeperView) (m : Machine) → v.lane ≡ lane → v.events ≡ events.old → Represents v (D.view disk.old) m →
        (line_fits line.now m ≡ true) × Represents (record v { events = events.new }) (D.view disk.new) (record m { fresh = m.fresh ++ line.now })) }
    ensures refused { D.tells → IfErr result (λ why. (v : KeeperView) (m : Machine) → v.lane ≡ lane → v.events ≡ events.old → Represents v (D.view disk.old) m →
        LineFault lane line.now m why (D.view disk.old) (D.view disk.new) × Represents (record v { events = events.new }) (D.view disk.new) m) }
    ensures frame { StageKeeps D.tells lane (IsErrOf result Refusal.DeviceFault) events.old events.new (D.view disk.old) (D.view disk.new) }
{
    let Err(fault) = events.add(line) else {
        return Ok(());
    };
    if !failed_before(fault) {
        return Err(line_refusal(fault));
    }
    match EventLog::open(alloc, disk, lane) {
        Ok(opened) => *events = opened,
        Err(fault) => return Err(line_refusal(fault)),
    }
    match events.add(line) {
        Ok(()) => Ok(()),
        Err(fault) => Err(line_refusal(fault)),
    }
}
