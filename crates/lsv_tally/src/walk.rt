//! The event logs of all lanes, each read and shown.
ghost use Rattle.std.specs.Prelude.{◌≡◌, ◌++◌, ◌∷◌, ◌<◌, ℕ, List, [], None, Err, IfOk, IsOkAnd, OnErr, OnOk};
ghost use Rattle.lsv_base.specs.Outside.{HasCause};
ghost use Rattle.lsv_defs.specs.Pieces.{IsPrefix};
ghost use Rattle.lsv_disk.specs.Throughout.{OnlyReads};
ghost use Rattle.lsv_disk.specs.View.{HasOwnCause};
ghost use Rattle.lsv_eventlog.specs.Recovered.{IsOfEventLog};
ghost use Rattle.lsv_tally.specs.Walks.{HasUnread, IsOfEvents, IsVerdict, PutsOne, Walks, counted, is_shown, line_of, no_sums, shown_line};
ghost use Rattle.lsv_verdict.specs.Verdicts.{counts_of};
ghost use Rattle.lsv_verdict.specs.declared.walk.Stop.TheVariants as stops;

use crate::look::tally;
use crate::object::json_of;
use crate::tally::{Tally, TallyFault};
use crate::text::text_of;
use crate::verdict::EventVerdict;
use lsv_base::{Bytes, NoMem, Sink};
use lsv_check_args::Form;
use lsv_disk::Disk;
use lsv_verdict::Stop;
use std::alloc::Global;

/// How many event logs are not sound.
#[derive(Clone, Copy, Debug, PartialEq, Eq)]
pub struct EventSums {
    /// They are damaged or absent.
    pub damaged: u32,
    /// A read of them failed.
    pub unread: u32,
}

impl EventSums {
    /// None yet.
    pub fn new() -> Self
        ensures { result ≡ no_sums }
    {
        EventSums {
            damaged: 0,
            unread: 0,
        }
    }

    /// With one event log more.
    fn with(mut self, found: Option<Tally>) -> Self
        ensures { result ≡ counted self found }
    {
        match found {
            None => self.unread = self.unread.saturating_add(1),
            Some(Tally::Sound { .. }) => {}
            Some(_) => self.damaged = self.damaged.saturating_add(1),
        }
        self
    }
}

/// Reads the event logs of the first lanes, and shows what was found of each at once. It holds one line of them at a time.
pub fn check_events<D: Disk, K: Sink>(
    alloc: Global,
    form: Form,
    lanes: u32,
    disk: &mut D,
    sink: &mut K,
) -> Result<EventSums, Stop>
    ensures walks { D.tells → K.tells → (put : List ℕ) × (K.put sink.new ≡ K.put sink.old ++ put) × Walks form (D.view disk.old).reads (counts_of (D.view disk.old) (D.view disk.new)) lanes result put }
    ensures reads { D.tells → OnlyReads (D.view disk.old) (D.view disk.new) }
    ensures cause { HasOwnCause IsOfEvents (IsOkAnd result HasUnread) (D.view disk.old) (D.view disk.new) }
    ensures sink { HasCause (result ≡ Err stops.Sink) (K.faults sink.old) (K.faults sink.new) }
{
    let mut sums = EventSums::new();
    for lane in 0..lanes {
        let next = check_one(alloc, form, disk, sink, lane, sums)?;
        sums = next;
    }
    Ok(sums)
}

/// Reads the event log of a lane, and shows what was found.
fn check_one<D: Disk, K: Sink>(
    alloc: Global,
    form: Form,
    disk: &mut D,
    sink: &mut K,
    lane: u32,
    sums: EventSums,
) -> Result<EventSums, Stop>
    ensures puts { D.tells → K.tells → (put : List ℕ) × (K.put sink.new ≡ K.put sink.old ++ put) × PutsOne form (D.view disk.old).reads (counts_of (D.view disk.old) (D.view disk.new)) lane sums result put }
    ensures reads { D.tells → OnlyReads (D.view disk.old) (D.view disk.new) }
    ensures cause { HasOwnCause (IsOfEventLog lane) (IsOkAnd result (λ after. sums.unread < after.unread)) (D.view disk.old) (D.view disk.new) }
    ensures sink { HasCause (result ≡ Err stops.Sink) (K.faults sink.old) (K.faults sink.new) }
{
    let verdict = judge(alloc, disk, lane)?;
    show(alloc, form, sink, verdict)?;
    Ok(sums.with(verdict.found))
}

/// What is said of the event log of a lane.
fn judge<D: Disk>(alloc: Global, disk: &mut D, lane: u32) -> Result<EventVerdict, NoMem>
    ensures judged { D.tells → IfOk result (IsVerdict (D.view disk.old).reads (counts_of (D.view disk.old) (D.view disk.new)) lane) }
    ensures reads { D.tells → OnlyReads (D.view disk.old) (D.view disk.new) }
    ensures cause { HasOwnCause (IsOfEventLog lane) (IsOkAnd result (λ v. v.found ≡ None)) (D.view disk.old) (D.view disk.new) }
{
    match tally(alloc, disk, lane) {
        Ok(found) => Ok(EventVerdict {
            lane,
            found: Some(found),
        }),
        Err(TallyFault::Disk) => Ok(EventVerdict { lane, found: None }),
        Err(TallyFault::NoMem) => Err(NoMem),
    }
}

/// Shows what was found of an event log, unless it is sound and those that are sound are left out.
fn show<K: Sink>(alloc: Global, form: Form, sink: &mut K, verdict: EventVerdict) -> Result<(), Stop>
    ensures put { K.tells → OnOk result (K.put sink.new ≡ K.put sink.old ++ shown_line form verdict) }
    ensures some { K.tells → OnErr result ((front : List ℕ) × IsPrefix front (shown_line form verdict) × (K.put sink.new ≡ K.put sink.old ++ front)) }
    ensures sink { HasCause (result ≡ Err stops.Sink) (K.faults sink.old) (K.faults sink.new) }
{
    if !is_shown(form, verdict) {
        return Ok(());
    }
    let line = line_of(alloc, form, verdict)?;
    Ok(sink.write(line.as_slice())?)
}

/// Whether it is shown.
fn is_shown(form: Form, verdict: EventVerdict) -> bool
    ensures { result ≡ is_shown form verdict }
{
    match verdict.found {
        Some(Tally::Sound { .. }) => !form.quiet,
        _ => true,
    }
}

/// Its line.
fn line_of(alloc: Global, form: Form, verdict: EventVerdict) -> Result<Bytes, NoMem>
    ensures { IfOk result (λ line. line ≡ line_of form verdict) }
{
    if form.json {
        json_of(alloc, verdict)
    } else {
        text_of(alloc, verdict)
    }
}
