//! The program after its name.
ghost use Rattle.std.specs.Prelude.{◌≡◌, ◌≢◌, ◌⊎◌, ◌++◌, ◌≤◌, List, ℕ, [], Some, None, Err, IfOk, IsErr, OnErr, OnOk, length};
ghost use Rattle.lsv_base.specs.Outside.{HasCause};
ghost use Rattle.lsv_defs.specs.Pieces.{IsPrefix};
ghost use Rattle.lsv_disk.specs.declared.file.Part.{Part};
ghost use Rattle.lsv_disk.specs.Throughout.{OnlyReads};
ghost use Rattle.lsv_disk.specs.View.{HasOwnCause};
ghost use Rattle.lsv_check_args.specs.Asked.{asked_in};
ghost use Rattle.lsv_check_args.specs.Request.{Asked, Asks, IsUsage};
ghost use Rattle.lsv_replay.specs.Numbers.{last_number};
ghost use Rattle.lsv_replay.specs.Replay.{IsOnlyRead};
ghost use Rattle.lsv_replay.specs.declared.fault.ListFault.TheVariants as lists;
ghost use Rattle.lsv_check.specs.Checks.{Checks, ChecksBy, ChecksLanes, EndsWith, IsLaneFault, IsReadHere, count_of, last_lines, line_of_numbers, status_with, with_numbers};
ghost use Rattle.lsv_check.specs.declared.numbers.Numbers.TheVariants as found;
ghost use Rattle.lsv_verdict.specs.Verdicts.{IsOfNumbers, counts_of};
ghost use Rattle.lsv_verdict.specs.Walks.{IsFew};
ghost use Rattle.lsv_verdict.specs.declared.status.CheckStatus.TheVariants as statuses;
ghost use Rattle.lsv_verdict.specs.declared.walk.Stop.TheVariants as stops;

use crate::numbers::{Numbers, at_least_damaged, line_of_numbers, numbers_at, see, with_numbers};
use lsv_base::{Bytes, List, LogNo, NoMem, Sink};
use lsv_check_args::{ArgFault, Form, Request, read_request};
use lsv_disk::Disk;
use lsv_replay::{ListFault, last_number};
use lsv_tally::{EventSums, check_events};
use lsv_verdict::{CheckNotices, CheckStatus, Stop, Sums, check_logs, line_of_sums};
use std::alloc::Global;

/// The greatest number of a log.
const MOST: u32 = 2_176_782_335;

/// `sudo_logcheck`, with the words after its name: it writes what is found of each log of a store, or of the logs that are
/// named, then of the event logs if the path of one is given, and the sums. Nothing is written to the store.
pub fn sudo_logcheck<D: Disk, K: Sink, N: CheckNotices>(
    alloc: Global,
    words: &List<Bytes>,
    disk: &mut D,
    sink: &mut K,
    notices: &mut N,
) -> CheckStatus
    ensures checks { D.tells → K.tells → (put : List ℕ) × (K.put sink.new ≡ K.put sink.old ++ put) × Checks words.now (D.view disk.old).reads (counts_of (D.view disk.old) (D.view disk.new)) result put }
    ensures usage { result ≡ statuses.Usage → IsUsage words.now }
    ensures words { IsUsage words.now → (result ≡ statuses.Usage) ⊎ (result ≡ statuses.NoMem) }
    ensures reads { D.tells → IsOnlyRead (D.view disk.old) (D.view disk.new) }
    ensures disk { HasOwnCause IsReadHere (result ≡ statuses.ReadFault) (D.view disk.old) (D.view disk.new) }
    ensures sink { HasCause (result ≡ statuses.WriteFault) (K.faults sink.old) (K.faults sink.new) }
    ensures places { D.tells → (asked : Asked) → Asks words.now asked → (result ≡ statuses.NoMem)
        ⊎ ((D.view disk.new).places ≡ Some (record { logs = asked.dir; events = asked.events })) ⊎ ((D.view disk.new).places ≡ None) }
{
    let request = match read_request(alloc, words) {
        Ok(request) => request,
        Err(ArgFault::Usage) => return CheckStatus::Usage,
        Err(ArgFault::NoMem) => return CheckStatus::NoMem,
    };
    disk.root(request.dir.as_str(), request.events.as_str());
    check_store(alloc, &request, disk, sink, notices)
}

/// Judges and shows what is asked for, and then the sums.
fn check_store<D: Disk, K: Sink, N: CheckNotices>(
    alloc: Global,
    request: &Request,
    disk: &mut D,
    sink: &mut K,
    notices: &mut N,
) -> CheckStatus
    ensures checks { D.tells → K.tells → (put : List ℕ) × (K.put sink.new ≡ K.put sink.old ++ put) × ChecksBy (asked_in request.now) (D.view disk.old).reads (counts_of (D.view disk.old) (D.view disk.new)) result put }
    ensures usage { result ≢ statuses.Usage }
    ensures reads { D.tells → OnlyReads (D.view disk.old) (D.view disk.new) }
    ensures disk { HasOwnCause IsReadHere (result ≡ statuses.ReadFault) (D.view disk.old) (D.view disk.new) }
    ensures sink { HasCause (result ≡ statuses.WriteFault) (K.faults sink.old) (K.faults sink.new) }
{
    match count_of(disk, request.numbers.as_slice()) {
        Ok(count) => check_all(alloc, request, count, disk, sink, notices),
        Err(fault) => match numbers_at(fault) {
            Some(numbers) => end_unknown(request.form, numbers, sink),
            None => CheckStatus::NoMem,
        },
    }
}

/// Shows the line of the number files, and ends: the numbers aren't known.
fn end_unknown<K: Sink>(form: Form, numbers: Numbers, sink: &mut K) -> CheckStatus
    ensures ends { K.tells → (front : List ℕ) × (K.put sink.new ≡ K.put sink.old ++ front) × EndsWith (line_of_numbers form numbers) (with_numbers numbers statuses.Sound) result front }
    ensures usage { result ≢ statuses.Usage }
    ensures fault { result ≡ statuses.ReadFault → numbers ≡ found.Unread }
    ensures sink { HasCause (result ≡ statuses.WriteFault) (K.faults sink.old) (K.faults sink.new) }
{
    match sink.write(line_of_numbers(form, numbers)) {
        Ok(()) => with_numbers(numbers, CheckStatus::Sound),
        Err(_) => CheckStatus::WriteFault,
    }
}

/// How many numbers are asked for: those that are named, or those up to the greatest that any lane drew.
fn count_of<D: Disk>(disk: &mut D, ids: &[LogNo]) -> Result<u32, ListFault>
    ensures count { D.tells → IfOk result (λ n. count_of ids.now (D.view disk.old).reads ≡ Some n) }
    ensures few { IfOk result (IsFew ids.now) }
    ensures refused { D.tells → (part : Part) → result ≡ Err (lists.Damaged part) → count_of ids.now (D.view disk.old).reads ≡ None }
    ensures reads { D.tells → OnlyReads (D.view disk.old) (D.view disk.new) }
    ensures needed { result ≡ Err lists.Disk → ids.now ≡ [] }
    ensures cause { HasOwnCause IsOfNumbers (result ≡ Err lists.Disk) (D.view disk.old) (D.view disk.new) }
{
    if ids.is_empty() {
        return last_of_store(disk);
    }
    match u32::try_from(ids.len()) {
        Ok(count) => Ok(count),
        Err(_) => Err(ListFault::NoMem),
    }
}

/// The greatest number that any lane drew.
fn last_of_store<D: Disk>(disk: &mut D) -> Result<u32, ListFault>
    ensures last { D.tells → IfOk result (λ n. last_number (D.view disk.old).reads ≡ Some n) }
    ensures few { IfOk result (λ n. n ≤ 2176782335) }
    ensures refused { D.tells → (part : Part) → result ≡ Err (lists.Damaged part) → last_number (D.view disk.old).reads ≡ None }
    ensures reads { D.tells → OnlyReads (D.view disk.old) (D.view disk.new) }
    ensures cause { HasOwnCause IsOfNumbers (result ≡ Err lists.Disk) (D.view disk.old) (D.view disk.new) }
{
    let last = last_number(disk)?;
    if last > MOST {
        // Never reached if the disk tells its content: no entry of a number file has a greater number.
        return Err(ListFault::NoMem);
    }
    Ok(last)
}

/// Judges and shows the first `count` numbers that are asked for, then the event logs, and then the sums.
fn check_all<D: Disk, K: Sink, N: CheckNotices>(
    alloc: Global,
    request: &Request,
    count: u32,
    disk: &mut D,
    sink: &mut K,
    notices: &mut N,
) -> CheckStatus
    requires few { IsFew request.now.numbers count }
    ensures checks { D.tells → K.tells → count_of request.now.numbers (D.view disk.old).reads ≡ Some count → (put : List ℕ) × (K.put sink.new ≡ K.put sink.old ++ put)
        × ChecksBy (asked_in request.now) (D.view disk.old).reads (counts_of (D.view disk.old) (D.view disk.new)) result put }
    ensures usage { result ≢ statuses.Usage }
    ensures reads { D.tells → OnlyReads (D.view disk.old) (D.view disk.new) }
    ensures disk { HasOwnCause IsReadHere (result ≡ statuses.ReadFault) (D.view disk.old) (D.view disk.new) }
    ensures sink { HasCause (result ≡ statuses.WriteFault) (K.faults sink.old) (K.faults sink.new) }
{
    let ids = request.numbers.as_slice();
    match check_logs(alloc, request.form, ids, count, disk, sink, notices) {
        Ok(sums) => check_lanes(alloc, request, sums, disk, sink),
        Err(stop) => stop.status(),
    }
}

/// Reads the number files, reads and shows the event logs of all lanes if the path of one is given, and then shows the sums of
/// the logs. Without the count of lanes no event log is read.
fn check_lanes<D: Disk, K: Sink>(
    alloc: Global,
    request: &Request,
    sums: Sums,
    disk: &mut D,
    sink: &mut K,
) -> CheckStatus
    ensures checks { D.tells → K.tells → (put : List ℕ) × (K.put sink.new ≡ K.put sink.old ++ put)
        × ChecksLanes (asked_in request.now) (D.view disk.old).reads (counts_of (D.view disk.old) (D.view disk.new)) sums result put }
    ensures usage { result ≢ statuses.Usage }
    ensures reads { D.tells → OnlyReads (D.view disk.old) (D.view disk.new) }
    ensures disk { HasOwnCause IsReadHere (IsLaneFault sums result) (D.view disk.old) (D.view disk.new) }
    ensures sink { HasCause (result ≡ statuses.WriteFault) (K.faults sink.old) (K.faults sink.new) }
{
    let seen = see(disk, request.events.as_str());
    match check_events(alloc, request.form, seen.lanes, disk, sink) {
        Ok(events) => end_with(alloc, request.form, seen.numbers, sums, events, sink),
        Err(stop) => stop.status(),
    }
}

/// Shows the last lines, and ends.
fn end_with<K: Sink>(
    alloc: Global,
    form: Form,
    numbers: Numbers,
    sums: Sums,
    events: EventSums,
    sink: &mut K,
) -> CheckStatus
    ensures ends { K.tells → (front : List ℕ) × (K.put sink.new ≡ K.put sink.old ++ front) × EndsWith (last_lines form numbers sums) (with_numbers numbers (status_with sums events)) result front }
    ensures usage { result ≢ statuses.Usage }
    ensures fault { result ≡ statuses.ReadFault → with_numbers numbers (status_with sums events) ≡ statuses.ReadFault }
    ensures sink { HasCause (result ≡ statuses.WriteFault) (K.faults sink.old) (K.faults sink.new) }
{
    match show_last(alloc, form, numbers, sums, sink) {
        Ok(()) => with_numbers(numbers, status_with(sums, events)),
        Err(stop) => stop.status(),
    }
}

/// How a run ends with these sums: a read that failed counts before damage.
fn status_with(sums: Sums, events: EventSums) -> CheckStatus
    ensures { result ≡ status_with sums events }
{
    if 0 < events.unread {
        return CheckStatus::ReadFault;
    }
    if 0 < events.damaged {
        at_least_damaged(sums.status())
    } else {
        sums.status()
    }
}

/// Shows the last lines.
fn show_last<K: Sink>(
    alloc: Global,
    form: Form,
    numbers: Numbers,
    sums: Sums,
    sink: &mut K,
) -> Result<(), Stop>
    ensures put { K.tells → OnOk result (K.put sink.new ≡ K.put sink.old ++ last_lines form numbers sums) }
    ensures some { K.tells → OnErr result ((front : List ℕ) × IsPrefix front (last_lines form numbers sums) × (K.put sink.new ≡ K.put sink.old ++ front)) }
    ensures sink { HasCause (result ≡ Err stops.Sink) (K.faults sink.old) (K.faults sink.new) }
{
    let lines = last_lines(alloc, form, numbers, sums)?;
    Ok(sink.write(lines.as_slice())?)
}

/// The line of the number files if they aren't sound, and that of the sums.
fn last_lines(alloc: Global, form: Form, numbers: Numbers, sums: Sums) -> Result<Bytes, NoMem>
    ensures { IfOk result (λ lines. lines ≡ last_lines form numbers sums) }
{
    let mut lines = Bytes::of(alloc, line_of_numbers(form, numbers))?;
    let line = line_of_sums(alloc, form, sums)?;
    lines.add(line.as_slice())?;
    Ok(lines)
}
