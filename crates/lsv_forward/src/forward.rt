//! The run over the logs of a store.
ghost use Rattle.std.specs.Prelude.{◌≡◌, ◌≢◌, ◌≤◌, Some, IfOk, IfErr, not, if◌then◌else◌};
ghost use Rattle.lsv_disk.specs.Throughout.{OnlyReads, Throughout};
ghost use Rattle.lsv_disk.specs.declared.file.FileId.{FileId};
ghost use Rattle.lsv_kept.specs.Kept.{IsOfRelay};
ghost use Rattle.lsv_link.specs.Link.{Continues};
ghost use Rattle.lsv_forward.specs.Carried.{IsEnded, IsOutOfMemory};
ghost use Rattle.lsv_forward.specs.Inner.{Handles, HandlesNext, HandlesPart, IsUnopened, Judges};
ghost use Rattle.lsv_forward.specs.Logs.{is_left, is_unreached};
ghost use Rattle.lsv_forward.specs.Numbers.{last_number};
ghost use Rattle.lsv_forward.specs.declared.outcome.Outcome.{Outcome};
ghost use Rattle.lsv_forward.specs.Run.{Forwards, HasRunCause, IsClosed, Stops, TouchesRelays};

use crate::numbers::last_number;
use crate::{ForwardFault, Gaps, Outcome, RelayNotices};
use lsv_base::{LogNo, NoMem};
use lsv_disk::Disk;
use lsv_iolog::ViewFault;
use lsv_kept::what_is_kept_is_one;
use lsv_link::Link;
use lsv_relay::{Relay, RelayEnd, RelayFault, a_crash_leaves_what_is_kept, is_relayed};
use std::alloc::Global;

/// Sends each complete log of the store to the host that isn't marked as relayed, by rising number, each on a connection
/// of its own. Once a connection couldn't be made, no further one is tried. Answers the number of logs that are complete
/// and not marked, or couldn't be judged. It touches the files of relaying alone. Numbers of which the notices know that no log
/// is complete are passed over.
pub fn forward_logs<D: Disk, L: Link, N: RelayNotices + Gaps<D>>(
    alloc: Global,
    disk: &mut D,
    link: &mut L,
    host: &str,
    notices: &mut N,
) -> Result<u32, ForwardFault>
    ensures forwards { IfOk result (λ left. Forwards D.view host.now D.tells L.tells (D.view disk.old) (D.view disk.new) (L.state link.old) (L.state link.new) (L.counts link.old) (L.counts link.new) left) }
    ensures early { IfErr result (λ fault. HasRunCause D.view host.now D.tells L.tells (D.view disk.old) (D.view disk.new) (L.state link.old) (L.state link.new) (L.counts link.old) (L.counts link.new) fault) }
    ensures touches { D.tells → TouchesRelays (D.view disk.old) (D.view disk.new) }
    ensures monotone { (file : FileId) → (D.view disk.old).faults file ≤ (D.view disk.new).faults file }
    ensures continues { Continues (L.counts link.old) (L.counts link.new) }
{
    let last = last_number(disk)?;
    link.close();
    Ok(forward_to(alloc, disk, link, host, last, notices)?)
}

/// Sends the logs of the numbers from 1 to the last one.
fn forward_to<D: Disk, L: Link, N: RelayNotices + Gaps<D>>(
    alloc: Global,
    disk: &mut D,
    link: &mut L,
    host: &str,
    last: u32,
    notices: &mut N,
) -> Result<u32, NoMem>
    requires closed { L.tells → IsClosed (L.state link.old) }
    ensures forwards { (D.tells → last_number (D.view disk.old).reads ≡ Some last) → IfOk result (λ left. Forwards D.view host.now D.tells L.tells (D.view disk.old) (D.view disk.new) (L.state link.old) (L.state link.new) (L.counts link.old) (L.counts link.new) left) }
    ensures stops { IfErr result (λ none. Stops D.view host.now D.tells L.tells (D.view disk.old) (D.view disk.new) (L.state link.old) (L.state link.new) (L.counts link.old) (L.counts link.new)) }
    ensures touches { D.tells → TouchesRelays (D.view disk.old) (D.view disk.new) }
    ensures monotone { (file : FileId) → (D.view disk.old).faults file ≤ (D.view disk.new).faults file }
    ensures continues { Continues (L.counts link.old) (L.counts link.new) }
{
    let mut left = 0;
    let mut reached = true;
    let mut before = 0;
    'numbers: while before < last {
        let from = notices.next(disk, before + 1);
        if from > last {
            return Ok(left);
        }
        let Some(number) = LogNo::new(from) else {
            // Never reached if the disk tells: no entry of a number file has a greater number.
            return Err(NoMem);
        };
        let next = Next {
            number,
            last,
            reached,
        };
        let outcome = handle_log(alloc, disk, link, host, next, notices)?;
        let (made, more) = tell_outcome(notices, number, outcome);
        reached = reached && made;
        left += more;
        before = from;
    }
    Ok(left)
}

/// Tells what became of a log. Answers whether a connection for it could be made, if one was tried, and 1 if the log is
/// left, else 0.
fn tell_outcome<N: RelayNotices>(notices: &mut N, number: LogNo, outcome: Outcome) -> (bool, u32)
    ensures made { result.0 ≡ not (is_unreached outcome) }
    ensures left { result.1 ≡ (if is_left outcome then 1 else 0) }
{
    notices.relayed(number, &outcome);
    (!outcome.is_unreached(), outcome.left())
}

/// The log that a run has come to.
#[derive(Clone, Copy)]
struct Next {
    number: LogNo,
    /// The last number of the store.
    last: u32,
    /// Each connection was made before.
    reached: bool,
}

/// Sends the log, or judges it if a connection couldn't be made before.
fn handle_log<D: Disk, L: Link, N: RelayNotices>(
    alloc: Global,
    disk: &mut D,
    link: &mut L,
    host: &str,
    next: Next,
    notices: &mut N,
) -> Result<Outcome, NoMem>
    requires closed { L.tells → IsClosed (L.state link.old) }
    ensures handles { IfOk result (λ outcome. HandlesNext D.view host.now D.tells L.tells next.number next.reached outcome (D.view disk.old) (D.view disk.new) (L.state link.old) (L.state link.new) (L.counts link.old) (L.counts link.new)) }
    ensures part { IfErr result (λ none. HandlesPart D.view host.now D.tells L.tells next.number (D.view disk.old) (D.view disk.new) (L.state link.old) (L.state link.new) (L.counts link.old) (L.counts link.new)) }
    ensures touches { D.tells → Throughout (IsOfRelay next.number) (λ image. Unit {0}) (D.view disk.old) (D.view disk.new) }
    ensures closed { L.tells → IfOk result (λ outcome. IsClosed (L.state link.new)) }
    ensures monotone { (file : FileId) → (D.view disk.old).faults file ≤ (D.view disk.new).faults file }
    ensures continues { Continues (L.counts link.old) (L.counts link.new) }
{
    if next.reached {
        forward_log(alloc, disk, link, host, next.number, next.last, notices)
    } else {
        judge_log(disk, next.number)
    }
}

/// Sends the log of this number, if it is complete and not marked.
fn forward_log<D: Disk, L: Link, N: RelayNotices>(
    alloc: Global,
    disk: &mut D,
    link: &mut L,
    host: &str,
    number: LogNo,
    last: u32,
    notices: &mut N,
) -> Result<Outcome, NoMem>
    requires closed { L.tells → IsClosed (L.state link.old) }
    ensures handles { IfOk result (λ outcome. Handles D.view host.now D.tells L.tells number outcome (D.view disk.old) (D.view disk.new) (L.state link.old) (L.state link.new) (L.counts link.old) (L.counts link.new)) }
    ensures part { IfErr result (λ none. HandlesPart D.view host.now D.tells L.tells number (D.view disk.old) (D.view disk.new) (L.state link.old) (L.state link.new) (L.counts link.old) (L.counts link.new)) }
    ensures touches { D.tells → Throughout (IsOfRelay number) (λ image. Unit {0}) (D.view disk.old) (D.view disk.new) }
    ensures closed { L.tells → IfOk result (λ outcome. IsClosed (L.state link.new)) }
    ensures tried { IfOk result (λ outcome. outcome ≢ Outcome.Untried) }
    ensures monotone { (file : FileId) → (D.view disk.old).faults file ≤ (D.view disk.new).faults file }
    ensures continues { Continues (L.counts link.old) (L.counts link.new) }
{
    what_is_kept_is_one();
    let mut relay = match Relay::open(alloc, disk, number, host) {
        Ok(relay) => relay,
        Err(fault) => return unopened(fault),
    };
    if relay.is_done() {
        return Ok(Outcome::Marked);
    }
    notices.relaying(number, last);
    let end = relay.run_one(disk, link, host);
    a_crash_leaves_what_is_kept(&relay, disk);
    ended(end)
}

/// Judges the log of this number, and connects to nobody.
fn judge_log<D: Disk>(disk: &mut D, number: LogNo) -> Result<Outcome, NoMem>
    ensures judges { IfOk result (λ outcome. Judges D.tells number outcome (D.view disk.old) (D.view disk.new)) }
    ensures reads { D.tells → OnlyReads (D.view disk.old) (D.view disk.new) }
    ensures monotone { (file : FileId) → (D.view disk.old).faults file ≤ (D.view disk.new).faults file }
{
    what_is_kept_is_one();
    match is_relayed(disk, number) {
        Ok(true) => Ok(Outcome::Marked),
        Ok(false) => Ok(Outcome::Untried),
        Err(fault) => unopened(fault),
    }
}

/// What becomes of a log that isn't opened. A memory fault ends the run.
fn unopened(fault: RelayFault) -> Result<Outcome, NoMem>
    ensures { IfOk result (λ outcome. IsUnopened fault outcome) }
{
    match fault {
        RelayFault::Incomplete | RelayFault::Log(ViewFault::Absent) => Ok(Outcome::Passed),
        RelayFault::NoMem => Err(NoMem),
        fault => Ok(Outcome::Unopened(fault)),
    }
}

/// What becomes of a log whose connection ended so. A memory fault ends the run.
fn ended(end: Result<RelayEnd, RelayFault>) -> Result<Outcome, NoMem>
    ensures ended { IfOk result (λ outcome. IsEnded end outcome) }
    ensures memory { IfErr result (λ none. IsOutOfMemory end) }
{
    match end {
        Ok(RelayEnd::Done) => Ok(Outcome::Relayed),
        Ok(RelayEnd::Pending(cause)) => Ok(Outcome::Pending(cause)),
        Err(RelayFault::NoMem) => Err(NoMem),
        Err(fault) => Ok(Outcome::Failed(fault)),
    }
}
