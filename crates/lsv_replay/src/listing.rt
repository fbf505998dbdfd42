//! The listing of the logs that are searched for.
ghost use Rattle.std.specs.Prelude.{◌≡◌, ◌≤◌, ◌++◌, List, Option, Err, IfOk, IsSome};
ghost use Rattle.lsv_base.specs.Outside.{HasCause};
ghost use Rattle.lsv_base.specs.Time.{nanos_of};
ghost use Rattle.lsv_disk.specs.Throughout.{OnlyReads};
ghost use Rattle.lsv_disk.specs.View.{HasOwnCause};
ghost use Rattle.lsv_iolog.specs.Recovered.{IsOfLog};
ghost use Rattle.lsv_play.specs.declared.screen.Item.{Item};
ghost use Rattle.lsv_search.specs.Grammar.{Expression};
ghost use Rattle.lsv_search.specs.Steps.{AreStepsOf};
ghost use Rattle.lsv_replay.specs.Faults.{of_log};
ghost use Rattle.lsv_replay.specs.Listing.{Lists, line_of};
ghost use Rattle.lsv_replay.specs.Numbers.{IsListed};
ghost use Rattle.lsv_replay.specs.Walk.{ListsHead, ListsOne, ListsTo};
ghost use Rattle.lsv_replay.specs.declared.fault.ListFault.TheVariants as faults;

use crate::numbers::last_number;
use crate::{Gaps, ListFault};
use lsv_base::{Bytes, LogNo, NoMem};
use lsv_disk::{Disk, Part};
use lsv_event::{Event, Peer, sudo_line};
use lsv_info::Head;
use lsv_iolog::{LogView, ViewFault};
use lsv_play::Screen;
use lsv_search::{Expr, matches};
use std::alloc::Global;

/// A line says nothing of the connection by which a command came.
const NOBODY: Peer = Peer { worker: 0, seq: 0 };

/// Shows the line of each log that matches the expression, by rising number, from 1 to the last one drawn. Gaps between
/// the logs are passed over at once. A damaged log is passed over, and reported by the answer.
pub fn list_logs<D: Disk, S: Screen, G: Gaps<D>>(
    alloc: Global,
    disk: &mut D,
    e: &Expr,
    screen: &mut S,
    gaps: &mut G,
) -> Result<(), ListFault>
    ensures listed { D.tells → (searched : Option Expression) → AreStepsOf searched e.now
        → (put : List Item) × (S.tells → S.shown screen.new ≡ S.shown screen.old ++ put) × Lists searched (D.view disk.old).reads result put }
    ensures reads { D.tells → OnlyReads (D.view disk.old) (D.view disk.new) }
    ensures disk { HasOwnCause IsListed (result ≡ Err faults.Disk) (D.view disk.old) (D.view disk.new) }
    ensures screen { HasCause (result ≡ Err faults.Screen) (S.faults screen.old) (S.faults screen.new) }
{
    let last = last_number(disk)?;
    match list_to(alloc, disk, e, last, screen, gaps)? {
        None => Ok(()),
        Some(part) => Err(ListFault::Damaged(part)),
    }
}

/// Lists the logs of the numbers from 1 to the last one. Answers the part at fault of the first that is damaged.
fn list_to<D: Disk, S: Screen, G: Gaps<D>>(
    alloc: Global,
    disk: &mut D,
    e: &Expr,
    last: u32,
    screen: &mut S,
    gaps: &mut G,
) -> Result<Option<Part>, ListFault>
    ensures listed { D.tells → last ≤ 2176782335 → (searched : Option Expression) → AreStepsOf searched e.now
        → (put : List Item) × (S.tells → S.shown screen.new ≡ S.shown screen.old ++ put) × ListsTo searched (D.view disk.old).reads last result put }
    ensures reads { D.tells → OnlyReads (D.view disk.old) (D.view disk.new) }
    ensures disk { HasOwnCause IsListed (result ≡ Err faults.Disk) (D.view disk.old) (D.view disk.new) }
    ensures screen { HasCause (result ≡ Err faults.Screen) (S.faults screen.old) (S.faults screen.new) }
{
    let mut first = None;
    let mut listed = 0;
    'numbers: while listed < last {
        let next = gaps.next(disk, listed + 1);
        if next > last {
            return Ok(first);
        }
        let Some(number) = LogNo::new(next) else {
            // Never reached if the disk tells its content: no entry of a number file has a greater number.
            return Err(ListFault::Damaged(Part::Slots));
        };
        let damage = list_log(alloc, disk, e, number, screen, gaps)?;
        first = first.or(damage);
        listed = next;
    }
    Ok(first)
}

/// Lists the log of this number, if it exists and is searched for. Answers the part at fault if it is damaged.
fn list_log<D: Disk, S: Screen, G: Gaps<D>>(
    alloc: Global,
    disk: &mut D,
    e: &Expr,
    number: LogNo,
    screen: &mut S,
    gaps: &mut G,
) -> Result<Option<Part>, ListFault>
    ensures listed { D.tells → (searched : Option Expression) → AreStepsOf searched e.now
        → (put : List Item) × (S.tells → S.shown screen.new ≡ S.shown screen.old ++ put) × ListsOne searched (D.view disk.old).reads number result put }
    ensures reads { D.tells → OnlyReads (D.view disk.old) (D.view disk.new) }
    ensures disk { HasOwnCause (IsOfLog number) (result ≡ Err faults.Disk) (D.view disk.old) (D.view disk.new) }
    ensures screen { HasCause (result ≡ Err faults.Screen) (S.faults screen.old) (S.faults screen.new) }
{
    match LogView::open(alloc, disk, number) {
        Ok(log) => list_head(alloc, e, number, log.into_head(), screen),
        Err(fault) => {
            let damage = damage_of(fault);
            if let Ok(part) = damage {
                gaps.note(number, part);
            }
            damage
        }
    }
}

/// What a listing does with a log that isn't opened: it is passed over if it is absent or damaged.
fn damage_of(fault: ViewFault) -> Result<Option<Part>, ListFault>
    ensures { result ≡ of_log fault }
{
    match fault {
        ViewFault::Absent => Ok(None),
        ViewFault::Damaged(part) => Ok(Some(part)),
        ViewFault::Disk => Err(ListFault::Disk),
        ViewFault::NoMem => Err(ListFault::NoMem),
    }
}

/// Shows the line of a log with this head, if it is searched for.
fn list_head<S: Screen>(
    alloc: Global,
    e: &Expr,
    number: LogNo,
    head: Head,
    screen: &mut S,
) -> Result<Option<Part>, ListFault>
    ensures listed { IsSome (nanos_of head.submit) → (searched : Option Expression) → AreStepsOf searched e.now
        → (put : List Item) × (S.tells → S.shown screen.new ≡ S.shown screen.old ++ put) × ListsHead searched number head result put }
    ensures no_disk { result ≡ Err faults.Disk → ⊥ }
    ensures screen { HasCause (result ≡ Err faults.Screen) (S.faults screen.old) (S.faults screen.new) }
{
    // A head that was read has a valid time.
    if head.submit.delay().is_none() {
        return Ok(Some(Part::Head));
    }
    if matches(alloc, e, &head)? {
        let line = line_of(alloc, number, head)?;
        screen.put(line.as_slice())?;
    }
    Ok(None)
}

#[tactic(auto, unfolding(crate::specs::Listing::line_of))]
/// The line of a log: that of the event by which it was accepted.
fn line_of(alloc: Global, number: LogNo, head: Head) -> Result<Bytes, NoMem>
    requires timed { IsSome (nanos_of head.submit) }
    ensures { IfOk result (λ line. line ≡ line_of number head) }
{
    let accept = Event::Accept {
        at: head.submit,
        peer: NOBODY,
        log: Some(number),
        head,
    };
    sudo_line(alloc, &accept)
}
