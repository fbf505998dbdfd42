//! The keeper over a disk in memory.

ghost use Rattle.lsv_keeper.specs.Value.{IsResting};
ghost use Rattle.lsv_keeper.specs.Views.{view_of};
ghost use Rattle.std.specs.Prelude.{IfOk};

use crate::show::{ends_lines, line_lines, log_lines};
use crate::unwatched::Unwatched;
use anyhow::{Result, anyhow};
use lsv_base::{Bytes, List, LogNo, TimeSpec};
use lsv_disk::{FileId, Owner, Part};
use lsv_hook::{Formatter, SudoLines};
use lsv_iolog::{LogView, ViewFault};
use lsv_keeper::{Keeper, LaneId, Policy, more_room_changes_nothing};
use lsv_mask::{Prompt, TextSearch};
use lsv_session::{Job, Reply};
use lsvt_model::RunSettings;
use std::alloc::Global;

/// A keeper of sudo's lines and of the search that is linear.
pub type Kept = Keeper<SudoLines, TextSearch>;

/// Opens the store of a disk.
pub fn open_keeper(
    alloc: Global,
    disk: &mut Unwatched,
    settings: RunSettings,
    texts: List<Bytes>,
) -> Result<Kept>
    ensures { IfOk result (λ k. IsResting (view_of k)) }
{
    if settings.lane >= settings.lanes || settings.lanes > 8 {
        return Err(anyhow!("a lane"));
    }
    let lane = LaneId {
        number: settings.lane,
        of: settings.lanes,
    };
    let policy = Policy {
        formatter: Formatter::sudo(),
        log_exit: settings.log_exit,
        texts,
        prompt: Prompt::new(TextSearch),
    };
    let keeper = Keeper::open(alloc, disk, lane, policy)?;
    Ok(keeper)
}

/// The keeper's replies to a turn of these jobs.
pub fn keeper_turn(
    alloc: Global,
    keeper: &mut Kept,
    disk: &mut Unwatched,
    jobs: Vec<Job>,
) -> Result<Vec<Reply>>
    requires { IsResting (view_of keeper.old) }
    ensures { IsResting (view_of keeper.new) }
{
    let mut replies = Vec::new(alloc);
    more_room_changes_nothing::<Unwatched>();
    keeper.ready(jobs.len(), &mut replies)?;
    keeper.turn(disk, TimeSpec { sec: 0, nsec: 0 }, jobs, &mut replies);
    Ok(replies)
}

/// The lines of a stored log; none where there is no such log.
fn stored_lines(alloc: Global, disk: &mut Unwatched, number: LogNo) -> Result<String> {
    let mut view = match LogView::open(alloc, disk, number) {
        Ok(view) => view,
        Err(ViewFault::Absent) => return Ok(String::new(alloc)),
        Err(fault) => return Err(fault.into()),
    };
    let body = view.body();
    let mut records = Vec::new(alloc);
    for _ in 0..body.count {
        if let Some(r) = view.next(disk)? {
            records.push(r)?;
        }
    }
    let has_exit = view.exit(disk)?.is_some();
    log_lines(alloc, number, &records, body.elapsed, body.extra, has_exit)
}

/// The files of a log's head and exit, where it is there.
fn stored_ends(alloc: Global, disk: &Unwatched, number: LogNo) -> Result<String> {
    let owner = Owner::Log(number.get());
    let head = disk.bytes(FileId::new(owner, Part::Head)).unwrap_or(&[]);
    let exit = disk.bytes(FileId::new(owner, Part::Exit)).unwrap_or(&[]);
    ends_lines(alloc, head, exit)
}

/// The lines of the event log of a lane, as its file holds them.
pub fn event_lines(alloc: Global, disk: &Unwatched, lane: u32) -> Result<String> {
    let file = FileId::new(Owner::Events(lane), Part::Lines);
    line_lines(alloc, disk.bytes(file).unwrap_or(&[]))
}

/// The lines of the logs up to a number; is_whole: with those of their heads and exits.
pub fn stored_logs(
    alloc: Global,
    disk: &mut Unwatched,
    most: u32,
    is_whole: bool,
) -> Result<String> {
    let mut lines = String::new(alloc);
    for n in 1..=most {
        let number = LogNo::new(n).ok_or(anyhow!("a number"))?;
        lines.push_str(stored_lines(alloc, disk, number)?.as_str())?;
        if is_whole {
            lines.push_str(stored_ends(alloc, disk, number)?.as_str())?;
        }
    }
    Ok(lines)
}
