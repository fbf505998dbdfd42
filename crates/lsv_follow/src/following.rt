//! Following a log on a screen.
ghost use Rattle.std.specs.Prelude.{◌≡◌, ◌++◌, ◌<◌, ℕ, List, [], Err, OnErr, OnOk, IsErr};
ghost use Rattle.lsv_base.specs.Outside.{HasCause};
ghost use Rattle.lsv_disk.specs.View.{HasOwnCause};
ghost use Rattle.lsv_iolog.specs.Recovered.{IsOfLog};
ghost use Rattle.lsv_play.specs.Items.{IsPart};
ghost use Rattle.lsv_play.specs.Schedule.{items_of};
ghost use Rattle.lsv_play.specs.declared.screen.Item.{Item};
ghost use Rattle.lsv_play.specs.declared.fault.PlayFault.TheVariants as plays;
ghost use Rattle.lsv_record.specs.declared.records.Record.{Record};
ghost use Rattle.lsv_follow.specs.Ending.{Follows, FollowsLooks, most_quiet};
ghost use Rattle.lsv_follow.specs.Followed.{followed_by, quiet_after, record_put, seen_from};
ghost use Rattle.lsv_follow.specs.Following.{HasShown};
ghost use Rattle.lsv_follow.specs.Others.{IsReadBeside};
ghost use Rattle.lsv_follow.specs.declared.end.FollowEnd.TheVariants as ends;

use crate::{Follow, FollowEnd, Others, Seen};
use lsv_base::{LogNo, SinkFault};
use lsv_disk::Disk;
use lsv_play::{Options, PlayFault, Screen, play_record};
use std::alloc::Global;

/// How long is waited after a look that found no further record, in nanoseconds.
const PAUSE: u64 = 100_000_000;

/// After this many looks in a row that found no further record the following ends: an hour of pauses.
const MOST_QUIET: u32 = 36_000;

/// Follows the log of this number while others write it. They act after each look read, and after what it found was shown.
/// `Ok` at the log's end, `Quiet` after 36,000 looks in a row that found no further record, and as many
/// pauses of 100 ms. `Resumed` and `Removed` if a look finds the log cut or gone.
pub fn follow_log<D: Disk, S: Screen, O: Others<D>>(
    alloc: Global,
    disk: &mut D,
    number: LogNo,
    o: &Options,
    screen: &mut S,
    others: &mut O,
) -> Result<(), FollowEnd>
    ensures followed { D.tells → (put : List Item) × (saw : List (List Item)) × (S.tells → S.shown screen.new ≡ S.shown screen.old ++ put)
        × (O.notes → S.tells → O.noted others.new ≡ O.noted others.old ++ seen_from (S.shown screen.old) saw) × Follows o.now number (O.later others.old (D.view disk.old).reads) saw result put }
    ensures reads { D.tells → IsReadBeside (O.later others.old (D.view disk.old).reads) (D.view disk.old) (D.view disk.new) }
    ensures disk { HasOwnCause (IsOfLog number) (result ≡ Err (ends.Fault plays.Disk)) (D.view disk.old) (D.view disk.new) }
    ensures screen { HasCause (result ≡ Err (ends.Fault plays.Screen)) (S.faults screen.old) (S.faults screen.new) }
{
    let mut log = Follow::open(alloc, disk, number)?;
    follow_looks(disk, &mut log, o, screen, others)
}

/// Looks at an opened log again and again, and shows what each look finds. A look reads the next record, and then it is
/// checked whether the log was cut meanwhile: only then is what it found shown. The law
/// `a_log_that_was_not_cut_reads_the_same` of lsv_play says why.
fn follow_looks<D: Disk, S: Screen, O: Others<D>>(
    disk: &mut D,
    log: &mut Follow,
    o: &Options,
    screen: &mut S,
    others: &mut O,
) -> Result<(), FollowEnd>
    ensures followed { D.tells → HasShown log.old.view [] (D.view disk.old).reads → (put : List Item) × (saw : List (List Item)) × (S.tells → S.shown screen.new ≡ S.shown screen.old ++ put)
        × (O.notes → S.tells → O.noted others.new ≡ O.noted others.old ++ seen_from (S.shown screen.old) saw) × FollowsLooks o.now log.old.view.number (O.later others.old (D.view disk.old).reads) saw result put }
    ensures reads { D.tells → IsReadBeside (O.later others.old (D.view disk.old).reads) (D.view disk.old) (D.view disk.new) }
    ensures disk { HasOwnCause (IsOfLog log.old.view.number) (result ≡ Err (ends.Fault plays.Disk)) (D.view disk.old) (D.view disk.new) }
    ensures screen { HasCause (result ≡ Err (ends.Fault plays.Screen)) (S.faults screen.old) (S.faults screen.new) }
{
    let mut quiet = 0;
    'looks: for _ in 0..u64::MAX {
        let found = log.next(disk);
        others.act(disk, &*screen);
        log.check(disk)?;
        let seen = found?;
        show_look(o, quiet, &seen, screen)?;
        if let Seen::End = seen {
            return Ok(());
        }
        quiet = quiet_after(quiet, &seen);
        if quiet == MOST_QUIET {
            return Err(FollowEnd::Quiet);
        }
        others.act(disk, &*screen);
    }
    // Never reached: a log has fewer than 2^40 records, and 36,000 looks after each.
    Err(FollowEnd::Fault(PlayFault::NoMem))
}

/// Shows what a look found, after `quiet` looks in a row that found no further record: a record, a pause, or nothing at
/// the log's end.
fn show_look<S: Screen>(
    o: &Options,
    quiet: u32,
    seen: &Seen,
    screen: &mut S,
) -> Result<(), SinkFault>
    ensures shown { S.tells → OnOk result (S.shown screen.new ≡ S.shown screen.old ++ followed_by o.now quiet seen.now) }
    ensures part { OnErr result ((part : List Item) × IsPart part (followed_by o.now quiet seen.now) × (S.tells → S.shown screen.new ≡ S.shown screen.old ++ part)) }
    ensures cause { HasCause (IsErr result) (S.faults screen.old) (S.faults screen.new) }
{
    match seen {
        Seen::Record(record) => play_record(&options_after(o, quiet), record, screen),
        Seen::Nothing => screen.wait(PAUSE),
        Seen::End => Ok(()),
    }
}

/// How a record is shown: as in play, but at once if the look before found nothing.
fn options_after(o: &Options, quiet: u32) -> Options
    ensures { (r : Record) → items_of result r ≡ record_put o.now quiet r }
{
    if quiet == 0 {
        return *o;
    }
    Options {
        streams: o.streams,
        longest: Some(0),
        speed: o.speed,
        suspended: o.suspended,
    }
}

/// The number of looks in a row that found no further record, with one look more.
fn quiet_after(quiet: u32, seen: &Seen) -> u32
    requires { quiet < most_quiet }
    ensures { result ≡ quiet_after quiet seen.now }
{
    match seen {
        Seen::Record(_) => 0,
        Seen::Nothing => quiet + 1,
        Seen::End => quiet,
    }
}
