//! Playing a log.
ghost use Rattle.std.specs.Prelude.{◌≡◌, ◌++◌, ℕ, List, [], Err};
ghost use Rattle.lsv_base.specs.Outside.{HasCause};
ghost use Rattle.lsv_disk.specs.Throughout.{OnlyReads};
ghost use Rattle.lsv_disk.specs.View.{HasOwnCause};
ghost use Rattle.lsv_iolog.specs.Recovered.{IsOfLog};
ghost use Rattle.lsv_play.specs.declared.screen.Item.{Item};
ghost use Rattle.lsv_play.specs.Ahead.{IsReached, PlaysOn};
ghost use Rattle.lsv_play.specs.Playing.{Plays, PlaysRecords, laid_at};
ghost use Rattle.lsv_play.specs.declared.fault.PlayFault.TheVariants as faults;
ghost use Rattle.lsv_record.specs.declared.records.Record.{Record};

use crate::ahead::{Next, check_uncut, read_ahead};
use crate::{Options, PlayFault, Screen, play};
use lsv_base::LogNo;
use lsv_disk::Disk;
use lsv_iolog::LogView;
use std::alloc::Global;

/// Plays the log of this number, as its files read. What is shown at a fault is a first part of the schedule of its
/// records. `Absent` comes if its journal has no entry, `Damaged` at the first part at fault, `Disk` if a device call on
/// its files failed, `Screen` if the screen failed, `NoMem` if memory ran out. `Resumed` comes if the log was cut since
/// it was opened. It never comes of a disk that tells its content, which nobody writes meanwhile.
pub fn play_log<D: Disk, S: Screen>(
    alloc: Global,
    disk: &mut D,
    number: LogNo,
    o: &Options,
    screen: &mut S,
) -> Result<(), PlayFault>
    ensures played { D.tells → (put : List Item) × (S.tells → S.shown screen.new ≡ S.shown screen.old ++ put) × Plays o.now number (D.view disk.old).reads result put }
    ensures reads { D.tells → OnlyReads (D.view disk.old) (D.view disk.new) }
    ensures disk { HasOwnCause (IsOfLog number) (result ≡ Err faults.Disk) (D.view disk.old) (D.view disk.new) }
    ensures screen { HasCause (result ≡ Err faults.Screen) (S.faults screen.old) (S.faults screen.new) }
{
    let mut log = LogView::open(alloc, disk, number)?;
    play_records(alloc, disk, &mut log, o, screen)
}

/// Plays all records of a log that was just opened.
fn play_records<D: Disk, S: Screen>(
    alloc: Global,
    disk: &mut D,
    log: &mut LogView,
    o: &Options,
    screen: &mut S,
) -> Result<(), PlayFault>
    ensures played { D.tells → IsReached log.old [] (D.view disk.old) → (put : List Item) × (S.tells → S.shown screen.new ≡ S.shown screen.old ++ put)
        × PlaysRecords o.now (laid_at log.old.number log.old.body (D.view disk.old).reads) log.old.body result put }
    ensures reads { D.tells → OnlyReads (D.view disk.old) (D.view disk.new) }
    ensures disk { HasOwnCause (IsOfLog log.old.number) (result ≡ Err faults.Disk) (D.view disk.old) (D.view disk.new) }
    ensures screen { HasCause (result ≡ Err faults.Screen) (S.faults screen.old) (S.faults screen.new) }
{
    'pieces: for _ in 0..u64::MAX {
        let is_end = play_piece(alloc, disk, log, o, screen)?;
        if is_end {
            return Ok(());
        }
    }
    // Never reached: a log has fewer than 2^40 records.
    Err(PlayFault::NoMem)
}

/// Plays the next records of a log. True if it ends with them. They are read, then the log is looked at again, and only
/// then are they shown: the law `a_log_that_was_not_cut_reads_the_same` says why.
fn play_piece<D: Disk, S: Screen>(
    alloc: Global,
    disk: &mut D,
    log: &mut LogView,
    o: &Options,
    screen: &mut S,
) -> Result<bool, PlayFault>
    ensures played { D.tells → (before : List Record) → IsReached log.old before (D.view disk.old) → (put : List Item) × (S.tells → S.shown screen.new ≡ S.shown screen.old ++ put)
        × PlaysOn o.now log.old log.new (D.view disk.old) (D.view disk.new) before result put }
    ensures same { (log.new.number ≡ log.old.number) × (log.new.body ≡ log.old.body) }
    ensures reads { D.tells → OnlyReads (D.view disk.old) (D.view disk.new) }
    ensures disk { HasOwnCause (IsOfLog log.old.number) (result ≡ Err faults.Disk) (D.view disk.old) (D.view disk.new) }
    ensures screen { HasCause (result ≡ Err faults.Screen) (S.faults screen.old) (S.faults screen.new) }
{
    let piece = read_ahead(alloc, disk, log)?;
    check_uncut(disk, log)?;
    play(o, piece.records.as_slice(), screen)?;
    match piece.next {
        Next::More => Ok(false),
        Next::End => Ok(true),
        Next::Fault(fault) => Err(PlayFault::from(fault)),
    }
}
