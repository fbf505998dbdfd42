//! Each call of a log once, over the disk in memory, which tells its files.
ghost use Rattle.std.specs.Prelude.{IsSome};
ghost use Rattle.lsv_base.specs.Time.{nanos_of};
ghost use Rattle.lsv_iolog.specs.Recovered.{IsUnmade};
ghost use Rattle.lsv_record.specs.Records.{IsValid};

use lsv_base::{Bytes, List, LogNo, Point};
use lsv_disk::{Claim, Disk, MemDisk};
use lsv_info::{Exit, Head, Info};
use lsv_iolog::{
    IoLog, LogFault, LogView, Renewed, ViewFault, a_log_is_recovered_in_one_way, logs_stay,
};
use lsv_record::{Record, Stream};
use std::alloc::Global;
use std::marker::PhantomData;
use std::test::Fail;

/// Makes a log with one record, and commits it.
#[tactic(auto, using(lsv_iolog::proofs::Representing::stages_represents))]
fn made<D: Disk>(
    alloc: Global,
    disk: &mut D,
    number: LogNo,
    head: &Head,
    r: &Record,
) -> Result<Point, LogFault>
    requires unmade { D.tells → IsUnmade number (D.view disk.old) }
    requires timed { IsSome (nanos_of head.now.submit) }
    requires valid { IsValid r.now }
{
    let mut log = IoLog::create(alloc, disk, number, head)?;
    log.append(r)?;
    log.flush(disk)
}

/// Opens it again, and cuts it.
fn cut<D: Disk>(alloc: Global, disk: &mut D, number: LogNo, point: Point) -> Result<(), LogFault> {
    let mut log = IoLog::open(alloc, disk, number)?;
    log.cut_at(disk, point)
}

/// Opens it again, and finishes it.
fn finished<D: Disk>(
    alloc: Global,
    disk: &mut D,
    number: LogNo,
    exit: &Exit,
) -> Result<Point, LogFault>
    requires timed { IsSome (nanos_of exit.now.run) }
{
    let mut log = IoLog::open(alloc, disk, number)?;
    if log.is_complete() {
        return Err(LogFault::Complete);
    }
    log.finish(disk, exit)
}

/// Views it: how many records there are, whether it has its exit, and what renewing answers.
fn viewed<D: Disk>(
    alloc: Global,
    disk: &mut D,
    number: LogNo,
) -> Result<(bool, bool, Renewed), ViewFault> {
    let mut view = LogView::open(alloc, disk, number)?;
    let has_record = view.next(disk)?.is_some() && view.next(disk)?.is_none();
    let has_exit = view.exit(disk)?.is_some();
    let renewed = view.renew(disk)?;
    Ok((has_record, has_exit, renewed))
}

#[test]
fn each_call_is_made_over_a_disk_that_tells_its_files(rt: HostRuntime) -> Result<(), Fail> {
    let alloc = rt.alloc();
    let mut disk = MemDisk::new(alloc, &[])?;
    let number = LogNo::new(1296).ok_or("a number")?;
    let point = Point::new(5).ok_or("a point")?;
    let head = Head {
        submit: point.spec(),
        info: Info {
            entries: List::new(alloc),
        },
    };
    let exit = Exit {
        run: point.spec(),
        value: 0,
        dumped: false,
        signal: Bytes::new(alloc),
        error: Bytes::new(alloc),
    };
    let record = Record::Io {
        delay: 5,
        stream: Stream::Ttyout,
        bytes: Bytes::new(alloc),
    };
    assert_eq!(rt; made(alloc, &mut disk, number, &head, &record)?, point);
    cut(alloc, &mut disk, number, point)?;
    assert_eq!(rt; finished(alloc, &mut disk, number, &exit)?, point);
    assert_eq!(rt;
        viewed(alloc, &mut disk, number)?,
        (true, true, Renewed::Same)
    );
    Ok(())
}

#[test]
fn the_laws_of_logs_are_called(rt: HostRuntime) -> Result<(), Fail> {
    let mut disk = MemDisk::new(rt.alloc(), &[])?;
    let number = LogNo::new(1).ok_or("a number")?;
    a_log_is_recovered_in_one_way();
    if let Ok(log) = IoLog::open(rt.alloc(), &mut disk, number) {
        logs_stay(&log, &log, &disk, &disk, PhantomData::<Nothing>);
        return Err("a log that was not made".into());
    }
    Ok(())
}

/// What holds of calls that touch no file.
struct Nothing;

impl Claim for Nothing {
    ghost touched = { λ _. ⊥ };

    ghost holds = { λ _. Unit {0} };
}
