//! An event log over a disk in memory that tells its files: its calls, and its laws.
ghost use Rattle.std.specs.Prelude.{◌≡◌, false, OnOk};
ghost use Rattle.lsv_eventlog.specs.Value.{Represents, is_broken};

use lsv_bundle::BundleFault;
use lsv_disk::{Claim, Disk, FileId, MemDisk, Owner, Part};
use lsv_eventlog::{EventLog, event_logs_stay, lines_are_recovered_in_one_way};
use std::alloc::Global;
use std::marker::PhantomData;
use std::test::Fail;

/// Adds a line, and flushes it.
fn commit<D: Disk>(log: &mut EventLog, disk: &mut D, line: &[u8]) -> Result<(), BundleFault>
    requires whole { is_broken log.old ≡ false }
    requires represents { D.tells → Represents log.old (D.view disk.old) }
    ensures whole { OnOk result (is_broken log.new ≡ false) }
    ensures represents { D.tells → OnOk result (Represents log.new (D.view disk.new)) }
{
    log.add(line)?;
    log.flush(disk)
}

/// Opens an event log, and commits two lines, one after the other.
fn script<D: Disk>(alloc: Global, disk: &mut D, lane: u32) -> Result<(), BundleFault> {
    let mut log = EventLog::open(alloc, disk, lane)?;
    log.flush(disk)?;
    commit(&mut log, disk, b"one\n")?;
    commit(&mut log, disk, b"two\n")?;
    log.flush(disk)
}

#[test]
fn the_laws_are_called(rt: HostRuntime) -> Result<(), Fail> {
    let mut disk = MemDisk::new(rt.alloc(), &[])?;
    assert_eq!(rt; script(rt.alloc(), &mut disk, 0), Ok(()));
    let lines = FileId::new(Owner::Events(0), Part::Lines);
    assert_eq!(rt; disk.bytes(lines), Some(b"one\ntwo\n".as_slice()));
    let log = EventLog::open(rt.alloc(), &mut disk, 0)?;
    lines_are_recovered_in_one_way();
    event_logs_stay(&log, &log, &disk, &disk, PhantomData::<Nothing>);
    Ok(())
}

/// What holds of calls that touch no file.
struct Nothing;

impl Claim for Nothing {
    ghost touched = { λ _. ⊥ };

    ghost holds = { λ _. Unit {0} };
}
