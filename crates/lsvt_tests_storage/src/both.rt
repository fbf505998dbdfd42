//! Two bundles of different owners on one disk in memory that tells its files.
ghost use Rattle.lsv_journal.specs.Last.{MayBeMade};
ghost use Rattle.lsv_bundle.specs.Shape.{journal_of};

use crate::flush_both;
use lsv_bundle::{Bundle, BundleFault, Shape};
use lsv_disk::{Disk, FileId, MemDisk, Owner, Part};
use std::alloc::Global;
use std::test::Fail;

const EVENTS: Owner = Owner::Events(0);

const RELAY: Owner = Owner::Relay(7);

/// Makes two bundles, stages in both, and flushes both.
fn script<D: Disk>(alloc: Global, disk: &mut D) -> Result<(), BundleFault>
    requires lines { D.tells → MayBeMade 89 (journal_of EVENTS) (D.view disk.old) }
    requires relay { D.tells → MayBeMade 89 (journal_of RELAY) (D.view disk.old) }
{
    let mut lines = Bundle::create(alloc, disk, EVENTS, Shape::Lines)?;
    let mut relay = Bundle::create(alloc, disk, RELAY, Shape::Relay)?;
    lines.stage(Part::Lines, b"one")?;
    relay.stage(Part::Id, b"seven")?;
    flush_both(&mut lines, &mut relay, disk)
}

/// A disk on which both are flushed.
fn story(alloc: Global) -> Result<(MemDisk, Result<(), BundleFault>), Fail> {
    let mut disk = MemDisk::new(alloc, &[])?;
    let answer = script(alloc, &mut disk);
    Ok((disk, answer))
}

#[test]
fn two_bundles_are_flushed_one_after_the_other(rt: HostRuntime) -> Result<(), Fail> {
    let (disk, answer) = story(rt.alloc())?;
    assert_eq!(rt; answer, Ok(()));
    let lines = disk
        .bytes(FileId::new(EVENTS, Part::Lines))
        .ok_or("absent")?;
    assert_eq!(rt; lines, b"one".as_slice());
    let id = disk.bytes(FileId::new(RELAY, Part::Id)).ok_or("absent")?;
    assert_eq!(rt; id, b"seven".as_slice());
    Ok(())
}
