//! The disk in memory, which tells its files: each call once, and its laws.
use lsv_disk::{
    Claim, Disk, FileId, MemDisk, Owner, Part, reads_compose, throughout_composes,
    throughout_widens, write_synced,
};
use std::marker::PhantomData;
use std::test::Fail;

const LOG: FileId = FileId {
    owner: Owner::Log(7),
    part: Part::Stdout,
};

/// What holds of any calls.
struct Anything;

impl Claim for Anything {
    ghost touched = { λ _. Unit {0} };

    ghost holds = { λ _. Unit {0} };
}

#[test]
fn the_theorems_hold_at_this_disk(rt: HostRuntime) -> Result<(), Fail> {
    let disk = MemDisk::new(rt.alloc(), &[])?;
    throughout_composes(&disk, &disk, &disk, PhantomData::<Anything>);
    throughout_widens(
        &disk,
        &disk,
        PhantomData::<Anything>,
        PhantomData::<Anything>,
    );
    reads_compose(&disk, &disk, &disk, PhantomData::<Anything>);
    disk.what_a_crash_may_leave();
    Ok(())
}

#[test]
fn each_call_succeeds(rt: HostRuntime) -> Result<(), Fail> {
    let mut disk = MemDisk::new(rt.alloc(), &[])?;
    disk.root("store", "store/events");
    assert_eq!(rt; disk.length(LOG), Ok(None));
    disk.create(LOG)?;
    write_synced(&mut disk, LOG, 0, b"abc")?;
    disk.write_at(LOG, 2, b"de")?;
    disk.sync(LOG)?;
    let mut buf = [0; 8];
    assert_eq!(rt; disk.read_at(LOG, 0, &mut buf), Ok(4));
    assert_eq!(rt; buf, *b"abde\0\0\0\0");
    assert_eq!(rt; (disk.failures(LOG), disk.refused()), (0, 0));
    Ok(())
}

#[test]
fn files_are_made_together(rt: HostRuntime) -> Result<(), Fail> {
    let mut disk = MemDisk::new(rt.alloc(), &[])?;
    disk.root("store", "store/events");
    disk.create_all(Owner::Log(7), &[Part::Head, Part::Timing])?;
    let timing = FileId::new(Owner::Log(7), Part::Timing);
    assert_eq!(rt; disk.bytes(timing), Some(b"".as_slice()));
    Ok(())
}
